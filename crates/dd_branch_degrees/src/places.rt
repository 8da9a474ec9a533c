ghost use Rattle.std.specs.Prelude.{◌≡◌, ◌↔◌, ℕ, ◌+◌, ◌*◌, ◌/◌, ◌≤◌, ◌<◌, IsTrue, IfSome, length, slice_index_or};
ghost use Rattle.std.specs.Int.{bit_at};
ghost use Rattle.dd_model.specs.Symbol.{IsChamber};
ghost use Rattle.dd_symbol.specs.Images.{AreThreeInvolutions};
ghost use Rattle.dd_model.specs.Wanted.{IsCrystallographic};
ghost use Rattle.dd_branch_degrees.specs.Choice.{HasBranching, HasShares};
ghost use Rattle.dd_branch_degrees.specs.Place.{ArePlaces, AreTurns, HasPlaceOf, HasPlaces, HasSides, IsPlaceOf, IsSmallerInCell};
ghost use Rattle.dd_branch_degrees.specs.declared.places.DegreeSlot.{DegreeSlot as Known};

use arrayvec::ArrayVec;
use dd_model::{Allowed, Pair, Request};
use dd_symbol::{CellShape, Involutions, Kind};

/// What a table decides of one degree. The degrees of a table have places, those of the tiles at
/// the chambers 1 to n first, and then those of the vertices. The budget is counted in twelfths.
#[derive(Clone, Copy, Default, Drop)]
pub struct DegreeSlot {
    /// The place of the least chamber of the cell.
    pub(crate) root: u8,
    /// The least positive number of turns that fixes a chamber of the cell.
    pub(crate) turns: u8,
    /// How many chambers the cell has for each turn, 2 or 1; at other chambers than the least 0.
    pub(crate) sides: u8,
    /// At least what the degree will have of the budget.
    pub(crate) most: u8,
    /// What the degree may have of the budget beyond its least, which is 2 for each side, as bits:
    /// a share for each branching value that its set allows. At other chambers than the least 0.
    pub(crate) shares: u32,
}

impl DegreeSlot {
    /// The degree that has so much of the budget beyond its least.
    pub(crate) fn degree_with(&self, share: u8) -> u8
        requires sides { (1 ≤ self.now.sides) × (self.now.sides ≤ 2) }
        requires turns { self.now.turns ≤ 36 }
        requires share { HasBranching self.now.sides share }
        ensures { (v : ℕ) → IsCrystallographic v
            → share + 2 * self.now.sides ≡ self.now.sides * (12 / v)
            → result ≡ v * self.now.turns }
    {
        VALUES[(share >> (self.sides / 2)) as usize] * self.turns
    }
}

/// How many chambers a cell has for each turn, at its least chamber.
fn sides_of(shape: &CellShape, chamber: u32) -> u8
    ensures sides { HasSides shape.now chamber result }
    ensures small { result ≤ 2 }
{
    if shape.least != chamber {
        return 0;
    }
    match shape.kind {
        Kind::Cycle => 2,
        Kind::Chain => 1,
    }
}

/// The parts of sides with the branching values 1 to 6, each at its value: 12, 6, 4, 3 and 2
/// twelfths for the values 1, 2, 3, 4 and 6. The value 5 is not tried.
const PARTS: [u8; 7] = [0, 12, 6, 4, 3, 2, 2];

/// The branching values of flat symbols, each at what a side with it has of the budget beyond 2.
/// The table spares the search for degrees a division.
///
/// The values 1, 2, 3, 4 and 6 are at 10, 4, 2, 1 and 0. So a cycle with 3 turns that takes 4
/// beyond its least takes 2 for each of its 2 sides: its value is 3, and its degree 9.
const VALUES: [u8; 11] = [6, 4, 3, 0, 2, 0, 0, 0, 0, 0, 1];

/// Returns what `sides` sides of a cell with a branching value take of the budget beyond 2 each.
fn share_of(value: u8, sides: u8) -> u8
    requires value { (1 ≤ value) × (value ≤ 6) }
    requires sides { sides ≤ 2 }
    ensures share { result + 2 * sides ≡ sides * (12 / value) }
    ensures small { result ≤ 20 }
{
    sides * (PARTS[value as usize] - 2)
}

/// Returns what a degree of a cell with these turns and sides may take of the budget beyond its
/// least, as bits: a share for each branching value that a set allows.
///
/// If the set has 4 and 6, a cell with 2 turns may have the values 2 and 3. A chain then takes 4 or
/// 2, which are the bits 4 and 2; a cycle takes 8 or 4.
fn shares_of(set: &Allowed, turns: u8, sides: u8) -> u32
    requires turns { turns ≤ 36 }
    requires sides { sides ≤ 2 }
    ensures { HasShares set.now turns sides result }
{
    let mut shares = 0;
    for value in 1..7u8 {
        if value != 5 && set.has(u32::from(value * turns)) {
            shares |= 1 << share_of(value, sides);
        }
    }
    shares
}

/// The most that a degree has of the budget: its greatest share, beyond the least.
fn most_part(shares: u32, sides: u8) -> u8
    requires sides { sides ≤ 2 }
    requires shares { (e : ℕ) → bit_at shares e ≡ 1 → e ≤ 10 * sides }
    ensures most { (e : ℕ) → bit_at shares e ≡ 1 → e + 2 * sides ≤ result }
    ensures small { result ≤ sides * 12 }
{
    if shares == 0 {
        return 0;
    }
    shares.ilog2() as u8 + 2 * sides
}

/// Returns what a table decides of the degree of a pair at a chamber whose cell is walked, if
/// chamber 1 has the place `first`.
fn place_of(table: &Involutions, set: &Allowed, pair: Pair, first: u8, chamber: u32) -> DegreeSlot
    requires three { AreThreeInvolutions table.now }
    requires small { table.now.size ≤ 36 }
    requires first { first ≤ 36 }
    requires chamber { IsChamber table.now chamber }
    ensures { IsPlaceOf table.now set.now pair first chamber result }
{
    let shape = table.cell(pair, chamber);
    let turns = shape.r as u8;
    let sides = sides_of(&shape, chamber);
    let shares = shares_of(set, turns, sides);
    DegreeSlot {
        root: first + (shape.least - 1) as u8,
        turns,
        sides,
        most: most_part(shares, sides),
        shares,
    }
}

/// Returns the place of another chamber of the cell, which takes nothing of the budget.
fn beside(place: &DegreeSlot) -> DegreeSlot
    ensures root { result.root ≡ place.now.root }
    ensures turns { result.turns ≡ place.now.turns }
    ensures sides { result.sides ≡ 0 }
    ensures most { result.most ≡ 0 }
{
    DegreeSlot {
        root: place.root,
        turns: place.turns,
        sides: 0,
        most: 0,
        shares: 0,
    }
}

/// A smaller chamber beside a chamber in its cell, if there is one. Most that are not the least of
/// their cells have one.
fn smaller_neighbor(table: &Involutions, pair: Pair, chamber: u32) -> Option<u32>
    requires { IsChamber table.now chamber }
    ensures { IfSome result (λ smaller. IsSmallerInCell table.now pair chamber smaller) }
{
    let first = table.op(pair.first(), chamber);
    if first < chamber {
        return Some(first);
    }
    let second = table.op(pair.second(), chamber);
    if second < chamber {
        return Some(second);
    }
    None
}

/// Adds what a table decides of the degree of a pair at a chamber, if the degrees of the smaller
/// chambers are at the places from `first` on. It walks a cell only if no neighbor is smaller.
fn add_place(
    places: &mut ArrayVec<DegreeSlot, 72>,
    table: &Involutions,
    set: &Allowed,
    pair: Pair,
    first: u8,
    chamber: u32,
)
    requires three { AreThreeInvolutions table.now }
    requires small { table.now.size ≤ 36 }
    requires first { first ≤ 36 }
    requires chamber { IsChamber table.now chamber }
    requires before { first + chamber ≡ length places.old.items + 1 }
    requires places { (k : ℕ) (x : Known) → k + 1 < chamber → IsPlaceOf table.now set.now pair
        first (k + 1) (slice_index_or places.old.items (first + k) x) }
    ensures { HasPlaceOf table.now set.now pair first chamber places.old.items places.new.items }
{
    match smaller_neighbor(table, pair, chamber) {
        Some(smaller) => {
            let place = beside(&places.as_slice()[first as usize + smaller as usize - 1]);
            places.push(place);
        }
        None => places.push(place_of(table, set, pair, first, chamber)),
    }
}

/// Adds the places of a pair, one for each chamber.
fn add_places(places: &mut ArrayVec<DegreeSlot, 72>, table: &Involutions, set: &Allowed, pair: Pair)
    requires small { table.now.size ≤ 36 }
    requires room { length places.old.items ≤ 36 }
    ensures { HasPlaces table.now set.now pair places.old.items table.now.size places.new.items }
{
    let first = places.len() as u8;
    for k in 0..table.size() {
        add_place(places, table, set, pair, first, k + 1);
    }
}

/// Returns what a table decides of its degrees. It reads only the involutions.
pub(crate) fn all_places(table: &Involutions, q: &Request) -> ArrayVec<DegreeSlot, 72>
    requires { table.now.size ≤ 36 }
    ensures { ArePlaces q.now table.now result.items }
{
    let mut places = ArrayVec::new();
    add_places(&mut places, table, &q.faces, Pair::Tile);
    add_places(&mut places, table, &q.degrees, Pair::Vertex);
    places
}

/// The least positive numbers of turns of some places.
pub(crate) fn turns_of(places: &ArrayVec<DegreeSlot, 72>) -> ArrayVec<u8, 72>
    ensures { AreTurns places.now.items result.items }
{
    let places = places.as_slice();
    let mut turns = ArrayVec::new();
    for place in places {
        turns.push(place.turns);
    }
    turns
}
