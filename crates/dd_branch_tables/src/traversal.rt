ghost use Rattle.std.specs.Prelude.{◌≡◌, ℕ, ◌+◌, ◌-◌, ◌*◌, [], ◌∷◌, ◌++◌, ◌≤◌, length, set};
ghost use Rattle.dd_model.specs.Symbol.{item};
ghost use Rattle.dd_canon.specs.Traversal.{IsMeeting};
ghost use Rattle.dd_branch_tables.specs.Beaten.{IsBeaten};
ghost use Rattle.dd_branch_tables.specs.Open.{IsOpen};
ghost use Rattle.dd_branch_tables.specs.Passed.{IsPassed};
ghost use Rattle.dd_branch_tables.specs.Rows.{partial_of};
ghost use Rattle.dd_branch_tables.specs.FirstVisits.{AreNumbered};

use crate::partial_table::PartialTable;
use crate::sleepers::NOWHERE;
use arrayvec::ArrayVec;

/// Chambers in the order in which a traversal meets them, and the number of each, 0 where it has
/// none. It serves for one traversal after another, and no call allocates.
#[derive(Drop)]
pub struct FirstVisits {
    order: ArrayVec<u8, 36>,
    number: [u8; 36],
    ghost are_numbered: { AreNumbered order.items number },
}

impl FirstVisits {
    /// A visit that has met no chamber.
    pub fn new() -> FirstVisits {
        let order = ArrayVec::new();
        let number = [0; 36];
        FirstVisits { order, number }
    }

    /// A chamber without a number gets the next one.
    fn add(&mut self, chamber: u8) -> u8
        requires chamber { (1 ≤ chamber) × (chamber ≤ 36) }
        requires none { item self.old.number chamber ≡ 0 }
        ensures order { self.new.order.items ≡ self.old.order.items ++ chamber ∷ [] }
        ensures number { self.new.number ≡ set self.old.number (chamber - 1)
            (length self.old.order.items + 1) }
        ensures next { result ≡ length self.old.order.items + 1 }
    {
        self.order.push(chamber);
        let number = self.order.len() as u8;
        self.number[chamber as usize - 1] = number;
        number
    }

    /// Only the start has a number.
    fn begin(&mut self, start: u8)
        requires { (1 ≤ start) × (start ≤ 36) }
        ensures { self.new.order.items ≡ start ∷ [] }
    {
        self.order = ArrayVec::new();
        self.number = [0; 36];
        self.add(start);
    }

    /// The number of a chamber, the next one where it has none.
    fn meet(&mut self, chamber: u8) -> u8
        requires { (1 ≤ chamber) × (chamber ≤ 36) }
        ensures { IsMeeting self.old.order.items self.new.order.items
            self.new.number chamber result }
    {
        let known = self.number[chamber as usize - 1];
        if known != 0 {
            return known;
        }
        self.add(chamber)
    }
}

/// How the traversal from a start chamber compares with a prefix. It reads as the prefix and then
/// smaller, or larger, whatever else is put in. Or that is not decided before the image at a place
/// is known.
#[derive(Clone, Copy, Debug, PartialEq, Eq)]
pub enum Standing {
    Smaller,
    Larger,
    Open(u8),
}

/// Where the traversal from a start chamber stands. Where it comes to an image that is not known,
/// or to the end of the prefix, nothing is decided, nor ever where it has met all that it leads to.
/// The three images of a chamber, a row, stand side by side from its first place on. A search calls
/// this for each start at each number that it puts in, so it is inlined.
#[inline(always)]
pub fn stand(rows: &PartialTable, prefix: &[u8], start: u8, visit: &mut FirstVisits) -> Standing
    requires start { (1 ≤ start) × (start ≤ (partial_of rows.now).size) }
    requires short { length prefix.now ≤ 3 * (partial_of rows.now).size }
    ensures open { (place : ℕ) → result ≡ Standing.Open place
        → IsOpen (partial_of rows.now) prefix.now start }
    ensures beaten { result ≡ Standing.Smaller → IsBeaten (partial_of rows.now) prefix.now }
    ensures larger { result ≡ Standing.Larger → IsPassed (partial_of rows.now) prefix.now start }
{
    prove!(start <= rows.size());
    visit.begin(start);
    let mut place = 0;
    let mut row = 0;
    while place < prefix.len() {
        if row >= visit.order.len() {
            return Standing::Open(NOWHERE);
        }
        let first = 3 * (visit.order[row] - 1);
        for offset in 0..3 {
            // the prefix may end within a row
            if place >= prefix.len() {
                return Standing::Open(prefix.len() as u8);
            }
            let image = rows.number_at(first + offset);
            if image == 0 {
                return Standing::Open(first + offset);
            }
            let number = visit.meet(image);
            if number < prefix[place] {
                return Standing::Smaller;
            }
            if number > prefix[place] {
                return Standing::Larger;
            }
            place += 1;
        }
        row += 1;
    }
    Standing::Open(prefix.len() as u8)
}
