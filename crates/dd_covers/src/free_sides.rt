ghost use Rattle.std.specs.Prelude.{◌≡◌, ◌↔◌, ◌+◌, ◌≤◌, ◌<◌, IsTrue, IfOk, OnOk};
ghost use Rattle.dd_model.specs.Symbol.{IsChamber, item, op};
ghost use Rattle.dd_model.specs.declared.index.Index.{Index};
ghost use Rattle.dd_covers.specs.CellNumbers.{IsCellNumber};
ghost use Rattle.dd_covers.specs.Ends.{one_end as one_end_of, other_end as other_end_of};
ghost use Rattle.dd_covers.specs.Visits.{rank as rank_of, IsFirstStep, IsFree};
ghost use Rattle.dd_covers.specs.Visiting.{AreVisitNumbers};
ghost use Rattle.dd_covers.specs.SideLists.{AreFreeSidesTo, AreFreeSides};
ghost use Rattle.dd_model.specs.Small.{most_chambers};

use crate::side::Side;
use dd_model::{Index, Memory, Pair};
use dd_symbol::{Symbol, item};
use std::alloc::Global;

/// Steps, and sides, by a chamber and then by the involution.
fn rank(i: Index, chamber: u32) -> u32
    requires { chamber ≤ most_chambers }
    ensures { result ≡ rank_of i chamber }
{
    3 * chamber + u32::from(i.number())
}

/// Returns whether the step from the chamber `there` leads to a chamber that is reached sooner by
/// another step.
fn is_sooner(symbol: &Symbol, numbers: &[u32], j: Index, there: u32, own: u32) -> bool
    requires visits { AreVisitNumbers symbol.now numbers.now }
    requires chamber { IsChamber symbol.now there }
    ensures { IsTrue result ↔ (rank_of j (item numbers.now (op symbol.now j there)) < own) }
{
    rank(j, item(numbers, symbol.op(j, there))) < own
}

/// Returns whether a chamber is first reached by a step.
fn is_first(symbol: &Symbol, numbers: &[u32], i: Index, chamber: u32) -> bool
    requires visits { AreVisitNumbers symbol.now numbers.now }
    requires chamber { IsChamber symbol.now chamber }
    ensures { IsTrue result ↔ IsFirstStep symbol.now numbers.now i chamber }
{
    let there = symbol.op(i, chamber);
    let own = rank(i, item(numbers, chamber));
    if there == 1 {
        return false;
    }
    if is_sooner(symbol, numbers, Index::Zero, there, own) {
        return false;
    }
    if is_sooner(symbol, numbers, Index::One, there, own) {
        return false;
    }
    !is_sooner(symbol, numbers, Index::Two, there, own)
}

/// The pair of one end of the sides of an involution.
fn one_end(i: Index) -> Pair
    ensures { result ≡ one_end_of i }
{
    match i {
        Index::Zero => Pair::Tile,
        Index::One => Pair::Vertex,
        Index::Two => Pair::Edge,
    }
}

/// The pair of the other end.
fn other_end(i: Index) -> Pair
    ensures { result ≡ other_end_of i }
{
    match i {
        Index::Zero => Pair::Edge,
        Index::One => Pair::Tile,
        Index::Two => Pair::Vertex,
    }
}

/// Returns the number of the cell of a chamber. Tiles come first, then vertices, then edges.
pub(crate) fn cell_number(symbol: &Symbol, pair: Pair, chamber: u32) -> u32
    requires { IsChamber symbol.now chamber }
    ensures { IsCellNumber symbol.now pair chamber result }
{
    let least = symbol.cell(pair, chamber).least;
    match pair {
        Pair::Tile => least,
        Pair::Vertex => symbol.size() + 1 + least,
        Pair::Edge => 2 * (symbol.size() + 1) + least,
    }
}

/// Appends the side of a chamber if it is free and the chamber is its least.
fn push_if_free(
    sides: &mut Vec<Side>,
    symbol: &Symbol,
    numbers: &[u32],
    i: Index,
    chamber: u32,
) -> Result<(), Memory>
    requires visits { AreVisitNumbers symbol.now numbers.now }
    requires chamber { IsChamber symbol.now chamber }
    requires sides { AreFreeSidesTo symbol.now numbers.now (rank_of i chamber) sides.old.items }
    ensures { OnOk result (AreFreeSidesTo symbol.now numbers.now (rank_of i chamber + 1)
        sides.new.items) }
{
    let there = symbol.op(i, chamber);
    if there < chamber {
        return Ok(());
    }
    if is_first(symbol, numbers, i, chamber) {
        return Ok(());
    }
    if is_first(symbol, numbers, i, there) {
        return Ok(());
    }
    let from = cell_number(symbol, one_end(i), chamber);
    let to = cell_number(symbol, other_end(i), chamber);
    sides.push(Side {
        chamber,
        index: i,
        from,
        to,
    })?;
    Ok(())
}

/// The free sides, by least chamber and then by involution.
pub(crate) fn free_sides(
    alloc: Global,
    symbol: &Symbol,
    numbers: &[u32],
) -> Result<Vec<Side>, Memory>
    requires { AreVisitNumbers symbol.now numbers.now }
    ensures { IfOk result (λ sides. AreFreeSides symbol.now numbers.now sides.items) }
{
    let mut sides = Vec::new(alloc);
    for k in 0..symbol.size() {
        push_if_free(&mut sides, symbol, numbers, Index::Zero, k + 1)?;
        push_if_free(&mut sides, symbol, numbers, Index::One, k + 1)?;
        push_if_free(&mut sides, symbol, numbers, Index::Two, k + 1)?;
    }
    Ok(sides)
}
