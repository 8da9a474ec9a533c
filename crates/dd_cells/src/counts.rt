ghost use Rattle.std.specs.Prelude.{◌≡◌, ◌↔◌, ◌≤◌, ℕ, IsTrue, List, length, pos, ◌+ℤ◌, ◌≤ℤ◌};
ghost use Rattle.dd_model.specs.Cell.{AreCells};
ghost use Rattle.dd_model.specs.Wanted.{AtMost};
ghost use Rattle.dd_cells.specs.Euler.{orbits as orbits_of, IsEuler};
ghost use Rattle.dd_model.specs.Small.{most_chambers};

use dd_model::{Index, Pair};
use dd_symbol::{Connected, Symbol};

/// The number of cells of a pair. It takes no memory.
pub fn count(s: &Connected, pair: Pair) -> u32
    ensures cells { (chambers : List ℕ) → AreCells s.now pair chambers → result ≡ length chambers }
    ensures exist { (chambers : List ℕ) × AreCells s.now pair chambers }
    ensures small { result ≤ most_chambers }
{
    let symbol = s.symbol();
    let mut cells = 0;
    for k in 0..symbol.size() {
        if symbol.is_least_of_cell(pair, k + 1) {
            cells += 1;
        }
    }
    cells
}

/// Returns whether a pair has at most `limit` cells, where 0 sets no limit. It takes no memory.
pub fn has_at_most(s: &Connected, pair: Pair, limit: u32) -> bool
    ensures { IsTrue result ↔ AtMost s.now pair limit }
{
    limit == 0 || count(s, pair) <= limit
}

/// The number of orbits of an involution.
fn orbits(symbol: &Symbol, i: Index) -> u32
    ensures orbits { result ≡ orbits_of symbol.now i }
    ensures small { result ≤ most_chambers }
{
    let mut orbits = 0;
    for k in 0..symbol.size() {
        let chamber = k + 1;
        if chamber <= symbol.op(i, chamber) {
            orbits += 1;
        }
    }
    orbits
}

/// The Euler number: the number of the cells of all three pairs and of the chambers, less that of
/// the orbits of the three involutions. It takes no memory.
pub fn euler(s: &Connected) -> i64
    ensures euler { IsEuler s.now result }
    ensures low { pos 0 ≤ℤ (result +ℤ pos 49152) }
{
    let symbol = s.symbol();
    let cells = count(s, Pair::Tile) + count(s, Pair::Vertex) + count(s, Pair::Edge);
    let sides = orbits(symbol, Index::Zero)
        + orbits(symbol, Index::One)
        + orbits(symbol, Index::Two);
    i64::from(cells + symbol.size()) - i64::from(sides)
}
