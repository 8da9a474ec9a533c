ghost use Rattle.std.specs.Prelude.{◌≡◌, ◌↔◌, ℕ, IsTrue};
ghost use Rattle.dd_model.specs.Symbol.{IsChamber};
ghost use Rattle.dd_model.specs.Cell.{IsBranching};
ghost use Rattle.dd_model.specs.Wanted.{IsCrystallographic};

use dd_model::Pair;
use dd_symbol::Connected;

/// Returns whether a number is 1, 2, 3, 4 or 6.
fn is_crystallographic(value: u32) -> bool
    ensures { IsTrue result ↔ IsCrystallographic value }
{
    [1, 2, 3, 4, 6].contains(&value)
}

/// Returns whether each branching value of a pair is 1, 2, 3, 4 or 6.
pub(crate) fn has_crystallographic_cells(s: &Connected, pair: Pair) -> bool
    ensures { IsTrue result
        ↔ ((d v : ℕ) → IsChamber s.now d → IsBranching s.now pair d v → IsCrystallographic v) }
{
    let symbol = s.symbol();
    for k in 0..symbol.size() {
        if !is_crystallographic(symbol.branching(pair, k + 1)) {
            return false;
        }
    }
    true
}
