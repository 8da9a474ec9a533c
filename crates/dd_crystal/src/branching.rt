ghost use Rattle.std.specs.Prelude.{◌↔◌, ℕ, IsTrue};
ghost use Rattle.std.specs.Bool.{OnTrue};
ghost use Rattle.dd_model.specs.Symbol.{Symbol, IsSymbol, IsChamber};
ghost use Rattle.dd_model.specs.Cell.{IsBranching};
ghost use Rattle.dd_model.specs.Connected.{Connected as AllReached};
ghost use Rattle.dd_model.specs.Flat.{Flat};
ghost use Rattle.dd_model.specs.Wanted.{IsCrystallographic};
ghost use Rattle.dd_model.specs.declared.pair.Pair.{Pair};

use dd_cells::is_flat;
use dd_symbol::Connected;

/// Every branching value of a connected, flat symbol is 1, 2, 3, 4 or 6, whether the symbol is
/// oriented or not. This is the crystallographic restriction.
pub fn flat_symbols_have_crystallographic_values()
    ensures { (s : Symbol) → IsSymbol s → AllReached s → Flat s
        → (p : Pair) (d v : ℕ) → IsChamber s d → IsBranching s p d v → IsCrystallographic v }
{}

/// Returns whether the curvature is 0. If it is, every branching value of the tiles, vertices and
/// edges is 1, 2, 3, 4 or 6. It takes no memory.
pub fn flat_branching(s: &Connected) -> bool
    ensures flat { IsTrue result ↔ Flat s.now }
    ensures values { OnTrue result ((p : Pair) (d v : ℕ) → IsChamber s.now d
        → IsBranching s.now p d v → IsCrystallographic v) }
{
    let _symbol = s.symbol();
    is_flat(s)
}
