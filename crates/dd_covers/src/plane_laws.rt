ghost use Rattle.std.specs.Prelude.{ℕ, List};
ghost use Rattle.dd_model.specs.Symbol.{Symbol, IsSymbol, IsChamber};
ghost use Rattle.dd_model.specs.Connected.{Connected as AllReached};
ghost use Rattle.dd_model.specs.Cell.{IsBranching};
ghost use Rattle.dd_model.specs.Flat.{Flat};
ghost use Rattle.dd_model.specs.declared.pair.Pair.{Pair};
ghost use Rattle.dd_cells.specs.Fraction.{Divides};
ghost use Rattle.dd_cells.specs.Orientation.{IsOriented};
ghost use Rattle.dd_cells.specs.declared.cell.Cell.{Cell};
ghost use Rattle.dd_covers.specs.PlaneValues.{AreTheCells, values_above_one, HasPlaneValues, IsCrystal, IsGreatestValue};

/// The branching values above 1 of the cells of a connected, oriented, flat symbol are, in some
/// order, none; 2 2; 2 3 6; 2 4 4; 3 3 3; or 2 2 2 2. So there are no values but 1, 2, 3, 4 and 6,
/// and all of them divide the greatest.
pub fn oriented_flat_symbols_have_plane_values()
    ensures values { (s : Symbol) (cells : Pair → List Cell) → IsSymbol s → AllReached s
        → IsOriented s → Flat s → AreTheCells s cells → HasPlaneValues (values_above_one cells) }
    ensures crystal { (s : Symbol) → IsSymbol s → AllReached s → IsOriented s → Flat s
        → (p : Pair) (d v : ℕ) → IsChamber s d → IsBranching s p d v → IsCrystal v }
    ensures multiples { (s : Symbol) (k : ℕ) → IsSymbol s → AllReached s → IsOriented s
        → Flat s → IsGreatestValue s k
        → (p : Pair) (d v : ℕ) → IsChamber s d → IsBranching s p d v → Divides v k }
{}
