ghost use Rattle.std.specs.Prelude.{◌≡◌, ◌↔◌, ◌+◌, ◌*◌, ℕ, ℤ, List, length, pos, ◌-ℤ◌, ◌*ℤ◌};
ghost use Rattle.std.specs.List.{AllByRecursion};
ghost use Rattle.dd_model.specs.Symbol.{Symbol, IsTable, IsSymbol, first, second};
ghost use Rattle.dd_model.specs.Flat.{Flat};
ghost use Rattle.dd_model.specs.Small.{IsSmallSymbol};
ghost use Rattle.dd_model.specs.declared.index.Index.{Index};
ghost use Rattle.dd_model.specs.declared.pair.Pair.{Pair};
ghost use Rattle.dd_model.specs.declared.pair.Pair.TheVariants.{Tile, Vertex, Edge};
ghost use Rattle.dd_cells.specs.Cells.{IsCellOf, AreCellsOf};
ghost use Rattle.dd_cells.specs.Curvature.{IsCurvature};
ghost use Rattle.dd_cells.specs.Euler.{orbits, IsEuler};
ghost use Rattle.dd_cells.specs.Fraction.{Divides, IsQuotient};
ghost use Rattle.dd_cells.specs.Surface.{chains, defects, fixed_chambers, AreAllCells};
ghost use Rattle.dd_cells.specs.declared.fractions.Fraction.{Fraction};
ghost use Rattle.dd_cells.specs.declared.cell.Cell.{Cell};
ghost use Rattle.dd_symbol.specs.declared.kind.Kind.TheVariants.{Cycle, Chain};

use crate::curvatures::COMMON_MULTIPLE;

/// A pair determines its list of cells.
pub fn a_pair_determines_its_cells()
    ensures { (s : Symbol) (p : Pair) (cells others : List Cell) → AreCellsOf s p cells
        → AreCellsOf s p others → cells ≡ others }
{}

/// A cycle has two chambers for each of its turns, a chain one.
pub fn cells_have_sizes()
    ensures cycle { (s : Symbol) (p : Pair) (c : Cell) → IsTable s → IsCellOf s p c → c.kind ≡ Cycle
        → length c.members ≡ 2 * c.r }
    ensures chain { (s : Symbol) (p : Pair) (c : Cell) → IsTable s → IsCellOf s p c → c.kind ≡ Chain
        → length c.members ≡ c.r }
{}

/// A symbol has at most one curvature, and is flat exactly where it is 0.
pub fn a_symbol_determines_its_curvature()
    ensures unique { (s : Symbol) (x y : Fraction) → IsSymbol s → IsCurvature s x → IsCurvature s y
        → x ≡ y }
    ensures flat { (s : Symbol) (x : Fraction) → IsSymbol s → IsCurvature s x
        → Flat s ↔ (x.num ≡ pos 0) }
{}

/// Twice the number of chains of a pair is the number of chambers that its first involution fixes
/// and of those that its second fixes. Twice the number of orbits of an involution is the number of
/// all chambers and of those that it fixes.
pub fn fixed_chambers_are_the_ends_of_chains()
    ensures chains { (s : Symbol) (p : Pair) (cells : List Cell) → IsSymbol s → AreCellsOf s p cells
        → 2 * chains cells ≡ fixed_chambers s (first p) + fixed_chambers s (second p) }
    ensures orbits { (s : Symbol) (i : Index) → IsTable s
        → 2 * orbits s i ≡ s.size + fixed_chambers s i }
{}

/// The curvature is twice the Euler number, less 2 - 2/v for each cycle and 1 - 1/v for each chain
/// among the cells of all three pairs. In whole numbers it takes a number that all the branching
/// values divide; for small symbols there is one.
pub fn the_curvature_is_that_of_the_surface()
    ensures value { (s : Symbol) (common : ℕ) (cells : Pair → List Cell) (euler : ℤ) (x : Fraction)
        → IsSymbol s → AreAllCells s common cells → IsEuler s euler → IsCurvature s x
        → let lost = defects common (cells Tile) + defects common (cells Vertex)
        + defects common (cells Edge) in
        IsQuotient x (euler *ℤ pos (2 * common) -ℤ pos lost) common }
    ensures multiple { (s : Symbol) (p : Pair) (cells : List Cell) → IsSmallSymbol s
        → AreCellsOf s p cells
        → AllByRecursion (λ c. Divides c.v COMMON_MULTIPLE) cells }
{}
