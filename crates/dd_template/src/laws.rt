ghost use Rattle.std.specs.Prelude.{◌≡◌, ℕ, ◌*◌, ◌/◌, ◌≤◌, ◌∷◌, ◌++◌};
ghost use Rattle.dd_model.specs.Worked.{single, squares, truncated_squares_backwards};
ghost use Rattle.dd_model.specs.Symbol.{Symbol, IsTable, Word};
ghost use Rattle.dd_model.specs.declared.index.Index.{Index};
ghost use Rattle.dd_model.specs.declared.index.Index.TheVariants.{Zero, Two};
ghost use Rattle.dd_model.specs.declared.pair.Pair.{Pair};
ghost use Rattle.dd_template.specs.Dual.{exchanged};
ghost use Rattle.dd_template.specs.Table.{Table, IsPart, table_of};
ghost use Rattle.dd_template.specs.Made.{made};
ghost use Rattle.dd_template.specs.Reduced.{reduced, IsReduced};
ghost use Rattle.dd_template.specs.Moves.{AreUndone};
ghost use Rattle.dd_template.specs.Entries.{IsApart};
ghost use Rattle.dd_template.specs.Lawful.{IsLawful};
ghost use Rattle.dd_template.specs.Shares.{curvature_unit};
ghost use Rattle.dd_template.specs.Worked.{trihexagonal};

use crate::constants::{AMBO, DUAL, TRUNCATE};

/// Striking equal neighbours and writing 2 0 as 0 2 lead to one word, in which neither can be done.
pub fn words_have_one_reduced_word()
    ensures reduced { (w : Word) → IsReduced (reduced w) }
    ensures stays { (w : Word) → IsReduced w → reduced w ≡ w }
    ensures struck { (u v : Word) (i : Index) → reduced (u ++ i ∷ i ∷ v) ≡ reduced (u ++ v) }
    ensures exchanged { (u v : Word) → reduced (u ++ Two ∷ Zero ∷ v) ≡
        reduced (u ++ Zero ∷ Two ∷ v) }
{}

/// Each of 1 to 64 divides the number in whose parts fractions are counted.
pub fn fractions_are_whole_numbers_of_parts()
    ensures { (c : ℕ) → 1 ≤ c → c ≤ 64 → c * (curvature_unit / c) ≡ curvature_unit }
{}

/// Let moves lead back, and let fewer than a number of turns never lead a part back to itself. Then
/// there are no more turns than parts.
pub fn parts_are_met_again()
    ensures { (t : Table) → AreUndone t → (p : Pair) (x c : ℕ) → IsPart t x → IsApart t p x c
        → c ≤ t.parts }
{}

/// The table of the dual is lawful.
pub fn dual_is_lawful()
    ensures { IsLawful (table_of DUAL) }
{}

/// The ambo of the triangles is the tiling by triangles and hexagons.
pub fn ambo_of_triangles()
    ensures { made (table_of AMBO) (single 3 6) ≡ trihexagonal }
{}

/// The squares with their vertices cut off are the tiling by squares and octagons.
pub fn truncated_squares_are_made()
    ensures { made (table_of TRUNCATE) squares ≡ truncated_squares_backwards }
{}

/// The table of the dual exchanges s0 and s2, and the degrees of tiles and vertices, on the same
/// chambers.
pub fn duals_are_made()
    ensures { (s : Symbol) → IsTable s → made (table_of DUAL) s ≡ exchanged s }
{}
