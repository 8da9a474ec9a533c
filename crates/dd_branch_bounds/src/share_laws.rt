ghost use Rattle.std.specs.Prelude.{◌≡◌, ◌≢◌, ◌⊎◌, ◌+◌, ◌*◌, ◌/◌, ◌%◌, ◌≤◌, ℕ, List, length};
ghost use Rattle.std.specs.List.{AllByRecursion, sum_by};
ghost use Rattle.dd_model.specs.Symbol.{Symbol, IsTable, IsSymbol, IsChamber, degree, op};
ghost use Rattle.dd_model.specs.Connected.{Connected};
ghost use Rattle.dd_model.specs.Cell.{InCell, IsChain, AreCells};
ghost use Rattle.dd_model.specs.Code.{chambers};
ghost use Rattle.dd_model.specs.FirstVisit.{LeastTable};
ghost use Rattle.dd_model.specs.Flat.{Flat};
ghost use Rattle.dd_model.specs.declared.index.Index.{Index};
ghost use Rattle.dd_model.specs.declared.index.Index.TheVariants.{Zero};
ghost use Rattle.dd_model.specs.declared.pair.Pair.{Pair};
ghost use Rattle.dd_model.specs.declared.pair.Pair.TheVariants.{Tile, Vertex};
ghost use Rattle.dd_branch_tables.specs.Distinct.{AreDistinct};
ghost use Rattle.dd_cells.specs.Cells.{AreMembers};
ghost use Rattle.dd_branch_bounds.specs.Closed.{fixed_flags};

/// A cell has at most twice as many chambers as its degree, and a chain at most as many.
pub fn a_cell_has_at_most_two_chambers_for_each_turn()
    ensures cell { (s : Symbol) (p : Pair) (d : ℕ) (es : List ℕ) → IsSymbol s → IsChamber s d
        → AreDistinct es → AllByRecursion (InCell s p d) es → length es ≤ 2 * degree s p d }
    ensures chain { (s : Symbol) (p : Pair) (d : ℕ) (es : List ℕ) → IsSymbol s → IsChamber s d
        → IsChain s p d
        → AreDistinct es → AllByRecursion (InCell s p d) es → length es ≤ degree s p d }
{}

/// Let each chamber of a flat symbol have two shares, one for its tile and one for its vertex. Each
/// share is at least a fixed number divided by the degree there. Then twice the sum of all shares
/// is at least this number times the number of chambers.
pub fn flat_symbols_have_large_shares()
    ensures { (s : Symbol) (whole : ℕ) (tiles vertices : ℕ → ℕ) → IsSymbol s → Flat s
        → ((d : ℕ) → IsChamber s d → whole ≤ tiles d * degree s Tile d)
        → ((d : ℕ) → IsChamber s d → whole ≤ vertices d * degree s Vertex d)
        → s.size * whole ≤ 2 * (sum_by tiles (chambers s) + sum_by vertices (chambers s)) }
{}

/// The cells of a pair add at most 2 each to the sum of 1/m over all chambers, in parts of any
/// number that is divided by the degrees.
pub fn each_cell_adds_at_most_two()
    ensures { (s : Symbol) (p : Pair) (cells : List ℕ) (whole : ℕ) → IsSymbol s → AreCells s p cells
        → sum_by (λ d. whole / degree s p d) (chambers s) ≤ length cells * (2 * whole) }
{}

/// An involution of an odd number of chambers fixes one; a least table of odd size begins with 1.
pub fn odd_tables_have_fixed_chambers()
    ensures fixed { (s : Symbol) (i : Index) → IsTable s → s.size % 2 ≡ 1
        → ¬ ((d : ℕ) → IsChamber s d → op s i d ≢ d) }
    ensures first { (s : Symbol) → IsTable s → Connected s → LeastTable s → s.size % 2 ≡ 1
        → op s Zero 1 ≤ 1 }
{}

/// A cell has no fixed flags or two, where a flag is a chamber with an involution of the pair that
/// fixes it. Twice what a cell adds to the sum of 1/m and the number of its fixed flags are at most
/// 4 together, in parts of any number that is divided by the degrees.
pub fn fixed_flags_halve_a_cell()
    ensures flags { (s : Symbol) (p : Pair) (d : ℕ) (members : List ℕ) → IsSymbol s → IsChamber s d
        → AreMembers s p d members
        → (sum_by (fixed_flags s p) members ≡ 0)
        ⊎ (IsChain s p d × (sum_by (fixed_flags s p) members ≡ 2)) }
    ensures weight { (s : Symbol) (p : Pair) (d : ℕ) (members : List ℕ) (whole : ℕ) → IsSymbol s
        → IsChamber s d → AreMembers s p d members
        → 2 * sum_by (λ x. whole / degree s p x) members
        + whole * sum_by (fixed_flags s p) members ≤ 4 * whole }
{}
