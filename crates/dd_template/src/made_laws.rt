ghost use Rattle.std.specs.Prelude.{◌≡◌, ◌↔◌, ℕ, ◌*◌, ◌≤◌, []};
ghost use Rattle.dd_model.specs.Cell.{IsBranching};
ghost use Rattle.dd_model.specs.Flat.{Flat};
ghost use Rattle.dd_model.specs.Small.{IsSmallSymbol, most_chambers};
ghost use Rattle.dd_model.specs.Symbol.{Symbol, IsChamber, IsSymbol, Word, act, item, op};
ghost use Rattle.dd_model.specs.Connected.{Connected};
ghost use Rattle.dd_model.specs.declared.index.Index.{Index};
ghost use Rattle.dd_model.specs.declared.pair.Pair.{Pair};
ghost use Rattle.dd_template.specs.Kept.{HasSmallBranching, HaveSameCurvature};
ghost use Rattle.dd_template.specs.Moves.{AreUndone};
ghost use Rattle.dd_template.specs.Lawful.{IsLawful};
ghost use Rattle.dd_template.specs.Entries.{entries};
ghost use Rattle.dd_template.specs.Made.{chamber_of, composed, degree_of, moved, made, IsPlace, SamePlace};
ghost use Rattle.dd_template.specs.Reduced.{carried, reduced};
ghost use Rattle.dd_template.specs.Table.{Table, IsPart, entry, move, part_after};
ghost use Rattle.dd_template.specs.declared.tables.Degree.TheVariants.{OfTile, OfVertex};

/// The chambers of what a table makes are the parts of the chambers, each of them once.
pub fn chambers_are_parts_of_chambers()
    ensures within { (t : Table) (s : Symbol) (d x : ℕ) → IsChamber s d → IsPart t x
        → IsChamber (made t s) (chamber_of t d x) }
    ensures each { (t : Table) (s : Symbol) (e : ℕ) → 1 ≤ t.parts → IsChamber (made t s) e
        → IsPlace t s e }
    ensures once { (t : Table) (d e x y : ℕ) → 1 ≤ d → 1 ≤ e → IsPart t x → IsPart t y
        → chamber_of t d x ≡ chamber_of t e y → SamePlace d e x y }
{}

/// An involution leads from a part of a chamber to the part that the move names, of the chamber to
/// which the involution of the move leads, if it has one. The degrees are those of the entries.
pub fn parts_go_by_their_moves()
    ensures image { (t : Table) (s : Symbol) (i : Index) (d x : ℕ) → IsChamber s d → IsPart t x
        → op (made t s) i (chamber_of t d x) ≡
        chamber_of t (moved s (move t i x).by d) (move t i x).to }
    ensures face { (t : Table) (s : Symbol) (d x : ℕ) → IsChamber s d → IsPart t x
        → item (made t s).m01 (chamber_of t d x) ≡ degree_of s (entry t.face x) d }
    ensures degree { (t : Table) (s : Symbol) (d x : ℕ) → IsChamber s d → IsPart t x
        → item (made t s).m12 (chamber_of t d x) ≡ degree_of s (entry t.degree x) d }
{}

/// A word acts on the chambers of a symbol as its reduced word does. On a part of a chamber it acts
/// by two things: its moves act on the part, and the reduced word of their involutions acts on the
/// chamber.
pub fn words_act_by_their_reduced_words()
    ensures reduced { (s : Symbol) → IsSymbol s → (w : Word) (d : ℕ) → IsChamber s d
        → composed s (reduced w) d ≡ composed s w d }
    ensures part { (t : Table) (s : Symbol) → AreUndone t → IsSymbol s → (w : Word) (d x : ℕ)
        → IsChamber s d → IsPart t x
        → act (made t s) w (chamber_of t d x) ≡
        chamber_of t (composed s (carried t w x []) d) (part_after t w x) }
{}

/// What a lawful table makes of a symbol is a symbol.
pub fn symbols_are_made_of_symbols()
    ensures { (t : Table) (s : Symbol) → IsLawful t → IsSymbol s → IsSymbol (made t s) }
{}

/// What a lawful table makes of a connected symbol is connected.
pub fn connected_symbols_are_made_of_connected_symbols()
    ensures { (t : Table) (s : Symbol) → IsLawful t → IsSymbol s → Connected s
        → Connected (made t s) }
{}

/// A part whose degree is a multiple of that of its chamber's tile, or vertex, has the branching
/// value of that tile, or vertex.
pub fn parts_have_the_branching_values_of_their_chambers()
    ensures tile { (t : Table) (s : Symbol) → IsLawful t → IsSymbol s → (p : Pair) (d x c v : ℕ)
        → IsChamber s d → IsPart t x
        → entry (entries t p) x ≡ OfTile c → IsBranching s Pair.Tile d v
        → IsBranching (made t s) p (chamber_of t d x) v }
    ensures vertex { (t : Table) (s : Symbol) → IsLawful t → IsSymbol s → (p : Pair) (d x c v : ℕ)
        → IsChamber s d → IsPart t x
        → entry (entries t p) x ≡ OfVertex c → IsBranching s Pair.Vertex d v
        → IsBranching (made t s) p (chamber_of t d x) v }
{}

/// Where the branching values of a symbol are at most 30, those of what a lawful table makes of it
/// are too.
pub fn branching_values_stay_small()
    ensures small { (t : Table) (s : Symbol) → IsLawful t → IsSymbol s → HasSmallBranching s
        → HasSmallBranching (made t s) }
    ensures kept { (t : Table) (s : Symbol) → IsLawful t → IsSmallSymbol s
        → s.size * t.parts ≤ most_chambers → IsSmallSymbol (made t s) }
{}

/// What a lawful table makes of a symbol has its curvature.
pub fn the_curvature_stays()
    ensures { (t : Table) (s : Symbol) → IsLawful t → IsSymbol s → HaveSameCurvature s (made t s) }
{}

/// What a lawful table makes of a symbol is flat where the symbol is.
pub fn flat_symbols_are_made_of_flat_symbols()
    ensures { (t : Table) (s : Symbol) → IsLawful t → IsSymbol s → Flat s ↔ Flat (made t s) }
{}
