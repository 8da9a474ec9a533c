ghost use Rattle.std.specs.Prelude.{◌≡◌, ◌⊎◌, ℕ, ◌*◌, List};
ghost use Rattle.dd_model.specs.Symbol.{Symbol, IsSymbol, IsChamber};
ghost use Rattle.dd_model.specs.Connected.{Connected as AllReached};
ghost use Rattle.dd_model.specs.Flat.{Flat};
ghost use Rattle.dd_model.specs.Isomorphic.{IsMorphism};
ghost use Rattle.dd_model.specs.declared.index.Index.{Index};
ghost use Rattle.dd_cells.specs.Orientation.{IsOriented};
ghost use Rattle.dd_covers.specs.PlaneValues.{IsGreatestValue};
ghost use Rattle.dd_covers.specs.Torus.{IsTorus};
ghost use Rattle.dd_covers.specs.TorusCover.{AreTorusShifts, HasTorusShifts, IsTorusCoverOf, IsTorusCover, HasTorusCover};

/// A torus cover of a connected, oriented, flat symbol is a torus of k sheets, k being the greatest
/// branching value, and "below" is a morphism.
pub fn torus_covers_are_tori()
    ensures torus { (s t : Symbol) (k : ℕ) (below : List ℕ) → IsSymbol s → AllReached s
        → IsOriented s → Flat s → IsTorusCoverOf s k t below → IsTorus t }
    ensures morphism { (s t : Symbol) (k : ℕ) (below : List ℕ) → IsSymbol s
        → IsTorusCoverOf s k t below → IsMorphism t s below }
    ensures sheets { (s t : Symbol) (k : ℕ) (below : List ℕ) → IsTorusCoverOf s k t below
        → t.size ≡ k * s.size }
{}

/// The four rules for the shifts have one solution at most, and so an oriented symbol has one torus
/// cover at most.
pub fn oriented_symbols_have_one_torus_cover()
    ensures shifts { (s : Symbol) (k : ℕ) (x y : Index → ℕ → ℕ) → IsSymbol s → AllReached s
        → AreTorusShifts s k x → AreTorusShifts s k y
        → (i : Index) (d : ℕ) → IsChamber s d → x i d ≡ y i d }
    ensures cover { (s t u : Symbol) (k j : ℕ) (below lower : List ℕ) → IsSymbol s → AllReached s
        → IsTorusCoverOf s k t below → IsTorusCoverOf s j u lower → t ≡ u }
    ensures below { (s t u : Symbol) (k j : ℕ) (below lower : List ℕ)
        → IsTorusCoverOf s k t below → IsTorusCoverOf s j u lower → below ≡ lower }
{}

/// The four rules have a solution for every connected, oriented, flat symbol.
pub fn the_rules_have_a_solution()
    ensures { (s : Symbol) (k : ℕ) → IsSymbol s → AllReached s → IsOriented s → Flat s
        → IsGreatestValue s k → HasTorusShifts s k }
{}

/// A connected, flat symbol has exactly one torus cover, whether the symbol is oriented or not. The
/// cover is a torus, and `below` is a morphism. The cover has k sheets if the symbol is oriented,
/// and otherwise 2k, where k is the greatest branching value of the oriented cover.
pub fn flat_symbols_are_covered_by_tori()
    ensures exists { (s : Symbol) → IsSymbol s → AllReached s → Flat s → HasTorusCover s }
    ensures one { (s t u : Symbol) (below lower : List ℕ) → IsSymbol s → AllReached s
        → IsTorusCover s t below → IsTorusCover s u lower → (t ≡ u) × (below ≡ lower) }
    ensures torus { (s t : Symbol) (below : List ℕ) → IsSymbol s → AllReached s → Flat s
        → IsTorusCover s t below → IsTorus t }
    ensures morphism { (s t : Symbol) (below : List ℕ) → IsSymbol s → AllReached s → Flat s
        → IsTorusCover s t below → IsMorphism t s below }
    ensures sheets { (s t : Symbol) (below : List ℕ) (is : IsTorusCover s t below)
        → (IsOriented s × (t.size ≡ is.sheets * s.size))
        ⊎ ((¬ IsOriented s) × (t.size ≡ 2 * is.sheets * s.size)) }
{}
