ghost use Rattle.std.specs.Prelude.{◌≡◌, ℕ, List, length};
ghost use Rattle.dd_model.specs.Symbol.{Symbol, IsTable, IsSymbol, IsChamber, item};
ghost use Rattle.dd_model.specs.Connected.{Connected};
ghost use Rattle.dd_model.specs.Isomorphic.{HaveLengths, IsMorphism, IsIsomorphism, Isomorphic};
ghost use Rattle.dd_model.specs.Cell.{InCell, IsChain, IsBranching, AreCells};
ghost use Rattle.dd_model.specs.Flat.{Flat};
ghost use Rattle.dd_model.specs.Minimal.{Minimal};
ghost use Rattle.dd_model.specs.Wanted.{Wanted};
ghost use Rattle.dd_model.specs.declared.pair.Pair.{Pair};
ghost use Rattle.dd_model.specs.declared.requests.Request.{Request};

/// A morphism after a morphism is a morphism.
pub fn morphisms_compose()
    ensures { (s t u : Symbol) (f g : List ℕ) → IsTable s → IsMorphism s t f → IsMorphism t u g
        → (h : List ℕ) × IsMorphism s u h
        × ((d : ℕ) → IsChamber s d → item h d ≡ item g (item f d)) }
{}

/// A morphism takes cells into cells, and chains to chains.
pub fn morphisms_keep_cells()
    ensures cell { (s t : Symbol) (f : List ℕ) (p : Pair) (d e : ℕ) → IsTable s → IsMorphism s t f
        → IsChamber s d → InCell s p d e → InCell t p (item f d) (item f e) }
    ensures chain { (s t : Symbol) (f : List ℕ) (p : Pair) (d : ℕ) → IsTable s → IsMorphism s t f
        → IsChamber s d → IsChain s p d → IsChain t p (item f d) }
{}

/// Another numbering of the chambers changes nothing that the workbench says of a symbol.
pub fn isomorphic_copies()
    ensures symbol { (s t : Symbol) → IsSymbol s → HaveLengths t → Isomorphic s t → IsSymbol t }
    ensures connected { (s t : Symbol) → IsTable s → Isomorphic s t → Connected s → Connected t }
    ensures minimal { (s t : Symbol) → IsTable s → Isomorphic s t → Minimal s → Minimal t }
    ensures flat { (s t : Symbol) → IsTable s → HaveLengths t → Isomorphic s t → Flat s → Flat t }
    ensures branching { (s t : Symbol) (f : List ℕ) (p : Pair) (d v : ℕ) → IsTable s
        → IsIsomorphism s t f → IsChamber s d → IsBranching s p d v
        → IsBranching t p (item f d) v }
    ensures cells { (s t : Symbol) (p : Pair) (ds es : List ℕ) → IsTable s → Isomorphic s t
        → AreCells s p ds → AreCells t p es → length ds ≡ length es }
    ensures wanted { (q : Request) (s t : Symbol) → HaveLengths t → Isomorphic s t → Wanted q s
        → Wanted q t }
{}
