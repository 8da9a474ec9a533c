ghost use Rattle.std.specs.Prelude.{◌≡◌, ℕ, List};
ghost use Rattle.dd_model.specs.Symbol.{Symbol, IsTable, IsChamber, item};
ghost use Rattle.dd_model.specs.Isomorphic.{IsIsomorphism};
ghost use Rattle.dd_model.specs.FirstVisit.{IsNumberedFrom};

/// Two starts have the same numbering by first visits exactly if an automorphism takes one to the
/// other. So automorphisms keep the code of a start, and starts with one code give an automorphism.
pub fn automorphisms_keep_codes()
    ensures kept { (s t : Symbol) (f : List ℕ) (start : ℕ) → IsTable s → IsChamber s start
        → IsIsomorphism s s f → IsNumberedFrom s start t → IsNumberedFrom s (item f start) t }
    ensures found { (s t : Symbol) (start other : ℕ) → IsTable s → IsChamber s start
        → IsChamber s other → IsNumberedFrom s start t → IsNumberedFrom s other t
        → (f : List ℕ) × IsIsomorphism s s f × (item f start ≡ other) }
{}
