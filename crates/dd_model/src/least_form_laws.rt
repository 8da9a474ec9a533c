ghost use Rattle.std.specs.Prelude.{◌≡◌, ◌≢◌, ◌↔◌, ℕ, List};
ghost use Rattle.std.specs.List.{Contains};
ghost use Rattle.std.specs.declared.cmp.Ordering.TheVariants.{Greater};
ghost use Rattle.dd_model.specs.Symbol.{Symbol, IsTable, IsSymbol, IsChamber, item};
ghost use Rattle.dd_model.specs.Connected.{Connected};
ghost use Rattle.dd_model.specs.Isomorphic.{IsIsomorphism, Isomorphic};
ghost use Rattle.dd_model.specs.Code.{code_cmp, Least, IsLeastForm};
ghost use Rattle.dd_model.specs.FirstVisit.{IsFirstVisit, IsNumberedFrom, LeastTable, IsLeastTableForm};
ghost use Rattle.dd_model.specs.Wanted.{Wanted, IsCatalogue};
ghost use Rattle.dd_model.specs.declared.requests.Request.{Request};

/// From each chamber a connected table has one numbering in which chambers are first met in the
/// order of their numbers, and no bijection that starts there gives a smaller code.
pub fn each_start_has_one_numbering()
    ensures exists { (s : Symbol) (start : ℕ) → IsTable s → Connected s → IsChamber s start
        → (t : Symbol) × IsNumberedFrom s start t }
    ensures unique { (s t u : Symbol) (start : ℕ) → IsTable s → Connected s → IsChamber s start
        → IsNumberedFrom s start t → IsNumberedFrom s start u → t ≡ u }
    ensures least { (s t u : Symbol) (start : ℕ) (f : List ℕ) → IsTable s → Connected s
        → IsChamber s start → IsNumberedFrom s start t → IsTable u → IsIsomorphism s u f
        → item f start ≡ 1 → code_cmp t u ≢ Greater }
{}

/// Among all renumberings of a connected table one is least, and it is numbered by first visits
/// from some chamber.
pub fn each_table_has_one_least_form()
    ensures exists { (s : Symbol) → IsTable s → Connected s → (t : Symbol) × IsLeastTableForm s t }
    ensures unique { (s t u : Symbol) → IsTable s → IsLeastTableForm s t → IsLeastTableForm s u
        → t ≡ u }
    ensures numbered { (s t : Symbol) → IsTable s → Connected s → IsLeastTableForm s t
        → (start : ℕ) × IsChamber s start × IsNumberedFrom s start t }
    ensures first_visit { (s : Symbol) → IsTable s → Connected s → LeastTable s → IsFirstVisit s }
{}

/// Each connected symbol has a least form, which is numbered by first visits from some chamber.
/// Least forms are equal exactly where the symbols are isomorphic.
pub fn each_symbol_has_a_least_form()
    ensures exists { (s : Symbol) → IsSymbol s → Connected s → (t : Symbol) × IsLeastForm s t }
    ensures numbered { (s t : Symbol) → IsSymbol s → Connected s → IsLeastForm s t
        → (start : ℕ) × IsChamber s start × IsNumberedFrom s start t }
    ensures isomorphic { (s s' t t' : Symbol) → IsSymbol s → IsSymbol s' → IsLeastForm s t
        → IsLeastForm s' t' → t ≡ t' ↔ Isomorphic s s' }
    ensures as_table { (s : Symbol) → IsSymbol s → Least s ↔ LeastTable s }
{}

/// A catalogue has exactly one member that is isomorphic to each wanted symbol, and it is the
/// symbol's least form.
pub fn each_wanted_symbol_has_one_member()
    ensures exists { (q : Request) (ss : List Symbol) (s : Symbol) → IsCatalogue q ss → Wanted q s
        → (t : Symbol) × Contains ss t × IsLeastForm s t }
    ensures unique { (q : Request) (ss : List Symbol) (s t u : Symbol) → IsCatalogue q ss
        → Wanted q s → Contains ss t → Contains ss u → Isomorphic s t → Isomorphic s u → t ≡ u }
{}
