ghost use Rattle.std.specs.Prelude.{◌≡◌};
ghost use Rattle.std.specs.Cmp.{IsTotalOrder};
ghost use Rattle.std.specs.declared.cmp.Ordering.TheVariants.{Equal};
ghost use Rattle.dd_model.specs.Symbol.{Symbol, IsTable, IsSymbol};
ghost use Rattle.dd_model.specs.Isomorphic.{Isomorphic};
ghost use Rattle.dd_model.specs.Code.{code_cmp, IsLeastForm};

/// Isomorphic symbols form classes.
pub fn isomorphic_is_equivalence()
    ensures reflexive { (s : Symbol) → IsTable s → Isomorphic s s }
    ensures symmetric { (s t : Symbol) → IsTable s → Isomorphic s t → Isomorphic t s }
    ensures transitive { (s t u : Symbol) → IsTable s → Isomorphic s t → Isomorphic t u
        → Isomorphic s u }
{}

/// The order by size and code is total.
pub fn order_is_total()
    ensures total { IsTotalOrder code_cmp }
    ensures equal { (s t : Symbol) → IsTable s → IsTable t → code_cmp s t ≡ Equal → s ≡ t }
{}

/// No symbol has two least forms.
pub fn least_forms_are_unique()
    ensures { (s t u : Symbol) → IsSymbol s → IsLeastForm s t → IsLeastForm s u → t ≡ u }
{}
