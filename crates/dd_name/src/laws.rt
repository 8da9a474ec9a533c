ghost use Rattle.std.specs.Prelude.{◌≡◌};
ghost use Rattle.dd_model.specs.Symbol.{Symbol, IsSymbol};
ghost use Rattle.dd_name.specs.declared.orbifolds.Orbifold.{Orbifold};
ghost use Rattle.dd_name.specs.Orbifold.{IsOrbifold};

/// A symbol has at most one orbifold.
pub fn a_symbol_has_one_orbifold()
    ensures { (s : Symbol) (o o' : Orbifold) → IsSymbol s → IsOrbifold s o → IsOrbifold s o'
        → o ≡ o' }
{}
