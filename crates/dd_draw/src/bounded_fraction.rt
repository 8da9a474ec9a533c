use dd_cells::Fraction;
use std::marker::Model;

/// A number of a table: a fraction in lowest terms whose numerator and denominator are within the
/// limit.
#[derive(Clone, Copy)]
pub(crate) struct BoundedFraction {
    pub(crate) fraction: Fraction,
}

impl Model for BoundedFraction {
    ghost use Rattle.dd_cells.specs.declared.fractions.Fraction.{Fraction as Number};
    ghost use Rattle.dd_draw.specs.Limit.{IsWithin};

    ghost Value = { Number };

    ghost view = { λ a. a.fraction };

    ghost invariant = { λ a. IsWithin a.fraction };

    ghost inverse = { λ x. record { fraction = x } };
}

impl BoundedFraction {
    ghost use Rattle.std.specs.Prelude.{◌≡◌};
    ghost use Rattle.dd_draw.specs.Limit.{IsWithin};

    /// The fraction.
    pub(crate) fn fraction(self) -> Fraction
        ensures same { result ≡ self }
        ensures within { IsWithin result }
    {
        self.fraction
    }
}
