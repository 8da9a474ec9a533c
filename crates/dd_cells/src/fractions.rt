ghost use Rattle.std.specs.Prelude.{◌≤◌, pos, ◌-ℤ◌};
ghost use Rattle.std.specs.Int.{IsGcd};

/// A fraction. One that is answered is in lowest terms and has a positive denominator.
#[derive(Debug, Clone, Copy, PartialEq, Eq)]
pub struct Fraction {
    /// The numerator, which has the sign.
    pub num: i128,
    /// The denominator.
    pub den: i128,
}

/// The greatest common divisor.
fn gcd(a: u64, b: u64) -> u64
    ensures { IsGcd a b result }
{
    let mut x = a;
    let mut y = b;
    while y != 0 {
        let rest = x % y;
        x = y;
        y = rest;
    }
    x
}

impl Fraction {
    ghost use Rattle.dd_cells.specs.Fraction.{IsReduced, IsQuotient};

    /// The reduced fraction (gain - loss) / den.
    pub(crate) fn of_difference(gain: u64, loss: u64, den: u64) -> Fraction
        requires { 1 ≤ den }
        ensures reduced { IsReduced result }
        ensures value { IsQuotient result (pos gain -ℤ pos loss) den }
    {
        let size = gain.abs_diff(loss);
        let divisor = gcd(size, den);
        let num = i128::from(size / divisor);
        Fraction {
            num: if gain < loss { -num } else { num },
            den: i128::from(den / divisor),
        }
    }
}
