ghost use Rattle.std.specs.Prelude.{◌≡◌, ◌≢◌, ◌⊎◌, ◌≤◌, ◌<◌, ◌^◌, pos, ◌*ℤ◌, ◌-ℤ◌, ◌<ℤ◌, nat_abs, MatchOption};
ghost use Rattle.std.specs.Int.{IsGcd};
ghost use Rattle.dd_draw.specs.Elimination.{quotient, product, difference};
ghost use Rattle.dd_draw.specs.Limit.{IsWide, IsNarrow, IsFound, ratio_of};

use crate::bounded_fraction::BoundedFraction;
use dd_cells::Fraction;

/// The greatest size of numerators and denominators.
pub(crate) const LIMIT: u128 = 1 << 62;

/// The greatest common divisor.
fn gcd(a: u128, b: u128) -> u128
    ensures { IsGcd a b result }
{
    let mut x = a;
    let mut y = b;
    while y != 0 {
        let rest = x % y;
        x = y;
        y = rest;
    }
    x
}

/// The fraction `num / den` in lowest terms, or None where it is over the limit.
fn reduced(num: i128, den: i128) -> Option<BoundedFraction>
    requires { pos 0 <ℤ den }
    ensures { MatchOption result (IsWide (record { over = num; under = den }))
        (λ x. IsNarrow x (record { over = num; under = den })) }
{
    let size = num.unsigned_abs();
    let whole = den.unsigned_abs();
    let divisor = gcd(size, whole);
    let top = size / divisor;
    let bottom = whole / divisor;
    if top > LIMIT || bottom > LIMIT {
        return None;
    }
    let num = if num < 0 { -(top as i128) } else { top as i128 };
    Some(BoundedFraction {
        fraction: Fraction {
            num,
            den: bottom as i128,
        },
    })
}

/// The quotient in lowest terms, or None where it is over the limit.
pub(crate) fn over(a: BoundedFraction, b: BoundedFraction) -> Option<BoundedFraction>
    requires { b.num ≢ pos 0 }
    ensures { IsFound (quotient (ratio_of a) (ratio_of b)) result }
{
    let a = a.fraction();
    let b = b.fraction();
    let top = a.num * b.den;
    let bottom = a.den * b.num;
    if bottom < 0 {
        reduced(-top, -bottom)
    } else {
        reduced(top, bottom)
    }
}

/// A number less a product, in lowest terms, or None where it or the product is over the limit.
pub(crate) fn less_product(
    a: BoundedFraction,
    b: BoundedFraction,
    c: BoundedFraction,
) -> Option<BoundedFraction>
    ensures { MatchOption result
        (IsWide (difference (ratio_of a) (product (ratio_of b) (ratio_of c)))
        ⊎ IsWide (product (ratio_of b) (ratio_of c)))
        (λ x. IsNarrow x (difference (ratio_of a) (product (ratio_of b) (ratio_of c)))
        × ¬ (IsWide (difference (ratio_of a) (product (ratio_of b) (ratio_of c)))
        ⊎ IsWide (product (ratio_of b) (ratio_of c)))) }
{
    let a = a.fraction();
    let b = b.fraction();
    let c = c.fraction();
    let product = reduced(b.num * c.num, b.den * c.den)?.fraction();
    reduced(
        a.num * product.den - product.num * a.den,
        a.den * product.den,
    )
}
