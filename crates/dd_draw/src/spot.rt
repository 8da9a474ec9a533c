ghost use Rattle.std.specs.Prelude.{◌≡◌, ◌≤◌, ◌+◌, ◌^◌, nat_abs};
ghost use Rattle.dd_draw.specs.Limit.{IsWithin};
ghost use Rattle.dd_draw.specs.Spots.{IsSmallSpot, lean, rise, spot_of, moved, floor_of};

use crate::point::Point;
use dd_cells::Fraction;
use dd_model::Frame;

/// Where something is printed, in thousandths of the side of a cell.
#[derive(Clone, Copy)]
pub(crate) struct Spot {
    pub x: i128,
    pub y: i128,
}

/// Returns how far the second side of a cell goes along the first side, which is 1000 long, and how
/// far across it.
pub(crate) fn second_side(frame: Frame) -> (i128, i128)
    ensures lean { result.0 ≡ lean frame }
    ensures rise { result.1 ≡ rise frame }
    ensures small_lean { nat_abs result.0 ≤ 2 ^ 63 }
    ensures small_rise { nat_abs result.1 ≤ 2 ^ 63 }
{
    match frame {
        Frame::Square => (0, 1000),
        Frame::Hex => (500, 866),
        Frame::Own { p, q } => (i128::from(p), i128::from(q)),
    }
}

/// Returns a multiple of a fraction, rounded down.
fn floor_of(times: i128, fraction: Fraction) -> i128
    requires within { IsWithin fraction }
    requires times { nat_abs times ≤ 2 ^ 63 }
    ensures same { result ≡ floor_of times fraction }
    ensures small { nat_abs result ≤ 2 ^ 125 }
{
    (times * fraction.num).div_euclid(fraction.den)
}

impl Spot {
    /// Returns the spot of a point.
    pub fn of(frame: Frame, point: &Point) -> Spot
        ensures same { result ≡ spot_of frame point.now }
        ensures x { nat_abs result.x ≤ 2 ^ 125 + 2 ^ 73 }
        ensures y { nat_abs result.y ≤ 2 ^ 125 + 2 ^ 73 }
    {
        let (lean, rise) = second_side(frame);
        Spot {
            x: floor_of(1000, point.x) + floor_of(lean, point.y),
            y: floor_of(rise, point.y),
        }
    }

    /// Returns the spot that is `x` and `y` cells away.
    pub fn moved(self, frame: Frame, x: i64, y: i64) -> Spot
        requires x { nat_abs self.x ≤ 2 ^ 125 + 2 ^ 73 }
        requires y { nat_abs self.y ≤ 2 ^ 125 + 2 ^ 73 }
        ensures same { result ≡ moved frame self x y }
        ensures small { IsSmallSpot result }
    {
        let (lean, rise) = second_side(frame);
        let (x, y) = (i128::from(x), i128::from(y));
        Spot {
            x: self.x + (1000 * x + lean * y),
            y: self.y + rise * y,
        }
    }
}
