ghost use Rattle.std.specs.Prelude.{◌≡◌};
ghost use Rattle.dd_draw.specs.Extents.{IsSmallExtent, box_at, with_spot};
ghost use Rattle.dd_draw.specs.Spots.{IsSmallSpot, start};

use crate::spot::Spot;

/// The least box that has some spots.
#[derive(Clone, Copy)]
pub(crate) struct Extent {
    pub left: i128,
    pub top: i128,
    pub right: i128,
    pub bottom: i128,
}

impl Extent {
    /// Returns the box that has only the start of the cell.
    pub fn at_start() -> Extent
        ensures small { IsSmallExtent result }
        ensures same { result ≡ box_at start }
    {
        Extent {
            left: 0,
            top: 0,
            right: 0,
            bottom: 0,
        }
    }

    /// Returns the least box that has this box and a spot.
    pub fn with(self, spot: Spot) -> Extent
        requires small { IsSmallExtent self }
        requires spot { IsSmallSpot spot }
        ensures small { IsSmallExtent result }
        ensures same { result ≡ with_spot self spot }
    {
        Extent {
            left: self.left.min(spot.x),
            top: self.top.min(spot.y),
            right: self.right.max(spot.x),
            bottom: self.bottom.max(spot.y),
        }
    }
}
