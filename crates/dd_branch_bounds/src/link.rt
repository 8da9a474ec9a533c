ghost use Rattle.std.specs.Prelude.{◌≡◌, ◌+◌, ◌*◌, ◌/◌, ◌%◌, ◌≤◌, ◌<◌};
ghost use Rattle.dd_model.specs.Indices.{index_at};

use crate::flag_number::FlagNumber;
use dd_branch_tables::index_at;
use dd_model::Index;

/// An image: the involution, a chamber, and where it leads.
#[derive(Clone, Copy, Drop)]
pub(crate) struct Link {
    pub(crate) index: Index,
    pub(crate) chamber: u8,
    pub(crate) image: u8,
    ghost chamber_within: { chamber ≤ 36 },
    ghost image_within: { image ≤ 36 },
}

impl Link {
    /// Returns the image that a number at a place of a code means.
    pub(crate) fn told(place: u8, number: u8) -> Link
        requires place { place < 108 }
        requires number { number ≤ 36 }
        ensures index { result.index ≡ index_at (place % 3) }
        ensures chamber { result.chamber ≡ 1 + place / 3 }
        ensures image { result.image ≡ number }
    {
        Link {
            index: index_at(place),
            chamber: 1 + place / 3,
            image: number,
        }
    }

    /// Its two flags at the first (0) or the second (1) involution of a pair.
    pub(crate) fn flags(&self, side: u8) -> (FlagNumber, FlagNumber)
        requires { side ≤ 1 }
        ensures first { result.0.number ≡ 2 * self.now.chamber + side }
        ensures second { result.1.number ≡ 2 * self.now.image + side }
    {
        let first = FlagNumber {
            number: 2 * self.chamber + side,
        };
        let second = FlagNumber {
            number: 2 * self.image + side,
        };
        (first, second)
    }
}
