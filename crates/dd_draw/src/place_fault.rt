ghost use Rattle.std.specs.Prelude.{◌≡◌};
ghost use Rattle.dd_draw.specs.declared.place_fault.PlaceFault.TheVariants as faults;

use dd_model::Memory;
use std::alloc::AllocFailed;

/// Why a net is not placed.
#[derive(Debug, Clone, Copy)]
pub enum PlaceFault {
    /// There are over 96 vertices.
    TooManyVertices { count: u32 },
    /// The first number of the elimination that is over 2^62 is at this place.
    TooWide { step: u32, row: u32, column: u32 },
    /// Out of memory.
    Memory,
}

impl From<Memory> for PlaceFault {
    ghost from_gives = { λ _ fault. fault ≡ faults.Memory };

    fn from(_: Memory) -> Self {
        PlaceFault::Memory
    }
}

impl<T: Drop> From<AllocFailed<T>> for PlaceFault {
    ghost from_gives = { λ _ fault. fault ≡ faults.Memory };

    fn from(_: AllocFailed<T>) -> Self {
        PlaceFault::Memory
    }
}
