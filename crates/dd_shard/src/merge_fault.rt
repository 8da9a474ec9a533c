use dd_model::Memory;
use std::alloc::{AllocError, AllocFailed};

/// Why lists of symbols are not merged.
#[derive(Debug, Clone, Copy, PartialEq, Eq)]
pub enum MergeFault {
    /// A symbol is not after the one before it in its list.
    NotAscending {
        /// The number of the list, counted from 1.
        file: u32,
        /// The number of the symbol in its list, counted from 1.
        symbol: u32,
    },
    /// A symbol equals one of an earlier list.
    Doubled {
        /// The number of the list, counted from 1.
        file: u32,
        /// The number of the symbol in its list, counted from 1.
        symbol: u32,
    },
    /// Out of memory.
    Memory,
}

impl From<Memory> for MergeFault {
    ghost use Rattle.dd_shard.specs.declared.merge_fault.MergeFault.TheVariants as fault;
    ghost use Rattle.std.specs.Prelude.{◌≡◌};

    ghost from_gives = { λ _ result. result ≡ fault.Memory };

    fn from(_: Memory) -> Self {
        MergeFault::Memory
    }
}
