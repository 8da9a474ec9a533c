use crate::refusals::{SymbolFault, SymbolRefusal};
use dd_model::Memory;
use std::alloc::AllocFailed;

/// Why something was not made: it is refused, or memory ran out.
#[derive(Clone, Copy, Debug, PartialEq, Eq)]
pub enum Stop<T> {
    /// Why it is refused.
    Refused(T),
    /// Out of memory.
    Memory,
}

impl<T> From<Memory> for Stop<T> {
    ghost use Rattle.dd_suite_commands.specs.declared.stop.Stop.TheVariants as stop;
    ghost use Rattle.std.specs.Prelude.{◌≡◌};

    ghost from_gives = { λ _ result. result ≡ stop.Memory };

    fn from(_: Memory) -> Self {
        Stop::Memory
    }
}

impl<T, U: Drop> From<AllocFailed<U>> for Stop<T> {
    ghost use Rattle.dd_suite_commands.specs.declared.stop.Stop.TheVariants as stop;
    ghost use Rattle.std.specs.Prelude.{◌≡◌};

    ghost from_gives = { λ _ result. result ≡ stop.Memory };

    fn from(_: AllocFailed<U>) -> Self {
        Stop::Memory
    }
}

impl Stop<SymbolFault> {
    ghost use Rattle.dd_suite_commands.specs.Stops.{at_symbol};
    ghost use Rattle.std.specs.Prelude.{◌≡◌};

    /// Returns why nothing was made of the symbol with this number in its file.
    pub(crate) fn at(self, symbol: usize) -> Stop<SymbolRefusal>
        ensures { result ≡ at_symbol symbol self }
    {
        match self {
            Stop::Refused(why) => Stop::Refused(SymbolRefusal { symbol, why }),
            Stop::Memory => Stop::Memory,
        }
    }
}
