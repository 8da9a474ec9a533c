ghost use Rattle.std.specs.Prelude.{◌≡◌, ℕ, List, [], Option, Bool, true, IsSome};
ghost use Rattle.dd_ports.specs.declared.store.StoreFault.TheVariants.{Failed, Memory};
ghost use Rattle.dd_ports.specs.Causes.{HasCause, StaysSure};
ghost use Rattle.dd_ports.specs.Texts.{Fills, Fetches, Puts, SameTexts, SameOthers};

use std::alloc::{AllocError, AllocFailed};

/// How much of a text was fetched.
#[derive(Clone, Copy, Debug, PartialEq, Eq)]
pub enum Fetched {
    /// All of it.
    Whole,
    /// As many bytes as were asked for, and there are more.
    Longer,
}

/// Why a store gave up.
#[derive(Clone, Copy, Debug, PartialEq, Eq)]
pub enum StoreFault {
    /// The store failed, and counted it.
    Failed,
    /// Out of memory.
    Memory,
}

impl From<AllocError> for StoreFault {
    ghost from_gives = { λ _ e. e ≡ Memory };

    fn from(_: AllocError) -> Self {
        StoreFault::Memory
    }
}

impl<T: Drop> From<AllocFailed<T>> for StoreFault {
    ghost from_gives = { λ _ e. e ≡ Memory };

    fn from(_: AllocFailed<T>) -> Self {
        StoreFault::Memory
    }
}

/// Texts under names.
pub trait Store {
    /// True if it is known what the store holds.
    ghost tells: { Self → Bool };

    /// The text under a name, if it is known.
    ghost held: { Self → List ℕ → Option (List ℕ) };

    /// How often it has failed. It never falls.
    ghost faults: { Self → ℕ };

    /// True if no call to come fails, but a fetch of a name that holds nothing.
    ghost sure: { Self → Bool };

    /// Fetches the first bytes of a text. It changes no text.
    fn fetch(&mut self, name: &str, into: &mut Vec<u8>, limit: usize) -> Result<Fetched, StoreFault>
        requires { into.old.items ≡ [] }
        ensures fills { Fills limit into.new.items result }
        ensures bytes { tells self.old ≡ true
            → Fetches (held self.old name.now) into.new.items result }
        ensures same { tells self.old ≡ true
            → (tells self.new ≡ true) × SameTexts (held self.old) (held self.new) }
        ensures cause { HasCause Failed (faults self.old) (faults self.new) result }
        ensures sure { sure self.old ≡ true → sure self.new ≡ true }
        ensures passes { sure self.old ≡ true → IsSome (held self.old name.now)
            → StaysSure Failed (faults self.old) (faults self.new) (sure self.new) result };

    /// Puts a text in the place of what the name holds.
    fn put(&mut self, name: &str, bytes: &[u8]) -> Result<(), StoreFault>
        ensures bytes { tells self.old ≡ true
            → Puts (held self.old name.now) (held self.new name.now) bytes.now result }
        ensures same { tells self.old ≡ true
            → (tells self.new ≡ true) × SameOthers name.now (held self.old) (held self.new) }
        ensures cause { HasCause Failed (faults self.old) (faults self.new) result }
        ensures sure { sure self.old ≡ true
            → StaysSure Failed (faults self.old) (faults self.new) (sure self.new) result };
}
