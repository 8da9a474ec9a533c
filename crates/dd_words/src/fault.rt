ghost use Rattle.std.specs.Prelude.{◌≡◌, ◌≢◌};
ghost use Rattle.clap.specs.Words.{kind_of};

use clap::Error;
use clap::error::ErrorKind;
use std::alloc::{AllocError, AllocFailed};

/// Why no command was read.
#[derive(Debug, Clone, Copy, PartialEq, Eq)]
pub enum WordsFault {
    /// No command fits the words.
    NotTaken,
    /// Out of memory.
    Memory,
}

impl WordsFault {
    /// Returns what an error of clap means: a lack of memory, or words that it does not accept.
    pub(crate) fn of(error: &Error) -> WordsFault
        ensures not_taken { result ≡ WordsFault.NotTaken
            → kind_of error.now ≢ ErrorKind.OutOfMemory }
        ensures memory { result ≡ WordsFault.Memory → kind_of error.now ≡ ErrorKind.OutOfMemory }
    {
        match error.kind() {
            ErrorKind::OutOfMemory => WordsFault::Memory,
            _ => WordsFault::NotTaken,
        }
    }
}

impl From<AllocError> for WordsFault {
    ghost use Rattle.dd_words.specs.declared.fault.WordsFault.TheVariants as fault;
    ghost use Rattle.std.specs.Prelude.{◌≡◌};

    ghost from_gives = { λ _ result. result ≡ fault.Memory };

    fn from(_: AllocError) -> Self {
        WordsFault::Memory
    }
}

impl<T: Drop> From<AllocFailed<T>> for WordsFault {
    ghost use Rattle.dd_words.specs.declared.fault.WordsFault.TheVariants as fault;
    ghost use Rattle.std.specs.Prelude.{◌≡◌};

    ghost from_gives = { λ _ result. result ≡ fault.Memory };

    fn from(_: AllocFailed<T>) -> Self {
        WordsFault::Memory
    }
}
