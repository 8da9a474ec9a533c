ghost use Rattle.std.specs.Prelude.{◌≡◌, Some};
ghost use Rattle.dd_text.specs.Messages.{why_text, fault_text};

use dd_model::Memory;
use dd_symbol::Refusal;
use std::alloc::{AllocError, AllocFailed};
use std::fmt;

/// Why a file is not read.
#[derive(Debug, Clone, Copy, PartialEq, Eq)]
pub enum Why {
    /// A byte is where no part may begin with it or continue with it.
    Stray,
    /// The input ends inside a symbol.
    UnexpectedEnd,
    /// A number has more than 9 digits.
    NumberTooLong,
    /// The second number of a size is not 2.
    Dimension,
    /// A size is 0 or over 1,024.
    Size,
    /// A list ends before all its values are given.
    ListShort,
    /// A list has a number too many.
    ListLong,
    /// An image is no chamber, or a chamber whose image is known.
    Image,
    /// The lists are no connected symbol with small branching values.
    Symbol(Refusal),
    /// There are over 1,000,000 symbols.
    TooManySymbols,
    /// There are over 16,777,216 bytes.
    Long,
    /// Out of memory.
    Memory,
}

/// The first fault of a file.
#[derive(Debug, Clone, Copy, PartialEq, Eq)]
pub struct FileFault {
    /// The number of the symbol, counted from 1; between symbols that of the next one.
    pub symbol: u32,
    /// The place in the file, in bytes, counted from 0.
    pub at: u64,
    pub why: Why,
}

impl fmt::Display for Why {
    ghost output = { λ why. Some (why_text why) };

    fn fmt<W: fmt::Write>(&self, f: &mut fmt::Formatter<W>) -> fmt::Result {
        match self {
            Why::Stray => f.write_str("stray"),
            Why::UnexpectedEnd => f.write_str("unexpected end"),
            Why::NumberTooLong => f.write_str("number too long"),
            Why::Dimension => f.write_str("dimension"),
            Why::Size => f.write_str("size"),
            Why::ListShort => f.write_str("list short"),
            Why::ListLong => f.write_str("list long"),
            Why::Image => f.write_str("image"),
            Why::Symbol(refusal) => write!(f, "{refusal}"),
            Why::TooManySymbols => f.write_str("too many symbols"),
            Why::Long => f.write_str("file too long"),
            Why::Memory => f.write_str("out of memory"),
        }
    }
}

impl fmt::Display for FileFault {
    ghost output = { λ fault. Some (fault_text fault) };

    fn fmt<W: fmt::Write>(&self, f: &mut fmt::Formatter<W>) -> fmt::Result {
        write!(f, "symbol {} at {}: {}", self.symbol, self.at, self.why)
    }
}

/// A fault in the text of one symbol, and its place.
#[derive(Clone, Copy)]
pub(crate) struct Fault {
    pub at: u32,
    pub why: Why,
}

impl Fault {
    ghost use Rattle.dd_text.specs.declared.faults.Why.TheVariants as whys;

    /// Returns the fault of a lack of memory, which has no place.
    fn memory() -> Self
        ensures { result.why ≡ whys.Memory }
    {
        Fault {
            at: 0,
            why: Why::Memory,
        }
    }
}

impl From<Memory> for Fault {
    ghost use Rattle.dd_text.specs.declared.faults.Why.TheVariants as whys;

    ghost from_gives = { λ _ fault. fault.why ≡ whys.Memory };

    fn from(_: Memory) -> Self {
        Fault::memory()
    }
}

impl From<AllocError> for Fault {
    ghost use Rattle.dd_text.specs.declared.faults.Why.TheVariants as whys;

    ghost from_gives = { λ _ fault. fault.why ≡ whys.Memory };

    fn from(_: AllocError) -> Self {
        Fault::memory()
    }
}

impl<T: Drop> From<AllocFailed<T>> for Fault {
    ghost use Rattle.dd_text.specs.declared.faults.Why.TheVariants as whys;

    ghost from_gives = { λ _ fault. fault.why ≡ whys.Memory };

    fn from(_: AllocFailed<T>) -> Self {
        Fault::memory()
    }
}
