ghost use Rattle.std.specs.Prelude.{Some};
ghost use Rattle.dd_suite_commands.specs.Messages.{merge_refusal_text};

use dd_text::FileFault;
use std::fmt;

/// Why files are not merged.
#[derive(Clone, Copy, Debug, PartialEq, Eq)]
pub enum MergeRefusal {
    /// A file has a fault.
    File {
        /// The number of the file, counted from 1.
        file: u32,
        /// The fault.
        fault: FileFault,
    },
    /// A symbol is not after the one before it in its file.
    NotAscending {
        /// The number of the file, counted from 1.
        file: u32,
        /// The number of the symbol in its file, counted from 1.
        symbol: u32,
    },
    /// A symbol equals one of an earlier file.
    Doubled {
        /// The number of the file, counted from 1.
        file: u32,
        /// The number of the symbol in its file, counted from 1.
        symbol: u32,
    },
}

impl fmt::Display for MergeRefusal {
    ghost output = { λ refusal. Some (merge_refusal_text refusal) };

    fn fmt<W: fmt::Write>(&self, f: &mut fmt::Formatter<W>) -> fmt::Result {
        match self {
            MergeRefusal::File { file, fault } => write!(f, "file {file}: {fault}"),
            MergeRefusal::NotAscending { file, symbol } => {
                write!(f, "file {file}: symbol {symbol} not ascending")
            }
            MergeRefusal::Doubled { file, symbol } => {
                write!(f, "file {file}: symbol {symbol} doubled")
            }
        }
    }
}
