use crate::refusals::SymbolRefusal;
use dd_text::FileFault;

/// Why a command has no text for a file.
#[derive(Clone, Copy, Debug, PartialEq, Eq)]
pub enum CommandFault {
    /// The first fault of the file, which spells no list of symbols.
    File(FileFault),
    /// The first symbol of which the command makes nothing.
    Symbol(SymbolRefusal),
    /// Out of memory.
    Memory,
}
