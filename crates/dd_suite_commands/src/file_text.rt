ghost use Rattle.std.specs.Prelude.{◌≡◌, ◌≤◌, length, IfOk, IfErr};
ghost use Rattle.std.specs.List.{AllByRecursion};
ghost use Rattle.dd_model.specs.Reading.{IsReadable};
ghost use Rattle.dd_suite_commands.specs.Files.{IsTextOf, IsFileText, IsRefusalOf};
ghost use Rattle.dd_suite_commands.specs.Stops.{IsStop};
ghost use Rattle.dd_suite_commands.specs.Faults.{IsCommandFault, fault_of_why};

use crate::command_fault::CommandFault;
use crate::commands::FileCommand;
use crate::drawings::drawings_of;
use crate::info::info_of;
use crate::refusals::SymbolRefusal;
use crate::sheet_lines::sheet_lines_of;
use crate::stop::Stop;
use crate::symbol_commands::lines_of;
use dd_symbol::Connected;
use dd_text::{FileFault, Why, read_file};
use std::alloc::Global;

/// What a command writes of the symbols of a file.
pub fn text_of_file(
    alloc: Global,
    command: FileCommand,
    bytes: &[u8],
) -> Result<Vec<u8>, CommandFault>
    ensures text { IfOk result (λ text. IsFileText command bytes.now text.items) }
    ensures why { IfErr result (λ why. IsCommandFault command why bytes.now) }
{
    let symbols = match read_file(alloc, bytes) {
        Ok(symbols) => symbols,
        Err(fault) => return Err(fault_of(fault)),
    };
    match text_of(alloc, command, symbols) {
        Ok(text) => Ok(text),
        Err(Stop::Refused(refusal)) => Err(CommandFault::Symbol(refusal)),
        Err(Stop::Memory) => Err(CommandFault::Memory),
    }
}

/// Returns why there is no text if the file has a fault. A lack of memory is no refusal.
fn fault_of(fault: FileFault) -> CommandFault
    ensures { result ≡ fault_of_why fault.why fault }
{
    match fault.why {
        Why::Memory => CommandFault::Memory,
        _ => CommandFault::File(fault),
    }
}

/// What a command writes of symbols.
fn text_of(
    alloc: Global,
    command: FileCommand,
    symbols: Vec<Connected>,
) -> Result<Vec<u8>, Stop<SymbolRefusal>>
    requires few { length symbols.items ≤ 1000000 }
    requires readable { AllByRecursion IsReadable symbols.items }
    ensures text { IfOk result (λ text. IsTextOf command symbols.items text.items) }
    ensures why { IfErr result (IsStop (IsRefusalOf command symbols.items)) }
{
    match command {
        FileCommand::Symbols(command) => lines_of(alloc, command, symbols),
        FileCommand::Info => Ok(info_of(alloc, &symbols)?),
        FileCommand::Sheets => sheet_lines_of(alloc, &symbols),
        FileCommand::Draw(frame) => drawings_of(alloc, frame, &symbols),
    }
}
