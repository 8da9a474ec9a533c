ghost use Rattle.std.specs.Prelude.{◌≡◌, ◌++◌, IfOk, IfErr, OnOk};
ghost use Rattle.dd_model.specs.Flat.{Flat};
ghost use Rattle.dd_crystal.specs.SheetCounts.{IsTorusSheets};
ghost use Rattle.dd_suite_commands.specs.Made.{IsCurved};
ghost use Rattle.dd_suite_commands.specs.SheetLines.{AddsSheetLine, AreSheetLines, IsFirstCurved, sheet_line};
ghost use Rattle.dd_suite_commands.specs.Stops.{IsStop};

use crate::refusals::{SymbolFault, SymbolRefusal};
use crate::stop::Stop;
use dd_crystal::{SheetsFault, sheets};
use dd_model::Memory;
use dd_symbol::Connected;
use std::alloc::Global;

/// Writes a line for each symbol: its number in the file, and the number of sheets of its torus
/// cover.
pub(crate) fn sheet_lines_of(
    alloc: Global,
    symbols: &[Connected],
) -> Result<Vec<u8>, Stop<SymbolRefusal>>
    ensures text { IfOk result (λ text. AreSheetLines 1 symbols.now text.items) }
    ensures why { IfErr result (IsStop (IsFirstCurved 1 symbols.now)) }
{
    let mut text = Vec::new(alloc);
    for (before, symbol) in symbols.iter().enumerate() {
        if let Err(stop) = put_sheets(&mut text, before + 1, symbol) {
            return Err(stop.at(before + 1));
        }
    }
    Ok(text)
}

/// Appends the line of number k, with the number of sheets of the torus cover of a flat symbol.
fn put_sheets(out: &mut Vec<u8>, k: usize, s: &Connected) -> Result<(), Stop<SymbolFault>>
    ensures text { OnOk result (AddsSheetLine k s.now out.old.items out.new.items) }
    ensures why { IfErr result (IsStop (IsCurved s.now)) }
{
    let alloc = *out.allocator();
    let number = sheets_of_flat(alloc, s)?;
    put_line(out, k, number)?;
    Ok(())
}

/// The number of sheets of the torus cover of a flat symbol.
fn sheets_of_flat(alloc: Global, s: &Connected) -> Result<u32, Stop<SymbolFault>>
    ensures number { IfOk result (λ number. IsTorusSheets s.now number) }
    ensures flat { IfOk result (λ _. Flat s.now) }
    ensures why { IfErr result (IsStop (IsCurved s.now)) }
{
    match sheets(alloc, s) {
        Ok(number) => Ok(number),
        Err(SheetsFault::NotFlat { curvature }) => {
            Err(Stop::Refused(SymbolFault::NotFlat { curvature }))
        }
        Err(SheetsFault::Memory) => Err(Stop::Memory),
    }
}

/// Appends a number of sheets as the line of number k.
fn put_line(out: &mut Vec<u8>, k: usize, number: u32) -> Result<(), Memory>
    ensures { OnOk result (out.new.items ≡ out.old.items ++ sheet_line k number) }
{
    let alloc = *out.allocator();
    let line = format!(in alloc; "{k} sheets {number}\n")?;
    out.extend_from_slice(line.as_bytes())?;
    Ok(())
}
