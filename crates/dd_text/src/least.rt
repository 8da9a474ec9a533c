ghost use Rattle.std.specs.Prelude.{◌≡◌, OnOk};
ghost use Rattle.dd_model.specs.Symbol.{IsChamber, op, first as pair_first, second as pair_second};
ghost use Rattle.dd_text.specs.Told.{AddsLeast};

use dd_model::{Memory, Pair};
use dd_symbol::Symbol;

/// Appends a chamber where it is the least one of its cell. Its two neighbors there are known, and
/// the cell is walked only where neither is smaller. It is inlined where the pair is known, so that
/// the pair is not tested again at each step.
#[inline(always)]
pub(crate) fn add_least(
    chambers: &mut Vec<u32>,
    symbol: &Symbol,
    pair: Pair,
    chamber: u32,
    first: u32,
    second: u32,
) -> Result<(), Memory>
    requires chamber { IsChamber symbol.now chamber }
    requires first { first ≡ op symbol.now (pair_first pair) chamber }
    requires second { second ≡ op symbol.now (pair_second pair) chamber }
    ensures { OnOk result (AddsLeast symbol.now pair chamber chambers.old.items chambers.new.items) }
{
    if first < chamber {
        return Ok(());
    }
    if second < chamber {
        return Ok(());
    }
    if !symbol.is_least_of_cell(pair, chamber) {
        return Ok(());
    }
    chambers.push(chamber)?;
    Ok(())
}
