ghost use Rattle.std.specs.Prelude.{IfOk, IfErr};
ghost use Rattle.dd_text.specs.Texts.{told_of};
ghost use Rattle.dd_text.specs.Images.{AreDegrees};
ghost use Rattle.dd_text.specs.ListFaults.{IsDegreesFault};
ghost use Rattle.dd_model.specs.Spelling.{values};

use crate::cells::{at_cells, spread};
use crate::faults::{Fault, Why};
use crate::lists::NumberList;
use dd_model::Pair;
use dd_symbol::Involutions;
use std::alloc::Global;

/// The degrees of all chambers, from a list with one number for each cell, in the order of the
/// least chambers.
pub(crate) fn degrees(
    alloc: Global,
    involutions: &Involutions,
    pair: Pair,
    list: &NumberList,
) -> Result<Vec<u32>, Fault>
    ensures ok { IfOk result (λ degrees. AreDegrees involutions.now pair
        (values (told_of list.now)) degrees.items) }
    ensures why { IfErr result (λ fault. IsDegreesFault involutions.now pair
        (told_of list.now) fault.why fault.at) }
{
    let least = involutions.least_of_cells(alloc, pair)?;
    let cells = involutions.least_chambers(alloc, pair)?;
    if list.numbers.len() < cells.len() {
        return Err(Fault {
            at: list.end,
            why: Why::ListShort,
        });
    }
    if list.numbers.len() > cells.len() {
        return Err(Fault {
            at: list.numbers[cells.len()].at,
            why: Why::ListLong,
        });
    }
    let told = at_cells(alloc, involutions.size(), &cells, &list.numbers)?;
    spread(alloc, &least, &told)
}
