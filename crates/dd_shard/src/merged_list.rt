ghost use Rattle.std.specs.Prelude.{◌<◌, ◌^◌, length, IfOk, IfErr};
ghost use Rattle.std.specs.List.{AllByRecursion};
ghost use Rattle.dd_shard.specs.Merging.{AreMergeable, IsMerged, IsMergeFault};
ghost use Rattle.dd_shard.specs.Members.{IsShort, lists_of};

use crate::doubles::least_double;
use crate::falls::check_ascending;
use crate::members::{members_of, symbols_of};
use crate::merge_fault::MergeFault;
use crate::sort::sort;
use dd_symbol::Connected;
use std::alloc::Global;
use std::thread::Threads;

/// Returns the ascending list of all symbols of ascending lists that have no symbol in common.
///
/// An error names the first symbol that is not after the one before it in its list. If there is
/// none, it names the first symbol that equals one of an earlier list. Lists count before symbols.
pub fn merge<R: Threads + Sync>(
    rt: &R,
    alloc: Global,
    lists: Vec<Vec<Connected>>,
) -> Result<Vec<Connected>, MergeFault>
    requires few { length lists.items < 2 ^ 32 }
    requires short { AllByRecursion IsShort (lists_of lists.items) }
    ensures mergeable { IfOk result (λ _. AreMergeable (lists_of lists.items)) }
    ensures merged { IfOk result (λ merged. IsMerged (lists_of lists.items) merged.items) }
    ensures why { IfErr result (IsMergeFault (lists_of lists.items)) }
{
    check_ascending(&lists)?;
    let mut members = members_of(alloc, lists)?;
    sort(rt, &mut members)?;
    match least_double(&members) {
        Some(place) => Err(MergeFault::Doubled {
            file: place.file,
            symbol: place.number,
        }),
        None => Ok(symbols_of(alloc, members)?),
    }
}
