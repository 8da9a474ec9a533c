ghost use Rattle.std.specs.Prelude.{◌<◌, ◌^◌, length, map, IfNone, IfSome, OnOk, IfErr};
ghost use Rattle.std.specs.List.{AllByRecursion};
ghost use Rattle.dd_model.specs.Wanted.{IsAscending};
ghost use Rattle.dd_shard.specs.Merging.{IsMergeFault};
ghost use Rattle.dd_shard.specs.Members.{IsShort, IsFirstFall, lists_of};

use crate::merge_fault::MergeFault;
use dd_symbol::{Connected, cmp_code};

/// Checks that each list ascends. An error names the first symbol that is not after the one before
/// it.
pub(crate) fn check_ascending(lists: &[Vec<Connected>]) -> Result<(), MergeFault>
    requires few { length lists.now < 2 ^ 32 }
    requires short { AllByRecursion IsShort (lists_of lists.now) }
    ensures ascending { OnOk result (AllByRecursion IsAscending (lists_of lists.now)) }
    ensures why { IfErr result (IsMergeFault (lists_of lists.now)) }
{
    for (before, list) in lists.iter().enumerate() {
        if let Some(symbol) = first_fall(list) {
            return Err(MergeFault::NotAscending {
                file: before as u32 + 1,
                symbol,
            });
        }
    }
    Ok(())
}

/// Returns the number of the first symbol that is not after the one before it, counted from 1.
fn first_fall(list: &[Connected]) -> Option<u32>
    requires { IsShort list.now }
    ensures ascending { IfNone result (IsAscending list.now) }
    ensures first { IfSome result (IsFirstFall list.now) }
{
    for k in 1..list.len() {
        if !cmp_code(list[k - 1].symbol(), list[k].symbol()).is_lt() {
            return Some(k as u32 + 1);
        }
    }
    None
}
