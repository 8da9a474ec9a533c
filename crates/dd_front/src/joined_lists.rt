ghost use Rattle.std.specs.Prelude.{◌≡◌, ◌≢◌, ℕ, [], take, IfOk};
ghost use Rattle.std.specs.List.{AllByRecursion};
ghost use Rattle.dd_front.specs.Machine.{jobs_of};
ghost use Rattle.dd_front.specs.Joining.{IsDone, AreBlocks, AreJoined};

use crate::entry::{Entry, State};
use crate::members::Members;
use dd_model::Memory;
use std::alloc::Global;
use std::mem;

/// The list of an entry that is done.
fn list_of(entry: Entry) -> Members
    requires { IsDone entry.state }
    ensures { entry.state ≡ State.Done result }
{
    let Entry { state, .. } = entry;
    match state {
        State::Done(list) => list,
        State::Open | State::Out => unreachable!(),
    }
}

/// What the entries of a round have for each job that went into it: the jobs are those of the first
/// of the old entries.
pub(crate) fn join(
    alloc: Global,
    olds: &[Entry],
    handed: Vec<Entry>,
) -> Result<Vec<Members>, Memory>
    requires come { (k : ℕ) × AreBlocks (jobs_of (take k olds.now)) handed.items }
    requires done { AllByRecursion (λ e. IsDone e.state) handed.items }
    requires some { handed.items ≢ [] }
    ensures { (k : ℕ) → AreBlocks (jobs_of (take k olds.now)) handed.items
        → IfOk result (λ lists. AreJoined (jobs_of (take k olds.now)) handed.items lists.items) }
{
    let mut lists = Vec::new(alloc);
    let mut joined = Members::none(alloc);
    for entry in handed {
        if !entry.job.extends(&olds[lists.len()].job) {
            lists.push(mem::replace(&mut joined, Members::none(alloc)))?;
        }
        joined.append(list_of(entry))?;
    }
    lists.push(joined)?;
    Ok(lists)
}
