ghost use Rattle.std.specs.Prelude.{◌*◌, ◌<◌, IsTrue, length};

use crate::tuning::{AHEAD, LARGE, LONGEST, MANY_OTHERS, SCARCE};
use dd_model::Job;

/// Returns whether something may be under one of a job's children. If nothing is under any of them,
/// a search may return a single child, with the number 0.
pub(crate) fn is_worth_a_split(children: &[Job]) -> bool {
    !matches!(children, [only] if only.prefix.as_slice().last() == Some(&0))
}

/// Returns how many numbers a job may have that is split. Much is under a job of a few numbers. But
/// one job of a large size with 18 numbers may have nearly half of the work of all, and the other
/// workers then have nothing to do at last.
fn longest_split(size: u32, waiting: u64, others: u64) -> u64 {
    if waiting / SCARCE <= others {
        LONGEST.scarce
    } else if waiting / AHEAD <= others && others < MANY_OTHERS {
        LONGEST.few
    } else if waiting / AHEAD <= others {
        LONGEST.few_for_many
    } else if size >= LARGE {
        LONGEST.large
    } else {
        0
    }
}

/// Returns whether a job is to be split. Its prefix is short, so that much may be under it. It may
/// be longer if fewer jobs wait for the workers. A single worker splits none.
pub(crate) fn is_to_split(job: &Job, waiting: u64, others: usize) -> bool
    ensures { IsTrue result → length job.now.prefix < 3 * job.now.size }
{
    let numbers = job.prefix.as_slice().len() as u64;
    others > 0
        && numbers < longest_split(job.size, waiting, others as u64)
        && numbers < 3 * job.size as u64
}
