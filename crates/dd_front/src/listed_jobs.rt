ghost use Rattle.std.specs.Prelude.{◌≡◌, ◌+◌, ◌<◌, ◌^◌, length, IfOk};
ghost use Rattle.dd_front.specs.Machine.{open_entries, StandsAt};

use crate::entry::{Entry, State};
use dd_model::{Job, Memory, Position};
use std::alloc::Global;

/// Open entries of jobs, numbered from `first` on.
pub(crate) fn listed(alloc: Global, first: u64, jobs: Vec<Job>) -> Result<Vec<Entry>, Memory>
    requires { first + length jobs.items < 2 ^ 64 }
    ensures { IfOk result (λ entries. entries.items ≡ open_entries first jobs.items) }
{
    let mut entries = Vec::with_capacity(alloc, jobs.len())?;
    let mut number = first;
    for job in jobs {
        entries.push(Entry {
            number,
            job,
            state: State::Open,
        })?;
        number += 1;
    }
    Ok(entries)
}

/// Returns where a machine is that has these entries and continues from a position.
pub(crate) fn position_of(entries: &[Entry], from: &Position) -> Result<Position, Memory>
    ensures { IfOk result (λ position. StandsAt from.now entries.now position) }
{
    let Some(entry) = entries.first() else {
        return Ok(Position::End);
    };
    if entry.job.is_wholly_before(from) || entry.job.has_within(from) {
        return from.try_copy();
    }
    Ok(Position::At(entry.job.try_copy()?))
}
