ghost use Rattle.std.specs.Prelude.{◌≡◌, IfOk};

use dd_front::{Event, JobList};
use dd_model::{Job, Memory};
use std::alloc::Global;

/// Copies of jobs.
fn jobs_of(alloc: Global, jobs: &[Job]) -> Result<Vec<Job>, Memory>
    ensures { IfOk result (λ copies. copies.items ≡ jobs.now) }
{
    let mut copies = Vec::with_capacity(alloc, jobs.len())?;
    for job in jobs {
        copies.push_reserved(job.try_copy()?);
    }
    Ok(copies)
}

/// An equal event. A list of members is shared and not copied.
pub(crate) fn copy_of(alloc: Global, event: &Event) -> Result<Event, Memory>
    ensures { IfOk result (λ copy. copy ≡ event.now) }
{
    Ok(match event {
        Event::Take { worker, entry } => Event::Take {
            worker: *worker,
            entry: *entry,
        },
        Event::Look { worker } => Event::Look { worker: *worker },
        Event::Split {
            worker,
            entry,
            jobs,
        } => Event::Split {
            worker: *worker,
            entry: *entry,
            jobs: JobList::from_vec(jobs_of(alloc, jobs.as_slice())?),
        },
        Event::Finish {
            worker,
            entry,
            list,
        } => Event::Finish {
            worker: *worker,
            entry: *entry,
            list: list.share()?,
        },
        Event::Back { worker, entry } => Event::Back {
            worker: *worker,
            entry: *entry,
        },
        Event::Emit => Event::Emit,
        Event::Part { count } => Event::Part { count: *count },
        Event::Save => Event::Save,
        Event::Resume => Event::Resume,
    })
}
