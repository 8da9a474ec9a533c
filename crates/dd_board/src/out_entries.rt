ghost use Rattle.std.specs.Prelude.{◌≡◌, ◌↔◌, IfOk, IsTrue};
ghost use Rattle.std.specs.List.{Contains};
ghost use Rattle.dd_model.specs.declared.jobs.Position.TheVariants.{At, End};
ghost use Rattle.dd_front.specs.Machine.{entry_of};
ghost use Rattle.dd_board.specs.Desk.{first_place};

use dd_front::{Entry, Front, State};
use dd_model::{Job, Memory, Position};

/// Returns whether two jobs are equal.
fn is_same(job: &Job, other: &Job) -> bool
    ensures { IsTrue result ↔ (job.now ≡ other.now) }
{
    job.size == other.size && job.prefix.as_slice() == other.prefix.as_slice()
}

/// Returns whether an entry is out with this job.
fn is_out_with(entry: &Entry, job: &Job) -> bool
    ensures { IsTrue result ↔ ((entry.now.job ≡ job.now) × (entry.now.state ≡ State.Out)) }
{
    entry.state.is_out() && is_same(&entry.job, job)
}

/// Returns whether the entry of a number is out with this job.
pub(crate) fn has_out_with(front: &Front, number: u64, job: &Job) -> bool
    ensures { IsTrue result ↔ Contains front.now.entries (entry_of number job.now State.Out) }
{
    match front.entry(number) {
        Some(entry) => is_out_with(entry, job),
        None => false,
    }
}

/// Where a round begins.
pub(crate) fn place_of_first(jobs: &[Job]) -> Result<Position, Memory>
    ensures { IfOk result (λ place. place ≡ first_place jobs.now) }
{
    match jobs.first() {
        Some(job) => Ok(Position::At(job.try_copy()?)),
        None => Ok(Position::End),
    }
}
