ghost use Rattle.std.specs.Prelude.{◌≡◌, length, IfOk};
ghost use Rattle.dd_model.specs.Request.{IsValid};
ghost use Rattle.dd_model.specs.Jobs.{AreAscendingJobs, AreApart, IsJobOf, AreMembersUnder};
ghost use Rattle.dd_front.specs.Absorbed.{ComeFrom};
ghost use Rattle.dd_front.specs.Joining.{done_with};
ghost use Rattle.dd_front.specs.Machine.{jobs_of};
ghost use Rattle.dd_board.specs.Desk.{AreJobsOf};

use dd_front::{Entry, Finder, Members, State};
use dd_model::{Job, Memory};
use dd_ports::Gate;
use std::alloc::Global;

/// The members under a job.
fn members_under<F: Finder>(alloc: Global, finder: &mut F, job: &Job) -> Result<Members, Memory>
    requires valid { IsValid (F.request finder.old) }
    requires job { IsJobOf (F.request finder.old) job.now }
    ensures request { F.request finder.new ≡ F.request finder.old }
    ensures under { IfOk result
        (λ members. AreMembersUnder (F.request finder.old) job.now members) }
{
    let list = finder.find(alloc, job)?;
    Members::new(alloc, list)
}

/// Does the jobs of a round one after the other, on this thread, as worker 1. Nobody else takes or
/// steals one, so there is no board, no lock and no deque.
pub(crate) fn do_alone<F: Finder, G: Gate>(
    alloc: Global,
    finder: &mut F,
    gate: &G,
    jobs: Vec<Job>,
) -> Result<Vec<Entry>, Memory>
    requires valid { IsValid (F.request finder.old) }
    requires ascending { AreAscendingJobs jobs.items }
    requires apart { AreApart jobs.items }
    requires all { AreJobsOf (F.request finder.old) jobs.items }
    ensures request { F.request finder.new ≡ F.request finder.old }
    ensures round { IfOk result
        (λ entries. ComeFrom (F.request finder.old) jobs.items entries.items) }
{
    let mut entries = Vec::with_capacity(alloc, jobs.len())?;
    for job in jobs {
        let number = entries.len() as u64 + 1;
        gate.enter(1, number);
        let members = members_under(alloc, finder, &job)?;
        entries.push_reserved(Entry {
            number,
            job,
            state: State::Done(members),
        });
    }
    Ok(entries)
}

/// Finds what is under the jobs of some entries, one after the other, on this thread and as worker
/// 1. The entries stay where they are, and no job is copied.
pub fn find_each<F: Finder, G: Gate>(
    alloc: Global,
    finder: &mut F,
    gate: &G,
    entries: &[Entry],
) -> Result<Vec<Members>, Memory>
    requires valid { IsValid (F.request finder.old) }
    requires ascending { AreAscendingJobs (jobs_of entries.now) }
    requires apart { AreApart (jobs_of entries.now) }
    requires all { AreJobsOf (F.request finder.old) (jobs_of entries.now) }
    ensures request { F.request finder.new ≡ F.request finder.old }
    ensures long { IfOk result (λ lists. length lists.items ≡ length entries.now) }
    ensures come { IfOk result (λ lists. ComeFrom (F.request finder.old) (jobs_of entries.now)
        (done_with lists.items entries.now)) }
{
    let mut lists = Vec::with_capacity(alloc, entries.len())?;
    for entry in entries {
        gate.enter(1, lists.len() as u64 + 1);
        lists.push_reserved(members_under(alloc, finder, &entry.job)?);
    }
    Ok(lists)
}
