ghost use Rattle.std.specs.Prelude.{◌≡◌, IfOk};
ghost use Rattle.dd_catalogue_rounds.specs.Works.{IsStarting};

use crate::parts::is_large;
use crate::rounds::jobs_from;
use dd_front::Finder;
use dd_model::{Job, Memory};
use dd_pages_and_checkpoints::Run;
use std::alloc::Global;

/// A job with this many numbers has a whole table, and is small.
const MOST_SPLITS: u32 = 108;

/// Puts the children of the first job in its place, if it is large and the run's position is within
/// it. The children that are wholly before the position are left out.
fn cut_first<F: Finder>(
    alloc: Global,
    finder: &mut F,
    run: &Run,
    mut jobs: Vec<Job>,
) -> Result<Vec<Job>, Memory>
    requires request { F.request finder.old ≡ run.now.portion.request }
    requires starting { IsStarting run.now.portion run.now.at jobs.items }
    ensures request { F.request finder.new ≡ F.request finder.old }
    ensures starting { IfOk result
        (λ parts. IsStarting run.now.portion run.now.at parts.items) }
{
    let Some(first) = jobs.first() else {
        return Ok(jobs);
    };
    if !is_large(&run.portion.request, first) || !first.has_within(&run.at) {
        return Ok(jobs);
    }
    let children = finder.split(alloc, first)?;
    let mut parts = jobs_from(children, &run.at);
    if parts.is_empty() {
        return Ok(jobs);
    }
    let mut rest = jobs.split_off(1)?;
    parts.append(&mut rest)?;
    Ok(parts)
}

/// Returns the jobs that a run has to do, with parts in the place of the first one if the run's
/// position is within it. The first run of a chain has whole jobs.
pub(crate) fn parts_from<F: Finder>(
    alloc: Global,
    finder: &mut F,
    run: &Run,
    jobs: Vec<Job>,
) -> Result<Vec<Job>, Memory>
    requires request { F.request finder.old ≡ run.now.portion.request }
    requires starting { IsStarting run.now.portion run.now.at jobs.items }
    ensures request { F.request finder.new ≡ F.request finder.old }
    ensures starting { IfOk result
        (λ parts. IsStarting run.now.portion run.now.at parts.items) }
    ensures first { IfOk result (λ parts. run.now.number ≡ 1 → parts.items ≡ jobs.items) }
{
    let mut jobs = jobs;
    if run.number == 1 {
        return Ok(jobs);
    }
    for _ in 0..MOST_SPLITS {
        jobs = cut_first(alloc, finder, run, jobs)?;
    }
    Ok(jobs)
}
