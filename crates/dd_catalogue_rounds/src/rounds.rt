ghost use Rattle.std.specs.Prelude.{◌≡◌, ◌≤◌, ◌<◌, ◌^◌, ℕ, List, [], IfOk, IsTrue, OnErr, MatchBool, MatchOption, length};
ghost use Rattle.dd_model.specs.Request.{IsValid};
ghost use Rattle.dd_model.specs.Symbol.{Symbol};
ghost use Rattle.dd_model.specs.Jobs.{IsJobOf, AreAscendingJobs, AreApart};
ghost use Rattle.std.specs.List.{AllByRecursion};
ghost use Rattle.dd_front.specs.Allowed.{HasFirst};
ghost use Rattle.dd_model.specs.Lists.{IsWithout};
ghost use Rattle.dd_model.specs.Position.{IsWhollyBefore};
ghost use Rattle.dd_front.specs.Machine.{StandsAt, IsOpened};
ghost use Rattle.dd_model.specs.declared.jobs.Position.{Position as Place};
ghost use Rattle.dd_pages_and_checkpoints.specs.Runs.{start_of};
ghost use Rattle.dd_pages_and_checkpoints.specs.Rounds.{IsRoundDone, IsAtEnd};
ghost use Rattle.dd_catalogue_rounds.specs.WholeSizes.{sizes_up_to};
ghost use Rattle.dd_catalogue_rounds.specs.Works.{IsStarted, IsBegun, IsLongAsWhole};
ghost use Rattle.dd_catalogue_rounds.specs.Splits.{IsReady, IsGroupDone};

use crate::parts::{split_large, weight_of};
use crate::resumed_jobs::parts_from;
use crate::tuning::{JOBS_ALONE, LONG_ROUND_WEIGHT, ROUND_WEIGHT, WORKERS_A_JOB};
use crate::workshop::Workshop;
use dd_front::{Entry, Finder, Front, State};
use dd_front_jobs::Pace;
use dd_model::{Job, Memory, Position, Prefix, Request};
use dd_pages_and_checkpoints::Run;
use dd_ports::Gate;
use dd_steal::{find_each, run_round};
use std::alloc::Global;
use std::sync::Wait;
use std::thread::Threads;

/// The jobs that are not wholly before a position.
pub(crate) fn jobs_from(mut jobs: Vec<Job>, at: &Position) -> Vec<Job>
    ensures { IsWithout (IsWhollyBefore at.now) jobs.items result.items }
{
    jobs.retain(|job| !job.is_wholly_before(at));
    jobs
}

/// Opens a front with these jobs at the place where a run begins.
fn open_front(alloc: Global, run: &Run, jobs: Vec<Job>) -> Result<Front, Memory>
    requires ascending { AreAscendingJobs jobs.items }
    requires apart { AreApart jobs.items }
    ensures { IfOk result
        (IsOpened run.now.portion.request jobs.items run.now.at run.now.lines) }
{
    Front::open(
        alloc,
        run.portion.request,
        jobs,
        run.at.try_copy()?,
        u128::from(run.lines),
    )
}

/// Returns a front with the jobs of a run.
pub(crate) fn front_of<F: Finder>(alloc: Global, finder: &mut F, run: &Run) -> Result<Front, Memory>
    requires request { F.request finder.old ≡ run.now.portion.request }
    ensures request { F.request finder.new ≡ F.request finder.old }
    ensures started { IfOk result (IsStarted (start_of run.now)) }
{
    let jobs = jobs_from(run.portion.opening(alloc)?, &run.at);
    let jobs = parts_from(alloc, finder, run, jobs)?;
    open_front(alloc, run, jobs)
}

/// Returns a job for each size that is asked for, under which all members of the size are.
fn whole_sizes(alloc: Global, request: &Request) -> Result<Vec<Job>, Memory>
    ensures { IfOk result (λ jobs. jobs.items ≡ sizes_up_to request.now.chambers) }
{
    let mut jobs = Vec::new(alloc);
    for k in 0..request.chambers {
        let prefix = Prefix::from_slice(alloc, &[])?;
        jobs.push(Job {
            size: k + 1,
            prefix,
        })?;
    }
    Ok(jobs)
}

/// Returns a front with the jobs of a run that keeps no checkpoint. Nothing that the run writes
/// shows its jobs. One worker that does a whole catalogue begins with a job for each size, and a
/// large one is done in parts. So the many prefixes of an opening with nothing under them are no
/// jobs.
pub(crate) fn lone_front_of<F: Finder>(
    alloc: Global,
    finder: &mut F,
    run: &Run,
) -> Result<Front, Memory>
    requires request { F.request finder.old ≡ run.now.portion.request }
    ensures request { F.request finder.new ≡ F.request finder.old }
    ensures begun { IfOk result (IsBegun (start_of run.now)) }
{
    if run.pace.workers() > 1 || run.portion.shard.is_some() {
        return front_of(alloc, finder, run);
    }
    let jobs = whole_sizes(alloc, &run.portion.request)?;
    open_front(alloc, run, jobs)
}

/// Returns how many of the first entries go into a round: at least 1, at most `most`, and as many
/// as weigh together no more than a round may.
fn few_ahead(front: &Front, most: u32) -> u32
    requires { 1 ≤ most }
    ensures some { 1 ≤ result }
    ensures few { result ≤ most }
{
    let request = front.request();
    let mut left = ROUND_WEIGHT;
    let mut count = 0;
    for entry in front.entries() {
        let weight = weight_of(&request, &entry.job);
        if count == most || weight > left {
            break;
        }
        left -= weight;
        count += 1;
    }
    count.max(1)
}

/// Returns the pace of a round in which as many jobs as are asked for have something under them, as
/// far as the search sees it. Many jobs with nothing under them follow each other. A round of only
/// these has nothing for several workers to do. Together they weigh no more than a round may.
fn pace_without_empty_jobs<F: Finder>(
    alloc: Global,
    finder: &mut F,
    pace: Pace,
    entries: &[Entry],
) -> Result<Pace, Memory>
    requires valid { IsValid (F.request finder.old) }
    requires jobs { AllByRecursion (λ e. IsJobOf (F.request finder.old) e.job) entries.now }
    ensures request { F.request finder.new ≡ F.request finder.old }
    ensures workers { IfOk result (λ longer. longer.workers ≡ pace.workers) }
{
    let request = finder.request();
    let mut left = pace.round();
    let mut heavy = LONG_ROUND_WEIGHT;
    let mut round = 0_u32;
    for entry in entries {
        let weight = weight_of(&request, &entry.job);
        if left == 0 || weight > heavy {
            break;
        }
        if finder.may_find(alloc, &entry.job)? {
            left -= 1;
            heavy -= weight;
        }
        round = round.saturating_add(1);
    }
    Ok(pace.with_round(round))
}

/// Does the next round of a front whose run keeps no checkpoint, and returns whether there was
/// one. A large job is done in parts. One worker does a few jobs of the round at a time. If there
/// are several workers, jobs under which nothing is are not counted. It fails only if an allocation
/// fails.
pub(crate) fn do_long_round<R: Threads + Wait + Sync, F: Finder + Sync, G: Gate + Sync>(
    workshop: &Workshop<'_, R, G>,
    finder: &mut F,
    pace: Pace,
    front: &mut Front,
) -> Result<bool, Memory>
    requires ready { IsReady (F.request finder.old) front.old }
    ensures request { F.request finder.new ≡ F.request finder.old }
    ensures round { IfOk result (λ more. MatchBool more
        ((most : ℕ) × IsGroupDone (F.request finder.old) most front.old front.new)
        (front.old.entries ≡ [])) }
{
    split_large(workshop.alloc, finder, front)?;
    if pace.workers() == 1 {
        let few = pace.with_round(few_ahead(front, pace.round().min(JOBS_ALONE)));
        return do_round(workshop, finder, few, front);
    }
    let longer = pace_without_empty_jobs(workshop.alloc, finder, pace, front.entries())?;
    do_round(workshop, finder, longer, front)
}

/// Does the next round of a front whose run keeps checkpoints, and returns whether there was one. A
/// large job is done in parts. It fails only if an allocation fails.
pub(crate) fn do_kept_round<R: Threads + Wait + Sync, F: Finder + Sync, G: Gate + Sync>(
    workshop: &Workshop<'_, R, G>,
    finder: &mut F,
    pace: Pace,
    front: &mut Front,
) -> Result<bool, Memory>
    requires ready { IsReady (F.request finder.old) front.old }
    ensures request { F.request finder.new ≡ F.request finder.old }
    ensures round { IfOk result (λ more. MatchBool more
        (IsGroupDone (F.request finder.old) pace.round front.old front.new)
        (IsAtEnd front.old front.new)) }
{
    split_large(workshop.alloc, finder, front)?;
    let few = pace.with_round(few_ahead(front, pace.round()));
    do_round(workshop, finder, few, front)
}

/// Returns whether a front stands at a job with as many numbers as those of an opening, or at the
/// end.
pub(crate) fn stands_at_job(front: &Front) -> Result<bool, Memory>
    ensures { IfOk result (λ yes. IsTrue yes
        → (at : Place) × StandsAt front.now.from front.now.entries at × IsLongAsWhole at) }
{
    match front.position()? {
        Position::End => Ok(true),
        Position::At(job) => {
            let numbers = job.prefix.as_slice().len() as u64;
            Ok(numbers == (3 * u64::from(job.size)).min(9))
        }
    }
}

/// Does the next round of a front by one worker, whose jobs stay in their entries, and returns
/// whether there was one. It fails only if an allocation fails, and the front is then as before.
fn do_round_alone<F: Finder, G: Gate>(
    alloc: Global,
    finder: &mut F,
    gate: &G,
    most: u32,
    front: &mut Front,
) -> Result<bool, Memory>
    requires round { 1 ≤ most }
    requires ready { IsReady (F.request finder.old) front.old }
    ensures request { F.request finder.new ≡ F.request finder.old }
    ensures round { IfOk result (λ more. MatchBool more (IsRoundDone most front.old front.new)
        (IsAtEnd front.old front.new)) }
    ensures same { OnErr result (front.new ≡ front.old) }
{
    let count = front.entries().len().min(most as usize);
    if count == 0 {
        return Ok(false);
    }
    let lists = find_each(alloc, finder, gate, &front.entries()[..count])?;
    front.finish_first(lists);
    Ok(true)
}

/// Does the next round of a front, and returns whether there was one. It fails only if an
/// allocation fails, and the front is then as before.
pub(crate) fn do_round<R: Threads + Wait + Sync, F: Finder + Sync, G: Gate + Sync>(
    workshop: &Workshop<'_, R, G>,
    finder: &mut F,
    pace: Pace,
    front: &mut Front,
) -> Result<bool, Memory>
    requires ready { IsReady (F.request finder.old) front.old }
    ensures request { F.request finder.new ≡ F.request finder.old }
    ensures round { IfOk result (λ more. MatchBool more (IsRoundDone pace.round front.old front.new)
        (IsAtEnd front.old front.new)) }
    ensures same { OnErr result (front.new ≡ front.old) }
{
    if pace.workers() == 1 {
        return do_round_alone(workshop.alloc, finder, workshop.gate, pace.round(), front);
    }
    let jobs = front.first(pace.round())?;
    if jobs.is_empty() {
        return Ok(false);
    }
    let busy = WORKERS_A_JOB * jobs.len().min(64) as u32;
    let workers = pace.workers().min(busy);
    let Workshop { rt, alloc, gate } = workshop;
    let entries = run_round(*rt, *alloc, finder, *gate, jobs, workers)?;
    front.absorb(entries)?;
    Ok(true)
}

/// How many members the first entry has, where it is done.
pub(crate) fn count_at_front(front: &Front) -> Option<u128>
    ensures { MatchOption result ((list : List Symbol) → ¬ HasFirst front.now list)
        (λ count. (count < 2 ^ 127) × ((list : List Symbol) × HasFirst front.now list
        × (length list ≡ count))) }
{
    match &front.entries().first()?.state {
        State::Done(list) => Some(list.len()),
        State::Open | State::Out => None,
    }
}
