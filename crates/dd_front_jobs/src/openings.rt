ghost use Rattle.std.specs.Prelude.{◌≡◌, ◌↔◌, ℕ, ◌+◌, ◌*◌, ◌≤◌, ◌<◌, [], min, IsTrue, IfOk, OnOk, length};
ghost use Rattle.dd_model.specs.Request.{IsValid};
ghost use Rattle.dd_model.specs.Jobs.{extended};
ghost use Rattle.dd_front_jobs.specs.FirstVisit.{IsFirstVisitPrefix};
ghost use Rattle.dd_front_jobs.specs.Opening.{IsOpeningJob, IsOpening, AreJobsUnder};
ghost use Rattle.dd_front_jobs.specs.Under.{Appends};
ghost use Rattle.dd_front_jobs.specs.Shards.{IsShardOpening};

use crate::numbering::{can_follow, greatest, is_first_visit};
use crate::shards::Shard;
use arrayvec::ArrayVec;
use dd_model::{Job, Memory, Prefix, Request};
use std::alloc::Global;

/// How many numbers the prefixes of an opening have.
const NUMBERS: usize = 9;

/// No such prefix has a greater number. Each of its nine numbers is at most one more than the
/// greatest of 1 and the numbers before it.
const GREATEST: u32 = 10;

/// From this size on, a size has the prefixes of `GREATEST` chambers that have no number above it.
const FIRST_ALIKE: u32 = 4;

/// Adds the first-visit prefixes of nine numbers, or of a whole table, that begin with a prefix.
fn add_jobs(
    alloc: Global,
    size: u32,
    prefix: &mut ArrayVec<u8, 9>,
    jobs: &mut Vec<Job>,
) -> Result<(), Memory>
    requires small { (1 ≤ size) × (size ≤ 36) }
    requires short { length prefix.old.items ≤ min (3 * size) 9 }
    requires first_visit { IsFirstVisitPrefix size prefix.old.items }
    ensures same { OnOk result (prefix.new.items ≡ prefix.old.items) }
    ensures jobs { OnOk result (Appends (AreJobsUnder size (min (3 * size) 9) prefix.old.items)
        jobs.old.items jobs.new.items) }
{
    let end = (3 * size as usize).min(NUMBERS);
    if prefix.len() == end {
        let prefix = Prefix::from_slice(alloc, prefix)?;
        jobs.push(Job { size, prefix })?;
        return Ok(());
    }
    let most = size.min(u32::from(greatest(prefix)) + 1) as u8;
    for k in 0..most {
        let number = k + 1;
        if can_follow(size, prefix, number) {
            prefix.push(number);
            add_jobs(alloc, size, prefix, jobs)?;
            prefix.pop();
        }
    }
    Ok(())
}

/// Adds the jobs of a size, which has those of the prefixes that have no number above it. The jobs
/// that are given are those of `GREATEST` chambers.
fn add_alike(alloc: Global, alike: &[Job], size: u32, jobs: &mut Vec<Job>) -> Result<(), Memory>
    requires alike { AreJobsUnder 10 9 [] alike.now }
    requires size { 4 ≤ size }
    ensures { OnOk result (Appends (AreJobsUnder size (min (3 * size) 9) [])
        jobs.old.items jobs.new.items) }
{
    for job in alike {
        let numbers = job.prefix.as_slice();
        if u32::from(greatest(numbers)) <= size {
            let prefix = Prefix::from_slice(alloc, numbers)?;
            jobs.push(Job { size, prefix })?;
        }
    }
    Ok(())
}

/// The jobs with which the search for a catalogue begins: for each size, all first-visit prefixes
/// of nine numbers, or of three times the size where that is less.
pub fn opening(alloc: Global, q: &Request) -> Result<Vec<Job>, Memory>
    requires { IsValid q.now }
    ensures { IfOk result (λ jobs. IsOpening q.now jobs.items) }
{
    let mut jobs = Vec::new(alloc);
    for k in 0..q.chambers.min(FIRST_ALIKE - 1) {
        let mut prefix = ArrayVec::new();
        add_jobs(alloc, k + 1, &mut prefix, &mut jobs)?;
    }
    if q.chambers < FIRST_ALIKE {
        return Ok(jobs);
    }
    let mut alike = Vec::new(alloc);
    let mut prefix = ArrayVec::new();
    add_jobs(alloc, GREATEST, &mut prefix, &mut alike)?;
    for size in FIRST_ALIKE..q.chambers + 1 {
        add_alike(alloc, &alike, size, &mut jobs)?;
    }
    Ok(jobs)
}

/// Returns the jobs of a shard of the opening of a request, in order. Fails only if an allocation
/// fails.
pub fn shard_opening(alloc: Global, q: &Request, shard: Shard) -> Result<Vec<Job>, Memory>
    requires { IsValid q.now }
    ensures { IfOk result (λ jobs. IsShardOpening q.now shard jobs.items) }
{
    let mut jobs = Vec::new(alloc);
    let mut place = 0;
    for job in opening(alloc, q)? {
        if place + 1 == shard.index() {
            jobs.push(job)?;
        }
        place = (place + 1) % shard.count();
    }
    Ok(jobs)
}

/// Returns whether a job is one of the opening of a request.
pub fn is_opening(q: &Request, job: &Job) -> bool
    ensures { IsTrue result ↔ IsOpeningJob q.now job.now }
{
    let numbers = job.prefix.as_slice();
    let end = (3 * job.size as u64).min(NUMBERS as u64);
    job.size >= 1
        && job.size <= q.chambers
        && numbers.len() as u64 == end
        && is_first_visit(job.size, numbers)
}

/// A job with one number more.
pub fn child(alloc: Global, job: &Job, number: u8) -> Result<Job, Memory>
    ensures { IfOk result (λ child. child ≡ extended job.now number) }
{
    let mut numbers = Vec::from_slice(alloc, job.prefix.as_slice())?;
    numbers.push(number)?;
    let prefix = Prefix::from_slice(alloc, &numbers)?;
    Ok(Job {
        size: job.size,
        prefix,
    })
}
