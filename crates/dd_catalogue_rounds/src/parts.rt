ghost use Rattle.std.specs.Bool.{OnTrue, OnFalse};
ghost use Rattle.std.specs.Prelude.{◌≡◌, ◌*◌, ◌<◌, IsTrue, IfOk, OnOk, MatchBool, length};
ghost use Rattle.dd_catalogue_rounds.specs.Splits.{IsReady, IsSplit, IsRefined, IsNoLonger, IsToSplit};

use crate::tuning::{
    FEW_CLASSES, MANY_CHAMBERS, MANY_NUMBERS, MOST_MISSING, NUMBERS_A_CHAMBER, NUMBERS_BEYOND,
    NUMBERS_LESS, NUMBERS_LESS_FROM_1, NUMBERS_LESS_FROM_2, NUMBERS_OF_OPENING,
};
use dd_front::{Event, Finder, Front, JobList};
use dd_model::{Job, Memory, Position, Request};
use std::alloc::Global;

/// A job with more children than this stays whole. No table has more, so none does.
const MOST_CHILDREN: usize = 255;

/// Returns whether a request allows tiles with this number of edges, or vertices of this degree.
fn allows(request: &Request, degree: u32) -> bool {
    request.faces.has(degree) || request.degrees.has(degree)
}

/// Returns how many numbers a job of a request has that has some ten thousand members at most.
fn numbers_of_few(request: &Request, size: u32) -> u64 {
    let less = if allows(request, 1) {
        NUMBERS_LESS_FROM_1
    } else if allows(request, 2) {
        NUMBERS_LESS_FROM_2
    } else {
        NUMBERS_LESS
    };
    (NUMBERS_A_CHAMBER * u64::from(size)).saturating_sub(less)
}

/// Returns how many numbers a small job of a request has.
fn numbers_of_small(request: &Request, size: u32) -> u64 {
    if allows_few_classes(request) {
        let is_many = size >= MANY_CHAMBERS && (allows(request, 1) || allows(request, 2));
        return if is_many { NUMBERS_OF_OPENING } else { 0 };
    }
    let numbers = numbers_of_few(request, size);
    let further = numbers.saturating_sub(MANY_NUMBERS);
    let few = numbers.min(MANY_NUMBERS) + further / NUMBERS_A_CHAMBER * NUMBERS_BEYOND;
    few.max(numbers.saturating_sub(MOST_MISSING))
}

/// Returns whether a request allows only few classes of tiles or of vertices.
fn allows_few_classes(request: &Request) -> bool {
    let is_few = |most| most != 0 && most <= FEW_CLASSES;
    is_few(request.tiles) || is_few(request.vertices)
}

/// Returns the weight of a job: about how many times ten thousand members are under it at most. It
/// doubles for every four numbers that the job has less. If only few classes are allowed, it is 1.
pub(crate) fn weight_of(request: &Request, job: &Job) -> u64 {
    if allows_few_classes(request) {
        return 1;
    }
    let numbers = job.prefix.as_slice().len() as u64;
    let missing = numbers_of_few(request, job.size).saturating_sub(numbers);
    1 << (missing / 4).min(32)
}

/// Returns whether more members may be under a job of a request than a round is to hold.
pub(crate) fn is_large(request: &Request, job: &Job) -> bool
    ensures { IsTrue result → length job.now.prefix < 3 * job.now.size }
{
    let numbers = job.prefix.as_slice().len() as u64;
    numbers < numbers_of_small(request, job.size) && numbers < 3 * u64::from(job.size)
}

/// Returns whether a position has more numbers than a job.
fn is_longer(at: &Position, job: &Job) -> bool
    ensures { OnFalse result (IsNoLonger at.now job.now) }
{
    match at {
        Position::End => false,
        Position::At(at) => at.prefix.as_slice().len() > job.prefix.as_slice().len(),
    }
}

/// Returns whether a job, the first one of a front, is to be split. A job stays whole if the front
/// continues from within it: its first children may be wholly before there.
fn is_to_split(front: &Front, job: &Job) -> Result<bool, Memory>
    ensures { IfOk result (λ yes. OnTrue yes (IsToSplit front.now job.now)) }
{
    // Most jobs are small, and a position takes a copy.
    if !is_large(&front.request(), job) {
        return Ok(false);
    }
    let at = front.position()?;
    Ok(!is_longer(&at, job))
}

/// Puts the children of the first job in its place, if it is large, and returns whether it did.
fn split_first<F: Finder>(alloc: Global, finder: &mut F, front: &mut Front) -> Result<bool, Memory>
    requires ready { IsReady (F.request finder.old) front.old }
    ensures request { F.request finder.new ≡ F.request finder.old }
    ensures split { IfOk result (λ more. MatchBool more
        (IsSplit (F.request finder.old) front.old front.new) (front.new ≡ front.old)) }
{
    let Some(entry) = front.entries().first() else {
        return Ok(false);
    };
    if !is_to_split(front, &entry.job)? {
        return Ok(false);
    }
    let number = entry.number;
    let children = finder.split(alloc, &entry.job)?;
    let room = front.next_number().checked_add(children.len() as u64);
    if children.len() > MOST_CHILDREN || room.is_none() {
        return Ok(false);
    }
    front.step(Event::Take {
        worker: 1,
        entry: number,
    })?;
    let jobs = JobList::from_vec(children);
    front.step(Event::Split {
        worker: 1,
        entry: number,
        jobs,
    })?;
    Ok(true)
}

/// Puts parts in the place of the first job, until the first one is small.
pub(crate) fn split_large<F: Finder>(
    alloc: Global,
    finder: &mut F,
    front: &mut Front,
) -> Result<(), Memory>
    requires ready { IsReady (F.request finder.old) front.old }
    ensures request { F.request finder.new ≡ F.request finder.old }
    ensures refined { OnOk result (IsRefined (F.request finder.old) front.old front.new) }
    ensures ready { OnOk result (IsReady (F.request finder.old) front.new) }
{
    while split_first(alloc, finder, front)? {}
    Ok(())
}
