ghost use Rattle.std.specs.Prelude.{◌≡◌, ◌+◌, [], ◌∷◌, ◌++◌, ◌*◌, ◌≤◌, ◌<◌, IfOk, MatchOption, length};
ghost use Rattle.std.specs.Bool.{OnFalse};
ghost use Rattle.dd_model.specs.Request.{IsValid};
ghost use Rattle.dd_model.specs.Jobs.{AreExtensions, AreChildren};
ghost use Rattle.dd_invol.specs.Children.{IsStemOf};
ghost use Rattle.dd_branch_tables.specs.Stem.{Any, IsStem, prefix_of, size_of};
ghost use Rattle.dd_front_jobs.specs.Under.{HasNothingUnder};

use dd_branch_tables::{FirstVisits, Stem};
use dd_front_jobs::{can_follow, child};
use dd_model::{Job, Memory, Request};
use std::alloc::Global;

/// The stem of a job, unless it is sure that nothing is under it.
pub(crate) fn stem_of(job: &Job, visit: &mut FirstVisits) -> Option<Stem>
    requires size { (1 ≤ job.now.size) × (job.now.size ≤ 36) }
    requires short { length job.now.prefix ≤ 3 * job.now.size }
    ensures { MatchOption result (HasNothingUnder Any job.now.size job.now.prefix)
        (λ stem. IsStemOf job.now stem) }
{
    let mut stem = Stem::new(job.size as u8);
    let prefix = job.prefix.as_slice();
    for number in prefix {
        if !stem.enter(*number, visit) {
            return None;
        }
    }
    Some(stem)
}

/// Returns whether something may be under a stem with one number more.
fn may_grow(stem: &mut Stem, visit: &mut FirstVisits, number: u8) -> bool
    requires stem { IsStem stem.old }
    requires room { length (prefix_of stem.old) < 3 * size_of stem.old }
    ensures same { stem.new ≡ stem.old }
    ensures dead { OnFalse result
        (HasNothingUnder Any (size_of stem.old) (prefix_of stem.old ++ number ∷ [])) }
{
    if !can_follow(stem.size() as u32, stem.prefix(), number) {
        return false;
    }
    let mark = stem.mark();
    if !stem.enter(number, visit) {
        return false;
    }
    stem.leave(mark);
    true
}

/// The jobs with one number more under which something may be.
fn extensions(alloc: Global, q: &Request, job: &Job) -> Result<Vec<Job>, Memory>
    requires size { (1 ≤ job.now.size) × (job.now.size ≤ 36) }
    requires shorter { length job.now.prefix < 3 * job.now.size }
    ensures { IfOk result (λ jobs. AreExtensions q.now job.now jobs.items) }
{
    let mut jobs = Vec::new(alloc);
    let mut visit = FirstVisits::new();
    let Some(mut stem) = stem_of(job, &mut visit) else {
        return Ok(jobs);
    };
    for k in 0..job.size as u8 {
        let number = k + 1;
        if may_grow(&mut stem, &mut visit, number) {
            jobs.push(child(alloc, job, number)?)?;
        }
    }
    Ok(jobs)
}

/// Jobs with one number more, ascending, at least one. No member of the catalogue is under one
/// that is left out: those whose codes are not in the order of first visits, or cannot be least.
pub fn children(alloc: Global, q: &Request, job: &Job) -> Result<Vec<Job>, Memory>
    requires valid { IsValid q.now }
    requires size { (1 ≤ job.now.size) × (job.now.size ≤ q.now.chambers) }
    requires shorter { length job.now.prefix < 3 * job.now.size }
    ensures { IfOk result (λ jobs. AreChildren q.now job.now jobs.items) }
{
    let mut jobs = extensions(alloc, q, job)?;
    if jobs.is_empty() {
        jobs.push(child(alloc, job, 1)?)?;
    }
    Ok(jobs)
}
