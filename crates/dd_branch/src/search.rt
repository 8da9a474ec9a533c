ghost use Rattle.std.specs.Bool.{OnFalse};
ghost use Rattle.std.specs.Prelude.{◌≡◌, ◌*◌, ◌≤◌, ◌<◌, [], IfOk, IsTrue, OnOk, length};
ghost use Rattle.dd_model.specs.Request.{IsValid};
ghost use Rattle.dd_model.specs.Jobs.{IsJobOf, AreExtensions, AreMembersUnder};
ghost use Rattle.dd_model.specs.Wanted.{IsMember};
ghost use Rattle.dd_front_jobs.specs.Under.{AreUnder, Appends, HasNothingUnder};
ghost use Rattle.dd_branch_tables.specs.Stem.{size_of};

use crate::descent::Descent;
use dd_branch_bounds::PathShares;
use dd_front::Finder;
use dd_front_jobs::child;
use dd_member_lists::SymbolList;
use dd_model::{Job, Memory, Request};
use std::alloc::Global;
use std::marker::Model;
use std::mem;

/// The search for the members of the catalogue of a request, job by job, with the shares that the
/// request allows, from which those for tables of a size are made. What it has put in for one job
/// it keeps for the next of the same size, whose prefix mostly begins with the same numbers. It
/// also keeps the last prefix under which it found that no member is.
#[derive(Drop)]
pub struct Search {
    request: Request,
    classes: PathShares,
    kept: Option<Box<Descent>>,
    dead: Option<Job>,
}

impl Model for Search {
    ghost use Rattle.dd_model.specs.declared.requests.Request.{Request as Asked};
    ghost use Rattle.dd_branch.specs.Search.{HasKept, IsDead};

    ghost Value = { Asked };

    ghost view = { λ a. a.request };

    ghost invariant = { λ a. HasKept a.request a.classes a.kept × IsDead a.request a.dead };
}

impl Search {
    /// The search for a request.
    pub fn new(request: &Request) -> Search
        ensures { result ≡ request.now }
    {
        Search {
            request: *request,
            classes: PathShares::of(request, 0),
            kept: None,
            dead: None,
        }
    }

    /// A search from the empty prefix. It stays a call of its own, so that the room for it is made
    /// only where it is called.
    #[inline(never)]
    fn begin(&self, alloc: Global, size: u8) -> Result<Box<Descent>, Memory>
        requires valid { IsValid self.now }
        requires size { (1 ≤ size) × (size ≤ 36) }
        ensures request { IfOk result (λ descent. descent.value.request ≡ self.now) }
        ensures size { IfOk result (λ descent. size_of descent.value.stem ≡ size) }
    {
        let descent = Descent::new(alloc, &self.request, &self.classes, size)?;
        Ok(Box::new(alloc, descent)?)
    }

    /// The search that the last job has left, where that was of the same size; else a new one.
    fn take(&mut self, alloc: Global, size: u8) -> Result<Box<Descent>, Memory>
        requires valid { IsValid self.old }
        requires size { (1 ≤ size) × (size ≤ 36) }
        ensures same { self.new ≡ self.old }
        ensures request { IfOk result (λ descent. descent.value.request ≡ self.old) }
        ensures size { IfOk result (λ descent. size_of descent.value.stem ≡ size) }
    {
        if let Some(descent) = self.kept.take() {
            if descent.size() == size {
                return Ok(descent);
            }
        }
        self.begin(alloc, size)
    }

    /// Returns whether it is known that no member is under a job: its prefix begins with the last
    /// one that was found so.
    fn is_dead(&self, job: &Job) -> bool
        ensures { IsTrue result
            → HasNothingUnder (IsMember self.now) job.now.size job.now.prefix }
    {
        match &self.dead {
            Some(dead) => dead.size == job.size
                && job.prefix.as_slice().starts_with(dead.prefix.as_slice()),
            None => false,
        }
    }

    /// Keeps a prefix under which no member is.
    fn remember(&mut self, dead: Job)
        requires { HasNothingUnder (IsMember self.old) dead.size dead.prefix }
        ensures { self.new ≡ self.old }
    {
        let _ = mem::replace(&mut self.dead, Some(dead));
    }

    /// Adds the members under a job.
    fn add_members(&mut self, alloc: Global, job: &Job, list: &mut SymbolList) -> Result<(), Memory>
        requires valid { IsValid self.old }
        requires job { IsJobOf self.old job.now }
        ensures same { self.new ≡ self.old }
        ensures list { OnOk result (Appends
            (AreUnder (IsMember self.old) job.now.size job.now.prefix)
            list.old list.new) }
    {
        if self.is_dead(job) {
            return Ok(());
        }
        let mut descent = self.take(alloc, job.size as u8)?;
        if !descent.add_under(job.prefix.as_slice(), list)? {
            self.remember(descent.dead_part(job)?);
        }
        self.kept = Some(descent);
        Ok(())
    }

    /// The jobs with one number more under which a member may be.
    fn extensions(&mut self, alloc: Global, job: &Job) -> Result<Vec<Job>, Memory>
        requires valid { IsValid self.old }
        requires job { IsJobOf self.old job.now }
        requires shorter { length job.now.prefix < 3 * job.now.size }
        ensures same { self.new ≡ self.old }
        ensures jobs { IfOk result
            (λ jobs. AreExtensions self.old job.now jobs.items) }
    {
        let mut descent = self.take(alloc, job.size as u8)?;
        let jobs = descent.extensions(job)?;
        self.kept = Some(descent);
        Ok(jobs)
    }
}

impl Finder for Search {
    ghost request = { λ q. q };

    fn request(&self) -> Request {
        self.request
    }

    fn fork(&self) -> Search {
        Search {
            request: self.request,
            classes: self.classes,
            kept: None,
            dead: None,
        }
    }

    fn may_find(&mut self, alloc: Global, job: &Job) -> Result<bool, Memory> {
        let mut descent = self.take(alloc, job.size as u8)?;
        let reaches = descent.reach(job.prefix.as_slice());
        self.kept = Some(descent);
        Ok(reaches)
    }

    fn find(&mut self, alloc: Global, job: &Job) -> Result<SymbolList, Memory> {
        let mut list = SymbolList::new(alloc);
        self.add_members(alloc, job, &mut list)?;
        Ok(list)
    }

    fn split(&mut self, alloc: Global, job: &Job) -> Result<Vec<Job>, Memory> {
        let mut jobs = self.extensions(alloc, job)?;
        if jobs.is_empty() {
            // Nothing is under any of them, and the list of children may not be empty. By the
            // number 0, which no code has, a worker recognizes this one.
            jobs.push(child(alloc, job, 0)?)?;
        }
        Ok(jobs)
    }
}
