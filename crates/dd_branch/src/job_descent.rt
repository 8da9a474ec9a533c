//! The way of a search to the prefix of a job, and what it finds there.

ghost use Rattle.std.specs.Prelude.{◌≡◌, ◌*◌, ◌+◌, ◌≤◌, ◌<◌, IfOk, OnOk, length, take};
ghost use Rattle.std.specs.Bool.{OnTrue, OnFalse};
ghost use Rattle.dd_model.specs.Wanted.{IsMember};
ghost use Rattle.dd_model.specs.Jobs.{AreExtensions};
ghost use Rattle.dd_model.specs.Lists.{Begins};
ghost use Rattle.dd_front_jobs.specs.Under.{AreUnder, Appends, HasNothingUnder};

use crate::descent::Descent;
use dd_branch_tables::find;
use dd_front_jobs::child;
use dd_member_lists::SymbolList;
use dd_model::{Job, Memory, Prefix};

impl Descent {
    ghost use Rattle.dd_branch_tables.specs.Stem.{prefix_of, size_of};

    /// Goes back until its prefix begins another one.
    pub(crate) fn go_back(&mut self, prefix: &[u8])
        ensures request { self.new.request ≡ self.old.request }
        ensures size { size_of self.new.stem ≡ size_of self.old.stem }
        ensures begins { Begins (prefix_of self.new.stem) prefix.now }
    {
        while !prefix.starts_with(self.stem.prefix()) {
            self.drop_level();
        }
    }

    /// Goes to a prefix from the one where it stands: back to where both begin with the same
    /// numbers, and on number by number, unless it is sure that no member is under the prefix. It
    /// then stands before the number after which that is sure.
    pub fn reach(&mut self, prefix: &[u8]) -> bool
        requires { length prefix.now ≤ 3 * size_of self.old.stem }
        ensures request { self.new.request ≡ self.old.request }
        ensures size { size_of self.new.stem ≡ size_of self.old.stem }
        ensures prefix { OnTrue result (prefix_of self.new.stem ≡ prefix.now) }
        ensures dead { OnFalse result
            (HasNothingUnder (IsMember self.old.request) (size_of self.old.stem) prefix.now) }
        ensures front { OnFalse result
            (HasNothingUnder (IsMember self.old.request) (size_of self.old.stem)
            (take (length (prefix_of self.new.stem) + 1) prefix.now)) }
    {
        self.go_back(prefix);
        for place in self.stem.prefix().len()..prefix.len() {
            if !self.descend(prefix[place], false) {
                return false;
            }
        }
        true
    }

    /// Adds the members under a prefix. Returns false if it is sure that there are none. It stays a
    /// call of its own, so that the search has the processor's registers to itself.
    #[inline(never)]
    pub(crate) fn add_under(&mut self, prefix: &[u8], list: &mut SymbolList) -> Result<bool, Memory>
        requires { length prefix.now ≤ 3 * size_of self.old.stem }
        ensures request { OnOk result (self.new.request ≡ self.old.request) }
        ensures size { OnOk result (size_of self.new.stem ≡ size_of self.old.stem) }
        ensures list { OnOk result (Appends
            (AreUnder (IsMember self.old.request) (size_of self.old.stem) prefix.now)
            list.old list.new) }
        ensures front { IfOk result (λ some. OnFalse some
            (HasNothingUnder (IsMember self.old.request) (size_of self.old.stem)
            (take (length (prefix_of self.new.stem) + 1) prefix.now))) }
    {
        if !self.reach(prefix) {
            return Ok(false);
        }
        find(self, list)?;
        Ok(true)
    }

    /// Returns the first numbers of a job, up to the one before which it stands.
    pub(crate) fn dead_part(&self, job: &Job) -> Result<Job, Memory>
        ensures size { IfOk result (λ dead. dead.size ≡ job.now.size) }
        ensures prefix { IfOk result (λ dead.
            dead.prefix ≡ take (length (prefix_of self.now.stem) + 1) job.now.prefix) }
    {
        let numbers = job.prefix.as_slice();
        let count = numbers.len().min(self.stem.prefix().len() + 1);
        Ok(Job {
            size: job.size,
            prefix: Prefix::from_slice(self.alloc, &numbers[..count])?,
        })
    }

    /// The jobs with one number more than a job under which a member may be. It looks one number
    /// further for each of them.
    pub(crate) fn extensions(&mut self, job: &Job) -> Result<Vec<Job>, Memory>
        requires size { size_of self.old.stem ≡ job.now.size }
        requires shorter { length job.now.prefix < 3 * job.now.size }
        ensures request { OnOk result (self.new.request ≡ self.old.request) }
        ensures jobs { IfOk result
            (λ jobs. AreExtensions self.old.request job.now jobs.items) }
    {
        let mut jobs = Vec::new(self.alloc);
        if !self.reach(job.prefix.as_slice()) {
            return Ok(jobs);
        }
        for k in 0..self.size() {
            let number = k + 1;
            if self.may_grow(number) {
                jobs.push(child(self.alloc, job, number)?)?;
            }
        }
        Ok(jobs)
    }
}
