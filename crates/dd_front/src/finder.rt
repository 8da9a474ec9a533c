ghost use Rattle.std.specs.Bool.{OnFalse};
ghost use Rattle.std.specs.Prelude.{◌≡◌, ◌*◌, ◌<◌, [], IfOk, length};
ghost use Rattle.dd_model.specs.Request.{IsValid};
ghost use Rattle.dd_model.specs.Jobs.{IsJobOf, AreMembersUnder, AreChildren};
ghost use Rattle.dd_model.specs.declared.requests.Request.{Request as Asked};

use dd_member_lists::SymbolList;
use dd_model::{Job, Memory, Request};
use std::alloc::Global;

/// Finds what is under a job of a catalogue, or splits the job into smaller ones. What it keeps of
/// one job for the next only saves time, so no clause speaks of it. It fails only if an allocation
/// fails.
pub trait Finder: Drop {
    ghost request: { Self → Asked };

    /// What is asked for.
    fn request(&self) -> Request
        ensures { result ≡ request self.now };

    /// Another one for the same request, as a thread of its own needs it.
    fn fork(&self) -> Self
        ensures { request result ≡ request self.now };

    /// Returns whether a member may be under a job; false if it is sure that none is. This takes
    /// less time than finding the members.
    fn may_find(&mut self, alloc: Global, job: &Job) -> Result<bool, Memory>
        requires valid { IsValid (request self.old) }
        requires job { IsJobOf (request self.old) job.now }
        ensures request { request self.new ≡ request self.old }
        ensures dead { IfOk result (λ may. OnFalse may
            (AreMembersUnder (request self.old) job.now [])) };

    /// The members of the catalogue under a job, ascending.
    fn find(&mut self, alloc: Global, job: &Job) -> Result<SymbolList, Memory>
        requires valid { IsValid (request self.old) }
        requires job { IsJobOf (request self.old) job.now }
        ensures request { request self.new ≡ request self.old }
        ensures members { IfOk result (λ list. AreMembersUnder (request self.old) job.now list) };

    /// Jobs with one number more, ascending, at least one; no member is under one that is left out.
    fn split(&mut self, alloc: Global, job: &Job) -> Result<Vec<Job>, Memory>
        requires valid { IsValid (request self.old) }
        requires job { IsJobOf (request self.old) job.now }
        requires shorter { length job.now.prefix < 3 * job.now.size }
        ensures request { request self.new ≡ request self.old }
        ensures children { IfOk result
            (λ jobs. AreChildren (request self.old) job.now jobs.items) };
}
