ghost use Rattle.std.specs.Prelude.{◌≡◌, IfOk};

use crate::openings::{opening, shard_opening};
use crate::shards::Shard;
use dd_model::{Job, Memory, Request};
use std::alloc::Global;

/// What a run is asked for: the catalogue of a request, or one shard of it.
#[derive(Clone, Copy)]
pub struct Portion {
    /// Which symbols are asked for.
    pub request: Request,
    /// The shard whose members are asked for, and None for all.
    pub shard: Option<Shard>,
}

impl Portion {
    ghost use Rattle.dd_model.specs.Request.{IsValid};
    ghost use Rattle.dd_front_jobs.specs.Portions.{whole, IsPortionOpening};

    /// Returns the whole catalogue of a request.
    pub fn whole(request: Request) -> Portion
        ensures { result ≡ whole request }
    {
        Portion {
            request,
            shard: None,
        }
    }

    /// Returns the jobs with which the search for the portion begins, in order. Fails only if an
    /// allocation fails.
    pub fn opening(&self, alloc: Global) -> Result<Vec<Job>, Memory>
        requires { IsValid self.now.request }
        ensures { IfOk result (λ jobs. IsPortionOpening self.now jobs.items) }
    {
        match self.shard {
            Some(shard) => shard_opening(alloc, &self.request, shard),
            None => opening(alloc, &self.request),
        }
    }
}
