//! Requests, jobs and tables that several tests use.

ghost use Rattle.std.specs.Prelude.{◌≤◌};

use dd_branch_degrees::Table;
use dd_front_jobs::opening;
use dd_invol::tables_under;
use dd_model::{Allowed, Job, Prefix, Request};
use std::alloc::Global;
use std::process::Abort;

/// Returns a request for at most `tiles` classes of tiles, with degrees from a least one on.
pub(crate) fn asked(chambers: u32, tiles: u32, least: u32) -> Request
    requires { (1 ≤ least) × (least ≤ 36) }
{
    Request {
        chambers,
        tiles,
        vertices: 0,
        faces: Allowed::least(least),
        degrees: Allowed::least(least),
        minimal: false,
    }
}

/// Returns a job with these first numbers.
pub(crate) fn job<R: Abort>(rt: &R, alloc: Global, size: u32, numbers: &[u8]) -> Job {
    let prefix = Prefix::from_slice(alloc, numbers).expect(rt, "a prefix");
    Job { size, prefix }
}

/// The jobs with which the catalogue of a request begins.
pub(crate) fn opened<R: Abort>(rt: &R, alloc: Global, request: &Request) -> Vec<Job> {
    assert!(rt; request.is_valid());
    opening(alloc, request).expect(rt, "the jobs")
}

/// The tables under a job.
pub(crate) fn tables<R: Abort>(rt: &R, alloc: Global, request: &Request, job: &Job) -> Vec<Table> {
    assert!(rt; request.is_valid() && job.size >= 1 && job.size <= request.chambers);
    assert!(rt; job.prefix.as_slice().len() as u64 <= 3 * job.size as u64);
    tables_under(alloc, request, job).expect(rt, "the tables")
}
