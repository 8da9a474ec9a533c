ghost use Rattle.std.specs.Prelude.{◌≡◌, ◌≤◌};

use crate::codes::have_codes;
use crate::fixtures::job;
use dd_branch::{Descent, Search};
use dd_branch_bounds::PathShares;
use dd_branch_tables::PrefixSearch;
use dd_front::Finder;
use dd_member_lists::SymbolList;
use dd_model::{Job, Request};
use std::alloc::Global;
use std::process::Abort;

/// The numbers of a search that are not known before, by its size.
const NODES: [(u8, u64); 4] = [(6, 252), (8, 879), (10, 2630), (12, 8548)];

/// The members of at most two chambers under a job.
fn found<R: Abort + Alloc<A = Global>>(rt: &R, job: &Job) -> SymbolList {
    assert!(rt; job.size >= 1 && job.size <= 2);
    assert!(rt; job.prefix.as_slice().len() as u64 <= 3 * job.size as u64);
    let mut search = Search::new(&Request::up_to(2));
    search.find(rt.alloc(), job).expect(rt, "members")
}

/// Returns whether the codes of the members of at most two chambers under a job are these.
fn finds<const N: usize, R: Abort + Alloc<A = Global>>(
    rt: &R,
    job: &Job,
    expected: &[[u32; N]],
) -> bool {
    let symbols = found(rt, job);
    have_codes(rt, &symbols, expected)
}

#[test]
fn one_chamber_is_found(rt: HostRuntime) {
    let job = job(&rt, rt.alloc(), 1, &[1, 1, 1]);
    let expected = [[1, 1, 1, 3, 6], [1, 1, 1, 4, 4], [1, 1, 1, 6, 3]];
    assert!(rt; finds(&rt, &job, expected.as_slice()));
}

#[test]
fn two_chambers_are_found(rt: HostRuntime) {
    let job = job(&rt, rt.alloc(), 2, &[1, 1, 2, 2, 2, 1]);
    let expected = [
        [1, 1, 2, 2, 2, 1, 3, 3, 6, 6],
        [1, 1, 2, 2, 2, 1, 3, 6, 4, 4],
        [1, 1, 2, 2, 2, 1, 4, 4, 4, 4],
    ];
    assert!(rt; finds(&rt, &job, expected.as_slice()));
}

/// Returns whether a member of at most two chambers may be under a job.
fn may_find<R: Abort + Alloc<A = Global>>(rt: &R, job: &Job) -> bool {
    assert!(rt; job.size >= 1 && job.size <= 2);
    assert!(rt; job.prefix.as_slice().len() as u64 <= 3 * job.size as u64);
    let mut search = Search::new(&Request::up_to(2));
    search.may_find(rt.alloc(), job).expect(rt, "an answer")
}

fn may_find_from<R: Abort + Alloc<A = Global>>(rt: &R, numbers: &[u8]) -> bool {
    let job = job(rt, rt.alloc(), 2, numbers);
    may_find(rt, &job)
}

#[test]
fn a_job_without_its_second_chamber_is_dead(rt: HostRuntime) {
    assert!(rt; may_find_from(&rt, &[1, 1, 2]));
    assert!(rt; !may_find_from(&rt, &[1, 1, 1]));
}

/// The jobs into which a job for at most two chambers is split.
fn split<R: Abort + Alloc<A = Global>>(rt: &R, job: &Job) -> Vec<Job> {
    assert!(rt; job.size >= 1 && job.size <= 2);
    assert!(rt; (job.prefix.as_slice().len() as u64) < 3 * job.size as u64);
    let mut search = Search::new(&Request::up_to(2));
    search.split(rt.alloc(), job).expect(rt, "jobs")
}

fn has(job: &Job, size: u32, numbers: &[u8]) -> bool {
    job.size == size && job.prefix.as_slice() == numbers
}

/// Returns whether a job is split into two of two chambers, with these numbers.
fn splits<R: Abort + Alloc<A = Global>>(rt: &R, job: &Job, first: &[u8], second: &[u8]) -> bool {
    let jobs = split(rt, job);
    jobs.len() == 2 && has(&jobs[0], 2, first) && has(&jobs[1], 2, second)
}

#[test]
fn a_job_is_split(rt: HostRuntime) {
    let job = job(&rt, rt.alloc(), 2, &[1]);
    assert!(rt; splits(&rt, &job, &[1, 1], &[1, 2]));
}

/// How many numbers a search puts in after its prefix, without those that follow from others and
/// those after which it comes to a chamber that was not met.
fn count_nodes(descent: &mut Descent) -> u64
    ensures { descent.new ≡ descent.old }
{
    if descent.is_whole() {
        return 0;
    }
    let mark = descent.mark();
    let known = descent.known();
    let mut count = 0u64;
    let mut left = descent.candidates();
    while let Some(number) = left.take_first() {
        if descent.enter(number) {
            if descent.known() > known {
                count = count.saturating_add(1);
            }
            count = count.saturating_add(count_nodes(descent));
            descent.leave(mark);
        }
    }
    count
}

/// How many numbers a search for the members of a size puts in, where there are no limits.
fn nodes_of<R: Abort + Alloc<A = Global>>(rt: &R, size: u8) -> u64
    requires { (1 ≤ size) × (size ≤ 36) }
{
    let request = Request::up_to(36);
    let classes = PathShares::of(&request, size);
    let descent = Descent::new(rt.alloc(), &request, &classes, size);
    count_nodes(&mut descent.expect(rt, "a search"))
}

/// No contract says that a search turns back where nothing is under its prefix.
#[test]
fn a_search_turns_back_in_time(rt: HostRuntime) {
    for (size, expected) in &NODES {
        assert!(rt; *size >= 1 && *size <= 36);
        assert_eq!(rt; nodes_of(&rt, *size), *expected);
    }
}
