use crate::front_events::is_job_of;
use dd_branch::Search;
use dd_front::Finder;
use dd_model::{Job, Prefix, Request};
use std::alloc::Global;
use std::process::Abort;

/// How many members a search finds under the job of a size and some numbers.
fn count_under<R: Abort>(
    rt: &R,
    alloc: Global,
    search: &mut Search,
    size: u32,
    numbers: &[u8],
) -> usize {
    let prefix = Prefix::from_slice(alloc, numbers).expect(rt, "a prefix");
    let job = Job { size, prefix };
    let request = search.request();
    assert!(rt; request.is_valid() && is_job_of(&request, &job));
    let found = search.find(alloc, &job).expect(rt, "members");
    found.len()
}

const ROWS: [(u32, &[u8], usize); 9] = [
    (2, &[1, 1, 2], 3),
    (2, &[1, 1, 2, 2, 2, 1], 3),
    (2, &[1, 2], 3),
    (2, &[1, 1, 1], 0),
    (2, &[1, 2, 2], 2),
    (1, &[1], 3),
    (2, &[1, 1, 2, 2, 2, 1], 3),
    (2, &[], 15),
    (1, &[1, 1, 1], 3),
];

fn check_rows<R: Abort>(rt: &R, alloc: Global, search: &mut Search) {
    for (size, numbers, count) in &ROWS {
        let found = count_under(rt, alloc, search, *size, numbers);
        assert_eq!(rt; found, *count);
    }
}

// What a search has put in for one job serves the next: on from a prefix, back to one that begins
// alike or not at all, again after one under which nothing is, and to another size and back.
#[test]
fn one_search_goes_from_job_to_job(rt: HostRuntime) {
    let mut search = Search::new(&Request::up_to(2));
    check_rows(&rt, rt.alloc(), &mut search.fork());
    check_rows(&rt, rt.alloc(), &mut search);
}
