ghost use Rattle.std.specs.Prelude.{◌≡◌};
ghost use Rattle.dd_branch_tables.specs.Stem.{IsStem};

use crate::fixtures::{asked, job, opened, tables};
use dd_branch_degrees::Table;
use dd_branch_tables::{FirstVisits, Stem};
use dd_front_jobs::is_opening;
use dd_invol::{Walk, children};
use dd_model::{Index, Job, Request};
use std::alloc::Global;
use std::process::Abort;

fn count_of(jobs: &[Job], size: u32) -> usize {
    jobs.iter().filter(|job| job.size == size).count()
}

fn has(job: &Job, size: u32, numbers: &[u8]) -> bool {
    job.size == size && job.prefix.as_slice() == numbers
}

#[test]
fn opening_of_two_chambers(rt: HostRuntime) {
    let expected: [&[u8]; 7] = [
        &[1, 1, 2, 2, 2, 1],
        &[1, 2, 1, 2, 1, 2],
        &[1, 2, 2, 2, 1, 1],
        &[2, 1, 1, 1, 2, 2],
        &[2, 1, 2, 1, 2, 1],
        &[2, 2, 1, 1, 1, 2],
        &[2, 2, 2, 1, 1, 1],
    ];
    let jobs = opened(&rt, rt.alloc(), &asked(2, 0, 3));
    assert_eq!(rt; jobs.len(), 8);
    assert!(rt; has(&jobs[0], 1, &[1, 1, 1]));
    for (job, numbers) in jobs.iter().skip(1).zip(expected.iter()) {
        assert!(rt; has(job, 2, numbers));
    }
}

#[test]
fn openings_by_size(rt: HostRuntime) {
    let counts = [
        (1, 1),
        (2, 7),
        (3, 21),
        (4, 107),
        (5, 237),
        (6, 302),
        (7, 316),
        (8, 317),
        (9, 317),
    ];
    let jobs = opened(&rt, rt.alloc(), &asked(9, 0, 3));
    for (size, expected) in counts {
        assert_eq!(rt; count_of(jobs.as_slice(), size), expected);
    }
}

/// Returns whether a job of two chambers is one of an opening.
fn is_opening_job<R: Abort>(rt: &R, alloc: Global, numbers: &[u8]) -> bool {
    let job = job(rt, alloc, 2, numbers);
    is_opening(&asked(2, 0, 3), &job)
}

#[test]
fn jobs_of_an_opening(rt: HostRuntime) {
    assert!(rt; is_opening_job(&rt, rt.alloc(), &[2, 1, 1, 1, 2, 2]));
    assert!(rt; !is_opening_job(&rt, rt.alloc(), &[2, 1, 1, 1, 1, 2]));
}

fn children_of<R: Abort>(rt: &R, alloc: Global, job: &Job) -> Vec<Job> {
    let q = asked(2, 0, 3);
    assert!(rt; q.is_valid() && job.size == 2 && job.size <= q.chambers);
    assert!(rt; job.prefix.as_slice().len() < 6);
    children(alloc, &q, job).expect(rt, "the children")
}

fn children_from<R: Abort>(rt: &R, alloc: Global, numbers: &[u8]) -> Vec<Job> {
    let parent = job(rt, alloc, 2, numbers);
    children_of(rt, alloc, &parent)
}

#[test]
fn children_of_a_job(rt: HostRuntime) {
    let jobs = children_from(&rt, rt.alloc(), &[1]);
    assert_eq!(rt; jobs.len(), 2);
    assert!(rt; has(&jobs[0], 2, &[1, 1]));
    assert!(rt; has(&jobs[1], 2, &[1, 2]));
}

/// How many whole prefixes no test refuses.
fn count_whole(stem: &mut Stem, visit: &mut FirstVisits) -> u64
    requires stem { IsStem stem.old }
    ensures stem { stem.new ≡ stem.old }
{
    if stem.is_whole() {
        return 1;
    }
    let mark = stem.mark();
    let mut count = 0;
    let numbers = stem.candidates();
    for number in 0..37u8 {
        if !numbers.contains(number) {
            continue;
        }
        if stem.enter(number, visit) {
            count = count_whole(stem, visit).saturating_add(count);
            stem.leave(mark);
        }
    }
    count
}

/// How many whole prefixes of a size no test refuses.
fn tables_of(size: u8) -> u64 {
    if size == 0 || size > 36 {
        return 0;
    }
    let mut stem = Stem::new(size);
    let mut visit = FirstVisits::new();
    count_whole(&mut stem, &mut visit)
}

#[test]
fn least_tables_by_size(rt: HostRuntime) {
    let counts = [
        (1, 1),
        (2, 7),
        (3, 3),
        (4, 22),
        (5, 13),
        (6, 70),
        (7, 67),
        (8, 315),
    ];
    for (size, expected) in counts {
        assert_eq!(rt; tables_of(size), expected);
    }
}

/// Returns whether numbers are those of a table of two chambers.
fn is_table<R: Abort>(rt: &R, alloc: Global, numbers: &[u8; 6]) -> bool {
    let found = Table::of(alloc, 2, numbers.as_slice()).expect(rt, "an answer");
    found.is_some()
}

#[test]
fn tables_from_numbers(rt: HostRuntime) {
    let cases: [([u8; 6], bool); 6] = [
        ([2, 1, 1, 1, 2, 2], true),
        ([2, 2, 1, 1, 1, 2], true),
        // the chambers are not connected
        ([1, 1, 1, 2, 2, 2], false),
        // no involution
        ([2, 1, 1, 2, 2, 2], false),
        // no chambers
        ([0, 1, 1, 1, 2, 2], false),
        ([2, 1, 3, 1, 2, 2], false),
    ];
    for (numbers, expected) in &cases {
        assert_eq!(rt; is_table(&rt, rt.alloc(), numbers), *expected);
    }
}

/// The images of chamber 1 of a table.
fn first_images(table: &Table) -> [u32; 3] {
    let symbol = table.symbol().symbol();
    [
        symbol.op(Index::Zero, 1),
        symbol.op(Index::One, 1),
        symbol.op(Index::Two, 1),
    ]
}

/// How many tables of a size all jobs of the opening have.
fn count_walked<R: Abort>(rt: &R, alloc: Global, size: u32) -> usize {
    let q = asked(5, 0, 3);
    let mut count = 0usize;
    for job in &opened(rt, alloc, &q) {
        if job.size == size {
            count = count.saturating_add(tables(rt, alloc, &q, job).len());
        }
    }
    count
}

#[test]
fn walks_by_size(rt: HostRuntime) {
    for (size, expected) in [(1, 1), (2, 7), (3, 3), (4, 22), (5, 13)] {
        assert_eq!(rt; count_walked(&rt, rt.alloc(), size), expected);
    }
}

/// The tables of two chambers under a job with these numbers.
fn tables_from<R: Abort>(rt: &R, alloc: Global, q: &Request, numbers: &[u8]) -> Vec<Table> {
    let job = job(rt, alloc, 2, numbers);
    tables(rt, alloc, q, &job)
}

/// Returns whether the images of chamber 1 in tables are these.
fn begin_with(tables: &[Table], expected: &[[u32; 3]]) -> bool {
    tables.len() == expected.len()
        && tables
            .iter()
            .zip(expected.iter())
            .all(|(table, images)| first_images(table) == *images)
}

#[test]
fn a_walk_ascends(rt: HostRuntime) {
    let tables = tables_from(&rt, rt.alloc(), &asked(2, 0, 3), &[1]);
    assert!(rt; begin_with(&tables, &[[1, 1, 2], [1, 2, 1], [1, 2, 2]]));
}

/// The images of the first two chambers of a table, in the order of its code.
fn images_of(table: &Table) -> [u32; 6] {
    let symbol = table.symbol().symbol();
    if symbol.size() < 2 {
        return [0; 6];
    }
    [
        symbol.op(Index::Zero, 1),
        symbol.op(Index::One, 1),
        symbol.op(Index::Two, 1),
        symbol.op(Index::Zero, 2),
        symbol.op(Index::One, 2),
        symbol.op(Index::Two, 2),
    ]
}

fn walk_from<R: Abort>(rt: &R, alloc: Global, q: &Request, job: &Job) -> Walk {
    assert!(rt; q.is_valid() && job.size >= 1 && job.size <= q.chambers);
    assert!(rt; job.prefix.as_slice().len() as u64 <= 3 * job.size as u64);
    Walk::start(alloc, q, job).expect(rt, "a walk")
}

/// The walk from the job (2; 1).
fn walk<R: Abort>(rt: &R, alloc: Global) -> Walk {
    let job = job(rt, alloc, 2, &[1]);
    walk_from(rt, alloc, &asked(2, 0, 3), &job)
}

/// The images of the table to which a walk goes on, where there is one.
fn next_images<R: Abort>(rt: &R, walk: &mut Walk) -> Option<[u32; 6]> {
    if !walk.advance() {
        return None;
    }
    let table = walk.table().expect(rt, "a table");
    Some(images_of(&table))
}

#[test]
fn a_walk_advances(rt: HostRuntime) {
    let mut walk = walk(&rt, rt.alloc());
    for expected in [[1, 1, 2, 2, 2, 1], [1, 2, 1, 2, 1, 2], [1, 2, 2, 2, 1, 1]] {
        assert_eq!(rt; next_images(&rt, &mut walk), Some(expected));
    }
    assert_eq!(rt; next_images(&rt, &mut walk), None);
}

/// Returns the tables of two chambers for a request with limits on the classes of tiles and of
/// vertices.
fn limited<R: Abort>(rt: &R, alloc: Global, tiles: u32, vertices: u32) -> Vec<Table> {
    let mut q = asked(2, 0, 3);
    q.tiles = tiles;
    q.vertices = vertices;
    tables_from(rt, alloc, &q, &[])
}

#[test]
fn a_walk_keeps_to_few_tiles(rt: HostRuntime) {
    let tables = limited(&rt, rt.alloc(), 1, 0);
    let expected = [
        [1, 2, 1],
        [1, 2, 2],
        [2, 1, 1],
        [2, 1, 2],
        [2, 2, 1],
        [2, 2, 2],
    ];
    assert!(rt; begin_with(&tables, &expected));
}

#[test]
fn a_walk_keeps_to_few_vertices(rt: HostRuntime) {
    let tables = limited(&rt, rt.alloc(), 0, 1);
    let expected = [
        [1, 1, 2],
        [1, 2, 1],
        [1, 2, 2],
        [2, 1, 2],
        [2, 2, 1],
        [2, 2, 2],
    ];
    assert!(rt; begin_with(&tables, &expected));
}
