ghost use Rattle.std.specs.Prelude.{◌≡◌, ◌<◌, ◌≤◌, IfOk, length};
ghost use Rattle.dd_model.specs.Request.{IsValid};
ghost use Rattle.dd_model.specs.Jobs.{AreAscendingJobs, AreApart};
ghost use Rattle.dd_board.specs.Desk.{AreJobsOf};

use crate::pair_gate::PairGate;
use dd_board::{Blanks, Board, Seat};
use dd_branch::Search;
use dd_front::{Entry, Naming, State, Taken};
use dd_front_jobs::opening;
use dd_model::{Job, Memory, Request};
use dd_ports::{Gate, OpenGate};
use dd_steal::{Ended, run_round, work};
use dd_steal_deques::{Hand, Rack};
use dd_text::put_list;
use std::alloc::Global;
use std::marker::Brand;
use std::process::Abort;
use std::sync::Wait;
use std::sync::ledger::Ledger;
use std::thread::Threads;

/// The jobs with which the catalogue of a request begins.
fn opening_jobs(alloc: Global, request: &Request) -> Result<Vec<Job>, Memory>
    requires valid { IsValid request.now }
    ensures ascending { IfOk result (λ jobs. AreAscendingJobs jobs.items) }
    ensures apart { IfOk result (λ jobs. AreApart jobs.items) }
    ensures all { IfOk result (λ jobs. AreJobsOf request.now jobs.items) }
{
    opening(alloc, request)
}

/// What a round of all jobs of the request for two chambers brings back.
fn round_of<R: Threads + Wait + Sync + Abort, G: Gate + Sync>(
    rt: &R,
    alloc: Global,
    gate: &G,
    workers: u32,
) -> Vec<Entry>
    requires { (1 ≤ workers) × (workers ≤ 64) }
{
    let request = Request::up_to(2);
    let jobs = opening_jobs(alloc, &request).expect(rt, "the jobs");
    let ended = run_round(rt, alloc, &mut Search::new(&request), gate, jobs, workers);
    ended.expect(rt, "a round")
}

/// Adds the lines of the members of entries, one after the other.
fn add_lines(lines: &mut Vec<u8>, entries: &[Entry]) -> Result<(), Memory> {
    let mut count = 0u64;
    for entry in entries {
        if let State::Done(list) = &entry.state {
            for span in list.spans() {
                put_list(lines, count, &span.symbols())?;
                count = count.saturating_add(span.len() as u64);
            }
        }
    }
    Ok(())
}

/// The lines of the members of entries, one after the other.
fn lines_of<R: Abort>(rt: &R, alloc: Global, entries: &[Entry]) -> Vec<u8> {
    let mut lines = Vec::new(alloc);
    add_lines(&mut lines, entries).expect(rt, "room for lines");
    lines
}

/// The lines of a round.
fn lines_of_round<R: Threads + Wait + Sync + Abort>(rt: &R, alloc: Global, workers: u32) -> Vec<u8>
    requires { (1 ≤ workers) × (workers ≤ 64) }
{
    let entries = round_of(rt, alloc, &OpenGate::new(), workers);
    lines_of(rt, alloc, &entries)
}

/// Returns whether a round writes these lines.
fn has_lines<R: Threads + Wait + Sync + Abort>(
    rt: &R,
    alloc: Global,
    workers: u32,
    lines: &[u8],
) -> bool
    requires { (1 ≤ workers) × (workers ≤ 64) }
{
    let found = lines_of_round(rt, alloc, workers);
    found.as_slice() == lines
}

// One worker and three find the same.
#[test]
fn rounds(rt: HostRuntime) {
    let alone = lines_of_round(&rt, rt.alloc(), 1);
    assert!(rt;
        alone
            .as_slice()
            .starts_with(b"<1.1:1:1,1,1:3,6>\n<1.2:1:1,1,1:4,4>\n")
    );
    assert!(rt; alone.as_slice().ends_with(b"\n<1.18:2:2,2,2:6,3>\n"));
    assert!(rt; has_lines(&rt, rt.alloc(), 3, &alone));
}

// Two workers are at work at once, and each of the eight jobs enters the gate.
#[test]
fn a_round_has_two_workers_at_once(rt: HostRuntime) {
    let gate = PairGate::new();
    assert_eq!(rt; round_of(&rt, rt.alloc(), &gate, 2).len(), 8);
    assert_eq!(rt; gate.let_through_alone(), 0);
    assert!(rt; gate.entered() >= 8);
}

/// Takes the eight jobs of a board and puts their tickets into a deque.
fn take_all<N: Naming, K: Ledger, L: Ledger, S: Ledger, D: Ledger, B: Ledger, R: Abort + Wait>(
    rt: &R,
    board: &Board<N, K, L, S, D, B>,
    seat: &mut Seat<K, L, S, D, B>,
    hand: &mut Hand<N>,
) {
    for _ in 0..8 {
        match board.take(rt, seat).expect(rt, "room for an event") {
            Taken::Job(ticket) => assert!(rt; hand.push(ticket).is_ok()),
            Taken::Idle => panic!(rt; "no job is open"),
        }
    }
}

/// The last of three hands gets all tickets, and the worker of another hand does their jobs.
fn steal_all<N: Naming, K: Ledger, L: Ledger, S: Ledger, D: Ledger, B: Ledger, R: Abort + Wait>(
    rt: &R,
    alloc: Global,
    request: &Request,
    board: &Board<N, K, L, S, D, B>,
    seats: &mut [Seat<K, L, S, D, B>],
    hands: &mut [Hand<N>],
    thief: usize,
)
    requires request { request.now ≡ N.request }
    requires seats { length seats.old ≡ 3 }
    requires hands { length hands.old ≡ 3 }
    requires thief { thief < 2 }
    ensures { length seats.new ≡ 3 }
{
    take_all(rt, board, &mut seats[2], &mut hands[2]);
    let mut finder = Search::new(request);
    let (seat, hand) = (&mut seats[thief], &mut hands[thief]);
    let ended = work(rt, alloc, &mut finder, &OpenGate::new(), board, seat, hand);
    assert!(rt; !matches!(ended, Ended::Memory(_)));
    assert!(rt; hands[2].pop().is_none());
}

/// The lines of what one hand stole from the last one. Nothing is swept.
fn stolen_by_one<N: Naming, K: Ledger, L: Ledger, S: Ledger, D: Ledger, B: Ledger, R: Abort + Wait>(
    rt: &R,
    alloc: Global,
    request: &Request,
    jobs: Vec<Job>,
    blanks: Blanks,
    thief: usize,
) -> Vec<u8>
    requires thief { thief < 2 }
    requires request { request.now ≡ N.request }
    requires jobs { jobs.items ≡ N.jobs }
    requires valid { IsValid request.now }
    requires ascending { AreAscendingJobs jobs.items }
    requires apart { AreApart jobs.items }
    requires all { AreJobsOf request.now jobs.items }
    requires take { (blanks.take.name ≡ K.name) × (blanks.take.parts ≡ K.parts) × (K.parts ≡ 3) }
    requires look { (blanks.look.name ≡ L.name) × (blanks.look.parts ≡ L.parts) × (L.parts ≡ 3) }
    requires split { (blanks.split.name ≡ S.name) × (blanks.split.parts ≡ S.parts) × (S.parts ≡ 3) }
    requires finish { (blanks.finish.name ≡ D.name) × (blanks.finish.parts ≡ D.parts) × (D.parts ≡ 3) }
    requires back { (blanks.back.name ≡ B.name) × (blanks.back.parts ≡ B.parts) × (B.parts ≡ 3) }
{
    let opened = Board::<N, K, L, S, D, B>::open(alloc, request, jobs, 3, blanks);
    let (board, mut seats) = opened.expect(rt, "a board");
    let (_, mut hands) = Rack::<N>::open(alloc, 3, 8).expect(rt, "a rack");
    let (all_seats, all_hands) = (seats.as_mut_slice(), hands.as_mut_slice());
    steal_all(rt, alloc, request, &board, all_seats, all_hands, thief);
    lines_of(rt, alloc, &board.close(seats).into_entries())
}

/// The lines of a board all of whose jobs one hand stole from the last one.
fn lines_of_stolen<R: Abort + Wait>(rt: &R, alloc: Global, thief: usize) -> Vec<u8>
    requires { thief < 2 }
{
    let request = Request::up_to(2);
    let jobs = opening_jobs(alloc, &request).expect(rt, "the jobs");
    stolen_by_one::<Brand, Brand, Brand, Brand, Brand, Brand, R>(
        rt,
        alloc,
        &request,
        jobs,
        Blanks::new(3),
        thief,
    )
}

// Of three workers the first one finds the tickets that lie with the last one.
#[test]
fn the_first_worker_steals_all(rt: HostRuntime) {
    let stolen = lines_of_stolen(&rt, rt.alloc(), 0);
    assert!(rt; has_lines(&rt, rt.alloc(), 1, &stolen));
}

// So does the second one.
#[test]
fn the_second_worker_steals_all(rt: HostRuntime) {
    let stolen = lines_of_stolen(&rt, rt.alloc(), 1);
    assert!(rt; has_lines(&rt, rt.alloc(), 1, &stolen));
}
