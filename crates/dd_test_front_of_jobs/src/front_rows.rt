use crate::front_events::{give_back, is_job_of, take};
use dd_branch::Search;
use dd_front::{Event, Finder, Front, Members};
use dd_member_lists::SymbolList;
use dd_model::{Job, Position, Prefix, Request};
use std::alloc::Global;
use std::process::Abort;

/// The job (1; 1 1 1).
fn whole_job<R: Abort>(rt: &R, alloc: Global) -> Job {
    let prefix = Prefix::from_slice(alloc, &[1, 1, 1]).expect(rt, "a prefix");
    Job { size: 1, prefix }
}

/// A front with the one job (1; 1 1 1), after five lines.
fn opened<R: Abort>(rt: &R, alloc: Global) -> Front {
    let request = Request::up_to(2);
    assert!(rt; request.is_valid());
    let mut jobs = Vec::new(alloc);
    jobs.push(whole_job(rt, alloc)).expect(rt, "room for a job");
    Front::open(alloc, request, jobs, Position::End, 5).expect(rt, "a front")
}

fn take_once<R: Abort>(rt: &R, front: &mut Front) {
    assert!(rt; !front.allowed(&Event::Look { worker: 1 }));
    assert!(rt; take(front, 1).expect(rt, "room for an event"));
    assert!(rt; !take(front, 1).expect(rt, "room for an event"));
    assert!(rt; front.allowed(&Event::Look { worker: 1 }));
}

#[test]
fn entries_are_taken_and_given_back(rt: HostRuntime) {
    let mut front = opened(&rt, rt.alloc());
    take_once(&rt, &mut front);
    assert!(rt; give_back(&mut front, 1).expect(&rt, "room for an event"));
    assert_eq!(rt; front.first(3).expect(&rt, "the first jobs").len(), 1);
}

fn save_and_resume<R: Abort>(rt: &R, front: &mut Front) {
    front.step(Event::Save).expect(rt, "room for an event");
    front.step(Event::Resume).expect(rt, "room for an event");
}

#[test]
fn what_was_kept_comes_back(rt: HostRuntime) {
    let mut front = opened(&rt, rt.alloc());
    save_and_resume(&rt, &mut front);
    // The one job is wholly before the end.
    assert!(rt; front.entries().is_empty());
    assert_eq!(rt; (front.next_number(), front.lines()), (1, 5));
    let position = front.position().expect(&rt, "a position");
    assert!(rt; matches!(position, Position::End));
}

#[test]
fn nothing_is_emitted_of_an_open_entry(rt: HostRuntime) {
    let mut front = opened(&rt, rt.alloc());
    let none = !front.allowed(&Event::Emit) && front.emit().is_none();
    assert!(rt; none);
}

/// The members under the job of one chamber.
fn list_of_singles<R: Abort>(rt: &R, alloc: Global, job: &Job) -> SymbolList {
    let request = Request::up_to(2);
    assert!(rt; request.is_valid() && is_job_of(&request, job));
    let mut search = Search::new(&request);
    search.find(alloc, job).expect(rt, "the members")
}

/// The three symbols of one chamber, which are all under the job of its table.
fn singles<R: Abort>(rt: &R, alloc: Global) -> Members {
    let job = whole_job(rt, alloc);
    Members::new(alloc, list_of_singles(rt, alloc, &job)).expect(rt, "room for members")
}

/// Returns the first `count` of them.
fn first_singles<R: Abort>(rt: &R, alloc: Global, count: u128) -> Members {
    let mut members = singles(rt, alloc);
    assert!(rt; count <= members.len());
    members.keep(count);
    members
}

/// Two spans, of two members and of one.
fn two_spans<R: Abort>(rt: &R, alloc: Global) -> Members {
    let mut members = first_singles(rt, alloc, 2);
    let appended = members.append(first_singles(rt, alloc, 1));
    appended.expect(rt, "room for a span");
    members
}

/// How many members there are, and in how many spans.
fn counts(members: &Members) -> (u128, usize) {
    (members.len(), members.spans().len())
}

fn counts_without_two<R: Abort>(rt: &R, members: &Members) -> (u128, usize) {
    let mut end = members.share().expect(rt, "a share");
    assert!(rt; end.len() == 3);
    end.skip(2);
    counts(&end)
}

fn counts_of_the_second<R: Abort>(rt: &R, members: &Members) -> (u128, usize) {
    let mut part = members.share().expect(rt, "a share");
    assert!(rt; part.len() == 3);
    part.skip(1);
    assert!(rt; part.len() == 2);
    part.keep(1);
    counts(&part)
}

// What is left out or not kept takes whole spans along.
#[test]
fn members_are_joined_and_parted(rt: HostRuntime) {
    let members = two_spans(&rt, rt.alloc());
    assert_eq!(rt; counts_without_two(&rt, &members), (1, 1));
    assert_eq!(rt; counts_of_the_second(&rt, &members), (1, 1));
    assert_eq!(rt; counts(&members), (3, 2));
}
