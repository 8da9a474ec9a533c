ghost use Rattle.std.specs.Prelude.{◌≡◌, ◌≤◌, length};
ghost use Rattle.dd_model.specs.Request.{IsValid};
ghost use Rattle.dd_model.specs.Jobs.{AreAscendingJobs, AreApart, AreMembersUnder, AreChildren};
ghost use Rattle.dd_model.specs.declared.requests.Request.{Request};
ghost use Rattle.dd_board.specs.Desk.{AreJobsOf};

use dd_board::{Blanks, Board, Desk, Seat};
use dd_branch::Search;
use dd_front::{Event, Finder, Naming, State, Taken, Ticket};
use dd_member_lists::SymbolList;
use dd_model::{Job, Memory, Prefix, Request};
use dd_steal::sweep;
use dd_text::put_list;
use std::alloc::Global;
use std::marker::Brand;
use std::process::Abort;
use std::sync::Wait;
use std::sync::ledger::Ledger;

/// The jobs (1; 1 1 1) and (2; 1 1 2 2 2 1).
fn two_jobs<R: Abort>(rt: &R, alloc: Global) -> Vec<Job>
    ensures ascending { AreAscendingJobs result.items }
    ensures apart { AreApart result.items }
    ensures all { (q : Request) → 2 ≤ q.chambers → AreJobsOf q result.items }
{
    let first = Prefix::from_slice(alloc, &[1, 1, 1]).expect(rt, "a prefix");
    let second = Prefix::from_slice(alloc, &[1, 1, 2, 2, 2, 1]).expect(rt, "a prefix");
    let mut jobs = Vec::new(alloc);
    jobs.push(Job {
        size: 1,
        prefix: first,
    })
    .expect(rt, "room for a job");
    jobs.push(Job {
        size: 2,
        prefix: second,
    })
    .expect(rt, "room for a job");
    jobs
}

/// The job (2; 1).
fn one_job<R: Abort>(rt: &R, alloc: Global) -> Vec<Job>
    ensures ascending { AreAscendingJobs result.items }
    ensures apart { AreApart result.items }
    ensures all { (q : Request) → 2 ≤ q.chambers → AreJobsOf q result.items }
{
    let prefix = Prefix::from_slice(alloc, &[1]).expect(rt, "a prefix");
    let mut jobs = Vec::new(alloc);
    jobs.push(Job { size: 2, prefix })
        .expect(rt, "room for a job");
    jobs
}

/// The members that the search finds under the ticket's job.
fn found<N: Naming, R: Abort>(
    rt: &R,
    alloc: Global,
    request: &Request,
    ticket: &Ticket<N>,
) -> SymbolList
    requires request { request.now ≡ N.request }
    requires valid { IsValid request.now }
    ensures { AreMembersUnder N.request ticket.now.job result }
{
    let list = Search::new(request).find(alloc, ticket.job());
    list.expect(rt, "the members")
}

/// The jobs into which the search splits the ticket's job.
fn parts<N: Naming, R: Abort>(
    rt: &R,
    alloc: Global,
    request: &Request,
    ticket: &Ticket<N>,
) -> Vec<Job>
    requires request { request.now ≡ N.request }
    requires valid { IsValid request.now }
    ensures { AreChildren N.request ticket.now.job result.items }
{
    let job = ticket.job();
    assert!(rt; (job.prefix.as_slice().len() as u64) < 3 * job.size as u64);
    let jobs = Search::new(request).split(alloc, job);
    jobs.expect(rt, "the parts")
}

fn ticket_of<N: Naming, R: Abort>(rt: &R, taken: Result<Taken<N>, Memory>) -> Ticket<N> {
    match taken.expect(rt, "room for an event") {
        Taken::Job(ticket) => ticket,
        Taken::Idle => panic!(rt; "no job is open"),
    }
}

fn name_of(event: &Event) -> &'static str {
    match event {
        Event::Take { .. } => "take ",
        Event::Look { .. } => "look ",
        Event::Split { .. } => "split ",
        Event::Finish { .. } => "finish ",
        Event::Back { .. } => "back ",
        Event::Emit => "emit ",
        Event::Part { .. } => "part ",
        Event::Save => "save ",
        Event::Resume => "resume ",
    }
}

/// Adds the names of a desk's events, the numbers of its open entries, and a line for each member
/// of those that are done.
fn show<N: Naming>(shown: &mut Vec<u8>, desk: &Desk<N>) -> Result<(), Memory> {
    for event in desk.log() {
        shown.extend_from_slice(name_of(event).as_bytes())?;
    }
    for entry in desk.entries() {
        match &entry.state {
            State::Open => shown.extend_from_slice(b"\nopen\n")?,
            State::Out => shown.extend_from_slice(b"\nout\n")?,
            State::Done(list) => {
                shown.extend_from_slice(b"\ndone\n")?;
                for span in list.spans() {
                    put_list(shown, 0, &span.symbols())?;
                }
            }
        }
    }
    Ok(())
}

fn shown<N: Naming, R: Abort>(rt: &R, alloc: Global, desk: &Desk<N>) -> Vec<u8> {
    let mut text = Vec::new(alloc);
    show(&mut text, desk).expect(rt, "room for a text");
    text
}

/// Books what is under the ticket's job.
fn finish_found<N: Naming, K: Ledger, L: Ledger, S: Ledger, D: Ledger, B: Ledger, R: Abort + Wait>(
    rt: &R,
    alloc: Global,
    request: &Request,
    board: &Board<N, K, L, S, D, B>,
    seat: &mut Seat<K, L, S, D, B>,
    ticket: Ticket<N>,
)
    requires request { request.now ≡ N.request }
    requires valid { IsValid request.now }
{
    let list = found(rt, alloc, request, &ticket);
    assert!(rt; board.finish(rt, seat, ticket, list).is_ok());
}

/// Takes a job and puts its parts in its place.
fn take_and_split<
    N: Naming,
    K: Ledger,
    L: Ledger,
    S: Ledger,
    D: Ledger,
    B: Ledger,
    R: Abort + Wait,
>(
    rt: &R,
    alloc: Global,
    request: &Request,
    board: &Board<N, K, L, S, D, B>,
    seat: &mut Seat<K, L, S, D, B>,
)
    requires request { request.now ≡ N.request }
    requires valid { IsValid request.now }
{
    let ticket = ticket_of(rt, board.take(rt, seat));
    let jobs = parts(rt, alloc, request, &ticket);
    assert!(rt; board.split(rt, seat, ticket, jobs).is_ok());
}

/// One seat finishes its job and finds no other one, and one gives its job back.
fn finish_and_back<
    N: Naming,
    K: Ledger,
    L: Ledger,
    S: Ledger,
    D: Ledger,
    B: Ledger,
    R: Abort + Wait,
>(
    rt: &R,
    alloc: Global,
    request: &Request,
    board: &Board<N, K, L, S, D, B>,
    seats: &mut [Seat<K, L, S, D, B>],
)
    requires request { request.now ≡ N.request }
    requires valid { IsValid request.now }
    requires seats { length seats.old ≡ 2 }
    ensures { length seats.new ≡ 2 }
{
    let one = ticket_of(rt, board.take(rt, &mut seats[0]));
    let two = ticket_of(rt, board.take(rt, &mut seats[1]));
    finish_found(rt, alloc, request, board, &mut seats[0], one);
    let _idle = board
        .take(rt, &mut seats[0])
        .expect(rt, "room for an event");
    assert!(rt; board.back(rt, &mut seats[1], two).is_ok());
}

/// What a desk shows, and what it shows after a sweep.
fn shown_and_swept<N: Naming, R: Abort>(
    rt: &R,
    alloc: Global,
    request: &Request,
    desk: &mut Desk<N>,
) -> Vec<u8>
    requires { request.now ≡ N.request }
{
    let mut text = Vec::new(alloc);
    show(&mut text, desk).expect(rt, "room for a text");
    sweep(alloc, &mut Search::new(request), desk).expect(rt, "a sweep");
    show(&mut text, desk).expect(rt, "room for a text");
    text
}

/// What a board of two seats shows, one of which gives its job back, which a sweep then does.
fn at_two_seats<N: Naming, K: Ledger, L: Ledger, S: Ledger, D: Ledger, B: Ledger, R: Abort + Wait>(
    rt: &R,
    alloc: Global,
    request: &Request,
    jobs: Vec<Job>,
    blanks: Blanks,
) -> Vec<u8>
    requires request { request.now ≡ N.request }
    requires jobs { jobs.items ≡ N.jobs }
    requires valid { IsValid request.now }
    requires ascending { AreAscendingJobs jobs.items }
    requires apart { AreApart jobs.items }
    requires all { AreJobsOf request.now jobs.items }
    requires take { (blanks.take.name ≡ K.name) × (blanks.take.parts ≡ K.parts) × (K.parts ≡ 2) }
    requires look { (blanks.look.name ≡ L.name) × (blanks.look.parts ≡ L.parts) × (L.parts ≡ 2) }
    requires split { (blanks.split.name ≡ S.name) × (blanks.split.parts ≡ S.parts) × (S.parts ≡ 2) }
    requires finish { (blanks.finish.name ≡ D.name) × (blanks.finish.parts ≡ D.parts) × (D.parts ≡ 2) }
    requires back { (blanks.back.name ≡ B.name) × (blanks.back.parts ≡ B.parts) × (B.parts ≡ 2) }
{
    let opened = Board::<N, K, L, S, D, B>::open(alloc, request, jobs, 2, blanks);
    let (board, mut seats) = opened.expect(rt, "a board");
    finish_and_back(rt, alloc, request, &board, seats.as_mut_slice());
    shown_and_swept(rt, alloc, request, &mut board.close(seats))
}

/// A seat splits its job, finishes both parts and finds no other job.
fn split_and_finish<
    N: Naming,
    K: Ledger,
    L: Ledger,
    S: Ledger,
    D: Ledger,
    B: Ledger,
    R: Abort + Wait,
>(
    rt: &R,
    alloc: Global,
    request: &Request,
    board: &Board<N, K, L, S, D, B>,
    seat: &mut Seat<K, L, S, D, B>,
)
    requires request { request.now ≡ N.request }
    requires valid { IsValid request.now }
{
    take_and_split(rt, alloc, request, board, seat);
    for _ in 0..2 {
        let ticket = ticket_of(rt, board.take(rt, seat));
        finish_found(rt, alloc, request, board, seat, ticket);
    }
    let _idle = board.take(rt, seat).expect(rt, "room for an event");
}

/// What a board of one seat shows.
fn at_one_seat<N: Naming, K: Ledger, L: Ledger, S: Ledger, D: Ledger, B: Ledger, R: Abort + Wait>(
    rt: &R,
    alloc: Global,
    request: &Request,
    jobs: Vec<Job>,
    blanks: Blanks,
) -> Vec<u8>
    requires request { request.now ≡ N.request }
    requires jobs { jobs.items ≡ N.jobs }
    requires valid { IsValid request.now }
    requires ascending { AreAscendingJobs jobs.items }
    requires apart { AreApart jobs.items }
    requires all { AreJobsOf request.now jobs.items }
    requires take { (blanks.take.name ≡ K.name) × (blanks.take.parts ≡ K.parts) × (K.parts ≡ 1) }
    requires look { (blanks.look.name ≡ L.name) × (blanks.look.parts ≡ L.parts) × (L.parts ≡ 1) }
    requires split { (blanks.split.name ≡ S.name) × (blanks.split.parts ≡ S.parts) × (S.parts ≡ 1) }
    requires finish { (blanks.finish.name ≡ D.name) × (blanks.finish.parts ≡ D.parts) × (D.parts ≡ 1) }
    requires back { (blanks.back.name ≡ B.name) × (blanks.back.parts ≡ B.parts) × (B.parts ≡ 1) }
{
    let opened = Board::<N, K, L, S, D, B>::open(alloc, request, jobs, 1, blanks);
    let (board, mut seats) = opened.expect(rt, "a board");
    split_and_finish(rt, alloc, request, &board, &mut seats[0]);
    shown(rt, alloc, &board.close(seats))
}

/// What a board of two seats shows.
fn shown_of_two<R: Abort + Wait>(rt: &R, alloc: Global) -> Vec<u8> {
    let request = Request::up_to(2);
    let jobs = two_jobs(rt, alloc);
    at_two_seats::<Brand, Brand, Brand, Brand, Brand, Brand, R>(
        rt,
        alloc,
        &request,
        jobs,
        Blanks::new(2),
    )
}

/// What a board of one seat shows.
fn shown_of_one<R: Abort + Wait>(rt: &R, alloc: Global) -> Vec<u8> {
    let request = Request::up_to(2);
    let jobs = one_job(rt, alloc);
    at_one_seat::<Brand, Brand, Brand, Brand, Brand, Brand, R>(
        rt,
        alloc,
        &request,
        jobs,
        Blanks::new(1),
    )
}

/// Takes the first open job and puts its parts in its place.
fn split_next<N: Naming, R: Abort>(rt: &R, alloc: Global, request: &Request, desk: &mut Desk<N>)
    requires request { request.now ≡ N.request }
    requires valid { IsValid request.now }
{
    let ticket = ticket_of(rt, desk.take(2));
    let jobs = parts(rt, alloc, request, &ticket);
    assert!(rt; desk.split(2, ticket, jobs).is_ok());
}

/// One entry is given back and taken again, and its first ticket still fits. A split makes it
/// stale.
fn book_stale<N: Naming, R: Abort>(rt: &R, alloc: Global, request: &Request, desk: &mut Desk<N>)
    requires request { request.now ≡ N.request }
    requires valid { IsValid request.now }
{
    let first = ticket_of(rt, desk.take(1));
    desk.back(1, first.entry()).expect(rt, "room for an event");
    split_next(rt, alloc, request, desk);
    let list = found(rt, alloc, request, &first);
    assert!(rt; desk.finish(1, first, list).is_ok());
}

/// What a desk shows at which a stale ticket was booked.
fn at_a_desk<N: Naming, R: Abort>(
    rt: &R,
    alloc: Global,
    request: &Request,
    jobs: Vec<Job>,
) -> Vec<u8>
    requires request { request.now ≡ N.request }
    requires jobs { jobs.items ≡ N.jobs }
    requires valid { IsValid request.now }
    requires ascending { AreAscendingJobs jobs.items }
    requires apart { AreApart jobs.items }
    requires all { AreJobsOf request.now jobs.items }
{
    let opened = Desk::<N>::open(alloc, *request, jobs);
    let mut desk = opened.expect(rt, "a desk");
    book_stale(rt, alloc, request, &mut desk);
    shown(rt, alloc, &desk)
}

/// What a desk shows at which a stale ticket is finished.
fn shown_of_stale<R: Abort>(rt: &R, alloc: Global) -> Vec<u8> {
    let request = Request::up_to(2);
    let jobs = one_job(rt, alloc);
    at_a_desk::<Brand, R>(rt, alloc, &request, jobs)
}

// What each shows: its events, and for each entry its state and its members.
#[test]
fn a_board_of_two_seats(rt: HostRuntime) {
    assert_eq!(rt;
        shown_of_two(&rt, rt.alloc()).as_slice(),
        b"resume take take finish look back \
\ndone\n<1.1:1:1,1,1:3,6>\n<1.2:1:1,1,1:4,4>\n<1.3:1:1,1,1:6,3>\n\nopen\n\
resume take take finish look back take finish look \
\ndone\n<1.1:1:1,1,1:3,6>\n<1.2:1:1,1,1:4,4>\n<1.3:1:1,1,1:6,3>\n\
\ndone\n<1.1:2:1 2,1 2,2:3 3,6>\n<1.2:2:1 2,1 2,2:3 6,4>\n<1.3:2:1 2,1 2,2:4 4,4>\n"
            .as_slice()
    );
}

#[test]
fn a_board_of_one_seat(rt: HostRuntime) {
    assert_eq!(rt;
        shown_of_one(&rt, rt.alloc()).as_slice(),
        b"resume take split take finish take finish look \
\ndone\n<1.1:2:1 2,1 2,2:3 3,6>\n<1.2:2:1 2,1 2,2:3 6,4>\n<1.3:2:1 2,1 2,2:4 4,4>\n\
\ndone\n<1.1:2:1 2,2,1 2:4,4>\n<1.2:2:1 2,2,2:4,4>\n<1.3:2:1 2,2,2:6,3>\n"
            .as_slice()
    );
}

#[test]
fn a_stale_ticket_changes_no_entry(rt: HostRuntime) {
    assert_eq!(rt;
        shown_of_stale(&rt, rt.alloc()).as_slice(),
        b"resume take back take split finish \nopen\n\nopen\n".as_slice()
    );
}
