ghost use Rattle.std.specs.Prelude.{◌≡◌, ◌≤◌, ◌<◌, length, IfOk};
ghost use Rattle.dd_model.specs.Request.{IsValid};
ghost use Rattle.dd_model.specs.Jobs.{AreAscendingJobs, AreApart};
ghost use Rattle.dd_front.specs.Absorbed.{ComeFrom};
ghost use Rattle.dd_board.specs.Desk.{AreJobsOf};
ghost use Rattle.dd_board.specs.Blanks.{AreInParts, AreLedgers};

use crate::alone::do_alone;
use crate::crew::{CrewMember, crew_of, seats_of};
use crate::last_sweep::sweep;
use crate::worker::work;
use dd_board::{Blanks, Board, Seat};
use dd_front::{Entry, Finder, Naming};
use dd_model::{Job, Memory};
use dd_ports::Gate;
use dd_steal_deques::{Hand, Rack};
use std::alloc::Global;
use std::marker::Brand;
use std::sync::Wait;
use std::sync::ledger::Ledger;
use std::thread;
use std::thread::Threads;

/// How many tickets a worker may put into its deque: one for each job of the round. A deque's room
/// is all taken at once, and a round may be short.
fn room_for(jobs: usize) -> u32
    ensures low { 1 ≤ result }
    ensures high { result ≤ 4096 }
{
    jobs.clamp(1, 4096) as u32
}

/// Returns how many of at most `workers` workers do a round: one if nothing is under its jobs. To
/// see this takes less time than to start a thread, and many rounds of a large size are so.
fn crew_size<F: Finder>(
    alloc: Global,
    finder: &mut F,
    jobs: &[Job],
    workers: u32,
) -> Result<u32, Memory>
    requires workers { 1 ≤ workers }
    requires valid { IsValid (F.request finder.old) }
    requires all { AreJobsOf (F.request finder.old) jobs.now }
    ensures request { F.request finder.new ≡ F.request finder.old }
    ensures size { IfOk result (λ size. (1 ≤ size) × (size ≤ workers)) }
{
    if workers == 1 {
        return Ok(1);
    }
    for job in jobs {
        if finder.may_find(alloc, job)? {
            return Ok(workers);
        }
    }
    Ok(1)
}

/// Does the jobs of a round by at most `workers` workers. Each entry that comes back is done with
/// what is under its job. The jobs of the entries are parts of the round's jobs, at least one of
/// each, and in order they have all that is under these. It fails only if an allocation fails.
pub fn run_round<R: Threads + Wait + Sync, F: Finder + Sync, G: Gate + Sync>(
    rt: &R,
    alloc: Global,
    finder: &mut F,
    gate: &G,
    jobs: Vec<Job>,
    workers: u32,
) -> Result<Vec<Entry>, Memory>
    requires workers { (1 ≤ workers) × (workers ≤ 64) }
    requires valid { IsValid (F.request finder.old) }
    requires ascending { AreAscendingJobs jobs.items }
    requires apart { AreApart jobs.items }
    requires all { AreJobsOf (F.request finder.old) jobs.items }
    ensures request { F.request finder.new ≡ F.request finder.old }
    ensures round { IfOk result
        (λ entries. ComeFrom (F.request finder.old) jobs.items entries.items) }
{
    let workers = crew_size(alloc, finder, &jobs, workers)?;
    if workers == 1 {
        return do_alone(alloc, finder, gate, jobs);
    }
    run_named::<Brand, Brand, Brand, Brand, Brand, Brand, R, F, G>(
        rt,
        alloc,
        finder,
        gate,
        jobs,
        workers,
        Blanks::new(u64::from(workers)),
    )
}

/// Has each worker of a round work at its board, on a thread of its own.
fn work_at_once<
    N: Naming + Send + Sync,
    K: Ledger + Send + Sync,
    L: Ledger + Send + Sync,
    S: Ledger + Send + Sync,
    D: Ledger + Send + Sync,
    B: Ledger + Send + Sync,
    R: Threads + Wait + Sync,
    F: Finder + Sync,
    G: Gate + Sync,
>(
    rt: &R,
    alloc: Global,
    finder: &F,
    gate: &G,
    board: &Board<N, K, L, S, D, B>,
    crew: &mut [CrewMember<Seat<K, L, S, D, B>, Hand<N>>],
)
    requires request { F.request finder.now ≡ N.request }
    requires some { 0 < length crew.old }
    ensures { length crew.new ≡ length crew.old }
{
    let workers = crew.len();
    thread::for_each_mut(
        rt,
        crew,
        workers,
        &|_, member: &mut CrewMember<Seat<K, L, S, D, B>, Hand<N>>|
            requires { F.request finder.now ≡ N.request }
        {
            let mut own = finder.fork();
            let (seat, hand) = (&mut member.seat, &mut member.hand);
            let _ended = work(rt, alloc, &mut own, gate, board, seat, hand);
        },
    );
}

/// Does what the workers of a round left, on this thread. Returns the entries of the round.
fn close_round<N: Naming, K: Ledger, L: Ledger, S: Ledger, D: Ledger, B: Ledger, F: Finder>(
    alloc: Global,
    finder: &mut F,
    board: Board<N, K, L, S, D, B>,
    crew: Vec<CrewMember<Seat<K, L, S, D, B>, Hand<N>>>,
) -> Result<Vec<Entry>, Memory>
    requires request { F.request finder.old ≡ N.request }
    requires some { 0 < length crew.items }
    requires all { (length crew.items ≡ K.parts) × (length crew.items ≡ L.parts)
        × (length crew.items ≡ S.parts) × (length crew.items ≡ D.parts)
        × (length crew.items ≡ B.parts) }
    ensures request { F.request finder.new ≡ F.request finder.old }
    ensures round { IfOk result (λ entries. ComeFrom N.request N.jobs entries.items) }
{
    let seats = seats_of(alloc, crew)?;
    let mut desk = board.close(seats);
    sweep(alloc, finder, &mut desk)?;
    Ok(desk.into_entries())
}

/// Does the jobs of a round and ledgers that have names. Each worker has a deque with room for a
/// ticket of each job.
fn run_named<
    N: Naming + Send + Sync,
    K: Ledger + Send + Sync,
    L: Ledger + Send + Sync,
    S: Ledger + Send + Sync,
    D: Ledger + Send + Sync,
    B: Ledger + Send + Sync,
    R: Threads + Wait + Sync,
    F: Finder + Sync,
    G: Gate + Sync,
>(
    rt: &R,
    alloc: Global,
    finder: &mut F,
    gate: &G,
    jobs: Vec<Job>,
    workers: u32,
    blanks: Blanks,
) -> Result<Vec<Entry>, Memory>
    requires workers { (1 ≤ workers) × (workers ≤ 64) }
    requires request { F.request finder.old ≡ N.request }
    requires jobs { jobs.items ≡ N.jobs }
    requires valid { IsValid N.request }
    requires ascending { AreAscendingJobs jobs.items }
    requires apart { AreApart jobs.items }
    requires all { AreJobsOf N.request jobs.items }
    requires parts { AreInParts blanks workers }
    requires ledgers { AreLedgers blanks (K.name, K.parts) (L.name, L.parts)
        (S.name, S.parts) (D.name, D.parts) (B.name, B.parts) }
    ensures request { F.request finder.new ≡ F.request finder.old }
    ensures round { IfOk result (λ entries. ComeFrom N.request N.jobs entries.items) }
{
    let request = finder.request();
    let room = room_for(jobs.len());
    let (board, seats) = Board::<N, K, L, S, D, B>::open(alloc, &request, jobs, workers, blanks)?;
    let (_, hands) = Rack::open(alloc, workers, room)?;
    let mut crew = crew_of(alloc, seats, hands)?;
    work_at_once(rt, alloc, finder, gate, &board, crew.as_mut_slice());
    close_round(alloc, finder, board, crew)
}
