ghost use Rattle.std.specs.Prelude.{◌≡◌, ◌⊎◌, ◌*◌, ◌<◌, IfErr, MatchOption, MatchResult, length};
ghost use Rattle.dd_steal_deques.specs.Hands.{hand_passes, hand_place, HasAllOfHand};
ghost use Rattle.dd_board.specs.Ledgers.{Counts, CountsFinish};
ghost use Rattle.dd_steal.specs.Worker.{IsLeftWith, IsIdle, held_at_end};

use crate::choice::{is_to_split, is_worth_a_split};
use crate::ended::Ended;
use crate::ticket_search::next_ticket;
use dd_board::{Board, Seat};
use dd_front::{Finder, Naming, Ticket};
use dd_ports::Gate;
use dd_steal_deques::Hand;
use std::alloc::Global;
use std::sync::Wait;
use std::sync::ledger::Ledger;

/// Splits a job, or returns its ticket if that is not worth it. It fails only if an allocation
/// fails, and then returns the ticket.
fn split_job<N: Naming, K: Ledger, L: Ledger, S: Ledger, D: Ledger, B: Ledger, R: Wait, F: Finder>(
    rt: &R,
    alloc: Global,
    finder: &mut F,
    board: &Board<N, K, L, S, D, B>,
    seat: &mut Seat<K, L, S, D, B>,
    ticket: Ticket<N>,
) -> Result<Option<Ticket<N>>, Ticket<N>>
    requires request { F.request finder.old ≡ N.request }
    requires shorter { length ticket.job.prefix < 3 * ticket.job.size }
    ensures request { F.request finder.new ≡ F.request finder.old }
    ensures counts { MatchResult result
        (λ left. MatchOption left (Counts seat.old seat.new 0 0 1 0 0)
        (λ back. (back ≡ ticket) × Counts seat.old seat.new 0 0 0 0 0))
        (λ back. (back ≡ ticket) × Counts seat.old seat.new 0 0 0 0 0) }
{
    match finder.split(alloc, ticket.job()) {
        Ok(jobs) if is_worth_a_split(&jobs) => {
            board.split(rt, seat, ticket, jobs)?;
            Ok(None)
        }
        Ok(_) => Ok(Some(ticket)),
        Err(_) => Err(ticket),
    }
}

/// Finds what is under a job. It fails only if an allocation fails, and then returns the ticket.
fn find_job<N: Naming, K: Ledger, L: Ledger, S: Ledger, D: Ledger, B: Ledger, R: Wait, F: Finder>(
    rt: &R,
    alloc: Global,
    finder: &mut F,
    board: &Board<N, K, L, S, D, B>,
    seat: &mut Seat<K, L, S, D, B>,
    ticket: Ticket<N>,
) -> Result<(), Ticket<N>>
    requires { F.request finder.old ≡ N.request }
    ensures request { F.request finder.new ≡ F.request finder.old }
    ensures counts { CountsFinish seat.old seat.new result }
    ensures ticket { IfErr result (λ back. back ≡ ticket) }
{
    match finder.find(alloc, ticket.job()) {
        Ok(list) => board.finish(rt, seat, ticket, list),
        Err(_) => Err(ticket),
    }
}

/// Does a job: finds what is under it, or splits it. It fails only if an allocation fails, and then
/// returns the ticket.
fn do_job<N: Naming, K: Ledger, L: Ledger, S: Ledger, D: Ledger, B: Ledger, R: Wait, F: Finder>(
    rt: &R,
    alloc: Global,
    finder: &mut F,
    board: &Board<N, K, L, S, D, B>,
    seat: &mut Seat<K, L, S, D, B>,
    others: usize,
    ticket: Ticket<N>,
) -> Result<(), Ticket<N>>
    requires { F.request finder.old ≡ N.request }
    ensures request { F.request finder.new ≡ F.request finder.old }
    ensures counts { MatchResult result
        (λ _. Counts seat.old seat.new 0 0 1 0 0 ⊎ Counts seat.old seat.new 0 0 0 1 0)
        (λ back. (back ≡ ticket) × Counts seat.old seat.new 0 0 0 0 0) }
{
    if !is_to_split(ticket.job(), board.waiting(), others) {
        return find_job(rt, alloc, finder, board, seat, ticket);
    }
    board.begin_split();
    let left = split_job(rt, alloc, finder, board, seat, ticket);
    board.end_split();
    match left? {
        None => Ok(()),
        Some(back) => find_job(rt, alloc, finder, board, seat, back),
    }
}

/// What a worker does in a round, until no job is open or memory runs out. It passes the gate
/// before each job, and has at most one ticket outside its deque.
pub fn work<
    N: Naming,
    K: Ledger,
    L: Ledger,
    S: Ledger,
    D: Ledger,
    B: Ledger,
    R: Wait,
    F: Finder,
    G: Gate,
>(
    rt: &R,
    alloc: Global,
    finder: &mut F,
    gate: &G,
    board: &Board<N, K, L, S, D, B>,
    seat: &mut Seat<K, L, S, D, B>,
    hand: &mut Hand<N>,
) -> Ended<N>
    requires { F.request finder.old ≡ N.request }
    ensures request { F.request finder.new ≡ F.request finder.old }
    ensures tickets { IsLeftWith (held_at_end result) seat.old hand.old seat.new hand.new }
    ensures looks { IsIdle result → seat.old.shares.look.amount < seat.new.shares.look.amount }
    ensures all { IsIdle result → hand_passes hand.old ≡ 0 → HasAllOfHand hand.new }
    ensures worker { seat.new.worker ≡ seat.old.worker }
    ensures place { hand_place hand.new ≡ hand_place hand.old }
{
    let mut ahead = false;
    for _ in rt.forever() {
        let ticket = match next_ticket(rt, board, seat, hand, ahead) {
            Ok(Some(ticket)) => ticket,
            Ok(None) => return Ended::Idle,
            Err(_) => return Ended::Memory(None),
        };
        gate.enter(seat.worker(), ticket.entry());
        if let Err(ticket) = do_job(rt, alloc, finder, board, seat, hand.others(), ticket) {
            return Ended::Memory(Some(ticket));
        }
        ahead = true;
    }
    unreachable!()
}
