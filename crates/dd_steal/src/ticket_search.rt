ghost use Rattle.std.specs.Prelude.{◌≡◌, ◌<◌, ◌≤◌, ◌+◌, Option, IfOk, IsNone, true};
ghost use Rattle.dd_steal_deques.specs.Hands.{hand_pushed, hand_popped, hand_stolen, hand_passes, hand_place, HasAllOfHand};
ghost use Rattle.dd_steal.specs.Worker.{IsLeftWith, held_by, held_after};

use crate::tuning::{LOOKS, MOST_LOOKS};
use dd_board::{Board, Seat};
use dd_front::{Naming, Taken, Ticket};
use dd_model::Memory;
use dd_steal_deques::Hand;
use std::hint;
use std::sync::Wait;
use std::sync::ledger::Ledger;

/// Returns a ticket of another worker's deque: the others are asked in turn.
fn steal_one<N: Naming, R: Wait>(rt: &R, hand: &mut Hand<N>) -> Option<Ticket<N>>
    ensures stolen { hand_stolen hand.new ≡ hand_stolen hand.old + held_by result }
    ensures popped { hand_popped hand.new ≡ hand_popped hand.old }
    ensures pushed { hand_pushed hand.new ≡ hand_pushed hand.old }
    ensures place { hand_place hand.new ≡ hand_place hand.old }
{
    // A rack has at most 64 workers.
    let others = hand.others().min(63) as u32;
    for worker in 1..=others + 1 {
        let stolen = hand.steal(rt, worker);
        if stolen.is_some() {
            return stolen;
        }
    }
    None
}

/// Takes a job ahead and puts it into the deque, if the worker is to take one and more jobs wait
/// than there are other workers. Returns the ticket only if the deque has no room for it.
fn take_ahead<N: Naming, K: Ledger, L: Ledger, S: Ledger, D: Ledger, B: Ledger, R: Wait>(
    rt: &R,
    board: &Board<N, K, L, S, D, B>,
    seat: &mut Seat<K, L, S, D, B>,
    hand: &mut Hand<N>,
    ahead: bool,
) -> Result<Option<Ticket<N>>, Memory>
    ensures tickets { IsLeftWith (held_after result) seat.old hand.old seat.new hand.new }
    ensures looks { seat.old.shares.look.amount ≤ seat.new.shares.look.amount }
    ensures worker { seat.new.worker ≡ seat.old.worker }
    ensures place { hand_place hand.new ≡ hand_place hand.old }
{
    if !ahead || board.waiting() <= hand.others() as u64 {
        return Ok(None);
    }
    match board.take(rt, seat)? {
        Taken::Job(ticket) => Ok(hand.push(ticket).err()),
        Taken::Idle => Ok(None),
    }
}

/// Waits for an open job while another worker is just splitting one, and a moment longer. If no job
/// is out, none can come. A worker without others does not wait.
fn wait_for_jobs<N: Naming, K: Ledger, L: Ledger, S: Ledger, D: Ledger, B: Ledger>(
    board: &Board<N, K, L, S, D, B>,
    others: usize,
) {
    if others == 0 {
        return;
    }
    let mut looks = 0;
    for _ in 0..MOST_LOOKS {
        if board.waiting() > 0 || looks >= LOOKS || !board.has_out() {
            return;
        }
        looks = if board.is_splitting() { 0 } else { looks + 1 };
        hint::spin_loop();
    }
}

/// Returns a ticket of another worker's deque, if no job is open. If there is none either, waits
/// for jobs.
fn steal_or_wait<N: Naming, K: Ledger, L: Ledger, S: Ledger, D: Ledger, B: Ledger, R: Wait>(
    rt: &R,
    board: &Board<N, K, L, S, D, B>,
    hand: &mut Hand<N>,
) -> Option<Ticket<N>>
    ensures stolen { hand_stolen hand.new ≡ hand_stolen hand.old + held_by result }
    ensures popped { hand_popped hand.new ≡ hand_popped hand.old }
    ensures pushed { hand_pushed hand.new ≡ hand_pushed hand.old }
    ensures place { hand_place hand.new ≡ hand_place hand.old }
{
    if board.waiting() > 0 {
        return None;
    }
    let stolen = steal_one(rt, hand);
    if stolen.is_none() {
        wait_for_jobs(board, hand.others());
    }
    stolen
}

/// The next ticket: the first of the worker's own deque, else that of the first job that is open,
/// else one of another worker. A worker that has done a job and finds its deque empty takes another
/// job ahead.
pub fn next_ticket<N: Naming, K: Ledger, L: Ledger, S: Ledger, D: Ledger, B: Ledger, R: Wait>(
    rt: &R,
    board: &Board<N, K, L, S, D, B>,
    seat: &mut Seat<K, L, S, D, B>,
    hand: &mut Hand<N>,
    ahead: bool,
) -> Result<Option<Ticket<N>>, Memory>
    ensures tickets { IsLeftWith (held_after result) seat.old hand.old seat.new hand.new }
    ensures looks { seat.old.shares.look.amount ≤ seat.new.shares.look.amount }
    ensures looked { IfOk result (λ found. IsNone found
        → seat.old.shares.look.amount < seat.new.shares.look.amount) }
    ensures all { IfOk result (λ found. IsNone found
        → hand_passes hand.old ≡ 0 → HasAllOfHand hand.new) }
    ensures worker { seat.new.worker ≡ seat.old.worker }
    ensures place { hand_place hand.new ≡ hand_place hand.old }
{
    if let Some(ticket) = hand.pop() {
        return Ok(Some(ticket));
    }
    if let Some(ticket) = take_ahead(rt, board, seat, hand, ahead)? {
        return Ok(Some(ticket));
    }
    if let Some(ticket) = steal_or_wait(rt, board, hand) {
        return Ok(Some(ticket));
    }
    if let Taken::Job(ticket) = board.take(rt, seat)? {
        return Ok(Some(ticket));
    }
    if let Some(ticket) = steal_one(rt, hand) {
        return Ok(Some(ticket));
    }
    Ok(hand.pop())
}
