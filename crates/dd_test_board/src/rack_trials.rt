ghost use Rattle.std.specs.Prelude.{◌≡◌, ◌<◌, ◌∷◌, [], length, map};
ghost use Rattle.dd_model.specs.Request.{IsValid};
ghost use Rattle.dd_model.specs.Jobs.{AreAscendingJobs, AreApart};
ghost use Rattle.dd_board.specs.Desk.{AreJobsOf};
ghost use Rattle.dd_steal_deques.specs.Hands.{hand_place};
ghost use Rattle.dd_steal_deques.specs.Places.{IsRack};

use dd_board::Desk;
use dd_front::{Naming, Taken, Ticket};
use dd_model::{Job, Prefix, Request};
use dd_steal_deques::{Hand, Rack, Rest};
use std::alloc::Global;
use std::marker::Brand;
use std::process::Abort;
use std::sync::Wait;

/// The number of the ticket's entry, or 0 where there is none.
fn entry_of<N: Naming>(ticket: Option<Ticket<N>>) -> u64 {
    match ticket {
        Some(ticket) => ticket.entry(),
        None => 0,
    }
}

/// The next ticket of the desk.
fn next_ticket<N: Naming, R: Abort>(rt: &R, desk: &mut Desk<N>) -> Ticket<N> {
    match desk.take(1).expect(rt, "an event that is booked") {
        Taken::Job(ticket) => ticket,
        Taken::Idle => panic!(rt; "no job is open"),
    }
}

/// Returns whether the hand at this index has room for the ticket.
fn push_to<N: Naming>(hands: &mut Vec<Hand<N>>, index: usize, ticket: Ticket<N>) -> bool
    requires index { index < length hands.old.items }
    requires rack { IsRack (map hand_place hands.old.items) }
    ensures rack { IsRack (map hand_place hands.new.items) }
    ensures count { length hands.new.items ≡ length hands.old.items }
{
    hands[index].push(ticket).is_ok()
}

/// The hand at this index pushes the next ticket of the desk.
fn push_next<N: Naming, R: Abort>(
    rt: &R,
    desk: &mut Desk<N>,
    hands: &mut Vec<Hand<N>>,
    index: usize,
)
    requires index { index < length hands.old.items }
    requires rack { IsRack (map hand_place hands.old.items) }
    ensures rack { IsRack (map hand_place hands.new.items) }
    ensures count { length hands.new.items ≡ length hands.old.items }
{
    assert!(rt; push_to(hands, index, next_ticket(rt, desk)));
}

/// The entry that the hand at this index pops.
fn pop_by<N: Naming>(hands: &mut Vec<Hand<N>>, index: usize) -> Option<Ticket<N>>
    requires index { index < length hands.old.items }
    requires rack { IsRack (map hand_place hands.old.items) }
    ensures rack { IsRack (map hand_place hands.new.items) }
    ensures count { length hands.new.items ≡ length hands.old.items }
{
    hands[index].pop()
}

/// The hand at this index pops this entry, or none if it is 0.
fn pops<N: Naming, R: Abort>(rt: &R, hands: &mut Vec<Hand<N>>, index: usize, entry: u64)
    requires index { index < length hands.old.items }
    requires rack { IsRack (map hand_place hands.old.items) }
    ensures rack { IsRack (map hand_place hands.new.items) }
    ensures count { length hands.new.items ≡ length hands.old.items }
{
    assert_eq!(rt; entry_of(pop_by(hands, index)), entry);
}

/// The entry that the hand at this index steals.
fn steal_by<N: Naming, R: Wait>(
    rt: &R,
    hands: &mut Vec<Hand<N>>,
    index: usize,
    from: u32,
) -> Option<Ticket<N>>
    requires index { index < length hands.old.items }
    requires rack { IsRack (map hand_place hands.old.items) }
    ensures rack { IsRack (map hand_place hands.new.items) }
    ensures count { length hands.new.items ≡ length hands.old.items }
{
    hands[index].steal(rt, from)
}

/// The hand at this index steals this entry, or none if it is 0.
fn steals<N: Naming, R: Abort + Wait>(
    rt: &R,
    hands: &mut Vec<Hand<N>>,
    index: usize,
    from: u32,
    entry: u64,
)
    requires index { index < length hands.old.items }
    requires rack { IsRack (map hand_place hands.old.items) }
    ensures rack { IsRack (map hand_place hands.new.items) }
    ensures count { length hands.new.items ≡ length hands.old.items }
{
    assert_eq!(rt; entry_of(steal_by(rt, hands, index, from)), entry);
}

/// This entry is the next that is left in the deques, or none if it is 0.
fn leaves<N: Naming, R: Abort>(rt: &R, rest: &mut Rest<N>, entry: u64) {
    assert_eq!(rt; entry_of(rest.next()), entry);
}

/// Hand 1 pushes the next three tickets of the desk.
fn push_three<N: Naming, R: Abort>(rt: &R, desk: &mut Desk<N>, hands: &mut Vec<Hand<N>>)
    requires hands { length hands.old.items ≡ 2 }
    requires rack { IsRack (map hand_place hands.old.items) }
    ensures rack { IsRack (map hand_place hands.new.items) }
    ensures count { length hands.new.items ≡ 2 }
{
    push_next(rt, desk, hands, 0);
    push_next(rt, desk, hands, 0);
    push_next(rt, desk, hands, 0);
}

/// Hand 2 steals the first of three tickets of hand 1, and none of its own. Hand 1 pops the second.
fn leave_the_third<N: Naming, R: Abort + Wait>(rt: &R, hands: &mut Vec<Hand<N>>)
    requires hands { length hands.old.items ≡ 2 }
    requires rack { IsRack (map hand_place hands.old.items) }
    ensures rack { IsRack (map hand_place hands.new.items) }
    ensures count { length hands.new.items ≡ 2 }
{
    steals(rt, hands, 1, 1, 1);
    steals(rt, hands, 1, 2, 0);
    pops(rt, hands, 0, 2);
}

/// Hand 2 steals the first of three tickets, and hand 1 pops the others, of which it cannot push
/// the last again.
fn leave_none<N: Naming, R: Abort + Wait>(rt: &R, hands: &mut Vec<Hand<N>>)
    requires hands { length hands.old.items ≡ 2 }
    requires rack { IsRack (map hand_place hands.old.items) }
    ensures rack { IsRack (map hand_place hands.new.items) }
    ensures count { length hands.new.items ≡ 2 }
{
    steals(rt, hands, 1, 1, 1);
    pops(rt, hands, 0, 2);
    let third = pop_by(hands, 0).expect(rt, "a third ticket");
    pops(rt, hands, 0, 0);
    assert!(rt; !push_to(hands, 0, third));
}

/// Hand 2 finds nothing to steal of hand 1, and nothing of its own.
fn find_none<N: Naming, R: Abort + Wait>(rt: &R, hands: &mut Vec<Hand<N>>)
    requires hands { length hands.old.items ≡ 2 }
    requires rack { IsRack (map hand_place hands.old.items) }
    ensures rack { IsRack (map hand_place hands.new.items) }
    ensures count { length hands.new.items ≡ 2 }
{
    steals(rt, hands, 1, 1, 0);
    pops(rt, hands, 1, 0);
}

/// One of three tickets is stolen, one is popped, and the third is left.
fn left_by_two_hands<N: Naming, R: Abort + Wait>(rt: &R, alloc: Global, desk: &mut Desk<N>) {
    let (rack, mut hands) = Rack::open(alloc, 2, 3).expect(rt, "a rack of two hands");
    push_three(rt, desk, &mut hands);
    leave_the_third(rt, &mut hands);
    let mut rest = rack.close(hands);
    leaves(rt, &mut rest, 3);
    leaves(rt, &mut rest, 0);
}

/// A hand that pushed three tickets has no room for one more, though all three are gone.
fn full_hand<N: Naming, R: Abort + Wait>(rt: &R, alloc: Global, desk: &mut Desk<N>) {
    let (rack, mut hands) = Rack::open(alloc, 2, 3).expect(rt, "a rack of two hands");
    push_three(rt, desk, &mut hands);
    leave_none(rt, &mut hands);
    find_none(rt, &mut hands);
    leaves(rt, &mut rack.close(hands), 0);
}

/// Each of three hands pushes the next ticket of the desk.
fn push_one_each<N: Naming, R: Abort>(rt: &R, desk: &mut Desk<N>, hands: &mut Vec<Hand<N>>)
    requires hands { length hands.old.items ≡ 3 }
    requires rack { IsRack (map hand_place hands.old.items) }
    ensures rack { IsRack (map hand_place hands.new.items) }
    ensures count { length hands.new.items ≡ 3 }
{
    push_next(rt, desk, hands, 0);
    push_next(rt, desk, hands, 1);
    push_next(rt, desk, hands, 2);
}

/// Each of three hands steals from another one, and gets the ticket that the other one pushed.
fn steal_in_a_ring<N: Naming, R: Abort + Wait>(rt: &R, hands: &mut Vec<Hand<N>>)
    requires hands { length hands.old.items ≡ 3 }
    requires rack { IsRack (map hand_place hands.old.items) }
    ensures rack { IsRack (map hand_place hands.new.items) }
    ensures count { length hands.new.items ≡ 3 }
{
    steals(rt, hands, 0, 3, 3);
    steals(rt, hands, 1, 1, 1);
    steals(rt, hands, 2, 2, 2);
    steals(rt, hands, 2, 1, 0);
}

/// Each of three tickets is stolen by another hand, and none is left.
fn stolen_by_three_hands<N: Naming, R: Abort + Wait>(rt: &R, alloc: Global, desk: &mut Desk<N>) {
    let (rack, mut hands) = Rack::open(alloc, 3, 1).expect(rt, "a rack of three hands");
    push_one_each(rt, desk, &mut hands);
    steal_in_a_ring(rt, &mut hands);
    leaves(rt, &mut rack.close(hands), 0);
}

/// The job for all tables of a size.
fn job_of_size<R: Abort>(rt: &R, alloc: Global, size: u32) -> Job
    ensures { result ≡ record { size = size; prefix = [] } }
{
    let prefix = Prefix::from_slice(alloc, &[]).expect(rt, "an empty prefix");
    Job { size, prefix }
}

/// Jobs for one, two and three chambers.
fn three_jobs<R: Abort>(rt: &R, alloc: Global) -> Vec<Job>
    ensures { result.items
        ≡ record { size = 1; prefix = [] } ∷ record { size = 2; prefix = [] }
        ∷ record { size = 3; prefix = [] } ∷ [] }
{
    let mut jobs = Vec::new(alloc);
    jobs.push(job_of_size(rt, alloc, 1)).expect(rt, "a job");
    jobs.push(job_of_size(rt, alloc, 2)).expect(rt, "a job");
    jobs.push(job_of_size(rt, alloc, 3)).expect(rt, "a job");
    jobs
}

/// The row of two hands, over the desk of a round.
fn row_of_two<N: Naming, R: Abort + Wait>(rt: &R, alloc: Global, request: Request, jobs: Vec<Job>)
    requires request { request ≡ N.request }
    requires jobs { jobs.items ≡ N.jobs }
    requires valid { IsValid request }
    requires ascending { AreAscendingJobs jobs.items }
    requires apart { AreApart jobs.items }
    requires all { AreJobsOf request jobs.items }
{
    let desk = Desk::<N>::open(alloc, request, jobs);
    left_by_two_hands(rt, alloc, &mut desk.expect(rt, "a desk"));
}

/// The row of a full hand, over the desk of a round.
fn row_of_full_hand<N: Naming, R: Abort + Wait>(
    rt: &R,
    alloc: Global,
    request: Request,
    jobs: Vec<Job>,
)
    requires request { request ≡ N.request }
    requires jobs { jobs.items ≡ N.jobs }
    requires valid { IsValid request }
    requires ascending { AreAscendingJobs jobs.items }
    requires apart { AreApart jobs.items }
    requires all { AreJobsOf request jobs.items }
{
    let desk = Desk::<N>::open(alloc, request, jobs);
    full_hand(rt, alloc, &mut desk.expect(rt, "a desk"));
}

/// The row of three hands, over the desk of a round.
fn row_of_three<N: Naming, R: Abort + Wait>(rt: &R, alloc: Global, request: Request, jobs: Vec<Job>)
    requires request { request ≡ N.request }
    requires jobs { jobs.items ≡ N.jobs }
    requires valid { IsValid request }
    requires ascending { AreAscendingJobs jobs.items }
    requires apart { AreApart jobs.items }
    requires all { AreJobsOf request jobs.items }
{
    let desk = Desk::<N>::open(alloc, request, jobs);
    stolen_by_three_hands(rt, alloc, &mut desk.expect(rt, "a desk"));
}

#[test]
fn three_hands_share_a_rack(rt: HostRuntime) {
    let jobs = three_jobs(&rt, rt.alloc());
    row_of_three::<Brand, HostRuntime>(&rt, rt.alloc(), Request::up_to(3), jobs);
}

#[test]
fn two_hands_share_a_rack(rt: HostRuntime) {
    let jobs = three_jobs(&rt, rt.alloc());
    row_of_two::<Brand, HostRuntime>(&rt, rt.alloc(), Request::up_to(3), jobs);
    let again = three_jobs(&rt, rt.alloc());
    row_of_full_hand::<Brand, HostRuntime>(&rt, rt.alloc(), Request::up_to(3), again);
}
