ghost use Rattle.std.specs.Prelude.{◌≡◌, ◌≤◌, ◌<◌, length, map, IfOk, IfErr};
ghost use Rattle.dd_model.specs.Code.{count_from};
ghost use Rattle.dd_model.specs.Request.{IsValid};
ghost use Rattle.dd_model.specs.Jobs.{AreAscendingJobs, AreApart, AreMembersUnder, AreChildren};
ghost use Rattle.dd_board.specs.Desk.{AreJobsOf};
ghost use Rattle.dd_board.specs.Blanks.{AreInParts, AreLedgers};
ghost use Rattle.dd_board.specs.Ledgers.{CountsTaken, CountsSplit, CountsFinish, CountsBack};
ghost use Rattle.dd_board.specs.Ledgers.{takes_in, looks_in, splits_in, finishes_in, backs_in};
ghost use Rattle.dd_board.specs.Seats.{HaveSums};

use crate::books::{Blanks, Books};
use crate::counted::Counted;
use crate::desk::Desk;
use crate::seat::Seat;
use crate::seats::{all_shares, seats_of};
use dd_front::{Naming, Taken, Ticket};
use dd_member_lists::SymbolList;
use dd_model::{Job, Memory, Request};
use std::alloc::Global;
use std::sync::atomic::{AtomicU64, Ordering};
use std::sync::ledger::Ledger;
use std::sync::{Mutex, Wait};

/// The desk of a round behind a lock, with a seat for each of its workers. The type parameters
/// name the round and the five ledgers of its calls. How many jobs wait, how many are out, and how
/// many are just being split, is also counted beside the lock, as hints that no clause reads.
#[derive(Drop)]
pub struct Board<N: Naming, K: Ledger, L: Ledger, S: Ledger, D: Ledger, B: Ledger> {
    counted: Mutex<Counted<N, K, L, S, D, B>>,
    waiting: AtomicU64,
    out: AtomicU64,
    splitting: AtomicU64,
}

impl<N: Naming, K: Ledger, L: Ledger, S: Ledger, D: Ledger, B: Ledger> Board<N, K, L, S, D, B> {
    /// A board whose jobs are all open, and its seats.
    pub fn open(
        alloc: Global,
        q: &Request,
        jobs: Vec<Job>,
        seats: u32,
        blanks: Blanks,
    ) -> Result<(Board<N, K, L, S, D, B>, Vec<Seat<K, L, S, D, B>>), Memory>
        requires request { q.now ≡ N.request }
        requires jobs { jobs.items ≡ N.jobs }
        requires valid { IsValid q.now }
        requires ascending { AreAscendingJobs jobs.items }
        requires apart { AreApart jobs.items }
        requires all { AreJobsOf q.now jobs.items }
        requires seats { (1 ≤ seats) × (seats ≤ 64) }
        requires parts { AreInParts blanks seats }
        requires ledgers { AreLedgers blanks (K.name, K.parts) (L.name, L.parts)
            (S.name, S.parts) (D.name, D.parts) (B.name, B.parts) }
        ensures count { IfOk result (λ made. length made.1.items ≡ seats) }
        ensures workers { IfOk result
            (λ made. map (λ s. s.worker) made.1.items ≡ count_from 1 seats) }
        ensures sums { IfOk result (λ made. HaveSums made.1.items 0 0 0 0 0) }
    {
        let (books, shares) = Books::open(blanks);
        let waiting = jobs.len() as u64;
        let seats = seats_of(alloc, shares, seats)?;
        let desk = Desk::open(alloc, *q, jobs)?;
        let board = Board {
            counted: Mutex::new(Counted { desk, books }),
            waiting: AtomicU64::new(waiting),
            out: AtomicU64::new(0),
            splitting: AtomicU64::new(0),
        };
        Ok((board, seats))
    }

    /// Gives out the first job that is open. Where none is, a look is booked.
    pub fn take<R: Wait>(&self, rt: &R, seat: &mut Seat<K, L, S, D, B>) -> Result<Taken<N>, Memory>
        ensures { CountsTaken seat.old seat.new result }
    {
        let taken = self.counted.lock(rt).take(seat);
        if matches!(&taken, Ok(Taken::Job(_))) {
            self.out.fetch_add(1, Ordering::SeqCst);
            self.waiting.fetch_sub(1, Ordering::SeqCst);
        }
        taken
    }

    /// About how many jobs are open. Nothing rests on it: others may take and split meanwhile.
    pub fn waiting(&self) -> u64 {
        self.waiting.load(Ordering::SeqCst)
    }

    /// Returns whether some job is out, so that there may be more to do. Nothing rests on it.
    pub fn has_out(&self) -> bool {
        self.out.load(Ordering::SeqCst) > 0
    }

    /// Lets the other workers know that a job is being split, so that there may soon be more to do.
    pub fn begin_split(&self) {
        self.splitting.fetch_add(1, Ordering::SeqCst);
    }

    /// Lets the other workers know that a split is over.
    pub fn end_split(&self) {
        self.splitting.fetch_sub(1, Ordering::SeqCst);
    }

    /// Returns whether some worker is just splitting a job. Nothing rests on it.
    pub fn is_splitting(&self) -> bool {
        self.splitting.load(Ordering::SeqCst) > 0
    }

    /// Puts the jobs in the place of the ticket's. It fails only if an allocation fails, and then
    /// returns the ticket.
    pub fn split<R: Wait>(
        &self,
        rt: &R,
        seat: &mut Seat<K, L, S, D, B>,
        ticket: Ticket<N>,
        jobs: Vec<Job>,
    ) -> Result<(), Ticket<N>>
        requires { AreChildren N.request ticket.job jobs.items }
        ensures counts { CountsSplit seat.old seat.new result }
        ensures ticket { IfErr result (λ back. back ≡ ticket) }
    {
        let count = jobs.len() as u64;
        let done = self.counted.lock(rt).split(seat, ticket, jobs);
        if done.is_ok() {
            self.waiting.fetch_add(count, Ordering::SeqCst);
            self.out.fetch_sub(1, Ordering::SeqCst);
        }
        done
    }

    /// Books what was found under the ticket's job. It fails only if an allocation fails, and then
    /// returns the ticket.
    pub fn finish<R: Wait>(
        &self,
        rt: &R,
        seat: &mut Seat<K, L, S, D, B>,
        ticket: Ticket<N>,
        list: SymbolList,
    ) -> Result<(), Ticket<N>>
        requires { AreMembersUnder N.request ticket.job list }
        ensures counts { CountsFinish seat.old seat.new result }
        ensures ticket { IfErr result (λ back. back ≡ ticket) }
    {
        let done = self.counted.lock(rt).finish(seat, ticket, list);
        if done.is_ok() {
            self.out.fetch_sub(1, Ordering::SeqCst);
        }
        done
    }

    /// Makes the ticket's entry open again. It fails only if an allocation fails, and then returns
    /// the ticket.
    pub fn back<R: Wait>(
        &self,
        rt: &R,
        seat: &mut Seat<K, L, S, D, B>,
        ticket: Ticket<N>,
    ) -> Result<(), Ticket<N>>
        ensures counts { CountsBack seat.old seat.new result }
        ensures ticket { IfErr result (λ back. back ≡ ticket) }
    {
        let done = self.counted.lock(rt).back(seat, ticket);
        if done.is_ok() {
            self.waiting.fetch_add(1, Ordering::SeqCst);
            self.out.fetch_sub(1, Ordering::SeqCst);
        }
        done
    }

    /// The desk, for all seats. Its log has as many events of each kind as the seats have
    /// counted.
    pub fn close(self, seats: Vec<Seat<K, L, S, D, B>>) -> Desk<N>
        requires some { 0 < length seats.items }
        requires all { (length seats.items ≡ K.parts) × (length seats.items ≡ L.parts)
            × (length seats.items ≡ S.parts) × (length seats.items ≡ D.parts)
            × (length seats.items ≡ B.parts) }
        ensures { HaveSums seats.items (takes_in result.log) (looks_in result.log)
            (splits_in result.log) (finishes_in result.log) (backs_in result.log) }
    {
        let Board { counted, .. } = self;
        let mut shares = all_shares(seats);
        counted.into_inner().close(&mut shares)
    }
}
