ghost use Rattle.std.specs.Prelude.{◌≡◌, OnOk, OnErr, IfOk, IfErr};
ghost use Rattle.dd_model.specs.Jobs.{AreMembersUnder, AreChildren};
ghost use Rattle.dd_board.specs.Calls.{Takes, BooksSplit, BooksFinish, BooksBack};
ghost use Rattle.dd_board.specs.Shares.{HaveAmounts};
ghost use Rattle.dd_board.specs.Ledgers.{CountsTaken, CountsSplit, CountsFinish, CountsBack};
ghost use Rattle.dd_board.specs.Ledgers.{takes_in, looks_in, splits_in, finishes_in, backs_in};

use crate::books::Books;
use crate::desk::Desk;
use crate::seat::Seat;
use crate::shares::Shares;
use dd_front::{Naming, Taken, Ticket};
use dd_member_lists::SymbolList;
use dd_model::{Job, Memory};
use std::marker::Model;
use std::sync::ledger::Ledger;

/// A desk and the books of its calls.
#[derive(Drop)]
pub(crate) struct Counted<N: Naming, K: Ledger, L: Ledger, S: Ledger, D: Ledger, B: Ledger> {
    pub(crate) desk: Desk<N>,
    pub(crate) books: Books<K, L, S, D, B>,
}

impl<N: Naming, K: Ledger, L: Ledger, S: Ledger, D: Ledger, B: Ledger> Model
    for Counted<N, K, L, S, D, B> {
    ghost use Rattle.dd_board.specs.Desk.{DeskView};

    ghost Value = { DeskView };

    ghost use Rattle.dd_board.specs.Ledgers.{HaveTotals, takes_in, looks_in, splits_in, finishes_in, backs_in};

    ghost view = { λ c. c.desk };

    ghost invariant = { λ c. HaveTotals c.books (takes_in c.desk.log) (looks_in c.desk.log)
        (splits_in c.desk.log) (finishes_in c.desk.log) (backs_in c.desk.log) };
}

impl<N: Naming, K: Ledger, L: Ledger, S: Ledger, D: Ledger, B: Ledger> Counted<N, K, L, S, D, B> {
    /// Gives out the first job that is open, or books that there is none, each under the number of
    /// the seat's worker.
    pub fn take(&mut self, seat: &mut Seat<K, L, S, D, B>) -> Result<Taken<N>, Memory>
        ensures takes { IfOk result (Takes seat.old.worker self.old self.new) }
        ensures counts { CountsTaken seat.old seat.new result }
        ensures same { OnErr result (self.new ≡ self.old) }
    {
        let taken = self.desk.take(seat.worker)?;
        match &taken {
            Taken::Job(_) => self.books.take.add(&mut seat.shares.take, 1),
            Taken::Idle => self.books.look.add(&mut seat.shares.look, 1),
        }
        Ok(taken)
    }

    /// Puts the jobs in the place of the ticket's.
    pub fn split(
        &mut self,
        seat: &mut Seat<K, L, S, D, B>,
        ticket: Ticket<N>,
        jobs: Vec<Job>,
    ) -> Result<(), Ticket<N>>
        requires { AreChildren N.request ticket.job jobs.items }
        ensures books { OnOk result (BooksSplit seat.old.worker
            ticket.entry ticket.job jobs.items self.old self.new) }
        ensures counts { CountsSplit seat.old seat.new result }
        ensures same { OnErr result (self.new ≡ self.old) }
        ensures ticket { IfErr result (λ back. back ≡ ticket) }
    {
        self.desk.split(seat.worker, ticket, jobs)?;
        self.books.split.add(&mut seat.shares.split, 1);
        Ok(())
    }

    /// Books what was found under the ticket's job.
    pub fn finish(
        &mut self,
        seat: &mut Seat<K, L, S, D, B>,
        ticket: Ticket<N>,
        list: SymbolList,
    ) -> Result<(), Ticket<N>>
        requires { AreMembersUnder N.request ticket.job list }
        ensures books { OnOk result (BooksFinish seat.old.worker
            ticket.entry ticket.job list self.old self.new) }
        ensures counts { CountsFinish seat.old seat.new result }
        ensures same { OnErr result (self.new ≡ self.old) }
        ensures ticket { IfErr result (λ back. back ≡ ticket) }
    {
        self.desk.finish(seat.worker, ticket, list)?;
        self.books.finish.add(&mut seat.shares.finish, 1);
        Ok(())
    }

    /// Gives the ticket's entry back.
    pub fn back(
        &mut self,
        seat: &mut Seat<K, L, S, D, B>,
        ticket: Ticket<N>,
    ) -> Result<(), Ticket<N>>
        ensures books { OnOk result (BooksBack seat.old.worker ticket.entry self.old self.new) }
        ensures counts { CountsBack seat.old seat.new result }
        ensures same { OnErr result (self.new ≡ self.old) }
        ensures ticket { IfErr result (λ back. back ≡ ticket) }
    {
        let Ok(()) = self.desk.back(seat.worker, ticket.entry()) else {
            return Err(ticket);
        };
        self.books.back.add(&mut seat.shares.back, 1);
        Ok(())
    }

    /// The desk, with all shares of its ledgers.
    pub fn close(self, shares: &mut Shares<K, L, S, D, B>) -> Desk<N>
        requires { (shares.old.take.parts ≡ K.parts) × (shares.old.look.parts ≡ L.parts)
            × (shares.old.split.parts ≡ S.parts) × (shares.old.finish.parts ≡ D.parts)
            × (shares.old.back.parts ≡ B.parts) }
        ensures same { result ≡ self }
        ensures counts { HaveAmounts shares.old (takes_in result.log) (looks_in result.log)
            (splits_in result.log) (finishes_in result.log) (backs_in result.log) }
    {
        let Counted { desk, mut books } = self;
        books.audit(shares);
        desk
    }
}
