ghost use Rattle.std.specs.Prelude.{◌≡◌, ◌≢◌, ◌⊎◌, ◌+◌, ◌<◌, ◌≤◌, ◌^◌, [], ◌∷◌, IfOk, OnOk, OnErr, IfErr, IfSome, MatchOption};
ghost use Rattle.std.specs.Prelude.{vec_len, vec_capacity};
ghost use Rattle.dd_model.specs.Request.{IsValid};
ghost use Rattle.dd_model.specs.Jobs.{AreAscendingJobs, AreApart, AreMembersUnder, AreChildren, IsJobOf};
ghost use Rattle.dd_front.specs.declared.event.Event.TheVariants.{Split, Finish, Resume};
ghost use Rattle.dd_front.specs.declared.entry.State.TheVariants.{Open, Out};
ghost use Rattle.dd_front.specs.Allowed.{IsAllowed, HasState, MaySplit, MayFinish};
ghost use Rattle.dd_front.specs.Step.{taken_numbers};
ghost use Rattle.dd_front.specs.Machine.{open_entries};
ghost use Rattle.dd_front.specs.Room.{HasRoom};
ghost use Rattle.dd_front.specs.Rounds.{IsFirstOpen};
ghost use Rattle.std.specs.List.{AllByRecursion};
ghost use Rattle.dd_board.specs.Desk.{IsDesk, IsCall, AreJobsOf, HaveJobsOf};
ghost use Rattle.dd_board.specs.Calls.{Books, Takes, BooksSplit, BooksFinish, BooksBack};
ghost use Rattle.dd_board.specs.Calls.{IsNumberWhere, IsOutWith, MaySplitNow};

use crate::copies::copy_of;
use crate::out_entries::{has_out_with, place_of_first};
use dd_front::{Entry, Event, Front, JobList, Members, Naming, Taken, Ticket};
use dd_member_lists::SymbolList;
use dd_model::{Job, Memory, Request};
use std::alloc::Global;
use std::marker::{Model, PhantomData};

/// Returns an equal event, after which a log has room for one event more.
fn copy_for(alloc: Global, log: &mut Vec<Event>, event: &Event) -> Result<Event, Memory>
    ensures log { log.new.items ≡ log.old.items }
    ensures copy { IfOk result (λ copy. copy ≡ event.now) }
    ensures room { OnOk result (vec_len log.new < vec_capacity log.new) }
{
    log.reserve(1)?;
    copy_of(alloc, event)
}

/// The front of a round's jobs, beside all events that led to it.
#[derive(Drop)]
pub struct Desk<N: Naming> {
    alloc: Global,
    front: Front,
    log: Vec<Event>,
    of: PhantomData<N>,
}

impl<N: Naming> Model for Desk<N> {
    ghost use Rattle.dd_board.specs.Desk.{DeskView};

    ghost Value = { DeskView };

    ghost use Rattle.dd_board.specs.Desk.{IsDesk};

    ghost view = { λ d. record { machine = d.front; log = d.log.items } };

    ghost invariant = { λ d. IsDesk N.request N.jobs d.front d.log.items };
}

impl<N: Naming> Desk<N> {
    /// A desk whose jobs are all open, with one resumption in its log.
    pub fn open(alloc: Global, request: Request, jobs: Vec<Job>) -> Result<Desk<N>, Memory>
        requires request { request ≡ N.request }
        requires jobs { jobs.items ≡ N.jobs }
        requires valid { IsValid request }
        requires ascending { AreAscendingJobs jobs.items }
        requires apart { AreApart jobs.items }
        requires all { AreJobsOf request jobs.items }
        ensures log { IfOk result (λ desk. desk.log ≡ Resume ∷ []) }
        ensures entries { IfOk result
            (λ desk. desk.machine.entries ≡ open_entries 1 jobs.items) }
    {
        let log = vec![in alloc; Event::Resume]?;
        let place = place_of_first(jobs.as_slice())?;
        let mut front = Front::open(alloc, request, jobs, place, 0)?;
        front.step(Event::Resume)?;
        Ok(Desk {
            alloc,
            front,
            log,
            of: PhantomData,
        })
    }

    /// The entries in order.
    pub fn entries(&self) -> &[Entry]
        ensures same { result.now ≡ self.now.machine.entries }
        ensures desk { IsDesk N.request N.jobs self.now.machine self.now.log }
        ensures request { self.now.machine.request ≡ N.request }
        ensures jobs { HaveJobsOf N.request self.now.machine.entries }
    {
        self.front.entries()
    }

    /// The entries in order, without the log.
    pub fn into_entries(self) -> Vec<Entry>
        ensures same { result.items ≡ self.machine.entries }
        ensures desk { IsDesk N.request N.jobs self.machine self.log }
    {
        self.front.into_entries()
    }

    /// The events in order.
    pub fn log(&self) -> &[Event]
        ensures { result.now ≡ self.now.log }
    {
        self.log.as_slice()
    }

    /// The first entry that is open.
    fn first_open(&self) -> Option<&Entry>
        ensures first { MatchOption result
            (AllByRecursion (λ e. e.state ≢ Open) self.now.machine.entries)
            (λ entry. IsFirstOpen self.now.machine.entries entry.now) }
        ensures valid { IsValid N.request }
        ensures number { IfSome result (λ entry. 1 ≤ entry.now.number) }
        ensures job { IfSome result (λ entry. IsJobOf N.request entry.now.job) }
    {
        self.front.first_open()
    }

    // Does an event of a worker and puts it into the log. After `Err` the desk is as before.
    fn book(&mut self, event: Event) -> Result<(), Memory>
        requires allowed { IsAllowed self.old.machine event }
        requires room { HasRoom self.old.machine event }
        requires call { IsCall event }
        ensures books { OnOk result (Books event self.old self.new) }
        ensures same { OnErr result (self.new ≡ self.old) }
    {
        let copy = copy_for(self.alloc, &mut self.log, &event)?;
        self.front.step(event)?;
        self.log.push_reserved(copy);
        Ok(())
    }

    /// Gives out the first job that is open, or books that there is none. After `Err` the desk is
    /// as before.
    pub fn take(&mut self, worker: u32) -> Result<Taken<N>, Memory>
        ensures takes { IfOk result (Takes worker self.old self.new) }
        ensures same { OnErr result (self.new ≡ self.old) }
    {
        let Some(first) = self.first_open() else {
            self.book(Event::Look { worker })?;
            return Ok(Taken::Idle);
        };
        let entry = first.number;
        let job = first.job.try_copy()?;
        self.book(Event::Take { worker, entry })?;
        Ok(Taken::Job(Ticket::new(entry, job)))
    }

    // The ticket's number where its entry is out with its job, and else 0.
    fn number_of(&self, ticket: &Ticket<N>) -> u64
        ensures number { IsNumberWhere
            (IsOutWith self.now.machine.entries ticket.now.entry ticket.now.job)
            ticket.now.entry result }
        ensures request { self.now.machine.request ≡ N.request }
    {
        if has_out_with(&self.front, ticket.entry(), ticket.job()) {
            ticket.entry()
        } else {
            0
        }
    }

    // The same where there are numbers for these jobs, and else 0.
    fn number_to_split(&self, ticket: &Ticket<N>, jobs: &[Job]) -> u64
        ensures number { IsNumberWhere
            (MaySplitNow self.now ticket.now.entry ticket.now.job jobs.now)
            ticket.now.entry result }
        ensures request { self.now.machine.request ≡ N.request }
        ensures room { self.now.machine.next + taken_numbers result jobs.now < 2 ^ 64 }
    {
        let number = self.number_of(ticket);
        if jobs.len() as u64 <= u64::MAX - self.front.next_number() {
            number
        } else {
            0
        }
    }

    // The number where the entry is out, and else 0.
    fn number_out(&self, entry: u64) -> u64
        ensures { IsNumberWhere (HasState self.now.machine entry Out) entry result }
    {
        if self.front.has_out(entry) { entry } else { 0 }
    }

    // Books that an entry becomes open ones for these jobs.
    fn book_split(&mut self, worker: u32, entry: u64, jobs: Vec<Job>) -> Result<(), Memory>
        requires allowed { (entry ≡ 0) ⊎ MaySplit self.old.machine entry jobs.items }
        requires room { self.old.machine.next + taken_numbers entry jobs.items < 2 ^ 64 }
        ensures books { OnOk result (Books (Split worker entry jobs.items) self.old self.new) }
        ensures same { OnErr result (self.new ≡ self.old) }
    {
        self.book(Event::Split {
            worker,
            entry,
            jobs: JobList::from_vec(jobs),
        })
    }

    /// Puts the jobs in the place of the ticket's. If the ticket's entry is not out with its job,
    /// or if the numbers of entries would end, books number 0. It fails only if an allocation
    /// fails: it then returns the ticket, and the desk is as before.
    pub fn split(&mut self, worker: u32, ticket: Ticket<N>, jobs: Vec<Job>) -> Result<(), Ticket<N>>
        requires { AreChildren N.request ticket.job jobs.items }
        ensures books { OnOk result
            (BooksSplit worker ticket.entry ticket.job jobs.items self.old self.new) }
        ensures same { OnErr result (self.new ≡ self.old) }
        ensures ticket { IfErr result (λ back. back ≡ ticket) }
    {
        let entry = self.number_to_split(&ticket, jobs.as_slice());
        self.book_split(worker, entry, jobs).map_err(|_| ticket)
    }

    // Books that an entry is done with a list.
    fn book_finish(&mut self, worker: u32, entry: u64, list: SymbolList) -> Result<(), Memory>
        requires { (entry ≡ 0) ⊎ MayFinish self.old.machine entry list }
        ensures books { OnOk result (Books (Finish worker entry list) self.old self.new) }
        ensures same { OnErr result (self.new ≡ self.old) }
    {
        let list = Members::new(self.alloc, list)?;
        self.book(Event::Finish {
            worker,
            entry,
            list,
        })
    }

    /// Books what was found under the ticket's job, with number 0 if the ticket's entry is not out
    /// with its job. It fails only if an allocation fails: it then returns the ticket, and the desk
    /// is as before.
    pub fn finish(
        &mut self,
        worker: u32,
        ticket: Ticket<N>,
        list: SymbolList,
    ) -> Result<(), Ticket<N>>
        requires { AreMembersUnder N.request ticket.job list }
        ensures books { OnOk result
            (BooksFinish worker ticket.entry ticket.job list self.old self.new) }
        ensures same { OnErr result (self.new ≡ self.old) }
        ensures ticket { IfErr result (λ back. back ≡ ticket) }
    {
        let entry = self.number_of(&ticket);
        self.book_finish(worker, entry, list).map_err(|_| ticket)
    }

    /// Gives an entry back where it is out, and else books number 0. After `Err` the desk is as
    /// before.
    pub fn back(&mut self, worker: u32, entry: u64) -> Result<(), Memory>
        ensures books { OnOk result (BooksBack worker entry self.old self.new) }
        ensures same { OnErr result (self.new ≡ self.old) }
    {
        let entry = self.number_out(entry);
        self.book(Event::Back { worker, entry })
    }
}
