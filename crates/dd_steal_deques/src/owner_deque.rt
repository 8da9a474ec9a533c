ghost use Rattle.std.specs.Prelude.{◌≡◌, ◌+◌, ◌-◌, ◌<◌, ◌≤◌, ◌↔◌, IfOk, IfErr, OnOk, OnErr, IfNone, IsErr, MatchOption};
ghost use Rattle.crossbeam_deque.specs.Handles.{worker_view};
ghost use Rattle.dd_steal_deques.specs.Numbers.{TookAll};
ghost use Rattle.dd_steal_deques.specs.Ends.{owner_deque, owner_passes, owner_taken, SameOwner, way_deque, way_taken};

use crate::owner::Owner;
use crate::slot::{Passes, Popped, Pushed, Slot};
use crate::way::Way;
use crossbeam_deque::Worker;
use dd_front::{Naming, Ticket};
use dd_model::Memory;
use std::alloc::Global;

impl<N: Naming> Owner<N> {
    /// Returns a deque with room for `room` pushes.
    pub(crate) fn open(alloc: Global, room: u32) -> Result<Owner<N>, Memory>
        ensures room { IfOk result (λ owner. owner.room ≡ room) }
        ensures pushed { IfOk result (λ owner. owner.pushed ≡ 0) }
        ensures taken { IfOk result (λ owner. owner_taken owner ≡ 0) }
        ensures passes { IfOk result (λ owner. owner_passes owner ≡ 0) }
    {
        let own = Worker::fifo_as(alloc, room as usize)?;
        Ok(Owner {
            own,
            room,
            pushed: 0,
        })
    }

    /// Puts the ticket at the end. It is refused exactly where `room` tickets were pushed.
    pub(crate) fn push(&mut self, ticket: Ticket<N>) -> Result<(), Ticket<N>>
        ensures refused { IsErr result ↔ (self.old.pushed ≡ self.old.room) }
        ensures ticket { IfErr result (λ back. back ≡ ticket) }
        ensures pushed { OnOk result (self.new.pushed ≡ self.old.pushed + 1) }
        ensures err { OnErr result (self.new.pushed ≡ self.old.pushed) }
        ensures taken { owner_taken self.new ≡ owner_taken self.old }
        ensures same { SameOwner self.old self.new }
    {
        if self.pushed == self.room {
            return Err(ticket);
        }
        let slot = Slot {
            number: self.pushed + 1,
            ticket,
        };
        match self.own.push_as::<Pushed>(slot) {
            Ok(()) => {
                self.pushed += 1;
                Ok(())
            }
            Err(_) => unreachable!(),
        }
    }

    /// Takes the first ticket. Without other passes `None` says that all that was pushed was taken.
    pub(crate) fn pop(&mut self) -> Option<Ticket<N>>
        ensures pushed { self.new.pushed ≡ self.old.pushed }
        ensures taken { MatchOption result (owner_taken self.new ≡ owner_taken self.old)
            (λ _. owner_taken self.new ≡ owner_taken self.old + 1) }
        ensures within { MatchOption result
            (owner_passes self.old ≡ 0 → owner_taken self.old ≡ self.old.pushed)
            (λ _. owner_taken self.old < self.old.pushed) }
        ensures all { IfNone result (TookAll (worker_view self.new.own)) }
        ensures same { SameOwner self.old self.new }
    {
        let slot = self.own.pop_as::<Popped>()?;
        let Slot { number: _, ticket } = slot;
        Some(ticket)
    }

    /// A way into the deque, which has the number `from`.
    pub(crate) fn way(&mut self, from: u32) -> Result<Way<N>, Memory>
        ensures from { IfOk result (λ way. way.from ≡ from) }
        ensures deque { IfOk result (λ way. way_deque way ≡ owner_deque self.old) }
        ensures none { IfOk result (λ way. way_taken way ≡ 0) }
        ensures passes { OnOk result (owner_passes self.new ≡ owner_passes self.old + 1) }
        ensures taken { owner_taken self.new ≡ owner_taken self.old }
        ensures same { (owner_deque self.new ≡ owner_deque self.old)
            × (self.new.room ≡ self.old.room) × (self.new.pushed ≡ self.old.pushed) }
    {
        let stealer = self.own.stealer()?;
        let pass = self.own.another::<Passes>();
        Ok(Way {
            from,
            stealer,
            pass,
        })
    }

    /// What was taken by the way joins what the owner took.
    pub(crate) fn join(&mut self, way: Way<N>)
        requires { way_deque way ≡ owner_deque self.old }
        ensures passes { owner_passes self.new ≡ owner_passes self.old - 1 }
        ensures taken { owner_taken self.new ≡ owner_taken self.old + way_taken way }
        ensures same { (owner_deque self.new ≡ owner_deque self.old)
            × (self.new.room ≡ self.old.room) × (self.new.pushed ≡ self.old.pushed) }
    {
        let Way {
            from: _,
            stealer: _,
            pass,
        } = way;
        self.own.absorb::<Passes>(pass);
    }
}
