ghost use Rattle.std.specs.Prelude.{◌≡◌, ◌≢◌, ◌↔◌, ◌+◌, ◌<◌, ◌≤◌, ◌^◌, length, IsTrue, IfOk, OnOk, OnErr, MatchOption};

use crate::entry::{Entry, State};
use crate::listed_jobs::listed;
use crate::lookups::{first_open, place_near, shut_after};
use crate::members::Members;
use dd_model::{Job, Memory};
use std::alloc::Global;
use std::marker::Model;
use std::mem;

/// Entries in order, with numbers of their own. The first one can leave without memory.
#[derive(Drop)]
pub(crate) struct EntryList {
    /// The entries, after those that have left.
    all: Vec<Entry>,
    /// How many have left.
    gone: usize,
    /// None of the first `shut` entries that are kept is open.
    shut: usize,
}

impl Model for EntryList {
    ghost use Rattle.std.specs.Prelude.{List, drop};
    ghost use Rattle.dd_front.specs.declared.entry.Entry.{Entry as Row};

    ghost Value = { List Row };

    ghost use Rattle.dd_front.specs.Shut.{IsEntryList};

    ghost view = { λ a. drop a.gone a.all.items };

    ghost invariant = { λ a. IsEntryList a.all.items a.gone a.shut };
}

impl EntryList {
    ghost use Rattle.dd_model.specs.declared.jobs.Job.{Job as Part};
    ghost use Rattle.dd_front.specs.Machine.{entry_of, open_entries};
    ghost use Rattle.std.specs.List.{AllByRecursion, Contains, splice};
    ghost use Rattle.dd_front.specs.Rounds.{IsFirstOpen};
    ghost use Rattle.dd_front.specs.Numbers.{HaveOwnNumbers, AreBelow};
    ghost use Rattle.dd_front.specs.Places.{IsPlaceOf, HasNoneOf, IsEntryOf, with_state_at};
    ghost use Rattle.dd_front.specs.Joining.{done_with};
    ghost use Rattle.dd_front.specs.Step.{with_state, split_entries};
    ghost use Rattle.dd_front.specs.Taken.{BeginsDone, BeginsNotDone};

    /// Open entries of these jobs, numbered from 1 on.
    pub fn of_jobs(alloc: Global, jobs: Vec<Job>) -> Result<EntryList, Memory>
        ensures { IfOk result (λ entries. entries ≡ open_entries 1 jobs.items) }
    {
        Ok(EntryList {
            all: listed(alloc, 1, jobs)?,
            gone: 0,
            shut: 0,
        })
    }

    /// The entries in order.
    pub fn as_slice(&self) -> &[Entry]
        ensures entries { result.now ≡ self.now }
        ensures numbers { HaveOwnNumbers self.now }
    {
        &self.all[self.gone..]
    }

    /// The entries in order, which the list has no more.
    pub fn into_vec(self) -> Vec<Entry>
        ensures { result.items ≡ self }
    {
        let EntryList {
            mut all,
            gone,
            shut: _,
        } = self;
        let _ = all.drain(..gone);
        all
    }

    /// The first open entry.
    pub fn first_open(&self) -> Option<&Entry>
        ensures { MatchOption result (AllByRecursion (λ e. e.state ≢ State.Open) self.now)
            (λ entry. IsFirstOpen self.now entry.now) }
    {
        first_open(&self.all[self.gone + self.shut..])
    }

    /// The place of the entry of a number, counted from 0. Mostly it is that of the first open
    /// entry or of one that was taken lately, and these stand side by side.
    fn place_of(&self, number: u64) -> Option<usize>
        ensures place { MatchOption result (HasNoneOf number self.now)
            (IsPlaceOf number self.now) }
        ensures numbers { HaveOwnNumbers self.now }
    {
        place_near(self.as_slice(), number, self.shut)
    }

    /// The entry of a number.
    pub fn get(&self, number: u64) -> Option<&Entry>
        ensures { MatchOption result (HasNoneOf number self.now)
            (λ entry. IsEntryOf number self.now entry.now) }
    {
        let place = self.place_of(number)?;
        Some(&self.as_slice()[place])
    }

    /// Returns whether the entry of a number is open.
    pub fn has_open(&self, number: u64) -> bool
        ensures { IsTrue result
            ↔ ((job : Part) × Contains self.now (entry_of number job State.Open)) }
    {
        match self.get(number) {
            Some(entry) => entry.state.is_open(),
            None => false,
        }
    }

    /// Returns whether the entry of a number is out.
    pub fn has_out(&self, number: u64) -> bool
        ensures { IsTrue result
            ↔ ((job : Part) × Contains self.now (entry_of number job State.Out)) }
    {
        match self.get(number) {
            Some(entry) => entry.state.is_out(),
            None => false,
        }
    }

    /// Gives the entry at a place, counted from 0, another state.
    pub fn put_state(&mut self, place: usize, state: State)
        requires { place < length self.old }
        ensures { self.new ≡ with_state_at place state self.old }
    {
        let at = self.gone + place;
        self.shut = shut_after(self.as_slice(), self.shut, place, &state);
        let _ = mem::replace(&mut self.all[at].state, state);
    }

    /// Gives the entry of a number another state. The number 0 changes nothing.
    pub fn set_state(&mut self, number: u64, state: State)
        ensures { self.new ≡ with_state number state self.old }
    {
        if let Some(place) = self.place_of(number) {
            self.put_state(place, state);
        }
    }

    /// The first entries are done with these lists.
    pub fn put_lists(&mut self, lists: Vec<Members>)
        requires { length lists.items ≤ length self.old }
        ensures { self.new ≡ done_with lists.items self.old }
    {
        let mut place = 0;
        for list in lists {
            self.put_state(place, State::Done(list));
            place += 1;
        }
    }

    /// Frees the entries that have left, if they are more than half of the list. So a list has at
    /// most twice as many entries as were kept at once. It moves at most one for each that it
    /// frees.
    fn free_gone(&mut self)
        ensures { self.new ≡ self.old }
    {
        if self.gone > self.all.len() / 2 {
            let _ = self.all.drain(..self.gone);
            self.gone = 0;
        }
    }

    /// Puts entries in the place of one.
    fn replace(&mut self, place: usize, entries: Vec<Entry>) -> Result<(), Memory>
        requires place { place < length self.old }
        requires numbers { HaveOwnNumbers (splice self.old place (place + 1) entries.items) }
        ensures entries { OnOk result
            (self.new ≡ splice self.old place (place + 1) entries.items) }
        ensures same { OnErr result (self.new ≡ self.old) }
    {
        let at = self.gone + place;
        let _ = self.all.splice(at..at + 1, entries)?;
        self.shut = self.shut.min(place);
        Ok(())
    }

    /// Puts open entries for jobs, numbered from `next` on, in the place of the one of a number.
    /// The number 0 changes nothing.
    pub fn split(
        &mut self,
        alloc: Global,
        number: u64,
        next: u64,
        jobs: Vec<Job>,
    ) -> Result<(), Memory>
        requires below { AreBelow next self.old }
        requires room { next + length jobs.items < 2 ^ 64 }
        ensures entries { OnOk result (self.new ≡ split_entries number next jobs.items self.old) }
        ensures numbers { HaveOwnNumbers self.old }
        ensures same { OnErr result (self.new ≡ self.old) }
    {
        self.free_gone();
        match self.place_of(number) {
            Some(place) => self.replace(place, listed(alloc, next, jobs)?),
            None => Ok(()),
        }
    }

    /// Takes the first entry off where it is done.
    pub fn take_done(&mut self) -> Option<Members>
        ensures { MatchOption result
            ((self.new ≡ self.old) × BeginsNotDone self.old)
            (λ list. BeginsDone self.old list self.new) }
    {
        let State::Done(list) = &mut self.all.get_mut(self.gone)?.state else {
            return None;
        };
        let list = mem::replace(list, Members::none(*list.allocator()));
        self.gone += 1;
        self.shut = self.shut.saturating_sub(1);
        Some(list)
    }
}
