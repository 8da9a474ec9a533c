ghost use Rattle.std.specs.Prelude.{◌≡◌, ◌≢◌, ◌↔◌, IfOk, IsTrue, MatchOption};
ghost use Rattle.dd_model.specs.Request.{IsValid};
ghost use Rattle.dd_model.specs.Position.{IsPosition};
ghost use Rattle.dd_model.specs.Jobs.{AreAscendingJobs, AreApart};
ghost use Rattle.dd_front.specs.Machine.{StandsAt, open_entries};

use crate::entry::{Entry, State};
use crate::entry_list::EntryList;
use crate::event::Event;
use crate::listed_jobs::position_of;
use crate::lookups::first_list;
use crate::opening::Opening;
use dd_model::{Job, Memory, Position, Request};
use std::alloc::Global;
use std::marker::Model;

/// The jobs of a catalogue on their way from open to done: entries in order, from which members are
/// emitted at the front.
#[derive(Drop)]
pub struct Front {
    pub(crate) alloc: Global,
    pub(crate) request: Request,
    pub(crate) opening: Opening,
    pub(crate) opened: u128,
    pub(crate) from: Position,
    pub(crate) entries: EntryList,
    pub(crate) next: u64,
    pub(crate) lines: u128,
    pub(crate) saved_lines: u128,
    pub(crate) saved_position: Position,
}

impl Model for Front {
    ghost use Rattle.dd_front.specs.Machine.{Machine};

    ghost Value = { Machine };

    ghost use Rattle.dd_front.specs.Invariant.{IsFront};

    ghost view = { λ a. record {
      request = a.request;
      opening = a.opening;
      opened = a.opened;
      from = a.from;
      entries = a.entries;
      next = a.next;
      lines = a.lines;
      saved = record { lines = a.saved_lines; position = a.saved_position };
    } };

    ghost invariant = { λ a. IsFront a.request a.opening a.next a.entries };
}

/// Returns the jobs as an opening, open entries of them, and the position of a front with these
/// entries that continues from `from`.
fn begun(
    alloc: Global,
    jobs: Vec<Job>,
    from: &Position,
) -> Result<(Opening, EntryList, Position), Memory>
    ensures opening { IfOk result (λ made. made.0 ≡ jobs.items) }
    ensures entries { IfOk result (λ made. made.1 ≡ open_entries 1 jobs.items) }
    ensures position { IfOk result (λ made. StandsAt from.now made.1 made.2) }
{
    let opening = Opening::of(alloc, &jobs)?;
    let entries = EntryList::of_jobs(alloc, jobs)?;
    let position = position_of(entries.as_slice(), from)?;
    Ok((opening, entries, position))
}

impl Front {
    ghost use Rattle.dd_front.specs.Machine.{IsOpened};
    ghost use Rattle.std.specs.List.{AllByRecursion};
    ghost use Rattle.dd_front.specs.Allowed.{HasState, IsPermitted};
    ghost use Rattle.dd_front.specs.Places.{HasNoneOf, IsEntryOf};
    ghost use Rattle.dd_front.specs.Rounds.{IsFirstOpen};

    /// Returns a front with these jobs, all open, that continues from a position after `lines`
    /// lines.
    pub fn open(
        alloc: Global,
        request: Request,
        jobs: Vec<Job>,
        from: Position,
        lines: u128,
    ) -> Result<Front, Memory>
        requires valid { IsValid request }
        requires ascending { AreAscendingJobs jobs.items }
        requires apart { AreApart jobs.items }
        requires position { IsPosition from }
        ensures { IfOk result (λ front. IsOpened request jobs.items from lines front) }
    {
        let next = jobs.len() as u64 + 1;
        let (opening, entries, position) = begun(alloc, jobs, &from)?;
        Ok(Front {
            alloc,
            request,
            opening,
            opened: lines,
            from,
            entries,
            next,
            lines,
            saved_lines: lines,
            saved_position: position,
        })
    }

    /// Returns whether an event is allowed, but for what its jobs and its list are.
    pub fn allowed(&self, event: &Event) -> bool
        ensures { IsTrue result ↔ IsPermitted self.now event.now }
    {
        let entries = self.entries.as_slice();
        match event {
            Event::Take { entry, .. } => self.entries.has_open(*entry),
            Event::Look { .. } => self.entries.first_open().is_none(),
            Event::Split { entry, .. } | Event::Finish { entry, .. } | Event::Back { entry, .. } =>
                *entry == 0 || self.has_out(*entry),
            Event::Emit => first_list(entries).is_some(),
            Event::Part { count } => match first_list(entries) {
                Some(list) => {
                    let before = list.count_before(&self.from);
                    (*count as u128) < list.len() - before
                }
                None => false,
            },
            Event::Save | Event::Resume => true,
        }
    }

    /// What is asked for.
    pub fn request(&self) -> Request
        ensures request { result ≡ self.now.request }
        ensures valid { IsValid self.now.request }
    {
        self.request
    }

    /// The entries in order.
    pub fn entries(&self) -> &[Entry]
        ensures { result.now ≡ self.now.entries }
    {
        self.entries.as_slice()
    }

    /// The entry of a number.
    pub fn entry(&self, number: u64) -> Option<&Entry>
        ensures { MatchOption result (HasNoneOf number self.now.entries)
            (λ entry. IsEntryOf number self.now.entries entry.now) }
    {
        self.entries.get(number)
    }

    /// Returns whether the entry of a number is out.
    pub fn has_out(&self, number: u64) -> bool
        ensures { IsTrue result ↔ HasState self.now number State.Out }
    {
        self.entries.has_out(number)
    }

    /// The entries in order, without the front.
    pub fn into_entries(self) -> Vec<Entry>
        ensures { result.items ≡ self.entries }
    {
        self.entries.into_vec()
    }

    /// The first open entry.
    pub fn first_open(&self) -> Option<&Entry>
        ensures { MatchOption result
            (AllByRecursion (λ e. e.state ≢ State.Open) self.now.entries)
            (λ entry. IsFirstOpen self.now.entries entry.now) }
    {
        self.entries.first_open()
    }

    /// The number of the next new entry.
    pub fn next_number(&self) -> u64
        ensures { result ≡ self.now.next }
    {
        self.next
    }

    /// How many lines came before the next symbol.
    pub fn lines(&self) -> u128
        ensures { result ≡ self.now.lines }
    {
        self.lines
    }

    /// Where the front stands.
    pub fn position(&self) -> Result<Position, Memory>
        ensures { IfOk result (λ position. StandsAt self.now.from self.now.entries position) }
    {
        position_of(self.entries.as_slice(), &self.from)
    }
}
