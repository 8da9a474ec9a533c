ghost use Rattle.std.specs.Prelude.{◌≢◌, ◌≤◌, ◌<◌, List, length, MatchOption};
ghost use Rattle.std.specs.List.{AllByRecursion};
ghost use Rattle.dd_front.specs.declared.entry.Entry.{Entry as Row};
ghost use Rattle.dd_front.specs.Rounds.{IsFirstOpen};
ghost use Rattle.dd_front.specs.Numbers.{HaveOwnNumbers};
ghost use Rattle.dd_front.specs.Places.{HasNoneOf, IsPlaceOf, with_state_at};
ghost use Rattle.dd_front.specs.Shut.{IsShutTo};
ghost use Rattle.dd_front.specs.Taken.{BeginsDone, BeginsNotDone};

use crate::entry::{Entry, State};
use crate::members::Members;

/// The place of the entry of a number, counted from 0. It is looked for on both sides of a place,
/// the nearest entries first, so that one which stands near is found at once in a long list.
pub(crate) fn place_near(entries: &[Entry], number: u64, near: usize) -> Option<usize>
    requires own { HaveOwnNumbers entries.now }
    requires near { near ≤ length entries.now }
    ensures { MatchOption result (HasNoneOf number entries.now) (IsPlaceOf number entries.now) }
{
    for step in 0..entries.len() {
        if step < near && entries[near - step - 1].number == number {
            return Some(near - step - 1);
        }
        if step < entries.len() - near && entries[near + step].number == number {
            return Some(near + step);
        }
    }
    None
}

/// The first open entry.
pub(crate) fn first_open(entries: &[Entry]) -> Option<&Entry>
    ensures { MatchOption result (AllByRecursion (λ e. e.state ≢ State.Open) entries.now)
        (λ entry. IsFirstOpen entries.now entry.now) }
{
    for entry in entries {
        if entry.state.is_open() {
            return Some(entry);
        }
    }
    None
}

/// The list of the first entry, where it is done.
pub(crate) fn first_list(entries: &[Entry]) -> Option<&Members>
    ensures { MatchOption result (BeginsNotDone entries.now)
        (λ list. (rest : List Row) × BeginsDone entries.now list.now rest) }
{
    match &entries.first()?.state {
        State::Done(list) => Some(list),
        State::Open | State::Out => None,
    }
}

/// Returns a number of first entries that are not open, after the entry at a place gets a state, if
/// `shut` were not open before. There may be more.
pub(crate) fn shut_after(entries: &[Entry], shut: usize, place: usize, state: &State) -> usize
    requires shut { IsShutTo shut entries.now }
    requires place { place < length entries.now }
    ensures { IsShutTo result (with_state_at place state.now entries.now) }
{
    if state.is_open() {
        return shut.min(place);
    }
    if place >= shut && first_open(&entries[shut..place]).is_none() {
        return place + 1;
    }
    shut
}
