//! The front machine: the jobs of a catalogue on their way from open to done, and what finds their
//! members.
//!
//! A catalogue that workers share, and that may stop and be resumed, rests on one small machine.
//! Its entries are the jobs of an opening, in order. An entry is open, out (a worker has it), or
//! done, with the members under it. Nine events may happen:
//!
//! 1. An open entry is taken.
//! 2. A worker looks and finds none.
//! 3. An entry that is out is split into its children, which take its place.
//! 4. An entry that is out is finished.
//! 5. An entry that is out is given back.
//! 6. The first entry, done, is emitted.
//! 7. The first members of the first entry are emitted.
//! 8. The lines and the position are saved.
//! 9. The machine goes back to what was saved.
//!
//! The definition (`specs/Machine`, `Allowed`, `Step`) says what each event needs and does,
//! and `IsRun` where a list of events leads.
//!
//! The law `a_run_covers_its_opening` has no other premise than this. Whatever the events, what was
//! emitted is what the opening has from the given position to where the machine stands, ascending,
//! each with its line. What the entries still have is the rest.
//!
//! `Front` is that machine in code. It does not copy members. `Members` are spans that follow each
//! other, each a `SymbolList` or a part of one, and a list may have several owners. So a list is in
//! an entry and in a log at once. The lists that a round brings back for one job are joined by
//! putting their spans side by side, and members are left out or cut off by moving the ends of
//! spans.
//!
//! With the opening of a request and from the beginning on, what a front emits are the first
//! members of the catalogue (`a_front_emits_the_first_members` of dd_branch). What is held all
//! through a run (`IsHeld`) is public, so that a loop that also absorbs rounds can carry it.
#![tactic(auto)]

mod emission;
mod entry;
mod entry_list;
mod event;
mod finder;
mod front;
mod job_list;
mod joined_lists;
mod laws;
mod listed_jobs;
mod lookups;
mod members;
mod naming;
mod opening;
mod rounds;
mod saved;
mod span;
mod steps;
mod ticket;

pub use entry::{Entry, State};
pub use event::Event;
pub use finder::Finder;
pub use front::Front;
pub use job_list::JobList;
pub use laws::{
    a_machine_is_held_at_its_opening, a_machine_stands_at_one_position, a_run_covers_its_opening,
    absorbing_keeps_what_is_held, an_event_keeps_what_is_held, what_is_held_is_covered,
};
pub use members::Members;
pub use naming::Naming;
pub use span::Span;
pub use ticket::{Taken, Ticket};
