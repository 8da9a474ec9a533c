ghost use Rattle.std.specs.Prelude.{◌≡◌, ◌↔◌, IsTrue};

use crate::members::Members;
use dd_model::Job;

/// How far a job is.
#[derive(Drop)]
pub enum State {
    /// It waits.
    Open,
    /// A worker has it.
    Out,
    /// These are the members under it, ascending.
    Done(Members),
}

impl State {
    /// Returns whether it waits.
    pub fn is_open(&self) -> bool
        ensures { IsTrue result ↔ (self.now ≡ State.Open) }
    {
        matches!(self, State::Open)
    }

    /// Returns whether a worker has it.
    pub fn is_out(&self) -> bool
        ensures { IsTrue result ↔ (self.now ≡ State.Out) }
    {
        matches!(self, State::Out)
    }
}

/// A job with its number and its state.
#[derive(Drop)]
pub struct Entry {
    /// Entries are counted from 1.
    pub number: u64,
    /// What is looked for.
    pub job: Job,
    /// How far it is.
    pub state: State,
}
