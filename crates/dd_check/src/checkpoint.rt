use dd_model::{Position, Request};

/// Where a chain of runs stands.
#[derive(Drop)]
pub struct Checkpoint {
    /// The number of the run, counted from 1.
    pub run: u32,
    /// What is asked for.
    pub request: Request,
    /// How many lines the chain has written.
    pub lines: u128,
    /// How many bytes this run has written.
    pub bytes: u128,
    /// Where the next run begins.
    pub at: Position,
}

/// Which kind of texts a run resumes from.
#[derive(Clone, Copy)]
pub enum ResumeKind {
    /// Texts of catalogues.
    Catalogues,
    /// Texts of shards.
    Shards,
}
