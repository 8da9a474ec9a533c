use crate::job_list::JobList;
use crate::members::Members;

/// What may happen to a front. Workers and entries are counted from 1.
#[derive(Drop)]
pub enum Event {
    /// A worker takes an open entry.
    Take {
        worker: u32,
        entry: u64,
    },
    /// A worker finds no open entry.
    Look {
        worker: u32,
    },
    /// The entry becomes open ones for these jobs.
    Split {
        worker: u32,
        entry: u64,
        jobs: JobList,
    },
    /// The entry is done with this list.
    Finish {
        worker: u32,
        entry: u64,
        list: Members,
    },
    /// The entry is open again.
    Back {
        worker: u32,
        entry: u64,
    },
    /// The first entry leaves, and its members are emitted.
    Emit,
    /// The first `count` members of the first entry are emitted.
    Part {
        count: u64,
    },
    /// The lines and the position are kept.
    Save,
    /// The front goes back to what was kept.
    Resume,
}
