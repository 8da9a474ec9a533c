//! The numbers that were chosen by measurement. They change how long a round takes, and not what it
//! finds.

/// How many jobs for each worker are to wait. With more, workers split jobs for nothing; with
/// fewer, some have nothing to do.
pub(crate) const AHEAD: u64 = 4;

/// While fewer jobs than this wait for each worker, longer jobs are split too.
pub(crate) const SCARCE: u64 = 2;

/// How many numbers a job may have that is split.
#[derive(Clone, Copy)]
pub(crate) struct Longest {
    /// While jobs are scarce: nearly any job is then split, so that no worker waits.
    pub scarce: u64,
    /// While jobs are not scarce, but fewer wait than are to.
    pub few: u64,
    /// In that case, if there are many workers, which need more jobs.
    pub few_for_many: u64,
    /// Although enough jobs wait, if the job is large.
    pub large: u64,
}

pub(crate) const LONGEST: Longest = Longest {
    scarce: 30,
    few: 18,
    few_for_many: 24,
    large: 15,
};

/// From this number of other workers on, there are many.
pub(crate) const MANY_OTHERS: u64 = 8;

/// From this number of chambers on, a job of a few numbers may have more under it than all other
/// jobs of its round. So it is split although enough jobs wait.
pub(crate) const LARGE: u32 = 16;

/// How often a worker looks for a job that is open, while none is just being split, before it is
/// through: some 50 microseconds. With more, processors are busy with nothing at the end of a
/// round; with fewer, a worker ends just before another one has jobs for it.
pub(crate) const LOOKS: u32 = 2000;

/// How often it looks at all: some seconds.
pub(crate) const MOST_LOOKS: u32 = 100_000_000;
