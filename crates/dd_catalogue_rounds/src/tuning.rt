//! The numbers that were chosen by counting and by measurement. They change how long a run takes,
//! how many members it holds and where it keeps checkpoints, and not what it writes.

/// After how many lines a checkpoint is put, also in the middle of a round. With fewer, puts take a
/// part of the run's time; with more, a run that was stopped has more to do again.
pub(crate) const LINES_A_CHECKPOINT: u64 = 65_536;

/// How many workers a job may keep busy by its parts. More threads than that would be started for
/// nothing.
pub(crate) const WORKERS_A_JOB: u32 = 8;

/// How many jobs one worker does before what it found is written: few, so that few members are held
/// at once, and what is written is still near.
pub(crate) const JOBS_ALONE: u32 = 4;

/// How much the jobs of a round weigh together at most, so that a round holds few members.
pub(crate) const ROUND_WEIGHT: u64 = 64;

/// How much they weigh at most if several workers keep no checkpoint. Lighter rounds would start
/// threads for little, and heavier ones would hold more members.
pub(crate) const LONG_ROUND_WEIGHT: u64 = 128;

/// At most some ten thousand members are under a job of `n` chambers whose prefix has `5 n - L`
/// numbers. `L` depends on the least degree that is allowed: 90, 65 for degree 2, 45 for degree 1.
/// This was counted up to 30 chambers, and up to 16 with degree 1.
pub(crate) const NUMBERS_A_CHAMBER: u64 = 5;

/// A job is small if it has these numbers. From 40 numbers on, it needs only three more for each
/// chamber: else there would be about as many jobs of 36 chambers as members. So no job of an
/// opening for fewer than 20 chambers is large, but for degrees below 3.
pub(crate) const MANY_NUMBERS: u64 = 40;

/// How many more numbers for each chamber a small job needs from then on.
pub(crate) const NUMBERS_BEYOND: u64 = 3;

/// A small job lacks at most this many of the numbers of a job with some ten thousand members. So
/// its weight is at most 32, also for degrees below 3.
pub(crate) const MOST_MISSING: u64 = 20;

/// `L`, if no degree below 3 is allowed.
pub(crate) const NUMBERS_LESS: u64 = 90;

/// `L`, if degree 2 is allowed, but not 1.
pub(crate) const NUMBERS_LESS_FROM_2: u64 = 65;

/// `L`, if degree 1 is allowed.
pub(crate) const NUMBERS_LESS_FROM_1: u64 = 45;

/// If no more classes of tiles or of vertices are allowed than this, few members are under any job.
pub(crate) const FEW_CLASSES: u32 = 4;

/// With so few classes, degrees below 3 still give many members to a size from this many chambers
/// on. A job is then small if it has as many numbers as those of an opening.
pub(crate) const MANY_CHAMBERS: u32 = 13;

/// How many numbers the jobs of an opening have.
pub(crate) const NUMBERS_OF_OPENING: u64 = 9;
