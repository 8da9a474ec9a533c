//! The numbers that were chosen by measurement. They change how long a run takes and how much
//! memory it needs, and not what it writes.

/// How many bytes are collected before they are written. With fewer, there are more writes; with
/// more, they take more memory.
pub(crate) const FULL: usize = 65_536;

/// How many members wait until several threads make their lines. With fewer, threads are started
/// for little, because the lists of most entries are short; with more, more members are held.
pub(crate) const BATCH: u64 = 16_384;

/// The number of members of which one thread makes the lines before it looks whether to write. With
/// more, the lines have left the processor's cache when they are written; with fewer, it looks more
/// often.
pub(crate) const PART: usize = 512;

/// How many lines a thread makes at least. With fewer, a thread is not worth its start; with more,
/// some processors have nothing to do.
pub(crate) const FEWEST: usize = 2048;

/// How many parts there are for each thread, each with a thread of its own. Equally many members
/// may take twice as long if few of them share a table. With fewer parts, the processors wait for
/// the last one; with more, more memory is kept.
pub(crate) const PARTS: usize = 2;
