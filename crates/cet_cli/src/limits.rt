//! The limits of what words may say.

/// The most records that the limit of a run allows, and its limit where no option says another.
pub(crate) const MOST_RECORDS: u32 = 100_000;

/// The most processors of a run.
pub(crate) const MOST_PROCS: u8 = 8;

/// The most swaps of the bench.
pub(crate) const MOST_SWAPS: u32 = 1_000;

/// The most workers of a threaded run.
pub(crate) const MOST_WORKERS: u32 = 16;

/// The highest number of a thread.
pub(crate) const LAST_THREAD: u64 = 31;

/// The highest number of a signal.
pub(crate) const LAST_SIGNAL: u64 = 31;

/// The most signals of a list.
pub(crate) const MOST_SIGNALS: usize = 256;

/// The most items of a list of turns.
pub(crate) const MOST_REPEATS: usize = 10_000;

/// The most turns of a list, all items together.
pub(crate) const MOST_TURNS: u32 = 1_000_000;
