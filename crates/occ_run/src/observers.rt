//! Whoever watches a run.

/// How far a run has come.
#[derive(Clone, Copy, Debug, PartialEq, Eq)]
pub struct Progress {
    /// How many sessions are not closed yet.
    pub sessions: u64,
    /// How many transactions are over: committed or backed up, each try for itself.
    pub settled: u64,
    /// How many of these were backed up.
    pub backed_up: u64,
    /// How many tries followed a back-up.
    pub retried: u64,
    /// How many transactions were handed in to run alone.
    pub alone: u64,
}

/// Watches a run. It is asked on the thread that waits for the others, outside of every lock, by a shared reference: what it counts stands
/// in atomic words of its own.
pub trait Observer {
    /// Sees how far the run has come, and answers after how many microseconds it wants to see it again, at most a second; none where it
    /// wants to see no more. It sees the end too, unless it wanted no more before.
    fn see(&self, progress: Progress) -> Option<u64>;
}

/// The observer that wants to see nothing.
#[derive(Clone, Copy, Debug)]
pub struct Unwatched;

impl Observer for Unwatched {
    fn see(&self, _progress: Progress) -> Option<u64> {
        None
    }
}
