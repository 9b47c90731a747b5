//! Checkpoints that a client or a worker makes by itself, after each so many of its commits.
ghost use Rattle.std.specs.Prelude.{◌≡◌};
ghost use Rattle.occ_core.specs.AutoCheckpoints.{no_checkpoints, is_due, due_each, counted, checked_point};

use occ_types::Fault;

/// After how many commits a checkpoint is usually made, where the log is to be short.
pub const SHORT_LOG: u64 = 500;

/// After how many commits that is, as the number that it is.
pub fn short_log_is_this()
    ensures { SHORT_LOG ≡ 500 }
{}

/// A checkpoint after each so many commits: after how many, if at all, and how many there were since the last one.
#[derive(Clone, Copy, Debug)]
pub struct AutoCheckpoint {
    each: Option<u64>,
    since: u64,
}

impl AutoCheckpoint {
    /// None is ever due, and no commit was counted.
    pub fn off() -> AutoCheckpoint
        ensures { result ≡ no_checkpoints }
    {
        AutoCheckpoint {
            each: None,
            since: 0,
        }
    }

    /// From now on a checkpoint is due after each so many commits, where 0 stands for 1, and none where it is none. The commits that were
    /// counted so far count.
    pub fn set(&mut self, commits: Option<u64>)
        ensures { self.new ≡ due_each commits self.old }
    {
        self.each = match commits {
            Some(0) => Some(1),
            commits => commits,
        };
    }

    /// After how many commits a checkpoint is due; none where none ever is.
    pub fn each(&self) -> Option<u64>
        ensures { result ≡ self.now.each }
    {
        self.each
    }

    /// How many commits there were since the last checkpoint.
    pub fn since(&self) -> u64
        ensures { result ≡ self.now.since }
    {
        self.since
    }

    /// Whether a checkpoint is due.
    pub fn is_due(&self) -> bool
        ensures { result ≡ is_due self.now }
    {
        match self.each {
            Some(commits) => commits <= self.since,
            None => false,
        }
    }

    /// Counts a commit.
    pub fn count(&mut self)
        ensures { self.new ≡ counted self.old }
    {
        if self.since < u64::MAX {
            self.since += 1;
        }
    }

    /// Begins the count anew where a checkpoint was due and was made, as its result says.
    pub fn note(&mut self, made: &Option<Result<usize, Fault>>)
        ensures { self.new ≡ checked_point made.now self.old }
    {
        if let Some(Ok(_)) = made {
            self.since = 0;
        }
    }
}
