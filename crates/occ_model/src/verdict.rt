//! How a validation ends.

/// Why a transaction is backed up.
#[derive(Clone, Copy, Debug, PartialEq, Eq)]
pub enum Cause {
    /// The writes of an opponent meet what it read, or those of an active opponent meet what it writes.
    Conflict,
    /// It began before the window: the write sets to test it against are no longer kept.
    TooOld,
}

/// What the validation of a transaction says.
#[derive(Clone, Copy, Debug, PartialEq, Eq)]
pub enum Verdict {
    /// It commits.
    Commit,
    /// It is backed up, for this cause.
    BackUp(Cause),
}
