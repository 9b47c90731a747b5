//! How tries and clients end.

ghost use Rattle.std.specs.Prelude.{◌≡◌};
ghost use Rattle.occ_run.specs.Clients.{IsUnmade, not_handed_in, try_of};

use occ_store::Ended;
use occ_types::Fault;

/// How a client ended.
#[derive(Clone, Copy, Debug, PartialEq, Eq)]
pub(crate) enum End {
    /// It never began.
    Unstarted,
    /// Its transactions are over, and its session is closed.
    Closed,
    /// It gave up.
    GaveUp,
    /// It gave up for want of memory.
    Starved,
}

/// Why a client gives up.
#[derive(Clone, Copy, Debug, PartialEq, Eq)]
pub(crate) enum Stop {
    /// Its patience is used up, or all were told to give up.
    Patience,
    /// A request for memory was refused.
    Memory,
}

impl From<Fault> for Stop {
    ghost use Rattle.occ_run.specs.Clients.{IsStopOf};

    ghost from_gives = { IsStopOf };

    fn from(fault: Fault) -> Stop {
        if fault == Fault::Memory {
            Stop::Memory
        } else {
            Stop::Patience
        }
    }
}

/// Why a try doesn't hand in its transaction.
#[derive(Clone, Copy, Debug, PartialEq, Eq, Drop)]
pub(crate) enum Failure {
    /// One of its operations was refused, by another fault than for want of memory.
    Refused(Fault),
    /// The client gives up.
    Stopped(Stop),
}

impl From<Fault> for Failure {
    ghost use Rattle.occ_run.specs.Clients.{failing};

    ghost from_gives = { failing };

    fn from(fault: Fault) -> Failure {
        Failure::Stopped(Stop::from(fault))
    }
}

/// What came of a try of a transaction.
#[derive(Clone, Copy, Debug, PartialEq, Eq)]
pub(crate) enum Try {
    /// One of its operations was refused, and it was abandoned.
    Refused,
    /// It was handed in, and committed.
    Committed,
    /// It was handed in, and backed up.
    BackedUp,
}

/// What a refused operation comes to: for want of memory the client gives up.
pub(crate) fn unmade(fault: Fault) -> Failure
    ensures { IsUnmade fault result }
{
    if fault == Fault::Memory {
        Failure::Stopped(Stop::Memory)
    } else {
        Failure::Refused(fault)
    }
}

/// What came of a try that handed in nothing: one of its operations was refused, or the client gives up.
pub(crate) fn not_handed_in(failure: Failure) -> Result<Try, Stop>
    ensures { result ≡ not_handed_in failure }
{
    match failure {
        Failure::Refused(_) => Ok(Try::Refused),
        Failure::Stopped(stop) => Err(stop),
    }
}

/// What came of a try that was handed in, by how it ended.
pub(crate) fn tried(ended: Ended<()>) -> Try
    ensures { result ≡ try_of ended }
{
    match ended {
        Ended::Committed { .. } => Try::Committed,
        Ended::BackedUp(_) => Try::BackedUp,
    }
}
