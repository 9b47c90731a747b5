//! What ends an engine before its text is whole, and the exit status of each end.

ghost use Rattle.std.specs.Prelude.{◌≡◌};
ghost use Rattle.occ_text.specs.Faults.{read_fault, read_trouble, write_trouble};
ghost use Rattle.occ_text.specs.Status.{status};
ghost use Rattle.occ_text.specs.declared.trouble.Trouble.TheVariants.{Memory, Write};

use crate::faults::{LineFault, ReadFault, WriteFailed, WriteFault};
use std::alloc::{AllocError, AllocFailed};
use thiserror::Error;

/// What ended an engine.
#[derive(Clone, Copy, Debug, PartialEq, Eq, Error)]
pub enum Trouble {
    /// The reader failed.
    #[error("cannot read")]
    Read,
    /// The writer failed, or took nothing.
    #[error("cannot write")]
    Write,
    /// Memory was refused.
    #[error("no memory")]
    Memory,
    /// The line of this number, counted from 1, is none of the grammar. The number is 2^64 - 1 too where that many lines were taken:
    /// it is the last one, and no further line has a number.
    #[error("line {0}: malformed")]
    Malformed(u64),
}

impl From<AllocError> for Trouble {
    ghost from_gives = { λ _ trouble. trouble ≡ Memory };

    fn from(_refused: AllocError) -> Trouble {
        Trouble::Memory
    }
}

impl<T: Drop> From<AllocFailed<T>> for Trouble {
    ghost from_gives = { λ _ trouble. trouble ≡ Memory };

    fn from(_refused: AllocFailed<T>) -> Trouble {
        Trouble::Memory
    }
}

impl From<LineFault> for Trouble {
    ghost from_gives = { λ fault trouble. trouble ≡ read_trouble (read_fault fault) };

    fn from(fault: LineFault) -> Trouble {
        match fault {
            LineFault::Read => Trouble::Read,
            LineFault::TooManyLines => Trouble::Malformed(u64::MAX),
            LineFault::Malformed(line) => Trouble::Malformed(line),
        }
    }
}

impl From<ReadFault> for Trouble {
    ghost from_gives = { λ fault trouble. trouble ≡ read_trouble fault };

    fn from(fault: ReadFault) -> Trouble {
        match fault {
            ReadFault::Read => Trouble::Read,
            ReadFault::TooManyLines => Trouble::Malformed(u64::MAX),
            ReadFault::Malformed(line) => Trouble::Malformed(line),
            ReadFault::Memory => Trouble::Memory,
        }
    }
}

impl From<WriteFailed> for Trouble {
    ghost from_gives = { λ _ trouble. trouble ≡ Write };

    fn from(_failed: WriteFailed) -> Trouble {
        Trouble::Write
    }
}

impl From<WriteFault> for Trouble {
    ghost from_gives = { λ fault trouble. trouble ≡ write_trouble fault };

    fn from(fault: WriteFault) -> Trouble {
        match fault {
            WriteFault::Write => Trouble::Write,
            WriteFault::Memory => Trouble::Memory,
        }
    }
}

/// The exit status of an engine: 0 for a yes, 3 for a no, 1 where a device or memory failed, 2 at a malformed line.
pub fn status_of(outcome: &Result<bool, Trouble>) -> u8
    ensures { result ≡ status outcome.now }
{
    match outcome {
        Ok(true) => 0,
        Ok(false) => 3,
        Err(Trouble::Malformed(_)) => 2,
        Err(Trouble::Read | Trouble::Write | Trouble::Memory) => 1,
    }
}
