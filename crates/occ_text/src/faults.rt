//! What can go wrong where a text is read or written: for each kind of call the faults that it may have, and no others.

ghost use Rattle.std.specs.Prelude.{◌≡◌, Ok, IfOk};
ghost use Rattle.occ_text.specs.declared.faults.LineFault.TheVariants as line_faults;
ghost use Rattle.occ_text.specs.declared.faults.ReadFault.TheVariants as read_faults;
ghost use Rattle.occ_text.specs.declared.faults.WriteFault.TheVariants as write_faults;
ghost use Rattle.occ_text.specs.Faults.{read_fault, fault_at, told};

use crate::tokens::Unread;
use std::alloc::{AllocError, AllocFailed};

/// The reader failed.
#[derive(Clone, Copy, Debug, PartialEq, Eq)]
pub struct ReadFailed;

/// The writer failed, or took nothing.
#[derive(Clone, Copy, Debug, PartialEq, Eq)]
pub struct WriteFailed;

/// Why a line wasn't taken, by a call that takes no memory.
#[derive(Clone, Copy, Debug, PartialEq, Eq)]
pub enum LineFault {
    /// The reader failed.
    Read,
    /// 2^64 - 1 lines were taken, and no further one has a number.
    TooManyLines,
    /// What stands at the line of this number, counted from 1, can't stand there.
    Malformed(u64),
}

/// Why lines weren't taken, by a call that keeps what they tell.
#[derive(Clone, Copy, Debug, PartialEq, Eq)]
pub enum ReadFault {
    /// The reader failed.
    Read,
    /// 2^64 - 1 lines were taken, and no further one has a number.
    TooManyLines,
    /// What stands at the line of this number, counted from 1, can't stand there.
    Malformed(u64),
    /// Memory was refused.
    Memory,
}

/// Why not all of a text was written.
#[derive(Clone, Copy, Debug, PartialEq, Eq)]
pub enum WriteFault {
    /// The writer failed, or took nothing.
    Write,
    /// Memory was refused.
    Memory,
}

impl From<ReadFailed> for LineFault {
    ghost from_gives = { λ _ fault. fault ≡ line_faults.Read };

    fn from(_failed: ReadFailed) -> LineFault {
        LineFault::Read
    }
}

impl From<LineFault> for ReadFault {
    ghost from_gives = { λ line fault. fault ≡ read_fault line };

    fn from(line: LineFault) -> ReadFault {
        match line {
            LineFault::Read => ReadFault::Read,
            LineFault::TooManyLines => ReadFault::TooManyLines,
            LineFault::Malformed(number) => ReadFault::Malformed(number),
        }
    }
}

impl From<AllocError> for ReadFault {
    ghost from_gives = { λ _ fault. fault ≡ read_faults.Memory };

    fn from(_refused: AllocError) -> ReadFault {
        ReadFault::Memory
    }
}

impl<T: Drop> From<AllocFailed<T>> for ReadFault {
    ghost from_gives = { λ _ fault. fault ≡ read_faults.Memory };

    fn from(_refused: AllocFailed<T>) -> ReadFault {
        ReadFault::Memory
    }
}

impl From<WriteFailed> for WriteFault {
    ghost from_gives = { λ _ fault. fault ≡ write_faults.Write };

    fn from(_failed: WriteFailed) -> WriteFault {
        WriteFault::Write
    }
}

impl From<AllocError> for WriteFault {
    ghost from_gives = { λ _ fault. fault ≡ write_faults.Memory };

    fn from(_refused: AllocError) -> WriteFault {
        WriteFault::Memory
    }
}

// What a line that wasn't read ends a call with.
fn fault_at(unread: Unread, line: u64) -> ReadFault
    ensures { result ≡ fault_at unread line }
{
    match unread {
        Unread::Malformed => ReadFault::Malformed(line),
        Unread::Memory => ReadFault::Memory,
    }
}

/// What was read of the line of a number, or the fault that it is.
pub fn read_at_line<T: Drop>(read: Result<T, Unread>, number: u64) -> Result<T, ReadFault>
    ensures taken { IfOk result (λ value. read ≡ Ok value) }
    ensures exact { result ≡ told read number }
{
    match read {
        Ok(value) => Ok(value),
        Err(unread) => Err(fault_at(unread, number)),
    }
}
