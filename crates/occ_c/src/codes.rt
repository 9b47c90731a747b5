//! The numbers that C gets.
ghost use Rattle.std.specs.Prelude.{◌≡◌};
ghost use Rattle.occ_c.specs.Codes.{answered, cause_code, code_of, fault_code, line_of, missed_code, telling, trouble_code, unread_code};

use occ_bytes::Unread;
use occ_client::Cause;
use occ_sharing::Missed;
use occ_text::trouble::Trouble;
use occ_types::Fault;

/// The call did what it is for.
pub(crate) const OK: i32 = 0;
/// The transaction was backed up for a conflict.
pub(crate) const CONFLICT: i32 = 100;
/// The transaction was backed up since it began too long ago.
pub(crate) const TOO_OLD: i32 = 101;
/// There is no row under the key.
pub(crate) const NO_ROW: i32 = 102;
/// The room is too short; the size that is needed is told.
pub(crate) const ROOM: i32 = 103;
/// Bytes or a text that are none of the grammar.
pub(crate) const MALFORMED: i32 = 104;
/// The store has ended.
pub(crate) const CLOSED: i32 = 105;
/// Another worker has the core: nothing was done.
pub(crate) const AGAIN: i32 = 107;
/// The bytes of a text are not UTF-8.
pub(crate) const NOT_UTF8: i32 = 108;
/// There is no such answer.
pub(crate) const NO_ANSWER: i32 = 109;

/// The code of a fault: 1 to 28, as texts number them.
pub(crate) fn of_fault(fault: Fault) -> i32
    ensures { result ≡ fault_code fault }
{
    match fault {
        Fault::NoTable => 1,
        Fault::WrongKind => 2,
        Fault::WrongColumns => 3,
        Fault::TooLong => 4,
        Fault::EmptyRange => 5,
        Fault::BadSchema => 6,
        Fault::SetFull => 7,
        Fault::Memory => 8,
        Fault::QueueFull => 9,
        Fault::Closed => 10,
        Fault::NumbersExhausted => 11,
        Fault::NoSession => 12,
        Fault::SessionClosed => 13,
        Fault::OutOfTurn => 14,
        Fault::SessionBusy => 15,
        Fault::FutureStart => 16,
        Fault::StartDiffers => 17,
        Fault::NothingEntered => 18,
        Fault::NotDecided => 19,
        Fault::AlreadyDecided => 20,
        Fault::WritesLeft => 21,
        Fault::LogFull => 22,
        Fault::CounterExhausted => 23,
        Fault::RangeTooLarge => 24,
        Fault::StoreBusy => 25,
        Fault::WrongCase => 26,
        Fault::ReadOpen => 27,
        Fault::NoReadOpen => 28,
    }
}

/// The code of bytes that are not read.
pub(crate) fn of_unread(unread: Unread) -> i32
    ensures { result ≡ unread_code unread }
{
    match unread {
        Unread::Malformed => MALFORMED,
        Unread::NotUtf8 => NOT_UTF8,
        Unread::Memory => of_fault(Fault::Memory),
    }
}

/// The code of a call that did nothing.
pub(crate) fn of_missed(missed: Missed) -> i32
    ensures { result ≡ missed_code missed }
{
    match missed {
        Missed::Again => AGAIN,
        Missed::Ended => CLOSED,
    }
}

/// The code of a back-up.
pub(crate) fn of_cause(cause: Cause) -> i32
    ensures { result ≡ cause_code cause }
{
    match cause {
        Cause::Conflict => CONFLICT,
        Cause::TooOld => TOO_OLD,
    }
}

/// The code of what ended an engine that reads and writes in memory.
pub(crate) fn of_trouble(trouble: Trouble) -> i32
    ensures { result ≡ trouble_code trouble }
{
    match trouble {
        Trouble::Malformed(_) | Trouble::Read => MALFORMED,
        Trouble::Memory | Trouble::Write => 8,
    }
}

/// The line of a text that is none of the grammar, or 0.
pub(crate) fn line_of(trouble: Trouble) -> u64
    ensures { result ≡ line_of trouble }
{
    match trouble {
        Trouble::Malformed(line) => line,
        _ => 0,
    }
}

/// Whether a call did it, and else its code.
pub(crate) fn of_done(done: Result<Result<(), Fault>, Missed>) -> Result<(), i32>
    ensures { result ≡ answered done }
{
    match done {
        Ok(Ok(())) => Ok(()),
        Ok(Err(fault)) => Err(of_fault(fault)),
        Err(missed) => Err(of_missed(missed)),
    }
}

/// The value of a call that did what it is for, and else its code.
pub(crate) fn answered<T: Drop>(came: Result<Result<T, Fault>, Missed>) -> Result<T, i32>
    ensures { result ≡ answered came }
{
    match came {
        Ok(Ok(made)) => Ok(made),
        Ok(Err(fault)) => Err(of_fault(fault)),
        Err(missed) => Err(of_missed(missed)),
    }
}

/// The code of a call, which tells its value where it did what it is for.
pub(crate) fn told<T: Drop>(came: Result<T, i32>, value: &mut T) -> i32
    ensures { (result, value.new) ≡ telling value.old came }
{
    match came {
        Ok(made) => {
            *value = made;
            OK
        }
        Err(code) => code,
    }
}

/// The code of a call that tells nothing.
pub(crate) fn done(came: Result<(), i32>) -> i32
    ensures { result ≡ code_of came }
{
    match came {
        Ok(()) => OK,
        Err(code) => code,
    }
}
