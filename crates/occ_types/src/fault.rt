//! Why a call is refused, and what comes back with a refusal.
ghost use Rattle.std.specs.Prelude.{◌≡◌};
ghost use Rattle.occ_types.specs.declared.fault.Fault.TheVariants.{Memory};

use std::alloc::{AllocError, AllocFailed};
use std::error::Error;
use std::fmt;

/// Why a call is refused. A refused call leaves everything as it was. A write, an item or a list that came in comes back with the
/// refusal; the key of a read does not. `Display` writes the word that texts have for it, `F1` to `F28`, and a sentence.
#[derive(Clone, Copy, Debug, PartialEq, Eq)]
pub enum Fault {
    /// `F1`: there is no such table.
    NoTable,
    /// `F2`: a key or a cell is of another kind than its table's.
    WrongKind,
    /// `F3`: a row has another number of cells than its table has columns.
    WrongColumns,
    /// `F4`: a text key or a text cell is over its limit.
    TooLong,
    /// `F5`: a range whose lower end is not below its upper end.
    EmptyRange,
    /// `F6`: a schema with too many or too few tables or columns, a bad name, or one name twice.
    BadSchema,
    /// `F7`: a set already has all the keys, questions or operations that it may have.
    SetFull,
    /// `F8`: a request for memory was refused.
    Memory,
    /// `F9`: as many items were pushed as the queue holds beyond those that its sender heard of as taken.
    QueueFull,
    /// `F10`: the client has closed the session.
    Closed,
    /// `F11`: only the number of the closing mark is left.
    NumbersExhausted,
    /// `F12`: there is no such session.
    NoSession,
    /// `F13`: the closing mark of the session has entered.
    SessionClosed,
    /// `F14`: the number is not the one that is due, or not one that may have a read phase.
    OutOfTurn,
    /// `F15`: the session's earlier row is neither finished nor backed up.
    SessionBusy,
    /// `F16`: the start lies above the transaction counter.
    FutureStart,
    /// `F17`: the read phase of this number was registered with another start.
    StartDiffers,
    /// `F18`: the session has no row between its entry and its finish or back-up.
    NothingEntered,
    /// `F19`: the row is not decided yet.
    NotDecided,
    /// `F20`: the row was decided before, or the other way.
    AlreadyDecided,
    /// `F21`: single writes of the row are left.
    WritesLeft,
    /// `F22`: the log has as many rows as it may have.
    LogFull,
    /// `F23`: the transaction counter has no room for the rows that are under way and one more.
    CounterExhausted,
    /// `F24`: the answer of a range has more rows than an answer may have.
    RangeTooLarge,
    /// `F25`: a row is open or writing; for a checkpoint, a row is open.
    StoreBusy,
    /// `F26`: the verdict is for another row's case.
    WrongCase,
    /// `F27`: a transaction of this session is open; for a run alone, its number has a read phase.
    ReadOpen,
    /// `F28`: no transaction of this session is open.
    NoReadOpen,
}

// One text for each fault, and no formatting of parts.
impl fmt::Display for Fault {
    fn fmt<W: fmt::Write>(&self, f: &mut fmt::Formatter<W>) -> fmt::Result {
        f.write_str(match self {
            Fault::NoTable => "F1: there is no such table",
            Fault::WrongKind => "F2: a key or a cell is of another kind than its table's",
            Fault::WrongColumns => {
                "F3: a row has another number of cells than its table has columns"
            }
            Fault::TooLong => "F4: a text key or a text cell is over its limit",
            Fault::EmptyRange => "F5: the lower end of a range is not below its upper end",
            Fault::BadSchema => {
                "F6: a schema has too many or too few tables or columns, a bad name, or one name twice"
            }
            Fault::SetFull => {
                "F7: a set has all the keys, questions or operations that it may have"
            }
            Fault::Memory => "F8: a request for memory was refused",
            Fault::QueueFull => "F9: the queue of the session is full",
            Fault::Closed => "F10: the client has closed the session",
            Fault::NumbersExhausted => "F11: only the number of the closing mark is left",
            Fault::NoSession => "F12: there is no such session",
            Fault::SessionClosed => "F13: the closing mark of the session has entered",
            Fault::OutOfTurn => {
                "F14: the number is not the one that is due, or not one that may have a read phase"
            }
            Fault::SessionBusy => {
                "F15: the session's earlier row is neither finished nor backed up"
            }
            Fault::FutureStart => "F16: the start lies above the transaction counter",
            Fault::StartDiffers => "F17: the read phase of this number has another start",
            Fault::NothingEntered => {
                "F18: the session has no row between its entry and its finish or back-up"
            }
            Fault::NotDecided => "F19: the row is not decided yet",
            Fault::AlreadyDecided => "F20: the row was decided before, or the other way",
            Fault::WritesLeft => "F21: single writes of the row are left",
            Fault::LogFull => "F22: the log has as many rows as it may have",
            Fault::CounterExhausted => {
                "F23: the transaction counter has no room for the rows that are under way and one more"
            }
            Fault::RangeTooLarge => {
                "F24: the answer of a range has more rows than an answer may have"
            }
            Fault::StoreBusy => "F25: a row is under way",
            Fault::WrongCase => "F26: the verdict is for another row's case",
            Fault::ReadOpen => {
                "F27: a transaction of this session is open, or the number has a read phase"
            }
            Fault::NoReadOpen => "F28: no transaction of this session is open",
        })
    }
}

impl Error for Fault {}

impl From<AllocError> for Fault {
    ghost from_gives = { λ _ fault. fault ≡ Memory };

    fn from(_refused: AllocError) -> Fault {
        Fault::Memory
    }
}

impl<T: Drop> From<AllocFailed<T>> for Fault {
    ghost from_gives = { λ _ fault. fault ≡ Memory };

    fn from(_refused: AllocFailed<T>) -> Fault {
        Fault::Memory
    }
}

/// A refusal of a call that takes a value: why, and the value, which comes back whole.
#[derive(Debug, Drop)]
pub struct Refused<T> {
    /// What was handed in.
    pub value: T,
    /// Why it was refused.
    pub fault: Fault,
}

impl<T: Drop> From<Refused<T>> for Fault {
    ghost from_gives = { λ refused fault. fault ≡ refused.fault };

    fn from(refused: Refused<T>) -> Fault {
        refused.fault
    }
}
