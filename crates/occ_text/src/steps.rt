//! The steps of a schedule.

ghost use Rattle.std.specs.Prelude.{map};
ghost use Rattle.occ_text.specs.Fields.{AreSame};
ghost use Rattle.occ_text.specs.StepReading.{told_forms};

use crate::operations::Operation;
use occ_types::{Key, Row};
use std::alloc::Allocator;

/// What a step does that names a session and nothing else.
#[derive(Clone, Copy, Debug, PartialEq, Eq)]
pub enum Act {
    /// Opens a transaction.
    Begin,
    /// Gives up the transaction that is open, with all that it read.
    Abandon,
    /// Hands in the transaction that is open.
    Submit,
    /// Hands in the closing mark of the session.
    Close,
    /// Enters what was handed in first.
    Enter,
    /// Does the same by a serial end, which takes the whole transaction at once.
    Serial,
    /// Decides the row that is under way.
    Decide,
    /// Does one single write of it.
    Write,
    /// Ends its write phase.
    Finish,
    /// Lets the session go on after its row was decided to be backed up.
    BackUp,
}

/// A step of a schedule, as its line says it. A table is named and not yet found: whether there is one of that name, and whether
/// keys and rows fit it, is for the step to say.
#[derive(Drop)]
pub enum Step<'a, A: Allocator> {
    /// `begin S`, `abandon S`, `submit S`, `close S`, `enter S`, `serial S`, `decide S`, `write S`, `finish S` or `backup S`.
    Does {
        /// What is done.
        act: Act,
        /// The session, up to 255.
        session: usize,
    },
    /// `get S NAME KEY`: reads one key.
    Get {
        /// The session, up to 255.
        session: usize,
        /// The table's name.
        table: &'a str,
        /// The key.
        key: Key<A>,
    },
    /// `scan S NAME KEY KEY`: reads a range, where `*` stands for a missing end.
    Scan {
        /// The session, up to 255.
        session: usize,
        /// The table's name.
        table: &'a str,
        /// The lower end, which lies within. None: every key below the upper end.
        lower: Option<Key<A>>,
        /// The upper end, which lies outside. None: every key from the lower end on.
        upper: Option<Key<A>>,
    },
    /// `put S NAME KEY ROW`: writes a row to the private copy.
    Put {
        /// The session, up to 255.
        session: usize,
        /// The table's name.
        table: &'a str,
        /// The key.
        key: Key<A>,
        /// The row.
        row: Row<A>,
    },
    /// `delete S NAME KEY`: deletes a row in the private copy.
    Delete {
        /// The session, up to 255.
        session: usize,
        /// The table's name.
        table: &'a str,
        /// The key.
        key: Key<A>,
    },
    /// `forge S N START`: enters a transaction without writes, whichever the client has open.
    Forge {
        /// The session, up to 255.
        session: usize,
        /// The number of the transaction, up to 2^32 - 1.
        number: u64,
        /// Its start, of 64 bits.
        start: u64,
    },
    /// `rawread S N START NAME KEY`: reads one key for a transaction, whichever the client has open.
    RawRead {
        /// The session, up to 255.
        session: usize,
        /// The number of the transaction, up to 2^32 - 1.
        number: u64,
        /// Its start, of 64 bits.
        start: u64,
        /// The table's name.
        table: &'a str,
        /// The key.
        key: Key<A>,
    },
    /// `alone S OP ..`: hands in a transaction that runs alone.
    Alone {
        /// The session, up to 255.
        session: usize,
        /// What it does, in this order: one operation or more, and any number of them.
        operations: Vec<Operation<'a, A>, A>,
    },
    /// `show`: counts what there is.
    Show,
    /// `checkpoint`: folds the settled beginning of the log.
    Checkpoint,
}

/// The forms of the steps, as the formats are told: a word, and letters for what stands behind it. What stands before `..` may stand
/// again.
pub const FORMS: &[&str] = &[
    "begin S",
    "get S NAME KEY",
    "scan S NAME END END",
    "put S NAME KEY ROW",
    "delete S NAME KEY",
    "abandon S",
    "submit S",
    "alone S OP ..",
    "close S",
    "enter S",
    "serial S",
    "decide S",
    "write S",
    "finish S",
    "backup S",
    "forge S N START",
    "rawread S N START NAME KEY",
    "checkpoint",
    "show",
];

/// The forms, which are those that `read_step` reads.
pub fn forms() -> &'static [&'static str]
    ensures { AreSame (map (λ form. form.now) result.now) told_forms }
{
    FORMS
}
