//! The operations of a run alone, as a text names them.

ghost use Rattle.std.specs.Prelude.{map};
ghost use Rattle.occ_text.specs.Fields.{AreSame};
ghost use Rattle.occ_text.specs.OperationReading.{told_operations};

use occ_types::{Key, Row};
use std::alloc::Allocator;

/// One operation of a transaction that runs alone, as its token says it. A table is named and not yet found: whether there is one
/// of that name, and whether keys and rows fit it, is for the run to say.
#[derive(Drop)]
pub enum Operation<'a, A: Allocator> {
    /// `get:NAME:KEY`: reads one key.
    Get {
        /// The table's name.
        table: &'a str,
        /// The key.
        key: Key<A>,
    },
    /// `scan:NAME:KEY:KEY`: reads a range, where `*` stands for a missing end.
    Scan {
        /// The table's name.
        table: &'a str,
        /// The lower end, which lies within. None: every key below the upper end.
        lower: Option<Key<A>>,
        /// The upper end, which lies outside. None: every key from the lower end on.
        upper: Option<Key<A>>,
    },
    /// `put:NAME:KEY:ROW`: writes a row.
    Put {
        /// The table's name.
        table: &'a str,
        /// The key.
        key: Key<A>,
        /// The row.
        row: Row<A>,
    },
    /// `delete:NAME:KEY`: deletes a row.
    Delete {
        /// The table's name.
        table: &'a str,
        /// The key.
        key: Key<A>,
    },
    /// `add:NAME:KEY:INT`: adds to the one whole number of a row.
    Add {
        /// The table's name.
        table: &'a str,
        /// The key.
        key: Key<A>,
        /// What is added, which may be below 0.
        amount: i64,
    },
}

/// The forms of the operations, as the formats are told, with a space for each colon: a word, and letters for what stands behind it.
pub const FORMS: &[&str] = &[
    "get NAME KEY",
    "scan NAME END END",
    "put NAME KEY ROW",
    "delete NAME KEY",
    "add NAME KEY INT",
];

/// The forms, which are those that `read_operation` reads.
pub fn forms() -> &'static [&'static str]
    ensures { AreSame (map (λ form. form.now) result.now) told_operations }
{
    FORMS
}
