//! The client of a store of one owner: its transactions, from their beginning to their end.
#![tactic(auto)]

mod by_steps;
mod clients;
mod ending;
mod retries;

pub use clients::Client;
pub use ending::End;
pub use occ_book::{Base, Tables};
pub use occ_case::{Cause, Ended, Verdict};
pub use occ_core::{AutoCheckpoint, Core, Counts, Outcome, SHORT_LOG, SingleWrite};
pub use occ_open::{KeptTransaction, OpenTransaction, Page, Readable};
pub use occ_queue::Item;
pub use occ_sets::{Answer, Op, RangeRows, RequestWrites, Write, WriteSet};
pub use occ_types::{
    Cell, Fault, Key, KeyKind, KeyPart, Kind, Object, Pair, PartKind, Prefix, Question, Refused,
    Row, Schema, TableDef, Text, limits,
};
