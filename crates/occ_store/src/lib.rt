//! The store: workers, sessions, lanes and validators in threads, round one locked core.
//!
//! A program makes a `Frame`, names it and opens it by `Store::open`: it gets the `Store`, which threads share; a `Worker` for each of the
//! first sessions, which is one whose one thread ends its transactions itself; and for each other session a `Session` for a client and a
//! `Lane` for what that submits. Each holding of the store's lock is one event, and between any two of them the log is in order, serial
//! replay explains it, and the board shows each session's last transaction that is over.
//!
//! Reads are of no snapshot: two reads of one transaction may tell of rows that never stood together. Then it is backed up, and its end says
//! so. One that only reads is backed up as too old, too, where over `keep` others committed meanwhile.
//!
//! What calls name of the crates below is handed on here. For limits a program lists `occ_types` too, for a load of rows `occ_book`.
#![tactic(auto)]

mod accounts;
mod advancing;
mod awaited;
mod comparing;
mod counts;
mod events;
mod frames;
mod lanes;
pub mod laws;
mod leases;
mod leaving;
mod lending;
mod names;
mod observers;
mod operations;
mod parts;
mod publishing;
mod serving;
mod session_reads;
mod session_tries;
mod session_turns;
mod session_waits;
mod sessions;
mod shared;
mod short_logs;
mod stopping;
mod stores;
mod transaction_reads;
mod transactions;
mod unfinished;
mod validator_threads;
mod validators;
mod worker_ends;
mod worker_tries;
mod workers;

pub use accounts::{Account, AccountLine, Parties};
pub use awaited::{Awaited, Pending};
pub use frames::Frame;
pub use lanes::Lane;
pub use leases::Lease;
pub use names::{MayStop, Name, OwnStory, Stoppable};
pub use observers::Observer;
pub use occ_board::Last;
pub use occ_book::{Base, Book, LogRow, Marks, Standing, Tables};
pub use occ_case::{Case, CaseFile, CaseToken, Cause, Ended, Judged, OpenCase, Verdict};
pub use occ_core::{AutoCheckpoint, Core, Counts, SHORT_LOG};
pub use occ_open::Page;
pub use occ_queue::Item;
pub use occ_sets::{Op, RangeRows, ReadSet, RequestWrites, Write, WriteSet};
pub use occ_types::{
    Cell, Fault, Key, KeyKind, KeyPart, Kind, Object, Pair, PartKind, Refused, Row, Schema,
    TableDef, Text,
};
pub use operations::Operations;
pub use serving::{AlwaysGo, Gate, Pace, Point, Served};
pub use sessions::Session;
pub use shared::Shared;
pub use stores::{Opened, Store};
pub use transactions::{Body, Transaction};
pub use validator_threads::run_validators;
pub use validators::Group;
pub use workers::Worker;
