//! The types of findings.

use occ_sets::Answer;
use occ_types::{Object, Row};
use std::alloc::Allocator;

/// What is out of order in a log. Rows are told by their index in the log, from 0 on; `due` is what has to stand there in place of what does, or none where it is past the greatest number.
#[derive(Clone, Copy, Debug, PartialEq, Eq)]
pub enum Disorder {
    /// The place of a row isn't the next one.
    Place {
        /// The index of the row.
        row: usize,
        /// The place that is due.
        due: Option<usize>,
    },
    /// The number of a row isn't the next one of its session.
    Number {
        /// The index of the row.
        row: usize,
        /// The number that is due.
        due: Option<u64>,
    },
    /// The closing mark of a session isn't its next number.
    Mark {
        /// The session.
        session: usize,
        /// The number that is due.
        due: Option<u64>,
    },
}

/// A read of a committed row with another answer than serial replay has.
#[derive(Drop)]
pub struct WrongRead<A: Allocator> {
    /// The index of the row in the log, from 0 on.
    pub row: usize,
    /// The index of the read among those of the row, from 0 on.
    pub read: usize,
    /// What the replay of the rows before answers.
    pub replayed: Answer<A>,
}

/// An object of which the tables have another row than the replay of the whole log, or a row where that has none, or none where that has one.
#[derive(Drop)]
pub struct ObjectApart<A: Allocator> {
    /// The object.
    pub object: Object<A>,
    /// Its row in the tables, once what the open write phases have still to do is done.
    pub settled: Option<Row<A>>,
    /// Its row as the replay of the whole log leaves it.
    pub replayed: Option<Row<A>>,
}

/// The first of all that a log's audit says no for.
#[derive(Drop)]
pub enum Finding<A: Allocator> {
    /// A place, a number or a closing mark is out of order.
    Order(Disorder),
    /// The log is in order, and a committed row read what serial replay doesn't answer.
    Read(WrongRead<A>),
    /// The log is in order and explained, and the tables aren't what it leaves.
    Object(ObjectApart<A>),
}
