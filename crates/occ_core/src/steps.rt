//! Steps: the calls of a core that change it.
use occ_queue::Item;
use occ_sets::Op;
use occ_types::Key;
use std::alloc::Allocator;

/// A call of a core that changes it, with all that it is handed. Sessions are numbered from 1, tables by their places from 0.
#[derive(Drop)]
pub enum Step<A: Allocator> {
    /// Reads the row under a key of a table in a read phase.
    Read {
        /// The session.
        session: usize,
        /// The number of the transaction in its session, from 1 on.
        number: u64,
        /// The transaction counter as the transaction began.
        start: u64,
        /// The place of the table.
        table: usize,
        /// The key.
        key: Key<A>,
    },
    /// Reads the rows of a range in a read phase.
    Scan {
        /// The session.
        session: usize,
        /// The number of the transaction.
        number: u64,
        /// The transaction counter as the transaction began.
        start: u64,
        /// The place of the table.
        table: usize,
        /// The first key that is asked for; all keys up to the upper end where there is none.
        lower: Option<Key<A>>,
        /// The first key that is not asked for any more; all keys from the lower end on where there is none.
        upper: Option<Key<A>>,
    },
    /// Forgets a read phase.
    Forget {
        /// The session.
        session: usize,
        /// The number of the transaction.
        number: u64,
    },
    /// Enters what a session hands in.
    Enter {
        /// The session.
        session: usize,
        /// What it hands in.
        item: Item<A>,
    },
    /// Decides the transaction that this session has entered.
    Decide(usize),
    /// Does the next single write of the transaction that this session has under way.
    WriteOne(usize),
    /// Ends the write phase of the transaction that this session has under way.
    Finish(usize),
    /// Lets this session go on after its transaction was decided to be backed up.
    BackUp(usize),
    /// Ends what a session hands in, in one step.
    SerialEnd {
        /// The session.
        session: usize,
        /// What it hands in.
        item: Item<A>,
    },
    /// Runs a list of operations alone, as a whole transaction in one step.
    RunAlone {
        /// The session.
        session: usize,
        /// The number of the transaction in its session.
        number: u64,
        /// What it does, one operation after another.
        operations: Vec<Op<A>, A>,
    },
    /// Folds the settled beginning of the log into the base.
    Checkpoint,
}
