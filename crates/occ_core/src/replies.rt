//! Replies: what a core says to its steps.
ghost use Rattle.std.specs.Prelude.{◌≡◌};
ghost use Rattle.occ_core.specs.declared.replies.Reply.TheVariants as replies;

use crate::outcomes::Outcome;
use occ_case::Verdict;
use occ_queue::Item;
use occ_sets::RangeRows;
use occ_types::{Fault, Object, Refused, Row};
use std::alloc::Allocator;

/// What a core replies to a step.
#[derive(Drop)]
pub enum Reply<A: Allocator> {
    /// To a read: the row, or none where there is none.
    Found(Option<Row<A>>),
    /// To a scan: the keys of the range and their rows, in the order of the keys.
    Rows(RangeRows<A>),
    /// To a forget: whether there was such a read phase.
    Forgotten(bool),
    /// To an entry, a serial end or a run alone: what came of it.
    Outcome(Outcome<A>),
    /// To a decision: the verdict.
    Decided(Verdict),
    /// To a single write: the object whose row it put or deleted.
    Wrote(Object<A>),
    /// To a single write: none was left.
    NoMore,
    /// To a finish.
    Finished {
        /// The transaction number.
        tn: u64,
    },
    /// To a back-up: the number of the transaction in its session.
    BackedUp(u64),
    /// To a checkpoint: how many rows were folded.
    Folded(usize),
    /// To a step that was refused and was handed no item: why. The core is as it was.
    Refused(Fault),
    /// To an entry, a serial end or a run alone that was refused: why, and what was handed in. Operations come back as the item that
    /// they are. The core is as it was.
    RefusedItem(Refused<Item<A>>),
}

impl<A: Allocator> From<Fault> for Reply<A> {
    ghost from_gives = { λ fault reply. reply ≡ replies.Refused fault };

    fn from(fault: Fault) -> Reply<A> {
        Reply::Refused(fault)
    }
}

impl<A: Allocator> From<Refused<Item<A>>> for Reply<A> {
    ghost from_gives = { λ refused reply. reply ≡ replies.RefusedItem refused };

    fn from(refused: Refused<Item<A>>) -> Reply<A> {
        Reply::RefusedItem(refused)
    }
}
