//! What a session hands in.
ghost use Rattle.std.specs.Prelude.{◌≡◌};
ghost use Rattle.occ_queue.specs.Items.{item_of, is_mark, number_of};

use occ_sets::{Op, RequestWrites};
use std::alloc::Allocator;

/// What a session hands in.
#[derive(Drop)]
#[derive_where(Debug)]
pub enum Item<A: Allocator> {
    /// A transaction that has ended its read phase.
    Request {
        /// Its number in its session.
        number: u64,
        /// The transaction counter as it began.
        start: u64,
        /// What it writes, which is at most 256 objects.
        writes: RequestWrites<A>,
    },
    /// Operations that run alone, as a whole transaction in one step.
    Alone {
        /// The number of the transaction in its session.
        number: u64,
        /// What it does, one operation after another.
        operations: Vec<Op<A>, A>,
    },
    /// The closing mark: nothing of the session comes after it.
    Close {
        /// The number that it takes in its session.
        number: u64,
    },
}

impl<A: Allocator> Item<A> {
    /// The number that it takes in its session.
    pub fn number(&self) -> u64
        ensures { result ≡ number_of (item_of self.now) }
    {
        match self {
            Item::Request { number, .. } => *number,
            Item::Alone { number, .. } => *number,
            Item::Close { number } => *number,
        }
    }

    /// Whether it is a closing mark.
    pub fn is_mark(&self) -> bool
        ensures { result ≡ is_mark (item_of self.now) }
    {
        match self {
            Item::Request { .. } | Item::Alone { .. } => false,
            Item::Close { .. } => true,
        }
    }
}
