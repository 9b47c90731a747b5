//! What a lane or a worker has not ended.
use occ_case::{CaseToken, Verdict};
use occ_queue::Item;
use std::alloc::Allocator;

/// What a lane or a worker has not ended.
#[derive(Drop)]
pub enum Left<A: Allocator + Copy> {
    /// Nothing.
    Nothing,
    /// An item that it took, and that has not entered.
    Kept(Item<A>),
    /// A row that is not decided.
    Open {
        /// The number of the transaction in its session.
        number: u64,
        /// What shows its case, where that was filed.
        token: Option<CaseToken<A>>,
    },
    /// A row that is decided, and not finished or backed up.
    Decided {
        /// The number of the transaction in its session.
        number: u64,
        /// The verdict, kept here since the row of one that is backed up may be folded before its back-up.
        verdict: Verdict,
    },
}
