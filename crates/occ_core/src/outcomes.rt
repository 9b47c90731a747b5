//! What comes of what a session hands in.
use occ_case::Cause;
use occ_sets::Answer;
use std::alloc::Allocator;

/// What came of what a session handed in. A request that enters is `Entered`, and one that ends serially is `Committed` or `BackedUp`.
/// Operations `RanAlone`, and a closing mark is `MarkedClosed`, whichever way they were handed in.
#[derive(Drop)]
#[derive_where(Debug)]
pub enum Outcome<A: Allocator> {
    /// A transaction entered, and is open.
    Entered {
        /// The place of its row in the order of entry, which is also the index that names its case.
        place: usize,
    },
    /// The transaction committed, and all its writes are done.
    Committed {
        /// The transaction number.
        tn: u64,
    },
    /// The transaction was backed up, and none of its writes is done.
    BackedUp(Cause),
    /// Operations ran alone, and committed.
    RanAlone {
        /// The transaction number.
        tn: u64,
        /// What their questions were answered, in their order.
        answers: Vec<Answer<A>, A>,
    },
    /// The closing mark entered: the session is closed.
    MarkedClosed,
}
