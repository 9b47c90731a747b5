//! Each call of a worker, once in turn on a new store.
use crate::by_stores::KEPT;
use crate::hands::transact;
use crate::loads::Shape;
use crate::rows::puts;
use crate::turns::Turn;
use occ_audit::audit_rows;
use occ_sets::Op;
use occ_store::{Name, Store, Worker};
use occ_types::Fault;
use std::alloc::Allocator;
use std::sync::Wait;

/// How many transactions these calls commit.
pub(crate) const CALLS: u64 = 4 + SHORT_CALLS;
/// How many of them find a short log.
const SHORT_CALLS: u64 = 60;
/// After how many of these the log is folded.
const BETWEEN: u64 = 10;

/// A worker deletes key 1 and counts the rows that are left, puts key 1, deletes and counts in a lease, and puts key 1 alone. Whether each
/// of these has the number and the count that are due, the worker keeps the log short, and serial replay explains the book.
pub(crate) fn are_right<N: Name, A: Allocator + Copy, R: Wait>(
    rt: &R,
    alloc: A,
    store: &Store<N, A>,
    worker: &mut Worker<N, A>,
    shape: Shape,
) -> Result<bool, Fault> {
    let counted = counts(rt, store, worker, false, Turn::counting(shape), (1, 0))?;
    let put = puts_one(rt, alloc, store, worker, 1)? == 2;
    let leased = counts(rt, store, worker, true, Turn::counting(shape), (3, 1))?;
    let alone = puts_one(rt, alloc, store, worker, 0)? == 4;
    let right = counted && put && leased && alone;
    Ok(right && keeps_short(rt, alloc, store, worker)? && is_explained(rt, alloc, store)?)
}

/// Whether a worker's count commits under this number and finds so many rows, within a lease or not.
fn counts<N: Name, A: Allocator + Copy, R: Wait>(
    rt: &R,
    store: &Store<N, A>,
    worker: &mut Worker<N, A>,
    leased: bool,
    mut turn: Turn,
    (tn, rows): (u64, usize),
) -> Result<bool, Fault> {
    let lease = if leased { Some(store.lease(rt)) } else { None };
    let came = transact(rt, store, worker, lease.as_ref(), &mut turn)?;
    Ok(came == Some(tn) && turn.counted() == Some(rows))
}

/// Has a worker put key 1 again and again, and a checkpoint made each so often. Whether the log is never longer than the rows between two of
/// them and those that are kept for testing.
fn keeps_short<N: Name, A: Allocator + Copy, R: Wait>(
    rt: &R,
    alloc: A,
    store: &Store<N, A>,
    worker: &mut Worker<N, A>,
) -> Result<bool, Fault> {
    worker.checkpoint_each(Some(BETWEEN));
    let mut longest = 0;
    for _ in 0..SHORT_CALLS {
        let _tn = puts_one(rt, alloc, store, worker, 1)?;
        longest = longest.max(log_len(rt, store));
    }
    worker.checkpoint_each(None);
    Ok(longest == KEPT + BETWEEN as usize)
}

/// How many rows stand in the log.
fn log_len<N: Name, A: Allocator + Copy, R: Wait>(rt: &R, store: &Store<N, A>) -> usize {
    let shared = store.lock(rt);
    shared.core().log().len()
}

/// Puts key 1, by operations that are so often tried as a transaction. The transaction number.
fn puts_one<N: Name, A: Allocator + Copy, R: Wait>(
    rt: &R,
    alloc: A,
    store: &Store<N, A>,
    worker: &mut Worker<N, A>,
    tries: usize,
) -> Result<u64, Fault> {
    let puts = puts(alloc, 1, 2)?;
    run_list(rt, store, worker, tries, &puts)
}

/// Has a worker try operations so often as a transaction, and run them alone then. Their transaction number.
pub(crate) fn run_list<N: Name, A: Allocator + Copy, R: Wait>(
    rt: &R,
    store: &Store<N, A>,
    worker: &mut Worker<N, A>,
    tries: usize,
    operations: &[Op<A>],
) -> Result<u64, Fault> {
    worker.run(rt, store, tries, operations)
}

/// Whether serial replay explains the book of a store.
fn is_explained<N: Name, A: Allocator + Copy, R: Wait>(
    rt: &R,
    alloc: A,
    store: &Store<N, A>,
) -> Result<bool, Fault> {
    let mut observer = store.observer(rt);
    let book = store.book(rt, &mut observer)?;
    audit_rows(alloc, &book.view())
}
