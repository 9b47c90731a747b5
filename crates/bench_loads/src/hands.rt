//! One thread's hand in a load on a store.
use crate::budgets::Budget;
use crate::by_lanes::Client;
use crate::folds::Folds;
use crate::outcomes::Part;
use crate::tasks::Way;
use crate::turns::Turn;
use occ_store::{Body, Ended, Lease, Name, Store, Worker};
use occ_types::Fault;
use std::alloc::Allocator;
use std::sync::Wait;
use std::thread;
use std::time::Clock;

/// How often a worker tries a transaction in one call.
const TRIES: usize = 1_000;

/// What makes transactions.
#[derive(Drop)]
pub(crate) enum Maker<'a, N: Name, A: Allocator + Copy> {
    Client(&'a mut Client<N, A>),
    Worker(&'a mut Worker<N, A>),
}

/// What makes the transactions of one thread on a store, in leases or not, and the checkpoints that are due after them.
#[derive(Drop)]
pub(crate) struct Hand<'a, N: Name, A: Allocator + Copy> {
    maker: Maker<'a, N, A>,
    leased: bool,
    at_a_time: u64,
    folds: Folds,
}

impl<N: Name, A: Allocator + Copy> Maker<'_, N, A> {
    /// Tries a transaction, within a lease where there is one. Its transaction number; none where it was backed up.
    fn transact<R: Wait + Clock>(
        &mut self,
        rt: &R,
        store: &Store<N, A>,
        lease: Option<&Lease<'_, N>>,
        turn: &mut Turn,
    ) -> Result<Option<u64>, Fault> {
        match self {
            Maker::Client(client) => client.transact(rt, store, turn),
            Maker::Worker(worker) => transact(rt, store, worker, lease, turn),
        }
    }
}

/// Has a worker try a transaction, within a lease where there is one. Its transaction number; none where it was backed up each time.
pub(crate) fn transact<N: Name, A: Allocator + Copy, R: Wait>(
    rt: &R,
    store: &Store<N, A>,
    worker: &mut Worker<N, A>,
    lease: Option<&Lease<'_, N>>,
    turn: &mut Turn,
) -> Result<Option<u64>, Fault> {
    let ended = tried(rt, store, worker, lease, turn)?;
    Ok(ended.tn())
}

/// Has a worker try what a body does, within a lease where there is one.
fn tried<N: Name, A: Allocator + Copy, R: Wait, B: Body<N, A, R>>(
    rt: &R,
    store: &Store<N, A>,
    worker: &mut Worker<N, A>,
    lease: Option<&Lease<'_, N>>,
    body: &mut B,
) -> Result<Ended<B::Value>, B::Error> {
    match lease {
        Some(lease) => worker.transact_within(rt, store, lease, TRIES, body),
        None => worker.transact(rt, store, TRIES, body),
    }
}

impl<'a, N: Name, A: Allocator + Copy> Hand<'a, N, A> {
    /// That of a thread which makes transactions in this way. A worker makes the checkpoints itself.
    pub(crate) fn new(maker: Maker<'a, N, A>, way: Way) -> Hand<'a, N, A> {
        let folds = Folds::new(match maker {
            Maker::Client(_) => way.folded,
            Maker::Worker(_) => None,
        });
        Hand {
            maker,
            leased: way.leased,
            at_a_time: way.at_a_time,
            folds,
        }
    }

    /// Makes a transaction: it is tried until it commits. Its transaction number.
    fn make<R: Wait + Clock>(
        &mut self,
        rt: &R,
        store: &Store<N, A>,
        lease: Option<&Lease<'_, N>>,
        turn: &mut Turn,
    ) -> Result<u64, Fault> {
        for _ in rt.forever() {
            if let Some(tn) = self.maker.transact(rt, store, lease, turn)? {
                return Ok(tn);
            }
            // its opponent may wait for a processor
            thread::yield_now();
        }
        unreachable!()
    }

    /// Makes the next transactions of its part, so many.
    fn play<R: Wait + Clock>(
        &mut self,
        rt: &R,
        store: &Store<N, A>,
        part: &mut Part,
        many: u64,
    ) -> Result<(), Fault> {
        let lease = if self.leased {
            Some(store.lease(rt))
        } else {
            None
        };
        for _ in 0..many {
            let mut turn = part.next();
            let tn = self.make(rt, store, lease.as_ref(), &mut turn)?;
            part.commit(tn, turn.backed_up());
            self.folds.after(rt, store, tn)?;
        }
        Ok(())
    }

    /// Makes transactions until the budget is spent, or one of them meets a fault.
    pub(crate) fn work<R: Wait + Clock>(
        &mut self,
        rt: &R,
        store: &Store<N, A>,
        part: &mut Part,
        budget: &Budget,
    ) {
        for _ in rt.forever() {
            let Some(many) = budget.take(rt, self.at_a_time) else {
                return;
            };
            if let Err(fault) = self.play(rt, store, part, many) {
                part.fail(fault);
                return;
            }
        }
    }
}
