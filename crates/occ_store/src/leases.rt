//! Leases: the turn of one thread at a store.
use crate::names::Name;
use crate::stores::Store;
use std::alloc::Allocator;
use std::marker::PhantomData;
use std::sync::{MutexGuard, Wait};

/// What a lease is of.
#[derive(Clone, Copy)]
pub(crate) struct Turns;

/// The turn of one thread at a store, for as long as it lives: no other thread has a lease of that store meanwhile.
///
/// It is advisory, and is beside the store's lock: reads, served lanes and ends go on within it, each in a holding of the lock as
/// ever, and a thread without a lease may take the lock too. So it changes nothing of what a transaction sees; it leaves interleavings
/// out, which keeps threads from waiting for one another at each event.
///
/// A thread takes its lease before it takes the lock, and gives it back before it waits for anything else. `Worker::transact` takes one
/// for each try; where transactions come in a row, one for 16 to 1,000 of them is faster.
#[derive(Drop)]
pub struct Lease<'s, N: Name> {
    _turn: MutexGuard<'s, Turns>,
    _name: PhantomData<N>,
}

impl<N: Name, A: Allocator + Copy> Store<N, A> {
    /// Waits for the turn at the store, and takes it.
    pub fn lease<R: Wait>(&self, rt: &R) -> Lease<'_, N> {
        Lease {
            _turn: self.lease.lock(rt),
            _name: PhantomData,
        }
    }
}
