//! How the groups of a store are ended from outside.
ghost use Rattle.std.specs.Prelude.{IsTrue};

use crate::names::{Name, Stoppable};
use crate::stores::Store;
use std::alloc::Allocator;
use std::marker::PhantomData;
use std::sync::atomic::{AtomicIn, Ordering, Rule};

// That the word is set only where the store may be stopped.
pub(crate) struct Stopping<N: Name> {
    _name: PhantomData<N>,
}

impl<N: Name> Rule for Stopping<N> {
    ghost use Rattle.std.specs.Prelude.{◌<◌};

    ghost invariant = { λ word. 0 < word → N.may_be_stopped };
}

/// A word that tells whether a store is stopped. It is set once, and read without a lock.
#[derive(Drop)]
pub(crate) struct StopWord<N: Name> {
    word: AtomicIn<Stopping<N>>,
}

impl<N: Name> StopWord<N> {
    /// A word that isn't set.
    pub(crate) fn new() -> StopWord<N> {
        StopWord {
            word: AtomicIn::new(0),
        }
    }
}

impl<N: Name + Stoppable, A: Allocator + Copy> Store<N, A> {
    /// Ends all groups of lanes at their next turn, idle or not, and for good: a group that is served from now on ends at its first
    /// turn. Their lanes keep what they have, and each may still be served by itself, as by `Lane::serve_one`. No client is told, and
    /// none is waited for: what it hands in stays in its queue, and a wait for it ends with its patience.
    pub fn stop(&self) {
        self.stop_word.word.store(1, Ordering::SeqCst);
    }
}

impl<N: Name, A: Allocator + Copy> Store<N, A> {
    /// Whether the store was stopped. It takes no lock.
    pub fn is_stopped(&self) -> bool
        ensures { IsTrue result → N.may_be_stopped }
    {
        self.stop_word.word.load(Ordering::SeqCst) > 0
    }
}
