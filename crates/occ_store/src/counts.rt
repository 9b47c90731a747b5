//! The figures of a store, and what is left of a session's numbers.
ghost use Rattle.std.specs.Prelude.{◌≡◌};
ghost use Rattle.occ_core.specs.Figures.{figures_of, IsBalanced, numbers_left};
ghost use Rattle.occ_store.specs.Locked.{world_of};
ghost use Rattle.occ_store.specs.Counted.{IsCountOf};
ghost use Rattle.occ_store.specs.Standing.{SeesWhole};

use crate::names::Name;
use crate::observers::Observer;
use crate::shared::Shared;
use crate::stores::Store;
use occ_core::Counts;
use std::alloc::Allocator;
use std::sync::Wait;

impl<N: Name, A: Allocator + Copy> Shared<N, A> {
    /// The figures of the store, as `Core::counts` has them. It takes no memory.
    pub fn counts(&self) -> Counts
        ensures figures { result ≡ figures_of (world_of self.now) self.now.filed.totals }
        ensures balanced { IsBalanced result }
    {
        self.core().counts()
    }

    /// How many numbers a session has left, as `Core::numbers_left` tells.
    pub fn numbers_left(&self, session: usize) -> Option<u64>
        ensures { result ≡ numbers_left (world_of self.now) session }
    {
        self.core().numbers_left(session)
    }
}

impl<N: Name, A: Allocator + Copy> Store<N, A> {
    /// The figures of the store, all of one state: they add up, whatever threads did. It takes the lock, and no memory.
    pub fn counts<R: Wait>(&self, rt: &R, observer: &mut Observer<N>) -> Counts
        ensures figures { SeesWhole N.named (IsCountOf result) observer.old observer.new }
        ensures balanced { IsBalanced result }
    {
        let mut shared = self.lock(rt);
        shared.law();
        shared.show_to(&mut observer.front);
        shared.counts()
    }

    /// How many numbers a session has left, the one of its closing mark among them; none where there is no such session. It takes the
    /// lock, and no memory.
    pub fn numbers_left<R: Wait>(
        &self,
        rt: &R,
        observer: &mut Observer<N>,
        session: usize,
    ) -> Option<u64>
        ensures { SeesWhole N.named (λ world. result ≡ numbers_left world session) observer.old observer.new }
    {
        let mut shared = self.lock(rt);
        shared.law();
        shared.show_to(&mut observer.front);
        shared.numbers_left(session)
    }
}
