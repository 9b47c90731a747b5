//! Who has seen more of the history.
ghost use Rattle.std.specs.Prelude.{◌≡◌, ◌⊎◌};
ghost use Rattle.occ_history.specs.History.{IsHere, Begins};

use crate::names::{FrontOf, Name};
use crate::sessions::Session;
use crate::shared::Shared;
use crate::stores::Store;
use crate::transactions::Transaction;
use crate::workers::Worker;
use std::alloc::Allocator;
use std::sync::Wait;

impl<N: Name, A: Allocator + Copy> Session<N, A> {
    /// Of two sessions of a store, what one has seen of the history is a beginning of what the other has, with all that was the first
    /// one's own: so whatever both were answered stands in one history. Both stay as they are. It takes the lock.
    pub fn compare<R: Wait>(&mut self, rt: &R, store: &Store<N, A>, other: &mut Session<N, A>)
        ensures order { Begins self.old.front other.old.front ⊎ Begins other.old.front self.old.front }
        ensures same { (self.new ≡ self.old) × (other.new ≡ other.old) }
    {
        self.transaction.compare(rt, store, &mut other.transaction);
    }

    /// The session sees all that happened in its store until now: what stands behind the lock, and what it was answered, stand in one
    /// history then. `Store::lock` lends that.
    pub fn catch_up(&mut self, shared: &mut Shared<N, A>)
        ensures seen { self.new ≡ record self.old { front = record self.old.front { seen = shared.old.story.log } } }
        ensures before { Begins self.old.front self.new.front }
        ensures same { shared.new ≡ shared.old }
    {
        self.transaction.catch_up(shared);
    }
}

impl<N: Name, A: Allocator + Copy> Worker<N, A> {
    /// Of two workers of a store, what one has seen of the history is a beginning of what the other has, as `Session::compare` tells it.
    /// Both stay as they are. It takes the lock.
    pub fn compare<R: Wait>(&mut self, rt: &R, store: &Store<N, A>, other: &mut Worker<N, A>)
        ensures order { Begins self.old.front other.old.front ⊎ Begins other.old.front self.old.front }
        ensures same { (self.new ≡ self.old) × (other.new ≡ other.old) }
    {
        self.transaction.compare(rt, store, &mut other.transaction);
    }
}

impl<N: Name, A: Allocator + Copy> Transaction<N, A> {
    // What one has seen is a beginning of what the other has.
    fn compare<R: Wait>(&mut self, rt: &R, store: &Store<N, A>, other: &mut Transaction<N, A>)
        ensures order { Begins self.old.front other.old.front ⊎ Begins other.old.front self.old.front }
        ensures same { (self.new ≡ self.old) × (other.new ≡ other.old) }
    {
        store.lock(rt).compare(&mut self.front, &mut other.front);
    }

    // It sees the whole history.
    fn catch_up(&mut self, shared: &mut Shared<N, A>)
        ensures seen { self.new ≡ record self.old { front = record self.old.front { seen = shared.old.story.log } } }
        ensures before { Begins self.old.front self.new.front }
        ensures same { shared.new ≡ shared.old }
    {
        shared.show_to(&mut self.front);
    }
}

impl<N: Name, A: Allocator + Copy> Shared<N, A> {
    // Of two fronts one has seen a beginning of what the other has.
    fn compare(&self, one: &mut FrontOf<N>, two: &mut FrontOf<N>)
        requires { IsHere one.old.party × IsHere two.old.party }
        ensures order { Begins one.old two.old ⊎ Begins two.old one.old }
        ensures same { (one.new ≡ one.old) × (two.new ≡ two.old) }
    {
        self.story.compare(one, two);
    }
}
