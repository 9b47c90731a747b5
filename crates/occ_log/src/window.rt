//! The window: the write sets of the last transactions to finish.
ghost use Rattle.std.specs.Prelude.{◌≡◌, ◌==◌, [], drop, length, map, IfOk};
ghost use Rattle.std.specs.List.{list_any};
ghost use Rattle.occ_model.specs.State.{meets_reads};
ghost use Rattle.occ_log.specs.Window.{advanced};

use occ_sets::{ReadSet, WriteSet, meets_reads};
use std::alloc::{AllocError, Allocator};
use std::collections::VecDeque;
use std::marker::Model;

/// The write sets of the last transactions to finish, the oldest first: those that transactions under way still have to be tested
/// against. Clauses see the list of them, and how many are kept at most.
#[derive(Drop)]
pub struct Window<A: Allocator> {
    sets: VecDeque<WriteSet<A>, A>,
    keep: usize,
}

impl<A: Allocator> Model for Window<A> {
    ghost use Rattle.std.specs.Prelude.{◌<◌, ◌≤◌, length};
    ghost use Rattle.std.specs.VecDeque.{deque_capacity};
    ghost use Rattle.occ_log.specs.Window.{Window as Kept};

    ghost Value = { Kept };

    ghost view = { λ window. record { keep = window.keep; sets = window.sets.items } };

    ghost invariant = { λ window. (length window.sets.items ≤ window.keep) × (window.keep < deque_capacity window.sets) };
}

impl<A: Allocator> Window<A> {
    /// A window without write sets, which has room for `keep` of them and one more, so that nothing that comes in takes memory. Refused
    /// with `AllocError` where there is no memory for it, and where `keep` is the greatest number of its type.
    pub fn new(alloc: A, keep: usize) -> Result<Window<A>, AllocError>
        ensures { IfOk result (λ window. window ≡ record { keep = keep; sets = [] }) }
    {
        let Some(room) = keep.checked_add(1) else {
            return Err(AllocError);
        };
        let sets = VecDeque::with_capacity(alloc, room)?;
        Ok(Window { sets, keep })
    }

    /// How many write sets are kept at most.
    pub fn keep(&self) -> usize
        ensures { result ≡ self.now.keep }
    {
        self.keep
    }

    /// How many write sets are kept now.
    pub fn len(&self) -> usize
        ensures { result ≡ length self.now.sets }
    {
        self.sets.len()
    }

    /// Whether none is kept now.
    pub fn is_empty(&self) -> bool
        ensures { result ≡ (length self.now.sets == 0) }
    {
        self.len() == 0
    }

    /// Whether some write set writes what was read, of all but the oldest `skip`. It takes no memory.
    pub fn meets(&self, skip: usize, reads: &ReadSet<A>) -> bool
        ensures { result ≡ list_any (λ theirs. meets_reads theirs (map (λ o. o.0) reads.now)) (drop skip self.now.sets) }
    {
        for place in skip..self.sets.len() {
            if meets_reads(&self.sets[place], reads) {
                return true;
            }
        }
        false
    }

    /// Takes in the next write set, and lets the oldest go where there would be more than `keep`. It takes no memory.
    pub fn advance(&mut self, writes: WriteSet<A>)
        ensures { self.new ≡ advanced self.old writes }
    {
        self.sets.push_back_reserved(writes);
        if self.sets.len() > self.keep {
            let _oldest = self.sets.pop_front();
        }
    }
}

impl<A: Allocator + Clone> Window<A> {
    /// A clone of each write set but the oldest `skip`, in their order; none where there are no more than these. Refused with `AllocError`
    /// where there is no memory for the list, or a set has too many owners to be counted.
    pub fn shared_from(&self, alloc: A, skip: usize) -> Result<Vec<WriteSet<A>, A>, AllocError>
        ensures { IfOk result (λ shared. shared.items ≡ drop skip self.now.sets) }
    {
        let mut shared = Vec::new(alloc);
        for place in skip..self.sets.len() {
            shared.push(self.sets[place].clone()?)?;
        }
        Ok(shared)
    }
}
