//! The writes that a session hands in.
ghost use Rattle.std.specs.Prelude.{◌≡◌, ◌≤◌, ◌<◌, [], length, IfOk, IfErr, MatchResult};
ghost use Rattle.occ_types.specs.declared.fault.Fault.TheVariants.{SetFull};
ghost use Rattle.occ_types.specs.declared.limits.TheConstants as limit;
ghost use Rattle.occ_sets.specs.Handles.{kept, IsOwn};
ghost use Rattle.occ_sets.specs.Sets.{IsWriteSet};

use crate::handles::Handle;
use crate::writes::WriteSet;
use occ_types::limits::MAX_WRITES;
use occ_types::{Fault, Refused};
use std::alloc::Allocator;
use std::marker::Model;

/// The write set of a request, which has at most 256 writes: that of a private copy, or any other set that has no more. Clauses see the
/// list of the plain writes.
#[derive(Drop)]
#[derive_where(Debug)]
pub struct RequestWrites<A: Allocator> {
    set: WriteSet<A>,
}

impl<A: Allocator> Model for RequestWrites<A> {
    ghost use Rattle.std.specs.Prelude.{◌≤◌, List, length};
    ghost use Rattle.occ_types.specs.declared.limits.TheConstants.{MAX_WRITES};
    ghost use Rattle.occ_model.specs.State.{Write};

    ghost Value = { List Write };

    ghost view = { λ writes. writes.set };

    ghost invariant = { λ writes. length writes.set ≤ MAX_WRITES };
}

impl<A: Allocator + Copy> RequestWrites<A> {
    /// No writes, which take no memory.
    pub fn new(alloc: A) -> RequestWrites<A>
        ensures { result ≡ [] }
    {
        RequestWrites {
            set: WriteSet::new(alloc),
        }
    }
}

impl<A: Allocator> RequestWrites<A> {
    /// The writes of a set, which takes no memory. Refused with `SetFull`, and the set handed back, where there are more than 256 of them.
    pub fn from_set(set: WriteSet<A>) -> Result<RequestWrites<A>, Refused<WriteSet<A>>>
        ensures same { IfOk result (λ writes. writes ≡ set) }
        ensures limit { MatchResult result
            (λ _. length set ≤ limit.MAX_WRITES)
            (λ refused. (limit.MAX_WRITES < length set) × (refused.value ≡ set) × (refused.fault ≡ SetFull)) }
    {
        if set.len() > MAX_WRITES {
            return Err(Refused {
                value: set,
                fault: Fault::SetFull,
            });
        }
        Ok(RequestWrites { set })
    }

    // The writes of a private copy.
    pub(crate) fn from_own(alloc: A, writes: Handle<A>) -> RequestWrites<A>
        requires { length (kept writes) ≤ limit.MAX_WRITES }
        ensures { result ≡ kept writes }
    {
        RequestWrites {
            set: WriteSet::from_handle(alloc, writes),
        }
    }

    /// The writes, as a set.
    pub fn as_set(&self) -> &WriteSet<A>
        ensures value { result.now ≡ self.now }
        ensures few { length self.now ≤ limit.MAX_WRITES }
    {
        &self.set
    }

    /// The set of the writes, for one that may grow further or be shared. It takes no memory.
    pub fn into_set(self) -> WriteSet<A>
        ensures value { result ≡ self }
        ensures fits { IsWriteSet self }
    {
        // Its clause says that no object is written twice.
        let _len = self.set.len();
        self.set
    }

    // The writes for one owner alone, as `WriteSet::into_own` gives them.
    pub(crate) fn into_own(self) -> Result<(A, Handle<A>), RequestWrites<A>>
    where
        A: Copy,
        ensures ok { IfOk result (λ own. (kept own.1 ≡ self) × IsOwn own.1 × (length (kept own.1) ≤ limit.MAX_WRITES)) }
        ensures handed_back { IfErr result (λ writes. writes ≡ self) }
    {
        match self.set.into_own() {
            Ok(own) => Ok(own),
            Err(set) => Err(RequestWrites { set }),
        }
    }
}
