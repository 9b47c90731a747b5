//! What the verdict on a transaction depends on.
ghost use Rattle.std.specs.Prelude.{◌≡◌, drop, map, take, MatchResult};
ghost use Rattle.occ_types.specs.declared.fault.Fault.TheVariants.{Memory};

use occ_sets::{ReadSet, WriteSet};
use occ_types::{Fault, Refused};
use std::alloc::{AllocError, AllocFailed, Allocator};
use std::marker::Model;

/// What the verdict on a transaction depends on, fixed at its entry: its own start, reads and writes, the lower end of the window,
/// and the write sets of its opponents, those that had finished apart from those that were active. Clauses see the plain case.
#[derive(Drop)]
pub struct Case<A: Allocator> {
    pub(crate) start: u64,
    pub(crate) low: u64,
    pub(crate) reads: ReadSet<A>,
    pub(crate) writes: WriteSet<A>,
    // Those that had finished come first: so many of them.
    pub(crate) opponents: Vec<WriteSet<A>, A>,
    pub(crate) finished: usize,
}

impl<A: Allocator> Model for Case<A> {
    ghost use Rattle.std.specs.Prelude.{drop, map, take};
    ghost use Rattle.occ_model.specs.Log.{Case as PlainCase};

    ghost Value = { PlainCase };

    ghost view = { λ c. record {
      start = c.start;
      low = c.low;
      reads = map (λ o. o.0) c.reads;
      writes = c.writes;
      finished = take c.finished c.opponents.items;
      active = drop c.finished c.opponents.items;
    } };
}

impl<A: Allocator> Case<A> {
    /// The case of a transaction that began at `start`, while the window begins above `low`. Of its opponents the first `finished` had
    /// finished, and the others were active.
    pub fn new(
        start: u64,
        low: u64,
        reads: ReadSet<A>,
        writes: WriteSet<A>,
        opponents: Vec<WriteSet<A>, A>,
        finished: usize,
    ) -> Case<A>
        ensures { result ≡ record {
          start = start;
          low = low;
          reads = map (λ o. o.0) reads;
          writes = writes;
          finished = take finished opponents.items;
          active = drop finished opponents.items;
        } }
    {
        Case {
            start,
            low,
            reads,
            writes,
            opponents,
            finished,
        }
    }
}

impl<A: Allocator + Clone> Clone for Case<A> {
    ghost is_clone = { λ source copy. copy ≡ source };

    // One more owner of each set. No set is copied.
    fn clone(&self) -> Result<Case<A>, AllocError> {
        Ok(Case {
            start: self.start,
            low: self.low,
            reads: self.reads.clone()?,
            writes: self.writes.clone()?,
            opponents: self.opponents.clone()?,
            finished: self.finished,
        })
    }
}

/// The case of a transaction that is not decided yet, with the index that names it. The case stands behind a handle, so that the
/// row of the log that has it is short, also when it is decided. Clauses see the index and the plain case.
#[derive(Drop)]
pub struct OpenCase<A: Allocator> {
    index: u64,
    case: Box<Case<A>, A>,
}

impl<A: Allocator> Model for OpenCase<A> {
    ghost use Rattle.std.specs.Prelude.{ℕ};
    ghost use Rattle.occ_model.specs.Log.{Case as PlainCase};

    ghost Value = { ℕ × PlainCase };

    ghost view = { λ o. (o.index, o.case.value) };
}

impl<A: Allocator> OpenCase<A> {
    /// A case under an index. Refused with `Memory`, and the case handed back, where there is no memory for its handle.
    pub fn new(alloc: A, index: u64, case: Case<A>) -> Result<OpenCase<A>, Refused<Case<A>>>
        ensures { MatchResult result (λ made. made ≡ (index, case)) (λ refused. (refused.value ≡ case) × (refused.fault ≡ Memory)) }
    {
        match Box::new(alloc, case) {
            Ok(case) => Ok(OpenCase { index, case }),
            Err(AllocFailed { value }) => Err(Refused {
                value,
                fault: Fault::Memory,
            }),
        }
    }

    /// The index that names the case.
    pub fn index(&self) -> u64
        ensures { result ≡ self.now.0 }
    {
        self.index
    }

    /// The case.
    pub fn case(&self) -> &Case<A>
        ensures { result.now ≡ self.now.1 }
    {
        &self.case
    }
}

/// The same case under the same index. Its sets are shared.
impl<A: Allocator + Clone> Clone for OpenCase<A> {
    ghost is_clone = { λ source copy. copy ≡ source };

    fn clone(&self) -> Result<OpenCase<A>, AllocError> {
        let copy = self.case().clone()?;
        let alloc = Box::allocator(&self.case).clone()?;
        match Box::new(alloc, copy) {
            Ok(case) => Ok(OpenCase {
                index: self.index,
                case,
            }),
            Err(AllocFailed { .. }) => Err(AllocError),
        }
    }
}
