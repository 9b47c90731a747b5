//! Keys of two parts, which are seen as both.
ghost use Rattle.std.specs.Prelude.{◌≡◌, ◌++◌, [], ◌∷◌, Some, IfOk, MatchResult, refl};
ghost use Rattle.std.specs.Ordering.{eq_by_cmp, as_partial_cmp};
ghost use Rattle.std.specs.Cmp.{partial_equiv_from_equiv};
ghost use Rattle.occ_types.specs.declared.fault.Fault.TheVariants.{Memory};
ghost use Rattle.occ_types.specs.Key.{Pair as PlainPair};
ghost use Rattle.occ_types.specs.KeyPart.{pair_cmp, pair_cmp_total};
ghost use Rattle.occ_types.specs.Same.{part_fed, pair_equiv, pair_po, pair_fed, pair_fed_alike};
ghost use Rattle.occ_types.specs.After.{part_after};
ghost use Rattle.occ_types.specs.PlainData.{part_of};
ghost use Rattle.occ_types.specs.Spelling.{key_text};

use crate::fault::{Fault, Refused};
use crate::key_parts::KeyPart;
use std::alloc::{AllocError, Allocator};
use std::cmp::Ordering;
use std::fmt;
use std::hash::{Hash, Hasher};
use std::marker::Model;
use std::sync::Arc;

/// A key of two parts, which clauses see as the pair of the plain parts. Its copies share them on the heap, so that other keys stay
/// short and a copy takes no memory. `Display` writes it as the text formats do.
#[derive(Drop)]
#[derive_where(Debug)]
pub struct Pair<A: Allocator> {
    parts: Arc<[KeyPart<A>; 2], A>,
}

impl<A: Allocator> Model for Pair<A> {
    ghost use Rattle.occ_types.specs.KeyPart.{KeyPart as Plain};

    ghost Value = { Plain × Plain };

    ghost use Rattle.occ_types.specs.PlainData.{both_parts};

    ghost view = { λ pair. both_parts pair.parts.value };
}

impl<A: Allocator> Pair<A> {
    /// The key of two parts. Refused with `Memory`, and the parts handed back, where there is no memory for it.
    pub fn new(
        alloc: A,
        first: KeyPart<A>,
        second: KeyPart<A>,
    ) -> Result<Pair<A>, Refused<(KeyPart<A>, KeyPart<A>)>>
        ensures { MatchResult result
            (λ pair. pair ≡ (part_of first, part_of second))
            (λ refused. (refused.fault ≡ Memory) × (refused.value.0 ≡ first) × (refused.value.1 ≡ second)) }
    {
        let parts = [first, second];
        match Arc::new(alloc, parts) {
            Ok(parts) => Ok(Pair { parts }),
            Err(refused) => {
                let parts = refused.value;
                Err(no_memory(parts))
            }
        }
    }

    /// The first part.
    pub fn first(&self) -> &KeyPart<A>
        ensures { part_of result.now ≡ self.now.0 }
    {
        let [first, _] = &*self.parts;
        first
    }

    /// The second part.
    pub fn second(&self) -> &KeyPart<A>
        ensures { part_of result.now ≡ self.now.1 }
    {
        let [_, second] = &*self.parts;
        second
    }
}

impl<A: Allocator + Clone> Pair<A> {
    /// The next key of two parts: the first one with the next of the second one. An error where there is no memory for it.
    pub fn after(&self, alloc: A) -> Result<Pair<A>, AllocError>
        ensures { IfOk result (λ next. next ≡ (self.now.0, part_after self.now.1)) }
    {
        let second = self.second().after(alloc.clone()?)?;
        let first = self.first().clone()?;
        match Pair::new(alloc, first, second) {
            Ok(pair) => Ok(pair),
            Err(_) => Err(AllocError),
        }
    }
}

// There is no memory for the key of two parts, which are handed back.
fn no_memory<A: Allocator>(parts: [KeyPart<A>; 2]) -> Refused<(KeyPart<A>, KeyPart<A>)>
    ensures parts { parts ≡ result.value.0 ∷ result.value.1 ∷ [] }
    ensures fault { result.fault ≡ Memory }
{
    let [first, second] = parts;
    Refused {
        value: (first, second),
        fault: Fault::Memory,
    }
}

impl<A: Allocator> Clone for Pair<A> {
    ghost is_clone = { λ source copy. copy ≡ source };

    fn clone(&self) -> Result<Pair<A>, AllocError> {
        Ok(Pair {
            parts: Arc::try_clone(&self.parts)?,
        })
    }
}

impl<A: Allocator> fmt::Display for Pair<A> {
    ghost output = { λ pair. Some (key_text (PlainPair pair.0 pair.1)) };

    fn fmt<W: fmt::Write>(&self, f: &mut fmt::Formatter<W>) -> fmt::Result {
        let (first, second) = (self.first(), self.second());
        write!(f, "{first}+{second}")
    }
}

impl<A: Allocator> PartialEq for Pair<A> {
    ghost eq = { eq_by_cmp pair_cmp };

    ghost laws = { partial_equiv_from_equiv pair_equiv };

    fn eq(&self, other: &Pair<A>) -> bool {
        self.first() == other.first() && self.second() == other.second()
    }
}

impl<A: Allocator> Eq for Pair<A> {
    ghost laws = { pair_equiv };
}

impl<A: Allocator> PartialOrd for Pair<A> {
    ghost partial_cmp = { as_partial_cmp pair_cmp };

    ghost laws = { pair_po };

    fn partial_cmp(&self, other: &Pair<A>) -> Option<Ordering> {
        Some(self.cmp(other))
    }
}

impl<A: Allocator> Ord for Pair<A> {
    ghost cmp = { pair_cmp };

    ghost total = { pair_cmp_total };

    ghost matches_partial_cmp = { λ a b. refl };

    ghost matches_eq = { λ a b. refl };

    fn cmp(&self, other: &Pair<A>) -> Ordering {
        match self.first().cmp(other.first()) {
            Ordering::Less => Ordering::Less,
            Ordering::Equal => self.second().cmp(other.second()),
            Ordering::Greater => Ordering::Greater,
        }
    }
}

impl<A: Allocator> Hash for Pair<A> {
    ghost hash_input = { pair_fed };

    ghost respects_eq = { pair_fed_alike };

    fn hash<H: Hasher>(&self, state: &mut H) {
        self.first().hash(state);
        self.second().hash(state);
    }
}
