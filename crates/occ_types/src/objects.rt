//! The names of rows.
ghost use Rattle.std.specs.Prelude.{◌≡◌, refl};
ghost use Rattle.std.specs.Ordering.{on, eq_by_cmp, as_partial_cmp};
ghost use Rattle.std.specs.Cmp.{on_per, on_equiv, on_total, on_po, partial_equiv_from_equiv};
ghost use Rattle.occ_types.specs.Object.{object_cmp, object_cmp_total};
ghost use Rattle.occ_types.specs.Same.{object_same_equiv, object_po, object_fed, object_fed_alike};
ghost use Rattle.occ_types.specs.PlainData.{object_of};

use crate::keys::Key;
use std::alloc::{AllocError, Allocator};
use std::cmp::Ordering;
use std::hash::{Hash, Hasher};

/// A row's name: its table, by its place in the schema, and its key.
#[derive(Drop)]
#[derive_where(Debug)]
pub struct Object<A: Allocator> {
    /// The place of the table.
    pub table: usize,
    /// The key.
    pub key: Key<A>,
}

impl<A: Allocator> Clone for Object<A> {
    ghost is_clone = { λ source copy. copy ≡ source };

    fn clone(&self) -> Result<Object<A>, AllocError> {
        Ok(Object {
            table: self.table,
            key: self.key.clone()?,
        })
    }
}

impl<A: Allocator> PartialEq for Object<A> {
    ghost eq = { on object_of (eq_by_cmp object_cmp) };

    ghost laws = { on_per object_of (partial_equiv_from_equiv object_same_equiv) };

    #[tactic(auto, using(crate::proofs::Asked::objects_tied))]
    fn eq(&self, other: &Object<A>) -> bool {
        self.table == other.table && self.key == other.key
    }
}

impl<A: Allocator> Eq for Object<A> {
    ghost laws = { on_equiv object_of object_same_equiv };
}

impl<A: Allocator> PartialOrd for Object<A> {
    ghost partial_cmp = { as_partial_cmp (on object_of object_cmp) };

    ghost laws = { on_po object_of object_po };

    fn partial_cmp(&self, other: &Object<A>) -> Option<Ordering> {
        Some(self.cmp(other))
    }
}

impl<A: Allocator> Ord for Object<A> {
    ghost cmp = { on object_of object_cmp };

    ghost total = { on_total object_of object_cmp_total };

    ghost matches_partial_cmp = { λ a b. refl };

    ghost matches_eq = { λ a b. refl };

    fn cmp(&self, other: &Object<A>) -> Ordering {
        match self.table.cmp(&other.table) {
            Ordering::Less => Ordering::Less,
            Ordering::Equal => self.key.cmp(&other.key),
            Ordering::Greater => Ordering::Greater,
        }
    }
}

impl<A: Allocator> Hash for Object<A> {
    ghost hash_input = { λ object. object_fed (object_of object) };

    ghost respects_eq = { λ a b. object_fed_alike (object_of a) (object_of b) };

    fn hash<H: Hasher>(&self, state: &mut H) {
        self.table.hash(state);
        self.key.hash(state);
    }
}
