//! The writes of a set, one after another.
ghost use Rattle.std.specs.Prelude.{◌≡◌, drop};
ghost use Rattle.std.specs.Iterator.{YieldsFirstBy, item_count};
ghost use Rattle.std.specs.Option.{option_copied};
ghost use Rattle.occ_types.specs.PlainData.{object_of};

use crate::writes::WriteSet;
use occ_types::{Object, Row};
use std::alloc::Allocator;

/// The writes of a set from a place on, in the order of the first writes: each object with its new row, or with none where it is
/// deleted. `WriteSet::iter` begins with the first one.
#[derive(Drop)]
pub struct WriteSetIter<'a, A: Allocator> {
    set: &'a WriteSet<A>,
    place: usize,
}

impl<A: Allocator> WriteSet<A> {
    /// The writes, one after another, in the order of the first writes.
    pub fn iter(&self) -> WriteSetIter<'_, A>
        ensures { drop result.place result.set.now ≡ self.now }
    {
        WriteSetIter {
            set: self,
            place: 0,
        }
    }
}

impl<'a, A: Allocator> Iterator for WriteSetIter<'a, A> {
    type Item = (&'a Object<A>, Option<&'a Row<A>>);

    ghost next_gives = { YieldsFirstBy (λ write. (object_of write.0.now, option_copied write.1)) (λ iter. drop iter.place iter.set.now) };

    ghost remaining = { item_count (λ iter. drop iter.place iter.set.now) };

    fn next(&mut self) -> Option<(&'a Object<A>, Option<&'a Row<A>>)> {
        let write = self.set.write_at(self.place)?;
        self.place += 1;
        Some(write)
    }
}
