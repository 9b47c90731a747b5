//! The observations of a set, one after another.
ghost use Rattle.std.specs.Prelude.{◌≡◌, drop};
ghost use Rattle.std.specs.Iterator.{YieldsFirstBy, item_count};
ghost use Rattle.occ_sets.specs.Entries.{observation_lent};

use crate::entries::ObservationRef;
use crate::reads::ReadSet;
use std::alloc::Allocator;

/// The observations of a set from a place on, in the order asked. `ReadSet::iter` begins with the first one.
#[derive(Drop)]
pub struct ReadSetIter<'a, A: Allocator> {
    set: &'a ReadSet<A>,
    place: usize,
}

impl<A: Allocator> ReadSet<A> {
    /// The observations, one after another, in the order asked.
    pub fn iter(&self) -> ReadSetIter<'_, A>
        ensures { drop result.place result.set.now ≡ self.now }
    {
        ReadSetIter {
            set: self,
            place: 0,
        }
    }
}

impl<'a, A: Allocator> Iterator for ReadSetIter<'a, A> {
    type Item = ObservationRef<'a, A>;

    ghost next_gives = { YieldsFirstBy observation_lent (λ iter. drop iter.place iter.set.now) };

    ghost remaining = { item_count (λ iter. drop iter.place iter.set.now) };

    fn next(&mut self) -> Option<ObservationRef<'a, A>> {
        let seen = self.set.at(self.place)?;
        self.place += 1;
        Some(seen)
    }
}
