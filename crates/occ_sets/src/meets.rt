//! Whether the writes of one transaction meet what another read or writes.
ghost use Rattle.std.specs.Prelude.{◌≡◌, [], ◌∷◌, map, slice_get, false};
ghost use Rattle.std.specs.Option.{option_map_or};
ghost use Rattle.occ_model.specs.State.{meets_question, meets_reads, meets_writes};
ghost use Rattle.occ_sets.specs.Entries.{question_lent};
ghost use Rattle.occ_sets.specs.OwnWrites.{written};
ghost use Rattle.occ_sets.specs.PlainSets.{write_of, writes_of};
ghost use Rattle.occ_sets.specs.ShortList.{values};

use crate::entries::ObservationRef;
use crate::own_writes::{Content, Write};
use crate::reads::ReadSet;
use crate::short_list::ShortList;
use crate::writes::WriteSet;
use std::alloc::Allocator;

/// Whether some object that is written is asked for by some question.
pub fn meets_reads<A: Allocator>(writes: &WriteSet<A>, reads: &ReadSet<A>) -> bool
    ensures { result ≡ meets_reads writes.now (map (λ o. o.0) reads.now) }
{
    for place in 0..reads.len() {
        if meets_read(writes, reads, place) {
            return true;
        }
    }
    false
}

// Whether some object that is written is asked for by the question at a place.
fn meets_read<A: Allocator>(writes: &WriteSet<A>, reads: &ReadSet<A>, place: usize) -> bool
    ensures { result ≡ option_map_or (λ o. meets_question writes.now o.0) (slice_get reads.now place) false }
{
    match reads.at(place) {
        None => false,
        Some(seen) => writes.meets_observation(&seen),
    }
}

impl<A: Allocator> WriteSet<A> {
    /// Whether the set writes what the question of an observation asks for, as `meets` has it.
    pub fn meets_observation(&self, seen: &ObservationRef<'_, A>) -> bool
        ensures { result ≡ meets_question self.now (question_lent seen.now) }
    {
        match seen {
            ObservationRef::Key(object, _) => self.writes(object),
            ObservationRef::Whole(observation) => self.meets(&observation.question),
        }
    }
}

/// Whether some object is in both sets. Each object of `others` is looked up in `writes`.
pub fn meets_writes<A: Allocator>(writes: &WriteSet<A>, others: &WriteSet<A>) -> bool
    ensures { result ≡ meets_writes writes.now others.now }
{
    match others.handle().get() {
        None => false,
        Some(others) => writes_some(writes, others.content()),
    }
}

// Whether a set writes some object of others.
fn writes_some<A: Allocator>(writes: &WriteSet<A>, others: &Content<A>) -> bool
    ensures { result ≡ meets_writes writes.now (written others.now) }
{
    match others {
        Content::Few(list) => writes_one_of(writes, list),
        Content::Many(many) => many.as_map().keys().any(|object| writes.writes(object)),
    }
}

// Whether a set writes some object of a few writes.
fn writes_one_of<A: Allocator>(writes: &WriteSet<A>, others: &ShortList<Write<A>, A>) -> bool
    ensures { result ≡ meets_writes writes.now (writes_of (values others.now)) }
{
    match others {
        ShortList::Empty => false,
        ShortList::Few(first, second) => match second {
            None => writes.writes(&first.0),
            Some(second) => writes_either(writes, first, second),
        },
        ShortList::Many(list) => writes_some_of(writes, list.as_slice()),
    }
}

// Whether a set writes the object of one of two writes.
fn writes_either<A: Allocator>(writes: &WriteSet<A>, first: &Write<A>, second: &Write<A>) -> bool
    ensures { result ≡ meets_writes writes.now (write_of first.now ∷ write_of second.now ∷ []) }
{
    writes.writes(&first.0) || writes.writes(&second.0)
}

// Whether a set writes some object of a list.
fn writes_some_of<A: Allocator>(writes: &WriteSet<A>, others: &[Write<A>]) -> bool
    ensures { result ≡ meets_writes writes.now (writes_of others.now) }
{
    others.iter().any(|write| writes.writes(&write.0))
}
