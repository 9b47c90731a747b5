//! The last write of each object among some writes.
ghost use Rattle.std.specs.Prelude.{◌≡◌, ℕ, drop, OnOk};
ghost use Rattle.occ_model.specs.State.{State, apply};
ghost use Rattle.occ_book.specs.LastWrites.{writes_in};
ghost use Rattle.occ_sets.specs.Sets.{ArePlaced};

use occ_sets::WriteSet;
use occ_types::{Object, Row};
use std::alloc::{AllocError, Allocator};
use std::collections::BTreeMap;

/// The last write of each object among some writes: its new row, or none where it is deleted. All are lent.
pub type LastWrites<'a, A> = BTreeMap<&'a Object<A>, Option<&'a Row<A>>, A>;

/// Notes the writes of a set after those that were noted, without the ones before the place `from`. A later write of an object takes the place of an earlier one.
///
/// Refused with `AllocError` where there is no memory to note one more object.
pub fn note_writes<'a, A: Allocator + Copy>(
    last: &mut LastWrites<'a, A>,
    writes: &'a WriteSet<A>,
    from: usize,
) -> Result<(), AllocError>
    ensures noted { OnOk result ((state : State) → apply state (writes_in last.new.entries) ≡ apply (apply state (writes_in last.old.entries)) (drop from writes.now)) }
    ensures placed { OnOk result ((tables : ℕ) → ArePlaced tables (writes_in last.old.entries) → ArePlaced tables writes.now → ArePlaced tables (writes_in last.new.entries)) }
{
    for place in from..writes.len() {
        if let Some((object, row)) = writes.write_at(place) {
            last.insert(object, row)?;
        }
    }
    Ok(())
}
