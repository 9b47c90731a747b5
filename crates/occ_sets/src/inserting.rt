//! A write done on those of one transaction, which go from a list into a map where they are no longer few.
ghost use Rattle.std.specs.Prelude.{◌≡◌, ◌<◌, ◌≤◌, ◌+◌, [], length, true, false, None, Some, is_some, not, IfOk, IfErr, OnOk, OnErr};
ghost use Rattle.indexmap.specs.IndexMap.{spare};
ghost use Rattle.occ_types.specs.declared.fault.Fault.TheVariants.{Memory};
ghost use Rattle.occ_types.specs.PlainData.{object_of};
ghost use Rattle.occ_model.specs.Overlay.{set, own};
ghost use Rattle.occ_sets.specs.OwnWrites.{written};
ghost use Rattle.occ_sets.specs.PlainSets.{writes_of};
ghost use Rattle.occ_sets.specs.Sets.{WritesOnce, place_in};
ghost use Rattle.occ_sets.specs.ShortList.{values};

use crate::few_writes::{is_new, place_of};
use crate::many_writes::{ManyWrites, WriteMap};
use crate::own_writes::{Content, FEW, Write};
use crate::short_list::ShortList;
use occ_types::{Fault, Object, Refused, Row};
use std::alloc::{AllocError, AllocFailed, Allocator};
use std::mem;

/// Does a write. It is refused, and handed back, where there is no memory, which leaves the writes as they were.
pub(crate) fn insert_in<A: Allocator + Copy>(
    content: &mut Content<A>,
    alloc: A,
    write: Write<A>,
) -> Result<(), Refused<Write<A>>>
    requires { WritesOnce (written content.old) }
    ensures ok { OnOk result (written content.new ≡ set (written content.old) (object_of write.0) write.1) }
    ensures err { OnErr result (written content.new ≡ written content.old) }
    ensures handed_back { IfErr result (λ refused. refused.value ≡ write) }
    ensures memory { IfErr result (λ refused. refused.fault ≡ Memory) }
    ensures only_new { OnErr result (own (written content.old) (object_of write.0) ≡ None) }
{
    if is_list_full_for(content, &write.0) && move_into_map(content, alloc).is_err() {
        return Err(memory(write));
    }
    match content {
        Content::Few(list) => insert_in_list(list, alloc, write),
        Content::Many(many) => many.insert(write),
    }
}

// Whether a new object is one more than stand in a list.
fn is_list_full_for<A: Allocator>(content: &Content<A>, object: &Object<A>) -> bool
    ensures { result ≡ true → is_some (own (written content.now) (object_of object.now)) ≡ false }
{
    match content {
        Content::Few(list) if list.len() >= FEW => is_new(list, object),
        _ => false,
    }
}

// Moves the writes of a list into a map. An error, where there is no memory for it, leaves them in the list.
#[cold]
#[inline(never)]
fn move_into_map<A: Allocator + Copy>(content: &mut Content<A>, alloc: A) -> Result<(), AllocError>
    requires { WritesOnce (written content.old) }
    ensures { written content.new ≡ written content.old }
{
    let Content::Few(ShortList::Many(list)) = content else {
        return Ok(());
    };
    match into_map(mem::replace(list, Vec::new(alloc))) {
        Ok(many) => {
            *content = Content::Many(many);
            Ok(())
        }
        Err(list) => {
            *content = Content::Few(ShortList::Many(list));
            Err(AllocError)
        }
    }
}

// Does a write on those of a list. It is refused, and handed back, where there is no memory.
fn insert_in_list<A: Allocator + Copy>(
    list: &mut ShortList<Write<A>, A>,
    alloc: A,
    write: Write<A>,
) -> Result<(), Refused<Write<A>>>
    ensures ok { OnOk result (writes_of (values list.new) ≡ set (writes_of (values list.old)) (object_of write.0) write.1) }
    ensures err { OnErr result (writes_of (values list.new) ≡ writes_of (values list.old)) }
    ensures handed_back { IfErr result (λ refused. refused.value ≡ write) }
    ensures memory { IfErr result (λ refused. refused.fault ≡ Memory) }
    ensures only_new { OnErr result (own (writes_of (values list.old)) (object_of write.0) ≡ None) }
{
    match place_of(list, &write.0) {
        Some(place) => {
            set_row(list, place, write);
            Ok(())
        }
        None => match list.push(alloc, write) {
            Ok(()) => Ok(()),
            Err(AllocFailed { value }) => Err(memory(value)),
        },
    }
}

// Gives the write at a place, which is of the same object, its new row.
fn set_row<A: Allocator>(list: &mut ShortList<Write<A>, A>, place: usize, write: Write<A>)
    requires { place_in (writes_of (values list.old)) (object_of write.0) ≡ Some place }
    ensures { writes_of (values list.new) ≡ set (writes_of (values list.old)) (object_of write.0) write.1 }
{
    match list {
        ShortList::Empty => {}
        ShortList::Few(first, _) if place == 0 => give(first, write.1),
        ShortList::Few(_, Some(second)) => give(second, write.1),
        ShortList::Few(_, None) => {}
        ShortList::Many(list) => set_row_among(list, place, write),
    }
}

// Gives a write its new row.
fn give<A: Allocator>(write: &mut Write<A>, row: Option<Row<A>>)
    ensures { write.new ≡ (write.old.0, row) }
{
    write.1 = row;
}

// Gives the write at a place of a list, which is of the same object, its new row.
fn set_row_among<A: Allocator>(list: &mut Vec<Write<A>, A>, place: usize, write: Write<A>)
    requires { place_in (writes_of list.old.items) (object_of write.0) ≡ Some place }
    ensures { writes_of list.new.items ≡ set (writes_of list.old.items) (object_of write.0) write.1 }
{
    list[place].1 = write.1;
}

// There is no memory for a write.
fn memory<A: Allocator>(value: Write<A>) -> Refused<Write<A>>
    ensures { result ≡ record { value = value; fault = Memory } }
{
    Refused {
        value,
        fault: Fault::Memory,
    }
}

// A map with the writes of a list and room for as many more. The list is handed back where there is no memory for it.
fn into_map<A: Allocator + Copy>(
    list: Vec<Write<A>, A>,
) -> Result<Box<ManyWrites<A>, A>, Vec<Write<A>, A>>
    requires { WritesOnce (writes_of list.items) }
    ensures ok { IfOk result (λ many. many.value ≡ writes_of list.items) }
    ensures err { IfErr result (λ back. back ≡ list) }
{
    let alloc = *list.allocator();
    let Ok(mut many) = Box::new(alloc, ManyWrites::from_map(WriteMap::new(alloc))) else {
        return Err(list);
    };
    let Ok(mut map) = WriteMap::with_capacity(alloc, list.len().saturating_mul(2)) else {
        return Err(list);
    };
    fill(&mut map, list);
    *many = ManyWrites::from_map(map);
    Ok(many)
}

// Moves writes of distinct objects into a map without a write that has room for them.
fn fill<A: Allocator + Copy>(map: &mut WriteMap<A>, list: Vec<Write<A>, A>)
    requires empty { map.old.entries ≡ [] }
    requires room { length list.items ≤ spare map.old }
    requires once { WritesOnce (writes_of list.items) }
    ensures { writes_of map.new.entries ≡ writes_of list.items }
{
    for (object, row) in list {
        put(map, object, row);
    }
}

// Does a write on a map that has room for it.
fn put<A: Allocator + Copy>(map: &mut WriteMap<A>, object: Object<A>, row: Option<Row<A>>)
    requires { 0 < spare map.old }
    ensures done { writes_of map.new.entries ≡ set (writes_of map.old.entries) (object_of object) row }
    ensures room { spare map.old ≤ spare map.new + 1 }
{
    let _done = map.insert(object, row);
}
