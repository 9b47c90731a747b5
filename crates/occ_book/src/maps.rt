//! Writes among the keys of a table that are no numbers, and rows that come in new.
ghost use Rattle.std.specs.Prelude.{◌≡◌, IfOk, IfErr, OnOk, OnErr, IsSome, IsOkUnless, Some, None};
ghost use Rattle.std.specs.Ordering.{on};
ghost use Rattle.std.specs.BTreeMap.{IsUnchanged, get};
ghost use Rattle.occ_types.specs.declared.fault.Fault.TheVariants.{Memory};
ghost use Rattle.occ_types.specs.declared.keys.Key.TheVariants as keys;
ghost use Rattle.occ_pages.specs.Entries as pages;
ghost use Rattle.occ_types.specs.Key.{key_cmp};
ghost use Rattle.occ_types.specs.PlainData.{key_of};
ghost use Rattle.occ_book.specs.Content.{IsPut};

use occ_pages::PageMap;
use occ_types::{Fault, Key, Refused, Row};
use std::alloc::{AllocFailed, Allocator};
use std::collections::BTreeMap;
use std::mem;

// Puts a row under a key, and hands out the one that stood there. The key is copied only where it is new.
pub(crate) fn exchange_row<A: Allocator + Clone>(
    map: &mut BTreeMap<Key<A>, Row<A>, A>,
    key: &Key<A>,
    row: Row<A>,
) -> Result<Option<Row<A>>, Fault>
    ensures was { IfOk result (λ was. was ≡ get (on key_of key_cmp) map.old key.now) }
    ensures ok { OnOk result (IsPut map.old key.now (Some row) map.new) }
    ensures err { OnErr result (IsUnchanged map.old map.new) }
    ensures memory { IsOkUnless result Memory }
{
    if let Some(place) = map.get_mut(key) {
        return Ok(Some(mem::replace(place, row)));
    }
    let was = map.insert(key.clone()?, row)?;
    Ok(was)
}

// Puts a row under a key. Refused with `Memory` at a new key alone, which leaves the map as it was and hands both back.
pub(crate) fn insert_row<A: Allocator + Clone>(
    map: &mut BTreeMap<Key<A>, Row<A>, A>,
    key: Key<A>,
    row: Row<A>,
) -> Result<(), Refused<(Key<A>, Row<A>)>>
    ensures ok { OnOk result (IsPut map.old key (Some row) map.new) }
    ensures err { OnErr result (IsUnchanged map.old map.new) }
    ensures handed_back { IfErr result (λ refused. refused.value ≡ (key, row)) }
    ensures memory { IfErr result (λ refused. refused.fault ≡ Memory) }
{
    match map.insert(key, row) {
        Ok(_was) => Ok(()),
        Err(AllocFailed { value }) => Err(Refused {
            value,
            fault: Fault::Memory,
        }),
    }
}

// Puts a row under a number. Refused with `Memory` at a new number alone, which leaves the map as it was and hands the row and its key back.
pub(crate) fn insert_number<A: Allocator + Clone>(
    map: &mut PageMap<Row<A>, A>,
    number: u64,
    row: Row<A>,
) -> Result<(), Refused<(Key<A>, Row<A>)>>
    ensures ok { OnOk result (map.new ≡ pages.put map.old number row) }
    ensures err { OnErr result (map.new ≡ map.old) }
    ensures handed_back { IfErr result (λ refused. refused.value ≡ (keys.Num number, row)) }
    ensures memory { IfErr result (λ refused. refused.fault ≡ Memory) }
{
    match map.insert(number, row) {
        Ok(_was) => Ok(()),
        Err(AllocFailed { value }) => Err(Refused {
            value: (Key::Num(number), value),
            fault: Fault::Memory,
        }),
    }
}

// Puts a row in the place of the one under a key, where there is one.
pub(crate) fn replace_row<A: Allocator>(
    map: &mut BTreeMap<Key<A>, Row<A>, A>,
    key: &Key<A>,
    row: Row<A>,
)
    ensures there { IsSome (get (on key_of key_cmp) map.old key.now) → IsPut map.old key.now (Some row) map.new }
    ensures missing { get (on key_of key_cmp) map.old key.now ≡ None → IsUnchanged map.old map.new }
{
    if let Some(place) = map.get_mut(key) {
        *place = row;
    }
}

// Deletes the row under a key, where there is one.
pub(crate) fn delete_row<A: Allocator>(map: &mut BTreeMap<Key<A>, Row<A>, A>, key: &Key<A>)
    ensures { IsPut map.old key.now None map.new }
{
    let _deleted = map.remove(key);
}
