//! The tables of a random book, and its keys. A place names a key of a table; places come in the order of tables and keys.
use occ_types::{Fault, Key, KeyKind, KeyPart, Kind, PartKind, Schema};
use std::alloc::Global;

/// How many tables there are.
pub(crate) const TABLES: usize = 3;
/// How many keys a table has.
pub(crate) const KEYS: usize = 8;
/// How many places there are.
pub(crate) const PLACES: usize = TABLES * KEYS;

/// A table of numbers, one of texts, and one of pairs. Each row is one number.
pub(crate) fn schema(alloc: Global) -> Result<Schema<Global>, Fault> {
    let pairs = KeyKind::Pair(PartKind::Num, PartKind::Text);
    let columns: &[Kind] = &[Kind::Int];
    let tables = [
        ("numbers", KeyKind::Num, columns),
        ("texts", KeyKind::Text, columns),
        ("pairs", pairs, columns),
    ];
    Schema::of(alloc, &tables)
}

/// The table of a place.
pub(crate) fn table_of(place: usize) -> usize {
    place / KEYS
}

/// The key of a place.
pub(crate) fn key_of(alloc: Global, place: usize) -> Result<Key<Global>, Fault> {
    let number = (place % KEYS) as u64;
    match table_of(place) {
        0 => Ok(Key::Num(number)),
        1 => text_key(alloc, number),
        _ => pair_key(alloc, number),
    }
}

fn text_key(alloc: Global, number: u64) -> Result<Key<Global>, Fault> {
    let text = format!(in alloc; "key {number}")?;
    Ok(Key::text(alloc, text.as_str())?)
}

fn pair_key(alloc: Global, number: u64) -> Result<Key<Global>, Fault> {
    let text = format!(in alloc; "{number}")?;
    let second = KeyPart::text(alloc, text.as_str())?;
    Ok(Key::pair(alloc, KeyPart::Num(number / 3), second)?)
}
