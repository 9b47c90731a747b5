//! The keys of three tables, in their order: numbers up to the greatest, texts, and pairs. Some of them have no next key.
use crate::places::{PLACES, Places, Rows};
use occ_client::{Core, Page};
use occ_types::{Fault, Key, KeyKind, KeyPart, Kind, PartKind, Schema};
use std::alloc::Global;

/// The texts, two of them as long as texts may be.
const TEXTS: &[&str] = &[
    "",
    "a",
    "a\0",
    "ab",
    "b",
    "xxxxxxxxxxxxxxxxxxxxxxxxxxxxxxxxxxxxxxxxxxxxxxxxxxxxxxxxxxxxxxxx",
    "y",
    "ya",
    "yb",
    "yc",
    "z",
    "zzzzzzzzzzzzzzzzzzzzzzzzzzzzzzzzzzzzzzzzzzzzzzzzzzzzzzzzzzzzzzzz",
];

/// The second parts of pairs.
const SECONDS: &[u64] = &[0, 1, 5, 7, 18446744073709551614, 18446744073709551615];

/// The keys of a table.
#[derive(Drop)]
pub(crate) struct Keys {
    table: usize,
    keys: Vec<Key<Global>>,
}

/// An empty store of so many sessions with a table of numbers, one of texts and one of pairs, whose rows are one number. It keeps eight
/// write sets. It is in a box, which is dropped by one call.
pub(crate) fn store(alloc: Global, sessions: usize) -> Result<Box<Core<Global>>, Fault> {
    let core = Core::open(alloc, schema(alloc)?, sessions, 8)?;
    Ok(Box::new(alloc, core)?)
}

fn schema(alloc: Global) -> Result<Schema<Global>, Fault> {
    let columns: &[Kind] = &[Kind::Int];
    let pairs = KeyKind::Pair(PartKind::Text, PartKind::Num);
    let tables = [
        ("n", KeyKind::Num, columns),
        ("t", KeyKind::Text, columns),
        ("p", pairs, columns),
    ];
    Schema::of(alloc, &tables)
}

impl Keys {
    /// The keys of a table.
    pub(crate) fn of(alloc: Global, table: usize) -> Result<Keys, Fault> {
        let mut keys = Vec::new(alloc);
        for place in 0..PLACES {
            keys.push(key_at(alloc, table, place)?)?;
        }
        Ok(Keys { table, keys })
    }

    /// The place of the table.
    pub(crate) fn table(&self) -> usize {
        self.table
    }

    /// The key at a place, where there is one.
    pub(crate) fn at(&self, place: usize) -> Option<&Key<Global>> {
        self.keys.get(place)
    }

    /// The key at the place of an end, where there is one.
    pub(crate) fn end(&self, place: Option<usize>) -> Option<&Key<Global>> {
        self.at(place?)
    }

    /// A copy of the key at a place.
    pub(crate) fn copy(&self, place: usize) -> Result<Key<Global>, Fault> {
        match self.at(place) {
            Some(key) => Ok(key.clone()?),
            None => Err(Fault::NoTable),
        }
    }

    /// Whether a key comes next to the one at a place: there is none behind the greatest number, and none behind a text of 64 bytes, or a
    /// pair that ends in that number, before the next text or pair that has other bytes.
    pub(crate) fn has_next(&self, place: usize) -> bool {
        match self.table {
            0 => place != 11,
            _ => place != 5 && place != 11,
        }
    }

    /// The place of a key; behind all places where it has none.
    pub(crate) fn place_of(&self, key: &Key<Global>) -> usize {
        for place in 0..PLACES {
            if self.at(place) == Some(key) {
                return place;
            }
        }
        PLACES
    }

    /// The rows of a page by their places, where they come in the order of their keys.
    pub(crate) fn rows_of(&self, page: &Page<Global>) -> Option<Rows> {
        let mut rows = Rows::none();
        let mut behind = 0usize;
        for (key, row) in page.rows.as_slice() {
            let place = self.place_of(key);
            if place < behind || place == PLACES {
                return None;
            }
            rows.set(place, row.int(0));
            behind = place.saturating_add(1);
        }
        Some(rows)
    }

    /// The rows that a store has.
    pub(crate) fn rows_in(&self, core: &Core<Global>) -> Rows {
        let mut rows = Rows::none();
        for place in 0..PLACES {
            if let Some(key) = self.at(place) {
                let row = core.table().row(self.table, key);
                rows.set(place, row.and_then(|row| row.int(0)));
            }
        }
        rows
    }
}

// The last number is the greatest.
fn key_at(alloc: Global, table: usize, place: usize) -> Result<Key<Global>, Fault> {
    match table {
        0 => Ok(Key::Num(18446744073709551604u64.saturating_add(place as u64))),
        1 => Ok(Key::text(alloc, text_at(place))?),
        _ => pair_at(alloc, place),
    }
}

fn text_at(place: usize) -> &'static str {
    TEXTS.get(place).copied().unwrap_or("")
}

// The first parts of the later pairs are as long as texts may be.
fn pair_at(alloc: Global, place: usize) -> Result<Key<Global>, Fault> {
    let text = text_at(if place < 6 { 1 } else { 5 });
    let first = KeyPart::text(alloc, text)?;
    let second = SECONDS.get(place % 6).copied().unwrap_or(0);
    Ok(Key::pair(alloc, first, KeyPart::Num(second))?)
}
