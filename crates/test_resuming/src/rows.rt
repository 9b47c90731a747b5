//! The rows of a book as a plain list, which the test itself keeps.
use crate::objects::{KEYS, PLACES, key_of, table_of};
use occ_book::Tables;
use occ_types::{Fault, Key, Row};
use std::alloc::Global;

/// The row of each place, where there is one.
#[derive(Clone, Copy, PartialEq, Eq)]
pub(crate) struct Rows {
    rows: [Option<i64>; PLACES],
}

impl Rows {
    /// No row.
    pub(crate) fn none() -> Rows {
        Rows {
            rows: [None; PLACES],
        }
    }

    /// The row of a place.
    pub(crate) fn at(&self, place: usize) -> Option<i64> {
        *self.rows.get(place)?
    }

    /// Puts or deletes the row of a place.
    pub(crate) fn set(&mut self, place: usize, row: Option<i64>) {
        if let Some(held) = self.rows.get_mut(place) {
            *held = row;
        }
    }

    /// Whether the places from one on and below another have the same rows in both.
    pub(crate) fn same(&self, other: &Rows, (first, behind): (usize, usize)) -> bool {
        for place in first..behind {
            if self.at(place) != other.at(place) {
                return false;
            }
        }
        true
    }

    /// Whether these are the rows of some tables.
    pub(crate) fn are_in(&self, alloc: Global, tables: &Tables<Global>) -> Result<bool, Fault> {
        let mut count = 0usize;
        for place in 0..PLACES {
            let key = key_of(alloc, place)?;
            let row = self.at(place);
            if !is_row(tables.row(table_of(place), &key), row) {
                return Ok(false);
            }
            count = count.saturating_add(usize::from(row.is_some()));
        }
        Ok(tables.len() == count)
    }

    /// Whether these are the rows of some places, one after another.
    pub(crate) fn are_answered(
        &self,
        alloc: Global,
        (first, behind): (usize, usize),
        rows: &[(Key<Global>, Row<Global>)],
    ) -> Result<bool, Fault> {
        let mut at = 0usize;
        for place in first..behind {
            let Some(number) = self.at(place) else {
                continue;
            };
            if !is_entry(alloc, rows.get(at), place, number)? {
                return Ok(false);
            }
            at = at.saturating_add(1);
        }
        Ok(rows.len() == at)
    }
}

/// Whether this is the row of a number, or none where there is none.
pub(crate) fn is_row(found: Option<&Row<Global>>, wanted: Option<i64>) -> bool {
    match found {
        Some(row) => wanted.is_some() && row.int(0) == wanted,
        None => wanted.is_none(),
    }
}

// Whether this is the key of a place with the row of a number.
fn is_entry(
    alloc: Global,
    entry: Option<&(Key<Global>, Row<Global>)>,
    place: usize,
    number: i64,
) -> Result<bool, Fault> {
    match entry {
        Some(entry) => Ok(entry.0 == key_of(alloc, place)? && entry.1.int(0) == Some(number)),
        None => Ok(false),
    }
}

/// The ends of a range of places, none where it is an end of the table.
pub(crate) fn ends(
    alloc: Global,
    (first, behind): (usize, usize),
) -> Result<(Option<Key<Global>>, Option<Key<Global>>), Fault> {
    let lower = if first % KEYS == 0 {
        None
    } else {
        Some(key_of(alloc, first)?)
    };
    let upper = if behind % KEYS == 0 {
        None
    } else {
        Some(key_of(alloc, behind)?)
    };
    Ok((lower, upper))
}
