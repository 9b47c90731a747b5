//! The key and the cells of a record of CSV.

use csv::StringRecord;
use occ_types::{Cell, Fault, Key, KeyKind, KeyPart, Kind, PartKind, Row, TableDef};
use occ_words::fault_words::advice;
use std::alloc::{AllocError, AllocFailed, Global};
use std::fmt::{self, Display, Formatter, Write};

/// What is said where semicolons stand between fields.
pub(crate) const COMMAS: &str = "; its fields have semicolons between them, and need commas";

/// A field, as it is told.
#[derive(Clone, Copy)]
struct Shown<'f>(&'f str);

impl Display for Shown<'_> {
    fn fmt<W: Write>(&self, f: &mut Formatter<W>) -> fmt::Result {
        if self.0.is_empty() {
            return f.write_str("an empty field");
        }
        write!(f, "`{}`", self.0)
    }
}

/// Why a record is no row of its table.
#[derive(Drop)]
pub(crate) enum Unfit {
    /// What is wrong with it.
    Words(String),
    /// Memory was refused.
    Memory,
}

impl From<AllocError> for Unfit {
    fn from(_refused: AllocError) -> Unfit {
        Unfit::Memory
    }
}

impl<T: Drop> From<AllocFailed<T>> for Unfit {
    fn from(_refused: AllocFailed<T>) -> Unfit {
        Unfit::Memory
    }
}

/// The key of a record that has as many fields as its table asks for.
pub(crate) fn read_key(
    alloc: Global,
    table: &TableDef<Global>,
    record: &StringRecord,
) -> Result<Key<Global>, Unfit> {
    let wanted = parts_of(table.key).saturating_add(table.columns.len());
    if record.len() != wanted {
        return Err(Unfit::Words(uneven(alloc, record, wanted)?));
    }
    let key = key_of(alloc, table.key, field(record, 0), field(record, 1))?;
    check(alloc, table.check_key(&key))?;
    Ok(key)
}

/// The row of a record that has as many fields as its table asks for.
pub(crate) fn read_row(
    alloc: Global,
    table: &TableDef<Global>,
    record: &StringRecord,
) -> Result<Row<Global>, Unfit> {
    let mut cells = Vec::new(alloc);
    let mut place = parts_of(table.key);
    for kind in &table.columns {
        let cell = cell_of(alloc, *kind, field(record, place))?;
        cells.push(cell)?;
        place = place.saturating_add(1);
    }
    let row = Row::from_cells(cells)?;
    check(alloc, table.check_row(&row))?;
    Ok(row)
}

// What is wrong with a record that has another number of fields than is wanted.
fn uneven(alloc: Global, record: &StringRecord, wanted: usize) -> Result<String, AllocError> {
    let found = record.len();
    let mut why = format!(in alloc;
        "it has {found} fields in place of {wanted}: those of the key, and one for each column"
    )?;
    if has_semicolons(record) {
        why.push_str(COMMAS)?;
    }
    Ok(why)
}

/// Whether the fields of a record have semicolons between them, as far as that can be seen.
pub(crate) fn has_semicolons(record: &StringRecord) -> bool {
    record.len() == 1 && field(record, 0).contains(';')
}

// How many fields a key has.
fn parts_of(kind: KeyKind) -> usize {
    match kind {
        KeyKind::Num | KeyKind::Text => 1,
        KeyKind::Pair(_, _) => 2,
    }
}

fn field<'r>(record: &'r StringRecord, place: usize) -> &'r str {
    record.get(place).unwrap_or("")
}

fn key_of(alloc: Global, kind: KeyKind, first: &str, second: &str) -> Result<Key<Global>, Unfit> {
    match kind {
        KeyKind::Num => Ok(Key::Num(number_of(alloc, first)?)),
        KeyKind::Text => Ok(Key::text(alloc, first)?),
        KeyKind::Pair(one, other) => {
            let one = part_of(alloc, one, first)?;
            let other = part_of(alloc, other, second)?;
            match Key::pair(alloc, one, other) {
                Ok(key) => Ok(key),
                Err(_refused) => Err(Unfit::Memory),
            }
        }
    }
}

fn part_of(alloc: Global, kind: PartKind, field: &str) -> Result<KeyPart<Global>, Unfit> {
    match kind {
        PartKind::Num => Ok(KeyPart::Num(number_of(alloc, field)?)),
        PartKind::Text => Ok(KeyPart::text(alloc, field)?),
    }
}

fn cell_of(alloc: Global, kind: Kind, field: &str) -> Result<Cell<Global>, Unfit> {
    match kind {
        Kind::Int => Ok(Cell::Int(int_of(alloc, field)?)),
        Kind::Text => Ok(Cell::text(alloc, field)?),
    }
}

fn number_of(alloc: Global, field: &str) -> Result<u64, Unfit> {
    match field.parse::<u64>() {
        Ok(number) => Ok(number),
        Err(_) => {
            let why = format!(in alloc;
                "{} is no key, or no part of one: that is a whole number from 0 to 2^64 - 1",
                Shown(field)
            )?;
            Err(Unfit::Words(why))
        }
    }
}

fn int_of(alloc: Global, field: &str) -> Result<i64, Unfit> {
    match field.parse::<i64>() {
        Ok(number) => Ok(number),
        Err(_) => {
            let why = format!(in alloc;
                "{} is no cell of its column: that is a whole number from -2^63 to 2^63 - 1",
                Shown(field)
            )?;
            Err(Unfit::Words(why))
        }
    }
}

// What a table says of a key or a row of the right kinds.
fn check(alloc: Global, checked: Result<(), Fault>) -> Result<(), Unfit> {
    match checked {
        Ok(()) => Ok(()),
        Err(fault) => Err(Unfit::Words(String::from_str(alloc, advice(fault))?)),
    }
}
