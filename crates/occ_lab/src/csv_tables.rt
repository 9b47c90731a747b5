//! A table of CSV: its first record names the table and its kinds, and each further one is a key and a row.

use crate::csv_rows::{COMMAS, Unfit, has_semicolons, read_key, read_row};
use csv::{Error, ErrorKind, Position, Reader, ReaderBuilder, StringRecord};
use occ_book::{Base, Loading};
use occ_text::headers::table;
use occ_text::tokens::Unread;
use occ_text::versions::Version;
use occ_types::{Fault, Key, Object, Row, Schema, TableDef};
use occ_words::malformed_lines::say_malformed;
use std::alloc::{AllocError, AllocFailed, Global};

/// What a text may begin with that is no part of it.
const BYTE_ORDER_MARK: &[u8] = b"\xef\xbb\xbf";

/// What stands in front of a table's line where that is explained, with the number that it has then.
const HEAD: &str = "occ 2\nsessions 1\nqueue 1\nkeep 1\n";

const TABLE_LINE: u64 = 5;

/// What is wanted of a first record.
const NAMES_TABLE: &str =
    "the first record names a table and the kinds of its key and its cells, as accounts,num,int";

/// A table of CSV.
#[derive(Drop)]
pub(crate) struct CsvTable {
    /// The table, alone.
    pub(crate) schema: Schema<Global>,
    /// The base of its rows.
    pub(crate) base: Base<Global>,
}

/// Why a text is no table of CSV.
#[derive(Drop)]
pub(crate) enum NoTable {
    /// What is wrong with the record that begins at a line.
    Line(u64, String),
    /// Memory was refused.
    Memory,
}

impl From<AllocError> for NoTable {
    fn from(_refused: AllocError) -> NoTable {
        NoTable::Memory
    }
}

impl<T: Drop> From<AllocFailed<T>> for NoTable {
    fn from(_refused: AllocFailed<T>) -> NoTable {
        NoTable::Memory
    }
}

/// Reads a table of CSV, and makes a base of its rows with room for so many sessions.
pub(crate) fn read_table(alloc: Global, text: &[u8], sessions: usize) -> Result<CsvTable, NoTable> {
    let text = text.strip_prefix(BYTE_ORDER_MARK).unwrap_or(text);
    let mut records = records_of(alloc, text);
    let mut record = StringRecord::new(alloc);
    let Some(line) = take_record(alloc, text, &mut records, &mut record)? else {
        return Err(NoTable::Line(1, words(alloc, "the file has no record")?));
    };
    let table = table_of(alloc, line, &record)?;
    let base = base_of(alloc, text, &table, &mut records, sessions)?;
    let mut tables = Vec::new(alloc);
    tables.push(table)?;
    match Schema::new(tables) {
        Ok(schema) => Ok(CsvTable { schema, base }),
        // a table that was read fits a schema
        Err(_refused) => Err(NoTable::Memory),
    }
}

// The base of the rows of the records that are left.
fn base_of(
    alloc: Global,
    text: &[u8],
    table: &TableDef<Global>,
    records: &mut Reader<&[u8]>,
    sessions: usize,
) -> Result<Base<Global>, NoTable> {
    let mut loading = match Loading::new(alloc, 1, sessions) {
        Ok(loading) => loading,
        Err(_memory) => return Err(NoTable::Memory),
    };
    let mut record = StringRecord::new(alloc);
    for _ in 0..u64::MAX {
        let Some(line) = take_record(alloc, text, records, &mut record)? else {
            break;
        };
        let (object, row) = row_of(alloc, table, line, &record)?;
        match loading.put(object, row) {
            Ok(()) => {}
            Err(refused) if refused.fault == Fault::Memory => return Err(NoTable::Memory),
            Err(refused) => return Err(key_twice(alloc, text, table, line, &refused.value.0.key)?),
        }
    }
    Ok(loading.into_base())
}

// What is wrong with a row at a line, whose key stands before it. A record that is no row is told in its place, wherever it stands.
fn key_twice(
    alloc: Global,
    text: &[u8],
    table: &TableDef<Global>,
    line: u64,
    key: &Key<Global>,
) -> Result<NoTable, NoTable> {
    let mut records = records_of(alloc, text);
    let mut record = StringRecord::new(alloc);
    // the first record names the table
    let _head = take_record(alloc, text, &mut records, &mut record)?;
    let mut first = None;
    for _ in 0..u64::MAX {
        let Some(here) = take_record(alloc, text, &mut records, &mut record)? else {
            break;
        };
        let (object, _row) = row_of(alloc, table, here, &record)?;
        if object.key == *key {
            first = first.or(Some(here));
        }
    }
    let first = first.unwrap_or(line);
    let why = format!(in alloc; "its key stands at line {first} already")?;
    Ok(NoTable::Line(line, why))
}

// The records of a text, the first one among them.
fn records_of(alloc: Global, text: &[u8]) -> Reader<&[u8]> {
    ReaderBuilder::new()
        .has_headers(false)
        .flexible(true)
        .from_reader(alloc, text)
}

// Takes the next record of a text, and answers the line at which it begins; none at the end.
fn take_record(
    alloc: Global,
    text: &[u8],
    records: &mut Reader<&[u8]>,
    record: &mut StringRecord,
) -> Result<Option<u64>, NoTable> {
    match records.read_record(record) {
        Ok(true) => Ok(Some(line_of(text, record.position()))),
        Ok(false) => Ok(None),
        Err(error) => Err(unread(alloc, text, error)?),
    }
}

// Why a record can't be read. A slice of bytes never fails.
fn unread(alloc: Global, text: &[u8], error: Error) -> Result<NoTable, AllocError> {
    match error.into_kind() {
        ErrorKind::Utf8 { pos, err } => {
            let field = err.field().saturating_add(1);
            let why = format!(in alloc; "field {field} is no UTF-8")?;
            Ok(NoTable::Line(line_of(text, pos), why))
        }
        _ => Ok(NoTable::Memory),
    }
}

// The line at which a record begins: a reader tells where the one before it ended, and empty lines may stand between.
fn line_of(text: &[u8], position: Option<Position>) -> u64 {
    let Some(position) = position else {
        return 1;
    };
    let mut line = position.line();
    for byte in text.get(position.byte() as usize..).unwrap_or(b"") {
        match *byte {
            b'\n' => line = line.saturating_add(1),
            b'\r' => {}
            _ => break,
        }
    }
    line
}

// The table that the first record names.
fn table_of(alloc: Global, line: u64, record: &StringRecord) -> Result<TableDef<Global>, NoTable> {
    let mut text = String::from_str(alloc, "table")?;
    for field in record {
        text.push(' ')?;
        text.push_str(field)?;
    }
    match table(alloc, Version::Two, text.as_bytes()) {
        Ok(table) => Ok(table),
        Err(Unread::Memory) => Err(NoTable::Memory),
        Err(Unread::Malformed) => Err(NoTable::Line(line, no_head(alloc, record, text.as_str())?)),
    }
}

// Why the first record names no table. `text` is its line in a header.
fn no_head(alloc: Global, record: &StringRecord, text: &str) -> Result<String, AllocError> {
    let mut why = words(alloc, NAMES_TABLE)?;
    if has_semicolons(record) {
        why.push_str(COMMAS)?;
        return Ok(why);
    }
    for (place, field) in record.iter().enumerate() {
        if field.is_empty() {
            let number = place.saturating_add(1);
            write!(why, "; its field {number} is empty")?;
            return Ok(why);
        }
    }
    let header = format!(in alloc; "{HEAD}{text}\n")?;
    let saying = say_malformed(alloc, header.as_bytes(), TABLE_LINE)?;
    why.push_str(": ")?;
    why.push_str(saying.sentence.as_str())?;
    Ok(why)
}

// The row of a record.
fn row_of(
    alloc: Global,
    table: &TableDef<Global>,
    line: u64,
    record: &StringRecord,
) -> Result<(Object<Global>, Row<Global>), NoTable> {
    match fitting_row(alloc, table, record) {
        Ok(row) => Ok(row),
        Err(Unfit::Words(why)) => Err(NoTable::Line(line, why)),
        Err(Unfit::Memory) => Err(NoTable::Memory),
    }
}

fn fitting_row(
    alloc: Global,
    table: &TableDef<Global>,
    record: &StringRecord,
) -> Result<(Object<Global>, Row<Global>), Unfit> {
    let key = read_key(alloc, table, record)?;
    let row = read_row(alloc, table, record)?;
    Ok((Object { table: 0, key }, row))
}

fn words(alloc: Global, words: &str) -> Result<String, AllocError> {
    String::from_str(alloc, words)
}
