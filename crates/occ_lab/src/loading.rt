//! `occ_lab load`.

use crate::csv_tables::{CsvTable, NoTable, read_table};
use crate::files::{name_of, read_file, tell_trouble};
use anyhow::Result;
use occ_book::{Base, Book, Marks};
use occ_print::books::write_book;
use occ_text::headers::Limits;
use occ_text::output::Output;
use occ_text::trouble::Trouble;
use occ_text::versions::Version;
use occ_types::{Fault, Schema};
use std::alloc::Global;
use std::io::Write;

/// How many items wait in a queue, and of how many transactions the write sets are kept, by the header of a book that is made.
const QUEUE: usize = 16;

const KEEP: usize = 1_024;

/// A book that was made, and the tables that it is of.
#[derive(Drop)]
struct Made {
    schema: Schema<Global>,
    book: Book<Global, ()>,
}

/// Writes the book of one base, of the rows of a CSV file, to standard output.
pub(crate) fn load(rt: &HostRuntime, path: &str, sessions: usize) -> Result<u8> {
    let text = read_file(rt, path)?;
    let made = match make(rt.alloc(), text.as_slice(), sessions) {
        Ok(made) => made,
        Err(NoTable::Line(line, why)) => {
            let name = name_of(path);
            eprintln!(rt; "{name}:{line}: {why}")?;
            return Ok(2);
        }
        Err(NoTable::Memory) => return tell_trouble(rt, path, b"", Trouble::Memory),
    };
    match print(rt.alloc(), &made, sessions, &mut rt.stdout()) {
        Ok(()) => Ok(0),
        Err(trouble) => tell_trouble(rt, path, b"", trouble),
    }
}

// Makes a book of a table of CSV.
fn make(alloc: Global, text: &[u8], sessions: usize) -> Result<Made, NoTable> {
    let CsvTable { schema, base } = read_table(alloc, text, sessions)?;
    match book_of(alloc, base, sessions) {
        Ok(book) => Ok(Made { schema, book }),
        Err(_memory) => Err(NoTable::Memory),
    }
}

// The book of a store that goes on from a base, and has done nothing yet.
fn book_of(alloc: Global, base: Base<Global>, sessions: usize) -> Result<Book<Global, ()>, Fault> {
    let table = base.state()?;
    let marks = Marks::new(alloc, sessions)?;
    Ok(Book {
        base,
        log: Vec::new(alloc),
        table,
        marks,
        low: 0,
        tnc: 0,
    })
}

// Prints a book.
fn print<W: Write>(
    alloc: Global,
    made: &Made,
    sessions: usize,
    writer: &mut W,
) -> Result<(), Trouble> {
    let limits = Limits {
        version: Version::Two,
        sessions,
        queue: QUEUE,
        keep: KEEP,
    };
    let mut output = Output::new(alloc);
    write_book(
        alloc,
        &mut output,
        writer,
        limits,
        &made.schema,
        &made.book.view(),
    )?;
    output.flush(writer)?;
    Ok(())
}
