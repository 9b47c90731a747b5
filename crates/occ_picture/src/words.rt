//! What transactions read and wrote, in words.

use crate::encounters::object_met;
use occ_book::LogRow;
use occ_sets::ObservationRef;
use occ_text::writers::{write_counted, write_end, write_key};
use occ_types::{Object, Question, Schema};
use std::alloc::{AllocError, Allocator};

/// Appends words.
pub(crate) fn say<A: Allocator>(line: &mut String<A>, words: &str) -> Result<(), AllocError> {
    line.push_str(words)
}

/// Appends words and a number behind them.
pub(crate) fn put<A: Allocator>(
    line: &mut String<A>,
    words: &str,
    number: u64,
) -> Result<(), AllocError> {
    write_counted(line, words, number)
}

// The name of a table, or no words for one that isn't there.
fn table_name<A: Allocator>(schema: &Schema<A>, place: usize) -> &str {
    match schema.tables().get(place) {
        Some(table) => table.name.as_str(),
        None => "",
    }
}

// Appends the name of a table and a space.
fn write_table<A: Allocator>(
    line: &mut String<A>,
    schema: &Schema<A>,
    place: usize,
) -> Result<(), AllocError> {
    say(line, table_name(schema, place))?;
    say(line, " ")
}

/// Appends an object: `t 5`.
pub(crate) fn write_object<A: Allocator>(
    line: &mut String<A>,
    schema: &Schema<A>,
    object: &Object<A>,
) -> Result<(), AllocError> {
    write_table(line, schema, object.table)?;
    write_key(line, &object.key)
}

/// Appends the object on which a row and an opponent of it met.
pub(crate) fn write_met<A: Allocator, O>(
    line: &mut String<A>,
    schema: &Schema<A>,
    at: &LogRow<A, O>,
    other: &LogRow<A, O>,
) -> Result<(), AllocError> {
    match object_met(at, other) {
        Some(object) => write_object(line, schema, object),
        None => Ok(()),
    }
}

/// Appends what a read asked for: `t 5` or `t 1..10`, where `*` stands for a missing end.
pub(crate) fn write_asked<A: Allocator>(
    line: &mut String<A>,
    schema: &Schema<A>,
    read: ObservationRef<'_, A>,
) -> Result<(), AllocError> {
    match read {
        ObservationRef::Key(object, _) => write_object(line, schema, object),
        ObservationRef::Whole(read) => write_question(line, schema, &read.question),
    }
}

fn write_question<A: Allocator>(
    line: &mut String<A>,
    schema: &Schema<A>,
    question: &Question<A>,
) -> Result<(), AllocError> {
    match question {
        Question::One(object) => write_object(line, schema, object),
        Question::Span { lower, upper, .. } => {
            write_table(line, schema, question.table())?;
            write_end(line, lower)?;
            say(line, "..")?;
            write_end(line, upper)
        }
    }
}
