//! Parts of sentences: numbers, rows, objects, questions and answers, each as the texts spell it.

use occ_sets::{Answer, ObservationRef};
use occ_text::writers::{write_end, write_key, write_number, write_row};
use occ_types::{Key, Object, Question, Row, Schema};
use std::alloc::{AllocError, Global};
use std::str;

/// Appends texts one behind another.
pub fn push_all(line: &mut String, texts: &[&str]) -> Result<(), AllocError> {
    for text in texts {
        line.push_str(*text)?;
    }
    Ok(())
}

/// The first 60 bytes of a token or a line.
pub fn shown(bytes: &[u8]) -> &str {
    str::from_utf8(bytes.get(..60).unwrap_or(bytes)).unwrap_or("?")
}

/// Appends words and a number behind them.
pub fn write_counted(line: &mut String, words: &str, number: u64) -> Result<(), AllocError> {
    line.push_str(words)?;
    write_number(line, number)
}

/// Appends words and a transaction behind them: `transaction N of session S`.
pub fn write_transaction(
    line: &mut String,
    words: &str,
    number: u64,
    session: usize,
) -> Result<(), AllocError> {
    write_counted(line, words, number)?;
    write_counted(line, " of session ", session as u64)
}

// The name of the table at a place, or nothing where there is none.
fn table_name(schema: &Schema<Global>, place: usize) -> &str {
    match schema.tables().get(place) {
        Some(table) => table.name.as_str(),
        None => "",
    }
}

/// Appends a table and a key, `NAME KEY`.
pub fn write_named(
    line: &mut String,
    schema: &Schema<Global>,
    table: usize,
    key: &Key<Global>,
) -> Result<(), AllocError> {
    push_all(line, &[table_name(schema, table), " "])?;
    write_key(line, key)
}

/// Appends an object, `NAME KEY`.
pub fn write_object(
    line: &mut String,
    schema: &Schema<Global>,
    object: &Object<Global>,
) -> Result<(), AllocError> {
    write_named(line, schema, object.table, &object.key)
}

/// Appends a row, or `none`.
pub fn write_found(line: &mut String, row: Option<&Row<Global>>) -> Result<(), AllocError> {
    match row {
        Some(row) => write_row(line, row),
        None => line.push_str("none"),
    }
}

/// Appends what a read asked for: `NAME KEY`, or `NAME from END to END`.
pub fn write_asked(
    line: &mut String,
    schema: &Schema<Global>,
    seen: ObservationRef<'_, Global>,
) -> Result<(), AllocError> {
    match seen {
        ObservationRef::Key(object, _) => write_object(line, schema, object),
        ObservationRef::Whole(seen) => write_question(line, schema, &seen.question),
    }
}

fn write_question(
    line: &mut String,
    schema: &Schema<Global>,
    question: &Question<Global>,
) -> Result<(), AllocError> {
    match question {
        Question::One(object) => write_object(line, schema, object),
        Question::Span {
            table,
            lower,
            upper,
        } => {
            push_all(line, &[table_name(schema, *table), " from "])?;
            write_end(line, lower)?;
            line.push_str(" to ")?;
            write_end(line, upper)
        }
    }
}

/// Appends what a read was answered, as `write_answer` does an answer.
pub fn write_given(line: &mut String, seen: ObservationRef<'_, Global>) -> Result<(), AllocError> {
    match seen {
        ObservationRef::Key(_, row) => write_found(line, row),
        ObservationRef::Whole(seen) => write_answer(line, &seen.answer),
    }
}

/// Appends an answer: a row, `none`, or how many rows.
pub fn write_answer(line: &mut String, answer: &Answer<Global>) -> Result<(), AllocError> {
    match answer {
        Answer::Found(row) => write_found(line, row.as_ref()),
        Answer::Rows(rows) => {
            write_number(line, rows.len() as u64)?;
            line.push_str(" rows")
        }
    }
}
