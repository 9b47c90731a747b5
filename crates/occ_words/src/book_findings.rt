//! The findings of a book in words.

use crate::book_lines::{line_of_mark, line_of_read, line_of_row};
use crate::phrases::{
    push_all, write_answer, write_asked, write_counted, write_found, write_given, write_named,
    write_object, write_transaction,
};
use crate::sayings::{Saying, Subject};
use occ_audit::{Disorder, Finding, ObjectApart, WrongRead};
use occ_book::LogRow;
use occ_reading::whole_books::PrintedBook;
use occ_sets::{Answer, ObservationRef};
use occ_types::{Key, Row, Schema};
use std::alloc::{AllocError, Global};

/// The first finding of a book in words, where the text is that of the book.
pub fn say_finding(
    alloc: Global,
    text: &[u8],
    printed: &PrintedBook<Global>,
    finding: &Finding<Global>,
) -> Result<Saying, AllocError> {
    let (subject, line) = place_of(text, finding);
    let mut saying = Saying::new(alloc, subject, line);
    write_finding(&mut saying, printed, finding)?;
    Ok(saying)
}

// What a finding is about, and its line.
fn place_of(text: &[u8], finding: &Finding<Global>) -> (Subject, Option<u64>) {
    match finding {
        Finding::Order(Disorder::Place { row, .. }) => (
            Subject::Place,
            Some(line_of_row(text, *row)),
        ),
        Finding::Order(Disorder::Number { row, .. }) => (
            Subject::Number,
            Some(line_of_row(text, *row)),
        ),
        Finding::Order(Disorder::Mark { session, .. }) => (
            Subject::Mark,
            Some(line_of_mark(text, *session)),
        ),
        Finding::Read(wrong) => (
            Subject::Read,
            Some(line_of_read(text, wrong.row, wrong.read)),
        ),
        Finding::Object(_) => (Subject::Object, None),
    }
}

fn write_finding(
    saying: &mut Saying,
    printed: &PrintedBook<Global>,
    finding: &Finding<Global>,
) -> Result<(), AllocError> {
    match finding {
        Finding::Order(disorder) => write_disorder(saying, printed, *disorder),
        Finding::Read(wrong) => write_read(saying, printed, wrong),
        Finding::Object(apart) => write_apart(&mut saying.sentence, &printed.header.schema, apart),
    }
}

fn write_disorder(
    saying: &mut Saying,
    printed: &PrintedBook<Global>,
    disorder: Disorder,
) -> Result<(), AllocError> {
    tell_disorder(saying, printed, disorder)?;
    let (words, found, due, rule) = disorder_words(printed, disorder);
    write_counted(&mut saying.sentence, words, found)?;
    let Some(due) = due else {
        return push_all(
            &mut saying.sentence,
            &[
                ", and the one that is due is past the greatest number; ",
                rule,
            ],
        );
    };
    saying.tell("due", due)?;
    write_counted(&mut saying.sentence, ", and ", due)?;
    push_all(&mut saying.sentence, &[" is due; ", rule])
}

// The words before what is out of order, that itself, what is due, and the rule.
fn disorder_words(
    printed: &PrintedBook<Global>,
    disorder: Disorder,
) -> (&'static str, u64, Option<u64>, &'static str) {
    match disorder {
        Disorder::Place { row, due } => (
            "the place of this row is ",
            place_and_number(printed, row).0,
            due.map(|due| due as u64),
            "the places of a log have no gap",
        ),
        Disorder::Number { row, due } => (
            "the number of this row in its session is ",
            place_and_number(printed, row).1,
            due,
            "the numbers of a session have no gap",
        ),
        Disorder::Mark { session, due } => (
            "the number of this closing mark is ",
            printed.book.marks.get(session).unwrap_or(0),
            due,
            "it is the one behind the last row of the session",
        ),
    }
}

fn place_and_number(printed: &PrintedBook<Global>, row: usize) -> (u64, u64) {
    match printed.book.log.get(row) {
        Some(row) => (row.place as u64, row.number),
        None => (0, 0),
    }
}

// Tells the row or the session of what is out of order.
fn tell_disorder(
    saying: &mut Saying,
    printed: &PrintedBook<Global>,
    disorder: Disorder,
) -> Result<(), AllocError> {
    match disorder {
        Disorder::Place { row, .. } | Disorder::Number { row, .. } => {
            match printed.book.log.get(row) {
                Some(row) => tell_row(saying, row),
                None => Ok(()),
            }
        }
        Disorder::Mark { session, .. } => saying.tell("session", session as u64),
    }
}

/// Tells the place, session and number of a row.
pub fn tell_row(saying: &mut Saying, row: &LogRow<Global, ()>) -> Result<(), AllocError> {
    saying.tell("place", row.place as u64)?;
    saying.tell("session", row.session as u64)?;
    saying.tell("number", row.number)
}

fn write_read(
    saying: &mut Saying,
    printed: &PrintedBook<Global>,
    wrong: &WrongRead<Global>,
) -> Result<(), AllocError> {
    let Some(row) = printed.book.log.get(wrong.row) else {
        return Ok(());
    };
    tell_row(saying, row)?;
    saying.tell("read", wrong.read as u64)?;
    write_transaction(
        &mut saying.sentence,
        "transaction ",
        row.number,
        row.session,
    )?;
    match row.reads.at(wrong.read) {
        Some(seen) => write_answers(
            &mut saying.sentence,
            &printed.header.schema,
            seen,
            &wrong.replayed,
        ),
        None => Ok(()),
    }
}

// What was answered, and what serial replay answers.
fn write_answers(
    line: &mut String,
    schema: &Schema<Global>,
    seen: ObservationRef<'_, Global>,
    replayed: &Answer<Global>,
) -> Result<(), AllocError> {
    line.push_str(" read ")?;
    write_asked(line, schema, seen)?;
    line.push_str(" and was answered ")?;
    write_given(line, seen)?;
    line.push_str("; serial replay of the rows before it answers ")?;
    write_answer(line, replayed)?;
    let (ObservationRef::Whole(seen), Answer::Rows(rows)) = (seen, replayed) else {
        return Ok(());
    };
    match &seen.answer {
        Answer::Found(_) => Ok(()),
        Answer::Rows(given) => write_first_apart(
            line,
            schema,
            seen.question.table(),
            given.as_slice(),
            rows.as_slice(),
        ),
    }
}

// Tells the first row at which two answers to a range differ.
fn write_first_apart(
    line: &mut String,
    schema: &Schema<Global>,
    table: usize,
    given: &[(Key<Global>, Row<Global>)],
    rows: &[(Key<Global>, Row<Global>)],
) -> Result<(), AllocError> {
    let mut place: usize = 0;
    for ((key, row), (other, replayed)) in given.iter().zip(rows.iter()) {
        if key != other || row != replayed {
            break;
        }
        place = place.saturating_add(1);
    }
    line.push_str(": first apart, it was answered ")?;
    write_pair(line, schema, table, given.get(place))?;
    line.push_str(", and replay has ")?;
    write_pair(line, schema, table, rows.get(place))
}

// Appends a row of a range with its key, or that there is none more.
fn write_pair(
    line: &mut String,
    schema: &Schema<Global>,
    table: usize,
    pair: Option<&(Key<Global>, Row<Global>)>,
) -> Result<(), AllocError> {
    match pair {
        Some((key, row)) => {
            write_named(line, schema, table, key)?;
            line.push(' ')?;
            write_found(line, Some(row))
        }
        None => line.push_str("no row more"),
    }
}

fn write_apart(
    line: &mut String,
    schema: &Schema<Global>,
    apart: &ObjectApart<Global>,
) -> Result<(), AllocError> {
    write_object(line, schema, &apart.object)?;
    line.push_str(": the state, with the writes that are left done, has ")?;
    write_found(line, apart.settled.as_ref())?;
    line.push_str("; serial replay of the whole log leaves ")?;
    write_found(line, apart.replayed.as_ref())
}
