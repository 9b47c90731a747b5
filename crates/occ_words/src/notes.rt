//! What the audit doesn't judge of a book, and a store wouldn't have done: counters, transaction numbers and causes, as far as a book tells them. These are notes and no findings, and the audit may say yes beside them.

use crate::book_findings::tell_row;
use crate::book_lines::Lines;
use crate::book_writers::{BookRow, Writers};
use crate::phrases::{write_counted, write_transaction};
use crate::sayings::{Saying, Subject};
use crate::telling::Told;
use occ_book::Standing;
use occ_model::Cause;
use occ_reading::whole_books::PrintedBook;
use occ_text::trouble::Trouble;
use std::alloc::{AllocError, Global};
use std::collections::BTreeMap;
use std::io::Write;

/// What is kept of the rows that were looked at.
#[derive(Drop)]
struct Seen<'l> {
    /// The indices of the finished ones by their transaction numbers.
    numbers: BTreeMap<u64, usize>,
    /// All by what they write.
    writers: Writers<'l>,
}

/// Tells the notes on a book, row by row in the order of the log, where the text is that of the book.
pub fn tell_notes<W: Write>(
    alloc: Global,
    text: &[u8],
    printed: &PrintedBook<Global>,
    told: &mut Told,
    writer: &mut W,
) -> Result<(), Trouble> {
    let mut lines = Lines::new(text);
    let mut seen = Seen {
        numbers: BTreeMap::new(alloc),
        writers: Writers::before(alloc, printed.book.log.as_slice())?,
    };
    for (index, row) in printed.book.log.iter().enumerate() {
        let line = lines.next_row();
        tell_row_notes(alloc, printed, &mut seen, index, row, line, told)?;
        seen.writers.take(index, row)?;
        told.send(writer)?;
    }
    tell_low(alloc, printed, told)?;
    told.send(writer)
}

// Tells the notes on a row.
fn tell_row_notes(
    alloc: Global,
    printed: &PrintedBook<Global>,
    seen: &mut Seen<'_>,
    index: usize,
    row: &BookRow,
    line: u64,
    told: &mut Told,
) -> Result<(), AllocError> {
    let log = printed.book.log.as_slice();
    let keep = printed.header.limits.keep as u64;
    for words in [
        strange_counter(log, index, row),
        strange_end(printed.book.tnc, row),
        strange_window(keep, row),
        strange_back_up(printed, &seen.writers, row),
    ] {
        if let Some(words) = words {
            tell_strange(alloc, line, row, words, None, told)?;
        }
    }
    if let Some(other) = seen.same_number(log, index, row)? {
        tell_strange(
            alloc,
            line,
            row,
            "the transaction number is also that of ",
            Some(other),
            told,
        )?;
    }
    if let Some(other) = seen.opponent_met(log, keep, row) {
        tell_strange(
            alloc,
            line,
            row,
            "the row is committed, and met its opponent, ",
            Some(other),
            told,
        )?;
    }
    Ok(())
}

// Tells of a row that something is strange about it, and of which other row the words speak.
fn tell_strange(
    alloc: Global,
    line: u64,
    row: &BookRow,
    words: &str,
    other: Option<&BookRow>,
    told: &mut Told,
) -> Result<(), AllocError> {
    let mut saying = Saying::new(alloc, Subject::Note, Some(line));
    write_strange(&mut saying, row, words, other)?;
    told.say(alloc, &saying)
}

fn write_strange(
    saying: &mut Saying,
    row: &BookRow,
    words: &str,
    other: Option<&BookRow>,
) -> Result<(), AllocError> {
    tell_row(saying, row)?;
    saying.sentence.push_str("note, not judged by the audit: ")?;
    saying.sentence.push_str(words)?;
    match other {
        Some(other) => {
            saying.tell("other_place", other.place as u64)?;
            write_transaction(
                &mut saying.sentence,
                "transaction ",
                other.number,
                other.session,
            )
        }
        None => Ok(()),
    }
}

// Tells where the lower end of the window isn't what it would be.
fn tell_low(
    alloc: Global,
    printed: &PrintedBook<Global>,
    told: &mut Told,
) -> Result<(), AllocError> {
    let keep = printed.header.limits.keep as u64;
    let due = printed.book.tnc.saturating_sub(keep);
    if printed.book.low == due {
        return Ok(());
    }
    let mut saying = Saying::new(alloc, Subject::Note, None);
    write_counted(
        &mut saying.sentence,
        "note, not judged by the audit: low is the counter less keep, which is ",
        due,
    )?;
    told.say(alloc, &saying)
}

// What is strange about the counters of a row.
fn strange_counter(log: &[BookRow], index: usize, row: &BookRow) -> Option<&'static str> {
    if row.start > row.finish {
        return Some("the start is above the finish");
    }
    let before = log.get(index.checked_sub(1)?)?;
    if before.finish > row.finish {
        return Some("the finish is below that of the row before");
    }
    None
}

// What is strange about how a row ended, where the counter of the book is this.
fn strange_end(counter: u64, row: &BookRow) -> Option<&'static str> {
    match row.standing {
        Standing::Done(number) if number <= row.finish => {
            Some("the transaction number isn't above the finish")
        }
        Standing::Done(number) if number > counter => {
            Some("the transaction number is above the counter of the book")
        }
        _ if row.finish > counter => Some("the finish is above the counter of the book"),
        _ => None,
    }
}

// What is strange about a verdict by the window as a row entered.
fn strange_window(keep: u64, row: &BookRow) -> Option<&'static str> {
    let is_old = row.start < row.finish.saturating_sub(keep);
    match row.standing {
        Standing::Writing(_) | Standing::Done(_) if is_old => {
            Some("the row is committed, and its start lay below the window: a store answers tooold")
        }
        Standing::Back(Cause::Conflict) if is_old => Some(
            "the row is backed up for a conflict, and its start lay below the window: a store answers tooold",
        ),
        Standing::Back(Cause::TooOld) if !is_old => {
            Some("the row is backed up as tooold, and its start lay within the window")
        }
        _ => None,
    }
}

// What is strange about a conflict: that no row before may have been an opponent and was met. What was folded may have been one.
fn strange_back_up(
    printed: &PrintedBook<Global>,
    writers: &Writers<'_>,
    row: &BookRow,
) -> Option<&'static str> {
    let is_conflict = matches!(row.standing, Standing::Back(Cause::Conflict));
    if !is_conflict || printed.book.base.place() > 0 || writers.met_by(row, row.start).is_any() {
        return None;
    }
    Some("the row is backed up for a conflict, and met no row before it")
}

fn is_committed(row: &BookRow) -> bool {
    matches!(row.standing, Standing::Writing(_) | Standing::Done(_))
}

impl Seen<'_> {
    // The row before that finished under the same transaction number.
    fn same_number<'l>(
        &mut self,
        log: &'l [BookRow],
        index: usize,
        row: &BookRow,
    ) -> Result<Option<&'l BookRow>, AllocError> {
        let Standing::Done(number) = row.standing else {
            return Ok(None);
        };
        match self.numbers.insert(number, index)? {
            Some(other) => Ok(log.get(other)),
            None => Ok(None),
        }
    }

    // The latest committed row before that was an opponent of a committed one, in the window, and that it met.
    fn opponent_met<'l>(
        &self,
        log: &'l [BookRow],
        keep: u64,
        row: &BookRow,
    ) -> Option<&'l BookRow> {
        if !is_committed(row) {
            return None;
        }
        let low = row.finish.saturating_sub(keep);
        log.get(self.writers.met_by(row, row.start.max(low)).committed?)
    }
}
