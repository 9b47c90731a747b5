//! What happened in a history, in a sentence.

use crate::encounters::{How, how_met};
use crate::meetings::{Meetings, meetings_of};
use crate::rows::Drawn;
use crate::words::{put, say, write_met};
use occ_book::{LogRow, Standing};
use occ_model::Cause;
use std::alloc::{AllocError, Allocator};

/// Appends why the first row is backed up that is, and how many more are.
pub(crate) fn write_story<A: Allocator + Copy, O>(
    alloc: A,
    line: &mut String<A>,
    drawn: &Drawn<'_, A, O>,
) -> Result<(), AllocError> {
    let mut backs = 0u64;
    for (row, at) in drawn.log.iter().enumerate() {
        if let Standing::Back(cause) = at.standing {
            if backs == 0 {
                write_cause(alloc, line, drawn, row, at, cause)?;
            }
            backs = backs.saturating_add(1);
        }
    }
    match backs {
        0 => say(line, "none of the transactions is backed up"),
        1 => Ok(()),
        _ => put(line, "; and further back-ups: ", backs.saturating_sub(1)),
    }
}

fn write_cause<A: Allocator + Copy, O>(
    alloc: A,
    line: &mut String<A>,
    drawn: &Drawn<'_, A, O>,
    row: usize,
    at: &LogRow<A, O>,
    cause: Cause,
) -> Result<(), AllocError> {
    match cause {
        Cause::Conflict => {
            let meetings = meetings_of(alloc, drawn.log, row, at)?;
            write_conflict(line, drawn, at, &meetings)
        }
        Cause::TooOld => {
            put(line, "session ", at.session as u64)?;
            say(
                line,
                " began further back than is kept: backed up as too old",
            )
        }
    }
}

// Appends whom a row met first, and on what.
fn write_conflict<A: Allocator, O>(
    line: &mut String<A>,
    drawn: &Drawn<'_, A, O>,
    at: &LogRow<A, O>,
    meetings: &Meetings<A>,
) -> Result<(), AllocError> {
    let place = meetings.rows.first().copied().unwrap_or(usize::MAX);
    match drawn.log.get(place) {
        Some(other) => {
            put(line, "session ", other.session as u64)?;
            let verb = verb(&other.standing, at.finish, meetings.are_certain);
            say(line, verb)?;
            write_met(line, drawn.schema, at, other)?;
            write_reader(line, how_met(&at.reads, &other.writes), at.session)
        }
        None => {
            put(line, "session ", at.session as u64)?;
            say(line, " met an opponent that is not told: backed up")
        }
    }
}

// An opponent that finished before the entry of a row at a counter wrote.
fn verb<O>(standing: &Standing<O>, counter: u64, is_certain: bool) -> &'static str {
    if has_written(standing, counter) {
        " wrote "
    } else if is_certain {
        " was to write "
    } else {
        ", which may have been active, was to write "
    }
}

fn has_written<O>(standing: &Standing<O>, counter: u64) -> bool {
    match standing {
        Standing::Done(number) => *number <= counter,
        _ => false,
    }
}

// Appends what the session that is backed up did with what was met.
fn write_reader<A: Allocator>(
    line: &mut String<A>,
    how: How,
    session: usize,
) -> Result<(), AllocError> {
    put(line, before_reader(how), session as u64)?;
    say(line, behind_reader(how))
}

fn before_reader(how: How) -> &'static str {
    match how {
        How::Range => " in the range that session ",
        How::Read | How::Write => ", which session ",
    }
}

fn behind_reader(how: How) -> &'static str {
    match how {
        How::Range | How::Read => " had read: backed up",
        How::Write => " writes too: backed up",
    }
}
