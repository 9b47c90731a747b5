//! The cards of a large picture: what stands in them, line by line.

use crate::meetings::{Meetings, meetings_of};
use crate::pieces::{Kind, Piece, push_pieces};
use crate::rows::{Drawn, TOLD};
use crate::words::{put, say, write_asked, write_met, write_object};
use occ_book::{LogRow, Standing};
use occ_model::Cause;
use occ_sets::{ObservationRef, ReadSet, WriteSet};
use occ_types::{Object, Schema};
use std::alloc::{AllocError, Allocator};

/// The greatest width of a card, in letters, and the least.
const WIDEST: usize = 40;

const NARROWEST: usize = 24;
/// How many letters of an object stand at most on a line that leads to the right.
pub(crate) const BESIDE_CARDS: usize = 16;

/// The lines of all cards, one card after another.
#[derive(Drop)]
pub(crate) struct Cards<A: Allocator> {
    alloc: A,
    line: String<A>,
    pub(crate) pieces: Vec<Piece<A>, A>,
    /// How many letters the widest line has.
    pub(crate) wide: usize,
    /// How many letters the longest object has that stands on a line to the right.
    pub(crate) beside: usize,
}

/// Leaves what is said of the finish of a row.
pub(crate) fn finish_line<A: Allocator>(
    line: &mut String<A>,
    number: u64,
) -> Result<(), AllocError> {
    line.clear();
    put(line, "committed, counter ", number)
}

// Leaves how far a row has come: what stands in its card, or else beside its finish.
fn standing_line<A: Allocator, O>(
    line: &mut String<A>,
    standing: &Standing<O>,
) -> Result<(), AllocError> {
    line.clear();
    match standing {
        Standing::Open(_) => say(line, "open: entered, not decided"),
        Standing::Writing(done) => put(line, "committed, writes done: ", *done as u64),
        Standing::Done(number) => finish_line(line, *number),
        Standing::Back(Cause::Conflict) => say(line, "backed up: conflict"),
        Standing::Back(Cause::TooOld) => say(line, "backed up: too old"),
    }
}

// Leaves a name of a row.
fn name_line<A: Allocator>(
    line: &mut String<A>,
    session: usize,
    number: u64,
) -> Result<(), AllocError> {
    line.clear();
    put(line, "session ", session as u64)?;
    put(line, ", number ", number)
}

fn read_line<A: Allocator>(
    line: &mut String<A>,
    schema: &Schema<A>,
    read: ObservationRef<'_, A>,
) -> Result<(), AllocError> {
    line.clear();
    say(line, "reads ")?;
    write_asked(line, schema, read)
}

fn write_line<A: Allocator>(
    line: &mut String<A>,
    schema: &Schema<A>,
    object: &Object<A>,
    is_put: bool,
) -> Result<(), AllocError> {
    line.clear();
    say(line, write_word(is_put))?;
    write_object(line, schema, object)
}

fn write_word(is_put: bool) -> &'static str {
    if is_put { "puts " } else { "deletes " }
}

// Leaves which opponent a row met.
fn opponent_line<A: Allocator>(
    line: &mut String<A>,
    met: &str,
    session: usize,
) -> Result<(), AllocError> {
    line.clear();
    put(line, met, session as u64)
}

// Appends on what it was met, and tells how many letters that has.
fn write_place<A: Allocator, O>(
    line: &mut String<A>,
    schema: &Schema<A>,
    at: &LogRow<A, O>,
    other: &LogRow<A, O>,
) -> Result<usize, AllocError> {
    say(line, " at ")?;
    let before = line.len();
    write_met(line, schema, at, other)?;
    Ok(line.len().saturating_sub(before))
}

impl<A: Allocator> Cards<A> {
    /// How many lines the card of a row has.
    pub(crate) fn count(&self, row: usize) -> usize {
        let mut count = 0usize;
        for piece in &self.pieces {
            if piece.row == row {
                count = count.saturating_add(1);
            }
        }
        count
    }

    /// Whether there are lines of a class.
    pub(crate) fn has(&self, class: &str) -> bool {
        for piece in &self.pieces {
            if piece.class == class {
                return true;
            }
        }
        false
    }
}

impl<A: Allocator + Copy> Cards<A> {
    /// The cards of all rows of a log.
    pub(crate) fn new<O>(alloc: A, drawn: &Drawn<'_, A, O>) -> Result<Cards<A>, AllocError> {
        let mut cards = Cards {
            alloc,
            line: String::new(alloc),
            pieces: Vec::new(alloc),
            wide: NARROWEST,
            beside: 0,
        };
        cards.tell_rows(drawn)?;
        Ok(cards)
    }

    fn tell_rows<O>(&mut self, drawn: &Drawn<'_, A, O>) -> Result<(), AllocError> {
        for (row, at) in drawn.log.iter().enumerate() {
            self.tell_row(drawn, row, at)?;
        }
        Ok(())
    }

    fn tell_row<O>(
        &mut self,
        drawn: &Drawn<'_, A, O>,
        row: usize,
        at: &LogRow<A, O>,
    ) -> Result<(), AllocError> {
        name_line(&mut self.line, at.session, at.number)?;
        self.end(row, "head", None)?;
        self.tell_standing(row, &at.standing)?;
        self.tell_reads(drawn.schema, row, &at.reads)?;
        self.tell_writes(drawn.schema, row, &at.writes)?;
        let meetings = meetings_of(self.alloc, drawn.log, row, at)?;
        self.tell_meetings(drawn, row, at, &meetings)?;
        self.tell_further(row, &meetings)
    }

    // Appends what is in the line to a card.
    fn end(
        &mut self,
        row: usize,
        class: &'static str,
        opponent: Option<usize>,
    ) -> Result<(), AllocError> {
        let kind = Kind {
            row,
            class,
            opponent,
        };
        self.leave_room();
        let words = self.line.as_bytes();
        push_pieces(self.alloc, &mut self.pieces, kind, WIDEST, words)
    }

    // Sees that there is room for what is in the line.
    fn leave_room(&mut self) {
        self.wide = self.wide.max(self.line.len()).min(WIDEST);
    }

    // Appends how far a row has come, where its finish doesn't tell it.
    fn tell_standing<O>(&mut self, row: usize, standing: &Standing<O>) -> Result<(), AllocError> {
        standing_line(&mut self.line, standing)?;
        if let Standing::Done(_) = standing {
            self.leave_room();
            return Ok(());
        }
        self.end(row, "head", None)
    }

    fn tell_reads(
        &mut self,
        schema: &Schema<A>,
        row: usize,
        reads: &ReadSet<A>,
    ) -> Result<(), AllocError> {
        for read in reads.iter().take(TOLD) {
            self.tell_read(schema, row, read)?;
        }
        self.tell_more(row, "further reads: ", reads.len())
    }

    fn tell_read(
        &mut self,
        schema: &Schema<A>,
        row: usize,
        read: ObservationRef<'_, A>,
    ) -> Result<(), AllocError> {
        read_line(&mut self.line, schema, read)?;
        self.end(row, "words", None)
    }

    fn tell_writes(
        &mut self,
        schema: &Schema<A>,
        row: usize,
        writes: &WriteSet<A>,
    ) -> Result<(), AllocError> {
        for place in 0..writes.len().min(TOLD) {
            self.tell_write(schema, row, writes, place)?;
        }
        self.tell_more(row, "further writes: ", writes.len())
    }

    fn tell_write(
        &mut self,
        schema: &Schema<A>,
        row: usize,
        writes: &WriteSet<A>,
        place: usize,
    ) -> Result<(), AllocError> {
        let Some((object, content)) = writes.write_at(place) else {
            return Ok(());
        };
        write_line(&mut self.line, schema, object, content.is_some())?;
        self.end(row, "words", None)
    }

    // Appends how many there are more than are told.
    fn tell_more(&mut self, row: usize, word: &str, all: usize) -> Result<(), AllocError> {
        let more = all.saturating_sub(TOLD) as u64;
        self.tell_count(row, word, more)
    }

    // Appends a word and a count, where there is one.
    fn tell_count(&mut self, row: usize, word: &str, more: u64) -> Result<(), AllocError> {
        if more == 0 {
            return Ok(());
        }
        self.line.clear();
        put(&mut self.line, word, more)?;
        self.end(row, "words", None)
    }

    fn tell_meetings<O>(
        &mut self,
        drawn: &Drawn<'_, A, O>,
        row: usize,
        at: &LogRow<A, O>,
        meetings: &Meetings<A>,
    ) -> Result<(), AllocError> {
        for place in &meetings.rows {
            self.tell_meeting(drawn, row, at, meetings, *place)?;
        }
        Ok(())
    }

    // Appends whom a row met at a place, and on what.
    fn tell_meeting<O>(
        &mut self,
        drawn: &Drawn<'_, A, O>,
        row: usize,
        at: &LogRow<A, O>,
        meetings: &Meetings<A>,
        place: usize,
    ) -> Result<(), AllocError> {
        let Some(other) = drawn.log.get(place) else {
            return Ok(());
        };
        opponent_line(&mut self.line, meetings.met(), other.session)?;
        let letters = write_place(&mut self.line, drawn.schema, at, other)?;
        if drawn.lanes.lane(other.session) > drawn.lanes.lane(at.session) {
            self.beside = self.beside.max(letters).min(BESIDE_CARDS);
        }
        self.end(row, meetings.class(), Some(place))
    }

    // Appends what is told of further opponents.
    fn tell_further(&mut self, row: usize, meetings: &Meetings<A>) -> Result<(), AllocError> {
        self.tell_count(row, "further opponents: ", meetings.more)?;
        if meetings.are_all {
            return Ok(());
        }
        self.line.clear();
        say(&mut self.line, "rows further back were not searched")?;
        self.end(row, "words", None)
    }
}
