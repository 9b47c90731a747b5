//! What is told of the rows of a picture: of each what it read and wrote, and the opponents that it met.

use crate::lanes::Lanes;
use crate::meetings::Meetings;
use crate::sheets::Sheet;
use crate::times::Times;
use occ_book::{LogRow, Standing};
use occ_model::Cause;
use occ_print::lines::{read_line, write_line};
use occ_sets::{ReadSet, WriteSet};
use occ_types::Schema;
use std::alloc::{AllocError, Allocator};

/// How many reads, and how many writes, are told of a row.
pub(crate) const TOLD: usize = 8;

/// What the rows of a picture are drawn from.
#[derive(Drop)]
pub(crate) struct Drawn<'a, A: Allocator, O> {
    /// The tables.
    pub(crate) schema: &'a Schema<A>,
    /// The rows.
    pub(crate) log: &'a [LogRow<A, O>],
    /// Their columns.
    pub(crate) times: Times<A>,
    /// Their lanes.
    pub(crate) lanes: Lanes<A>,
}

/// The name of the symbol and of the class of a standing.
pub(crate) fn name_of<O>(standing: &Standing<O>) -> &'static str {
    match standing {
        Standing::Open(_) => "open",
        Standing::Writing(_) => "writing",
        Standing::Done(_) => "done",
        Standing::Back(Cause::Conflict) => "conflict",
        Standing::Back(Cause::TooOld) => "tooold",
    }
}

impl<A: Allocator + Copy> Sheet<A> {
    /// Appends the beginning of the group of a row, and its title.
    pub(crate) fn tell_all<O>(
        &mut self,
        drawn: &Drawn<'_, A, O>,
        at: &LogRow<A, O>,
        meetings: &Meetings<A>,
    ) -> Result<(), AllocError> {
        self.tell_row(at)?;
        self.tell_meetings(drawn.log, meetings)?;
        self.tell_reads(drawn.schema, &at.reads)?;
        self.tell_writes(drawn.schema, &at.writes)?;
        self.say("</title>\n")
    }

    // Appends the beginning of the group of a row, and the first line of its title.
    fn tell_row<O>(&mut self, at: &LogRow<A, O>) -> Result<(), AllocError> {
        self.say("<g class=\"")?;
        self.say(name_of(&at.standing))?;
        self.put("\"><title>session ", at.session as u64)?;
        self.put(", number ", at.number)?;
        self.put(": place ", at.place as u64)?;
        self.put(", start ", at.start)?;
        self.put(", finish ", at.finish)?;
        self.tell_standing(&at.standing)
    }

    fn tell_standing<O>(&mut self, standing: &Standing<O>) -> Result<(), AllocError> {
        match standing {
            Standing::Open(_) => self.say(", open"),
            Standing::Writing(count) => self.put(", writing, writes done: ", *count as u64),
            Standing::Done(number) => self.put(", done with number ", *number),
            Standing::Back(Cause::Conflict) => self.say(", backed up for a conflict"),
            Standing::Back(Cause::TooOld) => self.say(", backed up as too old"),
        }
    }

    fn tell_meetings<O>(
        &mut self,
        log: &[LogRow<A, O>],
        meetings: &Meetings<A>,
    ) -> Result<(), AllocError> {
        for row in &meetings.rows {
            self.tell_meeting(log, meetings.met(), *row)?;
        }
        self.tell_further(meetings.more, meetings.are_all)
    }

    fn tell_meeting<O>(
        &mut self,
        log: &[LogRow<A, O>],
        met: &str,
        row: usize,
    ) -> Result<(), AllocError> {
        let Some(other) = log.get(row) else {
            return Ok(());
        };
        self.say("\n")?;
        self.put(met, other.session as u64)?;
        self.put(", number ", other.number)
    }

    fn tell_further(&mut self, more: u64, are_all: bool) -> Result<(), AllocError> {
        if more > 0 {
            self.put("\nand others: ", more)?;
        }
        self.say(if are_all {
            ""
        } else {
            "\nrows further back were not searched"
        })
    }

    fn tell_reads(&mut self, schema: &Schema<A>, reads: &ReadSet<A>) -> Result<(), AllocError> {
        self.put("\nreads: ", reads.len() as u64)?;
        for read in reads.iter().take(TOLD) {
            read_line(&mut self.line, schema, read)?;
            self.tell_line()?;
        }
        self.tell_more(reads.len())
    }

    fn tell_writes(&mut self, schema: &Schema<A>, writes: &WriteSet<A>) -> Result<(), AllocError> {
        self.put("\nwrites: ", writes.len() as u64)?;
        for place in 0..writes.len().min(TOLD) {
            self.tell_write(schema, writes, place)?;
        }
        self.tell_more(writes.len())
    }

    fn tell_write(
        &mut self,
        schema: &Schema<A>,
        writes: &WriteSet<A>,
        place: usize,
    ) -> Result<(), AllocError> {
        let Some((object, row)) = writes.write_at(place) else {
            return Ok(());
        };
        write_line(&mut self.line, schema, object, row)?;
        self.tell_line()
    }

    // Tells that there are more than are told.
    fn tell_more(&mut self, count: usize) -> Result<(), AllocError> {
        self.say(if count > TOLD { "\n..." } else { "" })
    }
}
