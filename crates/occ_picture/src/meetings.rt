//! The opponents that a row met, as far as a book tells.

use occ_book::{LogRow, Standing};
use occ_model::Cause;
use occ_sets::ObservationRef;
use std::alloc::{AllocError, Allocator};

/// How many opponents are told of a row.
const SHOWN: usize = 4;

/// The opponents that a row met.
#[derive(Drop)]
pub(crate) struct Meetings<A: Allocator> {
    /// The nearest ones.
    pub(crate) rows: Vec<usize, A>,
    /// How many more there are.
    pub(crate) more: u64,
    /// Whether they finished, or were active for certain.
    pub(crate) are_certain: bool,
    /// Whether all rows before were looked at.
    pub(crate) are_all: bool,
}

impl<A: Allocator> Meetings<A> {
    fn new(alloc: A, are_certain: bool) -> Meetings<A> {
        Meetings {
            rows: Vec::new(alloc),
            more: 0,
            are_certain,
            are_all: true,
        }
    }

    /// The class of the lines to them.
    pub(crate) fn class(&self) -> &'static str {
        if self.are_certain { "met" } else { "perhaps" }
    }

    /// What is said of one of them.
    pub(crate) fn met(&self) -> &'static str {
        if self.are_certain {
            "met session "
        } else {
            "may have met session "
        }
    }

    fn add(&mut self, row: usize) -> Result<(), AllocError> {
        if self.rows.len() < SHOWN {
            self.rows.push(row)?;
        } else {
            self.more = self.more.saturating_add(1);
        }
        Ok(())
    }
}

/// The opponents that a row met which is backed up for a conflict: those that finished or were active for certain, and where there is none, those that are backed up and may have been active.
pub(crate) fn meetings_of<A: Allocator + Copy, O>(
    alloc: A,
    log: &[LogRow<A, O>],
    row: usize,
    at: &LogRow<A, O>,
) -> Result<Meetings<A>, AllocError> {
    if !matches!(at.standing, Standing::Back(Cause::Conflict)) {
        return Ok(Meetings::new(alloc, true));
    }
    let certain = look_back(log, row, at, Meetings::new(alloc, true))?;
    if certain.rows.is_empty() {
        return look_back(log, row, at, Meetings::new(alloc, false));
    }
    Ok(certain)
}

// Looks at the rows before one, from the nearest on.
fn look_back<A: Allocator, O>(
    log: &[LogRow<A, O>],
    row: usize,
    at: &LogRow<A, O>,
    mut met: Meetings<A>,
) -> Result<Meetings<A>, AllocError> {
    let mut search = Search::new(log, row, at);
    for place in (0..row).rev() {
        if search.finds(place, met.are_certain) {
            met.add(place)?;
        }
        if !search.take(1) {
            met.are_all = false;
            break;
        }
    }
    Ok(met)
}

/// A search for the opponents of a row.
#[derive(Drop)]
struct Search<'a, A: Allocator, O> {
    log: &'a [LogRow<A, O>],
    row: usize,
    at: &'a LogRow<A, O>,
    /// How many looks are left.
    looks: u64,
}

impl<'a, A: Allocator, O> Search<'a, A, O> {
    // Each row, read and write that is looked at is a look. There are so many that all searches together take a time that grows linearly with the book.
    fn new(log: &'a [LogRow<A, O>], row: usize, at: &'a LogRow<A, O>) -> Search<'a, A, O> {
        let own = (at.reads.len() as u64).saturating_add(at.writes.len() as u64);
        let looks = own.saturating_mul(16).saturating_add(1024);
        Search {
            log,
            row,
            at,
            looks,
        }
    }

    // Takes so many looks, and tells whether some are left.
    fn take(&mut self, count: u64) -> bool {
        self.looks = self.looks.saturating_sub(count);
        self.looks > 0
    }

    // Whether the row at a place met this one, for certain or perhaps.
    fn finds(&mut self, place: usize, is_certain: bool) -> bool {
        let Some(other) = self.log.get(place) else {
            return false;
        };
        match &other.standing {
            Standing::Done(number) if *number <= self.at.start => false,
            Standing::Done(number) if *number <= self.at.finish => is_certain && self.reads(other),
            Standing::Back(_) => !is_certain && self.meets(other) && self.is_last(place, other),
            _ => is_certain && self.meets(other),
        }
    }

    // Whether a row was met if it was active. One of the same session wasn't.
    fn meets(&mut self, other: &LogRow<A, O>) -> bool {
        other.session != self.at.session && (self.reads(other) || self.writes(other))
    }

    // Whether this row reads something that another one writes.
    fn reads(&mut self, other: &LogRow<A, O>) -> bool {
        for seen in self.at.reads.iter() {
            let count = match seen {
                ObservationRef::Key(_, _) => 1,
                ObservationRef::Whole(_) => other.writes.len() as u64,
            };
            if !self.take(count) {
                return false;
            }
            if other.writes.meets_observation(&seen) {
                return true;
            }
        }
        false
    }

    // Whether this row writes something that another one writes.
    fn writes(&mut self, other: &LogRow<A, O>) -> bool {
        for (object, _) in self.at.writes.iter() {
            if !self.take(1) {
                return false;
            }
            if other.writes.writes(object) {
                return true;
            }
        }
        false
    }

    // Whether no later row before this one is of the same session, so that the row at the place may have been active.
    fn is_last(&mut self, place: usize, other: &LogRow<A, O>) -> bool {
        if !self.take(self.row.saturating_sub(place) as u64) {
            return false;
        }
        for row in self.log.iter().take(self.row).skip(place.saturating_add(1)) {
            if row.session == other.session {
                return false;
            }
        }
        true
    }
}
