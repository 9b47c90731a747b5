//! What the transactions of a book asked and wrote, in the order of entry, and what that order makes of them.
use crate::rows::Rows;
use std::alloc::{AllocError, Global};

/// What a transaction has asked: the places from one on and below another, and the rows that stood there then.
#[derive(Clone, Copy)]
pub(crate) struct Asked {
    pub(crate) places: (usize, usize),
    pub(crate) seen: Rows,
}

impl Asked {
    fn has(&self, place: usize) -> bool {
        self.places.0 <= place && place < self.places.1
    }
}

/// A transaction: where it began, what it asked, and what it writes, each place once.
#[derive(Drop)]
pub(crate) struct Work {
    pub(crate) start: u64,
    pub(crate) asked: Vec<Asked>,
    pub(crate) writes: Vec<(usize, Option<i64>)>,
}

impl Work {
    /// A transaction that has asked and written nothing.
    pub(crate) fn new(alloc: Global, start: u64) -> Work {
        Work {
            start,
            asked: Vec::new(alloc),
            writes: Vec::new(alloc),
        }
    }

    /// Writes a place, in place of an earlier write of it.
    pub(crate) fn write(&mut self, place: usize, row: Option<i64>) -> Result<(), AllocError> {
        for write in self.writes.as_mut_slice() {
            if write.0 == place {
                write.1 = row;
                return Ok(());
            }
        }
        Ok(self.writes.push((place, row))?)
    }

    fn writes_at(&self, place: usize) -> bool {
        self.writes.iter().any(|write| write.0 == place)
    }

    fn has_asked(&self, place: usize) -> bool {
        self.asked.iter().any(|asked| asked.has(place))
    }

    // Whether another one wrote what this one asked, or, where it is active, what this one writes.
    fn is_met_by(&self, other: &Work, active: bool) -> bool {
        for write in &other.writes {
            if self.has_asked(write.0) || active && self.writes_at(write.0) {
                return true;
            }
        }
        false
    }
}

/// How a transaction that has entered stands.
#[derive(Clone, Copy, PartialEq, Eq)]
pub(crate) enum Stands {
    Active,
    Done(u64),
    Back,
}

/// A transaction that has entered.
#[derive(Drop)]
pub(crate) struct Entered {
    pub(crate) session: usize,
    pub(crate) number: u64,
    pub(crate) work: Work,
    pub(crate) stands: Stands,
}

impl Entered {
    // Whether it is an opponent of a transaction that wrote what that one asked or may not cross.
    fn meets(&self, work: &Work) -> bool {
        match self.stands {
            Stands::Active => work.is_met_by(&self.work, true),
            Stands::Done(tn) => tn > work.start && work.is_met_by(&self.work, false),
            Stands::Back => false,
        }
    }

    // Whether what it asked is what these rows have; then what it wrote is put there.
    fn replay(&self, rows: &mut Rows) -> bool {
        if !matches!(self.stands, Stands::Done(_)) {
            return true;
        }
        for asked in &self.work.asked {
            if !asked.seen.same(rows, asked.places) {
                return false;
            }
        }
        for write in &self.work.writes {
            rows.set(write.0, write.1);
        }
        true
    }
}

/// How many transactions behind the first of these are backed up, or done under a number that isn't above this one, one after another.
pub(crate) fn foldable(past: &[Entered], folded: usize, low: u64) -> usize {
    let mut count = 0usize;
    for entered in past.iter().skip(folded) {
        match entered.stands {
            Stands::Done(tn) if tn <= low => {}
            Stands::Back => {}
            _ => return count,
        }
        count = count.saturating_add(1);
    }
    count
}

/// Whether a transaction that enters now is to commit, where write sets are kept above a number.
pub(crate) fn commits(past: &[Entered], low: u64, work: &Work) -> bool {
    work.start >= low && !past.iter().any(|entered| entered.meets(work))
}

/// The rows that the first transactions leave of these, by serial replay in the order of entry; none where an answer wasn't that.
pub(crate) fn replayed(past: &[Entered], count: usize, first: &Rows) -> Option<Rows> {
    let mut rows = *first;
    for entered in past.iter().take(count) {
        if !entered.replay(&mut rows) {
            return None;
        }
    }
    Some(rows)
}
