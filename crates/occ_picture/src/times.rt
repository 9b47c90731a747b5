//! The columns of a picture: where each row entered, and where it ended.

use occ_book::{LogRow, Standing};
use std::alloc::{AllocError, Allocator};

/// In which column each row of a log entered and finished. The log begins at column 0, before all of them.
#[derive(Drop)]
pub(crate) struct Times<A: Allocator> {
    /// The column of each row's entry.
    entries: Vec<u64, A>,
    /// The column of each row's finish, or 0 for one without.
    finishes: Vec<u64, A>,
    /// The transaction number of each row that is done, and the row, in the order of the numbers.
    numbers: Vec<(u64, usize), A>,
    /// The column behind all entries and finishes.
    end: u64,
}

impl<A: Allocator + Copy> Times<A> {
    /// The columns of the rows of a log: each entry in its order, and before it the finishes that its counter counts.
    pub(crate) fn new<O>(alloc: A, log: &[LogRow<A, O>]) -> Result<Times<A>, AllocError> {
        let mut times = Times {
            entries: Vec::new(alloc),
            finishes: Vec::new(alloc),
            numbers: numbers_of(alloc, log)?,
            end: 1,
        };
        let mut done = 0;
        for (row, at) in log.iter().enumerate() {
            done = times.finish(done, at.finish, row);
            times.entries.push(times.end)?;
            times.finishes.push(0)?;
            times.end = times.end.saturating_add(1);
        }
        times.finish(done, u64::MAX, log.len());
        Ok(times)
    }

    // Finishes the rows behind the first so many numbers, up to a number, among those that entered before a row. It tells how many numbers are done.
    fn finish(&mut self, done: usize, last: u64, before: usize) -> usize {
        for place in done..self.numbers.len() {
            match self.numbers.get(place).copied() {
                Some((number, row)) if number <= last && row < before => {
                    if let Some(finish) = self.finishes.get_mut(row) {
                        *finish = self.end;
                    }
                    self.end = self.end.saturating_add(1);
                }
                _ => return place,
            }
        }
        self.numbers.len()
    }
}

impl<A: Allocator> Times<A> {
    /// The column behind all entries and finishes.
    pub(crate) fn end(&self) -> u64 {
        self.end
    }

    /// The column of the entry of a row.
    pub(crate) fn entry(&self, row: usize) -> u64 {
        self.entries.get(row).copied().unwrap_or(0)
    }

    /// The column of the finish with the greatest number that is at most `start`, or 0; but at most that of the entry of the row.
    pub(crate) fn start(&self, row: usize, start: u64) -> u64 {
        let (Ok(count) | Err(count)) = self.numbers.binary_search(&(start, usize::MAX));
        match self.numbers.get(count.saturating_sub(1)) {
            Some((_, other)) if count > 0 => self.finish_of(*other).min(self.entry(row)),
            _ => 0,
        }
    }

    /// The column in which a row ends: of its finish, or of its entry where it is backed up, or behind all where it is under way.
    pub(crate) fn end_of<O>(&self, row: usize, standing: &Standing<O>) -> u64 {
        match standing {
            Standing::Done(_) => self.finish_of(row),
            Standing::Back(_) => self.entry(row),
            Standing::Open(_) | Standing::Writing(_) => self.end,
        }
    }

    fn finish_of(&self, row: usize) -> u64 {
        self.finishes.get(row).copied().unwrap_or(0)
    }
}

// The transaction number of each row that is done, and the row, in the order of the numbers.
fn numbers_of<A: Allocator, O>(
    alloc: A,
    log: &[LogRow<A, O>],
) -> Result<Vec<(u64, usize), A>, AllocError> {
    let mut numbers = Vec::new(alloc);
    for (row, at) in log.iter().enumerate() {
        if let Standing::Done(number) = at.standing {
            numbers.push((number, row))?;
        }
    }
    numbers.sort_unstable();
    Ok(numbers)
}
