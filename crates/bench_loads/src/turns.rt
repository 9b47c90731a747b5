//! What a thread does in a transaction.
ghost use Rattle.std.specs.Prelude.{◌≡◌};

use crate::loads::{Shape, amount};
use crate::rows::TABLE;
use occ_store::{Body, Name, Store, Transaction};
use occ_types::{Fault, Key};
use std::alloc::Allocator;
use std::sync::Wait;

/// A transaction of a load, and how often it was run.
#[derive(Clone, Copy)]
pub(crate) struct Turn {
    pub(crate) shape: Shape,
    pub(crate) first: u64,
    runs: u64,
    // How many rows it found, where it counts all of them.
    counted: Option<usize>,
}

impl Turn {
    /// The one that begins at a key.
    pub(crate) fn new(shape: Shape, first: u64) -> Turn {
        Turn {
            shape,
            first,
            runs: 0,
            counted: None,
        }
    }

    /// The one that counts all rows and puts their number under key 0. It deletes key 1 before.
    pub(crate) fn counting(shape: Shape) -> Turn {
        Turn {
            counted: Some(0),
            ..Turn::new(shape, 0)
        }
    }

    /// How many rows it found, where it counts them.
    pub(crate) fn counted(&self) -> Option<usize> {
        self.counted
    }

    /// How many of its runs were backed up, where the last one committed.
    pub(crate) fn backed_up(&self) -> u64 {
        self.runs.saturating_sub(1)
    }

    /// Reads and writes as the load does, or counts.
    fn run_in<N: Name, A: Allocator + Copy, R: Wait>(
        &mut self,
        rt: &R,
        store: &Store<N, A>,
        work: &mut Transaction<N, A>,
    ) -> Result<(), Fault>
        ensures own { work.new.front.party ≡ work.old.front.party }
    {
        self.runs = self.runs.saturating_add(1);
        if self.counted.is_some() {
            return self.count(rt, store, work);
        }
        self.read_and_write(rt, store, work)
    }

    /// Counts all rows, and puts their number.
    fn count<N: Name, A: Allocator + Copy, R: Wait>(
        &mut self,
        rt: &R,
        store: &Store<N, A>,
        work: &mut Transaction<N, A>,
    ) -> Result<(), Fault>
        ensures own { work.new.front.party ≡ work.old.front.party }
    {
        let unbounded = None;
        let rows = work.scan(rt, store, TABLE, unbounded.as_ref(), unbounded.as_ref())?;
        self.counted = Some(rows.len());
        write(work, 0, rows.len() as i64)
    }

    /// Reads and writes as the load does.
    fn read_and_write<N: Name, A: Allocator + Copy, R: Wait>(
        &self,
        rt: &R,
        store: &Store<N, A>,
        work: &mut Transaction<N, A>,
    ) -> Result<(), Fault>
        ensures own { work.new.front.party ≡ work.old.front.party }
    {
        let mut number = self.scan(rt, store, work)?;
        for place in 0..self.shape.reads.max(self.shape.writes) {
            let key = self.shape.key(self.first, place);
            number = self.read_at(rt, store, work, place, key, number)?;
            self.write_at(work, place, key, number)?;
        }
        Ok(())
    }

    /// Reads the row at a place, where the load reads so many. Its number, or else the one that was read before.
    fn read_at<N: Name, A: Allocator + Copy, R: Wait>(
        &self,
        rt: &R,
        store: &Store<N, A>,
        work: &mut Transaction<N, A>,
        place: u64,
        key: u64,
        number: i64,
    ) -> Result<i64, Fault>
        ensures own { work.new.front.party ≡ work.old.front.party }
    {
        if place >= self.shape.reads {
            return Ok(number);
        }
        let row = work.get(rt, store, TABLE, &Key::Num(key))?;
        Ok(row.as_ref().and_then(|row| row.int(0)).unwrap_or(0))
    }

    /// Writes a row at a place, where the load writes so many.
    fn write_at<N: Name, A: Allocator + Copy>(
        &self,
        work: &mut Transaction<N, A>,
        place: u64,
        key: u64,
        number: i64,
    ) -> Result<(), Fault>
        ensures own { work.new.front.party ≡ work.old.front.party }
    {
        if place >= self.shape.writes {
            return Ok(());
        }
        write(work, key, number.saturating_add(amount(place)))
    }

    /// Reads the range, where the load has one. The number in its first row.
    fn scan<N: Name, A: Allocator + Copy, R: Wait>(
        &self,
        rt: &R,
        store: &Store<N, A>,
        work: &mut Transaction<N, A>,
    ) -> Result<i64, Fault>
        ensures own { work.new.front.party ≡ work.old.front.party }
    {
        if self.shape.span == 0 {
            return Ok(0);
        }
        let (lower, upper) = (self.first, self.first.saturating_add(self.shape.span));
        let (lower, upper) = (Key::Num(lower), Key::Num(upper));
        let rows = work.scan(rt, store, TABLE, Some(&lower), Some(&upper))?;
        let first = rows.as_slice().first();
        Ok(first.and_then(|(_, row)| row.int(0)).unwrap_or(0))
    }
}

impl<N: Name, A: Allocator + Copy, R: Wait> Body<N, A, R> for Turn {
    type Value = ();

    type Error = Fault;

    fn run(
        &mut self,
        rt: &R,
        store: &Store<N, A>,
        work: &mut Transaction<N, A>,
    ) -> Result<(), Fault> {
        if self.counted.is_some() {
            delete(work, 1)?;
            return self.run_in(rt, store, work);
        }
        self.run_in(rt, store, work)
    }
}

/// Writes a number under a key.
fn write<N: Name, A: Allocator + Copy>(
    work: &mut Transaction<N, A>,
    key: u64,
    number: i64,
) -> Result<(), Fault>
    ensures own { work.new.front.party ≡ work.old.front.party }
{
    Ok(work.put(TABLE, key.into(), number.into())?)
}

/// Deletes the row under a key.
fn delete<N: Name, A: Allocator + Copy>(work: &mut Transaction<N, A>, key: u64) -> Result<(), Fault>
    ensures own { work.new.front.party ≡ work.old.front.party }
{
    Ok(work.delete(TABLE, key.into())?)
}
