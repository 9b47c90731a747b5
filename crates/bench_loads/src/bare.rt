//! The same loads on a bare map.
use crate::loads::{Shape, amount};
use std::alloc::{AllocError, Allocator};
use std::collections::BTreeMap;

/// A bare map with the rows of a load.
#[derive(Drop)]
pub(crate) struct Bare<A: Allocator> {
    rows: BTreeMap<u64, i64, A>,
}

impl<A: Allocator> Bare<A> {
    /// The sum of all rows.
    pub(crate) fn sum(&self) -> i64 {
        let mut sum = 0i64;
        for (_, row) in &self.rows {
            sum = sum.wrapping_add(*row);
        }
        sum
    }

    fn read_all(&self, shape: &Shape, first: u64) -> i64 {
        let mut sum = 0i64;
        for place in 0..shape.reads {
            sum = sum.wrapping_add(self.read(shape.key(first, place)));
        }
        if shape.span > 0 {
            for (_, row) in self.rows.range(first..first.saturating_add(shape.span)) {
                sum = sum.wrapping_add(*row);
            }
        }
        sum
    }

    fn read(&self, key: u64) -> i64 {
        match self.rows.get(&key) {
            Some(row) => *row,
            None => 0,
        }
    }
}

impl<A: Allocator + Copy> Bare<A> {
    /// The map of a load, whose rows are all 0.
    pub(crate) fn fill(alloc: A, shape: &Shape) -> Result<Bare<A>, AllocError> {
        let mut rows = BTreeMap::new(alloc);
        for key in 0..shape.rows {
            let _before = rows.insert(key, 0)?;
        }
        Ok(Bare { rows })
    }

    /// Does the reads and writes of a transaction that begins at a key. The answer is the sum of what was read.
    pub(crate) fn turn(&mut self, shape: &Shape, first: u64) -> Result<i64, AllocError> {
        let sum = self.read_all(shape, first);
        for place in 0..shape.writes {
            let key = shape.key(first, place);
            let row = self.read(key).saturating_add(amount(place));
            let _before = self.rows.insert(key, row)?;
        }
        Ok(sum)
    }
}
