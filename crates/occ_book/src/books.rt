//! What a store has at one moment, owned or lent.
ghost use Rattle.std.specs.Prelude.{◌≡◌};

use crate::base::Base;
use crate::marks::Marks;
use crate::tables::Tables;
use occ_sets::LogRow;
use std::alloc::Allocator;

/// What a store had at one moment, owned: it stays as it is while the store goes on. `O` is what is held of a row that is not decided.
#[derive(Drop)]
pub struct Book<A: Allocator, O> {
    /// What had been folded out of the log.
    pub base: Base<A>,
    /// The rows that stood in the log, in the order of entry.
    pub log: Vec<LogRow<A, O>, A>,
    /// The rows of all tables.
    pub table: Tables<A>,
    /// The closing mark of each session that had one.
    pub marks: Marks<A>,
    /// The lower end of the window: the write sets numbered above it were kept for testing.
    pub low: u64,
    /// The transaction counter.
    pub tnc: u64,
}

/// What a store has, lent by it or by a book.
#[derive_where(Clone, Copy)]
pub struct BookView<'a, A: Allocator, O> {
    /// What was folded out of the log.
    pub base: &'a Base<A>,
    /// The rows that stand in the log, in the order of entry.
    pub log: &'a [LogRow<A, O>],
    /// The rows of all tables.
    pub table: &'a Tables<A>,
    /// The closing mark of each session that has one.
    pub marks: &'a Marks<A>,
    /// The lower end of the window: the write sets numbered above it are kept for testing.
    pub low: u64,
    /// The transaction counter.
    pub tnc: u64,
}

impl<A: Allocator, O> Book<A, O> {
    /// The same, lent. It takes no memory.
    pub fn view(&self) -> BookView<'_, A, O>
        ensures base { result.base.now ≡ self.now.base }
        ensures log { result.log.now ≡ self.now.log.items }
        ensures table { result.table.now ≡ self.now.table }
        ensures marks { result.marks.now ≡ self.now.marks }
        ensures low { result.low ≡ self.now.low }
        ensures tnc { result.tnc ≡ self.now.tnc }
    {
        BookView {
            base: &self.base,
            log: self.log.as_slice(),
            table: &self.table,
            marks: &self.marks,
            low: self.low,
            tnc: self.tnc,
        }
    }
}
