//! What a list of operations did.
ghost use Rattle.std.specs.Prelude.{◌≡◌, ◌≤◌, length, IfOk, OnOk, IsOkUnless, Some, None};
ghost use Rattle.std.specs.Option.{option_copied};
ghost use Rattle.occ_types.specs.declared.fault.Fault.TheVariants.{Memory};
ghost use Rattle.occ_types.specs.PlainData.{key_of, end_of};
ghost use Rattle.occ_model.specs.Operations.{Get, Scan, Add, nothing_yet, perform, perform_all};
ghost use Rattle.occ_model.specs.Overlay.{set};
ghost use Rattle.occ_sets.specs.Operations.{op_of, ops_of};
ghost use Rattle.occ_core.specs.Performed.{progress_of};

use crate::asking::{ask, ask_range, copied};
use crate::sums::{held_sum, number_in, row_of};
use occ_book::Tables;
use occ_sets::{Answer, Op, ReadSet, WriteSet};
use occ_types::{Fault, Key, Object, Row};
use std::alloc::Allocator;

/// A list of so few operations takes its room as it goes.
const FEW_OPERATIONS: usize = 2;
/// Room is taken beforehand for so many reads at most, since a list may ask for many rows that it has written, which aren't read.
const MANY_READS: usize = 16;

/// What a list of operations read, wrote and answered. Nothing of it stands in the tables yet.
#[derive(Drop)]
#[derive_where(Debug)]
pub struct Performed<A: Allocator> {
    /// What it asked of the tables, with the answers of the tables alone, in the order asked. A single key that it had written was not asked.
    pub reads: ReadSet<A>,
    /// What it writes, in the order of the first writes of each object.
    pub writes: WriteSet<A>,
    /// What its questions were answered, in their order and as it saw them: with its own earlier writes over the tables.
    pub answers: Vec<Answer<A>, A>,
}

/// Performs operations in their order over tables, which stay as they are, and answers what they read, wrote and were answered. Each
/// operation sees the writes of those before it. There may be any number of operations, and of rows in a range. Whether an operation
/// fits the schema is not asked here; an addition to a row that isn't one whole number counts it as 0.
///
/// Refused with `Memory` alone, where there is none for what is read, written or answered.
pub fn perform_all<A: Allocator + Copy>(
    alloc: A,
    tables: &Tables<A>,
    operations: &[Op<A>],
) -> Result<Performed<A>, Fault>
    ensures performed { IfOk result (λ done. progress_of done ≡ perform_all tables.now.state (ops_of operations.now) nothing_yet) }
    ensures memory { IsOkUnless result Memory }
{
    let mut done = Performed::nothing_yet(alloc);
    done.perform_each(tables, operations)?;
    Ok(done)
}

impl<A: Allocator + Copy> Performed<A> {
    // No operation is performed yet. It takes no memory.
    pub(crate) fn nothing_yet(alloc: A) -> Performed<A>
        ensures { progress_of result ≡ nothing_yet }
    {
        Performed {
            reads: ReadSet::new(alloc),
            writes: WriteSet::new(alloc),
            answers: Vec::new(alloc),
        }
    }

    // Takes room for what the questions of a list are answered, and for the first of its reads. Nothing is performed.
    pub(crate) fn take_room(&mut self, alloc: A, operations: &[Op<A>]) -> Result<(), Fault>
        requires first { progress_of self.old ≡ nothing_yet }
        ensures same { OnOk result (progress_of self.new ≡ nothing_yet) }
        ensures memory { IsOkUnless result Memory }
    {
        if operations.len() <= FEW_OPERATIONS {
            return Ok(());
        }
        let (reads, answers) = count_questions(operations);
        if reads > 0 {
            self.reads = ReadSet::with_capacity(alloc, reads.min(MANY_READS))?;
        }
        self.answers.reserve_exact(answers)?;
        Ok(())
    }

    // Performs operations in their order.
    pub(crate) fn perform_each(
        &mut self,
        tables: &Tables<A>,
        operations: &[Op<A>],
    ) -> Result<(), Fault>
        ensures performed { OnOk result (progress_of self.new ≡ perform_all tables.now.state (ops_of operations.now) (progress_of self.old)) }
        ensures memory { IsOkUnless result Memory }
    {
        for operation in operations {
            self.perform(tables, operation)?;
        }
        Ok(())
    }

    // Performs one operation more.
    fn perform(&mut self, tables: &Tables<A>, operation: &Op<A>) -> Result<(), Fault>
        ensures performed { OnOk result (progress_of self.new ≡ perform tables.now.state (op_of operation.now) (progress_of self.old)) }
        ensures memory { IsOkUnless result Memory }
    {
        match operation {
            Op::Get { table, key } => self.get(tables, *table, key),
            Op::Scan {
                table,
                lower,
                upper,
            } => self.scan(tables, *table, lower.as_ref(), upper.as_ref()),
            Op::Put { table, key, row } => self.put(*table, key, row),
            Op::Delete { table, key } => self.delete(*table, key),
            Op::Add { table, key, amount } => self.add(tables, *table, key, *amount),
        }
    }

    // Answers the row of a key.
    fn get(&mut self, tables: &Tables<A>, table: usize, key: &Key<A>) -> Result<(), Fault>
        ensures performed { OnOk result (progress_of self.new ≡ perform tables.now.state (Get table (key_of key.now)) (progress_of self.old)) }
        ensures memory { IsOkUnless result Memory }
    {
        let object = Object {
            table,
            key: key.clone()?,
        };
        let row = copied(ask(&mut self.reads, &self.writes, tables, object)?)?;
        self.answers.push(Answer::Found(row))?;
        Ok(())
    }

    // Answers the rows of a range.
    fn scan(
        &mut self,
        tables: &Tables<A>,
        table: usize,
        lower: Option<&Key<A>>,
        upper: Option<&Key<A>>,
    ) -> Result<(), Fault>
        ensures performed { OnOk result (progress_of self.new ≡ perform tables.now.state (Scan table (end_of (option_copied lower.entry)) (end_of (option_copied upper.entry))) (progress_of self.old)) }
        ensures memory { IsOkUnless result Memory }
    {
        let rows = ask_range(&mut self.reads, &self.writes, tables, table, lower, upper)?;
        self.answers.push(Answer::Rows(rows))?;
        Ok(())
    }

    // Sets the row of a key.
    fn put(&mut self, table: usize, key: &Key<A>, row: &Row<A>) -> Result<(), Fault>
        ensures performed { OnOk result (progress_of self.new ≡ record (progress_of self.old) { writes = set self.old.writes (table, key_of key.now) (Some row.now) }) }
        ensures memory { IsOkUnless result Memory }
    {
        self.writes.insert(table, key.clone()?, Some(row.clone()?))?;
        Ok(())
    }

    // Deletes the row of a key, which is a write also where there is none.
    fn delete(&mut self, table: usize, key: &Key<A>) -> Result<(), Fault>
        ensures performed { OnOk result (progress_of self.new ≡ record (progress_of self.old) { writes = set self.old.writes (table, key_of key.now) None }) }
        ensures memory { IsOkUnless result Memory }
    {
        self.writes.insert(table, key.clone()?, None)?;
        Ok(())
    }

    // Adds to the number in the row of a key.
    fn add(
        &mut self,
        tables: &Tables<A>,
        table: usize,
        key: &Key<A>,
        amount: i64,
    ) -> Result<(), Fault>
        ensures performed { OnOk result (progress_of self.new ≡ perform tables.now.state (Add table (key_of key.now) amount) (progress_of self.old)) }
        ensures memory { IsOkUnless result Memory }
    {
        let object = Object {
            table,
            key: key.clone()?,
        };
        let number = number_in(ask(&mut self.reads, &self.writes, tables, object)?);
        let row = row_of(held_sum(number, amount));
        self.writes.insert(table, key.clone()?, Some(row))?;
        Ok(())
    }
}

// How many operations ask for something, and how many answer it: no more than there are. Room alone depends on it.
fn count_questions<A: Allocator>(operations: &[Op<A>]) -> (usize, usize)
    ensures few { (result.0 ≤ length operations.now) × (result.1 ≤ length operations.now) }
{
    let (mut reads, mut answers) = (0usize, 0usize);
    for operation in operations {
        match operation {
            Op::Get { .. } | Op::Scan { .. } => {
                reads += 1;
                answers += 1;
            }
            Op::Add { .. } => reads += 1,
            Op::Put { .. } | Op::Delete { .. } => {}
        }
    }
    (reads, answers)
}
