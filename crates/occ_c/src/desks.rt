//! Desks: what stands behind a handle.
ghost use Rattle.std.specs.Prelude.{◌≡◌, ◌⊎◌, pos, length, slice_get, None, Some, Ok, IfOk, IfErr, IsOkUnless, MatchOption};
ghost use Rattle.occ_types.specs.PlainData.{key_of, end_of, table_of};
ghost use Rattle.occ_types.specs.declared.fault.Fault.TheVariants.{Memory};
ghost use Rattle.occ_sharing.specs.Sharing.{AbandonCame, BeginCame, CheckpointCame, CommitCame, CountsCame, JoinCame, LeaseCame, LeaveCame};
ghost use Rattle.occ_c.specs.Codes.{answered, committed, nothing_told, reached};
ghost use Rattle.occ_c.specs.Desks.{Called, DeletesAt, FindsTable, GetsAt, IsEndAt, IsFresh, IsKeyAt, IsRowAt, NoKey, NoRow, PutsAt, ScansAt, tables};

use crate::codes::{NO_ROW, NOT_UTF8, answered, of_cause, of_done, of_fault, of_missed, of_unread};
use crate::operations::Kept;
use occ_bytes::{read_key, read_row};
use occ_client::End;
use occ_sets::RangeRows;
use occ_sharing::{Counts, SharedStore, Worker};
use occ_text::headers::Limits;
use occ_types::{Fault, Key, Row, Schema, TableDef};
use std::alloc::Global;

/// A store, a worker of it, and what the worker keeps between calls of C.
#[derive(Drop)]
pub struct Desk {
    pub(crate) alloc: Global,
    pub(crate) limits: Limits,
    pub(crate) store: SharedStore<Global>,
    pub(crate) worker: Worker<Global>,
    pub(crate) kept: Kept,
}

impl Desk {
    /// A desk of a store, whose worker has no session.
    pub(crate) fn new(
        alloc: Global,
        limits: Limits,
        store: SharedStore<Global>,
    ) -> Result<Box<Desk>, Fault>
        ensures fresh { IfOk result (λ desk. (desk.value.limits ≡ limits) × (desk.value.store ≡ store) × IsFresh desk.value) }
        ensures memory { IsOkUnless result Memory }
    {
        let worker = store.worker()?;
        let desk = Box::new(
            alloc,
            Desk {
                alloc,
                limits,
                store,
                worker,
                kept: Kept::nothing(alloc),
            },
        )?;
        Ok(desk)
    }

    /// A further desk of the same store.
    pub(crate) fn another(&self) -> Result<Box<Desk>, Fault>
        ensures fresh { IfOk result (λ desk. (desk.value.limits ≡ self.now.limits) × (desk.value.store ≡ self.now.store) × IsFresh desk.value) }
        ensures memory { IsOkUnless result Memory }
    {
        Desk::new(self.alloc, self.limits, self.store.try_clone()?)
    }

    /// The place of the table with a name.
    pub(crate) fn table(&self, name: &[u8]) -> Result<usize, i32>
        ensures { FindsTable (tables self.now) name.now result }
    {
        let Ok(name) = str::from_utf8(name) else {
            return Err(NOT_UTF8);
        };
        match self.worker.settings().schema().place(name) {
            Some(place) => Ok(place),
            None => Err(of_fault(Fault::NoTable)),
        }
    }

    /// The key of a table that some bytes are.
    pub(crate) fn key(&self, table: usize, bytes: &[u8]) -> Result<Key<Global>, i32>
        ensures read { IfOk result (λ key. IsKeyAt (tables self.now) table bytes.now (key_of key)) }
        ensures unread { IfErr result (λ code. NoKey (tables self.now) table bytes.now code) }
    {
        match table_at(self.worker.settings().schema(), table) {
            Some(table) => match read_key(self.alloc, table.key, bytes) {
                Ok(key) => Ok(key),
                Err(unread) => Err(of_unread(unread)),
            },
            None => Err(of_fault(Fault::NoTable)),
        }
    }

    /// The end of a range that some bytes are: none is no end.
    pub(crate) fn end(&self, table: usize, bytes: &[u8]) -> Result<Option<Key<Global>>, i32>
        ensures read { IfOk result (λ end. IsEndAt (tables self.now) table bytes.now (end_of end)) }
        ensures unread { IfErr result (λ code. NoKey (tables self.now) table bytes.now code) }
    {
        if bytes.is_empty() {
            return Ok(None);
        }
        match self.key(table, bytes) {
            Ok(key) => Ok(Some(key)),
            Err(code) => Err(code),
        }
    }

    /// The row of a table that some bytes are.
    pub(crate) fn row(&self, table: usize, bytes: &[u8]) -> Result<Row<Global>, i32>
        ensures read { IfOk result (λ row. IsRowAt (tables self.now) table bytes.now row) }
        ensures unread { IfErr result (λ code. NoRow (tables self.now) table bytes.now code) }
    {
        match table_at(self.worker.settings().schema(), table) {
            Some(table) => match read_row(self.alloc, table.columns.as_slice(), bytes) {
                Ok(row) => Ok(row),
                Err(unread) => Err(of_unread(unread)),
            },
            None => Err(of_fault(Fault::NoTable)),
        }
    }

    pub(crate) fn get(&mut self, table: usize, key: &[u8]) -> Result<Row<Global>, i32>
        ensures { GetsAt self.old self.new table key.now result }
    {
        let key = self.key(table, key)?;
        match self.worker.get(table, &key) {
            Ok(Ok(Some(row))) => Ok(row),
            Ok(Ok(None)) => Err(NO_ROW),
            Ok(Err(fault)) => Err(of_fault(fault)),
            Err(missed) => Err(of_missed(missed)),
        }
    }

    pub(crate) fn put(&mut self, table: usize, key: &[u8], row: &[u8]) -> Result<(), i32>
        ensures { PutsAt self.old self.new table key.now row.now result }
    {
        let key = self.key(table, key)?;
        let row = self.row(table, row)?;
        match self.worker.put(table, key, row) {
            Ok(()) => Ok(()),
            Err(refused) => Err(of_fault(refused.fault)),
        }
    }

    pub(crate) fn delete(&mut self, table: usize, key: &[u8]) -> Result<(), i32>
        ensures { DeletesAt self.old self.new table key.now result }
    {
        let key = self.key(table, key)?;
        match self.worker.delete(table, key) {
            Ok(()) => Ok(()),
            Err(refused) => Err(of_fault(refused.fault)),
        }
    }

    /// Reads a range, whose rows are fetched then, and answers how many they are.
    pub(crate) fn scan(&mut self, table: usize, lower: &[u8], upper: &[u8]) -> Result<usize, i32>
        ensures { ScansAt self.old self.new table lower.now upper.now result }
    {
        let lower = self.end(table, lower)?;
        let upper = self.end(table, upper)?;
        let rows = answered(self.worker.scan(table, lower.as_ref(), upper.as_ref()))?;
        Ok(self.keep(rows))
    }

    /// Keeps rows to be fetched, and answers how many they are.
    pub(crate) fn keep(&mut self, rows: RangeRows<Global>) -> usize
        ensures count { result ≡ length rows }
        ensures kept { self.new ≡ record self.old { kept = record self.old.kept { rows = Some rows; next = 0 } } }
    {
        let count = rows.len();
        self.kept.rows = Some(rows);
        self.kept.next = 0;
        count
    }

    pub(crate) fn begin(&mut self) -> Result<(), i32>
        ensures { Called self.old self.new BeginCame (λ came. answered came) result }
    {
        of_done(self.worker.begin())
    }

    /// The transaction number of the open transaction, which ends.
    pub(crate) fn commit(&mut self) -> Result<u64, i32>
        ensures { Called self.old self.new CommitCame (λ came. committed (answered came)) result }
    {
        match self.worker.commit() {
            Ok(Ok(End::Committed { tn })) => Ok(tn),
            Ok(Ok(End::BackedUp(cause))) => Err(of_cause(cause)),
            Ok(Err(fault)) => Err(of_fault(fault)),
            Err(missed) => Err(of_missed(missed)),
        }
    }

    pub(crate) fn abandon(&mut self) -> Result<(), i32>
        ensures { Called self.old self.new AbandonCame (λ came. nothing_told (answered came)) result }
    {
        match self.worker.abandon() {
            Ok(Ok(_known)) => Ok(()),
            Ok(Err(fault)) => Err(of_fault(fault)),
            Err(missed) => Err(of_missed(missed)),
        }
    }

    pub(crate) fn join(&mut self) -> Result<(), i32>
        ensures { Called self.old self.new JoinCame (λ came. answered came) result }
    {
        of_done(self.worker.join())
    }

    pub(crate) fn leave(&mut self) -> Result<(), i32>
        ensures { Called self.old self.new LeaveCame (λ came. answered came) result }
    {
        of_done(self.worker.leave())
    }

    pub(crate) fn lease(&mut self) -> Result<(), i32>
        ensures { Called self.old self.new LeaseCame (λ came. reached came) result }
    {
        match self.worker.lease() {
            Ok(()) => Ok(()),
            Err(missed) => Err(of_missed(missed)),
        }
    }

    pub(crate) fn release(&mut self) -> Result<(), i32>
        ensures told { result ≡ Ok tt }
        ensures desk { self.new ≡ record self.old { worker = record self.old.worker { lease = self.new.worker.lease } } }
        ensures kept { (self.new.worker.lease ≡ None) ⊎ (self.new.worker.lease ≡ self.old.worker.lease) }
    {
        self.worker.release();
        Ok(())
    }

    /// Folds the log, and answers how many rows that were.
    pub(crate) fn checkpoint(&mut self) -> Result<usize, i32>
        ensures { Called self.old self.new CheckpointCame (λ came. answered came) result }
    {
        match self.worker.checkpoint() {
            Ok(Ok(rows)) => Ok(rows),
            Ok(Err(fault)) => Err(of_fault(fault)),
            Err(missed) => Err(of_missed(missed)),
        }
    }

    pub(crate) fn counts(&mut self) -> Result<Counts, i32>
        ensures { Called self.old self.new CountsCame (λ came. reached came) result }
    {
        match self.worker.counts() {
            Ok(counts) => Ok(counts),
            Err(missed) => Err(of_missed(missed)),
        }
    }

    /// Ends the store.
    pub(crate) fn end_store(&mut self) -> Result<(), i32>
        ensures same { self.new ≡ self.old }
        ensures missed { IfErr result (λ code. (code ≡ pos 107) ⊎ (code ≡ pos 105)) }
    {
        match self.store.end() {
            Ok(_held) => Ok(()),
            Err(missed) => Err(of_missed(missed)),
        }
    }
}

// The table at a place, where there is one.
fn table_at(schema: &Schema<Global>, place: usize) -> Option<&TableDef<Global>>
    ensures { MatchOption result (slice_get schema.now place ≡ None) (λ table. slice_get schema.now place ≡ Some (table_of table.now)) }
{
    schema.tables().get(place)
}
