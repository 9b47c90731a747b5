//! Operations that run alone, and what a desk keeps between calls.
ghost use Rattle.std.specs.Prelude.{⊤, ◌≡◌, ◌⊎◌, ◌≤◌, ◌<◌, ◌+◌, ◌++◌, [], ◌∷◌, ℕ, pos, List, None, Some, Ok, Err, drop, length, slice_get, IfOk, IfErr, OnOk, OnErr, MatchOption, MatchResult};
ghost use Rattle.std.specs.Int.{w64, cast_unsigned};
ghost use Rattle.occ_types.specs.Key.{Key as PlainKey};
ghost use Rattle.occ_types.specs.Row.{Row as PlainRow};
ghost use Rattle.occ_types.specs.PlainData.{key_of};
ghost use Rattle.occ_bytes.specs.Bytes.{number_bytes};
ghost use Rattle.occ_c.specs.Codes.{fault_code};
ghost use Rattle.occ_sets.specs.Operations.{op_of};
ghost use Rattle.occ_c.specs.Desks.{KeepsNothing, tables};
ghost use Rattle.occ_c.specs.Kept.{AddsAt, AnswersAt, IsOperation, NoInt, NoOperation, PutsWhole, RunsAt, WritesRows, entry_bytes};

use crate::codes::{MALFORMED, NO_ANSWER, of_fault, of_missed, of_unread};
use crate::desks::Desk;
use occ_bytes::{key_size, put_key, put_row, read_int, row_size};
use occ_sets::{Answer, Op, RangeRows};
use occ_types::{Fault, Key, Refused, Row};
use std::alloc::Global;
use std::mem;

/// What a desk keeps: the rows of the last range with the next one to be fetched, the operations that are to run, the answers of those that
/// ran, and a book.
#[derive(Drop)]
pub(crate) struct Kept {
    pub(crate) rows: Option<RangeRows<Global>>,
    pub(crate) next: usize,
    pub(crate) operations: Vec<Op<Global>, Global>,
    pub(crate) answers: Vec<Answer<Global>, Global>,
    pub(crate) book: Vec<u8, Global>,
}

impl Kept {
    pub(crate) fn nothing(alloc: Global) -> Kept
        ensures { KeepsNothing result }
    {
        Kept {
            rows: None,
            next: 0,
            operations: Vec::new(alloc),
            answers: Vec::new(alloc),
            book: Vec::new(alloc),
        }
    }
}

/// How many rows were written, and how many bytes these are. Where not even the first one had room, the bytes are those that it needs.
#[derive(Clone, Copy)]
pub(crate) struct Written {
    pub(crate) rows: usize,
    pub(crate) bytes: usize,
}

// Puts the row at a place of some rows, with its key, at a place of a room, and answers the place behind it. Refused with the size that
// is needed, where it has no room whole.
fn put_whole(
    room: &mut [u8],
    at: usize,
    rows: &RangeRows<Global>,
    place: usize,
) -> Result<usize, usize>
    requires { at ≤ length room.old }
    ensures puts { (entry : PlainKey × PlainRow) → slice_get rows.now place ≡ Some entry → PutsWhole room.old at (entry_bytes entry) room.new result }
    ensures length { length room.new ≡ length room.old }
{
    let Some(entry) = entry_at(rows, place) else {
        return Err(0);
    };
    let (key, row) = entry;
    let size = key_size(key).saturating_add(row_size(row));
    if size > room.len() - at {
        return Err(size);
    }
    let behind = put_key(room, at, key);
    Ok(put_row(room, behind, row))
}

// The row at a place, with its key, where there is one.
fn entry_at(rows: &RangeRows<Global>, place: usize) -> Option<&(Key<Global>, Row<Global>)>
    ensures { MatchOption result (slice_get rows.now place ≡ None) (λ entry. slice_get rows.now place ≡ Some (key_of entry.now.0, entry.now.1)) }
{
    rows.as_slice().get(place)
}

// What was written where the row at a place had no room.
fn cut_short(first: usize, place: usize, size: usize, at: usize) -> Written
    requires { first ≤ place }
    ensures rows { result.rows + first ≡ place }
    ensures alone { place ≡ first → result.bytes ≡ size }
    ensures behind { first < place → result.bytes ≡ at }
{
    if place == first {
        return Written {
            rows: 0,
            bytes: size,
        };
    }
    Written {
        rows: place - first,
        bytes: at,
    }
}

/// Writes the rows that are next to the beginning of a room, each with its key, as many as have room whole.
pub(crate) fn write_rows(rows: &RangeRows<Global>, first: usize, room: &mut [u8]) -> Written
    ensures { WritesRows (drop first rows.now) room.old room.new result.rows result.bytes }
{
    let mut at: usize = 0;
    for place in first..rows.len() {
        match put_whole(room, at, rows, place) {
            Ok(behind) => at = behind,
            Err(size) => return cut_short(first, place, size, at),
        }
    }
    Written {
        rows: rows.len().saturating_sub(first),
        bytes: at,
    }
}

/// The kinds of operations, as C numbers them.
const GET: u32 = 0;

const PUT: u32 = 1;

const DELETE: u32 = 2;

const ADD: u32 = 3;

const SCAN: u32 = 4;

impl Desk {
    // A row to be read, or a row that is deleted.
    fn single(&self, kind: u32, table: usize, bytes: &[u8]) -> Result<Op<Global>, i32>
        requires kind { (kind ≡ 0) ⊎ (kind ≡ 2) }
        ensures read { (second : List ℕ) → IfOk result (λ op. IsOperation (tables self.now) kind table bytes.now second (op_of op)) }
        ensures unread { (second : List ℕ) → IfErr result (λ code. NoOperation (tables self.now) kind table bytes.now second code) }
    {
        let key = self.key(table, bytes)?;
        if kind == GET {
            return Ok(Op::Get { table, key });
        }
        Ok(Op::Delete { table, key })
    }

    // A row to be written.
    fn put_operation(&self, table: usize, first: &[u8], second: &[u8]) -> Result<Op<Global>, i32>
        ensures read { IfOk result (λ op. IsOperation (tables self.now) 1 table first.now second.now (op_of op)) }
        ensures unread { IfErr result (λ code. NoOperation (tables self.now) 1 table first.now second.now code) }
    {
        let key = self.key(table, first)?;
        let row = self.row(table, second)?;
        Ok(Op::Put { table, key, row })
    }

    // A number to be added.
    fn add_operation(&self, table: usize, first: &[u8], second: &[u8]) -> Result<Op<Global>, i32>
        ensures read { IfOk result (λ op. IsOperation (tables self.now) 3 table first.now second.now (op_of op)) }
        ensures unread { IfErr result (λ code. NoOperation (tables self.now) 3 table first.now second.now code) }
    {
        let key = self.key(table, first)?;
        let amount = amount(second)?;
        Ok(Op::Add { table, key, amount })
    }

    // A range to be read.
    fn scan_operation(&self, table: usize, first: &[u8], second: &[u8]) -> Result<Op<Global>, i32>
        ensures read { IfOk result (λ op. IsOperation (tables self.now) 4 table first.now second.now (op_of op)) }
        ensures unread { IfErr result (λ code. NoOperation (tables self.now) 4 table first.now second.now code) }
    {
        let lower = self.end(table, first)?;
        let upper = self.end(table, second)?;
        Ok(Op::Scan {
            table,
            lower,
            upper,
        })
    }

    /// The operation of a kind: for a range its two ends, else a key and what is written or added.
    fn operation(
        &self,
        kind: u32,
        table: usize,
        first: &[u8],
        second: &[u8],
    ) -> Result<Op<Global>, i32>
        ensures read { IfOk result (λ op. IsOperation (tables self.now) kind table first.now second.now (op_of op)) }
        ensures unread { IfErr result (λ code. NoOperation (tables self.now) kind table first.now second.now code) }
    {
        if kind > SCAN {
            return Err(MALFORMED);
        }
        if kind == PUT {
            return self.put_operation(table, first, second);
        }
        if kind == ADD {
            return self.add_operation(table, first, second);
        }
        if kind == SCAN {
            return self.scan_operation(table, first, second);
        }
        self.single(kind, table, first)
    }

    /// Puts an operation behind those that are to run.
    pub(crate) fn add(
        &mut self,
        kind: u32,
        table: usize,
        first: &[u8],
        second: &[u8],
    ) -> Result<(), i32>
        ensures { AddsAt self.old self.new kind table first.now second.now result }
    {
        let operation = self.operation(kind, table, first, second)?;
        push_operation(&mut self.kept.operations, operation)
    }

    /// Runs the operations, of which none is left then, unless another worker has the core: the transaction number, and how many answers
    /// there are, which are asked for one by one.
    pub(crate) fn run(&mut self) -> Result<(u64, usize), i32>
        ensures { RunsAt self.old self.new result }
    {
        let operations = mem::replace(&mut self.kept.operations, Vec::new(self.alloc));
        match self.worker.run_alone(operations) {
            Ok(done) => self.keep_run(done),
            Err((missed, operations)) => {
                self.kept.operations = operations;
                Err(of_missed(missed))
            }
        }
    }

    // Keeps the answers of a run: its number, and how many they are.
    fn keep_run(
        &mut self,
        done: Result<(u64, Vec<Answer<Global>, Global>), Refused<Vec<Op<Global>, Global>>>,
    ) -> Result<(u64, usize), i32>
        ensures { MatchResult done
            (λ told. (result ≡ Ok (told.0, length told.1.items)) × (self.new ≡ record self.old { kept = record self.old.kept { answers = told.1 } }))
            (λ refused. (result ≡ Err (fault_code refused.fault)) × (self.new ≡ self.old)) }
    {
        match done {
            Ok((tn, answers)) => {
                let count = answers.len();
                self.kept.answers = answers;
                Ok((tn, count))
            }
            Err(refused) => Err(of_fault(refused.fault)),
        }
    }

    /// The row that an answer of the last operations tells, where it tells one; the rows of a range are fetched, and counted here.
    pub(crate) fn answer(&mut self, place: usize) -> Result<Told, i32>
        ensures { AnswersAt self.old self.new place result }
    {
        let Some(answer) = self.kept.answers.as_slice().get(place) else {
            return Err(NO_ANSWER);
        };
        let Ok(answer) = answer.clone() else {
            return Err(of_fault(Fault::Memory));
        };
        match answer {
            Answer::Found(None) => Ok(Told::Nothing),
            Answer::Found(Some(row)) => Ok(Told::Row(row)),
            Answer::Rows(rows) => Ok(Told::Rows(self.keep(rows))),
        }
    }
}

/// What an answer tells.
#[derive(Drop)]
pub(crate) enum Told {
    Nothing,
    Row(Row<Global>),
    Rows(usize),
}

fn amount(bytes: &[u8]) -> Result<i64, i32>
    ensures read { IfOk result (λ number. bytes.now ≡ number_bytes (cast_unsigned w64 number)) }
    ensures unread { IfErr result (λ code. NoInt bytes.now code) }
{
    match read_int(bytes) {
        Ok(amount) => Ok(amount),
        Err(unread) => Err(of_unread(unread)),
    }
}

// Puts an operation behind others.
fn push_operation(
    operations: &mut Vec<Op<Global>, Global>,
    operation: Op<Global>,
) -> Result<(), i32>
    ensures ok { OnOk result (operations.new.items ≡ operations.old.items ++ operation ∷ []) }
    ensures err { OnErr result (operations.new.items ≡ operations.old.items) }
    ensures told { (result ≡ Ok tt) ⊎ (result ≡ Err (pos 8)) }
{
    match operations.push(operation) {
        Ok(()) => Ok(()),
        Err(_) => Err(of_fault(Fault::Memory)),
    }
}
