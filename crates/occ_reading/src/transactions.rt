//! Taking the rows of the log, each with its reads and writes.

ghost use Rattle.std.specs.Prelude.{◌≡◌, ◌≤◌, ◌++◌, ◌∷◌, ℕ, true, false, None, [], map, min, length, is_some, vec_capacity, IfOk, IfErr, OnOk};
ghost use Rattle.std.specs.List.{flat_map};
ghost use Rattle.occ_types.specs.PlainData.{object_of};
ghost use Rattle.occ_model.specs.Overlay.{own};
ghost use Rattle.occ_model.specs.RangeLaws.{IsDistinctWrites};
ghost use Rattle.occ_sets.specs.PlainSets.{rows_of, observation_of};
ghost use Rattle.occ_print.specs.Books.{pair_line, read_lines, write_line, row_lines};
ghost use Rattle.occ_reading.specs.RowLines.{PairFits, WriteFits};
ghost use Rattle.occ_reading.specs.Places as places;
ghost use Rattle.occ_reading.specs.Places.{InRow, ReadOf, Marks, frame_of, framed, rows_to_come, writes_to_come, reads_to_come, pairs_to_come, books};
ghost use Rattle.occ_reading.specs.Taking.{AllFit, RisesFrom, ReadFits, LogRowFits, IsRowOf};
ghost use Rattle.occ_reading.specs.PlainRows.{log_row_of, log_of};
ghost use Rattle.occ_text.specs.declared.faults.ReadFault.TheVariants as read_faults;
ghost use Rattle.occ_text.specs.Languages.{position_of, TakesFrom};
ghost use Rattle.occ_text.specs.Line.{HasFailed};

use crate::number_lines::Head;
use crate::row_lines::Asked;
use crate::single_lines::{take_asked, take_head, take_pair, take_write};
use occ_book::LogRow;
use occ_sets::{Answer, Observation, RangeRows, ReadSet, WriteSet};
use occ_text::faults::{ReadFault, read_at_line};
use occ_text::input::Input;
use occ_text::tokens::Unread;
use occ_text::versions::Version;
use occ_types::{Key, Object, Question, Row, Schema};
use std::alloc::{AllocError, Allocator};
use std::io::Read;

/// Keeps what a line told behind what others told. No room stands ready for the first: the count of a text may be any, so room
/// is asked for as the lines come.
fn keep<T: Drop, A: Allocator>(kept: &mut Vec<T, A>, told: T) -> Result<(), AllocError>
    requires { length kept.old.items ≡ 0 → vec_capacity kept.old ≡ 0 }
    ensures { OnOk result (kept.new.items ≡ kept.old.items ++ told ∷ []) }
{
    kept.push(told)?;
    Ok(())
}

/// Takes the rows that a range of a table answered.
fn take_pairs<R: Read, A: Allocator + Copy>(
    alloc: A,
    input: &mut Input<A>,
    reader: &mut R,
    version: Version,
    schema: &Schema<A>,
    table: usize,
    count: u64,
) -> Result<Vec<(Key<A>, Row<A>), A>, ReadFault>
    ensures taken { (row : InRow) → (reads : ℕ) → TakesFrom books result (pairs_to_come (framed version schema.now row) reads table count None) (λ _. reads_to_come (framed version schema.now row) reads) (λ pairs. map pair_line (rows_of pairs.items)) (λ pairs. AllFit (PairFits version schema.now table) count (rows_of pairs.items) × RisesFrom None (rows_of pairs.items)) (position_of input.old (R.remaining reader.old)) (position_of input.new (R.remaining reader.new)) }
    ensures cause { IfErr result (λ fault. fault ≡ read_faults.Read → HasFailed input.new) }
{
    let mut rows = Vec::new(alloc);
    for _ in 0..count {
        let pair = take_pair(
            alloc,
            input,
            reader,
            version,
            schema,
            table,
            rows.as_slice(),
        )?;
        keep(&mut rows, pair)?;
    }
    Ok(rows)
}

/// Takes a read with its answer.
fn take_read<R: Read, A: Allocator + Copy>(
    alloc: A,
    input: &mut Input<A>,
    reader: &mut R,
    version: Version,
    schema: &Schema<A>,
) -> Result<Observation<A>, ReadFault>
    ensures taken { (row : InRow) → (reads : ℕ) → TakesFrom books result (ReadOf (framed version schema.now row) reads) (λ _. reads_to_come (framed version schema.now row) reads) (λ read. read_lines schema.now (observation_of read)) (λ read. ReadFits version schema.now (observation_of read)) (position_of input.old (R.remaining reader.old)) (position_of input.new (R.remaining reader.new)) }
    ensures cause { IfErr result (λ fault. fault ≡ read_faults.Read → HasFailed input.new) }
{
    match take_asked(alloc, input, reader, version, schema)? {
        Asked::One { object, row } => Ok(Observation {
            question: Question::One(object),
            answer: Answer::Found(row),
        }),
        Asked::Span { question, count } => {
            let table = question.table();
            let rows = take_pairs(alloc, input, reader, version, schema, table, count)?;
            let rows = RangeRows::shared(rows)?;
            Ok(Observation {
                question,
                answer: Answer::Rows(rows),
            })
        }
    }
}

/// Notes a read behind others.
fn note<A: Allocator + Copy>(reads: &mut ReadSet<A>, read: Observation<A>) -> Result<(), AllocError>
    ensures { OnOk result (reads.new ≡ reads.old ++ observation_of read ∷ []) }
{
    let Observation { question, answer } = read;
    match reads.push(question, answer) {
        Ok(()) => Ok(()),
        Err(_refused) => Err(AllocError),
    }
}

// How many of so many reads, or writes, get their room at once. No count is trusted with more than four.
fn first_room(count: usize) -> usize
    ensures { result ≡ min count 4 }
{
    count.min(4)
}

/// No reads, with room for the first few.
fn no_reads<A: Allocator + Copy>(alloc: A, room: usize) -> Result<ReadSet<A>, AllocError>
    requires { room ≤ 4 }
    ensures { IfOk result (λ reads. reads ≡ []) }
{
    match ReadSet::with_capacity(alloc, room) {
        Ok(reads) => Ok(reads),
        Err(_fault) => Err(AllocError),
    }
}

/// No writes, with room for the first few.
fn no_writes<A: Allocator + Copy>(alloc: A, room: usize) -> Result<WriteSet<A>, AllocError>
    requires { room ≤ 4 }
    ensures { IfOk result (λ writes. writes ≡ []) }
{
    match WriteSet::with_capacity(alloc, room) {
        Ok(writes) => Ok(writes),
        Err(_fault) => Err(AllocError),
    }
}

/// Takes the reads of a row. Memory for all but the first few is asked for read by read, since the count may be any.
fn take_reads<R: Read, A: Allocator + Copy>(
    alloc: A,
    input: &mut Input<A>,
    reader: &mut R,
    version: Version,
    schema: &Schema<A>,
    count: usize,
) -> Result<ReadSet<A>, ReadFault>
    ensures taken { (row : InRow) → TakesFrom books result (reads_to_come (framed version schema.now row) count) (λ _. writes_to_come (framed version schema.now row) row.head.writes []) (flat_map (read_lines schema.now)) (AllFit (ReadFits version schema.now) count) (position_of input.old (R.remaining reader.old)) (position_of input.new (R.remaining reader.new)) }
    ensures cause { IfErr result (λ fault. fault ≡ read_faults.Read → HasFailed input.new) }
{
    let mut reads = no_reads(alloc, first_room(count))?;
    for _ in 0..count {
        let read = take_read(alloc, input, reader, version, schema)?;
        note(&mut reads, read)?;
    }
    Ok(reads)
}

/// Adds a write of an object that wasn't written before. `Malformed` where it was.
fn add_write<A: Allocator + Copy>(
    writes: &mut WriteSet<A>,
    object: Object<A>,
    row: Option<Row<A>>,
) -> Result<(), Unread>
    ensures ok { OnOk result (writes.new ≡ writes.old ++ (object_of object, row) ∷ []) }
    ensures unwritten { IfOk result (λ _. is_some (own writes.old (object_of object)) ≡ false) }
    ensures err { IfErr result (λ unread. unread ≡ Unread.Malformed → is_some (own writes.old (object_of object)) ≡ true) }
    ensures memory { IfErr result (λ unread. unread ≡ Unread.Memory → is_some (own writes.old (object_of object)) ≡ false) }
{
    if writes.writes(&object) {
        return Err(Unread::Malformed);
    }
    let Object { table, key } = object;
    match writes.insert(table, key, row) {
        Ok(()) => Ok(()),
        Err(_refused) => Err(Unread::Memory),
    }
}

/// Takes the writes of a row, no object twice. Memory for all but the first few is asked for write by write, since the count may be any.
fn take_writes<R: Read, A: Allocator + Copy>(
    alloc: A,
    input: &mut Input<A>,
    reader: &mut R,
    version: Version,
    schema: &Schema<A>,
    count: usize,
) -> Result<WriteSet<A>, ReadFault>
    ensures taken { (row : InRow) → TakesFrom books result (writes_to_come (framed version schema.now row) count []) (λ _. rows_to_come (framed version schema.now row).frame row.rows) (map (write_line schema.now)) (λ writes. AllFit (WriteFits version schema.now) count writes × IsDistinctWrites writes) (position_of input.old (R.remaining reader.old)) (position_of input.new (R.remaining reader.new)) }
    ensures cause { IfErr result (λ fault. fault ≡ read_faults.Read → HasFailed input.new) }
{
    // its tables make a schema, so no other write has the line of one
    let _tables = schema.tables();
    let mut writes = no_writes(alloc, first_room(count))?;
    for _ in 0..count {
        let (object, row) = take_write(alloc, input, reader, version, schema)?;
        read_at_line(add_write(&mut writes, object, row), input.number())?;
    }
    Ok(writes)
}

/// The row of a first line, its reads and its writes.
fn row_of<A: Allocator>(head: Head, reads: ReadSet<A>, writes: WriteSet<A>) -> LogRow<A, ()>
    ensures { IsRowOf head reads writes (log_row_of result) }
{
    LogRow {
        place: head.place,
        session: head.session,
        number: head.number,
        start: head.start,
        finish: head.finish,
        reads,
        writes,
        standing: head.standing,
    }
}

/// Takes a row of the log.
fn take_row<R: Read, A: Allocator + Copy>(
    alloc: A,
    input: &mut Input<A>,
    reader: &mut R,
    version: Version,
    schema: &Schema<A>,
    sessions: usize,
) -> Result<LogRow<A, ()>, ReadFault>
    ensures taken { (rows : ℕ) → TakesFrom books result (places.LogRow (frame_of version schema.now sessions) rows) (λ _. rows_to_come (frame_of version schema.now sessions) rows) (λ row. row_lines schema.now (log_row_of row)) (λ row. LogRowFits version schema.now sessions (log_row_of row)) (position_of input.old (R.remaining reader.old)) (position_of input.new (R.remaining reader.new)) }
    ensures cause { IfErr result (λ fault. fault ≡ read_faults.Read → HasFailed input.new) }
{
    let head = take_head(input, reader, sessions)?;
    let reads = take_reads(alloc, input, reader, version, schema, head.reads)?;
    let writes = take_writes(alloc, input, reader, version, schema, head.writes)?;
    Ok(row_of(head, reads, writes))
}

/// Takes so many rows of the log. Memory is asked for row by row, since the count may be any.
pub(crate) fn take_rows<R: Read, A: Allocator + Copy>(
    alloc: A,
    input: &mut Input<A>,
    reader: &mut R,
    version: Version,
    schema: &Schema<A>,
    sessions: usize,
    count: u64,
) -> Result<Vec<LogRow<A, ()>, A>, ReadFault>
    ensures taken { TakesFrom books result (rows_to_come (frame_of version schema.now sessions) count) (λ _. Marks (frame_of version schema.now sessions)) (λ log. flat_map (row_lines schema.now) (log_of log.items)) (λ log. AllFit (LogRowFits version schema.now sessions) count (log_of log.items)) (position_of input.old (R.remaining reader.old)) (position_of input.new (R.remaining reader.new)) }
    ensures cause { IfErr result (λ fault. fault ≡ read_faults.Read → HasFailed input.new) }
{
    let mut log = Vec::new(alloc);
    for _ in 0..count {
        let row = take_row(alloc, input, reader, version, schema, sessions)?;
        keep(&mut log, row)?;
    }
    Ok(log)
}
