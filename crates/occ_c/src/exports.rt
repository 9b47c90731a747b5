//! What C calls. A handle is given to one call at a time.
ghost use Rattle.std.specs.Prelude.{◌≡◌, ◌⊎◌, ◌<◌, [], pos, length, None, Some, Ok, IfOk, IfErr, IsOkUnless};
ghost use Rattle.occ_bytes.specs.Bytes.{put_at};
ghost use Rattle.occ_types.specs.declared.fault.Fault.TheVariants.{Memory};
ghost use Rattle.occ_sharing.specs.Sharing.{AbandonCame, BeginCame, CheckpointCame, CommitCame, CountsCame, JoinCame, LeaseCame, LeaveCame};
ghost use Rattle.occ_c.specs.Codes.{answered, code_of, committed, counting, nothing_told, reached, telling};
ghost use Rattle.occ_c.specs.Desks.{Called, DeletesAt, FindsTable, GetsAt, GetsInto, IsFresh, PutsAt, ScansAt, IsCodeOf, TellsOf, tables};
ghost use Rattle.occ_c.specs.Kept.{AddsAt, AnswersAt, AnswersInto, Fetches, RunsAt, RunsInto, TakesRows};
ghost use Rattle.occ_c.specs.Texts.{Audits, Books, OpensFor, Replays, part_from};

use crate::codes::{NO_ROW, OK, ROOM, done, line_of, of_fault, of_trouble, told};
use crate::desks::Desk;
use crate::encoding::{write_part, write_row};
use crate::handles::{Handle, Opaque, leak};
use crate::operations::{Told, write_rows};
use crate::texts;
use core::mem::replace_with;
use occ_sets::RangeRows;
use occ_sharing::Counts;
use occ_types::{Fault, Row};
use std::alloc::Global;
use std::mem;

/// Opens a store as a header says, and a desk of it.
#[unsafe(no_mangle)]
pub extern "C" fn occ_rt_open(
    alloc: Global,
    header: &[u8],
    out: &mut *mut Opaque,
    line: &mut u64,
) -> i32
    ensures { OpensFor header.now line.old line.new result }
{
    match texts::open(alloc, header) {
        Ok(desk) => {
            *out = leak(desk);
            OK
        }
        Err(trouble) => {
            *line = line_of(trouble);
            of_trouble(trouble)
        }
    }
}

/// A further desk of the same store, which has no session.
#[unsafe(no_mangle)]
pub extern "C" fn occ_rt_desk(desk: &mut Handle, out: &mut *mut Opaque) -> i32
    ensures same { desk.new.desk ≡ desk.old.desk }
    ensures told { (result ≡ pos 0) ⊎ (result ≡ pos 8) }
{
    match replace_with(desk, (), another_in) {
        Ok(another) => {
            *out = leak(another);
            OK
        }
        Err(fault) => of_fault(fault),
    }
}

fn another_in(desk: Handle, _given: ()) -> (Handle, Result<Box<Desk>, Fault>)
    ensures same { result.0.desk ≡ desk.desk }
    ensures fresh { IfOk result.1 (λ another. (another.value.limits ≡ desk.desk.limits) × (another.value.store ≡ desk.desk.store) × IsFresh another.value) }
    ensures memory { IsOkUnless result.1 Memory }
{
    let desk = desk.into_box();
    let another = desk.another();
    (Handle::of(desk), another)
}

/// Ends a desk. What it had open is dropped, and its session is lost where it has one.
#[unsafe(no_mangle)]
pub extern "C" fn occ_rt_free(desk: Handle) {
    drop(desk.into_box());
}

/// Takes a session that no worker has.
#[unsafe(no_mangle)]
pub extern "C" fn occ_rt_join(desk: &mut Handle) -> i32
    ensures { Called desk.old.desk desk.new.desk JoinCame (λ came. code_of (answered came)) result }
{
    done(replace_with(desk, (), join_in))
}

fn join_in(desk: Handle, _given: ()) -> (Handle, Result<(), i32>)
    ensures { Called desk.desk result.0.desk JoinCame (λ came. answered came) result.1 }
{
    let mut desk = desk.into_box();
    let came = desk.join();
    (Handle::of(desk), came)
}

/// Gives the session back.
#[unsafe(no_mangle)]
pub extern "C" fn occ_rt_leave(desk: &mut Handle) -> i32
    ensures { Called desk.old.desk desk.new.desk LeaveCame (λ came. code_of (answered came)) result }
{
    done(replace_with(desk, (), leave_in))
}

fn leave_in(desk: Handle, _given: ()) -> (Handle, Result<(), i32>)
    ensures { Called desk.desk result.0.desk LeaveCame (λ came. answered came) result.1 }
{
    let mut desk = desk.into_box();
    let came = desk.leave();
    (Handle::of(desk), came)
}

/// Opens a transaction.
#[unsafe(no_mangle)]
pub extern "C" fn occ_rt_begin(desk: &mut Handle) -> i32
    ensures { Called desk.old.desk desk.new.desk BeginCame (λ came. code_of (answered came)) result }
{
    done(replace_with(desk, (), begin_in))
}

fn begin_in(desk: Handle, _given: ()) -> (Handle, Result<(), i32>)
    ensures { Called desk.desk result.0.desk BeginCame (λ came. answered came) result.1 }
{
    let mut desk = desk.into_box();
    let came = desk.begin();
    (Handle::of(desk), came)
}

/// Ends the open transaction, and tells its transaction number.
#[unsafe(no_mangle)]
pub extern "C" fn occ_rt_commit(desk: &mut Handle, number: &mut u64) -> i32
    ensures { Called desk.old.desk desk.new.desk CommitCame (λ came. telling number.old (committed (answered came))) (result, number.new) }
{
    told(replace_with(desk, (), commit_in), number)
}

fn commit_in(desk: Handle, _given: ()) -> (Handle, Result<u64, i32>)
    ensures { Called desk.desk result.0.desk CommitCame (λ came. committed (answered came)) result.1 }
{
    let mut desk = desk.into_box();
    let came = desk.commit();
    (Handle::of(desk), came)
}

/// Gives the open transaction up.
#[unsafe(no_mangle)]
pub extern "C" fn occ_rt_abandon(desk: &mut Handle) -> i32
    ensures { Called desk.old.desk desk.new.desk AbandonCame (λ came. code_of (nothing_told (answered came))) result }
{
    done(replace_with(desk, (), abandon_in))
}

fn abandon_in(desk: Handle, _given: ()) -> (Handle, Result<(), i32>)
    ensures { Called desk.desk result.0.desk AbandonCame (λ came. nothing_told (answered came)) result.1 }
{
    let mut desk = desk.into_box();
    let came = desk.abandon();
    (Handle::of(desk), came)
}

/// Keeps the core for the calls from now on.
#[unsafe(no_mangle)]
pub extern "C" fn occ_rt_lease(desk: &mut Handle) -> i32
    ensures { Called desk.old.desk desk.new.desk LeaseCame (λ came. code_of (reached came)) result }
{
    done(replace_with(desk, (), lease_in))
}

fn lease_in(desk: Handle, _given: ()) -> (Handle, Result<(), i32>)
    ensures { Called desk.desk result.0.desk LeaseCame (λ came. reached came) result.1 }
{
    let mut desk = desk.into_box();
    let came = desk.lease();
    (Handle::of(desk), came)
}

/// Puts the core back.
#[unsafe(no_mangle)]
pub extern "C" fn occ_rt_release(desk: &mut Handle) -> i32
    ensures told { result ≡ pos 0 }
    ensures desk { desk.new.desk ≡ record desk.old.desk { worker = record desk.old.desk.worker { lease = desk.new.desk.worker.lease } } }
    ensures kept { (desk.new.desk.worker.lease ≡ None) ⊎ (desk.new.desk.worker.lease ≡ desk.old.desk.worker.lease) }
{
    done(replace_with(desk, (), release_in))
}

fn release_in(desk: Handle, _given: ()) -> (Handle, Result<(), i32>)
    ensures told { result.1 ≡ Ok tt }
    ensures desk { result.0.desk ≡ record desk.desk { worker = record desk.desk.worker { lease = result.0.desk.worker.lease } } }
    ensures kept { (result.0.desk.worker.lease ≡ None) ⊎ (result.0.desk.worker.lease ≡ desk.desk.worker.lease) }
{
    let mut desk = desk.into_box();
    let came = desk.release();
    (Handle::of(desk), came)
}

/// Folds the settled beginning of the log, and tells how many rows that are.
#[unsafe(no_mangle)]
pub extern "C" fn occ_rt_checkpoint(desk: &mut Handle, folded: &mut usize) -> i32
    ensures { Called desk.old.desk desk.new.desk CheckpointCame (λ came. telling folded.old (answered came)) (result, folded.new) }
{
    told(replace_with(desk, (), checkpoint_in), folded)
}

fn checkpoint_in(desk: Handle, _given: ()) -> (Handle, Result<usize, i32>)
    ensures { Called desk.desk result.0.desk CheckpointCame (λ came. answered came) result.1 }
{
    let mut desk = desk.into_box();
    let came = desk.checkpoint();
    (Handle::of(desk), came)
}

/// Ends the store, and frees what it has.
#[unsafe(no_mangle)]
pub extern "C" fn occ_rt_end(desk: &mut Handle) -> i32
    ensures same { desk.new.desk ≡ desk.old.desk }
    ensures told { (result ≡ pos 0) ⊎ (result ≡ pos 107) ⊎ (result ≡ pos 105) }
{
    done(replace_with(desk, (), end_in))
}

fn end_in(desk: Handle, _given: ()) -> (Handle, Result<(), i32>)
    ensures same { result.0.desk ≡ desk.desk }
    ensures missed { IfErr result.1 (λ code. (code ≡ pos 107) ⊎ (code ≡ pos 105)) }
{
    let mut desk = desk.into_box();
    let came = desk.end_store();
    (Handle::of(desk), came)
}

/// Writes a row.
#[unsafe(no_mangle)]
pub extern "C" fn occ_rt_put(desk: &mut Handle, table: usize, key: &[u8], row: &[u8]) -> i32
    ensures { IsCodeOf (PutsAt desk.old.desk desk.new.desk table key.now row.now) result }
{
    done(replace_with(desk, (table, key, row), put_in))
}

fn put_in(desk: Handle, given: (usize, &[u8], &[u8])) -> (Handle, Result<(), i32>)
    ensures { PutsAt desk.desk result.0.desk given.entry.0 given.entry.1.now given.entry.2.now result.1 }
{
    let (table, key, row) = given;
    let mut desk = desk.into_box();
    let came = desk.put(table, key, row);
    (Handle::of(desk), came)
}

/// Deletes a row.
#[unsafe(no_mangle)]
pub extern "C" fn occ_rt_delete(desk: &mut Handle, table: usize, key: &[u8]) -> i32
    ensures { IsCodeOf (DeletesAt desk.old.desk desk.new.desk table key.now) result }
{
    done(replace_with(desk, (table, key), delete_in))
}

fn delete_in(desk: Handle, given: (usize, &[u8])) -> (Handle, Result<(), i32>)
    ensures { DeletesAt desk.desk result.0.desk given.entry.0 given.entry.1.now result.1 }
{
    let (table, key) = given;
    let mut desk = desk.into_box();
    let came = desk.delete(table, key);
    (Handle::of(desk), came)
}

/// Puts an operation behind those that are to run alone.
#[unsafe(no_mangle)]
pub extern "C" fn occ_rt_add(
    desk: &mut Handle,
    kind: u32,
    table: usize,
    first: &[u8],
    second: &[u8],
) -> i32
    ensures { IsCodeOf (AddsAt desk.old.desk desk.new.desk kind table first.now second.now) result }
{
    done(replace_with(desk, (kind, table, first, second), add_in))
}

fn add_in(desk: Handle, given: (u32, usize, &[u8], &[u8])) -> (Handle, Result<(), i32>)
    ensures { AddsAt desk.desk result.0.desk given.entry.0 given.entry.1 given.entry.2.now given.entry.3.now result.1 }
{
    let (kind, table, first, second) = given;
    let mut desk = desk.into_box();
    let came = desk.add(kind, table, first, second);
    (Handle::of(desk), came)
}

/// Takes the operations away that are to run alone.
#[unsafe(no_mangle)]
pub extern "C" fn occ_rt_clear(desk: &mut Handle) -> i32
    ensures told { result ≡ pos 0 }
    ensures none { desk.new.desk.kept.operations.items ≡ [] }
    ensures kept { desk.new.desk ≡ record desk.old.desk { kept = record desk.old.desk.kept { operations = desk.new.desk.kept.operations } } }
{
    replace_with(desk, (), clear_in);
    OK
}

fn clear_in(desk: Handle, _given: ()) -> (Handle, ())
    ensures none { result.0.desk.kept.operations.items ≡ [] }
    ensures kept { result.0.desk ≡ record desk.desk { kept = record desk.desk.kept { operations = result.0.desk.kept.operations } } }
{
    let mut desk = desk.into_box();
    desk.kept.operations = Vec::new(desk.alloc);
    (Handle::of(desk), ())
}

/// The place of the table with a name.
#[unsafe(no_mangle)]
pub extern "C" fn occ_rt_table(desk: &mut Handle, name: &[u8], place: &mut usize) -> i32
    ensures same { desk.new.desk ≡ desk.old.desk }
    ensures told { TellsOf (FindsTable (tables desk.old.desk) name.now) place.old place.new result }
{
    told(replace_with(desk, (name,), table_in), place)
}

fn table_in(desk: Handle, given: (&[u8],)) -> (Handle, Result<usize, i32>)
    ensures same { result.0.desk ≡ desk.desk }
    ensures found { FindsTable (tables desk.desk) given.entry.0.now result.1 }
{
    let (name,) = given;
    let desk = desk.into_box();
    let came = desk.table(name);
    (Handle::of(desk), came)
}

/// Writes the book of the store, which is read in parts, and tells its size.
#[unsafe(no_mangle)]
pub extern "C" fn occ_rt_book(desk: &mut Handle, size: &mut usize) -> i32
    ensures { TellsOf (Books desk.old.desk desk.new.desk) size.old size.new result }
{
    told(replace_with(desk, (), book_in), size)
}

fn book_in(desk: Handle, _given: ()) -> (Handle, Result<usize, i32>)
    ensures { Books desk.desk result.0.desk result.1 }
{
    let mut desk = desk.into_box();
    let came = desk.book();
    (Handle::of(desk), came)
}

/// Reads a range, and tells how many rows it has, which are fetched then.
#[unsafe(no_mangle)]
pub extern "C" fn occ_rt_scan(
    desk: &mut Handle,
    table: usize,
    lower: &[u8],
    upper: &[u8],
    count: &mut usize,
) -> i32
    ensures { TellsOf (ScansAt desk.old.desk desk.new.desk table lower.now upper.now) count.old count.new result }
{
    told(replace_with(desk, (table, lower, upper), scan_in), count)
}

fn scan_in(desk: Handle, given: (usize, &[u8], &[u8])) -> (Handle, Result<usize, i32>)
    ensures { ScansAt desk.desk result.0.desk given.entry.0 given.entry.1.now given.entry.2.now result.1 }
{
    let (table, lower, upper) = given;
    let mut desk = desk.into_box();
    let came = desk.scan(table, lower, upper);
    (Handle::of(desk), came)
}

/// Runs the operations alone, and tells the transaction number, and how many answers there are.
#[unsafe(no_mangle)]
pub extern "C" fn occ_rt_run(desk: &mut Handle, number: &mut u64, answers: &mut usize) -> i32
    ensures { RunsInto desk.old.desk desk.new.desk number.old number.new answers.old answers.new result }
{
    match replace_with(desk, (), run_in) {
        Ok((tn, count)) => {
            *number = tn;
            *answers = count;
            OK
        }
        Err(code) => code,
    }
}

fn run_in(desk: Handle, _given: ()) -> (Handle, Result<(u64, usize), i32>)
    ensures { RunsAt desk.desk result.0.desk result.1 }
{
    let mut desk = desk.into_box();
    let came = desk.run();
    (Handle::of(desk), came)
}

/// Tells how many transactions committed, and how many rows stand in the log.
#[unsafe(no_mangle)]
pub extern "C" fn occ_rt_counts(desk: &mut Handle, commits: &mut u64, rows: &mut usize) -> i32
    ensures { Called desk.old.desk desk.new.desk CountsCame (λ came. counting commits.old rows.old (reached came)) (result, commits.new, rows.new) }
{
    match replace_with(desk, (), counts_in) {
        Ok(counts) => {
            *commits = counts.commits;
            *rows = counts.rows;
            OK
        }
        Err(code) => code,
    }
}

fn counts_in(desk: Handle, _given: ()) -> (Handle, Result<Counts, i32>)
    ensures { Called desk.desk result.0.desk CountsCame (λ came. reached came) result.1 }
{
    let mut desk = desk.into_box();
    let came = desk.counts();
    (Handle::of(desk), came)
}

/// The row under a key, into a room, with its size. Where the room is too short nothing but the size is told.
#[unsafe(no_mangle)]
pub extern "C" fn occ_rt_get(
    desk: &mut Handle,
    table: usize,
    key: &[u8],
    room: &mut [u8],
    size: &mut usize,
) -> i32
    ensures { GetsInto desk.old.desk desk.new.desk table key.now room.old room.new size.old size.new result }
{
    match replace_with(desk, (table, key), get_in) {
        Ok(row) => write_row(&row, room, size),
        Err(code) => code,
    }
}

fn get_in(desk: Handle, given: (usize, &[u8])) -> (Handle, Result<Row<Global>, i32>)
    ensures { GetsAt desk.desk result.0.desk given.entry.0 given.entry.1.now result.1 }
{
    let (table, key) = given;
    let mut desk = desk.into_box();
    let found = desk.get(table, key);
    (Handle::of(desk), found)
}

/// The next rows of the last range into a room, as many as have room whole: how many bytes and how many rows. Where not even the first has
/// room, the bytes are those that it needs.
#[unsafe(no_mangle)]
pub extern "C" fn occ_rt_fetch(
    desk: &mut Handle,
    room: &mut [u8],
    size: &mut usize,
    count: &mut usize,
) -> i32
    ensures { Fetches desk.old.desk desk.new.desk room.old room.new size.new count.new result }
{
    let (rows, next) = match replace_with(desk, (), rows_in) {
        Some(found) => found,
        None => {
            *size = 0;
            *count = 0;
            return OK;
        }
    };
    let written = write_rows(&rows, next, room);
    *size = written.bytes;
    *count = written.rows;
    let left = rows.len().saturating_sub(next);
    replace_with(desk, (rows, next.saturating_add(written.rows)), keep_in);
    fetch_code(written.rows, left)
}

// The code of a fetch of so many rows, where so many were left: the room is too short where it had none for the first.
fn fetch_code(fetched: usize, left: usize) -> i32
    ensures short { fetched ≡ 0 → 0 < left → result ≡ pos 103 }
    ensures done { (0 < fetched) ⊎ (left ≡ 0) → result ≡ pos 0 }
{
    if fetched == 0 && left > 0 {
        return ROOM;
    }
    OK
}

// Takes the rows that are kept out, with the place of the next one.
fn rows_in(desk: Handle, _given: ()) -> (Handle, Option<(RangeRows<Global>, usize)>)
    ensures { TakesRows desk.desk result.0.desk result.1 }
{
    let mut desk = desk.into_box();
    let found = match desk.kept.rows.take() {
        Some(rows) => Some((rows, desk.kept.next)),
        None => None,
    };
    (Handle::of(desk), found)
}

// Puts them back.
fn keep_in(desk: Handle, given: (RangeRows<Global>, usize)) -> (Handle, ())
    ensures { result.0.desk ≡ record desk.desk { kept = record desk.desk.kept { rows = Some given.0; next = given.1 } } }
{
    let (rows, next) = given;
    let mut desk = desk.into_box();
    desk.kept.rows = Some(rows);
    desk.kept.next = next;
    (Handle::of(desk), ())
}

/// What an answer of the last operations tells: a row into a room, with its size; or how many rows a range has, which are fetched then.
#[unsafe(no_mangle)]
pub extern "C" fn occ_rt_answer(
    desk: &mut Handle,
    place: usize,
    room: &mut [u8],
    size: &mut usize,
) -> i32
    ensures { AnswersInto desk.old.desk desk.new.desk place room.old room.new size.old size.new result }
{
    match replace_with(desk, (place,), answer_in) {
        Ok(Told::Nothing) => NO_ROW,
        Ok(Told::Row(row)) => write_row(&row, room, size),
        Ok(Told::Rows(count)) => {
            *size = count;
            OK
        }
        Err(code) => code,
    }
}

fn answer_in(desk: Handle, given: (usize,)) -> (Handle, Result<Told, i32>)
    ensures { AnswersAt desk.desk result.0.desk given.0 result.1 }
{
    let (place,) = given;
    let mut desk = desk.into_box();
    let told = desk.answer(place);
    (Handle::of(desk), told)
}

/// A part of the book, from a place on, into a room: how many bytes.
#[unsafe(no_mangle)]
pub extern "C" fn occ_rt_book_part(
    desk: &mut Handle,
    from: usize,
    room: &mut [u8],
    size: &mut usize,
) -> i32
    ensures same { desk.new.desk ≡ desk.old.desk }
    ensures part { room.new ≡ put_at room.old 0 (part_from desk.old.desk.kept.book.items from (length room.old)) }
    ensures size { size.new ≡ length (part_from desk.old.desk.kept.book.items from (length room.old)) }
    ensures told { result ≡ pos 0 }
{
    let book = replace_with(desk, (), book_out);
    *size = write_part(book.as_slice(), from, room);
    replace_with(desk, (book,), book_back);
    OK
}

// Takes the book out.
fn book_out(desk: Handle, _given: ()) -> (Handle, Vec<u8, Global>)
    ensures book { result.1 ≡ desk.desk.kept.book }
    ensures kept { result.0.desk ≡ record desk.desk { kept = record desk.desk.kept { book = result.0.desk.kept.book } } }
{
    let mut desk = desk.into_box();
    let nothing = Vec::new(desk.alloc);
    let book = mem::replace(&mut desk.kept.book, nothing);
    (Handle::of(desk), book)
}

// Puts it back.
fn book_back(desk: Handle, given: (Vec<u8, Global>,)) -> (Handle, ())
    ensures { result.0.desk ≡ record desk.desk { kept = record desk.desk.kept { book = given.0 } } }
{
    let (book,) = given;
    let mut desk = desk.into_box();
    desk.kept.book = book;
    (Handle::of(desk), ())
}

/// Whether a book holds.
#[unsafe(no_mangle)]
pub extern "C" fn occ_rt_audit(alloc: Global, text: &[u8], verdict: &mut i32, line: &mut u64) -> i32
    ensures { Audits text.now verdict.old verdict.new line.old line.new result }
{
    texts::audit(alloc, text, verdict, line)
}

/// What a schedule answers, as much of it as has room, and its whole size.
#[unsafe(no_mangle)]
pub extern "C" fn occ_rt_replay(
    alloc: Global,
    text: &[u8],
    quiet: bool,
    room: &mut [u8],
    size: &mut usize,
    line: &mut u64,
) -> i32
    ensures { Replays quiet text.now room.old room.new size.new line.old line.new result }
{
    texts::replay(alloc, text, quiet, room, size, line)
}
