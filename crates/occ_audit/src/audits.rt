//! The audit of a log.
ghost use Rattle.std.specs.Prelude.{◌≡◌, ℕ, IfOk, IfErr};
ghost use Rattle.std.specs.Bool.{Decides};
ghost use Rattle.occ_types.specs.declared.fault.Fault.TheVariants.{Memory};
ghost use Rattle.occ_model.specs.Log.{Audited, Case, Explained, InOrder, serial, settled};
ghost use Rattle.occ_sets.specs.LogRows as books;
ghost use Rattle.occ_audit.specs.Rows.{log_of};

use crate::order::{are_closed, are_placed, last_numbers};
use crate::rests::{are_settled, rests_of};
use crate::serial_replay::replay;
use occ_book::BookView;
use occ_types::Fault;
use std::alloc::{AllocError, Allocator};

/// Whether the whole claim on a book holds, from its base on: places and each session's numbers stand without a gap, and none comes after its closing mark; each committed transaction read what serial replay of those before it answers; and the tables, with the rest of each open write phase, are the replay of the whole log from the state of the base on. What is held of an open row is not asked for, so the answer is right however that is seen.
///
/// The numbers of the base and of the log may be any, and do not have to add up. The rows may be of sessions, and may write to tables,
/// that are not there, and the base may have other sessions and tables than the book.
///
/// The time is linear in the log, in what its rows read and write and in the rows of the base and of the tables, but for a factor for each search in a map. No key and no row is copied: the memory is that of
/// references to the rows of the replayed state under their keys, and of a few words for each session and each write that is still to be done.
///
/// It is refused with `Memory` where there is none.
pub fn audit_rows<A: Allocator + Copy, O>(
    alloc: A,
    book: &BookView<'_, A, O>,
) -> Result<bool, Fault>
    ensures ok { (opened : O → ℕ × Case) → IfOk result (λ yes. Decides yes (Audited book.now.base.now.base book.now.marks.now.marks book.now.table.now.state (books.log_of opened book.now.log.now))) }
    ensures err { IfErr result (λ fault. fault ≡ Memory) }
{
    if !is_in_order(alloc, book)? {
        return Ok(false);
    }
    let replayed = is_replayed(alloc, book)?;
    Ok(replayed)
}

// Whether places, numbers and closing marks stand as the claim says.
fn is_in_order<A: Allocator + Copy, O>(
    alloc: A,
    book: &BookView<'_, A, O>,
) -> Result<bool, AllocError>
    ensures { IfOk result (λ yes. Decides yes (InOrder book.now.base.now.base book.now.marks.now.marks (log_of book.now.log.now))) }
{
    if !are_placed(book.base.place(), book.log) {
        return Ok(false);
    }
    let Some(last) = last_numbers(alloc, book.base, book.log)? else {
        return Ok(false);
    };
    let closed = are_closed(book.base, book.marks, &last);
    Ok(closed)
}

// Whether serial replay explains the log, and leads to the tables once the open write phases have done their rests.
fn is_replayed<A: Allocator + Copy, O>(
    alloc: A,
    book: &BookView<'_, A, O>,
) -> Result<bool, AllocError>
    ensures { IfOk result (λ yes. Decides yes (Explained book.now.base.now.base.state (log_of book.now.log.now) × (settled book.now.table.now.state (log_of book.now.log.now) ≡ serial book.now.base.now.base.state (log_of book.now.log.now)))) }
{
    let Some(replayed) = replay(alloc, book.base, book.log)? else {
        return Ok(false);
    };
    let rests = rests_of(alloc, book.log)?;
    let settled = are_settled(book.table, &rests, replayed)?;
    Ok(settled)
}
