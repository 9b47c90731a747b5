//! The first place, number or closing mark that is out of order.
ghost use Rattle.std.specs.Prelude.{◌≡◌, ℕ, suc, ◌+◌, IfOk, MatchOption};
ghost use Rattle.std.specs.Bool.{Decides};
ghost use Rattle.occ_model.specs.Log.{InOrder, last_folded};
ghost use Rattle.occ_audit.specs.Order.{ArePlaced, AreNumbered, AreLast, AreClosed, last_of};
ghost use Rattle.occ_audit.specs.Rows.{log_of};
ghost use Rattle.occ_audit.specs.Findings.{IsDisorder};
ghost use Rattle.occ_audit.specs.Counting.{RowsGive, RowGives, MarksGive};

use crate::findings::Disorder;
use occ_book::{Base, BookView, LogRow, Marks};
use std::alloc::{AllocError, Allocator};
use std::collections::BTreeMap;

/// How far the rows of a log are in order.
enum Counted<A: Allocator> {
    /// All of them, and the last number of each session that has a row.
    Whole(BTreeMap<usize, u64, A>),
    /// Up to a row.
    To(Disorder),
}

/// The first row with a place or a number out of order, or else the first session with a closing mark out of order, or none: where the log follows its base in order.
///
/// The numbers of the base and of the log may be any. The time is linear in the log but for a factor for a search in a map, and the memory is that of a few words for each session. It is refused with `AllocError` where there is none.
pub fn first_disorder<A: Allocator + Copy, O>(
    alloc: A,
    book: &BookView<'_, A, O>,
) -> Result<Option<Disorder>, AllocError>
    ensures { IfOk result (λ found. MatchOption found
        (InOrder book.now.base.now.base book.now.marks.now.marks (log_of book.now.log.now))
        (IsDisorder book.now.base.now.base book.now.marks.now.marks (log_of book.now.log.now))) }
{
    let counted = count_rows(alloc, book.base, book.log)?;
    match counted {
        Counted::To(disorder) => Ok(Some(disorder)),
        Counted::Whole(last) => {
            let found = first_open_mark(book.base, book.marks, &last);
            Ok(found)
        }
    }
}

// Counts the rows up to the first one that is out of order.
fn count_rows<A: Allocator + Clone, O>(
    alloc: A,
    base: &Base<A>,
    log: &[LogRow<A, O>],
) -> Result<Counted<A>, AllocError>
    ensures { IfOk result (RowsGive base.now.base (log_of log.now)) }
{
    let mut last = BTreeMap::new(alloc);
    for (index, row) in log.iter().enumerate() {
        if let Some(disorder) = row_disorder(base, &last, index, row) {
            return Ok(Counted::To(disorder));
        }
        last.insert(row.session, row.number)?;
    }
    Ok(Counted::Whole(last))
}

// What is out of order of the row at an index, where the rows before it are in order and these are the last numbers of their sessions.
fn row_disorder<A: Allocator, O>(
    base: &Base<A>,
    last: &BTreeMap<usize, u64, A>,
    index: usize,
    row: &LogRow<A, O>,
) -> Option<Disorder>
    ensures { RowGives base.now.base.place index (last_of base.now.base last.now row.now.session) row.now.place row.now.number result }
{
    let first = base.place();
    if !is_placed(row.place, first, index) {
        let due = first.checked_add(index);
        return Some(Disorder::Place { row: index, due });
    }
    let before = last_number(base, last, row.session);
    if !is_next(row.number, before) {
        let due = before.checked_add(1);
        return Some(Disorder::Number { row: index, due });
    }
    None
}

// Whether a place is so far behind a first one. Both may be any, so no sum is made of them.
fn is_placed(place: usize, first: usize, before: usize) -> bool
    ensures { Decides result (place ≡ first + before) }
{
    place >= first && place - first == before
}

// Whether a number is the one after another.
fn is_next(number: u64, before: u64) -> bool
    ensures { Decides result (number ≡ suc before) }
{
    number > 0 && number - 1 == before
}

// The last number of a session, in the log or else in the base.
fn last_number<A: Allocator>(base: &Base<A>, last: &BTreeMap<usize, u64, A>, session: usize) -> u64
    ensures { result ≡ last_of base.now.base last.now session }
{
    match last.get(&session) {
        Some(number) => *number,
        None => last_folded(base, session),
    }
}

// The last number of a session that was folded, or 0.
fn last_folded<A: Allocator>(base: &Base<A>, session: usize) -> u64
    ensures { result ≡ last_folded base.now.base session }
{
    match base.last(session) {
        Some(number) => number,
        None => 0,
    }
}

// The first session whose closing mark isn't the number after its last one.
fn first_open_mark<A: Allocator>(
    base: &Base<A>,
    marks: &Marks<A>,
    last: &BTreeMap<usize, u64, A>,
) -> Option<Disorder>
    ensures { MarksGive base.now.base marks.now.marks last.now result }
{
    for before in 0..marks.sessions() {
        let session = before + 1;
        if let Some(mark) = marks.get(session) {
            let number = last_number(base, last, session);
            if !is_next(mark, number) {
                let due = number.checked_add(1);
                return Some(Disorder::Mark { session, due });
            }
        }
    }
    None
}
