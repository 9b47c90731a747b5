//! What a printed book leaves for a store that goes on from it.

ghost use Rattle.std.specs.Prelude.{◌≡◌, ◌<◌, ◌+◌, ◌^◌, IfOk, IfErr, MatchResult, length, true, false};
ghost use Rattle.std.specs.Bool.{Decides};
ghost use Rattle.std.specs.List.{list_any};
ghost use Rattle.occ_model.specs.Log.{is_active};
ghost use Rattle.occ_model.specs.Step.{folded};
ghost use Rattle.occ_reading.specs.Bases.{HasNoBase, LeavesBase};
ghost use Rattle.occ_reading.specs.PlainRows.{log_of, log_row_of};
ghost use Rattle.occ_reading.specs.WholeBooks.{BookFits, printed_book};

use crate::audits::judge;
use crate::whole_books::PrintedBook;
use occ_book::{Base, Book, LogRow, Standing};
use occ_text::headers::Header;
use std::alloc::Allocator;

/// Why a book leaves no base. The first one that holds is told.
#[derive(Clone, Copy, Debug, PartialEq, Eq)]
pub enum NoBase {
    /// Its audit says no.
    Wrong,
    /// A row of it is open, or in its write phase.
    Busy,
    /// The place behind its last row has no number of 64 bits.
    Full,
    /// Memory for its audit was refused.
    Memory,
}

/// A book that leaves no base, which comes back whole.
#[derive(Drop)]
pub struct RefusedBook<A: Allocator> {
    /// The book.
    pub book: PrintedBook<A>,
    /// Why it leaves none.
    pub cause: NoBase,
}

impl<A: Allocator + Copy> PrintedBook<A> {
    /// What a book leaves for a store that goes on from it: how its store was opened, and its base with all rows of the log folded into
    /// it. A closing mark isn't kept. It rests on what `take_book` says of a book that was read.
    ///
    /// Refused, and the book handed back, with the first of these that holds: `Wrong` where the audit of the book says no, `Busy` while a
    /// row of it is open or in its write phase, and `Full` where a row more would have no place of 64 bits. `Memory` refuses it where there
    /// is none for the audit. All else takes none.
    pub fn into_base(self, alloc: A) -> Result<(Header<A>, Base<A>), RefusedBook<A>>
        requires fits { BookFits (printed_book self) }
        requires base_sizes { (self.book.base.tables ≡ length self.header.schema) × (self.book.base.sessions ≡ self.header.limits.sessions) }
        requires tables { self.book.table.tables ≡ length self.header.schema }
        ensures header { IfOk result (λ left. left.0 ≡ self.header) }
        ensures folded { IfOk result (λ left. left.1 ≡ record { tables = length self.header.schema; sessions = self.header.limits.sessions; base = folded self.book.base.base (log_of self.book.log.items) }) }
        ensures state { IfOk result (λ left. left.1.base.state ≡ self.book.table.state) }
        ensures cause { MatchResult result (λ _. LeavesBase (printed_book self)) (λ refused. HasNoBase (printed_book self) refused.cause) }
        ensures handed_back { IfErr result (λ refused. refused.book ≡ self) }
    {
        match check_base(alloc, &self) {
            Ok(()) => {}
            Err(cause) => return Err(RefusedBook { book: self, cause }),
        }
        let PrintedBook { header, book } = self;
        let Book {
            base,
            log,
            table,
            ..
        } = book;
        Ok((header, base.behind(log.as_slice(), table)))
    }
}

// Whether a book leaves a base.
fn check_base<A: Allocator + Copy>(alloc: A, printed: &PrintedBook<A>) -> Result<(), NoBase>
    ensures { MatchResult result (λ _. LeavesBase (printed_book printed.now)) (HasNoBase (printed_book printed.now)) }
{
    match judge(alloc, printed) {
        Ok(true) => {}
        Ok(false) => return Err(NoBase::Wrong),
        Err(_memory) => return Err(NoBase::Memory),
    }
    let log = printed.book.log.as_slice();
    if has_active(log) {
        return Err(NoBase::Busy);
    }
    if !has_place(printed.book.base.place(), log) {
        return Err(NoBase::Full);
    }
    Ok(())
}

// Whether a row is open, or in its write phase.
fn has_active<A: Allocator>(log: &[LogRow<A, ()>]) -> bool
    ensures { result ≡ list_any (λ row. is_active (log_row_of row).standing) log.now }
{
    log.iter().any(|row| is_active(row))
}

fn is_active<A: Allocator>(row: &LogRow<A, ()>) -> bool
    ensures { result ≡ is_active (log_row_of row.now).standing }
{
    match &row.standing {
        Standing::Open(_) => true,
        Standing::Writing(_) => true,
        Standing::Done(_) => false,
        Standing::Back(_) => false,
    }
}

// Whether the place behind some rows, the first of which has a place, has 64 bits.
fn has_place<A: Allocator>(place: usize, log: &[LogRow<A, ()>]) -> bool
    ensures { Decides result (place + length log.now < 2 ^ 64) }
{
    log.len() <= usize::MAX - place
}
