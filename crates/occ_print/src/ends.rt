//! Books that their version has words for. Version 1 has none for keys of two parts, nor for a missing end of a range.

ghost use Rattle.std.specs.Prelude.{◌≡◌, ◌≢◌, ℕ, true, IfErr, IfSome};
ghost use Rattle.std.specs.List.{list_all};
ghost use Rattle.occ_types.specs.PlainData.{question_of, tables_of};
ghost use Rattle.occ_sets.specs.Entries.{question_lent};
ghost use Rattle.occ_model.specs.Log.{Case};
ghost use Rattle.occ_sets.specs.LogRows.{log_of};
ghost use Rattle.occ_text.specs.declared.versions.Version.TheVariants as versions;
ghost use Rattle.occ_print.specs.declared.ends.BookFault.TheVariants as book_faults;
ghost use Rattle.occ_print.specs.Books.{book_of};
ghost use Rattle.occ_print.specs.Ends.{is_pair, some_are_pairs, has_both_ends, reads_have_ends, ranges_have_ends, unworded, book_fault, BookGives};

use crate::books::write_book;
use occ_book::{BookView, LogRow};
use occ_sets::ObservationRef;
use occ_text::faults::WriteFault;
use occ_text::headers::Limits;
use occ_text::output::Output;
use occ_text::versions::Version;
use occ_types::{KeyKind, Question, Schema, TableDef};
use std::alloc::Allocator;
use std::io::Write;

/// Why a book wasn't printed whole.
#[derive(Clone, Copy, Debug, PartialEq, Eq)]
pub enum BookFault {
    /// A table has keys of two parts, for which version 1 of the format has no words. Nothing was printed.
    PairKeys,
    /// A range that was read has a missing end, for which version 1 of the format has no word. Nothing was printed.
    MissingEnd,
    /// The writer failed, or took nothing.
    Write,
    /// Memory was refused.
    Memory,
}

impl From<WriteFault> for BookFault {
    ghost from_gives = { λ write fault. fault ≡ book_fault write };

    fn from(fault: WriteFault) -> BookFault {
        match fault {
            WriteFault::Write => BookFault::Write,
            WriteFault::Memory => BookFault::Memory,
        }
    }
}

/// Prints the book of a store that was opened with these limits and this schema, as `write_book` does, where a reader of books can take its text.
///
/// In version 1 it is refused by `PairKeys` exactly where a table has keys of two parts, and else by `MissingEnd` exactly where a range that
/// was read has a missing end: a core can have both, and version 1 of the format has no words for them. A key fits its table, so that no
/// key of two parts is in the book of a core whose tables have none. In version 2 no book is refused. Where one is, the writer and the
/// output are as they were.
///
/// At `Write` and `Memory` a beginning of the book was pushed, and no more is promised of what the writer has.
pub fn write_readable_book<W: Write, A: Allocator + Clone, O>(
    alloc: A,
    output: &mut Output<A>,
    writer: &mut W,
    limits: Limits,
    schema: &Schema<A>,
    book: &BookView<'_, A, O>,
) -> Result<(), BookFault>
    ensures gives { (opened : O → ℕ × Case) → BookGives result (book_of opened limits schema.now book.now) (W.contents writer.old) (W.contents writer.new) output.old.held output.new.held }
    ensures cause { IfErr result (λ fault. fault ≡ book_faults.Write → output.new.failed ≡ true) }
{
    if let Some(fault) = unworded(limits.version, schema.tables(), book.log) {
        return Err(fault);
    }
    write_book(alloc, output, writer, limits, schema, book)?;
    Ok(())
}

// What a version has no words for, if there is something.
fn unworded<A: Allocator, O>(
    version: Version,
    tables: &[TableDef<A>],
    log: &[LogRow<A, O>],
) -> Option<BookFault>
    ensures exact { (opened : O → ℕ × Case) → result ≡ unworded version (tables_of tables.now) (log_of opened log.now) }
    ensures words { IfSome result (λ fault. fault ≢ book_faults.Write) }
{
    match version {
        Version::One => unworded_at_first(tables, log),
        Version::Two => None,
    }
}

// The same of the first version.
fn unworded_at_first<A: Allocator, O>(
    tables: &[TableDef<A>],
    log: &[LogRow<A, O>],
) -> Option<BookFault>
    ensures exact { (opened : O → ℕ × Case) → result ≡ unworded versions.One (tables_of tables.now) (log_of opened log.now) }
    ensures words { IfSome result (λ fault. fault ≢ book_faults.Write) }
{
    if some_are_pairs(tables) {
        return Some(BookFault::PairKeys);
    }
    if !ranges_have_ends(log) {
        return Some(BookFault::MissingEnd);
    }
    None
}

// Whether a table has keys of two parts.
fn some_are_pairs<A: Allocator>(tables: &[TableDef<A>]) -> bool
    ensures { result ≡ some_are_pairs (tables_of tables.now) }
{
    tables.iter().any(|table| is_pair(table.key))
}

fn is_pair(kind: KeyKind) -> bool
    ensures { result ≡ is_pair kind }
{
    match kind {
        KeyKind::Num => false,
        KeyKind::Text => false,
        KeyKind::Pair(_, _) => true,
    }
}

// Whether every range that the rows of a log read has both ends.
fn ranges_have_ends<A: Allocator, O>(log: &[LogRow<A, O>]) -> bool
    ensures { (opened : O → ℕ × Case) → result ≡ ranges_have_ends (log_of opened log.now) }
{
    log.iter().all(|row| row_has_ends(row))
}

fn row_has_ends<A: Allocator, O>(row: &LogRow<A, O>) -> bool
    ensures { result ≡ reads_have_ends row.now.reads }
{
    row.reads.iter().all(|read| has_ends(read))
}

// Whether what was read is no range without an end.
fn has_ends<A: Allocator>(read: ObservationRef<'_, A>) -> bool
    ensures { result ≡ has_both_ends (question_lent read.entry) }
{
    match read {
        ObservationRef::Key(_, _) => true,
        ObservationRef::Whole(read) => has_both_ends(&read.question),
    }
}

fn has_both_ends<A: Allocator>(question: &Question<A>) -> bool
    ensures { result ≡ has_both_ends (question_of question.now) }
{
    match question {
        Question::One(_) => true,
        Question::Span { lower, upper, .. } => lower.is_some() && upper.is_some(),
    }
}
