//! The audit of a printed book.

ghost use Rattle.std.specs.Prelude.{◌≡◌, IfOk, IfErr};
ghost use Rattle.std.specs.Bool.{Decides};
ghost use Rattle.occ_model.specs.Log.{Audited};
ghost use Rattle.occ_text.specs.declared.trouble.Trouble.TheVariants.{Memory};
ghost use Rattle.occ_reading.specs.WholeBooks.{AuditGives, VerdictGives, printed_book, verdict_text};

use crate::whole_books::{PrintedBook, take_book};
use occ_audit::audit_rows;
use occ_print::lines::audit_line;
use occ_text::faults::WriteFault;
use occ_text::input::Input;
use occ_text::output::Output;
use occ_text::trouble::Trouble;
use std::alloc::Allocator;
use std::io::{Read, Write};

/// Reads one book, writes `audit yes` or `audit no` and a line feed, and answers which of them: whether its log is explained by
/// serial replay in the order of entry, from what was folded out of it on, and its state is what that leaves.
///
/// An audit line behind the book may say anything. `Malformed` at the first line that can't stand where it stands, or that isn't
/// there, and at line 2^64 - 1 where that many lines were taken and the book goes on; `Read` where the reader fails: nothing was
/// written then. `Write` where the writer fails, and `Memory` where memory was refused. The time is about linear in the book; the
/// memory is linear in what the book tells, and no count is trusted.
pub fn audit_text<R: Read, W: Write, A: Allocator + Copy>(
    alloc: A,
    reader: &mut R,
    writer: &mut W,
) -> Result<bool, Trouble>
    ensures { AuditGives result (R.remaining reader.old) (R.remaining reader.new) (W.contents writer.old) (W.contents writer.new) }
{
    let mut input = Input::new(alloc)?;
    let printed = take_book(alloc, &mut input, reader)?;
    let verdict = judge(alloc, &printed)?;
    tell(alloc, writer, verdict)?;
    Ok(verdict)
}

/// Whether the audit of a book holds.
pub(crate) fn judge<A: Allocator + Copy>(
    alloc: A,
    printed: &PrintedBook<A>,
) -> Result<bool, Trouble>
    ensures ok { IfOk result (λ verdict. Decides verdict (Audited (printed_book printed.now).base (printed_book printed.now).marks (printed_book printed.now).state (printed_book printed.now).log)) }
    ensures err { IfErr result (λ trouble. trouble ≡ Memory) }
{
    match audit_rows(alloc, &printed.book.view()) {
        Ok(verdict) => Ok(verdict),
        // an audit is refused for want of memory alone
        Err(_memory) => Err(Trouble::Memory),
    }
}

/// Writes the line of a verdict.
fn tell<W: Write, A: Allocator>(alloc: A, writer: &mut W, verdict: bool) -> Result<(), WriteFault>
    ensures { VerdictGives result verdict (W.contents writer.old) (W.contents writer.new) }
{
    let mut output = Output::new(alloc);
    output.push(writer, verdict_line(verdict).as_bytes())?;
    output.flush(writer)?;
    Ok(())
}

// The line of a verdict, with its line feed.
fn verdict_line(verdict: bool) -> &'static str
    ensures { result.now ≡ verdict_text verdict }
{
    audit_line(verdict)
}
