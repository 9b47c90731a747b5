//! What a run writes at its end.

ghost use Rattle.std.specs.Prelude.{◌≡◌, ℕ, ◌+◌, ◌<◌, ◌≤◌, ◌^◌, [], ◌∷◌, true, length, IfErr};
ghost use Rattle.std.specs.List.{flat_map};
ghost use Rattle.occ_model.specs.Log.{Audited, Case};
ghost use Rattle.occ_log.specs.Rows.{log_of as log_seen};
ghost use Rattle.occ_sets.specs.LogRows.{log_row_of, log_of};
ghost use Rattle.occ_text.specs.Line.{lines_text};
ghost use Rattle.occ_text.specs.Printing.{Pushed, PushedFront, PrintGives};
ghost use Rattle.occ_text.specs.declared.faults.WriteFault.TheVariants as write_faults;
ghost use Rattle.occ_print.specs.Books.{book_of};
ghost use Rattle.occ_run.specs.Reports.{is_of, rows_of, row_lines, mark_lines, session_lines, sessions_lines, told_lines, book_at, report_lines, AuditGives, ReportGives};

use crate::session_lines::{mark_line, session_line, standing_line};
use occ_audit::audit_rows;
use occ_book::{BookView, LogRow, Marks};
use occ_case::OpenCase;
use occ_core::Core;
use occ_print::books::{push_line, write_book};
use occ_print::lines::audit_line;
use occ_text::faults::WriteFault;
use occ_text::headers::Limits;
use occ_text::output::Output;
use occ_types::Schema;
use std::alloc::Allocator;
use std::io::Write;

/// Writes what became of each session, or the book where `whole` is true, and behind it what the audit says. Whether the audit holds.
pub(crate) fn write_report<W: Write, A: Allocator + Copy>(
    alloc: A,
    output: &mut Output<A>,
    writer: &mut W,
    core: &Core<A>,
    limits: Limits,
    refused: &[u64],
    whole: bool,
) -> Result<bool, WriteFault>
    ensures gives { ReportGives (Pushed (W.contents writer.old) (W.contents writer.new) output.old.held output.new.held)
        (PushedFront (W.contents writer.old) (W.contents writer.new) output.old.held output.new.held) result
        (report_lines whole (book_at limits core.now.world) refused.now) }
    ensures cause { IfErr result (λ fault. fault ≡ write_faults.Write → output.new.failed ≡ true) }
{
    core.law();
    let book = core.view();
    write_told(
        alloc,
        output,
        writer,
        limits,
        core.schema(),
        &book,
        refused,
        whole,
    )?;
    write_audit(alloc, output, writer, &book)
}

// Writes the book, or what became of each session.
fn write_told<W: Write, A: Allocator + Copy, O>(
    alloc: A,
    output: &mut Output<A>,
    writer: &mut W,
    limits: Limits,
    schema: &Schema<A>,
    book: &BookView<'_, A, O>,
    refused: &[u64],
    whole: bool,
) -> Result<(), WriteFault>
    ensures printed { (opened : O → ℕ × Case) → PrintGives result (W.contents writer.old) (W.contents writer.new) output.old.held output.new.held
        (lines_text (told_lines whole (book_of opened limits schema.now book.now) refused.now)) }
    ensures cause { IfErr result (λ fault. fault ≡ write_faults.Write → output.new.failed ≡ true) }
{
    if whole {
        return write_book(alloc, output, writer, limits, schema, book);
    }
    write_sessions(alloc, output, writer, book, refused)
}

// Writes whether the audit of a book holds.
fn write_audit<W: Write, A: Allocator + Copy>(
    alloc: A,
    output: &mut Output<A>,
    writer: &mut W,
    book: &BookView<'_, A, OpenCase<A>>,
) -> Result<bool, WriteFault>
    ensures gives { AuditGives (Pushed (W.contents writer.old) (W.contents writer.new) output.old.held output.new.held)
        (PushedFront (W.contents writer.old) (W.contents writer.new) output.old.held output.new.held) result
        (Audited book.now.base.now.base book.now.marks.now.marks book.now.table.now.state (log_seen book.now.log.now)) }
    ensures cause { IfErr result (λ fault. fault ≡ write_faults.Write → output.new.failed ≡ true) }
{
    let Ok(holds) = audit_rows(alloc, book) else {
        return Err(WriteFault::Memory);
    };
    output.push(writer, audit_line(holds).as_bytes())?;
    Ok(holds)
}

// Writes what became of each session, the first one's first.
fn write_sessions<W: Write, A: Allocator + Copy, O>(
    alloc: A,
    output: &mut Output<A>,
    writer: &mut W,
    book: &BookView<'_, A, O>,
    refused: &[u64],
) -> Result<(), WriteFault>
    ensures printed { (opened : O → ℕ × Case) → PrintGives result (W.contents writer.old) (W.contents writer.new) output.old.held output.new.held
        (lines_text (sessions_lines (log_of opened book.now.log.now) book.now.marks.now.marks 1 refused.now)) }
    ensures cause { IfErr result (λ fault. fault ≡ write_faults.Write → output.new.failed ≡ true) }
{
    let mut line = String::new(alloc);
    let mut session = 1;
    for count in refused {
        write_session(
            output, writer, &mut line, book.log, book.marks, session, *count,
        )?;
        session += 1;
    }
    Ok(())
}

// Writes what became of a session: its rows, and its closing mark where that has entered.
fn write_session<W: Write, A: Allocator, O>(
    output: &mut Output<A>,
    writer: &mut W,
    line: &mut String<A>,
    log: &[LogRow<A, O>],
    marks: &Marks<A>,
    session: usize,
    refused: u64,
) -> Result<(), WriteFault>
    ensures printed { (opened : O → ℕ × Case) → PrintGives result (W.contents writer.old) (W.contents writer.new) output.old.held output.new.held
        (lines_text (session_lines (log_of opened log.now) marks.now.marks session refused)) }
    ensures cause { IfErr result (λ fault. fault ≡ write_faults.Write → output.new.failed ≡ true) }
{
    session_line(line, session, rows_of(log, session), refused)?;
    push_line(output, writer, line)?;
    write_rows(output, writer, line, log, session)?;
    write_mark(output, writer, line, marks.get(session))
}

// Whether a row is a session's.
fn is_of<A: Allocator, O>(row: &LogRow<A, O>, session: usize) -> bool
    ensures { (opened : O → ℕ × Case) → result ≡ is_of session (log_row_of opened row.now) }
{
    row.session == session
}

// One more than so many rows, if a further one is the session's.
fn counted<A: Allocator, O>(rows: usize, row: &LogRow<A, O>, session: usize) -> usize
    requires { rows + 1 < 2 ^ 64 }
    ensures counted { (opened : O → ℕ × Case) → result ≡ rows + length (rows_of session (log_row_of opened row.now ∷ [])) }
    ensures few { result ≤ rows + 1 }
{
    if is_of(row, session) { rows + 1 } else { rows }
}

// How many rows of a log are a session's.
fn rows_of<A: Allocator, O>(log: &[LogRow<A, O>], session: usize) -> usize
    ensures { (opened : O → ℕ × Case) → result ≡ length (rows_of session (log_of opened log.now)) }
{
    let mut rows = 0;
    for row in log {
        rows = counted(rows, row, session);
    }
    rows
}

// Writes how the rows of a session stand, in the order of entry.
fn write_rows<W: Write, A: Allocator, O>(
    output: &mut Output<A>,
    writer: &mut W,
    line: &mut String<A>,
    log: &[LogRow<A, O>],
    session: usize,
) -> Result<(), WriteFault>
    ensures printed { (opened : O → ℕ × Case) → PrintGives result (W.contents writer.old) (W.contents writer.new) output.old.held output.new.held
        (lines_text (flat_map (row_lines session) (log_of opened log.now))) }
    ensures cause { IfErr result (λ fault. fault ≡ write_faults.Write → output.new.failed ≡ true) }
{
    for row in log {
        write_row(output, writer, line, row, session)?;
    }
    Ok(())
}

// Writes how a row stands, if it is the session's.
fn write_row<W: Write, A: Allocator, O>(
    output: &mut Output<A>,
    writer: &mut W,
    line: &mut String<A>,
    row: &LogRow<A, O>,
    session: usize,
) -> Result<(), WriteFault>
    ensures printed { (opened : O → ℕ × Case) → PrintGives result (W.contents writer.old) (W.contents writer.new) output.old.held output.new.held
        (lines_text (row_lines session (log_row_of opened row.now))) }
    ensures cause { IfErr result (λ fault. fault ≡ write_faults.Write → output.new.failed ≡ true) }
{
    if !is_of(row, session) {
        return Ok(());
    }
    standing_line(line, row)?;
    push_line(output, writer, line)
}

// Writes the closing mark of a session, where there is one.
fn write_mark<W: Write, A: Allocator>(
    output: &mut Output<A>,
    writer: &mut W,
    line: &mut String<A>,
    mark: Option<u64>,
) -> Result<(), WriteFault>
    ensures printed { PrintGives result (W.contents writer.old) (W.contents writer.new) output.old.held output.new.held (lines_text (mark_lines mark)) }
    ensures cause { IfErr result (λ fault. fault ≡ write_faults.Write → output.new.failed ≡ true) }
{
    let Some(number) = mark else {
        return Ok(());
    };
    mark_line(line, number)?;
    push_line(output, writer, line)
}
