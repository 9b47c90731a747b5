//! The book of a store, printed line by line: what is held is one line, and less than a block of what is on its way.

ghost use Rattle.std.specs.Prelude.{◌≡◌, ℕ, ◌<◌, ◌++◌, ◌∷◌, [], true, IfOk, IfErr, IsOkUnless, string_bytes};
ghost use Rattle.std.specs.FinMap as finite;
ghost use Rattle.occ_model.specs.Log.{Case};
ghost use Rattle.occ_text.specs.Line.{lines_text};
ghost use Rattle.occ_text.specs.Printing.{PrintGives};
ghost use Rattle.occ_text.specs.declared.faults.WriteFault.TheVariants as write_faults;
ghost use Rattle.occ_text.specs.Headers.{count_text};
ghost use Rattle.occ_print.specs.Books.{book_of, header_of, header_lines, base_line, folded_lines, base_lines, counter_line, book_text};

use crate::header_printing::print_header;
use crate::lines::{base_line, count_line, counter_line};
use crate::log_printing::print_log;
use crate::sections::Section;
use crate::state_printing::{print_all_rows, print_each_number, print_marks, print_state};
use occ_book::{Base, BookView, Tables};
use occ_text::faults::WriteFault;
use occ_text::headers::Limits;
use occ_text::output::Output;
use occ_types::Schema;
use std::alloc::Allocator;
use std::io::Write;

/// Pushes a line and its line feed.
pub fn push_line<W: Write, A: Allocator>(
    output: &mut Output<A>,
    writer: &mut W,
    line: &mut String<A>,
) -> Result<(), WriteFault>
    ensures printed { PrintGives result (W.contents writer.old) (W.contents writer.new) output.old.held output.new.held (lines_text (string_bytes line.old ∷ [])) }
    ensures cause { IfErr result (λ fault. fault ≡ write_faults.Write → output.new.failed ≡ true) }
{
    line.push('\n')?;
    output.push(writer, line.as_bytes())
}

pub(crate) fn print_count<W: Write, A: Allocator>(
    output: &mut Output<A>,
    writer: &mut W,
    line: &mut String<A>,
    word: &str,
    count: u128,
) -> Result<(), WriteFault>
    ensures printed { PrintGives result (W.contents writer.old) (W.contents writer.new) output.old.held output.new.held (lines_text (count_text word.now count ∷ [])) }
    ensures cause { IfErr result (λ fault. fault ≡ write_faults.Write → output.new.failed ≡ true) }
{
    count_line(line, word, count)?;
    push_line(output, writer, line)
}

fn print_base_line<W: Write, A: Allocator>(
    output: &mut Output<A>,
    writer: &mut W,
    line: &mut String<A>,
    base: &Base<A>,
    rows: usize,
) -> Result<(), WriteFault>
    ensures printed { PrintGives result (W.contents writer.old) (W.contents writer.new) output.old.held output.new.held (lines_text (base_line base.now.base.place (finite.len base.now.base.last) rows ∷ [])) }
    ensures cause { IfErr result (λ fault. fault ≡ write_faults.Write → output.new.failed ≡ true) }
{
    let numbers = base.numbers().len();
    base_line(line, base.place(), numbers, rows)?;
    push_line(output, writer, line)
}

// The rows of a base, in order.
fn rows_of<A: Allocator + Clone>(base: &Base<A>) -> Result<Tables<A>, WriteFault>
    ensures rows { IfOk result (λ rows. rows.state ≡ base.now.base.state) }
    ensures memory { IsOkUnless result write_faults.Memory }
{
    match base.state() {
        Ok(rows) => Ok(rows),
        Err(_memory) => Err(WriteFault::Memory),
    }
}

fn print_folded<W: Write, A: Allocator + Clone>(
    output: &mut Output<A>,
    writer: &mut W,
    line: &mut String<A>,
    schema: &Schema<A>,
    base: &Base<A>,
) -> Result<(), WriteFault>
    ensures printed { PrintGives result (W.contents writer.old) (W.contents writer.new) output.old.held output.new.held (lines_text (folded_lines schema.now base.now.base)) }
    ensures cause { IfErr result (λ fault. fault ≡ write_faults.Write → output.new.failed ≡ true) }
{
    let rows = rows_of(base)?;
    print_base_line(output, writer, line, base, rows.len())?;
    print_each_number(output, writer, line, Section::Base, base.numbers())?;
    print_all_rows(output, writer, line, Section::Base, schema, &rows)
}

// Nothing where nothing was folded.
fn print_base<W: Write, A: Allocator + Clone>(
    output: &mut Output<A>,
    writer: &mut W,
    line: &mut String<A>,
    schema: &Schema<A>,
    base: &Base<A>,
) -> Result<(), WriteFault>
    ensures printed { PrintGives result (W.contents writer.old) (W.contents writer.new) output.old.held output.new.held (lines_text (base_lines schema.now base.now.base)) }
    ensures cause { IfErr result (λ fault. fault ≡ write_faults.Write → output.new.failed ≡ true) }
{
    if base.place() == 0 {
        return Ok(());
    }
    print_folded(output, writer, line, schema, base)
}

fn print_opening<W: Write, A: Allocator + Clone>(
    output: &mut Output<A>,
    writer: &mut W,
    line: &mut String<A>,
    limits: Limits,
    schema: &Schema<A>,
    base: &Base<A>,
) -> Result<(), WriteFault>
    ensures printed { PrintGives result (W.contents writer.old) (W.contents writer.new) output.old.held output.new.held (lines_text (header_lines (header_of limits schema.now) ++ base_lines schema.now base.now.base)) }
    ensures cause { IfErr result (λ fault. fault ≡ write_faults.Write → output.new.failed ≡ true) }
{
    print_header(output, writer, line, limits, schema)?;
    print_base(output, writer, line, schema, base)
}

fn print_counter<W: Write, A: Allocator>(
    output: &mut Output<A>,
    writer: &mut W,
    line: &mut String<A>,
    counter: u64,
    low: u64,
) -> Result<(), WriteFault>
    ensures printed { PrintGives result (W.contents writer.old) (W.contents writer.new) output.old.held output.new.held (lines_text (counter_line counter low ∷ [])) }
    ensures cause { IfErr result (λ fault. fault ≡ write_faults.Write → output.new.failed ≡ true) }
{
    counter_line(line, counter, low)?;
    push_line(output, writer, line)
}

/// Prints the book of a store that was opened with these limits and this schema. It ends with its `counter` line. What was folded out of the log is told behind the header, where the base has a place that isn't 0; the book of a log that was never shortened has no such line.
///
/// Its first line is that of the limits' version. In version 1 it is for a book whose ranges have both ends and whose tables have no keys of two parts, as those of a schedule of that version have them. Of another it prints what version 2 has for them, which no reader of version 1 takes; `write_readable_book` refuses such a book.
///
/// What is held of a row that is not decided is not told, and so the clause holds for each way to see it. At `Write` and `Memory` a beginning of the book was pushed, and no more is promised of what the writer has.
pub fn write_book<W: Write, A: Allocator + Clone, O>(
    alloc: A,
    output: &mut Output<A>,
    writer: &mut W,
    limits: Limits,
    schema: &Schema<A>,
    book: &BookView<'_, A, O>,
) -> Result<(), WriteFault>
    ensures printed { (opened : O → ℕ × Case) → PrintGives result (W.contents writer.old) (W.contents writer.new) output.old.held output.new.held (book_text (book_of opened limits schema.now book.now)) }
    ensures cause { IfErr result (λ fault. fault ≡ write_faults.Write → output.new.failed ≡ true) }
{
    let mut line = String::new(alloc);
    print_opening(output, writer, &mut line, limits, schema, book.base)?;
    print_log(output, writer, &mut line, schema, book.log)?;
    print_marks(output, writer, &mut line, book.marks)?;
    print_state(output, writer, &mut line, schema, book.table)?;
    print_counter(output, writer, &mut line, book.tnc, book.low)
}
