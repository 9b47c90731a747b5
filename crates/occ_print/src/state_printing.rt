//! The closing marks and the tables of a book, printed line by line.

ghost use Rattle.std.specs.Prelude.{◌≡◌, ◌<◌, ◌∷◌, [], true, map, IfErr};
ghost use Rattle.std.specs.FinMap as finite;
ghost use Rattle.occ_types.specs.PlainData.{key_of};
ghost use Rattle.occ_book.specs.Content.{placed};
ghost use Rattle.occ_book.specs.KeyRefs.{key_lent};
ghost use Rattle.occ_book.specs.Marks.{mark_at};
ghost use Rattle.occ_text.specs.Line.{lines_text};
ghost use Rattle.occ_text.specs.Printing.{PrintGives};
ghost use Rattle.occ_text.specs.declared.faults.WriteFault.TheVariants as write_faults;
ghost use Rattle.occ_print.specs.Books.{number_line, mark_lines, entry_line, rows_at, state_lines};

use crate::books::{print_count, push_line};
use crate::lines::{entry_line, number_line};
use crate::sections::Section;
use occ_book::{KeyRef, Marks, TableRows, Tables};
use occ_text::faults::WriteFault;
use occ_text::output::Output;
use occ_types::{Key, Row, Schema};
use std::alloc::Allocator;
use std::io::Write;

fn print_number<W: Write, A: Allocator>(
    output: &mut Output<A>,
    writer: &mut W,
    line: &mut String<A>,
    section: Section,
    session: usize,
    number: u64,
) -> Result<(), WriteFault>
    ensures printed { PrintGives result (W.contents writer.old) (W.contents writer.new) output.old.held output.new.held (lines_text (number_line section (session, number) ∷ [])) }
    ensures cause { IfErr result (λ fault. fault ≡ write_faults.Write → output.new.failed ≡ true) }
{
    number_line(line, section, session, number)?;
    push_line(output, writer, line)
}

// Nothing for a session without a number.
fn print_number_of<W: Write, A: Allocator>(
    output: &mut Output<A>,
    writer: &mut W,
    line: &mut String<A>,
    section: Section,
    numbers: &Marks<A>,
    session: usize,
) -> Result<(), WriteFault>
    ensures printed { PrintGives result (W.contents writer.old) (W.contents writer.new) output.old.held output.new.held (lines_text (map (number_line section) (mark_at session (finite.get numbers.now.marks session)))) }
    ensures cause { IfErr result (λ fault. fault ≡ write_faults.Write → output.new.failed ≡ true) }
{
    match numbers.get(session) {
        Some(number) => print_number(output, writer, line, section, session, number),
        None => Ok(()),
    }
}

pub(crate) fn print_each_number<W: Write, A: Allocator>(
    output: &mut Output<A>,
    writer: &mut W,
    line: &mut String<A>,
    section: Section,
    numbers: &Marks<A>,
) -> Result<(), WriteFault>
    ensures printed { PrintGives result (W.contents writer.old) (W.contents writer.new) output.old.held output.new.held (lines_text (map (number_line section) (finite.entries numbers.now.marks))) }
    ensures cause { IfErr result (λ fault. fault ≡ write_faults.Write → output.new.failed ≡ true) }
{
    for done in 0..numbers.sessions() {
        print_number_of(output, writer, line, section, numbers, done + 1)?;
    }
    Ok(())
}

pub(crate) fn print_marks<W: Write, A: Allocator>(
    output: &mut Output<A>,
    writer: &mut W,
    line: &mut String<A>,
    marks: &Marks<A>,
) -> Result<(), WriteFault>
    ensures printed { PrintGives result (W.contents writer.old) (W.contents writer.new) output.old.held output.new.held (lines_text (mark_lines marks.now.marks)) }
    ensures cause { IfErr result (λ fault. fault ≡ write_faults.Write → output.new.failed ≡ true) }
{
    print_count(output, writer, line, "marks", marks.len() as u128)?;
    print_each_number(output, writer, line, Section::Store, marks)
}

fn print_entry<W: Write, A: Allocator>(
    output: &mut Output<A>,
    writer: &mut W,
    line: &mut String<A>,
    section: Section,
    schema: &Schema<A>,
    place: usize,
    key: &Key<A>,
    row: &Row<A>,
) -> Result<(), WriteFault>
    ensures printed { PrintGives result (W.contents writer.old) (W.contents writer.new) output.old.held output.new.held (lines_text (entry_line section schema.now ((place, key_of key.now), row.now) ∷ [])) }
    ensures cause { IfErr result (λ fault. fault ≡ write_faults.Write → output.new.failed ≡ true) }
{
    entry_line(line, section, schema, place, key, row)?;
    push_line(output, writer, line)
}

// A number that is lent is made a key for the while.
fn print_lent<W: Write, A: Allocator>(
    output: &mut Output<A>,
    writer: &mut W,
    line: &mut String<A>,
    section: Section,
    schema: &Schema<A>,
    place: usize,
    key: KeyRef<'_, A>,
    row: &Row<A>,
) -> Result<(), WriteFault>
    ensures printed { PrintGives result (W.contents writer.old) (W.contents writer.new) output.old.held output.new.held (lines_text (entry_line section schema.now ((place, key_lent key.entry), row.now) ∷ [])) }
    ensures cause { IfErr result (λ fault. fault ≡ write_faults.Write → output.new.failed ≡ true) }
{
    match key {
        KeyRef::Num(number) => {
            let key = Key::Num(number);
            print_entry(output, writer, line, section, schema, place, &key, row)
        }
        KeyRef::Other(key) => print_entry(output, writer, line, section, schema, place, key, row),
    }
}

fn print_table<W: Write, A: Allocator>(
    output: &mut Output<A>,
    writer: &mut W,
    line: &mut String<A>,
    section: Section,
    schema: &Schema<A>,
    place: usize,
    rows: TableRows<'_, A>,
) -> Result<(), WriteFault>
    ensures printed { PrintGives result (W.contents writer.old) (W.contents writer.new) output.old.held output.new.held (lines_text (map (entry_line section schema.now) (placed place rows.entry))) }
    ensures cause { IfErr result (λ fault. fault ≡ write_faults.Write → output.new.failed ≡ true) }
{
    for (key, row) in rows {
        print_lent(output, writer, line, section, schema, place, key, row)?;
    }
    Ok(())
}

fn print_rows_at<W: Write, A: Allocator>(
    output: &mut Output<A>,
    writer: &mut W,
    line: &mut String<A>,
    section: Section,
    schema: &Schema<A>,
    tables: &Tables<A>,
    place: usize,
) -> Result<(), WriteFault>
    requires { place < tables.now.tables }
    ensures printed { PrintGives result (W.contents writer.old) (W.contents writer.new) output.old.held output.new.held (lines_text (map (entry_line section schema.now) (rows_at place tables.now.state))) }
    ensures cause { IfErr result (λ fault. fault ≡ write_faults.Write → output.new.failed ≡ true) }
{
    match tables.table(place) {
        Some(rows) => print_table(output, writer, line, section, schema, place, rows),
        None => Ok(()),
    }
}

pub(crate) fn print_all_rows<W: Write, A: Allocator + Clone>(
    output: &mut Output<A>,
    writer: &mut W,
    line: &mut String<A>,
    section: Section,
    schema: &Schema<A>,
    tables: &Tables<A>,
) -> Result<(), WriteFault>
    ensures printed { PrintGives result (W.contents writer.old) (W.contents writer.new) output.old.held output.new.held (lines_text (map (entry_line section schema.now) (finite.entries tables.now.state))) }
    ensures cause { IfErr result (λ fault. fault ≡ write_faults.Write → output.new.failed ≡ true) }
{
    for place in 0..tables.count() {
        print_rows_at(output, writer, line, section, schema, tables, place)?;
    }
    Ok(())
}

pub(crate) fn print_state<W: Write, A: Allocator + Clone>(
    output: &mut Output<A>,
    writer: &mut W,
    line: &mut String<A>,
    schema: &Schema<A>,
    tables: &Tables<A>,
) -> Result<(), WriteFault>
    ensures printed { PrintGives result (W.contents writer.old) (W.contents writer.new) output.old.held output.new.held (lines_text (state_lines schema.now tables.now.state)) }
    ensures cause { IfErr result (λ fault. fault ≡ write_faults.Write → output.new.failed ≡ true) }
{
    print_count(output, writer, line, "state", tables.len() as u128)?;
    print_all_rows(output, writer, line, Section::Store, schema, tables)
}
