//! The header of a book, printed line by line.

ghost use Rattle.std.specs.Prelude.{◌≡◌, ◌<◌, ◌∷◌, [], true, map, IfErr};
ghost use Rattle.occ_types.specs.PlainData.{table_of, tables_of};
ghost use Rattle.occ_text.specs.Line.{lines_text};
ghost use Rattle.occ_text.specs.Printing.{PrintGives};
ghost use Rattle.occ_text.specs.declared.faults.WriteFault.TheVariants as write_faults;
ghost use Rattle.occ_text.specs.Headers.{version_text, limits_lines, table_text};
ghost use Rattle.occ_print.specs.Books.{header_of, header_lines};

use crate::books::{print_count, push_line};
use crate::lines::{table_line, version_line};
use occ_text::faults::WriteFault;
use occ_text::headers::Limits;
use occ_text::output::Output;
use occ_text::versions::Version;
use occ_types::{Schema, TableDef};
use std::alloc::Allocator;
use std::io::Write;

fn print_version<W: Write, A: Allocator>(
    output: &mut Output<A>,
    writer: &mut W,
    line: &mut String<A>,
    version: Version,
) -> Result<(), WriteFault>
    ensures printed { PrintGives result (W.contents writer.old) (W.contents writer.new) output.old.held output.new.held (lines_text (version_text version ∷ [])) }
    ensures cause { IfErr result (λ fault. fault ≡ write_faults.Write → output.new.failed ≡ true) }
{
    version_line(line, version)?;
    push_line(output, writer, line)
}

fn print_limits<W: Write, A: Allocator>(
    output: &mut Output<A>,
    writer: &mut W,
    line: &mut String<A>,
    limits: Limits,
) -> Result<(), WriteFault>
    ensures printed { PrintGives result (W.contents writer.old) (W.contents writer.new) output.old.held output.new.held (lines_text (limits_lines limits)) }
    ensures cause { IfErr result (λ fault. fault ≡ write_faults.Write → output.new.failed ≡ true) }
{
    print_version(output, writer, line, limits.version)?;
    print_count(output, writer, line, "sessions", limits.sessions as u128)?;
    print_count(output, writer, line, "queue", limits.queue as u128)?;
    print_count(output, writer, line, "keep", limits.keep as u128)
}

fn print_table<W: Write, A: Allocator>(
    output: &mut Output<A>,
    writer: &mut W,
    line: &mut String<A>,
    table: &TableDef<A>,
) -> Result<(), WriteFault>
    ensures printed { PrintGives result (W.contents writer.old) (W.contents writer.new) output.old.held output.new.held (lines_text (table_text (table_of table.now) ∷ [])) }
    ensures cause { IfErr result (λ fault. fault ≡ write_faults.Write → output.new.failed ≡ true) }
{
    table_line(line, table)?;
    push_line(output, writer, line)
}

fn print_tables<W: Write, A: Allocator>(
    output: &mut Output<A>,
    writer: &mut W,
    line: &mut String<A>,
    tables: &[TableDef<A>],
) -> Result<(), WriteFault>
    ensures printed { PrintGives result (W.contents writer.old) (W.contents writer.new) output.old.held output.new.held (lines_text (map table_text (tables_of tables.now))) }
    ensures cause { IfErr result (λ fault. fault ≡ write_faults.Write → output.new.failed ≡ true) }
{
    for table in tables {
        print_table(output, writer, line, table)?;
    }
    Ok(())
}

pub(crate) fn print_header<W: Write, A: Allocator>(
    output: &mut Output<A>,
    writer: &mut W,
    line: &mut String<A>,
    limits: Limits,
    schema: &Schema<A>,
) -> Result<(), WriteFault>
    ensures printed { PrintGives result (W.contents writer.old) (W.contents writer.new) output.old.held output.new.held (lines_text (header_lines (header_of limits schema.now))) }
    ensures cause { IfErr result (λ fault. fault ≡ write_faults.Write → output.new.failed ≡ true) }
{
    print_limits(output, writer, line, limits)?;
    print_tables(output, writer, line, schema.tables())
}
