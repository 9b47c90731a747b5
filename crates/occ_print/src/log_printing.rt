//! The log of a book, printed line by line: of each row its own line, its reads, and its writes.

ghost use Rattle.std.specs.Prelude.{◌≡◌, ℕ, ◌<◌, ◌∷◌, [], true, map, slice_get, IfErr};
ghost use Rattle.std.specs.List.{flat_map};
ghost use Rattle.std.specs.Option.{option_copied, option_to_list};
ghost use Rattle.occ_types.specs.PlainData.{key_of, object_of};
ghost use Rattle.occ_sets.specs.Entries.{observation_lent};
ghost use Rattle.occ_sets.specs.PlainSets.{rows_of};
ghost use Rattle.occ_model.specs.Log.{Case};
ghost use Rattle.occ_sets.specs.LogRows.{log_row_of, log_of};
ghost use Rattle.occ_text.specs.Line.{lines_text};
ghost use Rattle.occ_text.specs.Printing.{PrintGives};
ghost use Rattle.occ_text.specs.declared.faults.WriteFault.TheVariants as write_faults;
ghost use Rattle.occ_print.specs.Books.{pair_line, pair_lines, read_lines, write_line, row_lines, log_lines};

use crate::books::{print_count, push_line};
use crate::lines::{pair_line, read_line, row_line, write_line};
use occ_book::LogRow;
use occ_sets::{Answer, ObservationRef, ReadSet, WriteSet};
use occ_text::faults::WriteFault;
use occ_text::output::Output;
use occ_types::{Key, Object, Row, Schema};
use std::alloc::Allocator;
use std::io::Write;

fn print_pair<W: Write, A: Allocator>(
    output: &mut Output<A>,
    writer: &mut W,
    line: &mut String<A>,
    key: &Key<A>,
    row: &Row<A>,
) -> Result<(), WriteFault>
    ensures printed { PrintGives result (W.contents writer.old) (W.contents writer.new) output.old.held output.new.held (lines_text (pair_line (key_of key.now, row.now) ∷ [])) }
    ensures cause { IfErr result (λ fault. fault ≡ write_faults.Write → output.new.failed ≡ true) }
{
    pair_line(line, key, row)?;
    push_line(output, writer, line)
}

fn print_pairs<W: Write, A: Allocator>(
    output: &mut Output<A>,
    writer: &mut W,
    line: &mut String<A>,
    pairs: &[(Key<A>, Row<A>)],
) -> Result<(), WriteFault>
    ensures printed { PrintGives result (W.contents writer.old) (W.contents writer.new) output.old.held output.new.held (lines_text (map pair_line (rows_of pairs.now))) }
    ensures cause { IfErr result (λ fault. fault ≡ write_faults.Write → output.new.failed ≡ true) }
{
    for (key, row) in pairs {
        print_pair(output, writer, line, key, row)?;
    }
    Ok(())
}

fn print_answer<W: Write, A: Allocator>(
    output: &mut Output<A>,
    writer: &mut W,
    line: &mut String<A>,
    read: ObservationRef<'_, A>,
) -> Result<(), WriteFault>
    ensures printed { PrintGives result (W.contents writer.old) (W.contents writer.new) output.old.held output.new.held (lines_text (pair_lines (observation_lent read.entry).1)) }
    ensures cause { IfErr result (λ fault. fault ≡ write_faults.Write → output.new.failed ≡ true) }
{
    match read {
        ObservationRef::Key(_, _) => Ok(()),
        ObservationRef::Whole(read) => match &read.answer {
            Answer::Found(_) => Ok(()),
            Answer::Rows(rows) => print_pairs(output, writer, line, rows.as_slice()),
        },
    }
}

fn print_read<W: Write, A: Allocator>(
    output: &mut Output<A>,
    writer: &mut W,
    line: &mut String<A>,
    schema: &Schema<A>,
    read: ObservationRef<'_, A>,
) -> Result<(), WriteFault>
    ensures printed { PrintGives result (W.contents writer.old) (W.contents writer.new) output.old.held output.new.held (lines_text (read_lines schema.now (observation_lent read.entry))) }
    ensures cause { IfErr result (λ fault. fault ≡ write_faults.Write → output.new.failed ≡ true) }
{
    read_line(line, schema, read)?;
    push_line(output, writer, line)?;
    print_answer(output, writer, line, read)
}

fn print_reads<W: Write, A: Allocator>(
    output: &mut Output<A>,
    writer: &mut W,
    line: &mut String<A>,
    schema: &Schema<A>,
    reads: &ReadSet<A>,
) -> Result<(), WriteFault>
    ensures printed { PrintGives result (W.contents writer.old) (W.contents writer.new) output.old.held output.new.held (lines_text (flat_map (read_lines schema.now) reads.now)) }
    ensures cause { IfErr result (λ fault. fault ≡ write_faults.Write → output.new.failed ≡ true) }
{
    for read in reads.iter() {
        print_read(output, writer, line, schema, read)?;
    }
    Ok(())
}

fn print_write<W: Write, A: Allocator>(
    output: &mut Output<A>,
    writer: &mut W,
    line: &mut String<A>,
    schema: &Schema<A>,
    object: &Object<A>,
    row: Option<&Row<A>>,
) -> Result<(), WriteFault>
    ensures printed { PrintGives result (W.contents writer.old) (W.contents writer.new) output.old.held output.new.held (lines_text (write_line schema.now (object_of object.now, option_copied row.entry) ∷ [])) }
    ensures cause { IfErr result (λ fault. fault ≡ write_faults.Write → output.new.failed ≡ true) }
{
    write_line(line, schema, object, row)?;
    push_line(output, writer, line)
}

fn print_write_at<W: Write, A: Allocator>(
    output: &mut Output<A>,
    writer: &mut W,
    line: &mut String<A>,
    schema: &Schema<A>,
    writes: &WriteSet<A>,
    place: usize,
) -> Result<(), WriteFault>
    ensures printed { PrintGives result (W.contents writer.old) (W.contents writer.new) output.old.held output.new.held (lines_text (map (write_line schema.now) (option_to_list (slice_get writes.now place)))) }
    ensures cause { IfErr result (λ fault. fault ≡ write_faults.Write → output.new.failed ≡ true) }
{
    match writes.write_at(place) {
        Some((object, row)) => print_write(output, writer, line, schema, object, row),
        None => Ok(()),
    }
}

fn print_writes<W: Write, A: Allocator>(
    output: &mut Output<A>,
    writer: &mut W,
    line: &mut String<A>,
    schema: &Schema<A>,
    writes: &WriteSet<A>,
) -> Result<(), WriteFault>
    ensures printed { PrintGives result (W.contents writer.old) (W.contents writer.new) output.old.held output.new.held (lines_text (map (write_line schema.now) writes.now)) }
    ensures cause { IfErr result (λ fault. fault ≡ write_faults.Write → output.new.failed ≡ true) }
{
    for place in 0..writes.len() {
        print_write_at(output, writer, line, schema, writes, place)?;
    }
    Ok(())
}

fn print_row<W: Write, A: Allocator, O>(
    output: &mut Output<A>,
    writer: &mut W,
    line: &mut String<A>,
    schema: &Schema<A>,
    row: &LogRow<A, O>,
) -> Result<(), WriteFault>
    ensures printed { (opened : O → ℕ × Case) → PrintGives result (W.contents writer.old) (W.contents writer.new) output.old.held output.new.held (lines_text (row_lines schema.now (log_row_of opened row.now))) }
    ensures cause { IfErr result (λ fault. fault ≡ write_faults.Write → output.new.failed ≡ true) }
{
    row_line(line, row)?;
    push_line(output, writer, line)?;
    print_reads(output, writer, line, schema, &row.reads)?;
    print_writes(output, writer, line, schema, &row.writes)
}

fn print_rows<W: Write, A: Allocator, O>(
    output: &mut Output<A>,
    writer: &mut W,
    line: &mut String<A>,
    schema: &Schema<A>,
    log: &[LogRow<A, O>],
) -> Result<(), WriteFault>
    ensures printed { (opened : O → ℕ × Case) → PrintGives result (W.contents writer.old) (W.contents writer.new) output.old.held output.new.held (lines_text (flat_map (row_lines schema.now) (log_of opened log.now))) }
    ensures cause { IfErr result (λ fault. fault ≡ write_faults.Write → output.new.failed ≡ true) }
{
    for row in log {
        print_row(output, writer, line, schema, row)?;
    }
    Ok(())
}

pub(crate) fn print_log<W: Write, A: Allocator, O>(
    output: &mut Output<A>,
    writer: &mut W,
    line: &mut String<A>,
    schema: &Schema<A>,
    log: &[LogRow<A, O>],
) -> Result<(), WriteFault>
    ensures printed { (opened : O → ℕ × Case) → PrintGives result (W.contents writer.old) (W.contents writer.new) output.old.held output.new.held (lines_text (log_lines schema.now (log_of opened log.now))) }
    ensures cause { IfErr result (λ fault. fault ≡ write_faults.Write → output.new.failed ≡ true) }
{
    print_count(output, writer, line, "log", log.len() as u128)?;
    print_rows(output, writer, line, schema, log)
}
