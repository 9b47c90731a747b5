//! Taking single lines of a book from an input.

ghost use Rattle.std.specs.Prelude.{◌≡◌, ◌<◌, ◌↔◌, true, IfOk, IfErr, IsTrue, option_map};
ghost use Rattle.std.specs.Io.KnownBytes.{prepend_known};
ghost use Rattle.std.specs.Option.{option_copied};
ghost use Rattle.occ_types.specs.PlainData.{key_of, object_of};
ghost use Rattle.occ_sets.specs.PlainSets.{rows_of};
ghost use Rattle.occ_text.specs.Faults.{widened};
ghost use Rattle.occ_text.specs.Line.{HasFailed, IsLine, Taken};
ghost use Rattle.occ_print.specs.Books.{pair_line, write_line, entry_line};
ghost use Rattle.occ_reading.specs.NumberLines.{head_text, mark_text, counts_text, HeadFits, MarkFits, CountsFit};
ghost use Rattle.occ_reading.specs.RowLines.{asked_of, pair_of, write_of, at_of, asked_text, AskedFits, PairFits, WriteFits, AtFits};
ghost use Rattle.occ_reading.specs.Places.{IsAbove, last_key};
ghost use Rattle.occ_reading.specs.Taking.{is_behind};
ghost use Rattle.occ_text.specs.declared.faults.LineFault.TheVariants as line_faults;
ghost use Rattle.occ_text.specs.declared.faults.ReadFault.TheVariants as read_faults;

use crate::number_lines::{Counts, Head, Mark, read_counts, read_head, read_mark};
use crate::row_lines::{Asked, read_asked, read_at, read_pair, read_write};
use occ_print::Section;
use occ_text::faults::{LineFault, ReadFault, read_at_line};
use occ_text::input::Input;
use occ_text::versions::Version;
use occ_types::{Key, Object, Row, Schema};
use std::alloc::Allocator;
use std::io::Read;

/// Takes the first line of a row of the log.
pub(crate) fn take_head<R: Read, A: Allocator>(
    input: &mut Input<A>,
    reader: &mut R,
    sessions: usize,
) -> Result<Head, LineFault>
    ensures taken { Taken (λ head. head) head_text (HeadFits sessions) (widened result) (prepend_known input.old.unread (R.remaining reader.old)) (prepend_known input.new.unread (R.remaining reader.new)) input.old.number input.new.number }
    ensures cause { IfErr result (λ fault. fault ≡ line_faults.Read → HasFailed input.new) }
{
    input.take_line(reader)?;
    read_head(input.line(), sessions).ok_or(LineFault::Malformed(input.number()))
}

/// Takes the line of a read.
pub(crate) fn take_asked<R: Read, A: Allocator + Copy>(
    alloc: A,
    input: &mut Input<A>,
    reader: &mut R,
    version: Version,
    schema: &Schema<A>,
) -> Result<Asked<A>, ReadFault>
    ensures taken { Taken asked_of (asked_text schema.now) (AskedFits version schema.now) result (prepend_known input.old.unread (R.remaining reader.old)) (prepend_known input.new.unread (R.remaining reader.new)) input.old.number input.new.number }
    ensures cause { IfErr result (λ fault. fault ≡ read_faults.Read → HasFailed input.new) }
{
    input.take_line(reader)?;
    read_at_line(
        read_asked(alloc, version, schema, input.line()),
        input.number(),
    )
}

/// Whether a key is above those of some rows that are in order.
fn is_above<A: Allocator>(rows: &[(Key<A>, Row<A>)], key: &Key<A>) -> bool
    ensures { IsTrue result ↔ IsAbove (last_key (rows_of rows.now)) (key_of key.now) }
{
    match rows.last() {
        Some((last, _)) => last < key,
        None => true,
    }
}

/// Takes the line of a row that a range answered, behind those of others.
pub(crate) fn take_pair<R: Read, A: Allocator + Copy>(
    alloc: A,
    input: &mut Input<A>,
    reader: &mut R,
    version: Version,
    schema: &Schema<A>,
    table: usize,
    rows: &[(Key<A>, Row<A>)],
) -> Result<(Key<A>, Row<A>), ReadFault>
    ensures taken { Taken pair_of pair_line (λ pair. PairFits version schema.now table pair × IsAbove (last_key (rows_of rows.now)) pair.0) result (prepend_known input.old.unread (R.remaining reader.old)) (prepend_known input.new.unread (R.remaining reader.new)) input.old.number input.new.number }
    ensures cause { IfErr result (λ fault. fault ≡ read_faults.Read → HasFailed input.new) }
{
    input.take_line(reader)?;
    let (key, row) = read_at_line(
        read_pair(alloc, version, schema, table, input.line()),
        input.number(),
    )?;
    if !is_above(rows, &key) {
        return Err(ReadFault::Malformed(input.number()));
    }
    Ok((key, row))
}

/// Takes the line of a write.
pub(crate) fn take_write<R: Read, A: Allocator + Copy>(
    alloc: A,
    input: &mut Input<A>,
    reader: &mut R,
    version: Version,
    schema: &Schema<A>,
) -> Result<(Object<A>, Option<Row<A>>), ReadFault>
    ensures line { IfOk result (λ write. IsLine (write_line schema.now (write_of write))) }
    ensures taken { Taken write_of (write_line schema.now) (WriteFits version schema.now) result (prepend_known input.old.unread (R.remaining reader.old)) (prepend_known input.new.unread (R.remaining reader.new)) input.old.number input.new.number }
    ensures cause { IfErr result (λ fault. fault ≡ read_faults.Read → HasFailed input.new) }
{
    input.take_line(reader)?;
    read_at_line(
        read_write(alloc, version, schema, input.line()),
        input.number(),
    )
}

/// Takes the line of a session in a section, behind that of the session `last`, or none where it is 0.
pub(crate) fn take_mark<R: Read, A: Allocator>(
    input: &mut Input<A>,
    reader: &mut R,
    section: Section,
    sessions: usize,
    last: usize,
) -> Result<Mark, LineFault>
    ensures taken { Taken (λ mark. mark) (mark_text section) (λ mark. MarkFits sessions mark × (last < mark.session)) (widened result) (prepend_known input.old.unread (R.remaining reader.old)) (prepend_known input.new.unread (R.remaining reader.new)) input.old.number input.new.number }
    ensures cause { IfErr result (λ fault. fault ≡ line_faults.Read → HasFailed input.new) }
{
    input.take_line(reader)?;
    let mark = read_mark(input.line(), section, sessions).ok_or(LineFault::Malformed(
        input.number(),
    ))?;
    if mark.session <= last {
        return Err(LineFault::Malformed(input.number()));
    }
    Ok(mark)
}

/// Whether an object comes behind another one, if there is one.
fn is_behind<A: Allocator>(last: Option<&Object<A>>, object: &Object<A>) -> bool
    ensures { result ≡ is_behind (option_map object_of (option_copied last.entry)) (object_of object.now) }
{
    match last {
        Some(last) => last < object,
        None => true,
    }
}

/// Takes the line of a row in a section, behind that of the object `last`.
pub(crate) fn take_at<R: Read, A: Allocator + Copy>(
    alloc: A,
    input: &mut Input<A>,
    reader: &mut R,
    version: Version,
    section: Section,
    schema: &Schema<A>,
    last: &Option<Object<A>>,
) -> Result<(Object<A>, Row<A>), ReadFault>
    ensures taken { Taken at_of (entry_line section schema.now) (λ entry. AtFits version schema.now entry × (is_behind (option_map object_of last.now) entry.0 ≡ true)) result (prepend_known input.old.unread (R.remaining reader.old)) (prepend_known input.new.unread (R.remaining reader.new)) input.old.number input.new.number }
    ensures cause { IfErr result (λ fault. fault ≡ read_faults.Read → HasFailed input.new) }
{
    input.take_line(reader)?;
    let (object, row) = read_at_line(
        read_at(alloc, version, section, schema, input.line()),
        input.number(),
    )?;
    if !is_behind(last.as_ref(), &object) {
        return Err(ReadFault::Malformed(input.number()));
    }
    Ok((object, row))
}

/// Takes the last line of a book.
pub(crate) fn take_counts<R: Read, A: Allocator>(
    input: &mut Input<A>,
    reader: &mut R,
) -> Result<Counts, LineFault>
    ensures taken { Taken (λ counts. counts) counts_text CountsFit (widened result) (prepend_known input.old.unread (R.remaining reader.old)) (prepend_known input.new.unread (R.remaining reader.new)) input.old.number input.new.number }
    ensures cause { IfErr result (λ fault. fault ≡ line_faults.Read → HasFailed input.new) }
{
    input.take_line(reader)?;
    read_counts(input.line()).ok_or(LineFault::Malformed(input.number()))
}
