//! Taking a whole book from an input.

ghost use Rattle.std.specs.Prelude.{ℕ, List, true, ◌≡◌, ◌≤◌, ◌^◌, ◌-◌, ◌++◌, ◌∷◌, [], ◌||◌, IfOk, IfErr, IsOkUnless, Ok, None, map, length, codes};
ghost use Rattle.std.specs.FinMap as finite;
ghost use Rattle.std.specs.List.{AllByRecursion};
ghost use Rattle.std.specs.Str.{bytes_eq};
ghost use Rattle.std.specs.Io.KnownBytes.{prepend_known};
ghost use Rattle.occ_types.specs.declared.fault.Fault.TheVariants.{Memory};
ghost use Rattle.occ_types.specs.Schema.{Table, check_tables};
ghost use Rattle.occ_text.specs.Headers.{table_text, KindsFit};
ghost use Rattle.occ_text.specs.Faults.{widened};
ghost use Rattle.occ_text.specs.declared.versions.Version as versions;
ghost use Rattle.occ_text.specs.declared.faults.LineFault.TheVariants as line_faults;
ghost use Rattle.occ_text.specs.declared.faults.ReadFault.TheVariants as read_faults;
ghost use Rattle.occ_text.specs.HeaderReading.{line_heads_table};
ghost use Rattle.occ_text.specs.Languages.{position_of, TakesFrom, EndsFrom};
ghost use Rattle.occ_text.specs.Line.{HasFailed};
ghost use Rattle.occ_print.specs.Books.{number_line, entry_line, mark_lines, state_lines};
ghost use Rattle.occ_print.specs.declared.sections.Section.TheVariants as sections;
ghost use Rattle.occ_reading.specs.NumberLines.{BaseHeadFits, BeganFits, began_text};
ghost use Rattle.occ_reading.specs.RowLines.{AtFits};
ghost use Rattle.occ_reading.specs.Taking.{AllFit, IsBaseOf, front_lines, but_first};
ghost use Rattle.occ_reading.specs.Places.{Version as VersionAt, Tables as TablesAt, Log, Marks as MarksAt, State, Counter, Audit, frame_of, rows_to_come, behind_began, numbers_to_come, behind_numbers, entries_to_come, behind_entries, books};
ghost use Rattle.occ_reading.specs.WholeBooks.{EntryFits, BaseFits, IsBookText, printed_book};

use crate::number_lines::{BaseHead, Began, read_began};
use crate::single_lines::{take_at, take_counts, take_mark};
use crate::transactions::take_rows;
use occ_book::{Base, Book, Marks, Tables};
use occ_print::Section;
use occ_text::faults::{LineFault, ReadFault};
use occ_text::headers::{Header, take_count, take_limits, take_tables};
use occ_text::input::{Input, Next};
use occ_text::tokens::is_word;
use occ_text::versions::Version;
use occ_types::{Fault, Schema};
use std::alloc::Allocator;
use std::io::Read;

/// What a printed book tells.
#[derive(Drop)]
pub struct PrintedBook<A: Allocator> {
    /// How its store was opened.
    pub header: Header<A>,
    /// What the store had. A text tells nothing of the case of an open row.
    pub book: Book<A, ()>,
}

/// The tables of a header, and how the log begins.
#[derive(Drop)]
struct Opening<A: Allocator> {
    schema: Schema<A>,
    began: Began,
}

/// What stands in front of the rows of the log: what was folded, and how many rows follow.
#[derive(Drop)]
struct Front<A: Allocator> {
    base: Base<A>,
    rows: u64,
}

/// Takes the lines of the tables, and the one behind them.
fn take_opening<R: Read, A: Allocator + Copy>(
    alloc: A,
    input: &mut Input<A>,
    reader: &mut R,
    version: Version,
) -> Result<Opening<A>, ReadFault>
    ensures taken { (sessions : ℕ) → TakesFrom books result (TablesAt version sessions []) (λ opening. behind_began (frame_of version opening.schema sessions) opening.began) (λ opening. map table_text opening.schema ++ began_text opening.began ∷ []) (λ opening. (check_tables opening.schema ≡ None) × KindsFit version opening.schema × BeganFits opening.began) (position_of input.old (R.remaining reader.old)) (position_of input.new (R.remaining reader.new)) }
    ensures memory { IfErr result (λ fault. fault ≡ read_faults.Memory → line_heads_table version input.new.line ≡ true) }
    ensures cause { IfErr result (λ fault. fault ≡ read_faults.Read → HasFailed input.new) }
{
    let tables = take_tables(alloc, version, input, reader)?;
    let number = input.number();
    match read_began(input.line()) {
        None => Err(ReadFault::Malformed(number)),
        Some(began) => match Schema::new(tables) {
            Ok(schema) => Ok(Opening { schema, began }),
            Err(_) => Err(ReadFault::Malformed(number)),
        },
    }
}

/// What a call gave that is refused for want of memory alone.
fn unless_refused<T: Drop>(given: Result<T, Fault>) -> Result<T, ReadFault>
    requires { IsOkUnless given Memory }
    ensures given { IfOk result (λ value. given ≡ Ok value) }
    ensures memory { IsOkUnless result read_faults.Memory }
{
    match given {
        Ok(value) => Ok(value),
        Err(_memory) => Err(ReadFault::Memory),
    }
}

/// Takes the lines of so many sessions in a section, in the order of the sessions.
fn take_numbers<R: Read, A: Allocator + Copy>(
    alloc: A,
    input: &mut Input<A>,
    reader: &mut R,
    section: Section,
    sessions: usize,
    count: u64,
) -> Result<Marks<A>, ReadFault>
    ensures sessions { IfOk result (λ marks. marks.sessions ≡ sessions) }
    ensures taken { (version : versions.Version) → (schema : List Table) → (rows : ℕ) → TakesFrom books result (numbers_to_come section (frame_of version schema sessions) rows count 0) (λ _. behind_numbers section (frame_of version schema sessions) rows) (λ marks. map (number_line section) (finite.entries marks.marks)) (λ marks. AllFit (EntryFits sessions) count (finite.entries marks.marks)) (position_of input.old (R.remaining reader.old)) (position_of input.new (R.remaining reader.new)) }
    ensures cause { IfErr result (λ fault. fault ≡ read_faults.Read → HasFailed input.new) }
{
    let mut marks = unless_refused(Marks::new(alloc, sessions))?;
    let mut last = 0;
    for _ in 0..count {
        let mark = take_mark(input, reader, section, sessions, last)?;
        marks.set(mark.session, mark.number);
        last = mark.session;
    }
    Ok(marks)
}

/// Takes the lines of so many rows in a section, in the order of the tables and then of their keys.
fn take_entries<R: Read, A: Allocator + Copy>(
    alloc: A,
    input: &mut Input<A>,
    reader: &mut R,
    version: Version,
    section: Section,
    schema: &Schema<A>,
    count: u64,
) -> Result<Tables<A>, ReadFault>
    ensures taken { (sessions : ℕ) → TakesFrom books result (entries_to_come section (frame_of version schema.now sessions) count None) (λ _. behind_entries section (frame_of version schema.now sessions)) (λ tables. map (entry_line section schema.now) (finite.entries tables.state)) (λ tables. AllFit (AtFits version schema.now) count (finite.entries tables.state)) (position_of input.old (R.remaining reader.old)) (position_of input.new (R.remaining reader.new)) }
    ensures tables { IfOk result (λ tables. tables.tables ≡ length schema.now) }
    ensures cause { IfErr result (λ fault. fault ≡ read_faults.Read → HasFailed input.new) }
{
    let mut tables = unless_refused(Tables::new(alloc, schema.tables().len()))?;
    let mut last = None;
    for _ in 0..count {
        let (object, row) = take_at(alloc, input, reader, version, section, schema, &last)?;
        unless_refused(tables.put(object.table, &object.key, Some(&row)))?;
        last = Some(object);
    }
    Ok(tables)
}

/// Takes the lines of a base behind its first one.
fn take_folded<R: Read, A: Allocator + Copy>(
    alloc: A,
    input: &mut Input<A>,
    reader: &mut R,
    version: Version,
    schema: &Schema<A>,
    sessions: usize,
    head: BaseHead,
) -> Result<Base<A>, ReadFault>
    requires { BaseHeadFits head }
    ensures taken { TakesFrom books result (numbers_to_come sections.Base (frame_of version schema.now sessions) head.rows head.numbers 0) (λ _. Log (frame_of version schema.now sessions)) (λ base. map (number_line sections.Base) (finite.entries base.base.last) ++ map (entry_line sections.Base schema.now) (finite.entries base.base.state)) (λ base. BaseFits version schema.now sessions base.base × IsBaseOf head base.base) (position_of input.old (R.remaining reader.old)) (position_of input.new (R.remaining reader.new)) }
    ensures sizes { IfOk result (λ base. (base.tables ≡ length schema.now) × (base.sessions ≡ sessions)) }
    ensures cause { IfErr result (λ fault. fault ≡ read_faults.Read → HasFailed input.new) }
{
    let last = take_numbers(alloc, input, reader, Section::Base, sessions, head.numbers)?;
    let state = take_entries(
        alloc,
        input,
        reader,
        version,
        Section::Base,
        schema,
        head.rows,
    )?;
    Ok(Base::from_parts(state, last, head.place))
}

/// Takes the lines behind the one with which the log begins, up to the first row.
fn take_front<R: Read, A: Allocator + Copy>(
    alloc: A,
    input: &mut Input<A>,
    reader: &mut R,
    version: Version,
    schema: &Schema<A>,
    sessions: usize,
    began: Began,
) -> Result<Front<A>, ReadFault>
    requires { BeganFits began }
    ensures taken { TakesFrom books result (behind_began (frame_of version schema.now sessions) began) (λ front. rows_to_come (frame_of version schema.now sessions) front.rows) (λ front. but_first (front_lines schema.now front.base.base front.rows)) (λ front. BaseFits version schema.now sessions front.base.base × (front_lines schema.now front.base.base front.rows ≡ began_text began ∷ but_first (front_lines schema.now front.base.base front.rows))) (position_of input.old (R.remaining reader.old)) (position_of input.new (R.remaining reader.new)) }
    ensures sizes { IfOk result (λ front. (front.base.tables ≡ length schema.now) × (front.base.sessions ≡ sessions)) }
    ensures cause { IfErr result (λ fault. fault ≡ read_faults.Read → HasFailed input.new) }
{
    match began {
        Began::Log(rows) => {
            let base = unless_refused(Base::new(alloc, schema.tables().len(), sessions))?;
            Ok(Front { base, rows })
        }
        Began::Base(head) => {
            let base = take_folded(alloc, input, reader, version, schema, sessions, head)?;
            let rows = take_count(input, reader, "log", 0, u64::MAX)?;
            Ok(Front { base, rows })
        }
    }
}

/// Takes the closing marks, in the order of their sessions.
fn take_marks<R: Read, A: Allocator + Copy>(
    alloc: A,
    input: &mut Input<A>,
    reader: &mut R,
    sessions: usize,
) -> Result<Marks<A>, ReadFault>
    ensures sessions { IfOk result (λ marks. marks.sessions ≡ sessions) }
    ensures taken { (version : versions.Version) → (schema : List Table) → TakesFrom books result (MarksAt (frame_of version schema sessions)) (λ _. State (frame_of version schema sessions)) (λ marks. mark_lines marks.marks) (λ marks. AllByRecursion (EntryFits sessions) (finite.entries marks.marks)) (position_of input.old (R.remaining reader.old)) (position_of input.new (R.remaining reader.new)) }
    ensures cause { IfErr result (λ fault. fault ≡ read_faults.Read → HasFailed input.new) }
{
    let count = take_count(input, reader, "marks", 0, u64::MAX)?;
    let marks = take_numbers(alloc, input, reader, Section::Store, sessions, count)?;
    Ok(marks)
}

/// Takes the rows of all tables, in the order of the tables and then of their keys.
fn take_state<R: Read, A: Allocator + Copy>(
    alloc: A,
    input: &mut Input<A>,
    reader: &mut R,
    version: Version,
    schema: &Schema<A>,
) -> Result<Tables<A>, ReadFault>
    ensures taken { (sessions : ℕ) → TakesFrom books result (State (frame_of version schema.now sessions)) (λ _. Counter) (λ tables. state_lines schema.now tables.state) (λ tables. AllByRecursion (AtFits version schema.now) (finite.entries tables.state) × (finite.len tables.state ≤ 2 ^ 64 - 1)) (position_of input.old (R.remaining reader.old)) (position_of input.new (R.remaining reader.new)) }
    ensures tables { IfOk result (λ tables. tables.tables ≡ length schema.now) }
    ensures cause { IfErr result (λ fault. fault ≡ read_faults.Read → HasFailed input.new) }
{
    let count = take_count(input, reader, "state", 0, u64::MAX)?;
    let tables = take_entries(alloc, input, reader, version, Section::Store, schema, count)?;
    Ok(tables)
}

/// Takes what may stand behind a book: one audit line, whatever it says, and then the end.
fn take_end<R: Read, A: Allocator>(input: &mut Input<A>, reader: &mut R) -> Result<(), LineFault>
    ensures taken { EndsFrom books (widened result) Audit (position_of input.old (R.remaining reader.old)) (prepend_known input.new.unread (R.remaining reader.new)) }
    ensures cause { IfErr result (λ fault. fault ≡ line_faults.Read → HasFailed input.new) }
{
    match input.next_line(reader)? {
        Next::End => return Ok(()),
        Next::Line => {}
    }
    if !is_audit(input.line()) {
        return Err(LineFault::Malformed(input.number()));
    }
    match input.next_line(reader)? {
        Next::End => Ok(()),
        Next::Line => Err(LineFault::Malformed(input.number())),
    }
}

/// Whether the line is `audit yes` or `audit no`.
fn is_audit(line: &[u8]) -> bool
    ensures { result ≡ (bytes_eq line.now (codes "audit yes") || bytes_eq line.now (codes "audit no")) }
{
    is_word(line, "audit yes") || is_word(line, "audit no")
}

/// Takes a whole book, and what may stand behind it, from the beginning of a text to its end.
///
/// `Malformed` at the first line that can't stand where it stands, also where the text ends before the book is whole; `Read`
/// where the reader fails; `Memory` where it was refused. After any of them the input is of no more use.
pub fn take_book<R: Read, A: Allocator + Copy>(
    alloc: A,
    input: &mut Input<A>,
    reader: &mut R,
) -> Result<PrintedBook<A>, ReadFault>
    requires { input.old.number ≡ 0 }
    ensures taken { IfOk result (λ printed. IsBookText (prepend_known input.old.unread (R.remaining reader.old)) (printed_book printed)) }
    ensures sessions { IfOk result (λ printed. printed.book.marks.sessions ≡ printed.header.limits.sessions) }
    ensures base_sizes { IfOk result (λ printed. (printed.book.base.tables ≡ length printed.header.schema) × (printed.book.base.sessions ≡ printed.header.limits.sessions)) }
    ensures tables { IfOk result (λ printed. printed.book.table.tables ≡ length printed.header.schema) }
    ensures led { EndsFrom books result VersionAt (position_of input.old (R.remaining reader.old)) (prepend_known input.new.unread (R.remaining reader.new)) }
    ensures cause { IfErr result (λ fault. fault ≡ read_faults.Read → HasFailed input.new) }
{
    let limits = take_limits(input, reader)?;
    let version = limits.version;
    let opening = take_opening(alloc, input, reader, version)?;
    let schema = opening.schema;
    let began = opening.began;
    let front = take_front(
        alloc,
        input,
        reader,
        version,
        &schema,
        limits.sessions,
        began,
    )?;
    let log = take_rows(
        alloc,
        input,
        reader,
        version,
        &schema,
        limits.sessions,
        front.rows,
    )?;
    let marks = take_marks(alloc, input, reader, limits.sessions)?;
    let table = take_state(alloc, input, reader, version, &schema)?;
    let counts = take_counts(input, reader)?;
    take_end(input, reader)?;
    Ok(PrintedBook {
        header: Header { limits, schema },
        book: Book {
            base: front.base,
            log,
            table,
            marks,
            low: counts.low,
            tnc: counts.counter,
        },
    })
}
