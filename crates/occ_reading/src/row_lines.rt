//! Lines that have keys and rows: of a read, of a row that a range answered, of a write, and of a row of a state.

ghost use Rattle.std.specs.Prelude.{◌≡◌, ◌⊎◌, true, is_some, IfOk, IfErr, Some, None};
ghost use Rattle.occ_types.specs.Key.{Key as PlainKey};
ghost use Rattle.occ_types.specs.Object.{Object as PlainObject};
ghost use Rattle.occ_types.specs.Row.{Row as PlainRow};
ghost use Rattle.occ_model.specs.State.{Write as PlainWrite};
ghost use Rattle.occ_text.specs.Escapes.{Gives};
ghost use Rattle.occ_print.specs.Books.{pair_line, write_line, entry_line};
ghost use Rattle.occ_text.specs.Reading.{tokens_of};
ghost use Rattle.occ_text.specs.Fields.{GivesNext, read_form};
ghost use Rattle.occ_types.specs.Schema.{check_tables};
ghost use Rattle.occ_reading.specs.RowLines.{Asked as PlainAsked, asked_text, AskedFits, PairFits, WriteFits, AtFits, asked_of, pair_of, write_of, at_of, found_in, next_found, one_form, span_form, next_asked, asked_of_line, pair_field, at_field, pair_of_line, put_form, del_form, next_write, write_of_line, at_of_line, line_takes, pair_takes, at_takes, write_takes, asked_takes};

use crate::schema_readers::{next_key, next_object, next_row, next_table, row_in, unless_fault};
use occ_print::sections::{Section, entry_word};
use occ_text::cursors::{at_end, next_end, next_number, next_token, next_word};
use occ_text::separated_parts::Parts;
use occ_text::tokens::{Unread, is_word, tokens};
use occ_text::versions::Version;
use occ_types::{Key, Object, Question, Row, Schema};
use std::alloc::Allocator;

/// The line of a read.
#[derive(Drop)]
pub enum Asked<A: Allocator> {
    /// `one NAME KEY none` or `one NAME KEY ROW`: a key, and the row that it had.
    One {
        /// The table and the key.
        object: Object<A>,
        /// Its row, if it had one.
        row: Option<Row<A>>,
    },
    /// `span NAME KEY KEY K`: a range, which so many rows answered; `*` stands for a missing end.
    Span {
        /// The range.
        question: Question<A>,
        /// How many `pair` lines follow.
        count: u64,
    },
}

// What is told of a line of which something wasn't read: a want of memory only where the line is tokens.
fn of_tokens(unread: Unread, line: &[u8]) -> Unread
    ensures malformed { result ≡ Unread.Malformed → (unread ≡ Unread.Malformed) ⊎ (tokens_of line.now ≡ None) }
    ensures memory { result ≡ Unread.Memory → (unread ≡ Unread.Memory) × (is_some (tokens_of line.now) ≡ true) }
{
    match unread {
        Unread::Memory if tokens(line).is_none() => Unread::Malformed,
        unread => unread,
    }
}

/// A row that a key had, or `none`.
#[tactic(auto, unfolding(crate::specs::RowLines::found_in))]
fn found_in<A: Allocator + Clone>(
    alloc: A,
    schema: &Schema<A>,
    table: usize,
    token: &[u8],
) -> Result<Option<Row<A>>, Unread>
    ensures { Gives (λ row. row) result (found_in schema.now table token.now) }
{
    if is_word(token, "none") {
        return Ok(None);
    }
    let row = row_in(alloc, schema, table, token)?;
    Ok(Some(row))
}

#[tactic(auto, unfolding(crate::specs::RowLines::next_found))]
fn next_found<A: Allocator + Clone>(
    alloc: A,
    schema: &Schema<A>,
    table: usize,
    parts: &mut Parts<'_>,
) -> Result<Option<Row<A>>, Unread>
    ensures { GivesNext (λ row. row) result (next_found schema.now table parts.old) parts.new }
{
    let token = next_token(parts).ok_or(Unread::Malformed)?;
    let row = found_in(alloc, schema, table, token)?;
    Ok(row)
}

/// What stands behind `one`.
#[tactic(auto, unfolding(occ_text::specs::Fields::read_form))]
fn one_behind<A: Allocator + Copy>(
    alloc: A,
    version: Version,
    schema: &Schema<A>,
    parts: &mut Parts<'_>,
) -> Result<Asked<A>, Unread>
    ensures { GivesNext asked_of result (read_form (one_form version schema.now) parts.old) parts.new }
{
    let object = next_object(alloc, version, schema, parts)?;
    let row = next_found(alloc, schema, object.table, parts)?;
    Ok(Asked::One { object, row })
}

/// What stands behind `span`.
#[tactic(auto, unfolding(occ_text::specs::Fields::read_form, crate::specs::RowLines::next_ends))]
fn span_behind<A: Allocator + Copy>(
    alloc: A,
    version: Version,
    schema: &Schema<A>,
    parts: &mut Parts<'_>,
) -> Result<Asked<A>, Unread>
    ensures { GivesNext asked_of result (read_form (span_form version schema.now) parts.old) parts.new }
{
    let table = next_table(schema, parts).ok_or(Unread::Malformed)?;
    let lower = next_end(alloc, version, parts)?;
    let upper = next_end(alloc, version, parts)?;
    let question = Question::Span {
        table,
        lower,
        upper,
    };
    unless_fault(schema.check_question(&question)).ok_or(Unread::Malformed)?;
    let count = next_number(parts, u64::MAX).ok_or(Unread::Malformed)?;
    Ok(Asked::Span { question, count })
}

#[tactic(auto, using(occ_text::proofs::Causes::may_take), unfolding(crate::specs::RowLines::next_asked, occ_text::specs::ValueFields::next_takes))]
fn next_asked<A: Allocator + Copy>(
    alloc: A,
    version: Version,
    schema: &Schema<A>,
    parts: &mut Parts<'_>,
) -> Result<Asked<A>, Unread>
    ensures exact { GivesNext asked_of result (next_asked version schema.now parts.old) parts.new }
    ensures memory { IfErr result (λ unread. unread ≡ Unread.Memory → asked_takes parts.old ≡ true) }
{
    let word = next_token(parts).ok_or(Unread::Malformed)?;
    if is_word(word, "one") {
        one_behind(alloc, version, schema, parts)
    } else if is_word(word, "span") {
        span_behind(alloc, version, schema, parts)
    } else {
        Err(Unread::Malformed)
    }
}

fn asked_value<A: Allocator + Copy>(
    alloc: A,
    version: Version,
    schema: &Schema<A>,
    line: &[u8],
) -> Result<Asked<A>, Unread>
    requires fits { check_tables schema.now ≡ None }
    ensures exact { Gives asked_of result (asked_of_line version schema.now line.now) }
    ensures memory { IfErr result (λ unread. unread ≡ Unread.Memory → line_takes asked_takes line.now ≡ true) }
{
    let mut parts = Parts::new(line, b' ');
    let asked = match next_asked(alloc, version, schema, &mut parts) {
        Ok(asked) => asked,
        Err(unread) => return Err(of_tokens(unread, line)),
    };
    match at_end(&mut parts) {
        Some(()) => Ok(asked),
        None => Err(Unread::Malformed),
    }
}

/// A read, in a version and under a schema. `Malformed` where the line is none; `Memory` where it was refused.
pub fn read_asked<A: Allocator + Copy>(
    alloc: A,
    version: Version,
    schema: &Schema<A>,
    line: &[u8],
) -> Result<Asked<A>, Unread>
    ensures exact { Gives asked_of result (asked_of_line version schema.now line.now) }
    ensures memory { IfErr result (λ unread. unread ≡ Unread.Memory → line_takes asked_takes line.now ≡ true) }
    ensures found { IfOk result (λ x. (line.now ≡ asked_text schema.now (asked_of x)) × AskedFits version schema.now (asked_of x)) }
    ensures again { (asked : PlainAsked) → AskedFits version schema.now asked → line.now ≡ asked_text schema.now asked → Gives asked_of result (Some asked) }
{
    // its tables make a schema, so a table's name finds its place again
    let _tables = schema.tables();
    asked_value(alloc, version, schema, line)
}

fn pair_value<A: Allocator + Copy>(
    alloc: A,
    version: Version,
    schema: &Schema<A>,
    table: usize,
    line: &[u8],
) -> Result<(Key<A>, Row<A>), Unread>
    requires fits { check_tables schema.now ≡ None }
    ensures exact { Gives pair_of result (pair_of_line version schema.now table line.now) }
    ensures memory { IfErr result (λ unread. unread ≡ Unread.Memory → line_takes pair_takes line.now ≡ true) }
{
    let mut parts = Parts::new(line, b' ');
    let pair = match next_pair(alloc, version, schema, table, &mut parts) {
        Ok(pair) => pair,
        Err(unread) => return Err(of_tokens(unread, line)),
    };
    match at_end(&mut parts) {
        Some(()) => Ok(pair),
        None => Err(Unread::Malformed),
    }
}

fn next_pair<A: Allocator + Copy>(
    alloc: A,
    version: Version,
    schema: &Schema<A>,
    table: usize,
    parts: &mut Parts<'_>,
) -> Result<(Key<A>, Row<A>), Unread>
    ensures exact { GivesNext pair_of result ((pair_field version schema.now table).read parts.old) parts.new }
    ensures memory { IfErr result (λ unread. unread ≡ Unread.Memory → pair_takes parts.old ≡ true) }
{
    next_word(parts, "pair").ok_or(Unread::Malformed)?;
    let key = next_key(alloc, version, schema, table, parts)?;
    let row = next_row(alloc, schema, table, parts)?;
    Ok((key, row))
}

/// A row that a range answered, of the table at a place, in a version: `pair KEY ROW`. `Malformed` where the line is none; `Memory` where it
/// was refused.
pub fn read_pair<A: Allocator + Copy>(
    alloc: A,
    version: Version,
    schema: &Schema<A>,
    table: usize,
    line: &[u8],
) -> Result<(Key<A>, Row<A>), Unread>
    ensures exact { Gives pair_of result (pair_of_line version schema.now table line.now) }
    ensures memory { IfErr result (λ unread. unread ≡ Unread.Memory → line_takes pair_takes line.now ≡ true) }
    ensures found { IfOk result (λ x. (line.now ≡ pair_line (pair_of x)) × PairFits version schema.now table (pair_of x)) }
    ensures again { (pair : PlainKey × PlainRow) → PairFits version schema.now table pair → line.now ≡ pair_line pair → Gives pair_of result (Some pair) }
{
    // its tables make a schema, so a row of one is short
    let _tables = schema.tables();
    pair_value(alloc, version, schema, table, line)
}

/// What stands behind `put`.
#[tactic(auto, unfolding(occ_text::specs::Fields::read_form))]
fn put_behind<A: Allocator + Copy>(
    alloc: A,
    version: Version,
    schema: &Schema<A>,
    parts: &mut Parts<'_>,
) -> Result<(Object<A>, Option<Row<A>>), Unread>
    ensures { GivesNext write_of result (read_form (put_form version schema.now) parts.old) parts.new }
{
    let object = next_object(alloc, version, schema, parts)?;
    let row = next_row(alloc, schema, object.table, parts)?;
    Ok((object, Some(row)))
}

/// What stands behind `del`.
#[tactic(auto, unfolding(occ_text::specs::Fields::read_form))]
fn del_behind<A: Allocator + Copy>(
    alloc: A,
    version: Version,
    schema: &Schema<A>,
    parts: &mut Parts<'_>,
) -> Result<(Object<A>, Option<Row<A>>), Unread>
    ensures { GivesNext write_of result (read_form (del_form version schema.now) parts.old) parts.new }
{
    let object = next_object(alloc, version, schema, parts)?;
    Ok((object, None))
}

#[tactic(auto, using(occ_text::proofs::Causes::may_take), unfolding(crate::specs::RowLines::next_write, occ_text::specs::ValueFields::next_takes))]
fn next_write<A: Allocator + Copy>(
    alloc: A,
    version: Version,
    schema: &Schema<A>,
    parts: &mut Parts<'_>,
) -> Result<(Object<A>, Option<Row<A>>), Unread>
    ensures exact { GivesNext write_of result (next_write version schema.now parts.old) parts.new }
    ensures memory { IfErr result (λ unread. unread ≡ Unread.Memory → write_takes parts.old ≡ true) }
{
    let word = next_token(parts).ok_or(Unread::Malformed)?;
    if is_word(word, "put") {
        put_behind(alloc, version, schema, parts)
    } else if is_word(word, "del") {
        del_behind(alloc, version, schema, parts)
    } else {
        Err(Unread::Malformed)
    }
}

fn write_value<A: Allocator + Copy>(
    alloc: A,
    version: Version,
    schema: &Schema<A>,
    line: &[u8],
) -> Result<(Object<A>, Option<Row<A>>), Unread>
    requires fits { check_tables schema.now ≡ None }
    ensures exact { Gives write_of result (write_of_line version schema.now line.now) }
    ensures memory { IfErr result (λ unread. unread ≡ Unread.Memory → line_takes write_takes line.now ≡ true) }
{
    let mut parts = Parts::new(line, b' ');
    let write = match next_write(alloc, version, schema, &mut parts) {
        Ok(write) => write,
        Err(unread) => return Err(of_tokens(unread, line)),
    };
    match at_end(&mut parts) {
        Some(()) => Ok(write),
        None => Err(Unread::Malformed),
    }
}

/// A write, in a version and under a schema: `put NAME KEY ROW`, or `del NAME KEY` with no row. `Malformed` where the line is none; `Memory`
/// where it was refused.
pub fn read_write<A: Allocator + Copy>(
    alloc: A,
    version: Version,
    schema: &Schema<A>,
    line: &[u8],
) -> Result<(Object<A>, Option<Row<A>>), Unread>
    ensures exact { Gives write_of result (write_of_line version schema.now line.now) }
    ensures memory { IfErr result (λ unread. unread ≡ Unread.Memory → line_takes write_takes line.now ≡ true) }
    ensures found { IfOk result (λ x. (line.now ≡ write_line schema.now (write_of x)) × WriteFits version schema.now (write_of x)) }
    ensures again { (write : PlainWrite) → WriteFits version schema.now write → line.now ≡ write_line schema.now write → Gives write_of result (Some write) }
{
    // its tables make a schema, so a table's name finds its place again
    let _tables = schema.tables();
    write_value(alloc, version, schema, line)
}

fn at_value<A: Allocator + Copy>(
    alloc: A,
    version: Version,
    section: Section,
    schema: &Schema<A>,
    line: &[u8],
) -> Result<(Object<A>, Row<A>), Unread>
    requires fits { check_tables schema.now ≡ None }
    ensures exact { Gives at_of result (at_of_line version section schema.now line.now) }
    ensures memory { IfErr result (λ unread. unread ≡ Unread.Memory → line_takes (at_takes section) line.now ≡ true) }
{
    let mut parts = Parts::new(line, b' ');
    let entry = match next_at(alloc, version, section, schema, &mut parts) {
        Ok(entry) => entry,
        Err(unread) => return Err(of_tokens(unread, line)),
    };
    match at_end(&mut parts) {
        Some(()) => Ok(entry),
        None => Err(Unread::Malformed),
    }
}

fn next_at<A: Allocator + Copy>(
    alloc: A,
    version: Version,
    section: Section,
    schema: &Schema<A>,
    parts: &mut Parts<'_>,
) -> Result<(Object<A>, Row<A>), Unread>
    ensures exact { GivesNext at_of result ((at_field version section schema.now).read parts.old) parts.new }
    ensures memory { IfErr result (λ unread. unread ≡ Unread.Memory → at_takes section parts.old ≡ true) }
{
    next_word(parts, entry_word(section)).ok_or(Unread::Malformed)?;
    let object = next_object(alloc, version, schema, parts)?;
    let row = next_row(alloc, schema, object.table, parts)?;
    Ok((object, row))
}

/// A row of a state, in a version, a section and under a schema: `at NAME KEY ROW` or `from NAME KEY ROW`. `Malformed` where the line is none; `Memory` where it was refused.
pub fn read_at<A: Allocator + Copy>(
    alloc: A,
    version: Version,
    section: Section,
    schema: &Schema<A>,
    line: &[u8],
) -> Result<(Object<A>, Row<A>), Unread>
    ensures exact { Gives at_of result (at_of_line version section schema.now line.now) }
    ensures memory { IfErr result (λ unread. unread ≡ Unread.Memory → line_takes (at_takes section) line.now ≡ true) }
    ensures found { IfOk result (λ x. (line.now ≡ entry_line section schema.now (at_of x)) × AtFits version schema.now (at_of x)) }
    ensures again { (entry : PlainObject × PlainRow) → AtFits version schema.now entry → line.now ≡ entry_line section schema.now entry → Gives at_of result (Some entry) }
{
    // its tables make a schema, so a table's name finds its place again
    let _tables = schema.tables();
    at_value(alloc, version, section, schema, line)
}
