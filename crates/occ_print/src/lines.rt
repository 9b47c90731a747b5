//! Writers of the lines of a book. Each leaves one line, without its line feed, in place of what stood there; where memory is refused, a beginning of it may stand.

ghost use Rattle.std.specs.Prelude.{◌≡◌, ℕ, ◌++◌, ◌∷◌, [], OnOk, codes, decimal, length, string_bytes};
ghost use Rattle.occ_text.specs.Line.{lines_text};
ghost use Rattle.occ_text.specs.Spelling.{line_text};
ghost use Rattle.std.specs.List.{flat_map};
ghost use Rattle.std.specs.Option.{option_copied};
ghost use Rattle.occ_types.specs.PlainData.{key_of, object_of, question_of, table_of};
ghost use Rattle.occ_types.specs.Question.{One};
ghost use Rattle.occ_sets.specs.Entries.{observation_lent};
ghost use Rattle.occ_sets.specs.PlainSets.{answer_of};
ghost use Rattle.occ_model.specs.State.{Found};
ghost use Rattle.occ_model.specs.Log.{Case};
ghost use Rattle.occ_sets.specs.LogRows.{log_row_of, standing_of};
ghost use Rattle.occ_text.specs.Headers.{version_text, count_text, table_text, kind_word, key_kind_word};
ghost use Rattle.occ_print.specs.Books.{table_name, question_text, answer_text, read_line, pair_line, write_line, row_line, standing_text, number_line, entry_line, base_line, counter_line, audit_line};

use crate::sections::{Section, entry_word, number_word};
use occ_book::{LogRow, Standing};
use occ_model::Cause;
use occ_sets::{Answer, ObservationRef};
use occ_text::versions::{Version, version_text};
use occ_text::writers::{
    write_counted, write_end, write_key, write_next_number, write_number, write_row,
};
use occ_types::{Key, KeyKind, Kind, Object, PartKind, Question, Row, Schema, TableDef};
use std::alloc::{AllocError, Allocator};

/// `occ 1` or `occ 2`.
pub fn version_line<A: Allocator>(line: &mut String<A>, version: Version) -> Result<(), AllocError>
    ensures { OnOk result (string_bytes line.new ≡ version_text version) }
{
    line.clear();
    line.push_str(version_text(version))
}

/// A word and a number, as in `sessions N`.
pub fn count_line<A: Allocator>(
    line: &mut String<A>,
    word: &str,
    count: u128,
) -> Result<(), AllocError>
    ensures { OnOk result (string_bytes line.new ≡ count_text word.now count) }
{
    line.clear();
    write!(line, "{word} {count}")
}

/// `table NAME KEYKIND KIND ..`.
pub fn table_line<A: Allocator>(line: &mut String<A>, table: &TableDef<A>) -> Result<(), AllocError>
    ensures { OnOk result (string_bytes line.new ≡ table_text (table_of table.now)) }
{
    write_table_head(line, table)?;
    write_kinds(line, table.columns.as_slice())
}

fn write_table_head<A: Allocator>(
    line: &mut String<A>,
    table: &TableDef<A>,
) -> Result<(), AllocError>
    ensures { OnOk result (string_bytes line.new ≡ line_text (codes "table" ∷ table.now.name ∷ key_kind_word table.now.key ∷ [])) }
{
    line.clear();
    let name = table.name.as_str();
    let kind = key_kind_word(table.key);
    write!(line, "table {name} {kind}")
}

fn key_kind_word(kind: KeyKind) -> &'static str
    ensures { result.now ≡ key_kind_word kind }
{
    match kind {
        KeyKind::Num => "num",
        KeyKind::Text => "text",
        KeyKind::Pair(PartKind::Num, PartKind::Num) => "num+num",
        KeyKind::Pair(PartKind::Num, PartKind::Text) => "num+text",
        KeyKind::Pair(PartKind::Text, PartKind::Num) => "text+num",
        KeyKind::Pair(PartKind::Text, PartKind::Text) => "text+text",
    }
}

fn kind_word(kind: Kind) -> &'static str
    ensures { result.now ≡ kind_word kind }
{
    match kind {
        Kind::Int => "int",
        Kind::Text => "text",
    }
}

/// Appends a space and a word for each kind.
fn write_kinds<A: Allocator>(line: &mut String<A>, kinds: &[Kind]) -> Result<(), AllocError>
    ensures { OnOk result (string_bytes line.new ≡ string_bytes line.old ++ flat_map (λ kind. 32 ∷ kind_word kind) kinds.now) }
{
    for kind in kinds {
        let word = kind_word(*kind);
        write!(line, " {word}")?;
    }
    Ok(())
}

/// The name of the table at a place, or nothing where there is none.
fn table_name<A: Allocator>(schema: &Schema<A>, place: usize) -> &str
    ensures { result.now ≡ table_name schema.now place }
{
    match schema.tables().get(place) {
        Some(table) => table.name.as_str(),
        None => "",
    }
}

/// Appends what stands before a word, the word and a space.
fn write_words<A: Allocator>(
    line: &mut String<A>,
    before: &str,
    word: &str,
) -> Result<(), AllocError>
    ensures { OnOk result (string_bytes line.new ≡ string_bytes line.old ++ (before.now ++ (word.now ++ codes " "))) }
{
    line.push_str(before)?;
    line.push_str(word)?;
    line.push(' ')
}

fn write_question<A: Allocator>(
    line: &mut String<A>,
    schema: &Schema<A>,
    question: &Question<A>,
) -> Result<(), AllocError>
    ensures { OnOk result (string_bytes line.new ≡ string_bytes line.old ++ question_text schema.now (question_of question.now)) }
{
    match question {
        Question::One(object) => write_one(line, schema, object),
        Question::Span {
            table,
            lower,
            upper,
        } => {
            write_words(line, "span ", table_name(schema, *table))?;
            write_end(line, lower)?;
            line.push(' ')?;
            write_end(line, upper)
        }
    }
}

/// Appends the question for a single key.
fn write_one<A: Allocator>(
    line: &mut String<A>,
    schema: &Schema<A>,
    object: &Object<A>,
) -> Result<(), AllocError>
    ensures { OnOk result (string_bytes line.new ≡ string_bytes line.old ++ question_text schema.now (One object.now.table (key_of object.now.key))) }
{
    write_words(line, "one ", table_name(schema, object.table))?;
    write_key(line, &object.key)
}

/// Appends a row, or `none`.
fn write_found<A: Allocator>(line: &mut String<A>, row: Option<&Row<A>>) -> Result<(), AllocError>
    ensures { OnOk result (string_bytes line.new ≡ string_bytes line.old ++ answer_text (Found (option_copied row.entry))) }
{
    match row {
        Some(row) => write_row(line, row),
        None => line.push_str("none"),
    }
}

fn write_answer<A: Allocator>(line: &mut String<A>, answer: &Answer<A>) -> Result<(), AllocError>
    ensures { OnOk result (string_bytes line.new ≡ string_bytes line.old ++ answer_text (answer_of answer.now)) }
{
    match answer {
        Answer::Found(row) => write_found(line, row.as_ref()),
        Answer::Rows(rows) => write_number(line, rows.len() as u64),
    }
}

/// `one NAME KEY none`, `one NAME KEY ROW` or `span NAME KEY KEY K`, where `*` stands for a missing end.
pub fn read_line<A: Allocator>(
    line: &mut String<A>,
    schema: &Schema<A>,
    read: ObservationRef<'_, A>,
) -> Result<(), AllocError>
    ensures { OnOk result (string_bytes line.new ≡ read_line schema.now (observation_lent read.entry)) }
{
    line.clear();
    match read {
        ObservationRef::Key(object, row) => {
            write_one(line, schema, object)?;
            line.push(' ')?;
            write_found(line, row)
        }
        ObservationRef::Whole(read) => {
            write_question(line, schema, &read.question)?;
            line.push(' ')?;
            write_answer(line, &read.answer)
        }
    }
}

/// `pair KEY ROW`.
pub fn pair_line<A: Allocator>(
    line: &mut String<A>,
    key: &Key<A>,
    row: &Row<A>,
) -> Result<(), AllocError>
    ensures { OnOk result (string_bytes line.new ≡ pair_line (key_of key.now, row.now)) }
{
    line.clear();
    line.push_str("pair ")?;
    write_key(line, key)?;
    line.push(' ')?;
    write_row(line, row)
}

/// `put NAME KEY ROW`, or `del NAME KEY` where there is no row.
pub fn write_line<A: Allocator>(
    line: &mut String<A>,
    schema: &Schema<A>,
    object: &Object<A>,
    row: Option<&Row<A>>,
) -> Result<(), AllocError>
    ensures { OnOk result (string_bytes line.new ≡ write_line schema.now (object_of object.now, option_copied row.entry)) }
{
    line.clear();
    let name = table_name(schema, object.table);
    match row {
        None => {
            write_words(line, "del ", name)?;
            write_key(line, &object.key)
        }
        Some(row) => {
            write_words(line, "put ", name)?;
            write_key(line, &object.key)?;
            line.push(' ')?;
            write_row(line, row)
        }
    }
}

/// `row PLACE S N START FINISH R W`.
fn write_row_head<A: Allocator, O>(
    line: &mut String<A>,
    row: &LogRow<A, O>,
) -> Result<(), AllocError>
    ensures { OnOk result (string_bytes line.new ≡ line_text (codes "row" ∷ decimal row.now.place ∷ decimal row.now.session ∷ decimal row.now.number ∷ decimal row.now.start ∷ decimal row.now.finish ∷ decimal (length row.now.reads) ∷ decimal (length row.now.writes) ∷ [])) }
{
    line.clear();
    line.push_str("row")?;
    write_next_number(line, row.place as u64)?;
    write_next_number(line, row.session as u64)?;
    write_next_number(line, row.number)?;
    write_next_number(line, row.start)?;
    write_next_number(line, row.finish)?;
    write_next_number(line, row.reads.len() as u64)?;
    write_next_number(line, row.writes.len() as u64)
}

/// `row PLACE S N START FINISH R W STANDING`.
pub fn row_line<A: Allocator, O>(line: &mut String<A>, row: &LogRow<A, O>) -> Result<(), AllocError>
    ensures { (opened : O → ℕ × Case) → OnOk result (string_bytes line.new ≡ row_line (log_row_of opened row.now)) }
{
    write_row_head(line, row)?;
    line.push(' ')?;
    write_standing(line, &row.standing)
}

/// The word of a standing, and its number where it has one, behind what stands in the line.
pub fn write_standing<A: Allocator, O>(
    line: &mut String<A>,
    standing: &Standing<O>,
) -> Result<(), AllocError>
    ensures { (opened : O → ℕ × Case) → OnOk result (string_bytes line.new ≡ string_bytes line.old ++ standing_text (standing_of opened standing.now)) }
{
    match standing {
        Standing::Open(_) => line.push_str("open"),
        Standing::Writing(done) => write_counted(line, "writing ", *done as u64),
        Standing::Done(number) => write_counted(line, "done ", *number),
        Standing::Back(Cause::Conflict) => line.push_str("conflict"),
        Standing::Back(Cause::TooOld) => line.push_str("tooold"),
    }
}

/// `base P L R`: the place behind what was folded, and how many sessions and rows follow.
pub fn base_line<A: Allocator>(
    line: &mut String<A>,
    place: usize,
    numbers: usize,
    rows: usize,
) -> Result<(), AllocError>
    ensures { OnOk result (string_bytes line.new ≡ base_line place numbers rows) }
{
    line.clear();
    write!(line, "base {place} {numbers} {rows}")
}

/// The number of a session, in a section: `last S N` or `mark S N`.
pub fn number_line<A: Allocator>(
    line: &mut String<A>,
    section: Section,
    session: usize,
    number: u64,
) -> Result<(), AllocError>
    ensures { OnOk result (string_bytes line.new ≡ number_line section (session, number)) }
{
    line.clear();
    let word = number_word(section);
    write!(line, "{word} {session} {number}")
}

/// A row of the table at a place, in a section: `from NAME KEY ROW` or `at NAME KEY ROW`.
pub fn entry_line<A: Allocator>(
    line: &mut String<A>,
    section: Section,
    schema: &Schema<A>,
    place: usize,
    key: &Key<A>,
    row: &Row<A>,
) -> Result<(), AllocError>
    ensures { OnOk result (string_bytes line.new ≡ entry_line section schema.now ((place, key_of key.now), row.now)) }
{
    line.clear();
    let word = entry_word(section);
    let name = table_name(schema, place);
    line.push_str(word)?;
    write_words(line, " ", name)?;
    write_key(line, key)?;
    line.push(' ')?;
    write_row(line, row)
}

/// `counter T low L`.
pub fn counter_line<A: Allocator>(
    line: &mut String<A>,
    counter: u64,
    low: u64,
) -> Result<(), AllocError>
    ensures { OnOk result (string_bytes line.new ≡ counter_line counter low) }
{
    line.clear();
    write!(line, "counter {counter} low {low}")
}

/// `audit yes` or `audit no`, with its line feed.
pub fn audit_line(holds: bool) -> &'static str
    ensures { result.now ≡ lines_text (audit_line holds ∷ []) }
{
    if holds { "audit yes\n" } else { "audit no\n" }
}
