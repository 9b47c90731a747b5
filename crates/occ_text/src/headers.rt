//! The header of a schedule: the readers of its lines, and of the whole. A book begins with the same lines up to its tables.

ghost use Rattle.std.specs.Prelude.{◌≡◌, ◌↔◌, true, is_some, Some, None, [], ◌∷◌, ◌++◌, map, IfOk, IfErr, IsTrue, codes};
ghost use Rattle.std.specs.List.{list_any};
ghost use Rattle.std.specs.Io.KnownBytes.{prepend_known};
ghost use Rattle.occ_types.specs.Schema as plain;
ghost use Rattle.occ_types.specs.Schema.{has_name};
ghost use Rattle.occ_types.specs.PlainData.{table_of, tables_of};
ghost use Rattle.occ_text.specs.Escapes.{Gives};
ghost use Rattle.occ_text.specs.Faults.{widened};
ghost use Rattle.occ_text.specs.declared.faults.LineFault.TheVariants as line_faults;
ghost use Rattle.occ_text.specs.declared.faults.ReadFault.TheVariants as read_faults;
ghost use Rattle.occ_text.specs.HeaderReading.{version_of, count_of_line, table_of_parts, table_of_tokens, table_of_line, heads_table, tokens_head_table, line_heads_table, UnlessMalformed, TakesTable};
ghost use Rattle.occ_text.specs.HeaderTaking.{TablesSoFar, table_behind, LimitsTaken, header_of};
ghost use Rattle.occ_text.specs.Headers.{version_text, count_text, table_text, Within, TableHasLine, KindsFit};
ghost use Rattle.occ_text.specs.Languages.{position_of};
ghost use Rattle.occ_text.specs.Line.{Taken, HasFailed};
ghost use Rattle.occ_text.specs.Reading.{Reads};
ghost use Rattle.occ_text.specs.ScheduleLines.{Tables as TablesAt, Steps as StepsAt, OpeningTaken, HeaderTaken, with_tables};
ghost use Rattle.occ_text.specs.Spelling.{IsToken};
ghost use Rattle.occ_text.specs.TableTaking.{if_read, NextTaken, TablesTaken};

use crate::cursors::{at_end, next_number, next_word};
use crate::faults::{LineFault, ReadFault};
use crate::input::Input;
use crate::kinds::{columns, key_kind};
use crate::separated_parts::Parts;
use crate::tokens::{Unread, is_word, name, tokens};
use crate::versions::Version;
use occ_types::limits::{MAX_KEEP, MAX_QUEUE, MAX_SESSIONS, MAX_TABLES};
use occ_types::{Schema, TableDef, Text};
use std::alloc::Allocator;
use std::io::Read;

/// What the first lines of a text say: its version, and how the store is opened beside its tables.
#[derive(Clone, Copy, Debug, PartialEq, Eq)]
pub struct Limits {
    /// The version of the text.
    pub version: Version,
    /// How many sessions there are, 1 to 64.
    pub sessions: usize,
    /// How many items may wait in the queue of a session, 1 to 1,024.
    pub queue: usize,
    /// How many write sets are kept for testing, 1 to 4,096.
    pub keep: usize,
}

/// How a store is opened: what a schedule begins with, and a book.
#[derive(Drop)]
pub struct Header<A: Allocator> {
    /// The version, the sessions, the queues and the window.
    pub limits: Limits,
    /// The tables.
    pub schema: Schema<A>,
}

#[tactic(auto, unfolding(crate::specs::HeaderReading::version_of))]
fn version_value(line: &[u8]) -> Option<Version>
    ensures { result ≡ version_of line.now }
{
    if is_word(line, "occ 1") {
        Some(Version::One)
    } else if is_word(line, "occ 2") {
        Some(Version::Two)
    } else {
        None
    }
}

/// The version that a line says, `occ 1` or `occ 2`. None where the line is another one.
pub fn version(line: &[u8]) -> Option<Version>
    ensures exact { result ≡ version_of line.now }
    ensures grammar { Reads version_text (λ version. Unit {0}) line.now result }
{
    version_value(line)
}

/// Whether the line is `steps`.
pub fn is_steps(line: &[u8]) -> bool
    ensures { IsTrue result ↔ line.now ≡ codes "steps" }
{
    is_word(line, "steps")
}

#[tactic(auto, unfolding(crate::specs::HeaderReading::count_of_line))]
fn count_value(line: &[u8], word: &str, least: u64, most: u64) -> Option<u64>
    ensures { result ≡ count_of_line word.now least most line.now }
{
    let mut parts = tokens(line)?;
    next_word(&mut parts, word)?;
    let count = next_number(&mut parts, most)?;
    if count < least {
        return None;
    }
    at_end(&mut parts)?;
    Some(count)
}

/// The number of a line of a word and a number within limits. None where the line is none.
pub fn count(line: &[u8], word: &str, least: u64, most: u64) -> Option<u64>
    requires { IsToken word.now }
    ensures exact { result ≡ count_of_line word.now least most line.now }
    ensures grammar { Reads (count_text word.now) (Within least most) line.now result }
{
    count_value(line, word, least, most)
}

#[tactic(auto, unfolding(crate::specs::HeaderReading::table_of_parts))]
fn table_of_parts<A: Allocator + Copy>(
    alloc: A,
    version: Version,
    word: &[u8],
    called: &[u8],
    keyed: &[u8],
    words: Parts<'_>,
) -> Result<TableDef<A>, Unread>
    ensures exact { Gives table_of result (table_of_parts version word.now called.now keyed.now words.entry) }
    ensures heads { UnlessMalformed (heads_table version word.now called.now keyed.now) result }
{
    if !is_word(word, "table") {
        return Err(Unread::Malformed);
    }
    let name = name(called).ok_or(Unread::Malformed)?;
    let key = key_kind(version, keyed).ok_or(Unread::Malformed)?;
    let columns = columns(alloc, words)?;
    let name = Text::new(alloc, name)?;
    Ok(TableDef { name, key, columns })
}

fn table_of_tokens<A: Allocator + Copy>(
    alloc: A,
    version: Version,
    mut parts: Parts<'_>,
) -> Result<TableDef<A>, Unread>
    ensures exact { Gives table_of result (table_of_tokens version parts.entry) }
    ensures heads { UnlessMalformed (tokens_head_table version parts.entry) result }
{
    let Some(word) = parts.take_part() else {
        return Err(Unread::Malformed);
    };
    let Some(called) = parts.take_part() else {
        return Err(Unread::Malformed);
    };
    let Some(keyed) = parts.take_part() else {
        return Err(Unread::Malformed);
    };
    table_of_parts(alloc, version, word, called, keyed, parts)
}

#[tactic(auto, unfolding(crate::specs::HeaderReading::table_of_line, crate::specs::HeaderReading::line_heads_table))]
fn table_value<A: Allocator + Copy>(
    alloc: A,
    version: Version,
    line: &[u8],
) -> Result<TableDef<A>, Unread>
    ensures exact { Gives table_of result (table_of_line version line.now) }
    ensures heads { UnlessMalformed (line_heads_table version line.now) result }
{
    let parts = tokens(line).ok_or(Unread::Malformed)?;
    table_of_tokens(alloc, version, parts)
}

/// A table of a text of this version, from its line `table NAME KEYKIND KIND ..`. `Malformed` where the line is none; `Memory`
/// where it was refused.
pub fn table<A: Allocator + Copy>(
    alloc: A,
    version: Version,
    line: &[u8],
) -> Result<TableDef<A>, Unread>
    ensures exact { Gives table_of result (table_of_line version line.now) }
    ensures heads { UnlessMalformed (line_heads_table version line.now) result }
    ensures found { IfOk result (λ table. (line.now ≡ table_text (table_of table)) × TableHasLine version (table_of table)) }
    ensures again { (table : plain.Table) → TableHasLine version table → line.now ≡ table_text table → Gives table_of result (Some table) }
{
    table_value(alloc, version, line)
}

// Takes the line `occ 1` or `occ 2`, and answers the version.
fn take_version<R: Read, A: Allocator>(
    input: &mut Input<A>,
    reader: &mut R,
) -> Result<Version, LineFault>
    ensures gives { Taken (λ version. version) version_text (λ version. Unit {0}) (widened result)
        (prepend_known input.old.unread (R.remaining reader.old))
        (prepend_known input.new.unread (R.remaining reader.new)) input.old.number input.new.number }
    ensures cause { IfErr result (λ fault. fault ≡ line_faults.Read → HasFailed input.new) }
{
    input.take_line(reader)?;
    version(input.line()).ok_or(LineFault::Malformed(input.number()))
}

/// Takes a line of a word and a number from `least` to `most`, and answers the number.
///
/// `Malformed` where another line stands next, or none; `Read` where the reader fails; `TooManyLines` where the line has no number.
pub fn take_count<R: Read, A: Allocator>(
    input: &mut Input<A>,
    reader: &mut R,
    word: &str,
    least: u64,
    most: u64,
) -> Result<u64, LineFault>
    requires { IsToken word.now }
    ensures gives { Taken (λ n. n) (count_text word.now) (Within least most) (widened result)
        (prepend_known input.old.unread (R.remaining reader.old))
        (prepend_known input.new.unread (R.remaining reader.new)) input.old.number input.new.number }
    ensures cause { IfErr result (λ fault. fault ≡ line_faults.Read → HasFailed input.new) }
{
    input.take_line(reader)?;
    count(input.line(), word, least, most).ok_or(LineFault::Malformed(input.number()))
}

/// Takes the first four lines of a schedule or a book: `occ 1` or `occ 2`, `sessions N`, `queue N` and `keep N`.
///
/// `Malformed` at the first line that can't stand where it stands, also where the text ends before; `Read` where the reader
/// fails; `TooManyLines` where a line has no number. After any of them the input is of no more use.
pub fn take_limits<R: Read, A: Allocator>(
    input: &mut Input<A>,
    reader: &mut R,
) -> Result<Limits, LineFault>
    ensures gives { LimitsTaken result (prepend_known input.old.unread (R.remaining reader.old))
        (prepend_known input.new.unread (R.remaining reader.new)) input.old.number input.new.number }
    ensures cause { IfErr result (λ fault. fault ≡ line_faults.Read → HasFailed input.new) }
{
    let version = take_version(input, reader)?;
    let sessions = take_count(input, reader, "sessions", 1, MAX_SESSIONS as u64)?;
    let queue = take_count(input, reader, "queue", 1, MAX_QUEUE as u64)?;
    let keep = take_count(input, reader, "keep", 1, MAX_KEEP as u64)?;
    Ok(Limits {
        version,
        sessions: sessions as usize,
        queue: queue as usize,
        keep: keep as usize,
    })
}

/// Whether one of the tables has the name.
fn has_table<A: Allocator>(tables: &[TableDef<A>], name: &str) -> bool
    ensures { result ≡ list_any (λ table. has_name name.now (table_of table)) tables.now }
{
    tables.iter().any(|table| table.name.as_str() == name)
}

/// The table of a line behind those of others, in a text of this version. `Malformed` also where it is the 33rd, or its name is that of another.
#[tactic(auto, unfolding(crate::specs::HeaderTaking::table_behind))]
pub fn table_behind<A: Allocator + Copy>(
    alloc: A,
    version: Version,
    tables: &[TableDef<A>],
    line: &[u8],
) -> Result<TableDef<A>, Unread>
    ensures exact { Gives table_of result (table_behind version (tables_of tables.now) line.now) }
    ensures heads { UnlessMalformed (line_heads_table version line.now) result }
{
    let table = table(alloc, version, line)?;
    if tables.len() >= MAX_TABLES {
        return Err(Unread::Malformed);
    }
    if has_table(tables, table.name.as_str()) {
        return Err(Unread::Malformed);
    }
    Ok(table)
}

/// What was read, or none where it is malformed.
fn if_read<T: Drop>(read: Result<T, Unread>) -> Result<Option<T>, ReadFault>
    ensures { result ≡ if_read read }
{
    match read {
        Ok(value) => Ok(Some(value)),
        Err(Unread::Malformed) => Ok(None),
        Err(Unread::Memory) => Err(ReadFault::Memory),
    }
}

/// Takes the line behind those of some tables, and answers the table that it tells, if it tells one that may stand there.
fn take_next<R: Read, A: Allocator + Copy>(
    alloc: A,
    version: Version,
    input: &mut Input<A>,
    reader: &mut R,
    tables: &[TableDef<A>],
) -> Result<Option<TableDef<A>>, ReadFault>
    requires { TablesSoFar version (tables_of tables.now) }
    ensures gives { NextTaken version table_of result (tables_of tables.now) input.new.line
        (prepend_known input.old.unread (R.remaining reader.old))
        (prepend_known input.new.unread (R.remaining reader.new)) input.old.number input.new.number }
    ensures heads { TakesTable is_some (line_heads_table version input.new.line) result }
    ensures cause { IfErr result (λ fault. fault ≡ read_faults.Read → HasFailed input.new) }
{
    input.take_line(reader)?;
    if_read(table_behind(alloc, version, tables, input.line()))
}

/// Takes the lines of tables, and the line behind them, which the input then shows: the first that tells no table that may stand there.
///
/// `Malformed` where no line stands next; `Read` where the reader fails; `TooManyLines` where a line has no number; `Memory` where it
/// was refused for a table. After any of them the input is of no more use.
pub fn take_tables<R: Read, A: Allocator + Copy>(
    alloc: A,
    version: Version,
    input: &mut Input<A>,
    reader: &mut R,
) -> Result<Vec<TableDef<A>, A>, ReadFault>
    ensures gives { TablesTaken version (λ tables. tables_of tables.items) result input.new.line
        (prepend_known input.old.unread (R.remaining reader.old))
        (prepend_known input.new.unread (R.remaining reader.new)) input.old.number input.new.number }
    ensures memory { IfErr result (λ fault. fault ≡ read_faults.Memory → line_heads_table version input.new.line ≡ true) }
    ensures cause { IfErr result (λ fault. fault ≡ read_faults.Read → HasFailed input.new) }
{
    let mut tables = Vec::new(alloc);
    loop {
        match take_next(alloc, version, input, reader, tables.as_slice())? {
            Some(table) => tables.push(table)?,
            None => return Ok(tables),
        }
    }
}

/// Takes the lines of the tables, and `steps`.
fn take_schema<R: Read, A: Allocator + Copy>(
    alloc: A,
    limits: Limits,
    input: &mut Input<A>,
    reader: &mut R,
) -> Result<Schema<A>, ReadFault>
    ensures gives { OpeningTaken result (TablesAt limits []) (λ schema. StepsAt (with_tables limits schema) []) (λ schema. map table_text schema ++ codes "steps" ∷ []) (λ schema. (plain.check_tables schema ≡ None) × KindsFit limits.version schema)
        (position_of input.old (R.remaining reader.old)) (position_of input.new (R.remaining reader.new)) }
    ensures memory { IfErr result (λ fault. fault ≡ read_faults.Memory → line_heads_table limits.version input.new.line ≡ true) }
    ensures cause { IfErr result (λ fault. fault ≡ read_faults.Read → HasFailed input.new) }
{
    let tables = take_tables(alloc, limits.version, input, reader)?;
    let number = input.number();
    if !is_steps(input.line()) {
        return Err(ReadFault::Malformed(number));
    }
    match Schema::new(tables) {
        Ok(schema) => Ok(schema),
        Err(_) => Err(ReadFault::Malformed(number)),
    }
}

/// Takes the header of a schedule from the beginning of a text, up to the line `steps`.
///
/// `Malformed` at the first line that can't stand where it stands, also where the text ends before the header is whole; `Read`
/// where the reader fails; `Memory` where it was refused. After any of them the input is of no more use.
pub fn read_header<R: Read, A: Allocator + Copy>(
    alloc: A,
    input: &mut Input<A>,
    reader: &mut R,
) -> Result<Header<A>, ReadFault>
    ensures gives { HeaderTaken header_of result (position_of input.old (R.remaining reader.old)) (position_of input.new (R.remaining reader.new)) }
    ensures cause { IfErr result (λ fault. fault ≡ read_faults.Read → HasFailed input.new) }
{
    let limits = take_limits(input, reader)?;
    let schema = take_schema(alloc, limits, input, reader)?;
    Ok(Header { limits, schema })
}
