//! Readers of what a line names under a schema: tables, and keys and rows that fit them.

ghost use Rattle.std.specs.Prelude.{◌≡◌, true, IfErr};
ghost use Rattle.std.specs.Result.{result_err};
ghost use Rattle.occ_types.specs.PlainData.{key_of, object_of, table_of};
ghost use Rattle.occ_types.specs.Schema.{has_name};
ghost use Rattle.occ_text.specs.Escapes.{Gives, key_takes};
ghost use Rattle.occ_text.specs.Fields.{GivesNext, before};
ghost use Rattle.occ_text.specs.ValueFields.{next_takes};
ghost use Rattle.occ_reading.specs.SchemaReaders.{unless_fault, place_of, key_in, row_in, next_table, next_key, next_row, next_object, object_takes};

use occ_text::cursors::next_token;
use occ_text::separated_parts::Parts;
use occ_text::texts;
use occ_text::tokens::Unread;
use occ_text::versions::Version;
use occ_types::{Fault, Key, Object, Row, Schema, TableDef};
use std::alloc::Allocator;

/// What has a fault is not read.
pub(crate) fn unless_fault(checked: Result<(), Fault>) -> Option<()>
    ensures { result ≡ unless_fault (result_err checked) }
{
    checked.ok()
}

/// The place of the table of this name.
fn place_of<A: Allocator>(schema: &Schema<A>, token: &[u8]) -> Option<usize>
    ensures { result ≡ place_of schema.now token.now }
{
    // a token that is the name of a table is a name
    let tables = schema.tables();
    for (place, table) in tables.iter().enumerate() {
        if is_named(table, token) {
            return Some(place);
        }
    }
    None
}

/// Whether a table has this name.
fn is_named<A: Allocator>(table: &TableDef<A>, name: &[u8]) -> bool
    ensures { result ≡ has_name name.now (table_of table.now) }
{
    table.name.as_bytes() == name
}

/// A key of the table at a place, in a text of a version.
#[tactic(auto, unfolding(crate::specs::SchemaReaders::key_in))]
fn key_in<A: Allocator + Copy>(
    alloc: A,
    version: Version,
    schema: &Schema<A>,
    table: usize,
    token: &[u8],
) -> Result<Key<A>, Unread>
    ensures exact { Gives key_of result (key_in version schema.now table token.now) }
    ensures memory { IfErr result (λ unread. unread ≡ Unread.Memory → key_takes version token.now ≡ true) }
{
    let key = texts::key(alloc, version, token)?;
    unless_fault(schema.check_key(table, &key)).ok_or(Unread::Malformed)?;
    Ok(key)
}

/// A row of the table at a place.
#[tactic(auto, unfolding(crate::specs::SchemaReaders::row_in))]
pub(crate) fn row_in<A: Allocator + Clone>(
    alloc: A,
    schema: &Schema<A>,
    table: usize,
    token: &[u8],
) -> Result<Row<A>, Unread>
    ensures { Gives (λ row. row) result (row_in schema.now table token.now) }
{
    let row = texts::row(alloc, token)?;
    unless_fault(schema.check_row(table, &row)).ok_or(Unread::Malformed)?;
    Ok(row)
}

/// The place of the table that the next token names.
#[tactic(auto, unfolding(crate::specs::SchemaReaders::next_table))]
pub(crate) fn next_table<A: Allocator>(schema: &Schema<A>, parts: &mut Parts<'_>) -> Option<usize>
    ensures { before parts.new result ≡ next_table schema.now parts.old }
{
    let token = next_token(parts)?;
    let place = place_of(schema, token)?;
    Some(place)
}

/// The next token as a key of a table.
#[tactic(auto, unfolding(crate::specs::SchemaReaders::next_key, occ_text::specs::ValueFields::next_takes))]
pub(crate) fn next_key<A: Allocator + Copy>(
    alloc: A,
    version: Version,
    schema: &Schema<A>,
    table: usize,
    parts: &mut Parts<'_>,
) -> Result<Key<A>, Unread>
    ensures exact { GivesNext key_of result (next_key version schema.now table parts.old) parts.new }
    ensures memory { IfErr result (λ unread. unread ≡ Unread.Memory → next_takes (key_takes version) parts.old ≡ true) }
{
    let token = next_token(parts).ok_or(Unread::Malformed)?;
    let key = key_in(alloc, version, schema, table, token)?;
    Ok(key)
}

/// The next token as a row of a table.
#[tactic(auto, unfolding(crate::specs::SchemaReaders::next_row))]
pub(crate) fn next_row<A: Allocator + Clone>(
    alloc: A,
    schema: &Schema<A>,
    table: usize,
    parts: &mut Parts<'_>,
) -> Result<Row<A>, Unread>
    ensures { GivesNext (λ row. row) result (next_row schema.now table parts.old) parts.new }
{
    let token = next_token(parts).ok_or(Unread::Malformed)?;
    let row = row_in(alloc, schema, table, token)?;
    Ok(row)
}

/// The name of a row, from the next two tokens: its table's name and its key.
#[tactic(auto, unfolding(crate::specs::SchemaReaders::next_object, crate::specs::SchemaReaders::object_takes))]
pub(crate) fn next_object<A: Allocator + Copy>(
    alloc: A,
    version: Version,
    schema: &Schema<A>,
    parts: &mut Parts<'_>,
) -> Result<Object<A>, Unread>
    ensures exact { GivesNext object_of result (next_object version schema.now parts.old) parts.new }
    ensures memory { IfErr result (λ unread. unread ≡ Unread.Memory → object_takes version schema.now parts.old ≡ true) }
{
    let table = next_table(schema, parts).ok_or(Unread::Malformed)?;
    let key = next_key(alloc, version, schema, table, parts)?;
    Ok(Object { table, key })
}
