//! The reader of the operations of a run alone.

ghost use Rattle.std.specs.Prelude.{◌≡◌, Some, IfOk, map};
ghost use Rattle.occ_text.specs.Escapes.{Gives};
ghost use Rattle.occ_text.specs.Fields.{GivesNext, read_form, readers, by_word};
ghost use Rattle.occ_text.specs.Operations as plain;
ghost use Rattle.occ_text.specs.Operations.{operation_of, operation_text, OperationFits};
ghost use Rattle.occ_text.specs.OperationReading.{get_form, delete_form, scan_form, put_form, add_form, forms, operation_of_parts, read_operation, operations_of};

use crate::cursors::{at_end, next_end, next_int, next_key, next_name, next_row, next_token};
use crate::operations::Operation;
use crate::separated_parts::Parts;
use crate::tokens::{Unread, is_word};
use crate::versions::Version;
use std::alloc::Allocator;

/// `get:NAME:KEY`.
#[tactic(auto, unfolding(crate::specs::Fields::read_form))]
fn get_of<'a, A: Allocator + Copy>(
    alloc: A,
    version: Version,
    parts: &mut Parts<'a>,
) -> Result<Operation<'a, A>, Unread>
    ensures { GivesNext operation_of result (read_form (get_form version) parts.old) parts.new }
{
    let table = next_name(parts).ok_or(Unread::Malformed)?;
    let key = next_key(alloc, version, parts)?;
    Ok(Operation::Get { table, key })
}

/// `delete:NAME:KEY`.
#[tactic(auto, unfolding(crate::specs::Fields::read_form))]
fn delete_of<'a, A: Allocator + Copy>(
    alloc: A,
    version: Version,
    parts: &mut Parts<'a>,
) -> Result<Operation<'a, A>, Unread>
    ensures { GivesNext operation_of result (read_form (delete_form version) parts.old) parts.new }
{
    let table = next_name(parts).ok_or(Unread::Malformed)?;
    let key = next_key(alloc, version, parts)?;
    Ok(Operation::Delete { table, key })
}

/// `scan:NAME:KEY:KEY`.
#[tactic(auto, unfolding(crate::specs::Fields::read_form))]
fn scan_of<'a, A: Allocator + Copy>(
    alloc: A,
    version: Version,
    parts: &mut Parts<'a>,
) -> Result<Operation<'a, A>, Unread>
    ensures { GivesNext operation_of result (read_form (scan_form version) parts.old) parts.new }
{
    let table = next_name(parts).ok_or(Unread::Malformed)?;
    let lower = next_end(alloc, version, parts)?;
    let upper = next_end(alloc, version, parts)?;
    Ok(Operation::Scan {
        table,
        lower,
        upper,
    })
}

/// `put:NAME:KEY:ROW`.
#[tactic(auto, unfolding(crate::specs::Fields::read_form))]
fn put_of<'a, A: Allocator + Copy>(
    alloc: A,
    version: Version,
    parts: &mut Parts<'a>,
) -> Result<Operation<'a, A>, Unread>
    ensures { GivesNext operation_of result (read_form (put_form version) parts.old) parts.new }
{
    let table = next_name(parts).ok_or(Unread::Malformed)?;
    let key = next_key(alloc, version, parts)?;
    let row = next_row(alloc, parts)?;
    Ok(Operation::Put { table, key, row })
}

/// `add:NAME:KEY:INT`.
#[tactic(auto, unfolding(crate::specs::Fields::read_form))]
fn add_of<'a, A: Allocator + Copy>(
    alloc: A,
    version: Version,
    parts: &mut Parts<'a>,
) -> Result<Operation<'a, A>, Unread>
    ensures { GivesNext operation_of result (read_form (add_form version) parts.old) parts.new }
{
    let table = next_name(parts).ok_or(Unread::Malformed)?;
    let key = next_key(alloc, version, parts)?;
    let amount = next_int(parts).ok_or(Unread::Malformed)?;
    Ok(Operation::Add { table, key, amount })
}

/// The operation of a word, from the parts behind it.
fn next_operation<'a, A: Allocator + Copy>(
    alloc: A,
    version: Version,
    word: &[u8],
    parts: &mut Parts<'a>,
) -> Result<Operation<'a, A>, Unread>
    ensures { GivesNext operation_of result (by_word (readers (forms version)) (word.now, parts.old)) parts.new }
{
    if is_word(word, "get") {
        get_of(alloc, version, parts)
    } else if is_word(word, "put") {
        put_of(alloc, version, parts)
    } else if is_word(word, "scan") {
        scan_of(alloc, version, parts)
    } else if is_word(word, "delete") {
        delete_of(alloc, version, parts)
    } else if is_word(word, "add") {
        add_of(alloc, version, parts)
    } else {
        Err(Unread::Malformed)
    }
}

#[tactic(auto, unfolding(crate::specs::OperationReading::operation_of_parts))]
fn operation_of_parts<'a, A: Allocator + Copy>(
    alloc: A,
    version: Version,
    mut parts: Parts<'a>,
) -> Result<Operation<'a, A>, Unread>
    ensures { Gives operation_of result (operation_of_parts version parts.entry) }
{
    let word = next_token(&mut parts).ok_or(Unread::Malformed)?;
    let operation = next_operation(alloc, version, word, &mut parts)?;
    at_end(&mut parts).ok_or(Unread::Malformed)?;
    Ok(operation)
}

#[tactic(auto, unfolding(crate::specs::OperationReading::read_operation))]
fn operation_value<'a, A: Allocator + Copy>(
    alloc: A,
    version: Version,
    token: &'a [u8],
) -> Result<Operation<'a, A>, Unread>
    ensures { Gives operation_of result (read_operation version token.now) }
{
    operation_of_parts(alloc, version, Parts::new(token, b':'))
}

/// An operation of a text of this version, from its token. `Malformed` where the token is none; `Memory` where it was refused for a key or a row.
pub fn read_operation<'a, A: Allocator + Copy>(
    alloc: A,
    version: Version,
    token: &'a [u8],
) -> Result<Operation<'a, A>, Unread>
    ensures exact { Gives operation_of result (read_operation version token.now) }
    ensures found { IfOk result (λ operation. (token.now ≡ operation_text (operation_of operation)) × OperationFits version (operation_of operation)) }
    ensures again { (operation : plain.Operation) → OperationFits version operation → token.now ≡ operation_text operation → Gives operation_of result (Some operation) }
{
    operation_value(alloc, version, token)
}

/// The operations of some tokens, in their order: one for each, and any number of them. `Malformed` where there is none, or a
/// token is no operation; `Memory` where it was refused for the list, a key or a row.
#[tactic(auto, unfolding(crate::specs::OperationReading::operations_of))]
pub fn operations<'a, A: Allocator + Copy>(
    alloc: A,
    version: Version,
    mut tokens: Parts<'a>,
) -> Result<Vec<Operation<'a, A>, A>, Unread>
    ensures { Gives (λ list. map operation_of list.items) result (operations_of version tokens.entry) }
{
    let mut operations = Vec::new(alloc);
    while let Some(token) = tokens.take_part() {
        operations.push(read_operation(alloc, version, token)?)?;
    }
    if operations.is_empty() {
        return Err(Unread::Malformed);
    }
    Ok(operations)
}
