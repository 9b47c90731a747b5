//! Readers of the tokens of a line, one after another. What they answer is none where the token isn't there, or another one.

ghost use Rattle.std.specs.Prelude.{◌≡◌, true, option_map, IfErr};
ghost use Rattle.occ_text.specs.Escapes.{key_takes};
ghost use Rattle.occ_text.specs.Fields.{GivesNext, before, next_token, next_word, next_number, at_end};
ghost use Rattle.occ_text.specs.ValueFields.{next_name, next_key, next_end, next_row, next_int, next_takes};
ghost use Rattle.occ_types.specs.PlainData.{key_of, end_of};

use crate::separated_parts::Parts;
use crate::texts;
use crate::tokens::{Unread, int, is_word, name, number};
use crate::versions::Version;
use occ_types::{Key, Row};
use std::alloc::Allocator;

/// The next token.
pub fn next_token<'a>(parts: &mut Parts<'a>) -> Option<&'a [u8]>
    ensures { before parts.new (option_map (λ token. token.now) result) ≡ next_token parts.old }
{
    parts.take_part()
}

/// The next token, which has to be this word.
#[tactic(auto, unfolding(crate::specs::Fields::next_word))]
pub fn next_word(parts: &mut Parts<'_>, word: &str) -> Option<()>
    ensures { before parts.new result ≡ next_word word.now parts.old }
{
    let token = next_token(parts)?;
    if is_word(token, word) { Some(()) } else { None }
}

/// A number up to `limit`.
#[tactic(auto, unfolding(crate::specs::Fields::next_number))]
pub fn next_number(parts: &mut Parts<'_>, limit: u64) -> Option<u64>
    ensures { before parts.new result ≡ next_number limit parts.old }
{
    let token = next_token(parts)?;
    let n = number(token, limit)?;
    Some(n)
}

/// No token is left.
pub fn at_end(parts: &mut Parts<'_>) -> Option<()>
    ensures { result ≡ at_end parts.old }
{
    match parts.take_part() {
        None => Some(()),
        Some(_) => None,
    }
}

/// A name.
#[tactic(auto, unfolding(crate::specs::ValueFields::next_name))]
pub(crate) fn next_name<'a>(parts: &mut Parts<'a>) -> Option<&'a str>
    ensures { before parts.new (option_map (λ name. name.now) result) ≡ next_name parts.old }
{
    let token = next_token(parts)?;
    let name = name(token)?;
    Some(name)
}

/// A key in a text of a version.
#[tactic(auto, unfolding(crate::specs::ValueFields::next_key, crate::specs::ValueFields::next_takes))]
pub(crate) fn next_key<A: Allocator + Copy>(
    alloc: A,
    version: Version,
    parts: &mut Parts<'_>,
) -> Result<Key<A>, Unread>
    ensures exact { GivesNext key_of result (next_key version parts.old) parts.new }
    ensures memory { IfErr result (λ unread. unread ≡ Unread.Memory → next_takes (key_takes version) parts.old ≡ true) }
{
    let token = next_token(parts).ok_or(Unread::Malformed)?;
    let key = texts::key(alloc, version, token)?;
    Ok(key)
}

/// An end of a range, of which version 2 has a word for a missing one.
#[tactic(auto, unfolding(crate::specs::ValueFields::next_end, crate::specs::ValueFields::next_takes))]
pub fn next_end<A: Allocator + Copy>(
    alloc: A,
    version: Version,
    parts: &mut Parts<'_>,
) -> Result<Option<Key<A>>, Unread>
    ensures exact { GivesNext end_of result (next_end version parts.old) parts.new }
    ensures memory { IfErr result (λ unread. unread ≡ Unread.Memory → next_takes (key_takes version) parts.old ≡ true) }
{
    let token = next_token(parts).ok_or(Unread::Malformed)?;
    let end = texts::end(alloc, version, token)?;
    Ok(end)
}

/// A row.
#[tactic(auto, unfolding(crate::specs::ValueFields::next_row))]
pub(crate) fn next_row<A: Allocator + Clone>(
    alloc: A,
    parts: &mut Parts<'_>,
) -> Result<Row<A>, Unread>
    ensures { GivesNext (λ row. row) result (next_row parts.old) parts.new }
{
    let token = next_token(parts).ok_or(Unread::Malformed)?;
    let row = texts::row(alloc, token)?;
    Ok(row)
}

/// A whole number of 64 bits.
#[tactic(auto, unfolding(crate::specs::ValueFields::next_int))]
pub(crate) fn next_int(parts: &mut Parts<'_>) -> Option<i64>
    ensures { before parts.new result ≡ next_int parts.old }
{
    let token = next_token(parts)?;
    let n = int(token)?;
    Some(n)
}
