//! Readers of texts, keys, cells and rows. What they read has one spelling.

ghost use Rattle.std.specs.Prelude.{◌≡◌, ◌∷◌, true, Some, ℕ, List, Option, option_map, IfOk, IfErr};
ghost use Rattle.occ_types.specs.Key as keys;
ghost use Rattle.occ_types.specs.Row as rows;
ghost use Rattle.occ_types.specs.PlainData.{part_of, key_of, end_of, cell_of};
ghost use Rattle.occ_types.specs.Spelling.{text_text, key_text, row_text};
ghost use Rattle.occ_text.specs.Spelling.{end_text, IsText, KeyFits, EndFits, RowFits};
ghost use Rattle.occ_text.specs.Escapes.{Gives, hex_value, escape_of, front_of, unescaped, text_of, read_part, simple_key, pair_key, key_of_parts, read_key, is_missing, read_end, read_cell, read_cells, read_row, part_takes, parts_take, key_takes};
ghost use Rattle.occ_text.specs.SeparatedParts.{parts_left};

use crate::separated_parts::{Parts, cut};
use crate::tokens::{Unread, begins_with, int, is_word, number, without_first};
use crate::versions::Version;
use occ_types::spelling::is_plain;
use occ_types::{Cell, Key, KeyPart, Pair, Row, Text};
use std::alloc::Allocator;

/// The value of a lower-case hexadecimal digit.
fn hex_value(digit: u8) -> Option<u8>
    ensures { result ≡ hex_value digit }
{
    match digit {
        b'0'..=b'9' => Some(digit - b'0'),
        b'a'..=b'f' => Some(digit - 87),
        _ => None,
    }
}

/// The byte that two digits stand for.
#[tactic(auto, unfolding(crate::specs::Escapes::escape_of))]
fn escape_of(high: u8, low: u8) -> Option<u8>
    ensures { result ≡ escape_of high low }
{
    let high = hex_value(high)?;
    let low = hex_value(low)?;
    let byte = 16 * high + low;
    if is_plain(byte) { None } else { Some(byte) }
}

/// The first byte of an escaped text, and what stands behind its spelling.
#[tactic(auto, unfolding(crate::specs::Escapes::front_of))]
fn front_of(bytes: &[u8]) -> Option<(u8, &[u8])>
    ensures { option_map (λ front. (front.0, front.1.now)) result ≡ front_of bytes.now }
{
    match bytes {
        [first, rest @ ..] if is_plain(*first) => Some((*first, rest)),
        [b'%', high, low, rest @ ..] => Some((escape_of(*high, *low)?, rest)),
        _ => None,
    }
}

/// The bytes of an escaped text.
fn unescape<A: Allocator>(alloc: A, bytes: &[u8]) -> Result<Vec<u8, A>, Unread>
    ensures { Gives (λ text. text.items) result (unescaped bytes.now) }
{
    let mut text = Vec::new(alloc);
    let mut rest = bytes;
    while !rest.is_empty() {
        let Some((byte, after)) = front_of(rest) else {
            return Err(Unread::Malformed);
        };
        text.push(byte)?;
        rest = after;
    }
    Ok(text)
}

#[tactic(auto, unfolding(crate::specs::Escapes::text_of))]
fn text_value<A: Allocator + Clone>(alloc: A, token: &[u8]) -> Result<Text<A>, Unread>
    ensures exact { Gives (λ text. text) result (text_of token.now) }
    ensures memory { IfErr result (λ unread. unread ≡ Unread.Memory → part_takes token.now ≡ true) }
{
    if !begins_with(token, b'\'') {
        return Err(Unread::Malformed);
    }
    let bytes = unescape(alloc, without_first(token))?;
    match String::from_utf8(bytes) {
        Ok(text) => Ok(Text::from_string(text)?),
        Err(_) => Err(Unread::Malformed),
    }
}

/// A number or a text.
#[tactic(auto, unfolding(crate::specs::Escapes::read_part))]
fn part_value<A: Allocator + Clone>(alloc: A, token: &[u8]) -> Result<KeyPart<A>, Unread>
    ensures exact { Gives part_of result (read_part token.now) }
    ensures memory { IfErr result (λ unread. unread ≡ Unread.Memory → part_takes token.now ≡ true) }
{
    if begins_with(token, b'\'') {
        return Ok(KeyPart::Text(text_value(alloc, token)?));
    }
    Ok(KeyPart::Num(number(token, u64::MAX).ok_or(Unread::Malformed)?))
}

/// A key that is no pair.
#[tactic(auto, unfolding(crate::specs::Escapes::simple_key))]
fn simple_key<A: Allocator + Clone>(alloc: A, token: &[u8]) -> Result<Key<A>, Unread>
    ensures exact { Gives key_of result (simple_key token.now) }
    ensures memory { IfErr result (λ unread. unread ≡ Unread.Memory → part_takes token.now ≡ true) }
{
    match part_value(alloc, token)? {
        KeyPart::Num(number) => Ok(Key::Num(number)),
        KeyPart::Text(text) => Ok(Key::Text(text)),
    }
}

/// A key of two parts.
#[tactic(auto, unfolding(crate::specs::Escapes::pair_key))]
fn pair_key<A: Allocator + Copy>(alloc: A, first: &[u8], second: &[u8]) -> Result<Key<A>, Unread>
    ensures { Gives key_of result (pair_key first.now second.now) }
{
    let first = part_value(alloc, first)?;
    let second = part_value(alloc, second)?;
    match Pair::new(alloc, first, second) {
        Ok(pair) => Ok(Key::Pair(pair)),
        Err(_) => Err(Unread::Memory),
    }
}

/// The key of what stands between the signs, by the number of its parts.
fn key_of_parts<A: Allocator + Copy>(alloc: A, mut parts: Parts<'_>) -> Result<Key<A>, Unread>
    ensures exact { Gives key_of result (key_of_parts parts.entry) }
    ensures memory { IfErr result (λ unread. unread ≡ Unread.Memory → parts_take parts.entry ≡ true) }
{
    let Some(first) = parts.take_part() else {
        return Err(Unread::Malformed);
    };
    let Some(second) = parts.take_part() else {
        return simple_key(alloc, first);
    };
    match parts.take_part() {
        None => pair_key(alloc, first, second),
        Some(_) => Err(Unread::Malformed),
    }
}

#[tactic(auto, unfolding(crate::specs::Escapes::read_key, crate::specs::Escapes::key_takes))]
fn key_value<A: Allocator + Copy>(
    alloc: A,
    version: Version,
    token: &[u8],
) -> Result<Key<A>, Unread>
    ensures exact { Gives key_of result (read_key version token.now) }
    ensures memory { IfErr result (λ unread. unread ≡ Unread.Memory → key_takes version token.now ≡ true) }
{
    match version {
        Version::One => simple_key(alloc, token),
        Version::Two => key_of_parts(alloc, Parts::new(token, b'+')),
    }
}

/// Whether the token stands for an end that a range lacks, which version 1 can't say.
fn is_missing(version: Version, token: &[u8]) -> bool
    ensures { result ≡ is_missing version token.now }
{
    match version {
        Version::One => false,
        Version::Two => is_word(token, "*"),
    }
}

#[tactic(auto, unfolding(crate::specs::Escapes::read_end))]
fn end_value<A: Allocator + Copy>(
    alloc: A,
    version: Version,
    token: &[u8],
) -> Result<Option<Key<A>>, Unread>
    ensures exact { Gives end_of result (read_end version token.now) }
    ensures memory { IfErr result (λ unread. unread ≡ Unread.Memory → key_takes version token.now ≡ true) }
{
    if is_missing(version, token) {
        return Ok(None);
    }
    Ok(Some(key_value(alloc, version, token)?))
}

#[tactic(auto, unfolding(crate::specs::Escapes::read_cell))]
fn cell_value<A: Allocator + Clone>(alloc: A, token: &[u8]) -> Result<Cell<A>, Unread>
    ensures exact { Gives cell_of result (read_cell token.now) }
    ensures memory { IfErr result (λ unread. unread ≡ Unread.Memory → part_takes token.now ≡ true) }
{
    if begins_with(token, b'\'') {
        return Ok(Cell::Text(text_value(alloc, token)?));
    }
    Ok(Cell::Int(int(token).ok_or(Unread::Malformed)?))
}

#[tactic(auto, unfolding(crate::specs::Escapes::read_row))]
fn row_value<A: Allocator + Clone>(alloc: A, token: &[u8]) -> Result<Row<A>, Unread>
    ensures { Gives (λ row. row) result (read_row token.now) }
{
    let (first, rest) = cut(token, b',');
    let cell = cell_value(alloc.clone()?, first)?;
    match rest {
        None => Ok(Row::from_cell(cell)),
        Some(rest) => longer_row(alloc, cell, rest),
    }
}

/// The row of a cell and of those behind it, of which there is one at least.
fn longer_row<A: Allocator + Clone>(alloc: A, first: Cell<A>, rest: &[u8]) -> Result<Row<A>, Unread>
    ensures { Gives (λ row. row) result (option_map (λ more. cell_of first ∷ more) (read_cells (parts_left 44 (Some rest.now)))) }
{
    let mut cells = Vec::new(alloc.clone()?);
    cells.push(first)?;
    let mut parts = Parts::new(rest, b',');
    while let Some(part) = parts.take_part() {
        cells.push(cell_value(alloc.clone()?, part)?)?;
    }
    Ok(Row::from_cells(cells)?)
}

/// A text: `'` and its bytes, those that are no letter, digit, `_`, `-` or `.` as `%` and two lower-case hexadecimal digits.
/// `Malformed` where the token is none.
pub fn text<A: Allocator + Clone>(alloc: A, token: &[u8]) -> Result<Text<A>, Unread>
    ensures exact { Gives (λ text. text) result (text_of token.now) }
    ensures memory { IfErr result (λ unread. unread ≡ Unread.Memory → part_takes token.now ≡ true) }
    ensures found { IfOk result (λ text. (token.now ≡ text_text text) × IsText text) }
    ensures again { (text : List ℕ) → IsText text → token.now ≡ text_text text → Gives (λ text. text) result (Some text) }
{
    text_value(alloc, token)
}

/// A key of a text of this version: a number of 64 bits or a text; in version 2 also two of these with `+` between them.
/// `Malformed` where the token is none.
pub fn key<A: Allocator + Copy>(alloc: A, version: Version, token: &[u8]) -> Result<Key<A>, Unread>
    ensures exact { Gives key_of result (read_key version token.now) }
    ensures memory { IfErr result (λ unread. unread ≡ Unread.Memory → key_takes version token.now ≡ true) }
    ensures found { IfOk result (λ key. (token.now ≡ key_text (key_of key)) × KeyFits version (key_of key)) }
    ensures again { (key : keys.Key) → KeyFits version key → token.now ≡ key_text key → Gives key_of result (Some key) }
{
    key_value(alloc, version, token)
}

/// An end of a range in a text of this version: a key; in version 2 also `*`, where the range lacks this end. `Malformed` where
/// the token is none.
pub fn end<A: Allocator + Copy>(
    alloc: A,
    version: Version,
    token: &[u8],
) -> Result<Option<Key<A>>, Unread>
    ensures exact { Gives end_of result (read_end version token.now) }
    ensures memory { IfErr result (λ unread. unread ≡ Unread.Memory → key_takes version token.now ≡ true) }
    ensures found { IfOk result (λ end. (token.now ≡ end_text (end_of end)) × EndFits version (end_of end)) }
    ensures again { (end : Option keys.Key) → EndFits version end → token.now ≡ end_text end → Gives end_of result (Some end) }
{
    end_value(alloc, version, token)
}

/// A row: one cell, or several with a comma between two of them; a cell is a whole number of 64 bits or a text. `Malformed`
/// where the token is none.
pub fn row<A: Allocator + Clone>(alloc: A, token: &[u8]) -> Result<Row<A>, Unread>
    ensures exact { Gives (λ row. row) result (read_row token.now) }
    ensures found { IfOk result (λ row. (token.now ≡ row_text row) × RowFits row) }
    ensures again { (cells : rows.Row) → RowFits cells → token.now ≡ row_text cells → Gives (λ row. row) result (Some cells) }
{
    row_value(alloc, token)
}
