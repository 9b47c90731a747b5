//! Readers of single tokens. What they read has one spelling.

ghost use Rattle.std.specs.Prelude.{◌≡◌, ◌≤◌, ◌<◌, ◌^◌, ◌*◌, ◌+◌, ◌-◌, FitsSigned, IfSome, Some, true, drop, length, option_map};
ghost use Rattle.std.specs.Int.{w64};
ghost use Rattle.std.specs.List.{list_all};
ghost use Rattle.std.specs.Str.{bytes_eq};
ghost use Rattle.std.specs.Char.{is_ascii_digit, is_ascii_lowercase};
ghost use Rattle.std.specs.Fmt.{decimal, signed_decimal};
ghost use Rattle.occ_text.specs.declared.tokens.Unread.TheVariants.{Memory};
ghost use Rattle.occ_text.specs.Spelling.{line_text, AreTokens, IsName};
ghost use Rattle.occ_text.specs.SeparatedParts.{parts_left};
ghost use Rattle.occ_text.specs.Digits.{begins_decimal, with_digit};
ghost use Rattle.occ_text.specs.TokenBytes.{may_follow};
ghost use Rattle.occ_text.specs.Reading.{Reads, is_token, tokens_of, is_name, name_of, begins_with, decimal_of, number_of, negated, int_of};

use crate::separated_parts::Parts;
use std::alloc::{AllocError, AllocFailed};
use std::str;

/// Why a token wasn't read.
#[derive(Clone, Copy, Debug, PartialEq, Eq)]
pub enum Unread {
    /// It is none of its form.
    Malformed,
    /// Memory was refused.
    Memory,
}

impl From<AllocError> for Unread {
    ghost from_gives = { λ _ unread. unread ≡ Memory };

    fn from(_refused: AllocError) -> Unread {
        Unread::Memory
    }
}

impl<T: Drop> From<AllocFailed<T>> for Unread {
    ghost from_gives = { λ _ unread. unread ≡ Memory };

    fn from(_refused: AllocFailed<T>) -> Unread {
        Unread::Memory
    }
}

// Whether a byte may stand behind another: a byte of a token behind any, and a space behind one of a token.
fn may_follow(previous: u8, byte: u8) -> bool
    ensures { result ≡ may_follow previous byte }
{
    byte.is_ascii_graphic() || (byte == b' ' && previous != b' ')
}

// Whether a line is tokens. Its beginning and its end are as spaces are: a token stands beside each.
fn are_tokens(line: &[u8]) -> bool
    ensures { result ≡ list_all is_token (parts_left 32 (Some line.now)) }
{
    let mut previous = b' ';
    for byte in line {
        if !may_follow(previous, *byte) {
            return false;
        }
        previous = *byte;
    }
    previous != b' '
}

/// The tokens of a line: at least one, each of at least one byte 33 to 126, with one space between two of them. None where the
/// line has another form.
#[tactic(auto, unfolding(crate::specs::Reading::tokens_of))]
pub fn tokens(line: &[u8]) -> Option<Parts<'_>>
    ensures exact { result ≡ tokens_of line.now }
    ensures grammar { Reads line_text AreTokens line.now result }
{
    if !are_tokens(line) {
        return None;
    }
    Some(Parts::new(line, b' '))
}

/// Whether the first byte is this one.
pub(crate) fn begins_with(bytes: &[u8], byte: u8) -> bool
    ensures { result ≡ begins_with bytes.now byte }
{
    match bytes {
        [] => false,
        [first, ..] => *first == byte,
    }
}

/// Whether the token is this word.
#[inline(always)]
pub fn is_word(token: &[u8], word: &str) -> bool
    ensures { result ≡ bytes_eq token.now word.now }
{
    if token.len() != word.len() {
        return false;
    }
    are_same(token, word.as_bytes())
}

// Whether bytes are those of a word, of which there are as many. A known word is compared byte by byte, without a loop.
#[inline(always)]
fn are_same(token: &[u8], word: &[u8]) -> bool
    requires { length token.now ≡ length word.now }
    ensures { result ≡ bytes_eq token.now word.now }
{
    for (place, byte) in word.iter().enumerate() {
        if token[place] != *byte {
            return false;
        }
    }
    true
}

/// What stands behind the first byte.
pub(crate) fn without_first(bytes: &[u8]) -> &[u8]
    ensures { result.now ≡ drop 1 bytes.now }
{
    if bytes.is_empty() {
        return bytes;
    }
    bytes.split_at(1).1
}

// Whether bytes may be a decimal by their first one: `0` stands alone.
fn begins_decimal(token: &[u8]) -> bool
    ensures { result ≡ begins_decimal token.now }
{
    !token.is_empty() && (!begins_with(token, b'0') || token.len() == 1)
}

// A number with one more digit behind it. None where the byte is no digit, and past 64 bits.
fn with_digit(number: u64, byte: u8) -> Option<u64>
    ensures { result ≡ with_digit number byte }
{
    if !byte.is_ascii_digit() {
        return None;
    }
    let tens = number.checked_mul(10)?;
    let longer = tens.checked_add((byte - b'0') as u64)?;
    Some(longer)
}

// A number of at most 18 digits with one more behind it, which fits 64 bits.
fn with_short_digit(number: u64, byte: u8) -> u64
    requires below { number < 10 ^ 18 }
    requires digit { is_ascii_digit byte ≡ true }
    ensures { result ≡ number * 10 + (byte - 48) }
{
    number * 10 + (byte - b'0') as u64
}

// The number that at most 19 bytes spell which may be a decimal by the first of them. It fits 64 bits, so no digit is tested for that.
fn short_decimal(token: &[u8]) -> Option<u64>
    requires begins { begins_decimal token.now ≡ true }
    requires short { length token.now ≤ 19 }
    ensures { result ≡ decimal_of token.now }
{
    let mut number: u64 = 0;
    for byte in token {
        if !byte.is_ascii_digit() {
            return None;
        }
        number = with_short_digit(number, *byte);
    }
    Some(number)
}

/// The number of 64 bits that the bytes spell.
fn decimal_value(token: &[u8]) -> Option<u64>
    ensures { result ≡ decimal_of token.now }
{
    if !begins_decimal(token) {
        return None;
    }
    if token.len() <= 19 {
        return short_decimal(token);
    }
    let mut number: u64 = 0;
    for byte in token {
        let Some(longer) = with_digit(number, *byte) else {
            return None;
        };
        number = longer;
    }
    Some(number)
}

/// A number up to `limit`. None where the token spells none.
#[tactic(auto, unfolding(crate::specs::Reading::number_of))]
pub fn number(token: &[u8], limit: u64) -> Option<u64>
    ensures exact { result ≡ number_of limit token.now }
    ensures within { IfSome result (λ number. number ≤ limit) }
    ensures grammar { Reads decimal (λ n. n ≤ limit) token.now result }
{
    let number = decimal_value(token)?;
    if number <= limit { Some(number) } else { None }
}

/// Minus the number.
fn negative(size: u64) -> Option<i64>
    requires { size ≤ 2 ^ 63 }
    ensures { result ≡ negated size }
{
    if size == 0 {
        return None;
    }
    Some(-((size - 1) as i64) - 1)
}

/// A whole number of 64 bits: a number, or `-` and a number other than 0. None where the token spells none.
#[tactic(auto, unfolding(crate::specs::Reading::int_of))]
pub fn int(token: &[u8]) -> Option<i64>
    ensures exact { result ≡ int_of token.now }
    ensures grammar { Reads signed_decimal (FitsSigned w64) token.now result }
{
    if begins_with(token, b'-') {
        return negative(number(without_first(token), 1 << 63)?);
    }
    Some(number(token, i64::MAX as u64)? as i64)
}

fn are_letters(bytes: &[u8]) -> bool
    ensures { result ≡ list_all is_ascii_lowercase bytes.now }
{
    bytes.iter().all(|byte| byte.is_ascii_lowercase())
}

#[tactic(auto, unfolding(crate::specs::Reading::is_name))]
fn is_name(token: &[u8]) -> bool
    ensures { result ≡ is_name token.now }
{
    !token.is_empty() && token.len() <= 16 && are_letters(token)
}

/// A name: 1 to 16 letters a to z. None where the token is none.
#[tactic(auto, unfolding(crate::specs::Reading::name_of))]
pub fn name(token: &[u8]) -> Option<&str>
    ensures exact { option_map (λ name. name.now) result ≡ name_of token.now }
    ensures grammar { Reads (λ name. name) IsName token.now (option_map (λ name. name.now) result) }
{
    if !is_name(token) {
        return None;
    }
    str::from_utf8(token).ok()
}
