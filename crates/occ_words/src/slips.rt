//! The usual slips of a line or a token, each told by what is wrong and what to do.

use crate::line_forms::Field;
use occ_text::input::MAX_LINE;
use occ_text::versions::Version;

// The words of the first slip that is there.
fn first_there(slips: &[(bool, &'static str)]) -> Option<&'static str> {
    for (is_there, words) in slips {
        if *is_there {
            return Some(*words);
        }
    }
    None
}

/// The first usual slip in the bytes of a line, where `fed` says whether a line feed ends it.
pub fn line_slip(line: &[u8], fed: bool) -> Option<&'static str> {
    first_there(&[
        (
            line.last() == Some(&b'\r'),
            "the line ends with a carriage return: save the file with line feeds alone",
        ),
        (
            line.contains(&b'\t'),
            "the line has a tab: one space stands between two tokens",
        ),
        (
            line.starts_with(b"\xef\xbb\xbf"),
            "the file begins with a byte order mark: save it without one",
        ),
        (
            line.iter().any(|byte| is_other(*byte)),
            "the line has a byte that is no printable character of ASCII: in a text write it as % and two hexadecimal digits",
        ),
        (line.len() > MAX_LINE, "the line has more than 8,192 bytes"),
        (
            line.is_empty(),
            "the line is empty: take it out, for a text has no empty lines and no comments",
        ),
        (line.first() == Some(&b' '), "the line begins with a space"),
        (line.last() == Some(&b' '), "the line ends with a space"),
        (
            has_two_spaces(line),
            "the line has two spaces side by side: one stands between two tokens",
        ),
        (!fed, "the last line has no line feed at its end"),
    ])
}

// Whether a byte is neither a space nor one of a token.
fn is_other(byte: u8) -> bool {
    !byte.is_ascii_graphic() && byte != b' '
}

fn has_two_spaces(line: &[u8]) -> bool {
    let mut before = b'x';
    for byte in line {
        if *byte == b' ' && before == b' ' {
            return true;
        }
        before = *byte;
    }
    false
}

/// The first usual slip of a token that isn't what a field has to be in a text of this version.
pub fn token_slip(version: Version, field: Field, token: &[u8]) -> Option<&'static str> {
    let first = token.first().copied().unwrap_or(b' ');
    let last = token.last().copied().unwrap_or(b' ');
    let is_text = first == b'\'';
    let is_long = token.len() > 1;
    first_there(&[
        (
            is_long && first == b'0' && token.iter().all(|byte| byte.is_ascii_digit()),
            "a decimal other than 0 doesn't begin with 0",
        ),
        (
            last == b',' || token.contains(&b';'),
            "one comma stands between two cells, and nothing behind the last one",
        ),
        (
            first == b'+' || (first == b'-' && !has_cells(field)),
            "a decimal has no sign; only a cell may begin with -",
        ),
        (
            token.contains(&b'"') || (is_text && is_long && last == b'\''),
            "a text begins with ' and has no quote behind it",
        ),
        (
            is_text || token.contains(&b'%'),
            "letters, digits, _, - and . stand for themselves in a text, and every other byte is % and two digits 0 to 9 or a to f",
        ),
        (
            version == Version::One && (token.contains(&b'*') || token.contains(&b'+')),
            "keys of two parts and * are of version 2, which a text names by occ 2 in its first line",
        ),
        (
            has_bare_text(field, token),
            "a text has ' before it, as 'bob",
        ),
        (is_past_limit(field, token), limit_words(field)),
        (
            !has_texts(field) && token.iter().any(|byte| byte.is_ascii_uppercase()),
            "names and words are of the letters a to z alone",
        ),
    ])
}

fn has_cells(field: Field) -> bool {
    matches!(field, Field::Row | Field::Found)
}

fn has_texts(field: Field) -> bool {
    has_cells(field) || matches!(field, Field::Key | Field::End)
}

// Whether a cell or a part of a key begins with a letter.
fn has_bare_text(field: Field, token: &[u8]) -> bool {
    let mut before = b',';
    for byte in token {
        if (before == b',' || before == b'+') && byte.is_ascii_alphabetic() {
            return has_texts(field);
        }
        before = *byte;
    }
    false
}

// Whether a token is a whole number, as the only cell of a row may be, and so out of the limits of a field that takes one.
fn is_past_limit(field: Field, token: &[u8]) -> bool {
    let digits = match token {
        [b'-', digits @ ..] if has_cells(field) => digits,
        _ => token,
    };
    let is_whole = !digits.is_empty() && digits.iter().all(|byte| byte.is_ascii_digit());
    is_whole && (has_texts(field) || matches!(field, Field::Whole(_, _)))
}

// What the limits of a field are, where its own words don't tell.
fn limit_words(field: Field) -> &'static str {
    match field {
        Field::Key | Field::End => "a number in a key is at most 18446744073709551615, or 2^64 - 1",
        Field::Row | Field::Found => {
            "a whole number in a cell is from -9223372036854775808 to 9223372036854775807, or -2^63 to 2^63 - 1"
        }
        Field::Whole(0, u64::MAX) => "a number is at most 18446744073709551615, or 2^64 - 1",
        _ => "it is out of these limits",
    }
}
