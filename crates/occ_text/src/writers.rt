//! Writers of what a line may have. Each appends the one spelling; where memory is refused, a beginning of it may stand.

ghost use Rattle.std.specs.Prelude.{◌≡◌, ◌<◌, ◌+◌, ◌++◌, ◌∷◌, [], OnOk, string_bytes};
ghost use Rattle.std.specs.Fmt.{decimal, signed_decimal};
ghost use Rattle.occ_types.specs.Key as keys;
ghost use Rattle.occ_types.specs.PlainData.{part_of, key_of, end_of, cell_lent};
ghost use Rattle.occ_types.specs.Spelling.{escaped_byte, escaped, text_text, part_text, key_text, cell_text, row_text, comma};
ghost use Rattle.occ_text.specs.Spelling.{end_text};

use itoa::Buffer;
use occ_types::spelling::{hex_digit, is_plain};
use occ_types::{CellRef, Key, KeyPart, Pair, Row, Text};
use std::alloc::{AllocError, Allocator};

/// The digit of a number below 10.
fn digit(number: u64) -> char
    requires { number < 10 }
    ensures { result ≡ 48 + number }
{
    char::from(b'0' + number as u8)
}

/// Appends the digit of a number below 10.
fn write_digit<A: Allocator>(line: &mut String<A>, number: u64) -> Result<(), AllocError>
    requires { number < 10 }
    ensures { OnOk result (string_bytes line.new ≡ string_bytes line.old ++ ((48 + number) ∷ [])) }
{
    line.push(digit(number))
}

/// Appends a number.
pub fn write_number<A: Allocator>(line: &mut String<A>, number: u64) -> Result<(), AllocError>
    ensures { OnOk result (string_bytes line.new ≡ string_bytes line.old ++ decimal number) }
{
    if number < 10 {
        return write_digit(line, number);
    }
    let mut digits = Buffer::new();
    line.push_str(digits.format(number))
}

/// Appends a space and a number.
pub fn write_next_number<A: Allocator>(line: &mut String<A>, number: u64) -> Result<(), AllocError>
    ensures { OnOk result (string_bytes line.new ≡ string_bytes line.old ++ (32 ∷ decimal number)) }
{
    line.push(' ')?;
    write_number(line, number)
}

/// Appends what stands before a number, and the number.
pub fn write_counted<A: Allocator>(
    line: &mut String<A>,
    before: &str,
    number: u64,
) -> Result<(), AllocError>
    ensures { OnOk result (string_bytes line.new ≡ string_bytes line.old ++ (before.now ++ decimal number)) }
{
    line.push_str(before)?;
    write_number(line, number)
}

/// Appends a whole number.
pub fn write_int<A: Allocator>(line: &mut String<A>, number: i64) -> Result<(), AllocError>
    ensures { OnOk result (string_bytes line.new ≡ string_bytes line.old ++ signed_decimal number) }
{
    let mut digits = Buffer::new();
    line.push_str(digits.format(number))
}

fn write_byte<A: Allocator>(line: &mut String<A>, byte: u8) -> Result<(), AllocError>
    ensures { OnOk result (string_bytes line.new ≡ string_bytes line.old ++ escaped_byte byte) }
{
    if is_plain(byte) {
        return line.push(char::from(byte));
    }
    line.push('%')?;
    line.push(hex_digit(byte / 16))?;
    line.push(hex_digit(byte % 16))
}

fn write_escaped<A: Allocator>(line: &mut String<A>, bytes: &[u8]) -> Result<(), AllocError>
    ensures { OnOk result (string_bytes line.new ≡ string_bytes line.old ++ escaped bytes.now) }
{
    for byte in bytes {
        write_byte(line, *byte)?;
    }
    Ok(())
}

/// Appends a text.
pub fn write_text<A: Allocator>(line: &mut String<A>, text: &Text<A>) -> Result<(), AllocError>
    ensures { OnOk result (string_bytes line.new ≡ string_bytes line.old ++ text_text text.now) }
{
    line.push('\'')?;
    write_escaped(line, text.as_bytes())
}

fn write_part<A: Allocator>(line: &mut String<A>, part: &KeyPart<A>) -> Result<(), AllocError>
    ensures { OnOk result (string_bytes line.new ≡ string_bytes line.old ++ part_text (part_of part.now)) }
{
    match part {
        KeyPart::Num(number) => write_number(line, *number),
        KeyPart::Text(text) => write_text(line, text),
    }
}

/// Appends a key of two parts.
fn write_pair<A: Allocator>(line: &mut String<A>, pair: &Pair<A>) -> Result<(), AllocError>
    ensures { OnOk result (string_bytes line.new ≡ string_bytes line.old ++ key_text (keys.Pair pair.now.0 pair.now.1)) }
{
    write_part(line, pair.first())?;
    line.push('+')?;
    write_part(line, pair.second())
}

/// Appends a key.
pub fn write_key<A: Allocator>(line: &mut String<A>, key: &Key<A>) -> Result<(), AllocError>
    ensures { OnOk result (string_bytes line.new ≡ string_bytes line.old ++ key_text (key_of key.now)) }
{
    match key {
        Key::Num(number) => write_number(line, *number),
        Key::Text(text) => write_text(line, text),
        Key::Pair(pair) => write_pair(line, pair),
    }
}

/// Appends an end of a range: a key, or `*` where there is none.
pub fn write_end<A: Allocator>(line: &mut String<A>, end: &Option<Key<A>>) -> Result<(), AllocError>
    ensures { OnOk result (string_bytes line.new ≡ string_bytes line.old ++ end_text (end_of end.now)) }
{
    match end {
        None => line.push('*'),
        Some(key) => write_key(line, key),
    }
}

fn write_cell<A: Allocator>(line: &mut String<A>, cell: CellRef<'_, A>) -> Result<(), AllocError>
    ensures { OnOk result (string_bytes line.new ≡ string_bytes line.old ++ cell_text (cell_lent cell.entry)) }
{
    match cell {
        CellRef::Int(number) => write_int(line, number),
        CellRef::Text(text) => write_text(line, text),
    }
}

/// Appends what stands before the cell at this place.
fn write_comma<A: Allocator>(line: &mut String<A>, place: usize) -> Result<(), AllocError>
    ensures { OnOk result (string_bytes line.new ≡ string_bytes line.old ++ comma place) }
{
    if place == 0 {
        return Ok(());
    }
    line.push(',')
}

/// Appends a row.
pub fn write_row<A: Allocator>(line: &mut String<A>, row: &Row<A>) -> Result<(), AllocError>
    ensures { OnOk result (string_bytes line.new ≡ string_bytes line.old ++ row_text row.now) }
{
    for place in 0..row.len() {
        write_comma(line, place)?;
        match row.cell(place) {
            Some(cell) => write_cell(line, cell)?,
            None => return Ok(()),
        }
    }
    Ok(())
}
