//! How texts are spelled: `'`, and then each plain byte as it is and each other one as `%` and two digits.
ghost use Rattle.std.specs.Prelude.{◌≡◌, ◌<◌};
ghost use Rattle.std.specs.Fmt.{WritesOnOk};
ghost use Rattle.occ_types.specs.Spelling.{is_plain, hex_digit, escaped_byte, text_text};

use std::fmt;

/// Whether the byte stands for itself in a text.
#[inline]
pub fn is_plain(byte: u8) -> bool
    ensures { result ≡ is_plain byte }
{
    byte.is_ascii_alphanumeric() || byte == b'_' || byte == b'-' || byte == b'.'
}

/// A lower-case hexadecimal digit.
#[inline]
pub fn hex_digit(value: u8) -> char
    requires { value < 16 }
    ensures { result ≡ hex_digit value }
{
    if value < 10 {
        char::from(b'0' + value)
    } else {
        char::from(87 + value)
    }
}

fn write_byte<W: fmt::Write>(f: &mut fmt::Formatter<W>, byte: u8) -> fmt::Result
    ensures { WritesOnOk W.write_str_gives f.old result (escaped_byte byte) f.new }
{
    if is_plain(byte) {
        return f.write_char(char::from(byte));
    }
    f.write_char('%')?;
    f.write_char(hex_digit(byte / 16))?;
    f.write_char(hex_digit(byte % 16))
}

/// Writes the text of these bytes.
pub(crate) fn write_text<W: fmt::Write>(f: &mut fmt::Formatter<W>, text: &str) -> fmt::Result
    ensures { WritesOnOk W.write_str_gives f.old result (text_text text.now) f.new }
{
    f.write_char('\'')?;
    for byte in text.as_bytes() {
        write_byte(f, *byte)?;
    }
    Ok(())
}
