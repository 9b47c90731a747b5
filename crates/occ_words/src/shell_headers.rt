//! The header that the shell hears.

use crate::malformed_lines::say_malformed;
use crate::shell_answers::{HELP, tell_malformed};
use crate::shell_lines::{Heard, hear};
use occ_text::faults::ReadFault;
use occ_text::headers::read_header;
use occ_text::input::Input;
use occ_text::output::Output;
use occ_text::tokens::is_word;
use occ_text::trouble::Trouble;
use std::alloc::Global;
use std::io::{Read, Write};

/// How far the lines of a header have come.
#[derive(Clone, Copy, Debug, PartialEq, Eq)]
enum Head {
    /// They are a header.
    Whole,
    /// More of them may make one.
    Begun,
    /// The last one can't stand where it stands.
    Malformed(u64),
}

/// Takes lines up to the end of a header, and keeps them. A line that can't stand where it stands is told, and left out.
///
/// Answers `Line` where they are a header then.
pub(crate) fn hear_header<R: Read, W: Write>(
    alloc: Global,
    input: &mut Input<Global>,
    reader: &mut R,
    output: &mut Output<Global>,
    writer: &mut W,
    header: &mut Vec<u8>,
) -> Result<Heard, Trouble> {
    for _ in 0..u64::MAX {
        match hear(input, reader)? {
            Heard::Line => {}
            ended => return Ok(ended),
        }
        let mut text = String::new(alloc);
        let whole = take_head_line(alloc, input.line(), header, &mut text)?;
        output.push(writer, text.as_bytes())?;
        output.flush(writer)?;
        if whole {
            return Ok(Heard::Line);
        }
    }
    Ok(Heard::End)
}

// Puts a line behind those of a header, or tells why it can't stand there. Whether they are a header then.
fn take_head_line(
    alloc: Global,
    line: &[u8],
    header: &mut Vec<u8>,
    text: &mut String,
) -> Result<bool, Trouble> {
    if is_word(line, "help") {
        text.push_str(HELP)?;
        return Ok(false);
    }
    let len = header.len();
    header.extend_from_slice(line)?;
    header.push(b'\n')?;
    match head_of(alloc, header.as_slice())? {
        Head::Whole => Ok(true),
        Head::Begun => Ok(false),
        Head::Malformed(number) => {
            let saying = say_malformed(alloc, header.as_slice(), number)?;
            tell_malformed(text, &saying)?;
            header.truncate(len);
            Ok(false)
        }
    }
}

// How far lines have come, of which all but the last may head a schedule.
fn head_of(alloc: Global, lines: &[u8]) -> Result<Head, Trouble> {
    let mut input = Input::new(alloc)?;
    let mut reader = lines;
    match read_header(alloc, &mut input, &mut reader) {
        Ok(_header) => Ok(Head::Whole),
        Err(ReadFault::Malformed(number)) if number > input.number() => Ok(Head::Begun),
        Err(ReadFault::Malformed(number)) => Ok(Head::Malformed(number)),
        Err(fault) => Err(Trouble::from(fault)),
    }
}
