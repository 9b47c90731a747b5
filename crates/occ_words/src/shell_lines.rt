//! What the shell hears line by line.

use crate::shell_answers::write_remark;
use occ_text::faults::LineFault;
use occ_text::input::{Input, Next};
use occ_text::output::Output;
use occ_text::tokens::is_word;
use occ_text::trouble::Trouble;
use std::alloc::Global;
use std::io::{Read, Write};

/// What comes next from a reader.
#[derive(Clone, Copy, Debug, PartialEq, Eq)]
pub(crate) enum Heard {
    /// A whole line.
    Line,
    /// The end, or the word `quit`.
    End,
    /// What is no line, after which none can be taken.
    Broken,
}

/// Takes the next line, which the input then shows. The word `quit` is the end.
pub(crate) fn hear<R: Read>(input: &mut Input<Global>, reader: &mut R) -> Result<Heard, Trouble> {
    match input.next_line(reader) {
        Ok(Next::Line) if is_word(input.line(), "quit") => Ok(Heard::End),
        Ok(Next::Line) => Ok(Heard::Line),
        Ok(Next::End) => Ok(Heard::End),
        Err(LineFault::Read) => Err(Trouble::Read),
        Err(LineFault::Malformed(_) | LineFault::TooManyLines) => Ok(Heard::Broken),
    }
}

/// Tells that what stands next is no line.
pub(crate) fn tell_broken<W: Write>(
    alloc: Global,
    output: &mut Output<Global>,
    writer: &mut W,
) -> Result<(), Trouble> {
    let mut text = String::from_str(alloc, "malformed\n")?;
    write_remark(
        &mut text,
        "the line has more than 8,192 bytes, or no line feed at its end; nothing behind it is read",
    )?;
    output.push(writer, text.as_bytes())?;
    output.flush(writer)?;
    Ok(())
}
