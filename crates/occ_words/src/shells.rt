//! A shell: steps come in line by line, and each is answered at once.

use crate::schedule_steps::Steps;
use crate::shell_answers::{answer_line, write_remark};
use crate::shell_headers::hear_header;
use crate::shell_lines::{Heard, hear, tell_broken};
use occ_text::headers::read_header;
use occ_text::input::{Input, Next};
use occ_text::output::Output;
use occ_text::trouble::Trouble;
use std::alloc::Global;
use std::io::{Read, Write};

/// Reads a header and steps, and answers each line before the next is read. Where there is an opening, a schedule, its header and its steps stand first, and only how many steps there were is told.
///
/// A step is answered by the line that `replay_text` writes, and so is `audit` by the line of an audit; `book` prints the book. A line that can't stand where it stands is answered by `malformed`, and changes nothing. Sentences stand behind an answer, each on a line that begins with `# `.
///
/// Answers whether the reader came to its end: false where what stands next there is no line, which is told. `Malformed` at a line of the opening; `Read` where the reader fails, `Write` where the writer fails, and `Memory` where it was refused.
pub fn shell_text<R: Read, W: Write>(
    alloc: Global,
    opening: Option<&[u8]>,
    reader: &mut R,
    writer: &mut W,
) -> Result<bool, Trouble> {
    let mut input = Input::new(alloc)?;
    let mut output = Output::new(alloc);
    let mut header = Vec::new(alloc);
    let heard = match opening {
        Some(_) => Heard::Line,
        None => hear_header(alloc, &mut input, reader, &mut output, writer, &mut header)?,
    };
    if heard == Heard::Line {
        if opening.is_none() {
            greet(alloc, &mut output, writer)?;
        }
        let text = opening.unwrap_or(header.as_slice());
        return open(alloc, text, &mut input, reader, &mut output, writer);
    }
    end(alloc, heard, &mut output, writer)
}

/// Answers each line behind a header, of a store that stands: as `shell_text` does.
///
/// Answers whether the reader came to its end; `Read`, `Write` and `Memory` as there.
pub fn shell_steps<R: Read, W: Write>(
    alloc: Global,
    steps: &mut Steps,
    reader: &mut R,
    writer: &mut W,
) -> Result<bool, Trouble> {
    let mut input = Input::new(alloc)?;
    let mut output = Output::new(alloc);
    greet(alloc, &mut output, writer)?;
    converse(alloc, steps, &mut input, reader, &mut output, writer)
}

// Tells that a store is open.
fn greet<W: Write>(
    alloc: Global,
    output: &mut Output<Global>,
    writer: &mut W,
) -> Result<(), Trouble> {
    let mut text = String::new(alloc);
    write_remark(&mut text, "the store is open; help lists the steps")?;
    output.push(writer, text.as_bytes())?;
    output.flush(writer)?;
    Ok(())
}

// Opens the store of a schedule, does its steps, and answers what comes behind them.
fn open<R: Read, W: Write>(
    alloc: Global,
    schedule: &[u8],
    input: &mut Input<Global>,
    reader: &mut R,
    output: &mut Output<Global>,
    writer: &mut W,
) -> Result<bool, Trouble> {
    let mut first = Input::new(alloc)?;
    let mut rest = schedule;
    let header = read_header(alloc, &mut first, &mut rest)?;
    let mut steps = Steps::open(alloc, header)?;
    serve(
        alloc, &mut steps, &mut first, &mut rest, input, reader, output, writer,
    )
}

// Does the steps of the opening, and answers what comes behind them.
fn serve<R: Read, W: Write>(
    alloc: Global,
    steps: &mut Steps,
    first: &mut Input<Global>,
    rest: &mut &[u8],
    input: &mut Input<Global>,
    reader: &mut R,
    output: &mut Output<Global>,
    writer: &mut W,
) -> Result<bool, Trouble> {
    let head = first.number();
    for _ in 0..u64::MAX {
        if !replay_step(alloc, steps, first, rest)? {
            break;
        }
    }
    let done = first.number().saturating_sub(head);
    if done > 0 {
        let refused = steps.refused;
        let told = format!(in alloc; "{done} steps replayed, {refused} of them refused")?;
        let mut text = String::new(alloc);
        write_remark(&mut text, told.as_str())?;
        output.push(writer, text.as_bytes())?;
        output.flush(writer)?;
    }
    converse(alloc, steps, input, reader, output, writer)
}

// Does the next step of the opening, where there is one.
fn replay_step(
    alloc: Global,
    steps: &mut Steps,
    first: &mut Input<Global>,
    rest: &mut &[u8],
) -> Result<bool, Trouble> {
    if first.next_line(rest)? == Next::End {
        return Ok(false);
    }
    let mut text = String::new(alloc);
    let _saying = steps.take(alloc, first.number(), first.line(), &mut text)?;
    Ok(true)
}

// Answers line by line, up to the end.
fn converse<R: Read, W: Write>(
    alloc: Global,
    steps: &mut Steps,
    input: &mut Input<Global>,
    reader: &mut R,
    output: &mut Output<Global>,
    writer: &mut W,
) -> Result<bool, Trouble> {
    for _ in 0..u64::MAX {
        match hear(input, reader)? {
            Heard::Line => {}
            ended => return end(alloc, ended, output, writer),
        }
        answer_line(alloc, steps, input.number(), input.line(), output, writer)?;
        output.flush(writer)?;
    }
    Ok(true)
}

// Answers whether the reader came to its end, and tells where it did not.
fn end<W: Write>(
    alloc: Global,
    ended: Heard,
    output: &mut Output<Global>,
    writer: &mut W,
) -> Result<bool, Trouble> {
    if ended == Heard::Broken {
        tell_broken(alloc, output, writer)?;
        return Ok(false);
    }
    Ok(true)
}
