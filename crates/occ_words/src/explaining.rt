//! What is wrong with the text of a file, said line by line.

use crate::book_findings::say_finding;
use crate::line_walk::token_at;
use crate::malformed_lines::say_malformed;
use crate::notes::tell_notes;
use crate::phrases::write_counted;
use crate::schedule_steps::Steps;
use crate::telling::Told;
use occ_audit::{Finding, explain_book};
use occ_reading::whole_books::{PrintedBook, take_book};
use occ_text::headers::read_header;
use occ_text::input::{Input, Next};
use occ_text::separated_parts::Parts;
use occ_text::tokens::is_word;
use occ_text::trouble::Trouble;
use std::alloc::{AllocError, Global};
use std::io::Write;
use std::str;

/// Explains a text: tells what is wrong with it, sends that to a writer as it goes, and answers whether nothing is: of a schedule that no step is refused, of a book that its audit says yes. A schedule is told by its line `steps`, and any other text is a book.
///
/// Beside the text it holds what a replay or an audit of it holds, and one line.
///
/// `Malformed` where a line can't stand where it stands, which is told too; `Write` where the writer fails; `Memory` where it was refused.
pub fn explain_text<W: Write>(
    alloc: Global,
    text: &[u8],
    told: &mut Told,
    writer: &mut W,
) -> Result<bool, Trouble> {
    let is_book = is_book(text);
    let ended = if is_book {
        judge_book(alloc, text, told, writer)
    } else {
        replay(alloc, text, false, told, writer)
    };
    match ended {
        Ok(_right) => {}
        Err(Trouble::Malformed(number)) => {
            let saying = say_malformed(alloc, text, number)?;
            told.say(alloc, &saying)?;
            told.send(writer)?;
        }
        Err(trouble) => return Err(trouble),
    }
    if is_book || !told.is_text() {
        return ended;
    }
    replay(alloc, text, true, told, writer)
}

/// Whether a text has a line of a book before any line `steps`.
pub fn is_book(text: &[u8]) -> bool {
    let mut lines = Parts::new(text, b'\n');
    for _ in 0..text.len() {
        let line = lines.take_part().unwrap_or(b"");
        let word = token_at(line, 0);
        if is_word(word, "steps") {
            return false;
        }
        if is_word(word, "log") || is_word(word, "base") || is_word(word, "row") {
            return true;
        }
    }
    false
}

// Replays a schedule: lists its steps with their answers, or says what there is to be said of them. Answers whether none was refused.
fn replay<W: Write>(
    alloc: Global,
    text: &[u8],
    lists: bool,
    told: &mut Told,
    writer: &mut W,
) -> Result<bool, Trouble> {
    let mut input = Input::new(alloc)?;
    let mut reader = text;
    let header = read_header(alloc, &mut input, &mut reader)?;
    let mut steps = Steps::open(alloc, header)?;
    take_steps(
        alloc,
        &mut input,
        &mut reader,
        &mut steps,
        lists,
        told,
        writer,
    )
}

// Takes all steps of a schedule, and answers whether none was refused.
fn take_steps<W: Write>(
    alloc: Global,
    input: &mut Input<Global>,
    reader: &mut &[u8],
    steps: &mut Steps,
    lists: bool,
    told: &mut Told,
    writer: &mut W,
) -> Result<bool, Trouble> {
    for _ in 0..u64::MAX {
        if !take_step(alloc, input, reader, steps, lists, told)? {
            break;
        }
        told.send(writer)?;
    }
    if !lists {
        tell_counts(alloc, steps, told)?;
    }
    told.send(writer)?;
    Ok(steps.refused == 0)
}

// Tells how many steps were refused and how many transactions were backed up.
fn tell_counts(alloc: Global, steps: &Steps, told: &mut Told) -> Result<(), AllocError> {
    let mut words = String::new(alloc);
    write_counted(&mut words, "steps refused: ", steps.refused)?;
    write_counted(&mut words, ", transactions backed up: ", steps.backed_up)?;
    told.end(words.as_str())
}

// Takes the next step of a schedule. False where the text has no line more.
fn take_step(
    alloc: Global,
    input: &mut Input<Global>,
    reader: &mut &[u8],
    steps: &mut Steps,
    lists: bool,
    told: &mut Told,
) -> Result<bool, Trouble> {
    if input.next_line(reader)? == Next::End {
        return Ok(false);
    }
    let number = input.number();
    let mut answer = String::new(alloc);
    let saying = steps.take(alloc, number, input.line(), &mut answer)?;
    if lists {
        let step = str::from_utf8(input.line()).unwrap_or("?");
        told.list(number, step, answer.as_str())?;
    } else if let Some(saying) = saying {
        told.say(alloc, &saying)?;
    }
    Ok(true)
}

// Tells the first finding of a book and the notes on it, and answers whether its audit says yes.
fn judge_book<W: Write>(
    alloc: Global,
    text: &[u8],
    told: &mut Told,
    writer: &mut W,
) -> Result<bool, Trouble> {
    let mut input = Input::new(alloc)?;
    let mut reader = text;
    let printed = take_book(alloc, &mut input, &mut reader)?;
    tell_book(alloc, text, &printed, told, writer)
}

fn tell_book<W: Write>(
    alloc: Global,
    text: &[u8],
    printed: &PrintedBook<Global>,
    told: &mut Told,
    writer: &mut W,
) -> Result<bool, Trouble> {
    let right = tell_finding(alloc, text, printed, told)?;
    told.end(if right { "audit yes" } else { "audit no" })?;
    tell_notes(alloc, text, printed, told, writer)?;
    Ok(right)
}

// Tells the first finding of a book, and answers whether there is none.
fn tell_finding(
    alloc: Global,
    text: &[u8],
    printed: &PrintedBook<Global>,
    told: &mut Told,
) -> Result<bool, Trouble> {
    match explain_book(alloc, &printed.book.view()) {
        Ok(None) => Ok(true),
        Ok(Some(finding)) => tell_wrong(alloc, text, printed, &finding, told),
        Err(_memory) => Err(Trouble::Memory),
    }
}

// Tells a finding of a book, and answers that it isn't right.
fn tell_wrong(
    alloc: Global,
    text: &[u8],
    printed: &PrintedBook<Global>,
    finding: &Finding<Global>,
    told: &mut Told,
) -> Result<bool, Trouble> {
    let saying = say_finding(alloc, text, printed, finding)?;
    told.say(alloc, &saying)?;
    Ok(false)
}
