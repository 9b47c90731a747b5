//! What the shell answers to a line behind the header.

use crate::malformed_lines::say_malformed_step;
use crate::phrases::push_all;
use crate::sayings::Saying;
use crate::schedule_steps::Steps;
use occ_cli::audit_rows;
use occ_print::books::write_book;
use occ_print::lines::audit_line;
use occ_text::faults::ReadFault;
use occ_text::output::Output;
use occ_text::tokens::is_word;
use occ_text::trouble::Trouble;
use std::alloc::{AllocError, Global};
use std::io::Write;

/// What the shell answers to `help`.
pub(crate) const HELP: &str = "\
# The header, as of a schedule: occ 2, sessions N, queue N, keep N, table NAME KEYKIND KIND .., steps.
# Then a step a line; S is a session:
#   begin S              opens a transaction
#   get S NAME KEY       reads a row
#   scan S NAME END END  reads a range
#   put S NAME KEY ROW   writes a row
#   delete S NAME KEY    deletes a row
#   abandon S            gives the open transaction up
#   submit S             puts it into the queue of the session
#   alone S OP ..        puts operations there that run alone
#   close S              puts the closing mark there
#   enter S              enters the next item of the queue
#   serial S             enters it and ends it at once
#   decide S             gives the verdict on the row that has entered
#   write S              does its next write
#   finish S             ends it
#   backup S             backs it up
#   forge S N START, rawread S N START NAME KEY, checkpoint, show
# And beside the formats:
#   help                 this text
#   book                 prints the book of all so far
#   audit                says whether the log explains the tables
#   quit                 ends the shell
# Each step is answered by one line. A line that begins with # is a remark.
";

/// Answers a line: appends the answer and its remarks, or writes the book.
pub(crate) fn answer_line<W: Write>(
    alloc: Global,
    steps: &mut Steps,
    number: u64,
    line: &[u8],
    output: &mut Output<Global>,
    writer: &mut W,
) -> Result<(), Trouble> {
    let mut text = String::new(alloc);
    if is_word(line, "book") {
        let core = steps.replay.core();
        write_book(
            alloc,
            output,
            writer,
            steps.limits,
            core.schema(),
            &core.view(),
        )?;
    } else if is_word(line, "audit") {
        let holds = audit(alloc, steps)?;
        text.push_str(audit_line(holds))?;
    } else if is_word(line, "help") {
        text.push_str(HELP)?;
    } else {
        answer_step(alloc, steps, number, line, &mut text)?;
    }
    output.push(writer, text.as_bytes())?;
    Ok(())
}

// Whether the present log explains the present tables.
fn audit(alloc: Global, steps: &Steps) -> Result<bool, Trouble> {
    match audit_rows(alloc, &steps.replay.core().view()) {
        Ok(holds) => Ok(holds),
        Err(_memory) => Err(Trouble::Memory),
    }
}

// Does the step of a line, and appends its answer with what there is to be said of it; or tells why the line is no step.
fn answer_step(
    alloc: Global,
    steps: &mut Steps,
    number: u64,
    line: &[u8],
    text: &mut String,
) -> Result<(), Trouble> {
    match steps.take(alloc, number, line, text) {
        Ok(saying) => {
            text.push('\n')?;
            if let Some(saying) = saying {
                write_remark(text, saying.sentence.as_str())?;
            }
            Ok(())
        }
        Err(ReadFault::Malformed(_)) => {
            let saying = say_malformed_step(alloc, steps.limits, number, line)?;
            Ok(tell_malformed(text, &saying)?)
        }
        Err(fault) => Err(Trouble::from(fault)),
    }
}

/// Appends that a line is malformed, and why.
pub(crate) fn tell_malformed(text: &mut String, saying: &Saying) -> Result<(), AllocError> {
    push_all(text, &["malformed\n# ", saying.sentence.as_str(), "\n"])
}

/// Appends a sentence on a line of its own.
pub(crate) fn write_remark(text: &mut String, sentence: &str) -> Result<(), AllocError> {
    push_all(text, &["# ", sentence, "\n"])
}
