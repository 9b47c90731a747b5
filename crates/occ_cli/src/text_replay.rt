//! The replay of a schedule: a text in, a text out.

ghost use Rattle.std.specs.Prelude.{◌≡◌, ◌<◌, ◌^◌, ◌∷◌, [], true, IfOk, IfErr};
ghost use Rattle.std.specs.Io.KnownBytes.{Appends, prepend_known};
ghost use Rattle.occ_model.specs.Log.{Audited};
ghost use Rattle.occ_log.specs.Rows.{log_of};
ghost use Rattle.occ_cli.specs.Answers.{answer_text};
ghost use Rattle.occ_cli.specs.Replaying.{played};
ghost use Rattle.occ_text.specs.Line.{lines_text, HasFailed};
ghost use Rattle.occ_text.specs.Printing.{Pushed, PushedFront, PrintGives};
ghost use Rattle.occ_text.specs.Steps.{step_of};
ghost use Rattle.occ_text.specs.declared.faults.WriteFault.TheVariants as write_faults;
ghost use Rattle.occ_text.specs.declared.trouble.Trouble.TheVariants as troubles;
ghost use Rattle.occ_cli.specs.Schedules.{ReplayGives, AppendsFront, book_at};
ghost use Rattle.occ_cli.specs.Turns.{AnswerGives, TurnGives, TurnsGive, ClosingGives, AuditGives, is_cut_short};

use crate::answers::{Answer, is_starved, write_played};
use crate::replay_steps::Replay;
use occ_audit::audit_rows;
use occ_book::BookView;
use occ_case::OpenCase;
use occ_print::books::{push_line, write_book};
use occ_print::lines::audit_line;
use occ_text::faults::{WriteFault, read_at_line};
use occ_text::headers::{Limits, read_header};
use occ_text::input::{Input, Next};
use occ_text::output::Output;
use occ_text::step_reading::read_step;
use occ_text::steps::Step;
use occ_text::trouble::Trouble;
use occ_text::versions::Version;
use occ_types::{Fault, Schema};
use std::alloc::Allocator;
use std::io::{Read, Write};

/// Replays a schedule: reads its header, does each step and answers it by a line, and then writes the book of what came of it and
/// that its audit holds. Without answers where `quiet` is true.
///
/// Refused with
/// - `Malformed` at the first line that is none of the grammar, and at line 2^64 - 1 where that many lines were taken: the answers to all
///   whole lines before were written then, and nothing else;
/// - `Read` where the reader fails: the answers to all whole lines that it gave were written then, and nothing else;
/// - `Write` where the writer fails, and `Memory` where memory was refused: a beginning of the text was written then.
///
/// Its memory is bounded by what the store holds, and not by the text. At `Ok` the reader is at its end; at an error it may have given
/// more than the lines that were taken.
pub fn replay_text<R: Read, W: Write, A: Allocator + Copy>(
    alloc: A,
    reader: &mut R,
    writer: &mut W,
    quiet: bool,
) -> Result<(), Trouble>
    ensures { ReplayGives quiet (R.remaining reader.old) (Appends (W.contents writer.old) (W.contents writer.new))
        (AppendsFront (W.contents writer.old) (W.contents writer.new)) result (R.remaining reader.new) }
{
    let mut input = Input::new(alloc)?;
    let mut output = Output::new(alloc);
    let outcome = replay_lines(alloc, &mut input, reader, &mut output, writer, quiet);
    if is_cut_short(&outcome) {
        return outcome;
    }
    output.flush(writer)?;
    outcome
}

// Whether no more is to be written: the writer failed, or memory was refused.
fn is_cut_short(outcome: &Result<(), Trouble>) -> bool
    ensures { result ≡ is_cut_short outcome.now }
{
    matches!(outcome, Err(Trouble::Write | Trouble::Memory))
}

// The replay, whose last bytes may still be held back.
fn replay_lines<R: Read, W: Write, A: Allocator + Copy>(
    alloc: A,
    input: &mut Input<A>,
    reader: &mut R,
    output: &mut Output<A>,
    writer: &mut W,
    quiet: bool,
) -> Result<(), Trouble>
    requires { input.old.number ≡ 0 }
    ensures gives { ReplayGives quiet (prepend_known input.old.unread (R.remaining reader.old))
        (Pushed (W.contents writer.old) (W.contents writer.new) output.old.held output.new.held)
        (PushedFront (W.contents writer.old) (W.contents writer.new) output.old.held output.new.held) result
        (prepend_known input.new.unread (R.remaining reader.new)) }
    ensures unread { IfErr result (λ trouble. trouble ≡ troubles.Read → HasFailed input.new) }
    ensures unwritten { IfErr result (λ trouble. trouble ≡ troubles.Write → output.new.failed ≡ true) }
{
    let header = read_header(alloc, input, reader)?;
    let Ok(mut replay) = Replay::open(alloc, header.schema, header.limits) else {
        return Err(Trouble::Memory);
    };
    take_turns(
        alloc,
        input,
        reader,
        output,
        writer,
        &mut replay,
        header.limits.version,
        quiet,
    )?;
    close(alloc, output, writer, &replay, header.limits)?;
    Ok(())
}

// Does and answers all steps that stand next in a text of this version, up to its end.
fn take_turns<R: Read, W: Write, A: Allocator + Copy>(
    alloc: A,
    input: &mut Input<A>,
    reader: &mut R,
    output: &mut Output<A>,
    writer: &mut W,
    replay: &mut Replay<A>,
    version: Version,
    quiet: bool,
) -> Result<(), Trouble>
    ensures gives { TurnsGive quiet version replay.old.world.settings.schema (Pushed (W.contents writer.old) (W.contents writer.new) output.old.held output.new.held)
        (PushedFront (W.contents writer.old) (W.contents writer.new) output.old.held output.new.held) result
        (prepend_known input.old.unread (R.remaining reader.old)) (prepend_known input.new.unread (R.remaining reader.new))
        input.old.number replay.old replay.new }
    ensures unread { IfErr result (λ trouble. trouble ≡ troubles.Read → HasFailed input.new) }
    ensures unwritten { IfErr result (λ trouble. trouble ≡ troubles.Write → output.new.failed ≡ true) }
{
    let mut text = String::new(alloc);
    while take_turn(
        alloc, input, reader, output, writer, &mut text, replay, version, quiet,
    )? {}
    Ok(())
}

// Takes the next line, does its step and answers it by a line, which it makes in `text`. False where no line is left.
fn take_turn<R: Read, W: Write, A: Allocator + Copy>(
    alloc: A,
    input: &mut Input<A>,
    reader: &mut R,
    output: &mut Output<A>,
    writer: &mut W,
    text: &mut String<A>,
    replay: &mut Replay<A>,
    version: Version,
    quiet: bool,
) -> Result<bool, Trouble>
    ensures gives { TurnGives quiet version replay.old.world.settings.schema (Pushed (W.contents writer.old) (W.contents writer.new) output.old.held output.new.held)
        (PushedFront (W.contents writer.old) (W.contents writer.new) output.old.held output.new.held) result
        (prepend_known input.old.unread (R.remaining reader.old)) (prepend_known input.new.unread (R.remaining reader.new))
        input.old.number input.new.number replay.old replay.new }
    ensures counted { IfOk result (λ more. more ≡ true → input.new.number < 2 ^ 64) }
    ensures unread { IfErr result (λ trouble. trouble ≡ troubles.Read → HasFailed input.new) }
    ensures unwritten { IfErr result (λ trouble. trouble ≡ troubles.Write → output.new.failed ≡ true) }
{
    match input.next_line(reader)? {
        Next::End => return Ok(false),
        Next::Line => {}
    }
    let step = read_at_line(read_step(alloc, version, input.line()), input.number())?;
    answer_step(output, writer, text, replay, step, quiet)?;
    Ok(true)
}

// Does a step, and answers it by a line unless `quiet` is true.
fn answer_step<W: Write, A: Allocator + Copy>(
    output: &mut Output<A>,
    writer: &mut W,
    text: &mut String<A>,
    replay: &mut Replay<A>,
    step: Step<'_, A>,
    quiet: bool,
) -> Result<(), WriteFault>
    ensures gives { AnswerGives quiet replay.old.world.settings.schema (Pushed (W.contents writer.old) (W.contents writer.new) output.old.held output.new.held)
        (PushedFront (W.contents writer.old) (W.contents writer.new) output.old.held output.new.held) result
        (step_of step.entry) replay.old replay.new }
    ensures cause { IfErr result (λ fault. fault ≡ write_faults.Write → output.new.failed ≡ true) }
{
    let done = replay.play(step);
    if is_starved(&done) {
        return Err(WriteFault::Memory);
    }
    if quiet {
        return Ok(());
    }
    say(output, writer, text, replay.core().schema(), &done)
}

// Writes the line of what came of a step, which it makes in `text`.
fn say<W: Write, A: Allocator + Copy>(
    output: &mut Output<A>,
    writer: &mut W,
    text: &mut String<A>,
    schema: &Schema<A>,
    done: &Result<Answer<A>, Fault>,
) -> Result<(), WriteFault>
    ensures gives { PrintGives result (W.contents writer.old) (W.contents writer.new) output.old.held output.new.held (lines_text (answer_text schema.now (played done.now) ∷ [])) }
    ensures cause { IfErr result (λ fault. fault ≡ write_faults.Write → output.new.failed ≡ true) }
{
    text.clear();
    write_played(text, schema, done)?;
    push_line(output, writer, text)
}

// Writes the book and its audit.
fn close<W: Write, A: Allocator + Copy>(
    alloc: A,
    output: &mut Output<A>,
    writer: &mut W,
    replay: &Replay<A>,
    limits: Limits,
) -> Result<(), WriteFault>
    ensures gives { ClosingGives (Pushed (W.contents writer.old) (W.contents writer.new) output.old.held output.new.held)
        (PushedFront (W.contents writer.old) (W.contents writer.new) output.old.held output.new.held) result
        (book_at (record { version = limits.version; sessions = limits.sessions; queue = limits.queue; keep = limits.keep; tables = replay.now.world.settings.schema }) replay.now.world) }
    ensures cause { IfErr result (λ fault. fault ≡ write_faults.Write → output.new.failed ≡ true) }
{
    let core = replay.core();
    core.law();
    let book = core.view();
    write_book(alloc, output, writer, limits, core.schema(), &book)?;
    write_audit(alloc, output, writer, &book)
}

// Writes whether the audit of a book holds.
fn write_audit<W: Write, A: Allocator + Copy>(
    alloc: A,
    output: &mut Output<A>,
    writer: &mut W,
    book: &BookView<'_, A, OpenCase<A>>,
) -> Result<(), WriteFault>
    ensures gives { AuditGives (Pushed (W.contents writer.old) (W.contents writer.new) output.old.held output.new.held)
        (PushedFront (W.contents writer.old) (W.contents writer.new) output.old.held output.new.held) result
        (Audited book.now.base.now.base book.now.marks.now.marks book.now.table.now.state (log_of book.now.log.now)) }
    ensures cause { IfErr result (λ fault. fault ≡ write_faults.Write → output.new.failed ≡ true) }
{
    let Ok(holds) = audit_rows(alloc, book) else {
        return Err(WriteFault::Memory);
    };
    output.push(writer, audit_line(holds).as_bytes())
}
