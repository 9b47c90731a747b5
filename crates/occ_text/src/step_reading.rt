//! The reader of the lines of steps.

ghost use Rattle.std.specs.Prelude.{◌≡◌, Some, IfOk, codes, option_map};
ghost use Rattle.std.specs.Str.{bytes_eq};
ghost use Rattle.occ_text.specs.Escapes.{Gives};
ghost use Rattle.occ_text.specs.StepReading.{other_forms, next_step, alone_of_tokens, step_of_tokens, step_of_line};
ghost use Rattle.occ_text.specs.Fields.{GivesNext, readers, by_word};
ghost use Rattle.occ_text.specs.Steps as plain;
ghost use Rattle.occ_text.specs.Steps.{step_of, step_text, StepFits};

use crate::cursors::{at_end, next_token};
use crate::separated_parts::Parts;
use crate::step_forms::{
    act_step, alone_step, delete_step, forge_step, get_step, put_step, raw_step, scan_step,
};
use crate::step_words::act_of;
use crate::steps::Step;
use crate::tokens::{Unread, begins_with, is_word};
use crate::versions::Version;
use std::alloc::Allocator;

/// A step of a form of its own, behind its word.
#[tactic(auto, unfolding(crate::specs::Fields::read_form))]
fn form_step<'a, A: Allocator + Copy>(
    alloc: A,
    version: Version,
    word: &[u8],
    parts: &mut Parts<'a>,
) -> Result<Step<'a, A>, Unread>
    ensures { GivesNext step_of result (by_word (readers (other_forms version)) (word.now, parts.old)) parts.new }
{
    if is_word(word, "get") {
        get_step(alloc, version, parts)
    } else if is_word(word, "put") {
        put_step(alloc, version, parts)
    } else if is_word(word, "scan") {
        scan_step(alloc, version, parts)
    } else if is_word(word, "delete") {
        delete_step(alloc, version, parts)
    } else if is_word(word, "forge") {
        forge_step(parts)
    } else if is_word(word, "rawread") {
        raw_step(alloc, version, parts)
    } else if is_word(word, "show") {
        Ok(Step::Show)
    } else if is_word(word, "checkpoint") {
        Ok(Step::Checkpoint)
    } else {
        Err(Unread::Malformed)
    }
}

/// An act with its session, or a step of another form, behind its word.
fn next_step<'a, A: Allocator + Copy>(
    alloc: A,
    version: Version,
    word: &[u8],
    parts: &mut Parts<'a>,
) -> Result<Step<'a, A>, Unread>
    ensures { GivesNext step_of result (next_step version (word.now, parts.old)) parts.new }
{
    match act_of(word) {
        Some(act) => act_step(act, parts),
        None => form_step(alloc, version, word, parts),
    }
}

/// The run alone of some tokens.
#[tactic(auto, unfolding(crate::specs::StepReading::alone_of_tokens))]
fn alone_of_parts<'a, A: Allocator + Copy>(
    alloc: A,
    version: Version,
    mut parts: Parts<'a>,
) -> Result<Step<'a, A>, Unread>
    ensures { Gives step_of result (alone_of_tokens version parts.entry) }
{
    let Some(session) = parts.take_part() else {
        return Err(Unread::Malformed);
    };
    alone_step(alloc, version, session, parts)
}

/// Whether a word is that of a run alone. Most aren't, and are told by their first byte.
fn is_alone(word: &[u8]) -> bool
    ensures { result ≡ bytes_eq word.now (codes "alone") }
{
    begins_with(word, b'a') && is_word(word, "alone")
}

/// The step of some tokens. A run alone has any number of them.
#[tactic(auto, unfolding(crate::specs::StepReading::step_of_tokens))]
fn step_of_parts<'a, A: Allocator + Copy>(
    alloc: A,
    version: Version,
    mut parts: Parts<'a>,
) -> Result<Step<'a, A>, Unread>
    ensures { Gives step_of result (step_of_tokens version parts.entry) }
{
    let word = next_token(&mut parts).ok_or(Unread::Malformed)?;
    if is_alone(word) {
        return alone_of_parts(alloc, version, parts);
    }
    let step = next_step(alloc, version, word, &mut parts)?;
    at_end(&mut parts).ok_or(Unread::Malformed)?;
    Ok(step)
}

fn step_value<'a, A: Allocator + Copy>(
    alloc: A,
    version: Version,
    line: &'a [u8],
) -> Result<Step<'a, A>, Unread>
    ensures { Gives step_of result (step_of_line version line.now) }
{
    // what is read of parts that are no tokens is nothing, so they need no test before
    step_of_parts(alloc, version, Parts::new(line, b' '))
}

/// A step of a text of this version, from its line without the line feed. `Malformed` where the line is none; `Memory` where it was refused for a key,
/// a row or a list of operations.
pub fn read_step<'a, A: Allocator + Copy>(
    alloc: A,
    version: Version,
    line: &'a [u8],
) -> Result<Step<'a, A>, Unread>
    ensures found { IfOk result (λ step. (line.now ≡ step_text (step_of step)) × StepFits version (step_of step)) }
    ensures again { (step : plain.Step) → StepFits version step → line.now ≡ step_text step → Gives step_of result (Some step) }
{
    step_value(alloc, version, line)
}
