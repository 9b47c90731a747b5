//! Malformed lines in words: what is wrong with one, and what can stand there.

use crate::line_forms::{form_of, head};
use crate::line_walk::{Walk, token_at};
use crate::phrases::{push_all, shown};
use crate::sayings::{Saying, Subject};
use crate::slips::line_slip;
use crate::wrong_tokens::write_field_cause;
use crate::wrong_words::{write_count_left, write_due, write_word_cause};
use occ_text::headers::Limits;
use occ_text::separated_parts::Parts;
use std::alloc::{AllocError, Global};

/// How many lines are looked through for one that is missing.
const NEAR: u64 = 40;

/// A line that can't stand where it stands.
#[derive(Clone, Copy)]
pub(crate) struct Place<'t> {
    /// Its bytes.
    pub(crate) line: &'t [u8],
    /// Whether a line feed ends it.
    fed: bool,
    /// The number of the line behind it that is due in its place, where one is near.
    pub(crate) later: Option<u64>,
}

/// Says why the line of a number can't stand where it stands. All lines before it are well-formed.
pub fn say_malformed(alloc: Global, text: &[u8], number: u64) -> Result<Saying, AllocError> {
    let mut walk = Walk::new(alloc)?;
    let mut lines = Parts::new(text, b'\n');
    for _ in 1..number {
        match lines.take_part() {
            Some(line) => walk.take(line)?,
            None => break,
        }
    }
    let line = lines.take_part().unwrap_or(b"");
    // what stands behind the last line feed is no line where it is empty
    let next = lines.take_part();
    let place = Place {
        line,
        fed: next.is_some(),
        later: number_of_due(&walk, number, next, &mut lines),
    };
    say_line(alloc, &walk, number, place)
}

// The number of the first line behind one that is due in its place, if it is near.
fn number_of_due(
    walk: &Walk,
    number: u64,
    next: Option<&[u8]>,
    lines: &mut Parts<'_>,
) -> Option<u64> {
    let due = head(*walk.due().first()?);
    let mut line = next;
    for far in 1..NEAR {
        if token_at(line?, 0) == due {
            return Some(number.saturating_add(far));
        }
        line = lines.take_part();
    }
    None
}

/// Says why the line of a number is no step of a text with these limits.
pub fn say_malformed_step(
    alloc: Global,
    limits: Limits,
    number: u64,
    line: &[u8],
) -> Result<Saying, AllocError> {
    let walk = Walk::in_steps(alloc, limits.version, limits.sessions as u64)?;
    let place = Place {
        line,
        fed: true,
        later: None,
    };
    say_line(alloc, &walk, number, place)
}

fn say_line(
    alloc: Global,
    walk: &Walk,
    number: u64,
    place: Place<'_>,
) -> Result<Saying, AllocError> {
    let mut saying = Saying::new(alloc, Subject::Malformed, Some(number));
    write_cause(alloc, &mut saying, walk, place)?;
    Ok(saying)
}

// Appends what is wrong with a line.
fn write_cause(
    alloc: Global,
    saying: &mut Saying,
    walk: &Walk,
    place: Place<'_>,
) -> Result<(), AllocError> {
    let (due, line) = (walk.due(), place.line);
    let word = token_at(line, 0);
    if line.is_empty() && !place.fed {
        write_due(
            &mut saying.sentence,
            &["the text ends here, before it is whole"],
            due,
        )?;
        return write_count_left(saying, walk);
    }
    if let Some(words) = line_slip(line, place.fed) {
        return saying.sentence.push_str(words);
    }
    if due.is_empty() {
        return saying
            .sentence
            .push_str("nothing stands behind the audit line of a book");
    }
    match form_of(due, word) {
        Some(form) if head(form) == word => write_field_cause(alloc, saying, walk, form, line),
        Some(form) => push_all(
            &mut saying.sentence,
            &[
                "words are of small letters; write `",
                shown(head(form)),
                "`",
            ],
        ),
        None => write_word_cause(alloc, saying, walk, place),
    }
}
