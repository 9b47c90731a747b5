//! Which token of a line isn't what its form wants, and what else doesn't fit.

use crate::line_forms::{UNFIT, field_of, form_of, head};
use crate::line_walk::{Walk, token_at};
use crate::phrases::{push_all, shown, write_counted};
use crate::sayings::Saying;
use crate::slips::token_slip;
use crate::token_readers::reads;
use crate::wrong_words::{likely, word_of};
use occ_text::separated_parts::Parts;
use occ_text::tokens::{is_word, number};
use occ_text::versions::Version;
use occ_text::{operations, steps};
use std::alloc::{AllocError, Global};

// The letters that a form has for the token at an index, none where it has no such token.
fn letters_at(form: &str, index: usize) -> &[u8] {
    let mut parts = Parts::new(form.as_bytes(), b' ');
    let mut letters: &[u8] = b"";
    for _ in 0..index.saturating_add(1) {
        let next = parts.take_part().unwrap_or(b"");
        if is_word(next, "..") {
            return letters;
        }
        letters = next;
    }
    letters
}

// The index of the first token of a line that isn't what its form wants there, or that is missing.
fn first_wrong(
    alloc: Global,
    version: Version,
    form: &str,
    line: &[u8],
) -> Result<Option<usize>, AllocError> {
    for index in 1..line.len().saturating_add(1) {
        let token = token_at(line, index);
        let due = token_at(form.as_bytes(), index);
        if token.is_empty() && (due.is_empty() || is_word(due, "..")) {
            return Ok(None);
        }
        let letters = letters_at(form, index);
        let (field, _) = field_of(letters);
        if letters.is_empty() || !reads(alloc, version, field, token)? {
            return Ok(Some(index));
        }
    }
    Ok(None)
}

/// Appends which token of a line isn't what its form wants, or what else doesn't fit.
pub(crate) fn write_field_cause(
    alloc: Global,
    saying: &mut Saying,
    walk: &Walk,
    form: &str,
    line: &[u8],
) -> Result<(), AllocError> {
    let Some(index) = first_wrong(alloc, walk.version, form, line)? else {
        return write_unfit(&mut saying.sentence, walk.sessions, form, line);
    };
    saying.tell("token", index as u64)?;
    if is_word(form.as_bytes(), "begin") {
        return saying.sentence.push_str(
            "in a workload `begin` stands alone, and behind it whole transactions, `txn S OP ..`",
        );
    }
    let letters = letters_at(form, index);
    let token = token_at(line, index);
    if is_word(letters, "OP") {
        if let Some(operation) = form_of(operations::forms(), word_of(token)) {
            return write_operation_cause(
                alloc,
                &mut saying.sentence,
                walk.version,
                operation,
                token,
            );
        }
    }
    write_wrong(&mut saying.sentence, walk, letters, token)?;
    if is_word(letters, "OP") {
        write_likely_operation(alloc, &mut saying.sentence, token)?;
    }
    write_swapped(alloc, &mut saying.sentence, walk.version, form, line, index)?;
    push_all(&mut saying.sentence, &["; the form is `", form, "`"])
}

// Appends the operation that is likely meant by a token, where there is one.
fn write_likely_operation(
    alloc: Global,
    line: &mut String,
    token: &[u8],
) -> Result<(), AllocError> {
    match likely(alloc, operations::forms(), word_of(token))? {
        Some(form) => push_all(
            line,
            &["; likely `", form, "`, with : in place of each space"],
        ),
        None => Ok(()),
    }
}

// Appends which part of an operation isn't what its form wants, or that there are too many or too few.
fn write_operation_cause(
    alloc: Global,
    line: &mut String,
    version: Version,
    form: &str,
    token: &[u8],
) -> Result<(), AllocError> {
    let mut parts = Vec::new(alloc);
    parts.extend_from_slice(token)?;
    for byte in parts.iter_mut() {
        if *byte == b':' {
            *byte = b' ';
        }
    }
    push_all(line, &["in `", shown(token), "` "])?;
    match first_wrong(alloc, version, form, parts.as_slice())? {
        Some(index) => {
            let part = token_at(parts.as_slice(), index);
            write_wrong_part(line, version, letters_at(form, index), part)?;
            write_swapped(alloc, line, version, form, parts.as_slice(), index)?;
        }
        None => line.push_str("a part is none of its form")?,
    }
    push_all(
        line,
        &["; its form is `", form, "`, with : in place of each space"],
    )
}

// Appends what is wrong with a part of an operation, which is empty where it is missing, as are the letters where it is one too many.
fn write_wrong_part(
    line: &mut String,
    version: Version,
    letters: &[u8],
    part: &[u8],
) -> Result<(), AllocError> {
    let (_, meaning) = field_of(letters);
    if part.is_empty() {
        return push_all(line, &["a part is missing: ", meaning]);
    }
    if letters.is_empty() {
        return push_all(
            line,
            &[
                "`",
                shown(part),
                "` is one part too many; a colon within a text is %3a",
            ],
        );
    }
    push_all(line, &["`", shown(part), "` is not "])?;
    line.push_str(meaning)?;
    write_slip(line, version, letters, part)
}

// Appends what is wrong with a token, which is empty where it is missing, as are the letters where it is one too many.
fn write_wrong(
    line: &mut String,
    walk: &Walk,
    letters: &[u8],
    token: &[u8],
) -> Result<(), AllocError> {
    if letters.is_empty() {
        return push_all(
            line,
            &[
                "`",
                shown(token),
                "` is one token too many; a space within a text is %20",
            ],
        );
    }
    if token.is_empty() {
        line.push_str("the line ends too early: behind it has to stand ")?;
    } else {
        push_all(line, &["`", shown(token), "` is not "])?;
    }
    let (_, meaning) = field_of(letters);
    if is_word(letters, "S") && walk.sessions > 0 {
        write_counted(line, "a session of the header, 1 to ", walk.sessions)?;
    } else {
        line.push_str(meaning)?;
    }
    write_slip(line, walk.version, letters, token)
}

// Appends the usual slip of a token, where there is one.
fn write_slip(
    line: &mut String,
    version: Version,
    letters: &[u8],
    token: &[u8],
) -> Result<(), AllocError> {
    let (field, _) = field_of(letters);
    match token_slip(version, field, token) {
        Some(slip) => push_all(line, &[": ", slip]),
        None => Ok(()),
    }
}

// Appends that the wrong token of a line has changed places with the one behind or before it, where the line is of its form so.
fn write_swapped(
    alloc: Global,
    line: &mut String,
    version: Version,
    form: &str,
    wrong: &[u8],
    index: usize,
) -> Result<(), AllocError> {
    for first in [index, index.saturating_sub(1)] {
        if first > 0 && fits_swapped(alloc, version, form, wrong, first)? {
            let second = token_at(wrong, first.saturating_add(1));
            push_all(
                line,
                &["; likely `", shown(token_at(wrong, first)), "` and `"],
            )?;
            return push_all(line, &[shown(second), "` have changed places"]);
        }
    }
    Ok(())
}

// Whether a line is of a form with the tokens at an index and behind it swapped. The numbers of a row are too many to tell.
fn fits_swapped(
    alloc: Global,
    version: Version,
    form: &str,
    line: &[u8],
    first: usize,
) -> Result<bool, AllocError> {
    let second = first.saturating_add(1);
    if token_at(line, second).is_empty() || is_word(head(form), "row") {
        return Ok(false);
    }
    let mut swapped = Vec::new(alloc);
    swapped.extend_from_slice(token_at(line, 0))?;
    for index in 1..line.len() {
        let from = if index == first {
            second
        } else if index == second {
            first
        } else {
            index
        };
        let token = token_at(line, from);
        if token.is_empty() {
            break;
        }
        swapped.push(b' ')?;
        swapped.extend_from_slice(token)?;
    }
    Ok(first_wrong(alloc, version, form, swapped.as_slice())?.is_none())
}

// Appends what else has to hold for a line of a form, each token of which is what it has to be.
fn write_unfit(
    line: &mut String,
    sessions: u64,
    form: &str,
    wrong: &[u8],
) -> Result<(), AllocError> {
    // a step of another session is refused, and no malformed line
    let is_step = form_of(steps::forms(), head(form)).is_some();
    for index in 1..3 {
        let session = token_at(wrong, index);
        let named = number(session, u64::MAX).unwrap_or(0);
        let is_none = named == 0 || named > sessions;
        if !is_step && is_none && is_word(letters_at(form, index), "S") {
            push_all(
                line,
                &["session ", shown(session), " is none of the header"],
            )?;
            return write_counted(line, ", whose sessions are 1 to ", sessions);
        }
    }
    for (word, words) in UNFIT {
        if is_word(head(form), *word) {
            return line.push_str(*words);
        }
    }
    line.push_str("the line doesn't fit what stands before it")
}
