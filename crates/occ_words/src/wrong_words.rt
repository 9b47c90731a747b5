//! Why a word heads no line that can stand at a place.

use crate::line_forms::{
    ANSWERS, COUNTED, Forms, IN_ORDER, MEANINGS, OF_WORKLOADS, OTHERS, form_of, head,
};
use crate::line_walk::{Count, Walk, token_at};
use crate::malformed_lines::Place;
use crate::phrases::{push_all, shown, write_counted};
use crate::sayings::Saying;
use occ_text::separated_parts::Parts;
use occ_text::tokens::is_word;
use occ_text::{operations, steps};
use std::alloc::{AllocError, Global};
use strsim::generic_levenshtein;

/// Appends why the word of a line heads none of the lines that are due.
pub(crate) fn write_word_cause(
    alloc: Global,
    saying: &mut Saying,
    walk: &Walk,
    place: Place<'_>,
) -> Result<(), AllocError> {
    let (due, word) = (walk.due(), token_at(place.line, 0));
    if let Some(words) = text_slip(due, word) {
        return saying.sentence.push_str(words);
    }
    if let Some(words) = kind_slip(walk, word) {
        push_all(&mut saying.sentence, &["`", shown(word), "` "])?;
        return saying.sentence.push_str(words);
    }
    if !walk.comes_later(word) {
        if let Some(count) = walk.count_of(word) {
            return write_count_passed(saying, due, count);
        }
    } else if walk.due_count().is_some() {
        return write_count_missed(saying, walk);
    }
    match missing(due, word) {
        Some(form) => write_missing(&mut saying.sentence, form, place.later),
        None => write_other_word(alloc, &mut saying.sentence, due, word),
    }
}

// What is wrong with a line that no text has.
fn text_slip(due: Forms, word: &[u8]) -> Option<&'static str> {
    if word.starts_with(b"#") || word.starts_with(b"//") {
        return Some("a text has no comments: take the line out");
    }
    let is_answer = ANSWERS.iter().any(|answer| is_word(word, *answer));
    if is_answer && due.len() == 2 && form_of(due, b"occ").is_some() {
        return Some(
            "this is what `occ replay` prints, answers and then a book: with `--quiet` it prints the book alone",
        );
    }
    None
}

// What a word is that heads a line of another kind of text.
fn kind_slip(walk: &Walk, word: &[u8]) -> Option<&'static str> {
    let due = walk.due();
    if walk.is_workload {
        let is_step = form_of(steps::forms(), word).is_some();
        if form_of(due, b"txn").is_some() && (is_step || meant(steps::forms(), word).is_some()) {
            return Some(
                "heads no line of a workload: each line is a whole transaction of operations, `txn S OP ..`, as `txn 1 get:t:7 put:t:7:1`; steps are of a schedule",
            );
        }
        if form_of(due, b"begin").is_some() && is_word(word, "steps") {
            return Some("heads the steps of a schedule: in a workload `begin` stands in its place");
        }
        return None;
    }
    let is_first = form_of(due, b"occ").is_some();
    let is_operation = form_of(operations::forms(), word_of(word)).is_some();
    if !is_first && form_of(OF_WORKLOADS, word).is_some() {
        return Some(
            "heads a line of a workload, whose first line is `load 1`: a schedule has a step on a line, as `get 1 t 7`",
        );
    }
    if form_of(due, b"get").is_some() && is_operation {
        return Some(
            "is an operation of a workload, whose first line is `load 1`: a step of a schedule is as `get 1 t 7`",
        );
    }
    None
}

/// The word of an operation.
pub(crate) fn word_of(operation: &[u8]) -> &[u8] {
    Parts::new(operation, b':').take_part().unwrap_or(b"")
}

// Appends that a line is missing of those that a count tells.
fn write_count_missed(saying: &mut Saying, walk: &Walk) -> Result<(), AllocError> {
    saying
        .sentence
        .push_str("a line is missing before this one")?;
    let mut front = ": `";
    for form in walk.due() {
        push_all(&mut saying.sentence, &[front, *form, "`"])?;
        front = " or `";
    }
    write_count_left(saying, walk)
}

/// Appends that a count is too great by what is left of it, where a count tells what is due.
pub(crate) fn write_count_left(saying: &mut Saying, walk: &Walk) -> Result<(), AllocError> {
    let Some((left, count)) = walk.due_count() else {
        return Ok(());
    };
    saying.sentence.push_str("; or ")?;
    write_count(saying, count)?;
    write_counted(
        &mut saying.sentence,
        ", and has to be ",
        count.told.saturating_sub(left),
    )
}

// Appends that a line is one more than a count tells.
fn write_count_passed(saying: &mut Saying, due: Forms, count: Count) -> Result<(), AllocError> {
    write_count(saying, count)?;
    write_due(&mut saying.sentence, &[", and this line is one more"], due)
}

// Appends what a count tells, and in which line.
fn write_count(saying: &mut Saying, count: Count) -> Result<(), AllocError> {
    saying.tell("count_line", count.line)?;
    saying.tell("count", count.told)?;
    let line = &mut saying.sentence;
    for (word, name) in COUNTED {
        if form_of(count.forms, (*word).as_bytes()).is_some() {
            push_all(line, &["the count of ", *name])?;
        }
    }
    write_counted(line, " in line ", count.line)?;
    write_counted(line, " is ", count.told)
}

// The line that is missing before one whose word heads a line elsewhere.
fn missing(due: Forms, word: &[u8]) -> Option<&'static str> {
    let is_step = form_of(steps::forms(), word).is_some();
    let is_other = form_of(OTHERS, word).is_some() || form_of(OF_WORKLOADS, word).is_some();
    if !is_step && !is_other {
        return None;
    }
    match due {
        [form] if !is_word(head(*form), "txn") => Some(*form),
        [first, _] if is_word(head(*first), "occ") => Some(*first),
        [_, begin] if is_word(head(*begin), "begin") => Some(*begin),
        [_, steps, log, _] => Some(if is_step { *steps } else { *log }),
        _ => None,
    }
}

// Appends that a line is missing; or, where it is one of a header that stands behind, that the order is another.
fn write_missing(line: &mut String, form: &str, later: Option<u64>) -> Result<(), AllocError> {
    let is_ordered = form_of(IN_ORDER, head(form)).is_some();
    match later {
        Some(number) if is_ordered => {
            push_all(
                line,
                &[
                    "the lines of a header have one order: before this one stands `",
                    form,
                ],
            )?;
            write_counted(line, "`, which is line ", number)
        }
        _ => push_all(line, &["a line is missing before this one: `", form, "`"]),
    }
}

// Appends that a word heads no line, and what is likely meant or can stand here.
fn write_other_word(
    alloc: Global,
    line: &mut String,
    due: Forms,
    word: &[u8],
) -> Result<(), AllocError> {
    let Some(form) = likely(alloc, due, word)? else {
        return write_due(
            line,
            &["`", shown(word), "` heads no line that can stand here"],
            due,
        );
    };
    push_all(
        line,
        &["`", shown(word), "` is no word of a line here; likely `"],
    )?;
    push_all(line, &[form, "`"])?;
    if word.eq_ignore_ascii_case(b"commit") {
        line.push_str(
            ", and behind it `enter S`, `decide S`, `write S` and `finish S`, or `serial S` in place of these",
        )?;
    }
    Ok(())
}

/// The form that is likely meant by a word that none of some forms has: by its meaning, or by its letters, of which at most two are others.
pub(crate) fn likely(
    alloc: Global,
    forms: Forms,
    word: &[u8],
) -> Result<Option<&'static str>, AllocError> {
    if let Some(form) = meant(forms, word) {
        return Ok(Some(form));
    }
    if word.len() > 16 {
        return Ok(None);
    }
    let mut found = None;
    let mut least: usize = 3;
    for form in forms {
        let apart = generic_levenshtein(alloc, word, head(*form))?;
        if apart < least {
            least = apart;
            found = Some(*form);
        }
    }
    Ok(found)
}

// The form whose word means what a word of other stores does.
fn meant(forms: Forms, word: &[u8]) -> Option<&'static str> {
    for (other, here) in MEANINGS {
        if word.eq_ignore_ascii_case((*other).as_bytes()) {
            return form_of(forms, (*here).as_bytes());
        }
    }
    None
}

/// Appends texts, and the forms of the lines that may stand at a place.
pub(crate) fn write_due(line: &mut String, texts: &[&str], due: Forms) -> Result<(), AllocError> {
    push_all(line, texts)?;
    let mut front = "; here can stand `";
    for form in due {
        push_all(line, &[front, *form, "`"])?;
        front = ", `";
    }
    Ok(())
}
