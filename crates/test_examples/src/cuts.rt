//! Replays of schedules, and audits of books, that are cut behind any byte.

use occ_cli::{Trouble, audit_text, replay_text};
use std::alloc::{AllocError, Global};
use std::{fs, io};

/// Schedules that are cut, each in a file `NAME.occ` with its text in `NAME.out`.
const CUT: [&str; 3] = [
    "examples/entry-order",
    "schedules/refused-alone",
    "examples/whole-tables",
];

/// Cuts each schedule behind each of its bytes, and prints how many of these replays ended as they have to: with a book that is judged
/// right behind a line of steps, and else with the line that is torn and the answers to all whole ones before.
pub(crate) fn tell_cuts(rt: &HostRuntime) -> io::Result<()> {
    for name in CUT {
        let schedule = fs::read_to_string(rt, format!(in rt.alloc(); "{name}.occ")?.as_str())?;
        let wanted = fs::read_to_string(rt, format!(in rt.alloc(); "{name}.out")?.as_str())?;
        let (schedule, wanted) = (schedule.as_str(), wanted.as_str());
        let (mut right, mut cuts) = (0u64, 0u64);
        for len in 0..schedule.len() {
            let front = schedule.get(..len).unwrap_or("");
            right = right.saturating_add(u64::from(ends_right(rt.alloc(), front, wanted)?));
            cuts = cuts.saturating_add(1);
        }
        println!(rt; "{name}: {right} of {cuts} cuts end right")?;
    }
    Ok(())
}

/// Cuts a book behind each of its bytes, and prints how many of these audits found the line malformed that is torn or lacking.
pub(crate) fn tell_cut_book(rt: &HostRuntime, name: &str) -> io::Result<()> {
    let book = fs::read_to_string(rt, format!(in rt.alloc(); "{name}.book")?.as_str())?;
    let (mut right, mut cuts) = (0u64, 0u64);
    for len in 0..book.len() {
        let front = book.get(..len).unwrap_or("");
        right = right.saturating_add(u64::from(is_torn(rt.alloc(), front)));
        cuts = cuts.saturating_add(1);
    }
    println!(rt; "{name}: {right} of {cuts} cuts of the book end right")
}

/// Whether the audit of the beginning of a book finds the line behind its whole ones malformed, and writes nothing.
fn is_torn(alloc: Global, front: &str) -> bool {
    let mut reader = front.as_bytes();
    let mut written = Vec::new(alloc);
    let ended = audit_text(alloc, &mut reader, &mut written);
    let line = (lines_in(front) as u64).saturating_add(1);
    ended == Err(Trouble::Malformed(line)) && written.is_empty()
}

/// Whether the replay of the beginning of a schedule ends as it has to, where the whole schedule writes this.
fn ends_right(alloc: Global, front: &str, wanted: &str) -> Result<bool, AllocError> {
    let lines = lines_in(front);
    let header = match front.split_once("\nsteps\n") {
        Some((header, _)) => lines_in(header).saturating_add(2),
        None => lines,
    };
    let answers = beginning(wanted, lines.saturating_sub(header));
    if front.contains("\nsteps\n") && front.ends_with("\n") {
        return ends_with_book(alloc, front, answers.as_bytes());
    }
    let torn = Err(Trouble::Malformed((lines as u64).saturating_add(1)));
    Ok(gives(alloc, front, torn, answers.as_bytes()))
}

/// Whether the replay of a schedule answers this, and then prints its book, which is judged right.
fn ends_with_book(alloc: Global, schedule: &str, answers: &[u8]) -> Result<bool, AllocError> {
    let mut reader = schedule.as_bytes();
    let mut book = Vec::new(alloc);
    if replay_text(alloc, &mut reader, &mut book, true).is_err() {
        return Ok(false);
    }
    let mut wanted = Vec::from_slice(alloc, answers)?;
    wanted.extend_from_slice(book.as_slice())?;
    let header = match schedule.split_once("steps\n") {
        Some((header, _)) => header,
        None => schedule,
    };
    let front = format!(in alloc; "{header}log ")?;
    let book = book.as_slice();
    let is_right = book.starts_with(front.as_bytes()) && book.ends_with(b"\naudit yes\n");
    Ok(is_right && gives(alloc, schedule, Ok(()), wanted.as_slice()))
}

/// Whether the replay of a text ends so, and has written this.
fn gives(alloc: Global, text: &str, outcome: Result<(), Trouble>, wanted: &[u8]) -> bool {
    let mut reader = text.as_bytes();
    let mut written = Vec::new(alloc);
    let ended = replay_text(alloc, &mut reader, &mut written, false);
    ended == outcome && written.as_slice() == wanted
}

/// How many lines end in a text.
fn lines_in(text: &str) -> usize {
    text.bytes().filter(|byte| *byte == b'\n').count()
}

/// The first lines of a text.
fn beginning(text: &str, lines: usize) -> &str {
    let mut rest = text;
    for _ in 0..lines {
        rest = match rest.split_once("\n") {
            Some((_line, rest)) => rest,
            None => "",
        };
    }
    text.strip_suffix(rest).unwrap_or(text)
}
