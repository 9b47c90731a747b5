//! Texts that are spoiled at one place each, and the first line that is told of each.

use occ_words::explaining::explain_text;
use occ_words::telling::{Style, Told};
use std::alloc::{AllocError, Global};
use std::{fs, io, str};

/// Texts, each with its slips in the file `NAME.slips`.
const TEXTS: [(&str, &str); 5] = [
    ("words/schedule", "words/schedule.occ"),
    ("words/faults", "words/faults.occ"),
    ("words/many", "words/many.occ"),
    ("words/backed", "words/backed.occ"),
    ("words/book", "words/book.book"),
];

/// Tries the slips of each text, and prints what is told of a schedule, and of a book as an object.
pub(crate) fn tell_explanations(rt: &HostRuntime) -> io::Result<()> {
    for (name, file) in TEXTS {
        tell_slips(rt, name, file)?;
    }
    tell_schedule(rt)?;
    tell_objects(rt)
}

/// Tells of a wrong read as an object.
fn tell_objects(rt: &HostRuntime) -> io::Result<()> {
    let alloc = rt.alloc();
    let text = fs::read_to_string(rt, "words/book.book")?;
    let spoiled = text.replacen(alloc, "one t 7 1", "one t 7 none", 1)?;
    let written = explained(alloc, spoiled.as_str(), Style::Json)?;
    print!(rt; "{written}")
}

/// Tells of a schedule all that is told of it.
fn tell_schedule(rt: &HostRuntime) -> io::Result<()> {
    let text = fs::read_to_string(rt, "words/backed.occ")?;
    let written = explained(rt.alloc(), text.as_str(), Style::Text)?;
    print!(rt; "{written}")
}

/// What is told of a text.
fn explained(alloc: Global, text: &str, style: Style) -> Result<String, AllocError> {
    let mut told = Told::new(alloc, "t", style)?;
    let mut written = Vec::new(alloc);
    let _ended = explain_text(alloc, text.as_bytes(), &mut told, &mut written);
    String::from_str(alloc, str::from_utf8(written.as_slice()).unwrap_or("?"))
}

/// Tries each slip of a text, and tells of each with another first line, and how many there were.
fn tell_slips(rt: &HostRuntime, name: &str, file: &str) -> io::Result<()> {
    let text = fs::read_to_string(rt, file)?;
    let slips = fs::read_to_string(rt, format!(in rt.alloc(); "{name}.slips")?.as_str())?;
    let mut tried = 0u64;
    for slip in slips.lines() {
        let line = first_line(rt.alloc(), text.as_str(), slip)?;
        if !is_wanted(line.as_str(), slip) {
            println!(rt; "{name}: {slip}")?;
            println!(rt; "    {line}")?;
        }
        tried = tried.saturating_add(1);
    }
    println!(rt; "{name}: {tried} slips tried")
}

/// The first line that is told of a text with a slip, `OLD => NEW ==> WANTED`, where `|` stands for a line feed, `\\t` for a tab and `\\r` for a carriage return.
fn first_line(alloc: Global, text: &str, slip: &str) -> Result<String, AllocError> {
    let Some((change, _wanted)) = slip.split_once(" ==> ") else {
        return String::from_str(alloc, "no slip");
    };
    let Some((old, new)) = change.split_once(" => ") else {
        return String::from_str(alloc, "no slip");
    };
    let old = bytes_of(alloc, old)?;
    let new = bytes_of(alloc, new)?;
    let spoiled = text.replacen(alloc, old.as_str(), new.as_str(), 1)?;
    let written = explained(alloc, spoiled.as_str(), Style::Text)?;
    // notes stand behind a yes
    let line = written.lines().find(|line| *line != "t: audit yes");
    String::from_str(alloc, line.unwrap_or("nothing"))
}

/// What stands in a text for a part of a slip.
fn bytes_of(alloc: Global, part: &str) -> Result<String, AllocError> {
    let fed = part.replace(alloc, "|", "\n")?;
    let tabbed = fed.replace(alloc, "\\t", "\t")?;
    tabbed.replace(alloc, "\\r", "\r")
}

/// Whether a line is of the place and has the words that are wanted. A place without a line is `-`.
fn is_wanted(line: &str, slip: &str) -> bool {
    let Some((_change, wanted)) = slip.split_once(" ==> ") else {
        return false;
    };
    let Some((place, words)) = wanted.split_once(" ") else {
        return false;
    };
    if !line.contains(words) {
        return false;
    }
    match line.strip_prefix("t:") {
        None => false,
        Some(rest) if place == "-" => rest.starts_with(" "),
        Some(rest) => match rest.split_once(": ") {
            Some((number, _)) => number == place,
            None => false,
        },
    }
}
