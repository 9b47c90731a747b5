//! Texts that differ from one at hand in one place, and how their replay or their audit has to end.
use occ_cli::{Trouble, audit_text, replay_text};
use std::alloc::{AllocError, Global};
use std::{fs, io};

/// Tries each line of a file behind a schedule, and prints each that isn't malformed there, and how many there were. A line that begins
/// with `#` and a space says what the next ones are.
pub(crate) fn tell_lines(rt: &HostRuntime, name: &str) -> io::Result<()> {
    let schedule = fs::read_to_string(rt, format!(in rt.alloc(); "{name}.occ")?.as_str())?;
    let answers = fs::read_to_string(rt, format!(in rt.alloc(); "{name}.out")?.as_str())?;
    let lines = fs::read_to_string(rt, format!(in rt.alloc(); "{name}.lines")?.as_str())?;
    let mut tried = 0u64;
    for line in lines.lines().filter(|line| !line.starts_with("# ")) {
        if !is_malformed(rt.alloc(), schedule.as_str(), line, answers.as_bytes())? {
            println!(rt; "{name}: another end: {line}")?;
        }
        tried = tried.saturating_add(1);
    }
    println!(rt; "{name}: {tried} lines tried")
}

/// Replays a schedule with each change of a file, and prints each whose replay ends otherwise, and how many there were.
pub(crate) fn tell_changed_schedule(rt: &HostRuntime, name: &str) -> io::Result<()> {
    let schedule = fs::read_to_string(rt, format!(in rt.alloc(); "{name}.occ")?.as_str())?;
    let changes = fs::read_to_string(rt, format!(in rt.alloc(); "{name}.changes")?.as_str())?;
    let mut tried = 0u64;
    for change in changes.lines() {
        if !replay_ends_as_wanted(rt.alloc(), schedule.as_str(), change)? {
            println!(rt; "{name}: another end: {change}")?;
        }
        tried = tried.saturating_add(1);
    }
    println!(rt; "{name}: {tried} changes tried")
}

/// Audits a book with each change of a file, and prints each whose audit ends otherwise, and how many there were.
pub(crate) fn tell_changes(rt: &HostRuntime, name: &str) -> io::Result<()> {
    let (_folder, file) = name.rsplit_once('/').unwrap_or(("", name));
    let book = fs::read_to_string(rt, format!(in rt.alloc(); "{name}.book")?.as_str())?;
    let changes = fs::read_to_string(
        rt,
        format!(in rt.alloc(); "changes/{file}.changes")?.as_str(),
    )?;
    let mut tried = 0u64;
    for change in changes.lines() {
        if !audit_ends_as_wanted(rt.alloc(), book.as_str(), change)? {
            println!(rt; "{name}: another end: {change}")?;
        }
        tried = tried.saturating_add(1);
    }
    println!(rt; "{name}: {tried} changes tried")
}

/// Whether a line behind a schedule is malformed there, with nothing but these answers of the schedule before it.
fn is_malformed(
    alloc: Global,
    schedule: &str,
    line: &str,
    answers: &[u8],
) -> Result<bool, AllocError> {
    let place = (schedule.lines().count() as u64).saturating_add(1);
    let text = format!(in alloc; "{schedule}{line}\n")?;
    let mut reader = text.as_bytes();
    let mut written = Vec::new(alloc);
    let ended = replay_text(alloc, &mut reader, &mut written, false);
    Ok(ended == Err(Trouble::Malformed(place)) && written.as_slice() == answers)
}

/// A text with one change, and how it has to end. The change is `WANTED: OLD => NEW`, where `|` stands for a line feed: the first OLD in the
/// text becomes NEW. None where the change is of another form, or there is no OLD.
fn changed<'c>(
    alloc: Global,
    text: &str,
    change: &'c str,
) -> Result<Option<(&'c str, String)>, AllocError> {
    let Some((wanted, parts)) = change.split_once(": ") else {
        return Ok(None);
    };
    let Some((old, new)) = parts.split_once(" => ") else {
        return Ok(None);
    };
    let old = old.replace(alloc, "|", "\n")?;
    let new = new.replace(alloc, "|", "\n")?;
    if !text.contains(old.as_str()) {
        return Ok(None);
    }
    let text = text.replacen(alloc, old.as_str(), new.as_str(), 1)?;
    Ok(Some((wanted, text)))
}

/// Whether the replay of a schedule with one change finds that line malformed, and answers nothing.
fn replay_ends_as_wanted(alloc: Global, schedule: &str, change: &str) -> Result<bool, AllocError> {
    let Some((line, text)) = changed(alloc, schedule, change)? else {
        return Ok(false);
    };
    let mut reader = text.as_bytes();
    let mut written = Vec::new(alloc);
    let ended = replay_text(alloc, &mut reader, &mut written, false);
    Ok(match line.parse::<u64>() {
        Ok(line) => ended == Err(Trouble::Malformed(line)) && written.is_empty(),
        Err(_) => false,
    })
}

/// Whether the audit of a book with one change says `yes` or `no` as it has to, or finds that line malformed and says nothing.
fn audit_ends_as_wanted(alloc: Global, book: &str, change: &str) -> Result<bool, AllocError> {
    let Some((wanted, text)) = changed(alloc, book, change)? else {
        return Ok(false);
    };
    let mut reader = text.as_bytes();
    let mut written = Vec::new(alloc);
    let ended = audit_text(alloc, &mut reader, &mut written);
    Ok(match wanted {
        "yes" => ended == Ok(true) && written.as_slice() == "audit yes\n".as_bytes(),
        "no" => ended == Ok(false) && written.as_slice() == "audit no\n".as_bytes(),
        line => match line.parse::<u64>() {
            Ok(line) => ended == Err(Trouble::Malformed(line)) && written.is_empty(),
            Err(_) => false,
        },
    })
}
