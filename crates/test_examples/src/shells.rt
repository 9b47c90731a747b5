//! Sessions of the shell.

use occ_cli::replay_text;
use occ_words::shells::shell_text;
use std::alloc::{AllocError, Global};
use std::{fs, io};

/// Sessions, each in a file `NAME.shell` with what is told in `NAME.told`.
const SESSIONS: [&str; 3] = ["words/slips", "words/words", "words/cut"];

/// Schedules that are put to a shell whole.
const SCHEDULES: [&str; 3] = ["words/schedule.occ", "words/faults.occ", "words/backed.occ"];

/// Tells where a shell doesn't tell what it is to, and where its answers aren't those of a replay; and how many sessions there were.
pub(crate) fn tell_shells(rt: &HostRuntime) -> io::Result<()> {
    let mut tried = 0u64;
    for name in SESSIONS {
        let heard = fs::read(rt, format!(in rt.alloc(); "{name}.shell")?.as_str())?;
        let wanted = fs::read_to_string(rt, format!(in rt.alloc(); "{name}.told")?.as_str())?;
        let told = told(rt.alloc(), None, heard.as_slice())?;
        if told.as_str() != wanted.as_str() {
            println!(rt; "{name}: another text")?;
            print!(rt; "{told}")?;
        }
        tried = tried.saturating_add(1);
    }
    for file in SCHEDULES {
        tell_schedule(rt, file)?;
        tried = tried.saturating_add(1);
    }
    println!(rt; "shells: {tried} sessions")
}

/// Tells where the answers to a schedule and the words `book` and `audit` aren't what its replay prints.
fn tell_schedule(rt: &HostRuntime, file: &str) -> io::Result<()> {
    let alloc = rt.alloc();
    let schedule = fs::read_to_string(rt, file)?;
    let mut reader = schedule.as_bytes();
    let mut replayed = Vec::new(alloc);
    let _ended = replay_text(alloc, &mut reader, &mut replayed, false);
    let heard = format!(in alloc; "{schedule}book\naudit\n")?;
    let heard = told(alloc, None, heard.as_bytes())?;
    let answered = answers(alloc, heard.as_str())?;
    if answered.as_bytes() != replayed.as_slice() {
        println!(rt; "{file}: other answers")?;
    }
    let opened = told(alloc, Some(schedule.as_bytes()), b"book\naudit\n")?;
    let behind = answers(alloc, opened.as_str())?;
    if !answered.ends_with(behind.as_str()) {
        println!(rt; "{file}: another book behind its steps")?;
    }
    Ok(())
}

/// All that a shell tells, with how it ended where that is another way than at the end of the text.
fn told(alloc: Global, opening: Option<&[u8]>, heard: &[u8]) -> Result<String, AllocError> {
    let mut reader = heard;
    let mut bytes = Vec::new(alloc);
    let ended = shell_text(alloc, opening, &mut reader, &mut bytes);
    let mut text = String::new(alloc);
    text.push_str(std::str::from_utf8(bytes.as_slice()).unwrap_or("no text\n"))?;
    match ended {
        Ok(true) => {}
        Ok(false) => text.push_str("cut\n")?,
        Err(trouble) => write!(&mut text, "{trouble}\n")?,
    }
    Ok(text)
}

/// The lines that are no remarks.
fn answers(alloc: Global, told: &str) -> Result<String, AllocError> {
    let mut answers = String::new(alloc);
    for line in told.lines() {
        if !line.starts_with("# ") {
            answers.push_str(line)?;
            answers.push('\n')?;
        }
    }
    Ok(answers)
}
