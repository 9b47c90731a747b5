//! Replays that reach a limit: at it all goes on, and one step above it is refused for that. Their schedules are too long to be kept.

use occ_cli::{audit_text, replay_text};
use std::alloc::{AllocError, Global};
use std::{fs, io};

/// A transaction of session 1 that writes a key, and commits.
const COMMIT: &str = "begin 1\nput 1 t 7 5\nsubmit 1\nenter 1\ndecide 1\nwrite 1\nfinish 1\n";

/// Prints whether a window of 4096 write sets holds as many and no more, and whether a schedule has more lines than 16 bits count.
pub(crate) fn tell_limits(rt: &HostRuntime) -> io::Result<()> {
    let alloc = rt.alloc();
    let within = overtaken(alloc, 4096)?;
    let within = within.as_str();
    let holds = answers(alloc, within, "entered 4096\ncommit\nocc 1\n")
        && is_audited(alloc, within);
    let above = overtaken(alloc, 4097)?;
    let above = answers(
        alloc,
        above.as_str(),
        "entered 4097\nbackup tooold\nocc 1\n",
    );
    println!(rt; "a window of 4096: overtaken {holds}, overtaken once more {above}")?;
    let mut schedule = fs::read_to_string(rt, "schedules/no-step.occ")?;
    for _ in 0..70000 {
        schedule.push_str("show\n")?;
    }
    println!(rt;
        "70000 steps: audited {}",
        is_audited(alloc, schedule.as_str())
    )?;
    println!(rt; "a log of 1048576 rows: full {}", is_filled(alloc)?)
}

/// Whether a log takes so many rows and no more, and then a mark, which is none.
fn is_filled(alloc: Global) -> Result<bool, AllocError> {
    let mut text = String::new(alloc);
    text.push_str("occ 1\nsessions 2\nqueue 4\nkeep 1\ntable t num int\nsteps\n")?;
    for _ in 0..=1_048_576u64 {
        text.push_str("alone 1 add:t:1:1\nenter 1\n")?;
    }
    text.push_str("close 2\nenter 2\n")?;
    let wanted = "finished 1048576\nqueued 1048577\nrefused F22\nclosing 1\nclosed\nocc 1\n";
    Ok(answers(alloc, text.as_str(), wanted))
}

/// A transaction of session 2 that reads a key, so many commits of session 1 that write another one, and the entry and decision of the first.
fn overtaken(alloc: Global, commits: u64) -> Result<String, AllocError> {
    let mut text = String::new(alloc);
    text.push_str("occ 1\nsessions 2\nqueue 4\nkeep 4096\ntable t num int\nsteps\n")?;
    text.push_str("begin 2\nget 2 t 1\n")?;
    for _ in 0..commits {
        text.push_str(COMMIT)?;
    }
    text.push_str("submit 2\nenter 2\ndecide 2\n")?;
    Ok(text)
}

/// Whether what the replay of a schedule answers and prints has this in it.
fn answers(alloc: Global, schedule: &str, wanted: &str) -> bool {
    match replayed(alloc, schedule, false) {
        Some(written) => match str::from_utf8(written.as_slice()) {
            Ok(text) => text.contains(wanted),
            Err(_) => false,
        },
        None => false,
    }
}

/// Whether the replay of a schedule comes to its end, and the book that it prints is read back and found right.
fn is_audited(alloc: Global, schedule: &str) -> bool {
    let Some(book) = replayed(alloc, schedule, true) else {
        return false;
    };
    let mut reader = book.as_slice();
    let mut written = Vec::new(alloc);
    audit_text(alloc, &mut reader, &mut written) == Ok(true)
}

/// What the replay of a schedule writes, or nothing where it does not come to its end.
fn replayed(alloc: Global, schedule: &str, quiet: bool) -> Option<Vec<u8>> {
    let mut reader = schedule.as_bytes();
    let mut written = Vec::new(alloc);
    match replay_text(alloc, &mut reader, &mut written, quiet) {
        Ok(()) => Some(written),
        Err(_trouble) => None,
    }
}
