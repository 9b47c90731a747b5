//! The answers of steps, as texts.
use crate::steps::word_of;
use occ_model::{Cause, Verdict};
use occ_store::{Account, AccountLine, Served, Standing};
use occ_types::Fault;
use std::alloc::{AllocError, Allocator, Global};
use std::fmt::Write;

/// A word.
pub(crate) fn word_text(texts: Global, word: &str) -> Result<String, AllocError> {
    String::from_str(texts, word)
}

/// A number.
pub(crate) fn number_text(texts: Global, number: u64) -> Result<String, Fault> {
    let text = format!(in texts; "{number}")?;
    Ok(text)
}

/// An answer, or the name of a fault.
pub(crate) fn or_fault(texts: Global, answer: Result<String, Fault>) -> Result<String, AllocError> {
    match answer {
        Ok(text) => Ok(text),
        Err(fault) => format!(in texts; "{fault:?}"),
    }
}

/// The number of what was handed in.
pub(crate) fn queued_text(texts: Global, number: Result<u64, Fault>) -> Result<String, Fault> {
    let number = number?;
    let text = format!(in texts; "queued {number}")?;
    Ok(text)
}

/// What came of serving a lane.
pub(crate) fn served_text(texts: Global, served: Result<Served, Fault>) -> Result<String, Fault> {
    let text = match served? {
        Served::Settled(number) => format!(in texts; "settled {number}"),
        Served::Idle => word_text(texts, "idle"),
        Served::Busy => word_text(texts, "busy"),
        Served::Stopped(point) => {
            let word = word_of(point);
            format!(in texts; "stopped at {word}")
        }
        Served::LaneClosed => word_text(texts, "closed"),
    };
    Ok(text?)
}

/// What came of serving a lane by a gate that was asked at so many points.
pub(crate) fn looked_text(
    texts: Global,
    served: Result<Served, Fault>,
    points: u64,
) -> Result<String, Fault> {
    let served = served_text(texts, served)?;
    let text = format!(in texts; "{served}, {points} points")?;
    Ok(text)
}

/// How a row stands.
pub(crate) fn row_text(texts: Global, standing: Option<Standing<()>>) -> Result<String, Fault> {
    let text = match standing {
        None => word_text(texts, "none"),
        Some(Standing::Open(())) => word_text(texts, "open"),
        Some(Standing::Writing(done)) => format!(in texts; "writing, {done} done"),
        Some(Standing::Done(_)) => word_text(texts, "done"),
        Some(Standing::Back(_)) => word_text(texts, "backed up"),
    };
    Ok(text?)
}

/// A session's last transaction that is over: its number, how it ended, and the counter of the last commit.
pub(crate) fn last_text(
    texts: Global,
    number: u64,
    status: Option<Verdict>,
    counter: u64,
) -> Result<String, Fault> {
    let verdict = match status {
        None => "none",
        Some(Verdict::Commit) => "commit",
        Some(Verdict::BackUp(Cause::Conflict)) => "conflict",
        Some(Verdict::BackUp(Cause::TooOld)) => "too old",
    };
    let text = format!(in texts; "{number}, {verdict}, counter {counter}")?;
    Ok(text)
}

/// What was read, and the start of its transaction.
pub(crate) fn reading_text(
    texts: Global,
    number: Option<i64>,
    begun: u64,
) -> Result<String, Fault> {
    let text = match number {
        Some(number) => format!(in texts; "{number}, begun at {begun}"),
        None => format!(in texts; "none, begun at {begun}"),
    };
    Ok(text?)
}

/// Whether a page tells of a row that it doesn't show.
pub(crate) fn page_text(texts: Global, followed: bool) -> Result<String, Fault> {
    let word = if followed { "others" } else { "no others" };
    Ok(word_text(texts, word)?)
}

/// The account of a store that ended.
pub(crate) fn account_text<A: Allocator + Copy>(
    texts: Global,
    account: Result<Account<A>, Fault>,
) -> Result<String, Fault> {
    let account = account?;
    let mut text = format!(in texts; "{} entered", account.entered)?;
    for line in &account.lines {
        push_line(&mut text, line)?;
    }
    Ok(text)
}

// Adds what became of a session's items.
fn push_line<A: Allocator + Copy>(
    text: &mut String,
    line: &AccountLine<A>,
) -> Result<(), AllocError> {
    write!(text, "; {} pushed", line.pushed)?;
    write!(text, ", {} taken, {} rows", line.taken, line.rows)?;
    if let Some(item) = &line.kept {
        write!(text, ", {} kept", item.number())?;
    }
    for item in &line.left {
        write!(text, ", {} left", item.number())?;
    }
    Ok(())
}
