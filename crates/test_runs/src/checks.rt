//! What is checked of each run.

use occ_cli::audit_text;
use occ_run::{PATIENCE, Ran, Trouble, Unwatched, Way, run_watched};
use std::alloc::{AllocError, Allocator, Global};
use std::sync::Wait;
use std::thread::Threads;
use std::time::Clock;
use std::{fmt, str};

/// What came of some runs.
#[derive(Clone, Copy, Debug, Default)]
pub(crate) struct Sums {
    /// Runs in which each transaction committed once or was refused, each session was closed, and the audit was yes, twice.
    right: u64,
    /// Runs that ended otherwise.
    wrong: u64,
    /// The first line that was malformed, 0 where none was.
    malformed: u64,
}

impl fmt::Display for Sums {
    fn fmt<W: fmt::Write>(&self, f: &mut fmt::Formatter<W>) -> fmt::Result {
        let (right, wrong, malformed) = (self.right, self.wrong, self.malformed);
        write!(f, "{right} right, {wrong} wrong")?;
        if malformed > 0 {
            write!(f, ", line {malformed} malformed")?;
        }
        Ok(())
    }
}

/// Runs a workload twice by validators and twice by workers, once each with its book, and adds what came of it.
pub(crate) fn check<H: Threads + Wait + Clock + Sync>(
    threads: &H,
    alloc: Global,
    text: &str,
    sums: &mut Sums,
) -> Result<(), AllocError> {
    match is_right(threads, alloc, text) {
        Ok(true) => sums.right = sums.right.saturating_add(1),
        Err(Trouble::Malformed(line)) => sums.malformed = line,
        Ok(false) | Err(_) => sums.wrong = sums.wrong.saturating_add(1),
    }
    Ok(())
}

// Whether all is as it has to be of the runs of a workload.
fn is_right<H: Threads + Wait + Clock + Sync>(
    threads: &H,
    alloc: Global,
    text: &str,
) -> Result<bool, Trouble> {
    let by_validators = is_right_by(threads, alloc, text, Way::Validators)?;
    let by_workers = is_right_by(threads, alloc, text, Way::Workers)?;
    Ok(by_validators && by_workers)
}

// Whether it is, of a run without the book, and of one with it, with lanes that are served so.
fn is_right_by<H: Threads + Wait + Clock + Sync>(
    threads: &H,
    alloc: Global,
    text: &str,
    way: Way,
) -> Result<bool, Trouble> {
    let (mut told, mut book) = (Vec::new(alloc), Vec::new(alloc));
    let ran = run_by(threads, alloc, text, &mut told, false, way)?;
    let again = run_by(threads, alloc, text, &mut book, true, way)?;
    let mut audit = Vec::new(alloc);
    let audited = audit_text(alloc, &mut book.as_slice(), &mut audit)?;
    let ended = matches!((ran, again), (Ran::Audit(true), Ran::Audit(true)));
    Ok(ended && audited && adds_up(text, str::from_utf8(told.as_slice()).unwrap_or("")))
}

/// Runs a workload with lanes that are served so.
pub(crate) fn run_by<H: Threads + Wait + Clock + Sync, A: Allocator + Copy + Send + Sync>(
    threads: &H,
    alloc: A,
    text: &str,
    written: &mut Vec<u8>,
    book: bool,
    way: Way,
) -> Result<Ran<A>, Trouble> {
    let mut reader = text.as_bytes();
    run_watched(
        threads,
        alloc,
        &mut reader,
        written,
        book,
        way,
        PATIENCE,
        &Unwatched,
    )
}

// Whether what a run told has a committed row or a refusal for each transaction of its text, and a mark for each session.
fn adds_up(text: &str, told: &str) -> bool {
    let transactions = starting(text, "txn ");
    let sessions = starting(told, "session ");
    committed(told).saturating_add(refused(told)) == transactions
        && starting(told, "mark ") == sessions
        && told.ends_with("audit yes\n")
}

/// How many transactions a run told of as committed.
pub(crate) fn committed(told: &str) -> usize {
    told.lines().filter(|line| line.contains(" done ")).count()
}

/// How many transactions of all sessions a run told of as refused.
pub(crate) fn refused(told: &str) -> usize {
    let mut sum = 0usize;
    for line in told.lines() {
        if line.starts_with("session ") {
            sum = sum.saturating_add(last_number(line));
        }
    }
    sum
}

// How many lines begin with a word.
fn starting(text: &str, word: &str) -> usize {
    text.lines().filter(|line| line.starts_with(word)).count()
}

// The number at the end of a line.
fn last_number(line: &str) -> usize {
    line.rsplit(' ')
        .next()
        .unwrap_or("")
        .parse()
        .unwrap_or(usize::MAX)
}
