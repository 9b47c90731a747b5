//! The workloads that lie beside the program, and what of each run is the same whatever its threads do.

use crate::checks::{committed, refused};
use occ_run::{Ran, run_text};
use std::alloc::Global;
use std::sync::Wait;
use std::thread::Threads;
use std::time::Clock;
use std::{fs, io, str};

/// The workloads, each in a file `NAME.load`.
const LOADS: [&str; 6] = [
    "backed-up-often",
    "bank",
    "hot-counter",
    "one-session",
    "range-readers",
    "refused-operations",
];

/// Prints the line of each workload.
pub(crate) fn tell<H: Threads + Wait + Clock + Sync>(
    rt: &HostRuntime,
    threads: &H,
) -> io::Result<()> {
    for name in LOADS {
        tell_load(rt, threads, name)?;
    }
    Ok(())
}

// Prints the line of a workload: how many of its transactions committed and how many were refused, the sum of all whole numbers in the
// tables at its end, and what the audit says.
fn tell_load<H: Threads + Wait + Clock + Sync>(
    rt: &HostRuntime,
    threads: &H,
    name: &str,
) -> io::Result<()> {
    let text = fs::read_to_string(rt, format!(in rt.alloc(); "{name}.load")?.as_str())?;
    let told = ran(rt, threads, text.as_str(), false)?;
    let book = ran(rt, threads, text.as_str(), true)?;
    let committed = committed(told.as_str());
    let refused = refused(told.as_str());
    let sum = sum_of(book.as_str());
    let audit = told.as_str().trim_end().rsplit('\n').next().unwrap_or("");
    println!(rt; "{name}: {committed} committed, {refused} refused, sum {sum}, {audit}")
}

// What the run of a workload writes, or why it doesn't.
fn ran<H: Threads + Wait + Clock + Sync>(
    rt: &HostRuntime,
    threads: &H,
    text: &str,
    book: bool,
) -> io::Result<String> {
    let mut reader = text.as_bytes();
    let mut written = Vec::new(rt.alloc());
    match run_text(threads, rt.alloc(), &mut reader, &mut written, book) {
        Ok(Ran::Audit(_)) => Ok(String::from_str(
            rt.alloc(),
            str::from_utf8(written.as_slice()).unwrap_or("no text"),
        )?),
        Ok(Ran::GaveUp(_)) => Ok(String::from_str(rt.alloc(), "gave up")?),
        Err(trouble) => Ok(format!(in rt.alloc(); "{trouble}")?),
    }
}

// The sum of the whole numbers at the ends of the lines of rows in a book.
fn sum_of(book: &str) -> i64 {
    let mut sum = 0i64;
    for line in book.lines().filter(|line| line.starts_with("at ")) {
        let number = line.rsplit(' ').next().unwrap_or("");
        sum = sum.saturating_add(number.parse::<i64>().unwrap_or(0));
    }
    sum
}
