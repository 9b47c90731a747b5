//! Texts that are no workloads.

use occ_run::{Trouble, run_text};
use std::io;
use std::sync::Wait;
use std::thread::Threads;
use std::time::Clock;

/// A workload of two sessions.
const WHOLE: &str =
    "load 1\nsessions 2\nqueue 4\nkeep 8\nvalidators 2\nretries 1\ntable t num int\nbegin\ntxn 1 add:t:1:1 get:t:1\ntxn 2 add:t:1:1\n";

/// What stands in place of a line of that workload, counted from 1, so that it is malformed there.
const CHANGES: [(usize, &str); 21] = [
    (1, "occ 1"),
    (1, "load 3"),
    (2, "sessions 0"),
    (2, "sessions 65"),
    (3, "queue 1025"),
    (4, "keep 0"),
    (5, "validators 0"),
    (5, "validators 65"),
    (6, "retries 17"),
    (6, "retries 01"),
    (7, "begin"),
    (8, "steps"),
    (8, "table t num int"),
    (9, "txn 0 get:t:1"),
    (9, "txn 3 get:t:1"),
    (9, "txn 1"),
    (9, "txn 1 get:t"),
    (9, "txn 1 get:t:1 "),
    (9, "txn 1 add:t:1:'a"),
    (10, "begin 1"),
    (10, ""),
];

/// Prints how many changed texts are malformed at the line that was changed.
pub(crate) fn tell<H: Threads + Wait + Clock + Sync>(
    rt: &HostRuntime,
    threads: &H,
) -> io::Result<()> {
    let mut right = 0usize;
    for (number, line) in CHANGES {
        let mut text = String::new(rt.alloc());
        for (place, whole) in WHOLE.lines().enumerate() {
            text.push_str(if place + 1 == number { line } else { whole })?;
            text.push('\n')?;
        }
        if outcome(rt, threads, text.as_str()) == Err(Trouble::Malformed(number as u64)) {
            right = right.saturating_add(1);
        }
    }
    println!(rt;
        "changed lines: {right} of {} malformed there",
        CHANGES.len()
    )
}

/// Prints how many texts are malformed that are cut at a byte, and how many are whole.
pub(crate) fn tell_cuts<H: Threads + Wait + Clock + Sync>(
    rt: &HostRuntime,
    threads: &H,
) -> io::Result<()> {
    let (mut malformed, mut whole, mut others) = (0usize, 0usize, 0usize);
    for len in 0..WHOLE.len() + 1 {
        match outcome(rt, threads, WHOLE.get(..len).unwrap_or("")) {
            Err(Trouble::Malformed(_)) => malformed = malformed.saturating_add(1),
            Ok(()) => whole = whole.saturating_add(1),
            Err(_) => others = others.saturating_add(1),
        }
    }
    println!(rt; "cut at each byte: {malformed} malformed, {whole} whole, {others} others")
}

// How the run of a text ends, which writes nothing where it is malformed.
fn outcome<H: Threads + Wait + Clock + Sync>(
    rt: &HostRuntime,
    threads: &H,
    text: &str,
) -> Result<(), Trouble> {
    let mut written = Vec::new(rt.alloc());
    match run_text(
        threads,
        rt.alloc(),
        &mut text.as_bytes(),
        &mut written,
        false,
    ) {
        Ok(_) => Ok(()),
        Err(trouble) if written.is_empty() => Err(trouble),
        Err(_) => Err(Trouble::Write),
    }
}
