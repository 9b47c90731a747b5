//! Runs in which clients give up, and runs in which memory is refused.

use crate::checks::run_by;
use occ_run::{Observer, Progress, Ran, Trouble, Unwatched, Way, run_watched};
use std::io;
use std::sync::Wait;
use std::sync::atomic::{AtomicU64, Ordering};
use std::thread::Threads;
use std::time::Clock;
use test_tools::{Plan, Refusing};

/// Workloads in which each request for memory is refused.
const SMALL: [&str; 3] = [
    "load 1\nsessions 1\nqueue 1\nkeep 1\nvalidators 1\nretries 0\ntable t num int\nbegin\ntxn 1 add:t:1:1 get:t:1\ntxn 1 put:t:1:'a\n",
    "load 1\nsessions 2\nqueue 1\nkeep 1\nvalidators 1\nretries 0\ntable t num int\nbegin\ntxn 1 add:t:1:1\ntxn 2 add:t:1:1\ntxn 1 add:t:1:1\ntxn 2 scan:t:0:9\n",
    "load 2\nsessions 3\nqueue 2\nkeep 4\nvalidators 3\nretries 1\ntable t text int text\nbegin\ntxn 1 put:t:'a:1,'x\ntxn 2 scan:t:*:*\ntxn 3 delete:t:'a get:t:'b\n",
];

/// Counts how often it was asked.
#[derive(Drop)]
struct Counting {
    asked: AtomicU64,
    last: AtomicU64,
}

impl Observer for Counting {
    fn see(&self, progress: Progress) -> Option<u64> {
        self.asked.fetch_add(1, Ordering::SeqCst);
        self.last.store(progress.settled, Ordering::SeqCst);
        Some(100)
    }
}

/// Prints what comes of a run whose clients have no patience, and of one that is watched.
pub(crate) fn tell_patience<H: Threads + Wait + Clock + Sync>(
    rt: &HostRuntime,
    threads: &H,
) -> io::Result<()> {
    let mut written = Vec::new(rt.alloc());
    let mut reader = SMALL[1].as_bytes();
    let ran = run_watched(
        threads,
        rt.alloc(),
        &mut reader,
        &mut written,
        false,
        Way::Validators,
        0,
        &Unwatched,
    );
    let silent = written.is_empty();
    match ran {
        Ok(Ran::GaveUp(sessions)) => println!(rt;
            "no patience: gave up {:?}, nothing written {silent}",
            sessions.as_slice()
        )?,
        Ok(Ran::Audit(_)) => println!(rt; "no patience: a whole run")?,
        Err(trouble) => println!(rt; "no patience: {trouble}")?,
    }
    let observer = Counting {
        asked: AtomicU64::new(0),
        last: AtomicU64::new(0),
    };
    let mut reader = SMALL[0].as_bytes();
    let ran = run_watched(
        threads,
        rt.alloc(),
        &mut reader,
        &mut written,
        false,
        Way::Validators,
        1 << 28,
        &observer,
    );
    let seen = observer.asked.load(Ordering::SeqCst) > 0;
    let last = observer.last.load(Ordering::SeqCst);
    println!(rt;
        "watched: ended {}, seen {seen}, {last} settled",
        ran.is_ok()
    )
}

/// Refuses each request for memory of some runs in turn, and prints how many runs were flawed.
pub(crate) fn tell<H: Threads + Wait + Clock + Sync>(
    rt: &HostRuntime,
    threads: &H,
) -> io::Result<()> {
    let mut flaws = 0u64;
    for text in SMALL {
        for way in [Way::Validators, Way::Workers] {
            flaws = flaws.saturating_add(flaws_of(rt, threads, text, way));
        }
    }
    println!(rt; "memory refused in turn: {flaws} flaws")
}

// Refuses each request for memory of runs of a workload in turn, and answers how many runs were flawed.
fn flaws_of<H: Threads + Wait + Clock + Sync>(
    rt: &HostRuntime,
    threads: &H,
    text: &str,
    way: Way,
) -> u64 {
    let mut flaws = 0u64;
    for place in 0..10_000u64 {
        let refusing = Refusing::new(rt.alloc(), Plan::Once(place));
        if is_flawed(rt, threads, &refusing, text, way) {
            flaws = flaws.saturating_add(1);
        }
        if refusing.refused() == 0 {
            break;
        }
    }
    flaws
}

// Whether a run with a refused request ends otherwise than without memory or as ever, or keeps memory, or writes where it may not.
fn is_flawed<H: Threads + Wait + Clock + Sync>(
    rt: &HostRuntime,
    threads: &H,
    refusing: &Refusing<std::alloc::Global>,
    text: &str,
    way: Way,
) -> bool {
    let mut written = Vec::new(rt.alloc());
    let right = match run_by(threads, refusing, text, &mut written, false, way) {
        Ok(Ran::Audit(true)) => written.ends_with(b"audit yes\n"),
        Err(Trouble::Memory) => written.is_empty(),
        Ok(_) | Err(_) => false,
    };
    !right || refusing.bytes_out() != 0
}
