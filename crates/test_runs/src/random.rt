//! Random workloads, which all end, with `audit yes` and each transaction committed or refused.

use crate::checks::{Sums, check};
use std::alloc::{AllocError, Global};
use std::io;
use std::sync::Wait;
use std::thread::Threads;
use std::time::Clock;

/// Numbers that look random, the same from the same seed.
#[derive(Clone, Copy)]
struct Numbers(u64);

impl Numbers {
    /// A number below `end`.
    fn below(&mut self, end: u64) -> u64 {
        self.0 = self
            .0
            .wrapping_mul(6_364_136_223_846_793_005)
            .wrapping_add(1_442_695_040_888_963_407);
        (self.0 >> 33) % end.max(1)
    }

    /// A number from 1 to `most`.
    fn up_to(&mut self, most: u64) -> u64 {
        self.below(most).saturating_add(1)
    }
}

/// How a workload is made.
#[derive(Clone, Copy)]
struct Shape {
    sessions: u64,
    queue: u64,
    keep: u64,
    validators: u64,
    retries: u64,
    /// How many transactions there are.
    count: u64,
    /// How many keys they use.
    keys: u64,
}

/// Runs so many random workloads, and prints what came of all of them.
pub(crate) fn tell<H: Threads + Wait + Clock + Sync>(
    rt: &HostRuntime,
    threads: &H,
    count: u64,
) -> io::Result<()> {
    let mut sums = Sums::default();
    for seed in 0..count {
        let mut numbers = Numbers(seed.wrapping_mul(0x9e37_79b9_7f4a_7c15));
        let shape = Shape {
            sessions: numbers.up_to(64),
            queue: numbers.up_to(64),
            keep: numbers.up_to(64),
            validators: numbers.up_to(64),
            retries: numbers.below(4),
            count: numbers.below(100).saturating_add(20),
            keys: numbers.up_to(30),
        };
        let text = workload(rt.alloc(), shape, &mut numbers)?;
        check(threads, rt.alloc(), text.as_str(), &mut sums)?;
    }
    println!(rt; "random workloads: {sums}")
}

/// More sessions than processors, one validator, queues of 1, a window of 1 and no retries.
pub(crate) fn tell_hard<H: Threads + Wait + Clock + Sync>(
    rt: &HostRuntime,
    threads: &H,
) -> io::Result<()> {
    let shape = Shape {
        sessions: 64,
        queue: 1,
        keep: 1,
        validators: 1,
        retries: 0,
        count: 640,
        keys: 1,
    };
    let mut sums = Sums::default();
    let text = workload(rt.alloc(), shape, &mut Numbers(1))?;
    check(threads, rt.alloc(), text.as_str(), &mut sums)?;
    println!(rt; "one key and no room: {sums}")
}

/// As many transactions as sixteen retries leave room for. Each is refused at once, so that the run is short.
pub(crate) fn tell_most<H: Threads + Wait + Clock + Sync>(
    rt: &HostRuntime,
    threads: &H,
) -> io::Result<()> {
    let shape = Shape {
        sessions: 4,
        queue: 8,
        keep: 64,
        validators: 2,
        retries: 16,
        count: 0,
        keys: 1,
    };
    let mut text = header(rt.alloc(), shape)?;
    for number in 0..58_254u64 {
        write!(text, "txn {} get:other:{number}\n", number % 4 + 1)?;
    }
    let mut sums = Sums::default();
    check(threads, rt.alloc(), text.as_str(), &mut sums)?;
    println!(rt; "the most transactions: {sums}")?;
    text.push_str("txn 1 get:t:1\n")?;
    let mut sums = Sums::default();
    check(threads, rt.alloc(), text.as_str(), &mut sums)?;
    println!(rt; "one more: {sums}")
}

// The lines before the transactions.
fn header(alloc: Global, shape: Shape) -> Result<String, AllocError> {
    let mut text = String::new(alloc);
    write!(
        text,
        "load 1\nsessions {}\nqueue {}\n",
        shape.sessions, shape.queue
    )?;
    write!(
        text,
        "keep {}\nvalidators {}\n",
        shape.keep, shape.validators
    )?;
    write!(text, "retries {}\ntable t num int\nbegin\n", shape.retries)?;
    Ok(text)
}

// A workload of a shape.
fn workload(alloc: Global, shape: Shape, numbers: &mut Numbers) -> Result<String, AllocError> {
    let mut text = header(alloc, shape)?;
    for _ in 0..shape.count {
        write!(text, "txn {}", numbers.up_to(shape.sessions))?;
        for _ in 0..numbers.up_to(4) {
            write_operation(&mut text, shape, numbers)?;
        }
        text.push('\n')?;
    }
    Ok(text)
}

// One operation, which is refused now and then.
fn write_operation(
    text: &mut String,
    shape: Shape,
    numbers: &mut Numbers,
) -> Result<(), AllocError> {
    let key = numbers.below(shape.keys);
    match numbers.below(24) {
        0 => write!(text, " put:t:{key}:'a"),
        1 => write!(text, " get:other:{key}"),
        2..=6 => write!(text, " get:t:{key}"),
        7..=9 => write!(
            text,
            " scan:t:{key}:{}",
            key.saturating_add(numbers.up_to(9))
        ),
        10..=13 => write!(text, " put:t:{key}:{}", numbers.below(100)),
        14..=15 => write!(text, " delete:t:{key}"),
        _ => write!(text, " add:t:{key}:1"),
    }
}
