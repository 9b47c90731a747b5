//! Loads of like transactions: by threads on a store or on an ordered map under one lock, and by one owner on a core or on a bare map.
//!
//! `bench_loads LOAD WAY THREADS END` does a load by so many threads and prints what came of it. The load is `accounts`, which is a
//! transfer over 1,000 rows, or one of `loads.rt`. The way is `steps`, `serial`, `alone` (by a session and its lane: in single events,
//! ended in one event, as operations that run alone), `worker` or `map`. Behind it may stand `-leased` (16 transactions in one lease, or
//! in one holding of the map's lock; with `-leased-64` so many) and then `-folded` (a checkpoint every 10,000 transactions of all; with
//! `-folded-500` every so many; each worker makes its part of them by `checkpoint_each`). The end is a number of transactions, or of
//! seconds, as `60s`.
//!
//! `bench_loads LOAD WAY ROUNDS` does so many rounds by one owner and prints how many transactions committed. The load is one of `loads.rt`,
//! and the way `steps`, `serial`, `client`, `alone`, `folded` (as `serial`, with a log that is folded every 10,000 rounds) or `bare`.
//!
//! `bench_loads bank END` opens the bank of `bank.rt` for so many rounds, or for so many seconds, and prints what came of it.
//!
//! With no words it opens the bank for a few rounds; prints how many requests for memory the transactions of each load make by one owner, in
//! each way, and how many bytes of them stay; and does a short load of each by threads, and prints whether all is right.
#![tactic(auto)]

mod bank;
mod bare;
mod budgets;
mod by_clients;
mod by_lanes;
mod by_lock;
mod by_owner;
mod by_stores;
mod calls;
mod closing;
mod costs;
mod crews;
mod dice;
mod folds;
mod hands;
mod loads;
mod outcomes;
mod rows;
mod tasks;
mod turns;

use budgets::Until;
use loads::Load;
use occ_types::Fault;
use outcomes::{Done, Told};
use std::alloc::Global;
use std::io;
use std::process::ExitCode;
use std::rt::Runtime;
use std::sync::Wait;
use std::thread::Threads;
use std::time::Clock;
use tasks::{Asked, By, Named, Task, Way};

/// How many rounds of a bank are made where nothing is asked for.
const BANKS: u64 = 5;

fn main(rt: HostRuntime) -> ExitCode {
    match words(&rt) {
        Ok(words) => ended(run(&rt, rt.alloc(), words.as_slice())),
        Err(_) => ExitCode::FAILURE,
    }
}

fn ended(done: io::Result<bool>) -> ExitCode {
    match done {
        Ok(true) => ExitCode::SUCCESS,
        Ok(false) | Err(_) => ExitCode::FAILURE,
    }
}

/// The words that it was called with.
fn words(rt: &HostRuntime) -> io::Result<Vec<String>> {
    let words = std::env::args(rt)?.collect(rt.alloc())?;
    Ok(words)
}

/// What the words ask for; false where they ask for nothing, or what came of it is wrong.
fn run<R: Runtime + Threads + Wait + Sync>(
    rt: &R,
    alloc: Global,
    words: &[String],
) -> io::Result<bool> {
    match Asked::of(words) {
        Some(Asked::All) => check_all(rt, alloc),
        Some(Asked::Load(task)) => tell(rt, alloc, task, true),
        Some(Asked::Rounds(rounds)) => costs::tell_rounds(rt, alloc, rounds),
        Some(Asked::Bank(until)) => tell_bank(rt, alloc, until, true),
        None => {
            eprintln!(rt; "bench_loads [LOAD WAY (THREADS END | ROUNDS) | bank END]")?;
            Ok(false)
        }
    }
}

/// Does a task.
fn done<R: Threads + Wait + Clock + Sync>(
    rt: &R,
    alloc: Global,
    task: Task,
) -> Result<Told, Fault> {
    match task.way.by {
        By::Map => by_lock::run(rt, alloc, task),
        _ => by_stores::open(rt, alloc, task),
    }
}

/// Does a task, and prints what came of it; where it is measured, what each run has of its own too. Whether it is right.
fn tell<R: Runtime + Threads + Wait + Sync>(
    rt: &R,
    alloc: Global,
    task: Task,
    measured: bool,
) -> io::Result<bool> {
    match done(rt, alloc, task) {
        Ok(told) => {
            tell_name(rt, task)?;
            if measured {
                tell_measured(rt, told)?;
            }
            tell_right(rt, told.is_right(task.until))
        }
        Err(fault) => tell_fault(rt, fault),
    }
}

fn tell_name<R: Runtime>(rt: &R, task: Task) -> io::Result<()> {
    let (load, by, threads) = (task.load.name, task.way.by.name(), task.threads);
    let leased = if task.way.leased { "-leased" } else { "" };
    print!(rt; "{load} by {by}{leased}")?;
    if task.way.is_unusual() {
        print!(rt; "-{}", task.way.at_a_time)?;
    }
    let folded = if task.way.folded.is_some() {
        "-folded"
    } else {
        ""
    };
    print!(rt; "{folded}, {threads} threads: ")
}

fn tell_measured<R: Runtime>(rt: &R, told: Told) -> io::Result<()> {
    let Done {
        committed,
        backed_up,
        ..
    } = told.all;
    print!(rt; "{committed} committed, {backed_up} backed up, ")?;
    let (micros, least) = (told.micros, told.least.min(committed));
    print!(rt; "{micros} us, at least {least} by a thread, ")
}

fn tell_right<R: Runtime>(rt: &R, right: bool) -> io::Result<bool> {
    if right {
        println!(rt; "as it must be")?;
    } else {
        println!(rt; "and something is wrong")?;
    }
    Ok(right)
}

fn tell_fault<R: Runtime>(rt: &R, fault: Fault) -> io::Result<bool> {
    eprintln!(rt; "{fault}")?;
    Ok(false)
}

/// Opens a bank, and prints what came of it; where it is measured, the figures too. Whether it is right.
fn tell_bank<R: Runtime + Threads + Wait + Sync>(
    rt: &R,
    alloc: Global,
    until: Until,
    measured: bool,
) -> io::Result<bool> {
    match bank::rounds(rt, alloc, until) {
        Ok(told) => {
            print!(rt; "bank: ")?;
            if measured {
                print!(rt; "{} rounds, {} committed, ", told.rounds, told.committed)?;
                print!(rt;
                    "{} backed up, {} clients died, ",
                    told.backed_up, told.died
                )?;
            }
            tell_right(rt, told.right)
        }
        Err(fault) => tell_fault(rt, fault),
    }
}

/// A few rounds of a bank, what each load costs one owner, and the short loads by threads. Whether all is right.
fn check_all<R: Runtime + Threads + Wait + Sync>(rt: &R, alloc: Global) -> io::Result<bool> {
    Ok(
        tell_bank(rt, alloc, Until::Count(BANKS), false)?
            && costs::tell_all(rt, alloc)?
            && check_loads(rt, alloc)?,
    )
}

/// A short load by each way, and one of each load. Whether all are right.
fn check_loads<R: Runtime + Threads + Wait + Sync>(rt: &R, alloc: Global) -> io::Result<bool> {
    for by in By::ALL {
        if !check_by(rt, alloc, by)? {
            return Ok(false);
        }
    }
    for load in Load::ALL {
        let way = Way::usual(By::Worker, true, true);
        if !tell(rt, alloc, Task::short(Named::of(load), way), false)? {
            return Ok(false);
        }
    }
    Ok(true)
}

/// A short load by this, with each choice of leases and checkpoints. Whether all are right.
fn check_by<R: Runtime + Threads + Wait + Sync>(rt: &R, alloc: Global, by: By) -> io::Result<bool> {
    for (leased, folded) in Way::CHOICES {
        let way = Way::usual(by, leased, folded);
        if way.is_possible() && !tell(rt, alloc, Task::short(Named::accounts(), way), false)? {
            return Ok(false);
        }
    }
    Ok(true)
}
