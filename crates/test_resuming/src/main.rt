//! Random stores that go on, each twice: from rows, from the base that a store leaves, and from the one that was folded until then. Beside each
//! stands a plain list of its rows and of its transactions, which tells what each call is to answer, and which is replayed at the end.
//!
//! `test_resuming COUNT` makes so many; without a word it makes 200.
#![tactic(auto)]

mod alone;
mod books;
mod cuts;
mod dice;
mod lives;
mod objects;
mod past;
mod rows;
mod turns;

use books::{Sums, make};
use std::io;
use std::process::ExitCode;

/// How many stores are made where no word says it.
const COUNT: u64 = 200;

fn main(rt: HostRuntime) -> ExitCode {
    match tell(&rt) {
        Ok(()) => ExitCode::SUCCESS,
        Err(_) => ExitCode::FAILURE,
    }
}

fn tell(rt: &HostRuntime) -> io::Result<()> {
    let words: Vec<String> = std::env::args(rt)?.collect(rt.alloc())?;
    let count = match words.as_slice() {
        [_, count] => count.as_str().parse().unwrap_or(0),
        _ => COUNT,
    };
    let mut sums = Sums::default();
    for seed in 0..count {
        make(rt.alloc(), seed, &mut sums);
    }
    println!(rt; "{} right, {} wrong", sums.right, sums.wrong)?;
    println!(rt;
        "{} committed, {} backed up",
        sums.committed, sums.backed_up
    )?;
    println!(rt; "{} no base while busy", sums.busy)
}
