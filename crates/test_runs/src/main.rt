//! Runs workloads in threads, and checks of each what is the same whatever its threads do. `test_runs COUNT` runs so many random ones;
//! without a word it runs a hundred, and everything else that is tested of a run.
#![tactic(auto)]

mod checks;
mod loads;
mod malformed;
mod random;
mod refusals;

use std::process::ExitCode;
use std::sync::Wait;
use std::thread::Threads;
use std::time::Clock;
use std::{io, str};

/// How many random workloads are run where no word says it.
const COUNT: u64 = 100;

fn main(rt: HostRuntime) -> ExitCode {
    match tell(&rt, &rt) {
        Ok(()) => ExitCode::SUCCESS,
        Err(_) => ExitCode::FAILURE,
    }
}

// Prints a line for each kind of test. The second handle is the same as the first, for what starts threads and waits.
fn tell<H: Threads + Wait + Clock + Sync>(rt: &HostRuntime, threads: &H) -> io::Result<()> {
    let words: Vec<String> = std::env::args(rt)?.collect(rt.alloc())?;
    if let [_, count] = words.as_slice() {
        return random::tell(rt, threads, count.as_str().parse().unwrap_or(0));
    }
    loads::tell(rt, threads)?;
    random::tell(rt, threads, COUNT)?;
    random::tell_hard(rt, threads)?;
    random::tell_most(rt, threads)?;
    malformed::tell(rt, threads)?;
    malformed::tell_cuts(rt, threads)?;
    refusals::tell_patience(rt, threads)?;
    refusals::tell(rt, threads)
}
