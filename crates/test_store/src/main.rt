//! Plays the scenarios of `scenarios.txt`, each on a store of its own, and prints a line for each: a few steps on one thread, validators in
//! threads that stop or meet at a point, many clients and validators, or what is to find no memory at each of its requests in turn. At last
//! a worker moves money, and clients wait with patience.
#![tactic(auto)]

mod accounts;
mod answers;
mod clients;
mod desks;
mod gates;
mod loads;
mod patience;
mod plays;
mod scenarios;
mod steps;
mod transfers;

use std::process::ExitCode;
use std::sync::Wait;
use std::thread::Threads;
use std::time::Clock;
use std::{fs, io};

fn main(rt: HostRuntime) -> ExitCode {
    match tell_all(&rt, &rt) {
        Ok(()) => ExitCode::SUCCESS,
        Err(_) => ExitCode::FAILURE,
    }
}

// Prints all lines. The second handle is the same as the first, for what starts threads and waits.
fn tell_all<R: Threads + Wait + Clock + Sync>(rt: &HostRuntime, threads: &R) -> io::Result<()> {
    let text = fs::read_to_string(rt, "scenarios.txt")?;
    for paragraph in text.split("\n\n").filter(|part| !part.starts_with('#')) {
        scenarios::tell(rt, threads, paragraph)?;
    }
    transfers::tell(rt, threads)?;
    patience::tell(rt, threads)
}
