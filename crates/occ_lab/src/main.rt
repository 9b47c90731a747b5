//! The program `occ_lab`: what is wrong with a schedule or a book in words, a history as a picture, a shell, a run to watch, and rows of CSV as a book.
#![tactic(auto)]

use anyhow::Result;
use clap::error::ErrorKind;
use clap::{ArgMatches, Error};
use std::process::ExitCode;
use std::sync::Wait;
use std::thread::Threads;
use std::time::Clock;

mod agreement;
mod books;
mod commands;
mod csv_rows;
mod csv_tables;
mod explain;
mod files;
mod formats;
mod fronts;
mod loading;
mod loads;
mod memory;
mod outputs;
mod picture;
mod running;
mod shell;
mod watching;

fn main(rt: HostRuntime) -> ExitCode {
    match run(&rt, &rt) {
        Ok(status) => ExitCode::from(status),
        Err(error) => {
            // where this line can't be written either, the status still tells
            let _written = eprintln!(rt; "occ_lab: {error:#}");
            ExitCode::from(1)
        }
    }
}

/// Reads the words of the command line and does what they ask for. The second handle is the same, for what starts threads and waits.
fn run<H: Threads + Wait + Clock + Sync>(rt: &HostRuntime, threads: &H) -> Result<u8> {
    let words: Vec<String> = std::env::args(rt)?.collect(rt.alloc())?;
    let parsed = commands::program(rt.alloc())?.try_get_matches_from(words.as_slice());
    match parsed {
        Ok(matches) => serve(rt, threads, &matches),
        Err(told) => tell_words(rt, &told),
    }
}

/// Tells what the words of the command line ask for or lack, and answers the status.
fn tell_words(rt: &HostRuntime, told: &Error) -> Result<u8> {
    if told.kind() == ErrorKind::OutOfMemory {
        eprintln!(rt; "occ_lab: no memory")?;
        return Ok(1);
    }
    let text = format!(in rt.alloc(); "{told}")?;
    match told.kind() {
        ErrorKind::DisplayHelp | ErrorKind::DisplayVersion => {
            print!(rt; "{text}")?;
            Ok(0)
        }
        _ => {
            eprint!(rt; "{text}")?;
            Ok(2)
        }
    }
}

/// Does what a command asks for, and answers the status.
fn serve<H: Threads + Wait + Clock + Sync>(
    rt: &HostRuntime,
    threads: &H,
    matches: &ArgMatches<'_>,
) -> Result<u8> {
    if let Some(found) = matches.subcommand_matches("explain") {
        return explain::explain(rt, file(found), found.get_flag("json"));
    }
    if let Some(found) = matches.subcommand_matches("picture") {
        return picture::picture(rt, file(found));
    }
    if let Some(found) = matches.subcommand_matches("shell") {
        return match found.get_str("from") {
            Some(book) => shell::shell_from(rt, book),
            None => shell::shell(rt, found.get_str("file")),
        };
    }
    if let Some(found) = matches.subcommand_matches("load") {
        let sessions = found.get_one::<usize>("sessions").unwrap_or(1);
        return loading::load(rt, file(found), sessions);
    }
    let Some(found) = matches.subcommand_matches("run") else {
        print!(rt; "{}", formats::FORMATS)?;
        return Ok(0);
    };
    let wanted = running::Wanted {
        way: running::way_of(found.get_flag("validators")),
        json: found.get_flag("json"),
        from: found.get_str("from"),
        book: found.get_str("book"),
        picture: found.get_str("picture"),
    };
    running::run_file(rt, threads, file(found), &wanted)
}

/// The file that a command names.
fn file<'m>(matches: &ArgMatches<'m>) -> &'m str {
    matches.get_str("file").unwrap_or("")
}
