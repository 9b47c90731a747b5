//! The program `occ`: its words to an engine, and what the engine answers to an exit status.
#![tactic(auto)]

use clap::error::ErrorKind;
use clap::{Arg, ArgAction, Command};
use occ_cli::{Trouble, audit_text, replay_text, status_of};
use occ_run::{Ran, run_text};
use std::alloc::{AllocError, Global};
use std::fs::File;
use std::io::ErrorKind as IoErrorKind;
use std::process::ExitCode;
use std::sync::Wait;
use std::thread::Threads;
use std::time::Clock;
use thiserror::Error;

/// What ends the program with another status than 0. Its text is the line that stands on standard error.
#[derive(Clone, Copy, Debug, Error)]
enum Stop {
    /// The words are no command, or ask for help or a version.
    #[error("usage")]
    Usage,
    /// An engine stopped, or never began for want of memory or of its file.
    #[error("{0}")]
    Engine(Trouble),
}

impl From<AllocError> for Stop {
    fn from(_refused: AllocError) -> Stop {
        Stop::Engine(Trouble::Memory)
    }
}

impl From<Trouble> for Stop {
    fn from(trouble: Trouble) -> Stop {
        Stop::Engine(trouble)
    }
}

impl From<clap::Error> for Stop {
    fn from(refused: clap::Error) -> Stop {
        match refused.kind() {
            ErrorKind::OutOfMemory => Stop::Engine(Trouble::Memory),
            _ => Stop::Usage,
        }
    }
}

/// What an engine answers that didn't stop.
#[derive(Debug, Drop)]
enum Answer {
    /// It did its work, and where it audited a book, whether that holds.
    Right(bool),
    /// The clients of these sessions gave up.
    GaveUp(Vec<usize>),
}

fn main(rt: HostRuntime) -> ExitCode {
    match run(&rt, &rt) {
        Ok(Answer::Right(right)) => ExitCode::from(status_of(&Ok(right))),
        Ok(Answer::GaveUp(sessions)) => {
            for session in &sessions {
                let _written = eprintln!(rt; "gave up {session}");
            }
            ExitCode::from(1)
        }
        Err(stop) => {
            // where this line can't be written either, the status still tells
            let _written = eprintln!(rt; "{stop}");
            ExitCode::from(status(stop))
        }
    }
}

fn status(stop: Stop) -> u8 {
    match stop {
        Stop::Usage => 2,
        Stop::Engine(trouble) => status_of(&Err(trouble)),
    }
}

/// What the words of a command ask for. Where no file is named, standard input is read.
#[derive(Debug, Drop)]
enum Task {
    /// `occ replay`: the file, and whether the answers are left out.
    Replay { file: Option<String>, quiet: bool },
    /// `occ audit`: the file.
    Audit { file: Option<String> },
    /// `occ run`: the file, and whether the book is printed in place of what became of each session.
    Run { file: Option<String>, book: bool },
}

/// Reads the words of the command line, and runs what they ask for. The second handle is the same, for what starts threads and waits.
fn run<H: Threads + Wait + Clock + Sync>(rt: &HostRuntime, threads: &H) -> Result<Answer, Stop> {
    let words = words(rt)?;
    match task_of(rt.alloc(), words.as_slice())? {
        Task::Replay { file, quiet } => {
            replay(rt, file.as_deref(), quiet)?;
            Ok(Answer::Right(true))
        }
        Task::Audit { file } => {
            let right = audit(rt, file.as_deref())?;
            Ok(Answer::Right(right))
        }
        Task::Run { file, book } => match run_workload(rt, threads, file.as_deref(), book)? {
            Ran::Audit(right) => Ok(Answer::Right(right)),
            Ran::GaveUp(sessions) => Ok(Answer::GaveUp(sessions)),
        },
    }
}

/// What words ask for, of which the first is the name of the program.
fn task_of(alloc: Global, words: &[String]) -> Result<Task, Stop> {
    let matches = command(alloc)?.try_get_matches_from(words)?;
    if let Some(found) = matches.subcommand_matches("replay") {
        let file = named(alloc, found.get_str("file"))?;
        let quiet = found.get_flag("quiet");
        return Ok(Task::Replay { file, quiet });
    }
    if let Some(found) = matches.subcommand_matches("run") {
        let file = named(alloc, found.get_str("file"))?;
        let book = found.get_flag("book");
        return Ok(Task::Run { file, book });
    }
    match matches.subcommand_matches("audit") {
        Some(found) => {
            let file = named(alloc, found.get_str("file"))?;
            Ok(Task::Audit { file })
        }
        None => Err(Stop::Usage),
    }
}

/// A copy of the name of a file, where one is named.
fn named(alloc: Global, file: Option<&str>) -> Result<Option<String>, AllocError> {
    match file {
        Some(name) => Ok(Some(String::from_str(alloc, name)?)),
        None => Ok(None),
    }
}

/// The words of the command line; one that is no text is no word of a command.
fn words(rt: &HostRuntime) -> Result<Vec<String>, Stop> {
    match std::env::args(rt) {
        Ok(all) => Ok(all.collect(rt.alloc())?),
        Err(error) if error.kind() == IoErrorKind::OutOfMemory => {
            Err(Stop::Engine(Trouble::Memory))
        }
        Err(_) => Err(Stop::Usage),
    }
}

/// `occ replay [FILE] [--quiet]`, `occ run [FILE] [--book]` and `occ audit [FILE]`.
fn command<'a>(alloc: Global) -> Result<Command<'a>, AllocError> {
    let replay = with_flag(alloc, "replay", "quiet")?;
    let run = with_flag(alloc, "run", "book")?;
    let audit = plain(Command::new(alloc, "audit")).arg(Arg::new(alloc, "file"))?;
    plain(Command::new(alloc, "occ"))
        .subcommand_required(true)
        .subcommand(replay)?
        .subcommand(run)?
        .subcommand(audit)
}

/// A command that takes a file and a flag.
fn with_flag<'a>(alloc: Global, name: &'a str, flag: &'a str) -> Result<Command<'a>, AllocError> {
    plain(Command::new(alloc, name))
        .arg(Arg::new(alloc, "file"))?
        .arg(Arg::new(alloc, flag).long(flag).action(ArgAction::SetTrue))
}

/// A command without help and version: asking for them is one more unknown word.
fn plain<'a>(command: Command<'a>) -> Command<'a> {
    command
        .disable_help_flag(true)
        .disable_help_subcommand(true)
        .disable_version_flag(true)
}

/// Replays a file, or standard input where none is named.
fn replay(rt: &HostRuntime, file: Option<&str>, quiet: bool) -> Result<(), Trouble> {
    let mut output = rt.stdout();
    match file {
        None => replay_text(rt.alloc(), &mut rt.stdin(), &mut output, quiet),
        Some(path) => match File::open(rt, path) {
            Ok(mut text) => replay_text(rt.alloc(), &mut text, &mut output, quiet),
            Err(error) if error.kind() == IoErrorKind::OutOfMemory => Err(Trouble::Memory),
            Err(_) => Err(Trouble::Read),
        },
    }
}

/// Runs the workload in a file, or on standard input where none is named.
fn run_workload<H: Threads + Wait + Clock + Sync>(
    rt: &HostRuntime,
    threads: &H,
    file: Option<&str>,
    book: bool,
) -> Result<Ran<Global>, Trouble> {
    let mut output = rt.stdout();
    match file {
        None => run_text(threads, rt.alloc(), &mut rt.stdin(), &mut output, book),
        Some(path) => match File::open(rt, path) {
            Ok(mut text) => run_text(threads, rt.alloc(), &mut text, &mut output, book),
            Err(error) if error.kind() == IoErrorKind::OutOfMemory => Err(Trouble::Memory),
            Err(_) => Err(Trouble::Read),
        },
    }
}

/// Audits the book in a file, or on standard input where none is named.
fn audit(rt: &HostRuntime, file: Option<&str>) -> Result<bool, Trouble> {
    let mut output = rt.stdout();
    match file {
        None => audit_text(rt.alloc(), &mut rt.stdin(), &mut output),
        Some(path) => match File::open(rt, path) {
            Ok(mut text) => audit_text(rt.alloc(), &mut text, &mut output),
            Err(error) if error.kind() == IoErrorKind::OutOfMemory => Err(Trouble::Memory),
            Err(_) => Err(Trouble::Read),
        },
    }
}
