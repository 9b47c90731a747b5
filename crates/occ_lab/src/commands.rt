//! The commands, and what help says of them.

use crate::formats::FORMATS;
use clap::builder::ValueParser;
use clap::{Arg, ArgAction, Command};
use std::alloc::{AllocError, Global};

/// What the exit statuses mean.
const STATUSES: &str = "\
Exit status:
  0  all is right
  1  a file can't be read or written, memory was refused, or a run gave up
  2  a line is malformed, or the words are no command
  3  explain found something wrong, no store can go on from a book, a run did nothing, or its audit
     says no";

/// What stands below the words of `load`.
const RECORDS: &str = "\
The first record names the table and the kinds of its key and of its cells, in the words of a table
line: accounts,num,int,text. Each further record is a key and its cells; a key of two parts takes two
fields. Texts stand as they are, and not in the spelling of a book.

Exit status:
  0  the book is written
  1  a file can't be read or written, or memory was refused
  2  a record is no row, which standard error tells with its line, or the words are no command";

/// What stands below the list of commands.
const WAYS: &str = "\
Where `occ` answers `line N: malformed`, `occ_lab explain FILE` says what is wrong with that line and
what can stand there. Where it answers `usage`, `occ_lab help formats` has the words that it takes.
FILE may be -, for standard input.

Exit status:
  0  all is right
  1  a file can't be read or written, memory was refused, or a run gave up
  2  a line is malformed, or the words are no command
  3  explain found something wrong, no store can go on from a book, a run did nothing, or its audit
     says no";

/// The program with its commands.
pub(crate) fn program<'a>(alloc: Global) -> Result<Command<'a>, AllocError> {
    let program = Command::new(alloc, "occ_lab")
        .version("0.4.0")
        .about("A laboratory for schedules, books and workloads")
        .after_help(WAYS)
        .subcommand_required(true)
        .arg_required_else_help(true);
    let program = with(program, explain(alloc))?;
    let program = with(program, picture(alloc))?;
    let program = with(program, shell(alloc))?;
    let program = with(program, run(alloc))?;
    let program = with(program, load(alloc))?;
    program.subcommand(formats(alloc))
}

/// The program with one command more, where that could be made.
fn with<'a>(
    program: Command<'a>,
    command: Result<Command<'a>, AllocError>,
) -> Result<Command<'a>, AllocError> {
    program.subcommand(command?)
}

/// `occ_lab explain [--json] FILE`.
fn explain<'a>(alloc: Global) -> Result<Command<'a>, AllocError> {
    Command::new(alloc, "explain")
        .about("Says what is wrong with a schedule, a book or a workload")
        .after_help(STATUSES)
        .arg(flag(alloc, "json", "Writes one object of JSON for each finding"))?
        .arg(file(
            alloc,
            "A schedule, a book or a workload; - is standard input",
        ))
}

/// `occ_lab picture FILE`.
fn picture<'a>(alloc: Global) -> Result<Command<'a>, AllocError> {
    Command::new(alloc, "picture")
        .about("Writes the picture of a history, as SVG, to standard output")
        .after_help(STATUSES)
        .arg(file(alloc, "A schedule, which is replayed, or a book"))
}

/// `occ_lab shell [--from BOOK] [FILE]`.
fn shell<'a>(alloc: Global) -> Result<Command<'a>, AllocError> {
    Command::new(alloc, "shell")
        .about("Answers the steps on standard input one by one; help and quit are two of its words")
        .after_help(STATUSES)
        .arg(option(
            alloc,
            "from",
            "BOOK",
            "The store goes on from this book, with its header",
        ))?
        .arg(
            file(alloc, "A schedule whose header and steps stand first")
                .required(false)
                .conflicts_with("from")?,
        )
}

/// `occ_lab run [--validators] [--json] [--from BOOK] [--book OUT] [--picture OUT] FILE`.
fn run<'a>(alloc: Global) -> Result<Command<'a>, AllocError> {
    let run = Command::new(alloc, "run")
        .about("Runs a workload, and tells its time, commits, back-ups and memory")
        .after_help(STATUSES)
        .arg(flag(
            alloc,
            "validators",
            "Threads of their own serve the sessions, as many as the workload's line says",
        ))?
        .arg(flag(alloc, "json", "Writes one object of JSON"))?
        .arg(option(
            alloc,
            "from",
            "BOOK",
            "The store goes on from this book, which has the tables of the workload",
        ))?;
    with_outputs(alloc, run)?.arg(file(alloc, "A workload"))
}

/// `occ_lab load [--sessions N] FILE`.
fn load<'a>(alloc: Global) -> Result<Command<'a>, AllocError> {
    let sessions = option(
        alloc,
        "sessions",
        "N",
        "How many sessions its header names, 1 to 64",
    )
    .value_parser(ValueParser::unsigned(1, 64))
    .default_value("1");
    Command::new(alloc, "load")
        .about("Makes a book of the rows of a table, to go on from with shell or run")
        .after_help(RECORDS)
        .arg(sessions)?
        .arg(file(alloc, "A file of CSV; - is standard input"))
}

/// `occ_lab formats`.
fn formats<'a>(alloc: Global) -> Command<'a> {
    Command::new(alloc, "formats")
        .about("Describes schedules, books and workloads in short")
        .after_help(FORMATS)
}

/// A command that may write a book and a picture.
fn with_outputs<'a>(alloc: Global, command: Command<'a>) -> Result<Command<'a>, AllocError> {
    command
        .arg(option(alloc, "book", "OUT", "Writes the book there"))?
        .arg(option(alloc, "picture", "OUT", "Writes the picture there, as SVG"))
}

/// The file that a command needs.
fn file<'a>(alloc: Global, help: &'a str) -> Arg<'a> {
    Arg::new(alloc, "file")
        .required(true)
        .value_name("FILE")
        .help(help)
}

/// A flag.
fn flag<'a>(alloc: Global, name: &'a str, help: &'a str) -> Arg<'a> {
    Arg::new(alloc, name)
        .long(name)
        .action(ArgAction::SetTrue)
        .help(help)
}

/// An option with a value.
fn option<'a>(alloc: Global, name: &'a str, value: &'a str, help: &'a str) -> Arg<'a> {
    Arg::new(alloc, name)
        .long(name)
        .action(ArgAction::Set)
        .value_name(value)
        .help(help)
}
