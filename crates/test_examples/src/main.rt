//! Replays each example, and tells of each how it ended, whether its text is the one that lies beside it, and what the audit of its book says. Then it tries lines that are malformed, audits books that lie there alone, and some with one change each, cuts schedules anywhere, and replays them over devices that fail. It tells what the laboratory says of texts that are spoiled, and whether it draws the pictures that lie there. At last it goes over the examples and the books again, each time with one request for memory refused, and makes the calls again that wanted it.
#![tactic(auto)]

mod again;
mod altered;
mod bases;
mod cuts;
mod devices;
mod handed_back;
mod limits;
mod page_maps;
mod pictures;
mod printed_again;
mod refusals;
mod refused;
mod shells;
mod slips;
mod spoiled;
mod summaries;

use altered::{tell_changed_schedule, tell_changes, tell_lines};
use bases::{tell_bases, tell_wrong};
use cuts::{tell_cut_book, tell_cuts};
use devices::tell_devices;
use handed_back::tell_handed_back;
use limits::tell_limits;
use occ_cli::{audit_text, replay_text, status_of};
use page_maps::tell_page_maps;
use pictures::tell_pictures;
use printed_again::tell_printed_again;
use refusals::tell_refusals;
use shells::tell_shells;
use slips::tell_explanations;
use spoiled::tell_spoiled;
use std::process::ExitCode;
use std::{fs, io};
use summaries::tell_run;

/// The schedules, each in a file `NAME.occ` with its text in `NAME.out`.
const EXAMPLES: &[&str] = &[
    "examples/abandoned-and-begun-anew",
    "examples/alone-reads-its-own-writes",
    "examples/alone-while-another-writes",
    "examples/blind-writes",
    "examples/closed-sessions",
    "examples/deletion-of-an-absent-key",
    "examples/entries-of-an-account",
    "schedules/entry-between-two-writes",
    "examples/entry-order",
    "examples/first-commit",
    "examples/folded-twice",
    "schedules/forged-and-refused",
    "examples/full-queue",
    "schedules/full-read-set",
    "schedules/full-write-set",
    "examples/judged-by-its-entry",
    "schedules/keys-of-two-parts",
    "schedules/long-range-alone",
    "examples/lost-update",
    "malformed/malformed-key",
    "schedules/no-step",
    "schedules/opponent-backed-up-later",
    "examples/own-writes",
    "examples/phantom-at-a-lower-end",
    "examples/phantom-in-a-range",
    "schedules/range-too-large",
    "examples/read-between-two-writes",
    "schedules/reads-of-a-whole-table",
    "examples/refusals",
    "schedules/refused-alone",
    "schedules/refused-serial-ends",
    "examples/serial-ends",
    "examples/settled-rows-are-folded",
    "schedules/text-keys",
    "schedules/text-lengths",
    "examples/too-old",
    "malformed/torn-line",
    "examples/upper-end-of-a-range",
    "schedules/what-takes-no-memory",
    "schedules/what-waits-to-run-alone",
    "examples/whole-tables",
    "examples/whole-transactions-at-once",
    "examples/write-phase-left-open",
];

/// Further schedules of that kind, which are replayed with ample memory alone.
const OTHERS: &[&str] = &[
    "schedules/alone-sees-its-own-deletions",
    "schedules/backed-up-row-is-folded",
    "malformed/carriage-return",
    "schedules/closed-session-is-over",
    "schedules/forged-request-takes-the-reads",
    "schedules/forged-requests",
    "schedules/greatest-numbers",
    "schedules/item-that-never-enters",
    "examples/items-enter-in-turn",
    "schedules/kept-item-takes-no-room",
    "schedules/line-of-8192-bytes",
    "malformed/line-of-8193-bytes",
    "malformed/malformed-operation-behind-256",
    "schedules/nothing-is-open",
    "schedules/operations-that-never-run",
    "schedules/operations-up-to-256",
    "schedules/queue-of-1024",
    "schedules/range-of-1024-rows",
    "schedules/refusals-of-abandon",
    "schedules/refusals-of-close",
    "examples/refusals-of-ranges",
    "schedules/serial-end-that-waits",
    "schedules/session-gives-up-and-closes",
    "schedules/sessions-up-to-64",
    "schedules/submitted-before-the-mark",
    "malformed/table-33",
    "schedules/tables-up-to-32",
    "schedules/version-two-with-nothing-new",
    "schedules/well-formed-texts",
    "schedules/writes-up-to-256",
];

/// Lines that are malformed, in files `NAME.lines`, each tried behind the schedule `NAME.occ`, whose answers are in `NAME.out`.
const MALFORMED: &[&str] = &[
    "malformed/malformed-lines",
    "malformed/malformed-lines-of-version-two",
    "malformed/malformed-texts",
];

/// The books, each in a file `NAME.book`.
const BOOKS: &[&str] = &[
    "books/changed-base",
    "examples/changed-book",
    "examples/unchanged-book",
];

/// Books, each in a file `NAME.book`, that are audited with each change of a file of their name in `changes`.
const CHANGED_BOOKS: &[&str] = &[
    "examples/histories/answered-late",
    "examples/histories/answered-late-searched",
    "examples/histories/lost-append",
    "examples/histories/serializable",
    "examples/histories/stale-read",
    "examples/histories/stale-read-searched",
    "examples/histories/write-skew",
    "books/keys-of-two-parts",
    "books/last-place",
    "books/lost-update-and-its-retry",
    "books/many-reads-and-writes",
    "books/one-row-folded",
    "examples/two-tables",
];

fn main(rt: HostRuntime) -> ExitCode {
    match tell_all(&rt) {
        Ok(()) => ExitCode::SUCCESS,
        Err(_) => ExitCode::FAILURE,
    }
}

/// Prints what came of replays and audits, of words and pictures, and of the examples and the books where memory was refused.
fn tell_all(rt: &HostRuntime) -> io::Result<()> {
    tell_examples(rt)?;
    tell_books(rt)?;
    tell_cuts(rt)?;
    tell_devices(rt)?;
    tell_limits(rt)?;
    tell_words(rt)?;
    tell_refusals(rt, EXAMPLES, BOOKS)?;
    tell_handed_back(rt)?;
    tell_page_maps(rt)
}

/// Prints a line for each example, and for each file of malformed lines.
fn tell_examples(rt: &HostRuntime) -> io::Result<()> {
    for name in EXAMPLES {
        tell(rt, name)?;
    }
    for name in OTHERS {
        tell(rt, name)?;
    }
    for name in MALFORMED {
        tell_lines(rt, name)?;
    }
    tell_changed_schedule(rt, "malformed/no-step-of-one-session")
}

/// Prints a line for each book, and of how many books of the examples a store goes on.
fn tell_books(rt: &HostRuntime) -> io::Result<()> {
    for name in BOOKS {
        tell_book(rt, name)?;
    }
    for name in CHANGED_BOOKS {
        tell_changes(rt, name)?;
    }
    tell_cut_book(rt, "examples/two-tables")?;
    tell_printed_again(rt, BOOKS, EXAMPLES)?;
    tell_printed_again(rt, CHANGED_BOOKS, OTHERS)?;
    tell_wrong(rt, BOOKS)?;
    tell_bases(rt, EXAMPLES)?;
    tell_bases(rt, OTHERS)
}

/// Prints what is said in words, and of the pictures.
fn tell_words(rt: &HostRuntime) -> io::Result<()> {
    tell_explanations(rt)?;
    tell_spoiled(rt)?;
    tell_shells(rt)?;
    tell_run(rt)?;
    tell_pictures(rt)
}

/// Prints the line of one example.
fn tell(rt: &HostRuntime, name: &str) -> io::Result<()> {
    let schedule = fs::read_to_string(rt, format!(in rt.alloc(); "{name}.occ")?.as_str())?;
    let wanted = fs::read_to_string(rt, format!(in rt.alloc(); "{name}.out")?.as_str())?;
    let mut reader = schedule.as_bytes();
    let mut written = Vec::new(rt.alloc());
    let ended = replay_text(rt.alloc(), &mut reader, &mut written, false);
    let same = written.as_slice() == wanted.as_bytes();
    match (ended, same) {
        (Ok(()), true) => {
            let verdict = verdict(rt, schedule.as_str());
            println!(rt; "{name}: as written, {verdict}")
        }
        (Err(trouble), true) => println!(rt; "{name}: {trouble}, as written"),
        (_, false) => println!(rt; "{name}: another text"),
    }
}

/// What the audit says of the book that the replay of a schedule prints.
fn verdict(rt: &HostRuntime, schedule: &str) -> &'static str {
    let mut book = Vec::new(rt.alloc());
    let mut reader = schedule.as_bytes();
    if replay_text(rt.alloc(), &mut reader, &mut book, true).is_err() {
        return "no book";
    }
    let mut reader = book.as_slice();
    let mut written = Vec::new(rt.alloc());
    match audit_text(rt.alloc(), &mut reader, &mut written) {
        Ok(true) => "audit yes",
        Ok(false) => "audit no",
        Err(_) => "no audit",
    }
}

/// Prints the line of one book: what its audit wrote, and the status that the program ends with.
fn tell_book(rt: &HostRuntime, name: &str) -> io::Result<()> {
    let book = fs::read_to_string(rt, format!(in rt.alloc(); "{name}.book")?.as_str())?;
    let mut reader = book.as_bytes();
    let mut written = Vec::new(rt.alloc());
    let ended = audit_text(rt.alloc(), &mut reader, &mut written);
    let line = match str::from_utf8(written.as_slice()) {
        Ok(line) => line.trim_end(),
        Err(_) => "",
    };
    println!(rt; "{name}: {line}, status {}", status_of(&ended))
}
