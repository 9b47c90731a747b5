//! Books of schedules, and stores that go on from them.

use occ_book::Base;
use occ_cli::replay_text;
use occ_reading::bases::NoBase;
use occ_reading::whole_books::take_book;
use occ_text::headers::Header;
use occ_text::input::Input;
use occ_text::trouble::Trouble;
use occ_words::schedule_steps::Steps;
use occ_words::shells::shell_steps;
use std::alloc::Global;
use std::{fs, io, str};

/// What became of a book.
#[derive(Clone, Copy, Debug, PartialEq, Eq)]
enum End {
    /// A store went on from it, with its tables.
    Right,
    /// One did, with other tables.
    Other,
    /// It leaves no base.
    Refused(NoBase),
}

/// Tells of how many books of schedules a store goes on with their tables, how many have a row under way, and of which neither is true.
pub(crate) fn tell_bases(rt: &HostRuntime, schedules: &[&str]) -> io::Result<()> {
    let (mut right, mut busy) = (0u64, 0u64);
    for name in schedules {
        let schedule = fs::read(rt, format!(in rt.alloc(); "{name}.occ")?.as_str())?;
        match end_of(rt.alloc(), schedule.as_slice()) {
            Ok(End::Right) => right = right.saturating_add(1),
            Ok(End::Refused(NoBase::Busy)) => busy = busy.saturating_add(1),
            Ok(end) => println!(rt; "{name}: {end:?}")?,
            // a malformed schedule has no book
            Err(_trouble) => {}
        }
    }
    println!(rt;
        "books to go on from: {right} with their tables, {busy} refused with a row under way"
    )
}

/// Tells why no store goes on from a book that is wrong.
pub(crate) fn tell_wrong(rt: &HostRuntime, books: &[&str]) -> io::Result<()> {
    for name in books {
        let book = fs::read(rt, format!(in rt.alloc(); "{name}.book")?.as_str())?;
        match base_of(rt.alloc(), book.as_slice()) {
            Ok(Ok(_left)) => println!(rt; "{name}: a store goes on from it")?,
            Ok(Err(cause)) => println!(rt; "{name}: none goes on from it, {cause:?}")?,
            Err(trouble) => println!(rt; "{name}: {trouble}")?,
        }
    }
    Ok(())
}

// What becomes of the book of a schedule.
fn end_of(alloc: Global, schedule: &[u8]) -> Result<End, Trouble> {
    let mut reader = schedule;
    let mut book = Vec::new(alloc);
    let _holds = replay_text(alloc, &mut reader, &mut book, true)?;
    let (header, base) = match base_of(alloc, book.as_slice())? {
        Ok(left) => left,
        Err(cause) => return Ok(End::Refused(cause)),
    };
    let Ok(mut steps) = Steps::resume(alloc, header, base.renumbered()) else {
        return Ok(End::Other);
    };
    let mut words: &[u8] = b"book\naudit\n";
    let mut told = Vec::new(alloc);
    let _end = shell_steps(alloc, &mut steps, &mut words, &mut told)?;
    let told = str::from_utf8(told.as_slice()).unwrap_or("");
    let book = str::from_utf8(book.as_slice()).unwrap_or("");
    let is_right = told.ends_with("\naudit yes\n") && tables_in(told) == tables_in(book);
    Ok(if is_right { End::Right } else { End::Other })
}

// How the store of a book was opened, and its base, or why it leaves none.
fn base_of(
    alloc: Global,
    text: &[u8],
) -> Result<Result<(Header<Global>, Base<Global>), NoBase>, Trouble> {
    let mut input = Input::new(alloc)?;
    let mut reader = text;
    let printed = take_book(alloc, &mut input, &mut reader)?;
    match printed.into_base(alloc) {
        Ok(left) => Ok(Ok(left)),
        Err(refused) => Ok(Err(refused.cause)),
    }
}

// The lines of the tables in a book.
fn tables_in(book: &str) -> Option<&str> {
    let (_log, behind) = book.split_once("\nstate ")?;
    let (tables, _counter) = behind.split_once("\ncounter ")?;
    Some(tables)
}
