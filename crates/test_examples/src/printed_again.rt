//! Books that are printed again from what was read of them: in their own version, and in version 1.

use occ_cli::replay_text;
use occ_print::{BookFault, write_readable_book};
use occ_reading::whole_books::{PrintedBook, take_book};
use occ_text::headers::Limits;
use occ_text::input::Input;
use occ_text::output::Output;
use occ_text::versions::Version;
use std::alloc::Global;
use std::{fs, io, str};

/// How many books came out as they were, were refused for what version 1 has no words for, and came out otherwise.
#[derive(Clone, Copy)]
struct Sums {
    same: u64,
    missing_ends: u64,
    pair_keys: u64,
    otherwise: u64,
}

impl Sums {
    fn none() -> Sums {
        Sums {
            same: 0,
            missing_ends: 0,
            pair_keys: 0,
            otherwise: 0,
        }
    }

    /// Notes how the printing of a book ended. One that was refused has nothing printed.
    fn note(&mut self, ended: Option<Result<(), BookFault>>, same: bool, empty: bool) {
        let sum = match ended {
            Some(Ok(())) if same => &mut self.same,
            Some(Err(BookFault::MissingEnd)) if empty => &mut self.missing_ends,
            Some(Err(BookFault::PairKeys)) if empty => &mut self.pair_keys,
            _ => &mut self.otherwise,
        };
        *sum = sum.saturating_add(1);
    }
}

/// Prints how many books come out as they were, of files and of schedules, and how many do in version 1.
pub(crate) fn tell_printed_again(
    rt: &HostRuntime,
    books: &[&str],
    schedules: &[&str],
) -> io::Result<()> {
    let (mut own, mut first) = (Sums::none(), Sums::none());
    for name in books {
        let book = fs::read(rt, format!(in rt.alloc(); "{name}.book")?.as_str())?;
        note(rt.alloc(), book.as_slice(), &mut own, &mut first);
    }
    for name in schedules {
        let schedule = fs::read(rt, format!(in rt.alloc(); "{name}.occ")?.as_str())?;
        // a malformed schedule has no book
        if let Some(book) = book_of(rt.alloc(), schedule.as_slice()) {
            note(rt.alloc(), book.as_slice(), &mut own, &mut first);
        }
    }
    println!(rt;
        "books printed again: {} as they were, {} otherwise",
        own.same, own.otherwise
    )?;
    println!(rt;
        "in version 1: {} as they were, {} refused for a missing end, {} for keys of two parts, {} otherwise",
        first.same, first.missing_ends, first.pair_keys, first.otherwise
    )
}

/// The book of a schedule, without its audit.
fn book_of(alloc: Global, schedule: &[u8]) -> Option<Vec<u8>> {
    let mut reader = schedule;
    let mut book = Vec::new(alloc);
    replay_text(alloc, &mut reader, &mut book, true).ok()?;
    let text = book.as_slice().strip_suffix(b"audit yes\n")?;
    Vec::from_slice(alloc, text).ok()
}

/// Notes how a book comes out in its own version, and in version 1.
fn note(alloc: Global, text: &[u8], own: &mut Sums, first: &mut Sums) {
    let (ended, paper) = printed(alloc, text, None);
    own.note(ended, paper.as_slice() == text, paper.is_empty());
    let (ended, paper) = printed(alloc, text, Some(Version::One));
    let same = behind_version(paper.as_slice()) == behind_version(text)
        && paper.as_slice().starts_with(b"occ 1\n");
    first.note(ended, same, paper.is_empty());
}

/// The lines behind the first one.
fn behind_version(text: &[u8]) -> Option<&str> {
    let (_version, rest) = str::from_utf8(text).ok()?.split_once("\n")?;
    Some(rest)
}

/// How the printing of a book ended that was read of a text, in its own version where none is told, and what was printed. None where the
/// text is no book.
fn printed(
    alloc: Global,
    text: &[u8],
    version: Option<Version>,
) -> (Option<Result<(), BookFault>>, Vec<u8>) {
    let mut paper = Vec::new(alloc);
    let ended = print(alloc, text, version, &mut paper);
    (ended, paper)
}

fn print(
    alloc: Global,
    text: &[u8],
    version: Option<Version>,
    paper: &mut Vec<u8>,
) -> Option<Result<(), BookFault>> {
    let mut reader = text;
    let mut input = Input::new(alloc).ok()?;
    match take_book(alloc, &mut input, &mut reader) {
        Ok(book) => Some(print_book(alloc, &book, version, paper)),
        Err(_) => None,
    }
}

fn print_book(
    alloc: Global,
    printed: &PrintedBook<Global>,
    version: Option<Version>,
    paper: &mut Vec<u8>,
) -> Result<(), BookFault> {
    let own = printed.header.limits;
    let limits = Limits {
        version: version.unwrap_or(own.version),
        sessions: own.sessions,
        queue: own.queue,
        keep: own.keep,
    };
    let mut output = Output::new(alloc);
    let (schema, book) = (&printed.header.schema, printed.book.view());
    write_readable_book(alloc, &mut output, paper, limits, schema, &book)?;
    match output.flush(paper) {
        Ok(()) => Ok(()),
        Err(_failed) => Err(BookFault::Write),
    }
}
