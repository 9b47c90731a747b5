//! Books of which each digit is another in turn.

use occ_cli::audit_text;
use occ_words::explaining::explain_text;
use occ_words::telling::{Style, Told};
use std::alloc::{AllocError, Global};
use std::{fs, io, str};

/// Books of which each digit is spoiled in turn.
const BOOKS: [&str; 2] = ["words/book.book", "words/standings.book"];

/// What came of the books that were spoiled.
#[derive(Clone, Copy, Debug)]
struct Counts {
    /// How many there were.
    tried: u64,
    /// How many the audit takes for none, or says no of.
    wrong: u64,
    /// Of how many of these the first line that is told names the very line that was spoiled.
    named: u64,
    /// Of how many the explanation and the audit don't agree.
    apart: u64,
}

/// Spoils the books, and tells what came of each.
pub(crate) fn tell_spoiled(rt: &HostRuntime) -> io::Result<()> {
    for file in BOOKS {
        spoil(rt, file)?;
    }
    Ok(())
}

/// Spoils each digit of a book by other ones, and tells what came of that.
fn spoil(rt: &HostRuntime, file: &str) -> io::Result<()> {
    let mut book = fs::read(rt, file)?;
    let mut counts = Counts {
        tried: 0,
        wrong: 0,
        named: 0,
        apart: 0,
    };
    let mut line: u64 = 1;
    for place in 0..book.len() {
        let byte = book[place];
        if byte == b'\n' {
            line = line.saturating_add(1);
        }
        if byte.is_ascii_digit() {
            for digit in b"012359" {
                book[place] = *digit;
                judge(rt.alloc(), book.as_slice(), line, &mut counts)?;
            }
            book[place] = byte;
        }
    }
    let Counts {
        tried,
        wrong,
        named,
        apart,
    } = counts;
    println!(rt;
        "{file}: {tried} spoiled, {wrong} of them wrong, {named} of these named at the line, {apart} judged apart"
    )
}

// Judges a book that is spoiled at a line.
fn judge(alloc: Global, book: &[u8], line: u64, counts: &mut Counts) -> Result<(), AllocError> {
    let mut written = Vec::new(alloc);
    let mut told = Told::new(alloc, "t", Style::Text)?;
    let explained = explain_text(alloc, book, &mut told, &mut written).ok();
    let audited = audit(alloc, book);
    counts.tried = counts.tried.saturating_add(1);
    if explained != audited {
        counts.apart = counts.apart.saturating_add(1);
    }
    if audited != Some(true) {
        counts.wrong = counts.wrong.saturating_add(1);
        let front = format!(in alloc; "t:{line}: ")?;
        if written.as_slice().starts_with(front.as_bytes()) {
            counts.named = counts.named.saturating_add(1);
        }
    }
    Ok(())
}

// What the audit says of a book, or none where it is malformed.
fn audit(alloc: Global, book: &[u8]) -> Option<bool> {
    let mut reader = book;
    let mut written = Vec::new(alloc);
    audit_text(alloc, &mut reader, &mut written).ok()
}
