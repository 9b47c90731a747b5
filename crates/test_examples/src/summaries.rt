//! What is told of a run at its end.

use occ_words::run_summaries::{Summary, ends_of};
use std::{fs, io};

/// Tells what would be told of a run with this book.
pub(crate) fn tell_run(rt: &HostRuntime) -> io::Result<()> {
    let book = fs::read(rt, "words/book.book")?;
    let summary = Summary {
        took: 1_250_000,
        ends: ends_of(book.as_slice()),
        retried: 3,
        alone: 2,
        memory: Some(4_096),
        holds: true,
    };
    let text = summary.text(rt.alloc())?;
    let json = summary.json(rt.alloc())?;
    print!(rt; "{text}{json}")
}
