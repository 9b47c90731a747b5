//! Books that a store goes on from.

use crate::files::{name_of, tell_trouble};
use anyhow::Result;
use occ_book::Base;
use occ_reading::bases::NoBase;
use occ_reading::whole_books::take_book;
use occ_text::faults::ReadFault;
use occ_text::headers::Header;
use occ_text::input::Input;
use occ_text::trouble::Trouble;
use occ_types::Fault;
use occ_words::explaining::explain_text;
use occ_words::telling::{Style, Told};
use std::alloc::{AllocError, Global};

/// Why no store goes on from a book.
#[derive(Clone, Copy, Debug)]
pub(crate) enum NoStore {
    /// Its text is none, or memory was refused.
    Text(Trouble),
    /// It leaves no base.
    Book(NoBase),
    /// A store refuses its base.
    Store(Fault),
}

impl From<AllocError> for NoStore {
    fn from(_refused: AllocError) -> NoStore {
        NoStore::Text(Trouble::Memory)
    }
}

impl From<ReadFault> for NoStore {
    fn from(fault: ReadFault) -> NoStore {
        NoStore::Text(Trouble::from(fault))
    }
}

/// How the store of a book was opened, and what it leaves for one that goes on from it: with no number of a session, so that each begins anew.
pub(crate) fn base_of(
    alloc: Global,
    text: &[u8],
) -> Result<(Header<Global>, Base<Global>), NoStore> {
    let mut input = Input::new(alloc)?;
    let mut reader = text;
    let printed = take_book(alloc, &mut input, &mut reader)?;
    match printed.into_base(alloc) {
        Ok((header, base)) => Ok((header, base.renumbered())),
        Err(refused) => Err(NoStore::Book(refused.cause)),
    }
}

/// Tells why no store goes on from the book of a file, and answers the status.
pub(crate) fn tell_no_store(
    rt: &HostRuntime,
    path: &str,
    text: &[u8],
    cause: NoStore,
) -> Result<u8> {
    let why = match cause {
        NoStore::Text(trouble) => return tell_trouble(rt, path, text, trouble),
        NoStore::Book(NoBase::Memory) | NoStore::Store(Fault::Memory) => return tell_trouble(
            rt,
            path,
            text,
            Trouble::Memory,
        ),
        NoStore::Book(NoBase::Wrong) => {
            tell_wrong(rt, path, text)?;
            "its audit says no"
        }
        NoStore::Book(NoBase::Busy) =>
            "a transaction of it is open or in its write phase; end that first",
        NoStore::Book(NoBase::Full) | NoStore::Store(_) =>
            "its last place is past the greatest that a log may begin at",
    };
    let name = name_of(path);
    eprintln!(rt; "occ_lab: {name}: no store goes on from this book: {why}")?;
    Ok(3)
}

// Tells on standard error what the audit of a book says no for.
fn tell_wrong(rt: &HostRuntime, path: &str, text: &[u8]) -> Result<()> {
    let mut told = Told::new(rt.alloc(), name_of(path), Style::Text)?;
    // the status tells that it is wrong where this can't be written
    let _told = explain_text(rt.alloc(), text, &mut told, &mut rt.stderr());
    Ok(())
}
