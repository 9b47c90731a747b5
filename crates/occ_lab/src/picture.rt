//! `occ_lab picture`.

use crate::files::{tell_trouble, write_output};
use crate::fronts::read_text;
use anyhow::Result;
use occ_cli::replay_text;
use occ_picture::write_picture;
use occ_reading::whole_books::take_book;
use occ_text::input::Input;
use occ_text::trouble::Trouble;
use occ_words::explaining::is_book;
use std::alloc::Global;

/// Writes the picture of a book, or of a schedule's, to standard output.
pub(crate) fn picture(rt: &HostRuntime, path: &str) -> Result<u8> {
    let text = read_text(rt, path)?;
    match draw(rt.alloc(), text.as_slice()) {
        Ok(picture) => write_output(rt, picture.as_slice()),
        Err(trouble) => tell_trouble(rt, path, text.as_slice(), trouble),
    }
}

// The picture of a book, or of a schedule's.
fn draw(alloc: Global, text: &[u8]) -> Result<Vec<u8>, Trouble> {
    if is_book(text) {
        return draw_book(alloc, text);
    }
    let mut reader = text;
    let mut book = Vec::new(alloc);
    match replay_text(alloc, &mut reader, &mut book, true) {
        Ok(()) => draw_book(alloc, book.as_slice()),
        Err(trouble) => Err(in_memory(trouble)),
    }
}

/// The picture of a printed book.
pub(crate) fn draw_book(alloc: Global, book: &[u8]) -> Result<Vec<u8>, Trouble> {
    let mut picture = Vec::new(alloc);
    match draw_into(alloc, book, &mut picture) {
        Ok(()) => Ok(picture),
        Err(trouble) => Err(in_memory(trouble)),
    }
}

fn draw_into(alloc: Global, book: &[u8], picture: &mut Vec<u8>) -> Result<(), Trouble> {
    let mut input = Input::new(alloc)?;
    let mut reader = book;
    let printed = take_book(alloc, &mut input, &mut reader)?;
    let schema = &printed.header.schema;
    write_picture(alloc, schema, &printed.book.view(), picture)?;
    Ok(())
}

// What ended the writing of a text to memory: that fails for want of it alone.
fn in_memory(trouble: Trouble) -> Trouble {
    match trouble {
        Trouble::Write => Trouble::Memory,
        other => other,
    }
}
