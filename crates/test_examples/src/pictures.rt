//! The pictures of books.

use occ_picture::write_picture;
use occ_reading::whole_books::{PrintedBook, take_book};
use occ_text::input::Input;
use occ_text::trouble::Trouble;
use std::alloc::{Allocator, Global};
use std::{fs, io};
use test_tools::{Plan, Refusing};

/// The books, each in a file `NAME.book` with its picture in `NAME.svg`.
const BOOKS: [&str; 4] = [
    "pictures/all-standings",
    "pictures/bands",
    "pictures/forged",
    "pictures/long",
];

/// Prints of each book whether its picture is the one that lies beside it, also where each request for memory is refused in turn.
pub(crate) fn tell_pictures(rt: &HostRuntime) -> io::Result<()> {
    for name in BOOKS {
        let book = fs::read(rt, format!(in rt.alloc(); "{name}.book")?.as_str())?;
        let wanted = fs::read(rt, format!(in rt.alloc(); "{name}.svg")?.as_str())?;
        let came = came_of(rt.alloc(), book.as_slice(), wanted.as_slice());
        println!(rt; "{name}: {came}")?;
    }
    Ok(())
}

/// What came of drawing a book, whose picture is wanted.
fn came_of(paper: Global, book: &[u8], wanted: &[u8]) -> &'static str {
    let ample = Refusing::new(paper, Plan::Nothing);
    let mut picture = Vec::new(paper);
    if draw(&ample, book, &mut picture).is_err() {
        return "no picture";
    }
    if picture.as_slice() != wanted {
        return "another picture";
    }
    for place in 0..ample.requests() {
        if !is_whole_or_none(paper, book, wanted, place) {
            return "as drawn, but not where memory is refused";
        }
    }
    "as drawn, or nothing where memory is refused"
}

/// Whether a picture is whole, or nothing is written and memory is told to be refused, where one request is.
fn is_whole_or_none(paper: Global, book: &[u8], wanted: &[u8], place: u64) -> bool {
    let lent = Refusing::new(paper, Plan::Once(place));
    let mut picture = Vec::new(paper);
    match draw(&lent, book, &mut picture) {
        Ok(()) => picture.as_slice() == wanted,
        Err(trouble) => trouble == Trouble::Memory && picture.is_empty() && lent.bytes_out() == 0,
    }
}

/// Writes the picture of a book.
fn draw<A: Allocator + Copy>(alloc: A, text: &[u8], picture: &mut Vec<u8>) -> Result<(), Trouble> {
    let mut reader = text;
    let mut input = Input::new(alloc)?;
    let printed = take_book(alloc, &mut input, &mut reader)?;
    draw_printed(alloc, &printed, picture)
}

/// Writes the picture of a book that was read.
fn draw_printed<A: Allocator + Copy>(
    alloc: A,
    printed: &PrintedBook<A>,
    picture: &mut Vec<u8>,
) -> Result<(), Trouble> {
    let schema = &printed.header.schema;
    write_picture(alloc, schema, &printed.book.view(), picture)?;
    Ok(())
}
