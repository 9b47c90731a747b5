//! The picture of a book.

use crate::cards::Cards;
use crate::compact::Compact;
use crate::headings::Heading;
use crate::lanes::Lanes;
use crate::large::Large;
use crate::rows::Drawn;
use crate::scales::Scale;
use crate::sheets::Sheet;
use crate::times::Times;
use crate::tracks::Tracks;
use occ_book::BookView;
use occ_text::faults::WriteFault;
use occ_types::Schema;
use std::alloc::{AllocError, Allocator};
use std::io::Write;

/// How many rows a log has at most that is drawn large.
const MOST: usize = 40;

/// Writes the picture of a book to a writer, and flushes it: an SVG, as the crate describes it. `schema` has the tables of the book; one that it lacks has no name in the picture.
///
/// At `Memory` there was none, and nothing is written: the whole picture is drawn first. At `Write` the writer failed, and may have a beginning of it.
pub fn write_picture<W: Write, A: Allocator + Copy, O>(
    alloc: A,
    schema: &Schema<A>,
    book: &BookView<'_, A, O>,
    writer: &mut W,
) -> Result<(), WriteFault> {
    let mut sheet = Sheet::new(alloc);
    draw(alloc, schema, book, &mut sheet)?;
    send(writer, sheet.text.as_bytes())
}

fn draw<A: Allocator + Copy, O>(
    alloc: A,
    schema: &Schema<A>,
    book: &BookView<'_, A, O>,
    sheet: &mut Sheet<A>,
) -> Result<(), AllocError> {
    let drawn = Drawn {
        schema,
        log: book.log,
        times: Times::new(alloc, book.log)?,
        lanes: Lanes::new(alloc, book)?,
    };
    if book.log.len() <= MOST {
        return draw_large(alloc, book, &drawn, sheet);
    }
    draw_compact(alloc, book, &drawn, sheet)
}

fn draw_large<A: Allocator + Copy, O>(
    alloc: A,
    book: &BookView<'_, A, O>,
    drawn: &Drawn<'_, A, O>,
    sheet: &mut Sheet<A>,
) -> Result<(), AllocError> {
    let heading = Heading::new(alloc, book.base.place(), drawn)?;
    let cards = Cards::new(alloc, drawn)?;
    let scale = Scale::new(alloc, drawn, &cards, heading.columns())?;
    let large = Large {
        drawn,
        cards,
        scale,
    };
    sheet.draw_heading(book, &large, &heading)?;
    for (row, at) in book.log.iter().enumerate() {
        sheet.draw_large_row(alloc, &large, row, at)?;
    }
    sheet.draw_legend(book, &large)
}

fn draw_compact<A: Allocator + Copy, O>(
    alloc: A,
    book: &BookView<'_, A, O>,
    drawn: &Drawn<'_, A, O>,
    sheet: &mut Sheet<A>,
) -> Result<(), AllocError> {
    let compact = Compact::new(alloc, drawn)?;
    let mut tracks = Tracks::new(alloc, drawn.lanes.sessions().len())?;
    sheet.draw_frame(book, &compact)?;
    sheet.draw_rows(&compact, &mut tracks)?;
    sheet.say("</svg>\n")
}

// Writes all of a text, and flushes it.
fn send<W: Write>(writer: &mut W, text: &[u8]) -> Result<(), WriteFault> {
    if writer.write_all(text).is_err() || writer.flush().is_err() {
        return Err(WriteFault::Write);
    }
    Ok(())
}
