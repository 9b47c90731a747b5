//! What stands around the cards of a large picture: its style, what happened in a sentence, and its lanes.

use crate::frame::{COLOURS, SYMBOLS};
use crate::large::Large;
use crate::legends::legend_height;
use crate::pieces::{Kind, Piece, push_pieces};
use crate::rows::Drawn;
use crate::scales::{BESIDE, LETTER, LINE, MARK};
use crate::sheets::Sheet;
use crate::stories::write_story;
use occ_book::BookView;
use occ_text::writers::write_counted;
use std::alloc::{AllocError, Allocator};

/// How many letters a line over the picture has.
const WIDE: usize = 72;
/// Where the first of these lines is.
const FIRST: u64 = 24;
/// The height of the names of the lanes.
const NAMES: u64 = 44;

const TEXTS: &str = "<style>
text{font:12px monospace;fill:#333}.story,.head,.name{font-weight:bold}.head,.finish,.object{fill:currentColor}.before{text-anchor:end}
.card{stroke-width:1.5;rx:4px}.open .card{stroke-dasharray:6 3}.paper{fill:#fff}.lane{fill:#f3f3f3}
text.met,text.perhaps{stroke:none;opacity:1}#start,#writing,#closed{transform:rotate(90deg)}
";

/// What stands over a large picture: what happened, and what was folded.
#[derive(Drop)]
pub(crate) struct Heading<A: Allocator> {
    story: String<A>,
    pieces: Vec<Piece<A>, A>,
}

impl<A: Allocator + Copy> Heading<A> {
    /// What stands over the picture of a book.
    pub(crate) fn new<O>(
        alloc: A,
        place: usize,
        drawn: &Drawn<'_, A, O>,
    ) -> Result<Heading<A>, AllocError> {
        let mut story = String::new(alloc);
        write_story(alloc, &mut story, drawn)?;
        let mut pieces = Vec::new(alloc);
        let class = of_class("story");
        push_pieces(alloc, &mut pieces, class, WIDE, story.as_bytes())?;
        if place > 0 {
            let mut folded = String::new(alloc);
            write_counted(&mut folded, "folded: rows before place ", place as u64)?;
            let class = of_class("words");
            push_pieces(alloc, &mut pieces, class, WIDE, folded.as_bytes())?;
        }
        Ok(Heading { story, pieces })
    }

    /// Where the lanes begin below it.
    fn bottom(&self) -> u64 {
        let lines = self.pieces.len() as u64;
        lines.saturating_mul(LINE).saturating_add(FIRST)
    }

    /// Where the columns begin below it.
    pub(crate) fn columns(&self) -> u64 {
        self.bottom().saturating_add(NAMES)
    }
}

fn of_class(class: &'static str) -> Kind {
    Kind {
        row: 0,
        class,
        opponent: None,
    }
}

impl<A: Allocator + Copy> Sheet<A> {
    /// Appends all that stands behind the cards: the size, the style, the symbols, what happened, and the lanes.
    pub(crate) fn draw_heading<O>(
        &mut self,
        book: &BookView<'_, A, O>,
        large: &Large<'_, A, O>,
        heading: &Heading<A>,
    ) -> Result<(), AllocError> {
        let lanes = large.drawn.lanes.sessions();
        let least = (WIDE as u64) * LETTER + 3 * BESIDE;
        let width = large.scale.lane(lanes.len() as u64).saturating_add(BESIDE);
        let bottom = large.bottom().saturating_add(legend_height(book, large));
        self.draw_size(width.max(least), bottom)?;
        self.say("<title>")?;
        self.tell(heading.story.as_bytes())?;
        self.say("</title>\n")?;
        self.say(TEXTS)?;
        self.say(COLOURS)?;
        self.say(SYMBOLS)?;
        self.say("<rect class=\"paper\" width=\"100%\" height=\"100%\"/>\n")?;
        let mut y = FIRST;
        for piece in &heading.pieces {
            self.draw_words(piece.class, piece.words.as_slice(), (12, y))?;
            y = y.saturating_add(LINE);
        }
        for (lane, session) in lanes.iter().enumerate() {
            self.draw_large_lane(book, large, lane as u64, *session, heading.bottom())?;
        }
        Ok(())
    }

    // Appends the ground of a lane, its name, what was folded of its session, and its closing mark.
    fn draw_large_lane<O>(
        &mut self,
        book: &BookView<'_, A, O>,
        large: &Large<'_, A, O>,
        lane: u64,
        session: usize,
        top: u64,
    ) -> Result<(), AllocError> {
        let left = large.scale.lane(lane);
        if lane % 2 == 0 {
            let height = large.bottom().saturating_sub(top);
            self.draw_box("lane", (left, top), (large.scale.lane_width(), height))?;
        }
        let x = left.saturating_add(BESIDE);
        self.line.clear();
        write_counted(&mut self.line, "session ", session as u64)?;
        self.draw_told("name", usize::MAX, (x, top.saturating_add(LINE)))?;
        if let Some(number) = book.base.last(session) {
            self.line.clear();
            write_counted(&mut self.line, "folded: 1 to ", number)?;
            self.draw_told("words", usize::MAX, (x, top.saturating_add(LINE * 2)))?;
        }
        match book.marks.get(session) {
            Some(_) => {
                let x = left.saturating_add(large.scale.card_place());
                self.draw_closed(x, large.bottom().saturating_sub(MARK / 2))
            }
            None => Ok(()),
        }
    }

    fn draw_closed(&mut self, left: u64, y: u64) -> Result<(), AllocError> {
        let x = left.saturating_add(BESIDE * 2);
        self.draw_symbol("closed", (x, y.saturating_sub(2)))?;
        self.draw_words(
            "words",
            b"closed",
            (x.saturating_add(BESIDE * 2), y.saturating_add(4)),
        )
    }
}
