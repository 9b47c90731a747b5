//! The legend of a large picture: what occurs in it.

use crate::large::Large;
use crate::rows::name_of;
use crate::scales::MARK;
use crate::sheets::{Point, Sheet};
use occ_book::{BookView, LogRow};
use std::alloc::{AllocError, Allocator};

/// What a legend explains.
#[derive(Clone, Copy)]
enum Sample {
    Read,
    Done,
    Conflict,
    TooOld,
    Writing,
    Open,
    Closed,
    Met,
    Perhaps,
}

const SAMPLES: [Sample; 9] = [
    Sample::Read,
    Sample::Done,
    Sample::Conflict,
    Sample::TooOld,
    Sample::Writing,
    Sample::Open,
    Sample::Closed,
    Sample::Met,
    Sample::Perhaps,
];

const TIME: &[u8] = b"Time goes down, in the order of the log.";

impl Sample {
    // The name of its symbol or of its class.
    fn name(self) -> &'static str {
        match self {
            Sample::Read => "read",
            Sample::Done => "done",
            Sample::Conflict => "conflict",
            Sample::TooOld => "tooold",
            Sample::Writing => "writing",
            Sample::Open => "open",
            Sample::Closed => "closed",
            Sample::Met => "met",
            Sample::Perhaps => "perhaps",
        }
    }

    fn words(self) -> &'static str {
        match self {
            Sample::Read => "reads, from the finish that it saw last to its entry, the card",
            Sample::Done => "committed: writes from its entry to its finish",
            Sample::Conflict => "backed up: conflict",
            Sample::TooOld => "backed up: too old",
            Sample::Writing => "committed, and still writing",
            Sample::Open => "open: entered, and not decided",
            Sample::Closed => "the session is closed",
            Sample::Met => "met this opponent: where it finished, or was active then",
            Sample::Perhaps => "may have met this one, if it was active until it was backed up",
        }
    }

    // Whether it occurs in a picture.
    fn occurs<A: Allocator, O>(self, book: &BookView<'_, A, O>, large: &Large<'_, A, O>) -> bool {
        let name = self.name();
        match self {
            Sample::Read => !book.log.is_empty(),
            Sample::Closed => !book.marks.is_empty(),
            Sample::Met | Sample::Perhaps => large.cards.has(name),
            _ => has_standing(book.log, name),
        }
    }
}

// Whether a log has a row with a standing of a name.
fn has_standing<A: Allocator, O>(log: &[LogRow<A, O>], name: &str) -> bool {
    for row in log {
        if name_of(&row.standing) == name {
            return true;
        }
    }
    false
}

/// The height of the legend of a picture.
pub(crate) fn legend_height<A: Allocator, O>(
    book: &BookView<'_, A, O>,
    large: &Large<'_, A, O>,
) -> u64 {
    let mut height = MARK * 2;
    for sample in &SAMPLES {
        if sample.occurs(book, large) {
            height = height.saturating_add(MARK);
        }
    }
    height
}

impl<A: Allocator + Copy> Sheet<A> {
    /// Appends the legend, and the end of the picture.
    pub(crate) fn draw_legend<O>(
        &mut self,
        book: &BookView<'_, A, O>,
        large: &Large<'_, A, O>,
    ) -> Result<(), AllocError> {
        let mut y = large.bottom().saturating_add(MARK);
        self.draw_words("words", TIME, (12, y))?;
        for sample in &SAMPLES {
            if sample.occurs(book, large) {
                y = y.saturating_add(MARK);
                self.draw_sample(*sample, y)?;
                let under = y.saturating_add(4);
                self.draw_words("words", sample.words().as_bytes(), (64, under))?;
            }
        }
        self.say("</svg>\n")
    }

    // Appends what an entry of the legend explains.
    fn draw_sample(&mut self, sample: Sample, y: u64) -> Result<(), AllocError> {
        let (from, to) = ((20, y), (44, y));
        let name = sample.name();
        match sample {
            Sample::Met | Sample::Perhaps => self.draw_line(name, from, to),
            Sample::Closed => self.draw_symbol(name, (32, y.saturating_sub(2))),
            Sample::Read => self.draw_bar_of("open", "read", from, to),
            Sample::Conflict | Sample::TooOld => {
                self.draw_bar_of(name, "read", from, to)?;
                self.draw_symbol_of(name, to)
            }
            Sample::Done | Sample::Writing | Sample::Open => {
                self.draw_bar_of(name, "end", from, to)?;
                self.draw_symbol_of(name, to)
            }
        }
    }

    // Appends a part of a bar in a group of a class.
    fn draw_bar_of(
        &mut self,
        class: &str,
        part: &str,
        from: Point,
        to: Point,
    ) -> Result<(), AllocError> {
        self.begin_group(class)?;
        self.draw_line(part, from, to)?;
        self.say("</g>\n")
    }

    // Appends the symbol of a class in a group of it.
    fn draw_symbol_of(&mut self, class: &str, at: Point) -> Result<(), AllocError> {
        self.begin_group(class)?;
        self.draw_symbol(class, at)?;
        self.say("</g>\n")
    }

    fn begin_group(&mut self, class: &str) -> Result<(), AllocError> {
        self.say("<g class=\"")?;
        self.say(class)?;
        self.say("\">\n")
    }
}
