//! Where the columns of a large picture stand, from top to bottom, and its lanes, from left to right, in pixels.

use crate::cards::Cards;
use crate::rows::Drawn;
use std::alloc::{AllocError, Allocator};

/// The height of what is no card.
pub(crate) const MARK: u64 = 26;
/// The height of a line.
pub(crate) const LINE: u64 = 16;
/// The width of a letter, or a little more.
pub(crate) const LETTER: u64 = 8;
/// The width of the bars of a lane, before its cards.
const BARS: u64 = 30;
/// What is free beside the words of a card.
pub(crate) const BESIDE: u64 = 8;
/// Where the first lane begins.
const LEFT: u64 = 12;

/// Where the parts of a large picture stand.
#[derive(Drop)]
pub(crate) struct Scale<A: Allocator> {
    /// Where each column begins, and at last where the last one ends.
    tops: Vec<u64, A>,
    /// The width of a card.
    pub(crate) card: u64,
    /// The width of what is free at the left of a lane, for the lines to its transactions and what stands on them.
    pub(crate) free: u64,
}

impl<A: Allocator + Copy> Scale<A> {
    /// The places where the columns begin at `top`.
    pub(crate) fn new<O>(
        alloc: A,
        drawn: &Drawn<'_, A, O>,
        cards: &Cards<A>,
        top: u64,
    ) -> Result<Scale<A>, AllocError> {
        Ok(Scale {
            tops: tops_of(alloc, drawn, cards, top)?,
            card: width(cards.wide),
            free: width(cards.beside),
        })
    }
}

impl<A: Allocator> Scale<A> {
    /// Where a column begins.
    pub(crate) fn top(&self, column: u64) -> u64 {
        self.tops.get(place_of(column)).copied().unwrap_or(0)
    }

    /// Where a mark of a column is.
    pub(crate) fn middle(&self, column: u64) -> u64 {
        self.top(column).saturating_add(MARK / 2)
    }

    /// Where the lane of a place begins.
    pub(crate) fn lane(&self, lane: u64) -> u64 {
        lane.saturating_mul(self.lane_width()).saturating_add(LEFT)
    }

    /// The width of a lane.
    pub(crate) fn lane_width(&self) -> u64 {
        self.card_place().saturating_add(self.card)
    }

    /// How far a card is from the left of its lane.
    pub(crate) fn card_place(&self) -> u64 {
        self.free.saturating_add(BARS)
    }

    /// How far the bar of a transaction is from the left of its lane: those of numbers that follow each other apart, since a transaction may begin before the last one of its session ended.
    pub(crate) fn bar_place(&self, number: u64) -> u64 {
        let track = match number % 3 {
            0 => 4,
            1 => 13,
            _ => 22,
        };
        self.free.saturating_add(track)
    }
}

// Where each column begins, and at last where the last one ends.
fn tops_of<A: Allocator, O>(
    alloc: A,
    drawn: &Drawn<'_, A, O>,
    cards: &Cards<A>,
    top: u64,
) -> Result<Vec<u64, A>, AllocError> {
    let mut tops = Vec::new(alloc);
    let mut next = top;
    for column in 0..drawn.times.end().saturating_add(2) {
        tops.push(next)?;
        next = next.saturating_add(height_of(drawn, cards, column));
    }
    Ok(tops)
}

// The height of a column: that of the card of the row that entered there, or else of a mark.
fn height_of<A: Allocator, O>(drawn: &Drawn<'_, A, O>, cards: &Cards<A>, column: u64) -> u64 {
    for row in 0..drawn.log.len() {
        if drawn.times.entry(row) == column {
            return card_height(cards.count(row)).saturating_add(BESIDE);
        }
    }
    MARK
}

// The width of words of so many letters.
fn width(letters: usize) -> u64 {
    (letters as u64)
        .saturating_mul(LETTER)
        .saturating_add(BESIDE * 2)
}

/// The height of a card with so many lines.
pub(crate) fn card_height(lines: usize) -> u64 {
    (lines as u64).saturating_mul(LINE).saturating_add(BESIDE)
}

fn place_of(column: u64) -> usize {
    usize::try_from(column).unwrap_or(usize::MAX)
}
