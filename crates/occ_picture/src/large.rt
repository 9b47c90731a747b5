//! The picture of a short history, which is drawn large: time goes down, and each transaction has a card where it entered.

use crate::cards::{Cards, finish_line};
use crate::meetings::meetings_of;
use crate::pieces::Piece;
use crate::rows::{Drawn, name_of};
use crate::scales::{BESIDE, LINE, MARK, Scale, card_height};
use crate::sheets::Sheet;
use occ_book::{LogRow, Standing};
use std::alloc::{AllocError, Allocator};

/// What a large picture is drawn from.
#[derive(Drop)]
pub(crate) struct Large<'a, A: Allocator, O> {
    pub(crate) drawn: &'a Drawn<'a, A, O>,
    pub(crate) cards: Cards<A>,
    pub(crate) scale: Scale<A>,
}

/// Where a row is in a large picture, in pixels.
#[derive(Clone, Copy)]
pub(crate) struct Spot {
    /// Where its lane begins, from the left.
    pub(crate) lane: u64,
    /// Where its bar is, from the left.
    pub(crate) bar: u64,
    /// Where its card begins, from the left.
    pub(crate) card: u64,
    /// How far its start is from the top.
    pub(crate) start: u64,
    /// How far its entry is from the top: the middle of the first line of its card.
    pub(crate) entry: u64,
    /// How far its end is from the top.
    pub(crate) end: u64,
}

impl<A: Allocator, O> Large<'_, A, O> {
    /// Where the lanes end below.
    pub(crate) fn bottom(&self) -> u64 {
        self.scale.top(self.drawn.times.end().saturating_add(1))
    }

    /// Where a row is.
    pub(crate) fn spot(&self, row: usize, at: &LogRow<A, O>) -> Spot {
        let times = &self.drawn.times;
        let lane = self.scale.lane(self.drawn.lanes.lane(at.session));
        Spot {
            lane,
            bar: lane.saturating_add(self.scale.bar_place(at.number)),
            card: lane.saturating_add(self.scale.card_place()),
            start: self.scale.middle(times.start(row, at.start)),
            entry: self.scale.middle(times.entry(row)),
            end: self.scale.middle(times.end_of(row, &at.standing)),
        }
    }
}

impl<A: Allocator + Copy> Sheet<A> {
    /// Appends a row of a large picture.
    pub(crate) fn draw_large_row<O>(
        &mut self,
        alloc: A,
        large: &Large<'_, A, O>,
        row: usize,
        at: &LogRow<A, O>,
    ) -> Result<(), AllocError> {
        self.tell_title(alloc, large.drawn, row, at)?;
        let spot = large.spot(row, at);
        self.draw_bar(spot, name_of(&at.standing))?;
        self.draw_card(large, row, at, spot)?;
        self.draw_finish(spot, &at.standing)?;
        self.say("</g>\n")
    }

    fn tell_title<O>(
        &mut self,
        alloc: A,
        drawn: &Drawn<'_, A, O>,
        row: usize,
        at: &LogRow<A, O>,
    ) -> Result<(), AllocError> {
        let meetings = meetings_of(alloc, drawn.log, row, at)?;
        self.tell_all(drawn, at, &meetings)
    }

    // Appends the bar of a row from its start to its end.
    fn draw_bar(&mut self, spot: Spot, name: &str) -> Result<(), AllocError> {
        let start = (spot.bar, spot.start);
        let entry = (spot.bar, spot.entry);
        let end = (spot.bar, spot.end);
        self.draw_symbol("start", start)?;
        self.draw_line("read", start, entry)?;
        self.draw_line("read", entry, (spot.card, spot.entry))?;
        self.draw_line("end", entry, end)?;
        self.draw_symbol(name, end)
    }

    // Appends the card of a row, with its words and the lines to its opponents.
    fn draw_card<O>(
        &mut self,
        large: &Large<'_, A, O>,
        row: usize,
        at: &LogRow<A, O>,
        spot: Spot,
    ) -> Result<(), AllocError> {
        let top = spot.entry.saturating_sub(MARK / 2);
        let height = card_height(large.cards.count(row));
        self.draw_box("card hollow", (spot.card, top), (large.scale.card, height))?;
        let mut y = spot.entry;
        for piece in &large.cards.pieces {
            if piece.row == row {
                self.draw_piece(large, at, spot, piece, y)?;
                y = y.saturating_add(LINE);
            }
        }
        Ok(())
    }

    fn draw_piece<O>(
        &mut self,
        large: &Large<'_, A, O>,
        at: &LogRow<A, O>,
        spot: Spot,
        piece: &Piece<A>,
        y: u64,
    ) -> Result<(), AllocError> {
        let beside = (spot.card.saturating_add(BESIDE), y.saturating_add(4));
        self.draw_words(piece.class, piece.words.as_slice(), beside)?;
        match piece.opponent {
            Some(place) => self.draw_way(large, at, spot, (piece.class, y), place),
            None => Ok(()),
        }
    }

    // Appends what is said beside the finish of a row.
    fn draw_finish<O>(&mut self, spot: Spot, standing: &Standing<O>) -> Result<(), AllocError> {
        let Standing::Done(number) = standing else {
            return Ok(());
        };
        finish_line(&mut self.line, *number)?;
        let beside = (spot.card.saturating_add(BESIDE), spot.end.saturating_add(4));
        self.draw_told("finish", usize::MAX, beside)
    }
}
