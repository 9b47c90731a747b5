//! The lines from the cards of a large picture to the opponents that were met.

use crate::cards::BESIDE_CARDS;
use crate::large::{Large, Spot};
use crate::scales::{BESIDE, LINE};
use crate::sheets::{Point, Sheet};
use crate::words::write_met;
use occ_book::{LogRow, Standing};
use std::alloc::{AllocError, Allocator};

impl<A: Allocator + Copy> Sheet<A> {
    /// Appends the line from a card to the opponent at a place, and over it the object on which they met. `way` is its class, and the height at which it begins.
    pub(crate) fn draw_way<O>(
        &mut self,
        large: &Large<'_, A, O>,
        at: &LogRow<A, O>,
        spot: Spot,
        way: (&'static str, u64),
        place: usize,
    ) -> Result<(), AllocError> {
        let Some(other) = large.drawn.log.get(place) else {
            return Ok(());
        };
        let their = large.spot(place, other);
        let width = if their.lane > spot.lane {
            large.scale.card
        } else {
            0
        };
        let from = (spot.card.saturating_add(width), way.1);
        if their.end > spot.entry {
            self.draw_line(way.0, from, (beside_bar(their.bar, from.0), way.1))?;
        } else {
            let free = large.scale.free.saturating_sub(BESIDE);
            let turn = their.lane.saturating_add(free);
            self.draw_turns(way.0, from, turn, end_of_way(their, &other.standing))?;
        }
        self.line.clear();
        write_met(&mut self.line, large.drawn.schema, at, other)?;
        let next = spot.lane.saturating_add(large.scale.lane_width());
        self.draw_object(large.cards.wide, spot.lane, their.lane, next, way.1)
    }

    // Appends the object in the line over a line: in the lane at the left, where no other words stand at this height, or in what is free at the left of the next lane.
    fn draw_object(
        &mut self,
        wide: usize,
        own: u64,
        their: u64,
        next: u64,
        y: u64,
    ) -> Result<(), AllocError> {
        let over = y.saturating_sub(4);
        if their < own {
            let at = (own.saturating_sub(BESIDE), over);
            self.draw_told("object before", wide, at)
        } else if their > own {
            self.draw_told("object", BESIDE_CARDS, (next.saturating_add(4), over))
        } else {
            Ok(())
        }
    }
}

// Where a line from one side ends at the bar of an opponent that was active.
fn beside_bar(bar: u64, from: u64) -> u64 {
    if from < bar {
        bar.saturating_sub(4)
    } else {
        bar.saturating_add(4)
    }
}

// Where a line by the left of the lane of an opponent ends: at its finish, or at the card of one that was backed up.
fn end_of_way<O>(their: Spot, standing: &Standing<O>) -> Point {
    match standing {
        Standing::Back(_) => (their.card, their.entry.saturating_add(LINE)),
        _ => (their.bar.saturating_sub(6), their.end),
    }
}
