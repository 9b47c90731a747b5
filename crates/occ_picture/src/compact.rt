//! The picture of a long history, which is drawn compactly: time goes to the right, in bands.

use crate::bands::Bands;
use crate::meetings::{Meetings, meetings_of};
use crate::places::{LEFT, RIGHT, band_of, track, x_of};
use crate::rows::{Drawn, name_of};
use crate::sheets::{Point, Sheet};
use crate::tracks::Tracks;
use occ_book::{LogRow, Standing};
use std::alloc::{AllocError, Allocator};

/// How far the places are below the beginning of a band.
pub(crate) const PLACES: u64 = 12;
/// How far the counter is below the beginning of a band.
pub(crate) const COUNTERS: u64 = 26;

/// What a compact picture is drawn from.
#[derive(Drop)]
pub(crate) struct Compact<'a, A: Allocator, O> {
    pub(crate) drawn: &'a Drawn<'a, A, O>,
    pub(crate) bands: Bands<A>,
    /// The opponents of each row.
    pub(crate) meetings: Vec<Meetings<A>, A>,
}

impl<'a, A: Allocator + Copy, O> Compact<'a, A, O> {
    /// A picture of a history.
    pub(crate) fn new(
        alloc: A,
        drawn: &'a Drawn<'a, A, O>,
    ) -> Result<Compact<'a, A, O>, AllocError> {
        let mut meetings = Vec::new(alloc);
        for (row, at) in drawn.log.iter().enumerate() {
            meetings.push(meetings_of(alloc, drawn.log, row, at)?)?;
        }
        let bands = Bands::new(alloc, drawn, meetings.as_slice())?;
        Ok(Compact {
            drawn,
            bands,
            meetings,
        })
    }
}

impl<A: Allocator, O> Compact<'_, A, O> {
    // Where a row is at a column.
    fn point(&self, at: &LogRow<A, O>, column: u64) -> Point {
        (x_of(column), self.y(at, band_of(column)))
    }

    // Where a row is in a band, from the top.
    fn y(&self, at: &LogRow<A, O>, band: u64) -> u64 {
        self.bands.y(band, at.session, track(at.number))
    }
}

// Whether a number is told on the axis: of long ones not each.
fn is_told(number: u64) -> bool {
    match number {
        0..=99 => true,
        100..=9999 => number % 5 == 0,
        _ => number % 20 == 0,
    }
}

// Whether the number of a transaction is told in its lane: of long ones each second of a track, for which there is room.
fn is_named(number: u64) -> bool {
    number < 100_000 || number % 4 < 2
}

impl<A: Allocator + Copy> Sheet<A> {
    /// Appends all rows, above the lines to their opponents, so that no line stands over a number.
    pub(crate) fn draw_rows<O>(
        &mut self,
        compact: &Compact<'_, A, O>,
        tracks: &mut Tracks<A>,
    ) -> Result<(), AllocError> {
        let log = compact.drawn.log;
        for (row, (at, met)) in log.iter().zip(&compact.meetings).enumerate() {
            self.draw_meetings(compact, row, at, met)?;
        }
        for (row, (at, met)) in log.iter().zip(&compact.meetings).enumerate() {
            self.draw_row(compact, tracks, (row, at), met)?;
        }
        Ok(())
    }

    // Appends the lines from the entry of a row to its opponents: to the end of each, or to where it was at that entry. One that ended in a band above is at the left of its lane.
    fn draw_meetings<O>(
        &mut self,
        compact: &Compact<'_, A, O>,
        row: usize,
        at: &LogRow<A, O>,
        meetings: &Meetings<A>,
    ) -> Result<(), AllocError> {
        let times = &compact.drawn.times;
        let entry = times.entry(row);
        for place in &meetings.rows {
            if let Some(other) = compact.drawn.log.get(*place) {
                let end = times.end_of(*place, &other.standing).min(entry);
                let to = (x_behind(end, entry), compact.y(other, band_of(entry)));
                self.draw_line(meetings.class(), compact.point(at, entry), to)?;
            }
        }
        Ok(())
    }

    // Appends a row: its number on the axis, what it read and wrote, and its phases.
    fn draw_row<O>(
        &mut self,
        compact: &Compact<'_, A, O>,
        tracks: &mut Tracks<A>,
        row: (usize, &LogRow<A, O>),
        met: &Meetings<A>,
    ) -> Result<(), AllocError> {
        let (row, at) = row;
        self.draw_axis(compact, row, at)?;
        self.tell_all(compact.drawn, at, met)?;
        self.draw_phases(compact, tracks, row, at)
    }

    // Appends the place over the entry, and the number over the finish.
    fn draw_axis<O>(
        &mut self,
        compact: &Compact<'_, A, O>,
        row: usize,
        at: &LogRow<A, O>,
    ) -> Result<(), AllocError> {
        let place = at.place as u64;
        if is_told(place) {
            let column = compact.drawn.times.entry(row);
            self.draw_on_axis(compact, place, column, PLACES)?;
        }
        match at.standing {
            Standing::Done(number) if is_told(number) => {
                let column = compact.drawn.times.end_of(row, &at.standing);
                self.draw_on_axis(compact, number, column, COUNTERS)
            }
            _ => Ok(()),
        }
    }

    fn draw_on_axis<O>(
        &mut self,
        compact: &Compact<'_, A, O>,
        number: u64,
        column: u64,
        below: u64,
    ) -> Result<(), AllocError> {
        let y = compact.bands.top(band_of(column)).saturating_add(below);
        self.draw_label("axis", number, (x_of(column), y))
    }

    // Appends the phases of a row, its symbol and its number.
    fn draw_phases<O>(
        &mut self,
        compact: &Compact<'_, A, O>,
        tracks: &mut Tracks<A>,
        row: usize,
        at: &LogRow<A, O>,
    ) -> Result<(), AllocError> {
        let times = &compact.drawn.times;
        let start = times.start(row, at.start);
        let entry = times.entry(row);
        let end = times.end_of(row, &at.standing);
        self.draw_symbol("start", compact.point(at, start))?;
        self.draw_stretch(compact, tracks, at, "read", (start, entry))?;
        self.draw_stretch(compact, tracks, at, "end", (entry, end))?;
        self.draw_symbol(name_of(&at.standing), compact.point(at, end))?;
        if is_named(at.number) {
            let (x, y) = compact.point(at, entry);
            let beside = (x.saturating_sub(6), y.saturating_sub(5));
            self.draw_label("number", at.number, beside)?;
        }
        self.say("</g>\n")
    }

    // Appends the bar of a row from one column to another, through the bands between them.
    fn draw_stretch<O>(
        &mut self,
        compact: &Compact<'_, A, O>,
        tracks: &mut Tracks<A>,
        at: &LogRow<A, O>,
        class: &str,
        columns: (u64, u64),
    ) -> Result<(), AllocError> {
        let from = compact.point(at, columns.0);
        let to = compact.point(at, columns.1);
        let (first, last) = (band_of(columns.0), band_of(columns.1));
        if first >= last {
            return self.draw_line(class, from, to);
        }
        self.draw_line(class, from, (RIGHT, from.1))?;
        let lane = compact.drawn.lanes.lane(at.session);
        let next = tracks.take(lane, at.number, first.saturating_add(1), last);
        for band in next..last {
            let y = compact.y(at, band);
            self.draw_line(class, (LEFT, y), (RIGHT, y))?;
        }
        self.draw_line(class, (LEFT, to.1), to)
    }
}

// Where a column is in the band of a later one: at its left where it stands in a band above.
fn x_behind(column: u64, later: u64) -> u64 {
    if band_of(column) < band_of(later) {
        LEFT
    } else {
        x_of(column)
    }
}
