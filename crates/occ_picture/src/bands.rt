//! The bands of a compact picture, and the lanes that each of them has: those of the sessions that did something there.

use crate::meetings::Meetings;
use crate::places::band_of;
use crate::rows::Drawn;
use std::alloc::{AllocError, Allocator};

/// Where the first band begins.
const TOP: u64 = 110;
/// The height of what stands over the lanes of a band.
const AXIS: u64 = 32;
/// The height of a lane.
const LANE: u64 = 54;
/// How much is free below a band.
const BELOW: u64 = 16;

/// The lanes of all bands.
#[derive(Drop)]
pub(crate) struct Bands<A: Allocator> {
    /// Of each lane its band and its session, in their order.
    lanes: Vec<(u64, usize), A>,
    /// Of each session the band that has its first lane.
    firsts: Vec<(usize, u64), A>,
    /// Of each session the band that has its last lane.
    lasts: Vec<(usize, u64), A>,
    /// How many bands there are.
    count: u64,
}

/// A session, with the first and the last of some bands that follow each other.
type Stay = (usize, u64, u64);

impl<A: Allocator + Copy> Bands<A> {
    /// The bands of a history, of whose rows each has met opponents.
    pub(crate) fn new<O>(
        alloc: A,
        drawn: &Drawn<'_, A, O>,
        meetings: &[Meetings<A>],
    ) -> Result<Bands<A>, AllocError> {
        let mut stays = Vec::new(alloc);
        push_stays(&mut stays, drawn)?;
        push_opponents(&mut stays, drawn, meetings)?;
        stays.sort_unstable();
        let mut lanes = Vec::new(alloc);
        push_lanes(&mut lanes, stays.as_slice())?;
        let firsts = firsts_of(alloc, lanes.as_slice())?;
        let lasts = lasts_of(alloc, lanes.as_slice())?;
        lanes.sort_unstable();
        let count = band_of(drawn.times.end()).saturating_add(1);
        Ok(Bands {
            lanes,
            firsts,
            lasts,
            count,
        })
    }
}

impl<A: Allocator> Bands<A> {
    /// The lanes, band by band: of each its band and its session.
    pub(crate) fn lanes(&self) -> &[(u64, usize)] {
        self.lanes.as_slice()
    }

    /// How many bands there are.
    pub(crate) fn count(&self) -> u64 {
        self.count
    }

    /// How many sessions have a lane.
    pub(crate) fn sessions(&self) -> u64 {
        self.firsts.len() as u64
    }

    /// Whether a band has the first lane of a session.
    pub(crate) fn is_first(&self, session: usize, band: u64) -> bool {
        self.firsts.binary_search(&(session, band)).is_ok()
    }

    /// Whether a band has the last lane of a session.
    pub(crate) fn is_last(&self, session: usize, band: u64) -> bool {
        self.lasts.binary_search(&(session, band)).is_ok()
    }

    /// Where a band begins, from the top.
    pub(crate) fn top(&self, band: u64) -> u64 {
        height_of(band, self.lane(band, 0))
    }

    /// Where the last band ends.
    pub(crate) fn bottom(&self) -> u64 {
        self.top(self.count)
    }

    /// What is so far below the beginning of the lane of a session in a band.
    pub(crate) fn y(&self, band: u64, session: usize, below: u64) -> u64 {
        let top = height_of(band, self.lane(band, session));
        top.saturating_add(AXIS).saturating_add(below)
    }

    /// Whether the lane of a session in a band has a darker ground: each second one has.
    pub(crate) fn is_dark(&self, band: u64, session: usize) -> bool {
        let place = self.lane(band, session);
        place.saturating_sub(self.lane(band, 0)) % 2 == 0
    }

    // How many lanes stand before that of a session in a band, in all bands.
    fn lane(&self, band: u64, session: usize) -> u64 {
        let (Ok(place) | Err(place)) = self.lanes.binary_search(&(band, session));
        place as u64
    }
}

// The height of all that stands before a band, and of so many lanes.
fn height_of(bands: u64, lanes: u64) -> u64 {
    let heads = bands.saturating_mul(AXIS + BELOW);
    lanes
        .saturating_mul(LANE)
        .saturating_add(heads)
        .saturating_add(TOP)
}

// Appends in which bands each row was under way.
fn push_stays<A: Allocator, O>(
    stays: &mut Vec<Stay, A>,
    drawn: &Drawn<'_, A, O>,
) -> Result<(), AllocError> {
    for (row, at) in drawn.log.iter().enumerate() {
        let first = band_of(drawn.times.start(row, at.start));
        let last = band_of(drawn.times.end_of(row, &at.standing));
        stays.push((at.session, first, last))?;
    }
    Ok(())
}

// Appends the sessions of opponents in the bands to which lines lead to them.
fn push_opponents<A: Allocator, O>(
    stays: &mut Vec<Stay, A>,
    drawn: &Drawn<'_, A, O>,
    meetings: &[Meetings<A>],
) -> Result<(), AllocError> {
    for (row, met) in meetings.iter().enumerate() {
        let band = band_of(drawn.times.entry(row));
        for place in &met.rows {
            if let Some(other) = drawn.log.get(*place) {
                stays.push((other.session, band, band))?;
            }
        }
    }
    Ok(())
}

// Appends the lanes of stays, which are in their order: session by session, and each once.
fn push_lanes<A: Allocator>(
    lanes: &mut Vec<(u64, usize), A>,
    stays: &[Stay],
) -> Result<(), AllocError> {
    let mut of = None;
    let mut next = 0;
    for (session, first, last) in stays {
        if of != Some(*session) {
            of = Some(*session);
            next = 0;
        }
        for band in next.max(*first)..last.saturating_add(1) {
            lanes.push((band, *session))?;
        }
        next = next.max(last.saturating_add(1));
    }
    Ok(())
}

// Of each session the band of its first lane. The lanes stand session by session.
fn firsts_of<A: Allocator>(
    alloc: A,
    lanes: &[(u64, usize)],
) -> Result<Vec<(usize, u64), A>, AllocError> {
    let mut firsts = Vec::new(alloc);
    let mut before = None;
    for (band, session) in lanes {
        if before != Some(*session) {
            firsts.push((*session, *band))?;
        }
        before = Some(*session);
    }
    Ok(firsts)
}

// Of each session the band of its last lane. The lanes stand session by session.
fn lasts_of<A: Allocator>(
    alloc: A,
    lanes: &[(u64, usize)],
) -> Result<Vec<(usize, u64), A>, AllocError> {
    let mut lasts = Vec::new(alloc);
    for (place, (band, session)) in lanes.iter().enumerate() {
        match lanes.get(place.saturating_add(1)) {
            Some((_, next)) if *next == *session => {}
            _ => lasts.push((*session, *band))?,
        }
    }
    Ok(lasts)
}
