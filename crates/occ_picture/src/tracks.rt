//! The tracks of the lanes of a compact picture: on which of its bands bars were drawn that go through the whole band.

use std::alloc::{AllocError, Allocator};

/// How far such bars were drawn, track by track. A lane has two.
///
/// Of a history of a store no two bars are on one track at a time. In a book that no store wrote, all may be, and one of them is drawn.
#[derive(Drop)]
pub(crate) struct Tracks<A: Allocator> {
    /// Of each track the first band through which no bar was drawn, nor through one behind it.
    free: Vec<u64, A>,
}

impl<A: Allocator> Tracks<A> {
    /// The tracks of so many lanes.
    pub(crate) fn new(alloc: A, lanes: usize) -> Result<Tracks<A>, AllocError> {
        let mut free = Vec::new(alloc);
        for _ in 0..lanes {
            free.push(0)?;
            free.push(0)?;
        }
        Ok(Tracks { free })
    }

    /// The first one of the bands from one to another, without that, through which a bar of a number in a lane is to be drawn. No further bar is drawn through them.
    pub(crate) fn take(&mut self, lane: u64, number: u64, from: u64, to: u64) -> u64 {
        let track = lane.saturating_mul(2).saturating_add(number % 2);
        let place = usize::try_from(track).unwrap_or(usize::MAX);
        match self.free.get_mut(place) {
            Some(free) => {
                let first = from.max(*free);
                *free = to.max(*free);
                first
            }
            None => to,
        }
    }
}
