//! The lanes of a picture: the sessions that a book tells something of.

use occ_book::BookView;
use std::alloc::{AllocError, Allocator};

/// The sessions that have a lane, in their order.
#[derive(Drop)]
pub(crate) struct Lanes<A: Allocator> {
    sessions: Vec<usize, A>,
}

impl<A: Allocator> Lanes<A> {
    /// A lane for each session that has a row in the log, a row that was folded, or a closing mark.
    pub(crate) fn new<O>(alloc: A, book: &BookView<'_, A, O>) -> Result<Lanes<A>, AllocError> {
        let mut sessions = Vec::new(alloc);
        for row in book.log {
            sessions.push(row.session)?;
        }
        for session in 0..book.marks.sessions().max(book.base.numbers().sessions()) {
            let session = session + 1;
            if book.marks.get(session).is_some() || book.base.last(session).is_some() {
                sessions.push(session)?;
            }
        }
        sessions.sort_unstable();
        sessions.dedup();
        Ok(Lanes { sessions })
    }

    /// The sessions, lane by lane.
    pub(crate) fn sessions(&self) -> &[usize] {
        self.sessions.as_slice()
    }

    /// The lane of a session.
    pub(crate) fn lane(&self, session: usize) -> u64 {
        let (Ok(lane) | Err(lane)) = self.sessions.binary_search(&session);
        lane as u64
    }
}
