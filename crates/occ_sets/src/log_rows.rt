//! Rows of the decision log.
ghost use Rattle.occ_sets.specs.LogRows.{IsStandingCopy, IsRowCopy};

use crate::reads::ReadSet;
use crate::writes::WriteSet;
use occ_model::Cause;
use std::alloc::{AllocError, Allocator};

/// How far a transaction has come since its entry (Kung and Robinson, section 5). `O` is what is held of one that is not decided: a core holds its case, and a book that was read from a text nothing.
#[derive(Copy, Debug, PartialEq, Eq, Drop)]
pub enum Standing<O> {
    /// Entered, and not decided.
    Open(O),
    /// Decided to commit, with this many of its writes done.
    Writing(usize),
    /// Finished, under this transaction number.
    Done(u64),
    /// Decided to be backed up.
    Back(Cause),
}

impl<O: Clone> Clone for Standing<O> {
    ghost is_clone = { IsStandingCopy O.is_clone };

    fn clone(&self) -> Result<Standing<O>, AllocError> {
        match self {
            Standing::Open(held) => Ok(Standing::Open(held.clone()?)),
            Standing::Writing(done) => Ok(Standing::Writing(*done)),
            Standing::Done(number) => Ok(Standing::Done(*number)),
            Standing::Back(cause) => Ok(Standing::Back(*cause)),
        }
    }
}

/// A transaction that entered.
#[derive(Drop)]
pub struct LogRow<A: Allocator, O> {
    /// Its place in the order of entry, from 0 on.
    pub place: usize,
    /// Its session, from 1 on.
    pub session: usize,
    /// Its number in its session, from 1 on.
    pub number: u64,
    /// The transaction counter as it began.
    pub start: u64,
    /// The transaction counter as it entered.
    pub finish: u64,
    /// What it read, with the answers.
    pub reads: ReadSet<A>,
    /// What it writes.
    pub writes: WriteSet<A>,
    /// How far it has come.
    pub standing: Standing<O>,
}

impl<A: Allocator + Clone, O: Clone> Clone for LogRow<A, O> {
    ghost is_clone = { IsRowCopy O.is_clone };

    fn clone(&self) -> Result<LogRow<A, O>, AllocError> {
        Ok(LogRow {
            place: self.place,
            session: self.session,
            number: self.number,
            start: self.start,
            finish: self.finish,
            reads: self.reads.clone()?,
            writes: self.writes.clone()?,
            standing: self.standing.clone()?,
        })
    }
}
