//! Serial replay of a log, up to the first read that it doesn't answer so.
ghost use Rattle.std.specs.Prelude.{◌≡◌, IfOk, MatchOption};
ghost use Rattle.occ_model.specs.Log.{AreAnswers};
ghost use Rattle.occ_sets.specs.PlainSets.{answer_of};
ghost use Rattle.occ_audit.specs.Rows.{log_of, log_row_of};
ghost use Rattle.occ_audit.specs.Replaying.{IsWrongAnswer, ReplayGives, RowPlays};

use crate::findings::WrongRead;
use crate::replica::Replica;
use crate::serial_replay::is_committed;
use occ_book::{Base, LogRow};
use occ_sets::{Answer, ReadSet};
use std::alloc::{AllocError, Allocator};

/// How far serial replay explains a log.
pub(crate) enum Replayed<'a, A: Allocator> {
    /// To its end, with this state.
    Whole(Replica<'a, A>),
    /// Up to a read.
    To(WrongRead<A>),
}

/// A read among those of a row, and what the state answers to it.
#[derive(Drop)]
struct WrongAnswer<A: Allocator> {
    /// The index of the read.
    read: usize,
    /// The answer of the state.
    replayed: Answer<A>,
}

// Replays a log from the state of a base on, up to the first read that serial replay doesn't answer so.
pub(crate) fn replay_rows<'a, A: Allocator + Copy, O>(
    alloc: A,
    base: &'a Base<A>,
    log: &'a [LogRow<A, O>],
) -> Result<Replayed<'a, A>, AllocError>
    ensures { IfOk result (ReplayGives base.now.base.state (log_of log.now)) }
{
    let mut replica = Replica::of_base(alloc, base)?;
    for (index, row) in log.iter().enumerate() {
        let found = play(alloc, &mut replica, index, row)?;
        if let Some(wrong) = found {
            return Ok(Replayed::To(wrong));
        }
    }
    Ok(Replayed::Whole(replica))
}

// Plays the row at an index, unless it is committed and read something else than the state answers.
fn play<'a, A: Allocator + Copy, O>(
    alloc: A,
    replica: &mut Replica<'a, A>,
    index: usize,
    row: &'a LogRow<A, O>,
) -> Result<Option<WrongRead<A>>, AllocError>
    ensures { IfOk result (RowPlays replica.old replica.new index (log_row_of row.now)) }
{
    if !is_committed(&row.standing) {
        return Ok(None);
    }
    let found = first_wrong(alloc, replica, &row.reads)?;
    if let Some(wrong) = found {
        return Ok(Some(WrongRead {
            row: index,
            read: wrong.read,
            replayed: wrong.replayed,
        }));
    }
    replica.write(&row.writes)?;
    Ok(None)
}

// The first read that the state answers otherwise.
fn first_wrong<'a, A: Allocator + Copy>(
    alloc: A,
    replica: &Replica<'a, A>,
    reads: &'a ReadSet<A>,
) -> Result<Option<WrongAnswer<A>>, AllocError>
    ensures { IfOk result (λ found. MatchOption found (AreAnswers replica.now reads.now) (λ wrong. IsWrongAnswer replica.now reads.now wrong.read (answer_of wrong.replayed))) }
{
    for read in 0..reads.len() {
        let Some(seen) = reads.at(read) else {
            unreachable!();
        };
        if !replica.agrees(seen) {
            let replayed = replica.answer_again(alloc, seen)?;
            return Ok(Some(WrongAnswer { read, replayed }));
        }
    }
    Ok(None)
}
