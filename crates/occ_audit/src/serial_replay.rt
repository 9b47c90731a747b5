//! Serial replay of a log.
ghost use Rattle.std.specs.Prelude.{◌≡◌, true, IfOk, MatchOption};
ghost use Rattle.std.specs.Bool.{Decides};
ghost use Rattle.occ_model.specs.Log.{AreAnswers, Explained, is_committed, after, serial};
ghost use Rattle.occ_audit.specs.Rows.{log_of, log_row_of, standing_of};

use crate::replica::Replica;
use occ_book::{Base, LogRow, Standing};
use occ_sets::ReadSet;
use std::alloc::{AllocError, Allocator};

// The state that serial replay of a log makes from that of a base on, or none where some committed row read what the replay of those before it doesn't answer.
pub(crate) fn replay<'a, A: Allocator + Copy, O>(
    alloc: A,
    base: &'a Base<A>,
    log: &'a [LogRow<A, O>],
) -> Result<Option<Replica<'a, A>>, AllocError>
    ensures { IfOk result (λ found. MatchOption found
        (Explained base.now.base.state (log_of log.now) → ⊥)
        (λ replica. Explained base.now.base.state (log_of log.now) × (replica ≡ serial base.now.base.state (log_of log.now)))) }
{
    let mut replica = Replica::of_base(alloc, base)?;
    for row in log {
        if !play(&mut replica, row)? {
            return Ok(None);
        }
    }
    Ok(Some(replica))
}

// Plays one row: false where it is committed and read something else than the state answers.
fn play<'a, A: Allocator + Copy, O>(
    replica: &mut Replica<'a, A>,
    row: &'a LogRow<A, O>,
) -> Result<bool, AllocError>
    ensures explained { IfOk result (λ yes. Decides yes (is_committed (standing_of row.now.standing) ≡ true → AreAnswers replica.old row.now.reads)) }
    ensures played { IfOk result (λ yes. yes ≡ true → replica.new ≡ after replica.old (log_row_of row.now)) }
{
    if !is_committed(&row.standing) {
        return Ok(true);
    }
    if !are_answers(replica, &row.reads) {
        return Ok(false);
    }
    replica.write(&row.writes)?;
    Ok(true)
}

/// Whether a row that stands so is committed.
pub fn is_committed<O>(standing: &Standing<O>) -> bool
    ensures { result ≡ is_committed (standing_of standing.now) }
{
    matches!(standing, Standing::Writing(_) | Standing::Done(_))
}

// Whether the state answers each question as it was answered.
fn are_answers<'a, A: Allocator + Copy>(replica: &Replica<'a, A>, reads: &'a ReadSet<A>) -> bool
    ensures { Decides result (AreAnswers replica.now reads.now) }
{
    for seen in reads.iter() {
        if !replica.agrees(seen) {
            return false;
        }
    }
    true
}
