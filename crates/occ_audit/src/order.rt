//! The order of a log from its base on: its places, the numbers of each session, and the closing marks.
ghost use Rattle.std.specs.Prelude.{◌≡◌, suc, ◌+◌, unwrap_or, IfOk, MatchOption};
ghost use Rattle.std.specs.Bool.{Decides};
ghost use Rattle.occ_model.specs.Log.{last_folded};
ghost use Rattle.occ_audit.specs.Order.{ArePlaced, AreNumbered, AreClosed, AreLast, last_of};
ghost use Rattle.occ_audit.specs.Rows.{log_of};

use occ_book::{Base, LogRow, Marks};
use std::alloc::{AllocError, Allocator};
use std::collections::BTreeMap;

// Whether a place is so far behind a first one. Both may be any, so no sum is made of them.
fn is_placed(place: usize, first: usize, before: usize) -> bool
    ensures { Decides result (place ≡ first + before) }
{
    place >= first && place - first == before
}

// Whether the places of the rows count on from a first one.
pub(crate) fn are_placed<A: Allocator, O>(first: usize, log: &[LogRow<A, O>]) -> bool
    ensures { Decides result (ArePlaced first (log_of log.now)) }
{
    for (before, row) in log.iter().enumerate() {
        if !is_placed(row.place, first, before) {
            return false;
        }
    }
    true
}

// The last number of each session that has a row, or none where some session's numbers don't count on from its last one in the base.
pub(crate) fn last_numbers<A: Allocator + Clone, O>(
    alloc: A,
    base: &Base<A>,
    log: &[LogRow<A, O>],
) -> Result<Option<BTreeMap<usize, u64, A>>, AllocError>
    ensures { IfOk result (λ found. MatchOption found
        (AreNumbered base.now.base (log_of log.now) → ⊥)
        (λ last. AreNumbered base.now.base (log_of log.now) × AreLast base.now.base last (log_of log.now))) }
{
    let mut last = BTreeMap::new(alloc);
    for row in log {
        // what stood there comes back, so that one search of the sessions does
        let before = last.insert(row.session, row.number)?;
        if !is_next(base, row.session, before, row.number) {
            return Ok(None);
        }
    }
    Ok(Some(last))
}

// The last number of a session that was folded, or 0.
fn last_folded<A: Allocator>(base: &Base<A>, session: usize) -> u64
    ensures { result ≡ last_folded base.now.base session }
{
    match base.last(session) {
        Some(number) => number,
        None => 0,
    }
}

// Whether a number is the one after a session's last.
fn is_due<A: Allocator>(
    base: &Base<A>,
    last: &BTreeMap<usize, u64, A>,
    session: usize,
    number: u64,
) -> bool
    ensures { Decides result (number ≡ suc (last_of base.now.base last.now session)) }
{
    is_next(base, session, last.get(&session).copied(), number)
}

// Whether a number is the one after a session's last, which is that in the base where none is kept.
fn is_next<A: Allocator>(base: &Base<A>, session: usize, kept: Option<u64>, number: u64) -> bool
    ensures { Decides result (number ≡ suc (unwrap_or kept (last_folded base.now.base session))) }
{
    let before = match kept {
        Some(last) => last,
        None => last_folded(base, session),
    };
    number > 0 && number - 1 == before
}

// Whether each closing mark is the number after its session's last.
pub(crate) fn are_closed<A: Allocator>(
    base: &Base<A>,
    marks: &Marks<A>,
    last: &BTreeMap<usize, u64, A>,
) -> bool
    ensures { Decides result (AreClosed base.now.base marks.now.marks last.now) }
{
    for before in 0..marks.sessions() {
        let session = before + 1;
        if let Some(mark) = marks.get(session) {
            if !is_due(base, last, session, mark) {
                return false;
            }
        }
    }
    true
}
