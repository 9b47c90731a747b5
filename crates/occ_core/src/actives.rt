//! The active transactions and the open rows, found through the sessions, without a pass over the log.
ghost use Rattle.std.specs.Prelude.{◌≡◌, ◌++◌, length, slice_get, IfOk, option_map};
ghost use Rattle.std.specs.List.{list_any};
ghost use Rattle.occ_model.specs.Log.{is_active, is_open};
ghost use Rattle.occ_model.specs.World.{active_count};
ghost use Rattle.occ_log.specs.Logs.{row_at};
ghost use Rattle.occ_log.specs.Rows.{standing_of};
ghost use Rattle.occ_log.specs.SessionStates.{active_from};
ghost use Rattle.occ_core.specs.EntryFaults.{active_at};
ghost use Rattle.occ_core.specs.Folding.{holds_open, open_at};

use crate::core_state::Core;
use occ_book::Standing;
use occ_case::OpenCase;
use occ_log::{Log, Sessions};
use occ_sets::WriteSet;
use std::alloc::{AllocError, Allocator};

impl<A: Allocator> Core<A> {
    /// How many transactions are active: entered, and neither finished nor decided to be backed up.
    pub fn active(&self) -> usize
        ensures { result ≡ active_count self.now.world }
    {
        count_active(&self.sessions, &self.log)
    }
}

// The writes of the row of the session at a place, where it is active.
fn active_at<'a, A: Allocator>(
    sessions: &Sessions<A>,
    log: &'a Log<A>,
    place: usize,
) -> Option<&'a WriteSet<A>>
    ensures { option_map (λ w. w.now) result ≡ active_at (row_at log.now) (slice_get sessions.now place) }
{
    let state = sessions.get(place)?;
    let held = state.held.as_ref()?;
    let row = log.row(held.place)?;
    if is_active(&row.standing) {
        Some(&row.writes)
    } else {
        None
    }
}

// Whether a row that stands so is active.
fn is_active<A: Allocator>(standing: &Standing<OpenCase<A>>) -> bool
    ensures { result ≡ is_active (standing_of standing.now) }
{
    match standing {
        Standing::Open(_) => true,
        Standing::Writing(_) => true,
        Standing::Done(_) => false,
        Standing::Back(_) => false,
    }
}

// How many transactions are active, found through the sessions.
pub(crate) fn count_active<A: Allocator>(sessions: &Sessions<A>, log: &Log<A>) -> usize
    ensures { result ≡ length (active_from (row_at log.now) sessions.now) }
{
    let mut count = 0;
    for place in 0..sessions.len() {
        if active_at(sessions, log, place).is_some() {
            count += 1;
        }
    }
    count
}

// Whether a row is open: entered, and not decided.
pub(crate) fn has_open<A: Allocator>(sessions: &Sessions<A>, log: &Log<A>) -> bool
    ensures { result ≡ list_any (holds_open (row_at log.now)) sessions.now }
{
    for place in 0..sessions.len() {
        if is_open_at(sessions, log, place) {
            return true;
        }
    }
    false
}

// Whether the row of the session at a place is open.
fn is_open_at<A: Allocator>(sessions: &Sessions<A>, log: &Log<A>, place: usize) -> bool
    ensures { result ≡ open_at (row_at log.now) (slice_get sessions.now place) }
{
    let Some(state) = sessions.get(place) else {
        return false;
    };
    let Some(held) = &state.held else {
        return false;
    };
    match log.row(held.place) {
        None => false,
        Some(row) => is_open(&row.standing),
    }
}

// Whether a row that stands so is open.
fn is_open<A: Allocator>(standing: &Standing<OpenCase<A>>) -> bool
    ensures { result ≡ is_open (standing_of standing.now) }
{
    match standing {
        Standing::Open(_) => true,
        Standing::Writing(_) => false,
        Standing::Done(_) => false,
        Standing::Back(_) => false,
    }
}

// Some opponents, and behind them a clone of the writes of each active transaction, found through the sessions.
pub(crate) fn with_active<A: Allocator + Clone>(
    finished: Vec<WriteSet<A>, A>,
    sessions: &Sessions<A>,
    log: &Log<A>,
) -> Result<Vec<WriteSet<A>, A>, AllocError>
    ensures { IfOk result (λ opponents. opponents.items ≡ finished.items ++ active_from (row_at log.now) sessions.now) }
{
    let mut opponents = finished;
    for place in 0..sessions.len() {
        if let Some(writes) = active_at(sessions, log, place) {
            opponents.push(writes.clone()?)?;
        }
    }
    Ok(opponents)
}
