//! Whether what a session hands in may enter: the turn of the session, and the room for one more transaction.
ghost use Rattle.std.specs.Prelude.{◌≡◌, length, slice_get, option_map};
ghost use Rattle.std.specs.Result.{result_err};
ghost use Rattle.occ_model.specs.Refusal.{check_writes};
ghost use Rattle.occ_log.specs.Logs.{row_at};
ghost use Rattle.occ_log.specs.Rows.{slot_of};
ghost use Rattle.occ_log.specs.SessionStates.{active_from};
ghost use Rattle.occ_core.specs.EntryFaults.{due_fault, busy_fault, spare_fault, turn_to_enter, write_fault, log_fault, counter_fault, room_to_enter};

use crate::actives::count_active;
use crate::read_checks::{check_session, check_start, check_unclosed};
use occ_book::Marks;
use occ_log::{Log, ReadPhases, SessionState, Sessions, Transaction};
use occ_sets::WriteSet;
use occ_types::limits::{MAX_COUNTER, MAX_LOG_ROWS, MAX_NUMBER};
use occ_types::{Fault, Schema};
use std::alloc::Allocator;

// Whether a session may enter a transaction.
pub(crate) fn check_turn_to_enter<A: Allocator>(
    sessions: &Sessions<A>,
    marks: &Marks<A>,
    phases: &ReadPhases<A>,
    counter: u64,
    transaction: Transaction,
) -> Result<(), Fault>
    ensures { result_err result ≡ turn_to_enter sessions.now marks.now.marks phases.now counter transaction.session transaction.number transaction.start }
{
    let session = transaction.session;
    check_session(sessions, session)?;
    check_unclosed(marks, session)?;
    check_due(sessions.last(session - 1), transaction.number)?;
    check_idle(sessions.get(session - 1))?;
    check_spare(transaction.number)?;
    check_start(
        phases.get(session, transaction.number),
        counter,
        transaction.start,
    )
}

// Whether a number is the one after that of the session's last transaction.
pub(crate) fn check_due(last: u64, number: u64) -> Result<(), Fault>
    ensures { result_err result ≡ due_fault last number }
{
    if number <= last || number - last != 1 {
        return Err(Fault::OutOfTurn);
    }
    Ok(())
}

// Whether a session has no row under way.
pub(crate) fn check_idle<A: Allocator>(state: Option<&SessionState<A>>) -> Result<(), Fault>
    ensures { result_err result ≡ busy_fault (option_map (λ s. slot_of s.now) state.entry) }
{
    match state {
        Some(state) if state.held.is_some() => Err(Fault::SessionBusy),
        _ => Ok(()),
    }
}

// Whether a number after this one is left for the closing mark.
pub(crate) fn check_spare(number: u64) -> Result<(), Fault>
    ensures { result_err result ≡ spare_fault number }
{
    if number >= MAX_NUMBER {
        return Err(Fault::NumbersExhausted);
    }
    Ok(())
}

// Whether writes fit the schema, and there is room for one more transaction.
pub(crate) fn check_room_to_enter<A: Allocator>(
    schema: &Schema<A>,
    sessions: &Sessions<A>,
    log: &Log<A>,
    counter: u64,
    writes: &WriteSet<A>,
) -> Result<(), Fault>
    ensures { result_err result ≡ room_to_enter schema.now sessions.now (length log.now.rows) (row_at log.now) counter writes.now }
{
    check_writes(schema, writes)?;
    check_log(log.len())?;
    check_numbers(sessions, log, counter)
}

// Whether each write fits the schema, in their order.
fn check_writes<A: Allocator>(schema: &Schema<A>, writes: &WriteSet<A>) -> Result<(), Fault>
    ensures { result_err result ≡ check_writes schema.now writes.now }
{
    for place in 0..writes.len() {
        check_write(schema, writes, place)?;
    }
    Ok(())
}

// Whether the write at a place fits the schema: its key, and then its row.
fn check_write<A: Allocator>(
    schema: &Schema<A>,
    writes: &WriteSet<A>,
    place: usize,
) -> Result<(), Fault>
    ensures { result_err result ≡ write_fault schema.now (slice_get writes.now place) }
{
    let Some((object, row)) = writes.write_at(place) else {
        return Ok(());
    };
    schema.check_key(object.table, &object.key)?;
    match row {
        None => Ok(()),
        Some(row) => schema.check_row(object.table, row),
    }
}

// Whether the log has room for one more row.
pub(crate) fn check_log(rows: usize) -> Result<(), Fault>
    ensures { result_err result ≡ log_fault rows }
{
    if rows >= MAX_LOG_ROWS {
        return Err(Fault::LogFull);
    }
    Ok(())
}

// Whether the counter has room for the active transactions and one more. A session has one of them at most, so they are counted only
// where one of each session would be too many.
pub(crate) fn check_numbers<A: Allocator>(
    sessions: &Sessions<A>,
    log: &Log<A>,
    counter: u64,
) -> Result<(), Fault>
    ensures { result_err result ≡ counter_fault counter (length (active_from (row_at log.now) sessions.now)) }
{
    if (sessions.len() as u64) < MAX_COUNTER.saturating_sub(counter) {
        return Ok(());
    }
    check_counter(counter, count_active(sessions, log))
}

// Whether the counter has room for so many active transactions and one more.
fn check_counter(counter: u64, active: usize) -> Result<(), Fault>
    ensures { result_err result ≡ counter_fault counter active }
{
    if active as u64 >= MAX_COUNTER.saturating_sub(counter) {
        return Err(Fault::CounterExhausted);
    }
    Ok(())
}
