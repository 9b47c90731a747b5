//! Whether a session may read: the turn of the session, the size of an answer, and the room for one more question.
ghost use Rattle.std.specs.Prelude.{◌≡◌};
ghost use Rattle.std.specs.Option.{option_copied, option_map};
ghost use Rattle.std.specs.Result.{result_err};
ghost use Rattle.occ_types.specs.Question.{Span};
ghost use Rattle.occ_types.specs.PlainData.{end_of};
ghost use Rattle.occ_log.specs.Phases.{phase_of};
ghost use Rattle.occ_core.specs.Reads.{session_fault, closed_fault, number_fault, start_fault, turn_to_read, size_fault, room_to_read};

use occ_book::{Marks, Tables};
use occ_log::{Phase, Sessions, Transaction};
use occ_types::limits::{MAX_ANSWER_ROWS, MAX_QUESTIONS, READ_AHEAD};
use occ_types::{Fault, Key};
use std::alloc::Allocator;

// Whether there is such a session.
pub(crate) fn check_session<A: Allocator>(
    sessions: &Sessions<A>,
    session: usize,
) -> Result<(), Fault>
    ensures { result_err result ≡ session_fault sessions.now session }
{
    if session == 0 || session > sessions.len() {
        return Err(Fault::NoSession);
    }
    Ok(())
}

// Whether a session has no closing mark.
pub(crate) fn check_unclosed<A: Allocator>(marks: &Marks<A>, session: usize) -> Result<(), Fault>
    ensures { result_err result ≡ closed_fault marks.now.marks session }
{
    if marks.get(session).is_some() {
        return Err(Fault::SessionClosed);
    }
    Ok(())
}

// Whether a number is the next one after that of a session's last transaction, or among the 1,025 after it.
fn check_number(last: u64, number: u64) -> Result<(), Fault>
    ensures { result_err result ≡ number_fault last number }
{
    if number <= last || number - last > READ_AHEAD + 1 {
        return Err(Fault::OutOfTurn);
    }
    Ok(())
}

// Whether a start is that of the read phase under way, or has been reached where there is none.
pub(crate) fn check_start<A: Allocator>(
    begun: Option<&Phase<A>>,
    counter: u64,
    start: u64,
) -> Result<(), Fault>
    ensures { result_err result ≡ start_fault (option_map (λ phase. phase_of phase.now) begun.entry) counter start }
{
    match begun {
        None if start > counter => Err(Fault::FutureStart),
        Some(phase) if phase.start != start => Err(Fault::StartDiffers),
        _ => Ok(()),
    }
}

// Whether a session may read for a transaction, whose read phase may be under way.
pub(crate) fn check_turn_to_read<A: Allocator>(
    sessions: &Sessions<A>,
    marks: &Marks<A>,
    begun: Option<&Phase<A>>,
    counter: u64,
    transaction: Transaction,
) -> Result<(), Fault>
    ensures { result_err result ≡ turn_to_read sessions.now marks.now.marks (option_map (λ phase. phase_of phase.now) begun.entry) counter transaction.session transaction.number transaction.start }
{
    let session = transaction.session;
    check_session(sessions, session)?;
    check_unclosed(marks, session)?;
    check_number(sessions.last(session - 1), transaction.number)?;
    check_start(begun, counter, transaction.start)
}

// Whether the answer to a range has no more rows than an answer may have. They are counted, and none is copied.
pub(crate) fn check_size<A: Allocator + Clone>(
    tables: &Tables<A>,
    table: usize,
    lower: Option<&Key<A>>,
    upper: Option<&Key<A>>,
) -> Result<(), Fault>
    ensures { result_err result ≡ size_fault tables.now.state (Span table (end_of (option_copied lower.entry)) (end_of (option_copied upper.entry))) }
{
    if tables.count_rows(table, lower, upper) > MAX_ANSWER_ROWS {
        return Err(Fault::RangeTooLarge);
    }
    Ok(())
}

// Whether a read phase, which may be under way, has room for another question.
pub(crate) fn check_room_to_read<A: Allocator>(begun: Option<&Phase<A>>) -> Result<(), Fault>
    ensures { result_err result ≡ room_to_read (option_map (λ phase. phase_of phase.now) begun.entry) }
{
    match begun {
        Some(phase) if phase.reads.len() >= MAX_QUESTIONS => Err(Fault::SetFull),
        _ => Ok(()),
    }
}
