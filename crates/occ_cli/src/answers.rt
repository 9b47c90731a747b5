//! What a replay answers to a step, and the writer of its line.

ghost use Rattle.std.specs.Fmt.{decimal};
ghost use Rattle.std.specs.Prelude.{◌≡◌, ◌≢◌, ◌++◌, OnOk, MatchResult, IsTrue, ◌↔◌, codes, string_bytes};
ghost use Rattle.std.specs.List.{flat_map};
ghost use Rattle.std.specs.Option.{option_copied};
ghost use Rattle.occ_sets.specs.PlainSets.{rows_of};
ghost use Rattle.occ_types.specs.PlainData.{key_of, object_of};
ghost use Rattle.occ_types.specs.declared.fault.Fault.TheVariants as faults;
ghost use Rattle.occ_types.specs.Schema.{Schema as PlainSchema};
ghost use Rattle.occ_core.specs.Replies.{outcome_of};
ghost use Rattle.occ_core.specs.Runs.{reply_of};
ghost use Rattle.occ_cli.specs.Answers as says;
ghost use Rattle.occ_cli.specs.Answers.{answer_of, answer_text, reply_text, object_text, name_at, fault_number, verdict_text, found_text, rows_text, counts_text};
ghost use Rattle.occ_cli.specs.Replaying.{played};

use crate::pairs::write_pairs;
use crate::refusals::Refusal;
use crate::tokens::write_ran_alone;
use occ_case::{Cause, Verdict};
use occ_core::{Outcome, Reply};
use occ_text::writers::{write_counted, write_key, write_next_number, write_row};
use occ_types::{Fault, Key, Object, Row, Schema};
use std::alloc::{AllocError, Allocator};

/// What `show` counts.
#[derive(Clone, Copy, Debug, PartialEq, Eq)]
pub struct Counts {
    /// The transaction counter.
    pub counter: u64,
    /// The lower end of the window.
    pub low: u64,
    /// The rows of the log.
    pub log: usize,
    /// The rows of all tables.
    pub state: usize,
    /// The transactions that entered and have neither finished nor been decided to be backed up.
    pub active: usize,
}

/// What a replay answers to a step.
#[derive(Drop)]
pub enum Answer<A: Allocator> {
    /// `begun N START`: a transaction is open.
    Begun {
        /// Its number in its session.
        number: u64,
        /// The transaction counter as it began.
        start: u64,
    },
    /// `ok`: it is done.
    Done,
    /// `queued N`: the transaction of this number waits to be entered.
    Queued(u64),
    /// `closing N`: the closing mark, which has this number, waits to be entered.
    Closing(u64),
    /// `empty`: nothing waits to be entered.
    Empty,
    /// `counter T low L log K state R active A`: what there is.
    Counted(Counts),
    /// `refused Fn`: the step is refused.
    Refused(Refusal),
    /// What the store replied, which may be a refusal too. To `get` and `scan` it is told here with the own writes over it.
    Replied(Reply<A>),
}

/// An answer, unless it is a want of memory.
pub(crate) fn answered<A: Allocator>(answer: Answer<A>) -> Result<Answer<A>, AllocError>
    ensures { MatchResult result
        (λ same. (answer_of answer ≢ says.refused faults.Memory) × (answer_of same ≡ answer_of answer))
        (λ _. answer_of answer ≡ says.refused faults.Memory) }
{
    if is_want(&answer) {
        return Err(AllocError);
    }
    Ok(answer)
}

/// Whether what came of a step is a want of memory.
pub(crate) fn is_starved<A: Allocator>(done: &Result<Answer<A>, Fault>) -> bool
    ensures { IsTrue result ↔ played done.now ≡ says.refused faults.Memory }
{
    match done {
        Ok(answer) => is_want(answer),
        Err(fault) => is_memory(*fault),
    }
}

// Whether an answer is a want of memory.
fn is_want<A: Allocator>(answer: &Answer<A>) -> bool
    ensures { IsTrue result ↔ answer_of answer.now ≡ says.refused faults.Memory }
{
    match answer {
        Answer::Refused(refusal) => is_memory(refusal.fault),
        Answer::Replied(Reply::Refused(fault)) => is_memory(*fault),
        Answer::Replied(Reply::RefusedItem(refusal)) => is_memory(refusal.fault),
        _ => false,
    }
}

// Whether a fault is a want of memory.
fn is_memory(fault: Fault) -> bool
    ensures { IsTrue result ↔ fault ≡ faults.Memory }
{
    matches!(fault, Fault::Memory)
}

/// What a fault is answered by: a refusal, but for a want of memory.
pub(crate) fn refused<A: Allocator>(fault: Fault) -> Result<Answer<A>, AllocError>
    ensures { MatchResult result
        (λ answer. (says.refused fault ≢ says.refused faults.Memory) × (answer_of answer ≡ says.refused fault))
        (λ _. says.refused fault ≡ says.refused faults.Memory) }
{
    match fault {
        Fault::Memory => Err(AllocError),
        fault => Ok(Answer::Refused(Refusal { fault })),
    }
}

/// Appends the line of what came of a step, without a line feed. Where memory is refused, a beginning of it may stand.
pub(crate) fn write_played<A: Allocator>(
    line: &mut String<A>,
    schema: &Schema<A>,
    done: &Result<Answer<A>, Fault>,
) -> Result<(), AllocError>
    ensures { OnOk result (string_bytes line.new ≡ string_bytes line.old ++ answer_text schema.now (played done.now)) }
{
    match done {
        Ok(answer) => write_answer(line, schema, answer),
        Err(fault) => write_refused(line, *fault),
    }
}

/// Appends the line of an answer, without a line feed. Where memory is refused, a beginning of it may stand.
pub fn write_answer<A: Allocator>(
    line: &mut String<A>,
    schema: &Schema<A>,
    answer: &Answer<A>,
) -> Result<(), AllocError>
    ensures { OnOk result (string_bytes line.new ≡ string_bytes line.old ++ answer_text schema.now (answer_of answer.now)) }
{
    match answer {
        Answer::Begun { number, start } => {
            write_counted(line, "begun ", *number)?;
            write_next_number(line, *start)
        }
        Answer::Done => line.push_str("ok"),
        Answer::Queued(number) => write_counted(line, "queued ", *number),
        Answer::Closing(number) => write_counted(line, "closing ", *number),
        Answer::Empty => line.push_str("empty"),
        Answer::Counted(counts) => write_counts(line, counts),
        Answer::Refused(refusal) => write_refused(line, refusal.fault),
        Answer::Replied(reply) => write_reply(line, schema, reply),
    }
}

/// Appends the line of what the store replied:
///
/// - `row ROW` or `none`: the row of a key, if there is one;
/// - `rows K` and K times `KEY=ROW`: the rows of a range, in the order of the keys;
/// - `ok`: the read phase is forgotten;
/// - `entered PLACE`: a transaction entered the log at this place;
/// - `closed`: the closing mark entered, and the session is closed;
/// - `commit` or `backup CAUSE`: the verdict on a transaction; a serial end that is backed up is told by its cause as well;
/// - `wrote NAME KEY`: a single write is done, or `nomore`: none is left;
/// - `finished TN`: a transaction finished under this transaction number; where operations ran alone, a token for each answer follows;
/// - `backed N`: the transaction of this number is backed up;
/// - `folded K`: so many rows of the log went into the base;
/// - `refused Fn`: the step is refused.
fn write_reply<A: Allocator>(
    line: &mut String<A>,
    schema: &Schema<A>,
    reply: &Reply<A>,
) -> Result<(), AllocError>
    ensures { OnOk result (string_bytes line.new ≡ string_bytes line.old ++ reply_text schema.now (reply_of reply.now)) }
{
    match reply {
        Reply::Found(row) => write_found(line, row.as_ref()),
        Reply::Rows(rows) => write_rows(line, rows.as_slice()),
        Reply::Forgotten(_known) => line.push_str("ok"),
        Reply::Outcome(outcome) => write_outcome(line, outcome),
        Reply::Decided(verdict) => line.push_str(verdict_text(*verdict)),
        Reply::Wrote(object) => write_written(line, schema, object),
        Reply::NoMore => line.push_str("nomore"),
        Reply::Finished { tn } => write_counted(line, "finished ", *tn),
        Reply::BackedUp(number) => write_counted(line, "backed ", *number),
        Reply::Folded(count) => write_counted(line, "folded ", *count as u64),
        Reply::Refused(fault) => write_refused(line, *fault),
        Reply::RefusedItem(refused) => write_refused(line, refused.fault),
    }
}

/// Appends what came of what a session handed in.
fn write_outcome<A: Allocator>(line: &mut String<A>, outcome: &Outcome<A>) -> Result<(), AllocError>
    ensures { (schema : PlainSchema) → OnOk result (string_bytes line.new ≡ string_bytes line.old ++ reply_text schema (outcome_of outcome.now)) }
{
    match outcome {
        Outcome::Entered { place } => write_counted(line, "entered ", *place as u64),
        Outcome::Committed { tn } => write_counted(line, "finished ", *tn),
        Outcome::BackedUp(cause) => line.push_str(verdict_text(Verdict::BackUp(*cause))),
        Outcome::RanAlone { tn, answers } => write_ran_alone(line, *tn, answers.as_slice()),
        Outcome::MarkedClosed => line.push_str("closed"),
    }
}

/// Appends the row of a key.
fn write_found<A: Allocator>(line: &mut String<A>, row: Option<&Row<A>>) -> Result<(), AllocError>
    ensures { OnOk result (string_bytes line.new ≡ string_bytes line.old ++ found_text (option_copied row.entry)) }
{
    match row {
        None => line.push_str("none"),
        Some(row) => {
            line.push_str("row ")?;
            write_row(line, row)
        }
    }
}

/// Appends the rows of a range.
fn write_rows<A: Allocator>(
    line: &mut String<A>,
    rows: &[(Key<A>, Row<A>)],
) -> Result<(), AllocError>
    ensures { OnOk result (string_bytes line.new ≡ string_bytes line.old ++ rows_text (rows_of rows.now)) }
{
    write_counted(line, "rows ", rows.len() as u64)?;
    write_pairs(line, " ", rows)
}

/// The words of a verdict.
fn verdict_text(verdict: Verdict) -> &'static str
    ensures { result.now ≡ verdict_text verdict }
{
    match verdict {
        Verdict::Commit => "commit",
        Verdict::BackUp(Cause::Conflict) => "backup conflict",
        Verdict::BackUp(Cause::TooOld) => "backup tooold",
    }
}

/// Appends what a single write wrote.
fn write_written<A: Allocator>(
    line: &mut String<A>,
    schema: &Schema<A>,
    object: &Object<A>,
) -> Result<(), AllocError>
    ensures { OnOk result (string_bytes line.new ≡ string_bytes line.old ++ (codes "wrote " ++ object_text schema.now (object_of object.now))) }
{
    line.push_str("wrote ")?;
    line.push_str(table_name(schema, object.table))?;
    line.push(' ')?;
    write_key(line, &object.key)
}

/// The name of the table at a place, which is empty where there is none.
fn table_name<A: Allocator>(schema: &Schema<A>, place: usize) -> &str
    ensures { result.now ≡ name_at schema.now place }
{
    match schema.tables().get(place) {
        None => "",
        Some(table) => table.name.as_str(),
    }
}

/// Appends what there is.
fn write_counts<A: Allocator>(line: &mut String<A>, counts: &Counts) -> Result<(), AllocError>
    ensures { OnOk result (string_bytes line.new ≡ string_bytes line.old ++ counts_text counts.now) }
{
    let Counts {
        counter,
        low,
        log,
        state,
        active,
    } = counts;
    write!(
        line,
        "counter {counter} low {low} log {log} state {state} active {active}"
    )
}

/// Appends a refusal.
fn write_refused<A: Allocator>(line: &mut String<A>, fault: Fault) -> Result<(), AllocError>
    ensures { OnOk result (string_bytes line.new ≡ string_bytes line.old ++ (codes "refused F" ++ decimal (fault_number fault))) }
{
    write_counted(line, "refused F", fault_number(fault) as u64)
}

/// The number of a fault: its place among all of them, from 1 on.
fn fault_number(fault: Fault) -> u8
    ensures { result ≡ fault_number fault }
{
    fault as u8 + 1
}
