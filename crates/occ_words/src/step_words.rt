//! Refusals and back-ups in words.

use crate::fault_words::advice;
use crate::meetings::{How, Meeting, StoreRow};
use crate::phrases::{
    push_all, shown, write_asked, write_counted, write_object, write_transaction,
};
use crate::sayings::{Saying, Subject};
use occ_case::Cause;
use occ_types::{Fault, Schema};
use std::alloc::{AllocError, Global};

/// The refusal of a step in words, and what to do. The session is 0 where the step names none.
pub fn say_refused(
    alloc: Global,
    line: u64,
    step: &[u8],
    session: usize,
    fault: Fault,
) -> Result<Saying, AllocError> {
    let mut saying = Saying::new(alloc, Subject::Refused, Some(line));
    write_refusal(&mut saying, step, session, fault)?;
    saying.sentence.push_str(advice(fault))?;
    Ok(saying)
}

/// The refusal of a step in words, as `say_refused` has it, where the header has so many sessions and the step names another one.
pub fn say_no_session(
    alloc: Global,
    line: u64,
    step: &[u8],
    session: usize,
    sessions: usize,
) -> Result<Saying, AllocError> {
    let mut saying = Saying::new(alloc, Subject::Refused, Some(line));
    write_refusal(&mut saying, step, session, Fault::NoSession)?;
    write_counted(
        &mut saying.sentence,
        "name a session of the header, 1 to ",
        sessions as u64,
    )?;
    Ok(saying)
}

// Appends what is refused, and for which fault.
fn write_refusal(
    saying: &mut Saying,
    step: &[u8],
    session: usize,
    fault: Fault,
) -> Result<(), AllocError> {
    if session > 0 {
        saying.tell("session", session as u64)?;
    }
    saying.tell("fault", fault as u64 + 1)?;
    push_all(&mut saying.sentence, &["`", shown(step), "` is refused, "])?;
    write!(&mut saying.sentence, "{fault}")?;
    saying.sentence.push_str("; ")
}

/// A back-up in words: its cause, and where it is a conflict the opponent and the object on which they met.
pub fn say_backed_up(
    alloc: Global,
    schema: &Schema<Global>,
    line: u64,
    row: &StoreRow,
    cause: Cause,
    met: Option<&Meeting>,
) -> Result<Saying, AllocError> {
    let mut saying = Saying::new(alloc, Subject::BackedUp, Some(line));
    write_back_up(&mut saying, schema, row, cause, met)?;
    Ok(saying)
}

fn write_back_up(
    saying: &mut Saying,
    schema: &Schema<Global>,
    row: &StoreRow,
    cause: Cause,
    met: Option<&Meeting>,
) -> Result<(), AllocError> {
    saying.tell("session", row.session as u64)?;
    saying.tell("number", row.number)?;
    saying.tell("start", row.start)?;
    saying.tell("finish", row.finish)?;
    write_transaction(
        &mut saying.sentence,
        "transaction ",
        row.number,
        row.session,
    )?;
    match cause {
        Cause::TooOld => write_too_old(&mut saying.sentence, row),
        Cause::Conflict => {
            saying.sentence.push_str(" is backed up for a conflict")?;
            match met {
                Some(met) => write_meeting(saying, schema, row, met),
                None => Ok(()),
            }
        }
    }
}

fn write_too_old(line: &mut String, row: &StoreRow) -> Result<(), AllocError> {
    write_counted(
        line,
        " is backed up as too old: it began at the counter ",
        row.start,
    )?;
    write_counted(line, " and entered at ", row.finish)?;
    line.push_str(", and not all write sets in between are kept; begin it anew, or keep more")
}

fn write_meeting(
    saying: &mut Saying,
    schema: &Schema<Global>,
    row: &StoreRow,
    met: &Meeting,
) -> Result<(), AllocError> {
    saying.tell("opponent_session", met.session as u64)?;
    saying.tell("opponent_number", met.number)?;
    let line = &mut saying.sentence;
    write_transaction(line, " with transaction ", met.number, met.session)?;
    line.push_str(", which writes ")?;
    write_object(line, schema, &met.object)?;
    match met.how {
        How::Write => line.push_str(" as it does; begin it anew"),
        How::Read(read) => {
            line.push_str(", and it had read ")?;
            if let Some(seen) = row.reads.at(read) {
                write_asked(line, schema, seen)?;
            }
            line.push_str("; begin it anew")
        }
    }
}
