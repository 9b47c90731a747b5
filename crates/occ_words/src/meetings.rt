//! Where a transaction that just entered met an opponent.

use occ_book::{LogRow, Standing};
use occ_case::OpenCase;
use occ_core::Core;
use occ_sets::ReadSet;
use occ_types::Object;
use occ_types::limits::MAX_NUMBER;
use std::alloc::{AllocError, Global};

/// A row of the log of a store.
pub type StoreRow = LogRow<Global, OpenCase<Global>>;

/// How an opponent was met.
#[derive(Clone, Copy, Debug, PartialEq, Eq)]
pub enum How {
    /// It writes what the read at this index asks for.
    Read(usize),
    /// It was active, and writes what the transaction writes too.
    Write,
}

/// An opponent that a transaction met, and the object on which they met.
#[derive(Drop)]
pub struct Meeting {
    /// The session of the opponent.
    pub session: usize,
    /// Its number.
    pub number: u64,
    /// What it writes.
    pub object: Object<Global>,
    /// How it was met.
    pub how: How,
}

/// An opponent that a row met, the object on which they met, and how.
type Met<'l> = (&'l StoreRow, &'l Object<Global>, How);

/// The latest opponent that the last row of the log met as it entered, which was just now. Of a row that is too old there is none, since it is backed up whomever it met.
///
/// `finished` has the places of the rows that finished, by their transaction numbers from 1 on.
pub fn meeting_of_last(
    core: &Core<Global>,
    finished: &[usize],
) -> Result<Option<Meeting>, AllocError> {
    match core.log().last() {
        Some(last) if last.start >= core.low() => {
            let met = latest_finished(core, finished, last);
            meeting_with(latest_active(core, last, met))
        }
        _ => Ok(None),
    }
}

/// The latest row of a session in the log.
pub fn latest_of(core: &Core<Global>, session: usize) -> Option<&StoreRow> {
    let left = core.numbers_left(session)?;
    core.row(session, MAX_NUMBER.saturating_sub(left))
}

// The latest opponent met among those that finished since a row began.
fn latest_finished<'l>(
    core: &'l Core<Global>,
    finished: &[usize],
    row: &StoreRow,
) -> Option<Met<'l>> {
    let mut met = None;
    // the latest first, behind which most others need no look
    for before in (row.start..row.finish).rev() {
        if let Some(opponent) = finished_after(core, finished, before) {
            met = later(met, opponent, row);
        }
    }
    met
}

// The row that finished under the number behind this one.
fn finished_after<'l>(
    core: &'l Core<Global>,
    finished: &[usize],
    before: u64,
) -> Option<&'l StoreRow> {
    let place = finished.get(usize::try_from(before).ok()?)?;
    let log = core.log();
    let first = log.first()?.place;
    log.get(place.checked_sub(first)?)
}

// The latest opponent met among those found and the active ones that entered before a row.
fn latest_active<'l>(
    core: &'l Core<Global>,
    row: &StoreRow,
    found: Option<Met<'l>>,
) -> Option<Met<'l>> {
    let mut met = found;
    for session in 1..core.sessions().saturating_add(1) {
        match latest_of(core, session) {
            Some(other) if is_active(other) && other.place < row.place => {
                met = later(met, other, row);
            }
            _ => {}
        }
    }
    met
}

// The later one of what was met and an opponent, where a row meets that too.
fn later<'l>(met: Option<Met<'l>>, opponent: &'l StoreRow, row: &StoreRow) -> Option<Met<'l>> {
    match met {
        Some((other, _, _)) if other.place > opponent.place => met,
        _ => match object_met(opponent, row) {
            Some((object, how)) => Some((opponent, object, how)),
            None => met,
        },
    }
}

fn is_active(row: &StoreRow) -> bool {
    matches!(row.standing, Standing::Open(_) | Standing::Writing(_))
}

// The first object on which a row meets an opponent.
fn object_met<'l>(opponent: &'l StoreRow, row: &StoreRow) -> Option<(&'l Object<Global>, How)> {
    for read in 0..row.reads.len() {
        if let Some(object) = object_asked(opponent, &row.reads, read) {
            return Some((object, How::Read(read)));
        }
    }
    if !is_active(opponent) {
        return None;
    }
    for (object, _) in opponent.writes.iter() {
        if row.writes.writes(object) {
            return Some((object, How::Write));
        }
    }
    None
}

// The first object that an opponent writes and the read at a place asked for.
fn object_asked<'l>(
    opponent: &'l StoreRow,
    reads: &ReadSet<Global>,
    read: usize,
) -> Option<&'l Object<Global>> {
    let seen = reads.at(read)?;
    if !opponent.writes.meets_observation(&seen) {
        return None;
    }
    for (object, _) in opponent.writes.iter() {
        if seen.asks(object.table, &object.key) {
            return Some(object);
        }
    }
    None
}

fn meeting_with(met: Option<Met<'_>>) -> Result<Option<Meeting>, AllocError> {
    match met {
        Some((opponent, object, how)) => Ok(Some(Meeting {
            session: opponent.session,
            number: opponent.number,
            object: object.clone()?,
            how,
        })),
        None => Ok(None),
    }
}
