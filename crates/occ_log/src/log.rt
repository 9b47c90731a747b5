//! The decision log.
ghost use Rattle.std.specs.Prelude.{◌≡◌, ◌<◌, ◌≤◌, ◌+◌, ◌-◌, ◌^◌, ℕ, [], ◌∷◌, ◌++◌, length, drop, is_some, true, IfOk, OnOk, slice_get, slice_set, Some};
ghost use Rattle.std.specs.List.{prefix_len};
ghost use Rattle.std.specs.Option.{option_map};
ghost use Rattle.occ_types.specs.PlainData.{object_of};
ghost use Rattle.occ_log.specs.Listing.{has_room};
ghost use Rattle.occ_log.specs.Logs.{row_at, HasRoom, IsBegun, HaveNoGap, rows_of};
ghost use Rattle.occ_log.specs.Rows.{log_row_of, log_of, standing_of};
ghost use Rattle.occ_log.specs.SessionStates.{written_at};
ghost use Rattle.occ_model.specs.Log.{LogRow as PlainRow};
ghost use Rattle.occ_model.specs.Poll.{row_numbered};
ghost use Rattle.occ_model.specs.Refusal.{foldable};
ghost use Rattle.occ_model.specs.Step.{foldable_part};

use crate::listing::Listing;
use occ_case::OpenCase;
use occ_sets::{LogRow, Standing};
use occ_types::Object;
use std::alloc::{AllocError, Allocator};
use std::marker::Model;

/// The rows that entered, in the order of their entry. They are counted from a first place on, and each is found by its place, or by
/// its session and number. Its sessions are numbered from 1.
///
/// Clauses see the first place, the list of the plain rows, how many sessions there are, and of each whether one more row takes
/// memory (`Kept`).
#[derive(Drop)]
pub struct Log<A: Allocator> {
    first: usize,
    rows: Vec<LogRow<A, OpenCase<A>>, A>,
    places: Listing<A>,
}

impl<A: Allocator> Model for Log<A> {
    ghost use Rattle.occ_log.specs.Logs.{Kept, AreListed, kept_of};
    ghost use Rattle.occ_log.specs.Rows.{log_of};

    ghost Value = { Kept };

    ghost view = { λ l. kept_of l.first l.rows l.places };

    ghost invariant = { λ l. AreListed l.first (log_of l.rows.items) l.places };
}

impl<A: Allocator + Copy> Log<A> {
    /// A log without a row, which begins at this place and is for the rows of so many sessions. Refused with `AllocError` where there
    /// is no memory for it.
    pub fn new(alloc: A, first: usize, sessions: usize) -> Result<Log<A>, AllocError>
        ensures { IfOk result (λ log. IsBegun first sessions log) }
    {
        let places = Listing::new(alloc, sessions)?;
        Ok(Log {
            first,
            rows: Vec::new(alloc),
            places,
        })
    }
}

impl<A: Allocator> Log<A> {
    /// How many rows stand in the log. It sets no limit; the core takes no more than `MAX_LOG_ROWS`.
    pub fn len(&self) -> usize
        ensures { result ≡ length self.now.rows }
    {
        self.rows.len()
    }

    /// The place of the next row to enter: that of the first row, and as many more as rows stand in the log.
    pub fn next_place(&self) -> usize
        requires { self.now.first + length self.now.rows < 2 ^ 64 }
        ensures { result ≡ self.now.first + length self.now.rows }
    {
        self.first + self.rows.len()
    }

    /// The row at a place, or none where it does not stand in the log.
    pub fn row(&self, place: usize) -> Option<&LogRow<A, OpenCase<A>>>
        ensures { option_map (λ r. log_row_of r.now) result ≡ row_at self.now place }
    {
        if place < self.first {
            return None;
        }
        self.rows.get(place - self.first)
    }

    /// The row of a session with a number, or none where it does not stand in the log. The numbers of each session have to stand
    /// without a gap. So the row is found without a search, by how far its number lies above that of the session's first row.
    pub fn numbered(&self, session: usize, number: u64) -> Option<&LogRow<A, OpenCase<A>>>
        requires { HaveNoGap self.now.rows }
        ensures { option_map (λ r. log_row_of r.now) result ≡ row_numbered session number self.now.rows }
    {
        let oldest = self.row_of(session, 0)?;
        if number < oldest.number {
            return None;
        }
        self.row_of(session, (number - oldest.number) as usize)
    }

    // The row of a session that has so many rows of the session before it.
    fn row_of(&self, session: usize, before: usize) -> Option<&LogRow<A, OpenCase<A>>>
        ensures { option_map (λ r. log_row_of r.now) result ≡ slice_get (rows_of session self.now.rows) before }
    {
        let place = self.places.get(session, before)?;
        self.row(place)
    }

    /// The rows, in the order of entry.
    pub fn rows(&self) -> &[LogRow<A, OpenCase<A>>]
        ensures { log_of result.now ≡ self.now.rows }
    {
        self.rows.as_slice()
    }

    /// The object of a write of the row at a place, by its own place in the order of the first writes, which begins with 0. None where
    /// no row stands there, or it has no such write.
    pub fn written(&self, place: usize, write: usize) -> Option<&Object<A>>
        ensures { option_map (λ o. object_of o.now) result ≡ written_at (row_at self.now) place write }
    {
        let row = self.row(place)?;
        let (object, _row) = row.writes.write_at(write)?;
        Some(object)
    }

    /// Takes room for one more row of a session, so that it can come in without memory. Refused with `AllocError` where there is none.
    /// The rows stay as they are.
    pub fn reserve(&mut self, session: usize) -> Result<(), AllocError>
        requires from { 1 ≤ session }
        requires below { session ≤ self.old.sessions }
        ensures room { OnOk result (HasRoom self.new session) }
        ensures rows { self.new.rows ≡ self.old.rows }
        ensures first { self.new.first ≡ self.old.first }
        ensures sessions { self.new.sessions ≡ self.old.sessions }
    {
        self.rows.reserve(1)?;
        self.places.reserve(session)
    }

    /// A row comes in at the end, in the room that was taken for one of its session (`reserve`). It has the place of the next row. It
    /// takes no memory.
    pub fn push(&mut self, row: LogRow<A, OpenCase<A>>)
        requires from { 1 ≤ row.session }
        requires room { HasRoom self.old row.session }
        requires place { row.place ≡ self.old.first + length self.old.rows }
        ensures rows { self.new.rows ≡ self.old.rows ++ log_row_of row ∷ [] }
        ensures first { self.new.first ≡ self.old.first }
        ensures sessions { self.new.sessions ≡ self.old.sessions }
    {
        self.places.push(row.session, row.place);
        self.rows.push_reserved(row);
    }

    /// The row at a place, where one has to stand, takes another standing. It takes no memory.
    pub fn stand(&mut self, place: usize, standing: Standing<OpenCase<A>>)
        requires { is_some (row_at self.old place) ≡ true }
        ensures rows { (row : PlainRow) → row_at self.old place ≡ Some row → self.new.rows ≡ slice_set self.old.rows (place - self.old.first) (record row { standing = standing_of standing }) }
        ensures first { self.new.first ≡ self.old.first }
        ensures sessions { self.new.sessions ≡ self.old.sessions }
    {
        let row = &mut self.rows[place - self.first];
        row.standing = standing;
    }

    /// How many rows the longest beginning has that can be folded, where the window begins at `low`: each of them is backed up, or
    /// finished under a number that is not above `low`.
    pub fn foldable(&self, low: u64) -> usize
        ensures { result ≡ length (foldable_part low self.now.rows) }
    {
        count_foldable(&self.rows, low)
    }

    /// So many rows go from the beginning, and the log begins so many places later; the rows that stay keep theirs. The vectors that list
    /// them keep their room, and so a session that had room for one more row has it still. It takes no memory, and costs as much as
    /// there are rows and sessions.
    pub fn fold(&mut self, count: usize)
        requires count { count ≤ length self.old.rows }
        requires places { self.old.first + length self.old.rows < 2 ^ 64 }
        ensures rows { self.new.rows ≡ drop count self.old.rows }
        ensures first { self.new.first ≡ self.old.first + count }
        ensures sessions { self.new.sessions ≡ self.old.sessions }
        ensures room { (session : ℕ) → HasRoom self.old session → HasRoom self.new session }
    {
        self.first += count;
        drop_front(&mut self.rows, count);
        self.places.begin_at(self.first);
    }
}

// How many rows come before the first one that can't be folded.
fn count_foldable<A: Allocator>(rows: &Vec<LogRow<A, OpenCase<A>>, A>, low: u64) -> usize
    ensures { result ≡ prefix_len (λ row. foldable low (standing_of row.standing)) rows.now.items }
{
    for count in 0..rows.len() {
        if !can_fold(&rows[count].standing, low) {
            return count;
        }
    }
    rows.len()
}

fn can_fold<A: Allocator>(standing: &Standing<OpenCase<A>>, low: u64) -> bool
    ensures { result ≡ foldable low (standing_of standing.now) }
{
    match standing {
        Standing::Open(_case) => false,
        Standing::Writing(_done) => false,
        Standing::Done(tn) => *tn <= low,
        Standing::Back(_cause) => true,
    }
}

// The first of some items are dropped, so many of them.
fn drop_front<T: Drop, A: Allocator>(items: &mut Vec<T, A>, count: usize)
    requires { count ≤ length items.old.items }
    ensures items { items.new.items ≡ drop count items.old.items }
    ensures room { has_room items.old ≡ true → has_room items.new ≡ true }
{
    drop(items.drain(..count));
}

impl<A: Allocator + Clone> Log<A> {
    /// A clone of each row, in their order. Its sets and its case are shared with the log. Refused with `AllocError` where there is no
    /// memory for the list, or a set or a case has too many owners to be counted.
    pub fn share_rows(&self) -> Result<Vec<LogRow<A, OpenCase<A>>, A>, AllocError>
        ensures { IfOk result (λ shared. log_of shared.items ≡ self.now.rows) }
    {
        let mut shared = Vec::with_capacity(self.rows.allocator().clone()?, self.rows.len())?;
        for place in 0..self.rows.len() {
            shared.push(share_row(&self.rows[place])?)?;
        }
        Ok(shared)
    }
}

// A row with one more owner of its sets and of its case.
fn share_row<A: Allocator + Clone>(
    row: &LogRow<A, OpenCase<A>>,
) -> Result<LogRow<A, OpenCase<A>>, AllocError>
    ensures { IfOk result (λ shared. shared ≡ row.now) }
{
    Ok(LogRow {
        place: row.place,
        session: row.session,
        number: row.number,
        start: row.start,
        finish: row.finish,
        reads: row.reads.clone()?,
        writes: row.writes.clone()?,
        standing: share_standing(&row.standing)?,
    })
}

// How a row stands, with one more owner of its case.
fn share_standing<A: Allocator + Clone>(
    standing: &Standing<OpenCase<A>>,
) -> Result<Standing<OpenCase<A>>, AllocError>
    ensures { IfOk result (λ shared. shared ≡ standing.now) }
{
    match standing {
        Standing::Open(open) => Ok(Standing::Open(open.clone()?)),
        Standing::Writing(done) => Ok(Standing::Writing(*done)),
        Standing::Done(tn) => Ok(Standing::Done(*tn)),
        Standing::Back(cause) => Ok(Standing::Back(*cause)),
    }
}
