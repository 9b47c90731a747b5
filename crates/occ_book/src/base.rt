//! What was folded out of a log.
ghost use Rattle.std.specs.Prelude.{◌≡◌, ◌<◌, ◌≤◌, ◌+◌, ◌^◌, ℕ, nat_lt, cond, drop, length, None, IfOk, IfErr, OnOk, OnErr, IsOkUnless, MatchResult};
ghost use Rattle.std.specs.FinMap as finite;
ghost use Rattle.occ_types.specs.declared.fault.Fault.TheVariants.{Memory, NoSession};
ghost use Rattle.occ_model.specs.Content.{IsSession};
ghost use Rattle.occ_model.specs.Log.{Case};
ghost use Rattle.occ_model.specs.State.{apply};
ghost use Rattle.occ_model.specs.Step.{folded};
ghost use Rattle.occ_model.specs.World.{empty_base};
ghost use Rattle.occ_book.specs.Base.{AllFitIn, base_content, numbered, written};
ghost use Rattle.occ_book.specs.Loaded.{rows_fault, IsToldAs, loaded, renumbered, HasEach, plain_rows};
ghost use Rattle.occ_sets.specs.LogRows.{log_of};
ghost use Rattle.occ_sets.specs.Sets.{ArePlaced};

use crate::folded_writes::FoldedWrites;
use crate::loading::load_rows;
use crate::marks::Marks;
use crate::tables::Tables;
use occ_sets::LogRow;
use occ_types::{Fault, Object, Refused, Row};
use std::alloc::{AllocError, Allocator};
use std::marker::Model;

/// What was folded out of a log: the state that its committed rows made, the last number of each session among its rows, and the place of the next row to enter. Clauses see the base of the model, and how many tables and sessions there are.
///
/// The state is that of some tables with the last write of each object that was folded since. Nobody asks it for a range, so these writes are found by hashes; `state` puts all rows in order.
#[derive(Drop)]
pub struct Base<A: Allocator> {
    origin: Tables<A>,
    since: FoldedWrites<A>,
    numbers: Marks<A>,
    next: usize,
}

impl<A: Allocator> Model for Base<A> {
    ghost use Rattle.occ_book.specs.Base.{BaseContent, base_content_code};

    ghost Value = { BaseContent };

    ghost coded = { base_content_code };

    ghost use Rattle.occ_book.specs.Base.{base_content, written_over};
    ghost use Rattle.occ_sets.specs.Sets.{ArePlaced};

    ghost view = { λ b. base_content (written_over b.origin b.since) b.numbers b.next };

    ghost invariant = { λ b. ArePlaced b.origin.tables b.since };
}

impl<A: Allocator> Base<A> {
    /// The state that the folded rows made, in the two parts that it is kept in: the rows of some tables, and what was written since. It takes no memory.
    pub fn parts(&self) -> (&Tables<A>, &FoldedWrites<A>)
        ensures tables { result.0.now.tables ≡ self.now.tables }
        ensures state { apply result.0.now.state result.1.now ≡ self.now.base.state }
    {
        (&self.origin, &self.since)
    }

    /// The last folded number of each session, session by session.
    pub fn numbers(&self) -> &Marks<A>
        ensures { result.now ≡ record { sessions = self.now.sessions; marks = self.now.base.last } }
    {
        &self.numbers
    }

    /// The last folded number of a session, or none where no row of it was folded or there is no such session.
    pub fn last(&self, session: usize) -> Option<u64>
        ensures { result ≡ finite.get self.now.base.last session }
    {
        self.numbers.get(session)
    }

    /// The place of the next row to enter.
    pub fn place(&self) -> usize
        ensures { result ≡ self.now.base.place }
    {
        self.next
    }

    /// The same base where no session has a number any more, so that each begins anew. It takes no memory.
    pub fn renumbered(self) -> Base<A>
        ensures { result ≡ record self { base = renumbered self.base } }
    {
        let mut base = self;
        base.numbers.clear();
        base
    }

    /// The same base with room for the numbers of so many sessions. Refused with `NoSession` where these are fewer than before, and else with `Memory` where there is none for them; the base comes back.
    pub fn for_sessions(self, alloc: A, sessions: usize) -> Result<Base<A>, Refused<Base<A>>>
        ensures ok { IfOk result (λ base. base ≡ record self { sessions = sessions }) }
        ensures handed_back { IfErr result (λ refused. refused.value ≡ self) }
        ensures fault { MatchResult result
            (λ _. self.sessions ≤ sessions)
            (λ refused. refused.fault ≡ cond (nat_lt sessions self.sessions) NoSession Memory) }
    {
        let mut base = self;
        match base.numbers.for_sessions(alloc, sessions) {
            Ok(numbers) => {
                base.numbers = numbers;
                Ok(base)
            }
            Err(fault) => Err(Refused { value: base, fault }),
        }
    }
}

impl<A: Allocator + Copy> Base<A> {
    /// A base with the rows of these tables, with these as the last numbers of the sessions, and with the place of the next row. It takes no memory.
    pub fn from_parts(state: Tables<A>, last: Marks<A>, place: usize) -> Base<A>
        ensures { result ≡ base_content state last place }
    {
        Base {
            since: FoldedWrites::new(state.allocator()),
            origin: state,
            numbers: last,
            next: place,
        }
    }

    /// The base of a log of which nothing was folded, with so many tables, and with room for the numbers of so many sessions. Refused with `Memory` where there is none for them.
    pub fn new(alloc: A, tables: usize, sessions: usize) -> Result<Base<A>, Fault>
        ensures empty { IfOk result (λ base. base ≡ record { tables = tables; sessions = sessions; base = empty_base }) }
        ensures memory { IsOkUnless result Memory }
    {
        let state = Tables::new(alloc, tables)?;
        let last = Marks::new(alloc, sessions)?;
        Ok(Base::from_parts(state, last, 0))
    }

    /// A base with these rows, in whatever order they come, in so many tables, and with room for the numbers of so many sessions, of which none has one. The rows count as what the place 0 wrote, so the next row to enter has the place 1.
    ///
    /// The time is that of a search for each row, which is shorter where the rows come in the order of their keys; rows under numbers take the least memory then. Texts are shared and not copied.
    ///
    /// The first row, in the order given, that can't come in refuses them all: with `NoTable` where its table isn't there, or with `BadSchema` where an earlier row has its object, so that a key stands twice. `Memory` refuses them where there is none for the tables, for a row up to that one, or, where all can come in, for the sessions. Each refusal hands the rows back.
    pub fn from_rows(
        alloc: A,
        tables: usize,
        sessions: usize,
        rows: Vec<(Object<A>, Row<A>), A>,
    ) -> Result<Base<A>, Refused<Vec<(Object<A>, Row<A>), A>>>
        ensures ok { IfOk result (λ base. base ≡ record { tables = tables; sessions = sessions; base = loaded (plain_rows rows.items) }) }
        ensures each { IfOk result (λ base. HasEach base.base.state (plain_rows rows.items)) }
        ensures fault { MatchResult result
            (λ _. rows_fault tables (plain_rows rows.items) ≡ None)
            (λ refused. IsToldAs (rows_fault tables (plain_rows rows.items)) refused.fault) }
        ensures handed_back { IfErr result (λ refused. refused.value ≡ rows) }
    {
        match Base::with_rows(alloc, tables, sessions, &rows) {
            Ok(base) => Ok(base),
            Err(fault) => Err(Refused { value: rows, fault }),
        }
    }

    // The same base with copies of the rows.
    fn with_rows(
        alloc: A,
        tables: usize,
        sessions: usize,
        rows: &[(Object<A>, Row<A>)],
    ) -> Result<Base<A>, Fault>
        ensures ok { IfOk result (λ base. base ≡ record { tables = tables; sessions = sessions; base = loaded (plain_rows rows.now) }) }
        ensures fault { MatchResult result
            (λ _. rows_fault tables (plain_rows rows.now) ≡ None)
            (λ fault. IsToldAs (rows_fault tables (plain_rows rows.now)) fault) }
    {
        let mut state = Tables::new(alloc, tables)?;
        load_rows(&mut state, rows)?;
        let last = Marks::new(alloc, sessions)?;
        Ok(Base::from_parts(state, last, 1))
    }

    /// Folds some rows after those that were folded: what their committed ones write, their numbers, and their places. A row that is open or backed up writes nothing. The tables that the rows write to and their sessions have to be there.
    ///
    /// Room is made for all writes first, and then they are done, which can't fail. The time is that of a search for each write, and no other row of the state is looked at.
    ///
    /// Refused with `Memory` where there is none to list the writes, or for a copy of a row or of a new key. That leaves the base as it was.
    pub fn fold<O>(&mut self, rows: &[LogRow<A, O>]) -> Result<(), Fault>
        requires fits { AllFitIn self.old.tables self.old.sessions rows.now }
        requires places { self.old.base.place + length rows.now < 2 ^ 64 }
        ensures ok { (opened : O → ℕ × Case) → OnOk result (self.new ≡ record self.old { base = folded self.old.base (log_of opened rows.now) }) }
        ensures err { OnErr result (self.new ≡ self.old) }
        ensures memory { IsOkUnless result Memory }
    {
        self.since.fold(&self.origin, rows)?;
        note_numbers(&mut self.numbers, rows);
        self.next = place_behind(self.next, rows);
        Ok(())
    }
}

impl<A: Allocator + Copy> Base<A> {
    /// The base that this one is once some rows are folded, of which these tables have the state already. It takes no memory.
    pub fn behind<O>(self, rows: &[LogRow<A, O>], tables: Tables<A>) -> Base<A>
        requires fits { AllFitIn self.tables self.sessions rows.now }
        requires places { self.base.place + length rows.now < 2 ^ 64 }
        requires state { tables ≡ record { tables = self.tables; state = written self.base.state rows.now } }
        ensures { (opened : O → ℕ × Case) → result ≡ record self { base = folded self.base (log_of opened rows.now) } }
    {
        let Base { numbers, next, .. } = self;
        let mut numbers = numbers;
        note_numbers(&mut numbers, rows);
        Base::from_parts(tables, numbers, place_behind(next, rows))
    }
}

// Notes the numbers of some rows, one after another.
fn note_numbers<A: Allocator, O>(numbers: &mut Marks<A>, rows: &[LogRow<A, O>])
    requires { (tables : ℕ) × AllFitIn tables numbers.old.sessions rows.now }
    ensures { numbers.new ≡ record numbers.old { marks = numbered numbers.old.marks rows.now } }
{
    for row in rows {
        note_number(numbers, row);
    }
}

// Notes the number of a row as the last one of its session.
fn note_number<A: Allocator, O>(numbers: &mut Marks<A>, row: &LogRow<A, O>)
    requires { IsSession numbers.old.sessions row.now.session }
    ensures { numbers.new ≡ record numbers.old { marks = finite.insert numbers.old.marks row.now.session row.now.number } }
{
    numbers.set(row.session, row.number);
}

// The place behind some rows, of which the first one has a place.
fn place_behind<A: Allocator, O>(place: usize, rows: &[LogRow<A, O>]) -> usize
    requires { place + length rows.now < 2 ^ 64 }
    ensures { result ≡ place + length rows.now }
{
    place + rows.len()
}

impl<A: Allocator + Clone> Base<A> {
    /// How many tables there are.
    pub fn tables(&self) -> usize
        ensures { result ≡ self.now.tables }
    {
        self.origin.count()
    }

    /// The state that the folded rows made, as tables of its own, whose rows are in order. Refused with `Memory` where there is none for them.
    pub fn state(&self) -> Result<Tables<A>, Fault>
        ensures state { IfOk result (λ tables. tables ≡ record { tables = self.now.tables; state = self.now.base.state }) }
        ensures memory { IsOkUnless result Memory }
    {
        let mut tables = self.origin.clone()?;
        for place in 0..self.since.len() {
            write_at(&mut tables, &self.since, place)?;
        }
        Ok(tables)
    }
}

// Does the write at a place.
fn write_at<A: Allocator + Clone>(
    tables: &mut Tables<A>,
    writes: &FoldedWrites<A>,
    place: usize,
) -> Result<(), Fault>
    requires { ArePlaced tables.old.tables writes.now }
    ensures tables { tables.new.tables ≡ tables.old.tables }
    ensures state { OnOk result (apply tables.new.state (drop (place + 1) writes.now) ≡ apply tables.old.state (drop place writes.now)) }
    ensures memory { IsOkUnless result Memory }
{
    match writes.write_at(place) {
        Some((object, row)) => tables.put(object.table, &object.key, row),
        None => Ok(()),
    }
}

impl<A: Allocator + Clone> Clone for Base<A> {
    ghost is_clone = { λ source copy. copy ≡ source };

    fn clone(&self) -> Result<Base<A>, AllocError> {
        Ok(Base {
            origin: self.origin.clone()?,
            since: self.since.clone()?,
            numbers: self.numbers.clone()?,
            next: self.next,
        })
    }
}
