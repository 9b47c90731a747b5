//! A state that is replayed. It has no row of its own: the log and the tables lend it theirs.
ghost use Rattle.std.specs.Prelude.{◌≡◌, ◌<◌, ◌≤◌, ◌+◌, ℕ, [], None, drop, IfOk, MatchOption, OnOk};
ghost use Rattle.std.specs.Bool.{Decides};
ghost use Rattle.std.specs.List.Sorted.{IsStrictlySortedBy};
ghost use Rattle.std.specs.Map.{keys_of};
ghost use Rattle.std.specs.Option.{option_copied};
ghost use Rattle.std.specs.FinMap as finite;
ghost use Rattle.occ_types.specs.Key as keys;
ghost use Rattle.occ_types.specs.Key.{key_cmp};
ghost use Rattle.occ_types.specs.Object as objects;
ghost use Rattle.occ_types.specs.Question.{Span};
ghost use Rattle.occ_types.specs.PlainData.{end_of, object_of, question_of};
ghost use Rattle.occ_sets.specs.Entries.{observation_lent};
ghost use Rattle.occ_sets.specs.PlainSets.{answer_of, rows_of};
ghost use Rattle.occ_book.specs.Table.{row_under};
ghost use Rattle.occ_model.specs.State.{put, apply, answer, Rows};
ghost use Rattle.occ_audit.specs.Replica.{SameTable, IsPlaced, IsTaken, state_of};

use crate::lent_rows::{LentRange, LentRows};
use occ_book::{Base, FoldedWrites, KeyRef, TableRows, Tables};
use occ_sets::{Answer, ObservationRef, WriteSet};
use occ_types::{Key, Object, Question, Row};
use std::alloc::{AllocError, Allocator};
use std::collections::BTreeMap;
use std::marker::Model;

/// A state with the rows of each table that was ever written. Tables may have any place, also one that no schema has. Clauses see the state of the model.
pub struct Replica<'a, A: Allocator> {
    alloc: A,
    tables: BTreeMap<usize, LentRows<'a, A>, A>,
}

impl<'a, A: Allocator> Model for Replica<'a, A> {
    ghost use Rattle.occ_model.specs.State.{State};

    ghost Value = { State };

    ghost use Rattle.occ_book.specs.Content.{state_code};

    ghost coded = { state_code };

    ghost use Rattle.occ_audit.specs.Replica.{state_of};

    ghost view = { λ replica. state_of replica.tables.entries };
}

// A derived `drop` of a map of maps with lent keys gets no proof, so the maps are taken out one after another.
impl<'a, A: Allocator> Drop for Replica<'a, A> {
    fn drop(self) {
        let Replica { alloc, mut tables } = self;
        drop(alloc);
        while let Some((_, _rows)) = tables.pop_first() {}
        tables.destroy_empty();
    }
}

impl<'a, A: Allocator + Copy> Replica<'a, A> {
    /// A state without rows, which takes no memory.
    pub fn new(alloc: A) -> Replica<'a, A>
        ensures { result ≡ finite.empty }
    {
        Replica {
            alloc,
            tables: BTreeMap::new(alloc),
        }
    }

    /// The state of some tables, which lend it their rows.
    pub fn of(alloc: A, tables: &'a Tables<A>) -> Result<Replica<'a, A>, AllocError>
        ensures { IfOk result (λ replica. replica ≡ tables.now.state) }
    {
        let mut replica = Replica::new(alloc);
        for table in 0..tables.count() {
            replica.take_table(tables, table)?;
        }
        Ok(replica)
    }

    /// The state of a base, which lends it its rows.
    pub fn of_base(alloc: A, base: &'a Base<A>) -> Result<Replica<'a, A>, AllocError>
        ensures { IfOk result (λ replica. replica ≡ base.now.base.state) }
    {
        let (origin, since) = base.parts();
        let mut replica = Replica::of(alloc, origin)?;
        replica.write_folded(since)?;
        Ok(replica)
    }

    // From now on a table has the rows that it has among these tables.
    fn take_table(&mut self, tables: &'a Tables<A>, table: usize) -> Result<(), AllocError>
        requires { table < tables.now.tables }
        ensures { OnOk result (IsTaken table tables.now.state self.old self.new) }
    {
        let Some(kept) = tables.table(table) else {
            return Ok(());
        };
        let rows = LentRows::of(self.alloc, kept)?;
        self.place(table, rows)
    }

    // Puts the rows of a table in the place of those that it has.
    fn place(&mut self, table: usize, rows: LentRows<'a, A>) -> Result<(), AllocError>
        ensures { OnOk result (IsPlaced table rows.entry self.old self.new) }
    {
        // without `?`, since a conversion of the refused map gets no proof
        let _replaced = match self.tables.insert(table, rows) {
            Ok(replaced) => replaced,
            Err(_refused) => return Err(AllocError),
        };
        Ok(())
    }

    /// The tables that were ever written, each with its rows, by their places.
    pub fn tables(&self) -> &BTreeMap<usize, LentRows<'a, A>, A>
        ensures { state_of result.now.entries ≡ self.now }
    {
        &self.tables
    }

    /// The rows of a table, or none where it was never written.
    pub fn rows(&self, table: usize) -> Option<&LentRows<'a, A>>
        ensures { MatchOption result
            ((key : keys.Key) → finite.get self.now (table, key) ≡ None)
            (λ rows. (key : keys.Key) → finite.get self.now (table, key) ≡ row_under rows.now key) }
    {
        self.tables.get(&table)
    }

    /// The row of an object, or none where it is not there.
    pub fn row(&self, object: &'a Object<A>) -> Option<&'a Row<A>>
        ensures { option_copied result ≡ finite.get self.now (object_of object.now) }
    {
        let rows = self.rows(object.table)?;
        rows.get(&object.key)
    }

    /// Does one write.
    pub fn put(&mut self, object: &'a Object<A>, row: Option<&'a Row<A>>) -> Result<(), AllocError>
        ensures { OnOk result (self.new ≡ put self.old (object_of object.now, option_copied row.entry)) }
    {
        match row {
            Some(row) => self.insert(object, row),
            None => {
                self.delete(object);
                Ok(())
            }
        }
    }

    // Sets the row of an object.
    fn insert(&mut self, object: &'a Object<A>, row: &'a Row<A>) -> Result<(), AllocError>
        ensures { OnOk result (self.new ≡ put self.old (object_of object.now, Some row.now)) }
    {
        if let Some(rows) = self.tables.get_mut(&object.table) {
            return rows.put(&object.key, row);
        }
        let mut rows = LentRows::new(self.alloc)?;
        rows.put(&object.key, row)?;
        self.place(object.table, rows)
    }

    // Deletes the row of an object, where there is one.
    fn delete(&mut self, object: &'a Object<A>)
        ensures { self.new ≡ put self.old (object_of object.now, None) }
    {
        if let Some(rows) = self.tables.get_mut(&object.table) {
            rows.delete(&object.key);
        }
    }

    /// Does the writes of a set in their order.
    pub fn write(&mut self, writes: &'a WriteSet<A>) -> Result<(), AllocError>
        ensures { OnOk result (self.new ≡ apply self.old writes.now) }
    {
        for place in 0..writes.len() {
            self.write_at(writes, place)?;
        }
        Ok(())
    }

    // Does the write at a place, where there is one.
    fn write_at(&mut self, writes: &'a WriteSet<A>, place: usize) -> Result<(), AllocError>
        ensures { OnOk result (apply self.new (drop (place + 1) writes.now) ≡ apply self.old (drop place writes.now)) }
    {
        let Some((object, row)) = writes.write_at(place) else {
            return Ok(());
        };
        self.put(object, row)
    }

    // Does the writes that were folded.
    fn write_folded(&mut self, writes: &'a FoldedWrites<A>) -> Result<(), AllocError>
        ensures { OnOk result (self.new ≡ apply self.old writes.now) }
    {
        for place in 0..writes.len() {
            self.write_folded_at(writes, place)?;
        }
        Ok(())
    }

    // Does the folded write at a place, where there is one.
    fn write_folded_at(
        &mut self,
        writes: &'a FoldedWrites<A>,
        place: usize,
    ) -> Result<(), AllocError>
        ensures { OnOk result (apply self.new (drop (place + 1) writes.now) ≡ apply self.old (drop place writes.now)) }
    {
        let Some((object, row)) = writes.write_at(place) else {
            return Ok(());
        };
        self.put(object, row)
    }

    /// Whether the state answers the question of an observation as this does.
    pub fn agrees(&self, seen: ObservationRef<'a, A>) -> bool
        ensures { Decides result ((observation_lent seen.entry).1 ≡ answer (observation_lent seen.entry).0 self.now) }
    {
        match seen {
            ObservationRef::Key(object, row) => self.row(object) == row,
            ObservationRef::Whole(seen) => self.answers(&seen.question, &seen.answer),
        }
    }

    /// Whether the state answers a question so.
    pub fn answers(&self, question: &'a Question<A>, given: &'a Answer<A>) -> bool
        ensures { Decides result (answer_of given.now ≡ answer (question_of question.now) self.now) }
    {
        match (question, given) {
            (Question::One(object), Answer::Found(row)) => self.row(object) == row.as_ref(),
            (
                Question::Span {
                    table,
                    lower,
                    upper,
                },
                Answer::Rows(rows),
            ) => self.answers_range(*table, lower.as_ref(), upper.as_ref(), rows.as_slice()),
            (Question::One(_), Answer::Rows(_)) => false,
            (Question::Span { .. }, Answer::Found(_)) => false,
        }
    }

    // Whether the state answers these rows to a range.
    fn answers_range(
        &self,
        table: usize,
        lower: Option<&'a Key<A>>,
        upper: Option<&'a Key<A>>,
        given: &'a [(Key<A>, Row<A>)],
    ) -> bool
        ensures { Decides result (Rows (rows_of given.now) ≡ answer (Span table (end_of (option_copied lower.entry)) (end_of (option_copied upper.entry))) self.now) }
    {
        match self.rows(table) {
            Some(rows) => are_given(rows.range(lower, upper), given),
            None => given.is_empty(),
        }
    }

    /// Whether the state is that of these tables.
    pub fn is_of(&self, tables: &'a Tables<A>) -> bool
        ensures { Decides result (tables.now.state ≡ self.now) }
    {
        let count = tables.count();
        for table in 0..count {
            if !self.has_table(tables, table) {
                return false;
            }
        }
        self.is_from(tables, count)
    }

    // Whether the state is that of these tables, where all below `first` have the same rows and none is there from it on.
    fn is_from(&self, tables: &'a Tables<A>, first: usize) -> bool
        requires below { (table : ℕ) → table < first → SameTable table tables.now.state self.now }
        requires no_more { (object : objects.Object) → first ≤ object.0 → finite.get tables.now.state object ≡ None }
        ensures { Decides result (tables.now.state ≡ self.now) }
    {
        for (table, _) in &self.tables {
            if *table >= first && !self.has_table(tables, *table) {
                return false;
            }
        }
        true
    }

    // Whether a table has the same rows in the state as among these tables.
    fn has_table(&self, tables: &'a Tables<A>, table: usize) -> bool
        ensures { Decides result (SameTable table tables.now.state self.now) }
    {
        // `count` tells that no row stands in a table that is not there
        let _count = tables.count();
        match (tables.table(table), self.rows(table)) {
            (Some(kept), Some(rows)) => are_kept(rows, kept),
            (Some(kept), None) => is_none_left(kept),
            (None, Some(rows)) => rows.len() == 0,
            (None, None) => true,
        }
    }
}

// Whether rows are those that were given, in their order.
fn are_given<'a, A: Allocator>(rows: LentRange<'_, 'a, A>, given: &'a [(Key<A>, Row<A>)]) -> bool
    ensures { Decides result (rows_of given.now ≡ rows.entry) }
{
    rows.eq(given.iter().map(|(key, row)| (KeyRef::of(key), row)))
}

// Whether rows are those of a table.
fn are_kept<'a, A: Allocator>(rows: &LentRows<'a, A>, kept: TableRows<'a, A>) -> bool
    ensures same { Decides result (kept.entry ≡ rows.now) }
    ensures ordered { IsStrictlySortedBy key_cmp (keys_of rows.now) }
{
    rows.iter().eq(kept)
}

// Whether a table has no row.
fn is_none_left<A: Allocator>(mut kept: TableRows<'_, A>) -> bool
    ensures { Decides result (kept.entry ≡ []) }
{
    match kept.next() {
        Some(_) => false,
        None => true,
    }
}
