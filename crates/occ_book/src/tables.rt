//! The tables of a store, each of which keeps its rows.
ghost use Rattle.std.specs.Prelude.{◌≡◌, ◌<◌, ◌≤◌, ◌-◌, ◌^◌, min, map, length, true, false, [], IfOk, IfErr, OnOk, Option, OnErr, IsOk, IsSome, MatchOption, IsOkUnless, Some, None};
ghost use Rattle.std.specs.Option.{option_copied, option_map_or};
ghost use Rattle.std.specs.FinMap as finite;
ghost use Rattle.occ_types.specs.declared.fault.Fault.TheVariants.{Memory};
ghost use Rattle.occ_types.specs.Object as objects;
ghost use Rattle.occ_types.specs.Key as keys;
ghost use Rattle.occ_model.specs.Paging.{rows_answered};
ghost use Rattle.occ_book.specs.Table.{rows_within};
ghost use Rattle.occ_types.specs.Question.{Span};
ghost use Rattle.occ_types.specs.PlainData.{key_of, end_of, object_of};
ghost use Rattle.occ_model.specs.State.{put, answer, Rows, answer_size};
ghost use Rattle.occ_book.specs.Content.{seen, AnswersUpTo};

use crate::table::Table;
use crate::table_rows::TableRows;
use occ_types::{Fault, Key, Object, Refused, Row};
use std::alloc::{AllocError, Allocator};
use std::marker::Model;

/// The tables of a store, named by their places from 0 on, and the rows in each of them under their keys.
#[derive(Drop)]
pub struct Tables<A: Allocator> {
    tables: Vec<Table<A>, A>,
}

impl<A: Allocator> Model for Tables<A> {
    ghost use Rattle.occ_book.specs.Content.{Content, content_code, content_of};

    ghost Value = { Content };

    ghost coded = { content_code };

    ghost view = { λ tables. content_of tables.tables.items };
}

impl<A: Allocator + Clone> Tables<A> {
    /// `count` tables without rows. Refused with `Memory` where there is none for them.
    pub fn new(alloc: A, count: usize) -> Result<Tables<A>, Fault>
        ensures empty { IfOk result (λ tables. tables ≡ record { tables = count; state = finite.empty }) }
        ensures memory { IsOkUnless result Memory }
    {
        let mut tables = Vec::with_capacity(alloc.clone()?, count)?;
        for _ in 0..count {
            tables.push(Table::new(alloc.clone()?)?)?;
        }
        Ok(Tables { tables })
    }

    /// How many tables there are. No row stands in a table that is not there.
    pub fn count(&self) -> usize
        ensures value { result ≡ self.now.tables }
        ensures no_more { (object : objects.Object) → self.now.tables ≤ object.0 → finite.get self.now.state object ≡ None }
    {
        self.tables.len()
    }

    /// The row under a key of a table, or none where it is not there or there is no such table.
    pub fn row(&self, table: usize, key: &Key<A>) -> Option<&Row<A>>
        ensures { option_copied result ≡ finite.get self.now.state (table, key_of key.now) }
    {
        match self.tables.get(table) {
            Some(rows) => rows.get(key),
            None => None,
        }
    }

    /// Sets the row under a key of a table to a copy of `row`, or deletes it where `row` is none.
    ///
    /// A deletion takes no memory. Refused with `Memory` where there is none for a copy, which leaves the tables as they were.
    pub fn put(&mut self, table: usize, key: &Key<A>, row: Option<&Row<A>>) -> Result<(), Fault>
        requires { table < self.old.tables }
        ensures ok { OnOk result (self.new ≡ record { tables = self.old.tables; state = put self.old.state ((table, key_of key.now), option_copied row.entry) }) }
        ensures err { OnErr result (self.new ≡ self.old) }
        ensures memory { IsOkUnless result Memory }
        ensures deletes { option_copied row.entry ≡ None → IsOk result }
    {
        let Some(row) = row else {
            self.delete(table, key);
            return Ok(());
        };
        self.tables[table].put(key, row)
    }

    // Puts a row under a key of a table, and hands out the one that stood there. Refused with `Memory` at a new key alone, which leaves the tables as they were.
    pub(crate) fn exchange(
        &mut self,
        table: usize,
        key: &Key<A>,
        row: Row<A>,
    ) -> Result<Option<Row<A>>, Fault>
        requires { table < self.old.tables }
        ensures was { IfOk result (λ was. was ≡ finite.get self.old.state (table, key_of key.now)) }
        ensures ok { OnOk result (self.new ≡ record { tables = self.old.tables; state = put self.old.state ((table, key_of key.now), Some row) }) }
        ensures err { OnErr result (self.new ≡ self.old) }
        ensures memory { IsOkUnless result Memory }
    {
        self.tables[table].exchange(key, row)
    }

    // Puts a row under an object, neither of which is copied. Refused with `Memory` at a new object alone, which leaves the tables as they were and hands both back.
    pub(crate) fn insert(
        &mut self,
        object: Object<A>,
        row: Row<A>,
    ) -> Result<(), Refused<(Object<A>, Row<A>)>>
        requires { object.table < self.old.tables }
        ensures ok { OnOk result (self.new ≡ record { tables = self.old.tables; state = put self.old.state (object_of object, Some row) }) }
        ensures err { OnErr result (self.new ≡ self.old) }
        ensures handed_back { IfErr result (λ refused. refused.value ≡ (object, row)) }
        ensures memory { IfErr result (λ refused. refused.fault ≡ Memory) }
    {
        let Object { table, key } = object;
        match self.tables[table].insert(key, row) {
            Ok(()) => Ok(()),
            Err(Refused { value, fault }) => Err(Refused {
                value: (
                    Object {
                        table,
                        key: value.0,
                    },
                    value.1,
                ),
                fault,
            }),
        }
    }

    /// Copies of the rows of a table from the lower end on and below the upper one, with their keys and in the order of the keys. Either end may be missing, and a table that is not there has no rows.
    ///
    /// Refused with `Memory` where there is none for the copies.
    pub fn rows(
        &self,
        table: usize,
        lower: Option<&Key<A>>,
        upper: Option<&Key<A>>,
    ) -> Result<Vec<(Key<A>, Row<A>), A>, Fault>
        ensures memory { IsOkUnless result Memory }
        ensures answered { IfOk result (λ rows. Rows (map seen rows.items) ≡ answer (Span table (end_of (option_copied lower.entry)) (end_of (option_copied upper.entry))) self.now.state) }
    {
        let alloc = self.tables.allocator().clone()?;
        match self.tables.get(table) {
            Some(rows) => rows.rows(alloc, lower, upper),
            None => Ok(Vec::new(alloc)),
        }
    }

    /// Copies of the rows as `rows` gives them, where they are at most `most`, and none where they are more. It counts them first, so that they take no more room than they need.
    ///
    /// Refused with `Memory` where there is none for the copies, however many they would be.
    pub fn rows_up_to(
        &self,
        most: usize,
        table: usize,
        lower: Option<&Key<A>>,
        upper: Option<&Key<A>>,
    ) -> Result<Option<Vec<(Key<A>, Row<A>), A>>, Fault>
        ensures memory { IsOkUnless result Memory }
        ensures answered { IfOk result (AnswersUpTo most (answer (Span table (end_of (option_copied lower.entry)) (end_of (option_copied upper.entry))) self.now.state)) }
    {
        let alloc = self.tables.allocator().clone()?;
        match self.tables.get(table) {
            Some(rows) => rows.rows_up_to(alloc, most, lower, upper),
            None => Ok(Some(Vec::new(alloc))),
        }
    }

    /// How many rows `rows` copies, counted over these rows alone and without memory.
    pub fn count_rows(&self, table: usize, lower: Option<&Key<A>>, upper: Option<&Key<A>>) -> usize
        ensures { result ≡ answer_size (answer (Span table (end_of (option_copied lower.entry)) (end_of (option_copied upper.entry))) self.now.state) }
    {
        match self.tables.get(table) {
            Some(rows) => rows.count(lower, upper),
            None => 0,
        }
    }
}

impl<A: Allocator + Clone> Clone for Tables<A> {
    ghost is_clone = { λ source copy. copy ≡ source };

    fn clone(&self) -> Result<Tables<A>, AllocError> {
        Ok(Tables {
            tables: self.tables.clone()?,
        })
    }
}

impl<A: Allocator + Copy> Tables<A> {
    // What the tables take memory from.
    pub(crate) fn allocator(&self) -> A {
        *self.tables.allocator()
    }

    // The table at a place, where there is one.
    pub(crate) fn at(&self, table: usize) -> Option<&Table<A>>
        ensures { (lower upper : Option keys.Key) → rows_answered (answer (Span table lower upper) self.now.state) ≡ option_map_or (λ rows. rows_within lower upper rows.now) result [] }
    {
        let Some(rows) = self.tables.get(table) else {
            return None;
        };
        // that the keys are in order
        let _rows = rows.len();
        Some(rows)
    }
}

impl<A: Allocator> Tables<A> {
    // Brings a row back under a key of a table at which one stands, or deletes that one where `row` is none.
    pub(crate) fn set_back(&mut self, table: usize, key: &Key<A>, row: Option<Row<A>>)
        ensures tables { self.new.tables ≡ self.old.tables }
        ensures state { IsSome (finite.get self.old.state (table, key_of key.now)) → self.new.state ≡ put self.old.state ((table, key_of key.now), row) }
    {
        if table < self.tables.len() {
            self.tables[table].set_back(key, row);
        }
    }

    // Deletes the row under a key of a table, where there is one.
    pub(crate) fn delete(&mut self, table: usize, key: &Key<A>)
        requires { table < self.old.tables }
        ensures { self.new ≡ record { tables = self.old.tables; state = put self.old.state ((table, key_of key.now), None) } }
    {
        self.tables[table].delete(key);
    }

    /// How many rows stand in all tables, or the greatest `usize` where they are more. It takes no memory.
    pub fn len(&self) -> usize
        ensures { result ≡ min (finite.len self.now.state) (2 ^ 64 - 1) }
    {
        let mut rows: usize = 0;
        for table in self.tables.iter() {
            rows = rows.saturating_add(table.len());
        }
        rows
    }

    /// The rows of a table under their keys, one after another in the order of the keys, or none where there is no such table. It takes no memory.
    pub fn table(&self, table: usize) -> Option<TableRows<'_, A>>
        ensures { MatchOption result (self.now.tables ≤ table) (λ rows. Rows rows ≡ answer (Span table None None) self.now.state) }
    {
        match self.tables.get(table) {
            Some(rows) => Some(rows.iter()),
            None => None,
        }
    }
}
