//! The rows of one table: those under numbers in pages, and the others in a tree.
ghost use Rattle.std.specs.Prelude.{◌≡◌, ◌<◌, ◌≤◌, [], map, length, IfOk, IfErr, OnOk, OnErr, IsSome, IsOkUnless, MatchOption, Some, None};
ghost use Rattle.std.specs.List.Sorted.{IsStrictlySortedBy};
ghost use Rattle.std.specs.Map.{keys_of};
ghost use Rattle.std.specs.Option.{option_copied};
ghost use Rattle.occ_types.specs.declared.fault.Fault.TheVariants.{Memory};
ghost use Rattle.occ_types.specs.PlainData.{key_of, end_of};
ghost use Rattle.occ_types.specs.Key.{key_cmp};
ghost use Rattle.occ_book.specs.Content.{seen};
ghost use Rattle.occ_book.specs.Table.{row_under, IsWritten, rows_within, AreAllUpTo};

use crate::maps::{delete_row, exchange_row, insert_number, insert_row, replace_row};
use crate::ranges::{count_between, count_numbers, count_up_to, push_numbers, push_others};
use crate::rows_between::{RowsBackward, RowsBetween};
use crate::table_rows::TableRows;
use occ_pages::PageMap;
use occ_types::{Fault, Key, Refused, Row};
use std::alloc::{AllocError, Allocator};
use std::collections::BTreeMap;
use std::marker::Model;

/// The rows of one table under their keys.
#[derive(Drop)]
pub struct Table<A: Allocator> {
    numbers: PageMap<Row<A>, A>,
    others: BTreeMap<Key<A>, Row<A>, A>,
}

impl<A: Allocator> Model for Table<A> {
    ghost use Rattle.std.specs.Prelude.{List};
    ghost use Rattle.std.specs.Coded.{coded×, coded_list};
    ghost use Rattle.occ_types.specs.Key.{Key as PlainKey};
    ghost use Rattle.occ_types.specs.Row.{Row as PlainRow};
    ghost use Rattle.occ_types.specs.Codes.{key_code, cell_code};

    ghost Value = { List (PlainKey × PlainRow) };

    ghost coded = { coded_list (coded× key_code (coded_list cell_code)) };

    ghost use Rattle.occ_book.specs.Table.{rows_in, AreOthers};

    ghost view = { λ table. rows_in table.numbers table.others.entries };

    ghost invariant = { λ table. AreOthers table.others.entries };
}

impl<A: Allocator + Clone> Table<A> {
    /// A table without rows. It takes no memory but what copies of the allocator may take.
    pub fn new(alloc: A) -> Result<Table<A>, AllocError>
        ensures { IfOk result (λ table. table ≡ []) }
    {
        let numbers = PageMap::new(alloc.clone()?)?;
        let others = BTreeMap::new(alloc);
        Ok(Table { numbers, others })
    }

    // Sets the row under a key to a copy of `row`. Refused with `Memory` where there is none for it, which leaves the table as it was.
    pub(crate) fn put(&mut self, key: &Key<A>, row: &Row<A>) -> Result<(), Fault>
        ensures ok { OnOk result (IsWritten self.old (key_of key.now) (Some row.now) self.new) }
        ensures err { OnErr result (self.new ≡ self.old) }
        ensures memory { IsOkUnless result Memory }
    {
        let copy = row.clone()?;
        let _was = self.exchange(key, copy)?;
        Ok(())
    }

    // Puts a row under a key, and hands out the one that stood there. Refused with `Memory` at a new key alone, which leaves the table as it was.
    pub(crate) fn exchange(&mut self, key: &Key<A>, row: Row<A>) -> Result<Option<Row<A>>, Fault>
        ensures was { IfOk result (λ was. was ≡ row_under self.old (key_of key.now)) }
        ensures ok { OnOk result (IsWritten self.old (key_of key.now) (Some row) self.new) }
        ensures err { OnErr result (self.new ≡ self.old) }
        ensures memory { IsOkUnless result Memory }
    {
        if let Key::Num(number) = key {
            let was = self.numbers.insert(*number, row)?;
            return Ok(was);
        }
        let was = exchange_row(&mut self.others, key, row)?;
        Ok(was)
    }

    // Puts a row under a key, neither of which is copied. Refused with `Memory` at a new key alone, which leaves the table as it was and hands both back.
    pub(crate) fn insert(
        &mut self,
        key: Key<A>,
        row: Row<A>,
    ) -> Result<(), Refused<(Key<A>, Row<A>)>>
        ensures ok { OnOk result (IsWritten self.old (key_of key) (Some row) self.new) }
        ensures err { OnErr result (self.new ≡ self.old) }
        ensures handed_back { IfErr result (λ refused. refused.value ≡ (key, row)) }
        ensures memory { IfErr result (λ refused. refused.fault ≡ Memory) }
    {
        if let Key::Num(number) = &key {
            return insert_number(&mut self.numbers, *number, row);
        }
        insert_row(&mut self.others, key, row)
    }
}

impl<A: Allocator> Table<A> {
    /// How many rows there are.
    pub fn len(&self) -> usize
        ensures len { result ≡ length self.now }
        ensures ordered { IsStrictlySortedBy key_cmp (keys_of self.now) }
    {
        self.numbers.len() + self.others.len()
    }

    /// All rows, in the order of their keys. It takes no memory.
    pub fn iter(&self) -> TableRows<'_, A>
        ensures rows { result ≡ self.now }
        ensures ordered { IsStrictlySortedBy key_cmp (keys_of self.now) }
    {
        // that the keys are in order
        let _rows = self.len();
        TableRows::new(self.numbers.iter(), self.others.iter())
    }

    /// The row under a key, or none where there is none.
    pub fn get(&self, key: &Key<A>) -> Option<&Row<A>>
        ensures { option_copied result ≡ row_under self.now (key_of key.now) }
    {
        if let Key::Num(number) = key {
            return self.numbers.get(*number);
        }
        self.others.get(key)
    }

    // Brings a row back under a key at which one stands, or deletes that one where `row` is none.
    pub(crate) fn set_back(&mut self, key: &Key<A>, row: Option<Row<A>>)
        ensures { IsSome (row_under self.old (key_of key.now)) → IsWritten self.old (key_of key.now) row self.new }
    {
        let Some(row) = row else {
            self.delete(key);
            return;
        };
        if let Key::Num(number) = key {
            let _was = self.numbers.replace(*number, row);
            return;
        }
        replace_row(&mut self.others, key, row);
    }

    // Deletes the row under a key, where there is one.
    pub(crate) fn delete(&mut self, key: &Key<A>)
        ensures { IsWritten self.old (key_of key.now) None self.new }
    {
        if let Key::Num(number) = key {
            // that the keys ascend tells that no second row stands under this one
            let _rows = self.numbers.len();
            let _deleted = self.numbers.remove(*number);
            return;
        }
        delete_row(&mut self.others, key);
    }
}

impl<A: Allocator> Table<A> {
    // The rows from a lower end on and below an upper one, one after another; either end may be missing. It takes no memory.
    pub(crate) fn between(
        &self,
        lower: Option<&Key<A>>,
        upper: Option<&Key<A>>,
    ) -> RowsBetween<'_, A>
        ensures { result ≡ rows_within (end_of (option_copied lower.entry)) (end_of (option_copied upper.entry)) self.now }
    {
        RowsBetween::new(&self.numbers, &self.others, lower, upper)
    }

    // The same from the last one back.
    pub(crate) fn backward(
        &self,
        lower: Option<&Key<A>>,
        upper: Option<&Key<A>>,
    ) -> RowsBackward<'_, A>
        ensures { result ≡ rows_within (end_of (option_copied lower.entry)) (end_of (option_copied upper.entry)) self.now }
    {
        RowsBackward::new(&self.numbers, &self.others, lower, upper)
    }

    // How many rows lie from a lower end on and below an upper one; either end may be missing. It takes no memory.
    pub(crate) fn count(&self, lower: Option<&Key<A>>, upper: Option<&Key<A>>) -> usize
        ensures count { result ≡ length (rows_within (end_of (option_copied lower.entry)) (end_of (option_copied upper.entry)) self.now) }
        ensures ordered { IsStrictlySortedBy key_cmp (keys_of self.now) }
    {
        // that there are so few of both kinds that the sum fits
        let _rows = self.len();
        count_numbers(&self.numbers, lower, upper) + count_between(&self.others, lower, upper)
    }

    // The same where they are at most `most`.
    fn count_up_to(
        &self,
        most: usize,
        lower: Option<&Key<A>>,
        upper: Option<&Key<A>>,
    ) -> Option<usize>
        ensures { MatchOption result
            (most < length (rows_within (end_of (option_copied lower.entry)) (end_of (option_copied upper.entry)) self.now))
            (λ count. (count ≡ length (rows_within (end_of (option_copied lower.entry)) (end_of (option_copied upper.entry)) self.now)) × (count ≤ most)) }
    {
        let numbers = count_numbers(&self.numbers, lower, upper);
        if numbers > most {
            return None;
        }
        let Some(others) = count_up_to(&self.others, most - numbers, lower, upper) else {
            return None;
        };
        Some(numbers + others)
    }

    // Copies of these rows with their keys, in their order. They take the room that `count` of them need, and no more.
    fn copies(
        &self,
        alloc: A,
        count: usize,
        lower: Option<&Key<A>>,
        upper: Option<&Key<A>>,
    ) -> Result<Vec<(Key<A>, Row<A>), A>, Fault>
        requires { count ≡ length (rows_within (end_of (option_copied lower)) (end_of (option_copied upper)) self.now) }
        ensures memory { IsOkUnless result Memory }
        ensures rows { IfOk result (λ rows. map seen rows.items ≡ rows_within (end_of (option_copied lower.entry)) (end_of (option_copied upper.entry)) self.now) }
    {
        let mut rows = Vec::with_capacity(alloc, count)?;
        push_numbers(&mut rows, &self.numbers, lower, upper)?;
        push_others(&mut rows, &self.others, lower, upper)?;
        Ok(rows)
    }

    // Copies of the rows between two ends with their keys, in their order.
    pub(crate) fn rows(
        &self,
        alloc: A,
        lower: Option<&Key<A>>,
        upper: Option<&Key<A>>,
    ) -> Result<Vec<(Key<A>, Row<A>), A>, Fault>
        ensures memory { IsOkUnless result Memory }
        ensures rows { IfOk result (λ rows. map seen rows.items ≡ rows_within (end_of (option_copied lower.entry)) (end_of (option_copied upper.entry)) self.now) }
        ensures ordered { IsStrictlySortedBy key_cmp (keys_of self.now) }
    {
        let count = self.count(lower, upper);
        self.copies(alloc, count, lower, upper)
    }

    // The same where they are at most `most`, and none where they are more.
    pub(crate) fn rows_up_to(
        &self,
        alloc: A,
        most: usize,
        lower: Option<&Key<A>>,
        upper: Option<&Key<A>>,
    ) -> Result<Option<Vec<(Key<A>, Row<A>), A>>, Fault>
        ensures memory { IsOkUnless result Memory }
        ensures rows { IfOk result (AreAllUpTo most (rows_within (end_of (option_copied lower.entry)) (end_of (option_copied upper.entry)) self.now)) }
        ensures ordered { IsStrictlySortedBy key_cmp (keys_of self.now) }
    {
        // that the keys are in order
        let _rows = self.len();
        let Some(count) = self.count_up_to(most, lower, upper) else {
            return Ok(None);
        };
        let rows = self.copies(alloc, count, lower, upper)?;
        Ok(Some(rows))
    }
}

impl<A: Allocator + Clone> Clone for Table<A> {
    ghost is_clone = { λ source copy. copy ≡ source };

    fn clone(&self) -> Result<Table<A>, AllocError> {
        let numbers = self.numbers.clone()?;
        let others = self.others.clone()?;
        Ok(Table { numbers, others })
    }
}
