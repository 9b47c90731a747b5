//! The rows of one table, lent: those under numbers in pages, and the others in a tree.
ghost use Rattle.std.specs.Prelude.{◌≡◌, [], map, length, false, None, Some, IfOk, OnOk};
ghost use Rattle.std.specs.List.Sorted.{IsStrictlySortedBy};
ghost use Rattle.std.specs.Map.{keys_of};
ghost use Rattle.std.specs.Map.Iter.{deref_pair};
ghost use Rattle.std.specs.Iterator.{YieldsFirstBy, item_count};
ghost use Rattle.std.specs.Option.{option_copied};
ghost use Rattle.std.specs.Range.Bound.{bound_map};
ghost use Rattle.occ_types.specs.Key as keys;
ghost use Rattle.occ_types.specs.Key.{key_cmp};
ghost use Rattle.occ_types.specs.PlainData.{end_of, key_of};
ghost use Rattle.occ_types.specs.Row as rows;
ghost use Rattle.occ_pages.specs.Entries.{within};
ghost use Rattle.occ_book.specs.Content.{entries_within, is_backward, lower_bound, upper_bound};
ghost use Rattle.occ_book.specs.KeyRefs.{key_lent};
ghost use Rattle.occ_book.specs.Table.{IsWritten, number_end, number_ends, numbers_within, row_under, rows_within};
ghost use Rattle.occ_audit.specs.LentRows.{at_number, IsForwardTo, IsNumberOr, IsNumberRange, rows_lent};

use occ_book::{KeyRef, TableRows};
use occ_pages::PageMap;
use occ_types::{Key, Row};
use std::alloc::{AllocError, Allocator};
use std::collections::{BTreeMap, btree_map};
use std::marker::Model;
use std::ops::Bound;

/// The rows of one table under their keys, all of them lent. Clauses see the list of them.
#[derive(Drop)]
pub struct LentRows<'a, A: Allocator> {
    numbers: PageMap<&'a Row<A>, A>,
    others: BTreeMap<&'a Key<A>, &'a Row<A>, A>,
}

impl<'a, A: Allocator> Model for LentRows<'a, A> {
    ghost use Rattle.std.specs.Prelude.{List, map};
    ghost use Rattle.std.specs.Coded.{coded×, coded_list};
    ghost use Rattle.std.specs.Map.Iter.{deref_pair};
    ghost use Rattle.occ_types.specs.Key.{Key as PlainKey};
    ghost use Rattle.occ_types.specs.Row.{Row as PlainRow};
    ghost use Rattle.occ_types.specs.Codes.{key_code, cell_code};

    ghost Value = { List (PlainKey × PlainRow) };

    ghost coded = { coded_list (coded× key_code (coded_list cell_code)) };

    ghost use Rattle.occ_book.specs.Table.{AreOthers};
    ghost use Rattle.occ_audit.specs.LentRows.{rows_lent};

    ghost view = { λ rows. rows_lent rows.numbers rows.others.entries };

    ghost invariant = { λ rows. AreOthers (map deref_pair rows.others.entries) };
}

impl<'a, A: Allocator + Copy> LentRows<'a, A> {
    /// No rows. It takes no memory.
    pub fn new(alloc: A) -> Result<LentRows<'a, A>, AllocError>
        ensures { IfOk result (λ rows. rows ≡ []) }
    {
        let numbers = PageMap::new(alloc)?;
        let others = BTreeMap::new(alloc);
        Ok(LentRows { numbers, others })
    }

    /// The rows of a table. They come in order, so each number goes behind the last one, and the tree of the others is built at once.
    pub fn of(alloc: A, kept: TableRows<'a, A>) -> Result<LentRows<'a, A>, AllocError>
        requires { IsStrictlySortedBy key_cmp (keys_of kept) }
        ensures { IfOk result (λ rows. (key : keys.Key) → row_under rows key ≡ row_under kept.entry key) }
    {
        let mut numbers = PageMap::new(alloc)?;
        let mut others = Vec::new(alloc);
        for (key, row) in kept {
            match number_of(key) {
                Ok(number) => {
                    let _was = numbers.insert(number, row)?;
                }
                Err(key) => others.push((key, row))?,
            }
        }
        let others = BTreeMap::from_iter(alloc, others)?;
        Ok(LentRows { numbers, others })
    }

    // Sets the row under a number.
    fn put_number(&mut self, number: u64, row: &'a Row<A>) -> Result<(), AllocError>
        ensures { OnOk result (IsWritten self.old (keys.Num number) (Some row.now) self.new) }
    {
        let _was = self.numbers.insert(number, row)?;
        Ok(())
    }

    /// Sets the row under a key.
    pub fn put(&mut self, key: &'a Key<A>, row: &'a Row<A>) -> Result<(), AllocError>
        ensures { OnOk result (IsWritten self.old (key_of key.now) (Some row.now) self.new) }
    {
        if let Key::Num(number) = key {
            return self.put_number(*number, row);
        }
        let _was = self.others.insert(key, row)?;
        Ok(())
    }
}

impl<'a, A: Allocator> LentRows<'a, A> {
    /// The row under a key, or none where there is none.
    pub fn get(&self, key: &'a Key<A>) -> Option<&'a Row<A>>
        ensures { option_copied result ≡ row_under self.now (key_of key.now) }
    {
        if let Key::Num(number) = key {
            return self.get_number(*number);
        }
        self.others.get(&key).copied()
    }

    /// The row under a key that is lent, or none where there is none.
    pub fn get_lent(&self, key: KeyRef<'a, A>) -> Option<&'a Row<A>>
        ensures { option_copied result ≡ row_under self.now (key_lent key.entry) }
    {
        match key {
            KeyRef::Num(number) => self.get_number(number),
            KeyRef::Other(key) => self.get(key),
        }
    }

    // The row under a number, or none where there is none.
    fn get_number(&self, number: u64) -> Option<&'a Row<A>>
        ensures { option_copied result ≡ row_under self.now (keys.Num number) }
    {
        self.numbers.get(number).copied()
    }

    /// Deletes the row under a key, where there is one.
    pub fn delete(&mut self, key: &'a Key<A>)
        ensures { IsWritten self.old (key_of key.now) None self.new }
    {
        if let Key::Num(number) = key {
            // that the keys ascend tells that no second row stands under this one
            let _rows = self.numbers.len();
            let _deleted = self.numbers.remove(*number);
            return;
        }
        let _deleted = self.others.remove(&key);
    }

    /// How many rows there are.
    pub fn len(&self) -> usize
        ensures len { result ≡ length self.now }
        ensures ordered { IsStrictlySortedBy key_cmp (keys_of self.now) }
    {
        self.numbers.len() + self.others.len()
    }

    /// The rows from a lower end on and below an upper one, in the order of their keys; either end may be missing.
    pub fn range(
        &self,
        lower: Option<&'a Key<A>>,
        upper: Option<&'a Key<A>>,
    ) -> LentRange<'_, 'a, A>
        ensures rows { result ≡ rows_within (end_of (option_copied lower.entry)) (end_of (option_copied upper.entry)) self.now }
        ensures ordered { IsStrictlySortedBy key_cmp (keys_of self.now) }
    {
        // that the keys are in order
        let _rows = self.len();
        let upper = forward_to(lower, upper);
        LentRange::new(
            numbers_between(&self.numbers, lower, upper),
            others_between(&self.others, lower, upper),
        )
    }

    /// All rows, in the order of their keys.
    pub fn iter(&self) -> LentRange<'_, 'a, A>
        ensures rows { result ≡ self.now }
        ensures ordered { IsStrictlySortedBy key_cmp (keys_of self.now) }
    {
        self.range(None, None)
    }
}

/// Rows that are lent and that are left, in the order of their keys, seen as the list of them.
#[derive(Drop)]
pub struct LentRange<'r, 'a, A: Allocator> {
    numbers: occ_pages::Range<'r, &'a Row<A>, A>,
    others: btree_map::Range<'r, &'a Key<A>, &'a Row<A>>,
}

impl<'r, 'a, A: Allocator> Model for LentRange<'r, 'a, A> {
    ghost use Rattle.std.specs.Prelude.{List};
    ghost use Rattle.std.specs.Coded.{coded×, coded_list};
    ghost use Rattle.occ_types.specs.Key.{Key as PlainKey};
    ghost use Rattle.occ_types.specs.Row.{Row as PlainRow};
    ghost use Rattle.occ_types.specs.Codes.{key_code, cell_code};

    ghost Value = { List (PlainKey × PlainRow) };

    ghost coded = { coded_list (coded× key_code (coded_list cell_code)) };

    ghost use Rattle.occ_audit.specs.LentRows.{rows_lent};

    ghost view = { λ rows. rows_lent rows.numbers rows.others };
}

impl<'r, 'a, A: Allocator> LentRange<'r, 'a, A> {
    // The rows under numbers, and then the others.
    fn new(
        numbers: occ_pages::Range<'r, &'a Row<A>, A>,
        others: btree_map::Range<'r, &'a Key<A>, &'a Row<A>>,
    ) -> LentRange<'r, 'a, A>
        ensures { result ≡ rows_lent numbers.entry others.entry }
    {
        LentRange { numbers, others }
    }
}

impl<'r, 'a, A: Allocator> Iterator for LentRange<'r, 'a, A> {
    type Item = (KeyRef<'a, A>, &'a Row<A>);

    ghost next_gives = { YieldsFirstBy (λ item. (key_lent item.0, item.1.now)) (λ rest. rest) };

    ghost remaining = { item_count (λ rest. rest) };

    fn next(&mut self) -> Option<(KeyRef<'a, A>, &'a Row<A>)> {
        if let Some((number, row)) = self.numbers.next() {
            return Some((KeyRef::Num(number), *row));
        }
        let Some((key, row)) = self.others.next() else {
            return None;
        };
        Some((KeyRef::Other(*key), *row))
    }
}

// The number that a key is, or the key where it is none.
fn number_of<'a, A: Allocator>(key: KeyRef<'a, A>) -> Result<u64, &'a Key<A>>
    ensures { IsNumberOr (key_lent key.entry) result }
{
    let key = match key {
        KeyRef::Num(number) => return Ok(number),
        KeyRef::Other(key) => key,
    };
    match key {
        Key::Num(number) => Ok(*number),
        Key::Text(_) => Err(key),
        Key::Pair(_) => Err(key),
    }
}

// The upper end of a range, or the lower one where the range runs backwards, so that nothing lies in it.
fn forward_to<'a, A: Allocator>(
    lower: Option<&'a Key<A>>,
    upper: Option<&'a Key<A>>,
) -> Option<&'a Key<A>>
    ensures { IsForwardTo (end_of (option_copied lower.entry)) (end_of (option_copied upper.entry)) (end_of (option_copied result)) }
{
    if is_backward(lower, upper) {
        lower
    } else {
        upper
    }
}

// Whether both ends of a range are there, and the lower one is above the upper one.
fn is_backward<A: Allocator>(lower: Option<&Key<A>>, upper: Option<&Key<A>>) -> bool
    ensures { result ≡ is_backward (end_of (option_copied lower.entry)) (end_of (option_copied upper.entry)) }
{
    match (lower, upper) {
        (Some(lower), Some(upper)) => lower > upper,
        _ => false,
    }
}

// The rows under numbers between two ends.
fn numbers_between<'r, 'a, A: Allocator>(
    numbers: &'r PageMap<&'a Row<A>, A>,
    lower: Option<&'a Key<A>>,
    upper: Option<&'a Key<A>>,
) -> occ_pages::Range<'r, &'a Row<A>, A>
    ensures { map at_number result ≡ numbers_within (number_ends (end_of (option_copied lower.entry)) (end_of (option_copied upper.entry))) (map at_number numbers.now) }
{
    let (first, end) = number_range(lower, upper);
    numbers.range(first, end)
}

// The ends of a range of keys among the numbers. All numbers stand before each other key, so none lies from such a key on.
fn number_range<A: Allocator>(
    lower: Option<&Key<A>>,
    upper: Option<&Key<A>>,
) -> (Option<u64>, Option<u64>)
    ensures { IsNumberRange (end_of (option_copied lower.entry)) (end_of (option_copied upper.entry)) result }
{
    let Some(lower) = lower else {
        return (None, number_end(upper));
    };
    match lower {
        Key::Num(first) => (Some(*first), number_end(upper)),
        Key::Text(_) => (Some(0), Some(0)),
        Key::Pair(_) => (Some(0), Some(0)),
    }
}

// An end of a range of keys among the numbers, where it is one.
fn number_end<A: Allocator>(end: Option<&Key<A>>) -> Option<u64>
    ensures { result ≡ number_end (end_of (option_copied end.entry)) }
{
    match end {
        Some(Key::Num(number)) => Some(*number),
        Some(Key::Text(_)) => None,
        Some(Key::Pair(_)) => None,
        None => None,
    }
}

// The rows under other keys between two ends.
fn others_between<'r, 'a, A: Allocator>(
    others: &'r BTreeMap<&'a Key<A>, &'a Row<A>, A>,
    lower: Option<&'a Key<A>>,
    upper: Option<&'a Key<A>>,
) -> btree_map::Range<'r, &'a Key<A>, &'a Row<A>>
    requires { is_backward (end_of (option_copied lower)) (end_of (option_copied upper)) ≡ false }
    ensures { map deref_pair result ≡ entries_within (end_of (option_copied lower.entry)) (end_of (option_copied upper.entry)) (map deref_pair others.now.entries) }
{
    others.range((lower_bound(lower.as_ref()), upper_bound(upper.as_ref())))
}

// A lower end as a bound, which lies within the range.
fn lower_bound<K>(lower: Option<&K>) -> Bound<&K>
    ensures { bound_map (λ end. end.now) result ≡ lower_bound (option_copied lower.entry) }
{
    match lower {
        Some(end) => Bound::Included(end),
        None => Bound::Unbounded,
    }
}

// An upper end as a bound, which lies outside of the range.
fn upper_bound<K>(upper: Option<&K>) -> Bound<&K>
    ensures { bound_map (λ end. end.now) result ≡ upper_bound (option_copied upper.entry) }
{
    match upper {
        Some(end) => Bound::Excluded(end),
        None => Bound::Unbounded,
    }
}
