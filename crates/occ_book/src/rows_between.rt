//! The rows of a range of a table, one after another.
ghost use Rattle.std.specs.Prelude.{◌≡◌, ◌-◌, drop, false, length, take};
ghost use Rattle.std.specs.Option.{option_copied, option_map};
ghost use Rattle.occ_types.specs.Key as keys;
ghost use Rattle.occ_types.specs.PlainData.{end_of};
ghost use Rattle.occ_book.specs.Content.{entries_within, is_backward, is_within};
ghost use Rattle.occ_book.specs.KeyRefs.{key_lent};
ghost use Rattle.occ_model.specs.Paging.{first_key};
ghost use Rattle.occ_book.specs.Table.{last_key, rows_in, number_ends, numbers_within};

use crate::key_refs::KeyRef;
use crate::ranges::{is_backward, lower_bound, number_ends, upper_bound};
use occ_pages::{Backward as NumbersBackward, PageMap, Range as Numbers};
use occ_types::{Key, Row};
use std::alloc::Allocator;
use std::collections::BTreeMap;
use std::collections::btree_map::Range as Others;
use std::marker::Model;

// The rows of a range that are left, in the order of their keys, seen as the list of them under their keys.
#[derive(Drop)]
pub(crate) struct RowsBetween<'a, A: Allocator> {
    numbers: Numbers<'a, Row<A>, A>,
    others: Others<'a, Key<A>, Row<A>>,
}

impl<'a, A: Allocator> Model for RowsBetween<'a, A> {
    ghost use Rattle.std.specs.Prelude.{List};
    ghost use Rattle.std.specs.Coded.{coded×, coded_list};
    ghost use Rattle.occ_types.specs.Key.{Key as PlainKey};
    ghost use Rattle.occ_types.specs.Row.{Row as PlainRow};
    ghost use Rattle.occ_types.specs.Codes.{key_code, cell_code};

    ghost Value = { List (PlainKey × PlainRow) };

    ghost coded = { coded_list (coded× key_code (coded_list cell_code)) };

    ghost use Rattle.occ_book.specs.Table.{rows_in};

    ghost view = { λ rows. rows_in rows.numbers rows.others };
}

impl<'a, A: Allocator> RowsBetween<'a, A> {
    // The rows under numbers between two ends, and then the others.
    pub(crate) fn new(
        numbers: &'a PageMap<Row<A>, A>,
        others: &'a BTreeMap<Key<A>, Row<A>, A>,
        lower: Option<&Key<A>>,
        upper: Option<&Key<A>>,
    ) -> RowsBetween<'a, A>
        ensures { result ≡ rows_in
            (numbers_within (number_ends (end_of (option_copied lower.entry)) (end_of (option_copied upper.entry))) numbers.now)
            (entries_within (end_of (option_copied lower.entry)) (end_of (option_copied upper.entry)) others.now.entries) }
    {
        let numbers = numbers_between(numbers, lower, upper);
        let others = others_between(others, lower, upper);
        RowsBetween { numbers, others }
    }

    // Takes the next row, and answers its key.
    pub(crate) fn next_key(&mut self) -> Option<KeyRef<'a, A>>
        ensures key { option_map key_lent result ≡ first_key self.old }
        ensures rest { self.new ≡ drop 1 self.old }
    {
        if let Some((number, _row)) = self.numbers.next() {
            return Some(KeyRef::Num(number));
        }
        let Some((key, _row)) = self.others.next() else {
            return None;
        };
        Some(KeyRef::Other(key))
    }

    // Takes so many rows, or all where they are fewer.
    pub(crate) fn skip(&mut self, count: usize)
        ensures { self.new ≡ drop count self.old }
    {
        for _ in 0..count {
            let Some(_key) = self.next_key() else {
                return;
            };
        }
    }
}

// The rows of a range that are left, which come from the last one back, seen as the list of them in the order of their keys.
#[derive(Drop)]
pub(crate) struct RowsBackward<'a, A: Allocator> {
    numbers: NumbersBackward<'a, Row<A>, A>,
    others: Others<'a, Key<A>, Row<A>>,
}

impl<'a, A: Allocator> Model for RowsBackward<'a, A> {
    ghost use Rattle.std.specs.Prelude.{List};
    ghost use Rattle.std.specs.Coded.{coded×, coded_list};
    ghost use Rattle.occ_types.specs.Key.{Key as PlainKey};
    ghost use Rattle.occ_types.specs.Row.{Row as PlainRow};
    ghost use Rattle.occ_types.specs.Codes.{key_code, cell_code};

    ghost Value = { List (PlainKey × PlainRow) };

    ghost coded = { coded_list (coded× key_code (coded_list cell_code)) };

    ghost use Rattle.occ_book.specs.Table.{rows_in};

    ghost view = { λ rows. rows_in rows.numbers rows.others };
}

impl<'a, A: Allocator> RowsBackward<'a, A> {
    // The rows under numbers between two ends, and then the others.
    pub(crate) fn new(
        numbers: &'a PageMap<Row<A>, A>,
        others: &'a BTreeMap<Key<A>, Row<A>, A>,
        lower: Option<&Key<A>>,
        upper: Option<&Key<A>>,
    ) -> RowsBackward<'a, A>
        ensures { result ≡ rows_in
            (numbers_within (number_ends (end_of (option_copied lower.entry)) (end_of (option_copied upper.entry))) numbers.now)
            (entries_within (end_of (option_copied lower.entry)) (end_of (option_copied upper.entry)) others.now.entries) }
    {
        let numbers = numbers_backward(numbers, lower, upper);
        let others = others_between(others, lower, upper);
        RowsBackward { numbers, others }
    }

    // Takes the last row, and answers its key.
    pub(crate) fn next_key(&mut self) -> Option<KeyRef<'a, A>>
        ensures key { option_map key_lent result ≡ last_key self.old }
        ensures rest { self.new ≡ take (length self.old - 1) self.old }
    {
        if let Some((key, _row)) = self.others.next_back() {
            return Some(KeyRef::Other(key));
        }
        let Some((number, _row)) = self.numbers.next() else {
            return None;
        };
        Some(KeyRef::Num(number))
    }

    // Takes so many rows, or all where they are fewer.
    pub(crate) fn skip(&mut self, count: usize)
        ensures { self.new ≡ take (length self.old - count) self.old }
    {
        for _ in 0..count {
            let Some(_key) = self.next_key() else {
                return;
            };
        }
    }
}

// The rows under numbers between two ends.
fn numbers_between<'a, A: Allocator>(
    numbers: &'a PageMap<Row<A>, A>,
    lower: Option<&Key<A>>,
    upper: Option<&Key<A>>,
) -> Numbers<'a, Row<A>, A>
    ensures { result ≡ numbers_within (number_ends (end_of (option_copied lower.entry)) (end_of (option_copied upper.entry))) numbers.now }
{
    match number_ends(lower, upper) {
        Some((lower, upper)) => numbers.range(lower, upper),
        None => numbers.range(Some(0), Some(0)),
    }
}

// The same from the last one back.
fn numbers_backward<'a, A: Allocator>(
    numbers: &'a PageMap<Row<A>, A>,
    lower: Option<&Key<A>>,
    upper: Option<&Key<A>>,
) -> NumbersBackward<'a, Row<A>, A>
    ensures { result ≡ numbers_within (number_ends (end_of (option_copied lower.entry)) (end_of (option_copied upper.entry))) numbers.now }
{
    match number_ends(lower, upper) {
        Some((lower, upper)) => numbers.range_backward(lower, upper),
        None => numbers.range_backward(Some(0), Some(0)),
    }
}

// The other rows between two ends. A map may not be asked for a range that runs backwards.
fn others_between<'a, A: Allocator>(
    others: &'a BTreeMap<Key<A>, Row<A>, A>,
    lower: Option<&Key<A>>,
    upper: Option<&Key<A>>,
) -> Others<'a, Key<A>, Row<A>>
    ensures { result ≡ entries_within (end_of (option_copied lower.entry)) (end_of (option_copied upper.entry)) others.now.entries }
{
    // that the keys are in order
    let _rows = others.len();
    let lower = forward_lower(lower, upper);
    others.range((lower_bound(lower), upper_bound(upper)))
}

// A lower end for the same range that doesn't run backwards: the upper one, in the place of a lower one above it.
fn forward_lower<'a, A: Allocator>(
    lower: Option<&'a Key<A>>,
    upper: Option<&'a Key<A>>,
) -> Option<&'a Key<A>>
    ensures forward { is_backward (end_of (option_copied result)) (end_of (option_copied upper.entry)) ≡ false }
    ensures same { (key : keys.Key)
        → is_within (end_of (option_copied result)) (end_of (option_copied upper.entry)) key ≡ is_within (end_of (option_copied lower.entry)) (end_of (option_copied upper.entry)) key }
{
    if is_backward(lower, upper) {
        return upper;
    }
    lower
}
