//! Ranges of keys in the two halves of a table: among its numbers, and among its other keys.
ghost use Rattle.std.specs.Prelude.{◌≡◌, ◌<◌, ◌≤◌, ◌+◌, ◌++◌, map, length, true, false, [], OnOk, MatchOption, IsOkUnless, vec_len, vec_capacity};
ghost use Rattle.std.specs.Option.{option_copied};
ghost use Rattle.std.specs.Ordering.{on};
ghost use Rattle.std.specs.Range.Bound.{bound_map};
ghost use Rattle.std.specs.BTreeMap.{IsOrdered};
ghost use Rattle.occ_types.specs.declared.fault.Fault.TheVariants.{Memory};
ghost use Rattle.occ_types.specs.Key.{key_cmp};
ghost use Rattle.occ_types.specs.PlainData.{key_of, end_of};
ghost use Rattle.occ_pages.specs.Entries.{within};
ghost use Rattle.occ_book.specs.Content.{entries_within, is_backward, lower_bound, upper_bound};
ghost use Rattle.occ_book.specs.Table.{under_number, number_end, number_ends, numbers_within};

use occ_pages::PageMap;
use occ_types::{Fault, Key, Row};
use std::alloc::Allocator;
use std::collections::BTreeMap;
use std::ops::Bound;

// How many rows under numbers lie between two ends.
pub(crate) fn count_numbers<A: Allocator>(
    numbers: &PageMap<Row<A>, A>,
    lower: Option<&Key<A>>,
    upper: Option<&Key<A>>,
) -> usize
    ensures { result ≡ length (numbers_within (number_ends (end_of (option_copied lower.entry)) (end_of (option_copied upper.entry))) numbers.now) }
{
    match number_ends(lower, upper) {
        Some((lower, upper)) => numbers.count(lower, upper),
        None => 0,
    }
}

// Copies the rows under numbers between two ends into a list that has room for them.
pub(crate) fn push_numbers<A: Allocator>(
    rows: &mut Vec<(Key<A>, Row<A>), A>,
    numbers: &PageMap<Row<A>, A>,
    lower: Option<&Key<A>>,
    upper: Option<&Key<A>>,
) -> Result<(), Fault>
    requires { vec_len rows.old + length (numbers_within (number_ends (end_of (option_copied lower)) (end_of (option_copied upper))) numbers.now) ≤ vec_capacity rows.old }
    ensures items { OnOk result (rows.new.items ≡ rows.old.items ++ map under_number (numbers_within (number_ends (end_of (option_copied lower.entry)) (end_of (option_copied upper.entry))) numbers.now)) }
    ensures capacity { OnOk result (vec_capacity rows.new ≡ vec_capacity rows.old) }
    ensures memory { IsOkUnless result Memory }
{
    let Some((lower, upper)) = number_ends(lower, upper) else {
        return Ok(());
    };
    push_between(rows, numbers, lower, upper)
}

// Copies the rows between two numbers into a list that has room for them.
fn push_between<A: Allocator>(
    rows: &mut Vec<(Key<A>, Row<A>), A>,
    numbers: &PageMap<Row<A>, A>,
    lower: Option<u64>,
    upper: Option<u64>,
) -> Result<(), Fault>
    requires { vec_len rows.old + length (within lower upper numbers.now) ≤ vec_capacity rows.old }
    ensures items { OnOk result (rows.new.items ≡ rows.old.items ++ map under_number (within lower upper numbers.now)) }
    ensures capacity { OnOk result (vec_capacity rows.new ≡ vec_capacity rows.old) }
    ensures memory { IsOkUnless result Memory }
{
    for (number, row) in numbers.range(lower, upper) {
        rows.push_reserved((Key::Num(number), row.clone()?));
    }
    Ok(())
}

// How many entries of a map lie between two ends.
pub(crate) fn count_between<A: Allocator>(
    map: &BTreeMap<Key<A>, Row<A>, A>,
    lower: Option<&Key<A>>,
    upper: Option<&Key<A>>,
) -> usize
    ensures { result ≡ length (entries_within (end_of (option_copied lower.entry)) (end_of (option_copied upper.entry)) map.now.entries) }
{
    if has_none_between(map, lower, upper) {
        return 0;
    }
    map.range((lower_bound(lower), upper_bound(upper))).count()
}

// The same where they are at most `most`. It goes over one more than that, and no further.
pub(crate) fn count_up_to<A: Allocator>(
    map: &BTreeMap<Key<A>, Row<A>, A>,
    most: usize,
    lower: Option<&Key<A>>,
    upper: Option<&Key<A>>,
) -> Option<usize>
    ensures { MatchOption result
        (most < length (entries_within (end_of (option_copied lower.entry)) (end_of (option_copied upper.entry)) map.now.entries))
        (λ count. (count ≡ length (entries_within (end_of (option_copied lower.entry)) (end_of (option_copied upper.entry)) map.now.entries)) × (count ≤ most)) }
{
    if has_none_between(map, lower, upper) {
        return Some(0);
    }
    let mut count = 0;
    for _ in map.range((lower_bound(lower), upper_bound(upper))) {
        if count >= most {
            return None;
        }
        count += 1;
    }
    Some(count)
}

// Copies the entries of a map between two ends into a list that has room for them.
pub(crate) fn push_others<A: Allocator>(
    rows: &mut Vec<(Key<A>, Row<A>), A>,
    map: &BTreeMap<Key<A>, Row<A>, A>,
    lower: Option<&Key<A>>,
    upper: Option<&Key<A>>,
) -> Result<(), Fault>
    requires { vec_len rows.old + length (entries_within (end_of (option_copied lower)) (end_of (option_copied upper)) map.now.entries) ≤ vec_capacity rows.old }
    ensures items { OnOk result (rows.new.items ≡ rows.old.items ++ entries_within (end_of (option_copied lower.entry)) (end_of (option_copied upper.entry)) map.now.entries) }
    ensures memory { IsOkUnless result Memory }
{
    if has_none_between(map, lower, upper) {
        return Ok(());
    }
    for (key, row) in map.range((lower_bound(lower), upper_bound(upper))) {
        rows.push_reserved((key.clone()?, row.clone()?));
    }
    Ok(())
}

// Whether no entry lies between two ends since the map is empty or the range runs backwards. A map may not be asked for a range that does. `len`, unlike `is_empty`, tells that the keys are in order.
fn has_none_between<A: Allocator>(
    map: &BTreeMap<Key<A>, Row<A>, A>,
    lower: Option<&Key<A>>,
    upper: Option<&Key<A>>,
) -> bool
    ensures none { result ≡ true → entries_within (end_of (option_copied lower.entry)) (end_of (option_copied upper.entry)) map.now.entries ≡ [] }
    ensures forward { result ≡ false → is_backward (end_of (option_copied lower.entry)) (end_of (option_copied upper.entry)) ≡ false }
    ensures ordered { IsOrdered (on key_of key_cmp) map.now }
{
    if map.len() == 0 {
        return true;
    }
    is_backward(lower, upper)
}

// Whether both ends are there, and the lower one is above the upper one.
pub(crate) fn is_backward<A: Allocator>(lower: Option<&Key<A>>, upper: Option<&Key<A>>) -> bool
    ensures { result ≡ is_backward (end_of (option_copied lower.entry)) (end_of (option_copied upper.entry)) }
{
    match (lower, upper) {
        (Some(lower), Some(upper)) => lower > upper,
        _ => false,
    }
}

// A lower end, which lies within the range.
pub(crate) fn lower_bound<A: Allocator>(lower: Option<&Key<A>>) -> Bound<&Key<A>>
    ensures { bound_map (λ end. end.now) result ≡ lower_bound (option_copied lower.entry) }
{
    match lower {
        Some(end) => Bound::Included(end),
        None => Bound::Unbounded,
    }
}

// An upper end, which lies outside of the range.
pub(crate) fn upper_bound<A: Allocator>(upper: Option<&Key<A>>) -> Bound<&Key<A>>
    ensures { bound_map (λ end. end.now) result ≡ upper_bound (option_copied upper.entry) }
{
    match upper {
        Some(end) => Bound::Excluded(end),
        None => Bound::Unbounded,
    }
}

// The ends of a range of keys among the numbers, or none where no number lies in it. All numbers stand before each other key.
pub(crate) fn number_ends<A: Allocator>(
    lower: Option<&Key<A>>,
    upper: Option<&Key<A>>,
) -> Option<(Option<u64>, Option<u64>)>
    ensures { result ≡ number_ends (end_of (option_copied lower.entry)) (end_of (option_copied upper.entry)) }
{
    let Some(lower) = lower else {
        return Some((None, number_end(upper)));
    };
    match lower {
        Key::Num(number) => Some((Some(*number), number_end(upper))),
        Key::Text(_) => None,
        Key::Pair(_) => None,
    }
}

// An end of a range of keys among the numbers, where it is one.
fn number_end<A: Allocator>(end: Option<&Key<A>>) -> Option<u64>
    ensures { result ≡ number_end (end_of (option_copied end.entry)) }
{
    match end {
        Some(Key::Num(number)) => Some(*number),
        Some(Key::Text(_)) => None,
        Some(Key::Pair(_)) => None,
        None => None,
    }
}
