//! The first object of which two states have different rows.
ghost use Rattle.std.specs.Prelude.{◌≡◌, cond, MatchOption};
ghost use Rattle.std.specs.Ordering.{is_lt};
ghost use Rattle.std.specs.Option.{option_copied};
ghost use Rattle.std.specs.FinMap as finite;
ghost use Rattle.occ_types.specs.Object.{object_cmp};
ghost use Rattle.occ_book.specs.KeyRefs.{key_lent};
ghost use Rattle.occ_audit.specs.Differences.{AgreeIn, AgreeOn, FirstGives, IsEarlier, IsFirstIn, IsFirstOf, spot_of};

use crate::lent_rows::LentRows;
use crate::replica::Replica;
use occ_book::KeyRef;
use occ_types::Row;
use std::alloc::Allocator;
use std::cmp::Ordering;

/// The name of a row, lent: its table and its key.
#[derive_where(Clone, Copy)]
pub(crate) struct Spot<'a, A: Allocator> {
    /// The place of the table.
    pub(crate) table: usize,
    /// The key.
    pub(crate) key: KeyRef<'a, A>,
}

// The first object of which two states have different rows, or none where they are the same.
pub(crate) fn first_difference<'a, A: Allocator + Copy>(
    one: &Replica<'a, A>,
    other: &Replica<'a, A>,
) -> Option<Spot<'a, A>>
    ensures { FirstGives one.now other.now result }
{
    let forward = first_apart(one, other);
    let backward = first_apart(other, one);
    earlier(forward, backward)
}

// The first object of a state of which another one has not the same row, or none where that has all its rows.
fn first_apart<'a, A: Allocator + Copy>(
    state: &Replica<'a, A>,
    other: &Replica<'a, A>,
) -> Option<Spot<'a, A>>
    ensures { MatchOption result (AgreeOn state.now other.now) (IsFirstOf state.now other.now) }
{
    let tables = state.tables();
    // `len` tells that the tables are in order
    let _count = tables.len();
    for (table, rows) in tables {
        if let Some(key) = first_key_apart(rows, other, *table) {
            return Some(Spot { table: *table, key });
        }
    }
    None
}

// The first of some rows of a table that a state has not there.
fn first_key_apart<'a, A: Allocator + Copy>(
    rows: &LentRows<'a, A>,
    other: &Replica<'a, A>,
    table: usize,
) -> Option<KeyRef<'a, A>>
    ensures { MatchOption result (AgreeIn rows.now table other.now) (IsFirstIn rows.now table other.now) }
{
    for (key, row) in rows.iter() {
        if row_at(other, table, key) != Some(row) {
            return Some(key);
        }
    }
    None
}

// The row of a state under a key of a table.
pub(crate) fn row_at<'a, A: Allocator + Copy>(
    state: &Replica<'a, A>,
    table: usize,
    key: KeyRef<'a, A>,
) -> Option<&'a Row<A>>
    ensures { option_copied result ≡ finite.get state.now (table, key_lent key.entry) }
{
    match state.rows(table) {
        Some(rows) => rows.get_lent(key),
        None => None,
    }
}

// The earlier of two names, where there is one.
fn earlier<'a, A: Allocator>(
    one: Option<Spot<'a, A>>,
    other: Option<Spot<'a, A>>,
) -> Option<Spot<'a, A>>
    ensures { IsEarlier one.entry other.entry result }
{
    match (one, other) {
        (None, spot) => spot,
        (Some(first), None) => Some(first),
        (Some(first), Some(second)) => Some(earlier_of(first, second)),
    }
}

// The earlier of two names.
fn earlier_of<'a, A: Allocator>(first: Spot<'a, A>, second: Spot<'a, A>) -> Spot<'a, A>
    ensures { result ≡ cond (is_lt (object_cmp (spot_of second.entry) (spot_of first.entry))) second.entry first.entry }
{
    match compare(&second, &first) {
        Ordering::Less => second,
        Ordering::Equal | Ordering::Greater => first,
    }
}

// How two names stand to one another, by their tables and then by their keys.
fn compare<A: Allocator>(one: &Spot<'_, A>, other: &Spot<'_, A>) -> Ordering
    ensures { result ≡ object_cmp (spot_of one.now) (spot_of other.now) }
{
    match one.table.cmp(&other.table) {
        Ordering::Less => Ordering::Less,
        Ordering::Equal => one.key.cmp(&other.key),
        Ordering::Greater => Ordering::Greater,
    }
}
