//! A page of a range, and how a store means to answer it.
ghost use Rattle.std.specs.Prelude.{◌≡◌, ◌≤◌, ◌+◌, ◌-◌, ℕ, take, drop, length, Err, IfOk, IsOkAnd, IsOkUnless, MatchResult};
ghost use Rattle.std.specs.Option.{option_copied};
ghost use Rattle.occ_types.specs.PlainData.{end_of, question_of};
ghost use Rattle.occ_types.specs.declared.fault.Fault.TheVariants.{Memory};
ghost use Rattle.occ_sets.specs.PlainSets.{rows_of};
ghost use Rattle.occ_open.specs.Pages.{side_of, tells_of};

use crate::asking::span;
use occ_types::{Fault, Key, Question, Row};
use std::alloc::Allocator;
use std::marker::Model;

/// One page of a range, which was asked for a few of its first or last rows.
#[derive(Drop)]
#[derive_where(Debug)]
pub struct Page<A: Allocator> {
    /// The rows of the page, with their keys and in the order of the keys.
    pub rows: Vec<(Key<A>, Row<A>), A>,
    /// Where the rows begin that are left behind a first page, or where those end that are left before a last one; none where no row
    /// is left. It is the end of a range to be asked for next.
    pub rest: Option<Key<A>>,
}

/// The end of its range at which a page is.
#[derive(Clone, Copy, Debug, PartialEq, Eq)]
pub enum PageEnd {
    /// It has the first rows.
    First,
    /// It has the last rows.
    Last,
}

/// How a store means to answer a page of a range. It shows nothing of the store: that is told by the page, once the store has noted
/// what it answers.
#[derive(Drop)]
pub struct PagePlan<A: Allocator> {
    pub(crate) end: PageEnd,
    pub(crate) asked: Question<A>,
    pub(crate) rest: Option<Key<A>>,
    pub(crate) shown: Question<A>,
}

impl<A: Allocator> Model for PagePlan<A> {
    ghost use Rattle.occ_types.specs.PlainData.{end_of, question_of};
    ghost use Rattle.occ_open.specs.Pages.{Plan};

    ghost Value = { Plan };

    ghost view = { λ p. record { end = p.end; asked = question_of p.asked; rest = end_of p.rest; shown = question_of p.shown } };
}

impl<A: Allocator> PagePlan<A> {
    /// A page at one end of a range, which asks for the range up to (or from) the key `asked`, and shows what lies on its side of
    /// `rest`; where one of these is none, the range itself. Refused with `Memory` where there is none for copies of the ends.
    pub fn new(
        end: PageEnd,
        table: usize,
        lower: Option<&Key<A>>,
        upper: Option<&Key<A>>,
        asked: Option<Key<A>>,
        rest: Option<Key<A>>,
    ) -> Result<PagePlan<A>, Fault>
        ensures plan { IfOk result (λ plan. plan ≡ record {
          end = end;
          asked = side_of end table (end_of (option_copied lower.entry)) (end_of (option_copied upper.entry)) (end_of asked);
          rest = end_of rest;
          shown = side_of end table (end_of (option_copied lower.entry)) (end_of (option_copied upper.entry)) (end_of rest);
        }) }
        ensures memory { IsOkUnless result Memory }
    {
        let asked = side(end, table, lower, upper, asked.as_ref())?;
        let shown = side(end, table, lower, upper, rest.as_ref())?;
        Ok(PagePlan {
            end,
            asked,
            rest,
            shown,
        })
    }

    // The page, with the rows that were answered and laid over; or why it is refused.
    pub(crate) fn page(
        self,
        rows: Result<Vec<(Key<A>, Row<A>), A>, Fault>,
    ) -> Result<Page<A>, Fault>
        ensures { MatchResult rows (λ rows. IsOkAnd result (λ page. (page.rows ≡ rows) × (end_of page.rest ≡ self.rest))) (λ fault. result ≡ Err fault) }
    {
        let PagePlan { rest, .. } = self;
        match rows {
            Ok(rows) => Ok(Page { rows, rest }),
            Err(fault) => Err(fault),
        }
    }

    // The rows that the page shows of those that it is answered: all but the one beyond them, which tells that there is a rest.
    pub(crate) fn cut(&self, rows: Vec<(Key<A>, Row<A>), A>) -> Vec<(Key<A>, Row<A>), A>
        ensures rows { (size : ℕ) → 1 ≤ size → self.now.rest ≡ (tells_of self.now.end size (rows_of rows.items)).1 → length (rows_of rows.items) ≤ size + 1
            → rows_of result.items ≡ (tells_of self.now.end size (rows_of rows.items)).0 }
        ensures fewer { length result.items ≤ length rows.items }
    {
        if self.rest.is_none() {
            return rows;
        }
        match self.end {
            PageEnd::First => without_last(rows),
            PageEnd::Last => without_first(rows),
        }
    }
}

// All rows but the last.
fn without_last<A: Allocator>(mut rows: Vec<(Key<A>, Row<A>), A>) -> Vec<(Key<A>, Row<A>), A>
    ensures { result.items ≡ take (length rows.items - 1) rows.items }
{
    let _last = rows.pop();
    rows
}

// All rows but the first.
fn without_first<A: Allocator>(mut rows: Vec<(Key<A>, Row<A>), A>) -> Vec<(Key<A>, Row<A>), A>
    ensures { result.items ≡ drop 1 rows.items }
{
    if !rows.is_empty() {
        let _first = rows.remove(0);
    }
    rows
}

// The part of a range up to a key, or from there on, where there is one.
fn side<A: Allocator>(
    end: PageEnd,
    table: usize,
    lower: Option<&Key<A>>,
    upper: Option<&Key<A>>,
    key: Option<&Key<A>>,
) -> Result<Question<A>, Fault>
    ensures value { IfOk result (λ question. question_of question ≡ side_of end table (end_of (option_copied lower.entry)) (end_of (option_copied upper.entry)) (end_of (option_copied key.entry))) }
    ensures memory { IsOkUnless result Memory }
{
    match end {
        PageEnd::First => span(table, lower, key.or(upper)),
        PageEnd::Last => span(table, key.or(lower), upper),
    }
}
