//! Where a page of a range is cut.
ghost use Rattle.std.specs.Prelude.{◌≡◌, ◌-◌, drop, take, length, IfOk, IsOkUnless, None};
ghost use Rattle.std.specs.Option.{option_copied, option_map, option_or};
ghost use Rattle.occ_types.specs.declared.fault.Fault.TheVariants.{Memory};
ghost use Rattle.occ_types.specs.PlainData.{key_of, end_of, table_of};
ghost use Rattle.occ_types.specs.Question.{Span};
ghost use Rattle.occ_model.specs.State.{answer};
ghost use Rattle.occ_model.specs.Paging.{page_size, rows_answered, first_in, last_in, end_behind, first_end, last_begin};
ghost use Rattle.occ_book.specs.KeyRefs.{key_lent};
ghost use Rattle.occ_book.specs.Table.{rows_within};

use crate::key_refs::KeyRef;
use crate::rows_between::{RowsBackward, RowsBetween};
use crate::table::Table;
use crate::tables::Tables;
use occ_types::limits::MAX_ANSWER_ROWS;
use occ_types::{Fault, Key, TableDef};
use std::alloc::Allocator;

/// Where a page of a range is cut off from the rows that it doesn't show.
#[derive(Drop)]
pub struct PageCut<A: Allocator> {
    /// Where that ends which a first page asks for, or where that begins which a last one asks for; none where it is the range's own
    /// end.
    pub asked: Option<Key<A>>,
    /// Where the rows begin that are left behind a first page, or where those end that are left before a last one; none where no row
    /// is left.
    pub rest: Option<Key<A>>,
}

impl<A: Allocator> PageCut<A> {
    /// A page that is the whole range.
    pub fn none() -> PageCut<A>
        ensures asked { end_of result.asked ≡ None }
        ensures rest { end_of result.rest ≡ None }
    {
        PageCut {
            asked: None,
            rest: None,
        }
    }
}

impl<A: Allocator + Copy> Tables<A> {
    /// Where the first page of a range is cut, of at most `most` rows of a table, or one where `most` is 0. It goes over the rows of the
    /// page and two more. A table that is not there has no rows.
    ///
    /// Refused with `Memory` where there is none for the keys.
    pub fn first_cut(
        &self,
        definition: &TableDef<A>,
        table: usize,
        lower: Option<&Key<A>>,
        upper: Option<&Key<A>>,
        most: usize,
    ) -> Result<PageCut<A>, Fault>
        ensures rest { IfOk result (λ cut. end_of cut.rest ≡ (first_in (page_size most) (rows_answered (answer (Span table (end_of (option_copied lower.entry)) (end_of (option_copied upper.entry))) self.now.state))).1) }
        ensures asked { IfOk result (λ cut. option_or (end_of cut.asked) (end_of (option_copied upper.entry)) ≡ first_end (table_of definition.now) (end_of (option_copied upper.entry)) (drop (page_size most) (rows_answered (answer (Span table (end_of (option_copied lower.entry)) (end_of (option_copied upper.entry))) self.now.state)))) }
        ensures memory { IsOkUnless result Memory }
    {
        let alloc = self.allocator();
        match self.at(table) {
            Some(rows) => rows.first_cut(alloc, definition, lower, upper, most),
            None => Ok(PageCut::none()),
        }
    }

    /// Where the last page of a range is cut, of at most `most` rows of a table, or one where `most` is 0. It goes over the rows of the
    /// page and one more. A table that is not there has no rows.
    ///
    /// Refused with `Memory` where there is none for the keys.
    pub fn last_cut(
        &self,
        table: usize,
        lower: Option<&Key<A>>,
        upper: Option<&Key<A>>,
        most: usize,
    ) -> Result<PageCut<A>, Fault>
        ensures rest { IfOk result (λ cut. end_of cut.rest ≡ (last_in (page_size most) (rows_answered (answer (Span table (end_of (option_copied lower.entry)) (end_of (option_copied upper.entry))) self.now.state))).1) }
        ensures asked { IfOk result (λ cut. option_or (end_of cut.asked) (end_of (option_copied lower.entry)) ≡ last_begin (end_of (option_copied lower.entry)) (length (rows_answered (answer (Span table (end_of (option_copied lower.entry)) (end_of (option_copied upper.entry))) self.now.state)) - page_size most) (rows_answered (answer (Span table (end_of (option_copied lower.entry)) (end_of (option_copied upper.entry))) self.now.state))) }
        ensures memory { IsOkUnless result Memory }
    {
        match self.at(table) {
            Some(rows) => rows.last_cut(lower, upper, most),
            None => Ok(PageCut::none()),
        }
    }
}

impl<A: Allocator + Clone> Table<A> {
    // Where the first page of a range is cut.
    fn first_cut(
        &self,
        alloc: A,
        definition: &TableDef<A>,
        lower: Option<&Key<A>>,
        upper: Option<&Key<A>>,
        most: usize,
    ) -> Result<PageCut<A>, Fault>
        ensures rest { IfOk result (λ cut. end_of cut.rest ≡ (first_in (page_size most) (rows_within (end_of (option_copied lower.entry)) (end_of (option_copied upper.entry)) self.now)).1) }
        ensures asked { IfOk result (λ cut. option_or (end_of cut.asked) (end_of (option_copied upper.entry)) ≡ first_end (table_of definition.now) (end_of (option_copied upper.entry)) (drop (page_size most) (rows_within (end_of (option_copied lower.entry)) (end_of (option_copied upper.entry)) self.now))) }
        ensures memory { IsOkUnless result Memory }
    {
        let mut rows = self.behind_page(lower, upper, most);
        let Some(rest) = rows.next_key() else {
            return Ok(PageCut::none());
        };
        let rest = rest.to_key()?;
        let asked = end_behind(alloc, definition, &rest, rows.next_key())?;
        Ok(PageCut {
            asked,
            rest: Some(rest),
        })
    }
}

impl<A: Allocator> Table<A> {
    // Where the last page of a range is cut.
    fn last_cut(
        &self,
        lower: Option<&Key<A>>,
        upper: Option<&Key<A>>,
        most: usize,
    ) -> Result<PageCut<A>, Fault>
        ensures rest { IfOk result (λ cut. end_of cut.rest ≡ (last_in (page_size most) (rows_within (end_of (option_copied lower.entry)) (end_of (option_copied upper.entry)) self.now)).1) }
        ensures asked { IfOk result (λ cut. option_or (end_of cut.asked) (end_of (option_copied lower.entry)) ≡ last_begin (end_of (option_copied lower.entry)) (length (rows_within (end_of (option_copied lower.entry)) (end_of (option_copied upper.entry)) self.now) - page_size most) (rows_within (end_of (option_copied lower.entry)) (end_of (option_copied upper.entry)) self.now)) }
        ensures memory { IsOkUnless result Memory }
    {
        let mut rows = self.up_to_page(lower, upper, most);
        let Some(rest) = rows.next_key() else {
            return Ok(PageCut::none());
        };
        let Some(asked) = rows.next_key() else {
            return Ok(PageCut::none());
        };
        Ok(PageCut {
            asked: Some(asked.to_key()?),
            rest: Some(rest.to_key()?),
        })
    }

    // The rows behind the first page of a range.
    fn behind_page(
        &self,
        lower: Option<&Key<A>>,
        upper: Option<&Key<A>>,
        most: usize,
    ) -> RowsBetween<'_, A>
        ensures { result ≡ drop (page_size most) (rows_within (end_of (option_copied lower.entry)) (end_of (option_copied upper.entry)) self.now) }
    {
        let mut rows = self.between(lower, upper);
        rows.skip(page_size(most));
        rows
    }

    // The rows before the last page of a range, and its first one, from that one back.
    fn up_to_page(
        &self,
        lower: Option<&Key<A>>,
        upper: Option<&Key<A>>,
        most: usize,
    ) -> RowsBackward<'_, A>
        ensures { let rows = rows_within (end_of (option_copied lower.entry)) (end_of (option_copied upper.entry)) self.now in
            result ≡ take (length rows - (page_size most - 1)) rows }
    {
        let mut rows = self.backward(lower, upper);
        rows.skip(page_size(most) - 1);
        rows
    }
}

// How many rows a page shows at most: at least one, so that each page leads on, and one less than an answer may have, so that the row
// behind them is answered too.
fn page_size(most: usize) -> usize
    ensures { result ≡ page_size most }
{
    (MAX_ANSWER_ROWS - 1).min(most.max(1))
}

// An upper end with this key below it and no other row, by the key of the next row: the next key, where the table may be asked for it.
// None where that is the range's own end.
fn end_behind<A: Allocator + Clone>(
    alloc: A,
    definition: &TableDef<A>,
    key: &Key<A>,
    next: Option<KeyRef<'_, A>>,
) -> Result<Option<Key<A>>, Fault>
    ensures end { IfOk result (λ end. end_of end ≡ end_behind (table_of definition.now) (key_of key.now) (option_map key_lent next.entry)) }
    ensures memory { IsOkUnless result Memory }
{
    let end = key.after(alloc)?;
    if definition.check_key(&end).is_ok() {
        return Ok(Some(end));
    }
    let Some(next) = next else {
        return Ok(None);
    };
    let end = next.to_key()?;
    Ok(Some(end))
}
