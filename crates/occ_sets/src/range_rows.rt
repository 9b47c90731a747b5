//! The rows of a range.
ghost use Rattle.std.specs.Prelude.{◌≡◌, ◌<◌, ◌^◌, ◌==◌, length, IfOk, MatchResult};
ghost use Rattle.occ_sets.specs.PlainSets.{rows_of};
ghost use Rattle.occ_sets.specs.RangeRows.{contained};

use occ_types::{Key, Row};
use std::alloc::{AllocError, AllocFailed, Allocator};
use std::marker::Model;
use std::sync::Arc;

/// The keys and rows of a range, in the order of the keys. One owner has them by itself, or several share them, also across threads: what a core answers is shared with what it notes. Clauses see the list of the plain keys and rows.
#[derive(Drop)]
#[derive_where(Debug)]
pub struct RangeRows<A: Allocator> {
    content: Content<A>,
}

/// Where the rows of a range stand: behind a handle, so that they are short to move.
#[derive(Drop)]
#[derive_where(Debug)]
pub(crate) enum Content<A: Allocator> {
    /// One owner has them by itself.
    Own(Box<Vec<(Key<A>, Row<A>), A>, A>),
    /// Several owners may have them.
    Shared(Arc<Vec<(Key<A>, Row<A>), A>, A>),
}

impl<A: Allocator> Model for RangeRows<A> {
    ghost use Rattle.std.specs.Prelude.{List};
    ghost use Rattle.occ_types.specs.Key as keys;
    ghost use Rattle.occ_types.specs.Row as rows;

    ghost Value = { List (keys.Key × rows.Row) };

    ghost use Rattle.occ_sets.specs.PlainSets.{rows_of};
    ghost use Rattle.occ_sets.specs.RangeRows.{contained};

    ghost view = { λ r. rows_of (contained r.content) };
}

impl<A: Allocator + Copy> RangeRows<A> {
    /// Rows that several may share: a clone is one more owner of them, and copies nothing. Refused, and the rows handed back, where there is no memory for the handle.
    pub fn shared(
        rows: Vec<(Key<A>, Row<A>), A>,
    ) -> Result<RangeRows<A>, AllocFailed<Vec<(Key<A>, Row<A>), A>>>
        ensures { MatchResult result (λ shared. shared ≡ rows_of rows.items) (λ failed. failed.value ≡ rows) }
    {
        let alloc = *rows.allocator();
        match Arc::new(alloc, rows) {
            Ok(rows) => Ok(RangeRows {
                content: Content::Shared(rows),
            }),
            Err(failed) => Err(failed),
        }
    }
}

impl<A: Allocator> RangeRows<A> {
    // Rows that one owner has by itself.
    pub(crate) fn own(rows: Box<Vec<(Key<A>, Row<A>), A>, A>) -> RangeRows<A>
        ensures { result ≡ rows_of rows.value.items }
    {
        RangeRows {
            content: Content::Own(rows),
        }
    }

    /// The keys and rows, in their order: `as_slice().iter()` goes over them, and `to_vec()` copies them.
    pub fn as_slice(&self) -> &[(Key<A>, Row<A>)]
        ensures { rows_of result.now ≡ self.now }
    {
        self.as_vec().as_slice()
    }

    /// How many rows there are. It fits an `i64` too.
    pub fn len(&self) -> usize
        ensures count { result ≡ length self.now }
        ensures fits { result < 2 ^ 63 }
    {
        self.as_vec().len()
    }

    /// Whether there is no row.
    pub fn is_empty(&self) -> bool
        ensures { result ≡ (length self.now == 0) }
    {
        self.len() == 0
    }

    // The keys and rows, in their order.
    fn as_vec(&self) -> &Vec<(Key<A>, Row<A>), A>
        ensures { rows_of result.now.items ≡ self.now }
    {
        match &self.content {
            Content::Own(rows) => rows,
            Content::Shared(rows) => rows,
        }
    }
}

impl<A: Allocator + Clone> RangeRows<A> {
    /// Copies of the keys and rows, in their order. An error where there is no memory for them.
    pub fn to_vec(&self) -> Result<Vec<(Key<A>, Row<A>), A>, AllocError>
        ensures { IfOk result (λ rows. rows_of rows.items ≡ self.now) }
    {
        let rows = self.as_vec().clone()?;
        Ok(rows)
    }
}

impl<A: Allocator + Clone> Clone for RangeRows<A> {
    ghost is_clone = { λ source copy. copy ≡ source };

    // One more owner of rows that are shared, and else copies.
    fn clone(&self) -> Result<RangeRows<A>, AllocError> {
        let content = match &self.content {
            Content::Own(rows) => Content::Own(rows.clone()?),
            Content::Shared(rows) => Content::Shared(Arc::try_clone(rows)?),
        };
        Ok(RangeRows { content })
    }
}
