//! The rows that others take the places of, kept until nothing can be refused any more.
ghost use Rattle.std.specs.Prelude.{◌≡◌, ◌∷◌, ◌++◌, [], false, OnOk, MatchOption};
ghost use Rattle.occ_book.specs.Kept.{all_kept, is_short, HasRoom};

use occ_types::{Object, Row};
use std::alloc::{AllocError, Allocator};

/// An object with the row that stood there, or with none.
pub(crate) type Kept<'w, A> = (&'w Object<A>, Option<Row<A>>);

/// The rows that were replaced, the oldest first. The first two take no memory, since most transactions write no more rows.
#[derive(Drop)]
pub(crate) struct KeptRows<'w, A: Allocator> {
    first: Option<Kept<'w, A>>,
    second: Option<Kept<'w, A>>,
    more: Vec<Kept<'w, A>, A>,
}

impl<'w, A: Allocator> KeptRows<'w, A> {
    /// No row was replaced yet. It takes no memory.
    pub(crate) fn new(alloc: A) -> KeptRows<'w, A>
        ensures { all_kept result ≡ [] }
    {
        KeptRows {
            first: None,
            second: None,
            more: Vec::new(alloc),
        }
    }

    // Whether one more is kept without the list.
    fn is_short(&self) -> bool
        ensures { result ≡ is_short self.now }
    {
        self.second.is_none() && self.more.is_empty()
    }

    /// Takes room for one more. What is kept stays as it is.
    pub(crate) fn reserve(&mut self) -> Result<(), AllocError>
        ensures same { all_kept self.new ≡ all_kept self.old }
        ensures room { OnOk result (is_short self.new ≡ false → HasRoom self.new) }
    {
        if self.is_short() {
            return Ok(());
        }
        self.more.reserve(1)
    }

    /// Keeps one more behind the others, in the room that was taken for it.
    pub(crate) fn push_reserved(&mut self, kept: Kept<'w, A>)
        requires { is_short self.old ≡ false → HasRoom self.old }
        ensures { all_kept self.new ≡ all_kept self.old ++ kept.entry ∷ [] }
    {
        if !self.is_short() {
            self.more.push_reserved(kept);
        } else if self.first.is_none() {
            self.first = Some(kept);
        } else {
            self.second = Some(kept);
        }
    }

    /// Takes out the one that was kept last.
    pub(crate) fn pop(&mut self) -> Option<Kept<'w, A>>
        ensures { MatchOption result (all_kept self.old ≡ []) (λ kept. all_kept self.old ≡ all_kept self.new ++ kept ∷ []) }
    {
        if let Some(kept) = self.more.pop() {
            return Some(kept);
        }
        if let Some(kept) = self.second.take() {
            return Some(kept);
        }
        self.first.take()
    }
}
