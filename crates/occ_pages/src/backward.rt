//! The rows of a range, from the last one back.
ghost use Rattle.std.specs.Prelude.{◌≡◌};
ghost use Rattle.std.specs.Iterator.{YieldsLastBy, item_count};
ghost use Rattle.occ_pages.specs.Entries.{Ascends, within};
ghost use Rattle.occ_pages.specs.Pages.{flatten};

use crate::page::Page;
use std::alloc::Allocator;
use std::marker::Model;

/// The rows of a range that are left, which come from the last one back, seen as the list of them in the order of their keys.
#[derive(Drop)]
pub struct Backward<'a, T, A: Allocator> {
    // the pages before that of which some is left
    pages: &'a [Page<T, A>],
    // what is left of one page
    keys: &'a [u64],
    rows: &'a [T],
    lower: Option<u64>,
    upper: Option<u64>,
}

impl<'a, T, A: Allocator> Model for Backward<'a, T, A> {
    ghost use Rattle.std.specs.Prelude.{ℕ, List, ◌++◌};
    ghost use Rattle.occ_pages.specs.Entries.{within};
    ghost use Rattle.occ_pages.specs.Pages.{flatten, zipped, IsLeft};

    ghost Value = { List (ℕ × T) };

    ghost view = { λ range. within range.lower range.upper (flatten range.pages.now) ++ zipped range.keys.now range.rows.now };

    ghost invariant = { λ range. IsLeft range.keys.now range.rows.now range.pages.now };
}

impl<'a, T, A: Allocator> Backward<'a, T, A> {
    // The rows of some pages that lie within a range.
    pub(crate) fn new(
        pages: &'a [Page<T, A>],
        lower: Option<u64>,
        upper: Option<u64>,
    ) -> Backward<'a, T, A>
        requires { Ascends (flatten pages.now) }
        ensures { result ≡ within lower upper (flatten pages.now) }
    {
        Backward {
            pages,
            keys: &[],
            rows: &[],
            lower,
            upper,
        }
    }
}

impl<'a, T, A: Allocator> Iterator for Backward<'a, T, A> {
    type Item = (u64, &'a T);

    ghost next_gives = { YieldsLastBy (λ item. (item.0, item.1.now)) (λ rest. rest) };

    ghost remaining = { item_count (λ rest. rest) };

    fn next(&mut self) -> Option<(u64, &'a T)> {
        while self.keys.is_empty() {
            let Some((page, pages)) = self.pages.split_last() else {
                return None;
            };
            let (keys, rows) = page.part(self.lower, self.upper);
            self.keys = keys;
            self.rows = rows;
            self.pages = pages;
        }
        let Some((key, keys)) = self.keys.split_last() else {
            return None;
        };
        let Some((row, rows)) = self.rows.split_last() else {
            return None;
        };
        self.keys = keys;
        self.rows = rows;
        Some((*key, row))
    }
}
