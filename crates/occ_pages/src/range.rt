//! The rows of a range, one after another.
ghost use Rattle.std.specs.Prelude.{◌≡◌, length};
ghost use Rattle.std.specs.Iterator.{YieldsFirstBy, item_count};
ghost use Rattle.occ_pages.specs.Entries.{Ascends, within};
ghost use Rattle.occ_pages.specs.Pages.{flatten};

use crate::page::Page;
use std::alloc::Allocator;
use std::marker::Model;

/// The rows of a range that are left, in the order of their keys, seen as the list of them.
#[derive(Drop)]
pub struct Range<'a, T, A: Allocator> {
    // what is left of one page
    keys: &'a [u64],
    rows: &'a [T],
    // the pages behind it
    pages: &'a [Page<T, A>],
    lower: Option<u64>,
    upper: Option<u64>,
}

impl<'a, T, A: Allocator> Model for Range<'a, T, A> {
    ghost use Rattle.std.specs.Prelude.{ℕ, List, ◌++◌};
    ghost use Rattle.occ_pages.specs.Entries.{within};
    ghost use Rattle.occ_pages.specs.Pages.{flatten, zipped, IsLeft};

    ghost Value = { List (ℕ × T) };

    ghost view = { λ range. zipped range.keys.now range.rows.now ++ within range.lower range.upper (flatten range.pages.now) };

    ghost invariant = { λ range. IsLeft range.keys.now range.rows.now range.pages.now };
}

impl<'a, T, A: Allocator> Range<'a, T, A> {
    // The rows of some pages that lie within a range.
    pub(crate) fn new(
        pages: &'a [Page<T, A>],
        lower: Option<u64>,
        upper: Option<u64>,
    ) -> Range<'a, T, A>
        requires { Ascends (flatten pages.now) }
        ensures { result ≡ within lower upper (flatten pages.now) }
    {
        Range {
            keys: &[],
            rows: &[],
            pages,
            lower,
            upper,
        }
    }
}

impl<'a, T, A: Allocator> Iterator for Range<'a, T, A> {
    type Item = (u64, &'a T);

    ghost next_gives = { YieldsFirstBy (λ item. (item.0, item.1.now)) (λ rest. rest) };

    ghost remaining = { item_count (λ rest. rest) };

    fn next(&mut self) -> Option<(u64, &'a T)> {
        while self.keys.is_empty() {
            let Some((page, pages)) = self.pages.split_first() else {
                return None;
            };
            let (keys, rows) = page.part(self.lower, self.upper);
            self.keys = keys;
            self.rows = rows;
            self.pages = pages;
        }
        let Some((key, keys)) = self.keys.split_first() else {
            return None;
        };
        let Some((row, rows)) = self.rows.split_first() else {
            return None;
        };
        self.keys = keys;
        self.rows = rows;
        Some((*key, row))
    }
}
