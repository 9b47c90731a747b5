//! The map.
ghost use Rattle.std.specs.Prelude.{◌≡◌, ◌<◌, ◌≤◌, ◌^◌, [], length, Some, None, IfOk, OnOk, OnErr, IfErr, IsSome};
ghost use Rattle.std.specs.Option.{option_copied};
ghost use Rattle.occ_pages.specs.Copies.{AreCopies};
ghost use Rattle.occ_pages.specs.Entries.{Ascends, get, put, within, without};

use crate::backward::Backward;
use crate::page::between;
use crate::range::Range;
use crate::shelf::Shelf;
use std::alloc::{AllocError, AllocFailed, Allocator};
use std::marker::Model;

// How many rows a map may hold, so that the sum of two maps fits a `usize`.
const MOST: usize = 0x7fff_ffff_ffff_ffff;

/// An ordered map from numbers to rows.
#[derive(Drop)]
pub struct PageMap<T, A: Allocator> {
    shelf: Shelf<T, A>,
    len: usize,
}

impl<T, A: Allocator> Model for PageMap<T, A> {
    ghost use Rattle.std.specs.Prelude.{ℕ, List};
    ghost use Rattle.occ_pages.specs.Pages.{flatten, IsMap};

    ghost Value = { List (ℕ × T) };

    ghost view = { λ map. flatten map.shelf.pages.items };

    ghost invariant = { λ map. IsMap map.shelf.firsts.items map.shelf.pages.items map.len };
}

impl<T, A: Allocator + Clone> PageMap<T, A> {
    /// A map without rows. It takes no memory but what a copy of the allocator may take.
    pub fn new(alloc: A) -> Result<PageMap<T, A>, AllocError>
        ensures { IfOk result (λ map. map ≡ []) }
    {
        let firsts = Vec::new(alloc.clone()?);
        let pages = Vec::new(alloc);
        Ok(PageMap {
            shelf: Shelf { firsts, pages },
            len: 0,
        })
    }
}

impl<T: Clone, A: Allocator + Clone> Clone for PageMap<T, A> {
    ghost is_clone = { AreCopies T.is_clone };

    fn clone(&self) -> Result<PageMap<T, A>, AllocError> {
        let firsts = Vec::from_slice(self.shelf.firsts.allocator().clone()?, &self.shelf.firsts)?;
        let pages = self.shelf.pages.clone()?;
        Ok(PageMap {
            shelf: Shelf { firsts, pages },
            len: self.len,
        })
    }
}

impl<T, A: Allocator> PageMap<T, A> {
    /// How many rows there are.
    pub fn len(&self) -> usize
        ensures len { result ≡ length self.now }
        ensures few { result < 2 ^ 63 }
        ensures ascends { Ascends self.now }
    {
        self.len
    }

    /// The row under a key, or none where there is none.
    pub fn get(&self, key: u64) -> Option<&T>
        ensures { option_copied result ≡ get self.now key }
    {
        self.shelf.get(key)
    }
}

impl<T, A: Allocator> PageMap<T, A> {
    /// How many rows lie from a lower end on and below an upper one; either end may be missing. It goes over the pages and not over the rows, and takes no memory.
    pub fn count(&self, lower: Option<u64>, upper: Option<u64>) -> usize
        ensures { result ≡ length (within lower upper self.now) }
    {
        // that `len` fits tells that the count does
        let _rows = self.len();
        self.shelf.count(lower, upper)
    }

    /// The rows from a lower end on and below an upper one, in the order of their keys; either end may be missing.
    pub fn range(&self, lower: Option<u64>, upper: Option<u64>) -> Range<'_, T, A>
        ensures { result ≡ within lower upper self.now }
    {
        let (start, end) = self.shelf.pages_between(lower, upper);
        Range::new(between(&self.shelf.pages, start, end), lower, upper)
    }

    /// The same rows from the last one back.
    pub fn range_backward(&self, lower: Option<u64>, upper: Option<u64>) -> Backward<'_, T, A>
        ensures { result ≡ within lower upper self.now }
    {
        let (start, end) = self.shelf.pages_between(lower, upper);
        Backward::new(between(&self.shelf.pages, start, end), lower, upper)
    }

    /// All rows, in the order of their keys.
    pub fn iter(&self) -> Range<'_, T, A>
        ensures { result ≡ self.now }
    {
        self.range(None, None)
    }
}

impl<T: Drop, A: Allocator> PageMap<T, A> {
    /// Puts a row in the place of that under a key, and hands that one out. Where there is none, the new one is let go, and nothing changes.
    pub fn replace(&mut self, key: u64, row: T) -> Option<T>
        ensures was { result ≡ get self.old key }
        ensures some { IsSome result → self.new ≡ put self.old key row }
        ensures none { result ≡ None → self.new ≡ self.old }
    {
        let Some((page, place)) = self.shelf.find(key) else {
            return None;
        };
        Some(self.shelf.exchange(page, place, key, row))
    }

    /// Takes the row under a key out, and hands it out. It takes no memory.
    pub fn remove(&mut self, key: u64) -> Option<T>
        ensures was { result ≡ get self.old key }
        ensures new { self.new ≡ without self.old key }
    {
        let Some((page, place)) = self.shelf.find(key) else {
            return None;
        };
        let row = self.shelf.take(page, place, key);
        self.len -= 1;
        Some(row)
    }
}

impl<T: Drop, A: Allocator + Clone> PageMap<T, A> {
    /// Puts a row under a key, and hands out the one that stood there. Refused where there is no memory for a new key, which leaves the map as it was and hands the row back.
    pub fn insert(&mut self, key: u64, row: T) -> Result<Option<T>, AllocFailed<T>>
        ensures was { IfOk result (λ was. was ≡ get self.old key) }
        ensures ok { OnOk result (self.new ≡ put self.old key row) }
        ensures err { OnErr result (self.new ≡ self.old) }
        ensures value { IfErr result (λ failed. failed.value ≡ row) }
        ensures new_key { OnErr result (get self.old key ≡ None) }
    {
        if self.shelf.pages.is_empty() {
            self.shelf.begin(key, row)?;
            self.len = 1;
            return Ok(None);
        }
        let (page, place) = self.shelf.seek(key);
        if self.shelf.has(page, place, key) {
            return Ok(Some(self.shelf.exchange(page, place, key, row)));
        }
        if self.len >= MOST {
            return Err(AllocFailed { value: row });
        }
        self.shelf.add(page, place, key, row)?;
        self.len += 1;
        Ok(None)
    }
}
