//! One page: at most 64 keys in ascending order, and their rows.
ghost use Rattle.std.specs.Prelude.{◌≡◌, ◌<◌, ◌≤◌, ◌+◌, ◌-◌, ℕ, suc, true, List, [], ◌∷◌, ◌++◌, length, take, drop, IfOk, vec_len, vec_capacity};
ghost use Rattle.std.specs.List.{AllZip, insert, remove};
ghost use Rattle.occ_pages.specs.Copies.{AreCopies};
ghost use Rattle.occ_pages.specs.Entries.{Ascends, within};
ghost use Rattle.occ_pages.specs.Page.{StandsAt};
ghost use Rattle.occ_pages.specs.Pages.{zipped, begins_with, BeginsAt, IsSplit, IsStart, IsEnd};

use crate::search::rank;
use std::alloc::{AllocError, Allocator};
use std::marker::Model;
use std::mem;

/// How many rows a page holds.
pub(crate) const FULL: usize = 64;

/// How many of them stay where it is split.
pub(crate) const HALF: usize = 32;

#[derive(Drop)]
pub(crate) struct Page<T, A: Allocator> {
    keys: Vec<u64, A>,
    rows: Vec<T, A>,
}

impl<T, A: Allocator> Model for Page<T, A> {
    ghost use Rattle.std.specs.Prelude.{ℕ, List};
    ghost use Rattle.occ_pages.specs.Page.{IsPage};
    ghost use Rattle.occ_pages.specs.Pages.{zipped};

    ghost Value = { List (ℕ × T) };

    ghost view = { λ page. zipped page.keys.items page.rows.items };

    ghost invariant = { λ page. IsPage page.keys page.rows };
}

impl<T, A: Allocator + Clone> Page<T, A> {
    // A page without rows, with room for all that it may hold.
    pub(crate) fn new(alloc: &A) -> Result<Page<T, A>, AllocError>
        ensures { IfOk result (λ page. page ≡ []) }
    {
        let keys = Vec::with_capacity(alloc.clone()?, FULL)?;
        let rows = Vec::with_capacity(alloc.clone()?, FULL)?;
        Ok(Page { keys, rows })
    }
}

impl<T: Clone, A: Allocator + Clone> Clone for Page<T, A> {
    ghost is_clone = { AreCopies T.is_clone };

    fn clone(&self) -> Result<Page<T, A>, AllocError> {
        let keys = copy_keys(&self.keys)?;
        let rows = copy_rows(&self.rows)?;
        Ok(Page { keys, rows })
    }
}

impl<T, A: Allocator> Page<T, A> {
    pub(crate) fn len(&self) -> usize
        ensures len { result ≡ length self.now }
        ensures few { length self.now ≤ 64 }
    {
        self.keys.len()
    }

    // How many of its keys lie below a key.
    pub(crate) fn place(&self, key: u64) -> usize
        requires { Ascends self.now }
        ensures there { result ≤ length self.now }
        ensures split { IsSplit key (take result self.now) (drop result self.now) }
    {
        rank(&self.keys, key)
    }

    // Whether the key at a place is this one.
    pub(crate) fn has(&self, place: usize, key: u64) -> bool
        ensures { result ≡ begins_with key (drop place self.now) }
    {
        place < self.keys.len() && self.keys[place] == key
    }

    // The first key of a page that has one.
    pub(crate) fn first(&self) -> u64
        requires { 0 < length self.now }
        ensures { BeginsAt result self.now }
    {
        self.keys[0]
    }

    pub(crate) fn row(&self, place: usize) -> &T
        requires { place < length self.now }
        ensures { (key : ℕ) → begins_with key (drop place self.now) ≡ true → StandsAt self.now place key result.now }
    {
        &self.rows[place]
    }

    // The keys from one on and before another, and their rows.
    pub(crate) fn part(&self, lower: Option<u64>, upper: Option<u64>) -> (&[u64], &[T])
        requires { Ascends self.now }
        ensures within { zipped result.0.now result.1.now ≡ within lower upper self.now }
        ensures same { length result.0.now ≡ length result.1.now }
    {
        let (start, end) = self.ends(lower, upper);
        (
            between(&self.keys, start, end),
            between(&self.rows, start, end),
        )
    }

    // The places of the first row in a range, and of the first one behind it.
    pub(crate) fn ends(&self, lower: Option<u64>, upper: Option<u64>) -> (usize, usize)
        requires { Ascends self.now }
        ensures order { result.0 ≤ result.1 }
        ensures there { result.1 ≤ length self.now }
        ensures within { take (result.1 - result.0) (drop result.0 self.now) ≡ within lower upper self.now }
    {
        let start = self.start(lower);
        (start, self.end(upper).max(start))
    }

    // The place of the first row from a lower end on.
    fn start(&self, lower: Option<u64>) -> usize
        requires { Ascends self.now }
        ensures there { result ≤ length self.now }
        ensures start { IsStart lower self.now result }
    {
        match lower {
            Some(lower) => self.place(lower),
            None => 0,
        }
    }

    // The place of the first row that isn't below an upper end.
    fn end(&self, upper: Option<u64>) -> usize
        requires { Ascends self.now }
        ensures there { result ≤ length self.now }
        ensures end { IsEnd upper self.now result }
    {
        match upper {
            Some(upper) => self.place(upper),
            None => self.len(),
        }
    }
}

impl<T: Drop, A: Allocator> Page<T, A> {
    // Puts a row in the place of another, and hands that one out.
    pub(crate) fn exchange(&mut self, place: usize, row: T) -> T
        requires { place < length self.old }
        ensures was { (key : ℕ) → begins_with key (drop place self.old) ≡ true → StandsAt self.old place key result }
        ensures new { (key : ℕ) → begins_with key (drop place self.old) ≡ true → self.new ≡ take place self.old ++ ((key, row) ∷ drop (suc place) self.old) }
    {
        mem::replace(&mut self.rows[place], row)
    }

    pub(crate) fn insert(&mut self, place: usize, key: u64, row: T)
        requires there { place ≤ length self.old }
        requires room { length self.old < 64 }
        ensures { self.new ≡ insert self.old place (key, row) }
    {
        insert_within(&mut self.keys, place, key);
        insert_within(&mut self.rows, place, row);
    }

    pub(crate) fn remove(&mut self, place: usize) -> T
        requires { place < length self.old }
        ensures was { (key : ℕ) → begins_with key (drop place self.old) ≡ true → StandsAt self.old place key result }
        ensures new { self.new ≡ remove self.old place }
    {
        let _key = self.keys.remove(place);
        self.rows.remove(place)
    }

    // Moves the upper half of a full page into one without rows.
    pub(crate) fn split(&mut self, upper: &mut Page<T, A>)
        requires full { length self.old ≡ 64 }
        requires empty { upper.old ≡ [] }
        ensures lower { self.new ≡ take 32 self.old }
        ensures upper { upper.new ≡ drop 32 self.old }
    {
        move_from(&mut self.keys, HALF, &mut upper.keys);
        move_from(&mut self.rows, HALF, &mut upper.rows);
    }
}

// A copy of the keys of a page, with room for a full one.
fn copy_keys<A: Allocator + Clone>(keys: &Vec<u64, A>) -> Result<Vec<u64, A>, AllocError>
    ensures items { IfOk result (λ copy. copy.items ≡ keys.now.items) }
    ensures room { IfOk result (λ copy. 64 ≤ vec_capacity copy) }
{
    let mut copy = Vec::with_capacity(keys.allocator().clone()?, FULL)?;
    copy.extend_from_slice(keys)?;
    Ok(copy)
}

// A copy of the rows of a page, with room for a full one.
fn copy_rows<T: Clone, A: Allocator + Clone>(rows: &Vec<T, A>) -> Result<Vec<T, A>, AllocError>
    ensures items { IfOk result (λ copy. AllZip T.is_clone rows.now.items copy.items) }
    ensures room { IfOk result (λ copy. 64 ≤ vec_capacity copy) }
{
    let mut copy = Vec::with_capacity(rows.allocator().clone()?, FULL)?;
    copy.extend_with_clones(rows)?;
    Ok(copy)
}

// The items from one place on and before another.
pub(crate) fn between<T>(items: &[T], start: usize, end: usize) -> &[T]
    requires order { start ≤ end }
    requires there { end ≤ length items.now }
    ensures { result.now ≡ take (end - start) (drop start items.now) }
{
    &items[start..end]
}

// Moves all from a place on into a list without items, which has room for them.
fn move_from<T: Drop, A: Allocator>(items: &mut Vec<T, A>, place: usize, others: &mut Vec<T, A>)
    requires empty { others.old.items ≡ [] }
    requires room { vec_len items.old ≤ place + vec_capacity others.old }
    ensures items { items.new.items ≡ take place items.old.items }
    ensures others { others.new.items ≡ drop place items.old.items }
    ensures items_room { vec_capacity items.new ≡ vec_capacity items.old }
    ensures others_room { vec_capacity others.new ≡ vec_capacity others.old }
{
    while items.len() > place {
        let last = items.take_last();
        others.push_reserved(last);
    }
    others.reverse();
}

// Inserts where there is room for one more.
pub(crate) fn insert_within<T: Drop, A: Allocator>(items: &mut Vec<T, A>, place: usize, item: T)
    requires there { place ≤ vec_len items.old }
    requires room { vec_len items.old < vec_capacity items.old }
    ensures items { items.new.items ≡ insert items.old.items place item }
    ensures len { vec_len items.new ≡ vec_len items.old + 1 }
    ensures capacity { vec_capacity items.old ≤ vec_capacity items.new }
{
    match items.insert(place, item) {
        Ok(()) => (),
        Err(_) => unreachable!(),
    }
}
