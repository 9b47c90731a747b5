//! Pages in the order of their keys, under their first keys.
ghost use Rattle.std.specs.Prelude.{◌≡◌, ◌<◌, ◌≤◌, ◌+◌, ◌-◌, ◌^◌, ℕ, suc, true, false, List, [], ◌∷◌, ◌++◌, length, take, drop, get_or, set, Option, Some, None, MatchOption, IfOk, IfErr, OnOk, OnErr, vec_len, vec_capacity};
ghost use Rattle.std.specs.List.{insert, remove};
ghost use Rattle.std.specs.Option.{option_copied};
ghost use Rattle.occ_pages.specs.Entries.{AllBelow, get, put, within, without};
ghost use Rattle.occ_pages.specs.Pages.{Rises, IsPageFor, begins_with, flatten, cut, HasFirst, IsShelf, IsPlace, IsGap};
ghost use Rattle.occ_pages.specs.Page.{StandsAt};

use crate::page::{FULL, HALF, Page, insert_within};
use crate::search::rank;
use std::alloc::{AllocError, AllocFailed, Allocator};

// Pages, and the first key of each.
#[derive(Drop)]
pub(crate) struct Shelf<T, A: Allocator> {
    pub(crate) firsts: Vec<u64, A>,
    pub(crate) pages: Vec<Page<T, A>, A>,
}

impl<T, A: Allocator> Shelf<T, A> {
    // The page that a key belongs to, and its place there.
    pub(crate) fn seek(&self, key: u64) -> (usize, usize)
        requires shelf { IsShelf self.now.firsts.items self.now.pages.items }
        requires some { 0 < length self.now.pages.items }
        ensures { IsPlace key self.now.pages.items result.0 result.1 }
    {
        let page = page_of(&self.firsts, key);
        (page, self.pages[page].place(key))
    }

    // Whether the key at a place of a page is this one.
    pub(crate) fn has(&self, page: usize, place: usize, key: u64) -> bool
        requires { page < length self.now.pages.items }
        ensures { result ≡ begins_with key (drop place (get_or self.now.pages.items page [])) }
    {
        self.pages[page].has(place, key)
    }

    // The page and the place at which a key stands.
    pub(crate) fn find(&self, key: u64) -> Option<(usize, usize)>
        requires { IsShelf self.now.firsts.items self.now.pages.items }
        ensures { MatchOption result
            (get (flatten self.now.pages.items) key ≡ None)
            (λ at. IsPlace key self.now.pages.items at.0 at.1 × (begins_with key (drop at.1 (get_or self.now.pages.items at.0 [])) ≡ true)) }
    {
        if self.pages.is_empty() {
            return None;
        }
        let (page, place) = self.seek(key);
        if self.has(page, place, key) {
            Some((page, place))
        } else {
            None
        }
    }

    // The row under a key.
    pub(crate) fn get(&self, key: u64) -> Option<&T>
        requires { IsShelf self.now.firsts.items self.now.pages.items }
        ensures { option_copied result ≡ get (flatten self.now.pages.items) key }
    {
        if self.pages.is_empty() {
            return None;
        }
        let (page, place) = self.seek(key);
        let entries = &self.pages[page];
        if entries.has(place, key) {
            Some(entries.row(place))
        } else {
            None
        }
    }
}

impl<T, A: Allocator> Shelf<T, A> {
    // How many rows lie from a lower end on and below an upper one.
    pub(crate) fn count(&self, lower: Option<u64>, upper: Option<u64>) -> usize
        requires shelf { IsShelf self.now.firsts.items self.now.pages.items }
        requires few { length (flatten self.now.pages.items) < 2 ^ 64 }
        ensures { result ≡ length (within lower upper (flatten self.now.pages.items)) }
    {
        let (start, end) = self.pages_between(lower, upper);
        let mut count = 0;
        for page in start..end {
            count += self.count_in(page, lower, upper);
        }
        count
    }

    // How many of them stand in one page.
    fn count_in(&self, page: usize, lower: Option<u64>, upper: Option<u64>) -> usize
        requires shelf { IsShelf self.now.firsts.items self.now.pages.items }
        requires page { page < length self.now.pages.items }
        ensures { result ≡ length (within lower upper (get_or self.now.pages.items page [])) }
    {
        let (start, end) = self.pages[page].ends(lower, upper);
        end - start
    }

    // The pages in which they stand: the place of the first one, and that behind the last one.
    pub(crate) fn pages_between(&self, lower: Option<u64>, upper: Option<u64>) -> (usize, usize)
        requires { IsShelf self.now.firsts.items self.now.pages.items }
        ensures order { result.0 ≤ result.1 }
        ensures there { result.1 ≤ length self.now.pages.items }
        ensures first { within lower upper (flatten (take result.0 self.now.pages.items)) ≡ [] }
        ensures last { within lower upper (flatten (drop result.1 self.now.pages.items)) ≡ [] }
    {
        let start = self.start_page(lower);
        (start, self.end_page(upper).max(start))
    }

    // The page at which a range from a lower end on begins.
    fn start_page(&self, lower: Option<u64>) -> usize
        requires { IsShelf self.now.firsts.items self.now.pages.items }
        ensures there { result ≤ length self.now.pages.items }
        ensures first { (upper : Option ℕ) → within lower upper (flatten (take result self.now.pages.items)) ≡ [] }
    {
        if self.firsts.is_empty() {
            return 0;
        }
        match lower {
            Some(lower) => page_of(&self.firsts, lower),
            None => 0,
        }
    }

    // The first page that has no row below an upper end.
    fn end_page(&self, upper: Option<u64>) -> usize
        requires { IsShelf self.now.firsts.items self.now.pages.items }
        ensures there { result ≤ length self.now.pages.items }
        ensures last { (lower : Option ℕ) (page : ℕ) → result ≤ page → within lower upper (flatten (drop page self.now.pages.items)) ≡ [] }
    {
        match upper {
            Some(upper) => rank(&self.firsts, upper),
            None => self.pages.len(),
        }
    }
}

impl<T: Drop, A: Allocator> Shelf<T, A> {
    // Puts a row in the place of another, and hands that one out.
    pub(crate) fn exchange(&mut self, page: usize, place: usize, key: u64, row: T) -> T
        requires shelf { IsShelf self.old.firsts.items self.old.pages.items }
        requires there { IsPlace key self.old.pages.items page place }
        requires has { begins_with key (drop place (get_or self.old.pages.items page [])) ≡ true }
        ensures was { Some result ≡ get (flatten self.old.pages.items) key }
        ensures new { flatten self.new.pages.items ≡ put (flatten self.old.pages.items) key row }
        ensures count { length (flatten self.new.pages.items) ≡ length (flatten self.old.pages.items) }
        ensures shelf { IsShelf self.new.firsts.items self.new.pages.items }
    {
        self.pages[page].exchange(place, row)
    }

    // Puts a row at a place of a page, whose first key may then be another one.
    fn put_at(&mut self, page: usize, place: usize, key: u64, row: T)
        requires page { page < length self.old.pages.items }
        requires place { place ≤ length (get_or self.old.pages.items page []) }
        requires room { length (get_or self.old.pages.items page []) < 64 }
        ensures pages { self.new.pages.items ≡ set self.old.pages.items page (insert (get_or self.old.pages.items page []) place (key, row)) }
        ensures firsts { self.new.firsts.items ≡ self.old.firsts.items }
    {
        self.pages[page].insert(place, key, row);
    }

    // Takes the row at a place of a page out, whose first key may then be another one.
    fn take_at(&mut self, page: usize, place: usize) -> T
        requires page { page < length self.old.pages.items }
        requires place { place < length (get_or self.old.pages.items page []) }
        ensures was { (key : ℕ) → begins_with key (drop place (get_or self.old.pages.items page [])) ≡ true → StandsAt (get_or self.old.pages.items page []) place key result }
        ensures pages { self.new.pages.items ≡ set self.old.pages.items page (remove (get_or self.old.pages.items page []) place) }
        ensures firsts { self.new.firsts.items ≡ self.old.firsts.items }
    {
        self.pages[page].remove(place)
    }

    // How many rows a page has.
    fn rows_of(&self, page: usize) -> usize
        requires { page < length self.now.pages.items }
        ensures len { result ≡ length (get_or self.now.pages.items page []) }
        ensures few { length (get_or self.now.pages.items page []) ≤ 64 }
    {
        self.pages[page].len()
    }

    // Notes the first key of a page again.
    fn note_first(&mut self, page: usize)
        requires first { page < length self.old.firsts.items }
        requires page { page < length self.old.pages.items }
        requires some { 0 < length (get_or self.old.pages.items page []) }
        ensures pages { self.new.pages.items ≡ self.old.pages.items }
        ensures firsts { HasFirst self.old.firsts.items page (get_or self.old.pages.items page []) self.new.firsts.items }
    {
        self.firsts[page] = self.pages[page].first();
    }

    // Moves the upper half of a full page into one without rows.
    fn halve(&mut self, page: usize, upper: &mut Page<T, A>)
        requires page { page < length self.old.pages.items }
        requires full { length (get_or self.old.pages.items page []) ≡ 64 }
        requires empty { upper.old ≡ [] }
        ensures pages { self.new.pages.items ≡ set self.old.pages.items page (take 32 (get_or self.old.pages.items page [])) }
        ensures upper { upper.new ≡ drop 32 (get_or self.old.pages.items page []) }
        ensures firsts { self.new.firsts.items ≡ self.old.firsts.items }
        ensures firsts_room { vec_capacity self.new.firsts ≡ vec_capacity self.old.firsts }
        ensures pages_room { vec_capacity self.new.pages ≡ vec_capacity self.old.pages }
    {
        self.pages[page].split(upper);
    }

    // Takes a page without rows out.
    fn drop_page(&mut self, page: usize)
        requires first { page < length self.old.firsts.items }
        requires page { page < length self.old.pages.items }
        ensures pages { self.new.pages.items ≡ remove self.old.pages.items page }
        ensures firsts { self.new.firsts.items ≡ remove self.old.firsts.items page }
    {
        let _first = self.firsts.remove(page);
        let _page = self.pages.remove(page);
    }

    // Puts a row under a new key into a page that isn't full.
    fn put(&mut self, page: usize, place: usize, key: u64, row: T)
        requires shelf { IsShelf self.old.firsts.items self.old.pages.items }
        requires gap { IsGap key self.old.pages.items page place }
        requires room { length (get_or self.old.pages.items page []) < 64 }
        ensures new { flatten self.new.pages.items ≡ put (flatten self.old.pages.items) key row }
        ensures count { length (flatten self.new.pages.items) ≡ length (flatten self.old.pages.items) + 1 }
        ensures shelf { IsShelf self.new.firsts.items self.new.pages.items }
    {
        self.put_at(page, place, key, row);
        self.note_first(page);
    }

    // Takes the row at a place of a page out, and the page where it was the last one.
    pub(crate) fn take(&mut self, page: usize, place: usize, key: u64) -> T
        requires shelf { IsShelf self.old.firsts.items self.old.pages.items }
        requires there { IsPlace key self.old.pages.items page place }
        requires has { begins_with key (drop place (get_or self.old.pages.items page [])) ≡ true }
        ensures was { Some result ≡ get (flatten self.old.pages.items) key }
        ensures new { flatten self.new.pages.items ≡ without (flatten self.old.pages.items) key }
        ensures count { length (flatten self.new.pages.items) + 1 ≡ length (flatten self.old.pages.items) }
        ensures shelf { IsShelf self.new.firsts.items self.new.pages.items }
    {
        let row = self.take_at(page, place);
        if self.rows_of(page) == 0 {
            self.drop_page(page);
            return row;
        }
        self.note_first(page);
        row
    }
}

impl<T: Drop, A: Allocator + Clone> Shelf<T, A> {
    // Puts a row under a new key at its place. A full last page stays as it is where the key comes behind it.
    pub(crate) fn add(
        &mut self,
        page: usize,
        place: usize,
        key: u64,
        row: T,
    ) -> Result<(), AllocFailed<T>>
        requires shelf { IsShelf self.old.firsts.items self.old.pages.items }
        requires gap { IsGap key self.old.pages.items page place }
        ensures new { OnOk result (flatten self.new.pages.items ≡ put (flatten self.old.pages.items) key row) }
        ensures count { OnOk result (length (flatten self.new.pages.items) ≡ length (flatten self.old.pages.items) + 1) }
        ensures err { OnErr result (flatten self.new.pages.items ≡ flatten self.old.pages.items) }
        ensures value { IfErr result (λ failed. failed.value ≡ row) }
        ensures shelf { IsShelf self.new.firsts.items self.new.pages.items }
    {
        if self.rows_of(page) < FULL {
            self.put(page, place, key, row);
            return Ok(());
        }
        if place == FULL && page + 1 == self.pages.len() {
            return self.begin(key, row);
        }
        match self.split(page) {
            Ok(()) => (),
            Err(_) => return Err(AllocFailed { value: row }),
        }
        self.put_in_half(page, place, key, row);
        Ok(())
    }

    // Puts a row under a new key into one of the two parts that a page was cut into, by the place that it has in the whole page.
    fn put_in_half(&mut self, page: usize, place: usize, key: u64, row: T)
        requires shelf { IsShelf self.old.firsts.items self.old.pages.items }
        requires lower { place ≤ 32 → IsGap key self.old.pages.items page place × (length (get_or self.old.pages.items page []) < 64) }
        requires upper { 32 < place → IsGap key self.old.pages.items (page + 1) (place - 32) × (length (get_or self.old.pages.items (page + 1) []) < 64) }
        ensures new { flatten self.new.pages.items ≡ put (flatten self.old.pages.items) key row }
        ensures count { length (flatten self.new.pages.items) ≡ length (flatten self.old.pages.items) + 1 }
        ensures shelf { IsShelf self.new.firsts.items self.new.pages.items }
    {
        if place <= HALF {
            self.put(page, place, key, row);
            return;
        }
        self.put(page + 1, place - HALF, key, row);
    }

    // Begins a page behind all others.
    pub(crate) fn begin(&mut self, key: u64, row: T) -> Result<(), AllocFailed<T>>
        requires shelf { IsShelf self.old.firsts.items self.old.pages.items }
        requires last { AllBelow key (flatten self.old.pages.items) }
        ensures new { OnOk result (flatten self.new.pages.items ≡ put (flatten self.old.pages.items) key row) }
        ensures count { OnOk result (length (flatten self.new.pages.items) ≡ length (flatten self.old.pages.items) + 1) }
        ensures err { OnErr result (flatten self.new.pages.items ≡ flatten self.old.pages.items) }
        ensures value { IfErr result (λ failed. failed.value ≡ row) }
        ensures shelf { IsShelf self.new.firsts.items self.new.pages.items }
    {
        let mut page = match room(&mut self.firsts, &mut self.pages) {
            Ok(page) => page,
            Err(_) => return Err(AllocFailed { value: row }),
        };
        page.insert(0, key, row);
        self.firsts.push_reserved(key);
        self.pages.push_reserved(page);
        Ok(())
    }

    // Splits a full page in the middle.
    fn split(&mut self, page: usize) -> Result<(), AllocError>
        requires shelf { IsShelf self.old.firsts.items self.old.pages.items }
        requires there { page < length self.old.pages.items }
        requires full { length (get_or self.old.pages.items page []) ≡ 64 }
        ensures ok { OnOk result (self.new.pages.items ≡ cut self.old.pages.items page 32) }
        ensures err { OnErr result (self.new.pages.items ≡ self.old.pages.items) }
        ensures shelf { IsShelf self.new.firsts.items self.new.pages.items }
    {
        let mut upper = room(&mut self.firsts, &mut self.pages)?;
        self.halve(page, &mut upper);
        insert_within(&mut self.firsts, page + 1, upper.first());
        insert_within(&mut self.pages, page + 1, upper);
        Ok(())
    }
}

// The page that a key belongs to, by the first keys of all pages.
fn page_of(firsts: &[u64], key: u64) -> usize
    requires rises { Rises firsts.now }
    requires some { 0 < length firsts.now }
    ensures { IsPageFor firsts.now key result }
{
    let below = rank(firsts, key);
    if below < firsts.len() && firsts[below] == key {
        return below;
    }
    below.saturating_sub(1)
}

// A page without rows, and room for it.
fn room<T: Drop, A: Allocator + Clone>(
    firsts: &mut Vec<u64, A>,
    pages: &mut Vec<Page<T, A>, A>,
) -> Result<Page<T, A>, AllocError>
    ensures page { IfOk result (λ page. page ≡ []) }
    ensures firsts { firsts.new.items ≡ firsts.old.items }
    ensures pages { pages.new.items ≡ pages.old.items }
    ensures firsts_room { OnOk result (vec_len firsts.new < vec_capacity firsts.new) }
    ensures pages_room { OnOk result (vec_len pages.new < vec_capacity pages.new) }
{
    firsts.reserve(1)?;
    pages.reserve(1)?;
    Page::new(firsts.allocator())
}
