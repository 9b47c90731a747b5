//! The writes of one transaction, by their objects.
ghost use Rattle.std.specs.Prelude.{◌≡◌, ◌<◌, ◌≤◌, ◌+◌, ◌^◌, [], false, cond, length, slice_get, is_some, None, IfOk, IfErr, IfSome, OnOk, OnErr, MatchResult};
ghost use Rattle.std.specs.Option.{option_copied, option_map};
ghost use Rattle.indexmap.specs.IndexMap.{spare};
ghost use Rattle.occ_types.specs.declared.fault.Fault.TheVariants.{SetFull, Memory};
ghost use Rattle.occ_types.specs.declared.limits.TheConstants as limit;
ghost use Rattle.occ_types.specs.PlainData.{object_of, question_of};
ghost use Rattle.occ_model.specs.State.{meets_question};
ghost use Rattle.occ_model.specs.Overlay.{set, own};
ghost use Rattle.occ_sets.specs.OwnWrites.{written};
ghost use Rattle.occ_sets.specs.PlainSets.{writes_of};
ghost use Rattle.occ_sets.specs.Sets.{WritesOnce, is_full_for};

use crate::few_writes::{meets_few, own_in};
use crate::inserting::insert_in;
use crate::many_writes::{ManyWrites, WriteMap};
use crate::short_list::ShortList;
use occ_types::limits::MAX_WRITES;
use occ_types::{Fault, Object, Question, Refused, Row};
use std::alloc::{AllocError, AllocFailed, Allocator};
use std::marker::Model;

/// A write: an object with its new row, or with none where it is deleted.
pub type Write<A> = (Object<A>, Option<Row<A>>);

/// The most writes that stand in a list. A transaction that writes no more takes one request for memory for them.
pub(crate) const FEW: usize = 8;

/// The writes of one transaction, in the order of the first writes of their objects. Clauses see the list of the plain writes.
#[derive(Drop)]
#[derive_where(Debug)]
pub(crate) struct OwnWrites<A: Allocator> {
    content: Content<A>,
}

/// Where writes stand.
#[derive(Drop)]
#[derive_where(Debug)]
pub(crate) enum Content<A: Allocator> {
    /// A few, in a list that is searched from its beginning.
    Few(ShortList<Write<A>, A>),
    /// More, in a map behind a handle, so that they are short to move.
    Many(Box<ManyWrites<A>, A>),
}

impl<A: Allocator> Model for OwnWrites<A> {
    ghost use Rattle.std.specs.Prelude.{List};
    ghost use Rattle.occ_model.specs.State.{Write};

    ghost Value = { List Write };

    ghost use Rattle.occ_sets.specs.OwnWrites.{written};
    ghost use Rattle.occ_sets.specs.Sets.{WritesOnce};

    ghost view = { λ w. written w.content };

    ghost invariant = { λ w. WritesOnce (written w.content) };
}

impl<A: Allocator + Copy> OwnWrites<A> {
    /// No writes, with room for `count` of them. An error where there is no memory for it.
    pub(crate) fn with_capacity(alloc: A, count: usize) -> Result<OwnWrites<A>, AllocError>
        ensures { IfOk result (λ writes. writes ≡ []) }
    {
        let content = content_for(alloc, count)?;
        Ok(OwnWrites { content })
    }
}

impl<A: Allocator> OwnWrites<A> {
    /// No writes, which take no memory.
    pub(crate) fn new() -> OwnWrites<A>
        ensures { result ≡ [] }
    {
        OwnWrites {
            content: Content::Few(ShortList::Empty),
        }
    }

    /// The writes, where they stand.
    pub(crate) fn content(&self) -> &Content<A>
        ensures { written result.now ≡ self.now }
    {
        &self.content
    }

    /// How many objects are written.
    pub(crate) fn len(&self) -> usize
        ensures value { result ≡ length self.now }
        ensures small { result < 2 ^ 63 }
        ensures once { WritesOnce self.now }
    {
        match &self.content {
            Content::Few(list) => list.len(),
            Content::Many(many) => many.as_map().len(),
        }
    }

    /// Whether a write of the object would be one too many for a transaction: it is new, and there are 256 writes or more.
    pub(crate) fn is_full_for(&self, object: &Object<A>) -> bool
        ensures { result ≡ is_full_for self.now (object_of object.now) }
    {
        self.len() >= MAX_WRITES && !self.writes(object)
    }

    /// The own write of an object: none where there is none, and else its new row, or none where it is deleted.
    pub(crate) fn own(&self, object: &Object<A>) -> Option<Option<&Row<A>>>
        ensures { option_map option_copied result ≡ own self.now (object_of object.now) }
    {
        match &self.content {
            Content::Few(list) => own_in(list, object),
            Content::Many(many) => many.as_map().get(object).map(|row| row.as_ref()),
        }
    }

    /// Whether an object is written.
    pub(crate) fn writes(&self, object: &Object<A>) -> bool
        ensures { result ≡ is_some (own self.now (object_of object.now)) }
    {
        self.own(object).is_some()
    }

    /// The write at a place, in the order of the first writes.
    pub(crate) fn write_at(&self, place: usize) -> Option<(&Object<A>, Option<&Row<A>>)>
        ensures value { option_map (λ w. (object_of w.0.now, option_copied w.1)) result ≡ slice_get self.now place }
        ensures within { IfSome result (λ _. place < length self.now) }
        ensures small { IfSome result (λ _. place < 2 ^ 63) }
    {
        if place >= self.len() {
            return None;
        }
        match &self.content {
            Content::Few(list) => match list.get(place) {
                None => None,
                Some(write) => Some((&write.0, write.1.as_ref())),
            },
            Content::Many(many) => match many.as_map().get_index(place) {
                None => None,
                Some((object, row)) => Some((object, row.as_ref())),
            },
        }
    }

    /// Whether the writes are of what the question asks for: one look-up for a single key, and for a range a search where the writes are in order, and else one pass.
    pub(crate) fn meets(&self, question: &Question<A>) -> bool
        ensures { result ≡ meets_question self.now (question_of question.now) }
    {
        match (&self.content, question) {
            (Content::Few(list), _) => meets_few(list, question),
            (Content::Many(_), Question::One(object)) => self.writes(object),
            (Content::Many(many), Question::Span { table, lower, .. }) => many.meets_range(
                *table,
                lower.as_ref(),
                question,
            ),
        }
    }
}

impl<A: Allocator + Copy> OwnWrites<A> {
    /// Whether ranges are searched for by halves, where there are more writes than a few.
    pub(crate) fn is_in_order(&self) -> bool {
        match &self.content {
            Content::Few(_) => true,
            Content::Many(many) => many.is_in_order(),
        }
    }

    /// Puts the writes in order for searches, where they are more than a few. An error where there is no memory for it. The writes stay as they were either way.
    pub(crate) fn put_in_order(&mut self) -> Result<(), AllocError>
        ensures { self.new ≡ self.old }
    {
        match &mut self.content {
            Content::Few(_) => Ok(()),
            Content::Many(many) => many.put_in_order(),
        }
    }

    /// Writes an object, or deletes it where its row is none. A new object goes last; one that is there keeps its place and takes the new row, which needs no memory. A new one is refused with `Memory` where there is none for it. That leaves the writes as they were and hands the write back.
    pub(crate) fn insert(&mut self, alloc: A, write: Write<A>) -> Result<(), Refused<Write<A>>>
        ensures ok { OnOk result (self.new ≡ set self.old (object_of write.0) write.1) }
        ensures err { OnErr result (self.new ≡ self.old) }
        ensures handed_back { IfErr result (λ refused. refused.value ≡ write) }
        ensures memory { IfErr result (λ refused. refused.fault ≡ Memory) }
        ensures only_new { OnErr result (own self.old (object_of write.0) ≡ None) }
    {
        insert_in(&mut self.content, alloc, write)
    }

    /// Writes an object as `insert` does, for a transaction. A new object is refused with `SetFull` where there are 256 writes or more, and else with `Memory` where there is none for it; both leave the writes as they were and hand the write back.
    pub(crate) fn set(&mut self, alloc: A, write: Write<A>) -> Result<(), Refused<Write<A>>>
        ensures ok { OnOk result (self.new ≡ set self.old (object_of write.0) write.1) }
        ensures err { OnErr result (self.new ≡ self.old) }
        ensures handed_back { IfErr result (λ refused. refused.value ≡ write) }

        // `Memory` comes only where there is room for the write, and neither comes to an object that is there.
        ensures fault { MatchResult result
            (λ _. is_full_for self.old (object_of write.0) ≡ false)
            (λ refused. refused.fault ≡ cond (is_full_for self.old (object_of write.0)) SetFull Memory) }
        ensures only_new { OnErr result (own self.old (object_of write.0) ≡ None) }
        ensures few { length self.old ≤ limit.MAX_WRITES → length self.new ≤ limit.MAX_WRITES }
    {
        if self.is_full_for(&write.0) {
            return Err(Refused {
                value: write,
                fault: Fault::SetFull,
            });
        }
        self.insert(alloc, write)
    }
}

// Room for so many writes.
fn content_for<A: Allocator + Copy>(alloc: A, count: usize) -> Result<Content<A>, AllocError>
    ensures { IfOk result (λ content. written content ≡ []) }
{
    if count <= FEW {
        return Ok(Content::Few(ShortList::with_capacity(alloc, count)?));
    }
    let map = WriteMap::with_capacity(alloc, count)?;
    in_a_box(alloc, map)
}

// A map behind a handle.
fn in_a_box<A: Allocator>(alloc: A, map: WriteMap<A>) -> Result<Content<A>, AllocError>
    ensures { IfOk result (λ content. written content ≡ writes_of map.entries) }
{
    match Box::new(alloc, ManyWrites::from_map(map)) {
        Ok(many) => Ok(Content::Many(many)),
        Err(AllocFailed { .. }) => Err(AllocError),
    }
}

impl<A: Allocator + Clone> Clone for OwnWrites<A> {
    ghost is_clone = { λ source copy. copy ≡ source };

    fn clone(&self) -> Result<OwnWrites<A>, AllocError> {
        let content = copied(&self.content)?;
        Ok(OwnWrites { content })
    }
}

// A copy of the writes.
#[inline(never)]
fn copied<A: Allocator + Clone>(content: &Content<A>) -> Result<Content<A>, AllocError>
    ensures { IfOk result (λ copy. written copy ≡ written content.now) }
{
    match content {
        Content::Few(list) => Ok(Content::Few(list.clone()?)),
        Content::Many(many) => {
            let map = many.as_map();
            let alloc = map.allocator().clone()?;
            in_a_box(alloc, map.clone()?)
        }
    }
}
