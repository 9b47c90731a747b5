//! Many writes of one transaction in a map, with their objects in order once they are to be shared.
ghost use Rattle.std.specs.Prelude.{◌≡◌, not, None, IfOk, IfErr, IfSome, OnOk, OnErr, IsSorted};
ghost use Rattle.std.specs.List.{list_any};
ghost use Rattle.std.specs.Map.{keys_of};
ghost use Rattle.std.specs.Option.{option_copied};
ghost use Rattle.std.specs.Ordering.{on};
ghost use Rattle.occ_types.specs.declared.fault.Fault.TheVariants.{Memory};
ghost use Rattle.occ_types.specs.Object.{object_cmp};
ghost use Rattle.occ_types.specs.Question.{asks, is_from};
ghost use Rattle.occ_types.specs.PlainData.{end_of, key_of, object_of, question_of};
ghost use Rattle.occ_model.specs.State.{meets_question};
ghost use Rattle.occ_model.specs.Overlay.{set, own};
ghost use Rattle.occ_sets.specs.PlainSets.{writes_of};
ghost use Rattle.occ_sets.specs.InOrder.{FindsRanges, IsRangeFrom, stands_before};

use crate::own_writes::Write;
use indexmap::IndexMap;
use occ_types::{Fault, Key, Object, Question, Refused, Row};
use std::alloc::{AllocError, AllocFailed, Allocator};
use std::hash::{BuildHasherDefault, FoldHasher};
use std::marker::Model;

/// Writes in the order of the first writes of their objects, which are found by their hashes.
pub(crate) type WriteMap<A> = IndexMap<
    Object<A>,
    Option<Row<A>>,
    BuildHasherDefault<FoldHasher>,
    A,
>;

/// Writes in a map, in the order of the first writes of their objects. Clauses see the list of the plain writes.
#[derive(Drop)]
#[derive_where(Debug)]
pub(crate) struct ManyWrites<A: Allocator> {
    map: WriteMap<A>,
    // The objects in their order, in which a range is found by a search; none where they have not been put in order.
    in_order: Option<Vec<Object<A>, A>>,
}

impl<A: Allocator> Model for ManyWrites<A> {
    ghost use Rattle.std.specs.Prelude.{List, IfSome};
    ghost use Rattle.occ_model.specs.State.{Write};

    ghost Value = { List Write };

    ghost use Rattle.occ_sets.specs.PlainSets.{writes_of};
    ghost use Rattle.occ_sets.specs.InOrder.{FindsRanges};

    ghost view = { λ w. writes_of w.map.entries };

    ghost invariant = { λ w. IfSome w.in_order (λ objects. FindsRanges objects.items (writes_of w.map.entries)) };
}

impl<A: Allocator + Copy> ManyWrites<A> {
    /// Does a write. It is refused, and handed back, where there is no memory, which leaves the writes as they were. The objects are not in order any more.
    #[inline(never)]
    pub(crate) fn insert(&mut self, write: Write<A>) -> Result<(), Refused<Write<A>>>
        ensures ok { OnOk result (self.new ≡ set self.old (object_of write.0) write.1) }
        ensures err { OnErr result (self.new ≡ self.old) }
        ensures handed_back { IfErr result (λ refused. refused.value ≡ write) }
        ensures memory { IfErr result (λ refused. refused.fault ≡ Memory) }
        ensures only_new { OnErr result (own self.old (object_of write.0) ≡ None) }
    {
        self.in_order = None;
        insert_in_map(&mut self.map, write)
    }

    /// Puts the objects in order, where they are not. An error where there is no memory for the list of them. The writes stay as they were either way.
    pub(crate) fn put_in_order(&mut self) -> Result<(), AllocError>
        ensures { self.new ≡ self.old }
    {
        if self.in_order.is_none() {
            self.in_order = Some(objects_in_order(&self.map)?);
        }
        Ok(())
    }
}

impl<A: Allocator> ManyWrites<A> {
    /// The writes of a map, whose objects are not in order yet. It takes no memory.
    pub(crate) fn from_map(map: WriteMap<A>) -> ManyWrites<A>
        ensures { result ≡ writes_of map.entries }
    {
        ManyWrites {
            map,
            in_order: None,
        }
    }

    /// The map.
    pub(crate) fn as_map(&self) -> &WriteMap<A>
        ensures { writes_of result.now.entries ≡ self.now }
    {
        &self.map
    }

    /// Whether the objects are in order.
    pub(crate) fn is_in_order(&self) -> bool {
        self.in_order.is_some()
    }

    /// Whether the question, which asks for a range of a table from a lower end on, asks for some object that is written: a search where these are in order, and else one pass.
    pub(crate) fn meets_range(
        &self,
        table: usize,
        lower: Option<&Key<A>>,
        question: &Question<A>,
    ) -> bool
        requires range { IsRangeFrom table (end_of (option_copied lower)) (question_of question.now) }
        ensures { result ≡ meets_question self.now (question_of question.now) }
    {
        match &self.in_order {
            None => is_some_asked(&self.map, question),
            Some(objects) => is_first_asked(objects.as_slice(), table, lower, question),
        }
    }
}

// Does a write on those of a map. It is refused, and handed back, where there is no memory.
fn insert_in_map<A: Allocator + Copy>(
    map: &mut WriteMap<A>,
    write: Write<A>,
) -> Result<(), Refused<Write<A>>>
    ensures ok { OnOk result (writes_of map.new.entries ≡ set (writes_of map.old.entries) (object_of write.0) write.1) }
    ensures err { OnErr result (writes_of map.new.entries ≡ writes_of map.old.entries) }
    ensures handed_back { IfErr result (λ refused. refused.value ≡ write) }
    ensures memory { IfErr result (λ refused. refused.fault ≡ Memory) }
    ensures only_new { OnErr result (own (writes_of map.old.entries) (object_of write.0) ≡ None) }
{
    let (object, row) = write;
    match map.insert(object, row) {
        Ok(_) => Ok(()),
        Err(AllocFailed { value }) => Err(memory(value)),
    }
}

// The objects of a map, in their order. An error where there is no memory for the list of them.
fn objects_in_order<A: Allocator + Copy>(map: &WriteMap<A>) -> Result<Vec<Object<A>, A>, AllocError>
    ensures { IfOk result (λ objects. FindsRanges objects.items (writes_of map.now.entries)) }
{
    let mut objects = objects_of(map)?;
    objects.sort_unstable();
    Ok(objects)
}

// Copies of the objects of a map.
fn objects_of<A: Allocator + Copy>(map: &WriteMap<A>) -> Result<Vec<Object<A>, A>, AllocError>
    ensures { IfOk result (λ objects. objects.items ≡ keys_of map.now.entries) }
{
    let mut objects = Vec::with_capacity(*map.allocator(), map.len())?;
    for object in map.keys() {
        objects.push(object.clone()?)?;
    }
    Ok(objects)
}

// Whether the question asks for some object of a map.
fn is_some_asked<A: Allocator>(map: &WriteMap<A>, question: &Question<A>) -> bool
    ensures { result ≡ meets_question (writes_of map.now.entries) (question_of question.now) }
{
    map.keys().any(|object| is_asked(question, object))
}

// Whether a range of a table asks for one of some objects, which are in order: then it asks for the first that does not stand before it.
fn is_first_asked<A: Allocator>(
    objects: &[Object<A>],
    table: usize,
    lower: Option<&Key<A>>,
    question: &Question<A>,
) -> bool
    requires sorted { IsSorted (on object_of object_cmp) objects.now }
    requires range { IsRangeFrom table (end_of (option_copied lower)) (question_of question.now) }
    ensures { result ≡ list_any (λ o. asks (question_of question.now) (object_of o)) objects.now }
{
    let place = objects.partition_point(
        |object: &Object<A>| -> bool
            ensures { result ≡ stands_before table (end_of (option_copied lower.entry)) (object_of object.now) }
        { stands_before(table, lower, object) },
    );
    place < objects.len() && is_asked(question, &objects[place])
}

// Whether the question asks for an object.
fn is_asked<A: Allocator>(question: &Question<A>, object: &Object<A>) -> bool
    ensures { result ≡ asks (question_of question.now) (object_of object.now) }
{
    question.asks(object.table, &object.key)
}

// Whether an object stands before a range of a table.
fn stands_before<A: Allocator>(table: usize, lower: Option<&Key<A>>, object: &Object<A>) -> bool
    ensures { result ≡ stands_before table (end_of (option_copied lower.entry)) (object_of object.now) }
{
    object.table < table || object.table == table && is_below_end(lower, &object.key)
}

// Whether a key lies below the lower end of a range, where there is one.
fn is_below_end<A: Allocator>(lower: Option<&Key<A>>, key: &Key<A>) -> bool
    ensures { result ≡ not (is_from (end_of (option_copied lower.entry)) (key_of key.now)) }
{
    match lower {
        Some(end) => !(end <= key),
        None => false,
    }
}

// There is no memory for a write.
fn memory<A: Allocator>(value: Write<A>) -> Refused<Write<A>>
    ensures { result ≡ record { value = value; fault = Memory } }
{
    Refused {
        value,
        fault: Fault::Memory,
    }
}
