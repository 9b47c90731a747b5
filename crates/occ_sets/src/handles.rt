//! Where the writes of one transaction stand.
ghost use Rattle.std.specs.Prelude.{◌≡◌, ◌<◌, ◌≤◌, ◌^◌, [], false, cond, length, slice_get, is_some, None, IfOk, IfErr, IfSome, OnOk, OnErr, MatchOption, MatchResult};
ghost use Rattle.std.specs.Arc.{arc_value};
ghost use Rattle.std.specs.Option.{option_copied, option_map};
ghost use Rattle.occ_types.specs.declared.fault.Fault.TheVariants.{SetFull, Memory};
ghost use Rattle.occ_types.specs.declared.limits.TheConstants as limit;
ghost use Rattle.occ_types.specs.PlainData.{object_of, question_of};
ghost use Rattle.occ_model.specs.State.{meets_question};
ghost use Rattle.occ_model.specs.Overlay.{set, own};
ghost use Rattle.occ_sets.specs.Handles.{kept, IsOwn};
ghost use Rattle.occ_sets.specs.Sets.{WritesOnce, is_full_for};

use crate::own_writes::{OwnWrites, Write};
use occ_types::{Fault, Object, Question, Refused, Row};
use std::alloc::{AllocError, AllocFailed, Allocator};
use std::sync::Arc;

/// The writes of one transaction behind a handle, if there are some.
#[derive(Drop)]
#[derive_where(Debug)]
pub(crate) enum Handle<A: Allocator> {
    /// There is no write.
    Empty,
    /// One owner has them, so that no copy can be needed before he changes them.
    Own(Box<OwnWrites<A>, A>),
    /// Several owners may have them. Who changes what others have too takes a copy first.
    Shared(Arc<OwnWrites<A>, A>),
}

impl<A: Allocator> Handle<A> {
    /// The writes, where there are some.
    pub(crate) fn get(&self) -> Option<&OwnWrites<A>>
        ensures { MatchOption result ([] ≡ kept self.now) (λ writes. writes.now ≡ kept self.now) }
    {
        match self {
            Handle::Empty => None,
            Handle::Own(writes) => Some(writes),
            Handle::Shared(writes) => Some(writes),
        }
    }

    /// How many objects are written.
    pub(crate) fn len(&self) -> usize
        ensures value { result ≡ length (kept self.now) }
        ensures small { result < 2 ^ 63 }
        ensures once { WritesOnce (kept self.now) }
    {
        match self.get() {
            None => 0,
            Some(writes) => writes.len(),
        }
    }

    /// Whether a write of the object would be one too many for a transaction: it is new, and there are 256 writes or more.
    pub(crate) fn is_full_for(&self, object: &Object<A>) -> bool
        ensures { result ≡ is_full_for (kept self.now) (object_of object.now) }
    {
        match self.get() {
            None => false,
            Some(writes) => writes.is_full_for(object),
        }
    }

    /// The own write of an object: none where there is none, and else its new row, or none where it is deleted.
    pub(crate) fn own(&self, object: &Object<A>) -> Option<Option<&Row<A>>>
        ensures { option_map option_copied result ≡ own (kept self.now) (object_of object.now) }
    {
        match self.get() {
            None => None,
            Some(writes) => writes.own(object),
        }
    }

    /// Whether an object is written.
    pub(crate) fn writes(&self, object: &Object<A>) -> bool
        ensures { result ≡ is_some (own (kept self.now) (object_of object.now)) }
    {
        self.own(object).is_some()
    }

    /// The write at a place, in the order of the first writes.
    pub(crate) fn write_at(&self, place: usize) -> Option<(&Object<A>, Option<&Row<A>>)>
        ensures value { option_map (λ w. (object_of w.0.now, option_copied w.1)) result ≡ slice_get (kept self.now) place }
        ensures within { IfSome result (λ _. place < length (kept self.now)) }
        ensures small { IfSome result (λ _. place < 2 ^ 63) }
    {
        match self.get() {
            None => None,
            Some(writes) => writes.write_at(place),
        }
    }

    /// Whether the writes are of what the question asks for, as `OwnWrites::meets` has it.
    pub(crate) fn meets(&self, question: &Question<A>) -> bool
        ensures { result ≡ meets_question (kept self.now) (question_of question.now) }
    {
        match self.get() {
            None => false,
            Some(writes) => writes.meets(question),
        }
    }
}

impl<A: Allocator + Copy> Handle<A> {
    /// Writes an object, or deletes it where `row` is none, as `OwnWrites::insert` does. What others have too is copied first. Refused with `Memory` where there is none for it. That leaves the writes as they were and hands the write back.
    pub(crate) fn insert(&mut self, alloc: A, write: Write<A>) -> Result<(), Refused<Write<A>>>
        ensures ok { OnOk result (kept self.new ≡ set (kept self.old) (object_of write.0) write.1) }
        ensures err { OnErr result (kept self.new ≡ kept self.old) }
        ensures handed_back { IfErr result (λ refused. refused.value ≡ write) }
        ensures memory { IfErr result (λ refused. refused.fault ≡ Memory) }
    {
        match self {
            Handle::Own(writes) => return writes.insert(alloc, write),
            Handle::Shared(writes) => return insert_shared(writes, alloc, write),
            Handle::Empty => {}
        }
        let Ok(mut first) = Arc::new(alloc, OwnWrites::new()) else {
            return Err(no_memory(write));
        };
        insert_shared(&mut first, alloc, write)?;
        *self = Handle::Shared(first);
        Ok(())
    }

    /// Writes an object of a transaction whose writes nobody else has, as `OwnWrites::set` does.
    pub(crate) fn set_own(&mut self, alloc: A, write: Write<A>) -> Result<(), Refused<Write<A>>>
        requires { IsOwn self.old }
        ensures ok { OnOk result (kept self.new ≡ set (kept self.old) (object_of write.0) write.1) }
        ensures err { OnErr result (kept self.new ≡ kept self.old) }
        ensures handed_back { IfErr result (λ refused. refused.value ≡ write) }
        ensures fault { MatchResult result
            (λ _. is_full_for (kept self.old) (object_of write.0) ≡ false)
            (λ refused. refused.fault ≡ cond (is_full_for (kept self.old) (object_of write.0)) SetFull Memory) }
        ensures only_new { OnErr result (own (kept self.old) (object_of write.0) ≡ None) }
        ensures few { length (kept self.old) ≤ limit.MAX_WRITES → length (kept self.new) ≤ limit.MAX_WRITES }
        ensures own { IsOwn self.new }
    {
        if let Handle::Empty = self {
            let Ok(first) = Box::new(alloc, OwnWrites::new()) else {
                return Err(no_memory(write));
            };
            *self = Handle::Own(first);
        }
        match self {
            Handle::Own(writes) => writes.set(alloc, write),
            _ => unreachable!(),
        }
    }

    /// From now on a clone is one more owner of the writes, and many of them are in order for searches. An error where there is no memory for it. The writes stay as they were either way.
    pub(crate) fn share(&mut self, alloc: A) -> Result<(), AllocError>
        ensures { kept self.new ≡ kept self.old }
    {
        match self {
            Handle::Empty => Ok(()),
            Handle::Shared(writes) => put_in_order(writes),
            Handle::Own(writes) => {
                writes.put_in_order()?;
                let shared = take_out(alloc, writes)?;
                *self = Handle::Shared(shared);
                Ok(())
            }
        }
    }

    /// The writes for one owner alone: from their only owner themselves, and else a copy. They are handed back where there is no memory for that.
    pub(crate) fn into_own(self, alloc: A) -> Result<Handle<A>, Handle<A>>
        ensures ok { IfOk result (λ handle. (kept handle ≡ kept self) × IsOwn handle) }
        ensures handed_back { IfErr result (λ handle. kept handle ≡ kept self) }
    {
        match self {
            Handle::Shared(writes) => match unwrap_or_copy(alloc, writes) {
                Ok(writes) => Ok(Handle::Own(writes)),
                Err(writes) => Err(Handle::Shared(writes)),
            },
            Handle::Empty => Ok(Handle::Empty),
            Handle::Own(writes) => Ok(Handle::Own(writes)),
        }
    }
}

// Does a write behind a shared handle. What others have too is copied first.
fn insert_shared<A: Allocator + Copy>(
    writes: &mut Arc<OwnWrites<A>, A>,
    alloc: A,
    write: Write<A>,
) -> Result<(), Refused<Write<A>>>
    ensures ok { OnOk result (arc_value writes.new ≡ set (arc_value writes.old) (object_of write.0) write.1) }
    ensures err { OnErr result (arc_value writes.new ≡ arc_value writes.old) }
    ensures handed_back { IfErr result (λ refused. refused.value ≡ write) }
    ensures memory { IfErr result (λ refused. refused.fault ≡ Memory) }
{
    let Ok(writes) = Arc::make_mut(writes) else {
        return Err(no_memory(write));
    };
    writes.insert(alloc, write)
}

// Puts writes that may be shared in order. Those that are in order already are not copied.
fn put_in_order<A: Allocator + Copy>(writes: &mut Arc<OwnWrites<A>, A>) -> Result<(), AllocError>
    ensures { arc_value writes.new ≡ arc_value writes.old }
{
    if writes.is_in_order() {
        return Ok(());
    }
    let writes = Arc::make_mut(writes)?;
    writes.put_in_order()
}

// Takes writes out of their handle and puts them behind one that may be shared. An error, where there is no memory for that, leaves them.
fn take_out<A: Allocator + Copy>(
    alloc: A,
    writes: &mut Box<OwnWrites<A>, A>,
) -> Result<Arc<OwnWrites<A>, A>, AllocError>
    ensures ok { IfOk result (λ shared. arc_value shared ≡ writes.old.value) }
    ensures err { OnErr result (writes.new.value ≡ writes.old.value) }
{
    match Arc::new(alloc, Box::replace(writes, OwnWrites::new())) {
        Ok(shared) => Ok(shared),
        Err(AllocFailed { value }) => {
            let _empty = Box::replace(writes, value);
            Err(AllocError)
        }
    }
}

// The writes of a handle that may be shared, from its only owner themselves, and else a copy. The handle comes back where there is no memory.
fn unwrap_or_copy<A: Allocator + Copy>(
    alloc: A,
    shared: Arc<OwnWrites<A>, A>,
) -> Result<Box<OwnWrites<A>, A>, Arc<OwnWrites<A>, A>>
    ensures ok { IfOk result (λ writes. writes.value ≡ arc_value shared) }
    ensures handed_back { IfErr result (λ back. arc_value back ≡ arc_value shared) }
{
    let Ok(mut room) = Box::new(alloc, OwnWrites::new()) else {
        return Err(shared);
    };
    let shared = match Arc::try_unwrap(shared) {
        Ok(writes) => {
            *room = writes;
            return Ok(room);
        }
        Err(shared) => shared,
    };
    let writes: &OwnWrites<A> = &shared;
    match writes.clone() {
        Ok(copy) => {
            *room = copy;
            Ok(room)
        }
        Err(AllocError) => Err(shared),
    }
}

// There is no memory for a write.
fn no_memory<A: Allocator>(value: Write<A>) -> Refused<Write<A>>
    ensures { result ≡ record { value = value; fault = Memory } }
{
    Refused {
        value,
        fault: Fault::Memory,
    }
}

impl<A: Allocator + Clone> Clone for Handle<A> {
    ghost is_clone = { λ source copy. kept copy ≡ kept source };

    // One more owner of writes that may be shared, and else a copy.
    fn clone(&self) -> Result<Handle<A>, AllocError> {
        match self {
            Handle::Empty => Ok(Handle::Empty),
            Handle::Own(writes) => Ok(Handle::Own(writes.clone()?)),
            Handle::Shared(writes) => Ok(Handle::Shared(Arc::try_clone(writes)?)),
        }
    }
}
