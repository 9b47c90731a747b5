//! Lists whose first two values stand in the list itself.
ghost use Rattle.std.specs.Prelude.{◌≡◌, ◌<◌, ◌^◌, ◌++◌, ◌∷◌, [], if◌then◌else◌, is_ok, length, slice_get, IfErr, IfOk};
ghost use Rattle.std.specs.List.{AllZip};
ghost use Rattle.std.specs.Option.{option_map};
ghost use Rattle.occ_sets.specs.ShortList.{values};

use std::alloc::{AllocError, AllocFailed, Allocator};
use std::mem;

/// How many values a list takes room for when it gets its third one.
const FIRST_ROOM: usize = 6;

/// A list that takes no memory of its own for its first two values. Most transactions read and write no more than that.
#[derive(Drop)]
#[derive_where(Debug; T)]
pub(crate) enum ShortList<T, A: Allocator> {
    /// No value.
    Empty,
    /// One or two.
    Few(T, Option<T>),
    /// Any number of them.
    Many(Vec<T, A>),
}

impl<T, A: Allocator> ShortList<T, A> {
    /// How many values there are.
    pub(crate) fn len(&self) -> usize
        ensures value { result ≡ length (values self.now) }
        ensures small { result < 2 ^ 63 }
    {
        match self {
            ShortList::Empty => 0,
            ShortList::Few(_, None) => 1,
            ShortList::Few(_, Some(_)) => 2,
            ShortList::Many(list) => list.len(),
        }
    }

    /// The value at a place, where there are so many.
    pub(crate) fn get(&self, place: usize) -> Option<&T>
        ensures { option_map (λ value. value.now) result ≡ slice_get (values self.now) place }
    {
        match self {
            ShortList::Few(first, _) if place == 0 => Some(first),
            ShortList::Few(_, Some(second)) if place == 1 => Some(second),
            ShortList::Many(list) => list.get(place),
            _ => None,
        }
    }
}

impl<T: Drop, A: Allocator> ShortList<T, A> {
    /// No value, with room for `count` of them. An error where there is no memory for it.
    pub(crate) fn with_capacity(alloc: A, count: usize) -> Result<ShortList<T, A>, AllocError>
        ensures { IfOk result (λ list. values list ≡ []) }
    {
        if count <= 2 {
            return Ok(ShortList::Empty);
        }
        Ok(ShortList::Many(Vec::with_capacity(alloc, count)?))
    }

    /// Appends a value. The first two take no memory. A refusal leaves the list as it was and hands the value back.
    pub(crate) fn push(&mut self, alloc: A, value: T) -> Result<(), AllocFailed<T>>
        ensures values { values self.new ≡ (if is_ok result then values self.old ++ value ∷ [] else values self.old) }
        ensures handed_back { IfErr result (λ refused. refused.value ≡ value) }
    {
        match self {
            ShortList::Many(list) => list.push(value),
            ShortList::Empty => {
                *self = ShortList::Few(value, None);
                Ok(())
            }
            _ => self.push_behind(alloc, value),
        }
    }

    // Appends a value behind another one.
    fn push_behind(&mut self, alloc: A, value: T) -> Result<(), AllocFailed<T>>
        ensures values { values self.new ≡ (if is_ok result then values self.old ++ value ∷ [] else values self.old) }
        ensures handed_back { IfErr result (λ refused. refused.value ≡ value) }
    {
        let list = mem::replace(self, ShortList::Empty);
        let (longer, done) = list.with(alloc, value);
        *self = longer;
        done
    }

    // The list with a value behind the others, or as it was.
    fn with(self, alloc: A, value: T) -> (ShortList<T, A>, Result<(), AllocFailed<T>>)
        ensures values { values result.0 ≡ (if is_ok result.1 then values self ++ value ∷ [] else values self) }
        ensures handed_back { IfErr result.1 (λ refused. refused.value ≡ value) }
    {
        match self {
            ShortList::Empty => (ShortList::Few(value, None), Ok(())),
            ShortList::Few(first, second) => match second {
                None => (ShortList::Few(first, Some(value)), Ok(())),
                Some(second) => with_third(alloc, first, second, value),
            },
            ShortList::Many(mut list) => {
                let done = list.push(value);
                (ShortList::Many(list), done)
            }
        }
    }
}

// A list of three values, or the first two and the third handed back.
#[inline(never)]
fn with_third<T: Drop, A: Allocator>(
    alloc: A,
    first: T,
    second: T,
    third: T,
) -> (ShortList<T, A>, Result<(), AllocFailed<T>>)
    ensures values { values result.0 ≡ (if is_ok result.1 then first ∷ second ∷ third ∷ [] else first ∷ second ∷ []) }
    ensures handed_back { IfErr result.1 (λ refused. refused.value ≡ third) }
{
    let Ok(mut list) = Vec::with_capacity(alloc, FIRST_ROOM) else {
        return (
            ShortList::Few(first, Some(second)),
            Err(AllocFailed { value: third }),
        );
    };
    list.push_reserved(first);
    list.push_reserved(second);
    list.push_reserved(third);
    (ShortList::Many(list), Ok(()))
}

impl<T: Clone + Drop, A: Allocator + Clone> Clone for ShortList<T, A> {
    ghost is_clone = { λ source copy. AllZip T.is_clone (values source) (values copy) };

    fn clone(&self) -> Result<ShortList<T, A>, AllocError> {
        match self {
            ShortList::Empty => Ok(ShortList::Empty),
            ShortList::Few(first, second) => {
                let copy = first.clone()?;
                Ok(ShortList::Few(copy, second.clone()?))
            }
            ShortList::Many(list) => Ok(ShortList::Many(list.clone()?)),
        }
    }
}
