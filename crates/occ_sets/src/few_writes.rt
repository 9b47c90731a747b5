//! A few writes of one transaction in a list, which is searched from its beginning.
ghost use Rattle.std.specs.Prelude.{◌≡◌, not, is_some};
ghost use Rattle.std.specs.Option.{option_copied, option_map};
ghost use Rattle.occ_types.specs.PlainData.{object_of, question_of};
ghost use Rattle.occ_types.specs.Question.{asks};
ghost use Rattle.occ_model.specs.State.{meets_question};
ghost use Rattle.occ_model.specs.Overlay.{own};
ghost use Rattle.occ_sets.specs.PlainSets.{writes_of};
ghost use Rattle.occ_sets.specs.Sets.{place_in};
ghost use Rattle.occ_sets.specs.ShortList.{values};

use crate::own_writes::Write;
use crate::short_list::ShortList;
use occ_types::{Object, Question, Row};
use std::alloc::Allocator;

/// The place of the write of an object, or none where there is none.
pub(crate) fn place_of<A: Allocator>(
    writes: &ShortList<Write<A>, A>,
    object: &Object<A>,
) -> Option<usize>
    ensures { result ≡ place_in (writes_of (values writes.now)) (object_of object.now) }
{
    match writes {
        ShortList::Few(first, _) if *object == first.0 => Some(0),
        ShortList::Few(_, Some(second)) if *object == second.0 => Some(1),
        ShortList::Many(list) => place_among(list.as_slice(), object),
        _ => None,
    }
}

// The place of the write of an object among others.
fn place_among<A: Allocator>(writes: &[Write<A>], object: &Object<A>) -> Option<usize>
    ensures { result ≡ place_in (writes_of writes.now) (object_of object.now) }
{
    writes.iter().position(|write| *object == write.0)
}

/// The own write of an object: none where there is none, and else its new row, or none where it is deleted.
pub(crate) fn own_in<'a, A: Allocator>(
    writes: &'a ShortList<Write<A>, A>,
    object: &Object<A>,
) -> Option<Option<&'a Row<A>>>
    ensures { option_map option_copied result ≡ own (writes_of (values writes.now)) (object_of object.now) }
{
    match writes {
        ShortList::Few(first, _) if *object == first.0 => Some(first.1.as_ref()),
        ShortList::Few(_, Some(second)) if *object == second.0 => Some(second.1.as_ref()),
        ShortList::Many(list) => own_among(list.as_slice(), object),
        _ => None,
    }
}

// The own write of an object among others.
fn own_among<'a, A: Allocator>(
    writes: &'a [Write<A>],
    object: &Object<A>,
) -> Option<Option<&'a Row<A>>>
    ensures { option_map option_copied result ≡ own (writes_of writes.now) (object_of object.now) }
{
    match writes.iter().find(|write| *object == write.0) {
        None => None,
        Some(write) => Some(write.1.as_ref()),
    }
}

/// Whether no write is of the object.
pub(crate) fn is_new<A: Allocator>(writes: &ShortList<Write<A>, A>, object: &Object<A>) -> bool
    ensures { result ≡ not (is_some (own (writes_of (values writes.now)) (object_of object.now))) }
{
    own_in(writes, object).is_none()
}

/// Whether some write is of what the question asks for.
pub(crate) fn meets_few<A: Allocator>(
    writes: &ShortList<Write<A>, A>,
    question: &Question<A>,
) -> bool
    ensures { result ≡ meets_question (writes_of (values writes.now)) (question_of question.now) }
{
    match writes {
        ShortList::Empty => false,
        ShortList::Few(first, None) => is_asked_for(first, question),
        ShortList::Few(first, Some(second)) => {
            is_asked_for(first, question) || is_asked_for(second, question)
        }
        ShortList::Many(list) => meets_some(list.as_slice(), question),
    }
}

// Whether some of these writes is of what the question asks for.
fn meets_some<A: Allocator>(writes: &[Write<A>], question: &Question<A>) -> bool
    ensures { result ≡ meets_question (writes_of writes.now) (question_of question.now) }
{
    writes.iter().any(|write| is_asked_for(write, question))
}

// Whether a write is of what the question asks for.
fn is_asked_for<A: Allocator>(write: &Write<A>, question: &Question<A>) -> bool
    ensures { result ≡ asks (question_of question.now) (object_of write.now.0) }
{
    question.asks(write.0.table, &write.0.key)
}
