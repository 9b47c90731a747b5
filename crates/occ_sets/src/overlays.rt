//! What a private copy answers: the table's answer with the own writes over it.
ghost use Rattle.std.specs.Prelude.{◌≡◌, Some, slice_get, OnOk, IfOk, IfErr};
ghost use Rattle.std.specs.Map.{keys_of};
ghost use Rattle.std.specs.List.Sorted.{IsStrictlySortedBy};
ghost use Rattle.std.specs.Ordering.{on};
ghost use Rattle.occ_types.specs.Key.{key_cmp};
ghost use Rattle.occ_types.specs.PlainData.{key_of, object_of, question_of, table_asked};
ghost use Rattle.occ_model.specs.Overlay as model;
ghost use Rattle.occ_model.specs.Overlay.{own};
ghost use Rattle.occ_model.specs.State.{Write, Rows};
ghost use Rattle.occ_sets.specs.Handles.{kept};
ghost use Rattle.occ_sets.specs.Overlays.{Agrees, FollowsWrite, FollowsWrites, over_row, rows_over};
ghost use Rattle.occ_sets.specs.PlainSets.{answer_of, rows_of};
ghost use Rattle.occ_sets.specs.declared.reads.Answer.TheVariants as answers;
ghost use Rattle.occ_types.specs.declared.fault.Fault.TheVariants.{Memory};

use crate::handles::Handle;
use crate::range_rows::RangeRows;
use crate::reads::Answer;
use occ_types::{Fault, Key, Object, Question, Refused, Row};
use std::alloc::{AllocError, Allocator};
use std::collections::BTreeMap;

// The answer for a single key, from the own write where there is one. A refusal hands back what was given.
pub(crate) fn over_row<A: Allocator + Clone>(
    writes: &Handle<A>,
    object: &Object<A>,
    given: Answer<A>,
) -> Result<Answer<A>, Refused<Answer<A>>>
    ensures seen { IfOk result (λ seen. answer_of seen ≡ over_row (own (kept writes.now) (object_of object.now)) (answer_of given)) }
    ensures refused { IfErr result (λ refused. refused ≡ record { value = given; fault = Memory }) }
{
    match writes.own(object) {
        None => Ok(given),
        Some(None) => Ok(Answer::Found(None)),
        Some(Some(row)) => match row.clone() {
            Ok(row) => Ok(Answer::Found(Some(row))),
            Err(_refused) => Err(Refused {
                value: given,
                fault: Fault::Memory,
            }),
        },
    }
}

// The answer for a range, with the own writes over its rows. A refusal hands back the rows that were given.
pub(crate) fn over_range<A: Allocator + Copy>(
    alloc: A,
    writes: &Handle<A>,
    question: &Question<A>,
    rows: RangeRows<A>,
) -> Result<Answer<A>, Refused<Answer<A>>>
    ensures seen { IfOk result (λ seen. answer_of seen ≡ Rows (rows_over (question_of question.now) (kept writes.now) rows)) }
    ensures refused { IfErr result (λ refused. refused ≡ record { value = answers.Rows rows; fault = Memory }) }
{
    match over_rows(alloc, writes, question, &rows) {
        Ok(seen) => Ok(Answer::Rows(seen)),
        Err(_refused) => Err(Refused {
            value: Answer::Rows(rows),
            fault: Fault::Memory,
        }),
    }
}

// Copies of the rows of a range, with the own writes over them.
fn over_rows<A: Allocator + Copy>(
    alloc: A,
    writes: &Handle<A>,
    question: &Question<A>,
    rows: &RangeRows<A>,
) -> Result<RangeRows<A>, Fault>
    ensures { IfOk result (λ seen. seen ≡ rows_over (question_of question.now) (kept writes.now) rows.now) }
{
    let mut seen = rows_asked(alloc, question, rows.to_vec()?)?;
    write_all(&mut seen, question, writes)?;
    let laid = in_order(alloc, seen)?;
    let rows = RangeRows::shared(laid)?;
    Ok(rows)
}

// Of the given rows, those that are asked for, by their keys. The first of a key stands, so they come from the last on.
fn rows_asked<A: Allocator + Copy>(
    alloc: A,
    question: &Question<A>,
    mut rows: Vec<(Key<A>, Row<A>), A>,
) -> Result<BTreeMap<Key<A>, Row<A>, A>, AllocError>
    ensures { IfOk result (λ seen. Agrees (question_of question.now) seen.entries (model.rows_of (table_asked (question_of question.now)) (rows_of rows.items))) }
{
    let mut seen = BTreeMap::new(alloc);
    while let Some((key, row)) = rows.pop() {
        put(&mut seen, question, key, row)?;
    }
    Ok(seen)
}

// Puts a row of the table that is asked, where its key is asked for.
fn put<A: Allocator + Copy>(
    seen: &mut BTreeMap<Key<A>, Row<A>, A>,
    question: &Question<A>,
    key: Key<A>,
    row: Row<A>,
) -> Result<(), AllocError>
    ensures { OnOk result (FollowsWrite (question_of question.now) seen.old.entries seen.new.entries ((table_asked (question_of question.now), key_of key), Some row)) }
{
    if question.asks(question.table(), &key) {
        seen.insert(key, row)?;
    }
    Ok(())
}

// Does the own writes that are asked for.
fn write_all<A: Allocator + Copy>(
    seen: &mut BTreeMap<Key<A>, Row<A>, A>,
    question: &Question<A>,
    writes: &Handle<A>,
) -> Result<(), AllocError>
    ensures { OnOk result (FollowsWrites (question_of question.now) seen.old.entries seen.new.entries (kept writes.now)) }
{
    for place in 0..writes.len() {
        write(seen, question, writes, place)?;
    }
    Ok(())
}

// Does the write at a place, where it is asked for.
fn write<A: Allocator + Copy>(
    seen: &mut BTreeMap<Key<A>, Row<A>, A>,
    question: &Question<A>,
    writes: &Handle<A>,
    place: usize,
) -> Result<(), AllocError>
    ensures { OnOk result ((write : Write) → slice_get (kept writes.now) place ≡ Some write → FollowsWrite (question_of question.now) seen.old.entries seen.new.entries write) }
{
    let Some((object, row)) = writes.write_at(place) else {
        return Ok(());
    };
    if !question.asks(object.table, &object.key) {
        return Ok(());
    }
    match row {
        Some(row) => {
            seen.insert(object.key.clone()?, row.clone()?)?;
        }
        None => {
            seen.remove(&object.key);
        }
    }
    Ok(())
}

// The rows in the order of their keys.
fn in_order<A: Allocator + Copy>(
    alloc: A,
    seen: BTreeMap<Key<A>, Row<A>, A>,
) -> Result<Vec<(Key<A>, Row<A>), A>, AllocError>
    ensures rows { IfOk result (λ rows. rows.items ≡ seen.entries) }
    ensures sorted { OnOk result (IsStrictlySortedBy (on key_of key_cmp) (keys_of seen.entries)) }
{
    let _len = seen.len();
    seen.into_iter().collect(alloc)
}
