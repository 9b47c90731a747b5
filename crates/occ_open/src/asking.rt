//! What an open transaction reads: its own writes, and what the store answers.
ghost use Rattle.std.specs.Prelude.{◌≡◌, is_some, true, slice_get, None, IfOk, IfErr, IsOkUnless};
ghost use Rattle.std.specs.Option.{option_copied, option_map};
ghost use Rattle.std.specs.Ordering.{eq_by_cmp};
ghost use Rattle.occ_types.specs.Object.{object_cmp};
ghost use Rattle.occ_types.specs.PlainData.{key_of, end_of, object_of, question_of};
ghost use Rattle.occ_types.specs.Question.{One, Span};
ghost use Rattle.occ_types.specs.Schema.{check_question};
ghost use Rattle.occ_types.specs.declared.fault.Fault.TheVariants as faults;
ghost use Rattle.occ_model.specs.Event.{Read};
ghost use Rattle.occ_model.specs.Step.{Step};
ghost use Rattle.occ_model.specs.Overlay.{own};
ghost use Rattle.occ_open.specs.OwnOne.{own_one};
ghost use Rattle.occ_open.specs.Replies.{reading, scanning, copying};
ghost use Rattle.occ_open.specs.Transactions.{CopyGets, CopyGetsBy, CopyScans, CopyScansBy, CopyWantsOwn, CopyWantsRange, IsSpan, OrStarves, OrStarvesBy};

use crate::readable::Readable;
use occ_sets::{PrivateCopy, RangeRows};
use occ_types::{Fault, Key, Object, Question, Row};
use std::alloc::{AllocError, Allocator};

/// The own row under a key, and else what the store answers.
pub(crate) fn get<A: Allocator + Copy, S: Readable<A>>(
    copy: &PrivateCopy<A>,
    store: &mut S,
    session: usize,
    table: usize,
    key: &Key<A>,
) -> Result<Option<Row<A>>, Fault>
    ensures step { OrStarves (CopyWantsOwn (S.world store.old).settings.schema (table, key_of key.now) copy.now) (S.world store.old) (reading result) (S.world store.new)
        (CopyGets (S.world store.old) (S.reader store.old session) (table, key_of key.now) copy.now (reading result) (S.world store.new)) }
    ensures moves { OrStarvesBy (CopyWantsOwn (S.world store.old).settings.schema (table, key_of key.now) copy.now) (store.new ≡ store.old) (reading result)
        (CopyGetsBy (S.world store.old).settings.schema (store.new ≡ store.old) (λ event reply. S.moves store.old event reply store.new) (S.reader store.old session) (table, key_of key.now) copy.now (reading result)) }
{
    store.schema().check_key(table, key)?;
    match own_under(copy, table, key) {
        Some(row) => own_row(row),
        None => read(copy, store, session, table, key),
    }
}

// The own write under a key: none where there is none, and else its new row, or none where it is deleted. It is looked up by a copy of
// the key. Where a text in the key can have no more owners, all writes are gone over.
fn own_under<'a, A: Allocator>(
    copy: &'a PrivateCopy<A>,
    table: usize,
    key: &Key<A>,
) -> Option<Option<&'a Row<A>>>
    ensures { option_map option_copied result ≡ own copy.now.writes (table, key_of key.now) }
{
    if copy.is_empty() {
        return None;
    }
    let Ok(key) = key.clone() else {
        return own_among(copy, table, key);
    };
    let object = Object { table, key };
    copy.own(&object)
}

// The same, by going over all writes.
fn own_among<'a, A: Allocator>(
    copy: &'a PrivateCopy<A>,
    table: usize,
    key: &Key<A>,
) -> Option<Option<&'a Row<A>>>
    ensures { option_map option_copied result ≡ own copy.now.writes (table, key_of key.now) }
{
    for place in 0..copy.len() {
        if let Some(row) = own_at(copy, table, key, place) {
            return Some(row);
        }
    }
    None
}

// The same, where it is the write at a place.
fn own_at<'a, A: Allocator>(
    copy: &'a PrivateCopy<A>,
    table: usize,
    key: &Key<A>,
    place: usize,
) -> Option<Option<&'a Row<A>>>
    ensures { option_map option_copied result ≡ own_one (slice_get copy.now.writes place) (table, key_of key.now) }
{
    match copy.write_at(place) {
        Some((object, row)) if is_under(object, table, key) => Some(row),
        _ => None,
    }
}

// Whether an object has this table and key.
#[tactic(auto, using(occ_types::proofs::Asked::objects_tied))]
fn is_under<A: Allocator>(object: &Object<A>, table: usize, key: &Key<A>) -> bool
    ensures { result ≡ eq_by_cmp object_cmp (table, key_of key.now) (object_of object.now) }
{
    table == object.table && *key == object.key
}

// A copy of an own row, where there is one.
fn own_row<A: Allocator + Clone>(row: Option<&Row<A>>) -> Result<Option<Row<A>>, Fault>
    ensures row { IfOk result (λ copy. copy ≡ option_copied row.entry) }
    ensures memory { IfErr result (λ fault. (fault ≡ faults.Memory) × (is_some (option_copied row.entry) ≡ true)) }
{
    match row {
        None => Ok(None),
        Some(row) => match row.clone() {
            Ok(row) => Ok(Some(row)),
            Err(AllocError) => Err(Fault::Memory),
        },
    }
}

// What the store answers for one key.
fn read<A: Allocator + Copy, S: Readable<A>>(
    copy: &PrivateCopy<A>,
    store: &mut S,
    session: usize,
    table: usize,
    key: &Key<A>,
) -> Result<Option<Row<A>>, Fault>
    ensures step { Step (S.world store.old) (Read (S.reader store.old session) copy.now.number copy.now.start (One table (key_of key.now))) (reading result) (S.world store.new) }
    ensures moves { S.moves store.old (Read (S.reader store.old session) copy.now.number copy.now.start (One table (key_of key.now))) (reading result) store.new }
{
    store.read(session, copy.number(), copy.start(), table, key)
}

/// The rows of a range that the store answers, with the own writes over them. All memory that these need is taken before the store is asked.
pub(crate) fn scan<A: Allocator + Copy, S: Readable<A>>(
    copy: &PrivateCopy<A>,
    store: &mut S,
    session: usize,
    table: usize,
    lower: Option<&Key<A>>,
    upper: Option<&Key<A>>,
) -> Result<RangeRows<A>, Fault>
    ensures step { let question = Span table (end_of (option_copied lower.entry)) (end_of (option_copied upper.entry)) in
        OrStarves (CopyWantsRange (S.world store.old).settings.schema question) (S.world store.old) (scanning result) (S.world store.new)
        (CopyScans (S.world store.old) (S.reader store.old session) question copy.now (scanning result) (S.world store.new)) }
    ensures moves { let question = Span table (end_of (option_copied lower.entry)) (end_of (option_copied upper.entry)) in
        OrStarvesBy (CopyWantsRange (S.world store.old).settings.schema question) (store.new ≡ store.old) (scanning result)
        (CopyScansBy (S.world store.old).settings.schema (store.new ≡ store.old) (λ event reply. S.moves store.old event reply store.new) (S.reader store.old session) question copy.now (scanning result)) }
{
    store.schema().check_range(table, lower, upper)?;
    let question = span(table, lower, upper)?;
    scan_asked(copy, store, session, &question)
}

/// The question for a range, which has copies of its ends.
pub(crate) fn span<A: Allocator>(
    table: usize,
    lower: Option<&Key<A>>,
    upper: Option<&Key<A>>,
) -> Result<Question<A>, Fault>
    ensures value { IfOk result (λ question. question_of question ≡ Span table (end_of (option_copied lower.entry)) (end_of (option_copied upper.entry))) }
    ensures memory { IsOkUnless result faults.Memory }
{
    Ok(Question::Span {
        table,
        lower: lower.cloned()?,
        upper: upper.cloned()?,
    })
}

// The rows of a range that fits the schema.
fn scan_asked<A: Allocator + Copy, S: Readable<A>>(
    copy: &PrivateCopy<A>,
    store: &mut S,
    session: usize,
    question: &Question<A>,
) -> Result<RangeRows<A>, Fault>
    requires range { IsSpan (question_of question.now) }
    requires fits { check_question (S.world store.old).settings.schema (question_of question.now) ≡ None }
    ensures step { OrStarves (CopyWantsRange (S.world store.old).settings.schema (question_of question.now)) (S.world store.old) (scanning result) (S.world store.new)
        (CopyScans (S.world store.old) (S.reader store.old session) (question_of question.now) copy.now (scanning result) (S.world store.new)) }
    ensures moves { OrStarvesBy (CopyWantsRange (S.world store.old).settings.schema (question_of question.now)) (store.new ≡ store.old) (scanning result)
        (CopyScansBy (S.world store.old).settings.schema (store.new ≡ store.old) (λ event reply. S.moves store.old event reply store.new) (S.reader store.old session) (question_of question.now) copy.now (scanning result)) }
{
    if copy.meets(question) {
        return scan_over(copy, store, session, question);
    }
    let rows = ask(copy, store, session, question)?;
    Ok(rows)
}

// The same for a range of which something is written.
fn scan_over<A: Allocator + Copy, S: Readable<A>>(
    copy: &PrivateCopy<A>,
    store: &mut S,
    session: usize,
    question: &Question<A>,
) -> Result<RangeRows<A>, Fault>
    requires range { IsSpan (question_of question.now) }
    requires fits { check_question (S.world store.old).settings.schema (question_of question.now) ≡ None }
    ensures step { OrStarves (CopyWantsRange (S.world store.old).settings.schema (question_of question.now)) (S.world store.old) (scanning result) (S.world store.new)
        (CopyScans (S.world store.old) (S.reader store.old session) (question_of question.now) copy.now (scanning result) (S.world store.new)) }
    ensures moves { OrStarvesBy (CopyWantsRange (S.world store.old).settings.schema (question_of question.now)) (store.new ≡ store.old) (scanning result)
        (CopyScansBy (S.world store.old).settings.schema (store.new ≡ store.old) (λ event reply. S.moves store.old event reply store.new) (S.reader store.old session) (question_of question.now) copy.now (scanning result)) }
{
    let prepared = copy.prepare(question)?;
    let rows = ask_apart(copy, store, session, question)?;
    Ok(prepared.over(rows))
}

// What the store answers to a range.
fn ask<A: Allocator + Copy, S: Readable<A>>(
    copy: &PrivateCopy<A>,
    store: &mut S,
    session: usize,
    question: &Question<A>,
) -> Result<RangeRows<A>, Fault>
    requires range { IsSpan (question_of question.now) }
    ensures step { Step (S.world store.old) (Read (S.reader store.old session) copy.now.number copy.now.start (question_of question.now)) (scanning result) (S.world store.new) }
    ensures moves { S.moves store.old (Read (S.reader store.old session) copy.now.number copy.now.start (question_of question.now)) (scanning result) store.new }
{
    match question {
        Question::One(_) => unreachable!(),
        Question::Span {
            table,
            lower,
            upper,
        } => store.scan(
            session,
            copy.number(),
            copy.start(),
            *table,
            lower.as_ref(),
            upper.as_ref(),
        ),
    }
}

/// The same, as copies that the caller alone owns.
pub(crate) fn ask_apart<A: Allocator + Copy, S: Readable<A>>(
    copy: &PrivateCopy<A>,
    store: &mut S,
    session: usize,
    question: &Question<A>,
) -> Result<Vec<(Key<A>, Row<A>), A>, Fault>
    requires range { IsSpan (question_of question.now) }
    ensures step { Step (S.world store.old) (Read (S.reader store.old session) copy.now.number copy.now.start (question_of question.now)) (copying result) (S.world store.new) }
    ensures moves { S.moves store.old (Read (S.reader store.old session) copy.now.number copy.now.start (question_of question.now)) (copying result) store.new }
{
    match question {
        Question::One(_) => unreachable!(),
        Question::Span {
            table,
            lower,
            upper,
        } => {
            let (lower, upper) = (lower.as_ref(), upper.as_ref());
            store.scan_apart(session, copy.number(), copy.start(), *table, lower, upper)
        }
    }
}
