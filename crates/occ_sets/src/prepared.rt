//! What a private copy takes before a range is asked for, so that its own writes go over the answer without memory.
ghost use Rattle.std.specs.Prelude.{◌≡◌, ◌+◌, ◌≤◌, ◌<◌, ◌++◌, [], Some, slice_get, length, vec_len, vec_capacity, IfOk, OnOk, IsOkUnless};
ghost use Rattle.std.specs.BTreeMap.{btree_map_len};
ghost use Rattle.std.specs.List.Sorted.{IsStrictlySortedBy};
ghost use Rattle.std.specs.Map.{keys_of};
ghost use Rattle.std.specs.Option.{option_copied};
ghost use Rattle.std.specs.Ordering.{on};
ghost use Rattle.occ_types.specs.declared.fault.Fault.TheVariants.{Memory};
ghost use Rattle.occ_types.specs.declared.limits.TheConstants as limit;
ghost use Rattle.occ_types.specs.Key.{key_cmp};
ghost use Rattle.occ_types.specs.PlainData.{key_of, question_of};
ghost use Rattle.occ_model.specs.State.{State, Write, Rows, answer, apply};
ghost use Rattle.occ_sets.specs.Overlays.{rows_over};
ghost use Rattle.occ_sets.specs.Handles.{kept};
ghost use Rattle.occ_sets.specs.Merging.{LaysFirst, LaysRow, Led, LedFurther, first_to, merged, rows_put};
ghost use Rattle.occ_sets.specs.PlainSets.{rows_of};

use crate::copies::PrivateCopy;
use crate::handles::Handle;
use crate::range_rows::RangeRows;
use occ_types::limits::MAX_ANSWER_ROWS;
use occ_types::{Fault, Key, Question, Row};
use std::alloc::{AllocError, Allocator};
use std::cmp::Ordering;
use std::collections::BTreeMap;
use std::marker::Model;

/// The own writes of a transaction, made ready to go over the answer to one question. Clauses see the question and all of the writes.
#[derive(Drop)]
pub struct Prepared<'a, A: Allocator> {
    question: &'a Question<A>,
    writes: &'a Handle<A>,
    own: BTreeMap<Key<A>, Option<Row<A>>, A>,
    room: Box<Vec<(Key<A>, Row<A>), A>, A>,
}

impl<'a, A: Allocator> Model for Prepared<'a, A> {
    ghost use Rattle.std.specs.Prelude.{◌≡◌, ◌+◌, ◌≤◌, [], vec_len, vec_capacity};
    ghost use Rattle.std.specs.BTreeMap.{btree_map_len};
    ghost use Rattle.occ_types.specs.declared.limits.TheConstants.{MAX_ANSWER_ROWS};
    ghost use Rattle.occ_types.specs.PlainData.{question_of};
    ghost use Rattle.occ_model.specs.State.{State, apply};
    ghost use Rattle.occ_sets.specs.Overlays.{Overlaid};
    ghost use Rattle.occ_sets.specs.Handles.{kept};
    ghost use Rattle.occ_sets.specs.Merging.{Led};

    ghost Value = { Overlaid };

    ghost view = { λ p. record { question = question_of p.question.now; writes = kept p.writes.now } };

    // The own writes do among the keys that are asked for what all writes do, and there is room for them and for the most rows of an answer.
    ghost invariant = { λ p. ((state : State) → Led (question_of p.question.now) p.own.entries state (apply state (kept p.writes.now)))
        × (p.room.value.items ≡ []) × (vec_len p.room.value ≡ 0) × (MAX_ANSWER_ROWS + btree_map_len p.own ≤ vec_capacity p.room.value) };
}

impl<A: Allocator + Copy> PrivateCopy<A> {
    /// Takes what it needs to lay the own writes over the answer to a question: copies of those that are asked for, and room for them and for the most rows that an answer may have. Refused with `Memory` where there is none.
    pub fn prepare<'a>(&'a self, question: &'a Question<A>) -> Result<Prepared<'a, A>, Fault>
        ensures prepared { IfOk result (λ prepared. prepared ≡ record { question = question_of question.now; writes = self.now.writes }) }
        ensures memory { IsOkUnless result Memory }
    {
        let writes = self.writes();
        let alloc = self.allocator();
        let own = own_asked(alloc, question, writes)?;
        let room = Vec::with_capacity(alloc, MAX_ANSWER_ROWS + own.len())?;
        let room = Box::new(alloc, room)?;
        Ok(Prepared {
            question,
            writes,
            own,
            room,
        })
    }
}

impl<'a, A: Allocator> Prepared<'a, A> {
    /// The rows that a table answers to the question, with the own writes over them. It takes no memory.
    pub fn over(self, rows: Vec<(Key<A>, Row<A>), A>) -> RangeRows<A>
        requires answered { (state : State) × (answer self.question state ≡ Rows (rows_of rows.items)) }
        requires few { length rows.items ≤ limit.MAX_ANSWER_ROWS }
        ensures { result ≡ rows_over self.entry.question self.entry.writes (rows_of rows.items) }
    {
        RangeRows::own(self.laid(rows))
    }

    /// The same, as rows that the caller alone owns.
    pub fn over_apart(self, rows: Vec<(Key<A>, Row<A>), A>) -> Vec<(Key<A>, Row<A>), A>
        requires answered { (state : State) × (answer self.question state ≡ Rows (rows_of rows.items)) }
        requires few { length rows.items ≤ limit.MAX_ANSWER_ROWS }
        ensures { rows_of result.items ≡ rows_over self.entry.question self.entry.writes (rows_of rows.items) }
    {
        Box::into_inner(self.laid(rows))
    }

    // The same, in the room that was taken for them.
    fn laid(self, rows: Vec<(Key<A>, Row<A>), A>) -> Box<Vec<(Key<A>, Row<A>), A>, A>
        requires answered { (state : State) × (answer self.question state ≡ Rows (rows_of rows.items)) }
        requires few { length rows.items ≤ limit.MAX_ANSWER_ROWS }
        ensures { rows_of result.value.items ≡ rows_over self.entry.question self.entry.writes (rows_of rows.items) }
    {
        let Prepared { own, mut room, .. } = self;
        merge(own, &mut room, rows);
        room
    }
}

// Lays rows, with the own writes over them, into a room that is large enough.
pub(crate) fn merge<A: Allocator>(
    mut own: BTreeMap<Key<A>, Option<Row<A>>, A>,
    room: &mut Vec<(Key<A>, Row<A>), A>,
    rows: Vec<(Key<A>, Row<A>), A>,
)
    requires empty { (room.old.items ≡ []) × (vec_len room.old ≡ 0) }
    requires enough { length rows.items + btree_map_len own ≤ vec_capacity room.old }
    ensures rows { room.new.items ≡ merged (on key_of key_cmp) rows.items own.entries }
    ensures ordered { IsStrictlySortedBy (on key_of key_cmp) (keys_of own.entries) }
{
    // Its clause says that the keys are in order.
    let _len = own.len();
    for (key, row) in rows {
        lay_row(&mut own, room, key, row);
    }
    lay_rest(&mut own, room);
}

// Lays the own writes up to a row, and then the row, where it has no own write.
fn lay_row<A: Allocator>(
    own: &mut BTreeMap<Key<A>, Option<Row<A>>, A>,
    room: &mut Vec<(Key<A>, Row<A>), A>,
    key: Key<A>,
    row: Row<A>,
)
    requires room { vec_len room.old + btree_map_len own.old < vec_capacity room.old }
    ensures rows { LaysRow (on key_of key_cmp) key row own.old.entries own.new.entries room.old.items room.new.items }
    ensures capacity { vec_capacity room.new ≡ vec_capacity room.old }
    ensures len { vec_len room.new + btree_map_len own.new ≤ vec_len room.old + btree_map_len own.old + 1 }
{
    while first_to(own, &key) == Ordering::Less {
        lay_first(own, room);
    }
    match first_to(own, &key) {
        Ordering::Equal => lay_first(own, room),
        _ => room.push_reserved((key, row)),
    }
}

// Lays the own writes that are left.
fn lay_rest<A: Allocator>(
    own: &mut BTreeMap<Key<A>, Option<Row<A>>, A>,
    room: &mut Vec<(Key<A>, Row<A>), A>,
)
    requires room { vec_len room.old + btree_map_len own.old ≤ vec_capacity room.old }
    ensures { room.new.items ≡ room.old.items ++ rows_put own.old.entries }
{
    while own.len() != 0 {
        lay_first(own, room);
    }
}

// Lays the first own write: its row, or nothing where it is a deletion.
fn lay_first<A: Allocator>(
    own: &mut BTreeMap<Key<A>, Option<Row<A>>, A>,
    room: &mut Vec<(Key<A>, Row<A>), A>,
)
    requires room { vec_len room.old + btree_map_len own.old ≤ vec_capacity room.old }
    ensures rows { LaysFirst own.old.entries own.new.entries room.old.items room.new.items }
    ensures capacity { vec_capacity room.new ≡ vec_capacity room.old }
    ensures len { vec_len room.new + btree_map_len own.new ≤ vec_len room.old + btree_map_len own.old }
{
    let Some((key, row)) = own.pop_first() else {
        return;
    };
    if let Some(row) = row {
        room.push_reserved((key, row));
    }
}

// How the first own write stands to a key; above it where there is none.
fn first_to<A: Allocator>(own: &BTreeMap<Key<A>, Option<Row<A>>, A>, key: &Key<A>) -> Ordering
    ensures { result ≡ first_to (on key_of key_cmp) own.now.entries key.now }
{
    match own.first_key_value() {
        None => Ordering::Greater,
        Some((first, _)) => first.cmp(key),
    }
}

// The own writes that are asked for, the last one of each key.
pub(crate) fn own_asked<A: Allocator + Copy>(
    alloc: A,
    question: &Question<A>,
    writes: &Handle<A>,
) -> Result<BTreeMap<Key<A>, Option<Row<A>>, A>, AllocError>
    ensures { IfOk result (λ own. (state : State) → Led (question_of question.now) own.entries state (apply state (kept writes.now))) }
{
    let mut own = BTreeMap::new(alloc);
    for place in 0..writes.len() {
        note_write(&mut own, question, writes, place)?;
    }
    Ok(own)
}

// Notes the write at a place, where it is asked for.
fn note_write<A: Allocator + Copy>(
    own: &mut BTreeMap<Key<A>, Option<Row<A>>, A>,
    question: &Question<A>,
    writes: &Handle<A>,
    place: usize,
) -> Result<(), AllocError>
    ensures { OnOk result ((write : Write) → slice_get (kept writes.now) place ≡ Some write → LedFurther (question_of question.now) own.old.entries own.new.entries write) }
{
    let Some((object, row)) = writes.write_at(place) else {
        return Ok(());
    };
    if question.asks(object.table, &object.key) {
        own.insert(object.key.clone()?, copied(row)?)?;
    }
    Ok(())
}

// A copy of the row of a write.
fn copied<A: Allocator + Clone>(row: Option<&Row<A>>) -> Result<Option<Row<A>>, AllocError>
    ensures { IfOk result (λ copy. copy ≡ option_copied row.entry) }
{
    match row {
        None => Ok(None),
        Some(row) => Ok(Some(row.clone()?)),
    }
}
