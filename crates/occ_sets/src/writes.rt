//! The write set of a transaction.
ghost use Rattle.std.specs.Prelude.{◌≡◌, ◌==◌, ◌<◌, ◌^◌, [], false, cond, length, slice_get, is_some, IfErr, IfSome, IfOk, OnOk, OnErr, MatchResult, IsOkUnless};
ghost use Rattle.std.specs.Option.{option_copied, option_map};
ghost use Rattle.occ_types.specs.declared.fault.Fault.TheVariants.{SetFull, Memory};
ghost use Rattle.occ_types.specs.PlainData.{object_of, key_of, question_of};
ghost use Rattle.occ_model.specs.State.{State, Rows, answer, meets_question};
ghost use Rattle.occ_model.specs.Overlay.{set, own};
ghost use Rattle.occ_sets.specs.Overlays.{rows_over};
ghost use Rattle.occ_sets.specs.PlainSets.{rows_of};
ghost use Rattle.occ_sets.specs.Sets.{WritesOnce, is_full_for};
ghost use Rattle.occ_sets.specs.Handles.{kept, IsOwn};

use crate::handles::Handle;
use crate::own_writes::{OwnWrites, Write};
use crate::prepared::{merge, own_asked};
use crate::range_rows::RangeRows;
use occ_types::{Fault, Key, Object, Question, Refused, Row};
use std::alloc::{AllocError, Allocator};
use std::marker::Model;
use std::sync::Arc;

/// What a transaction writes: each object with its new row, or with none where it is deleted, in the order of the first writes. One owner has it by itself, or several share it, also across threads. Clauses see the list of the plain writes.
#[derive(Drop)]
#[derive_where(Debug)]
pub struct WriteSet<A: Allocator> {
    #[derive_where(skip)]
    alloc: A,
    handle: Handle<A>,
}

impl<A: Allocator> Model for WriteSet<A> {
    ghost use Rattle.std.specs.Prelude.{List};
    ghost use Rattle.occ_model.specs.State.{Write};

    ghost Value = { List Write };

    ghost use Rattle.occ_sets.specs.Handles.{kept, IsOwn};

    ghost view = { λ s. kept s.handle };
}

impl<A: Allocator + Copy> WriteSet<A> {
    /// A set without a write, which takes no memory.
    pub fn new(alloc: A) -> WriteSet<A>
        ensures { result ≡ [] }
    {
        WriteSet {
            alloc,
            handle: Handle::Empty,
        }
    }

    /// A set without a write, with room for `count` of them. Refused with `Memory` where there is none for it.
    pub fn with_capacity(alloc: A, count: usize) -> Result<WriteSet<A>, Fault>
        ensures empty { IfOk result (λ writes. writes ≡ []) }
        ensures memory { IsOkUnless result Memory }
    {
        let writes = OwnWrites::with_capacity(alloc, count)?;
        let writes = Arc::new(alloc, writes)?;
        Ok(WriteSet {
            alloc,
            handle: Handle::Shared(writes),
        })
    }
}

impl<A: Allocator> WriteSet<A> {
    // The set of some writes, which takes no memory.
    pub(crate) fn from_handle(alloc: A, handle: Handle<A>) -> WriteSet<A>
        ensures { result ≡ kept handle }
    {
        WriteSet { alloc, handle }
    }

    // The writes.
    pub(crate) fn handle(&self) -> &Handle<A>
        ensures { kept result.now ≡ self.now }
    {
        &self.handle
    }

    // The writes for one owner alone: themselves where nobody else has them, and else a copy. The set is handed back where there is no memory for that.
    pub(crate) fn into_own(self) -> Result<(A, Handle<A>), WriteSet<A>>
    where
        A: Copy,
        ensures ok { IfOk result (λ own. (kept own.1 ≡ self) × IsOwn own.1) }
        ensures handed_back { IfErr result (λ set. set ≡ self) }
    {
        let WriteSet { alloc, handle } = self;
        match handle.into_own(alloc) {
            Ok(handle) => Ok((alloc, handle)),
            Err(handle) => Err(WriteSet { alloc, handle }),
        }
    }

    /// How many objects are written.
    pub fn len(&self) -> usize
        ensures value { result ≡ length self.now }
        ensures once { WritesOnce self.now }
    {
        self.handle.len()
    }

    /// Whether no object is written.
    pub fn is_empty(&self) -> bool
        ensures { result ≡ (length self.now == 0) }
    {
        self.len() == 0
    }

    /// The own write of an object: none where there is none, and else its new row, or none where it is deleted.
    pub fn own(&self, object: &Object<A>) -> Option<Option<&Row<A>>>
        ensures { option_map option_copied result ≡ own self.now (object_of object.now) }
    {
        self.handle.own(object)
    }

    /// Whether an object is written.
    pub fn writes(&self, object: &Object<A>) -> bool
        ensures { result ≡ is_some (own self.now (object_of object.now)) }
    {
        self.handle.writes(object)
    }

    /// The write at a place, in the order of the first writes.
    pub fn write_at(&self, place: usize) -> Option<(&Object<A>, Option<&Row<A>>)>
        ensures value { option_map (λ w. (object_of w.0.now, option_copied w.1)) result ≡ slice_get self.now place }
        ensures small { IfSome result (λ _. place < 2 ^ 63) }
    {
        self.handle.write_at(place)
    }

    /// Whether the set writes what the question asks for: one look-up for a single key, one pass for a range.
    pub fn meets(&self, question: &Question<A>) -> bool
        ensures { result ≡ meets_question self.now (question_of question.now) }
    {
        self.handle.meets(question)
    }
}

impl<A: Allocator + Copy> WriteSet<A> {
    /// The rows that a table answers to a question, with the writes of the set over them, in the order of the keys: what a transaction with these writes sees. There may be any number of rows. Refused with `Memory`, and the rows handed back, where there is none for the writes that are asked for.
    pub fn over(
        &self,
        question: &Question<A>,
        rows: Vec<(Key<A>, Row<A>), A>,
    ) -> Result<Vec<(Key<A>, Row<A>), A>, Refused<Vec<(Key<A>, Row<A>), A>>>
        requires answered { (state : State) × (answer (question_of question.now) state ≡ Rows (rows_of rows.items)) }
        ensures seen { IfOk result (λ seen. rows_of seen.items ≡ rows_over (question_of question.now) self.now (rows_of rows.items)) }
        ensures handed_back { IfErr result (λ refused. (refused.value ≡ rows) × (refused.fault ≡ Memory)) }
    {
        let alloc = self.alloc;
        let Ok(own) = own_asked(alloc, question, &self.handle) else {
            return Err(no_memory(rows));
        };
        if own.len() == 0 {
            return Ok(rows);
        }
        let Ok(mut room) = Vec::with_capacity(alloc, rows.len() + own.len()) else {
            return Err(no_memory(rows));
        };
        merge(own, &mut room, rows);
        Ok(room)
    }

    /// What `over` answers, of rows that several may share: these rows, where the set writes none of those that are asked for, and else copies with the writes over them. Refused with `Memory` where there is none for the copies.
    pub fn over_shared(
        &self,
        question: &Question<A>,
        rows: &RangeRows<A>,
    ) -> Result<RangeRows<A>, Fault>
        requires answered { (state : State) × (answer (question_of question.now) state ≡ Rows rows.now) }
        ensures seen { IfOk result (λ seen. seen ≡ rows_over (question_of question.now) self.now rows.now) }
        ensures memory { IsOkUnless result Memory }
    {
        if !self.meets(question) {
            let untouched = rows.clone()?;
            return Ok(untouched);
        }
        let seen = self.over(question, rows.to_vec()?)?;
        let shared = RangeRows::shared(seen)?;
        Ok(shared)
    }

    /// From now on a clone of the set is one more owner of it, and copies nothing, and ranges are searched for by halves where there are many writes. Refused with `Memory` where there is none for that; it takes none where neither a private copy gave the few writes nor there are many of them. The set has its writes either way.
    pub fn share(&mut self) -> Result<(), Fault>
        ensures kept { self.new ≡ self.old }
        ensures memory { IsOkUnless result Memory }
    {
        self.handle.share(self.alloc)?;
        Ok(())
    }

    /// Writes an object of a table, or deletes it where `row` is none. A new object goes last; one that is there keeps its place and takes the new row. What others share is copied first.
    ///
    /// A new object is refused with `SetFull` where there are 256 writes or more. Any write is refused with `Memory` where the set cannot grow or be copied. A refusal leaves the set as it was and hands the write back.
    pub fn set(
        &mut self,
        table: usize,
        key: Key<A>,
        row: Option<Row<A>>,
    ) -> Result<(), Refused<Write<A>>>
        ensures ok { OnOk result (self.new ≡ set self.old (table, key_of key) row) }
        ensures err { OnErr result (self.new ≡ self.old) }
        ensures handed_back { IfErr result (λ refused. refused.value ≡ (record { table = table; key = key }, row)) }

        // `Memory` comes only where there is room for the write.
        ensures fault { MatchResult result
            (λ _. is_full_for self.old (table, key_of key) ≡ false)
            (λ refused. refused.fault ≡ cond (is_full_for self.old (table, key_of key)) SetFull Memory) }
    {
        let object = Object { table, key };
        if self.handle.is_full_for(&object) {
            return Err(Refused {
                value: (object, row),
                fault: Fault::SetFull,
            });
        }
        let Object { table, key } = object;
        self.insert(table, key, row)
    }

    /// Writes an object of a table as `set` does, however many writes there are: for what a text tells of a transaction, which no limit of the store's own sets bounds. A transaction itself writes by `set`, or by its private copy.
    ///
    /// Refused with `Memory` alone, where the set cannot grow or be copied. That leaves the set as it was and hands the write back.
    pub fn insert(
        &mut self,
        table: usize,
        key: Key<A>,
        row: Option<Row<A>>,
    ) -> Result<(), Refused<Write<A>>>
        ensures ok { OnOk result (self.new ≡ set self.old (table, key_of key) row) }
        ensures err { OnErr result (self.new ≡ self.old) }
        ensures handed_back { IfErr result (λ refused. refused.value ≡ (record { table = table; key = key }, row)) }
        ensures memory { IfErr result (λ refused. refused.fault ≡ Memory) }
    {
        self.handle.insert(self.alloc, (Object { table, key }, row))
    }
}

// There is no memory for what was handed in.
fn no_memory<T>(value: T) -> Refused<T>
    ensures { result ≡ record { value = value; fault = Memory } }
{
    Refused {
        value,
        fault: Fault::Memory,
    }
}

impl<A: Allocator + Clone> Clone for WriteSet<A> {
    ghost is_clone = { λ source copy. copy ≡ source };

    // One more owner of a set that is shared, and else a copy.
    fn clone(&self) -> Result<WriteSet<A>, AllocError> {
        Ok(WriteSet {
            alloc: self.alloc.clone()?,
            handle: self.handle.clone()?,
        })
    }
}
