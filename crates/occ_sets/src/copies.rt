//! Private copies.
ghost use Rattle.std.specs.Prelude.{◌≡◌, ◌==◌, ◌<◌, List, [], false, cond, length, slice_get, None, Some, IfOk, IfErr, IfSome, OnOk, OnErr, MatchResult, IsOkUnless};
ghost use Rattle.std.specs.Option.{option_copied, option_map};
ghost use Rattle.occ_types.specs.declared.fault.Fault.TheVariants.{SetFull, Memory};
ghost use Rattle.occ_types.specs.declared.limits.TheConstants as limit;
ghost use Rattle.occ_types.specs.PlainData.{key_of, object_of, question_of};
ghost use Rattle.occ_model.specs.Overlay.{set, own, overlay};
ghost use Rattle.occ_model.specs.State.{State, Rows as SeenRows, answer, meets_question};
ghost use Rattle.occ_types.specs.Key as keys;
ghost use Rattle.occ_types.specs.Row as rows;
ghost use Rattle.occ_sets.specs.Handles.{kept};
ghost use Rattle.occ_sets.specs.Overlays.{rows_over};
ghost use Rattle.occ_sets.specs.PlainSets.{answer_of};
ghost use Rattle.occ_sets.specs.Sets.{IsWriteSet, is_full_for};

use crate::handles::Handle;
use crate::overlays::{over_range, over_row};
use crate::own_writes::Write;
use crate::reads::Answer;
use crate::request_writes::RequestWrites;
use occ_types::{Fault, Key, Object, Question, Refused, Row};
use std::alloc::Allocator;
use std::marker::Model;

/// What a transaction keeps to itself in its read phase: its number, the counter as it began, and its writes so far.
#[derive(Drop)]
#[derive_where(Debug)]
pub struct PrivateCopy<A: Allocator> {
    number: u64,
    start: u64,
    #[derive_where(skip)]
    alloc: A,
    writes: Handle<A>,
}

impl<A: Allocator> Model for PrivateCopy<A> {
    ghost use Rattle.std.specs.Prelude.{◌≤◌, length};
    ghost use Rattle.occ_types.specs.declared.limits.TheConstants.{MAX_WRITES};
    ghost use Rattle.occ_sets.specs.Sets.{Copied};

    ghost Value = { Copied };

    ghost use Rattle.occ_sets.specs.Handles.{kept, IsOwn};

    ghost view = { λ copy. record { number = copy.number; start = copy.start; writes = kept copy.writes } };

    ghost invariant = { λ copy. (length (kept copy.writes) ≤ MAX_WRITES) × IsOwn copy.writes };
}

impl<A: Allocator + Copy> PrivateCopy<A> {
    /// A copy without a write, which takes no memory.
    pub fn new(alloc: A, number: u64, start: u64) -> PrivateCopy<A>
        ensures { result ≡ record { number = number; start = start; writes = [] } }
    {
        PrivateCopy {
            number,
            start,
            alloc,
            writes: Handle::Empty,
        }
    }

    /// The copy that a request was made of, as it was. It takes no memory for writes that were never shared, as those that
    /// `into_request` gave; others are taken out of what their owners share, or copied. Refused with `Memory`, and the writes handed
    /// back, where there is none for that.
    pub fn from_request(
        number: u64,
        start: u64,
        writes: RequestWrites<A>,
    ) -> Result<PrivateCopy<A>, Refused<RequestWrites<A>>>
        ensures same { IfOk result (λ copy. copy ≡ record { number = number; start = start; writes = writes }) }
        ensures handed_back { IfErr result (λ refused. refused.value ≡ writes) }
        ensures memory { IfErr result (λ refused. refused.fault ≡ Memory) }
    {
        match writes.into_own() {
            Ok((alloc, writes)) => Ok(PrivateCopy {
                number,
                start,
                alloc,
                writes,
            }),
            Err(writes) => Err(Refused {
                value: writes,
                fault: Fault::Memory,
            }),
        }
    }

    /// What the transaction sees where the table answers `given`: for a single key its own write where there is one, for a range the given rows with its own writes of the range done. The rows of a range are copied. Refused with `Memory` where there is none, and what was given is handed back then; the copy stays as it is.
    pub fn overlay(
        &self,
        question: &Question<A>,
        given: Answer<A>,
    ) -> Result<Answer<A>, Refused<Answer<A>>>
        ensures seen { IfOk result (λ seen. answer_of seen ≡ overlay (question_of question.now) self.now.writes (answer_of given)) }
        ensures handed_back { IfErr result (λ refused. refused.value ≡ given) }
        ensures memory { IfErr result (λ refused. refused.fault ≡ Memory) }
    {
        match question {
            Question::One(object) => over_row(&self.writes, object, given),
            Question::Span { .. } => match given {
                Answer::Found(row) => Ok(Answer::Found(row)),
                Answer::Rows(rows) => over_range(self.alloc, &self.writes, question, rows),
            },
        }
    }
}

impl<A: Allocator> PrivateCopy<A> {
    /// Whether the transaction has written what the question asks for. A range of which it has written nothing is seen as the table answers it.
    pub fn meets(&self, question: &Question<A>) -> bool
        ensures value { result ≡ meets_question self.now.writes (question_of question.now) }
        ensures untouched { result ≡ false → (state : State) (given : List (keys.Key × rows.Row)) → answer (question_of question.now) state ≡ SeenRows given → rows_over (question_of question.now) self.now.writes given ≡ given }
    {
        self.writes.meets(question)
    }

    /// The number of the transaction.
    pub fn number(&self) -> u64
        ensures { result ≡ self.now.number }
    {
        self.number
    }

    /// The counter as the transaction began.
    pub fn start(&self) -> u64
        ensures { result ≡ self.now.start }
    {
        self.start
    }

    // What takes the memory of the writes.
    pub(crate) fn allocator(&self) -> A
    where
        A: Copy,
    {
        self.alloc
    }

    // The writes so far.
    pub(crate) fn writes(&self) -> &Handle<A>
        ensures { kept result.now ≡ self.now.writes }
    {
        &self.writes
    }

    /// How many objects are written so far.
    pub fn len(&self) -> usize
        ensures value { result ≡ length self.now.writes }
        ensures fits { IsWriteSet self.now.writes }
    {
        self.writes.len()
    }

    /// Whether no object is written so far.
    pub fn is_empty(&self) -> bool
        ensures { result ≡ (length self.now.writes == 0) }
    {
        self.len() == 0
    }

    /// The write at a place, in the order of the first writes.
    pub fn write_at(&self, place: usize) -> Option<(&Object<A>, Option<&Row<A>>)>
        ensures value { option_map (λ w. (object_of w.0.now, option_copied w.1)) result ≡ slice_get self.now.writes place }
        ensures few { IfSome result (λ _. place < limit.MAX_WRITES) }
    {
        self.writes.write_at(place)
    }

    /// The own write of an object: none where there is none, and else its new row, or none where it is deleted.
    pub fn own(&self, object: &Object<A>) -> Option<Option<&Row<A>>>
        ensures { option_map option_copied result ≡ own self.now.writes (object_of object.now) }
    {
        self.writes.own(object)
    }

    /// The number, the start and the writes, for the request to enter. It takes no memory.
    pub fn into_request(self) -> (u64, u64, RequestWrites<A>)
        ensures value { result ≡ (self.number, self.start, self.writes) }
        ensures fits { IsWriteSet self.writes }
    {
        // Its clause says what holds of the writes.
        let _len = self.len();
        let PrivateCopy {
            number,
            start,
            alloc,
            writes,
        } = self;
        (number, start, RequestWrites::from_own(alloc, writes))
    }
}

impl<A: Allocator + Copy> PrivateCopy<A> {
    /// Writes an object of a table. A new object goes last; one that is there keeps its place and takes the new row, which needs no memory and has room always. A new one is refused with `SetFull` where there are 256 writes, and else with `Memory` where the copy cannot grow; both leave the copy as it was and hand the write back.
    pub fn put(&mut self, table: usize, key: Key<A>, row: Row<A>) -> Result<(), Refused<Write<A>>>
        ensures ok { OnOk result (self.new ≡ record self.old { writes = set self.old.writes (table, key_of key) (Some row) }) }
        ensures err { OnErr result (self.new ≡ self.old) }
        ensures handed_back { IfErr result (λ refused. refused.value ≡ (record { table = table; key = key }, Some row)) }

        // `Memory` comes only where there is room for the write, and neither comes to an object that is there.
        ensures fault { MatchResult result
            (λ _. is_full_for self.old.writes (table, key_of key) ≡ false)
            (λ refused. refused.fault ≡ cond (is_full_for self.old.writes (table, key_of key)) SetFull Memory) }
        ensures only_new { OnErr result (own self.old.writes (table, key_of key) ≡ None) }
    {
        let object = Object { table, key };
        self.writes.set_own(self.alloc, (object, Some(row)))
    }

    /// Deletes an object of a table, which is a write also where the table has no such row, and refuses as `put` does.
    pub fn delete(&mut self, table: usize, key: Key<A>) -> Result<(), Refused<Write<A>>>
        ensures ok { OnOk result (self.new ≡ record self.old { writes = set self.old.writes (table, key_of key) None }) }
        ensures err { OnErr result (self.new ≡ self.old) }
        ensures handed_back { IfErr result (λ refused. refused.value ≡ (record { table = table; key = key }, None)) }

        // `Memory` comes only where there is room for the write, and neither comes to an object that is there.
        ensures fault { MatchResult result
            (λ _. is_full_for self.old.writes (table, key_of key) ≡ false)
            (λ refused. refused.fault ≡ cond (is_full_for self.old.writes (table, key_of key)) SetFull Memory) }
        ensures only_new { OnErr result (own self.old.writes (table, key_of key) ≡ None) }
    {
        let object = Object { table, key };
        self.writes.set_own(self.alloc, (object, None))
    }
}
