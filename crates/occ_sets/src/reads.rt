//! The read set of a transaction.
ghost use Rattle.std.specs.Prelude.{◌≡◌, ◌==◌, ◌<◌, ◌^◌, ◌++◌, [], ◌∷◌, false, cond, length, map, slice_get, IfErr, IfOk, IfSome, OnOk, OnErr, MatchResult, IsOkUnless};
ghost use Rattle.std.specs.Arc.{arc_value};
ghost use Rattle.std.specs.Option.{option_map};
ghost use Rattle.occ_types.specs.declared.fault.Fault.TheVariants.{SetFull, Memory};
ghost use Rattle.occ_types.specs.PlainData.{question_of};
ghost use Rattle.occ_sets.specs.Entries.{observation_lent, noted, seen, whole};
ghost use Rattle.occ_sets.specs.PlainSets.{answer_of, observation_of};
ghost use Rattle.occ_sets.specs.Sets.{is_full};
ghost use Rattle.occ_sets.specs.ShortList.{values};

use crate::entries::{Entry, ObservationRef};
use crate::range_rows::RangeRows;
use crate::short_list::ShortList;
use occ_types::limits::MAX_QUESTIONS;
use occ_types::{Fault, Question, Refused, Row};
use std::alloc::{AllocError, AllocFailed, Allocator};
use std::marker::Model;
use std::sync::Arc;

/// What a question is answered.
#[derive(Drop)]
#[derive_where(Debug)]
pub enum Answer<A: Allocator> {
    /// To a single key its row, or none where there is none.
    Found(Option<Row<A>>),
    /// To a range its keys and rows, in the order of the keys.
    Rows(RangeRows<A>),
}

impl<A: Allocator + Clone> Clone for Answer<A> {
    ghost is_clone = { λ source copy. answer_of copy ≡ answer_of source };

    fn clone(&self) -> Result<Answer<A>, AllocError> {
        match self {
            Answer::Found(row) => Ok(Answer::Found(row.clone()?)),
            Answer::Rows(rows) => Ok(Answer::Rows(rows.clone()?)),
        }
    }
}

/// A question and its answer.
#[derive(Drop)]
#[derive_where(Debug)]
pub struct Observation<A: Allocator> {
    /// What was asked.
    pub question: Question<A>,
    /// What the table answered.
    pub answer: Answer<A>,
}

impl<A: Allocator + Clone> Clone for Observation<A> {
    ghost is_clone = { λ source copy. observation_of copy ≡ observation_of source };

    fn clone(&self) -> Result<Observation<A>, AllocError> {
        Ok(Observation {
            question: self.question.clone()?,
            answer: self.answer.clone()?,
        })
    }
}

/// What a set has noted. Its owners share it.
type Entries<A> = Arc<ShortList<Entry<A>, A>, A>;

/// What a transaction read: each question with the table's answer, in the order asked. A clone of it is one more owner, which copies nothing, also across threads: what others own is copied before it is changed. Clauses see the list of the plain observations.
#[derive(Drop)]
#[derive_where(Debug)]
pub struct ReadSet<A: Allocator> {
    #[derive_where(skip)]
    alloc: A,
    entries: Option<Entries<A>>,
}

impl<A: Allocator> Model for ReadSet<A> {
    ghost use Rattle.std.specs.Prelude.{List};
    ghost use Rattle.occ_model.specs.State.{Observation as Seen};

    ghost Value = { List Seen };

    ghost use Rattle.occ_sets.specs.Entries.{noted};

    ghost view = { λ s. noted s.entries };
}

impl<A: Allocator> ReadSet<A> {
    /// A set without an observation, which takes no memory.
    pub fn new(alloc: A) -> ReadSet<A>
        ensures { result ≡ [] }
    {
        ReadSet {
            alloc,
            entries: None,
        }
    }

    /// How many questions were asked.
    pub fn len(&self) -> usize
        ensures value { result ≡ length self.now }
        ensures small { result < 2 ^ 63 }
    {
        match &self.entries {
            None => 0,
            Some(entries) => entries.len(),
        }
    }

    /// Whether no question was asked.
    pub fn is_empty(&self) -> bool
        ensures { result ≡ (length self.now == 0) }
    {
        self.len() == 0
    }

    /// What was noted at a place, in the order asked, or none where fewer questions were asked.
    pub fn at(&self, place: usize) -> Option<ObservationRef<'_, A>>
        ensures value { option_map observation_lent result ≡ slice_get self.now place }
        ensures small { IfSome result (λ _. place < 2 ^ 63) }
    {
        if place >= self.len() {
            return None;
        }
        let Some(entries) = &self.entries else {
            return None;
        };
        match entries.get(place) {
            None => None,
            Some(entry) => Some(entry.as_ref()),
        }
    }
}

impl<A: Allocator + Copy> ReadSet<A> {
    /// A set without an observation, with room for `count` of them. Refused with `Memory` where there is none for it.
    pub fn with_capacity(alloc: A, count: usize) -> Result<ReadSet<A>, Fault>
        ensures empty { IfOk result (λ reads. reads ≡ []) }
        ensures memory { IsOkUnless result Memory }
    {
        let entries = ShortList::with_capacity(alloc, count)?;
        let entries = Arc::new(alloc, entries)?;
        Ok(ReadSet {
            alloc,
            entries: Some(entries),
        })
    }

    /// Notes a question and the table's answer after the others. What others share is copied first. Refused with `SetFull` where 256 or more are noted, and else with `Memory` where the set cannot grow or be copied; both leave the set as it was and hand back what was to be noted.
    pub fn note(
        &mut self,
        question: Question<A>,
        answer: Answer<A>,
    ) -> Result<(), Refused<Observation<A>>>
        ensures ok { OnOk result (self.new ≡ self.old ++ (question_of question, answer_of answer) ∷ []) }
        ensures err { OnErr result (self.new ≡ self.old) }
        ensures handed_back { IfErr result (λ refused. refused.value ≡ record { question = question; answer = answer }) }

        // `Memory` comes only where there is room for the observation.
        ensures fault { MatchResult result
            (λ _. is_full self.old ≡ false)
            (λ refused. refused.fault ≡ cond (is_full self.old) SetFull Memory) }
    {
        if self.len() >= MAX_QUESTIONS {
            return Err(Refused {
                value: Observation { question, answer },
                fault: Fault::SetFull,
            });
        }
        self.push(question, answer)
    }

    /// Notes a question and the table's answer as `note` does, however many are noted: for what a text tells of a transaction, which no limit of the store's own sets bounds. A read phase itself notes by `note`.
    ///
    /// Refused with `Memory` alone, where the set cannot grow or be copied. That leaves the set as it was and hands back what was to be noted.
    pub fn push(
        &mut self,
        question: Question<A>,
        answer: Answer<A>,
    ) -> Result<(), Refused<Observation<A>>>
        ensures ok { OnOk result (self.new ≡ self.old ++ (question_of question, answer_of answer) ∷ []) }
        ensures err { OnErr result (self.new ≡ self.old) }
        ensures handed_back { IfErr result (λ refused. refused.value ≡ record { question = question; answer = answer }) }
        ensures memory { IfErr result (λ refused. refused.fault ≡ Memory) }
    {
        match Entry::new(self.alloc, question, answer) {
            Ok(entry) => note_in(&mut self.entries, self.alloc, entry),
            Err(value) => Err(memory(value)),
        }
    }
}

// Notes an observation. It is refused, and handed back, where there is no memory.
fn note_in<A: Allocator + Copy>(
    entries: &mut Option<Entries<A>>,
    alloc: A,
    entry: Entry<A>,
) -> Result<(), Refused<Observation<A>>>
    ensures ok { OnOk result (noted entries.new ≡ noted entries.old ++ seen entry ∷ []) }
    ensures err { OnErr result (noted entries.new ≡ noted entries.old) }
    ensures refused { IfErr result (λ refused. refused ≡ record { value = whole entry; fault = Memory }) }
{
    if let Some(entries) = entries {
        return note_behind(entries, alloc, entry);
    }
    let Ok(mut first) = Arc::new(alloc, ShortList::Empty) else {
        return Err(memory(entry.into_observation()));
    };
    note_behind(&mut first, alloc, entry)?;
    *entries = Some(first);
    Ok(())
}

// Notes an observation behind a handle. What others own is copied first.
fn note_behind<A: Allocator + Copy>(
    entries: &mut Entries<A>,
    alloc: A,
    entry: Entry<A>,
) -> Result<(), Refused<Observation<A>>>
    ensures ok { OnOk result (map seen (values (arc_value entries.new)) ≡ map seen (values (arc_value entries.old)) ++ seen entry ∷ []) }
    ensures err { OnErr result (map seen (values (arc_value entries.new)) ≡ map seen (values (arc_value entries.old))) }
    ensures refused { IfErr result (λ refused. refused ≡ record { value = whole entry; fault = Memory }) }
{
    let Ok(list) = Arc::make_mut(entries) else {
        return Err(memory(entry.into_observation()));
    };
    match list.push(alloc, entry) {
        Ok(()) => Ok(()),
        Err(AllocFailed { value }) => Err(memory(value.into_observation())),
    }
}

// There is no memory for what was to be noted.
fn memory<A: Allocator>(value: Observation<A>) -> Refused<Observation<A>>
    ensures { result ≡ record { value = value; fault = Memory } }
{
    Refused {
        value,
        fault: Fault::Memory,
    }
}

impl<A: Allocator + Clone> Clone for ReadSet<A> {
    ghost is_clone = { λ source copy. copy ≡ source };

    // One more owner.
    fn clone(&self) -> Result<ReadSet<A>, AllocError> {
        let entries = match &self.entries {
            None => None,
            Some(entries) => Some(Arc::try_clone(entries)?),
        };
        Ok(ReadSet {
            alloc: self.alloc.clone()?,
            entries,
        })
    }
}
