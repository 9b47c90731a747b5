//! Observations as a read set keeps them.
ghost use Rattle.std.specs.Prelude.{◌≡◌, IfOk, IfErr};
ghost use Rattle.occ_types.specs.PlainData.{key_of, question_of};
ghost use Rattle.occ_types.specs.declared.questions.Question.TheVariants as questions;
ghost use Rattle.occ_types.specs.Question.{asks};
ghost use Rattle.occ_sets.specs.Entries.{question_lent, observation_lent, whole, seen};
ghost use Rattle.occ_sets.specs.PlainSets.{answer_of};
ghost use Rattle.occ_sets.specs.declared.reads.Answer.TheVariants as answers;

use crate::reads::{Answer, Observation};
use occ_types::{Key, Object, Question, Row};
use std::alloc::{AllocError, AllocFailed, Allocator};

/// An observation as a read set keeps it. That of a single key stands here without the room that a range would take.
#[derive(Drop)]
#[derive_where(Debug)]
pub(crate) enum Entry<A: Allocator> {
    /// A single key, and the row that it has.
    Found(Object<A>, Row<A>),
    /// A single key that has no row.
    Absent(Object<A>),
    /// Any other observation, as that of a range.
    Whole(Box<Observation<A>, A>),
}

impl<A: Allocator> Entry<A> {
    /// The entry of an observation, which takes memory for a range alone. The observation is handed back where there is none.
    pub(crate) fn new(
        alloc: A,
        question: Question<A>,
        answer: Answer<A>,
    ) -> Result<Entry<A>, Observation<A>>
        ensures ok { IfOk result (λ entry. whole entry ≡ record { question = question; answer = answer }) }
        ensures handed_back { IfErr result (λ back. back ≡ record { question = question; answer = answer }) }
    {
        match (question, answer) {
            (Question::One(object), Answer::Found(Some(row))) => Ok(Entry::Found(object, row)),
            (Question::One(object), Answer::Found(None)) => Ok(Entry::Absent(object)),
            (question, answer) => in_a_box(alloc, Observation { question, answer }),
        }
    }

    /// The observation, lent.
    pub(crate) fn as_ref(&self) -> ObservationRef<'_, A>
        ensures { observation_lent result ≡ seen self.now }
    {
        match self {
            Entry::Found(object, row) => ObservationRef::Key(object, Some(row)),
            Entry::Absent(object) => ObservationRef::Key(object, None),
            Entry::Whole(observation) => ObservationRef::Whole(observation),
        }
    }

    /// The observation again.
    pub(crate) fn into_observation(self) -> Observation<A>
        ensures { result ≡ whole self }
    {
        match self {
            Entry::Found(object, row) => of_key(object, Some(row)),
            Entry::Absent(object) => of_key(object, None),
            Entry::Whole(observation) => Box::into_inner(observation),
        }
    }
}

// An observation behind a handle. It is handed back where there is no memory.
fn in_a_box<A: Allocator>(alloc: A, observation: Observation<A>) -> Result<Entry<A>, Observation<A>>
    ensures ok { IfOk result (λ entry. whole entry ≡ observation) }
    ensures handed_back { IfErr result (λ back. back ≡ observation) }
{
    match Box::new(alloc, observation) {
        Ok(observation) => Ok(Entry::Whole(observation)),
        Err(AllocFailed { value }) => Err(value),
    }
}

// The observation of a single key.
fn of_key<A: Allocator>(object: Object<A>, row: Option<Row<A>>) -> Observation<A>
    ensures { result ≡ record { question = questions.One object; answer = answers.Found row } }
{
    Observation {
        question: Question::One(object),
        answer: Answer::Found(row),
    }
}

impl<A: Allocator + Clone> Clone for Entry<A> {
    ghost is_clone = { λ source copy. seen copy ≡ seen source };

    fn clone(&self) -> Result<Entry<A>, AllocError> {
        match self {
            Entry::Found(object, row) => Ok(Entry::Found(object.clone()?, row.clone()?)),
            Entry::Absent(object) => Ok(Entry::Absent(object.clone()?)),
            Entry::Whole(observation) => Ok(Entry::Whole(observation.clone()?)),
        }
    }
}

/// An observation, as a read set lends it.
#[derive_where(Clone, Copy, Debug)]
pub enum ObservationRef<'a, A: Allocator> {
    /// Of a single key: its object, and its row where there is one.
    Key(&'a Object<A>, Option<&'a Row<A>>),
    /// Any other, as that of a range.
    Whole(&'a Observation<A>),
}

impl<'a, A: Allocator> ObservationRef<'a, A> {
    /// Whether the question asks for this key of this table.
    #[tactic(auto, using(occ_types::proofs::Asked::questions_asked))]
    pub fn asks(&self, table: usize, key: &Key<A>) -> bool
        ensures { result ≡ asks (question_lent self.now) (table, key_of key.now) }
    {
        match self {
            ObservationRef::Key(object, _) => object.table == table && object.key == *key,
            ObservationRef::Whole(observation) => observation.question.asks(table, key),
        }
    }

    /// A copy of the question, which shares its texts.
    pub fn question(&self) -> Result<Question<A>, AllocError>
        ensures { IfOk result (λ question. question_of question ≡ question_lent self.now) }
    {
        match self {
            ObservationRef::Key(object, _) => Ok(Question::One(Object::clone(object)?)),
            ObservationRef::Whole(observation) => Ok(observation.question.clone()?),
        }
    }

    /// A copy of the answer, which shares its rows.
    pub fn answer(&self) -> Result<Answer<A>, AllocError>
    where
        A: Clone,
        ensures { IfOk result (λ answer. answer_of answer ≡ (observation_lent self.now).1) }
    {
        match self {
            ObservationRef::Key(_, None) => Ok(Answer::Found(None)),
            ObservationRef::Key(_, Some(row)) => Ok(Answer::Found(Some(Row::clone(row)?))),
            ObservationRef::Whole(observation) => Ok(observation.answer.clone()?),
        }
    }
}
