//! What a replayed state answers to a question, and its tables.
ghost use Rattle.std.specs.Prelude.{◌≡◌, IfOk};
ghost use Rattle.std.specs.Option.{option_copied};
ghost use Rattle.occ_types.specs.Question.{Span};
ghost use Rattle.occ_types.specs.PlainData.{end_of, question_of};
ghost use Rattle.occ_sets.specs.Entries.{question_lent};
ghost use Rattle.occ_sets.specs.PlainSets.{answer_of, rows_of};
ghost use Rattle.occ_model.specs.State.{answer, Rows};

use crate::lent_rows::LentRange;
use crate::replica::Replica;
use occ_sets::{Answer, ObservationRef, RangeRows};
use occ_types::{Key, Question, Row};
use std::alloc::{AllocError, Allocator};

impl<'a, A: Allocator + Copy> Replica<'a, A> {
    /// What the state answers to the question of an observation, as `answer` has it.
    pub fn answer_again(
        &self,
        alloc: A,
        seen: ObservationRef<'a, A>,
    ) -> Result<Answer<A>, AllocError>
        ensures { IfOk result (λ given. answer_of given ≡ answer (question_lent seen.entry) self.now) }
    {
        match seen {
            ObservationRef::Key(object, _) => {
                let row = copied(self.row(object))?;
                Ok(Answer::Found(row))
            }
            ObservationRef::Whole(seen) => self.answer(alloc, &seen.question),
        }
    }

    /// What the state answers to a question. Its keys and rows are copied, and it is refused with `AllocError` where there is no memory for that.
    pub fn answer(&self, alloc: A, question: &'a Question<A>) -> Result<Answer<A>, AllocError>
        ensures { IfOk result (λ given. answer_of given ≡ answer (question_of question.now) self.now) }
    {
        match question {
            Question::One(object) => {
                let row = copied(self.row(object))?;
                Ok(Answer::Found(row))
            }
            Question::Span {
                table,
                lower,
                upper,
            } => {
                let rows = self.rows_between(alloc, *table, lower.as_ref(), upper.as_ref())?;
                let shared = RangeRows::shared(rows)?;
                Ok(Answer::Rows(shared))
            }
        }
    }

    // Copies of the rows of a range.
    fn rows_between(
        &self,
        alloc: A,
        table: usize,
        lower: Option<&'a Key<A>>,
        upper: Option<&'a Key<A>>,
    ) -> Result<Vec<(Key<A>, Row<A>), A>, AllocError>
        ensures { IfOk result (λ rows. Rows (rows_of rows.items) ≡ answer (Span table (end_of (option_copied lower.entry)) (end_of (option_copied upper.entry))) self.now) }
    {
        match self.rows(table) {
            Some(rows) => copies(alloc, rows.range(lower, upper)),
            None => Ok(Vec::new(alloc)),
        }
    }
}

/// A copy of a row that may be there.
pub fn copied<A: Allocator + Copy>(row: Option<&Row<A>>) -> Result<Option<Row<A>>, AllocError>
    ensures { IfOk result (λ copy. copy ≡ option_copied row.entry) }
{
    match row {
        None => Ok(None),
        Some(row) => Ok(Some(row.clone()?)),
    }
}

// Copies of lent keys and rows, in their order.
fn copies<'a, A: Allocator + Copy>(
    alloc: A,
    rows: LentRange<'_, 'a, A>,
) -> Result<Vec<(Key<A>, Row<A>), A>, AllocError>
    ensures { IfOk result (λ copies. rows_of copies.items ≡ rows.entry) }
{
    let mut copies = Vec::new(alloc);
    for (key, row) in rows {
        copies.push((key.to_key()?, row.clone()?))?;
    }
    Ok(copies)
}
