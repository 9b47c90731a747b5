//! Questions, as an operation of a list sees their answers.
ghost use Rattle.std.specs.Prelude.{◌≡◌, ◌++◌, [], ◌∷◌, IfOk, OnOk, IsOkUnless};
ghost use Rattle.std.specs.Option.{option_copied};
ghost use Rattle.occ_types.specs.declared.fault.Fault.TheVariants.{Memory};
ghost use Rattle.occ_types.specs.Question.{Span};
ghost use Rattle.occ_types.specs.PlainData.{end_of, object_of, question_of};
ghost use Rattle.occ_model.specs.Operations.{asked, seen};
ghost use Rattle.occ_model.specs.State.{Found, Rows, answer};
ghost use Rattle.occ_sets.specs.PlainSets.{rows_of};
ghost use Rattle.occ_core.specs.Performed.{so_far, one};

use occ_book::Tables;
use occ_sets::{Answer, RangeRows, ReadSet, WriteSet};
use occ_types::limits::MAX_ANSWER_ROWS;
use occ_types::{Fault, Key, Object, Question, Row};
use std::alloc::Allocator;

// The row of an object as the list sees it. Its own write isn't asked of the table; what the table answers is registered.
pub(crate) fn ask<'a, A: Allocator + Copy>(
    reads: &mut ReadSet<A>,
    writes: &'a WriteSet<A>,
    tables: &'a Tables<A>,
    object: Object<A>,
) -> Result<Option<&'a Row<A>>, Fault>
    ensures registered { OnOk result (reads.new ≡ asked tables.now.state (one (object_of object)) (so_far reads.old writes.now)) }
    ensures seen { IfOk result (λ row. Found (option_copied row) ≡ seen tables.now.state (one (object_of object)) (so_far reads.old writes.now)) }
    ensures memory { IsOkUnless result Memory }
{
    match writes.own(&object) {
        Some(row) => Ok(row),
        None => register(reads, tables, object),
    }
}

// The row that the tables have of an object, which is registered.
#[tactic(auto, unfolding(occ_model::specs::State::answer))]
fn register<'a, A: Allocator + Copy>(
    reads: &mut ReadSet<A>,
    tables: &'a Tables<A>,
    object: Object<A>,
) -> Result<Option<&'a Row<A>>, Fault>
    ensures registered { OnOk result (reads.new ≡ reads.old ++ (one (object_of object), answer (one (object_of object)) tables.now.state) ∷ []) }
    ensures found { IfOk result (λ row. Found (option_copied row) ≡ answer (one (object_of object)) tables.now.state) }
    ensures memory { IsOkUnless result Memory }
{
    let row = tables.row(object.table, &object.key);
    reads.push(Question::One(object), Answer::Found(copied(row)?))?;
    Ok(row)
}

// The rows of a range as the list sees them: those that the tables have, which are registered, with its own writes over them.
pub(crate) fn ask_range<A: Allocator + Copy>(
    reads: &mut ReadSet<A>,
    writes: &WriteSet<A>,
    tables: &Tables<A>,
    table: usize,
    lower: Option<&Key<A>>,
    upper: Option<&Key<A>>,
) -> Result<RangeRows<A>, Fault>
    ensures registered { OnOk result (reads.new ≡ asked tables.now.state (Span table (end_of (option_copied lower.entry)) (end_of (option_copied upper.entry))) (so_far reads.old writes.now)) }
    ensures seen { IfOk result (λ rows. Rows rows ≡ seen tables.now.state (Span table (end_of (option_copied lower.entry)) (end_of (option_copied upper.entry))) (so_far reads.old writes.now)) }
    ensures memory { IsOkUnless result Memory }
{
    let question = span(table, lower, upper)?;
    let found = rows_of_table(tables, table, lower, upper)?;
    let rows = RangeRows::shared(found)?;
    let seen = writes.over_shared(&question, &rows)?;
    reads.push(question, Answer::Rows(rows))?;
    Ok(seen)
}

// The rows that the tables have of a range. Most are few enough to be copied in one walk, with room for all of them.
fn rows_of_table<A: Allocator + Copy>(
    tables: &Tables<A>,
    table: usize,
    lower: Option<&Key<A>>,
    upper: Option<&Key<A>>,
) -> Result<Vec<(Key<A>, Row<A>), A>, Fault>
    ensures answered { IfOk result (λ rows. Rows (rows_of rows.items) ≡ answer (Span table (end_of (option_copied lower.entry)) (end_of (option_copied upper.entry))) tables.now.state) }
    ensures memory { IsOkUnless result Memory }
{
    match tables.rows_up_to(MAX_ANSWER_ROWS, table, lower, upper)? {
        Some(rows) => Ok(rows),
        None => tables.rows(table, lower, upper),
    }
}

// The question for a range.
pub(crate) fn span<A: Allocator + Clone>(
    table: usize,
    lower: Option<&Key<A>>,
    upper: Option<&Key<A>>,
) -> Result<Question<A>, Fault>
    ensures value { IfOk result (λ question. question_of question ≡ Span table (end_of (option_copied lower.entry)) (end_of (option_copied upper.entry))) }
    ensures memory { IsOkUnless result Memory }
{
    Ok(Question::Span {
        table,
        lower: lower.cloned()?,
        upper: upper.cloned()?,
    })
}

// A copy of a row, where there is one.
pub(crate) fn copied<A: Allocator + Clone>(row: Option<&Row<A>>) -> Result<Option<Row<A>>, Fault>
    ensures value { IfOk result (λ copy. copy ≡ option_copied row.entry) }
    ensures memory { IsOkUnless result Memory }
{
    match row {
        None => Ok(None),
        Some(row) => Ok(Some(row.clone()?)),
    }
}
