//! What a transaction reads of the tables in its read phase.
ghost use Rattle.std.specs.Prelude.{◌≡◌, IfOk, IfErr, IfSome, OnOk, OnErr, IsOkUnless, None};
ghost use Rattle.std.specs.FinMap as finite;
ghost use Rattle.std.specs.Option.{option_copied};
ghost use Rattle.std.specs.Result.{result_err};
ghost use Rattle.occ_types.specs.Question.{One, Span};
ghost use Rattle.occ_types.specs.PlainData.{key_of, end_of};
ghost use Rattle.occ_model.specs.Event.{Read, Forget, Answered, Forgotten};
ghost use Rattle.occ_model.specs.Refusal.{refusal};
ghost use Rattle.occ_model.specs.State.{answer, Found, Rows};
ghost use Rattle.occ_sets.specs.PlainSets.{observation_of, rows_of};
ghost use Rattle.occ_core.specs.Reads.{room_to_read, noted};
ghost use Rattle.occ_types.specs.declared.fault.Fault.TheVariants.{Memory};
ghost use Rattle.occ_core.specs.Core.{Transition, IsRefusal};
ghost use Rattle.occ_model.specs.Replies.{replied};

use crate::asking::{copied, span};
use crate::core_state::Core;
use crate::read_checks::{check_room_to_read, check_session, check_size, check_turn_to_read};
use occ_book::Tables;
use occ_log::{ReadPhases, Transaction};
use occ_sets::{Answer, Observation, RangeRows};
use occ_types::limits::MAX_ANSWER_ROWS;
use occ_types::{Fault, Key, Object, Question, Row};
use std::alloc::Allocator;

impl<A: Allocator> Core<A> {
    /// Forgets what a session has read under a number, and answers whether it has read anything. The number may then be read under
    /// from another start. Refused with `NoSession` alone. It takes no memory.
    pub fn forget(&mut self, session: usize, number: u64) -> Result<bool, Fault>
        ensures step { Transition self.old (Forget session number) (replied Forgotten result) self.new }
        ensures totals { self.new.totals ≡ self.old.totals }
    {
        check_session(&self.sessions, session)?;
        let phase = self.phases.take(session, number);
        Ok(phase.is_some())
    }
}

impl<A: Allocator + Copy> Core<A> {
    /// A copy of the row under a key of a table, or none where there is none, as the tables have it now. The question is noted with its answer
    /// in the read phase of the number, which begins with it from this start where it is not under way.
    ///
    /// Refused with the first of these that holds; nothing moves then:
    /// - `NoSession`, `SessionClosed`, `OutOfTurn` where the number is not the one that is due or among the 1,025 after it;
    /// - `StartDiffers` where the read phase has another start, or `FutureStart` where there is none and the start lies above the counter;
    /// - `NoTable`, `WrongKind` or `TooLong` of the key;
    /// - `SetFull` where 256 questions are noted;
    /// - `Memory` where there is none for the copies.
    pub fn read(
        &mut self,
        session: usize,
        number: u64,
        start: u64,
        table: usize,
        key: &Key<A>,
    ) -> Result<Option<Row<A>>, Fault>
        ensures step { Transition self.old (Read session number start (One table (key_of key.now))) (replied (λ row. Answered (Found row)) result) self.new }
        ensures totals { self.new.totals ≡ self.old.totals }
    {
        let transaction = Transaction {
            session,
            number,
            start,
        };
        self.check_read(transaction, table, key)?;
        let (seen, row) = observe_row(&self.tables, table, key)?;
        note(&mut self.phases, self.alloc, transaction, seen)?;
        Ok(row)
    }

    /// The rows of a table from the lower end on and below the upper one, with their keys and in the order of the keys, as
    /// the table has them now. The question is noted with its answer as by `read`, and the rows are shared with what is noted.
    ///
    /// Refused as `read` is, but for the key: with `NoTable`, `WrongKind` or `TooLong` of an end; `EmptyRange` where the lower end is not below
    /// the upper one; `RangeTooLarge` where the answer has more than 1,024 rows. Then come `SetFull` and `Memory`.
    pub fn scan(
        &mut self,
        session: usize,
        number: u64,
        start: u64,
        table: usize,
        lower: Option<&Key<A>>,
        upper: Option<&Key<A>>,
    ) -> Result<RangeRows<A>, Fault>
        ensures step { Transition self.old (Read session number start (Span table (end_of (option_copied lower.entry)) (end_of (option_copied upper.entry)))) (replied (λ rows. Answered (Rows rows)) result) self.new }
        ensures totals { self.new.totals ≡ self.old.totals }
    {
        let transaction = Transaction {
            session,
            number,
            start,
        };
        let rows = self.rows_asked(transaction, table, lower, upper)?;
        let (seen, rows) = share_rows(rows, table, lower, upper)?;
        note(&mut self.phases, self.alloc, transaction, seen)?;
        Ok(rows)
    }

    /// The same, as copies of the rows that the caller alone owns. Refused as `scan` is.
    pub fn scan_apart(
        &mut self,
        session: usize,
        number: u64,
        start: u64,
        table: usize,
        lower: Option<&Key<A>>,
        upper: Option<&Key<A>>,
    ) -> Result<Vec<(Key<A>, Row<A>), A>, Fault>
        ensures step { Transition self.old (Read session number start (Span table (end_of (option_copied lower.entry)) (end_of (option_copied upper.entry)))) (replied (λ rows. Answered (Rows (rows_of rows.items))) result) self.new }
        ensures totals { self.new.totals ≡ self.old.totals }
    {
        let transaction = Transaction {
            session,
            number,
            start,
        };
        let rows = self.rows_asked(transaction, table, lower, upper)?;
        let (seen, rows) = copy_rows(rows, table, lower, upper)?;
        note(&mut self.phases, self.alloc, transaction, seen)?;
        Ok(rows)
    }

    // Copies of the rows of a range that may be read for a transaction, or why it may not. The rows are gone over once; only a refusal
    // goes over them again, to find the first fault.
    fn rows_asked(
        &self,
        transaction: Transaction,
        table: usize,
        lower: Option<&Key<A>>,
        upper: Option<&Key<A>>,
    ) -> Result<Vec<(Key<A>, Row<A>), A>, Fault>
        ensures answered { IfOk result (λ rows. (refusal self.now.world (Read transaction.session transaction.number transaction.start (Span table (end_of (option_copied lower.entry)) (end_of (option_copied upper.entry)))) ≡ None) × (Rows (rows_of rows.items) ≡ answer (Span table (end_of (option_copied lower.entry)) (end_of (option_copied upper.entry))) self.now.world.table)) }
        ensures refused { IfErr result (IsRefusal self.now.world (Read transaction.session transaction.number transaction.start (Span table (end_of (option_copied lower.entry)) (end_of (option_copied upper.entry))))) }
    {
        match self.rows_at_once(transaction, table, lower, upper) {
            Some(rows) => Ok(rows),
            None => {
                self.check_scan(transaction, table, lower, upper)?;
                Err(Fault::Memory)
            }
        }
    }

    // Copies of the rows of a range; none where it may not be read for a transaction, or there is no memory for them.
    fn rows_at_once(
        &self,
        transaction: Transaction,
        table: usize,
        lower: Option<&Key<A>>,
        upper: Option<&Key<A>>,
    ) -> Option<Vec<(Key<A>, Row<A>), A>>
        ensures { IfSome result (λ rows. (refusal self.now.world (Read transaction.session transaction.number transaction.start (Span table (end_of (option_copied lower.entry)) (end_of (option_copied upper.entry)))) ≡ None) × (Rows (rows_of rows.items) ≡ answer (Span table (end_of (option_copied lower.entry)) (end_of (option_copied upper.entry))) self.now.world.table)) }
    {
        let begun = self.phases.get(transaction.session, transaction.number);
        if check_turn_to_read(
            &self.sessions,
            &self.marks,
            begun,
            self.counter,
            transaction,
        )
        .is_err()
        {
            return None;
        }
        if self.schema.check_range(table, lower, upper).is_err() {
            return None;
        }
        if check_room_to_read(begun).is_err() {
            return None;
        }
        match self.tables.rows_up_to(MAX_ANSWER_ROWS, table, lower, upper) {
            Ok(rows) => rows,
            Err(_) => None,
        }
    }
}

impl<A: Allocator + Clone> Core<A> {
    // Whether a key of a table may be read for a transaction. Its read phase is looked up once.
    fn check_read(&self, transaction: Transaction, table: usize, key: &Key<A>) -> Result<(), Fault>
        ensures { result_err result ≡ refusal self.now.world (Read transaction.session transaction.number transaction.start (One table (key_of key.now))) }
    {
        let begun = self.phases.get(transaction.session, transaction.number);
        check_turn_to_read(
            &self.sessions,
            &self.marks,
            begun,
            self.counter,
            transaction,
        )?;
        self.schema.check_key(table, key)?;
        check_room_to_read(begun)
    }

    // Whether a range of a table may be read for a transaction. Its read phase is looked up once.
    fn check_scan(
        &self,
        transaction: Transaction,
        table: usize,
        lower: Option<&Key<A>>,
        upper: Option<&Key<A>>,
    ) -> Result<(), Fault>
        ensures { result_err result ≡ refusal self.now.world (Read transaction.session transaction.number transaction.start (Span table (end_of (option_copied lower.entry)) (end_of (option_copied upper.entry)))) }
    {
        let begun = self.phases.get(transaction.session, transaction.number);
        check_turn_to_read(
            &self.sessions,
            &self.marks,
            begun,
            self.counter,
            transaction,
        )?;
        self.schema.check_range(table, lower, upper)?;
        check_size(&self.tables, table, lower, upper)?;
        check_room_to_read(begun)
    }
}

// Notes an observation in the read phase of a transaction, which has room for it.
fn note<A: Allocator + Copy>(
    phases: &mut ReadPhases<A>,
    alloc: A,
    transaction: Transaction,
    seen: Observation<A>,
) -> Result<(), Fault>
    requires few { room_to_read (finite.get phases.old (transaction.session, transaction.number)) ≡ None }
    ensures ok { OnOk result (phases.new ≡ noted phases.old transaction.session transaction.number transaction.start (observation_of seen)) }
    ensures err { OnErr result (phases.new ≡ phases.old) }
    ensures memory { IsOkUnless result Memory }
{
    phases.note(alloc, transaction, seen.question, seen.answer)?;
    Ok(())
}

// The question for the row under a key and what the tables answer, and a copy of the row.
fn observe_row<A: Allocator + Clone>(
    tables: &Tables<A>,
    table: usize,
    key: &Key<A>,
) -> Result<(Observation<A>, Option<Row<A>>), Fault>
    ensures answered { IfOk result (λ copies. (observation_of copies.0 ≡ (One table (key_of key.now), answer (One table (key_of key.now)) tables.now.state)) × (Found copies.1 ≡ answer (One table (key_of key.now)) tables.now.state)) }
    ensures memory { IsOkUnless result Memory }
{
    let found = tables.row(table, key);
    let question = Question::One(Object {
        table,
        key: key.clone()?,
    });
    let answer = Answer::Found(copied(found)?);
    let row = copied(found)?;
    Ok((Observation { question, answer }, row))
}

// The question for a range with its rows, and the rows again, which share their memory.
fn share_rows<A: Allocator + Copy>(
    rows: Vec<(Key<A>, Row<A>), A>,
    table: usize,
    lower: Option<&Key<A>>,
    upper: Option<&Key<A>>,
) -> Result<(Observation<A>, RangeRows<A>), Fault>
    ensures seen { IfOk result (λ shared. (observation_of shared.0 ≡ (Span table (end_of (option_copied lower.entry)) (end_of (option_copied upper.entry)), Rows (rows_of rows.items))) × (shared.1 ≡ rows_of rows.items)) }
    ensures memory { IsOkUnless result Memory }
{
    let question = span(table, lower, upper)?;
    let rows = RangeRows::shared(rows)?;
    let answer = Answer::Rows(rows.clone()?);
    Ok((Observation { question, answer }, rows))
}

// The question for a range with copies of its rows, and the rows themselves.
fn copy_rows<A: Allocator + Copy>(
    rows: Vec<(Key<A>, Row<A>), A>,
    table: usize,
    lower: Option<&Key<A>>,
    upper: Option<&Key<A>>,
) -> Result<(Observation<A>, Vec<(Key<A>, Row<A>), A>), Fault>
    ensures seen { IfOk result (λ copies. (observation_of copies.0 ≡ (Span table (end_of (option_copied lower.entry)) (end_of (option_copied upper.entry)), Rows (rows_of rows.items))) × (copies.1 ≡ rows)) }
    ensures memory { IsOkUnless result Memory }
{
    let question = span(table, lower, upper)?;
    let copied = rows.clone()?;
    let answer = Answer::Rows(RangeRows::shared(copied)?);
    Ok((Observation { question, answer }, rows))
}
