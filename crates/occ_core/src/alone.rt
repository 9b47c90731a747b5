//! Lists of operations that run alone, in one step.
ghost use Rattle.std.specs.Prelude.{◌≡◌, length, IfOk, IfErr, OnOk, IsOkUnless};
ghost use Rattle.std.specs.Result.{result_err};
ghost use Rattle.occ_types.specs.declared.fault.Fault.TheVariants.{Memory};
ghost use Rattle.occ_model.specs.Event.{RunAlone, Alone};
ghost use Rattle.occ_model.specs.Operations.{nothing_yet, perform_all};
ghost use Rattle.occ_model.specs.Refusal.{refusal};
ghost use Rattle.occ_sets.specs.Operations.{ops_of};
ghost use Rattle.occ_core.specs.Performed.{progress_of};
ghost use Rattle.occ_core.specs.Core.{Transition};
ghost use Rattle.occ_log.specs.Logs.{row_at};
ghost use Rattle.occ_model.specs.Replies.{replied, replied_back};
ghost use Rattle.occ_core.specs.Replies.{ran, outcome_of, IsRunAlone};
ghost use Rattle.occ_core.specs.RunningAlone.{read_open_fault, count_fault, turn_to_run, room_to_run};
ghost use Rattle.occ_core.specs.Totals.{moved};
ghost use Rattle.occ_queue.specs.Items.{item_of};

use crate::actives::count_active;
use crate::core_state::Core;
use crate::entering::check_turn_to_close;
use crate::entry_checks::{check_log, check_numbers, check_spare};
use crate::outcomes::Outcome;
use crate::performed::Performed;
use crate::serial::check_quiet;
use crate::totals::OneStep;
use occ_book::Marks;
use occ_log::{Log, ReadPhases, Sessions, Transaction};
use occ_queue::Item;
use occ_sets::{Answer, Op, check_operations};
use occ_types::limits::MAX_OPERATIONS;
use occ_types::{Fault, Refused, Schema};
use std::alloc::Allocator;

impl<A: Allocator + Copy> Core<A> {
    /// Runs a whole transaction in one step, as a list of operations: it reads, writes and commits, and is never backed up. It answers the
    /// transaction number that it took, and what its questions were answered, in their order. An empty list commits too. Its row, with what it
    /// asked of the tables and what it wrote, comes into the log, and its start is the counter as it ran.
    ///
    /// Refused with the first of these that holds; the list is handed back then, and nothing moves:
    /// - `NoSession`, `SessionClosed`, `OutOfTurn` where the number is not the one that is due, `SessionBusy`;
    /// - `ReadOpen` where something was read under the number;
    /// - `StoreBusy` where any transaction is active;
    /// - `NumbersExhausted`;
    /// - `SetFull` where there are more than 256 operations;
    /// - the fault of the first operation that does not fit the schema: `NoTable`, `WrongKind` or `TooLong` of its key, then
    ///   `WrongColumns`, `WrongKind` or `TooLong` of its row, or `EmptyRange`;
    /// - `LogFull`, `CounterExhausted`, `Memory`.
    pub fn run_alone(
        &mut self,
        session: usize,
        number: u64,
        operations: Vec<Op<A>, A>,
    ) -> Result<(u64, Vec<Answer<A>, A>), Refused<Vec<Op<A>, A>>>
        ensures step { Transition self.old (RunAlone session number (ops_of operations.items)) (replied_back ran result) self.new }
        ensures totals { self.new.totals ≡ moved self.old.totals (replied_back ran result) }
        ensures handed_back { IfErr result (λ refused. refused.value ≡ operations) }
    {
        match self.run(session, number, operations.as_slice()) {
            Ok(ran) => Ok(ran),
            Err(fault) => Err(Refused {
                value: operations,
                fault,
            }),
        }
    }

    // Runs a list of operations alone, which is handed back in its item where it is refused.
    pub(crate) fn take_alone(
        &mut self,
        session: usize,
        number: u64,
        operations: Vec<Op<A>, A>,
    ) -> Result<Outcome<A>, Refused<Item<A>>>
        ensures step { Transition self.old (RunAlone session number (ops_of operations.items)) (replied_back outcome_of result) self.new }
        ensures totals { self.new.totals ≡ moved self.old.totals (replied_back outcome_of result) }
        ensures outcome { IfOk result IsRunAlone }
        ensures handed_back { IfErr result (λ refused. item_of refused.value ≡ Alone number (ops_of operations.items)) }
    {
        match self.run_alone(session, number, operations) {
            Ok((tn, answers)) => Ok(Outcome::RanAlone { tn, answers }),
            Err(refused) => Err(Refused {
                value: Item::Alone {
                    number,
                    operations: refused.value,
                },
                fault: refused.fault,
            }),
        }
    }

    // Runs a list of operations alone.
    fn run(
        &mut self,
        session: usize,
        number: u64,
        operations: &[Op<A>],
    ) -> Result<(u64, Vec<Answer<A>, A>), Fault>
        ensures step { Transition self.old (RunAlone session number (ops_of operations.now)) (replied ran result) self.new }
        ensures totals { self.new.totals ≡ moved self.old.totals (replied ran result) }
    {
        self.law();
        self.check_alone(session, number, operations)?;
        let mut done = Performed::nothing_yet(self.alloc);
        self.perform(operations, &mut done)?;
        let transaction = Transaction {
            session,
            number,
            start: self.tnc(),
        };
        let tn = self.commit_at_once(transaction, done.reads, done.writes, OneStep::RunAlone)?;
        Ok((tn, done.answers))
    }

    // Performs a list of operations, of which nothing stands in the tables yet. What it read and wrote is shared from now on.
    fn perform(&self, operations: &[Op<A>], done: &mut Performed<A>) -> Result<(), Fault>
        requires first { progress_of done.old ≡ nothing_yet }
        ensures performed { OnOk result (progress_of done.new ≡ perform_all self.now.world.table (ops_of operations.now) nothing_yet) }
        ensures memory { IsOkUnless result Memory }
    {
        done.take_room(self.alloc, operations)?;
        done.perform_each(&self.tables, operations)?;
        done.writes.share()
    }
}

impl<A: Allocator> Core<A> {
    // Whether a list of operations may run alone.
    fn check_alone(&self, session: usize, number: u64, operations: &[Op<A>]) -> Result<(), Fault>
        ensures { result_err result ≡ refusal self.now.world (RunAlone session number (ops_of operations.now)) }
    {
        check_turn_to_run(
            &self.sessions,
            &self.marks,
            &self.log,
            &self.phases,
            session,
            number,
        )?;
        check_room_to_run(
            &self.schema,
            &self.sessions,
            &self.log,
            self.counter,
            operations,
        )
    }
}

// Whether a session may run operations alone under a number.
fn check_turn_to_run<A: Allocator>(
    sessions: &Sessions<A>,
    marks: &Marks<A>,
    log: &Log<A>,
    phases: &ReadPhases<A>,
    session: usize,
    number: u64,
) -> Result<(), Fault>
    ensures { result_err result ≡ turn_to_run sessions.now marks.now.marks (row_at log.now) phases.now session number }
{
    check_turn_to_close(sessions, marks, session, number)?;
    check_unread(phases, session, number)?;
    check_quiet(count_active(sessions, log))?;
    check_spare(number)
}

// Whether nothing was read under a number.
fn check_unread<A: Allocator>(
    phases: &ReadPhases<A>,
    session: usize,
    number: u64,
) -> Result<(), Fault>
    ensures { result_err result ≡ read_open_fault phases.now session number }
{
    match phases.get(session, number) {
        None => Ok(()),
        Some(_phase) => Err(Fault::ReadOpen),
    }
}

// Whether operations are few enough and fit the schema, and there is room for one more transaction.
fn check_room_to_run<A: Allocator>(
    schema: &Schema<A>,
    sessions: &Sessions<A>,
    log: &Log<A>,
    counter: u64,
    operations: &[Op<A>],
) -> Result<(), Fault>
    ensures { result_err result ≡ room_to_run schema.now sessions.now (length log.now.rows) (row_at log.now) counter (ops_of operations.now) }
{
    check_count(operations.len())?;
    check_operations(schema, operations)?;
    check_log(log.len())?;
    check_numbers(sessions, log, counter)
}

// Whether a list has so few operations that it may run.
fn check_count(operations: usize) -> Result<(), Fault>
    ensures { result_err result ≡ count_fault operations }
{
    if operations > MAX_OPERATIONS {
        return Err(Fault::SetFull);
    }
    Ok(())
}
