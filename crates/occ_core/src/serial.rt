//! Serial validation: a transaction ends in one step.
ghost use Rattle.std.specs.Prelude.{◌≡◌, ◌-◌, [], length, map, drop, None, IfOk, IfErr, IsOkUnless, List};
ghost use Rattle.std.specs.Result.{result_err};
ghost use Rattle.occ_types.specs.declared.fault.Fault.TheVariants.{Memory};
ghost use Rattle.occ_model.specs.State.{Write};
ghost use Rattle.occ_model.specs.World.{reads_under};
ghost use Rattle.occ_model.specs.Event.{SerialEnd, Request};
ghost use Rattle.occ_model.specs.Refusal.{refusal, store_busy};
ghost use Rattle.occ_model.specs.Step.{validity_of};
ghost use Rattle.occ_model.specs.Validity.{verdict};
ghost use Rattle.occ_core.specs.AtOnce.{quiet_fault, turn_to_end};
ghost use Rattle.occ_core.specs.Core.{Transition};
ghost use Rattle.occ_model.specs.Replies.{replied, replied_back};
ghost use Rattle.occ_core.specs.Replies.{outcome_of, CanEnd};
ghost use Rattle.occ_log.specs.Logs.{row_at};
ghost use Rattle.occ_core.specs.Totals.{moved};
ghost use Rattle.occ_queue.specs.Items.{item_of};

use crate::actives::count_active;
use crate::core_state::{Core, before_first};
use crate::entering::{check_turn_to_close, request};
use crate::entry_checks::{check_room_to_enter, check_spare};
use crate::outcomes::Outcome;
use crate::read_checks::check_start;
use crate::totals::OneStep;
use occ_book::Marks;
use occ_case::{Cause, Verdict};
use occ_log::{Log, ReadPhases, Sessions, Transaction, Window};
use occ_queue::Item;
use occ_sets::{ReadSet, WriteSet};
use occ_types::{Fault, Refused};
use std::alloc::Allocator;

impl<A: Allocator + Copy> Core<A> {
    /// Ends what a session submits, in one step. A request enters, is tested against the write sets of the transactions that finished since
    /// its start, and either commits, with all its writes done, or is backed up. Its row, with what was read under the number, comes into the
    /// log, and the session may go on. It makes no case. Operations that run alone, and a closing mark, do what `Core::enter` does with them.
    ///
    /// Refused with the first of these that holds; the item is handed back then, and nothing moves:
    /// - `NoSession`, `SessionClosed`, `OutOfTurn`, `SessionBusy`, as by `enter`;
    /// - a request also with `StoreBusy` where any transaction is active, and then with `NumbersExhausted`, `StartDiffers` or `FutureStart`,
    ///   the fault of a write, `LogFull`, `CounterExhausted` and `Memory`, as by `enter`.
    pub fn serial_end(
        &mut self,
        session: usize,
        item: Item<A>,
    ) -> Result<Outcome<A>, Refused<Item<A>>>
        ensures step { Transition self.old (SerialEnd session (item_of item)) (replied_back outcome_of result) self.new }
        ensures totals { self.new.totals ≡ moved self.old.totals (replied_back outcome_of result) }
        ensures outcome { IfOk result (CanEnd (item_of item)) }
        ensures handed_back { IfErr result (λ refused. item_of refused.value ≡ item_of item) }
    {
        match item {
            Item::Request {
                number,
                start,
                writes,
            } => {
                let mut writes = writes.into_set();
                let transaction = Transaction {
                    session,
                    number,
                    start,
                };
                match self.end_request(transaction, &mut writes) {
                    Ok(outcome) => Ok(outcome),
                    Err(fault) => Err(Refused {
                        value: request(number, start, writes),
                        fault,
                    }),
                }
            }
            Item::Alone { number, operations } => self.take_alone(session, number, operations),
            Item::Close { number } => match self.enter_close(session, number) {
                Ok(()) => Ok(Outcome::MarkedClosed),
                Err(fault) => Err(Refused {
                    value: Item::Close { number },
                    fault,
                }),
            },
        }
    }

    // Ends a request, whose writes are shared from now on.
    fn end_request(
        &mut self,
        transaction: Transaction,
        writes: &mut WriteSet<A>,
    ) -> Result<Outcome<A>, Fault>
        ensures step { Transition self.old (SerialEnd transaction.session (Request transaction.number transaction.start writes.old)) (replied outcome_of result) self.new }
        ensures totals { self.new.totals ≡ moved self.old.totals (replied outcome_of result) }
        ensures outcome { IfOk result (CanEnd (Request transaction.number transaction.start writes.old)) }
        ensures kept { writes.new ≡ writes.old }
    {
        self.law();
        self.check_serial(transaction, writes)?;
        writes.share()?;
        let reads = self.shared_reads(transaction)?;
        match self.tested(transaction, &reads) {
            Verdict::Commit => {
                let kept = writes.clone()?;
                let tn = self.commit_at_once(transaction, reads, kept, OneStep::SerialEnd)?;
                Ok(Outcome::Committed { tn })
            }
            Verdict::BackUp(cause) => {
                self.back_up_at_once(transaction, reads, writes, cause)?;
                Ok(Outcome::BackedUp(cause))
            }
        }
    }

    // Whether a request may end serially.
    fn check_serial(&self, transaction: Transaction, writes: &WriteSet<A>) -> Result<(), Fault>
        ensures { result_err result ≡ refusal self.now.world (SerialEnd transaction.session (Request transaction.number transaction.start writes.now)) }
    {
        check_turn_to_end(
            &self.sessions,
            &self.marks,
            &self.log,
            &self.phases,
            self.counter,
            transaction,
        )?;
        check_room_to_enter(
            &self.schema,
            &self.sessions,
            &self.log,
            self.counter,
            writes,
        )
    }

    // One more owner of what was read under a transaction's number.
    fn shared_reads(&self, transaction: Transaction) -> Result<ReadSet<A>, Fault>
        ensures reads { IfOk result (λ reads. reads ≡ reads_under self.now.world transaction.session transaction.number) }
        ensures memory { IsOkUnless result Memory }
    {
        let reads = self
            .phases
            .share(self.alloc, transaction.session, transaction.number)?;
        Ok(reads)
    }

    // The validity of a transaction that has read this, while no other one is active.
    fn tested(&self, transaction: Transaction, reads: &ReadSet<A>) -> Verdict
        requires quiet { store_busy self.now.world ≡ None }
        requires reads { reads.now ≡ reads_under self.now.world transaction.session transaction.number }
        ensures { (writes : List Write) → result ≡ validity_of self.now.world transaction.session transaction.number transaction.start writes }
    {
        let before = before_first(self.counter, &self.window);
        test(&self.window, self.low(), before, transaction.start, reads)
    }
}

// Whether a session may end a transaction at once.
fn check_turn_to_end<A: Allocator>(
    sessions: &Sessions<A>,
    marks: &Marks<A>,
    log: &Log<A>,
    phases: &ReadPhases<A>,
    counter: u64,
    transaction: Transaction,
) -> Result<(), Fault>
    ensures { result_err result ≡ turn_to_end sessions.now marks.now.marks (row_at log.now) phases.now counter transaction.session transaction.number transaction.start }
{
    check_turn_to_close(sessions, marks, transaction.session, transaction.number)?;
    check_quiet(count_active(sessions, log))?;
    check_spare(transaction.number)?;
    check_start(
        phases.get(transaction.session, transaction.number),
        counter,
        transaction.start,
    )
}

// Whether no transaction is active.
pub(crate) fn check_quiet(active: usize) -> Result<(), Fault>
    ensures { result_err result ≡ quiet_fault active }
{
    if active > 0 {
        return Err(Fault::StoreBusy);
    }
    Ok(())
}

// The verdict on a transaction that no other one is active beside: the write sets in the window are its opponents, but for those of
// transactions that had finished as it began. `before` is the number before that of the window's first set.
fn test<A: Allocator>(
    window: &Window<A>,
    low: u64,
    before: u64,
    start: u64,
    reads: &ReadSet<A>,
) -> Verdict
    ensures { result ≡ verdict (record {
      start = start;
      low = low;
      reads = map (λ o. o.0) reads.now;
      writes = [];
      finished = drop (start - before) window.now.sets;
      active = [];
    }) }
{
    if start < low {
        return Verdict::BackUp(Cause::TooOld);
    }
    if window.meets(start.saturating_sub(before) as usize, reads) {
        return Verdict::BackUp(Cause::Conflict);
    }
    Verdict::Commit
}
