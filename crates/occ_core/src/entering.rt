//! The entry of what a session hands in: a transaction, a list of operations, or a closing mark.
ghost use Rattle.std.specs.Prelude.{◌≡◌, ◌≤◌, length, IfOk, IfErr};
ghost use Rattle.std.specs.Result.{result_err};
ghost use Rattle.occ_types.specs.declared.limits.TheConstants as limit;
ghost use Rattle.occ_model.specs.Log.{Case as PlainCase, Open};
ghost use Rattle.occ_model.specs.World.{next_place, reads_under};
ghost use Rattle.occ_model.specs.Event.{Enter, Request, Entered, Close, Closed};
ghost use Rattle.occ_core.specs.EntryFaults.{turn_to_close};
ghost use Rattle.occ_model.specs.Refusal.{refusal};
ghost use Rattle.occ_model.specs.Step.{IsCaseOf, entering as entering_row};
ghost use Rattle.occ_log.specs.Rows.{log_row_of};
ghost use Rattle.occ_core.specs.Core.{Transition};
ghost use Rattle.occ_model.specs.Replies.{replied, replied_back};
ghost use Rattle.occ_core.specs.Replies.{outcome_of, CanEnter};
ghost use Rattle.occ_core.specs.Totals.{moved};
ghost use Rattle.occ_queue.specs.Items.{item_of};

use crate::actives::with_active;
use crate::core_state::{Core, before_first};
use crate::entry_checks::{check_due, check_idle, check_room_to_enter, check_turn_to_enter};
use crate::outcomes::Outcome;
use crate::read_checks::{check_session, check_unclosed};
use occ_book::{LogRow, Marks, Standing};
use occ_case::{Case, OpenCase};
use occ_log::{Held, Sessions, Transaction};
use occ_queue::Item;
use occ_sets::{ReadSet, RequestWrites, WriteSet};
use occ_types::{Fault, Refused};
use std::alloc::{AllocError, Allocator};

impl<A: Allocator + Copy> Core<A> {
    /// Enters what a session submits.
    /// - A request is a transaction that ends its read phase with this number, start and writes. Its row, with what was read under the
    ///   number, comes into the log and is open. Its case is fixed now, however late its decision comes: its opponents are the
    ///   transactions that are active, and of those that finished since its start the ones in the window.
    /// - Operations that run alone do now what `Core::run_alone` does with them, and are refused as there.
    /// - A closing mark ends the session: it is noted, and what the session has read under any number is dropped. It takes no memory.
    ///
    /// Refused with the first of these that holds; the item is handed back then, and nothing moves:
    /// - `NoSession`, `SessionClosed`, `OutOfTurn` where the number is not the one that is due, `SessionBusy`;
    /// - a request also with `NumbersExhausted`; `StartDiffers` where its read phase has another start, or `FutureStart` where there is
    ///   none and the start lies above the counter; the fault of the first write that does not fit the schema (`NoTable`, `WrongKind`
    ///   or `TooLong` of its key, then `WrongColumns`, `WrongKind` or `TooLong` of its row); `LogFull`, `CounterExhausted`, `Memory`.
    pub fn enter(&mut self, session: usize, item: Item<A>) -> Result<Outcome<A>, Refused<Item<A>>>
        ensures step { Transition self.old (Enter session (item_of item)) (replied_back outcome_of result) self.new }
        ensures totals { self.new.totals ≡ moved self.old.totals (replied_back outcome_of result) }
        ensures outcome { IfOk result (CanEnter (item_of item)) }
        ensures handed_back { IfErr result (λ refused. item_of refused.value ≡ item_of item) }
    {
        match item {
            Item::Request {
                number,
                start,
                writes,
            } => {
                let mut writes = writes.into_set();
                let transaction = Transaction {
                    session,
                    number,
                    start,
                };
                match self.enter_request(transaction, &mut writes) {
                    Ok(place) => Ok(Outcome::Entered { place }),
                    Err(fault) => Err(Refused {
                        value: request(number, start, writes),
                        fault,
                    }),
                }
            }
            Item::Alone { number, operations } => self.take_alone(session, number, operations),
            Item::Close { number } => match self.enter_close(session, number) {
                Ok(()) => Ok(Outcome::MarkedClosed),
                Err(fault) => Err(Refused {
                    value: Item::Close { number },
                    fault,
                }),
            },
        }
    }

    // Enters a request, whose writes are shared from now on, and answers the place of its row in the order of entry.
    fn enter_request(
        &mut self,
        transaction: Transaction,
        writes: &mut WriteSet<A>,
    ) -> Result<usize, Fault>
        ensures step { Transition self.old (Enter transaction.session (Request transaction.number transaction.start writes.old)) (replied (λ place. Entered place place) result) self.new }
        ensures totals { self.new.totals ≡ self.old.totals }
        ensures kept { writes.new ≡ writes.old }
    {
        let session = transaction.session;
        let number = transaction.number;
        self.check_entry(transaction, writes)?;
        writes.share()?;
        let reads = self.phases.share(self.alloc, session, number)?;
        let row = self.open_row(transaction, reads, writes)?;
        let place = row.place;
        let shared = writes.clone()?;
        self.log.reserve(session)?;
        self.log.push(row);
        let _reads = self.phases.take(session, number);
        let held = Held {
            place,
            writes: shared,
        };
        self.sessions.hold(session - 1, number, held);
        Ok(place)
    }

    // Whether a request may enter.
    fn check_entry(&self, transaction: Transaction, writes: &WriteSet<A>) -> Result<(), Fault>
        ensures { result_err result ≡ refusal self.now.world (Enter transaction.session (Request transaction.number transaction.start writes.now)) }
    {
        check_turn_to_enter(
            &self.sessions,
            &self.marks,
            &self.phases,
            self.counter,
            transaction,
        )?;
        check_room_to_enter(
            &self.schema,
            &self.sessions,
            &self.log,
            self.counter,
            writes,
        )
    }

    // The row of a request that has read this, open, with its case.
    fn open_row(
        &self,
        transaction: Transaction,
        reads: ReadSet<A>,
        writes: &WriteSet<A>,
    ) -> Result<LogRow<A, OpenCase<A>>, AllocError>
        requires { reads ≡ reads_under self.now.world transaction.session transaction.number }
        ensures { IfOk result (λ row. (case : PlainCase) × IsCaseOf self.now.world transaction.session transaction.number transaction.start writes.now case × (log_row_of row ≡ entering_row self.now.world transaction.session transaction.number transaction.start (reads_under self.now.world transaction.session transaction.number) writes.now (Open (next_place self.now.world) case))) }
    {
        let start = transaction.start;
        let low = self.low();
        let skip = start.saturating_sub(before_first(self.counter, &self.window)) as usize;
        let finished = self.window.shared_from(self.alloc, skip)?;
        let count = finished.as_slice().len();
        let opponents = with_active(finished, &self.sessions, &self.log)?;
        let case = Case::new(
            start,
            low,
            reads.clone()?,
            writes.clone()?,
            opponents,
            count,
        );
        let place = self.log.next_place();
        let Ok(open_case) = OpenCase::new(self.alloc, place as u64, case) else {
            return Err(AllocError);
        };
        Ok(LogRow {
            place,
            session: transaction.session,
            number: transaction.number,
            start,
            finish: self.counter,
            reads,
            writes: writes.clone()?,
            standing: Standing::Open(open_case),
        })
    }
}

impl<A: Allocator> Core<A> {
    // Enters the closing mark of a session, which takes no memory.
    pub(crate) fn enter_close(&mut self, session: usize, number: u64) -> Result<(), Fault>
        ensures step { Transition self.old (Enter session (Close number)) (replied (λ _. Closed) result) self.new }
        ensures totals { self.new.totals ≡ self.old.totals }
    {
        self.check_close(session, number)?;
        self.marks.set(session, number);
        self.phases.drop_session(session);
        Ok(())
    }

    // Whether a closing mark may enter.
    fn check_close(&self, session: usize, number: u64) -> Result<(), Fault>
        ensures { result_err result ≡ refusal self.now.world (Enter session (Close number)) }
    {
        check_turn_to_close(&self.sessions, &self.marks, session, number)
    }
}

// The request of a transaction, with the writes that came in by it.
pub(crate) fn request<A: Allocator>(number: u64, start: u64, writes: WriteSet<A>) -> Item<A>
    requires { length writes ≤ limit.MAX_WRITES }
    ensures { item_of result ≡ Request number start writes }
{
    match RequestWrites::from_set(writes) {
        Ok(writes) => Item::Request {
            number,
            start,
            writes,
        },
        Err(_too_many) => unreachable!(),
    }
}

// Whether a session may close under a number.
pub(crate) fn check_turn_to_close<A: Allocator>(
    sessions: &Sessions<A>,
    marks: &Marks<A>,
    session: usize,
    number: u64,
) -> Result<(), Fault>
    ensures { result_err result ≡ turn_to_close sessions.now marks.now.marks session number }
{
    check_session(sessions, session)?;
    check_unclosed(marks, session)?;
    check_due(sessions.last(session - 1), number)?;
    check_idle(sessions.get(session - 1))
}
