//! The two ends of a transaction that is done in one step.
ghost use Rattle.std.specs.Prelude.{◌≡◌, ◌≤◌, ◌+◌, ◌-◌, ◌<◌, [], ◌∷◌, ◌++◌, length, None, OnOk, OnErr, IfOk, IsOkUnless, slice_set};
ghost use Rattle.occ_types.specs.declared.fault.Fault.TheVariants.{Memory};
ghost use Rattle.occ_model.specs.Content.{IsLawful};
ghost use Rattle.occ_model.specs.State.{apply};
ghost use Rattle.occ_model.specs.Step.{entering};
ghost use Rattle.occ_core.specs.AtOnce.{committed, backed, MayEnd};
ghost use Rattle.occ_core.specs.Totals.{with_one_step, with_cause};
ghost use Rattle.occ_log.specs.Logs.{HasRoom};
ghost use Rattle.occ_log.specs.Rows.{log_row_of, standing_of};
ghost use Rattle.occ_sets.specs.Sets.{ArePlaced};

use crate::core_state::Core;
use crate::totals::OneStep;
use occ_book::{LogRow, Standing, Tables};
use occ_case::{Cause, OpenCase};
use occ_log::{Log, Sessions, Transaction};
use occ_sets::{ReadSet, WriteSet};
use occ_types::Fault;
use std::alloc::Allocator;

impl<A: Allocator + Copy> Core<A> {
    // Commits a transaction at once, by this event, that has read this and writes that: its row comes into the log, its writes are done, and it
    // takes the next transaction number, which is answered. Its read phase is over, and its session is free. It is counted. Refused with `Memory` alone, and nothing moves
    // then.
    pub(crate) fn commit_at_once(
        &mut self,
        transaction: Transaction,
        reads: ReadSet<A>,
        writes: WriteSet<A>,
        by: OneStep,
    ) -> Result<u64, Fault>
        requires lawful { IsLawful (committed self.old.world transaction.session transaction.number transaction.start reads writes) }
        requires room { MayEnd self.old.world transaction.session transaction.number }
        requires placed { ArePlaced (length self.old.world.settings.schema) writes }
        ensures number { IfOk result (λ number. number ≡ self.old.world.counter + 1) }
        ensures ok { OnOk result (self.new.world ≡ committed self.old.world transaction.session transaction.number transaction.start reads writes) }
        ensures totals { OnOk result (self.new.totals ≡ with_one_step self.old.totals by) }
        ensures err { OnErr result (self.new ≡ self.old) }
        ensures memory { IsOkUnless result Memory }
    {
        let shared = writes.clone()?;
        let row = self.row_at_once(transaction, reads, writes, Standing::Done(self.counter + 1));
        take_room(&mut self.log, &mut self.tables, row.session, &row.writes)?;
        self.phases.discard(transaction.session, transaction.number);
        self.counter += 1;
        settle(&mut self.log, &mut self.sessions, row);
        self.window.advance(shared);
        self.totals.count_one_step(by);
        Ok(self.counter)
    }

    // Backs a transaction up at once: its row comes into the log, its read phase is over, its session is free, and it is counted. Refused with `Memory` alone,
    // and nothing moves then.
    pub(crate) fn back_up_at_once(
        &mut self,
        transaction: Transaction,
        reads: ReadSet<A>,
        writes: &WriteSet<A>,
        cause: Cause,
    ) -> Result<(), Fault>
        requires lawful { IsLawful (backed self.old.world transaction.session transaction.number transaction.start reads writes.now cause) }
        requires room { MayEnd self.old.world transaction.session transaction.number }
        ensures ok { OnOk result (self.new.world ≡ backed self.old.world transaction.session transaction.number transaction.start reads writes.now cause) }
        ensures totals { OnOk result (self.new.totals ≡ with_cause self.old.totals cause) }
        ensures err { OnErr result (self.new ≡ self.old) }
        ensures memory { IsOkUnless result Memory }
    {
        let kept = writes.clone()?;
        let row = self.row_at_once(transaction, reads, kept, Standing::Back(cause));
        self.log.reserve(transaction.session)?;
        self.phases.discard(transaction.session, transaction.number);
        settle(&mut self.log, &mut self.sessions, row);
        self.totals.count_cause(cause);
        Ok(())
    }
}

impl<A: Allocator> Core<A> {
    // The row of a transaction that has read this, writes that, and stands so, as it comes into the log next.
    fn row_at_once(
        &self,
        transaction: Transaction,
        reads: ReadSet<A>,
        writes: WriteSet<A>,
        standing: Standing<OpenCase<A>>,
    ) -> LogRow<A, OpenCase<A>>
        ensures { log_row_of result ≡ entering self.now.world transaction.session transaction.number transaction.start reads writes (standing_of standing) }
    {
        LogRow {
            place: self.log.next_place(),
            session: transaction.session,
            number: transaction.number,
            start: transaction.start,
            finish: self.counter,
            reads,
            writes,
            standing,
        }
    }
}

// Takes room for one more row of a session, and then does all writes. Refused with `Memory` alone, and then no write is done. The rows stay as
// they are.
fn take_room<A: Allocator + Copy>(
    log: &mut Log<A>,
    tables: &mut Tables<A>,
    session: usize,
    writes: &WriteSet<A>,
) -> Result<(), Fault>
    requires from { 1 ≤ session }
    requires below { session ≤ log.old.sessions }
    requires placed { ArePlaced tables.old.tables writes.now }
    ensures room { OnOk result (HasRoom log.new session) }
    ensures rows { log.new.rows ≡ log.old.rows }
    ensures first { log.new.first ≡ log.old.first }
    ensures sessions { log.new.sessions ≡ log.old.sessions }
    ensures ok { OnOk result (tables.new ≡ record { tables = tables.old.tables; state = apply tables.old.state writes.now }) }
    ensures err { OnErr result (tables.new ≡ tables.old) }
    ensures memory { IsOkUnless result Memory }
{
    log.reserve(session)?;
    tables.put_all(writes)?;
    Ok(())
}

// A row comes into the log, in the room that was taken for it, and its session is free after it. It takes no memory.
fn settle<A: Allocator>(log: &mut Log<A>, sessions: &mut Sessions<A>, row: LogRow<A, OpenCase<A>>)
    requires from { 1 ≤ row.session }
    requires below { row.session - 1 < length sessions.old }
    requires room { HasRoom log.old row.session }
    requires place { row.place ≡ log.old.first + length log.old.rows }
    ensures rows { log.new.rows ≡ log.old.rows ++ log_row_of row ∷ [] }
    ensures first { log.new.first ≡ log.old.first }
    ensures sessions { log.new.sessions ≡ log.old.sessions }
    ensures passed { sessions.new ≡ slice_set sessions.old (row.session - 1) (record { last = row.number; hold = None }) }
{
    sessions.pass(row.session - 1, row.number);
    log.push(row);
}
