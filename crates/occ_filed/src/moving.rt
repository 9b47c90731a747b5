//! The calls that the core makes alone.
ghost use Rattle.std.specs.Prelude.{◌≡◌, ℕ, IfOk, IfErr, Ok, is_some, true};
ghost use Rattle.std.specs.Option.{option_copied};
ghost use Rattle.occ_types.specs.Question.{One, Span};
ghost use Rattle.occ_types.specs.PlainData.{key_of, end_of};
ghost use Rattle.occ_model.specs.Event.{Read, Answered, Forget, Forgotten, WriteOne, Finish, Finished, BackUp, BackedUp, SerialEnd, RunAlone, Checkpoint, Folded};
ghost use Rattle.occ_model.specs.State.{Found, Rows};
ghost use Rattle.occ_sets.specs.Operations.{ops_of};
ghost use Rattle.occ_sets.specs.PlainSets.{rows_of};
ghost use Rattle.occ_queue.specs.Items.{item_of};
ghost use Rattle.occ_model.specs.Replies.{replied, replied_back};
ghost use Rattle.occ_core.specs.Replies.{outcome_of, ran, wrote, written_in, IsNextWrite, CanEnd};
ghost use Rattle.occ_core.specs.declared.writing.SingleWrite.TheVariants.{Wrote};
ghost use Rattle.occ_filed.specs.Filed.{Moves};

use crate::filed_core::FiledCore;
use occ_core::{Outcome, SingleWrite};
use occ_queue::Item;
use occ_sets::{Answer, Op, RangeRows};
use occ_types::{Fault, Key, Refused, Row};
use std::alloc::Allocator;

impl<A: Allocator> FiledCore<A> {
    /// As `Core::forget`.
    pub fn forget(&mut self, session: usize, number: u64) -> Result<bool, Fault>
        ensures { Moves self.old (Forget session number) (replied Forgotten result) self.new }
    {
        self.core.forget(session, number)
    }

    /// As `Core::finish`.
    pub fn finish(&mut self, session: usize) -> Result<u64, Fault>
        ensures { Moves self.old (Finish session) (replied Finished result) self.new }
    {
        self.core.finish(session)
    }

    /// As `Core::back_up`.
    pub fn back_up(&mut self, session: usize) -> Result<u64, Fault>
        ensures { Moves self.old (BackUp session) (replied BackedUp result) self.new }
    {
        self.core.back_up(session)
    }
}

impl<A: Allocator + Copy> FiledCore<A> {
    /// As `Core::read`.
    pub fn read(
        &mut self,
        session: usize,
        number: u64,
        start: u64,
        table: usize,
        key: &Key<A>,
    ) -> Result<Option<Row<A>>, Fault>
        ensures { Moves self.old (Read session number start (One table (key_of key.now))) (replied (λ row. Answered (Found row)) result) self.new }
    {
        self.core.read(session, number, start, table, key)
    }

    /// As `Core::scan`.
    pub fn scan(
        &mut self,
        session: usize,
        number: u64,
        start: u64,
        table: usize,
        lower: Option<&Key<A>>,
        upper: Option<&Key<A>>,
    ) -> Result<RangeRows<A>, Fault>
        ensures { Moves self.old (Read session number start (Span table (end_of (option_copied lower.entry)) (end_of (option_copied upper.entry)))) (replied (λ rows. Answered (Rows rows)) result) self.new }
    {
        self.core.scan(session, number, start, table, lower, upper)
    }

    /// As `Core::scan_apart`.
    pub fn scan_apart(
        &mut self,
        session: usize,
        number: u64,
        start: u64,
        table: usize,
        lower: Option<&Key<A>>,
        upper: Option<&Key<A>>,
    ) -> Result<Vec<(Key<A>, Row<A>), A>, Fault>
        ensures { Moves self.old (Read session number start (Span table (end_of (option_copied lower.entry)) (end_of (option_copied upper.entry)))) (replied (λ rows. Answered (Rows (rows_of rows.items))) result) self.new }
    {
        self.core
            .scan_apart(session, number, start, table, lower, upper)
    }

    /// As `Core::write_one`.
    pub fn write_one(&mut self, session: usize) -> Result<SingleWrite, Fault>
        ensures step { Moves self.old (WriteOne session) (replied (wrote self.new.world) result) self.new }
        ensures named { (row write : ℕ) → result ≡ Ok (Wrote row write) → is_some (written_in self.new.world row write) ≡ true }
        ensures own { (row write : ℕ) → result ≡ Ok (Wrote row write) → IsNextWrite self.old.world session row write }
    {
        self.core.write_one(session)
    }

    /// As `Core::serial_end`, which makes no case.
    pub fn serial_end(
        &mut self,
        session: usize,
        item: Item<A>,
    ) -> Result<Outcome<A>, Refused<Item<A>>>
        ensures step { Moves self.old (SerialEnd session (item_of item)) (replied_back outcome_of result) self.new }
        ensures outcome { IfOk result (CanEnd (item_of item)) }
        ensures handed_back { IfErr result (λ refused. item_of refused.value ≡ item_of item) }
    {
        self.core.serial_end(session, item)
    }

    /// As `Core::run_alone`, which makes no case.
    pub fn run_alone(
        &mut self,
        session: usize,
        number: u64,
        operations: Vec<Op<A>, A>,
    ) -> Result<(u64, Vec<Answer<A>, A>), Refused<Vec<Op<A>, A>>>
        ensures step { Moves self.old (RunAlone session number (ops_of operations.items)) (replied_back ran result) self.new }
        ensures handed_back { IfErr result (λ refused. refused.value ≡ operations) }
    {
        self.core.run_alone(session, number, operations)
    }

    /// As `Core::checkpoint`. The file keeps the cases of the rows that are folded.
    pub fn checkpoint(&mut self) -> Result<usize, Fault>
        ensures { Moves self.old Checkpoint (replied Folded result) self.new }
    {
        self.core.checkpoint()
    }
}
