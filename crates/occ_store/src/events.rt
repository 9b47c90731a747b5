//! The events that move the locked state: each is one step of the model, with its publishing.
ghost use Rattle.std.specs.Prelude.{◌≡◌, ◌+◌, ◌^◌, ◌<◌, ℕ, Option, None, Some, Err, IsTrue, IfOk, IfErr, OnOk};
ghost use Rattle.std.specs.Option.{option_copied};
ghost use Rattle.boxcar.specs.Table.{Where, Shows};
ghost use Rattle.occ_types.specs.declared.fault.Fault.TheVariants.{WrongCase};
ghost use Rattle.occ_types.specs.Question.{One, Span};
ghost use Rattle.occ_types.specs.PlainData.{key_of, end_of};
ghost use Rattle.occ_model.specs.Log.{Case as PlainCase};
ghost use Rattle.occ_model.specs.Event.{Read, Answered, Forget, Forgotten, Decide, Decided, WriteOne, Finish, Finished, BackedUp, SerialEnd, RunAlone, Checkpoint, Folded};
ghost use Rattle.occ_model.specs.State.{Found, Rows};
ghost use Rattle.occ_sets.specs.PlainSets.{rows_of};
ghost use Rattle.occ_queue.specs.Items.{item_of};
ghost use Rattle.occ_model.specs.Replies.{replied, replied_back};
ghost use Rattle.occ_core.specs.Replies.{outcome_of, wrote, CanEnter, CanEnd};
ghost use Rattle.occ_history.specs.History.{IsHere};
ghost use Rattle.occ_store.specs.Locked.{world_of, Happens, EntersAs, BacksUp, rows_entered};
ghost use Rattle.occ_store.specs.Lanes.{DecidesAs, IsDoer};
ghost use Rattle.occ_store.specs.Transactions.{MayRead};

use crate::names::{FrontOf, Name};
use crate::publishing::{account, cause_told, law, store_commit};
use crate::shared::Shared;
use occ_case::{Cause, Judged, Verdict};
use occ_core::{Outcome, SingleWrite};
use occ_queue::Item;
use occ_sets::RangeRows;
use occ_types::{Fault, Key, Refused, Row};
use std::alloc::Allocator;
use std::marker::Brand;
use std::snapshot::Snapshot;
use std::sync::Wait;
use std::sync::ledger::Share;

impl<N: Name, A: Allocator + Copy> Shared<N, A> {
    // Forgets a read phase.
    pub(crate) fn forget(&mut self, session: usize, number: u64) -> Result<bool, Fault>
        requires own { MayRead self.old.visitor.party session }
        ensures { Happens self.old.visitor self.old session (Forget session number) (replied Forgotten result) self.new.visitor self.new }
    {
        law(&self.filed);
        let known = self.filed.forget(session, number);
        self.story
            .add::<Brand, _>(&mut self.visitor, &(session, number, &known));
        known
    }

    // Decides now what a session has entered.
    pub(crate) fn decide(&mut self, me: &mut FrontOf<N>, session: usize) -> Result<Verdict, Fault>
        requires own { IsDoer me.old.party session }
        ensures { Happens me.old self.old session (Decide session) (replied Decided result) me.new self.new }
    {
        law(&self.filed);
        let decided = self.filed.decide(session);
        self.story.add::<Brand, _>(me, &(session, &decided));
        decided
    }

    // Decides it by a verdict that was reached outside the lock, on a case of the store's file.
    pub(crate) fn decide_by(
        &mut self,
        me: &mut FrontOf<N>,
        session: usize,
        judged: Judged<A>,
    ) -> Result<Verdict, Fault>
        requires own { IsDoer me.old.party session }
        requires own_file { Shows N.named.file judged }
        ensures { DecidesAs me.old session (Some judged) self.old result me.new self.new }
    {
        law(&self.filed);
        let decided = self.filed.decide_by(session, judged);
        if is_of_another(&decided) {
            return decided;
        }
        self.story.add::<Brand, _>(me, &(session, &decided));
        decided
    }

    // Ends a write phase: the counter and the session's word are stored.
    pub(crate) fn finish(&mut self, me: &mut FrontOf<N>, session: usize) -> Result<u64, Fault>
        requires own { IsDoer me.old.party session }
        ensures { Happens me.old self.old session (Finish session) (replied Finished result) me.new self.new }
    {
        law(&self.filed);
        match self.filed.finish(session) {
            Ok(tn) => {
                law(&self.filed);
                store_commit(&mut self.publisher, session, tn);
                let finished = Ok(tn);
                self.story.add::<Brand, _>(me, &(session, &finished));
                finished
            }
            Err(fault) => {
                let refused = Err(fault);
                self.story.add::<Brand, _>(me, &(session, &refused));
                refused
            }
        }
    }

    // Lets a session go on after its transaction was decided to be backed up: its word is stored, with the cause of its row, or the one
    // that was kept since the decision where the row was folded.
    pub(crate) fn back_up(
        &mut self,
        me: &mut FrontOf<N>,
        session: usize,
        kept: Cause,
    ) -> Result<u64, Fault>
        requires own { IsDoer me.old.party session }
        ensures { BacksUp me.old self.old session kept (replied BackedUp result) me.new self.new }
    {
        law(&self.filed);
        match self.filed.back_up(session) {
            Ok(number) => {
                law(&self.filed);
                let cause = cause_told(self.filed.core(), session, number, kept);
                self.publisher
                    .settled(session, number, Verdict::BackUp(cause));
                let backed_up = Ok(number);
                self.story.add::<Brand, _>(me, &(session, &backed_up));
                backed_up
            }
            Err(fault) => {
                let refused = Err(fault);
                self.story.add::<Brand, _>(me, &(session, &refused));
                refused
            }
        }
    }
}

impl<N: Name, A: Allocator + Copy> Shared<N, A> {
    // Reads the row under a key.
    pub(crate) fn read(
        &mut self,
        session: usize,
        number: u64,
        start: u64,
        table: usize,
        key: &Key<A>,
    ) -> Result<Option<Row<A>>, Fault>
        requires own { MayRead self.old.visitor.party session }
        ensures { Happens self.old.visitor self.old session (Read session number start (One table (key_of key.now))) (replied (λ row. Answered (Found row)) result) self.new.visitor self.new }
    {
        law(&self.filed);
        let row = self.filed.read(session, number, start, table, key);
        let about = (session, number, start, table, key, &row);
        self.story.add::<Brand, _>(&mut self.visitor, &about);
        row
    }

    // Reads the rows of a range.
    pub(crate) fn scan(
        &mut self,
        session: usize,
        number: u64,
        start: u64,
        table: usize,
        lower: Option<&Key<A>>,
        upper: Option<&Key<A>>,
    ) -> Result<RangeRows<A>, Fault>
        requires own { MayRead self.old.visitor.party session }
        ensures { Happens self.old.visitor self.old session (Read session number start (Span table (end_of (option_copied lower.entry)) (end_of (option_copied upper.entry)))) (replied (λ rows. Answered (Rows rows)) result) self.new.visitor self.new }
    {
        law(&self.filed);
        let rows = self.filed.scan(session, number, start, table, lower, upper);
        let about = (session, number, start, table, lower, upper, &rows);
        self.story.add::<Brand, _>(&mut self.visitor, &about);
        rows
    }

    // Reads the rows of a range, as copies that the caller alone owns.
    pub(crate) fn scan_apart(
        &mut self,
        session: usize,
        number: u64,
        start: u64,
        table: usize,
        lower: Option<&Key<A>>,
        upper: Option<&Key<A>>,
    ) -> Result<Vec<(Key<A>, Row<A>), A>, Fault>
        requires own { MayRead self.old.visitor.party session }
        ensures { Happens self.old.visitor self.old session (Read session number start (Span table (end_of (option_copied lower.entry)) (end_of (option_copied upper.entry)))) (replied (λ rows. Answered (Rows (rows_of rows.items))) result) self.new.visitor self.new }
    {
        law(&self.filed);
        let rows = self
            .filed
            .scan_apart(session, number, start, table, lower, upper);
        let about = (session, number, start, table, lower, upper, &rows);
        self.story.add::<Brand, _>(&mut self.visitor, &about);
        rows
    }

    // Does the next single write of what a session has under way.
    pub(crate) fn write_one(
        &mut self,
        me: &mut FrontOf<N>,
        session: usize,
    ) -> Result<SingleWrite, Fault>
        requires own { IsDoer me.old.party session }
        ensures { Happens me.old self.old session (WriteOne session) (replied (wrote (world_of self.new)) result) me.new self.new }
    {
        law(&self.filed);
        let wrote = self.filed.write_one(session);
        self.story
            .add::<Brand, _>(me, &(session, &self.filed, &wrote));
        wrote
    }

    // Enters an item, and files the case of a request. Operations that run alone are over then.
    pub(crate) fn enter<R: Wait>(
        &mut self,
        rt: &R,
        me: &mut FrontOf<N>,
        session: usize,
        item: Item<A>,
        share: &mut Share<N>,
    ) -> Result<Outcome<A>, Refused<Item<A>>>
        requires own { IsDoer me.old.party session }
        requires part { 0 < share.old.parts }
        ensures step { (token : Option (Where PlainCase)) × EntersAs me.old self.old session (item_of item) token (replied_back outcome_of result) me.new self.new }
        ensures outcome { IfOk result (CanEnter (item_of item)) }
        ensures handed_back { IfErr result (λ refused. item_of refused.value ≡ item_of item) }
        ensures counted { share.new.amount ≡ share.old.amount + rows_entered (replied_back outcome_of result) }
        ensures bound { OnOk result (share.new.amount < 2 ^ 64) }
        ensures parts { share.new.parts ≡ share.old.parts }
    {
        law(&self.filed);
        let about = Snapshot::of(&item);
        match self.filed.enter(rt, session, item) {
            Ok(filed) => {
                let came = Ok(filed.outcome);
                law(&self.filed);
                account(
                    &self.filed,
                    &mut self.publisher,
                    &mut self.rows,
                    session,
                    &came,
                    share,
                );
                self.story.add::<Brand, _>(me, &(session, &about, &came));
                came
            }
            Err(refused) => {
                let refused = Err(refused);
                self.story.add::<Brand, _>(me, &(session, &about, &refused));
                refused
            }
        }
    }

    // Enters an item, and files no case.
    pub(crate) fn enter_unfiled(
        &mut self,
        me: &mut FrontOf<N>,
        session: usize,
        item: Item<A>,
        share: &mut Share<N>,
    ) -> Result<Outcome<A>, Refused<Item<A>>>
        requires own { IsDoer me.old.party session }
        requires part { 0 < share.old.parts }
        ensures step { EntersAs me.old self.old session (item_of item) None (replied_back outcome_of result) me.new self.new }
        ensures outcome { IfOk result (CanEnter (item_of item)) }
        ensures handed_back { IfErr result (λ refused. item_of refused.value ≡ item_of item) }
        ensures counted { share.new.amount ≡ share.old.amount + rows_entered (replied_back outcome_of result) }
        ensures bound { OnOk result (share.new.amount < 2 ^ 64) }
        ensures parts { share.new.parts ≡ share.old.parts }
    {
        law(&self.filed);
        let about = Snapshot::of(&item);
        let came = self.filed.enter_unfiled(session, item);
        law(&self.filed);
        account(
            &self.filed,
            &mut self.publisher,
            &mut self.rows,
            session,
            &came,
            share,
        );
        self.story.add::<Brand, _>(me, &(session, &about, &came));
        came
    }

    // Ends an item serially.
    pub(crate) fn serial_end(
        &mut self,
        me: &mut FrontOf<N>,
        session: usize,
        item: Item<A>,
        share: &mut Share<N>,
    ) -> Result<Outcome<A>, Refused<Item<A>>>
        requires own { IsDoer me.old.party session }
        requires part { 0 < share.old.parts }
        ensures step { Happens me.old self.old session (SerialEnd session (item_of item)) (replied_back outcome_of result) me.new self.new }
        ensures outcome { IfOk result (CanEnd (item_of item)) }
        ensures handed_back { IfErr result (λ refused. item_of refused.value ≡ item_of item) }
        ensures counted { share.new.amount ≡ share.old.amount + rows_entered (replied_back outcome_of result) }
        ensures bound { OnOk result (share.new.amount < 2 ^ 64) }
        ensures parts { share.new.parts ≡ share.old.parts }
    {
        law(&self.filed);
        let about = Snapshot::of(&item);
        let came = self.filed.serial_end(session, item);
        law(&self.filed);
        account(
            &self.filed,
            &mut self.publisher,
            &mut self.rows,
            session,
            &came,
            share,
        );
        self.story.add::<Brand, _>(me, &(session, &about, &came));
        came
    }

    /// Folds the settled beginning of the log into the base, and answers how many rows it folded, as `Core::checkpoint` does.
    pub(crate) fn checkpoint(&mut self, me: &mut FrontOf<N>) -> Result<usize, Fault>
        requires here { IsHere me.old.party }
        ensures { (session : ℕ) → Happens me.old self.old session Checkpoint (replied Folded result) me.new self.new }
    {
        law(&self.filed);
        let folded = self.filed.checkpoint();
        self.story.add::<Brand, _>(me, &folded);
        folded
    }
}

// Whether a decision is refused as its verdict is on another case.
fn is_of_another(decided: &Result<Verdict, Fault>) -> bool
    ensures yes { IsTrue result → decided.now ≡ Err WrongCase }
    ensures all { decided.now ≡ Err WrongCase → IsTrue result }
{
    match decided {
        Ok(_) => false,
        Err(fault) => *fault == Fault::WrongCase,
    }
}
