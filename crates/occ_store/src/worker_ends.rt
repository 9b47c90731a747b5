//! How a worker ends its transactions: one holding of the lock for each event.
ghost use Rattle.std.specs.Prelude.{◌≡◌, ◌+◌, ◌^◌, ◌<◌, ℕ, false, Some, None, Ok, IfOk, IfErr, IfSome, OnErr, OnOk};
ghost use Rattle.occ_model.specs.Event.{Item as PlainItem, Reply, BackedUp, Decide};
ghost use Rattle.occ_model.specs.Event as events;
ghost use Rattle.occ_history.specs.History.{Session as SessionParty};
ghost use Rattle.occ_model.specs.Replies.{replied_back, replied};
ghost use Rattle.occ_model.specs.declared.verdict.Verdict.TheVariants.{Commit, BackUp};
ghost use Rattle.occ_core.specs.Replies.{outcome_of};
ghost use Rattle.occ_queue.specs.Items.{item_of, number_of, is_mark};
ghost use Rattle.occ_store.specs.Locked.{rows_entered, Happens, BacksUp};
ghost use Rattle.occ_store.specs.Lanes.{Nothing, Kept, Decided, left_of, token_left, number_left};
ghost use Rattle.occ_store.specs.Workers.{HandedIn, IsUnmarked, IsUnmarkedOutcome, IsRow, begin_fault, holding, unentered, IsKept, Over, LeftOver, EndsLeft, GoesOn, LeftOf, StaysLeft, HappensTo, Takes, TakesIn, Advances, IsAnswered, left_taking, DecidesSo, Commits, ConcludesAs};
ghost use Rattle.occ_store.specs.Standing.{GoesOnTo};

use crate::names::Name;
use crate::publishing::rows_in;
use crate::shared::Shared;
use crate::stores::Store;
use crate::transactions::Transaction;
use crate::unfinished::Left;
use crate::workers::Worker;
use occ_case::{Cause, Ended, Verdict};
use occ_core::Outcome;
use occ_queue::Item;
use occ_types::{Fault, Refused};
use std::alloc::Allocator;
use std::sync::Wait;
use std::sync::ledger::Share;
use std::{mem, thread};

// How often operations that wait to run alone are tried, each time in another lease.
const BUSY_TRIES: usize = 1000000;

impl<N: Name, A: Allocator + Copy> Worker<N, A> {
    /// Hands an item in, under its number, and brings it to its end. Refused as the store refuses one of its events: it is left then.
    pub(crate) fn end<R: Wait>(
        &mut self,
        rt: &R,
        store: &Store<N, A>,
        item: Item<A>,
    ) -> Result<Ended<()>, Fault>
        requires nothing { self.old.left ≡ Nothing }
        requires spare { begin_fault self.old ≡ None }
        requires next { number_of (item_of item) ≡ self.old.last + 1 }
        requires unmarked { is_mark (item_of item) ≡ false }
        ensures over { IfOk result (λ ended. Over N.named self.old.session (item_of item) ended self.old.front self.new.front) }
        ensures nothing_left { OnOk result (self.new ≡ record self.old { last = self.old.last + 1; entered = self.old.entered + 1; front = self.new.front }) }
        ensures kept { OnErr result (IsKept self.new × (self.new ≡ record self.old { last = self.old.last + 1; entered = self.new.entered; left = self.new.left; front = self.new.front })) }
        ensures left { OnErr result (LeftOf N.named self.old.session (item_of item) self.new.left self.old.front self.new.front) }
        ensures seen { OnErr result (GoesOnTo self.old.front self.new.front) }
    {
        match self.hand_in(rt, store, item) {
            Ok(Some(ended)) => Ok(ended),
            Ok(None) => self.go_on(rt, store),
            Err(fault) => Err(fault),
        }
    }

    // Its first event, in a holding of the lock.
    fn hand_in<R: Wait>(
        &mut self,
        rt: &R,
        store: &Store<N, A>,
        item: Item<A>,
    ) -> Result<Option<Ended<()>>, Fault>
        requires nothing { self.old.left ≡ Nothing }
        requires spare { begin_fault self.old ≡ None }
        requires next { number_of (item_of item) ≡ self.old.last + 1 }
        requires unmarked { is_mark (item_of item) ≡ false }
        ensures { HappensTo N.named (holding self.old (item_of item)) (Kept (item_of item)) result self.new }
    {
        let mut shared = store.lock(rt);
        shared.law();
        self.begin_with(&mut shared, item)
    }

    // The same on the locked state.
    fn begin_with(
        &mut self,
        shared: &mut Shared<N, A>,
        item: Item<A>,
    ) -> Result<Option<Ended<()>>, Fault>
        requires nothing { self.old.left ≡ Nothing }
        requires spare { begin_fault self.old ≡ None }
        requires next { number_of (item_of item) ≡ self.old.last + 1 }
        requires unmarked { is_mark (item_of item) ≡ false }
        ensures { TakesIn (holding self.old (item_of item)) (item_of item) shared.old result self.new shared.new }
    {
        let number = item.number();
        let share = &mut self.share;
        let entered = &mut self.entered;
        let (left, taken) = self.transaction.take_in(shared, item, share, entered);
        self.last = number;
        self.left = left;
        taken
    }

    /// This is left of it from now on, under the next number.
    pub(crate) fn hold(&mut self, item: Item<A>)
        requires nothing { self.old.left ≡ Nothing }
        requires spare { begin_fault self.old ≡ None }
        requires next { number_of (item_of item) ≡ self.old.last + 1 }
        requires unmarked { is_mark (item_of item) ≡ false }
        ensures { self.new ≡ holding self.old (item_of item) }
    {
        self.last = item.number();
        self.left = Left::Kept(item);
    }

    /// Brings to its end what an error left, where something is. How that ended is not told. A worker that has nothing left doesn't take
    /// the lock.
    pub(crate) fn end_left<R: Wait>(&mut self, rt: &R, store: &Store<N, A>) -> Result<(), Fault>
        ensures ended { OnOk result (EndsLeft N.named self.old self.new.front) }
        ensures nothing_left { OnOk result (self.new ≡ record self.old { left = Nothing; entered = self.new.entered; front = self.new.front }) }
        ensures kept { OnErr result (IsKept self.new × (self.new ≡ record self.old { left = self.new.left; entered = self.new.entered; front = self.new.front })) }
        ensures left { OnErr result (StaysLeft N.named self.old self.new) }
        ensures seen { GoesOnTo self.old.front self.new.front }
    {
        if !self.has_left() {
            return Ok(());
        }
        let _ended = self.go_on(rt, store)?;
        Ok(())
    }

    /// Brings to its end what an error left, and tells how that ended; none where nothing is left, and then it doesn't take the lock. It
    /// takes a lease of its own. While operations that run alone are left and a row of another session is under way, it gives the lease
    /// back between its tries, and is refused with `StoreBusy` after the last one. Refused too with the fault that an event meets, which
    /// may be `LogFull` until a checkpoint is made. What is left stays then, for the next call.
    pub fn resume<R: Wait>(
        &mut self,
        rt: &R,
        store: &Store<N, A>,
    ) -> Result<Option<Ended<()>>, Fault>
        ensures over { IfOk result (λ ended. LeftOver N.named self.old ended self.new.front) }
        ensures nothing_left { OnOk result (self.new ≡ record self.old { left = Nothing; entered = self.new.entered; front = self.new.front }) }
        ensures kept { OnErr result (IsKept self.new × (self.new ≡ record self.old { left = self.new.left; entered = self.new.entered; front = self.new.front })) }
        ensures left { OnErr result (StaysLeft N.named self.old self.new) }
        ensures seen { GoesOnTo self.old.front self.new.front }
    {
        if !self.has_left() {
            return Ok(None);
        }
        for tried in 0..BUSY_TRIES {
            match self.go_on_leased(rt, store) {
                Err(Fault::StoreBusy) => thread::yield_now(),
                Err(fault) => return Err(fault),
                Ok(ended) => return Ok(Some(ended)),
            }
        }
        Err(Fault::StoreBusy)
    }

    // Brings to its end what is left, in a lease.
    fn go_on_leased<R: Wait>(&mut self, rt: &R, store: &Store<N, A>) -> Result<Ended<()>, Fault>
        requires { IsKept self.old }
        ensures over { IfOk result (λ ended. LeftOver N.named self.old (Some ended) self.new.front) }
        ensures nothing_left { OnOk result (self.new ≡ record self.old { left = Nothing; entered = self.old.entered + unentered self.old.left; front = self.new.front }) }
        ensures goes_on { OnErr result (GoesOn N.named self.old self.new) }
        ensures left { OnErr result (StaysLeft N.named self.old self.new) }
        ensures seen { GoesOnTo self.old.front self.new.front }
    {
        let _lease = store.lease(rt);
        self.go_on(rt, store)
    }

    // Brings to its end what is left.
    fn go_on<R: Wait>(&mut self, rt: &R, store: &Store<N, A>) -> Result<Ended<()>, Fault>
        requires { IsKept self.old }
        ensures over { IfOk result (λ ended. LeftOver N.named self.old (Some ended) self.new.front) }
        ensures nothing_left { OnOk result (self.new ≡ record self.old { left = Nothing; entered = self.old.entered + unentered self.old.left; front = self.new.front }) }
        ensures goes_on { OnErr result (GoesOn N.named self.old self.new) }
        ensures left { OnErr result (StaysLeft N.named self.old self.new) }
        ensures seen { GoesOnTo self.old.front self.new.front }
    {
        for _ in rt.forever() {
            match self.event(rt, store) {
                Ok(None) => {}
                Ok(Some(ended)) => return Ok(ended),
                Err(fault) => return Err(fault),
            }
        }
        unreachable!()
    }

    // One event of what is left, in a holding of the lock. How the transaction ended, where it is over by it.
    fn event<R: Wait>(&mut self, rt: &R, store: &Store<N, A>) -> Result<Option<Ended<()>>, Fault>
        ensures { HappensTo N.named self.old self.old.left result self.new }
    {
        let mut shared = store.lock(rt);
        shared.law();
        self.advance(&mut shared)
    }
}

impl<N: Name, A: Allocator + Copy> Worker<N, A> {
    // One event of what is left, on the locked state.
    fn advance(&mut self, shared: &mut Shared<N, A>) -> Result<Option<Ended<()>>, Fault>
        ensures { Advances self.old self.old.left shared.old result self.new shared.new }
    {
        match mem::replace(&mut self.left, Left::Nothing) {
            Left::Nothing => Err(Fault::NothingEntered),
            Left::Kept(item) => {
                let share = &mut self.share;
                let entered = &mut self.entered;
                let (left, taken) = self.transaction.take_in(shared, item, share, entered);
                self.left = left;
                taken
            }
            Left::Open { number, .. } => self.decide(shared, number),
            Left::Decided { number, verdict } => match verdict {
                Verdict::Commit => self.commit(shared, number),
                Verdict::BackUp(cause) => self.back_up(shared, number, cause),
            },
        }
    }

    // The row of a number is decided.
    fn decide(&mut self, shared: &mut Shared<N, A>, number: u64) -> Result<Option<Ended<()>>, Fault>
        requires nothing { self.old.left ≡ Nothing }
        requires last { number ≡ self.old.last }
        ensures { DecidesSo self.old number shared.old result self.new shared.new }
    {
        match self.transaction.decide(shared) {
            Ok(verdict) => {
                self.keep(Left::Decided { number, verdict });
                Ok(None)
            }
            Err(fault) => {
                let token = None;
                self.keep(Left::Open { number, token });
                Err(fault)
            }
        }
    }

    // A row that is decided to commit does its next single write, or finishes.
    fn commit(&mut self, shared: &mut Shared<N, A>, number: u64) -> Result<Option<Ended<()>>, Fault>
        requires nothing { self.old.left ≡ Nothing }
        requires last { number ≡ self.old.last }
        ensures { ConcludesAs self.old number Commit shared.old result self.new shared.new }
    {
        match self.transaction.write_or_finish(shared) {
            Ok(Some(ended)) => Ok(Some(ended)),
            Ok(None) => {
                self.keep(committing(number));
                Ok(None)
            }
            Err(fault) => {
                self.keep(committing(number));
                Err(fault)
            }
        }
    }

    // A row that was decided to be backed up is, for the cause that was kept.
    fn back_up(
        &mut self,
        shared: &mut Shared<N, A>,
        number: u64,
        cause: Cause,
    ) -> Result<Option<Ended<()>>, Fault>
        requires nothing { self.old.left ≡ Nothing }
        requires last { number ≡ self.old.last }
        ensures { ConcludesAs self.old number (BackUp cause) shared.old result self.new shared.new }
    {
        match self.transaction.back_up(shared, cause) {
            Ok(_number) => Ok(Some(Ended::BackedUp(cause))),
            Err(fault) => {
                let verdict = Verdict::BackUp(cause);
                self.keep(Left::Decided { number, verdict });
                Err(fault)
            }
        }
    }

    // This is left of what it handed in last: a row that entered.
    fn keep(&mut self, left: Left<A>)
        requires nothing { self.old.left ≡ Nothing }
        requires row { IsRow self.old.last (left_of left) }
        ensures { self.new ≡ record self.old { left = left_of left } }
    {
        self.left = left;
    }
}

// The events of a worker's transaction, on the locked state.
impl<N: Name, A: Allocator + Copy> Transaction<N, A> {
    // Its row is decided.
    fn decide(&mut self, shared: &mut Shared<N, A>) -> Result<Verdict, Fault>
        requires own { self.old.front.party ≡ SessionParty self.old.session }
        ensures decided { Happens self.old.front shared.old self.old.session (Decide self.old.session) (replied events.Decided result) self.new.front shared.new }
        ensures same { self.new ≡ record self.old { front = self.new.front } }
        ensures party { self.new.front.party ≡ self.old.front.party }
    {
        shared.decide(&mut self.front, self.session)
    }

    // Its row, which was decided to commit, does its next single write, or finishes.
    fn write_or_finish(&mut self, shared: &mut Shared<N, A>) -> Result<Option<Ended<()>>, Fault>
        requires own { self.old.front.party ≡ SessionParty self.old.session }
        ensures commits { Commits self.old.front self.old.session shared.old result self.new.front shared.new }
        ensures same { self.new ≡ record self.old { front = self.new.front } }
        ensures party { self.new.front.party ≡ self.old.front.party }
    {
        if shared.core().next_write(self.session).is_some() {
            let _write = shared.write_one(&mut self.front, self.session)?;
            return Ok(None);
        }
        let tn = shared.finish(&mut self.front, self.session)?;
        Ok(Some(Ended::Committed { tn, value: () }))
    }

    // Its row is backed up, for the cause that was kept.
    fn back_up(&mut self, shared: &mut Shared<N, A>, cause: Cause) -> Result<u64, Fault>
        requires own { self.old.front.party ≡ SessionParty self.old.session }
        ensures backed_up { BacksUp self.old.front shared.old self.old.session cause (replied BackedUp result) self.new.front shared.new }
        ensures same { self.new ≡ record self.old { front = self.new.front } }
        ensures party { self.new.front.party ≡ self.old.front.party }
    {
        shared.back_up(&mut self.front, self.session, cause)
    }

    // An item comes in. It answers what is left of it, and how it ended, where it is over.
    fn take_in(
        &mut self,
        shared: &mut Shared<N, A>,
        item: Item<A>,
        share: &mut Share<N>,
        entered: &mut u64,
    ) -> (Left<A>, Result<Option<Ended<()>>, Fault>)
        requires own { self.old.front.party ≡ SessionParty self.old.session }
        requires part { 0 < share.old.parts }
        requires amount { share.old.amount ≡ entered.old }
        requires unmarked { is_mark (item_of item) ≡ false }
        ensures step { (reply : Reply) × Takes self.old.front self.old.session (item_of item) shared.old reply self.new.front shared.new × IsAnswered reply result.1
            × (left_of result.0 ≡ left_taking (item_of item) reply) × (entered.new ≡ entered.old + rows_entered reply) }
        ensures same { self.new ≡ record self.old { front = self.new.front } }
        ensures party { self.new.front.party ≡ self.old.front.party }
        ensures handed_in { (first last : ℕ) → HandedIn first last entered.old (Kept (item_of item)) → HandedIn first last entered.new (left_of result.0) }
        ensures unfiled { token_left (left_of result.0) ≡ None }
        ensures number { IfSome (number_left (left_of result.0)) (λ number. number ≡ number_of (item_of item)) }
        ensures unmarked { IsUnmarked (left_of result.0) }
        ensures amount { share.new.amount ≡ entered.new }
        ensures parts { share.new.parts ≡ share.old.parts }
    {
        let number = item.number();
        match self.enter(shared, item, share) {
            Ok(outcome) => {
                *entered += rows_in(&outcome);
                let (left, ended) = after(outcome, number);
                (left, Ok(ended))
            }
            Err(refused) => (Left::Kept(refused.value), Err(refused.fault)),
        }
    }

    // An item ends serially where no row is active, and else enters, without a case that is filed.
    fn enter(
        &mut self,
        shared: &mut Shared<N, A>,
        item: Item<A>,
        share: &mut Share<N>,
    ) -> Result<Outcome<A>, Refused<Item<A>>>
        requires own { self.old.front.party ≡ SessionParty self.old.session }
        requires part { 0 < share.old.parts }
        requires unmarked { is_mark (item_of item) ≡ false }
        ensures step { Takes self.old.front self.old.session (item_of item) shared.old (replied_back outcome_of result) self.new.front shared.new }
        ensures same { self.new ≡ record self.old { front = self.new.front } }
        ensures party { self.new.front.party ≡ self.old.front.party }
        ensures unmarked { IfOk result IsUnmarkedOutcome }
        ensures handed_back { IfErr result (λ refused. item_of refused.value ≡ item_of item) }
        ensures counted { share.new.amount ≡ share.old.amount + rows_entered (replied_back outcome_of result) }
        ensures bound { OnOk result (share.new.amount < 2 ^ 64) }
        ensures parts { share.new.parts ≡ share.old.parts }
    {
        if shared.core().active() == 0 {
            return shared.serial_end(&mut self.front, self.session, item, share);
        }
        shared.enter_unfiled(&mut self.front, self.session, item, share)
    }
}

// What is left of an item with this number by what came of it, and how it ended, where it is over.
fn after<A: Allocator + Copy>(outcome: Outcome<A>, number: u64) -> (Left<A>, Option<Ended<()>>)
    requires { IsUnmarkedOutcome outcome }
    ensures answered { IsAnswered (outcome_of outcome) (Ok result.1) }
    ensures left { (item : PlainItem) → number ≡ number_of item → left_of result.0 ≡ left_taking item (outcome_of outcome) }
{
    match outcome {
        Outcome::Entered { .. } => {
            let token = None;
            (Left::Open { number, token }, None)
        }
        Outcome::Committed { tn } => (Left::Nothing, Some(Ended::Committed { tn, value: () })),
        Outcome::RanAlone { tn, .. } => (Left::Nothing, Some(Ended::Committed { tn, value: () })),
        Outcome::BackedUp(cause) => (Left::Nothing, Some(Ended::BackedUp(cause))),
        Outcome::MarkedClosed => unreachable!(),
    }
}

// A row that is decided to commit.
fn committing<A: Allocator + Copy>(number: u64) -> Left<A>
    ensures { left_of result ≡ Decided number Commit }
{
    Left::Decided {
        number,
        verdict: Verdict::Commit,
    }
}
