//! One event of a lane, on the locked state.
ghost use Rattle.std.specs.Prelude.{◌≡◌, ◌⊎◌, ◌+◌, ◌^◌, ◌<◌, ◌≤◌, List, false, None, IfSome, IfOk, IfErr, OnOk, is_some};
ghost use Rattle.std.specs.List.{list_any};
ghost use Rattle.boxcar.specs.Table.{Shows};
ghost use Rattle.occ_model.specs.Event.{Item as PlainItem, WriteOne, Finish, Reply};
ghost use Rattle.occ_model.specs.declared.verdict.Verdict.TheVariants.{Commit, BackUp};
ghost use Rattle.occ_model.specs.Replies.{replied_back};
ghost use Rattle.occ_core.specs.Replies.{outcome_of, next_object, CanEnter, CanEnd};
ghost use Rattle.occ_queue.specs.Items.{item_of, number_of, is_mark};
ghost use Rattle.occ_filed.specs.Filed.{token_of};
ghost use Rattle.occ_store.specs.Locked.{world_of, rows_entered};
ghost use Rattle.occ_store.specs.Lanes.{IsDoer, Nothing, Kept, Open, Decided, left_of, token_left, open_rows, ends_serially, reached, point_of, left_entering, AddsUp, Ends, TakesIn, DecidesAs, GoesOn, Advances};

use crate::lanes::Lane;
use crate::names::{FrontOf, Name};
use crate::publishing::rows_in;
use crate::serving::Point;
use crate::shared::Shared;
use crate::unfinished::Left;
use occ_case::{CaseToken, Cause, Judged, Verdict};
use occ_core::Outcome;
use occ_queue::Item;
use occ_types::{Fault, Refused};
use std::alloc::Allocator;
use std::sync::Wait;
use std::sync::ledger::Share;

impl<N: Name, A: Allocator + Copy> Lane<N, A> {
    /// One event for what it has left, on the locked state, with its publishing. It is the first of these that can be, and the point that
    /// it reached is answered:
    /// - a kept item enters;
    /// - a row that is not decided is decided, by the verdict that is given or now;
    /// - a row that is decided to commit does its next single write, or finishes;
    /// - one that is to be backed up is.
    ///
    /// Refused with `NothingEntered` where nothing is left, with `WrongCase` where the verdict that is given is on another case, and as
    /// the core refuses the event; what is left stays then. A verdict that is given is of no use to another event than a decision.
    pub fn advance<R: Wait>(
        &mut self,
        rt: &R,
        shared: &mut Shared<N, A>,
        judged: Option<Judged<A>>,
    ) -> Result<Point, Fault>
        requires own_file { IfSome judged (Shows N.named.file) }
        ensures { Advances self.old judged shared.old result self.new shared.new }
    {
        match std::mem::replace(&mut self.left, Left::Nothing) {
            Left::Nothing => Err(Fault::NothingEntered),
            Left::Kept(item) => {
                let policy = (self.files, self.serial);
                let share = &mut self.share;
                let entered = &mut self.entered;
                let me = &mut self.front;
                let (left, reached) = enter(
                    rt,
                    shared,
                    me,
                    self.session,
                    item,
                    share,
                    entered,
                    policy,
                );
                self.left = left;
                reached
            }
            Left::Open { number, token } => self.decide(shared, number, token, judged),
            Left::Decided { number, verdict } => match verdict {
                Verdict::Commit => self.write_or_finish(shared, number),
                Verdict::BackUp(cause) => self.back_up(shared, number, cause),
            },
        }
    }

    // A row is decided.
    fn decide(
        &mut self,
        shared: &mut Shared<N, A>,
        number: u64,
        token: Option<CaseToken<A>>,
        judged: Option<Judged<A>>,
    ) -> Result<Point, Fault>
        requires taken { self.old.left ≡ Nothing }
        requires own_token { IfSome token (Shows N.named.file) }
        requires own_file { IfSome judged (Shows N.named.file) }
        requires one_more { self.old.judged < self.old.entered }
        requires unmarked { list_any is_mark self.old.receiver.taken ≡ false }
        ensures { GoesOn (Open number token) self.old judged shared.old result self.new shared.new }
    {
        let more = match judged {
            None => 0,
            Some(_) => 1,
        };
        match decide_as(shared, &mut self.front, self.session, judged) {
            Ok(verdict) => {
                self.judged += more;
                self.left = Left::Decided { number, verdict };
                Ok(Point::Decided)
            }
            Err(fault) => {
                self.left = Left::Open { number, token };
                Err(fault)
            }
        }
    }

    // A row that is decided to commit does its next single write, or finishes.
    fn write_or_finish(&mut self, shared: &mut Shared<N, A>, number: u64) -> Result<Point, Fault>
        requires taken { self.old.left ≡ Nothing }
        requires unmarked { list_any is_mark self.old.receiver.taken ≡ false }
        ensures { GoesOn (Decided number Commit) self.old None shared.old result self.new shared.new }
    {
        if writes_left(shared, self.session) {
            self.write(shared, number)
        } else {
            self.finish(shared, number)
        }
    }

    // It does its next single write.
    fn write(&mut self, shared: &mut Shared<N, A>, number: u64) -> Result<Point, Fault>
        requires taken { self.old.left ≡ Nothing }
        requires unmarked { list_any is_mark self.old.receiver.taken ≡ false }
        ensures { Ends (WriteOne self.old.session) number self.old shared.old result self.new shared.new }
    {
        let wrote = shared.write_one(&mut self.front, self.session);
        self.keep(committing(number));
        match wrote {
            Ok(_write) => Ok(Point::Wrote),
            Err(fault) => Err(fault),
        }
    }

    // It finishes.
    fn finish(&mut self, shared: &mut Shared<N, A>, number: u64) -> Result<Point, Fault>
        requires taken { self.old.left ≡ Nothing }
        requires unmarked { list_any is_mark self.old.receiver.taken ≡ false }
        ensures { Ends (Finish self.old.session) number self.old shared.old result self.new shared.new }
    {
        match shared.finish(&mut self.front, self.session) {
            Ok(_tn) => Ok(Point::Settled),
            Err(fault) => {
                self.keep(committing(number));
                Err(fault)
            }
        }
    }

    // A row that was decided to be backed up is, for the cause that was kept.
    fn back_up(
        &mut self,
        shared: &mut Shared<N, A>,
        number: u64,
        cause: Cause,
    ) -> Result<Point, Fault>
        requires taken { self.old.left ≡ Nothing }
        requires unmarked { list_any is_mark self.old.receiver.taken ≡ false }
        ensures { GoesOn (Decided number (BackUp cause)) self.old None shared.old result self.new shared.new }
    {
        match shared.back_up(&mut self.front, self.session, cause) {
            Ok(_number) => Ok(Point::Settled),
            Err(fault) => {
                let verdict = Verdict::BackUp(cause);
                self.keep(Left::Decided { number, verdict });
                Err(fault)
            }
        }
    }

    // This is left of it from now on.
    fn keep(&mut self, left: Left<A>)
        requires own { IfSome (token_left (left_of left)) (Shows N.named.file) }
        requires room { self.old.judged + open_rows (left_of left) ≤ self.old.entered }
        requires adds_up { AddsUp self.old.receiver.taken self.old.entered (left_of left) }
        ensures { self.new ≡ record self.old { left = left_of left } }
    {
        self.left = left;
    }
}

// A kept item enters, or ends serially, under the policy of its lane. It answers what is left of it, and the point that it reached.
fn enter<N: Name, A: Allocator + Copy, R: Wait>(
    rt: &R,
    shared: &mut Shared<N, A>,
    me: &mut FrontOf<N>,
    session: usize,
    item: Item<A>,
    share: &mut Share<N>,
    entered: &mut u64,
    policy: (bool, bool),
) -> (Left<A>, Result<Point, Fault>)
    requires own { IsDoer me.old.party session }
    requires part { 0 < share.old.parts }
    requires amount { share.old.amount ≡ entered.old }
    ensures step { (reply : Reply) × TakesIn me.old session policy.0 policy.1 (item_of item) shared.old reply me.new shared.new × (result.1 ≡ reached reply)
        × (left_of result.0 ≡ left_entering (item_of item) (token_of shared.new.filed.tokens session) reply) × (entered.new ≡ entered.old + rows_entered reply) }
    ensures own { IfSome (token_left (left_of result.0)) (Shows N.named.file) }
    ensures room { entered.old + open_rows (left_of result.0) ≤ entered.new }
    ensures adds_up { (taken : List PlainItem) → AddsUp taken entered.old (Kept (item_of item)) → AddsUp taken entered.new (left_of result.0) }
    ensures amount { share.new.amount ≡ entered.new }
    ensures parts { share.new.parts ≡ share.old.parts }
{
    let number = item.number();
    match take_in(rt, shared, me, session, item, share, policy) {
        Ok(outcome) => {
            *entered += rows_in(&outcome);
            let token = shared.token(session);
            (left_by(&outcome, number, token), Ok(point_by(outcome)))
        }
        Err(refused) => (Left::Kept(refused.value), Err(refused.fault)),
    }
}

// An item enters under the policy of its lane: whether its case is filed, and whether a request ends serially where no row is active.
fn take_in<N: Name, A: Allocator + Copy, R: Wait>(
    rt: &R,
    shared: &mut Shared<N, A>,
    me: &mut FrontOf<N>,
    session: usize,
    item: Item<A>,
    share: &mut Share<N>,
    policy: (bool, bool),
) -> Result<Outcome<A>, Refused<Item<A>>>
    requires own { IsDoer me.old.party session }
    requires part { 0 < share.old.parts }
    ensures step { TakesIn me.old session policy.0 policy.1 (item_of item) shared.old (replied_back outcome_of result) me.new shared.new }
    ensures outcome { IfOk result (λ outcome. CanEnter (item_of item) outcome ⊎ CanEnd (item_of item) outcome) }
    ensures handed_back { IfErr result (λ refused. item_of refused.value ≡ item_of item) }
    ensures counted { share.new.amount ≡ share.old.amount + rows_entered (replied_back outcome_of result) }
    ensures bound { OnOk result (share.new.amount < 2 ^ 64) }
    ensures parts { share.new.parts ≡ share.old.parts }
{
    let (files, serial) = policy;
    if ends_serially(shared, serial, &item) {
        return shared.serial_end(me, session, item, share);
    }
    if files {
        return shared.enter(rt, me, session, item, share);
    }
    shared.enter_unfiled(me, session, item, share)
}

// Whether an item ends serially.
fn ends_serially<N: Name, A: Allocator + Copy>(
    shared: &Shared<N, A>,
    serial: bool,
    item: &Item<A>,
) -> bool
    ensures { result ≡ ends_serially (world_of shared.now) serial (item_of item.now) }
{
    if !serial {
        return false;
    }
    match item {
        Item::Request { .. } => shared.core().active() == 0,
        Item::Alone { .. } | Item::Close { .. } => false,
    }
}

// A decision, by the verdict of a judged case where there is one.
fn decide_as<N: Name, A: Allocator + Copy>(
    shared: &mut Shared<N, A>,
    me: &mut FrontOf<N>,
    session: usize,
    judged: Option<Judged<A>>,
) -> Result<Verdict, Fault>
    requires own { IsDoer me.old.party session }
    requires own_file { IfSome judged (Shows N.named.file) }
    ensures { DecidesAs me.old session judged shared.old result me.new shared.new }
{
    match judged {
        None => shared.decide(me, session),
        Some(judged) => shared.decide_by(me, session, judged),
    }
}

// Whether a row of the session that is decided to commit has writes to do.
fn writes_left<N: Name, A: Allocator + Copy>(shared: &Shared<N, A>, session: usize) -> bool
    ensures { result ≡ is_some (next_object (world_of shared.now) session) }
{
    shared.core().next_write(session).is_some()
}

// A row that is decided to commit.
fn committing<A: Allocator + Copy>(number: u64) -> Left<A>
    ensures { left_of result ≡ Decided number Commit }
{
    Left::Decided {
        number,
        verdict: Verdict::Commit,
    }
}

// What is left of an item with this number by what came of it; the row of a request has this token.
fn left_by<A: Allocator + Copy>(
    outcome: &Outcome<A>,
    number: u64,
    token: Option<CaseToken<A>>,
) -> Left<A>
    ensures { (item : PlainItem) → number ≡ number_of item → left_of result ≡ left_entering item token (outcome_of outcome.now) }
{
    match outcome {
        Outcome::Entered { .. } => Left::Open { number, token },
        Outcome::Committed { .. }
        | Outcome::BackedUp(_)
        | Outcome::RanAlone { .. }
        | Outcome::MarkedClosed => Left::Nothing,
    }
}

// The point that what was handed in reached by what came of it.
fn point_by<A: Allocator + Copy>(outcome: Outcome<A>) -> Point
    ensures { result ≡ point_of (outcome_of outcome) }
{
    match outcome {
        Outcome::Entered { .. } | Outcome::MarkedClosed => Point::Entered,
        Outcome::Committed { .. } | Outcome::BackedUp(_) | Outcome::RanAlone { .. } => {
            Point::Settled
        }
    }
}
