//! The end of a transaction beside others that are active, step by step.
ghost use Rattle.std.specs.Prelude.{◌≡◌, None, IfErr, MatchResult};
ghost use Rattle.occ_model.specs.World.{World};
ghost use Rattle.occ_model.specs.Event.{Enter, Request, Entered, Decide, Decided, WriteOne, Finish, Finished, BackUp, BackedUp};
ghost use Rattle.occ_model.specs.Refusal.{refusal};
ghost use Rattle.occ_model.specs.Step.{Step};
ghost use Rattle.occ_model.specs.declared.verdict.Verdict.{Verdict as PlainVerdict};
ghost use Rattle.occ_model.specs.Replies.{replied, replied_back};
ghost use Rattle.occ_client.specs.Clients.{handed_reply, stopped_in};
ghost use Rattle.occ_client.specs.Ends.{EndsBySteps, Follows, WritesNext, WritesOut};

use crate::ending::{End, Handed, handed_back};
use occ_case::Verdict;
use occ_core::{Core, Outcome, SingleWrite};
use occ_queue::Item;
use occ_sets::RequestWrites;
use occ_types::{Fault, Refused};
use std::alloc::Allocator;

/// Ends a request step by step: it enters, is decided, and then writes and finishes, or is backed up. Its writes are handed back where the
/// store refuses its entry.
pub(crate) fn end_by_steps<A: Allocator + Copy>(
    store: &mut Core<A>,
    session: usize,
    number: u64,
    start: u64,
    writes: RequestWrites<A>,
) -> Result<Handed, Refused<RequestWrites<A>>>
    ensures step { EndsBySteps session (record { number = number; start = start; writes = writes }) store.old.world (stopped_in result) (replied_back handed_reply result) store.new.world }
    ensures handed_back { IfErr result (λ refused. refused.value ≡ writes) }
{
    let _place = match enter(store, session, number, start, writes) {
        Ok(place) => place,
        Err(refused) => return Err(refused),
    };
    Ok(end_entered(store, session))
}

// Enters a request, and answers the place of its row in the order of entry.
fn enter<A: Allocator + Copy>(
    store: &mut Core<A>,
    session: usize,
    number: u64,
    start: u64,
    writes: RequestWrites<A>,
) -> Result<usize, Refused<RequestWrites<A>>>
    ensures step { Step store.old.world (Enter session (Request number start writes)) (replied_back (λ place. Entered place place) result) store.new.world }
    ensures handed_back { IfErr result (λ refused. refused.value ≡ writes) }
{
    let item = Item::Request {
        number,
        start,
        writes,
    };
    match store.enter(session, item) {
        Ok(Outcome::Entered { place }) => Ok(place),
        Ok(_) => unreachable!(),
        Err(refused) => Err(handed_back(refused)),
    }
}

// Ends the transaction that a session has entered.
fn end_entered<A: Allocator + Copy>(store: &mut Core<A>, session: usize) -> Handed
    requires undecided { refusal store.old.world (Decide session) ≡ None }
    ensures { (decided : World) × (verdict : PlainVerdict) × Step store.old.world (Decide session) (Decided verdict) decided × Follows verdict session decided (handed_reply result) store.new.world }
{
    match decide(store, session) {
        Verdict::Commit => match write_out(store, session) {
            Ok(tn) => Handed::Ended(End::Committed { tn }),
            Err(fault) => Handed::Stopped(fault),
        },
        Verdict::BackUp(cause) => {
            let _number = back_up(store, session);
            Handed::Ended(End::BackedUp(cause))
        }
    }
}

// Decides the transaction that a session has entered.
#[tactic(auto, using(crate::proofs::StepsFollow::is_decided))]
fn decide<A: Allocator>(store: &mut Core<A>, session: usize) -> Verdict
    requires undecided { refusal store.old.world (Decide session) ≡ None }
    ensures { Step store.old.world (Decide session) (Decided result) store.new.world }
{
    match store.decide(session) {
        Ok(verdict) => verdict,
        Err(_) => unreachable!(),
    }
}

// Backs up the transaction of a session, and answers its number.
#[tactic(auto, using(crate::proofs::StepsFollow::is_backed_up))]
fn back_up<A: Allocator>(store: &mut Core<A>, session: usize) -> u64
    requires decided { refusal store.old.world (BackUp session) ≡ None }
    ensures { Step store.old.world (BackUp session) (BackedUp result) store.new.world }
{
    match store.back_up(session) {
        Ok(number) => number,
        Err(_) => unreachable!(),
    }
}

/// Does the single writes that are left of the transaction that a session has under way, and finishes it. The answer is its transaction
/// number. Refused as a single write is; those before it are done then.
pub(crate) fn write_out<A: Allocator + Copy>(
    store: &mut Core<A>,
    session: usize,
) -> Result<u64, Fault>
    ensures { WritesOut session store.old.world (replied Finished result) store.new.world }
{
    loop {
        let more = match write_next(store, session) {
            Ok(more) => more,
            Err(fault) => return Err(fault),
        };
        if !more {
            return Ok(finish(store, session));
        }
    }
}

// Does the next single write of the transaction that a session has under way, and answers whether one was left.
fn write_next<A: Allocator + Copy>(store: &mut Core<A>, session: usize) -> Result<bool, Fault>
    ensures { WritesNext session store.old.world result store.new.world }
{
    match store.write_one(session) {
        Ok(SingleWrite::Wrote { .. }) => Ok(true),
        Ok(SingleWrite::NoMore) => Ok(false),
        Err(fault) => Err(fault),
    }
}

// Finishes the transaction of a session, which has no write left, and answers its transaction number.
#[tactic(auto, using(crate::proofs::StepsFollow::is_finished))]
fn finish<A: Allocator>(store: &mut Core<A>, session: usize) -> u64
    requires written { refusal store.old.world (Finish session) ≡ None }
    ensures { Step store.old.world (Finish session) (Finished result) store.new.world }
{
    match store.finish(session) {
        Ok(tn) => tn,
        Err(_) => unreachable!(),
    }
}
