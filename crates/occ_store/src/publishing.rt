//! What the events rest on, and what they store and count.
ghost use Rattle.std.specs.Prelude.{◌≤◌, ◌≡◌, ◌+◌, ◌^◌, ◌<◌, OnOk};
ghost use Rattle.occ_model.specs.World.{next_place};
ghost use Rattle.occ_model.specs.Poll.{row_numbered};
ghost use Rattle.occ_model.specs.Replies.{replied_back};
ghost use Rattle.occ_log.specs.Rows.{standing_of};
ghost use Rattle.occ_core.specs.Replies.{outcome_of};
ghost use Rattle.occ_store.specs.Locked.{cause_told, cause_of, rows_entered, stored, committed, IsLawful, MayCommit, MayStore};

use crate::names::Name;
use occ_board::Publisher;
use occ_book::Standing;
use occ_case::{Cause, OpenCase, Verdict};
use occ_core::{Core, Outcome};
use occ_filed::FiledCore;
use occ_queue::Item;
use occ_types::Refused;
use std::alloc::Allocator;
use std::sync::ledger::{Book, Share};

// What holds of every core. It computes nothing.
pub(crate) fn law<A: Allocator + Copy>(filed: &FiledCore<A>)
    ensures { IsLawful filed.now.world }
{
    filed.core().law();
}

// Stores what came of what was handed in, and counts its row in the ledger. A refusal stores and counts nothing.
pub(crate) fn account<N: Name, A: Allocator + Copy>(
    filed: &FiledCore<A>,
    publisher: &mut Publisher<A>,
    rows: &mut Book<N>,
    session: usize,
    came: &Result<Outcome<A>, Refused<Item<A>>>,
    share: &mut Share<N>,
)
    requires part { 0 < share.old.parts }
    requires may { MayStore publisher.old.words session (replied_back outcome_of came.now) }
    requires rows { rows.old.total + rows_entered (replied_back outcome_of came.now) ≤ next_place filed.now.world }
    ensures words { publisher.new ≡ record publisher.old { words = stored publisher.old.words session (replied_back outcome_of came.now) } }
    ensures total { rows.new.total ≡ rows.old.total + rows_entered (replied_back outcome_of came.now) }
    ensures amount { share.new.amount ≡ share.old.amount + rows_entered (replied_back outcome_of came.now) }
    ensures parts { share.new.parts ≡ share.old.parts }
    ensures bound { OnOk came.now (share.new.amount < 2 ^ 64) }
{
    let Ok(outcome) = came else {
        return;
    };
    law(filed);
    store_outcome(publisher, session, outcome);
    rows.add(share, rows_in(outcome));
    rows.audit(share);
}

// How many rows came into the log by what was handed in.
pub(crate) fn rows_in<A: Allocator + Copy>(outcome: &Outcome<A>) -> u64
    ensures { result ≡ rows_entered (outcome_of outcome.now) }
{
    match outcome {
        Outcome::Entered { .. }
        | Outcome::Committed { .. }
        | Outcome::BackedUp(_)
        | Outcome::RanAlone { .. } => 1,
        Outcome::MarkedClosed => 0,
    }
}

// Stores what came of what was handed in, where a transaction is over by it.
fn store_outcome<A: Allocator + Copy>(
    publisher: &mut Publisher<A>,
    session: usize,
    outcome: &Outcome<A>,
)
    requires { MayStore publisher.old.words session (outcome_of outcome.now) }
    ensures { publisher.new ≡ record publisher.old { words = stored publisher.old.words session (outcome_of outcome.now) } }
{
    match outcome {
        Outcome::Entered { .. } | Outcome::MarkedClosed => {}
        Outcome::Committed { tn } => store_commit(publisher, session, *tn),
        Outcome::RanAlone { tn, .. } => store_commit(publisher, session, *tn),
        Outcome::BackedUp(cause) => {
            let number = publisher.number(session) + 1;
            publisher.settled(session, number, Verdict::BackUp(*cause));
        }
    }
}

// Stores that the next transaction of a session has committed.
pub(crate) fn store_commit<A: Allocator + Copy>(
    publisher: &mut Publisher<A>,
    session: usize,
    tn: u64,
)
    requires { MayCommit publisher.old.words session tn }
    ensures { publisher.new ≡ record publisher.old { words = committed publisher.old.words session tn } }
{
    let number = publisher.number(session) + 1;
    publisher.finished(session, number, tn);
}

// The cause with which a row stands in the log, or the one that was kept.
pub(crate) fn cause_told<A: Allocator + Copy>(
    core: &Core<A>,
    session: usize,
    number: u64,
    kept: Cause,
) -> Cause
    ensures { result ≡ cause_told kept (row_numbered session number core.now.world.log) }
{
    match core.row(session, number) {
        None => kept,
        Some(row) => cause_of(&row.standing, kept),
    }
}

// The cause for which a row stands as backed up, or the one that was kept.
fn cause_of<A: Allocator + Copy>(standing: &Standing<OpenCase<A>>, kept: Cause) -> Cause
    ensures { result ≡ cause_of kept (standing_of standing.now) }
{
    match standing {
        Standing::Open(_) | Standing::Writing(_) | Standing::Done(_) => kept,
        Standing::Back(cause) => *cause,
    }
}
