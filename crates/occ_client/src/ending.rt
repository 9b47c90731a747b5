//! How a client ends what it has open.
ghost use Rattle.std.specs.Prelude.{◌≡◌, IfErr};
ghost use Rattle.occ_model.specs.Event.{SerialEnd, Enter, Request, Close};
ghost use Rattle.occ_model.specs.Step.{Step};
ghost use Rattle.occ_queue.specs.Items.{item_of};
ghost use Rattle.occ_model.specs.Replies.{replied_back};
ghost use Rattle.occ_core.specs.Replies.{outcome_of};
ghost use Rattle.occ_client.specs.Clients.{IsEnd, IsRequest, closing, end_reply, ending_back, writes_in, handed_reply, stopped_in};
ghost use Rattle.occ_client.specs.Ends.{Ends};

use crate::by_steps::end_by_steps;
use occ_case::Cause;
use occ_core::{Core, Outcome};
use occ_queue::Item;
use occ_sets::RequestWrites;
use occ_types::{Fault, Refused};
use std::alloc::Allocator;

/// How a transaction ended.
#[derive(Clone, Copy, Debug, PartialEq, Eq)]
pub enum End {
    /// It committed, and all its writes are done.
    Committed {
        /// The transaction number.
        tn: u64,
    },
    /// It was backed up, and none of its writes is done.
    BackedUp(Cause),
}

/// What came of a request that was handed in.
#[derive(Clone, Copy, Debug)]
pub(crate) enum Handed {
    /// Its transaction ended.
    Ended(End),
    /// Its transaction was decided to commit, and one of its single writes was refused for this.
    Stopped(Fault),
}

/// Ends a request: by a serial end where no transaction is active, and else step by step. Its writes are handed back where the store
/// refuses it.
pub(crate) fn end_request<A: Allocator + Copy>(
    store: &mut Core<A>,
    session: usize,
    number: u64,
    start: u64,
    writes: RequestWrites<A>,
) -> Result<Handed, Refused<RequestWrites<A>>>
    ensures step { Ends session (record { number = number; start = start; writes = writes }) store.old.world (stopped_in result) (replied_back handed_reply result) store.new.world }
    ensures handed_back { IfErr result (λ refused. refused.value ≡ writes) }
{
    if store.active() > 0 {
        return end_by_steps(store, session, number, start, writes);
    }
    match end_serially(store, session, number, start, writes) {
        Ok(end) => Ok(Handed::Ended(end)),
        Err(refused) => Err(refused),
    }
}

// Ends a request by a serial end. Its writes are handed back where the store refuses it.
fn end_serially<A: Allocator + Copy>(
    store: &mut Core<A>,
    session: usize,
    number: u64,
    start: u64,
    writes: RequestWrites<A>,
) -> Result<End, Refused<RequestWrites<A>>>
    ensures step { Step store.old.world (SerialEnd session (Request number start writes)) (ending_back result) store.new.world }
    ensures handed_back { IfErr result (λ refused. refused.value ≡ writes) }
{
    let item = Item::Request {
        number,
        start,
        writes,
    };
    let outcome = match store.serial_end(session, item) {
        Ok(outcome) => outcome,
        Err(refused) => return Err(handed_back(refused)),
    };
    Ok(ended(outcome))
}

// How a transaction ended that a serial end answers.
fn ended<A: Allocator>(outcome: Outcome<A>) -> End
    requires end { IsEnd outcome }
    ensures { end_reply result ≡ outcome_of outcome }
{
    match outcome {
        Outcome::Committed { tn } => End::Committed { tn },
        Outcome::BackedUp(cause) => End::BackedUp(cause),
        _ => unreachable!(),
    }
}

/// The writes of a request that was refused.
pub(crate) fn handed_back<A: Allocator>(refused: Refused<Item<A>>) -> Refused<RequestWrites<A>>
    requires request { IsRequest (item_of refused.value) }
    ensures fault { result.fault ≡ refused.fault }
    ensures writes { result.value ≡ writes_in (item_of refused.value) }
{
    let Refused { value, fault } = refused;
    match value {
        Item::Request { writes, .. } => Refused {
            value: writes,
            fault,
        },
        Item::Alone { .. } => unreachable!(),
        Item::Close { .. } => unreachable!(),
    }
}

/// Enters the closing mark of a session.
pub(crate) fn close_session<A: Allocator + Copy>(
    store: &mut Core<A>,
    session: usize,
    number: u64,
) -> Result<(), Fault>
    ensures { Step store.old.world (Enter session (Close number)) (closing result) store.new.world }
{
    match store.enter(session, Item::Close { number }) {
        Ok(Outcome::MarkedClosed) => Ok(()),
        Ok(_) => unreachable!(),
        Err(refused) => Err(refused.fault),
    }
}
