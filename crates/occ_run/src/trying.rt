//! The tries of one transaction.

ghost use Rattle.std.specs.Prelude.{◌≡◌, true, IfOk, OnOk};
ghost use Rattle.occ_model.specs.Event.{Alone};
ghost use Rattle.occ_sets.specs.Operations.{ops_of};
ghost use Rattle.occ_store.specs.Ended.{IsTold};
ghost use Rattle.occ_store.specs.Sessions.{due, handed_in};
ghost use Rattle.occ_run.specs.Clients.{Attempting, ComesTo, Tries, LastTry, RunsAlone, PlanGives};
ghost use Rattle.occ_run.specs.declared.ends.Try.TheVariants as tries;

use crate::ends::{Failure, Stop, Try, not_handed_in, tried, unmade};
use crate::waiting::Waiting;
use occ_sets::Op;
use occ_store::{Awaited, Body, Ended, Name, Operations, Pending, Session, Store, Transaction};
use std::alloc::Allocator;
use std::sync::Wait;
use std::time::Clock;

// The body of a try: its operations, one after another. It tells a refused operation from a fault at which the client gives up.
#[derive(Drop)]
struct Attempt<'o, A: Allocator + Copy> {
    operations: Operations<'o, A>,
}

impl<N: Name, A: Allocator + Copy, R: Wait> Body<N, A, R> for Attempt<'_, A> {
    type Value = ();

    type Error = Failure;

    ghost makes = { λ body. Attempting N.named (ops_of body.operations.list.now) };

    fn run(
        &mut self,
        rt: &R,
        store: &Store<N, A>,
        work: &mut Transaction<N, A>,
    ) -> Result<(), Failure> {
        match self.operations.run(rt, store, work) {
            Ok(()) => Ok(()),
            Err(fault) => Err(unmade(fault)),
        }
    }
}

/// Tries a transaction until it commits or an operation of it is refused; after as many tries as there may be it runs alone. Whether an
/// operation was refused.
pub(crate) fn run_plan<N: Name, A: Allocator + Copy, R: Wait + Clock>(
    rt: &R,
    alloc: A,
    session: &mut Session<N, A>,
    waiting: &mut Waiting<'_, N, A>,
    retries: u64,
    operations: &[Op<A>],
) -> Result<bool, Stop>
    ensures { IfOk result (λ refused. PlanGives N.named retries (ops_of operations.now) refused session.old session.new) }
{
    match try_up_to(rt, session, waiting, retries, operations)? {
        Try::Refused => return Ok(true),
        Try::Committed => return Ok(false),
        Try::BackedUp => {}
    }
    run_alone(rt, alloc, session, waiting, operations)?;
    Ok(false)
}

// Tries a transaction, and where it is backed up tries it again, so often. What came of the last try.
fn try_up_to<N: Name, A: Allocator + Copy, R: Wait + Clock>(
    rt: &R,
    session: &mut Session<N, A>,
    waiting: &mut Waiting<'_, N, A>,
    retries: u64,
    operations: &[Op<A>],
) -> Result<Try, Stop>
    ensures { IfOk result (λ tried. LastTry N.named (ops_of operations.now) retries tried session.old session.new) }
{
    let mut last = try_once(rt, session, waiting, operations)?;
    for count in 0..retries {
        if !is_backed_up(last) {
            return Ok(last);
        }
        waiting.round.retried();
        last = try_once(rt, session, waiting, operations)?;
    }
    Ok(last)
}

fn is_backed_up(last: Try) -> bool
    ensures yes { result ≡ true → last ≡ tries.BackedUp }
    ensures no { last ≡ tries.BackedUp → result ≡ true }
{
    match last {
        Try::BackedUp => true,
        Try::Refused | Try::Committed => false,
    }
}

// Performs the operations in a transaction, hands it in, and polls until it is over.
fn try_once<N: Name, A: Allocator + Copy, R: Wait + Clock>(
    rt: &R,
    session: &mut Session<N, A>,
    waiting: &mut Waiting<'_, N, A>,
    operations: &[Op<A>],
) -> Result<Try, Stop>
    ensures { IfOk result (λ tried. Tries N.named (ops_of operations.now) 0 tried session.old session.new) }
{
    let mut body = Attempt {
        operations: Operations { list: operations },
    };
    let awaited = match session.transact(rt, waiting.store, 1, 0, &mut body) {
        Ok(awaited) => awaited,
        Err(failure) => return not_handed_in(failure),
    };
    let ended = settled(rt, session, waiting, awaited)?;
    Ok(tried(ended))
}

// Hands in operations to run alone, and polls until they are over. What runs alone is never backed up.
fn run_alone<N: Name, A: Allocator + Copy, R: Wait + Clock>(
    rt: &R,
    alloc: A,
    session: &mut Session<N, A>,
    waiting: &mut Waiting<'_, N, A>,
    operations: &[Op<A>],
) -> Result<(), Stop>
    ensures { OnOk result (RunsAlone (ops_of operations.now) session.old session.new) }
{
    let copies = Operations { list: operations }.to_vec(alloc)?;
    let number = alone(rt, session, waiting, copies)?;
    let awaited = session.wait(rt, Pending { number, value: () }, 0);
    match settled(rt, session, waiting, awaited)? {
        Ended::Committed { .. } => Ok(()),
        Ended::BackedUp(_) => Err(Stop::Patience),
    }
}

// Hands in operations to run alone. Their number.
fn alone<N: Name, A: Allocator + Copy, R: Wait>(
    rt: &R,
    session: &mut Session<N, A>,
    waiting: &Waiting<'_, N, A>,
    operations: Vec<Op<A>, A>,
) -> Result<u64, Stop>
    ensures { IfOk result (λ number. (number ≡ due session.old) × (session.new ≡ handed_in session.old (Alone number (ops_of operations.items)))) }
{
    match session.alone(rt, operations) {
        Ok(number) => {
            waiting.round.alone();
            Ok(number)
        }
        Err(refused) => Err(Stop::from(refused.fault)),
    }
}

// How a transaction ended, once it is over. It counts as over from then on.
fn settled<N: Name, A: Allocator + Copy, R: Wait + Clock>(
    rt: &R,
    session: &mut Session<N, A>,
    waiting: &mut Waiting<'_, N, A>,
    awaited: Awaited<()>,
) -> Result<Ended<()>, Stop>
    ensures told { IfOk result (λ ended. ComesTo session.old awaited ended session.new) }
    ensures same { session.new ≡ record session.old { seat = session.new.seat } }
{
    let ended = ended_of(rt, session, waiting, awaited)?;
    waiting.round.settled(&ended);
    Ok(ended)
}

// How a transaction ended, once it is over.
fn ended_of<N: Name, A: Allocator + Copy, R: Wait + Clock>(
    rt: &R,
    session: &mut Session<N, A>,
    waiting: &mut Waiting<'_, N, A>,
    awaited: Awaited<()>,
) -> Result<Ended<()>, Stop>
    ensures told { IfOk result (λ ended. ComesTo session.old awaited ended session.new) }
    ensures same { session.new ≡ record session.old { seat = session.new.seat } }
{
    match awaited {
        Awaited::Settled(ended) => Ok(ended),
        Awaited::Pending(pending) => ended_behind(rt, session, waiting, pending),
    }
}

// Polls again until the transaction is over that the first poll didn't tell of, with a turn before each poll.
fn ended_behind<N: Name, A: Allocator + Copy, R: Wait + Clock>(
    rt: &R,
    session: &mut Session<N, A>,
    waiting: &mut Waiting<'_, N, A>,
    pending: Pending<()>,
) -> Result<Ended<()>, Stop>
    ensures told { IfOk result (λ ended. IsTold session.new.seat.last pending.number pending.value ended) }
    ensures same { session.new ≡ record session.old { seat = session.new.seat } }
{
    for _ in 1..waiting.round.patience() {
        waiting.turn(rt)?;
        if let Awaited::Settled(ended) = session.wait(rt, pending, 0) {
            return Ok(ended);
        }
    }
    Err(Stop::Patience)
}
