//! The clients of a run, one for each session.

ghost use Rattle.std.specs.Prelude.{◌≡◌, ◌==◌, ◌+◌, ◌<◌, ◌^◌, map, IfOk, IfSome, OnOk};
ghost use Rattle.std.specs.Option.{option_to_list};
ghost use Rattle.occ_model.specs.Event.{Close};
ghost use Rattle.occ_store.specs.Sessions.{due, handed_in};
ghost use Rattle.occ_run.specs.Plans.{plan_of};
ghost use Rattle.occ_run.specs.Clients.{own, own_plan, one_if, IsFresh, Played, HasPlayed, PlayedIn, is_starved, gave_up, ended_by};

use crate::ends::{End, Stop};
use crate::loads::{Job, Load};
use crate::trying::run_plan;
use crate::waiting::Waiting;
use crate::workloads::Plan;
use occ_store::{Lane, Name, Session, Shared};
use std::alloc::Allocator;
use std::marker::{Model, PhantomData};
use std::sync::Wait;
use std::time::Clock;

/// The client of a session. Once it has closed its session, that handed in what its transactions ask for, whichever thread had it.
#[derive(Drop)]
pub(crate) struct Client<N: Name, L: Load, A: Allocator + Copy> {
    session: Session<N, A>,
    refused: u64,
    end: End,
    load: PhantomData<L>,
}

impl<N: Name, L: Load, A: Allocator + Copy> Model for Client<N, L, A> {
    ghost use Rattle.occ_run.specs.Clients.{ClientView, EndsAs};

    ghost Value = { ClientView };

    ghost view = { λ c. record { session = c.session; refused = c.refused; end = c.end } };

    ghost invariant = { λ c. EndsAs N.named L.retries L.plans c.end c.refused c.session };
}

impl<N: Name, L: Load, A: Allocator + Copy> Client<N, L, A> {
    /// The client of a session that handed in nothing yet.
    pub(crate) fn new(session: Session<N, A>) -> Client<N, L, A>
        requires { IsFresh session }
    {
        Client {
            session,
            refused: 0,
            end: End::Unstarted,
            load: PhantomData,
        }
    }

    /// How many of its transactions had an operation that was refused, in the history that stands behind the lock. None where it is
    /// another session's, or did not close it.
    pub(crate) fn refused(&mut self, shared: &mut Shared<N, A>, session: usize) -> Option<u64>
        ensures played { IfSome result (PlayedIn N.named L.retries L.plans shared.old.story.log session) }
        ensures same { shared.new ≡ shared.old }
    {
        let End::Closed = self.end else {
            return None;
        };
        let own = self.session.session();
        if own != session {
            return None;
        }
        self.session.catch_up(shared);
        Some(self.refused)
    }

    /// Whether it wanted memory, or its thread never began.
    pub(crate) fn is_starved(&self) -> bool
        ensures { result ≡ is_starved self.now }
    {
        match self.end {
            End::Unstarted | End::Starved => true,
            End::Closed | End::GaveUp => false,
        }
    }

    /// Its session, where it gave up.
    pub(crate) fn gave_up(&self) -> Option<usize>
        ensures { option_to_list result ≡ gave_up self.now }
    {
        match self.end {
            End::GaveUp => Some(self.session.session()),
            End::Unstarted | End::Closed | End::Starved => None,
        }
    }

    /// Runs the transactions of its session in their order, and then closes the session. Where it gives up, it closes the session too; for want of memory it tells all others to give up too. It runs once. Where it is given the lane of its session,
    /// it serves that itself.
    pub(crate) fn run<R: Wait + Clock>(
        &mut self,
        rt: &R,
        job: &Job<N, L, A>,
        lane: Option<Lane<N, A>>,
    ) {
        let End::Unstarted = self.end else {
            return;
        };
        let mut waiting = Waiting::new(&job.store, &job.round, lane);
        let (end, refused) = ended(play(rt, &mut self.session, &mut waiting, job));
        self.refused = refused;
        self.end = end;
        job.round.client_ended();
    }
}

// How a client ended, and its count, by what stopped it.
fn ended(played: Result<u64, Stop>) -> (End, u64)
    ensures { result ≡ ended_by played }
{
    match played {
        Ok(refused) => (End::Closed, refused),
        Err(Stop::Patience) => (End::GaveUp, 0),
        Err(Stop::Memory) => (End::Starved, 0),
    }
}

// Runs a session's transactions, and closes it, also where it gives up; then its lane is served out. How many had a refused operation.
fn play<N: Name, L: Load, A: Allocator + Copy, R: Wait + Clock>(
    rt: &R,
    session: &mut Session<N, A>,
    waiting: &mut Waiting<'_, N, A>,
    job: &Job<N, L, A>,
) -> Result<u64, Stop>
    requires { IsFresh session.old }
    ensures { IfOk result (λ refused. HasPlayed N.named L.retries L.plans session.new.session refused session.new.sender.pushed session.new.front) }
{
    let ran = run_plans(rt, session, waiting, job);
    if ran == Err(Stop::Memory) {
        job.round.stop();
    }
    let closed = close(rt, session, waiting);
    let refused = ran?;
    closed?;
    waiting.finish(rt)?;
    Ok(refused)
}

// Runs the transactions of a session in their order. How many of them had an operation that was refused.
fn run_plans<N: Name, L: Load, A: Allocator + Copy, R: Wait + Clock>(
    rt: &R,
    session: &mut Session<N, A>,
    waiting: &mut Waiting<'_, N, A>,
    job: &Job<N, L, A>,
) -> Result<u64, Stop>
    ensures { IfOk result (λ refused. Played N.named L.retries (own session.old.session L.plans) refused session.old session.new) }
{
    run_each(rt, session, waiting, job, job.plans.as_slice())
}

// Runs those of some transactions that are the session's. How many of them had an operation that was refused.
fn run_each<N: Name, L: Load, A: Allocator + Copy, R: Wait + Clock>(
    rt: &R,
    session: &mut Session<N, A>,
    waiting: &mut Waiting<'_, N, A>,
    job: &Job<N, L, A>,
    plans: &[Plan<A>],
) -> Result<u64, Stop>
    ensures { IfOk result (λ refused. Played N.named L.retries (own session.old.session (map plan_of plans.now)) refused session.old session.new) }
{
    let number = session.session();
    let mut refused = 0;
    for plan in plans {
        let denied = run_own(rt, session, waiting, job, number, plan)?;
        refused = counted(refused, denied);
    }
    Ok(refused)
}

// One more, where it is so.
fn counted(count: u64, more: bool) -> u64
    requires { count + 1 < 2 ^ 64 }
    ensures { result ≡ count + one_if more }
{
    if more { count + 1 } else { count }
}

// Runs a transaction, if it is the session's. Whether an operation of it was refused.
fn run_own<N: Name, L: Load, A: Allocator + Copy, R: Wait + Clock>(
    rt: &R,
    session: &mut Session<N, A>,
    waiting: &mut Waiting<'_, N, A>,
    job: &Job<N, L, A>,
    number: usize,
    plan: &Plan<A>,
) -> Result<bool, Stop>
    ensures { IfOk result (λ refused. Played N.named L.retries (own_plan number (plan_of plan.now)) (one_if refused) session.old session.new) }
{
    if !is_own(plan, number) {
        return Ok(false);
    }
    run_plan(
        rt,
        job.alloc,
        session,
        waiting,
        job.retries,
        plan.operations.as_slice(),
    )
}

// Whether a transaction is a session's.
fn is_own<A: Allocator>(plan: &Plan<A>, session: usize) -> bool
    ensures { result ≡ (plan.now.session == session) }
{
    plan.session == session
}

// Closes the session. A full queue is tried again, as often as a number is polled.
fn close<N: Name, A: Allocator + Copy, R: Wait + Clock>(
    rt: &R,
    session: &mut Session<N, A>,
    waiting: &mut Waiting<'_, N, A>,
) -> Result<(), Stop>
    ensures { OnOk result (session.new ≡ handed_in session.old (Close (due session.old))) }
{
    for _ in 0..waiting.round.patience() {
        match session.close(rt) {
            Ok(_mark) => return Ok(()),
            Err(fault) => waiting.turn_after(rt, fault)?,
        }
    }
    Err(Stop::Patience)
}
