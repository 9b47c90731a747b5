//! A bank in threads, round after round, each on a new store: workers and clients move money between accounts and sum all of them, and
//! validators end what the clients hand in. Of ten clients one dies, with a transaction open; so whoever is over last stops the store.
ghost use Rattle.std.specs.Prelude.{◌≡◌};

use crate::budgets::{Budget, Until};
use crate::by_clients::number_in;
use crate::closing::{Outcome, close};
use crate::dice::Dice;
use crate::rows::{TABLE, schema};
use occ_sets::RangeRows;
use occ_store::{
    AlwaysGo, Awaited, Body, Frame, Group, Lane, Name, Session, Stoppable, Store, Transaction,
    Worker,
};
use occ_types::{Fault, Key};
use std::alloc::Allocator;
use std::marker::Brand;
use std::sync::Wait;
use std::sync::atomic::{AtomicU64, Ordering};
use std::thread::{self, Threads};
use std::time::Clock;

/// How many workers there are, and how many clients.
const WORKERS: usize = 3;

const CLIENTS: usize = 10;
/// Of so many clients one dies.
const MORTAL: u64 = 10;
/// How many accounts there are.
const ACCOUNTS: u64 = 100;
/// How many transactions each makes at most. Of so many one sums all accounts.
const TRANSACTIONS: u64 = 40;

const SUMMED: u64 = 8;
/// How often a transaction is tried, and how many pauses a client makes where it waits.
const TRIES: usize = 1_000;

const PATIENCE: u64 = 1_000_000;
/// After how many of its commits a worker has the log folded.
const BETWEEN: u64 = 20;
/// How many items a session's queue holds, and how many write sets are kept for testing.
const ROOM: usize = 4;

const KEPT: usize = 64;

/// Moves 1 from an account to another, and may sum all of them then. Whether a sum that it made is right.
#[derive(Clone, Copy)]
struct Visit {
    from: u64,
    to: u64,
    sums: bool,
}

impl Visit {
    /// The next visit that the dice tell.
    fn next(dice: &mut Dice) -> Visit {
        Visit {
            from: dice.below(ACCOUNTS),
            to: dice.below(ACCOUNTS),
            sums: dice.below(SUMMED) == 0,
        }
    }
}

impl<N: Name, A: Allocator + Copy, R: Wait> Body<N, A, R> for Visit {
    type Value = bool;

    type Error = Fault;

    fn run(
        &mut self,
        rt: &R,
        bank: &Store<N, A>,
        work: &mut Transaction<N, A>,
    ) -> Result<bool, Fault> {
        add(rt, bank, work, self.from, -1)?;
        add(rt, bank, work, self.to, 1)?;
        if !self.sums {
            return Ok(true);
        }
        let unbounded = None;
        let rows = work.scan(rt, bank, TABLE, unbounded.as_ref(), unbounded.as_ref())?;
        Ok(sum(&rows) == 0)
    }
}

/// Adds to the balance of an account.
fn add<N: Name, A: Allocator + Copy, R: Wait>(
    rt: &R,
    bank: &Store<N, A>,
    work: &mut Transaction<N, A>,
    account: u64,
    amount: i64,
) -> Result<(), Fault>
    ensures own { work.new.front.party ≡ work.old.front.party }
{
    let balance = number_in(work.get(rt, bank, TABLE, &Key::Num(account))?);
    work.put(TABLE, account.into(), balance.saturating_add(amount).into())?;
    Ok(())
}

/// The sum of some accounts.
fn sum<A: Allocator>(rows: &RangeRows<A>) -> i64 {
    let mut sum = 0i64;
    for (_, row) in rows.as_slice() {
        sum = sum.saturating_add(row.int(0).unwrap_or(0));
    }
    sum
}

/// Who has a thread: a worker, a client, or a validator.
#[derive(Drop)]
pub(crate) enum Party<N: Name, A: Allocator + Copy> {
    Worker(Worker<N, A>),
    Client(Session<N, A>),
    Validator(Group<N, A>),
}

/// What the threads of a round count together.
#[derive(Drop)]
pub(crate) struct Tally {
    round: u64,
    /// How many transactions were told as committed.
    pub(crate) committed: AtomicU64,
    /// How many sums were wrong, and how many transactions met a fault.
    pub(crate) wrong: AtomicU64,
    /// How many clients died.
    pub(crate) died: AtomicU64,
    over: AtomicU64,
}

impl Tally {
    fn new(round: u64) -> Tally {
        Tally {
            round,
            committed: AtomicU64::new(0),
            wrong: AtomicU64::new(0),
            died: AtomicU64::new(0),
            over: AtomicU64::new(0),
        }
    }

    /// The dice of a session in this round.
    fn dice(&self, session: usize) -> Dice {
        Dice::of(self.round.wrapping_mul(64).wrapping_add(session as u64))
    }

    /// Counts a visit by what it said: its sum, where it committed, is right or not.
    fn count(&self, right: Option<bool>) {
        let counter = match right {
            Some(false) => &self.wrong,
            Some(true) => &self.committed,
            None => return,
        };
        counter.fetch_add(1, Ordering::SeqCst);
    }

    fn fail(&self) {
        self.wrong.fetch_add(1, Ordering::SeqCst);
    }

    /// Counts a worker or a client that is over, dead or not. The last one stops the store.
    fn leave<N: Name + Stoppable, A: Allocator + Copy>(&self, bank: &Store<N, A>) {
        let last = (WORKERS + CLIENTS) as u64 - 1;
        if self.over.fetch_add(1, Ordering::SeqCst) == last {
            bank.stop();
        }
    }
}

/// A worker makes its visits, and has the log folded meanwhile.
fn work<N: Name, A: Allocator + Copy, R: Wait>(
    rt: &R,
    bank: &Store<N, A>,
    worker: &mut Worker<N, A>,
    tally: &Tally,
) {
    worker.checkpoint_each(Some(BETWEEN));
    let mut dice = tally.dice(worker.session());
    for _ in 0..TRANSACTIONS {
        let mut visit = Visit::next(&mut dice);
        match worker.transact(rt, bank, TRIES, &mut visit) {
            Ok(ended) => tally.count(ended.value()),
            Err(_) => tally.fail(),
        }
    }
}

/// A client makes its visits. Then it closes, or dies: with a visit handed in, for whose end it never asks, and half of another open.
fn live<N: Name, A: Allocator + Copy, R: Wait + Clock>(
    rt: &R,
    bank: &Store<N, A>,
    client: &mut Session<N, A>,
    tally: &Tally,
) -> Result<(), Fault> {
    let mut dice = tally.dice(client.session());
    let dies = dice.below(MORTAL) == 0;
    for _ in 0..dice.below(TRANSACTIONS) {
        call_in(rt, bank, client, PATIENCE, &mut dice, tally);
    }
    if !dies {
        client.give_up(rt, bank, PATIENCE)?;
        return Ok(());
    }
    tally.died.fetch_add(1, Ordering::SeqCst);
    call_in(rt, bank, client, 0, &mut dice, tally);
    client.begin()?;
    let _balance = client.get(rt, bank, TABLE, &Key::Num(0))?;
    client.put(TABLE, 0u64.into(), (-1i64).into())?;
    Ok(())
}

/// A client makes a visit, for whose end it waits with so much patience.
fn call_in<N: Name, A: Allocator + Copy, R: Wait + Clock>(
    rt: &R,
    bank: &Store<N, A>,
    client: &mut Session<N, A>,
    patience: u64,
    dice: &mut Dice,
    tally: &Tally,
) {
    let mut visit = Visit::next(dice);
    match client.transact(rt, bank, TRIES, patience, &mut visit) {
        Ok(Awaited::Settled(ended)) => tally.count(ended.value()),
        Ok(Awaited::Pending(_)) if patience == 0 => {}
        _ => tally.fail(),
    }
}

/// What a party does in its thread.
fn play<N: Name + Stoppable, A: Allocator + Copy, R: Wait + Clock>(
    rt: &R,
    bank: &Store<N, A>,
    party: &mut Party<N, A>,
    tally: &Tally,
) {
    match party {
        Party::Validator(group) => return group.serve(rt, bank, &AlwaysGo),
        Party::Worker(worker) => work(rt, bank, worker, tally),
        Party::Client(client) => {
            if live(rt, bank, client, tally).is_err() {
                tally.fail();
            }
        }
    }
    tally.leave(bank);
}

/// The parties at once, each in a thread of its own.
fn play_all<
    N: Name + Stoppable + Send + Sync,
    A: Allocator + Copy + Send + Sync,
    R: Threads + Wait + Clock + Sync,
>(rt: &R, bank: &Store<N, A>, parties: &mut [Party<N, A>], tally: &Tally) {
    thread::scope(thread::scope_env(), rt, |scope| {
        for party in parties.iter_mut() {
            let _ = scope.spawn(move || play(rt, bank, party, tally));
        }
    });
}

/// The workers, the clients, and a validator for each half of the lanes. Every other lane ends a transaction at once where it can.
fn parties<N: Name, A: Allocator + Copy>(
    alloc: A,
    workers: Vec<Worker<N, A>, A>,
    clients: Vec<Session<N, A>, A>,
    mut lanes: Vec<Lane<N, A>, A>,
) -> Result<Vec<Party<N, A>, A>, Fault> {
    let mut parties = Vec::new(alloc);
    for worker in workers {
        parties.push(Party::Worker(worker))?;
    }
    for client in clients {
        parties.push(Party::Client(client))?;
    }
    for lane in lanes.iter_mut() {
        lane.set_serial(lane.session() % 2 == 0);
    }
    let others = lanes.split_off(lanes.len() / 2)?;
    parties.push(Party::Validator(Group::new(lanes)))?;
    parties.push(Party::Validator(Group::new(others)))?;
    Ok(parties)
}

/// A round on the store of a frame.
fn run<
    N: Name + Stoppable + Send + Sync,
    A: Allocator + Copy + Send + Sync,
    R: Threads + Wait + Clock + Sync,
>(rt: &R, alloc: A, frame: Frame<A>, round: u64) -> Result<Outcome, Fault>
    requires { (frame.named ≡ N.named) × (frame.ledger ≡ N.name) × (frame.parts ≡ N.parts) }
{
    let Ok((bank, workers, clients, lanes)) = Store::<N, A>::open(frame) else {
        return Err(Fault::Memory);
    };
    let mut parties = parties(alloc, workers, clients, lanes)?;
    let tally = Tally::new(round);
    play_all(rt, &bank, &mut parties, &tally);
    close(rt, alloc, &bank, parties, &tally)
}

/// A round on a new store.
fn round<A: Allocator + Copy + Send + Sync, R: Threads + Wait + Clock + Sync>(
    rt: &R,
    alloc: A,
    round: u64,
) -> Result<Outcome, Fault> {
    let sessions = WORKERS + CLIENTS;
    let frame = Frame::new(alloc, schema(alloc)?, sessions, WORKERS, ROOM, KEPT)?;
    run::<Brand, A, R>(rt, alloc, frame, round)
}

/// Rounds until the end, or until one isn't as it must be. What came of all of them.
pub(crate) fn rounds<A: Allocator + Copy + Send + Sync, R: Threads + Wait + Clock + Sync>(
    rt: &R,
    alloc: A,
    until: Until,
) -> Result<Outcome, Fault> {
    let budget = Budget::begin(rt, until);
    let mut all = Outcome::NOTHING;
    for _ in rt.forever() {
        if !all.right || budget.take(rt, 1).is_none() {
            return Ok(all);
        }
        all = all.and(round(rt, alloc, all.rounds)?);
    }
    unreachable!()
}
