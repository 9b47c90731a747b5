//! Validators in threads, and a client that dies. Two clients sum all accounts, three move money between them, and two validators end what
//! they hand in. The last client dies amid a transfer, and never closes; so the client that is over last stops the store, and nobody waits
//! for ever. What was open is lost, and what was handed in comes to its end.
#![tactic(auto)]

ghost use Rattle.std.specs.Prelude.{◌≡◌};

use occ_audit::audit_rows;
use occ_store::{
    Account, AlwaysGo, Awaited, Body, Ended, Fault, Frame, Group, Key, KeyKind, Kind, Lane, Name,
    Schema, Served, Session, Stoppable, Store, Transaction, Worker,
};
use std::alloc::{Allocator, Global};
use std::sync::Wait;
use std::sync::atomic::{AtomicU64, Ordering};
use std::thread::{self, Threads};
use std::time::Clock;

/// How many clients there are.
const CLIENTS: usize = 5;

/// How many transactions each of them makes.
const ROUNDS: u64 = 100;

/// How often a client tries a transaction, and how many pauses it makes where it waits.
const TRIES: usize = 1_000;

const PATIENCE: u64 = 1_000_000;

/// What a transaction does.
#[derive(Clone, Copy)]
enum Deed {
    /// Moves 1 from an account to another.
    Transfer { from: u64, to: u64 },
    /// Sums all accounts.
    Sum,
}

impl Deed {
    /// That of a client in a round: two sum, and the others pay.
    fn of(client: usize, round: u64) -> Deed {
        match client {
            1 | 2 => Deed::Sum,
            _ => Deed::Transfer {
                from: round % 7,
                to: round % 10,
            },
        }
    }
}

impl<N: Name, A: Allocator + Copy, R: Wait> Body<N, A, R> for Deed {
    /// The sum, where it makes one.
    type Value = Option<i64>;

    type Error = Fault;

    fn run(
        &mut self,
        rt: &R,
        bank: &Store<N, A>,
        work: &mut Transaction<N, A>,
    ) -> Result<Option<i64>, Fault> {
        match *self {
            Deed::Transfer { from, to } => {
                add(rt, bank, work, from, -1)?;
                add(rt, bank, work, to, 1)?;
                Ok(None)
            }
            Deed::Sum => Ok(Some(sum(rt, bank, work)?)),
        }
    }
}

/// Adds to the balance of an account.
fn add<N: Name, A: Allocator + Copy, R: Wait>(
    rt: &R,
    bank: &Store<N, A>,
    work: &mut Transaction<N, A>,
    account: u64,
    amount: i64,
) -> Result<(), Fault>
    ensures own { work.new.front.party ≡ work.old.front.party }
{
    let row = work.get(rt, bank, 0, &Key::Num(account))?;
    let balance = row.as_ref().and_then(|row| row.int(0)).unwrap_or(0);
    work.put(0, account.into(), balance.saturating_add(amount).into())?;
    Ok(())
}

/// The sum of all accounts.
fn sum<N: Name, A: Allocator + Copy, R: Wait>(
    rt: &R,
    bank: &Store<N, A>,
    work: &mut Transaction<N, A>,
) -> Result<i64, Fault>
    ensures own { work.new.front.party ≡ work.old.front.party }
{
    let unbounded = None;
    let rows = work.scan(rt, bank, 0, unbounded.as_ref(), unbounded.as_ref())?;
    let mut sum = 0i64;
    for (_, row) in rows.as_slice() {
        sum = sum.saturating_add(row.int(0).unwrap_or(0));
    }
    Ok(sum)
}

/// What the clients count together.
#[derive(Drop)]
struct Tally {
    /// How many sums were right: money is moved, and none comes in.
    right: AtomicU64,
    /// How many clients are over.
    over: AtomicU64,
}

/// The transactions of a client, each until it commits.
fn work<N: Name, A: Allocator + Copy, R: Wait + Clock>(
    rt: &R,
    bank: &Store<N, A>,
    client: &mut Session<N, A>,
    tally: &Tally,
) -> Result<(), Fault> {
    for round in 0..ROUNDS {
        let mut deed = Deed::of(client.session(), round);
        let awaited = client.transact(rt, bank, TRIES, PATIENCE, &mut deed)?;
        if let Awaited::Settled(Ended::Committed { value: Some(0), .. }) = awaited {
            tally.right.fetch_add(1, Ordering::SeqCst);
        }
    }
    Ok(())
}

/// A client as long as it lives. The last one dies with half of a transfer open. Each other, whatever it met, gives up what is open and
/// closes.
fn live<N: Name, A: Allocator + Copy, R: Wait + Clock>(
    rt: &R,
    bank: &Store<N, A>,
    client: &mut Session<N, A>,
    tally: &Tally,
) -> Result<(), Fault> {
    let worked = work(rt, bank, client, tally);
    if client.session() < CLIENTS {
        client.give_up(rt, bank, PATIENCE)?;
        return worked;
    }
    client.begin()?;
    let _balance = client.get(rt, bank, 0, &Key::Num(0))?;
    client.put(0, 0u64.into(), (-1i64).into())?;
    Ok(())
}

/// Counts a client that is over, dead or not. The last one stops the store, for the lane of a dead one never comes to a closing mark.
fn leave<N: Name + Stoppable, A: Allocator + Copy>(bank: &Store<N, A>, tally: &Tally) {
    if tally.over.fetch_add(1, Ordering::SeqCst) == CLIENTS as u64 - 1 {
        bank.stop();
    }
}

/// The validators and the clients, each in a thread of its own, until all are over. A client whose thread can't be started is over at once.
fn serve<
    N: Name + Stoppable + Send + Sync,
    A: Allocator + Copy + Send + Sync,
    R: Threads + Wait + Clock + Sync,
>(
    rt: &R,
    bank: &Store<N, A>,
    clients: &mut [Session<N, A>],
    groups: &mut [Group<N, A>],
    tally: &Tally,
) {
    thread::scope(thread::scope_env(), rt, |scope| {
        for group in groups.iter_mut() {
            let _ = scope.spawn(move || group.serve(rt, bank, &AlwaysGo));
        }
        for client in clients.iter_mut() {
            let started = scope.spawn(move || {
                let _lived = live(rt, bank, client, tally);
                leave(bank, tally);
            });
            if started.is_err() {
                leave(bank, tally);
            }
        }
    });
}

/// Two groups of the lanes.
fn halves<N: Name, A: Allocator + Copy>(
    alloc: A,
    mut lanes: Vec<Lane<N, A>, A>,
) -> Result<Vec<Group<N, A>, A>, Fault> {
    let others = lanes.split_off(lanes.len() / 2)?;
    let mut groups = Vec::new(alloc);
    groups.push(Group::new(lanes))?;
    groups.push(Group::new(others))?;
    Ok(groups)
}

/// The lanes of stopped groups, each served until nothing waits in it.
fn served<N: Name, A: Allocator + Copy, R: Wait>(
    rt: &R,
    alloc: A,
    bank: &Store<N, A>,
    groups: Vec<Group<N, A>, A>,
) -> Result<Vec<Lane<N, A>, A>, Fault> {
    let mut lanes = Vec::new(alloc);
    for mut group in groups {
        lanes.append(&mut group.lanes)?;
    }
    for lane in lanes.iter_mut() {
        for _ in rt.forever() {
            let Served::Settled(_) = lane.serve_one(rt, bank, &AlwaysGo)? else {
                break;
            };
        }
    }
    Ok(lanes)
}

/// How many sums were right, what the audit of the book says, and what became of what was handed in.
type Told<A> = (u64, bool, Account<A>);

/// The clients and the validators of a store, and what came of them.
fn play<
    N: Name + Stoppable + Send + Sync,
    A: Allocator + Copy + Send + Sync,
    R: Threads + Wait + Clock + Sync,
>(
    rt: &R,
    alloc: A,
    bank: &Store<N, A>,
    workers: Vec<Worker<N, A>, A>,
    mut clients: Vec<Session<N, A>, A>,
    lanes: Vec<Lane<N, A>, A>,
) -> Result<Told<A>, Fault> {
    let mut groups = halves(alloc, lanes)?;
    let tally = Tally {
        right: AtomicU64::new(0),
        over: AtomicU64::new(0),
    };
    serve(rt, bank, &mut clients, &mut groups, &tally);
    let lanes = served(rt, alloc, bank, groups)?;
    let account = bank.end(rt, workers, lanes, clients)?;
    let mut observer = bank.observer(rt);
    let audited = audit_rows(alloc, &bank.book(rt, &mut observer)?.view())?;
    Ok((tally.right.load(Ordering::SeqCst), audited, account))
}

/// The same on the store of a frame.
fn run<
    N: Name + Stoppable + Send + Sync,
    A: Allocator + Copy + Send + Sync,
    R: Threads + Wait + Clock + Sync,
>(rt: &R, alloc: A, frame: Frame<A>) -> Result<Told<A>, Fault>
    requires { (frame.named ≡ N.named) × (frame.ledger ≡ N.name) × (frame.parts ≡ N.parts) }
{
    let Ok((bank, workers, clients, lanes)) = Store::<N, A>::open(frame) else {
        return Err(Fault::Memory);
    };
    play(rt, alloc, &bank, workers, clients, lanes)
}

/// The same on a new store, whose queues hold four items, and which keeps the last 16 write sets for testing.
fn named<R: Threads + Wait + Clock + Sync>(rt: &R, alloc: Global) -> Result<Told<Global>, Fault> {
    let schema = Schema::of(alloc, &[("accounts", KeyKind::Num, &[Kind::Int])])?;
    let frame = Frame::new(alloc, schema, CLIENTS, 0, 4, 16)?;
    run::<std::marker::Brand, Global, R>(rt, alloc, frame)
}

fn main(rt: HostRuntime) -> std::io::Result<()> {
    let (right, audited, account) = match named(&rt, rt.alloc()) {
        Ok(told) => told,
        Err(fault) => return println!(rt; "{fault}"),
    };
    println!(rt; "{right} right sums, audit {audited}")?;
    for line in account.lines.as_slice() {
        let (closed, left) = (line.taken > line.rows, line.left.len());
        println!(rt; "closed: {closed}, left in the queue: {left}")?;
    }
    Ok(())
}
