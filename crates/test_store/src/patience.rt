//! Clients that wait with patience: beside a validator in a thread, and where nobody serves their lane for a while.
ghost use Rattle.std.specs.Prelude.{◌≡◌};

use crate::transfers::TransferError;
use occ_store::{AlwaysGo, Awaited, Body, Frame, Group, Lane, Name, Session, Store, Transaction};
use occ_types::{Fault, Key, KeyKind, Kind, Schema};
use std::alloc::{Allocator, Global};
use std::io;
use std::marker::Brand;
use std::sync::Wait;
use std::sync::atomic::{AtomicU64, Ordering};
use std::thread::{self, Threads};
use std::time::Clock;

/// The key of the account.
const ACCOUNT: u64 = 7;

/// How often a client waits beside a validator.
const PATIENCE: u64 = 1_000_000;

/// Pays an amount in, and answers what the account has then.
#[derive(Clone, Copy)]
struct Payment {
    amount: i64,
}

impl<N: Name, A: Allocator + Copy, R: Wait> Body<N, A, R> for Payment {
    type Value = i64;

    type Error = TransferError;

    fn run(
        &mut self,
        rt: &R,
        store: &Store<N, A>,
        work: &mut Transaction<N, A>,
    ) -> Result<i64, TransferError> {
        let row = work.get(rt, store, 0, &Key::Num(ACCOUNT))?;
        let balance = row.as_ref().and_then(|row| row.int(0)).unwrap_or(0);
        let paid = balance.saturating_add(self.amount);
        work.put(0, ACCOUNT.into(), paid.into())?;
        if paid < 0 {
            return Err(TransferError::InsufficientFunds);
        }
        Ok(paid)
    }
}

/// A client that pays in 1 fifty times, counts what committed, and gives up at last, whatever it met.
fn pay<N: Name, A: Allocator + Copy, R: Wait + Clock>(
    rt: &R,
    store: &Store<N, A>,
    session: &mut Session<N, A>,
    committed: &AtomicU64,
) {
    for _ in 0..50 {
        let mut body = Payment { amount: 1 };
        match session.transact(rt, store, 1_000, PATIENCE, &mut body) {
            Ok(Awaited::Settled(ended)) if ended.tn().is_some() => {
                committed.fetch_add(1, Ordering::SeqCst);
            }
            _ => break,
        }
    }
    let _mark = session.give_up(rt, store, PATIENCE);
}

/// Clients in threads beside a validator in another. How many payments committed.
fn pay_beside<
    N: Name + Send + Sync,
    A: Allocator + Copy + Send + Sync,
    R: Threads + Wait + Clock + Sync,
>(rt: &R, store: &Store<N, A>, sessions: &mut [Session<N, A>], group: &mut Group<N, A>) -> u64 {
    let count = AtomicU64::new(0);
    let committed = &count;
    thread::scope(thread::scope_env(), rt, |scope| {
        let _ = scope.spawn(move || group.serve(rt, store, &AlwaysGo));
        for session in sessions.iter_mut() {
            let _ = scope.spawn(move || pay(rt, store, session, committed));
        }
    });
    count.load(Ordering::SeqCst)
}

/// What came of the turns of a client whose lane is served now and then.
#[derive(Clone, Copy)]
struct Turns {
    waits: [Result<Awaited<i64>, TransferError>; 5],
    marks: [Result<u64, Fault>; 3],
    reading: [usize; 2],
}

/// Waits again for what is pending.
fn wait_again<N: Name, A: Allocator + Copy, R: Wait + Clock>(
    rt: &R,
    session: &mut Session<N, A>,
    waited: Result<Awaited<i64>, TransferError>,
) -> Result<Awaited<i64>, TransferError> {
    match waited {
        Ok(Awaited::Pending(pending)) => Ok(session.wait(rt, pending, 3)),
        other => other,
    }
}

/// Waits for what is served late, is refused by its body and by a full queue, and gives up while a transaction is open.
fn play_late<N: Name, A: Allocator + Copy, R: Wait + Clock>(
    rt: &R,
    store: &Store<N, A>,
    session: &mut Session<N, A>,
    lane: &mut Lane<N, A>,
) -> Result<Turns, Fault> {
    let pending = session.transact(rt, store, 3, 3, &mut Payment { amount: 0 });
    let full = session.transact(rt, store, 3, 3, &mut Payment { amount: 0 });
    let again = wait_again(rt, session, pending);
    lane.serve_one(rt, store, &AlwaysGo)?;
    let served = wait_again(rt, session, again);
    let uncovered = session.transact(rt, store, 3, 3, &mut Payment { amount: -1_000 });
    session.begin()?;
    session.submit(rt)?;
    session.begin()?;
    let _row = session.get(rt, store, 0, &Key::Num(ACCOUNT))?;
    let mut observer = store.observer(rt);
    let reading = store.counts(rt, &mut observer).reading;
    let refused = session.give_up(rt, store, 3);
    let left = store.counts(rt, &mut observer).reading;
    lane.serve_one(rt, store, &AlwaysGo)?;
    let closed = session.give_up(rt, store, 3);
    let closed_again = session.give_up(rt, store, 3);
    Ok(Turns {
        waits: [pending, full, again, served, uncovered],
        marks: [refused, closed, closed_again],
        reading: [reading, left],
    })
}

/// What came of all clients.
#[derive(Clone, Copy)]
struct Told {
    committed: u64,
    turns: Turns,
}

/// Two sessions are clients beside a validator, and then the third is served late.
fn play_by<
    N: Name + Send + Sync,
    A: Allocator + Copy + Send + Sync,
    R: Threads + Wait + Clock + Sync,
>(
    rt: &R,
    store: &Store<N, A>,
    mut sessions: Vec<Session<N, A>, A>,
    mut lanes: Vec<Lane<N, A>, A>,
) -> Result<Told, Fault> {
    let (Some(mut session), Some(mut lane)) = (sessions.pop(), lanes.pop()) else {
        return Err(Fault::NoSession);
    };
    let mut group = Group::new(lanes);
    let committed = pay_beside(rt, store, sessions.as_mut_slice(), &mut group);
    let turns = play_late(rt, store, &mut session, &mut lane)?;
    Ok(Told { committed, turns })
}

/// The same on the store of a frame.
fn play_on<
    N: Name + Send + Sync,
    A: Allocator + Copy + Send + Sync,
    R: Threads + Wait + Clock + Sync,
>(rt: &R, frame: Frame<A>) -> Result<Told, Fault>
    requires { (frame.named ≡ N.named) × (frame.ledger ≡ N.name) × (frame.parts ≡ N.parts) }
{
    let Ok((store, _workers, sessions, lanes)) = Store::<N, A>::open(frame) else {
        return Err(Fault::Memory);
    };
    play_by(rt, &store, sessions, lanes)
}

/// The same on a new store, whose queues hold one item.
fn named<R: Threads + Wait + Clock + Sync>(rt: &R, alloc: Global) -> Result<Told, Fault> {
    let schema = Schema::of(alloc, &[("accounts", KeyKind::Num, &[Kind::Int])])?;
    play_on::<Brand, Global, R>(rt, Frame::new(alloc, schema, 3, 0, 1, 16)?)
}

/// Prints what came of the clients.
pub(crate) fn tell<R: Threads + Wait + Clock + Sync>(
    rt: &HostRuntime,
    threads: &R,
) -> io::Result<()> {
    match named(threads, rt.alloc()) {
        Ok(told) => tell_each(rt, &told),
        Err(fault) => println!(rt; "{fault}"),
    }
}

fn tell_each(rt: &HostRuntime, told: &Told) -> io::Result<()> {
    println!(rt; "{} committed beside a validator", told.committed)?;
    for waited in &told.turns.waits {
        println!(rt; "{waited:?}")?;
    }
    let [reading, left] = told.turns.reading;
    println!(rt; "{reading} reading, {left} after it gave up")?;
    for mark in &told.turns.marks {
        println!(rt; "{mark:?}")?;
    }
    Ok(())
}
