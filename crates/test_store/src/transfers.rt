//! Transfers by a worker: one that the balance doesn't cover, and others; and accounts that it closes, of which one has to stay.
ghost use Rattle.std.specs.Prelude.{◌≡◌};

use crate::clients::is_followed;
use occ_store::{
    AlwaysGo, Body, Counts, Ended, Frame, Lane, Name, Session, Store, Transaction, Worker,
};
use occ_types::{Fault, Key, KeyKind, Kind, Refused, Schema};
use std::alloc::{Allocator, Global};
use std::io;
use std::marker::Brand;
use std::sync::Wait;

/// The table of the accounts.
const ACCOUNTS: usize = 0;

/// The accounts between which money is moved.
const FROM: u64 = 7;

const TO: u64 = 8;

/// Why nothing is moved.
#[derive(Clone, Copy, Debug)]
pub(crate) enum TransferError {
    InsufficientFunds,
    LastAccount,
    Store(Fault),
}

impl From<Fault> for TransferError {
    fn from(fault: Fault) -> TransferError {
        TransferError::Store(fault)
    }
}

impl<T: Drop> From<Refused<T>> for TransferError {
    fn from(refused: Refused<T>) -> TransferError {
        TransferError::Store(refused.fault)
    }
}

/// Another client pays an amount into an account.
fn pay<N: Name, A: Allocator + Copy, R: Wait>(
    rt: &R,
    store: &Store<N, A>,
    session: &mut Session<N, A>,
    lane: &mut Lane<N, A>,
    (account, amount): (u64, i64),
) -> Result<(), Fault> {
    session.begin()?;
    let row = session.get(rt, store, ACCOUNTS, &Key::Num(account))?;
    let balance = row.as_ref().and_then(|row| row.int(0)).unwrap_or(0);
    let paid = balance.saturating_add(amount);
    session.put(ACCOUNTS, account.into(), paid.into())?;
    session.submit(rt)?;
    let _settled = lane.serve_one(rt, store, &AlwaysGo)?;
    Ok(())
}

/// What an account has.
fn balance<N: Name, A: Allocator + Copy, R: Wait>(
    rt: &R,
    store: &Store<N, A>,
    work: &mut Transaction<N, A>,
    account: u64,
) -> Result<i64, Fault>
    ensures own { work.new.front.party ≡ work.old.front.party }
{
    let row = work.get(rt, store, ACCOUNTS, &Key::Num(account))?;
    Ok(row.as_ref().and_then(|row| row.int(0)).unwrap_or(0))
}

/// Moves an amount from one account to another, and answers what is left in the first.
#[derive(Clone, Copy)]
struct Transfer {
    from: u64,
    to: u64,
    amount: i64,
}

impl<N: Name, A: Allocator + Copy, R: Wait> Body<N, A, R> for Transfer {
    type Value = i64;

    type Error = TransferError;

    fn run(
        &mut self,
        rt: &R,
        store: &Store<N, A>,
        work: &mut Transaction<N, A>,
    ) -> Result<i64, TransferError> {
        let left = balance(rt, store, work, self.from)?.saturating_sub(self.amount);
        if left < 0 {
            return Err(TransferError::InsufficientFunds);
        }
        work.put(ACCOUNTS, self.from.into(), left.into())?;
        let paid = balance(rt, store, work, self.to)?.saturating_add(self.amount);
        work.put(ACCOUNTS, self.to.into(), paid.into())?;
        Ok(left)
    }
}

/// Whether a page of one row, the last one or the first, tells of no other account.
fn is_last<N: Name, A: Allocator + Copy, R: Wait>(
    rt: &R,
    store: &Store<N, A>,
    work: &mut Transaction<N, A>,
    backward: bool,
) -> Result<bool, Fault>
    ensures own { work.new.front.party ≡ work.old.front.party }
{
    let end = None;
    let page = if backward {
        work.scan_last(rt, store, ACCOUNTS, end.as_ref(), end.as_ref(), 1)?
    } else {
        work.scan_first(rt, store, ACCOUNTS, end.as_ref(), end.as_ref(), 1)?
    };
    Ok(page.rest.is_none())
}

/// Closes an account that isn't the last one, and answers what is left in it. A lane is served before it does.
#[derive(Drop)]
struct Closing<'l, N: Name, A: Allocator + Copy> {
    lane: &'l mut Lane<N, A>,
    account: u64,
    /// Whether it asks for the last page, and not for the first.
    backward: bool,
}

impl<N: Name, A: Allocator + Copy, R: Wait> Body<N, A, R> for Closing<'_, N, A> {
    type Value = i64;

    type Error = TransferError;

    fn run(
        &mut self,
        rt: &R,
        store: &Store<N, A>,
        work: &mut Transaction<N, A>,
    ) -> Result<i64, TransferError> {
        if is_last(rt, store, work, self.backward)? {
            return Err(TransferError::LastAccount);
        }
        self.lane.serve_one(rt, store, &AlwaysGo)?;
        work.delete(ACCOUNTS, self.account.into())?;
        Ok(0)
    }
}

/// What came of a transaction, and what the store has counted by then.
#[derive(Clone, Copy)]
struct Told {
    ended: Result<Ended<i64>, TransferError>,
    counts: Counts,
}

/// Tries a transaction at most three times.
fn tried<N: Name, A: Allocator + Copy, R: Wait, B: Body<N, A, R>>(
    rt: &R,
    store: &Store<N, A>,
    worker: &mut Worker<N, A>,
    body: &mut B,
) -> Result<Ended<B::Value>, B::Error> {
    worker.transact(rt, store, 3, body)
}

/// What came of one that ended so.
fn told_of<N: Name, A: Allocator + Copy, R: Wait>(
    rt: &R,
    store: &Store<N, A>,
    ended: Result<Ended<i64>, TransferError>,
) -> Told {
    let mut observer = store.observer(rt);
    Told {
        ended,
        counts: store.counts(rt, &mut observer),
    }
}

/// Moves an amount.
fn move_amount<N: Name, A: Allocator + Copy, R: Wait>(
    rt: &R,
    store: &Store<N, A>,
    worker: &mut Worker<N, A>,
    amount: i64,
) -> Told {
    let mut body = Transfer {
        from: FROM,
        to: TO,
        amount,
    };
    let ended = tried(rt, store, worker, &mut body);
    told_of(rt, store, ended)
}

/// Closes the account that a page of one row shows, while another client closes the one of which it tells.
fn close<N: Name, A: Allocator + Copy, R: Wait>(
    rt: &R,
    store: &Store<N, A>,
    worker: &mut Worker<N, A>,
    session: &mut Session<N, A>,
    lane: &mut Lane<N, A>,
    backward: bool,
) -> Result<Told, Fault> {
    let (shown, told) = if backward { (TO, FROM) } else { (FROM, TO) };
    session.begin()?;
    if is_followed(rt, store, session, backward)? {
        session.delete(ACCOUNTS, told.into())?;
    }
    session.submit(rt)?;
    let mut body = Closing {
        lane,
        account: shown,
        backward,
    };
    let ended = tried(rt, store, worker, &mut body);
    Ok(told_of(rt, store, ended))
}

/// Of 100 that were paid in, 130 are to be moved, then 30, and then nothing, which tells what is left. Then each of the two accounts is to be
/// closed, while another client closes the other one.
fn play<N: Name, A: Allocator + Copy, R: Wait>(
    rt: &R,
    store: &Store<N, A>,
    worker: &mut Worker<N, A>,
    session: &mut Session<N, A>,
    lane: &mut Lane<N, A>,
) -> Result<[Told; 5], Fault> {
    pay(rt, store, session, lane, (FROM, 100))?;
    let uncovered = move_amount(rt, store, worker, 130);
    let covered = move_amount(rt, store, worker, 30);
    let nothing = move_amount(rt, store, worker, 0);
    let first = close(rt, store, worker, session, lane, false)?;
    pay(rt, store, session, lane, (TO, 30))?;
    let last = close(rt, store, worker, session, lane, true)?;
    Ok([uncovered, covered, nothing, first, last])
}

/// The last session, and the last lane.
fn last<N: Name, A: Allocator + Copy>(
    sessions: &mut Vec<Session<N, A>, A>,
    lanes: &mut Vec<Lane<N, A>, A>,
) -> Result<(Session<N, A>, Lane<N, A>), Fault> {
    let Some(session) = sessions.pop() else {
        return Err(Fault::NoSession);
    };
    let Some(lane) = lanes.pop() else {
        return Err(Fault::NoSession);
    };
    Ok((session, lane))
}

/// The same by two sessions of a store, of which the first is a worker's.
fn play_by<N: Name, A: Allocator + Copy, R: Wait>(
    rt: &R,
    store: &Store<N, A>,
    mut workers: Vec<Worker<N, A>, A>,
    mut sessions: Vec<Session<N, A>, A>,
    mut lanes: Vec<Lane<N, A>, A>,
) -> Result<[Told; 5], Fault> {
    let (mut session, mut lane) = last(&mut sessions, &mut lanes)?;
    let Some(mut worker) = workers.pop() else {
        return Err(Fault::NoSession);
    };
    play(rt, store, &mut worker, &mut session, &mut lane)
}

/// The same on the store of a frame.
fn play_on<N: Name, A: Allocator + Copy, R: Wait>(
    rt: &R,
    frame: Frame<A>,
) -> Result<[Told; 5], Fault>
    requires { (frame.named ≡ N.named) × (frame.ledger ≡ N.name) × (frame.parts ≡ N.parts) }
{
    let Ok((store, workers, sessions, lanes)) = Store::<N, A>::open(frame) else {
        return Err(Fault::Memory);
    };
    play_by(rt, &store, workers, sessions, lanes)
}

/// The same on a new store.
fn named<R: Wait>(rt: &R, alloc: Global) -> Result<[Told; 5], Fault> {
    let schema = Schema::of(alloc, &[("accounts", KeyKind::Num, &[Kind::Int])])?;
    play_on::<Brand, Global, R>(rt, Frame::new(alloc, schema, 2, 1, 4, 16)?)
}

/// Prints what came of the worker's transactions.
pub(crate) fn tell<R: Wait>(rt: &HostRuntime, threads: &R) -> io::Result<()> {
    match named(threads, rt.alloc()) {
        Ok(told) => tell_each(rt, &told),
        Err(fault) => println!(rt; "{fault}"),
    }
}

fn tell_each(rt: &HostRuntime, told: &[Told]) -> io::Result<()> {
    for told in told {
        let Counts {
            committed,
            conflicts,
            reading,
            ..
        } = told.counts;
        println!(rt;
            "{:?}: {committed} committed, {conflicts} conflicts, {reading} reading",
            told.ended
        )?;
    }
    Ok(())
}
