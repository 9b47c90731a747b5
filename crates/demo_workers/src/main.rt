//! A store that goes on where another one has run out of numbers. Four clients make 400 payments, each in a thread of its own. The first
//! store has nine commits left, and its first session two transactions: it stops all clients, ends, and leaves its rows to the next
//! store, whose numbers begin anew. No payment is lost, and none is made twice.
#![tactic(auto)]

ghost use Rattle.std.specs.Prelude.{◌≡◌};

use occ_audit::audit_rows;
use occ_store::{
    Base, Body, Ended, Fault, Frame, Key, KeyKind, Kind, Lane, Marks, Name, Schema, Session, Store,
    Tables, Transaction, Worker,
};
use occ_types::limits::{MAX_COUNTER, MAX_NUMBER};
use std::alloc::{Allocator, Global};
use std::sync::Wait;
use std::sync::atomic::{AtomicU64, Ordering};
use std::thread::{self, Threads};

/// How many clients there are.
const CLIENTS: usize = 4;

/// How many payments they make together.
const PAYMENTS: u64 = 400;

/// Into how many accounts they pay.
const ACCOUNTS: u64 = 3;

/// Pays 1 into an account.
#[derive(Clone, Copy)]
struct Pay {
    account: u64,
}

impl<N: Name, A: Allocator + Copy, R: Wait> Body<N, A, R> for Pay {
    type Value = ();

    type Error = Fault;

    fn run(
        &mut self,
        rt: &R,
        bank: &Store<N, A>,
        work: &mut Transaction<N, A>,
    ) -> Result<(), Fault> {
        let row = work.get(rt, bank, 0, &Key::Num(self.account))?;
        let balance = row.as_ref().and_then(|row| row.int(0)).unwrap_or(0);
        work.put(0, self.account.into(), balance.saturating_add(1).into())?;
        Ok(())
    }
}

/// A client, which makes one payment after another, until none is left or the store refuses one. What is refused isn't made, so the next
/// store has it to make. `paid` counts the payments that are made or under way, and `stopped` the clients whose store has no numbers left.
fn work<N: Name, A: Allocator + Copy, R: Wait>(
    rt: &R,
    bank: &Store<N, A>,
    worker: &mut Worker<N, A>,
    paid: &AtomicU64,
    stopped: &AtomicU64,
) {
    for _ in 0..PAYMENTS {
        let payment = paid.fetch_add(1, Ordering::SeqCst);
        if payment < PAYMENTS {
            let mut body = Pay {
                account: payment % ACCOUNTS,
            };
            match worker.transact(rt, bank, 1_000_000, &mut body) {
                Ok(Ended::Committed { .. }) => continue,
                Err(Fault::CounterExhausted | Fault::NumbersExhausted) => {
                    stopped.fetch_add(1, Ordering::SeqCst);
                }
                _ => {}
            }
        }
        paid.fetch_sub(1, Ordering::SeqCst);
        return;
    }
}

/// The clients at once, each in a thread of its own. How many of them were stopped.
fn serve<N: Name + Send + Sync, A: Allocator + Copy + Send + Sync, R: Threads + Wait + Sync>(
    rt: &R,
    bank: &Store<N, A>,
    workers: &mut [Worker<N, A>],
    paid: &AtomicU64,
) -> u64 {
    let stopped = &AtomicU64::new(0);
    thread::scope(thread::scope_env(), rt, |scope| {
        for worker in workers.iter_mut() {
            let _ = scope.spawn(move || work(rt, bank, worker, paid, stopped));
        }
    });
    stopped.load(Ordering::SeqCst)
}

/// What a store has come to: the sum of its accounts, how many clients it stopped, and what the audit of its book says.
#[derive(Clone, Copy)]
struct Outcome {
    sum: i64,
    stopped: u64,
    audited: bool,
}

/// The outcome of a store that stopped so many clients.
fn outcome_of<N: Name, A: Allocator + Copy, R: Wait>(
    rt: &R,
    alloc: A,
    bank: &Store<N, A>,
    stopped: u64,
) -> Result<Outcome, Fault> {
    let mut observer = bank.observer(rt);
    let book = bank.book(rt, &mut observer)?;
    let mut sum = 0i64;
    for account in 0..ACCOUNTS {
        let row = book.table.row(0, &account.into());
        sum = sum.saturating_add(row.and_then(|row| row.int(0)).unwrap_or(0));
    }
    let audited = audit_rows(alloc, &book.view())?;
    Ok(Outcome {
        sum,
        stopped,
        audited,
    })
}

/// What happens while a store is open: its clients pay, and all of them end.
fn play<N: Name + Send + Sync, A: Allocator + Copy + Send + Sync, R: Threads + Wait + Sync>(
    rt: &R,
    bank: &Store<N, A>,
    workers: Vec<Worker<N, A>, A>,
    sessions: Vec<Session<N, A>, A>,
    lanes: Vec<Lane<N, A>, A>,
    paid: &AtomicU64,
) -> Result<Outcome, Fault> {
    let alloc = *workers.allocator();
    let mut workers = workers;
    let stopped = serve(rt, bank, &mut workers, paid);
    let _account = bank.end(rt, workers, lanes, sessions)?;
    outcome_of(rt, alloc, bank, stopped)
}

/// The life of a store, from its frame to the base that it leaves.
fn live<N: Name + Send + Sync, A: Allocator + Copy + Send + Sync, R: Threads + Wait + Sync>(
    rt: &R,
    frame: Frame<A>,
    paid: &AtomicU64,
) -> Result<(Outcome, Base<A>), Fault>
    requires { (frame.named ≡ N.named) × (frame.ledger ≡ N.name) × (frame.parts ≡ N.parts) }
{
    let Ok((bank, workers, sessions, lanes)) = Store::<N, A>::open(frame) else {
        return Err(Fault::Memory);
    };
    let outcome = play(rt, &bank, workers, sessions, lanes, paid)?;
    Ok((outcome, bank.into_base()?))
}

/// A store that goes on from a base. All sessions are workers, and the last 16 write sets are kept for testing.
fn go_on<R: Threads + Wait + Sync>(
    rt: &R,
    alloc: Global,
    base: Base<Global>,
    counter: u64,
    paid: &AtomicU64,
) -> Result<(Outcome, Base<Global>), Fault> {
    let schema = Schema::of(alloc, &[("accounts", KeyKind::Num, &[Kind::Int])])?;
    let frame = Frame::resume(alloc, schema, CLIENTS, CLIENTS, 0, 16, base, counter)?;
    live::<std::marker::Brand, Global, R>(rt, frame, paid)
}

/// A base without rows, from which the first session has two transactions left.
fn worn_out(alloc: Global) -> Result<Base<Global>, Fault> {
    let mut last = Marks::new(alloc, CLIENTS)?;
    last.set(1, MAX_NUMBER - 3);
    Ok(Base::from_parts(Tables::new(alloc, 1)?, last, 1))
}

/// The two stores, one after the other.
fn run<R: Threads + Wait + Sync>(rt: &R, alloc: Global) -> Result<[Outcome; 2], Fault> {
    let paid = AtomicU64::new(0);
    let base = worn_out(alloc)?;
    let (first, base) = go_on(rt, alloc, base, MAX_COUNTER - 9, &paid)?;
    let (second, _base) = go_on(rt, alloc, base.renumbered(), 0, &paid)?;
    Ok([first, second])
}

fn main(rt: HostRuntime) -> std::io::Result<()> {
    match run(&rt, rt.alloc()) {
        Ok(outcomes) => {
            for it in outcomes {
                println!(rt;
                    "{} paid in, {} clients stopped, audit {}",
                    it.sum, it.stopped, it.audited
                )?;
            }
            Ok(())
        }
        Err(fault) => println!(rt; "{fault}"),
    }
}
