//! A load on a store: its rows at first, who makes its transactions, and its sum at the end.
ghost use Rattle.std.specs.Prelude.{◌≡◌};

use crate::budgets::Budget;
use crate::by_lanes::Client;
use crate::calls::{CALLS, are_right, run_list};
use crate::crews::{Member, told};
use crate::folds::fold;
use crate::hands::{Hand, Maker};
use crate::loads::Shape;
use crate::outcomes::{Done, Told};
use crate::rows::{PUTS, TABLE, puts, schema, write};
use crate::tasks::{By, Task, Way};
use occ_book::TableRows;
use occ_store::{Frame, Lane, Name, Session, Store, Worker};
use occ_types::Fault;
use std::alloc::Allocator;
use std::marker::Brand;
use std::sync::Wait;
use std::thread::{self, Threads};
use std::time::Clock;

/// How many items a session's queue holds.
const ROOM: usize = 4;
/// How many write sets are kept for testing.
pub(crate) const KEPT: usize = 16;

/// Does a task on a store with so many sessions as there are threads.
pub(crate) fn open<A: Allocator + Copy + Send + Sync, R: Threads + Wait + Clock + Sync>(
    rt: &R,
    alloc: A,
    task: Task,
) -> Result<Told, Fault> {
    let (sessions, workers) = parties(task);
    let frame = Frame::new(alloc, schema(alloc)?, sessions, workers, ROOM, KEPT)?;
    run::<Brand, A, R>(rt, alloc, frame, task)
}

/// How many sessions a task has, and how many of them are workers: each thread's, or one that puts the rows for the sessions of the
/// threads.
fn parties(task: Task) -> (usize, usize) {
    if task.way.by == By::Worker {
        (task.threads, task.threads)
    } else {
        (task.threads.saturating_add(1), 1)
    }
}

/// Does a task on the store of a frame.
fn run<N: Name + Send + Sync, A: Allocator + Copy + Send + Sync, R: Threads + Wait + Clock + Sync>(
    rt: &R,
    alloc: A,
    frame: Frame<A>,
    task: Task,
) -> Result<Told, Fault>
    requires { (frame.named ≡ N.named) × (frame.ledger ≡ N.name) × (frame.parts ≡ N.parts) }
{
    let Ok((store, workers, sessions, lanes)) = Store::<N, A>::open(frame) else {
        return Err(Fault::Memory);
    };
    play(rt, alloc, &store, workers, sessions, lanes, task)
}

/// Does a task on a store, by a thread for each session.
fn play<N: Name + Send + Sync, A: Allocator + Copy + Send + Sync, R: Threads + Wait + Clock + Sync>(
    rt: &R,
    alloc: A,
    store: &Store<N, A>,
    workers: Vec<Worker<N, A>, A>,
    sessions: Vec<Session<N, A>, A>,
    lanes: Vec<Lane<N, A>, A>,
    task: Task,
) -> Result<Told, Fault> {
    let mut workers = workers;
    let (called, before) = prepare(rt, alloc, store, &mut workers, task.load.shape)?;
    let mut told = if task.way.by == By::Worker {
        play_by_workers(rt, alloc, store, workers, task)?
    } else {
        play_by_clients(rt, alloc, store, sessions, lanes, task)?
    };
    (told.called, told.before) = (called, before);
    told.sum = total(rt, store);
    Ok(told)
}

/// Has the first worker make each of its calls, and put the rows. Whether the calls came as is due, and what it did; none where there is no
/// worker.
fn prepare<N: Name, A: Allocator + Copy, R: Wait>(
    rt: &R,
    alloc: A,
    store: &Store<N, A>,
    workers: &mut [Worker<N, A>],
    shape: Shape,
) -> Result<(bool, Option<Done>), Fault> {
    let Some(worker) = workers.first_mut() else {
        return Ok((true, None));
    };
    let called = are_right(rt, alloc, store, worker, shape)?;
    let filled = fill(rt, alloc, store, worker, shape.rows)?;
    Ok((called, Some(filled)))
}

/// Does a task by workers; the sum of the rows is left out.
fn play_by_workers<
    N: Name + Send + Sync,
    A: Allocator + Copy + Send + Sync,
    R: Threads + Wait + Clock + Sync,
>(
    rt: &R,
    alloc: A,
    store: &Store<N, A>,
    workers: Vec<Worker<N, A>, A>,
    task: Task,
) -> Result<Told, Fault> {
    let mut crew = Vec::new(alloc);
    for mut worker in workers {
        let place = crew.len();
        worker.checkpoint_each(task.folded_each());
        crew.push(Member::new(worker, task, place))?;
    }
    let budget = Budget::begin(rt, task.until);
    workers_at_once(rt, store, &mut crew, task.way, &budget);
    Ok(told(rt, &crew, task, &budget))
}

/// Does a task by sessions and their lanes; the sum of the rows is left out.
fn play_by_clients<
    N: Name + Send + Sync,
    A: Allocator + Copy + Send + Sync,
    R: Threads + Wait + Clock + Sync,
>(
    rt: &R,
    alloc: A,
    store: &Store<N, A>,
    sessions: Vec<Session<N, A>, A>,
    lanes: Vec<Lane<N, A>, A>,
    task: Task,
) -> Result<Told, Fault> {
    let mut crew = Vec::new(alloc);
    for (session, lane) in sessions.into_iter().zip(lanes) {
        let place = crew.len();
        let client = Client::new(alloc, session, lane, task.way.by);
        crew.push(Member::new(client, task, place))?;
    }
    let budget = Budget::begin(rt, task.until);
    clients_at_once(rt, store, &mut crew, task.way, &budget);
    Ok(told(rt, &crew, task, &budget))
}

/// Puts so many rows of 0, and behind them one of 1, which is deleted again; and folds all. What was done on the store until then.
fn fill<N: Name, A: Allocator + Copy, R: Wait>(
    rt: &R,
    alloc: A,
    store: &Store<N, A>,
    worker: &mut Worker<N, A>,
    rows: u64,
) -> Result<Done, Fault> {
    let mut done = Done::first(CALLS);
    for part in 0..rows.div_ceil(PUTS) {
        let first = part.saturating_mul(PUTS);
        let puts = puts(alloc, first, rows.min(first.saturating_add(PUTS)))?;
        let tn = run_list(rt, store, worker, 0, &puts)?;
        done = done.and(Done::one(tn, 0));
    }
    for number in [Some(1), None] {
        let write = write(alloc, rows, number)?;
        let tn = run_list(rt, store, worker, 1, &write)?;
        done = done.and(Done::one(tn, 0));
    }
    fold(rt, store)?;
    Ok(done)
}

/// Has each worker work in a thread of its own.
fn workers_at_once<
    N: Name + Send + Sync,
    A: Allocator + Copy + Send + Sync,
    R: Threads + Wait + Clock + Sync,
>(rt: &R, store: &Store<N, A>, crew: &mut [Member<Worker<N, A>>], way: Way, budget: &Budget) {
    thread::scope(thread::scope_env(), rt, |scope| {
        for member in crew.iter_mut() {
            let _ = scope.spawn(move || worker_works(rt, store, member, way, budget));
        }
    });
}

/// Has a worker make its part.
fn worker_works<N: Name, A: Allocator + Copy, R: Wait + Clock>(
    rt: &R,
    store: &Store<N, A>,
    member: &mut Member<Worker<N, A>>,
    way: Way,
    budget: &Budget,
) {
    let mut hand = Hand::new(Maker::Worker(&mut member.player), way);
    hand.work(rt, store, &mut member.part, budget);
}

/// Has each client work in a thread of its own.
fn clients_at_once<
    N: Name + Send + Sync,
    A: Allocator + Copy + Send + Sync,
    R: Threads + Wait + Clock + Sync,
>(rt: &R, store: &Store<N, A>, crew: &mut [Member<Client<N, A>>], way: Way, budget: &Budget) {
    thread::scope(thread::scope_env(), rt, |scope| {
        for member in crew.iter_mut() {
            let _ = scope.spawn(move || client_works(rt, store, member, way, budget));
        }
    });
}

/// Has a client make its part.
fn client_works<N: Name, A: Allocator + Copy, R: Wait + Clock>(
    rt: &R,
    store: &Store<N, A>,
    member: &mut Member<Client<N, A>>,
    way: Way,
    budget: &Budget,
) {
    let mut hand = Hand::new(Maker::Client(&mut member.player), way);
    hand.work(rt, store, &mut member.part, budget);
}

/// The sum of all rows.
fn total<N: Name, A: Allocator + Copy, R: Wait>(rt: &R, store: &Store<N, A>) -> i64 {
    let shared = store.lock(rt);
    match shared.core().table().table(TABLE) {
        Some(rows) => sum(rows),
        None => 0,
    }
}

/// The sum of the numbers in some rows.
fn sum<A: Allocator>(rows: TableRows<'_, A>) -> i64 {
    let mut sum = 0i64;
    for (_, row) in rows {
        sum = sum.wrapping_add(row.int(0).unwrap_or(0));
    }
    sum
}
