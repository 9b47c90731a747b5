//! Clients that do what a seed says.
use crate::desks::seven;
use occ_model::Verdict;
use occ_store::{Name, Op, Session, Store};
use occ_types::{Cell, Fault, Key, Row};
use std::alloc::Allocator;
use std::sync::Wait;
use std::sync::atomic::{AtomicU64, Ordering};
use std::thread;

/// How many keys there are. The first of them is written by half of the transactions.
const KEYS: u64 = 40;

/// A stream of numbers that a seed gives.
#[derive(Clone, Copy)]
pub(crate) struct Random(u64);

impl Random {
    /// The stream of a seed.
    pub(crate) fn new(seed: u64) -> Random {
        Random(seed.wrapping_mul(0x9E37_79B9_7F4A_7C15) | 1)
    }

    /// A number below this one, or 0.
    pub(crate) fn below(&mut self, limit: u64) -> u64 {
        let mut state = self.0;
        state ^= state << 13;
        state ^= state >> 7;
        state ^= state << 17;
        self.0 = state;
        (state >> 8).checked_rem(limit).unwrap_or(0)
    }

    /// A key, which is the first in half of the cases.
    fn key(&mut self) -> u64 {
        if self.below(2) == 0 {
            return 0;
        }
        self.below(KEYS)
    }
}

/// A client of a session: up to 120 transactions, and then it closes. Whether each was handed in and came to its end. It no longer waits for
/// anything once `serving` is 0, which tells that nobody serves its lane.
pub(crate) fn run_client<N: Name, A: Allocator + Copy, R: Wait>(
    rt: &R,
    alloc: A,
    store: &Store<N, A>,
    session: &mut Session<N, A>,
    seed: u64,
    serving: &AtomicU64,
) -> Result<bool, Fault> {
    let mut random = Random::new(seed);
    let mut met = Ok(());
    for _ in 0..random.below(120) {
        met = run_one(rt, alloc, store, session, &mut random, serving);
        if met.is_err() {
            break;
        }
    }
    let last = close(rt, session, serving)?.saturating_sub(1);
    met?;
    Ok(wait(rt, session, last, serving) == last)
}

// Closes a session, as soon as there is room for the mark.
fn close<N: Name, A: Allocator + Copy, R: Wait>(
    rt: &R,
    session: &mut Session<N, A>,
    serving: &AtomicU64,
) -> Result<u64, Fault> {
    for _ in rt.forever() {
        let closed = close_once(rt, session);
        if closed != Err(Fault::QueueFull) || is_over(serving) {
            return closed;
        }
        thread::yield_now();
    }
    unreachable!()
}

fn is_over(serving: &AtomicU64) -> bool {
    serving.load(Ordering::SeqCst) == 0
}

// One transaction, of one of the kinds. It waits for the end of one in three.
fn run_one<N: Name, A: Allocator + Copy, R: Wait>(
    rt: &R,
    alloc: A,
    store: &Store<N, A>,
    session: &mut Session<N, A>,
    random: &mut Random,
    serving: &AtomicU64,
) -> Result<(), Fault> {
    match random.below(12) {
        0 => add_alone(rt, alloc, session, random),
        1 => fold(rt, store),
        kind => {
            let _start = begin(session)?;
            ask(rt, store, session, random, kind)?;
            if kind == 2 {
                let _forgotten = session.abandon(rt, store)?;
                return Ok(());
            }
            let number = submit(rt, session, serving)?;
            if random.below(3) == 0 {
                let _settled = wait(rt, session, number, serving);
            }
            Ok(())
        }
    }
}

// What the open transaction reads and writes: it puts the number of the rows of a range, deletes a key, or adds 1 under it.
fn ask<N: Name, A: Allocator + Copy, R: Wait>(
    rt: &R,
    store: &Store<N, A>,
    session: &mut Session<N, A>,
    random: &mut Random,
    kind: u64,
) -> Result<(), Fault> {
    let key = random.key();
    if kind == 3 {
        let lower = Key::Num(random.below(KEYS));
        let upper = None;
        let rows = session.scan(rt, store, 0, Some(&lower), upper.as_ref())?;
        return put(session, key, rows.len() as i64);
    }
    let found = number(rt, store, session, key)?;
    if kind <= 5 {
        session.delete(0, Key::Num(key))?;
        return Ok(());
    }
    put(session, key, found.unwrap_or(0).saturating_add(1))
}

/// A session begins a transaction. Its start.
pub(crate) fn begin<N: Name, A: Allocator + Copy>(
    session: &mut Session<N, A>,
) -> Result<u64, Fault> {
    let (_number, start) = session.begin()?;
    Ok(start)
}

/// The number that the open transaction finds under a key.
pub(crate) fn number<N: Name, A: Allocator + Copy, R: Wait>(
    rt: &R,
    store: &Store<N, A>,
    session: &mut Session<N, A>,
    key: u64,
) -> Result<Option<i64>, Fault> {
    let row = session.get(rt, store, 0, &Key::Num(key))?;
    Ok(row.as_ref().and_then(|row| row.int(0)))
}

/// Whether a page of one row, the last one or the first, tells the open transaction of another row.
pub(crate) fn is_followed<N: Name, A: Allocator + Copy, R: Wait>(
    rt: &R,
    store: &Store<N, A>,
    session: &mut Session<N, A>,
    last: bool,
) -> Result<bool, Fault> {
    let end = None;
    let page = if last {
        session.scan_last(rt, store, 0, end.as_ref(), end.as_ref(), 1)?
    } else {
        session.scan_first(rt, store, 0, end.as_ref(), end.as_ref(), 1)?
    };
    Ok(page.rest.is_some())
}

/// The open transaction puts a number under a key.
pub(crate) fn put<N: Name, A: Allocator + Copy>(
    session: &mut Session<N, A>,
    key: u64,
    number: i64,
) -> Result<(), Fault> {
    session.put(0, Key::Num(key), Row::from_cell(Cell::Int(number)))?;
    Ok(())
}

// Puts a row and adds 1 to it, alone, if there is room in the queue.
fn add_alone<N: Name, A: Allocator + Copy, R: Wait>(
    rt: &R,
    alloc: A,
    session: &mut Session<N, A>,
    random: &mut Random,
) -> Result<(), Fault> {
    let key = random.key();
    let mut operations = Vec::new(alloc);
    operations.push(Op::Put {
        table: 0,
        key: Key::Num(key),
        row: seven(),
    })?;
    operations.push(Op::Add {
        table: 0,
        key: Key::Num(key),
        amount: 1,
    })?;
    match hand_in_alone(rt, session, operations) {
        Ok(_) | Err(Fault::QueueFull) => Ok(()),
        Err(fault) => Err(fault),
    }
}

/// A session hands in operations to run alone. Their number.
pub(crate) fn hand_in_alone<N: Name, A: Allocator + Copy, R: Wait>(
    rt: &R,
    session: &mut Session<N, A>,
    operations: Vec<Op<A>, A>,
) -> Result<u64, Fault> {
    let number = session.alone(rt, operations)?;
    Ok(number)
}

/// A session hands in the open transaction. Its number.
pub(crate) fn hand_in<N: Name, A: Allocator + Copy, R: Wait>(
    rt: &R,
    session: &mut Session<N, A>,
) -> Result<u64, Fault> {
    session.submit(rt)
}

/// A session closes. The number of its mark.
pub(crate) fn close_once<N: Name, A: Allocator + Copy, R: Wait>(
    rt: &R,
    session: &mut Session<N, A>,
) -> Result<u64, Fault> {
    session.close(rt)
}

/// A checkpoint. How many rows it folds.
pub(crate) fn checkpoint<N: Name, A: Allocator + Copy, R: Wait>(
    rt: &R,
    store: &Store<N, A>,
) -> Result<usize, Fault> {
    let mut observer = store.observer(rt);
    store.checkpoint(rt, &mut observer)
}

// Folds what can be folded, unless a row is open.
fn fold<N: Name, A: Allocator + Copy, R: Wait>(rt: &R, store: &Store<N, A>) -> Result<(), Fault> {
    match checkpoint(rt, store) {
        Ok(_) | Err(Fault::StoreBusy) => Ok(()),
        Err(fault) => Err(fault),
    }
}

// Hands in the open transaction, again while there is no room. Its number.
fn submit<N: Name, A: Allocator + Copy, R: Wait>(
    rt: &R,
    session: &mut Session<N, A>,
    serving: &AtomicU64,
) -> Result<u64, Fault> {
    for _ in rt.forever() {
        let submitted = hand_in(rt, session);
        if submitted != Err(Fault::QueueFull) || is_over(serving) {
            return submitted;
        }
        thread::yield_now();
    }
    unreachable!()
}

// Waits until the transaction with a number is over. The number of the last one that is over.
fn wait<N: Name, A: Allocator + Copy, R: Wait>(
    rt: &R,
    session: &mut Session<N, A>,
    number: u64,
    serving: &AtomicU64,
) -> u64 {
    for _ in rt.forever() {
        let all_over = is_over(serving);
        let (last, _, _) = poll(session);
        if all_over || last >= number {
            return last;
        }
        thread::yield_now();
    }
    unreachable!()
}

/// The last transaction of a session that is over: its number, how it ended, and the counter of the last commit.
pub(crate) fn poll<N: Name, A: Allocator + Copy>(
    session: &mut Session<N, A>,
) -> (u64, Option<Verdict>, u64) {
    let last = session.poll();
    (last.number, last.status, last.tn)
}
