//! The end of a bank's store, once all its threads are over: what was left is served, and all has to add up.
use crate::bank::{Party, Tally};
use crate::rows::TABLE;
use occ_audit::audit_rows;
use occ_store::{Account, AlwaysGo, Counts, Lane, Name, Parties, Served, Store};
use occ_types::Fault;
use std::alloc::Allocator;
use std::sync::Wait;
use std::sync::atomic::Ordering;

/// What came of rounds.
#[derive(Clone, Copy)]
pub(crate) struct Outcome {
    /// How many rounds there were.
    pub(crate) rounds: u64,
    /// How many transactions committed, and how many tries were backed up.
    pub(crate) committed: u64,
    pub(crate) backed_up: u64,
    /// How many clients died.
    pub(crate) died: u64,
    /// Whether all is as it must be.
    pub(crate) right: bool,
}

impl Outcome {
    /// That of no round.
    pub(crate) const NOTHING: Outcome = Outcome {
        rounds: 0,
        committed: 0,
        backed_up: 0,
        died: 0,
        right: true,
    };

    /// What came of these rounds and of others.
    pub(crate) fn and(self, other: Outcome) -> Outcome {
        Outcome {
            rounds: self.rounds.saturating_add(other.rounds),
            committed: self.committed.saturating_add(other.committed),
            backed_up: self.backed_up.saturating_add(other.backed_up),
            died: self.died.saturating_add(other.died),
            right: self.right && other.right,
        }
    }
}

/// Ends the store of a round.
pub(crate) fn close<N: Name, A: Allocator + Copy, R: Wait>(
    rt: &R,
    alloc: A,
    bank: &Store<N, A>,
    parties: Vec<Party<N, A>, A>,
    tally: &Tally,
) -> Result<Outcome, Fault> {
    let (workers, mut lanes, clients) = apart(alloc, parties)?;
    for lane in lanes.iter_mut() {
        serve(rt, bank, lane)?;
    }
    let sessions = clients.len() as u64;
    let account = bank.end(rt, workers, lanes, clients)?;
    let mut observer = bank.observer(rt);
    let counts = bank.counts(rt, &mut observer);
    let died = tally.died.load(Ordering::SeqCst);
    let told = tally.committed.load(Ordering::SeqCst);
    let right = tally.wrong.load(Ordering::SeqCst) == 0
        && adds_up(&account, &counts, sessions.saturating_sub(died))
        && counts.reading as u64 == died
        && counts.committed.saturating_sub(told) <= died
        && is_explained(rt, alloc, bank)?;
    Ok(Outcome {
        rounds: 1,
        committed: counts.committed,
        backed_up: counts.conflicts.saturating_add(counts.too_old),
        died,
        right,
    })
}

/// The workers, the lanes and the sessions of all parties, each in the order of their numbers.
fn apart<N: Name, A: Allocator + Copy>(
    alloc: A,
    parties: Vec<Party<N, A>, A>,
) -> Result<Parties<N, A>, Fault> {
    let (mut workers, mut lanes, mut clients) = (Vec::new(alloc), Vec::new(alloc), Vec::new(alloc));
    for party in parties {
        match party {
            Party::Worker(worker) => workers.push(worker)?,
            Party::Client(client) => clients.push(client)?,
            Party::Validator(mut group) => lanes.append(&mut group.lanes)?,
        }
    }
    Ok((workers, lanes, clients))
}

/// Serves a lane until nothing waits in it.
fn serve<N: Name, A: Allocator + Copy, R: Wait>(
    rt: &R,
    bank: &Store<N, A>,
    lane: &mut Lane<N, A>,
) -> Result<(), Fault> {
    for _ in rt.forever() {
        let Served::Settled(_) = lane.serve_one(rt, bank, &AlwaysGo)? else {
            return Ok(());
        };
    }
    unreachable!()
}

/// Whether all that was handed in has entered and ended, so many closing marks besides, and no row more.
fn adds_up<A: Allocator + Copy>(account: &Account<A>, counts: &Counts, closed: u64) -> bool {
    let (mut rows, mut marks) = (0u64, 0u64);
    for line in account.lines.as_slice() {
        if line.kept.is_some() || !line.left.is_empty() || line.pushed != line.taken {
            return false;
        }
        rows = rows.saturating_add(line.rows);
        marks = marks.saturating_add(line.taken.saturating_sub(line.rows));
    }
    let backed_up = counts.conflicts.saturating_add(counts.too_old);
    let ended = counts.committed.saturating_add(backed_up);
    rows == account.entered && rows == ended && marks == closed
}

/// Whether serial replay explains the book, and its accounts have 0 together.
fn is_explained<N: Name, A: Allocator + Copy, R: Wait>(
    rt: &R,
    alloc: A,
    bank: &Store<N, A>,
) -> Result<bool, Fault> {
    let mut observer = bank.observer(rt);
    let book = bank.book(rt, &mut observer)?;
    let mut sum = 0i64;
    if let Some(rows) = book.table.table(TABLE) {
        for (_, row) in rows {
            sum = sum.wrapping_add(row.int(0).unwrap_or(0));
        }
    }
    Ok(sum == 0 && audit_rows(alloc, &book.view())?)
}
