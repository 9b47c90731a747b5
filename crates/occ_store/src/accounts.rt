//! The closing account of a store.
ghost use Rattle.std.specs.Prelude.{◌≡◌, ◌==◌, ◌&&◌, ◌+◌, ◌^◌, ◌<◌, ◌≤◌, ℕ, suc, true, List, [], ◌++◌, length, map, sum_by, vec_len, vec_capacity, IfOk, IfErr, IsOkUnless, MatchResult};
ghost use Rattle.occ_types.specs.declared.fault.Fault.TheVariants.{Memory};
ghost use Rattle.occ_store.specs.Accounts.{LineView, kept_in, kept_of, line_of, IsLine, IsWorkerLine, AreLines, AreAllLines, are_hired, are_numbered, is_complete, end_fault, rows_of, IsOfHistory, HasSeen, HaveSeen, held, IsRoom, AreRooms};
ghost use Rattle.occ_store.specs.Lanes.{left_of};

use crate::lanes::Lane;
use crate::names::Name;
use crate::sessions::Session;
use crate::shared::Shared;
use crate::stores::Store;
use crate::transactions::Transaction;
use crate::unfinished::Left;
use crate::workers::Worker;
use occ_queue::{Item, drain};
use occ_types::{Fault, Refused};
use std::alloc::Allocator;
use std::sync::Wait;
use std::sync::ledger::{Ledger, Share};

/// What became of a session, and of all that it submitted. A worker takes what it hands in, and leaves nothing that was not taken.
#[derive(Drop)]
pub struct AccountLine<A: Allocator + Copy> {
    /// How many items were pushed, the closing mark too; or how many a worker handed in.
    pub pushed: u64,
    /// How many of them its lane took.
    pub taken: u64,
    /// How many rows its lane entered, or the worker.
    pub rows: u64,
    /// The item that its lane took, or that the worker handed in, and that has not entered.
    pub kept: Option<Item<A>>,
    /// The items that were not taken, the first one first.
    pub left: Vec<Item<A>, A>,
}

/// The closing account of a store.
#[derive(Drop)]
pub struct Account<A: Allocator + Copy> {
    /// How many rows entered since the store began, those that were folded too.
    pub entered: u64,
    /// A line for each session, the first session's first.
    pub lines: Vec<AccountLine<A>, A>,
}

/// The workers, the lanes and the sessions of a store.
pub type Parties<N, A> = (
    Vec<Worker<N, A>, A>,
    Vec<Lane<N, A>, A>,
    Vec<Session<N, A>, A>,
);

impl<N: Name, A: Allocator + Copy> Store<N, A> {
    /// Ends all workers, lanes and sessions of the store, and tells what became of what was handed in, with a line for each, the workers'
    /// lines first. What a worker handed in is the rows that it entered, and the item that it keeps. Of each other session, what was
    /// pushed is what its lane took, followed by what is left; and what was taken is the rows that the lane entered, the closing mark once
    /// that has entered, and the item that the lane keeps. The rows that entered are those of all workers and lanes, and those that the
    /// history brought. What a session has open was never pushed, and is dropped. The store itself stays, for its book. It takes the lock.
    ///
    /// Refused, the first of these that holds: with `NoSession` where these are not all workers, lanes and sessions of the store, each
    /// list in the order of the numbers, as `Store::open` gives them; and with `Memory` where there is none for the account. The lists are
    /// handed back whole then.
    pub fn end<R: Wait>(
        &self,
        rt: &R,
        workers: Vec<Worker<N, A>, A>,
        lanes: Vec<Lane<N, A>, A>,
        sessions: Vec<Session<N, A>, A>,
    ) -> Result<Account<A>, Refused<Parties<N, A>>>
        ensures entered { IfOk result (λ account. account.entered ≡ rows_of workers.items lanes.items) }
        ensures history { IfOk result (λ account. IsOfHistory N.named workers.items lanes.items account.entered) }
        ensures lines { IfOk result (λ account. AreAllLines workers.items lanes.items sessions.items (map line_of account.lines.items)) }
        ensures handed_back { IfErr result (λ refused. refused.value ≡ (workers, lanes, sessions)) }
        ensures fault { MatchResult result
            (λ _. is_complete N.named workers.items lanes.items sessions.items ≡ true)
            (λ refused. refused.fault ≡ end_fault N.named workers.items lanes.items sessions.items) }
    {
        if !self.owns_all(
            rt,
            workers.as_slice(),
            lanes.as_slice(),
            sessions.as_slice(),
        ) {
            return Err(Refused {
                value: (workers, lanes, sessions),
                fault: Fault::NoSession,
            });
        }
        let alloc = *lanes.allocator();
        match room(alloc, workers.len(), lanes.as_slice(), sessions.as_slice()) {
            Ok((rooms, lines)) => {
                self.cut.law();
                let mut shared = self.lock(rt);
                Ok(shared.account(rt, workers, lanes, sessions, rooms, lines))
            }
            Err(fault) => Err(Refused {
                value: (workers, lanes, sessions),
                fault,
            }),
        }
    }

    // Whether these are all its workers, lanes and sessions, in the order of their numbers. Which of the sessions are workers is what
    // their own lists say: no number has both a worker and a lane.
    fn owns_all<R: Wait>(
        &self,
        rt: &R,
        workers: &[Worker<N, A>],
        lanes: &[Lane<N, A>],
        sessions: &[Session<N, A>],
    ) -> bool
        ensures { result ≡ is_complete N.named workers.now lanes.now sessions.now }
    {
        let count = self.lock(rt).sessions();
        is_complete(count, workers, lanes, sessions)
    }
}

impl<N: Name, A: Allocator + Copy> Shared<N, A> {
    // The account of all workers, lanes and sessions, in the room for what each queue has left and for the lines. It takes no memory.
    fn account<R: Wait>(
        &mut self,
        rt: &R,
        workers: Vec<Worker<N, A>, A>,
        lanes: Vec<Lane<N, A>, A>,
        sessions: Vec<Session<N, A>, A>,
        rooms: Vec<Vec<Item<A>, A>, A>,
        lines: Vec<AccountLine<A>, A>,
    ) -> Account<A>
        requires cut { N.parts ≡ N.named.settings.sessions }
        requires complete { is_complete N.named workers.items lanes.items sessions.items ≡ true }
        requires rooms { AreRooms lanes.items sessions.items rooms.items }
        requires empty { (lines.items ≡ []) × (vec_len lines ≡ 0) }
        requires room { length workers.items + length lanes.items ≤ vec_capacity lines }
        ensures entered { result.entered ≡ rows_of workers.items lanes.items }
        ensures history { IsOfHistory N.named workers.items lanes.items result.entered }
        ensures lines { AreAllLines workers.items lanes.items sessions.items (map line_of result.lines.items) }
    {
        self.law();
        let alloc = *lanes.allocator();
        let mut lines = lines;
        let mut parts: Option<Share<N>> = None;
        end_workers(alloc, self, workers, &mut lines, &mut parts);
        end_lanes(rt, self, lanes, sessions, rooms, &mut lines, &mut parts);
        let entered = match parts {
            None => 0,
            Some(mut whole) => self.entered(&mut whole),
        };
        Account { entered, lines }
    }
}

// Whether these are the workers, lanes and sessions of a store of so many sessions, in the order of their numbers.
fn is_complete<N: Name, A: Allocator + Copy>(
    count: usize,
    workers: &[Worker<N, A>],
    lanes: &[Lane<N, A>],
    sessions: &[Session<N, A>],
) -> bool
    requires { count ≡ N.named.settings.sessions }
    ensures { result ≡ is_complete N.named workers.now lanes.now sessions.now }
{
    if !are_as_many(count, workers.len(), lanes.len()) {
        return false;
    }
    if sessions.len() != lanes.len() {
        return false;
    }
    if !are_hired(workers) {
        return false;
    }
    are_numbered(workers.len(), lanes, sessions)
}

// Whether so many workers and lanes are as many as there are sessions.
fn are_as_many(count: usize, workers: usize, lanes: usize) -> bool
    ensures { result ≡ (workers + lanes == count) }
{
    if workers > count {
        return false;
    }
    lanes == count - workers
}

// Whether workers have the numbers from 1 on.
fn are_hired<N: Name, A: Allocator + Copy>(workers: &[Worker<N, A>]) -> bool
    ensures { result ≡ are_hired 1 workers.now }
{
    for place in 0..workers.len() {
        if workers[place].session() != place + 1 {
            return false;
        }
    }
    true
}

// Whether lanes and sessions have the numbers behind so many workers.
fn are_numbered<N: Name, A: Allocator + Copy>(
    workers: usize,
    lanes: &[Lane<N, A>],
    sessions: &[Session<N, A>],
) -> bool
    requires same { length lanes.now ≡ length sessions.now }
    requires fits { workers + length lanes.now < 2 ^ 64 }
    ensures { result ≡ are_numbered (suc workers) lanes.now sessions.now }
{
    for place in 0..lanes.len() {
        if !have_number(&lanes[place], &sessions[place], workers + place + 1) {
            return false;
        }
    }
    true
}

// Whether a lane and a session have this number.
fn have_number<N: Name, A: Allocator + Copy>(
    lane: &Lane<N, A>,
    session: &Session<N, A>,
    number: usize,
) -> bool
    ensures { result ≡ (lane.now.session == number && session.now.session == number) }
{
    lane.session() == number && session.session() == number
}

// Room for what each queue has left, and for the lines.
fn room<N: Name, A: Allocator + Copy>(
    alloc: A,
    workers: usize,
    lanes: &[Lane<N, A>],
    sessions: &[Session<N, A>],
) -> Result<(Vec<Vec<Item<A>, A>, A>, Vec<AccountLine<A>, A>), Fault>
    requires { length lanes.now ≡ length sessions.now }
    ensures rooms { IfOk result (λ made. AreRooms lanes.now sessions.now made.0.items) }
    ensures empty { IfOk result (λ made. (made.1.items ≡ []) × (vec_len made.1 ≡ 0)) }
    ensures room { IfOk result (λ made. workers + length lanes.now ≤ vec_capacity made.1) }
    ensures memory { IsOkUnless result Memory }
{
    let mut rooms = Vec::with_capacity(alloc, lanes.len())?;
    for place in 0..lanes.len() {
        rooms.push(room_for(alloc, &lanes[place], &sessions[place])?)?;
    }
    let Some(count) = workers.checked_add(lanes.len()) else {
        return Err(Fault::Memory);
    };
    let lines = Vec::with_capacity(alloc, count)?;
    Ok((rooms, lines))
}

// Room for what a queue has left.
fn room_for<N: Name, A: Allocator + Copy>(
    alloc: A,
    lane: &Lane<N, A>,
    session: &Session<N, A>,
) -> Result<Vec<Item<A>, A>, Fault>
    ensures room { IfOk result (IsRoom lane.now session.now) }
    ensures memory { IsOkUnless result Memory }
{
    let left = session
        .sender
        .pushed()
        .saturating_sub(lane.receiver.taken());
    Ok(Vec::with_capacity(alloc, left as usize)?)
}

// Ends the workers: the lines, of which there are none before, and the parts of the ledger. Each has seen a beginning of the history.
fn end_workers<N: Name, A: Allocator + Copy>(
    alloc: A,
    shared: &mut Shared<N, A>,
    workers: Vec<Worker<N, A>, A>,
    lines: &mut Vec<AccountLine<A>, A>,
    parts: &mut Option<Share<N>>,
)
    requires empty { (lines.old.items ≡ []) × (vec_len lines.old ≡ 0) }
    requires room { length workers.items ≤ vec_capacity lines.old }
    ensures lines { AreAllLines workers.items [] [] (map line_of lines.new.items) }
    ensures count { vec_len lines.new ≡ length workers.items }
    ensures capacity { vec_capacity lines.new ≡ vec_capacity lines.old }
    ensures parts { held (λ s. s.parts) parts.new ≡ held (λ s. s.parts) parts.old + length workers.items }
    ensures amount { held (λ s. s.amount) parts.new ≡ held (λ s. s.amount) parts.old + sum_by (λ worker. worker.entered) workers.items }
    ensures saw { HaveSeen shared.old.story.log (λ worker. worker.front) workers.items }
    ensures same { shared.new ≡ shared.old }
{
    for worker in workers {
        let (line, part) = worker_line(alloc, shared, worker);
        merge(parts, part);
        lines.push_reserved(line);
    }
}

// Ends the lanes and their sessions: their lines come behind those that are there, and their parts of the ledger join those that are.
// Each lane has seen a beginning of the history.
fn end_lanes<N: Name, A: Allocator + Copy, R: Wait>(
    rt: &R,
    shared: &mut Shared<N, A>,
    lanes: Vec<Lane<N, A>, A>,
    sessions: Vec<Session<N, A>, A>,
    rooms: Vec<Vec<Item<A>, A>, A>,
    lines: &mut Vec<AccountLine<A>, A>,
    parts: &mut Option<Share<N>>,
)
    requires numbered { (from : ℕ) × (are_numbered from lanes.items sessions.items ≡ true) }
    requires rooms { AreRooms lanes.items sessions.items rooms.items }
    requires room { vec_len lines.old + length lanes.items ≤ vec_capacity lines.old }
    ensures lines { (own : List LineView) × (map line_of lines.new.items ≡ map line_of lines.old.items ++ own) × AreLines lanes.items sessions.items own }
    ensures parts { held (λ s. s.parts) parts.new ≡ held (λ s. s.parts) parts.old + length lanes.items }
    ensures amount { held (λ s. s.amount) parts.new ≡ held (λ s. s.amount) parts.old + sum_by (λ lane. lane.entered) lanes.items }
    ensures saw { HaveSeen shared.old.story.log (λ lane. lane.front) lanes.items }
    ensures same { shared.new ≡ shared.old }
{
    let mut clients = sessions.into_iter();
    let mut rooms = rooms.into_iter();
    for lane in lanes {
        let Some(client) = clients.next() else {
            unreachable!()
        };
        let Some(room) = rooms.next() else {
            unreachable!()
        };
        let (line, part) = line_of(rt, shared, lane, client, room);
        merge(parts, part);
        lines.push_reserved(line);
    }
}

// The line of a worker, and its part of the ledger.
fn worker_line<N: Name, A: Allocator + Copy>(
    alloc: A,
    shared: &mut Shared<N, A>,
    worker: Worker<N, A>,
) -> (AccountLine<A>, Share<N>)
    ensures line { IsWorkerLine worker (line_of result.0) }
    ensures part { (result.1.parts ≡ 1) × (result.1.amount ≡ worker.entered) }
    ensures saw { HasSeen shared.old.story.log worker.front }
    ensures same { shared.new ≡ shared.old }
{
    let Worker {
        transaction,
        first,
        last,
        entered,
        left,
        share,
        ..
    } = worker;
    let Transaction { mut front, .. } = transaction;
    shared.show_to(&mut front);
    let handed_in = last - first;
    let line = AccountLine {
        pushed: handed_in,
        taken: handed_in,
        rows: entered,
        kept: kept(left),
        left: Vec::new(alloc),
    };
    (line, share)
}

// The line of a session and its lane, and the lane's part of the ledger.
fn line_of<N: Name, A: Allocator + Copy, R: Wait>(
    rt: &R,
    shared: &mut Shared<N, A>,
    lane: Lane<N, A>,
    session: Session<N, A>,
    room: Vec<Item<A>, A>,
) -> (AccountLine<A>, Share<N>)
    requires same { lane.session ≡ session.session }
    requires room { IsRoom lane session room }
    ensures line { IsLine lane session (line_of result.0) }
    ensures part { (result.1.parts ≡ 1) × (result.1.amount ≡ lane.entered) }
    ensures saw { HasSeen shared.old.story.log lane.front }
    ensures same { shared.new ≡ shared.old }
{
    let Lane {
        receiver,
        left,
        entered,
        mut front,
        share,
        ..
    } = lane;
    shared.show_to(&mut front);
    let Session { sender, .. } = session;
    let line = AccountLine {
        pushed: sender.pushed(),
        taken: receiver.taken(),
        rows: entered,
        kept: kept(left),
        left: drain(rt, sender, receiver, room),
    };
    (line, share)
}

// The item that was taken and has not entered.
fn kept<A: Allocator + Copy>(left: Left<A>) -> Option<Item<A>>
    ensures { kept_in result ≡ kept_of (left_of left) }
{
    match left {
        Left::Kept(item) => Some(item),
        Left::Nothing | Left::Open { .. } | Left::Decided { .. } => None,
    }
}

// Another part of the ledger joins those that are here.
fn merge<L: Ledger>(parts: &mut Option<Share<L>>, part: Share<L>)
    ensures parts { held (λ s. s.parts) parts.new ≡ held (λ s. s.parts) parts.old + part.parts }
    ensures amount { held (λ s. s.amount) parts.new ≡ held (λ s. s.amount) parts.old + part.amount }
{
    match parts {
        None => *parts = Some(part),
        Some(before) => before.merge(part),
    }
}
