//! Many clients and validators in threads.
use crate::clients::{Random, run_client};
use crate::desks::{Desk, lane_of};
use occ_store::{AlwaysGo, Group, Name, Session, Store};
use occ_types::Fault;
use std::alloc::Allocator;
use std::sync::Wait;
use std::sync::atomic::{AtomicU64, Ordering};
use std::thread;
use std::thread::Threads;
use std::time::Clock;

/// Clients in threads, one for each session, and the groups of lanes in threads, do what a seed says, until all lanes are closed. Whether
/// all came as it should.
pub(crate) fn play_load<
    N: Name + Send + Sync,
    A: Allocator + Copy + Send + Sync,
    R: Threads + Wait + Clock + Sync,
>(rt: &R, desk: &mut Desk<N, A>, seed: u64) -> Result<bool, Fault> {
    let mut random = Random::new(seed);
    for session in 0..desk.sessions.len() {
        let lane = lane_of(&mut desk.groups, session + 1)?;
        lane.set_files(random.below(4) != 0);
        lane.set_serial(random.below(4) == 0);
    }
    let load = Load {
        alloc: desk.alloc,
        seed,
        failed: AtomicU64::new(0),
        serving: AtomicU64::new(desk.groups.len() as u64),
    };
    let mut all = parties(desk)?;
    Ok(run_all(rt, &load, &desk.store, &mut all))
}

// A client's session, or a group of lanes.
#[derive(Drop)]
enum Party<N: Name, A: Allocator + Copy> {
    Client(Session<N, A>),
    Server(Group<N, A>),
}

// All sessions and groups of a desk, each as a party.
fn parties<N: Name, A: Allocator + Copy>(
    desk: &mut Desk<N, A>,
) -> Result<Vec<Party<N, A>, A>, Fault> {
    let mut parties = Vec::new(desk.alloc);
    for _ in 0..desk.sessions.len() {
        if let Some(session) = desk.sessions.pop() {
            parties.push(Party::Client(session))?;
        }
    }
    for _ in 0..desk.groups.len() {
        if let Some(group) = desk.groups.pop() {
            parties.push(Party::Server(group))?;
        }
    }
    Ok(parties)
}

// What the parties have in common.
#[derive(Drop)]
struct Load<A: Allocator> {
    alloc: A,
    seed: u64,
    // How many clients came to something else than they should.
    failed: AtomicU64,
    // How many groups are still served.
    serving: AtomicU64,
}

impl<A: Allocator> Load<A> {
    // One more came to something else than it should.
    fn fail(&self) {
        let _before = self.failed.fetch_add(1, Ordering::SeqCst);
    }
}

// Whether a client, or a group that met no fault and whose lanes are all closed.
fn is_over<N: Name, A: Allocator + Copy>(party: &Party<N, A>) -> bool {
    match party {
        Party::Client(_) => true,
        Party::Server(group) => {
            group.fault.is_none() && group.lanes.iter().all(|lane| lane.is_closed())
        }
    }
}

// Runs the parties, each in a thread. Whether all came as it should.
fn run_all<
    N: Name + Send + Sync,
    A: Allocator + Copy + Send + Sync,
    R: Threads + Wait + Clock + Sync,
>(rt: &R, load: &Load<A>, store: &Store<N, A>, parties: &mut [Party<N, A>]) -> bool {
    thread::scope(thread::scope_env(), rt, |scope| {
        for party in parties.iter_mut() {
            let started = scope.spawn(move || run_party(rt, load, store, party));
            if started.is_err() {
                load.fail();
            }
        }
    });
    load.failed.load(Ordering::SeqCst) == 0 && parties.iter().all(is_over)
}

fn run_party<N: Name, A: Allocator + Copy, R: Wait + Clock>(
    rt: &R,
    load: &Load<A>,
    store: &Store<N, A>,
    party: &mut Party<N, A>,
) {
    match party {
        Party::Client(session) => run(rt, load, store, session),
        Party::Server(group) => serve(rt, load, store, group),
    }
}

fn serve<N: Name, A: Allocator + Copy, R: Wait + Clock>(
    rt: &R,
    load: &Load<A>,
    store: &Store<N, A>,
    group: &mut Group<N, A>,
) {
    group.serve(rt, store, &AlwaysGo);
    let _before = load.serving.fetch_sub(1, Ordering::SeqCst);
}

// A client, and a count of those that came to something else than they should.
fn run<N: Name, A: Allocator + Copy, R: Wait>(
    rt: &R,
    load: &Load<A>,
    store: &Store<N, A>,
    session: &mut Session<N, A>,
) {
    let number = session.session() as u64;
    let own = load.seed.wrapping_mul(64).wrapping_add(number);
    match run_client(rt, load.alloc, store, session, own, &load.serving) {
        Ok(true) => {}
        _ => load.fail(),
    }
}
