//! The validators of a run: threads that each serve a group of lanes.

use crate::rounds::Round;
use occ_store::{AlwaysGo, Lane, Name, Served, Store};
use occ_types::Fault;
use std::alloc::{AllocError, Allocator};
use std::sync::Wait;
use std::thread;
use std::time::{Clock, Duration};

/// After so many turns without work a group sleeps between two turns.
const PATIENCE: u64 = 1_000;

/// The longest sleep between two turns, in microseconds.
const LONGEST_SLEEP: u64 = 200;

/// Lanes that one thread serves in turn, and the fault at which it left them.
#[derive(Drop)]
pub(crate) struct Group<N: Name, A: Allocator + Copy> {
    lanes: Vec<Lane<N, A>, A>,
    fault: Option<Fault>,
}

// What came of a turn of all lanes.
#[derive(Clone, Copy, Debug, PartialEq, Eq)]
enum Turn {
    // Something is over.
    Moved,
    // There was nothing to do, or it waits for others.
    Idle,
    // Each lane is closed.
    Closed,
}

/// The lanes in groups, at most so many: the first lane in the first group, the next one in the next group, and so on from the first
/// group again. No group is empty. An error for want of memory, and where there may be no group.
pub(crate) fn dealt<N: Name, A: Allocator + Copy>(
    alloc: A,
    lanes: Vec<Lane<N, A>, A>,
    most: usize,
) -> Result<Vec<Group<N, A>, A>, AllocError> {
    let mut groups: Vec<Group<N, A>, A> = Vec::new(alloc);
    let mut place = 0;
    for lane in lanes {
        if groups.len() < most {
            groups.push(Group::new(alloc))?;
        }
        place = deal(groups.as_mut_slice(), place, lane)?;
    }
    Ok(groups)
}

// Puts a lane into the group at a place, or into the first one behind the last. The place of the next one.
fn deal<N: Name, A: Allocator + Copy>(
    groups: &mut [Group<N, A>],
    place: usize,
    lane: Lane<N, A>,
) -> Result<usize, AllocError> {
    let place = if place < groups.len() { place } else { 0 };
    match groups.get_mut(place) {
        Some(group) => {
            group.lanes.push(lane)?;
            Ok(place + 1)
        }
        None => Err(AllocError),
    }
}

impl<N: Name, A: Allocator + Copy> Group<N, A> {
    // A group of no lane. Until a thread serves it, it counts as one that no thread could be started for.
    fn new(alloc: A) -> Group<N, A> {
        Group {
            lanes: Vec::new(alloc),
            fault: Some(Fault::Memory),
        }
    }

    /// The fault at which its thread left the lanes; `Memory` where no thread could be started.
    pub(crate) fn fault(&self) -> Option<Fault> {
        self.fault
    }

    /// Serves the lanes in turn until each is closed, or no client is left that could close one. At a fault it leaves them, and tells
    /// all to give up.
    pub(crate) fn serve<R: Wait + Clock>(&mut self, rt: &R, store: &Store<N, A>, round: &Round) {
        self.fault = None;
        if let Err(fault) = self.serve_turns(rt, store, round) {
            self.fault = Some(fault);
            round.stop();
        }
    }

    fn serve_turns<R: Wait + Clock>(
        &mut self,
        rt: &R,
        store: &Store<N, A>,
        round: &Round,
    ) -> Result<(), Fault> {
        let mut idle = 0u64;
        for _ in rt.forever() {
            // What a client handed in before it ended is found by a turn that begins afterwards.
            let last = round.is_over();
            match self.serve_turn(rt, store)? {
                Turn::Closed => return Ok(()),
                Turn::Moved => idle = 0,
                Turn::Idle if last => return Ok(()),
                Turn::Idle => idle = idle.saturating_add(1),
            }
            rest(rt, idle);
        }
        unreachable!()
    }

    // One turn of each lane.
    fn serve_turn<R: Wait>(&mut self, rt: &R, store: &Store<N, A>) -> Result<Turn, Fault> {
        let mut turn = Turn::Closed;
        for lane in &mut self.lanes {
            turn = match (lane.serve_one(rt, store, &AlwaysGo)?, turn) {
                (Served::LaneClosed, turn) => turn,
                (Served::Settled(_), _) | (_, Turn::Moved) => Turn::Moved,
                _ => Turn::Idle,
            };
        }
        Ok(turn)
    }
}

// Lets others run, after so many turns in a row in which nothing was to be done.
fn rest<R: Clock>(rt: &R, idle: u64) {
    if idle >= PATIENCE {
        let pause = (idle - PATIENCE).min(LONGEST_SLEEP);
        thread::sleep(rt, Duration::from_micros(pause));
    } else if idle > 0 {
        thread::yield_now();
    }
}
