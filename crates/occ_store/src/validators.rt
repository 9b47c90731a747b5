//! Groups of lanes, each served by one thread.
ghost use Rattle.std.specs.Prelude.{◌≡◌, ◌<◌, ◌⊎◌, None, Some, Ok, length, IfOk, ℕ, true, false, get_or};
ghost use Rattle.occ_store.specs.Serving.{Serves, IsServed, IsOver, AreServed, AreOver, AllAreOver, HasEnded, HaveEnded, AllHaveEnded, IsMetMarked, IsMet, Ends, TellsFault};
ghost use Rattle.occ_store.specs.declared.validators.Turn.TheVariants.{Over};

use crate::lanes::Lane;
use crate::names::Name;
use crate::serving::{Gate, Served};
use crate::stores::Store;
use occ_types::Fault;
use std::alloc::{AllocError, Allocator};
use std::sync::Wait;
use std::thread;
use std::time::{Clock, Duration};

/// After so many rounds without work a group sleeps between two rounds.
const PATIENCE: u64 = 1_000;

/// The longest sleep between two rounds, in microseconds.
const LONGEST_SLEEP: u64 = 1_000;

/// Lanes that one thread serves in turn, and how that ended. All of them are of one store.
#[derive(Drop)]
pub struct Group<N: Name, A: Allocator + Copy> {
    /// The lanes.
    pub lanes: Vec<Lane<N, A>, A>,
    /// The first fault that one of them met.
    pub fault: Option<Fault>,
    /// Whether the store was stopped before each of them was closed, was stopped by the gate or met a fault.
    pub stopped: bool,
}

// What came of a lane's turn.
#[derive(Clone, Copy)]
enum Turn {
    // Something of it is over.
    Moved,
    // There is nothing to do, or it waits for others.
    Waits,
    // It is closed, was stopped or met a fault.
    Over,
}

impl<N: Name, A: Allocator + Copy> Group<N, A> {
    /// A group of these lanes, with no fault, and not stopped.
    pub fn new(lanes: Vec<Lane<N, A>, A>) -> Group<N, A>
        ensures lanes { result.lanes ≡ lanes }
        ensures fault { result.fault ≡ None }
        ensures stopped { result.stopped ≡ false }
    {
        Group {
            lanes,
            fault: None,
            stopped: false,
        }
    }

    /// Serves the lanes in turn, in this thread, until each is closed, was stopped by the gate or met a fault; the others go on
    /// meanwhile. It ends sooner where the store is stopped, which it looks at before each turn of a lane, and tells that; the lanes
    /// that had not ended keep what they have. The fault is the first that was met, and `Memory` where there is none for a mark at each
    /// lane: no lane is served then. Where a thousand rounds found nothing to do it sleeps between rounds, for up to a millisecond.
    pub fn serve<R: Wait + Clock, G: Gate>(&mut self, rt: &R, store: &Store<N, A>, gate: &G)
        ensures served { AreServed self.old.lanes.items self.new.lanes.items }
        ensures over { self.new.fault ≡ None → self.new.stopped ≡ false → AllAreOver (G.may_stop gate.now) self.new.lanes.items }
        ensures ended { Ends N.named (G.may_stop gate.now) self.old.lanes.items self.new.fault self.new.stopped self.new.lanes.items }
        ensures stopped { self.new.stopped ≡ true → N.may_be_stopped }
    {
        self.fault = None;
        self.stopped = false;
        match unmarked(*self.lanes.allocator(), self.lanes.len()) {
            Ok(mut over) => self.serve_rounds(rt, store, gate, &mut over),
            Err(AllocError) => self.fault = Some(Fault::Memory),
        }
    }

    // Rounds over the lanes that are not marked as over, until all are or the store is stopped.
    fn serve_rounds<R: Wait + Clock, G: Gate>(
        &mut self,
        rt: &R,
        store: &Store<N, A>,
        gate: &G,
        over: &mut Vec<bool, A>,
    )
        requires marks { length over.old.items ≡ length self.old.lanes.items }
        requires over { self.old.fault ≡ None → AreOver (G.may_stop gate.now) over.old.items self.old.lanes.items }
        requires ended { HaveEnded N.named (G.may_stop gate.now) over.old.items self.old.lanes.items }
        requires stopped { self.old.stopped ≡ true → N.may_be_stopped }
        requires met { IsMetMarked N.named (G.may_stop gate.now) self.old.fault over.old.items self.old.lanes.items }
        ensures served { AreServed self.old.lanes.items self.new.lanes.items }
        ensures over { self.new.fault ≡ None → self.new.stopped ≡ false → AllAreOver (G.may_stop gate.now) self.new.lanes.items }
        ensures ended { self.new.stopped ≡ false → AllHaveEnded N.named (G.may_stop gate.now) self.new.lanes.items }
        ensures stopped { self.new.stopped ≡ true → N.may_be_stopped }
        ensures met { IsMet N.named (G.may_stop gate.now) self.new.fault self.new.lanes.items }
    {
        let mut idle = 0u64;
        for _ in rt.forever() {
            if over.iter().all(|mark| *mark) {
                return;
            }
            if self.stopped {
                return;
            }
            let moved = self.serve_round(rt, store, gate, over);
            idle = if moved { 0 } else { idle.saturating_add(1) };
            rest(rt, idle);
        }
        unreachable!()
    }

    // One turn for each lane that is not marked. Whether some lane moved.
    fn serve_round<R: Wait, G: Gate>(
        &mut self,
        rt: &R,
        store: &Store<N, A>,
        gate: &G,
        over: &mut Vec<bool, A>,
    ) -> bool
        requires marks { length over.old.items ≡ length self.old.lanes.items }
        requires over { self.old.fault ≡ None → AreOver (G.may_stop gate.now) over.old.items self.old.lanes.items }
        requires ended { HaveEnded N.named (G.may_stop gate.now) over.old.items self.old.lanes.items }
        requires stopped { self.old.stopped ≡ true → N.may_be_stopped }
        requires met { IsMetMarked N.named (G.may_stop gate.now) self.old.fault over.old.items self.old.lanes.items }
        ensures marks { length over.new.items ≡ length self.new.lanes.items }
        ensures served { AreServed self.old.lanes.items self.new.lanes.items }
        ensures over { self.new.fault ≡ None → AreOver (G.may_stop gate.now) over.new.items self.new.lanes.items }
        ensures ended { HaveEnded N.named (G.may_stop gate.now) over.new.items self.new.lanes.items }
        ensures stopped { self.new.stopped ≡ true → N.may_be_stopped }
        ensures met { IsMetMarked N.named (G.may_stop gate.now) self.new.fault over.new.items self.new.lanes.items }
    {
        let mut moved = false;
        for place in 0..self.lanes.len() {
            if self.serve_place(rt, store, gate, over, place) {
                moved = true;
            }
        }
        moved
    }

    // The turn of the lane at a place, where it is not marked and the store is not stopped. Whether it moved.
    fn serve_place<R: Wait, G: Gate>(
        &mut self,
        rt: &R,
        store: &Store<N, A>,
        gate: &G,
        over: &mut Vec<bool, A>,
        place: usize,
    ) -> bool
        requires there { place < length self.old.lanes.items }
        requires marks { length over.old.items ≡ length self.old.lanes.items }
        requires over { self.old.fault ≡ None → AreOver (G.may_stop gate.now) over.old.items self.old.lanes.items }
        requires ended { HaveEnded N.named (G.may_stop gate.now) over.old.items self.old.lanes.items }
        requires stopped { self.old.stopped ≡ true → N.may_be_stopped }
        requires met { IsMetMarked N.named (G.may_stop gate.now) self.old.fault over.old.items self.old.lanes.items }
        ensures marks { length over.new.items ≡ length self.new.lanes.items }
        ensures served { AreServed self.old.lanes.items self.new.lanes.items }
        ensures over { self.new.fault ≡ None → AreOver (G.may_stop gate.now) over.new.items self.new.lanes.items }
        ensures ended { HaveEnded N.named (G.may_stop gate.now) over.new.items self.new.lanes.items }
        ensures stopped { self.new.stopped ≡ true → N.may_be_stopped }
        ensures met { IsMetMarked N.named (G.may_stop gate.now) self.new.fault over.new.items self.new.lanes.items }
    {
        if over[place] {
            return false;
        }
        if store.is_stopped() {
            self.stopped = true;
            return false;
        }
        match serve_lane(&mut self.lanes[place], &mut self.fault, rt, store, gate) {
            Turn::Moved => true,
            Turn::Waits => false,
            Turn::Over => {
                over[place] = true;
                false
            }
        }
    }
}

// One serving of a lane. What it makes of the lane is all that a round asks for.
fn serve_one<N: Name, A: Allocator + Copy, R: Wait, G: Gate>(
    lane: &mut Lane<N, A>,
    rt: &R,
    store: &Store<N, A>,
    gate: &G,
) -> Result<Served, Fault>
    ensures { Serves N.named (G.may_stop gate.now) lane.old result lane.new }
{
    lane.serve_one(rt, store, gate)
}

// A lane's turn. The first fault is kept.
#[tactic(auto, using(crate::proofs::Rounds::served_once, crate::proofs::Rounds::tells_first, crate::proofs::Rounds::ended_at))]
fn serve_lane<N: Name, A: Allocator + Copy, R: Wait, G: Gate>(
    lane: &mut Lane<N, A>,
    fault: &mut Option<Fault>,
    rt: &R,
    store: &Store<N, A>,
    gate: &G,
) -> Turn
    ensures served { IsServed lane.old lane.new }
    ensures over { result ≡ Over → fault.new ≡ None → IsOver (G.may_stop gate.now) lane.new }
    ensures first { fault.new ≡ None → fault.old ≡ None }
    ensures ended { result ≡ Over → HasEnded N.named (G.may_stop gate.now) lane.new }
    ensures still { (fault.new ≡ fault.old) ⊎ (result ≡ Over) }
    ensures tells { TellsFault N.named (G.may_stop gate.now) lane.old fault.old fault.new lane.new }
{
    match serve_one(lane, rt, store, gate) {
        Ok(Served::Settled(_)) => Turn::Moved,
        Ok(Served::Idle) | Ok(Served::Busy) => Turn::Waits,
        Ok(Served::Stopped(_)) | Ok(Served::LaneClosed) => Turn::Over,
        Err(met) => {
            *fault = fault.or(Some(met));
            Turn::Over
        }
    }
}

// A mark for each lane, none of which is set.
fn unmarked<A: Allocator + Copy>(alloc: A, lanes: usize) -> Result<Vec<bool, A>, AllocError>
    ensures count { IfOk result (λ marks. length marks.items ≡ lanes) }
    ensures none { IfOk result (λ marks. (place : ℕ) → get_or marks.items place false ≡ false) }
{
    let mut marks = Vec::with_capacity(alloc, lanes)?;
    for _ in 0..lanes {
        marks.push(false)?;
    }
    Ok(marks)
}

/// Lets others run, after so many rounds in a row in which nothing was to be done.
pub(crate) fn rest<R: Clock>(rt: &R, idle: u64) {
    if idle >= PATIENCE {
        thread::sleep(
            rt,
            Duration::from_micros((idle - PATIENCE).min(LONGEST_SLEEP)),
        );
    } else if idle > 0 {
        thread::yield_now();
    }
}
