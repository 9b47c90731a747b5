//! How a lane is served: one holding of the lock for each event, and a gate between them.
ghost use Rattle.std.specs.Prelude.{◌≡◌, ◌⊎◌, ℕ, Some, Ok, IfSome, IfNone, IsTrue, true};
ghost use Rattle.occ_store.specs.Lanes.{Nothing, number_left, is_open};
ghost use Rattle.occ_store.specs.Serving.{StandsAt, IsAt, IsBusy, Happened, TellsOfMove, Heeds, HeedsTurn, HeedsAll, ComesOf, CarriesOn, Moves, Turns, Resumes, TakesNext, Serves, FindsNothing};
ghost use Rattle.occ_store.specs.declared.serving.Served.TheVariants.{Idle};
ghost use Rattle.occ_store.specs.declared.serving.Point.TheVariants as points;
ghost use Rattle.boxcar.specs.Table.{Shows};

use crate::lanes::Lane;
use crate::names::Name;
use crate::stores::Store;
use occ_case::Judged;
use occ_types::Fault;
use std::alloc::Allocator;
use std::sync::Wait;

/// Where a lane stands in what it does with an item.
#[derive(Clone, Copy, Debug, PartialEq, Eq)]
pub enum Point {
    /// The item was taken out of the queue.
    Took,
    /// The item was entered.
    Entered,
    /// The verdict was reached outside the lock, where the row's case was filed; it is to be decided next.
    Judged,
    /// The row was decided.
    Decided,
    /// A single write was done.
    Wrote,
    /// The transaction was finished or backed up, and that was published.
    Settled,
}

/// Whether a lane goes on.
#[derive(Clone, Copy, Debug, PartialEq, Eq)]
pub enum Pace {
    /// It goes on.
    Go,
    /// It stops, and keeps what it has.
    Stop,
}

/// What is asked at each point that a lane reaches. It is asked outside the lock. A request meets `Took`, `Entered`, `Judged`,
/// `Decided`, `Wrote` after each single write, and `Settled`; operations that run alone meet `Took` and `Settled`, and a closing mark
/// meets `Took`.
pub trait Gate {
    ghost use Rattle.std.specs.Prelude.{◌≡◌, ℕ};
    ghost use Rattle.occ_store.specs.declared.serving.Point.{Point};
    ghost use Rattle.occ_store.specs.declared.serving.Pace.TheVariants.{Stop};

    /// Where it may stop a lane, by the point, the session and the number, as far as clauses are to know: anywhere, where an `impl`
    /// doesn't say.
    ghost may_stop: { Self → Point → ℕ → ℕ → Type 0 } = { λ gate point session number. Unit {0} };

    /// Where it has to stop a lane, as far as clauses are to know: nowhere, where an `impl` doesn't say.
    ghost must_stop: { Self → Point → ℕ → ℕ → Type 0 } = { λ gate point session number. ⊥ };

    /// Whether the lane of this session goes on with what has this number.
    fn pass(&self, point: Point, session: usize, number: u64) -> Pace
        ensures may { result ≡ Stop → may_stop self.now point session number }
        ensures must { must_stop self.now point session number → result ≡ Stop };
}

/// The gate that never stops a lane.
#[derive(Clone, Copy, Debug)]
pub struct AlwaysGo;

impl Gate for AlwaysGo {
    ghost may_stop = { λ gate point session number. ⊥ };

    fn pass(&self, _point: Point, _session: usize, _number: u64) -> Pace {
        Pace::Go
    }
}

/// What came of serving a lane.
#[derive(Clone, Copy, Debug, PartialEq, Eq)]
pub enum Served {
    /// The transaction with this number is over.
    Settled(u64),
    /// There was nothing to do.
    Idle,
    /// Operations that run alone wait until no row is active. The lane keeps them.
    Busy,
    /// The gate stopped the lane at this point. It keeps its item or its row.
    Stopped(Point),
    /// The closing mark has entered, in this call or before.
    LaneClosed,
}

impl<N: Name, A: Allocator + Copy> Lane<N, A> {
    // Whether a decision is next, and the gate stops the lane before it.
    #[tactic(auto, using(crate::proofs::Points::open_left))]
    fn stops_at_verdict<G: Gate>(&self, gate: &G, number: u64) -> bool
        ensures open { IsTrue result → number_left self.now.left ≡ Some number → StandsAt points.Judged number self.now.left }
        ensures may { IsTrue result → G.may_stop gate.now points.Judged self.now.session number }
        ensures must { is_open self.now.left ≡ true → G.must_stop gate.now points.Judged self.now.session number → IsTrue result }
    {
        self.is_open() && gate.pass(Point::Judged, self.session(), number) == Pace::Stop
    }

    // Whether what was refused waits until no row is active.
    fn is_busy(&self, fault: Fault) -> bool
        ensures busy { IsTrue result → IsBusy fault self.now.left }
        ensures all { IsBusy fault self.now.left → IsTrue result }
    {
        fault == Fault::StoreBusy && self.keeps_alone()
    }

    // What comes of an event that reached this point: none where there is more to be done.
    #[tactic(auto, using(crate::proofs::Points::nothing_left, crate::proofs::Points::stands))]
    fn reached<G: Gate>(&self, gate: &G, point: Point, number: u64) -> Option<Served>
        requires { IsAt point number self.now.left }
        ensures some { IfSome result (λ served. ComesOf (G.may_stop gate.now) number (Ok served) self.now) }
        ensures told { IfSome result TellsOfMove }
        ensures none { IfNone result (number_left self.now.left ≡ Some number) }
        ensures must { IfNone result (G.must_stop gate.now point self.now.session number → ⊥) }
        ensures heeds { IfSome result (λ served. Heeds (G.must_stop gate.now) self.now.session served) }
    {
        let Some(_) = self.number() else {
            return Some(self.ended(gate, number));
        };
        match gate.pass(point, self.session(), number) {
            Pace::Stop => Some(Served::Stopped(point)),
            Pace::Go => None,
        }
    }

    // What it comes to where nothing is left: the closing mark has entered, or else a transaction is over.
    fn ended<G: Gate>(&self, gate: &G, number: u64) -> Served
        requires { self.now.left ≡ Nothing }
        ensures comes { ComesOf (G.may_stop gate.now) number (Ok result) self.now }
        ensures told { TellsOfMove result }
        ensures heeds { Heeds (G.must_stop gate.now) self.now.session result }
    {
        if self.is_closed() {
            return Served::LaneClosed;
        }
        match gate.pass(Point::Settled, self.session(), number) {
            Pace::Stop => Served::Stopped(Point::Settled),
            Pace::Go => Served::Settled(number),
        }
    }
}

impl<N: Name, A: Allocator + Copy> Lane<N, A> {
    /// Serves the lane once: goes on with what was left, or else takes the next item of its queue, and does with it all that is to be
    /// done, with one holding of the lock for each event. The gate is asked after each event, outside the lock. Where the gate stops the
    /// lane, or a call is refused, what it has is left to the next call; the refusals are those of `advance`. `Idle` tells that nothing
    /// was left and none waited, and `LaneClosed` comes once the closing mark was taken, and from then on.
    pub fn serve_one<R: Wait, G: Gate>(
        &mut self,
        rt: &R,
        store: &Store<N, A>,
        gate: &G,
    ) -> Result<Served, Fault>
        ensures serves { Serves N.named (G.may_stop gate.now) self.old result self.new }
        ensures heeds { HeedsAll (G.must_stop gate.now) self.new.session result }
    {
        match self.number() {
            Some(number) => self.carry_on(rt, store, gate, number),
            None => self.take_up(rt, store, gate),
        }
    }

    /// Goes on with what was left, as `serve_one` does, and takes no item. `Idle` where nothing was left.
    pub fn resume<R: Wait, G: Gate>(
        &mut self,
        rt: &R,
        store: &Store<N, A>,
        gate: &G,
    ) -> Result<Served, Fault>
        ensures resumes { Resumes N.named (G.may_stop gate.now) self.old result self.new ⊎ FindsNothing self.old result Idle self.new }
        ensures heeds { HeedsAll (G.must_stop gate.now) self.new.session result }
    {
        match self.number() {
            Some(number) => self.carry_on(rt, store, gate, number),
            None => Ok(Served::Idle),
        }
    }

    // Where nothing is left, takes the next item, and does all that is to be done with it.
    fn take_up<R: Wait, G: Gate>(
        &mut self,
        rt: &R,
        store: &Store<N, A>,
        gate: &G,
    ) -> Result<Served, Fault>
        requires { self.old.left ≡ Nothing }
        ensures takes { TakesNext N.named (G.may_stop gate.now) self.old result self.new }
        ensures heeds { HeedsAll (G.must_stop gate.now) self.new.session result }
    {
        if self.is_closed() {
            return Ok(Served::LaneClosed);
        }
        match self.take(rt) {
            None => Ok(Served::Idle),
            Some(number) => match gate.pass(Point::Took, self.session(), number) {
                Pace::Stop => Ok(Served::Stopped(Point::Took)),
                Pace::Go => self.carry_on(rt, store, gate, number),
            },
        }
    }

    // Does all that is to be done with what is left.
    fn carry_on<R: Wait, G: Gate>(
        &mut self,
        rt: &R,
        store: &Store<N, A>,
        gate: &G,
        number: u64,
    ) -> Result<Served, Fault>
        requires { number_left self.old.left ≡ Some number }
        ensures carries { CarriesOn N.named (G.may_stop gate.now) self.old number result self.new }
        ensures heeds { HeedsAll (G.must_stop gate.now) self.new.session result }
    {
        for _ in rt.forever() {
            match self.turn(rt, store, gate, number) {
                Ok(None) => {}
                Ok(Some(served)) => return Ok(served),
                Err(fault) => return Err(fault),
            }
        }
        unreachable!()
    }

    // One event, and the gate after it. None where more is to be done. Where a decision is next, its verdict is reached first, and the
    // gate is asked, before the lock is taken.
    #[tactic(auto, using(crate::proofs::Points::refuses))]
    fn turn<R: Wait, G: Gate>(
        &mut self,
        rt: &R,
        store: &Store<N, A>,
        gate: &G,
        number: u64,
    ) -> Result<Option<Served>, Fault>
        requires { number_left self.old.left ≡ Some number }
        ensures turns { Turns N.named (G.may_stop gate.now) self.old number result self.new }
        ensures heeds { HeedsTurn N.named (G.must_stop gate.now) self.old number result self.new }
    {
        let judged = self.judge(store.case_file());
        if self.stops_at_verdict(gate, number) {
            return Ok(Some(Served::Stopped(Point::Judged)));
        }
        let moved = self.event(rt, store, judged);
        match moved {
            Ok(point) => Ok(self.reached(gate, point, number)),
            Err(fault) if self.is_busy(fault) => Ok(Some(Served::Busy)),
            Err(fault) => Err(fault),
        }
    }

    // One event on what is left. The lock is held as long as it lasts, and no longer.
    fn event<R: Wait>(
        &mut self,
        rt: &R,
        store: &Store<N, A>,
        judged: Option<Judged<A>>,
    ) -> Result<Point, Fault>
        requires own_file { IfSome judged (Shows N.named.file) }
        ensures happened { Happened N.named self.old result self.new }
        ensures moves { (number : ℕ) → number_left self.old.left ≡ Some number → Moves self.old number result self.new }
    {
        let mut shared = store.lock(rt);
        shared.law();
        self.advance(rt, &mut shared, judged)
    }
}
