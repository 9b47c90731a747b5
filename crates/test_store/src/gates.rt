//! Gates of the scenarios.
use occ_store::{Gate, Name, Pace, Point, Store};
use std::alloc::Allocator;
use std::sync::Wait;
use std::sync::atomic::{AtomicU64, Ordering};
use std::thread;
use std::time::{Clock, Duration};

/// How often a session that is held looks for the other, each time after a sleep of 10 milliseconds.
const LOOKS: u64 = 1_000;

/// Stops a session at its first pass of a point.
#[derive(Drop)]
pub(crate) struct StopOnce {
    session: usize,
    point: Point,
    stops: AtomicU64,
}

impl StopOnce {
    /// It stops this session at this point.
    pub(crate) fn new(session: usize, point: Point) -> StopOnce {
        StopOnce {
            session,
            point,
            stops: AtomicU64::new(1),
        }
    }
}

impl Gate for StopOnce {
    fn pass(&self, point: Point, session: usize, _number: u64) -> Pace {
        let here = session == self.session && point == self.point;
        if here && self.stops.swap(0, Ordering::SeqCst) == 1 {
            return Pace::Stop;
        }
        Pace::Go
    }
}

/// Holds each session at a point until two have come there, and stops one that waits for some 10 seconds.
#[derive(Drop)]
pub(crate) struct Together<'a, R: Clock> {
    rt: &'a R,
    point: Point,
    come: AtomicU64,
}

impl<'a, R: Clock> Together<'a, R> {
    /// It holds them at this point.
    pub(crate) fn at(rt: &'a R, point: Point) -> Together<'a, R> {
        Together {
            rt,
            point,
            come: AtomicU64::new(0),
        }
    }
}

impl<R: Clock> Gate for Together<'_, R> {
    fn pass(&self, point: Point, _session: usize, _number: u64) -> Pace {
        if point != self.point {
            return Pace::Go;
        }
        let _before = self.come.fetch_add(1, Ordering::SeqCst);
        for _ in 0..LOOKS {
            if self.come.load(Ordering::SeqCst) >= 2 {
                return Pace::Go;
            }
            thread::sleep(self.rt, Duration::from_millis(10));
        }
        Pace::Stop
    }
}

/// Takes the lock at each point, and counts them. Where the lane held it, it would wait for ever.
#[derive(Drop)]
pub(crate) struct Looks<'a, N: Name, A: Allocator + Copy, R: Wait> {
    rt: &'a R,
    store: &'a Store<N, A>,
    passed: AtomicU64,
}

impl<'a, N: Name, A: Allocator + Copy, R: Wait> Looks<'a, N, A, R> {
    /// It takes the lock of this store.
    pub(crate) fn at(rt: &'a R, store: &'a Store<N, A>) -> Looks<'a, N, A, R> {
        Looks {
            rt,
            store,
            passed: AtomicU64::new(0),
        }
    }

    /// How many points were passed.
    pub(crate) fn passed(&self) -> u64 {
        self.passed.load(Ordering::SeqCst)
    }
}

impl<N: Name, A: Allocator + Copy, R: Wait> Gate for Looks<'_, N, A, R> {
    fn pass(&self, _point: Point, session: usize, number: u64) -> Pace {
        let _before = self.passed.fetch_add(1, Ordering::SeqCst);
        let mut observer = self.store.observer(self.rt);
        let _standing = self.store.row(self.rt, &mut observer, session, number);
        Pace::Go
    }
}
