//! How a client waits for what it handed in.

use crate::ends::Stop;
use crate::rounds::Round;
use occ_store::{AlwaysGo, Lane, Name, Served, Store};
use occ_types::Fault;
use std::alloc::Allocator;
use std::sync::Wait;
use std::thread;

/// What a client waits with: the store, the run, and the lane of its session where it serves that itself.
#[derive(Drop)]
pub(crate) struct Waiting<'r, N: Name, A: Allocator + Copy> {
    pub(crate) store: &'r Store<N, A>,
    pub(crate) round: &'r Round,
    lane: Option<Lane<N, A>>,
}

impl<'r, N: Name, A: Allocator + Copy> Waiting<'r, N, A> {
    /// What a client waits with whose lane a validator serves, or that has it here: then the cases are not filed, and a request ends
    /// serially where it can.
    pub(crate) fn new(
        store: &'r Store<N, A>,
        round: &'r Round,
        mut lane: Option<Lane<N, A>>,
    ) -> Waiting<'r, N, A> {
        if let Some(lane) = &mut lane {
            lane.set_files(false);
            lane.set_serial(true);
        }
        Waiting { store, round, lane }
    }
}

impl<N: Name, A: Allocator + Copy> Waiting<'_, N, A> {
    /// One turn: the lane is served once, and where nothing came of that, or a validator serves it, others run. Whether the lane is
    /// closed. An error where all are to give up; and where the lane meets a fault, at which all are told to give up.
    pub(crate) fn turn<R: Wait>(&mut self, rt: &R) -> Result<bool, Stop> {
        if self.round.is_stopped() {
            return Err(Stop::Patience);
        }
        match self.serve(rt) {
            Ok(Served::Settled(_)) => Ok(false),
            Ok(Served::LaneClosed) => Ok(true),
            Ok(Served::Idle | Served::Busy | Served::Stopped(_)) => {
                thread::yield_now();
                Ok(false)
            }
            Err(fault) => {
                self.round.stop();
                Err(fault.into())
            }
        }
    }

    // Serves the lane once, where it is here.
    fn serve<R: Wait>(&mut self, rt: &R) -> Result<Served, Fault> {
        match &mut self.lane {
            Some(lane) => lane.serve_one(rt, self.store, &AlwaysGo),
            None => Ok(Served::Idle),
        }
    }

    /// One turn after a call that a full queue refused. An error also where another refusal came.
    pub(crate) fn turn_after<R: Wait>(&mut self, rt: &R, fault: Fault) -> Result<(), Stop> {
        if fault != Fault::QueueFull {
            return Err(Stop::Patience);
        }
        self.turn(rt)?;
        Ok(())
    }

    /// Serves the lane, where it is here, until the closing mark has entered, as often as a number is polled.
    pub(crate) fn finish<R: Wait>(&mut self, rt: &R) -> Result<(), Stop> {
        if self.lane.is_none() {
            return Ok(());
        }
        for _ in 0..self.round.patience() {
            if self.turn(rt)? {
                return Ok(());
            }
        }
        Err(Stop::Patience)
    }
}
