//! Transactions of a session and its lane, which one thread serves by hand.
use crate::rows::operations;
use crate::tasks::By;
use crate::turns::Turn;
use occ_store::{AlwaysGo, Lane, Name, Served, Session, Store};
use occ_types::Fault;
use std::alloc::Allocator;
use std::sync::Wait;
use std::thread;
use std::time::Clock;

/// A session and its lane.
#[derive(Drop)]
pub(crate) struct Client<N: Name, A: Allocator + Copy> {
    alloc: A,
    session: Session<N, A>,
    lane: Lane<N, A>,
    alone: bool,
}

impl<N: Name, A: Allocator + Copy> Client<N, A> {
    /// A session and its lane, for transactions that are made by this.
    pub(crate) fn new(
        alloc: A,
        session: Session<N, A>,
        mut lane: Lane<N, A>,
        by: By,
    ) -> Client<N, A> {
        lane.set_files(false);
        lane.set_serial(by == By::Serial);
        Client {
            alloc,
            session,
            lane,
            alone: by == By::Alone,
        }
    }

    /// Tries a transaction. Its transaction number; none where it was backed up.
    pub(crate) fn transact<R: Wait + Clock>(
        &mut self,
        rt: &R,
        store: &Store<N, A>,
        turn: &mut Turn,
    ) -> Result<Option<u64>, Fault> {
        let before = self.last();
        if self.alone {
            self.hand_in_alone(rt, turn)?;
        } else {
            self.hand_in(rt, store, turn)?;
        }
        self.serve(rt, store)?;
        let tn = self.last();
        Ok(if tn > before { Some(tn) } else { None })
    }

    /// The transaction number of its last commit.
    fn last(&mut self) -> u64 {
        self.session.poll().tn
    }

    /// Begins a transaction, reads and writes in it, and hands it in. Its end is seen once the lane was served.
    fn hand_in<R: Wait + Clock>(
        &mut self,
        rt: &R,
        store: &Store<N, A>,
        turn: &mut Turn,
    ) -> Result<(), Fault> {
        let _pending = self.session.transact(rt, store, 1, 0, turn)?;
        Ok(())
    }

    /// Hands in a transaction as operations that run alone.
    fn hand_in_alone<R: Wait>(&mut self, rt: &R, turn: &Turn) -> Result<u64, Fault> {
        let operations = operations(self.alloc, &turn.shape, turn.first)?;
        Ok(self.session.alone(rt, operations)?)
    }

    /// Serves the lane until nothing waits in it.
    fn serve<R: Wait>(&mut self, rt: &R, store: &Store<N, A>) -> Result<(), Fault> {
        for _ in rt.forever() {
            match self.lane.serve_one(rt, store, &AlwaysGo)? {
                Served::Idle | Served::LaneClosed => return Ok(()),
                Served::Busy => thread::yield_now(),
                Served::Settled(_) | Served::Stopped(_) => {}
            }
        }
        unreachable!()
    }
}
