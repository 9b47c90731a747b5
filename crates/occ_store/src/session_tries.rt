//! The tries of a client whose lane another thread serves.
ghost use Rattle.std.specs.Prelude.{◌≡◌, ◌<◌, Some, Ok, IfOk, IfErr};
ghost use Rattle.occ_open.specs.Transactions.{begun as no_writes};
ghost use Rattle.occ_store.specs.Bodies.{Goes};
ghost use Rattle.occ_store.specs.Tries.{HandsInFewer, HandsInOne, RunsIn, RunFails, Reopens, most_tries};
ghost use Rattle.occ_store.specs.Clients.{Awaits, TriedSo};

use crate::awaited::{Awaited, Pending};
use crate::names::Name;
use crate::sessions::Session;
use crate::stores::Store;
use crate::transactions::Body;
use crate::workers::at_least_one;
use occ_open::OpenTransaction;
use occ_types::Fault;
use std::alloc::Allocator;
use std::sync::Wait;
use std::time::Clock;

impl<N: Name, A: Allocator + Copy> Session<N, A> {
    /// Tries a transaction until it commits, at most so many times and at least once, in a session whose lane another thread serves. It
    /// tells how the last try ended: by its transaction number and what its run of the body answered, or by the cause for which it was
    /// backed up. A try begins a transaction, runs the body in it, submits it and waits for its end: what it hands in is what that run
    /// made, as far as `Body::makes` tells.
    ///
    /// It waits with pauses, as `wait` does: in each try at most so many while the queue is full, and as many for the end. Where patience
    /// ends before a try is over, that one is answered as pending: it was handed in, once, and no other is tried. Go on with `wait`;
    /// another `transact` would hand in another transaction.
    ///
    /// An error is the first of these that holds, where a fault comes as what the body's `From` makes of it. Each try before was backed
    /// up, nothing of this one was handed in, and no transaction is open then, unless one was before:
    /// - the fault of `begin`;
    /// - the error that the run of the body answered, as it is, or `OutOfTurn` where it left another transaction in the place of its own;
    /// - the fault of `submit`, which is `QueueFull` where patience ended before there was room.
    pub fn transact<R: Wait + Clock, B: Body<N, A, R>>(
        &mut self,
        rt: &R,
        store: &Store<N, A>,
        tries: usize,
        patience: u64,
        body: &mut B,
    ) -> Result<Awaited<B::Value>, B::Error>
        ensures awaited { IfOk result (λ awaited. Awaits (B.makes body.old) (most_tries tries) self.old awaited self.new) }
        ensures fewer { IfErr result (λ error. HandsInFewer (B.makes body.old) B.Error.from_gives N.named (most_tries tries) self.old error self.new) }
    {
        self.try_up_to(rt, store, at_least_one(tries), patience, body)
    }

    // Tries a transaction, at most so many times, with a transaction to lend to the body.
    fn try_up_to<R: Wait + Clock, B: Body<N, A, R>>(
        &mut self,
        rt: &R,
        store: &Store<N, A>,
        most: usize,
        patience: u64,
        body: &mut B,
    ) -> Result<Awaited<B::Value>, B::Error>
        requires { 0 < most }
        ensures awaited { IfOk result (λ awaited. Awaits (B.makes body.old) most self.old awaited self.new) }
        ensures fewer { IfErr result (λ error. HandsInFewer (B.makes body.old) B.Error.from_gives N.named most self.old error self.new) }
    {
        let mut awaited = self.try_once(rt, store, patience, body)?;
        for tried in 1..most {
            if !awaited.was_backed_up() {
                return Ok(awaited);
            }
            awaited = self.try_once(rt, store, patience, body)?;
        }
        Ok(awaited)
    }

    // One try.
    fn try_once<R: Wait + Clock, B: Body<N, A, R>>(
        &mut self,
        rt: &R,
        store: &Store<N, A>,
        patience: u64,
        body: &mut B,
    ) -> Result<Awaited<B::Value>, B::Error>
        ensures awaited { IfOk result (λ awaited. TriedSo (B.makes body.old) 1 self.old awaited self.new) }
        ensures none { IfErr result (λ error. HandsInFewer (B.makes body.old) B.Error.from_gives N.named 1 self.old error self.new) }
        ensures keeps { Goes (B.makes body.new) (B.makes body.old) }
    {
        let pending = self.hand_in(rt, store, patience, body)?;
        Ok(self.wait(rt, pending, patience))
    }

    // Begins a transaction, runs the body in it and hands it in. It is given up where the run ends in an error, or the queue stays full.
    fn hand_in<R: Wait + Clock, B: Body<N, A, R>>(
        &mut self,
        rt: &R,
        store: &Store<N, A>,
        patience: u64,
        body: &mut B,
    ) -> Result<Pending<B::Value>, B::Error>
        ensures ok { IfOk result (λ pending. HandsInOne (B.makes body.old) self.old pending.number pending.value self.new) }
        ensures none { IfErr result (λ error. HandsInFewer (B.makes body.old) B.Error.from_gives N.named 1 self.old error self.new) }
        ensures keeps { Goes (B.makes body.new) (B.makes body.old) }
    {
        let (number, start) = match self.begin() {
            Ok(begun) => begun,
            Err(fault) => return Err(B::Error::from(fault)),
        };
        let ran = self.run_body(rt, store, body, number, start);
        self.submit_run(rt, store, patience, ran)
    }

    // Runs the body in the transaction that was begun. It is open again then, under its number.
    fn run_body<R: Wait + Clock, B: Body<N, A, R>>(
        &mut self,
        rt: &R,
        store: &Store<N, A>,
        body: &mut B,
        number: u64,
        start: u64,
    ) -> Result<B::Value, B::Error>
        requires begun { self.old.draft ≡ Some (no_writes number start) }
        ensures made { IfOk result (λ value. RunsIn (B.makes body.old) self.old (Ok value) self.new.draft self.new.front) }
        ensures error { IfErr result (λ error. RunFails (B.makes body.old) B.Error.from_gives self.old error self.new.front) }
        ensures again { Reopens (record self.old { front = self.new.front }) number self.new }
        ensures keeps { Goes (B.makes body.new) (B.makes body.old) }
    {
        let open = self.lend();
        let (ran, back) = self.run_in(rt, store, body, open);
        let came_back = self.take_back(back, number, start);
        let value = match ran {
            Ok(value) => value,
            Err(error) => return Err(error),
        };
        came_back?;
        Ok(value)
    }

    // Runs the body in a transaction of the session, and takes out what the run left.
    fn run_in<R: Wait + Clock, B: Body<N, A, R>>(
        &mut self,
        rt: &R,
        store: &Store<N, A>,
        body: &mut B,
        lent: OpenTransaction<A>,
    ) -> (Result<B::Value, B::Error>, OpenTransaction<A>)
        requires none { self.old.draft ≡ None }
        ensures made { RunsIn (B.makes body.old) (record self.old { draft = lent }) result.0 result.1 self.new.front }
        ensures same { self.new ≡ record self.old { front = self.new.front } }
        ensures keeps { Goes (B.makes body.new) (B.makes body.old) }
    {
        let _none = self.transaction.replace(lent);
        let ran = body.run(rt, store, &mut self.transaction);
        let _session = self.transaction.session();
        let back = self.transaction.replace(OpenTransaction::none());
        (ran, back)
    }
}
