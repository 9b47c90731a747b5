//! The tries of a worker's transaction.
ghost use Rattle.std.specs.Prelude.{◌≡◌, ◌⊎◌, ◌<◌, ◌+◌, None, Ok, Err, IfErr, IfOk, OnOk};
ghost use Rattle.occ_types.specs.declared.fault.Fault.TheVariants.{OutOfTurn};
ghost use Rattle.occ_case.specs.Ended.{answering};
ghost use Rattle.occ_store.specs.Bodies.{Goes};
ghost use Rattle.occ_store.specs.Lanes.{Nothing};
ghost use Rattle.occ_queue.specs.Items.{item_of};
ghost use Rattle.occ_store.specs.Workers.{begin_fault, Ends, TriesOnce, RefusesTry, HandsInUpTo, HandsInFewer, IsRequestOf, Makes, NotMade};

use crate::names::Name;
use crate::stores::Store;
use crate::transactions::{Body, Transaction};
use crate::workers::Worker;
use occ_case::Ended;
use occ_queue::Item;
use occ_types::Fault;
use std::alloc::Allocator;
use std::sync::Wait;

impl<N: Name, A: Allocator + Copy> Worker<N, A> {
    /// Tries a transaction until it commits, at most so many times, within a lease that the caller has, or not.
    pub(crate) fn try_up_to<R: Wait, B: Body<N, A, R>>(
        &mut self,
        rt: &R,
        store: &Store<N, A>,
        within: bool,
        most: usize,
        body: &mut B,
    ) -> Result<Ended<B::Value>, B::Error>
        requires { 0 < most }
        ensures ended { IfOk result (λ ended. Ends N.named (B.makes body.old) most self.old ended self.new) }
        ensures few { IfErr result (λ error. HandsInUpTo N.named (B.makes body.old) B.Error.from_gives most self.old error self.new) }
        ensures fewer { IfErr result (λ error. self.new.left ≡ Nothing → HandsInFewer N.named (B.makes body.old) B.Error.from_gives most self.old error self.new) }
        ensures counts { self.new.checkpoints ≡ self.old.checkpoints }
    {
        let mut ended = self.try_leased(rt, store, within, body)?;
        for tried in 1..most {
            match ended {
                Ended::Committed { tn, value } => return Ok(Ended::Committed { tn, value }),
                Ended::BackedUp(_) => {}
            }
            ended = self.try_leased(rt, store, within, body)?;
        }
        Ok(ended)
    }

    // One try, within a lease that the caller has, or else in one of its own.
    fn try_leased<R: Wait, B: Body<N, A, R>>(
        &mut self,
        rt: &R,
        store: &Store<N, A>,
        within: bool,
        body: &mut B,
    ) -> Result<Ended<B::Value>, B::Error>
        ensures ended { IfOk result (λ ended. TriesOnce N.named (B.makes body.old) self.old ended self.new) }
        ensures refused { IfErr result (λ error. RefusesTry N.named (B.makes body.old) B.Error.from_gives self.old error self.new) }
        ensures keeps { Goes (B.makes body.new) (B.makes body.old) }
        ensures counts { self.new.checkpoints ≡ self.old.checkpoints }
    {
        if within {
            return self.try_once(rt, store, body);
        }
        let _lease = store.lease(rt);
        self.try_once(rt, store, body)
    }

    // One try.
    fn try_once<R: Wait, B: Body<N, A, R>>(
        &mut self,
        rt: &R,
        store: &Store<N, A>,
        body: &mut B,
    ) -> Result<Ended<B::Value>, B::Error>
        ensures ended { IfOk result (λ ended. TriesOnce N.named (B.makes body.old) self.old ended self.new) }
        ensures refused { IfErr result (λ error. RefusesTry N.named (B.makes body.old) B.Error.from_gives self.old error self.new) }
        ensures keeps { Goes (B.makes body.new) (B.makes body.old) }
        ensures counts { self.new.checkpoints ≡ self.old.checkpoints }
    {
        self.end_left(rt, store)?;
        let (item, value) = self.make(rt, store, body)?;
        let ended = self.end(rt, store, item)?;
        Ok(answering(ended, value))
    }

    // Begins a transaction and runs the body in it: the request that the run made, and what it answered. The store forgets what was read
    // where the run ends in an error, or leaves another transaction in the place of its own.
    fn make<R: Wait, B: Body<N, A, R>>(
        &mut self,
        rt: &R,
        store: &Store<N, A>,
        body: &mut B,
    ) -> Result<(Item<A>, B::Value), B::Error>
        ensures made { IfOk result (λ made. Makes (B.makes body.old) self.old (item_of made.0) made.1 self.old.front self.new.front) }
        ensures spare { OnOk result (begin_fault self.old ≡ None) }
        ensures error { IfErr result (λ error. NotMade (B.makes body.old) B.Error.from_gives N.named self.old self.old.front error self.new.front) }
        ensures same { self.new ≡ record self.old { seat = self.new.seat; front = self.new.front } }
        ensures keeps { Goes (B.makes body.new) (B.makes body.old) }
    {
        let number = self.last + 1;
        let start = self.seat.start();
        if let Err(fault) = self.transaction.begin(self.alloc, number, start) {
            return Err(B::Error::from(fault));
        }
        let ran = body.run(rt, store, &mut self.transaction);
        let _session = self.transaction.session();
        let error = match requested(&mut self.transaction, number, ran) {
            Ok(made) => return Ok(made),
            Err(error) => error,
        };
        self.transaction.forget(rt, store, number);
        Err(error)
    }
}

// The request of a run that had the transaction of a number, and what the run answered. Refused with its error, or with `OutOfTurn` where
// it left another transaction.
fn requested<N: Name, A: Allocator + Copy, V: Drop, E: From<Fault>>(
    transaction: &mut Transaction<N, A>,
    number: u64,
    ran: Result<V, E>,
) -> Result<(Item<A>, V), E>
    ensures made { IfOk result (λ made. (ran ≡ Ok made.1) × IsRequestOf transaction.old.draft number (item_of made.0)) }
    ensures error { IfErr result (λ error. (ran ≡ Err error) ⊎ E.from_gives OutOfTurn error) }
    ensures same { transaction.new ≡ record transaction.old { draft = transaction.new.draft } }
{
    let value = match ran {
        Ok(value) => value,
        Err(error) => return Err(error),
    };
    let Ok((made, start, writes)) = transaction.into_request() else {
        return Err(E::from(Fault::OutOfTurn));
    };
    if made != number {
        return Err(E::from(Fault::OutOfTurn));
    }
    let item = Item::Request {
        number,
        start,
        writes,
    };
    Ok((item, value))
}

// How a transaction ended whose run answered this value.
fn answering<V: Drop>(ended: Ended<()>, value: V) -> Ended<V>
    ensures { result ≡ answering value ended }
{
    match ended {
        Ended::Committed { tn, .. } => Ended::Committed { tn, value },
        Ended::BackedUp(cause) => Ended::BackedUp(cause),
    }
}
