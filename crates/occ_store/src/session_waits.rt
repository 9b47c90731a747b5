//! How a client waits whose lane another thread serves: for the end of what it handed in, and for room in its queue.
ghost use Rattle.std.specs.Prelude.{◌≡◌, ◌⊎◌, ◌+◌, Ok, IsOk, IfOk, IfErr, IfSome, IfNone, OnErr, MatchResult, None, Some};
ghost use Rattle.occ_model.specs.Event.{Close};
ghost use Rattle.occ_board.specs.Rule.{polled};
ghost use Rattle.occ_store.specs.Bodies.{ComesOf};
ghost use Rattle.occ_store.specs.Sessions.{due, submit_fault, Submits, close_fault, handed_in, IsRefusedBy};
ghost use Rattle.occ_store.specs.Tries.{GivesUp};
ghost use Rattle.occ_store.specs.Clients.{IsAwaited, IsUntold, IsPolled, give_up_fault, LetsGo, without_draft};

use crate::awaited::{Awaited, Pending};
use crate::names::Name;
use crate::session_turns::ended;
use crate::sessions::Session;
use crate::stores::Store;
use crate::validators::rest;
use occ_model::Verdict;
use occ_types::Fault;
use std::alloc::Allocator;
use std::sync::Wait;
use std::time::Clock;

impl<N: Name, A: Allocator + Copy> Session<N, A> {
    /// Waits until the board tells how a transaction ended that this session handed in. It polls once, and then again after each of at
    /// most so many pauses; after a thousand of them each is a sleep, which gets longer up to a millisecond. Where the last poll doesn't
    /// tell it either, the transaction comes back as it is, to be waited for again.
    ///
    /// The board tells of the session's last transaction that is over. So where a later one is, it never tells of this one again: wait
    /// for each one before you hand in the next, if you want to know its end.
    pub fn wait<R: Wait + Clock, V: Drop>(
        &mut self,
        rt: &R,
        pending: Pending<V>,
        patience: u64,
    ) -> Awaited<V>
        ensures awaited { IsAwaited self.new.seat.last pending result }
        ensures same { self.new ≡ record self.old { seat = self.new.seat } }
        ensures polls { IsPolled (patience + 1) self.old.seat self.new.seat }
    {
        let Pending { number, value } = pending;
        match self.verdict_after(rt, number, patience) {
            Some((tn, verdict)) => Awaited::Settled(ended(tn, value, verdict)),
            None => Awaited::Pending(Pending { number, value }),
        }
    }

    // Polls until the board tells how the transaction with a number ended, with at most so many pauses.
    fn verdict_after<R: Wait + Clock>(
        &mut self,
        rt: &R,
        number: u64,
        patience: u64,
    ) -> Option<(u64, Verdict)>
        ensures told { IfSome result (λ told. (self.new.seat.last.number ≡ number) × (self.new.seat.last.tn ≡ told.0) × (self.new.seat.last.status ≡ Some told.1)) }
        ensures untold { IfNone result (IsUntold self.new.seat.last number) }
        ensures same { self.new ≡ record self.old { seat = self.new.seat } }
        ensures polls { IsPolled (patience + 1) self.old.seat self.new.seat }
    {
        for paused in 0..patience {
            if let Some(told) = self.verdict_now(number) {
                return Some(told);
            }
            rest(rt, paused + 1);
        }
        self.verdict_now(number)
    }

    // How the transaction with a number ended, by one poll: the counter at its session's last commit, and its verdict. None where the
    // board doesn't tell it.
    fn verdict_now(&mut self, number: u64) -> Option<(u64, Verdict)>
        ensures told { IfSome result (λ told. (self.new.seat.last.number ≡ number) × (self.new.seat.last.tn ≡ told.0) × (self.new.seat.last.status ≡ Some told.1)) }
        ensures untold { IfNone result (IsUntold self.new.seat.last number) }
        ensures same { self.new ≡ record self.old { seat = self.new.seat } }
        ensures polls { self.new.seat ≡ polled self.old.seat self.new.seat.last }
    {
        let last = self.poll();
        if last.number != number {
            return None;
        }
        let verdict = last.status?;
        Some((last.tn, verdict))
    }

    // Submits the open transaction, as `submit`. While the queue is full it tries again after a pause, at most so many times.
    fn submit_patiently<R: Wait + Clock>(&mut self, rt: &R, patience: u64) -> Result<u64, Fault>
        ensures ok { IfOk result (λ number. Submits self.old number self.new) }
        ensures err { OnErr result (self.new ≡ self.old) }
        ensures fault { MatchResult result
            (λ _. submit_fault self.old ≡ None)
            (IsRefusedBy (submit_fault self.old) self.old) }
    {
        for paused in 0..patience {
            match self.submit(rt) {
                Err(Fault::QueueFull) => rest(rt, paused + 1),
                submitted => return submitted,
            }
        }
        self.submit(rt)
    }

    /// Submits the open transaction so, unless the run of its body failed, and answers what is waited for then. Where it isn't submitted
    /// it is given up.
    pub(crate) fn submit_run<R: Wait + Clock, V: Drop, E: From<Fault>>(
        &mut self,
        rt: &R,
        store: &Store<N, A>,
        patience: u64,
        ran: Result<V, E>,
    ) -> Result<Pending<V>, E>
        ensures ok { IfOk result (λ pending. (ran ≡ Ok pending.value) × Submits self.old pending.number self.new) }
        ensures given_up { OnErr result (GivesUp N.named self.old self.new) }
        ensures error { IfErr result (λ error. (ran ≡ Err error) ⊎ (IsOk ran × ComesOf E.from_gives (IsRefusedBy (submit_fault self.old) self.old) error)) }
    {
        let error = match self.submit_where_it_ran(rt, patience, ran) {
            Ok(pending) => return Ok(pending),
            Err(error) => error,
        };
        self.give_up_open(rt, store);
        Err(error)
    }

    // Submits the open transaction so, unless the run of its body failed.
    fn submit_where_it_ran<R: Wait + Clock, V: Drop, E: From<Fault>>(
        &mut self,
        rt: &R,
        patience: u64,
        ran: Result<V, E>,
    ) -> Result<Pending<V>, E>
        ensures ok { IfOk result (λ pending. (ran ≡ Ok pending.value) × Submits self.old pending.number self.new) }
        ensures err { OnErr result (self.new ≡ self.old) }
        ensures error { IfErr result (λ error. (ran ≡ Err error) ⊎ (IsOk ran × ComesOf E.from_gives (IsRefusedBy (submit_fault self.old) self.old) error)) }
    {
        let value = match ran {
            Ok(value) => value,
            Err(error) => return Err(error),
        };
        let number = self.submit_patiently(rt, patience)?;
        Ok(Pending { number, value })
    }
}

impl<N: Name, A: Allocator + Copy> Session<N, A> {
    /// Gives up, for a client that fails: what is open is abandoned, and the session closed, so that its lane comes to an end. The number
    /// of the closing mark is answered. What was handed in before stays handed in. While the queue is full it tries again after a pause,
    /// at most so many times, as `wait` does.
    ///
    /// No transaction is open then, also where it is refused: as `close` is, with the first of these that holds, `Closed`,
    /// `NumbersExhausted`, and `QueueFull`. Only where it isn't the mark was pushed, once; after `QueueFull` it may be called again.
    pub fn give_up<R: Wait + Clock>(
        &mut self,
        rt: &R,
        store: &Store<N, A>,
        patience: u64,
    ) -> Result<u64, Fault>
        ensures ok { IfOk result (λ number. (number ≡ due self.old) × (self.new ≡ record (handed_in self.old (Close number)) { front = self.new.front })) }
        ensures err { OnErr result (self.new ≡ record (without_draft self.old) { front = self.new.front }) }
        ensures fault { MatchResult result
            (λ _. give_up_fault self.old ≡ None)
            (IsRefusedBy (give_up_fault self.old) self.old) }
        ensures forgotten { LetsGo N.named self.old self.new.front }
    {
        self.let_go(rt, store);
        self.close_patiently(rt, patience)
    }

    // What is open is given up, where something is.
    fn let_go<R: Wait>(&mut self, rt: &R, store: &Store<N, A>)
        ensures none { self.new ≡ record (without_draft self.old) { front = self.new.front } }
        ensures forgotten { LetsGo N.named self.old self.new.front }
    {
        if self.transaction.is_open() {
            self.give_up_open(rt, store);
        }
    }

    // Closes the session, as `close`. While the queue is full it tries again after a pause, at most so many times.
    fn close_patiently<R: Wait + Clock>(&mut self, rt: &R, patience: u64) -> Result<u64, Fault>
        ensures ok { IfOk result (λ number. (number ≡ due self.old) × (self.new ≡ handed_in self.old (Close number))) }
        ensures err { OnErr result (self.new ≡ self.old) }
        ensures fault { MatchResult result
            (λ _. close_fault self.old ≡ None)
            (IsRefusedBy (close_fault self.old) self.old) }
    {
        for paused in 0..patience {
            match self.close(rt) {
                Err(Fault::QueueFull) => rest(rt, paused + 1),
                closed => return closed,
            }
        }
        self.close(rt)
    }
}
