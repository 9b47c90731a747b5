//! Workers: a session whose one thread ends its transactions itself.
ghost use Rattle.std.specs.Prelude.{◌≡◌, ◌<◌, ◌≤◌, true, ⊤, if◌then◌else◌, ◌==◌, is_some, IfErr, IfOk, OnOk, OnErr, IsTrue, MatchOption};
ghost use Rattle.std.specs.Arc.{arc_value};
ghost use Rattle.std.specs.Result.{result_err};
ghost use Rattle.occ_core.specs.AutoCheckpoints.{due_each, counted};
ghost use Rattle.occ_sets.specs.Operations.{ops_of};
ghost use Rattle.occ_types.specs.declared.limits.TheConstants.{MAX_NUMBER};
ghost use Rattle.occ_store.specs.Bodies.{stays_fault, Performing};
ghost use Rattle.occ_store.specs.Lanes.{Nothing, number_left};
ghost use Rattle.occ_store.specs.Tries.{most_tries};
ghost use Rattle.occ_store.specs.Workers.{unused_worker, alone_fault, Ends, HandsInUpTo, HandsInFewer, TriesList, Runs, RunsOut, RunStops, RunsAlone, HandsInAlone, AloneStops, IsKept, Counts, count_ended, count_tried, count_listed, count_run, AfterPoint, ChecksPoint};
ghost use Rattle.occ_history.specs.History.{Session as SessionParty};

use crate::leases::Lease;
use crate::names::{FrontOf, Name};
use crate::operations::{Operations, copied};
use crate::short_logs::count_end;
use crate::stores::Store;
use crate::transactions::{Body, Transaction};
use crate::unfinished::Left;
use occ_board::Seat;
use occ_case::Ended;
use occ_core::AutoCheckpoint;
use occ_queue::Item;
use occ_sets::{Op, check_operations};
use occ_types::limits::{MAX_NUMBER, MAX_OPERATIONS};
use occ_types::{Fault, Schema};
use std::alloc::Allocator;
use std::marker::Model;
use std::sync::ledger::Share;
use std::sync::{Arc, Wait};

/// A session for the common shape of one thread a client: it begins a transaction, runs a body in it, and ends it itself. While no other
/// row is active that is one event, in one holding of the lock; else it enters the transaction and brings it to its end by single events.
/// It hands in nothing to anybody, and nothing waits in it between two calls but what an error left. Its rows are not filed, so that the
/// store keeps nothing of what is folded.
#[derive(Drop)]
pub struct Worker<N: Name, A: Allocator + Copy> {
    pub(crate) alloc: A,
    pub(crate) transaction: Transaction<N, A>,
    pub(crate) seat: Seat<A>,
    // The number that it began behind, and the one of the last transaction that it handed in.
    pub(crate) first: u64,
    pub(crate) last: u64,
    pub(crate) entered: u64,
    pub(crate) left: Left<A>,
    pub(crate) share: Share<N>,
    pub(crate) checkpoints: AutoCheckpoint,
}

impl<N: Name, A: Allocator + Copy> Model for Worker<N, A> {
    ghost use Rattle.std.specs.Prelude.{◌≡◌, ◌≤◌, None, IfSome};
    ghost use Rattle.std.specs.Coded.{codes};
    ghost use Rattle.boxcar.specs.Table.{where_coded};
    ghost use Rattle.occ_types.specs.declared.limits.TheConstants.{MAX_NUMBER};
    ghost use Rattle.occ_history.specs.History.{Session};
    ghost use Rattle.occ_store.specs.Lanes.{left_of, token_left, number_left};
    ghost use Rattle.occ_store.specs.Workers.{WorkerView, HandedIn, IsUnmarked};

    ghost Value = { WorkerView };

    ghost coded = { Prim.hlevel (codes, where_coded) };

    ghost view = { λ w. record { session = w.transaction.session; schema = N.named.settings.schema; seat = w.seat.seen; first = w.first; last = w.last; entered = w.entered; left = left_of w.left; checkpoints = w.checkpoints; front = w.transaction.front } };

    ghost invariant = { λ w. (w.seat.board ≡ N.named.board)
        × (w.seat.seen.session ≡ w.transaction.session)
        × (w.transaction.front.party ≡ Session w.transaction.session)
        × (w.share.parts ≡ 1)
        × (w.share.amount ≡ w.entered)
        × (w.last ≤ MAX_NUMBER)
        × (token_left (left_of w.left) ≡ None)
        × IfSome (number_left (left_of w.left)) (λ number. number ≡ w.last)
        × IsUnmarked (left_of w.left)
        × HandedIn w.first w.last w.entered (left_of w.left) };
}

impl<N: Name, A: Allocator + Copy> Worker<N, A> {
    /// Its number; the workers are the first of the sessions, which are numbered from 1.
    pub fn session(&self) -> usize
        ensures { result ≡ self.now.session }
    {
        self.transaction.session()
    }

    /// The tables of the store.
    pub fn schema(&self) -> &Schema<A>
        ensures value { result.now ≡ self.now.schema }
        ensures own { self.now.schema ≡ N.named.settings.schema }
    {
        self.transaction.schema()
    }

    /// The number of what an error left, which the next call ends first; none where nothing is left.
    pub fn number(&self) -> Option<u64>
        ensures { result ≡ number_left self.now.left }
    {
        if self.has_left() {
            Some(self.last)
        } else {
            None
        }
    }

    // Whether an error left something.
    pub(crate) fn has_left(&self) -> bool
        ensures some { result ≡ is_some (number_left self.now.left) }
        ensures kept { IsTrue result → IsKept self.now }
    {
        !matches!(&self.left, Left::Nothing)
    }

    /// From now on a checkpoint of the store is due after each so many commits that calls of this worker tell, where 0 stands for 1. None
    /// is due where it is none, as at first. The commits since the last one that it made are counted already.
    ///
    /// `transact`, `transact_within` and `run` begin with a checkpoint that is due, in a holding of the lock. Where it is refused, as
    /// `Store::checkpoint` is, that is not told, and it stays due for the next call.
    pub fn checkpoint_each(&mut self, commits: Option<u64>)
        ensures { self.new ≡ record self.old { checkpoints = due_each commits self.old.checkpoints } }
    {
        self.checkpoints.set(commits);
    }

    /// After how many of its commits a checkpoint is due, and how many it counted.
    pub fn checkpoints(&self) -> AutoCheckpoint
        ensures { result ≡ self.now.checkpoints }
    {
        self.checkpoints
    }
}

impl<N: Name, A: Allocator + Copy> Worker<N, A> {
    // Makes a checkpoint of the store where one is due.
    fn checkpoint_if_due<R: Wait>(&mut self, rt: &R, store: &Store<N, A>)
        ensures { ChecksPoint N.named self.old self.new }
    {
        if !self.checkpoints.is_due() {
            return;
        }
        let folded = Some(self.transaction.checkpoint(rt, store));
        self.checkpoints.note(&folded);
    }

    // Counts how a transaction ended, where it committed.
    fn count_end<V>(&mut self, ended: &Ended<V>)
        ensures { self.new ≡ record self.old { checkpoints = count_ended ended.now self.old.checkpoints } }
    {
        count_end(&mut self.checkpoints, ended);
    }

    // Counts a commit.
    fn count_commit(&mut self)
        ensures { self.new ≡ record self.old { checkpoints = counted self.old.checkpoints } }
    {
        self.checkpoints.count();
    }

    /// Tries a transaction until it commits, at most so many times and at least once, each time in a lease of its own, and tells how the
    /// last try ended: by its transaction number and what its run of the body answered, or by the cause for which it was backed up. A try
    /// begins a transaction, runs the body in it and ends it: what it ends is what that run made, as far as `Body::makes` tells.
    ///
    /// What an earlier call left, as after a fault, is ended first; how that ended is not told.
    ///
    /// An error is the first of these that holds, where a fault comes as what the body's `From` makes of it:
    /// - the fault that ending what was left meets, or `StoreBusy` where operations that run alone are left and a row of another session
    ///   is under way: it stays left;
    /// - `NumbersExhausted` where only the number of a closing mark is left;
    /// - the error that the run of the body answered, as it is, or `OutOfTurn` where it left another transaction in the place of its own:
    ///   the store forgets what was read then, the number is not spent, and nothing is handed in;
    /// - the fault that ending it meets: it is handed in and left then, and the next call ends it.
    pub fn transact<R: Wait, B: Body<N, A, R>>(
        &mut self,
        rt: &R,
        store: &Store<N, A>,
        tries: usize,
        body: &mut B,
    ) -> Result<Ended<B::Value>, B::Error>
        ensures ended { IfOk result (λ ended. AfterPoint N.named self.old (λ begun. Ends N.named (B.makes body.old) (most_tries tries) begun ended self.new)) }
        ensures few { IfErr result (λ error. AfterPoint N.named self.old (λ begun. HandsInUpTo N.named (B.makes body.old) B.Error.from_gives (most_tries tries) begun error self.new)) }
        ensures fewer { IfErr result (λ error. self.new.left ≡ Nothing → AfterPoint N.named self.old (λ begun. HandsInFewer N.named (B.makes body.old) B.Error.from_gives (most_tries tries) begun error self.new)) }
        ensures counts { Counts (count_tried result) self.old.checkpoints self.new.checkpoints }
    {
        self.checkpoint_if_due(rt, store);
        self.try_and_count(rt, store, false, at_least_one(tries), body)
    }

    /// The same as `transact` within a lease that the caller has, for many transactions in one lease.
    pub fn transact_within<R: Wait, B: Body<N, A, R>>(
        &mut self,
        rt: &R,
        store: &Store<N, A>,
        _lease: &Lease<'_, N>,
        tries: usize,
        body: &mut B,
    ) -> Result<Ended<B::Value>, B::Error>
        ensures ended { IfOk result (λ ended. AfterPoint N.named self.old (λ begun. Ends N.named (B.makes body.old) (most_tries tries) begun ended self.new)) }
        ensures few { IfErr result (λ error. AfterPoint N.named self.old (λ begun. HandsInUpTo N.named (B.makes body.old) B.Error.from_gives (most_tries tries) begun error self.new)) }
        ensures fewer { IfErr result (λ error. self.new.left ≡ Nothing → AfterPoint N.named self.old (λ begun. HandsInFewer N.named (B.makes body.old) B.Error.from_gives (most_tries tries) begun error self.new)) }
        ensures counts { Counts (count_tried result) self.old.checkpoints self.new.checkpoints }
    {
        self.checkpoint_if_due(rt, store);
        self.try_and_count(rt, store, true, at_least_one(tries), body)
    }

    // Tries a transaction, at most so many times, within a lease that the caller has, or not, and counts how it ended.
    fn try_and_count<R: Wait, B: Body<N, A, R>>(
        &mut self,
        rt: &R,
        store: &Store<N, A>,
        within: bool,
        most: usize,
        body: &mut B,
    ) -> Result<Ended<B::Value>, B::Error>
        requires { 0 < most }
        ensures ended { IfOk result (λ ended. Ends N.named (B.makes body.old) most self.old ended self.new) }
        ensures few { IfErr result (λ error. HandsInUpTo N.named (B.makes body.old) B.Error.from_gives most self.old error self.new) }
        ensures fewer { IfErr result (λ error. self.new.left ≡ Nothing → HandsInFewer N.named (B.makes body.old) B.Error.from_gives most self.old error self.new) }
        ensures counts { self.new.checkpoints ≡ count_tried result self.old.checkpoints }
    {
        let ended = self.try_up_to(rt, store, within, most, body)?;
        self.count_end(&ended);
        Ok(ended)
    }

    /// Tries operations as a transaction, at most so many times, and runs them alone where each try was backed up: they commit, and the
    /// answer is their transaction number. A try hands in what they make, one after another, where an `Add` is a read and a write. What
    /// they read is not told.
    ///
    /// What an earlier call left is ended first, as in `transact`. Refused, the first of these that holds, with `NumbersExhausted`,
    /// `SetFull` where they are more than 256, and the fault of the first one that doesn't fit the tables, which changes nothing; with
    /// `Memory` where there is none for what they read and write, or for their copy; as `transact`; and with `StoreBusy` where they wait
    /// to run alone and a row of another session stays under way: they are left then, and the next call ends them.
    pub fn run<R: Wait>(
        &mut self,
        rt: &R,
        store: &Store<N, A>,
        tries: usize,
        operations: &[Op<A>],
    ) -> Result<u64, Fault>
        ensures checked { MatchOption (alone_fault self.old (ops_of operations.now)) ⊤ (λ fault. (result ≡ Err fault) × (self.new ≡ self.old)) }
        ensures committed { IfOk result (λ tn. AfterPoint N.named self.old (λ begun. Runs N.named tries (ops_of operations.now) begun tn self.new)) }
        ensures nothing_left { OnOk result (self.new.left ≡ Nothing) }
        ensures refused { IfErr result (λ fault. RunStops N.named tries (ops_of operations.now) self.old fault self.new) }
        ensures counts { MatchOption (alone_fault self.old (ops_of operations.now)) (Counts (count_run result) self.old.checkpoints self.new.checkpoints) (λ _. ⊤) }
    {
        self.check_alone(operations)?;
        self.checkpoint_if_due(rt, store);
        self.run_checked(rt, store, tries, operations)
    }

    // Does so with operations that may be handed in.
    fn run_checked<R: Wait>(
        &mut self,
        rt: &R,
        store: &Store<N, A>,
        tries: usize,
        operations: &[Op<A>],
    ) -> Result<u64, Fault>
        ensures committed { IfOk result (λ tn. Runs N.named tries (ops_of operations.now) self.old tn self.new) }
        ensures nothing_left { OnOk result (self.new.left ≡ Nothing) }
        ensures few { IfErr result (λ fault. RunsOut N.named tries (ops_of operations.now) self.old fault self.new) }
        ensures counts { self.new.checkpoints ≡ count_run result self.old.checkpoints }
    {
        let Some(tn) = self.try_list(rt, store, tries, operations)? else {
            return self.run_alone(rt, store, operations);
        };
        Ok(tn)
    }

    // Whether operations may be handed in.
    fn check_alone(&self, operations: &[Op<A>]) -> Result<(), Fault>
        ensures { result_err result ≡ alone_fault self.now (ops_of operations.now) }
    {
        if self.last + 1 >= MAX_NUMBER {
            return Err(Fault::NumbersExhausted);
        }
        if operations.len() > MAX_OPERATIONS {
            return Err(Fault::SetFull);
        }
        check_operations(self.transaction.schema(), operations)
    }

    // Tries operations as a transaction, at most so many times. None where each try was backed up.
    fn try_list<R: Wait>(
        &mut self,
        rt: &R,
        store: &Store<N, A>,
        tries: usize,
        operations: &[Op<A>],
    ) -> Result<Option<u64>, Fault>
        ensures tried { IfOk result (λ tn. TriesList N.named tries (ops_of operations.now) self.old tn self.new) }
        ensures committed { IfOk result (λ tn. is_some tn ≡ true → self.new.left ≡ Nothing) }
        ensures few { IfErr result (λ fault. HandsInUpTo N.named (Performing N.named (ops_of operations.now)) stays_fault tries self.old fault self.new) }
        ensures counts { self.new.checkpoints ≡ count_listed result self.old.checkpoints }
    {
        if tries == 0 {
            return Ok(None);
        }
        let mut body = Operations { list: operations };
        let ended = self.try_and_count(rt, store, false, tries, &mut body)?;
        Ok(ended.tn())
    }

    // Runs operations alone.
    fn run_alone<R: Wait>(
        &mut self,
        rt: &R,
        store: &Store<N, A>,
        operations: &[Op<A>],
    ) -> Result<u64, Fault>
        ensures committed { IfOk result (λ tn. RunsAlone N.named (ops_of operations.now) self.old tn self.new) }
        ensures few { OnErr result (HandsInAlone (ops_of operations.now) self.old self.new) }
        ensures fault { IfErr result (AloneStops (ops_of operations.now) self.new) }
        ensures counts { self.new.checkpoints ≡ count_run result self.old.checkpoints }
    {
        let _ended = self.resume(rt, store)?;
        self.check_alone(operations)?;
        let operations = copied(self.alloc, operations)?;
        let number = self.last + 1;
        self.hold(Item::Alone { number, operations });
        let Some(ended) = self.resume(rt, store)? else {
            unreachable!()
        };
        let Ended::Committed { tn, .. } = ended else {
            unreachable!()
        };
        self.count_commit();
        Ok(tn)
    }
}

// A worker that handed in nothing yet, behind a number, with a part of the ledger.
pub(crate) fn unused_worker<N: Name, A: Allocator + Copy>(
    alloc: A,
    session: usize,
    schema: Arc<Schema<A>, A>,
    seat: Seat<A>,
    last: u64,
    front: FrontOf<N>,
    share: Share<N>,
) -> Worker<N, A>
    requires schema { arc_value schema ≡ N.named.settings.schema }
    requires board { (seat.board ≡ N.named.board) × (seat.seen.session ≡ session) }
    requires last { last ≤ MAX_NUMBER }
    requires own { front.party ≡ SessionParty session }
    requires share { (share.parts ≡ 1) × (share.amount ≡ 0) }
    ensures { result ≡ unused_worker session (arc_value schema) seat.seen last front }
{
    Worker {
        alloc,
        transaction: Transaction::new(session, schema, front),
        seat,
        first: last,
        last,
        entered: 0,
        left: Left::Nothing,
        share,
        checkpoints: AutoCheckpoint::off(),
    }
}

/// A number of tries, where 0 stands for 1.
pub(crate) fn at_least_one(tries: usize) -> usize
    ensures most { result ≡ most_tries tries }
    ensures some { 0 < result }
{
    if tries == 0 { 1 } else { tries }
}
