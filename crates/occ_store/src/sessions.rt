//! The client's end of a session.
ghost use Rattle.std.specs.Prelude.{◌≡◌, ◌≤◌, ℕ, true, None, Some, option_map, IfOk, IfErr, OnErr, MatchResult};
ghost use Rattle.std.specs.Result.{result_err};
ghost use Rattle.std.specs.Arc.{arc_value};
ghost use Rattle.occ_types.specs.declared.limits.TheConstants.{MAX_COUNTER};
ghost use Rattle.occ_model.specs.Event.{Alone, Close};
ghost use Rattle.occ_sets.specs.Operations.{ops_of};
ghost use Rattle.occ_queue.specs.Items.{item_of};
ghost use Rattle.occ_queue.specs.declared.items.Item.TheVariants as items;
ghost use Rattle.occ_board.specs.Words.{HasRoom};
ghost use Rattle.occ_board.specs.Rule.{polled, Rises};
ghost use Rattle.occ_history.specs.History.{Client};
ghost use Rattle.occ_store.specs.Names.{lane_of};
ghost use Rattle.occ_store.specs.Sessions.{due, begin_fault, begun, submit_fault, Submits, close_fault, alone_fault, handed_in, draft_of, is_alone, IsRefusedBy};

use crate::names::{FrontOf, Name};
use crate::transactions::Transaction;
use occ_board::{Last, Seat};
use occ_open::OpenTransaction;
use occ_queue::{Item, Sender};
use occ_sets::{Op, RequestWrites, check_operations};
use occ_types::limits::{MAX_NUMBER, MAX_OPERATIONS};
use occ_types::{Fault, Refused, Schema};
use std::alloc::Allocator;
use std::marker::Model;
use std::sync::{Arc, Wait};

/// The client's end of a session: it begins transactions, one at a time, keeps the writes of the open one to itself, and hands it in.
/// Its seat at the board tells it the transaction counter and how its last transaction ended. One thread has it, which may be any.
#[derive(Drop)]
pub struct Session<N: Name, A: Allocator + Copy> {
    pub(crate) alloc: A,
    pub(crate) transaction: Transaction<N, A>,
    pub(crate) seat: Seat<A>,
    pub(crate) sender: Sender<A>,
}

impl<N: Name, A: Allocator + Copy> Model for Session<N, A> {
    ghost use Rattle.std.specs.Prelude.{◌≡◌};
    ghost use Rattle.occ_history.specs.History.{Client};
    ghost use Rattle.occ_store.specs.Names.{lane_of};
    ghost use Rattle.occ_store.specs.Sessions.{SessionView, MayBeSubmitted};

    ghost Value = { SessionView };

    ghost view = { λ s. record { session = s.transaction.session; schema = N.named.settings.schema; seat = s.seat.seen; sender = s.sender; draft = s.transaction.draft; front = s.transaction.front } };

    ghost invariant = { λ s. (s.seat.board ≡ N.named.board)
        × (s.seat.seen.session ≡ s.transaction.session)
        × (s.sender.lane ≡ lane_of N.named s.transaction.session)
        × MayBeSubmitted s.sender s.transaction.draft
        × (s.transaction.front.party ≡ Client s.transaction.session) };
}

impl<N: Name, A: Allocator + Copy> Session<N, A> {
    /// A session that did nothing yet.
    pub(crate) fn new(
        alloc: A,
        session: usize,
        schema: Arc<Schema<A>, A>,
        seat: Seat<A>,
        sender: Sender<A>,
        front: FrontOf<N>,
    ) -> Session<N, A>
        requires schema { arc_value schema ≡ N.named.settings.schema }
        requires board { (seat.board ≡ N.named.board) × (seat.seen.session ≡ session) }
        requires lane { sender.lane ≡ lane_of N.named session }
        requires own { front.party ≡ Client session }
        ensures { result ≡ record { session = session; schema = arc_value schema; seat = seat.seen; sender = sender; draft = None; front = front } }
    {
        Session {
            alloc,
            transaction: Transaction::new(session, schema, front),
            seat,
            sender,
        }
    }

    /// Its number; sessions are numbered from 1.
    pub fn session(&self) -> usize
        ensures { result ≡ self.now.session }
    {
        self.transaction.session()
    }

    /// The tables of the store.
    pub fn schema(&self) -> &Schema<A>
        ensures value { result.now ≡ self.now.schema }
        ensures own { self.now.schema ≡ N.named.settings.schema }
    {
        self.transaction.schema()
    }

    /// The number of the transaction that is open, where one is.
    pub fn open_number(&self) -> Option<u64>
        ensures { result ≡ option_map (λ copy. copy.number) self.now.draft }
    {
        self.transaction.number()
    }

    /// The last transaction of the session that is over, by one atomic load, which waits for nobody.
    pub fn poll(&mut self) -> Last
        ensures loaded { self.new ≡ record self.old { seat = polled self.old.seat result } }
        ensures rises { Rises self.old.seat.last result }
        ensures fits { HasRoom result }
    {
        self.seat.last()
    }

    /// The session is closed, and the number of its closing mark answered: nothing is begun or handed in after it. It takes no memory.
    ///
    /// Refused, the first of these that holds: with `Closed` where it was closed before; with `ReadOpen`; with `NumbersExhausted` where no
    /// number is left for the mark, as in a session that goes on behind the last number of all; and with `QueueFull` as `submit` is.
    /// Nothing changes then.
    pub fn close<R: Wait>(&mut self, rt: &R) -> Result<u64, Fault>
        ensures ok { IfOk result (λ number. (number ≡ due self.old) × (self.new ≡ handed_in self.old (Close number))) }
        ensures err { OnErr result (self.new ≡ self.old) }
        ensures fault { MatchResult result
            (λ _. close_fault self.old ≡ None)
            (IsRefusedBy (close_fault self.old) self.old) }
    {
        if self.sender.is_closed() {
            return Err(Fault::Closed);
        }
        if self.transaction.is_open() {
            return Err(Fault::ReadOpen);
        }
        self.sender.close(rt)
    }

    /// Operations are handed in to run alone, as a whole transaction in one step, and its number is answered. It takes no memory.
    ///
    /// Refused, the first of these that holds: with `Closed`; with `ReadOpen`; with `NumbersExhausted` where only the number of the
    /// closing mark is left; with `SetFull` where they are more than 256; with the fault of the first one that doesn't fit the tables;
    /// and with `QueueFull` as `submit` is. They are handed back then, and nothing changes.
    pub fn alone<R: Wait>(
        &mut self,
        rt: &R,
        operations: Vec<Op<A>, A>,
    ) -> Result<u64, Refused<Vec<Op<A>, A>>>
        ensures ok { IfOk result (λ number. (number ≡ due self.old) × (self.new ≡ handed_in self.old (Alone number (ops_of operations.items)))) }
        ensures err { OnErr result (self.new ≡ self.old) }
        ensures handed_back { IfErr result (λ refused. refused.value ≡ operations) }
        ensures fault { MatchResult result
            (λ _. alone_fault self.old (ops_of operations.items) ≡ None)
            (λ refused. IsRefusedBy (alone_fault self.old (ops_of operations.items)) self.old refused.fault) }
    {
        if let Err(fault) = self.check_alone(operations.as_slice()) {
            return Err(Refused {
                value: operations,
                fault,
            });
        }
        let number = self.sender.next();
        match self.sender.submit(rt, Item::Alone { number, operations }) {
            Ok(()) => Ok(number),
            Err(refused) => Err(operations_back(refused)),
        }
    }

    /// Whether operations may be handed in, if there is room.
    pub(crate) fn check_alone(&self, operations: &[Op<A>]) -> Result<(), Fault>
        ensures { result_err result ≡ alone_fault self.now (ops_of operations.now) }
    {
        if self.sender.is_closed() {
            return Err(Fault::Closed);
        }
        if self.transaction.is_open() {
            return Err(Fault::ReadOpen);
        }
        if self.sender.next() >= MAX_NUMBER {
            return Err(Fault::NumbersExhausted);
        }
        if operations.len() > MAX_OPERATIONS {
            return Err(Fault::SetFull);
        }
        check_operations(self.transaction.schema(), operations)
    }
}

impl<N: Name, A: Allocator + Copy> Session<N, A> {
    /// Opens a transaction, and answers its number and its start: the transaction counter, by one atomic load, which waits for nobody.
    /// It is at least every transaction number that this client has seen.
    ///
    /// Refused, the first of these that holds: with `Closed`; with `ReadOpen` where one is open; and with `NumbersExhausted` where
    /// only the number of the closing mark is left. Nothing changes then.
    pub fn begin(&mut self) -> Result<(u64, u64), Fault>
        ensures ok { IfOk result (λ begun_as. (begun_as.0 ≡ due self.old) × (self.new ≡ begun self.old begun_as.1)) }
        ensures rises { IfOk result (λ begun_as. (self.old.seat.counter ≤ begun_as.1) × (self.old.seat.last.tn ≤ begun_as.1)) }
        ensures fits { IfOk result (λ begun_as. begun_as.1 ≤ MAX_COUNTER) }
        ensures err { OnErr result (self.new ≡ self.old) }
        ensures fault { result_err result ≡ begin_fault self.old }
    {
        if self.sender.is_closed() {
            return Err(Fault::Closed);
        }
        if self.transaction.is_open() {
            return Err(Fault::ReadOpen);
        }
        let number = self.sender.next();
        if number >= MAX_NUMBER {
            return Err(Fault::NumbersExhausted);
        }
        let start = self.seat.start();
        self.transaction.begin(self.alloc, number, start)?;
        Ok((number, start))
    }

    /// The open transaction is handed in, to be entered by the session's lane, and its number is answered. It takes no memory.
    ///
    /// Refused, the first of these that holds: with `Closed`; with `NoReadOpen`; and with `QueueFull`, only where as many items were
    /// pushed as the queue holds beyond those that this end heard of as taken. The transaction stays open as it is then.
    pub fn submit<R: Wait>(&mut self, rt: &R) -> Result<u64, Fault>
        ensures ok { IfOk result (λ number. Submits self.old number self.new) }
        ensures err { OnErr result (self.new ≡ self.old) }
        ensures fault { MatchResult result
            (λ _. submit_fault self.old ≡ None)
            (IsRefusedBy (submit_fault self.old) self.old) }
    {
        if self.sender.is_closed() {
            return Err(Fault::Closed);
        }
        let (number, start, writes) = self.transaction.into_request()?;
        let item = Item::Request {
            number,
            start,
            writes,
        };
        match self.sender.submit(rt, item) {
            Ok(()) => Ok(number),
            Err(refused) => {
                let Refused { value, fault } = refused;
                put_back(&mut self.transaction, reopened(rt, value));
                Err(fault)
            }
        }
    }
}

// A transaction is open again, where none is.
fn put_back<N: Name, A: Allocator + Copy>(
    transaction: &mut Transaction<N, A>,
    draft: OpenTransaction<A>,
)
    ensures { transaction.new ≡ record transaction.old { draft = draft } }
{
    let _none = transaction.replace(draft);
}

// The transaction that a request was made of. Nobody shares its writes, so that they come back at the first try, which takes no memory.
fn reopened<A: Allocator + Copy, R: Wait>(rt: &R, item: Item<A>) -> OpenTransaction<A>
    ensures { result ≡ draft_of (item_of item) }
{
    match item {
        Item::Request {
            number,
            start,
            writes,
        } => reopened_as(rt, number, start, writes),
        Item::Alone { .. } | Item::Close { .. } => OpenTransaction::none(),
    }
}

// The transaction of a request with these parts.
fn reopened_as<A: Allocator + Copy, R: Wait>(
    rt: &R,
    number: u64,
    start: u64,
    writes: RequestWrites<A>,
) -> OpenTransaction<A>
    ensures { result ≡ Some (record { number = number; start = start; writes = writes }) }
{
    let mut writes = writes;
    for _ in rt.forever() {
        match OpenTransaction::from_request(number, start, writes) {
            Ok(open) => return open,
            Err(refused) => writes = refused.value,
        }
    }
    unreachable!()
}

// The operations that an item was made of.
fn operations_back<A: Allocator + Copy>(refused: Refused<Item<A>>) -> Refused<Vec<Op<A>, A>>
    requires { is_alone (item_of refused.value) ≡ true }
    ensures value { (number : ℕ) × (refused.value ≡ items.Alone number result.value) }
    ensures fault { result.fault ≡ refused.fault }
{
    let Refused { value, fault } = refused;
    match value {
        Item::Alone { operations, .. } => Refused {
            value: operations,
            fault,
        },
        Item::Request { .. } | Item::Close { .. } => unreachable!(),
    }
}
