//! The clients of a replay, one for each session.
ghost use Rattle.std.specs.Prelude.{◌≡◌, ◌<◌, suc, None, Some, Err, length, map, replicate, IfOk, IsOkUnless, MatchResult};
ghost use Rattle.std.specs.Option.{option_copied, option_map};
ghost use Rattle.occ_types.specs.PlainData.{key_of, end_of};
ghost use Rattle.occ_types.specs.Question.{Span};
ghost use Rattle.occ_types.specs.declared.fault.Fault.TheVariants as faults;
ghost use Rattle.occ_model.specs.Event as events;
ghost use Rattle.occ_queue.specs.Items.{item_of};
ghost use Rattle.occ_queue.specs.Numbering.{next, with_item, refusal_of_submit};
ghost use Rattle.occ_sets.specs.Operations.{ops_of};
ghost use Rattle.occ_text.specs.Operations.{operation_of};
ghost use Rattle.occ_cli.specs.Answers.{Queued};
ghost use Rattle.occ_cli.specs.Replaying.{client_of, fresh, Begins, Abandons, Writes, Submits, Closes, HandsIn, operations_named, Gets, Scans, Enters, next_item, still_waiting, Given, unless, WantsGet, WantsScan, WantsWrite, WantsList, played, PlayedIn};

use crate::answers::Answer;
use crate::operations::operations_named;
use occ_core::{Core, Reply, Step};
use occ_open::OpenTransaction;
use occ_queue::{Item, SessionQueue};
use occ_sets::Op;
use occ_text::operations::Operation;
use occ_types::limits::{MAX_NUMBER, MAX_OPERATIONS};
use occ_types::{Fault, Key, Refused, Row, Schema};
use std::alloc::Allocator;
use std::marker::Model;

/// The client of one session: its open transaction, the queue of its session, and an item that was taken from it to be entered and refused.
#[derive(Drop)]
pub(crate) struct Client<A: Allocator> {
    transaction: OpenTransaction<A>,
    queue: SessionQueue<A>,
    kept: Option<Item<A>>,
}

impl<A: Allocator> Model for Client<A> {
    ghost use Rattle.std.specs.Option.{option_map};
    ghost use Rattle.occ_queue.specs.Items.{item_of};
    ghost use Rattle.occ_cli.specs.Replaying.{Client as Plain};

    ghost Value = { Plain };

    ghost view = { λ c. record { copy = c.transaction; queue = c.queue; kept = option_map item_of c.kept } };
}

impl<A: Allocator> Client<A> {
    /// A client that did nothing yet, with room for `limit` items that wait. Refused with `Memory` where there is none for them.
    pub(crate) fn new(alloc: A, limit: usize) -> Result<Client<A>, Fault>
        ensures fresh { IfOk result (λ client. client ≡ fresh limit) }
        ensures memory { IsOkUnless result faults.Memory }
    {
        let queue = SessionQueue::new(alloc, limit)?;
        Ok(Client {
            transaction: OpenTransaction::none(),
            queue,
            kept: None,
        })
    }

    /// `submit`: the open transaction waits from now on, which takes no memory. Refused with `Closed`, with `NoReadOpen`, and then as the queue refuses it: with `QueueFull`.
    pub(crate) fn submit(&mut self) -> Result<Answer<A>, Fault>
        ensures { Submits self.old (played result) self.new }
    {
        if self.queue.is_closed() {
            return Err(Fault::Closed);
        }
        let Some(number) = self.transaction.number() else {
            return Err(Fault::NoReadOpen);
        };
        self.queue.check_request(number)?;
        let (number, start, writes) = self.transaction.into_request()?;
        self.queue.submit(Item::Request {
            number,
            start,
            writes,
        })?;
        Ok(Answer::Queued(number))
    }

    /// `close`: the closing mark waits from now on, and nothing is begun or submitted behind it. It takes no memory. Refused with `Closed`, `ReadOpen`, `NumbersExhausted` where no number is left for it, or `QueueFull`.
    pub(crate) fn close(&mut self) -> Result<Answer<A>, Fault>
        ensures { Closes self.old (played result) self.new }
    {
        if self.queue.is_closed() {
            return Err(Fault::Closed);
        }
        if self.transaction.is_open() {
            return Err(Fault::ReadOpen);
        }
        let number = self.queue.close()?;
        Ok(Answer::Closing(number))
    }

    // Hands in operations under the next number, unless the queue refuses them.
    fn hand_in(&mut self, operations: Vec<Op<A>, A>) -> Result<Answer<A>, Fault>
        ensures { Given (unless (refusal_of_submit self.old.queue (events.Alone (next self.old.queue) (ops_of operations.items))) (next self.old.queue)) self.old (played result) self.new
            (λ number. (played result ≡ Queued number) × (self.new ≡ record self.old { queue = with_item self.old.queue (events.Alone number (ops_of operations.items)) })) }
    {
        let number = self.queue.next();
        self.queue.submit(Item::Alone { number, operations })?;
        Ok(Answer::Queued(number))
    }

    // Takes what is to be entered next: the item that was refused before, or else the one that waits first.
    fn take_next(&mut self) -> Option<Item<A>>
        ensures item { option_map item_of result ≡ next_item self.old }
        ensures rest { self.new ≡ record self.old { queue = still_waiting self.old; kept = None } }
    {
        match self.kept.take() {
            Some(item) => Some(item),
            None => self.queue.take(),
        }
    }

    // Keeps an item that the store refused for the next time, and tells why it did.
    fn keep(&mut self, refused: Refused<Item<A>>) -> Fault
        ensures kept { self.new ≡ record self.old { kept = Some (item_of refused.value) } }
        ensures fault { result ≡ refused.fault }
    {
        let Refused { value, fault } = refused;
        self.kept = Some(value);
        fault
    }
}

impl<A: Allocator + Copy> Client<A> {
    /// `put`, and `delete` where `row` is none. Refused with `NoReadOpen`, then with `NoTable`, `WrongKind`, `TooLong` or `WrongColumns` where the key or the row doesn't fit, with `SetFull`, and with `Memory`.
    pub(crate) fn write(
        &mut self,
        schema: &Schema<A>,
        table: usize,
        key: Key<A>,
        row: Option<Row<A>>,
    ) -> Result<Answer<A>, Fault>
        ensures { PlayedIn self.old self.new result (WantsWrite schema.now (table, key_of key) row self.old) (λ answer. Writes schema.now (table, key_of key) row self.old answer self.new) }
    {
        let done = match row {
            Some(row) => self.transaction.put(schema, table, key, row),
            None => self.transaction.delete(schema, table, key),
        };
        match done {
            Ok(()) => Ok(Answer::Done),
            Err(refused) => Err(refused.fault),
        }
    }

    /// `begin`: opens a transaction with the next number, which starts at this counter. Refused with `Closed`, with `ReadOpen`, and with `NumbersExhausted` where only the number of the closing mark is left.
    pub(crate) fn begin(&mut self, alloc: A, counter: u64) -> Result<Answer<A>, Fault>
        ensures { Begins counter self.old (played result) self.new }
    {
        if self.queue.is_closed() {
            return Err(Fault::Closed);
        }
        let number = self.queue.next();
        self.transaction.begin(alloc, number, counter)?;
        Ok(Answer::Begun {
            number,
            start: counter,
        })
    }

    /// `get`: the own write of the key, and else what the store answers. Refused with `NoReadOpen`, then with `NoTable`, `WrongKind` or `TooLong` where the key doesn't fit, and then as the store refuses a read.
    pub(crate) fn get(
        &self,
        core: &mut Core<A>,
        session: usize,
        table: usize,
        key: &Key<A>,
    ) -> Result<Answer<A>, Fault>
        ensures { PlayedIn core.old.world core.new.world result (WantsGet core.old.world session (table, key_of key.now) self.now) (λ answer. Gets core.old.world session (table, key_of key.now) self.now answer core.new.world) }
    {
        match self.transaction.get_in(core, session, table, key) {
            Ok(row) => Ok(Answer::Replied(Reply::Found(row))),
            Err(fault) => Err(fault),
        }
    }

    /// `scan`: what the store answers, with the own writes over it. Refused with `NoReadOpen`, then with `NoTable`, `WrongKind`, `TooLong` or `EmptyRange` where the range doesn't fit, and then as the store refuses a read.
    pub(crate) fn scan(
        &self,
        core: &mut Core<A>,
        session: usize,
        table: usize,
        lower: Option<&Key<A>>,
        upper: Option<&Key<A>>,
    ) -> Result<Answer<A>, Fault>
        ensures { PlayedIn core.old.world core.new.world result (WantsScan core.old.world (Span table (end_of (option_copied lower.entry)) (end_of (option_copied upper.entry))) self.now) (λ answer. Scans core.old.world session (Span table (end_of (option_copied lower.entry)) (end_of (option_copied upper.entry))) self.now answer core.new.world) }
    {
        match self.transaction.scan_in(core, session, table, lower, upper) {
            Ok(rows) => Ok(Answer::Replied(Reply::Rows(rows))),
            Err(fault) => Err(fault),
        }
    }

    /// `abandon`: the store forgets what the open transaction read, and none is open then. Its number is that of the next one too. Refused with `NoReadOpen`. It takes no memory.
    pub(crate) fn abandon(&mut self, core: &mut Core<A>, session: usize) -> Result<Answer<A>, Fault>
        ensures { Abandons core.old.world session self.old (played result) self.new core.new.world }
    {
        match self.transaction.abandon_in(core, session) {
            Ok(known) => Ok(Answer::Replied(Reply::Forgotten(known))),
            Err(fault) => Err(fault),
        }
    }

    /// `alone`: operations wait from now on to run alone, under the next number. Refused with `Closed`, with `ReadOpen`, with
    /// `NumbersExhausted` where only the number of the closing mark is left, with `SetFull` where they are more than 256, with the fault
    /// of the first one that doesn't fit, with `Memory`, and with `QueueFull`.
    pub(crate) fn alone(
        &mut self,
        alloc: A,
        schema: &Schema<A>,
        operations: Vec<Operation<'_, A>, A>,
    ) -> Result<Answer<A>, Fault>
        ensures { PlayedIn self.old self.new result (WantsList schema.now (operations_named schema.now (map operation_of operations.entry.items)) self.old)
            (λ answer. HandsIn schema.now (operations_named schema.now (map operation_of operations.entry.items)) self.old answer self.new) }
    {
        if self.queue.is_closed() {
            return Err(Fault::Closed);
        }
        if self.transaction.is_open() {
            return Err(Fault::ReadOpen);
        }
        if self.queue.next() >= MAX_NUMBER {
            return Err(Fault::NumbersExhausted);
        }
        if operations.len() > MAX_OPERATIONS {
            return Err(Fault::SetFull);
        }
        let operations = operations_named(alloc, schema, operations)?;
        self.hand_in(operations)
    }

    /// `enter`: what the store refused before, or else what waits first, enters the store. Where the store refuses it, also for want of memory, it is kept for the next time.
    pub(crate) fn enter(&mut self, core: &mut Core<A>, session: usize) -> Result<Answer<A>, Fault>
        ensures { Enters (events.Enter session) core.old.world self.old (played result) self.new core.new.world }
    {
        let Some(item) = self.take_next() else {
            return Ok(Answer::Empty);
        };
        match core.take(Step::Enter { session, item }) {
            Reply::RefusedItem(refused) => Err(self.keep(refused)),
            reply => Ok(Answer::Replied(reply)),
        }
    }

    /// `serial`: the same by a serial end, which takes a whole transaction at once.
    pub(crate) fn serial(&mut self, core: &mut Core<A>, session: usize) -> Result<Answer<A>, Fault>
        ensures { Enters (events.SerialEnd session) core.old.world self.old (played result) self.new core.new.world }
    {
        let Some(item) = self.take_next() else {
            return Ok(Answer::Empty);
        };
        match core.take(Step::SerialEnd { session, item }) {
            Reply::RefusedItem(refused) => Err(self.keep(refused)),
            reply => Ok(Answer::Replied(reply)),
        }
    }
}

/// Clients that did nothing yet, one for each session, each with room for `queue` items that wait. Refused with `Memory` where there is none for them.
pub(crate) fn fresh_clients<A: Allocator + Copy>(
    alloc: A,
    sessions: usize,
    queue: usize,
) -> Result<Vec<Client<A>, A>, Fault>
    ensures fresh { IfOk result (λ clients. clients.items ≡ replicate sessions (fresh queue)) }
    ensures memory { IsOkUnless result faults.Memory }
{
    let mut clients = Vec::with_capacity(alloc, sessions)?;
    for _ in 0..sessions {
        clients.push(Client::new(alloc, queue)?)?;
    }
    Ok(clients)
}

/// The place of the client of a session. Refused with `NoSession`.
pub(crate) fn place_of<A: Allocator>(clients: &[Client<A>], session: usize) -> Result<usize, Fault>
    ensures { MatchResult result
        (λ place. (session ≡ suc place) × (place < length clients.now))
        (λ fault. client_of clients.now session ≡ Err fault) }
{
    if session == 0 || session > clients.len() {
        return Err(Fault::NoSession);
    }
    Ok(session - 1)
}
