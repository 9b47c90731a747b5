//! The loads on a core of one owner.
use crate::by_clients::{commit_all, number_in, read_and_write};
use crate::dice::Dice;
use crate::loads::{Shape, amount};
use crate::rows::{PUTS, TABLE, operations, puts, schema};
use occ_case::Verdict;
use occ_client::Client;
use occ_core::{Core, Outcome, SingleWrite};
use occ_queue::Item;
use occ_sets::{Op, PrivateCopy};
use occ_types::{Cell, Fault, Key, Row};
use std::alloc::Allocator;
use std::collections::VecDeque;

/// After how many rounds of transactions the log is folded.
const FOLDED_AFTER: u64 = 10_000;

/// How a transaction ends, and with what it begins.
#[derive(Clone, Copy)]
pub(crate) enum Ending {
    /// It reads, and then enters, is decided, writes and finishes step by step.
    Steps,
    /// It reads, and all the rest is one step.
    Serial,
    /// It reads and ends as by one step, and a client does all of it.
    Client,
    /// It is a list of operations, and one step.
    Alone,
}

impl Ending {
    pub(crate) const ALL: [Ending; 4] = [
        Ending::Steps,
        Ending::Serial,
        Ending::Client,
        Ending::Alone,
    ];

    /// The word that names it.
    pub(crate) fn name(self) -> &'static str {
        match self {
            Ending::Steps => "steps",
            Ending::Serial => "serial",
            Ending::Client => "client",
            Ending::Alone => "alone",
        }
    }

    /// The one that a word names.
    pub(crate) fn named(word: &str) -> Option<Ending> {
        Ending::ALL.into_iter().find(|ending| ending.name() == word)
    }
}

/// A core with the rows of a load, and what its next transactions read and write.
#[derive(Drop)]
pub(crate) struct Owner<A: Allocator> {
    alloc: A,
    core: Box<Core<A>, A>,
    shape: Shape,
    dice: Dice,
    // The private copies of a round. Their room is kept from round to round, since it is no cost of the core.
    copies: VecDeque<PrivateCopy<A>, A>,
    clients: Vec<Client<A>, A>,
}

impl<A: Allocator + Copy> Owner<A> {
    /// A core with the rows of a load, put by a session behind those of the load, and folded away.
    pub(crate) fn open(alloc: A, shape: Shape) -> Result<Owner<A>, Fault> {
        let filling = shape.together.saturating_add(1);
        let mut core = empty(alloc, filling)?;
        fill(alloc, &mut core, filling, shape.rows)?;
        Ok(Owner {
            alloc,
            core,
            shape,
            dice: Dice::new(),
            copies: VecDeque::new(alloc),
            clients: clients(alloc, shape.together)?,
        })
    }

    /// Does so many rounds of transactions, one of each session. The answer is how many committed.
    pub(crate) fn play(&mut self, ending: Ending, rounds: u64, folds: bool) -> Result<u64, Fault> {
        let mut committed = 0u64;
        for round in 0..rounds {
            let number = round.saturating_add(1);
            let done = match ending {
                Ending::Alone => self.round_alone(number)?,
                Ending::Serial | Ending::Steps => self.round_by_copies(ending, number)?,
                Ending::Client => self.round_by_clients()?,
            };
            committed = committed.saturating_add(done);
            if folds && number % FOLDED_AFTER == 0 {
                fold(&mut self.core)?;
            }
        }
        Ok(committed)
    }

    // One transaction of each session, as operations.
    fn round_alone(&mut self, number: u64) -> Result<u64, Fault> {
        let mut committed = 0u64;
        for session in 1..=self.shape.together {
            let operations = self.operations()?;
            run_alone(&mut self.core, session, number, operations)?;
            committed = committed.saturating_add(1);
        }
        Ok(committed)
    }

    // The operations of the next transaction.
    fn operations(&mut self) -> Result<Vec<Op<A>, A>, Fault> {
        let first = self.shape.first(&mut self.dice);
        operations(self.alloc, &self.shape, first)
    }

    // One transaction of each session: all begin before the first ends.
    fn round_by_copies(&mut self, ending: Ending, number: u64) -> Result<u64, Fault> {
        for session in 1..=self.shape.together {
            let copy = self.begin(session, number)?;
            self.copies.push_back(copy)?;
        }
        let mut committed = 0u64;
        for session in 1..=self.shape.together {
            let Some(copy) = self.copies.pop_front() else {
                return Ok(committed);
            };
            let done = match ending {
                Ending::Steps => end_by_steps(&mut self.core, session, copy)?,
                Ending::Serial | Ending::Client | Ending::Alone => end_serially(
                    &mut self.core,
                    session,
                    copy,
                )?,
            };
            committed = committed.saturating_add(u64::from(done));
        }
        Ok(committed)
    }

    // The same by clients.
    fn round_by_clients(&mut self) -> Result<u64, Fault> {
        for client in self.clients.iter_mut() {
            let first = self.shape.first(&mut self.dice);
            client.begin(&self.core)?;
            read_and_write(client, &mut self.core, self.shape, first)?;
        }
        commit_all(self.clients.as_mut_slice(), &mut self.core)
    }

    // Reads what the next transaction reads, and writes into its private copy.
    fn begin(&mut self, session: usize, number: u64) -> Result<PrivateCopy<A>, Fault> {
        let first = self.shape.first(&mut self.dice);
        let mut copy = PrivateCopy::new(self.alloc, number, self.core.tnc());
        self.scan(session, number, first)?;
        for place in 0..self.shape.reads.max(self.shape.writes) {
            self.turn(session, &mut copy, first, place)?;
        }
        Ok(copy)
    }

    // Reads the range of a transaction that begins now, where the load has one.
    fn scan(&mut self, session: usize, number: u64, first: u64) -> Result<(), Fault> {
        if self.shape.span == 0 {
            return Ok(());
        }
        let (lower, upper) = (first, first.saturating_add(self.shape.span));
        let (lower, upper) = (Some(Key::Num(lower)), Some(Key::Num(upper)));
        let start = self.core.tnc();
        let _rows = self.core.scan(
            session,
            number,
            start,
            TABLE,
            lower.as_ref(),
            upper.as_ref(),
        )?;
        Ok(())
    }

    // What stands at a place of a transaction: a read, a write or both.
    fn turn(
        &mut self,
        session: usize,
        copy: &mut PrivateCopy<A>,
        first: u64,
        place: u64,
    ) -> Result<(), Fault> {
        let key = self.shape.key(first, place);
        let before = match place < self.shape.reads {
            true => self.read(session, copy.number(), copy.start(), key)?,
            false => 0,
        };
        if place < self.shape.writes {
            let row = Row::from_cell(Cell::Int(before.saturating_add(amount(place))));
            copy.put(TABLE, Key::Num(key), row)?;
        }
        Ok(())
    }

    // The number in a row, 0 where there is none.
    fn read(&mut self, session: usize, number: u64, start: u64, key: u64) -> Result<i64, Fault> {
        let row = self
            .core
            .read(session, number, start, TABLE, &Key::Num(key))?;
        Ok(number_in(row))
    }
}

// A core of so many sessions.
fn empty<A: Allocator + Copy>(alloc: A, sessions: usize) -> Result<Box<Core<A>, A>, Fault> {
    let core = Core::open(alloc, schema(alloc)?, sessions, 8)?;
    Ok(Box::new(alloc, core)?)
}

// Clients of the first sessions, so many.
fn clients<A: Allocator + Copy>(alloc: A, count: usize) -> Result<Vec<Client<A>, A>, Fault> {
    let mut clients = Vec::new(alloc);
    for session in 1..=count {
        clients.push(Client::new(alloc, session))?;
    }
    Ok(clients)
}

// Puts so many rows, by a session that does nothing else, and folds them away.
fn fill<A: Allocator + Copy>(
    alloc: A,
    core: &mut Core<A>,
    session: usize,
    rows: u64,
) -> Result<(), Fault> {
    for part in 0..rows.div_ceil(PUTS) {
        let first = part.saturating_mul(PUTS);
        let puts = puts(alloc, first, rows.min(first.saturating_add(PUTS)))?;
        run_alone(core, session, part.saturating_add(1), puts)?;
    }
    fold(core)
}

// A session runs operations alone.
fn run_alone<A: Allocator + Copy>(
    core: &mut Core<A>,
    session: usize,
    number: u64,
    operations: Vec<Op<A>, A>,
) -> Result<(), Fault> {
    let _done = core.run_alone(session, number, operations)?;
    Ok(())
}

// Makes a checkpoint.
fn fold<A: Allocator + Copy>(core: &mut Core<A>) -> Result<(), Fault> {
    let _folded = core.checkpoint()?;
    Ok(())
}

// What a session hands in.
fn request<A: Allocator>(copy: PrivateCopy<A>) -> Item<A> {
    let (number, start, writes) = copy.into_request();
    Item::Request {
        number,
        start,
        writes,
    }
}

// Ends a transaction in one step. The answer is whether it committed.
fn end_serially<A: Allocator + Copy>(
    core: &mut Core<A>,
    session: usize,
    copy: PrivateCopy<A>,
) -> Result<bool, Fault> {
    match core.serial_end(session, request(copy))? {
        Outcome::Committed { .. } => Ok(true),
        _ => Ok(false),
    }
}

// Enters a transaction.
fn enter<A: Allocator + Copy>(
    core: &mut Core<A>,
    session: usize,
    copy: PrivateCopy<A>,
) -> Result<(), Fault> {
    let _entered: Outcome<A> = core.enter(session, request(copy))?;
    Ok(())
}

// Ends a transaction step by step. The answer is whether it committed.
fn end_by_steps<A: Allocator + Copy>(
    core: &mut Core<A>,
    session: usize,
    copy: PrivateCopy<A>,
) -> Result<bool, Fault> {
    enter(core, session, copy)?;
    match core.decide(session)? {
        Verdict::Commit => {
            write_all(core, session)?;
            let _number = core.finish(session)?;
            Ok(true)
        }
        Verdict::BackUp(_) => {
            let _number = core.back_up(session)?;
            Ok(false)
        }
    }
}

// Does all single writes of the transaction that a session has under way, of which it has at most 256.
fn write_all<A: Allocator + Copy>(core: &mut Core<A>, session: usize) -> Result<(), Fault> {
    for _ in 0..PUTS {
        match core.write_one(session)? {
            SingleWrite::Wrote { .. } => {}
            SingleWrite::NoMore => return Ok(()),
        }
    }
    Ok(())
}
