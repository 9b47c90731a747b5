//! A core beside what it is to be, and what is told of both.
use crate::dice::Dice;
use crate::past::{Entered, Stands, Work, commits, foldable, replayed};
use crate::rows::Rows;
use occ_audit::audit_rows;
use occ_core::Core;
use occ_types::Fault;
use std::alloc::{AllocError, Global};
use std::mem;

/// What a session is about.
#[derive(Clone, Copy, PartialEq, Eq)]
pub(crate) enum Phase {
    Idle,
    Reading,
    /// Its transaction has entered, and is to commit or not.
    Open { commits: bool },
    Writing { done: usize },
    Backing,
    Closed,
}

/// A session, with the transaction that it has open.
#[derive(Drop)]
pub(crate) struct Session {
    pub(crate) id: usize,
    /// The last number that was used up as the store began.
    pub(crate) before: u64,
    /// The last number that is used up.
    pub(crate) last: u64,
    pub(crate) phase: Phase,
    /// Which of all transactions of the core its last one was that entered.
    pub(crate) entered: usize,
    pub(crate) work: Work,
}

impl Session {
    /// A session that has used up so many numbers.
    pub(crate) fn new(alloc: Global, id: usize, last: u64) -> Session {
        Session {
            id,
            before: last,
            last,
            phase: Phase::Idle,
            entered: 0,
            work: Work::new(alloc, 0),
        }
    }

    /// The number that is due.
    pub(crate) fn next(&self) -> u64 {
        self.last.saturating_add(1)
    }
}

/// What a core is to be: its rows at first and now, the place where the first transaction enters, the counter, how many write sets are kept,
/// all transactions that entered, and how many of them are folded.
#[derive(Drop)]
pub(crate) struct Plain {
    pub(crate) first: Rows,
    pub(crate) rows: Rows,
    pub(crate) place: usize,
    pub(crate) counter: u64,
    pub(crate) keep: usize,
    pub(crate) past: Vec<Entered>,
    pub(crate) folded: usize,
}

impl Plain {
    /// What a core is to be that begins with these rows.
    pub(crate) fn new(
        alloc: Global,
        rows: Rows,
        (place, counter, keep): (usize, u64, usize),
    ) -> Plain {
        Plain {
            first: rows,
            rows,
            place,
            counter,
            keep,
            past: Vec::new(alloc),
            folded: 0,
        }
    }

    /// Above which number write sets are kept.
    pub(crate) fn low(&self) -> u64 {
        self.counter.saturating_sub(self.keep as u64)
    }

    /// Whether a transaction is active.
    pub(crate) fn is_busy(&self) -> bool {
        self.past
            .iter()
            .any(|entered| entered.stands == Stands::Active)
    }

    /// Whether a transaction would commit that enters now.
    pub(crate) fn commits(&self, work: &Work) -> bool {
        commits(&self.past, self.low(), work)
    }

    /// Notes the transaction of a session as entered.
    pub(crate) fn note(
        &mut self,
        alloc: Global,
        one: &mut Session,
        stands: Stands,
    ) -> Result<(), AllocError> {
        let work = mem::replace(&mut one.work, Work::new(alloc, 0));
        one.last = one.next();
        one.entered = self.past.len();
        one.phase = Phase::Idle;
        Ok(
            self.past.push(Entered {
                session: one.id,
                number: one.last,
                work,
                stands,
            })?,
        )
    }

    /// How one of the transactions stands from now on.
    pub(crate) fn stand(&mut self, entered: usize, stands: Stands) {
        if let Some(entered) = self.past.as_mut_slice().get_mut(entered) {
            entered.stands = stands;
        }
    }

    /// A write of one of the transactions.
    pub(crate) fn write(&self, entered: usize, done: usize) -> Option<(usize, Option<i64>)> {
        let entered = self.past.get(entered)?;
        Some(*entered.work.writes.get(done)?)
    }

    /// Takes the next transaction number, and tells whether it is this one.
    pub(crate) fn count(&mut self, tn: u64) -> bool {
        self.counter = self.counter.saturating_add(1);
        self.counter == tn
    }

    /// Folds what is settled and not kept, and tells how many transactions that is.
    pub(crate) fn fold(&mut self) -> usize {
        let count = foldable(&self.past, self.folded, self.low());
        self.folded = self.folded.saturating_add(count);
        count
    }

    /// The last number of a session among the first transactions, if it has one there.
    pub(crate) fn last(&self, id: usize, count: usize) -> Option<u64> {
        let mut last = None;
        for entered in self.past.iter().take(count) {
            if entered.session == id {
                last = Some(entered.number);
            }
        }
        last
    }
}

/// A core beside what it is to be.
#[derive(Drop)]
pub(crate) struct Life {
    pub(crate) alloc: Global,
    pub(crate) core: Box<Core<Global>>,
    pub(crate) plain: Plain,
    pub(crate) dice: Dice,
}

impl Life {
    /// Whether the core shows what it is to be, and its audit is yes.
    pub(crate) fn is_right(&self) -> Result<bool, Fault> {
        let (core, plain) = (&self.core, &self.plain);
        let counted = core.tnc() == plain.counter && core.low() == plain.low();
        let rows = core.log().len().saturating_add(plain.folded);
        let right = counted && rows == plain.past.len();
        let stand = plain.rows.are_in(self.alloc, core.table())?;
        Ok(right && stand && audit_rows(self.alloc, &core.view())?)
    }

    /// Whether serial replay leaves the rows that stand in the tables, and those of the folded transactions in the base.
    pub(crate) fn is_replayed(&self) -> Result<bool, Fault> {
        let plain = &self.plain;
        let all = replayed(&plain.past, plain.past.len(), &plain.first);
        let Some(folded) = replayed(&plain.past, plain.folded, &plain.first) else {
            return Ok(false);
        };
        let base = Box::new(self.alloc, self.core.base().state()?)?;
        Ok(all == Some(plain.rows) && folded.are_in(self.alloc, &base)?)
    }
}
