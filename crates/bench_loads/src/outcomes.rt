//! What comes of a load.
use crate::budgets::Until;
use crate::dice::Dice;
use crate::loads::{Shape, amount};
use crate::turns::Turn;
use occ_types::Fault;

/// What a thread has done.
#[derive(Clone, Copy)]
pub(crate) struct Done {
    /// How many transactions committed.
    pub(crate) committed: u64,
    /// How many tries of them were backed up.
    pub(crate) backed_up: u64,
    /// The sum of their transaction numbers.
    numbers: u64,
    /// The fault that ended its work.
    pub(crate) fault: Option<Fault>,
}

/// The part of one thread in a load: which transactions it makes, and what it has done.
#[derive(Clone, Copy)]
pub(crate) struct Part {
    shape: Shape,
    dice: Dice,
    done: Done,
}

/// What came of a load.
#[derive(Clone, Copy)]
pub(crate) struct Told {
    /// What its transactions do.
    shape: Shape,
    /// What all threads did together.
    pub(crate) all: Done,
    /// How many transactions committed of the thread that made the fewest.
    pub(crate) least: u64,
    /// How long the threads took, in microseconds.
    pub(crate) micros: u64,
    /// The sum of all rows at the end.
    pub(crate) sum: i64,
    /// Whether each call of a worker came before the load as is due, on a store.
    pub(crate) called: bool,
    /// What was done before the load, on a store.
    pub(crate) before: Option<Done>,
}

impl Done {
    /// Nothing.
    pub(crate) const NOTHING: Done = Done {
        committed: 0,
        backed_up: 0,
        numbers: 0,
        fault: None,
    };

    /// The first commits of a store, so many, whose numbers begin at 1.
    pub(crate) fn first(many: u64) -> Done {
        Done {
            committed: many,
            numbers: many.saturating_mul(many.saturating_add(1)) / 2,
            ..Done::NOTHING
        }
    }

    /// A transaction that committed under a number, after so many tries that were backed up.
    pub(crate) fn one(tn: u64, backed_up: u64) -> Done {
        Done {
            committed: 1,
            backed_up,
            numbers: tn,
            fault: None,
        }
    }

    /// What it and another have done together.
    pub(crate) fn and(self, other: Done) -> Done {
        Done {
            committed: self.committed.saturating_add(other.committed),
            backed_up: self.backed_up.saturating_add(other.backed_up),
            numbers: self.numbers.saturating_add(other.numbers),
            fault: self.fault.or(other.fault),
        }
    }
}

impl Part {
    /// That of the thread with this place, which has done nothing yet.
    pub(crate) fn new(shape: Shape, place: u64) -> Part {
        Part {
            shape,
            dice: Dice::of(place),
            done: Done::NOTHING,
        }
    }

    /// Its next transaction.
    pub(crate) fn next(&mut self) -> Turn {
        Turn::new(self.shape, self.shape.first(&mut self.dice))
    }

    /// A transaction committed under a number, after so many tries that were backed up.
    pub(crate) fn commit(&mut self, tn: u64, backed_up: u64) {
        self.done = self.done.and(Done::one(tn, backed_up));
    }

    /// A fault ended its work.
    pub(crate) fn fail(&mut self, fault: Fault) {
        self.done.fault = Some(fault);
    }

    /// What it has done.
    pub(crate) fn done(&self) -> Done {
        self.done
    }
}

impl Told {
    /// A load of no threads, which took so many microseconds.
    pub(crate) fn new(shape: Shape, micros: u64) -> Told {
        Told {
            shape,
            all: Done::NOTHING,
            least: u64::MAX,
            micros,
            sum: 0,
            called: true,
            before: None,
        }
    }

    /// Adds what one more thread did.
    pub(crate) fn add(&mut self, done: Done) {
        self.all = self.all.and(done);
        self.least = self.least.min(done.committed);
    }

    /// Whether each call before it came as is due, no thread met a fault, each transaction committed, under a number of its own, and the rows
    /// add up.
    pub(crate) fn is_right(&self, until: Until) -> bool {
        let all = match until {
            Until::Count(count) => self.all.committed == count,
            Until::Seconds(_) => true,
        };
        all && self.called && self.all.fault.is_none() && self.is_numbered() && self.adds_up()
    }

    /// Whether the numbers of all commits of a store add up to what those from 1 on do.
    fn is_numbered(&self) -> bool {
        match self.before {
            Some(before) => {
                let all = before.and(self.all);
                all.numbers == Done::first(all.committed).numbers
            }
            None => true,
        }
    }

    /// Whether the rows add up to what the commits put there.
    fn adds_up(&self) -> bool {
        let mut put = 0i64;
        for place in 0..self.shape.writes {
            put = put.saturating_add(amount(place));
        }
        match i64::try_from(self.all.committed) {
            Ok(committed) => self.sum == committed.wrapping_mul(put),
            Err(_) => false,
        }
    }
}
