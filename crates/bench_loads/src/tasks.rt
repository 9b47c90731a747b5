//! What the words of a call ask for.
use crate::budgets::Until;
use crate::costs::Rounds;
use crate::loads::{Load, Shape};
use occ_types::limits::MAX_SESSIONS;

/// How many rows the accounts have.
const ACCOUNTS: u64 = 1_000;
/// How many transactions a short load has, with one checkpoint where it has any.
const SHORT: u64 = 12_000;
/// How many rows it has at most.
const SHORT_ROWS: u64 = 10_000;
/// How many threads do it.
const SHORT_THREADS: usize = 4;

/// How many transactions a thread makes at a time, in a lease or not, where nothing else is said.
const AT_A_TIME: u64 = 16;
/// How many it makes at most.
const MOST_AT_A_TIME: u64 = 1_000;
/// After how many transactions of all a checkpoint is made, if nothing else is said.
const FOLDED_AFTER: u64 = 10_000;
/// After how many it may be made.
const MOST_BETWEEN: u64 = 1_000_000;

/// By what transactions are made.
#[derive(Clone, Copy, PartialEq, Eq)]
pub(crate) enum By {
    /// A session and its lane: each enters, is decided, writes and finishes, in an event for each.
    Steps,
    /// A session and its lane, which ends each in one event while no other row is active.
    Serial,
    /// A session and its lane: each is operations that run alone.
    Alone,
    /// A worker, which makes each in a lease of its own where there is no other lease.
    Worker,
    /// A map under one lock, which is taken for each.
    Map,
}

/// How transactions are made.
#[derive(Clone, Copy)]
pub(crate) struct Way {
    pub(crate) by: By,
    /// Whether those that a thread makes at a time are made in one lease, or in one holding of the map's lock.
    pub(crate) leased: bool,
    /// How many that are.
    pub(crate) at_a_time: u64,
    /// After how many of all a checkpoint is made, where any is.
    pub(crate) folded: Option<u64>,
}

/// A load with its name.
#[derive(Clone, Copy)]
pub(crate) struct Named {
    pub(crate) name: &'static str,
    pub(crate) shape: Shape,
}

/// A load, how its transactions are made, by how many threads, and how many.
#[derive(Clone, Copy)]
pub(crate) struct Task {
    pub(crate) load: Named,
    pub(crate) way: Way,
    pub(crate) threads: usize,
    pub(crate) until: Until,
}

/// What is asked for.
#[derive(Clone, Copy)]
pub(crate) enum Asked {
    /// A short load of each.
    All,
    /// A load by threads.
    Load(Task),
    /// Rounds of a load by one owner.
    Rounds(Rounds),
    /// Rounds of a bank.
    Bank(Until),
}

impl By {
    /// All of them.
    pub(crate) const ALL: [By; 5] = [By::Steps, By::Serial, By::Alone, By::Worker, By::Map];

    /// The word that names it.
    pub(crate) fn name(self) -> &'static str {
        match self {
            By::Steps => "steps",
            By::Serial => "serial",
            By::Alone => "alone",
            By::Worker => "worker",
            By::Map => "map",
        }
    }
}

impl Way {
    /// All choices of leases and checkpoints.
    pub(crate) const CHOICES: [(bool, bool); 4] = [
        (false, false),
        (true, false),
        (false, true),
        (true, true),
    ];

    /// Whether there is such a way: a map has no log to be folded.
    pub(crate) fn is_possible(self) -> bool {
        !(self.folded.is_some() && self.by == By::Map)
    }

    /// The way with one of these choices, where a thread makes as many at a time, and a checkpoint after as many, as if nothing else is said.
    pub(crate) fn usual(by: By, leased: bool, folded: bool) -> Way {
        Way {
            by,
            leased,
            at_a_time: AT_A_TIME,
            folded: folded.then_some(FOLDED_AFTER),
        }
    }

    /// Whether a thread makes another number of them at a time.
    pub(crate) fn is_unusual(self) -> bool {
        self.at_a_time != AT_A_TIME
    }

    /// The way that a word names: by what transactions are made, then `-leased`, or `-leased-64` where it is for so many, then `-folded`, or
    /// `-folded-500` where a checkpoint is made after so many.
    fn named(word: &str) -> Option<Way> {
        let (word, folded) = match word.split_once("-folded") {
            Some((word, after)) => (word, Some(told_by(after, FOLDED_AFTER, MOST_BETWEEN)?)),
            None => (word, None),
        };
        let (word, leased, at_a_time) = match word.split_once("-leased") {
            Some((word, many)) => (word, true, told_by(many, AT_A_TIME, MOST_AT_A_TIME)?),
            None => (word, false, AT_A_TIME),
        };
        let by = By::ALL.into_iter().find(|by| by.name() == word)?;
        let way = Way {
            by,
            leased,
            at_a_time,
            folded,
        };
        if way.is_possible() { Some(way) } else { None }
    }
}

/// What number the end of a word tells, as `-64`, which is 1 to `most`; the usual one where it tells nothing.
fn told_by(end: &str, usual: u64, most: u64) -> Option<u64> {
    if end.is_empty() {
        return Some(usual);
    }
    match end.strip_prefix('-')?.parse::<u64>() {
        Ok(number) if (1..=most).contains(&number) => Some(number),
        _ => None,
    }
}

impl Named {
    /// A transfer over 1,000 rows.
    pub(crate) fn accounts() -> Named {
        Named {
            name: "accounts",
            shape: Shape {
                rows: ACCOUNTS,
                ..Load::Transfer.shape()
            },
        }
    }

    /// One of the loads.
    pub(crate) fn of(load: Load) -> Named {
        Named {
            name: load.name(),
            shape: load.shape(),
        }
    }

    /// The same with at most so many rows.
    fn with_rows(self, most: u64) -> Named {
        let Named { name, shape } = self;
        let rows = shape.rows.min(most);
        Named {
            name,
            shape: Shape { rows, ..shape },
        }
    }

    /// The load that a word names.
    fn named(word: &str) -> Option<Named> {
        if word == "accounts" {
            return Some(Named::accounts());
        }
        let load = Load::named(word)?;
        Some(Named::of(load))
    }
}

impl Task {
    /// A short load by a way.
    pub(crate) fn short(load: Named, way: Way) -> Task {
        Task {
            load: load.with_rows(SHORT_ROWS),
            way,
            threads: SHORT_THREADS,
            until: Until::Count(SHORT),
        }
    }

    /// After how many of its own a thread makes a checkpoint, so that all of them make as many as are told.
    pub(crate) fn folded_each(self) -> Option<u64> {
        let after = self.way.folded?;
        Some(after.div_ceil((self.threads as u64).max(1)))
    }

    /// The task that four words tell.
    fn told(load: &str, way: &str, threads: &str, until: &str) -> Option<Task> {
        Some(Task {
            load: Named::named(load)?,
            way: Way::named(way)?,
            threads: threads_told(threads)?,
            until: Until::told(until)?,
        })
    }
}

impl Asked {
    /// What the words ask for, the first of which is the program's name; none where they ask for nothing that there is.
    pub(crate) fn of(words: &[String]) -> Option<Asked> {
        match words {
            [_] => Some(Asked::All),
            [_, word, until] if word.as_str() == "bank" => {
                let until = Until::told(until)?;
                Some(Asked::Bank(until))
            }
            [_, load, way, count] => {
                let rounds = Rounds::told(load, way, count)?;
                Some(Asked::Rounds(rounds))
            }
            [_, load, way, threads, until] => {
                let task = Task::told(load, way, threads, until)?;
                Some(Asked::Load(task))
            }
            _ => None,
        }
    }
}

/// How many threads a word tells, at most as many as a store has sessions.
fn threads_told(word: &str) -> Option<usize> {
    match word.parse::<usize>() {
        Ok(threads) if threads <= MAX_SESSIONS => Some(threads),
        _ => None,
    }
}
