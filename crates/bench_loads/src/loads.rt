//! Loads: which rows the transactions of a load read and write.
use crate::dice::Dice;

/// A load of like transactions over one table, whose rows are one number under number keys.
#[derive(Clone, Copy)]
pub(crate) enum Load {
    /// Two reads and two writes, over 100,000 rows.
    Transfer,
    /// Two reads and two writes over 16 rows, four transactions at a time.
    HotTransfer,
    /// A read and a write of the one row.
    Counter,
    /// Eight reads and one write, over 100,000 rows.
    MostlyReads,
    /// A range of 100 rows and one write, over 100,000 rows.
    Range,
    /// Ten reads, over 100,000 rows.
    ReadsAlone,
}

/// What each transaction of a load does.
#[derive(Clone, Copy)]
pub(crate) struct Shape {
    /// How many rows the table has.
    pub(crate) rows: u64,
    /// How many keys are read, one by one.
    pub(crate) reads: u64,
    /// How many rows are read as a range.
    pub(crate) span: u64,
    /// How many of the keys that are read are written; of a range, its first ones.
    pub(crate) writes: u64,
    /// How many transactions begin before the first of them ends.
    pub(crate) together: usize,
}

impl Load {
    /// All of them.
    pub(crate) const ALL: [Load; 6] = [
        Load::Transfer,
        Load::HotTransfer,
        Load::Counter,
        Load::MostlyReads,
        Load::Range,
        Load::ReadsAlone,
    ];

    /// The load that a word names.
    pub(crate) fn named(name: &str) -> Option<Load> {
        Load::ALL.into_iter().find(|load| load.name() == name)
    }

    /// The word that names it.
    pub(crate) fn name(self) -> &'static str {
        match self {
            Load::Transfer => "transfer",
            Load::HotTransfer => "hot-transfer",
            Load::Counter => "counter",
            Load::MostlyReads => "mostly-reads",
            Load::Range => "range",
            Load::ReadsAlone => "reads-alone",
        }
    }

    /// What its transactions do.
    pub(crate) fn shape(self) -> Shape {
        let (rows, reads, span, writes, together) = match self {
            Load::Transfer => (100_000, 2, 0, 2, 1),
            Load::HotTransfer => (16, 2, 0, 2, 4),
            Load::Counter => (1, 1, 0, 1, 1),
            Load::MostlyReads => (100_000, 8, 0, 1, 1),
            Load::Range => (100_000, 0, 100, 1, 1),
            Load::ReadsAlone => (100_000, 10, 0, 0, 1),
        };
        Shape {
            rows,
            reads,
            span,
            writes,
            together,
        }
    }
}

impl Shape {
    /// The first key of the next transaction; a range that begins there stays among the rows.
    pub(crate) fn first(&self, dice: &mut Dice) -> u64 {
        dice.below(self.rows.saturating_sub(self.span))
    }

    /// The key at a place of a transaction, among those that it reads one by one, or those of its range.
    pub(crate) fn key(&self, first: u64, place: u64) -> u64 {
        let stride = if self.span > 0 { 1 } else { 7_919 };
        let key = first.saturating_add(place.saturating_mul(stride));
        match self.rows {
            0 => 0,
            rows => key % rows,
        }
    }
}

/// What a write adds to the row at its place: what the first gives the second gets.
pub(crate) fn amount(place: u64) -> i64 {
    if place % 2 == 0 { -1 } else { 1 }
}
