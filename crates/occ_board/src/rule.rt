//! The rule of the board: what holds between any two atomic steps, and what each kind of step does.
use crate::words::{Last, Words};
use atomic_table::{Play, Table, TableRule};

/// What a seat has loaded, and how often. Contracts speak of it, and no code makes one: the counts have no greatest value.
pub struct Seen {
    /// The session whose word it loads.
    pub session: u64,
    /// The counter that it loaded last, 0 before the first load.
    pub counter: u64,
    /// How often it loaded the counter.
    pub starts: u64,
    /// The word of its session that it loaded last.
    pub last: Last,
    /// How often it loaded that word.
    pub polls: u64,
}

/// What one who steps on the board knows: each word as he stored it, or what he loaded. No code makes one.
pub enum Known {
    /// The publisher's.
    Publishes(Words),
    /// A seat's.
    Reads(Seen),
}

/// The rule of the board.
pub struct BoardRule;

impl TableRule<(), Known, usize> for BoardRule {
    ghost use Rattle.occ_board.specs.Words.{blank};
    ghost use Rattle.occ_board.specs.Rule.{Ruled};
    ghost use Rattle.occ_board.specs.declared.rule.Known.TheVariants.{Publishes};

    ghost holds = { λ _. Ruled };

    ghost first = { λ sessions. Publishes (blank sessions) };
}

/// The words, which all who step on the board share.
pub(crate) type SharedWords<A> = Table<(), Known, usize, BoardRule, A>;

/// What one who steps on the board carries: no bytes, and what he knows.
pub(crate) type Pass = atomic_table::Seat<(), Known>;

/// A seat is made.
pub(crate) struct SeatIsMade;

/// The counter is loaded.
pub(crate) struct LoadCounter;

/// The word of a session is loaded.
pub(crate) struct LoadWord;

/// The counter is stored.
pub(crate) struct StoreCounter;

/// The word of a session is stored.
pub(crate) struct StoreWord;

impl Play<(), Known> for SeatIsMade {
    ghost use Rattle.occ_board.specs.Steps.{seated};

    ghost then = { seated };
}

impl Play<(), Known> for LoadCounter {
    ghost use Rattle.occ_board.specs.Steps.{loaded_counter};

    ghost then = { loaded_counter };
}

impl Play<(), Known> for LoadWord {
    ghost use Rattle.occ_board.specs.Steps.{loaded_word};

    ghost then = { loaded_word };
}

impl Play<(), Known> for StoreCounter {
    ghost use Rattle.occ_board.specs.Steps.{stored_counter};

    ghost then = { stored_counter };
}

impl Play<(), Known> for StoreWord {
    ghost use Rattle.occ_board.specs.Steps.{stored_word};

    ghost then = { stored_word };
}
