//! The board: the transaction counter and, for each session, its last transaction that is over, shown to threads without a lock.
//!
//! One publisher stores the words, and each session has a seat that loads them. A load waits for nobody, takes no memory and is
//! never refused, and what a seat sees never falls.
#![tactic(auto)]

mod boards;
mod publishing;
mod rule;
mod seats;
mod words;

pub use boards::Board;
pub use publishing::Publisher;
pub use rule::{Known, Seen};
pub use seats::Seat;
pub use words::{Last, Words};
