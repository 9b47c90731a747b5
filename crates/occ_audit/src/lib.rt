//! The audit of a decision log: whether all that a store claims of its log, its closing marks and its tables holds, and else what stands
//! wrong there.
//!
//! A finding is data and no sentence: the first of all that stands wrong, told by its place, with what stands there due. There is none
//! exactly where the audit says yes, and else it is the first one in this order.
//! 1. The log is in order: from its first row on each place and each number is the next one, and then each closing mark, session by
//!    session.
//! 2. Serial replay explains it, row by row and read by read.
//! 3. The tables are what the replay of the whole log leaves, object by object.
//!
//! What is wrong behind a first finding may follow from it, so it isn't looked for.
#![tactic(auto)]

mod answers;
mod audits;
mod disorders;
mod explaining;
mod findings;
mod first_difference;
mod first_read;
mod lent_rows;
mod order;
mod replica;
mod rests;
mod serial_replay;

pub use audits::audit_rows;
pub use disorders::first_disorder;
pub use explaining::explain_book;
pub use findings::{Disorder, Finding, ObjectApart, WrongRead};
