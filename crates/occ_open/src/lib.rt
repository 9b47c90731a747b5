//! The transaction that a session has open: its own writes, and what it asks a store. It names no store, and asks the one that is lent
//! to it.
#![tactic(auto)]

mod asking;
mod kept_transactions;
mod open_transactions;
mod pages;
mod paging;
mod readable;
mod writing;

pub use kept_transactions::KeptTransaction;
pub use open_transactions::OpenTransaction;
pub use pages::{Page, PageEnd, PagePlan};
pub use readable::Readable;
