//! Cases and verdicts: what a validation depends on, fixed at the entry of a transaction, what it says, and the file of cases that lets it
//! be said outside a lock; and how a transaction ended.
#![tactic(auto)]

mod cases;
mod crossing;
mod ended;
mod file;
mod judged;
mod verdicts;

pub use cases::{Case, OpenCase};
pub use crossing::cases_cross_threads;
pub use ended::Ended;
pub use file::{CaseFile, CaseToken};
pub use judged::{Judged, judge};
pub use occ_model::{Cause, Verdict};
pub use verdicts::verdict;
