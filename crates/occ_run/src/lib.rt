//! Workloads: a text of transactions goes in, threads run them, and what became of them comes out.
#![tactic(auto)]

mod clients;
mod ends;
mod groups;
pub mod laws;
mod loads;
mod named;
mod observers;
mod outcomes;
mod reports;
mod rounds;
mod runs;
mod session_lines;
mod transaction_lines;
mod trying;
mod waiting;
mod workers;
pub mod workloads;

pub use observers::{Observer, Progress, Unwatched};
pub use occ_text::trouble::{Trouble, status_of};
pub use runs::{PATIENCE, Ran, Way, run_in, run_text, run_watched};
