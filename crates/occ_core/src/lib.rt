//! The core of the store: the state machine over the tables, the log and what is kept beside it, and lists of steps that drive it.
//! It is seen as the world of the model, and each call that moves it is a step of the model.
#![tactic(auto)]

mod actives;
mod alone;
mod asking;
mod at_once;
mod auto_checkpoints;
mod checkpoint;
mod core_state;
mod counts;
mod deciding;
mod driving;
mod ending;
mod entering;
mod entry_checks;
mod outcomes;
mod paging;
mod performed;
mod read_checks;
mod readable;
mod reading;
mod replies;
mod resuming;
mod serial;
mod showing;
mod steps;
mod sums;
mod totals;
mod writing;

pub use auto_checkpoints::{AutoCheckpoint, SHORT_LOG};
pub use checkpoint::MAX_PLACE;
pub use core_state::Core;
pub use counts::Counts;
pub use driving::drive;
pub use outcomes::Outcome;
pub use performed::{Performed, perform_all};
pub use replies::Reply;
pub use steps::Step;
pub use writing::SingleWrite;
