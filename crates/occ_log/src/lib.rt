//! The decision log, and what a core keeps beside it: the row that each session holds, the read phases and the window of write sets.
//! Each part is seen as plain data of the model.
#![tactic(auto)]

mod listing;
mod log;
mod phases;
mod session_phases;
mod sessions;
mod window;

pub use log::Log;
pub use phases::{ReadPhases, Transaction};
pub use session_phases::Phase;
pub use sessions::{Held, SessionState, Sessions};
pub use window::Window;
