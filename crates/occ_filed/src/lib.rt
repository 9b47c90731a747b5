//! A core with the file of its cases, so that verdicts can be reached outside the lock that the core stands behind. It is seen as the
//! core's world, the file, and what shows the case of each session's last entry.
#![tactic(auto)]

mod deciding;
mod entering;
mod filed_core;
mod moving;
mod tokens;

pub use entering::FiledOutcome;
pub use filed_core::FiledCore;
