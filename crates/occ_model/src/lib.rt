//! The model of the store: what it does, said in definitions that every contract of the project cites, and the laws that hold of them.
//!
//! The crate computes nothing. Its types are those that the code and the definitions share; each law is the contract of a
//! function with an empty body.
#![tactic(auto)]

pub mod ends;
pub mod examples;
pub mod laws;
pub mod ranges;
mod verdict;

pub use verdict::{Cause, Verdict};
