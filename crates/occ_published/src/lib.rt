//! What keeps a store shown on its board: the publisher stores words after each step that ends a transaction, and every session's word
//! shows its poll again.
//!
//! The crate computes nothing. A type that owns a core and its publisher has `Published` as its invariant, and each of its calls rests
//! on one of the laws.
#![tactic(auto)]

pub mod laws;
