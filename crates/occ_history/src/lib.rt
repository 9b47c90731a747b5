//! One history of a store for all threads: its events in the order in which they happened, each with what it replied.
//!
//! The story stands behind the lock and knows the whole history. Each client and each lane has a front, which has no bytes: it has seen
//! a beginning of the history, with all events of its own. What a call answers stands in the history as an event. Events and replies
//! are the model's, and exist in proofs alone.
#![tactic(auto)]

mod entries;
mod fronts;
pub mod laws;
mod names;
mod rule;
mod stories;

pub use entries::Entry;
pub use fronts::Front;
pub use names::StoryName;
pub use rule::{Known, StoryRule};
pub use stories::{BlankStory, Story};
