//! What a session hands in, and the queue in which it waits: a queue of one owner, or a lane of two ends that threads share.
#![tactic(auto)]

mod draining;
mod items;
mod lanes;
mod news;
mod numbering;
mod queues;
mod receivers;
mod rules;
mod senders;
mod session_queues;

pub use draining::drain;
pub use items::Item;
pub use lanes::{lane, lane_behind};
pub use news::News;
pub use queues::Queue;
pub use receivers::Receiver;
pub use rules::{InOrder, Knowledge};
pub use senders::Sender;
pub use session_queues::SessionQueue;
