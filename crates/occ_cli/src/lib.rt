//! The engines of the store: a schedule goes in; answers, the book and an audit come out.
#![tactic(auto)]

pub mod answers;
mod clients;
pub mod laws;
mod operations;
mod pairs;
mod refusals;
pub mod replay_steps;
mod table_names;
mod text_replay;
mod tokens;

pub use occ_audit::audit_rows;
pub use occ_reading::audit_text;
pub use occ_text::trouble::{Trouble, status_of};
pub use text_replay::replay_text;
