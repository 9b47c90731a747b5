//! The texts of the store: lines, tokens, values, headers and steps, and what can go wrong with them.
#![tactic(auto)]

pub mod cursors;
pub mod faults;
pub mod headers;
pub mod input;
mod kinds;
pub mod laws;
pub mod operation_reading;
pub mod operations;
pub mod output;
pub mod separated_parts;
mod step_forms;
pub mod step_reading;
mod step_words;
pub mod steps;
pub mod texts;
pub mod tokens;
pub mod trouble;
pub mod versions;
pub mod writers;
