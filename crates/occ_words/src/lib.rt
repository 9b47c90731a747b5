//! What is wrong with a schedule or a book, in words.
//!
//! Findings are data, and other libraries make them by contract (`occ_audit`). This one words them: a *saying* is one finding or one note as a sentence, with the numbers that it speaks of beside it, so that it can be printed as a line or as an object of JSON. Sentences are tested and not proved.
//!
//! It stands at the edge, beside the command line and the writer of JSON, which take the global allocator alone; so does it.
#![tactic(auto)]

mod book_findings;
mod book_lines;
mod book_writers;
pub mod explaining;
pub mod fault_words;
mod line_forms;
mod line_walk;
pub mod malformed_lines;
pub mod meetings;
mod notes;
mod phrases;
pub mod run_summaries;
pub mod sayings;
pub mod schedule_steps;
mod shell_answers;
mod shell_headers;
mod shell_lines;
pub mod shells;
mod slips;
pub mod step_words;
pub mod telling;
mod token_readers;
mod wrong_tokens;
mod wrong_words;
