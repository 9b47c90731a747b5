//! The book of a store as a text: the definitions of its lines, and their printing.
#![tactic(auto)]

pub mod books;
pub mod ends;
mod header_printing;
pub mod lines;
mod log_printing;
pub mod sections;
mod state_printing;

pub use ends::{BookFault, write_readable_book};
pub use sections::Section;
