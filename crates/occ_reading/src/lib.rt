//! Books that anybody printed: read whole, checked line by line, and audited.
#![tactic(auto)]

pub mod audits;
pub mod bases;
pub mod laws;
pub mod number_lines;
pub mod row_lines;
mod schema_readers;
mod single_lines;
mod transactions;
pub mod whole_books;

pub use audits::audit_text;
