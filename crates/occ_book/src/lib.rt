//! What a book has: what was folded out of the log, the rows that stand in it, the tables, the closing marks and the counters.
#![tactic(auto)]

mod base;
mod books;
mod folded_writes;
mod kept_rows;
mod key_refs;
mod lasts;
mod loading;
mod maps;
mod marks;
mod paging;
mod ranges;
mod rows_between;
mod table;
mod table_rows;
mod tables;
mod writes;

pub use base::Base;
pub use books::{Book, BookView};
pub use folded_writes::FoldedWrites;
pub use key_refs::KeyRef;
pub use lasts::{LastWrites, note_writes};
pub use loading::Loading;
pub use marks::Marks;
pub use occ_sets::{LogRow, Standing};
pub use paging::PageCut;
pub use table::Table;
pub use table_rows::TableRows;
pub use tables::Tables;
