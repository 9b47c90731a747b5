//! The types of the table store: kinds, cells, keys and their one total order, rows, schema and its checks, questions, faults and limits.
#![tactic(auto)]

mod cells;
mod fault;
mod key_parts;
mod keys;
mod kind;
pub mod laws;
pub mod limits;
mod objects;
mod pairs;
mod prefixes;
mod questions;
mod rows;
mod schemas;
pub mod spelling;
mod tables;
mod texts;

pub use cells::{Cell, CellRef};
pub use fault::{Fault, Refused};
pub use key_parts::KeyPart;
pub use keys::Key;
pub use kind::{KeyKind, Kind, PartKind};
pub use objects::Object;
pub use pairs::Pair;
pub use prefixes::Prefix;
pub use questions::Question;
pub use rows::Row;
pub use schemas::Schema;
pub use tables::TableDef;
pub use texts::Text;
