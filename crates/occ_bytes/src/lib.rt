//! Keys and rows as bytes: a number is its 8 bytes, the low one first, a text its length as such a number and then its bytes, a key its parts
//! in order, and a row its cells.
#![tactic(auto)]

mod reading;
mod writing;

pub use reading::{Unread, read_int, read_key, read_row};
pub use writing::{key_size, put_bytes, put_key, put_row, row_size};
