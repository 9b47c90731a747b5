//! What a transaction writes and reads: its write set, its read set, the tests whether these meet, and its row in the log.
#![tactic(auto)]

mod copies;
mod entries;
mod few_writes;
mod handles;
mod inserting;
mod log_rows;
mod many_writes;
mod meets;
mod operations;
mod overlays;
mod own_writes;
mod prepared;
mod range_rows;
mod read_set_iter;
mod reads;
mod request_writes;
mod short_list;
mod write_set_iter;
mod writes;

pub use copies::PrivateCopy;
pub use entries::ObservationRef;
pub use log_rows::{LogRow, Standing};
pub use meets::{meets_reads, meets_writes};
pub use operations::{Op, check_operations};
pub use own_writes::Write;
pub use prepared::Prepared;
pub use range_rows::RangeRows;
pub use read_set_iter::ReadSetIter;
pub use reads::{Answer, Observation, ReadSet};
pub use request_writes::RequestWrites;
pub use write_set_iter::WriteSetIter;
pub use writes::WriteSet;
