//! The tables of a small store.
use occ_types::{Fault, KeyKind, Kind, Schema};
use std::alloc::Global;

/// One table of numbers.
pub(crate) fn schema(alloc: Global) -> Result<Schema<Global>, Fault> {
    let columns: &[Kind] = &[Kind::Int];
    Schema::of(alloc, &[("t", KeyKind::Num, columns)])
}
