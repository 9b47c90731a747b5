//! On what a row and its opponent met.

use occ_book::LogRow;
use occ_sets::{ObservationRef, ReadSet, WriteSet};
use occ_types::Object;
use std::alloc::Allocator;

/// What a row did with an object that an opponent writes.
#[derive(Clone, Copy)]
pub(crate) enum How {
    /// It read a range that the object is in.
    Range,
    /// It read the object.
    Read,
    /// It writes the object too.
    Write,
}

/// The first object on which a row and an opponent of it met: one that the row read, or else one that it writes too.
pub(crate) fn object_met<'a, A: Allocator, O>(
    at: &'a LogRow<A, O>,
    other: &'a LogRow<A, O>,
) -> Option<&'a Object<A>> {
    match read_met(&at.reads, &other.writes) {
        Some(seen) => object_asked(&other.writes, seen),
        None => object_in_both(&at.writes, &other.writes),
    }
}

/// What a row did with the first object on which it met an opponent.
pub(crate) fn how_met<A: Allocator>(reads: &ReadSet<A>, writes: &WriteSet<A>) -> How {
    match read_met(reads, writes) {
        Some(ObservationRef::Key(_, _)) => How::Read,
        Some(ObservationRef::Whole(_)) => How::Range,
        None => How::Write,
    }
}

// The first read whose question asks for something that another row writes.
fn read_met<'a, A: Allocator>(
    reads: &'a ReadSet<A>,
    writes: &WriteSet<A>,
) -> Option<ObservationRef<'a, A>> {
    for seen in reads.iter() {
        if writes.meets_observation(&seen) {
            return Some(seen);
        }
    }
    None
}

// The first object of a write set that the question of a read asks for.
fn object_asked<'a, A: Allocator>(
    writes: &'a WriteSet<A>,
    seen: ObservationRef<'_, A>,
) -> Option<&'a Object<A>> {
    for place in 0..writes.len() {
        if let Some((object, _)) = writes.write_at(place) {
            if seen.asks(object.table, &object.key) {
                return Some(object);
            }
        }
    }
    None
}

// The first object of a write set that another one has too.
fn object_in_both<'a, A: Allocator>(
    own: &'a WriteSet<A>,
    writes: &WriteSet<A>,
) -> Option<&'a Object<A>> {
    for place in 0..own.len() {
        if let Some((object, _)) = own.write_at(place) {
            if writes.writes(object) {
                return Some(object);
            }
        }
    }
    None
}
