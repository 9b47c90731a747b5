//! The table of a load, its rows at first, and its transactions as operations.
use crate::loads::{Shape, amount};
use occ_sets::Op;
use occ_types::{Cell, Fault, Key, KeyKind, Kind, Row, Schema};
use std::alloc::Allocator;

/// The place of the one table.
pub(crate) const TABLE: usize = 0;
/// How many rows are put by one transaction at first.
pub(crate) const PUTS: u64 = 256;

/// The one table, of rows of one number under number keys.
pub(crate) fn schema<A: Allocator + Copy>(alloc: A) -> Result<Schema<A>, Fault> {
    Schema::of(alloc, &[("t", KeyKind::Num, &[Kind::Int])])
}

/// Puts of rows of 0, from one key on and below another.
pub(crate) fn puts<A: Allocator + Copy>(
    alloc: A,
    first: u64,
    behind: u64,
) -> Result<Vec<Op<A>, A>, Fault> {
    let mut puts = Vec::new(alloc);
    for key in first..behind {
        puts.push(Op::Put {
            table: TABLE,
            key: Key::Num(key),
            row: Row::from_cell(Cell::Int(0)),
        })?;
    }
    Ok(puts)
}

/// A put of a number under a key, or the deletion of its row.
pub(crate) fn write<A: Allocator + Copy>(
    alloc: A,
    key: u64,
    number: Option<i64>,
) -> Result<Vec<Op<A>, A>, Fault> {
    let (table, key) = (TABLE, Key::Num(key));
    let mut list = Vec::new(alloc);
    match number {
        Some(number) => list.push(Op::Put {
            table,
            key,
            row: number.into(),
        })?,
        None => list.push(Op::Delete { table, key })?,
    }
    Ok(list)
}

/// The operations of a transaction that begins at a key. What is written is added, which reads it as well.
pub(crate) fn operations<A: Allocator + Copy>(
    alloc: A,
    shape: &Shape,
    first: u64,
) -> Result<Vec<Op<A>, A>, Fault> {
    let mut operations = Vec::new(alloc);
    if shape.span > 0 {
        operations.push(Op::Scan {
            table: TABLE,
            lower: Some(Key::Num(first)),
            upper: Some(Key::Num(first.saturating_add(shape.span))),
        })?;
    }
    for place in 0..shape.reads.max(shape.writes) {
        let key = Key::Num(shape.key(first, place));
        operations.push(operation(shape, place, key))?;
    }
    Ok(operations)
}

// The operation at a place of a transaction.
fn operation<A: Allocator>(shape: &Shape, place: u64, key: Key<A>) -> Op<A> {
    if place < shape.writes {
        Op::Add {
            table: TABLE,
            key,
            amount: amount(place),
        }
    } else {
        Op::Get { table: TABLE, key }
    }
}
