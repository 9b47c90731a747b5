//! The loads through clients.
use crate::loads::{Shape, amount};
use crate::rows::TABLE;
use occ_client::{Client, End};
use occ_core::Core;
use occ_types::{Cell, Fault, Key, Row};
use std::alloc::Allocator;

/// Reads and writes in the open transaction of a client.
pub(crate) fn read_and_write<A: Allocator + Copy>(
    client: &mut Client<A>,
    core: &mut Core<A>,
    shape: Shape,
    first: u64,
) -> Result<(), Fault> {
    if shape.span > 0 {
        let (lower, upper) = (first, first.saturating_add(shape.span));
        let (lower, upper) = (Key::Num(lower), Key::Num(upper));
        let _rows = client.scan(core, TABLE, Some(&lower), Some(&upper))?;
    }
    for place in 0..shape.reads.max(shape.writes) {
        let key = shape.key(first, place);
        let before = match place < shape.reads {
            true => number_in(client.get(core, TABLE, &Key::Num(key))?),
            false => 0,
        };
        if place < shape.writes {
            let row = Row::from_cell(Cell::Int(before.saturating_add(amount(place))));
            client.put(core, TABLE, Key::Num(key), row)?;
        }
    }
    Ok(())
}

/// Ends the transaction of each client. The answer is how many committed.
pub(crate) fn commit_all<A: Allocator + Copy>(
    clients: &mut [Client<A>],
    core: &mut Core<A>,
) -> Result<u64, Fault> {
    let mut committed = 0u64;
    for client in clients.iter_mut() {
        if let End::Committed { .. } = client.commit(core)? {
            committed = committed.saturating_add(1);
        }
    }
    Ok(committed)
}

/// The number in a row, 0 where there is none.
pub(crate) fn number_in<A: Allocator>(row: Option<Row<A>>) -> i64 {
    row.as_ref().and_then(|row| row.int(0)).unwrap_or(0)
}
