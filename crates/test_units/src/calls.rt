//! The calls of a client that tests make, each in a function without clauses: who calls that proves nothing of a store.
use occ_client::{Client, Core, End, Page};
use occ_types::{Fault, Key};
use std::alloc::Global;

/// The two ends of a range.
pub(crate) type Ends<'k> = (Option<&'k Key<Global>>, Option<&'k Key<Global>>);

/// Makes a checkpoint where one is due, and opens a transaction. While another row is open no checkpoint is made.
pub(crate) fn begin(client: &mut Client<Global>, core: &mut Core<Global>) -> Result<(), Fault> {
    match client.checkpoint_if_due(core) {
        Some(Err(fault)) if fault != Fault::StoreBusy => Err(fault),
        _ => client.begin(core),
    }
}

/// Ends the open transaction. Whether it committed.
pub(crate) fn commit(client: &mut Client<Global>, core: &mut Core<Global>) -> Result<bool, Fault> {
    let end = client.commit(core)?;
    Ok(matches!(end, End::Committed { .. }))
}

/// Gives the open transaction up.
pub(crate) fn abandon(client: &mut Client<Global>, core: &mut Core<Global>) -> Result<(), Fault> {
    let _known = client.abandon(core)?;
    Ok(())
}

/// Puts the row of a number under a key, or deletes it where there is no number.
pub(crate) fn write(
    client: &mut Client<Global>,
    core: &Core<Global>,
    table: usize,
    key: Key<Global>,
    row: Option<i64>,
) -> Result<(), Fault> {
    match row {
        Some(number) => client.put(core, table, key, number.into())?,
        None => client.delete(core, table, key)?,
    }
    Ok(())
}

/// The number in the row under a key, where there is one.
pub(crate) fn get(
    client: &mut Client<Global>,
    core: &mut Core<Global>,
    table: usize,
    key: &Key<Global>,
) -> Result<Option<i64>, Fault> {
    let row = client.get(core, table, key)?;
    Ok(row.as_ref().and_then(|row| row.int(0)))
}

/// The rows of a range, copied, as a page without a rest.
pub(crate) fn scan(
    client: &mut Client<Global>,
    core: &mut Core<Global>,
    table: usize,
    (lower, upper): Ends<'_>,
) -> Result<Page<Global>, Fault> {
    let rows = client.scan(core, table, lower, upper)?;
    Ok(Page {
        rows: rows.to_vec()?,
        rest: None,
    })
}

/// The first page of a range, or its last one.
pub(crate) fn page(
    client: &mut Client<Global>,
    core: &mut Core<Global>,
    last: bool,
    table: usize,
    (lower, upper): Ends<'_>,
    most: usize,
) -> Result<Page<Global>, Fault> {
    if last {
        client.scan_last(core, table, lower, upper, most)
    } else {
        client.scan_first(core, table, lower, upper, most)
    }
}
