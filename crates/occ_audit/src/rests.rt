//! What the open write phases of a log have still to do.
ghost use Rattle.std.specs.Prelude.{◌≡◌, IfOk, OnOk};
ghost use Rattle.std.specs.Bool.{Decides};
ghost use Rattle.occ_model.specs.State as states;
ghost use Rattle.occ_model.specs.State.{apply};
ghost use Rattle.occ_model.specs.Log.{settled, rest};
ghost use Rattle.occ_book.specs.LastWrites.{writes_in};
ghost use Rattle.occ_audit.specs.Rows.{log_of, log_row_of};

use crate::replica::Replica;
use occ_book::{LastWrites, LogRow, Standing, Tables, note_writes};
use std::alloc::{AllocError, Allocator};
use std::collections::BTreeMap;

/// The last write of each object among those that the open write phases have still to do.
pub type Rests<'a, A> = LastWrites<'a, A>;

/// The last write of each object among those that the open write phases of a log have still to do.
pub fn rests_of<'a, A: Allocator + Copy, O>(
    alloc: A,
    log: &'a [LogRow<A, O>],
) -> Result<Rests<'a, A>, AllocError>
    ensures { IfOk result (λ rests. (table : states.State) → apply table (writes_in rests.entries) ≡ settled table (log_of log.now)) }
{
    let mut rests = BTreeMap::new(alloc);
    for row in log {
        note_rest(&mut rests, row)?;
    }
    Ok(rests)
}

// Notes the rest of one row's writes.
fn note_rest<'a, A: Allocator + Copy, O>(
    rests: &mut Rests<'a, A>,
    row: &'a LogRow<A, O>,
) -> Result<(), AllocError>
    ensures { OnOk result ((table : states.State) → apply table (writes_in rests.new.entries) ≡ apply (apply table (writes_in rests.old.entries)) (rest (log_row_of row.now))) }
{
    match &row.standing {
        Standing::Writing(done) => note_writes(rests, &row.writes, *done),
        _ => Ok(()),
    }
}

// Whether the tables, with the rests done, are the replayed state. The rests are looked up there and taken back: under each of their objects it gets what the tables have.
pub(crate) fn are_settled<'a, A: Allocator + Copy>(
    tables: &'a Tables<A>,
    rests: &Rests<'a, A>,
    mut replayed: Replica<'a, A>,
) -> Result<bool, AllocError>
    ensures { IfOk result (λ yes. Decides yes (apply tables.now.state (writes_in rests.now.entries) ≡ replayed.entry)) }
{
    for (object, row) in rests {
        if replayed.row(*object) != *row {
            return Ok(false);
        }
        replayed.put(*object, tables.row(object.table, &object.key))?;
    }
    Ok(replayed.is_of(tables))
}
