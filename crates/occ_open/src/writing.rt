//! Writes of an open transaction.
ghost use Rattle.std.specs.Prelude.{◌≡◌, None, cond, false, IfErr, OnOk, OnErr, MatchResult};
ghost use Rattle.std.specs.Option.{option_copied};
ghost use Rattle.std.specs.Result.{result_err};
ghost use Rattle.occ_types.specs.PlainData.{object_of};
ghost use Rattle.occ_types.specs.declared.fault.Fault.TheVariants.{SetFull, Memory};
ghost use Rattle.occ_model.specs.Overlay.{set, own};
ghost use Rattle.occ_sets.specs.Sets.{is_full_for};
ghost use Rattle.occ_open.specs.Transactions.{IsRefusedBy, check_written, copy_fault};

use occ_sets::{PrivateCopy, Write};
use occ_types::limits::MAX_WRITES;
use occ_types::{Fault, Object, Refused, Row, Schema};
use std::alloc::Allocator;

/// Writes an object to a private copy, or deletes it where `row` is none.
pub(crate) fn write_copy<A: Allocator + Copy>(
    copy: &mut PrivateCopy<A>,
    schema: &Schema<A>,
    object: Object<A>,
    row: Option<Row<A>>,
) -> Result<(), Refused<Write<A>>>
    ensures ok { OnOk result (copy.new ≡ record copy.old { writes = set copy.old.writes (object_of object) row }) }
    ensures err { OnErr result (copy.new ≡ copy.old) }
    ensures handed_back { IfErr result (λ refused. refused.value ≡ (object, row)) }
    ensures fault { MatchResult result
        (λ _. copy_fault schema.now (object_of object) row copy.old ≡ None)
        (λ refused. IsRefusedBy (copy_fault schema.now (object_of object) row copy.old) (own copy.old.writes (object_of object) ≡ None) refused.fault) }
{
    match check_write(copy, schema, &object, row.as_ref()) {
        Err(fault) => Err(Refused {
            value: (object, row),
            fault,
        }),
        Ok(()) => put_or_delete(copy, object, row),
    }
}

// Whether a write fits the schema and the copy.
fn check_write<A: Allocator>(
    copy: &PrivateCopy<A>,
    schema: &Schema<A>,
    object: &Object<A>,
    row: Option<&Row<A>>,
) -> Result<(), Fault>
    ensures { result_err result ≡ copy_fault schema.now (object_of object.now) (option_copied row.entry) copy.now }
{
    schema.check_key(object.table, &object.key)?;
    check_row(schema, object.table, row)?;
    if copy.len() >= MAX_WRITES && copy.own(object).is_none() {
        return Err(Fault::SetFull);
    }
    Ok(())
}

// Whether the row of a write fits, where it has one.
fn check_row<A: Allocator>(
    schema: &Schema<A>,
    table: usize,
    row: Option<&Row<A>>,
) -> Result<(), Fault>
    ensures { result_err result ≡ check_written schema.now table (option_copied row.entry) }
{
    match row {
        None => Ok(()),
        Some(row) => schema.check_row(table, row),
    }
}

// Puts or deletes the row of an object in a private copy.
fn put_or_delete<A: Allocator + Copy>(
    copy: &mut PrivateCopy<A>,
    object: Object<A>,
    row: Option<Row<A>>,
) -> Result<(), Refused<Write<A>>>
    ensures ok { OnOk result (copy.new ≡ record copy.old { writes = set copy.old.writes (object_of object) row }) }
    ensures err { OnErr result (copy.new ≡ copy.old) }
    ensures handed_back { IfErr result (λ refused. refused.value ≡ (object, row)) }
    ensures fault { MatchResult result
        (λ _. is_full_for copy.old.writes (object_of object) ≡ false)
        (λ refused. refused.fault ≡ cond (is_full_for copy.old.writes (object_of object)) SetFull Memory) }
    ensures only_new { OnErr result (own copy.old.writes (object_of object) ≡ None) }
{
    let Object { table, key } = object;
    match row {
        Some(row) => copy.put(table, key, row),
        None => copy.delete(table, key),
    }
}
