//! Copies of schemas.
ghost use Rattle.std.specs.Prelude.{◌≡◌, IfOk, IsOkUnless};
ghost use Rattle.occ_types.specs.PlainData.{table_of};
ghost use Rattle.occ_types.specs.declared.fault.Fault.TheVariants.{Memory};

use occ_types::{Fault, Schema, TableDef};
use std::alloc::Allocator;

/// A copy of a schema. Refused with `Memory` alone.
pub(crate) fn copy_of<A: Allocator + Copy>(alloc: A, schema: &Schema<A>) -> Result<Schema<A>, Fault>
    ensures copy { IfOk result (λ copy. copy ≡ schema.now) }
    ensures memory { IsOkUnless result Memory }
{
    let tables = schema.tables();
    let mut copies = Vec::new(alloc);
    for table in tables {
        copies.push(copy_of_table(alloc, table)?)?;
    }
    match Schema::new(copies) {
        Ok(copy) => Ok(copy),
        // The tables of a schema are those of a schema.
        Err(_) => unreachable!(),
    }
}

// A copy of a table's definition. Refused with `Memory` alone.
fn copy_of_table<A: Allocator + Copy>(alloc: A, table: &TableDef<A>) -> Result<TableDef<A>, Fault>
    ensures copy { IfOk result (λ copy. table_of copy ≡ table_of table.now) }
    ensures memory { IsOkUnless result Memory }
{
    let name = table.name.clone()?;
    let columns = Vec::from_slice(alloc, table.columns.as_slice())?;
    Ok(TableDef {
        name,
        key: table.key,
        columns,
    })
}
