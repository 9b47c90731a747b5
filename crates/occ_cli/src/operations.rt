//! The operations that a step names.
ghost use Rattle.std.specs.Prelude.{◌≡◌, ◌≤◌, [], None, map, length, vec_capacity, MatchResult};
ghost use Rattle.std.specs.Result.{result_err};
ghost use Rattle.occ_model.specs.Refusal.{check_operation, check_operations as checked};
ghost use Rattle.occ_sets.specs.Operations.{op_of, ops_of};
ghost use Rattle.occ_text.specs.Operations.{operation_of};
ghost use Rattle.occ_cli.specs.Replaying as plain;

use crate::table_names::place_named;
use occ_sets::{Op, check_operations};
use occ_text::operations::Operation;
use occ_types::{Fault, Schema};
use std::alloc::Allocator;

/// The operations, with the places of the tables that they name, where each of them fits the schema. Refused with the fault of the
/// first one that doesn't fit, and then with `Memory` where there is no room for the list.
pub(crate) fn operations_named<A: Allocator + Copy>(
    alloc: A,
    schema: &Schema<A>,
    operations: Vec<Operation<'_, A>, A>,
) -> Result<Vec<Op<A>, A>, Fault>
    ensures { MatchResult result
        (λ list. (ops_of list.items ≡ plain.operations_named schema.now (map operation_of operations.entry.items)) × (checked schema.now (ops_of list.items) ≡ None))
        (plain.IsUnlisted schema.now (plain.operations_named schema.now (map operation_of operations.entry.items))) }
{
    let Ok(room) = Vec::with_capacity(alloc, operations.len()) else {
        check_named(schema, operations)?;
        return Err(Fault::Memory);
    };
    let list = named_into(room, schema, operations);
    check_operations(schema, list.as_slice())?;
    Ok(list)
}

// The operations with the places of their tables, in a list that has room for them.
fn named_into<A: Allocator>(
    mut room: Vec<Op<A>, A>,
    schema: &Schema<A>,
    operations: Vec<Operation<'_, A>, A>,
) -> Vec<Op<A>, A>
    requires empty { room.items ≡ [] }
    requires room { length operations.items ≤ vec_capacity room }
    ensures { ops_of result.items ≡ plain.operations_named schema.now (map operation_of operations.entry.items) }
{
    for operation in operations {
        room.push_reserved(operation_named(schema, operation));
    }
    room
}

// Whether each operation fits the schema. Refused with the fault of the first one that doesn't.
fn check_named<A: Allocator>(
    schema: &Schema<A>,
    operations: Vec<Operation<'_, A>, A>,
) -> Result<(), Fault>
    ensures { result_err result ≡ checked schema.now (plain.operations_named schema.now (map operation_of operations.entry.items)) }
{
    for operation in operations {
        check_one(schema, operation)?;
    }
    Ok(())
}

// Whether an operation fits the schema.
fn check_one<A: Allocator>(schema: &Schema<A>, operation: Operation<'_, A>) -> Result<(), Fault>
    ensures { result_err result ≡ check_operation schema.now (plain.operation_named schema.now (operation_of operation.entry)) }
{
    operation_named(schema, operation).check(schema)
}

// An operation, with the place of the table that it names.
fn operation_named<A: Allocator>(schema: &Schema<A>, operation: Operation<'_, A>) -> Op<A>
    ensures { op_of result ≡ plain.operation_named schema.now (operation_of operation.entry) }
{
    match operation {
        Operation::Get { table, key } => Op::Get {
            table: place_named(schema, table),
            key,
        },
        Operation::Scan {
            table,
            lower,
            upper,
        } => Op::Scan {
            table: place_named(schema, table),
            lower,
            upper,
        },
        Operation::Put { table, key, row } => Op::Put {
            table: place_named(schema, table),
            key,
            row,
        },
        Operation::Delete { table, key } => Op::Delete {
            table: place_named(schema, table),
            key,
        },
        Operation::Add { table, key, amount } => Op::Add {
            table: place_named(schema, table),
            key,
            amount,
        },
    }
}
