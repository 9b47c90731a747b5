//! The tables that a workload's operations name.

ghost use Rattle.std.specs.Prelude.{◌≡◌, map, IfOk};
ghost use Rattle.occ_sets.specs.Operations.{op_of, ops_of};
ghost use Rattle.occ_text.specs.Operations.{operation_of};
ghost use Rattle.occ_run.specs.Plans as plain;
ghost use Rattle.occ_run.specs.Plans.{planned, transaction_of, plan_of};

use crate::transaction_lines::Transaction;
use crate::workloads::Plan;
use occ_sets::Op;
use occ_text::operations::Operation;
use occ_types::Schema;
use std::alloc::{AllocError, Allocator};

/// The transaction with the places of the tables that it names.
pub(crate) fn planned<A: Allocator + Copy>(
    alloc: A,
    schema: &Schema<A>,
    transaction: Transaction<'_, A>,
) -> Result<Plan<A>, AllocError>
    ensures { IfOk result (λ plan. plan_of plan ≡ planned schema.now (transaction_of transaction.entry)) }
{
    let Transaction {
        session,
        operations,
    } = transaction;
    let operations = operations_named(alloc, schema, operations)?;
    Ok(Plan {
        session,
        operations,
    })
}

// The operations, with the places of their tables.
fn operations_named<A: Allocator + Copy>(
    alloc: A,
    schema: &Schema<A>,
    operations: Vec<Operation<'_, A>, A>,
) -> Result<Vec<Op<A>, A>, AllocError>
    ensures { IfOk result (λ list. ops_of list.items ≡ map (plain.operation_named schema.now) (map operation_of operations.entry.items)) }
{
    let mut list = Vec::with_capacity(alloc, operations.len())?;
    for operation in operations {
        list.push(operation_named(schema, operation))?;
    }
    Ok(list)
}

// An operation, with the place of the table that it names.
fn operation_named<A: Allocator>(schema: &Schema<A>, operation: Operation<'_, A>) -> Op<A>
    ensures { op_of result ≡ plain.operation_named schema.now (operation_of operation.entry) }
{
    match operation {
        Operation::Get { table, key } => Op::Get {
            table: place_named(schema, table),
            key,
        },
        Operation::Scan {
            table,
            lower,
            upper,
        } => Op::Scan {
            table: place_named(schema, table),
            lower,
            upper,
        },
        Operation::Put { table, key, row } => Op::Put {
            table: place_named(schema, table),
            key,
            row,
        },
        Operation::Delete { table, key } => Op::Delete {
            table: place_named(schema, table),
            key,
        },
        Operation::Add { table, key, amount } => Op::Add {
            table: place_named(schema, table),
            key,
            amount,
        },
    }
}

// The place of the table with this name, or the one behind the last table where none has it.
fn place_named<A: Allocator>(schema: &Schema<A>, table: &str) -> usize
    ensures { result ≡ plain.place_named schema.now table.now }
{
    match schema.place(table) {
        None => schema.tables().len(),
        Some(place) => place,
    }
}
