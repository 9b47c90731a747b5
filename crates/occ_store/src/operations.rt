//! A list of operations as the body of a transaction.
ghost use Rattle.std.specs.Prelude.{◌≡◌, [], ◌∷◌, None, Some, Ok, Err, IfOk, IsOkUnless, MatchResult};
ghost use Rattle.occ_types.specs.declared.fault.Fault.TheVariants.{Memory};
ghost use Rattle.occ_types.specs.PlainData.{key_of, end_of};
ghost use Rattle.occ_types.specs.Question.{One, Span};
ghost use Rattle.occ_types.specs.Row.{Int};
ghost use Rattle.occ_model.specs.Operations.{Add, number_in, held_sum};
ghost use Rattle.occ_model.specs.State.{Found, Rows};
ghost use Rattle.occ_sets.specs.Operations.{op_of, ops_of};
ghost use Rattle.occ_store.specs.Bodies.{Asked, Written, PerformingOne, Performing};

use crate::names::Name;
use crate::stores::Store;
use crate::transactions::{Body, Transaction};
use occ_sets::{Op, RangeRows};
use occ_types::{Fault, Key, Row};
use std::alloc::{AllocError, Allocator};
use std::sync::Wait;

/// The body that performs a list of operations, one after another, and drops what they read. A run performs all of them, or ends at the
/// first that is refused, with its fault (`Performing`).
#[derive(Drop)]
pub struct Operations<'o, A: Allocator + Copy> {
    /// What it performs, the first one first.
    pub list: &'o [Op<A>],
}

impl<A: Allocator + Copy> Operations<'_, A> {
    /// Copies of them. Refused with `Memory` where there is none for them.
    pub fn to_vec(&self, alloc: A) -> Result<Vec<Op<A>, A>, Fault>
        ensures same { IfOk result (λ copies. ops_of copies.items ≡ ops_of self.now.list.now) }
        ensures memory { IsOkUnless result Memory }
    {
        copied(alloc, self.list)
    }
}

impl<N: Name, A: Allocator + Copy, R: Wait> Body<N, A, R> for Operations<'_, A> {
    type Value = ();

    type Error = Fault;

    ghost makes = { λ body. Performing N.named (ops_of body.list.now) };

    fn run(
        &mut self,
        rt: &R,
        store: &Store<N, A>,
        work: &mut Transaction<N, A>,
    ) -> Result<(), Fault> {
        perform_all(rt, store, work, self.list)
    }
}

// Performs operations, one after another.
fn perform_all<N: Name, A: Allocator + Copy, R: Wait>(
    rt: &R,
    store: &Store<N, A>,
    transaction: &mut Transaction<N, A>,
    operations: &[Op<A>],
) -> Result<(), Fault>
    ensures { Performing N.named (ops_of operations.now) transaction.old result transaction.new }
{
    for operation in operations {
        perform(rt, store, transaction, operation)?;
    }
    Ok(())
}

// Performs one operation.
fn perform<N: Name, A: Allocator + Copy, R: Wait>(
    rt: &R,
    store: &Store<N, A>,
    transaction: &mut Transaction<N, A>,
    operation: &Op<A>,
) -> Result<(), Fault>
    ensures { PerformingOne N.named (op_of operation.now) transaction.old result transaction.new }
{
    match operation {
        Op::Get { table, key } => dropped(get(rt, store, transaction, *table, key)),
        Op::Scan {
            table,
            lower,
            upper,
        } => dropped(scan(rt, store, transaction, *table, lower, upper)),
        Op::Put { table, key, row } => put(transaction, *table, key, row),
        Op::Delete { table, key } => delete(transaction, *table, key),
        Op::Add { table, key, amount } => add(rt, store, transaction, *table, key, amount),
    }
}

// What a question came to whose answer is dropped.
fn dropped<T: Drop>(answer: Result<T, Fault>) -> Result<(), Fault>
    ensures { MatchResult answer (λ _. result ≡ Ok tt) (λ fault. result ≡ Err fault) }
{
    match answer {
        Ok(_told) => Ok(()),
        Err(fault) => Err(fault),
    }
}

// The row under a key.
fn get<N: Name, A: Allocator + Copy, R: Wait>(
    rt: &R,
    store: &Store<N, A>,
    transaction: &mut Transaction<N, A>,
    table: usize,
    key: &Key<A>,
) -> Result<Option<Row<A>>, Fault>
    ensures { Asked Found N.named transaction.old (One table (key_of key.now)) result transaction.new }
{
    transaction.get(rt, store, table, key)
}

// The rows of a range.
fn scan<N: Name, A: Allocator + Copy, R: Wait>(
    rt: &R,
    store: &Store<N, A>,
    transaction: &mut Transaction<N, A>,
    table: usize,
    lower: &Option<Key<A>>,
    upper: &Option<Key<A>>,
) -> Result<RangeRows<A>, Fault>
    ensures { Asked Rows N.named transaction.old (Span table (end_of lower.now) (end_of upper.now)) result transaction.new }
{
    transaction.scan(rt, store, table, lower.as_ref(), upper.as_ref())
}

// Writes a copy of a row under a copy of a key.
fn put<N: Name, A: Allocator + Copy>(
    transaction: &mut Transaction<N, A>,
    table: usize,
    key: &Key<A>,
    row: &Row<A>,
) -> Result<(), Fault>
    ensures { Written N.named transaction.old (table, key_of key.now) (Some row.now) result transaction.new }
{
    let row = row.clone()?;
    write(transaction, table, key, row)
}

// Writes a row under a copy of a key.
fn write<N: Name, A: Allocator + Copy>(
    transaction: &mut Transaction<N, A>,
    table: usize,
    key: &Key<A>,
    row: Row<A>,
) -> Result<(), Fault>
    ensures { Written N.named transaction.old (table, key_of key.now) (Some row) result transaction.new }
{
    let key = key.clone()?;
    match transaction.put(table, key, row) {
        Ok(()) => Ok(()),
        Err(refused) => Err(refused.fault),
    }
}

// Deletes the row under a copy of a key.
fn delete<N: Name, A: Allocator + Copy>(
    transaction: &mut Transaction<N, A>,
    table: usize,
    key: &Key<A>,
) -> Result<(), Fault>
    ensures { Written N.named transaction.old (table, key_of key.now) None result transaction.new }
{
    let key = key.clone()?;
    match transaction.delete(table, key) {
        Ok(()) => Ok(()),
        Err(refused) => Err(refused.fault),
    }
}

// Adds to the number in the row under a key. A sum beyond the ends of 64 bits is held at the end.
fn add<N: Name, A: Allocator + Copy, R: Wait>(
    rt: &R,
    store: &Store<N, A>,
    transaction: &mut Transaction<N, A>,
    table: usize,
    key: &Key<A>,
    amount: &i64,
) -> Result<(), Fault>
    ensures { PerformingOne N.named (Add table (key_of key.now) amount.now) transaction.old result transaction.new }
{
    let row = get(rt, store, transaction, table, key)?;
    let sum = added(&row, amount);
    write(transaction, table, key, sum)
}

// The row of the number in a row with an amount added, held at the ends of 64 bits.
fn added<A: Allocator + Copy>(row: &Option<Row<A>>, amount: &i64) -> Row<A>
    ensures { result ≡ Int (held_sum (number_in (Found row.now)) amount.now) ∷ [] }
{
    Row::from(number_in(row).saturating_add(*amount))
}

// The whole number in a row of one cell, and 0 where there is no row.
fn number_in<A: Allocator + Copy>(row: &Option<Row<A>>) -> i64
    ensures { result ≡ number_in (Found row.now) }
{
    let Some(row) = row else {
        return 0;
    };
    match (row.int(0), row.len()) {
        (Some(number), 1) => number,
        _ => 0,
    }
}

/// Copies of some operations. Refused with `Memory` where there is none for them.
pub(crate) fn copied<A: Allocator + Copy>(
    alloc: A,
    operations: &[Op<A>],
) -> Result<Vec<Op<A>, A>, Fault>
    ensures same { IfOk result (λ copies. ops_of copies.items ≡ ops_of operations.now) }
    ensures memory { IsOkUnless result Memory }
{
    let mut copies = Vec::with_capacity(alloc, operations.len())?;
    for operation in operations {
        copies.push(copied_operation(operation)?)?;
    }
    Ok(copies)
}

// A copy of an operation.
fn copied_operation<A: Allocator + Copy>(operation: &Op<A>) -> Result<Op<A>, AllocError>
    ensures { IfOk result (λ copy. op_of copy ≡ op_of operation.now) }
{
    match operation {
        Op::Get { table, key } => Ok(Op::Get {
            table: *table,
            key: key.clone()?,
        }),
        Op::Scan {
            table,
            lower,
            upper,
        } => Ok(Op::Scan {
            table: *table,
            lower: copied_end(lower)?,
            upper: copied_end(upper)?,
        }),
        Op::Put { table, key, row } => Ok(Op::Put {
            table: *table,
            key: key.clone()?,
            row: row.clone()?,
        }),
        Op::Delete { table, key } => Ok(Op::Delete {
            table: *table,
            key: key.clone()?,
        }),
        Op::Add { table, key, amount } => Ok(Op::Add {
            table: *table,
            key: key.clone()?,
            amount: *amount,
        }),
    }
}

// A copy of an end of a range.
fn copied_end<A: Allocator + Copy>(end: &Option<Key<A>>) -> Result<Option<Key<A>>, AllocError>
    ensures { IfOk result (λ copy. end_of copy ≡ end_of end.now) }
{
    match end {
        None => Ok(None),
        Some(key) => Ok(Some(key.clone()?)),
    }
}
