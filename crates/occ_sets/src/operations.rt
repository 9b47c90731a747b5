//! The operations of a transaction that runs alone.
ghost use Rattle.std.specs.Prelude.{◌≡◌, [], ◌∷◌};
ghost use Rattle.std.specs.Result.{result_err};
ghost use Rattle.occ_types.specs.Schema.{first_fault, check_key};
ghost use Rattle.occ_types.specs.PlainData.{key_of};
ghost use Rattle.occ_model.specs.Operations.{Put};
ghost use Rattle.occ_model.specs.Refusal.{check_number, check_operation, check_operations};
ghost use Rattle.occ_sets.specs.Operations.{check_columns, op_of, ops_of};

use occ_types::{Fault, Key, Kind, Row, Schema};
use std::alloc::Allocator;

/// One operation of a transaction that is handed in as a list of operations, and runs alone in one step. Tables are named by their places in the schema.
///
/// Each operation sees what the earlier ones of its list have written, as if that stood in the table. A single key that the list has written isn't asked of the table any more.
#[derive(Drop)]
#[derive_where(Debug)]
pub enum Op<A: Allocator> {
    /// Answers the row of one key, or that there is none. A key that the list has written has the row that it was last given, and none where it was last deleted.
    Get {
        /// The place of the table.
        table: usize,
        /// The key.
        key: Key<A>,
    },
    /// Answers the keys and rows of a table from the lower end on and below the upper one, in the order of the keys, however many they are. Rows that the list has put are among them, and those that it has deleted are not.
    Scan {
        /// The place of the table.
        table: usize,
        /// The first key that is asked for; all keys up to the upper end where there is none.
        lower: Option<Key<A>>,
        /// The first key that is not asked for any more; all keys from the lower end on where there is none.
        upper: Option<Key<A>>,
    },
    /// Sets the row of one key, in place of an earlier write of the list. It asks nothing and answers nothing.
    Put {
        /// The place of the table.
        table: usize,
        /// The key.
        key: Key<A>,
        /// The new row.
        row: Row<A>,
    },
    /// Deletes the row of one key, in place of an earlier write of the list. It is a write also where there is no such row. It asks nothing and answers nothing.
    Delete {
        /// The place of the table.
        table: usize,
        /// The key.
        key: Key<A>,
    },
    /// Adds to the row of one key, in a table whose rows are one whole number. It reads the row as `Get` does, counts an absent one as 0, and sets the row to the sum. A sum beyond the ends of 64 bits is held at the end. It answers nothing.
    Add {
        /// The place of the table.
        table: usize,
        /// The key.
        key: Key<A>,
        /// What is added; it may be below 0.
        amount: i64,
    },
}

impl<A: Allocator> Op<A> {
    /// Whether the operation fits the schema, which takes no memory. It is refused with the first of these that holds:
    ///
    /// - `NoTable`, `WrongKind` or `TooLong` for its key, or for an end of its range;
    /// - `EmptyRange` where both ends of a range are there, and the lower one is not below the upper one;
    /// - the fault of the row that it puts: `WrongColumns`, or that of the first cell that doesn't fit;
    /// - for an addition, `WrongColumns` where the table hasn't one column, and `WrongKind` where that isn't a whole number.
    pub fn check(&self, schema: &Schema<A>) -> Result<(), Fault>
        ensures { result_err result ≡ check_operation schema.now (op_of self.now) }
    {
        match self {
            Op::Get { table, key } => schema.check_key(*table, key),
            Op::Scan {
                table,
                lower,
                upper,
            } => schema.check_range(*table, lower.as_ref(), upper.as_ref()),
            Op::Put { table, key, row } => check_put(schema, *table, key, row),
            Op::Delete { table, key } => schema.check_key(*table, key),
            Op::Add { table, key, .. } => check_add(schema, *table, key),
        }
    }
}

/// Whether each operation of a list fits the schema, which takes no memory. It is refused with the fault of the first one that doesn't, as `Op::check` has it.
pub fn check_operations<A: Allocator>(schema: &Schema<A>, operations: &[Op<A>]) -> Result<(), Fault>
    ensures { result_err result ≡ check_operations schema.now (ops_of operations.now) }
{
    for operation in operations {
        operation.check(schema)?;
    }
    Ok(())
}

// Whether a row and its key fit their table: the key first.
fn check_put<A: Allocator>(
    schema: &Schema<A>,
    table: usize,
    key: &Key<A>,
    row: &Row<A>,
) -> Result<(), Fault>
    ensures { result_err result ≡ check_operation schema.now (Put table (key_of key.now) row.now) }
{
    schema.check_key(table, key)?;
    schema.check_row(table, row)
}

// Whether a key fits its table, and then whether the table may be added to.
fn check_add<A: Allocator>(schema: &Schema<A>, table: usize, key: &Key<A>) -> Result<(), Fault>
    ensures { result_err result ≡ first_fault (check_key schema.now table (key_of key.now) ∷ check_number schema.now table ∷ []) }
{
    schema.check_key(table, key)?;
    check_number(schema, table)
}

// Whether the rows of a table are one whole number.
fn check_number<A: Allocator>(schema: &Schema<A>, table: usize) -> Result<(), Fault>
    ensures { result_err result ≡ check_number schema.now table }
{
    let Some(table) = schema.tables().get(table) else {
        return Err(Fault::NoTable);
    };
    check_columns(table.columns.as_slice())
}

// Whether the columns are one of whole numbers.
fn check_columns(columns: &[Kind]) -> Result<(), Fault>
    ensures { result_err result ≡ check_columns columns.now }
{
    if columns.len() != 1 {
        return Err(Fault::WrongColumns);
    }
    match columns[0] {
        Kind::Int => Ok(()),
        Kind::Text => Err(Fault::WrongKind),
    }
}
