//! Sums of whole numbers, and the rows that hold one.
ghost use Rattle.std.specs.Prelude.{◌≡◌, [], ◌∷◌};
ghost use Rattle.std.specs.Option.{option_copied};
ghost use Rattle.occ_types.specs.Row.{Int};
ghost use Rattle.occ_model.specs.Operations.{held_sum, number_in};
ghost use Rattle.occ_model.specs.State.{Found};

use occ_types::{Cell, Row};
use std::alloc::Allocator;

// The sum of two numbers, held at the ends of 64 bits.
pub(crate) fn held_sum(number: i64, amount: i64) -> i64
    ensures { result ≡ held_sum number amount }
{
    number.saturating_add(amount)
}

// The whole number in a row of one cell, and 0 where there is no row.
pub(crate) fn number_in<A: Allocator>(row: Option<&Row<A>>) -> i64
    ensures { result ≡ number_in (Found (option_copied row.entry)) }
{
    let Some(row) = row else {
        return 0;
    };
    match (row.int(0), row.len()) {
        (Some(number), 1) => number,
        _ => 0,
    }
}

// A row of one number.
pub(crate) fn row_of<A: Allocator>(number: i64) -> Row<A>
    ensures { result ≡ Int number ∷ [] }
{
    Row::from_cell(Cell::Int(number))
}
