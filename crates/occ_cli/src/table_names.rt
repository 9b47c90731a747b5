//! What a step names: a table by its name.
ghost use Rattle.std.specs.Prelude.{◌≡◌};
ghost use Rattle.occ_cli.specs.Replaying.{place_named};

use occ_types::Schema;
use std::alloc::Allocator;

/// The place of the table with this name, or the one behind the last table where none has it.
pub(crate) fn place_named<A: Allocator>(schema: &Schema<A>, table: &str) -> usize
    ensures { result ≡ place_named schema.now table.now }
{
    match schema.place(table) {
        None => schema.tables().len(),
        Some(place) => place,
    }
}
