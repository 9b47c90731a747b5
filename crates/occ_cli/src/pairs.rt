//! Keys with their rows, as a line has them.
ghost use Rattle.std.specs.Prelude.{◌≡◌, ◌++◌, OnOk, string_bytes};
ghost use Rattle.std.specs.List.{flat_map};
ghost use Rattle.occ_sets.specs.PlainSets.{rows_of};
ghost use Rattle.occ_types.specs.PlainData.{key_of};
ghost use Rattle.occ_cli.specs.Answers.{pair_text};

use occ_text::writers::{write_key, write_row};
use occ_types::{Key, Row};
use std::alloc::{AllocError, Allocator};

/// Appends keys with their rows, with this text before each.
pub(crate) fn write_pairs<A: Allocator>(
    line: &mut String<A>,
    before: &str,
    rows: &[(Key<A>, Row<A>)],
) -> Result<(), AllocError>
    ensures { OnOk result (string_bytes line.new ≡ string_bytes line.old ++ flat_map (pair_text before.now) (rows_of rows.now)) }
{
    for (key, row) in rows {
        write_pair(line, before, key, row)?;
    }
    Ok(())
}

fn write_pair<A: Allocator>(
    line: &mut String<A>,
    before: &str,
    key: &Key<A>,
    row: &Row<A>,
) -> Result<(), AllocError>
    ensures { OnOk result (string_bytes line.new ≡ string_bytes line.old ++ pair_text before.now (key_of key.now, row.now)) }
{
    line.push_str(before)?;
    write_key(line, key)?;
    line.push('=')?;
    write_row(line, row)
}
