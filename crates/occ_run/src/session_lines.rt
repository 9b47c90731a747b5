//! The lines that tell what became of a session. Each writer leaves one line, without its line feed, in place of what stood there.

ghost use Rattle.std.specs.Prelude.{◌≡◌, ℕ, OnOk, string_bytes};
ghost use Rattle.occ_model.specs.Log.{Case};
ghost use Rattle.occ_sets.specs.LogRows.{log_row_of};
ghost use Rattle.occ_run.specs.Reports.{session_line, standing_line, mark_line};

use occ_book::LogRow;
use occ_print::lines::write_standing;
use std::alloc::{AllocError, Allocator};

/// `session S rows R refused Q`.
pub(crate) fn session_line<A: Allocator>(
    line: &mut String<A>,
    session: usize,
    rows: usize,
    refused: u64,
) -> Result<(), AllocError>
    ensures { OnOk result (string_bytes line.new ≡ session_line session rows refused) }
{
    line.clear();
    write!(line, "session {session} rows {rows} refused {refused}")
}

/// `N STANDING`.
pub(crate) fn standing_line<A: Allocator, O>(
    line: &mut String<A>,
    row: &LogRow<A, O>,
) -> Result<(), AllocError>
    ensures { (opened : O → ℕ × Case) → OnOk result (string_bytes line.new ≡ standing_line (log_row_of opened row.now)) }
{
    line.clear();
    let number = row.number;
    write!(line, "{number} ")?;
    write_standing(line, &row.standing)
}

/// `mark N`.
pub(crate) fn mark_line<A: Allocator>(line: &mut String<A>, number: u64) -> Result<(), AllocError>
    ensures { OnOk result (string_bytes line.new ≡ mark_line number) }
{
    line.clear();
    write!(line, "mark {number}")
}
