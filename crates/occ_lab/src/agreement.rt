//! Whether a workload can run in a store that goes on from a book.

use occ_print::lines::table_line;
use occ_run::workloads::Workload;
use occ_text::headers::Header;
use occ_types::TableDef;
use std::alloc::{AllocError, Global};

/// In what the header of a workload disagrees with that of a book, if in anything: it has the same tables, and no fewer sessions.
pub(crate) fn disagreement(
    alloc: Global,
    workload: &Workload<Global>,
    header: &Header<Global>,
) -> Result<Option<String>, AllocError> {
    let sessions = workload.settings.limits.sessions;
    let had = header.limits.sessions;
    if sessions < had {
        let why = format!(in alloc; "the workload has {sessions} sessions, and the book {had}")?;
        return Ok(Some(why));
    }
    let tables = workload.schema.tables();
    let others = header.schema.tables();
    if tables.len() != others.len() {
        let (count, had) = (tables.len(), others.len());
        let why = format!(in alloc; "the workload has {count} tables, and the book {had}")?;
        return Ok(Some(why));
    }
    for (table, other) in tables.iter().zip(others.iter()) {
        let line = line_of(alloc, table)?;
        let had = line_of(alloc, other)?;
        if line.as_str() != had.as_str() {
            let why = format!(in alloc; "the workload has `{line}`, and the book `{had}`")?;
            return Ok(Some(why));
        }
    }
    Ok(None)
}

fn line_of(alloc: Global, table: &TableDef<Global>) -> Result<String, AllocError> {
    let mut line = String::new(alloc);
    table_line(&mut line, table)?;
    Ok(line)
}
