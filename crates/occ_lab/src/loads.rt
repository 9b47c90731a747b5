//! Workloads in words: which of their operations are refused, and why.

use occ_run::workloads::{Plan, Workload, read_workload};
use occ_text::faults::ReadFault;
use occ_text::input::Input;
use occ_text::separated_parts::Parts;
use occ_text::trouble::Trouble;
use occ_types::Schema;
use occ_words::step_words::say_refused;
use occ_words::telling::Told;
use std::alloc::{AllocError, Global};

/// How many lines stand before the first transaction of a workload, but for its tables.
const HEAD: usize = 7;

/// Whether a text begins as a workload does.
pub(crate) fn is_load(text: &[u8]) -> bool {
    text.starts_with(b"load ")
}

/// Reads a whole workload.
pub(crate) fn take_load(alloc: Global, text: &[u8]) -> Result<Workload<Global>, Trouble> {
    let mut reader = text;
    Ok(read_load(alloc, &mut reader)?)
}

fn read_load(alloc: Global, reader: &mut &[u8]) -> Result<Workload<Global>, ReadFault> {
    let mut input = Input::new(alloc)?;
    read_workload(alloc, &mut input, reader)
}

/// Tells of each transaction the first operation that the tables refuse, whenever it runs, and answers how many transactions have one.
pub(crate) fn tell_refused(
    alloc: Global,
    text: &[u8],
    workload: &Workload<Global>,
    told: &mut Told,
) -> Result<u64, AllocError> {
    let mut lines = Parts::new(text, b'\n');
    let head = workload.schema.tables().len().saturating_add(HEAD);
    for _ in 0..head {
        let _before = lines.take_part();
    }
    let mut number = head as u64;
    let mut refused: u64 = 0;
    for plan in &workload.plans {
        number = number.saturating_add(1);
        let line = lines.take_part().unwrap_or(b"");
        if tell_plan(alloc, &workload.schema, number, line, plan, told)? {
            refused = refused.saturating_add(1);
        }
    }
    Ok(refused)
}

// Tells the first operation of a transaction that the tables refuse, where there is one.
fn tell_plan(
    alloc: Global,
    schema: &Schema<Global>,
    number: u64,
    line: &[u8],
    plan: &Plan<Global>,
    told: &mut Told,
) -> Result<bool, AllocError> {
    let mut tokens = Parts::new(line, b' ');
    let _word = tokens.take_part();
    let _session = tokens.take_part();
    for operation in &plan.operations {
        let token = tokens.take_part().unwrap_or(b"");
        if let Err(fault) = operation.check(schema) {
            let saying = say_refused(alloc, number, token, plan.session, fault)?;
            told.say(alloc, &saying)?;
            return Ok(true);
        }
    }
    Ok(false)
}
