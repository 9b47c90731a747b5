//! A core that is driven by steps.
use crate::keys::store;
use occ_core::{Core, Outcome, Reply, Step, drive};
use occ_sets::Op;
use occ_types::{Fault, Key, Row};
use std::alloc::Global;
use std::test::Fail;

// Session 1 puts a row alone, session 2 reads it, and the log is folded up to the window.
fn steps(alloc: Global) -> Result<Vec<Step<Global>>, Fault> {
    let mut steps = Vec::new(alloc);
    steps.push(Step::RunAlone {
        session: 1,
        number: 1,
        operations: putting(alloc)?,
    })?;
    steps.push(Step::Read {
        session: 2,
        number: 1,
        start: 1,
        table: 0,
        key: Key::Num(7),
    })?;
    steps.push(Step::Checkpoint)?;
    Ok(steps)
}

fn putting(alloc: Global) -> Result<Vec<Op<Global>>, Fault> {
    let mut operations = Vec::new(alloc);
    operations.push(Op::Put {
        table: 0,
        key: Key::Num(7),
        row: Row::from(5i64),
    })?;
    Ok(operations)
}

// Whether these are the replies to them.
fn are_replies(replies: &[Reply<Global>]) -> bool {
    match replies {
        [
            Reply::Outcome(Outcome::RanAlone { tn, answers }),
            Reply::Found(Some(row)),
            Reply::Folded(count),
        ] => { *tn == 1 && answers.is_empty() && row.int(0) == Some(5) && *count == 0 }
        _ => false,
    }
}

// Whether the steps are replied to as is due.
fn drives(alloc: Global, core: &mut Core<Global>) -> Result<bool, Fault> {
    let replies = drive(alloc, core, steps(alloc)?)?;
    Ok(are_replies(replies.as_slice()))
}

#[test]
fn steps_find_memory(rt: HostRuntime) -> Result<(), Fail> {
    let mut core = store(rt.alloc(), 2)?;
    let right = drives(rt.alloc(), &mut core)?;
    drop(core);
    assert!(rt; right);
    Ok(())
}
