//! A file of cases that four threads fill at once.
use occ_case::{Case, CaseFile, Verdict, judge, verdict};
use occ_sets::{ReadSet, WriteSet};
use occ_types::Fault;
use std::alloc::Global;
use std::sync::Wait;
use std::test::Fail;
use std::thread;
use std::thread::Threads;

/// How many cases each thread pushes.
const EACH: u64 = 5_000;

// The case of a transaction that began then, reads and writes nothing, and has no opponent. The window begins above 1.
fn case(alloc: Global, start: u64) -> Case<Global> {
    Case::new(
        start,
        1,
        ReadSet::new(alloc),
        WriteSet::new(alloc),
        Vec::new(alloc),
        0,
    )
}

// The verdict on the case at an index; none where no case is seen there.
fn verdict_at(file: &CaseFile<Global>, index: u64) -> Option<Verdict> {
    match file.witness(index) {
        Some(token) => Some(judge(file, token).verdict()),
        None => None,
    }
}

// Pushes a case. The answer is its index.
fn pushed<R: Wait>(rt: &R, file: &CaseFile<Global>, case: Case<Global>) -> Result<u64, Fault> {
    let token = file.push(rt, case)?;
    Ok(token.index() as u64)
}

// Whether a case is found at an index, and judged as it is to be.
fn is_right(file: &CaseFile<Global>, index: u64, case: &Case<Global>) -> bool {
    verdict_at(file, index) == Some(verdict(case))
}

// Pushes a case. The answer is its index, if it is found there and judged as it is to be.
fn push<R: Wait>(
    rt: &R,
    file: &CaseFile<Global>,
    case: &Case<Global>,
) -> Result<Option<u64>, Fault> {
    let index = pushed(rt, file, case.clone()?)?;
    let right = is_right(file, index, case);
    Ok(if right { Some(index) } else { None })
}

// Pushes by turns one that commits and one that began before the window. Whether each is found as it was pushed, under an index behind
// that of the one before.
fn push_by_turns<R: Wait>(
    rt: &R,
    file: &CaseFile<Global>,
    valid: &Case<Global>,
    too_old: &Case<Global>,
) -> Result<bool, Fault> {
    let mut next = 0u64;
    for turn in 0..EACH {
        let index = if turn % 2 == 0 {
            push(rt, file, valid)?
        } else {
            push(rt, file, too_old)?
        };
        match index {
            Some(index) if index >= next => next = index.saturating_add(1),
            _ => return Ok(false),
        }
    }
    Ok(true)
}

fn push_all<R: Wait>(rt: &R, alloc: Global, file: &CaseFile<Global>) -> Result<bool, Fault> {
    let valid = case(alloc, 1);
    let too_old = case(alloc, 0);
    push_by_turns(rt, file, &valid, &too_old)
}

fn push_by_two<R: Threads + Wait + Sync>(
    rt: &R,
    alloc: Global,
    file: &CaseFile<Global>,
) -> Result<bool, Fault> {
    let (one, other) = thread::join(
        rt,
        || push_all(rt, alloc, file),
        || push_all(rt, alloc, file),
    );
    Ok(one? && other?)
}

fn push_by_four<R: Threads + Wait + Sync>(
    rt: &R,
    alloc: Global,
    file: &CaseFile<Global>,
) -> Result<bool, Fault> {
    let (left, right) = thread::join(
        rt,
        || push_by_two(rt, alloc, file),
        || push_by_two(rt, alloc, file),
    );
    Ok(left? && right? && has_all(file))
}

// Whether the cases of four threads stand at the first places, and nothing behind them, and as many commit as were pushed so.
fn has_all(file: &CaseFile<Global>) -> bool {
    let mut commits = 0u64;
    for index in 0..4 * EACH {
        match verdict_at(file, index) {
            Some(Verdict::Commit) => commits = commits.saturating_add(1),
            Some(Verdict::BackUp(_)) => {}
            None => return false,
        }
    }
    commits == 2 * EACH && verdict_at(file, 4 * EACH).is_none()
}

#[test]
fn four_threads_file_each_case_once(rt: HostRuntime) -> Result<(), Fail> {
    let file = Box::new(rt.alloc(), CaseFile::new(rt.alloc())?)?;
    let right = push_by_four(&rt, rt.alloc(), &*file)?;
    assert!(rt; right);
    Ok(())
}
