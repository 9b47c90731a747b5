//! A core that two threads lock in turn.
use crate::schemas::schema;
use occ_core::Core;
use occ_queue::Item;
use occ_sets::{RequestWrites, WriteSet};
use occ_types::{Cell, Fault, Key, Row};
use std::alloc::Global;
use std::sync::{Mutex, Wait};
use std::test::Fail;
use std::thread;
use std::thread::Threads;

// The first request of a session, which puts a row under the key of its number.
fn request(alloc: Global, session: usize) -> Result<Item<Global>, Fault> {
    let mut writes = WriteSet::new(alloc);
    let row = Row::from_cell(Cell::Int(7));
    writes.set(0, Key::Num(session as u64), Some(row))?;
    Ok(Item::Request {
        number: 1,
        start: 0,
        writes: RequestWrites::from_set(writes)?,
    })
}

fn enters(rt: &impl Wait, core: &Mutex<Core<Global>>, session: usize, item: Item<Global>) -> bool {
    core.lock(rt).enter(session, item).is_ok()
}

fn is_decided(rt: &impl Wait, core: &Mutex<Core<Global>>, session: usize) -> bool {
    core.lock(rt).decide(session).is_ok()
}

fn writes(rt: &impl Wait, core: &Mutex<Core<Global>>, session: usize) -> bool {
    core.lock(rt).write_one(session).is_ok()
}

fn finishes(rt: &impl Wait, core: &Mutex<Core<Global>>, session: usize) -> bool {
    core.lock(rt).finish(session).is_ok()
}

// One transaction of a session, with one holding of the lock for each step. It reads nothing and puts a row that no other puts, so it
// commits whatever the others do. Whether it finished.
fn commits(
    rt: &impl Wait,
    alloc: Global,
    core: &Mutex<Core<Global>>,
    session: usize,
) -> Result<bool, Fault> {
    let item = request(alloc, session)?;
    let written = enters(rt, core, session, item)
        && is_decided(rt, core, session)
        && writes(rt, core, session);
    Ok(written && finishes(rt, core, session))
}

// Two sessions, each in a thread of its own. Whether both finished.
fn both_commit<R: Threads + Wait + Sync>(
    rt: &R,
    alloc: Global,
    core: &Mutex<Core<Global>>,
) -> bool {
    let (one, other) = thread::join(
        rt,
        || commits(rt, alloc, core, 1),
        || commits(rt, alloc, core, 2),
    );
    one == Ok(true) && other == Ok(true)
}

// Whether both finished, and the counter then.
fn shared<R: Threads + Wait + Sync>(rt: &R, alloc: Global) -> Result<(bool, u64), Fault> {
    let core = Mutex::new(Core::open(alloc, schema(alloc)?, 2, 2)?);
    let both = both_commit(rt, alloc, &core);
    let core = core.into_inner();
    Ok((both, core.tnc()))
}

#[test]
fn two_threads_share_a_core(rt: HostRuntime) -> Result<(), Fail> {
    assert!(rt; shared(&rt, rt.alloc())? == (true, 2));
    Ok(())
}
