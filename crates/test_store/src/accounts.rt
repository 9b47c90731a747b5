//! The end of a store.
use crate::desks::{Desk, push_lane};
use occ_store::{Account, Group, Name, Parties};
use occ_types::Fault;
use std::alloc::Allocator;
use std::mem;
use std::sync::Wait;

/// Ends the store of a desk, whose lanes are one group, with all its lanes and sessions. They stay where that is refused.
pub(crate) fn end<N: Name, A: Allocator + Copy, R: Wait>(
    rt: &R,
    desk: &mut Desk<N, A>,
) -> Result<Account<A>, Fault> {
    let sessions = mem::replace(&mut desk.sessions, Vec::new(desk.alloc));
    let lanes = match desk.groups.pop() {
        Some(group) => group.lanes,
        None => Vec::new(desk.alloc),
    };
    match desk.store.end(rt, Vec::new(desk.alloc), lanes, sessions) {
        Ok(account) => Ok(account),
        Err(refused) => {
            put_back(desk, refused.value)?;
            Err(refused.fault)
        }
    }
}

/// The same without the last lane, which stays too.
pub(crate) fn end_short<N: Name, A: Allocator + Copy, R: Wait>(
    rt: &R,
    desk: &mut Desk<N, A>,
) -> Result<Account<A>, Fault> {
    let last = match desk.groups.get_mut(0) {
        Some(group) => group.lanes.pop(),
        None => None,
    };
    let ended = end(rt, desk);
    if let Some(lane) = last {
        push_lane(&mut desk.groups, 0, lane)?;
    }
    ended
}

// The lanes and sessions of a desk, which were handed back.
fn put_back<N: Name, A: Allocator + Copy>(
    desk: &mut Desk<N, A>,
    parties: Parties<N, A>,
) -> Result<(), Fault> {
    let (_workers, lanes, sessions) = parties;
    let _none = mem::replace(&mut desk.sessions, sessions);
    desk.groups.push(Group::new(lanes))?;
    Ok(())
}
