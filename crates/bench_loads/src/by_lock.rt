//! A load on an ordered map under one lock.
use crate::bare::Bare;
use crate::budgets::Budget;
use crate::crews::{Member, told};
use crate::outcomes::{Part, Told};
use crate::tasks::Task;
use occ_types::Fault;
use std::alloc::Allocator;
use std::sync::{Mutex, Wait};
use std::thread::{self, Threads};
use std::time::Clock;

/// The map.
type Map<A> = Mutex<Bare<A>>;

/// A thread that takes the lock for each transaction, or keeps it for all that it makes at a time.
#[derive(Clone, Copy)]
struct Locker {
    keeps: bool,
    at_a_time: u64,
}

impl Locker {
    /// Makes the next transactions of its part, so many.
    fn play<A: Allocator + Copy, R: Wait>(
        self,
        rt: &R,
        map: &Map<A>,
        part: &mut Part,
        many: u64,
    ) -> Result<(), Fault> {
        if self.keeps {
            return hold(rt, map, part, many);
        }
        for _ in 0..many {
            hold(rt, map, part, 1)?;
        }
        Ok(())
    }
}

/// Makes so many transactions in one holding of the lock.
fn hold<A: Allocator + Copy, R: Wait>(
    rt: &R,
    map: &Map<A>,
    part: &mut Part,
    many: u64,
) -> Result<(), Fault> {
    let mut rows = map.lock(rt);
    for _ in 0..many {
        let turn = part.next();
        let _sum = rows.turn(&turn.shape, turn.first)?;
        part.commit(0, 0);
    }
    Ok(())
}

/// Does a task on a map under one lock.
pub(crate) fn run<A: Allocator + Copy + Send + Sync, R: Threads + Wait + Clock + Sync>(
    rt: &R,
    alloc: A,
    task: Task,
) -> Result<Told, Fault> {
    let mut crew = Vec::new(alloc);
    for place in 0..task.threads {
        let locker = Locker {
            keeps: task.way.leased,
            at_a_time: task.way.at_a_time,
        };
        crew.push(Member::new(locker, task, place))?;
    }
    let map = Mutex::new(Bare::fill(alloc, &task.load.shape)?);
    let budget = Budget::begin(rt, task.until);
    work_at_once(rt, &map, &mut crew, &budget);
    let mut told = told(rt, &crew, task, &budget);
    told.sum = map.lock(rt).sum();
    Ok(told)
}

/// Has each member work in a thread of its own.
fn work_at_once<A: Allocator + Copy + Send + Sync, R: Threads + Wait + Clock + Sync>(
    rt: &R,
    map: &Map<A>,
    crew: &mut [Member<Locker>],
    budget: &Budget,
) {
    thread::scope(thread::scope_env(), rt, |scope| {
        for member in crew.iter_mut() {
            let _ = scope.spawn(move || work(rt, map, member, budget));
        }
    });
}

/// Makes transactions until the budget is spent, or one of them meets a fault.
fn work<A: Allocator + Copy, R: Wait + Clock>(
    rt: &R,
    map: &Map<A>,
    member: &mut Member<Locker>,
    budget: &Budget,
) {
    for _ in rt.forever() {
        let Some(many) = budget.take(rt, member.player.at_a_time) else {
            return;
        };
        if let Err(fault) = member.player.play(rt, map, &mut member.part, many) {
            member.part.fail(fault);
            return;
        }
    }
}
