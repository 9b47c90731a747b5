//! Threads that share a load.
use crate::budgets::Budget;
use crate::outcomes::{Part, Told};
use crate::tasks::Task;
use std::time::Clock;

/// A player with its part in the load.
#[derive(Drop)]
pub(crate) struct Member<P> {
    pub(crate) player: P,
    pub(crate) part: Part,
}

impl<P> Member<P> {
    /// The member of a crew that has this place in it.
    pub(crate) fn new(player: P, task: Task, place: usize) -> Member<P> {
        let part = Part::new(task.load.shape, place as u64);
        Member { player, part }
    }
}

/// What came of a task by a crew that has spent its budget, but the sum of the rows.
pub(crate) fn told<P, R: Clock>(rt: &R, crew: &[Member<P>], task: Task, budget: &Budget) -> Told {
    let mut told = Told::new(task.load.shape, budget.micros(rt));
    for member in crew {
        told.add(member.part.done());
    }
    told
}
