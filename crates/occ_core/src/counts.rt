//! The figures of a store.
ghost use Rattle.std.specs.Prelude.{◌≡◌};
ghost use Rattle.occ_core.specs.Figures.{figures_of, IsBalanced, numbers_left, reading_from};

use crate::core_state::Core;
use crate::read_checks::check_session;
use occ_log::ReadPhases;
use occ_types::limits::{MAX_COUNTER, MAX_NUMBER};
use std::alloc::Allocator;

/// The figures of a store: how many of its transactions ended in which way since it began, and what it holds now. A store begins where it
/// is opened or goes on from a base, and what ended before is not counted.
#[derive(Clone, Copy, Debug, PartialEq, Eq)]
pub struct Counts {
    /// How many transactions committed. Those that are decided and not finished are not among them.
    pub committed: u64,
    /// How many of the committed were lists of operations that ran alone.
    pub alone: u64,
    /// How many were decided to be backed up for a conflict, whether their sessions went on since or not.
    pub conflicts: u64,
    /// How many were decided to be backed up as too old, in the same way.
    pub too_old: u64,
    /// How many are active: entered, and neither finished nor decided to be backed up.
    pub active: usize,
    /// How many rows were folded out of the log.
    pub folded: usize,
    /// How many rows stand in the log.
    pub rows: usize,
    /// How many sessions have a read phase under way.
    pub reading: usize,
    /// The transaction counter.
    pub counter: u64,
    /// How many transaction numbers are left.
    pub counter_left: u64,
}

impl<A: Allocator> Core<A> {
    /// The figures, as they are now. Each row that entered since the store began has ended or is active. It takes no memory, and its time
    /// is that of two walks over the sessions.
    pub fn counts(&self) -> Counts
        ensures figures { result ≡ figures_of self.now.world self.now.totals }
        ensures balanced { IsBalanced result }
    {
        Counts {
            committed: self.totals.committed,
            alone: self.totals.alone,
            conflicts: self.totals.conflicts,
            too_old: self.totals.too_old,
            active: self.active(),
            folded: self.base.place().saturating_sub(self.totals.first_place),
            rows: self.log.len(),
            reading: count_reading(&self.phases, self.sessions.len()),
            counter: self.counter,
            counter_left: MAX_COUNTER.saturating_sub(self.counter),
        }
    }

    /// How many numbers a session has left, the one of its closing mark among them; none where there is no such session. One that is
    /// closed uses none of them any more. It takes no memory.
    pub fn numbers_left(&self, session: usize) -> Option<u64>
        ensures { result ≡ numbers_left self.now.world session }
    {
        match check_session(&self.sessions, session) {
            Ok(()) => Some(MAX_NUMBER.saturating_sub(self.sessions.last(session - 1))),
            Err(_no_session) => None,
        }
    }
}

// How many of so many sessions have a read phase under way.
fn count_reading<A: Allocator>(phases: &ReadPhases<A>, sessions: usize) -> usize
    ensures { result ≡ reading_from phases.now 1 sessions }
{
    let mut count = 0;
    for place in 0..sessions {
        if phases.is_reading(place + 1) {
            count += 1;
        }
    }
    count
}
