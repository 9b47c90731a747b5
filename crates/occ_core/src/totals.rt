//! How the transactions of a store ended, counted.
ghost use Rattle.std.specs.Prelude.{◌≡◌};
ghost use Rattle.occ_core.specs.Totals.{no_totals, with_commit, with_one_step, with_cause, with_verdict, CanCount};

use occ_case::{Cause, Verdict};

// How many transactions ended in which way since a store was opened or went on from a base, and the place of the first row that was to enter
// then.
#[derive(Clone, Copy, Debug)]
pub(crate) struct Totals {
    pub(crate) first_place: usize,
    pub(crate) committed: u64,
    // Those of the committed that ran alone.
    pub(crate) alone: u64,
    pub(crate) conflicts: u64,
    pub(crate) too_old: u64,
}

// The event by which a transaction commits in one step.
#[derive(Clone, Copy)]
pub(crate) enum OneStep {
    SerialEnd,
    RunAlone,
}

impl Totals {
    // Nothing ended yet, in a store whose first row enters at this place.
    pub(crate) fn none(first_place: usize) -> Totals
        ensures { result ≡ no_totals first_place }
    {
        Totals {
            first_place,
            committed: 0,
            alone: 0,
            conflicts: 0,
            too_old: 0,
        }
    }

    // Counts a commit.
    pub(crate) fn count_commit(&mut self)
        requires { CanCount self.old }
        ensures { self.new ≡ with_commit self.old }
    {
        self.committed += 1;
    }

    // Counts a commit in one step.
    pub(crate) fn count_one_step(&mut self, by: OneStep)
        requires { CanCount self.old }
        ensures { self.new ≡ with_one_step self.old by }
    {
        self.committed += 1;
        match by {
            OneStep::SerialEnd => {}
            OneStep::RunAlone => self.alone += 1,
        }
    }

    // Counts a transaction that is to be backed up.
    pub(crate) fn count_cause(&mut self, cause: Cause)
        requires { CanCount self.old }
        ensures { self.new ≡ with_cause self.old cause }
    {
        match cause {
            Cause::Conflict => self.conflicts += 1,
            Cause::TooOld => self.too_old += 1,
        }
    }

    // Counts a decision. One that commits is counted as it finishes.
    pub(crate) fn count_verdict(&mut self, verdict: Verdict)
        requires { CanCount self.old }
        ensures { self.new ≡ with_verdict self.old verdict }
    {
        match verdict {
            Verdict::Commit => {}
            Verdict::BackUp(cause) => self.count_cause(cause),
        }
    }
}
