//! What a worker does beside its transactions, each in one holding.
ghost use Rattle.std.specs.Prelude.{◌≡◌, ◌+◌, length, IfOk, IfErr, OnOk, OnErr, IsOkUnless, MatchResult};
ghost use Rattle.occ_types.specs.declared.fault.Fault.TheVariants.{Memory};
ghost use Rattle.occ_model.specs.Event.{Checkpoint, Folded};
ghost use Rattle.occ_model.specs.Replies.{replied, replied_back};
ghost use Rattle.occ_model.specs.Step.{Step};
ghost use Rattle.occ_model.specs.World.{low};
ghost use Rattle.occ_core.specs.Replies.{ran};
ghost use Rattle.occ_client.specs.Clients.{after_alone};
ghost use Rattle.occ_log.specs.Rows.{log_of};
ghost use Rattle.occ_sets.specs.Operations.{ops_of};
ghost use Rattle.occ_sharing.specs.Sharing.{DidNothing, InOneHolding, RunsAloneNext, Shows};

use crate::places::Missed;
use crate::workers::Worker;
use occ_book::Book;
use occ_case::OpenCase;
use occ_sets::{Answer, Op};
use occ_types::{Fault, Refused};
use std::alloc::Allocator;

/// What a store counts.
#[derive(Clone, Copy, Debug, PartialEq, Eq)]
pub struct Counts {
    /// The transactions that committed.
    pub commits: u64,
    /// The rows that stand in the log, which a checkpoint folds.
    pub rows: usize,
}

impl<A: Allocator + Copy> Worker<A> {
    /// Runs a whole transaction in one step, as a list of operations, as `Client::run_alone`. The list comes back where it doesn't run.
    pub fn run_alone(
        &mut self,
        operations: Vec<Op<A>, A>,
    ) -> Result<Result<(u64, Vec<Answer<A>, A>), Refused<Vec<Op<A>, A>>>, (Missed, Vec<Op<A>, A>)>
        ensures ran { MatchResult result
            (λ done. InOneHolding self.old self.new (λ before after.
            RunsAloneNext self.old.client (ops_of operations.items) before (replied_back ran done) after
            × OnOk done (self.new.client ≡ after_alone self.old.client)
            × OnErr done (self.new.client ≡ self.old.client)
            × IfErr done (λ refused. refused.value ≡ operations)))
            (λ missed. DidNothing self.old self.new × (missed.1 ≡ operations)) }
    {
        let mut holding = match self.take() {
            Ok(holding) => holding,
            Err(missed) => return Err((missed, operations)),
        };
        let ran = self.client.run_alone(&mut holding.held.core, operations);
        self.give(holding);
        Ok(ran)
    }

    /// Folds the settled beginning of the log, as `Core::checkpoint`, and answers how many rows that are.
    pub fn checkpoint(&mut self) -> Result<Result<usize, Fault>, Missed>
        ensures { MatchResult result
            (λ done. InOneHolding self.old self.new (λ before after.
            Step before Checkpoint (replied Folded done) after × (self.new.client ≡ self.old.client)))
            (λ _. DidNothing self.old self.new) }
    {
        let mut holding = self.take()?;
        let folded = holding.held.core.checkpoint();
        self.give(holding);
        Ok(folded)
    }

    /// All that the store shows now, as values of its own, as `Core::book`.
    pub fn book(&mut self) -> Result<Result<Book<A, OpenCase<A>>, Fault>, Missed>
        ensures { MatchResult result
            (λ done. InOneHolding self.old self.new (λ before after. (after ≡ before) × (self.new.client ≡ self.old.client)
            × IsOkUnless done Memory
            × IfOk done (λ book. Shows (record { base = book.base.base; marks = book.marks.marks; state = book.table.state; log = log_of book.log.items; low = book.low; counter = book.tnc }) before)))
            (λ _. DidNothing self.old self.new) }
    {
        let holding = self.take()?;
        let book = holding.held.core.book();
        self.give(holding);
        Ok(book)
    }

    /// What the store counts now.
    pub fn counts(&mut self) -> Result<Counts, Missed>
        ensures { MatchResult result
            (λ counts. InOneHolding self.old self.new (λ before after. (after ≡ before) × (self.new.client ≡ self.old.client)
            × (counts.commits ≡ before.counter) × (counts.rows ≡ length before.log)))
            (λ _. DidNothing self.old self.new) }
    {
        let holding = self.take()?;
        let counts = Counts {
            commits: holding.held.core.tnc(),
            rows: holding.held.core.log().len(),
        };
        self.give(holding);
        Ok(counts)
    }
}
