//! What a transaction asks of a store in its read phase.
ghost use Rattle.std.specs.Prelude.{◌≡◌, ℕ, IfOk, IsOkUnless};
ghost use Rattle.std.specs.Option.{option_copied};
ghost use Rattle.occ_types.specs.PlainData.{key_of, end_of};
ghost use Rattle.occ_types.specs.Question.{One, Span};
ghost use Rattle.occ_types.specs.declared.fault.Fault.TheVariants.{Memory};
ghost use Rattle.occ_model.specs.World.{World};
ghost use Rattle.occ_model.specs.Event.{Event, Reply, Read, Forget};
ghost use Rattle.occ_model.specs.Step.{Step};
ghost use Rattle.occ_open.specs.Pages.{IsPlan, page_form};
ghost use Rattle.occ_open.specs.Replies.{reading, scanning, copying, forgetting};

use crate::pages::{PageEnd, PagePlan};
use occ_sets::RangeRows;
use occ_types::{Fault, Key, Row, Schema};
use std::alloc::Allocator;

/// A store that a transaction asks in its read phase. Clauses see it as a world, and each call that moves it is a step of the model.
pub trait Readable<A: Allocator> {
    ghost world: { Self → World };

    /// How an event moves it beside its world, with what it is replied: nothing that clauses know, where an `impl` doesn't say.
    ghost moves: { Self → Event → Reply → Self → Type 0 } = { λ old event reply new. Unit {0} };

    /// The session for which it reads where a call names this one: the same, where an `impl` doesn't say.
    ghost reader: { Self → ℕ → ℕ } = { λ store session. session };

    /// The tables of the store, and what fits them.
    fn schema(&self) -> &Schema<A>
        ensures { result.now ≡ (world self.now).settings.schema };

    /// A copy of the row under a key of a table, or none where there is none. The question is noted with its answer in the read phase
    /// of the number, which begins with it from this start where it is not under way.
    fn read(
        &mut self,
        session: usize,
        number: u64,
        start: u64,
        table: usize,
        key: &Key<A>,
    ) -> Result<Option<Row<A>>, Fault>
        ensures step { Step (world self.old) (Read (reader self.old session) number start (One table (key_of key.now))) (reading result) (world self.new) }
        ensures moves { moves self.old (Read (reader self.old session) number start (One table (key_of key.now))) (reading result) self.new };

    /// The rows of a table from the lower end on and below the upper one, with their keys and in the order of the keys. The question is
    /// noted with its answer as by `read`, which may share the rows.
    fn scan(
        &mut self,
        session: usize,
        number: u64,
        start: u64,
        table: usize,
        lower: Option<&Key<A>>,
        upper: Option<&Key<A>>,
    ) -> Result<RangeRows<A>, Fault>
        ensures step { Step (world self.old) (Read (reader self.old session) number start (Span table (end_of (option_copied lower.entry)) (end_of (option_copied upper.entry)))) (scanning result) (world self.new) }
        ensures moves { moves self.old (Read (reader self.old session) number start (Span table (end_of (option_copied lower.entry)) (end_of (option_copied upper.entry)))) (scanning result) self.new };

    /// The same, as copies of the rows that the caller alone owns.
    fn scan_apart(
        &mut self,
        session: usize,
        number: u64,
        start: u64,
        table: usize,
        lower: Option<&Key<A>>,
        upper: Option<&Key<A>>,
    ) -> Result<Vec<(Key<A>, Row<A>), A>, Fault>
        ensures step { Step (world self.old) (Read (reader self.old session) number start (Span table (end_of (option_copied lower.entry)) (end_of (option_copied upper.entry)))) (copying result) (world self.new) }
        ensures moves { moves self.old (Read (reader self.old session) number start (Span table (end_of (option_copied lower.entry)) (end_of (option_copied upper.entry)))) (copying result) self.new };

    /// How the store means to answer a page of a range, of at most `most` rows, or one where `most` is 0. It notes nothing, and the plan
    /// shows nothing. Where the range doesn't fit the schema, the plan is to ask for it, which is refused. Refused with `Memory` where
    /// there is none for the keys at its ends.
    fn plan(
        &self,
        end: PageEnd,
        table: usize,
        lower: Option<&Key<A>>,
        upper: Option<&Key<A>>,
        most: usize,
    ) -> Result<PagePlan<A>, Fault>
        ensures end { IfOk result (λ plan. plan.end ≡ end) }
        ensures plan { IfOk result (λ plan. IsPlan (world self.now) (page_form end table (end_of (option_copied lower.entry)) (end_of (option_copied upper.entry)) most) plan) }
        ensures memory { IsOkUnless result Memory };

    /// Forgets what a session has read under a number, and answers whether it has read anything. It takes no memory.
    fn forget(&mut self, session: usize, number: u64) -> Result<bool, Fault>
        ensures step { Step (world self.old) (Forget (reader self.old session) number) (forgetting result) (world self.new) }
        ensures moves { moves self.old (Forget (reader self.old session) number) (forgetting result) self.new };
}
