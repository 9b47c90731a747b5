//! What a transaction asks of its store.
ghost use Rattle.std.specs.Prelude.{◌≡◌};
ghost use Rattle.std.specs.Option.{option_copied};
ghost use Rattle.occ_types.specs.PlainData.{key_of, end_of};
ghost use Rattle.occ_types.specs.Question.{One, Span};
ghost use Rattle.occ_open.specs.Pages.{page_form};
ghost use Rattle.occ_open.specs.declared.pages.PageEnd.TheVariants.{First, Last};
ghost use Rattle.occ_open.specs.Replies.{reading, scanning, forgetting};
ghost use Rattle.occ_open.specs.Transactions.{open_after};
ghost use Rattle.occ_model.specs.Event.{Forget, Checkpoint, Folded};
ghost use Rattle.occ_model.specs.Replies.{replied};
ghost use Rattle.occ_store.specs.Transactions.{ReadsOn, AsksOn, AsksPageOn, AbandonsOn, AsksOrStarves, AsksPage, AbandonsIn};
ghost use Rattle.occ_store.specs.Standing.{StandsIn};
ghost use Rattle.occ_store.specs.Workers.{Forgets};

use crate::names::Name;
use crate::shared::Shared;
use crate::stores::Store;
use crate::transactions::Transaction;
use occ_open::{Page, PageEnd};
use occ_sets::RangeRows;
use occ_types::{Fault, Key, Row};
use std::alloc::Allocator;
use std::sync::Wait;

// On the locked state: who has it lends what he has seen for the time of the call.
impl<N: Name, A: Allocator + Copy> Transaction<N, A> {
    pub(crate) fn get_in(
        &mut self,
        shared: &mut Shared<N, A>,
        table: usize,
        key: &Key<A>,
    ) -> Result<Option<Row<A>>, Fault>
        ensures asks { AsksOn self.old shared.old (One table (key_of key.now)) (reading result) self.new shared.new }
        ensures own { self.new.front.party ≡ self.old.front.party }
    {
        let other = shared.visit(&mut self.front, self.session);
        let row = self.draft.get_in(shared, self.session, table, key);
        shared.visit(&mut self.front, other);
        row
    }

    pub(crate) fn scan_in(
        &mut self,
        shared: &mut Shared<N, A>,
        table: usize,
        lower: Option<&Key<A>>,
        upper: Option<&Key<A>>,
    ) -> Result<RangeRows<A>, Fault>
        ensures asks { AsksOn self.old shared.old (Span table (end_of (option_copied lower.entry)) (end_of (option_copied upper.entry))) (scanning result) self.new shared.new }
        ensures own { self.new.front.party ≡ self.old.front.party }
    {
        let other = shared.visit(&mut self.front, self.session);
        let rows = self
            .draft
            .scan_in(shared, self.session, table, lower, upper);
        shared.visit(&mut self.front, other);
        rows
    }

    pub(crate) fn page_in(
        &mut self,
        shared: &mut Shared<N, A>,
        end: PageEnd,
        table: usize,
        lower: Option<&Key<A>>,
        upper: Option<&Key<A>>,
        most: usize,
    ) -> Result<Page<A>, Fault>
        ensures asks { AsksPageOn self.old shared.old (page_form end table (end_of (option_copied lower.entry)) (end_of (option_copied upper.entry)) most) result self.new shared.new }
        ensures own { self.new.front.party ≡ self.old.front.party }
    {
        let other = shared.visit(&mut self.front, self.session);
        let page = self
            .draft
            .page_in(shared, self.session, end, table, lower, upper, most);
        shared.visit(&mut self.front, other);
        page
    }

    pub(crate) fn abandon_in(&mut self, shared: &mut Shared<N, A>) -> Result<bool, Fault>
        ensures forgets { AbandonsOn self.old shared.old (forgetting result) self.new.front shared.new }
        ensures left { self.new ≡ record self.old { draft = open_after self.old.draft (forgetting result); front = self.new.front } }
        ensures own { self.new.front.party ≡ self.old.front.party }
    {
        let other = shared.visit(&mut self.front, self.session);
        let known = self.draft.abandon_in(shared, self.session);
        shared.visit(&mut self.front, other);
        known
    }

    // What was read under a number, whatever is open.
    fn forget_in(&mut self, shared: &mut Shared<N, A>, number: u64) -> Result<bool, Fault>
        ensures forgets { ReadsOn self.old.front shared.old self.new.front shared.new (Forget self.old.session number) (forgetting result) }
        ensures same { self.new ≡ record self.old { front = self.new.front } }
        ensures own { self.new.front.party ≡ self.old.front.party }
    {
        let other = shared.visit(&mut self.front, self.session);
        let known = shared.forget(self.session, number);
        shared.visit(&mut self.front, other);
        known
    }
}

impl<N: Name, A: Allocator + Copy> Transaction<N, A> {
    /// The row under a key of a table: its own write of the key, and else what the store answers. Refused as `Session::get`.
    pub fn get<R: Wait>(
        &mut self,
        rt: &R,
        store: &Store<N, A>,
        table: usize,
        key: &Key<A>,
    ) -> Result<Option<Row<A>>, Fault>
        ensures asks { AsksOrStarves N.named self.old (One table (key_of key.now)) (reading result) self.new }
        ensures own { self.new.front.party ≡ self.old.front.party }
    {
        let mut shared = store.lock(rt);
        shared.law();
        self.get_in(&mut shared, table, key)
    }

    /// The rows of a table from the lower end on and below the upper one, in the order of their keys, with its own writes over them.
    /// Refused as `Session::scan`.
    pub fn scan<R: Wait>(
        &mut self,
        rt: &R,
        store: &Store<N, A>,
        table: usize,
        lower: Option<&Key<A>>,
        upper: Option<&Key<A>>,
    ) -> Result<RangeRows<A>, Fault>
        ensures asks { AsksOrStarves N.named self.old (Span table (end_of (option_copied lower.entry)) (end_of (option_copied upper.entry))) (scanning result) self.new }
        ensures own { self.new.front.party ≡ self.old.front.party }
    {
        let mut shared = store.lock(rt);
        shared.law();
        self.scan_in(&mut shared, table, lower, upper)
    }

    /// A page of the first rows of a range, at most `most` of them, with its rest, as `Session::scan_first`.
    pub fn scan_first<R: Wait>(
        &mut self,
        rt: &R,
        store: &Store<N, A>,
        table: usize,
        lower: Option<&Key<A>>,
        upper: Option<&Key<A>>,
        most: usize,
    ) -> Result<Page<A>, Fault>
        ensures asks { AsksPage N.named self.old (page_form First table (end_of (option_copied lower.entry)) (end_of (option_copied upper.entry)) most) result self.new }
        ensures own { self.new.front.party ≡ self.old.front.party }
    {
        self.page(rt, store, PageEnd::First, table, lower, upper, most)
    }

    /// A page of the last rows of a range, at most `most` of them, with its rest, as `Session::scan_last`.
    pub fn scan_last<R: Wait>(
        &mut self,
        rt: &R,
        store: &Store<N, A>,
        table: usize,
        lower: Option<&Key<A>>,
        upper: Option<&Key<A>>,
        most: usize,
    ) -> Result<Page<A>, Fault>
        ensures asks { AsksPage N.named self.old (page_form Last table (end_of (option_copied lower.entry)) (end_of (option_copied upper.entry)) most) result self.new }
        ensures own { self.new.front.party ≡ self.old.front.party }
    {
        self.page(rt, store, PageEnd::Last, table, lower, upper, most)
    }

    // As `page_in`, in a holding of the lock of its own.
    fn page<R: Wait>(
        &mut self,
        rt: &R,
        store: &Store<N, A>,
        end: PageEnd,
        table: usize,
        lower: Option<&Key<A>>,
        upper: Option<&Key<A>>,
        most: usize,
    ) -> Result<Page<A>, Fault>
        ensures asks { AsksPage N.named self.old (page_form end table (end_of (option_copied lower.entry)) (end_of (option_copied upper.entry)) most) result self.new }
        ensures own { self.new.front.party ≡ self.old.front.party }
    {
        let mut shared = store.lock(rt);
        shared.law();
        self.page_in(&mut shared, end, table, lower, upper, most)
    }

    /// The state forgets what it read, and none is open then.
    pub(crate) fn abandon<R: Wait>(&mut self, rt: &R, store: &Store<N, A>) -> Result<bool, Fault>
        ensures forgets { AbandonsIn N.named self.old (forgetting result) self.new.front }
        ensures left { self.new ≡ record self.old { draft = open_after self.old.draft (forgetting result); front = self.new.front } }
        ensures own { self.new.front.party ≡ self.old.front.party }
    {
        let mut shared = store.lock(rt);
        shared.law();
        self.abandon_in(&mut shared)
    }

    /// The store forgets what was read under a number. What it answers isn't told: it is refused only where it has no such session.
    pub(crate) fn forget<R: Wait>(&mut self, rt: &R, store: &Store<N, A>, number: u64)
        ensures forgets { Forgets N.named self.old.session number self.old.front self.new.front }
        ensures same { self.new ≡ record self.old { front = self.new.front } }
        ensures own { self.new.front.party ≡ self.old.front.party }
    {
        let mut shared = store.lock(rt);
        shared.law();
        let _forgotten = self.forget_in(&mut shared, number);
    }

    /// Folds the settled beginning of the log into the base, as `Store::checkpoint`.
    pub(crate) fn checkpoint<R: Wait>(
        &mut self,
        rt: &R,
        store: &Store<N, A>,
    ) -> Result<usize, Fault>
        ensures stands { StandsIn N.named self.old.front Checkpoint (replied Folded result) self.new.front }
        ensures same { self.new ≡ record self.old { front = self.new.front } }
    {
        let mut shared = store.lock(rt);
        shared.law();
        shared.checkpoint(&mut self.front)
    }
}
