//! What a session writes and reads in its open transaction.
ghost use Rattle.std.specs.Prelude.{◌≡◌, None, Some, IfErr, OnOk, OnErr, MatchResult};
ghost use Rattle.std.specs.Option.{option_copied};
ghost use Rattle.occ_types.specs.PlainData.{key_of, end_of};
ghost use Rattle.occ_types.specs.Question.{One, Span};
ghost use Rattle.occ_open.specs.Pages.{page_form};
ghost use Rattle.occ_open.specs.declared.pages.PageEnd.TheVariants.{First, Last};
ghost use Rattle.occ_open.specs.Replies.{reading, scanning, forgetting};
ghost use Rattle.occ_open.specs.Transactions.{IsRefusedBy, write_fault, written, WantsRoom, open_after};
ghost use Rattle.occ_store.specs.Transactions.{AsksOn, AsksPageOn, AbandonsOn, AsksOrStarves, AsksPage, AbandonsIn};
ghost use Rattle.occ_store.specs.Tries.{lent};

use crate::names::Name;
use crate::sessions::Session;
use crate::shared::Shared;
use crate::stores::Store;
use occ_open::{Page, PageEnd};
use occ_sets::{RangeRows, Write};
use occ_types::{Fault, Key, Refused, Row};
use std::alloc::Allocator;
use std::sync::Wait;

impl<N: Name, A: Allocator + Copy> Session<N, A> {
    /// Writes a row under a key of a table, in the open transaction alone. Refused, the first of these that holds: with `NoReadOpen`;
    /// with `NoTable`, `WrongKind`, `TooLong` or `WrongColumns` where the key or then the row doesn't fit; with `SetFull` where 256
    /// other keys are written; and with `Memory` where there is none for a key that is new. The write is handed back then, and nothing
    /// changes.
    pub fn put(&mut self, table: usize, key: Key<A>, row: Row<A>) -> Result<(), Refused<Write<A>>>
        ensures ok { OnOk result (self.new ≡ record self.old { draft = written self.old.draft (table, key_of key) (Some row) }) }
        ensures err { OnErr result (self.new ≡ self.old) }
        ensures handed_back { IfErr result (λ refused. refused.value ≡ (record { table = table; key = key }, Some row)) }
        ensures fault { MatchResult result
            (λ _. write_fault self.old.schema (table, key_of key) (Some row) self.old.draft ≡ None)
            (λ refused. IsRefusedBy (write_fault self.old.schema (table, key_of key) (Some row) self.old.draft) (WantsRoom (table, key_of key) self.old.draft) refused.fault) }
    {
        self.transaction.put(table, key, row)
    }

    /// Deletes the row under a key of a table, which is a write also where the table has no such row. Refused as `put`.
    pub fn delete(&mut self, table: usize, key: Key<A>) -> Result<(), Refused<Write<A>>>
        ensures ok { OnOk result (self.new ≡ record self.old { draft = written self.old.draft (table, key_of key) None }) }
        ensures err { OnErr result (self.new ≡ self.old) }
        ensures handed_back { IfErr result (λ refused. refused.value ≡ (record { table = table; key = key }, None)) }
        ensures fault { MatchResult result
            (λ _. write_fault self.old.schema (table, key_of key) None self.old.draft ≡ None)
            (λ refused. IsRefusedBy (write_fault self.old.schema (table, key_of key) None self.old.draft) (WantsRoom (table, key_of key) self.old.draft) refused.fault) }
    {
        self.transaction.delete(table, key)
    }

    /// The row under a key of a table, in the open transaction: its own write of the key, and else what the state answers, which notes
    /// the question in the transaction's read phase. Refused, the first of these that holds: with `NoReadOpen`; with `NoTable`,
    /// `WrongKind` or `TooLong` where the key doesn't fit; with `Memory` where there is none for a copy of an own row; and as the core
    /// refuses a read.
    pub fn get_in(
        &mut self,
        shared: &mut Shared<N, A>,
        table: usize,
        key: &Key<A>,
    ) -> Result<Option<Row<A>>, Fault>
        ensures asks { AsksOn (lent self.old) shared.old (One table (key_of key.now)) (reading result) (lent self.new) shared.new }
        ensures same { self.new ≡ record self.old { front = self.new.front } }
    {
        self.transaction.get_in(shared, table, key)
    }

    /// The rows of a table from the lower end on and below the upper one, in the order of their keys, in the open transaction: what the
    /// state answers to the whole range, which it notes in the transaction's read phase, with the own writes over it. Refused, the first
    /// of these that holds: with `NoReadOpen`; with `NoTable`, `WrongKind`, `TooLong` or `EmptyRange` where the range doesn't fit; with
    /// `Memory`; and as the core refuses a read.
    pub fn scan_in(
        &mut self,
        shared: &mut Shared<N, A>,
        table: usize,
        lower: Option<&Key<A>>,
        upper: Option<&Key<A>>,
    ) -> Result<RangeRows<A>, Fault>
        ensures asks { AsksOn (lent self.old) shared.old (Span table (end_of (option_copied lower.entry)) (end_of (option_copied upper.entry))) (scanning result) (lent self.new) shared.new }
        ensures same { self.new ≡ record self.old { front = self.new.front } }
    {
        self.transaction.scan_in(shared, table, lower, upper)
    }

    /// The first rows of a range, at most `most` of them, or one where `most` is 0, at most 1,023. Where more are left, the page has a
    /// rest, the key of the next row, which is the lower end of the next page. The state is asked for the range up to and with that row,
    /// and notes all of it, so that a write that would make the page tell something else is a conflict. The own writes below the rest are
    /// laid over the rows, so that the page may show more rows than `most`, or fewer. Refused as `scan_in`, but never with
    /// `RangeTooLarge`.
    ///
    /// Behind a key that has no next one, as a text of 64 bytes or the greatest number, the state is asked up to the row after that, or else
    /// up to the upper end.
    pub fn scan_first_in(
        &mut self,
        shared: &mut Shared<N, A>,
        table: usize,
        lower: Option<&Key<A>>,
        upper: Option<&Key<A>>,
        most: usize,
    ) -> Result<Page<A>, Fault>
        ensures asks { AsksPageOn (lent self.old) shared.old (page_form First table (end_of (option_copied lower.entry)) (end_of (option_copied upper.entry)) most) result (lent self.new) shared.new }
        ensures same { self.new ≡ record self.old { front = self.new.front } }
    {
        self.transaction
            .page_in(shared, PageEnd::First, table, lower, upper, most)
    }

    /// The last rows of a range, counted, noted and refused as by `scan_first_in`. Where more are left, the rest is the key of the first
    /// row that the page shows, which is the exclusive upper end of the page before. The state is asked for the range from the row before
    /// that one on. The own writes from the rest on are laid over the rows.
    pub fn scan_last_in(
        &mut self,
        shared: &mut Shared<N, A>,
        table: usize,
        lower: Option<&Key<A>>,
        upper: Option<&Key<A>>,
        most: usize,
    ) -> Result<Page<A>, Fault>
        ensures asks { AsksPageOn (lent self.old) shared.old (page_form Last table (end_of (option_copied lower.entry)) (end_of (option_copied upper.entry)) most) result (lent self.new) shared.new }
        ensures same { self.new ≡ record self.old { front = self.new.front } }
    {
        self.transaction
            .page_in(shared, PageEnd::Last, table, lower, upper, most)
    }

    /// The state forgets what the open transaction read, and none is open then. Its number is not spent. It answers whether anything was
    /// read. Refused with `NoReadOpen`, and as the core refuses it; the transaction stays open then. It takes no memory.
    pub fn abandon_in(&mut self, shared: &mut Shared<N, A>) -> Result<bool, Fault>
        ensures forgets { AbandonsOn (lent self.old) shared.old (forgetting result) self.new.front shared.new }
        ensures left { self.new ≡ record self.old { draft = open_after self.old.draft (forgetting result); front = self.new.front } }
    {
        self.transaction.abandon_in(shared)
    }

    /// As `get_in`, in a holding of the lock of its own.
    pub fn get<R: Wait>(
        &mut self,
        rt: &R,
        store: &Store<N, A>,
        table: usize,
        key: &Key<A>,
    ) -> Result<Option<Row<A>>, Fault>
        ensures asks { AsksOrStarves N.named (lent self.old) (One table (key_of key.now)) (reading result) (lent self.new) }
        ensures same { self.new ≡ record self.old { front = self.new.front } }
    {
        self.transaction.get(rt, store, table, key)
    }

    /// As `scan_in`, in a holding of the lock of its own.
    pub fn scan<R: Wait>(
        &mut self,
        rt: &R,
        store: &Store<N, A>,
        table: usize,
        lower: Option<&Key<A>>,
        upper: Option<&Key<A>>,
    ) -> Result<RangeRows<A>, Fault>
        ensures asks { AsksOrStarves N.named (lent self.old) (Span table (end_of (option_copied lower.entry)) (end_of (option_copied upper.entry))) (scanning result) (lent self.new) }
        ensures same { self.new ≡ record self.old { front = self.new.front } }
    {
        self.transaction.scan(rt, store, table, lower, upper)
    }

    /// As `scan_first_in`, in a holding of the lock of its own.
    pub fn scan_first<R: Wait>(
        &mut self,
        rt: &R,
        store: &Store<N, A>,
        table: usize,
        lower: Option<&Key<A>>,
        upper: Option<&Key<A>>,
        most: usize,
    ) -> Result<Page<A>, Fault>
        ensures asks { AsksPage N.named (lent self.old) (page_form First table (end_of (option_copied lower.entry)) (end_of (option_copied upper.entry)) most) result (lent self.new) }
        ensures same { self.new ≡ record self.old { front = self.new.front } }
    {
        self.transaction
            .scan_first(rt, store, table, lower, upper, most)
    }

    /// As `scan_last_in`, in a holding of the lock of its own.
    pub fn scan_last<R: Wait>(
        &mut self,
        rt: &R,
        store: &Store<N, A>,
        table: usize,
        lower: Option<&Key<A>>,
        upper: Option<&Key<A>>,
        most: usize,
    ) -> Result<Page<A>, Fault>
        ensures asks { AsksPage N.named (lent self.old) (page_form Last table (end_of (option_copied lower.entry)) (end_of (option_copied upper.entry)) most) result (lent self.new) }
        ensures same { self.new ≡ record self.old { front = self.new.front } }
    {
        self.transaction
            .scan_last(rt, store, table, lower, upper, most)
    }

    /// As `abandon_in`, in a holding of the lock of its own.
    pub fn abandon<R: Wait>(&mut self, rt: &R, store: &Store<N, A>) -> Result<bool, Fault>
        ensures forgets { AbandonsIn N.named (lent self.old) (forgetting result) self.new.front }
        ensures left { self.new ≡ record self.old { draft = open_after self.old.draft (forgetting result); front = self.new.front } }
    {
        self.transaction.abandon(rt, store)
    }
}
