//! The transaction that a session has open.
ghost use Rattle.std.specs.Prelude.{◌≡◌, ◌⊎◌, ℕ, None, Some, true, false, is_some, option_map, [], ◌∷◌, IfOk, IfErr, IfSome, OnOk, OnErr, MatchResult};
ghost use Rattle.std.specs.Result.{result_err};
ghost use Rattle.std.specs.Option.{option_copied};
ghost use Rattle.occ_types.specs.PlainData.{key_of, end_of, object_of};
ghost use Rattle.occ_types.specs.Question.{One, Span};
ghost use Rattle.occ_types.specs.Schema.{first_fault, check_key};
ghost use Rattle.occ_types.specs.declared.fault.Fault.TheVariants as faults;
ghost use Rattle.occ_sets.specs.Sets.{IsWriteSet};
ghost use Rattle.occ_model.specs.State.{Found};
ghost use Rattle.occ_model.specs.Event.{Read, Answered};
ghost use Rattle.occ_model.specs.Step.{Step};
ghost use Rattle.occ_open.specs.Pages.{page_form, ScansPage, ScansPageBy};
ghost use Rattle.occ_open.specs.Replies.{reading, scanning, forgetting};
ghost use Rattle.occ_open.specs.Transactions.{IsRefusedBy, begin_fault, begun, none_open, check_written, write_fault, written, WantsRoom, Gets, GetsBy, WantsOwn, Scans, ScansBy, WantsRange, Abandons, AbandonsBy, open_after, OrStarves, OrStarvesBy};

use crate::asking::{get, scan};
use crate::pages::{Page, PageEnd};
use crate::paging::page;
use crate::readable::Readable;
use crate::writing::write_copy;
use occ_sets::{PrivateCopy, RangeRows, RequestWrites, Write};
use occ_types::limits::MAX_NUMBER;
use occ_types::{Fault, Key, Object, Refused, Row, Schema};
use std::alloc::Allocator;
use std::marker::Model;

/// The transaction that a session has open, if it has one: its number, the counter as it began, and its own writes. It holds no store,
/// and asks the one that is lent to it. Clauses see the plain copy.
#[derive(Drop)]
pub struct OpenTransaction<A: Allocator> {
    copy: Option<PrivateCopy<A>>,
}

impl<A: Allocator> Model for OpenTransaction<A> {
    ghost use Rattle.std.specs.Prelude.{Option};
    ghost use Rattle.occ_sets.specs.Sets.{Copied};

    ghost Value = { Option Copied };

    ghost view = { λ c. c.copy };
}

impl<A: Allocator> OpenTransaction<A> {
    /// None is open.
    pub fn none() -> OpenTransaction<A>
        ensures { result ≡ None }
    {
        OpenTransaction { copy: None }
    }

    /// Whether one is open.
    pub fn is_open(&self) -> bool
        ensures { result ≡ is_some self.now }
    {
        self.copy.is_some()
    }

    /// The number of the one that is open.
    pub fn number(&self) -> Option<u64>
        ensures { result ≡ option_map (λ copy. copy.number) self.now }
    {
        match &self.copy {
            None => None,
            Some(copy) => Some(copy.number()),
        }
    }

    /// The request that the transaction becomes: its number, its start and its writes. None is open then. Refused with `NoReadOpen`. It
    /// takes no memory.
    pub fn into_request(&mut self) -> Result<(u64, u64, RequestWrites<A>), Fault>
        ensures ok { IfOk result (λ request. self.old ≡ Some (record { number = request.0; start = request.1; writes = request.2 })) }
        ensures fits { IfOk result (λ request. IsWriteSet request.2) }
        ensures none { self.new ≡ None }
        ensures fault { result_err result ≡ none_open self.old }
    {
        match self.copy.take() {
            None => Err(Fault::NoReadOpen),
            Some(copy) => Ok(copy.into_request()),
        }
    }
}

impl<A: Allocator + Copy> OpenTransaction<A> {
    /// The transaction that a request was made of, open as it was. It takes no memory for writes that were never shared, as those that
    /// `into_request` gave; others are taken out of what their owners share, or copied. Refused with `Memory`, and the writes handed
    /// back, where there is none for that.
    pub fn from_request(
        number: u64,
        start: u64,
        writes: RequestWrites<A>,
    ) -> Result<OpenTransaction<A>, Refused<RequestWrites<A>>>
        ensures same { IfOk result (λ transaction. transaction ≡ Some (record { number = number; start = start; writes = writes })) }
        ensures handed_back { IfErr result (λ refused. refused.value ≡ writes) }
        ensures memory { IfErr result (λ refused. refused.fault ≡ faults.Memory) }
    {
        let copy = PrivateCopy::from_request(number, start, writes)?;
        Ok(OpenTransaction { copy: Some(copy) })
    }

    /// Opens a transaction with this number, which starts at this counter. Refused with `ReadOpen` where one is open, and with
    /// `NumbersExhausted` where only the number of the closing mark is left.
    pub fn begin(&mut self, alloc: A, number: u64, start: u64) -> Result<(), Fault>
        ensures ok { OnOk result (self.new ≡ Some (begun number start)) }
        ensures err { OnErr result (self.new ≡ self.old) }
        ensures fault { result_err result ≡ begin_fault self.old number }
    {
        if self.copy.is_some() {
            return Err(Fault::ReadOpen);
        }
        if number >= MAX_NUMBER {
            return Err(Fault::NumbersExhausted);
        }
        self.copy = Some(PrivateCopy::new(alloc, number, start));
        Ok(())
    }

    /// Writes a row under a key of a table. Refused, the first of these that holds: with `NoReadOpen`; with `NoTable`, `WrongKind`,
    /// `TooLong` or `WrongColumns` where the key or then the row doesn't fit; with `SetFull` where 256 other keys are written; and with
    /// `Memory` where there is none for a key that is new. The write is handed back then, and nothing changes.
    pub fn put(
        &mut self,
        schema: &Schema<A>,
        table: usize,
        key: Key<A>,
        row: Row<A>,
    ) -> Result<(), Refused<Write<A>>>
        ensures ok { OnOk result (self.new ≡ written self.old (table, key_of key) (Some row)) }
        ensures err { OnErr result (self.new ≡ self.old) }
        ensures handed_back { IfErr result (λ refused. refused.value ≡ (record { table = table; key = key }, Some row)) }
        ensures fault { MatchResult result
            (λ _. write_fault schema.now (table, key_of key) (Some row) self.old ≡ None)
            (λ refused. IsRefusedBy (write_fault schema.now (table, key_of key) (Some row) self.old) (WantsRoom (table, key_of key) self.old) refused.fault) }
    {
        self.write(schema, Object { table, key }, Some(row))
    }

    /// Deletes the row under a key of a table, which is a write also where the table has no such row. Refused as `put`.
    pub fn delete(
        &mut self,
        schema: &Schema<A>,
        table: usize,
        key: Key<A>,
    ) -> Result<(), Refused<Write<A>>>
        ensures ok { OnOk result (self.new ≡ written self.old (table, key_of key) None) }
        ensures err { OnErr result (self.new ≡ self.old) }
        ensures handed_back { IfErr result (λ refused. refused.value ≡ (record { table = table; key = key }, None)) }
        ensures fault { MatchResult result
            (λ _. write_fault schema.now (table, key_of key) None self.old ≡ None)
            (λ refused. IsRefusedBy (write_fault schema.now (table, key_of key) None self.old) (WantsRoom (table, key_of key) self.old) refused.fault) }
    {
        self.write(schema, Object { table, key }, None)
    }

    // Writes an object, or deletes it where `row` is none.
    fn write(
        &mut self,
        schema: &Schema<A>,
        object: Object<A>,
        row: Option<Row<A>>,
    ) -> Result<(), Refused<Write<A>>>
        ensures ok { OnOk result (self.new ≡ written self.old (object_of object) row) }
        ensures err { OnErr result (self.new ≡ self.old) }
        ensures handed_back { IfErr result (λ refused. refused.value ≡ (object, row)) }
        ensures fault { MatchResult result
            (λ _. write_fault schema.now (object_of object) row self.old ≡ None)
            (λ refused. IsRefusedBy (write_fault schema.now (object_of object) row self.old) (WantsRoom (object_of object) self.old) refused.fault) }
    {
        match &mut self.copy {
            None => Err(Refused {
                value: (object, row),
                fault: Fault::NoReadOpen,
            }),
            Some(copy) => write_copy(copy, schema, object, row),
        }
    }

    /// The row under a key of a table: its own write of the key, and else what the store answers, which notes the question in the
    /// transaction's read phase. Refused, the first of these that holds: with `NoReadOpen`; with `NoTable`, `WrongKind` or `TooLong`
    /// where the key doesn't fit; with `Memory` where there is none for a copy of an own row; and as the store refuses a read.
    pub fn get_in<S: Readable<A>>(
        &self,
        store: &mut S,
        session: usize,
        table: usize,
        key: &Key<A>,
    ) -> Result<Option<Row<A>>, Fault>
        ensures step { OrStarves (WantsOwn (S.world store.old).settings.schema (table, key_of key.now) self.now) (S.world store.old) (reading result) (S.world store.new)
            (Gets (S.world store.old) (S.reader store.old session) (table, key_of key.now) self.now (reading result) (S.world store.new)) }
        ensures moves { OrStarvesBy (WantsOwn (S.world store.old).settings.schema (table, key_of key.now) self.now) (store.new ≡ store.old) (reading result)
            (GetsBy (S.world store.old).settings.schema (store.new ≡ store.old) (λ event reply. S.moves store.old event reply store.new) (S.reader store.old session) (table, key_of key.now) self.now (reading result)) }
    {
        match &self.copy {
            None => Err(Fault::NoReadOpen),
            Some(copy) => get(copy, store, session, table, key),
        }
    }

    /// The rows of a table from the lower end on and below the upper one, in the order of their keys: what the store answers to the
    /// whole range, which it notes in the transaction's read phase, with the own writes over it. All memory that these need is taken
    /// before the store is asked. Refused, the first of these that holds: with `NoReadOpen`; with `NoTable`, `WrongKind`, `TooLong` or
    /// `EmptyRange` where the range doesn't fit; with `Memory`; and as the store refuses a read.
    pub fn scan_in<S: Readable<A>>(
        &self,
        store: &mut S,
        session: usize,
        table: usize,
        lower: Option<&Key<A>>,
        upper: Option<&Key<A>>,
    ) -> Result<RangeRows<A>, Fault>
        ensures step { OrStarves (WantsRange (S.world store.old).settings.schema (Span table (end_of (option_copied lower.entry)) (end_of (option_copied upper.entry))) self.now) (S.world store.old) (scanning result) (S.world store.new)
            (Scans (S.world store.old) (S.reader store.old session) (Span table (end_of (option_copied lower.entry)) (end_of (option_copied upper.entry))) self.now (scanning result) (S.world store.new)) }
        ensures moves { OrStarvesBy (WantsRange (S.world store.old).settings.schema (Span table (end_of (option_copied lower.entry)) (end_of (option_copied upper.entry))) self.now) (store.new ≡ store.old) (scanning result)
            (ScansBy (S.world store.old).settings.schema (store.new ≡ store.old) (λ event reply. S.moves store.old event reply store.new) (S.reader store.old session) (Span table (end_of (option_copied lower.entry)) (end_of (option_copied upper.entry))) self.now (scanning result)) }
    {
        match &self.copy {
            None => Err(Fault::NoReadOpen),
            Some(copy) => scan(copy, store, session, table, lower, upper),
        }
    }

    /// A page of a range: its first rows or its last ones, at most `most` of them, or one where `most` is 0, at most 1,023; and its rest.
    /// The store is asked for one row more, which tells whether any are left, and notes all that it answers. The own writes on the page's
    /// side of the rest are laid over the rows, so that the page may have more rows than `most`, or fewer. Refused as `scan_in`, but never
    /// with `RangeTooLarge`.
    pub fn page_in<S: Readable<A>>(
        &self,
        store: &mut S,
        session: usize,
        end: PageEnd,
        table: usize,
        lower: Option<&Key<A>>,
        upper: Option<&Key<A>>,
        most: usize,
    ) -> Result<Page<A>, Fault>
        ensures step { ScansPage (S.world store.old) (S.reader store.old session) (page_form end table (end_of (option_copied lower.entry)) (end_of (option_copied upper.entry)) most) self.now result (S.world store.new) }
        ensures moves { let form = page_form end table (end_of (option_copied lower.entry)) (end_of (option_copied upper.entry)) most in
            ScansPageBy (S.world store.old).settings.schema (store.new ≡ store.old) (λ event reply. S.moves store.old event reply store.new) (S.reader store.old session) form (form.asks (S.world store.old)) self.now result }
    {
        match &self.copy {
            None => Err(Fault::NoReadOpen),
            Some(copy) => page(copy, store, session, end, table, lower, upper, most),
        }
    }

    /// The store forgets what the transaction read, and none is open then. Its number is not spent. Refused with `NoReadOpen`, and as the
    /// store refuses it; the transaction stays open then. It takes no memory.
    pub fn abandon_in<S: Readable<A>>(
        &mut self,
        store: &mut S,
        session: usize,
    ) -> Result<bool, Fault>
        ensures step { Abandons (S.world store.old) (S.reader store.old session) self.old (forgetting result) (S.world store.new) }
        ensures left { self.new ≡ open_after self.old (forgetting result) }
        ensures moves { AbandonsBy (store.new ≡ store.old) (λ event reply. S.moves store.old event reply store.new) (S.reader store.old session) self.old (forgetting result) }
    {
        let Some(copy) = &self.copy else {
            return Err(Fault::NoReadOpen);
        };
        match store.forget(session, copy.number()) {
            Err(fault) => Err(fault),
            Ok(known) => {
                self.copy = None;
                Ok(known)
            }
        }
    }
}
