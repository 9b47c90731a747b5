//! The transaction that a session has open, which comes back when what it was handed in as is refused.
ghost use Rattle.std.specs.Prelude.{◌≡◌, ◌≤◌, ◌⊎◌, None, Some, true, false, is_some, length, option_map, IfOk, IfErr, OnOk, OnErr, MatchResult};
ghost use Rattle.std.specs.Option.{option_copied};
ghost use Rattle.std.specs.Result.{result_err};
ghost use Rattle.occ_types.specs.declared.fault.Fault.TheVariants.{Memory};
ghost use Rattle.occ_types.specs.PlainData.{key_of, end_of};
ghost use Rattle.occ_types.specs.Question.{Span};
ghost use Rattle.occ_types.specs.declared.limits.TheConstants.{MAX_WRITES};
ghost use Rattle.occ_open.specs.Kept.{IsShared, kept_of};
ghost use Rattle.occ_open.specs.Pages.{page_form, paging, Pages};
ghost use Rattle.occ_open.specs.Replies.{reading, scanning, forgetting};
ghost use Rattle.occ_open.specs.Transactions.{IsRefusedBy, begin_fault, begun, none_open, write_fault, written, WantsRoom, Gets, WantsOwn, Scans, WantsRange, Abandons, open_after, OrStarves};

use crate::open_transactions::OpenTransaction;
use crate::pages::{Page, PageEnd};
use crate::readable::Readable;
use occ_sets::{RangeRows, RequestWrites, Write};
use occ_types::{Fault, Key, Object, Refused, Row, Schema};
use std::alloc::Allocator;
use std::marker::Model;
use std::mem;

/// The transaction that a session has open, if it has one, which is handed in as a request, and is open again where that is refused.
/// Where others share the writes of a request that came back, they are copied before the next call that needs them; until there is
/// memory for that copy, such calls are refused with `Memory`.
#[derive(Drop)]
pub struct KeptTransaction<A: Allocator> {
    pub(crate) content: Content<A>,
}

/// What is kept.
#[derive(Drop)]
pub(crate) enum Content<A: Allocator> {
    /// A transaction, if one is open.
    Open(OpenTransaction<A>),
    /// The request that a transaction became and that came back, while others share its writes.
    Returned {
        /// The number of the transaction.
        number: u64,
        /// The counter as it began.
        start: u64,
        /// Its writes.
        writes: RequestWrites<A>,
    },
}

impl<A: Allocator> Model for KeptTransaction<A> {
    ghost use Rattle.occ_open.specs.Kept.{Kept, kept_of};

    ghost Value = { Kept };

    ghost view = { λ k. kept_of k.content };
}

impl<A: Allocator> KeptTransaction<A> {
    /// None is open.
    pub fn none() -> KeptTransaction<A>
        ensures { result ≡ record { current = None; returned = false } }
    {
        KeptTransaction {
            content: Content::Open(OpenTransaction::none()),
        }
    }

    /// Whether one is open.
    pub fn is_open(&self) -> bool
        ensures { result ≡ is_some self.now.current }
    {
        match &self.content {
            Content::Open(transaction) => transaction.is_open(),
            Content::Returned { .. } => true,
        }
    }

    /// The request that the transaction becomes: its number, its start and its writes. None is open then. Refused with `NoReadOpen`. It
    /// takes no memory.
    pub fn into_request(&mut self) -> Result<(u64, u64, RequestWrites<A>), Fault>
        ensures ok { IfOk result (λ request. self.old.current ≡ Some (record { number = request.0; start = request.1; writes = request.2 })) }
        ensures few { IfOk result (λ request. length request.2 ≤ MAX_WRITES) }
        ensures none { self.new ≡ record { current = None; returned = false } }
        ensures fault { result_err result ≡ none_open self.old.current }
    {
        match mem::replace(&mut self.content, Content::Open(OpenTransaction::none())) {
            Content::Open(transaction) => {
                let mut transaction = transaction;
                transaction.into_request()
            }
            Content::Returned {
                number,
                start,
                writes,
            } => {
                // Its clause says that they are few.
                let _set = writes.as_set();
                Ok((number, start, writes))
            }
        }
    }
}

impl<A: Allocator + Copy> KeptTransaction<A> {
    /// The transaction that a request was made of is open again, as it was. It never fails: where others share the writes and there is
    /// no memory to copy them, they are kept, and copied later.
    pub fn reopen(&mut self, number: u64, start: u64, writes: RequestWrites<A>)
        requires none { self.old.current ≡ None }
        ensures { self.new.current ≡ Some (record { number = number; start = start; writes = writes }) }
    {
        self.content = restored(Content::Returned {
            number,
            start,
            writes,
        });
    }

    // Copies the writes of a request that came back, where there is memory for it.
    fn restore(&mut self)
        ensures current { self.new.current ≡ self.old.current }
        ensures returned { IsShared self.new → IsShared self.old }
    {
        let content = mem::replace(&mut self.content, Content::Open(OpenTransaction::none()));
        self.content = restored(content);
    }

    /// Opens a transaction with this number, which starts at this counter. Refused with `ReadOpen` where one is open, and with
    /// `NumbersExhausted` where only the number of the closing mark is left.
    pub fn begin(&mut self, alloc: A, number: u64, start: u64) -> Result<(), Fault>
        ensures ok { OnOk result (self.new.current ≡ Some (begun number start)) }
        ensures err { OnErr result (self.new ≡ self.old) }
        ensures fault { result_err result ≡ begin_fault self.old.current number }
    {
        match &mut self.content {
            Content::Open(transaction) => transaction.begin(alloc, number, start),
            Content::Returned { .. } => Err(Fault::ReadOpen),
        }
    }

    /// Writes a row under a key of a table. Refused as `OpenTransaction::put`, or before that with `Memory`, where others share the writes
    /// and there is none for a copy of them. The write is handed back then, and nothing changes.
    pub fn put(
        &mut self,
        schema: &Schema<A>,
        table: usize,
        key: Key<A>,
        row: Row<A>,
    ) -> Result<(), Refused<Write<A>>>
        ensures ok { OnOk result (self.new.current ≡ written self.old.current (table, key_of key) (Some row)) }
        ensures err { OnErr result (self.new.current ≡ self.old.current) }
        ensures handed_back { IfErr result (λ refused. refused.value ≡ (record { table = table; key = key }, Some row)) }
        ensures fault { IfErr result (λ refused. (IsShared self.old × (refused.fault ≡ Memory)) ⊎ IsRefusedBy (write_fault schema.now (table, key_of key) (Some row) self.old.current) (WantsRoom (table, key_of key) self.old.current) refused.fault) }
        ensures fits { OnOk result (write_fault schema.now (table, key_of key) (Some row) self.old.current ≡ None) }
    {
        self.restore();
        match &mut self.content {
            Content::Open(transaction) => transaction.put(schema, table, key, row),
            Content::Returned { .. } => Err(Refused {
                value: (Object { table, key }, Some(row)),
                fault: Fault::Memory,
            }),
        }
    }

    /// Deletes the row under a key of a table, which is a write also where the table has no such row. Refused as `put`.
    pub fn delete(
        &mut self,
        schema: &Schema<A>,
        table: usize,
        key: Key<A>,
    ) -> Result<(), Refused<Write<A>>>
        ensures ok { OnOk result (self.new.current ≡ written self.old.current (table, key_of key) None) }
        ensures err { OnErr result (self.new.current ≡ self.old.current) }
        ensures handed_back { IfErr result (λ refused. refused.value ≡ (record { table = table; key = key }, None)) }
        ensures fault { IfErr result (λ refused. (IsShared self.old × (refused.fault ≡ Memory)) ⊎ IsRefusedBy (write_fault schema.now (table, key_of key) None self.old.current) (WantsRoom (table, key_of key) self.old.current) refused.fault) }
        ensures fits { OnOk result (write_fault schema.now (table, key_of key) None self.old.current ≡ None) }
    {
        self.restore();
        match &mut self.content {
            Content::Open(transaction) => transaction.delete(schema, table, key),
            Content::Returned { .. } => Err(Refused {
                value: (Object { table, key }, None),
                fault: Fault::Memory,
            }),
        }
    }

    /// The row under a key of a table: its own write of the key, and else what the store answers. Refused as `OpenTransaction::get_in`.
    pub fn get_in<S: Readable<A>>(
        &mut self,
        store: &mut S,
        session: usize,
        table: usize,
        key: &Key<A>,
    ) -> Result<Option<Row<A>>, Fault>
        ensures current { self.new.current ≡ self.old.current }
        ensures read { OrStarves (IsShared self.old ⊎ WantsOwn (S.world store.old).settings.schema (table, key_of key.now) self.old.current) (S.world store.old) (reading result) (S.world store.new)
            (Gets (S.world store.old) (S.reader store.old session) (table, key_of key.now) self.old.current (reading result) (S.world store.new)) }
    {
        self.restore();
        match &self.content {
            Content::Open(transaction) => transaction.get_in(store, session, table, key),
            Content::Returned { .. } => Err(Fault::Memory),
        }
    }

    /// The rows of a table from the lower end on and below the upper one, in the order of their keys: what the store answers to the whole
    /// range, with the own writes over it. Refused as `OpenTransaction::scan_in`.
    pub fn scan_in<S: Readable<A>>(
        &mut self,
        store: &mut S,
        session: usize,
        table: usize,
        lower: Option<&Key<A>>,
        upper: Option<&Key<A>>,
    ) -> Result<RangeRows<A>, Fault>
        ensures current { self.new.current ≡ self.old.current }
        ensures read { OrStarves (IsShared self.old ⊎ WantsRange (S.world store.old).settings.schema (Span table (end_of (option_copied lower.entry)) (end_of (option_copied upper.entry))) self.old.current) (S.world store.old) (scanning result) (S.world store.new)
            (Scans (S.world store.old) (S.reader store.old session) (Span table (end_of (option_copied lower.entry)) (end_of (option_copied upper.entry))) self.old.current (scanning result) (S.world store.new)) }
    {
        self.restore();
        match &self.content {
            Content::Open(transaction) => transaction.scan_in(store, session, table, lower, upper),
            Content::Returned { .. } => Err(Fault::Memory),
        }
    }

    /// A page of a range, as `OpenTransaction::page_in`. Refused as that.
    pub fn page_in<S: Readable<A>>(
        &mut self,
        store: &mut S,
        session: usize,
        end: PageEnd,
        table: usize,
        lower: Option<&Key<A>>,
        upper: Option<&Key<A>>,
        most: usize,
    ) -> Result<Page<A>, Fault>
        ensures current { self.new.current ≡ self.old.current }
        ensures read { let form = page_form end table (end_of (option_copied lower.entry)) (end_of (option_copied upper.entry)) most in
            OrStarves (IsShared self.old ⊎ WantsRange (S.world store.old).settings.schema form.range self.old.current) (S.world store.old) (paging result) (S.world store.new)
            (Pages (S.world store.old) (S.reader store.old session) form self.old.current result (S.world store.new)) }
    {
        self.restore();
        match &self.content {
            Content::Open(transaction) => {
                transaction.page_in(store, session, end, table, lower, upper, most)
            }
            Content::Returned { .. } => Err(Fault::Memory),
        }
    }

    /// The store forgets what the transaction read, and none is open then. Its number is not spent. Refused as
    /// `OpenTransaction::abandon_in`. It takes no memory.
    pub fn abandon_in<S: Readable<A>>(
        &mut self,
        store: &mut S,
        session: usize,
    ) -> Result<bool, Fault>
        ensures step { Abandons (S.world store.old) (S.reader store.old session) self.old.current (forgetting result) (S.world store.new) }
        ensures left { self.new.current ≡ open_after self.old.current (forgetting result) }
    {
        match &mut self.content {
            Content::Open(transaction) => transaction.abandon_in(store, session),
            Content::Returned { number, .. } => {
                let number = *number;
                match store.forget(session, number) {
                    Err(fault) => Err(fault),
                    Ok(known) => {
                        self.content = Content::Open(OpenTransaction::none());
                        Ok(known)
                    }
                }
            }
        }
    }
}

// A request that came back is open again, unless its writes are to be copied and there is no memory for that.
fn restored<A: Allocator + Copy>(content: Content<A>) -> Content<A>
    ensures current { (kept_of result).current ≡ (kept_of content).current }
    ensures returned { IsShared (kept_of result) → IsShared (kept_of content) }
{
    match content {
        Content::Open(transaction) => Content::Open(transaction),
        Content::Returned {
            number,
            start,
            writes,
        } => match OpenTransaction::from_request(number, start, writes) {
            Ok(transaction) => Content::Open(transaction),
            Err(refused) => Content::Returned {
                number,
                start,
                writes: refused.value,
            },
        },
    }
}
