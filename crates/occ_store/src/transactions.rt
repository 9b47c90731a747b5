//! What the body of a transaction may do.
ghost use Rattle.std.specs.Prelude.{◌≡◌, None, Some, option_map, is_some, IfOk, IfErr, OnOk, OnErr, MatchResult};
ghost use Rattle.std.specs.Arc.{arc_value};
ghost use Rattle.std.specs.Result.{result_err};
ghost use Rattle.occ_types.specs.PlainData.{key_of};
ghost use Rattle.occ_model.specs.Refusal.{numbers_exhausted};
ghost use Rattle.occ_open.specs.Transactions.{IsRefusedBy, begun, none_open, write_fault, written, WantsRoom};
ghost use Rattle.occ_sets.specs.Sets.{IsWriteSet};
ghost use Rattle.occ_store.specs.Transactions.{IsReader};

use crate::names::{FrontOf, Name};
use crate::stores::Store;
use occ_open::OpenTransaction;
use occ_sets::{RequestWrites, Write};
use occ_types::{Fault, Key, Refused, Row, Schema};
use std::alloc::Allocator;
use std::marker::Model;
use std::mem;
use std::sync::{Arc, Wait};

/// What a transaction reads and writes, and what it answers. A worker or a session runs it, and runs it anew after a back-up, so that it
/// begins from what it reads each time, and leaves nothing outside that a later run would see.
pub trait Body<N: Name, A: Allocator + Copy, R: Wait> {
    ghost use Rattle.std.specs.Prelude.{◌≡◌};
    ghost use Rattle.occ_store.specs.Bodies.{Making, Goes};

    /// What a run answers. What the run answered that committed is handed on, and what the others did is dropped.
    type Value: Drop;

    /// Why a run doesn't want to commit. What the store refuses becomes one of these by `From`.
    type Error: From<Fault>;

    /// What a run may answer, and what it may make of a transaction then, as far as clauses are to know: anything, where an `impl` doesn't
    /// say.
    ghost makes: { Self → Making Self.Value Self.Error } = { λ body before ran after. Unit {0} };

    /// Reads and writes in the transaction, which stays that of its session. An error abandons the transaction, and is answered as it
    /// is. What a later run may make, this one may make.
    fn run(
        &mut self,
        rt: &R,
        store: &Store<N, A>,
        work: &mut Transaction<N, A>,
    ) -> Result<Self::Value, Self::Error>
        ensures made { makes self.old work.old result work.new }
        ensures keeps { Goes (makes self.new) (makes self.old) }
        ensures own { work.new.front.party ≡ work.old.front.party };
}

/// The transaction that was begun, for a body to read and write in. A worker or a session owns one, which has the tables of the store, and
/// what the session has seen of the store's history.
#[derive(Drop)]
pub struct Transaction<N: Name, A: Allocator + Copy> {
    pub(crate) session: usize,
    schema: Arc<Schema<A>, A>,
    pub(crate) draft: OpenTransaction<A>,
    pub(crate) front: FrontOf<N>,
}

impl<N: Name, A: Allocator + Copy> Model for Transaction<N, A> {
    ghost use Rattle.std.specs.Prelude.{◌≡◌};
    ghost use Rattle.std.specs.Arc.{arc_value};
    ghost use Rattle.occ_store.specs.Transactions.{TransactionView, IsReader};

    ghost Value = { TransactionView };

    ghost view = { λ t. record { session = t.session; draft = t.draft; front = t.front } };

    ghost invariant = { λ t. (arc_value t.schema ≡ N.named.settings.schema) × IsReader t.front.party t.session };
}

impl<N: Name, A: Allocator + Copy> Transaction<N, A> {
    /// That of a session, in which none is begun.
    pub(crate) fn new(
        session: usize,
        schema: Arc<Schema<A>, A>,
        front: FrontOf<N>,
    ) -> Transaction<N, A>
        requires schema { arc_value schema ≡ N.named.settings.schema }
        requires reader { IsReader front.party session }
        ensures { result ≡ record { session = session; draft = None; front = front } }
    {
        Transaction {
            session,
            schema,
            draft: OpenTransaction::none(),
            front,
        }
    }

    /// The session that it is of.
    pub(crate) fn session(&self) -> usize
        ensures session { result ≡ self.now.session }
        ensures reader { IsReader self.now.front.party self.now.session }
    {
        self.session
    }

    /// The tables of the store.
    pub fn schema(&self) -> &Schema<A>
        ensures own { result.now ≡ N.named.settings.schema }
    {
        &self.schema
    }

    /// Whether one is open.
    pub(crate) fn is_open(&self) -> bool
        ensures { result ≡ is_some self.now.draft }
    {
        self.draft.is_open()
    }

    /// The number of the one that is open.
    pub(crate) fn number(&self) -> Option<u64>
        ensures { result ≡ option_map (λ copy. copy.number) self.now.draft }
    {
        self.draft.number()
    }

    /// Opens one with this number, which starts at this counter, in the place of what was open. Refused with `NumbersExhausted` where only
    /// the number of the closing mark is left, and none is open then.
    pub(crate) fn begin(&mut self, alloc: A, number: u64, start: u64) -> Result<(), Fault>
        ensures ok { OnOk result (self.new ≡ record self.old { draft = Some (begun number start) }) }
        ensures err { OnErr result (self.new ≡ record self.old { draft = None }) }
        ensures fault { result_err result ≡ numbers_exhausted number }
    {
        self.draft = OpenTransaction::none();
        self.draft.begin(alloc, number, start)
    }

    /// The request that it becomes, as `OpenTransaction::into_request`. None is open then.
    pub(crate) fn into_request(&mut self) -> Result<(u64, u64, RequestWrites<A>), Fault>
        ensures ok { IfOk result (λ request. self.old.draft ≡ Some (record { number = request.0; start = request.1; writes = request.2 })) }
        ensures fits { IfOk result (λ request. IsWriteSet request.2) }
        ensures none { self.new ≡ record self.old { draft = None } }
        ensures fault { result_err result ≡ none_open self.old.draft }
    {
        self.draft.into_request()
    }

    /// Puts another one in, and takes out the one that was open.
    pub(crate) fn replace(&mut self, draft: OpenTransaction<A>) -> OpenTransaction<A>
        ensures was { result ≡ self.old.draft }
        ensures new { self.new ≡ record self.old { draft = draft } }
    {
        mem::replace(&mut self.draft, draft)
    }
}

impl<N: Name, A: Allocator + Copy> Transaction<N, A> {
    /// Writes a row under a key of a table, in the transaction alone. Refused as `Session::put`, and the write is handed back then.
    pub fn put(&mut self, table: usize, key: Key<A>, row: Row<A>) -> Result<(), Refused<Write<A>>>
        ensures ok { OnOk result (self.new ≡ record self.old { draft = written self.old.draft (table, key_of key) (Some row) }) }
        ensures err { OnErr result (self.new ≡ self.old) }
        ensures handed_back { IfErr result (λ refused. refused.value ≡ (record { table = table; key = key }, Some row)) }
        ensures fault { MatchResult result
            (λ _. write_fault N.named.settings.schema (table, key_of key) (Some row) self.old.draft ≡ None)
            (λ refused. IsRefusedBy (write_fault N.named.settings.schema (table, key_of key) (Some row) self.old.draft) (WantsRoom (table, key_of key) self.old.draft) refused.fault) }
    {
        self.draft.put(&self.schema, table, key, row)
    }

    /// Deletes the row under a key of a table, which is a write also where the table has no such row. Refused as `put`.
    pub fn delete(&mut self, table: usize, key: Key<A>) -> Result<(), Refused<Write<A>>>
        ensures ok { OnOk result (self.new ≡ record self.old { draft = written self.old.draft (table, key_of key) None }) }
        ensures err { OnErr result (self.new ≡ self.old) }
        ensures handed_back { IfErr result (λ refused. refused.value ≡ (record { table = table; key = key }, None)) }
        ensures fault { MatchResult result
            (λ _. write_fault N.named.settings.schema (table, key_of key) None self.old.draft ≡ None)
            (λ refused. IsRefusedBy (write_fault N.named.settings.schema (table, key_of key) None self.old.draft) (WantsRoom (table, key_of key) self.old.draft) refused.fault) }
    {
        self.draft.delete(&self.schema, table, key)
    }
}
