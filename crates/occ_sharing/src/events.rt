//! The calls of a transaction, each in one holding.
ghost use Rattle.std.specs.Prelude.{◌≡◌, ◌⊎◌, ◌+◌, None, Some, true, false, is_some, IfOk, IfErr, OnOk, OnErr, MatchResult};
ghost use Rattle.std.specs.Option.{option_copied};
ghost use Rattle.occ_types.specs.PlainData.{key_of, end_of};
ghost use Rattle.occ_types.specs.Question.{Span};
ghost use Rattle.occ_types.specs.declared.fault.Fault.TheVariants.{Memory};
ghost use Rattle.occ_client.specs.Clients.{count_end, ending, spent};
ghost use Rattle.occ_open.specs.Replies.{reading, scanning, forgetting};
ghost use Rattle.occ_open.specs.Transactions.{IsRefusedBy, write_fault, written, WantsRoom, Gets, WantsOwn, Scans, WantsRange, Abandons, open_after, OrStarves};
ghost use Rattle.occ_sharing.specs.Sharing.{Begins, DidNothing, EndsAtOnce, InOneHolding, IsKept};

use crate::places::{Missed, Place};
use crate::workers::Worker;
use occ_client::End;
use occ_sets::{RangeRows, Write};
use occ_types::{Fault, Key, Refused, Row};
use std::alloc::Allocator;

impl<A: Allocator + Copy> Worker<A> {
    /// Opens the session's next transaction, as `Client::begin`.
    pub fn begin(&mut self) -> Result<Result<(), Fault>, Missed>
        ensures { MatchResult result
            (λ done. InOneHolding self.old self.new (Begins self.old.client self.new.client done))
            (λ _. DidNothing self.old self.new) }
    {
        let holding = self.take()?;
        let begun = self.client.begin(&holding.held.core);
        self.give(holding);
        Ok(begun)
    }

    /// Writes a row under a key of a table, as `Client::put`. It asks for no core.
    pub fn put(&mut self, table: usize, key: Key<A>, row: Row<A>) -> Result<(), Refused<Write<A>>>
        ensures kept { self.new ≡ record self.old { client = self.new.client } }
        ensures ok { OnOk result (self.new.client ≡ record self.old.client { current = written self.old.client.current (table, key_of key) (Some row); returned = self.new.client.returned }) }
        ensures err { OnErr result (IsKept self.old.client self.new.client) }
        ensures handed_back { IfErr result (λ refused. refused.value ≡ (record { table = table; key = key }, Some row)) }
        ensures fault { IfErr result (λ refused. ((self.old.client.returned ≡ true) × (refused.fault ≡ Memory)) ⊎ IsRefusedBy (write_fault self.old.settings.schema (table, key_of key) (Some row) self.old.client.current) (WantsRoom (table, key_of key) self.old.client.current) refused.fault) }
        ensures fits { OnOk result (write_fault self.old.settings.schema (table, key_of key) (Some row) self.old.client.current ≡ None) }
    {
        let place: &Place<A> = &self.place;
        self.client
            .put_by(&place.settings().schema, table, key, row)
    }

    /// Deletes the row under a key of a table, as `Client::delete`. It asks for no core.
    pub fn delete(&mut self, table: usize, key: Key<A>) -> Result<(), Refused<Write<A>>>
        ensures kept { self.new ≡ record self.old { client = self.new.client } }
        ensures ok { OnOk result (self.new.client ≡ record self.old.client { current = written self.old.client.current (table, key_of key) None; returned = self.new.client.returned }) }
        ensures err { OnErr result (IsKept self.old.client self.new.client) }
        ensures handed_back { IfErr result (λ refused. refused.value ≡ (record { table = table; key = key }, None)) }
        ensures fault { IfErr result (λ refused. ((self.old.client.returned ≡ true) × (refused.fault ≡ Memory)) ⊎ IsRefusedBy (write_fault self.old.settings.schema (table, key_of key) None self.old.client.current) (WantsRoom (table, key_of key) self.old.client.current) refused.fault) }
        ensures fits { OnOk result (write_fault self.old.settings.schema (table, key_of key) None self.old.client.current ≡ None) }
    {
        let place: &Place<A> = &self.place;
        self.client.delete_by(&place.settings().schema, table, key)
    }

    /// The row under a key of a table, as `Client::get`.
    pub fn get(
        &mut self,
        table: usize,
        key: &Key<A>,
    ) -> Result<Result<Option<Row<A>>, Fault>, Missed>
        ensures { MatchResult result
            (λ done. InOneHolding self.old self.new (λ before after. IsKept self.old.client self.new.client
            × OrStarves ((self.old.client.returned ≡ true) ⊎ WantsOwn before.settings.schema (table, key_of key.now) self.old.client.current) before (reading done) after
            (Gets before self.old.client.session (table, key_of key.now) self.old.client.current (reading done) after)))
            (λ _. DidNothing self.old self.new) }
    {
        let mut holding = self.take()?;
        let row = self.client.get(&mut holding.held.core, table, key);
        self.give(holding);
        Ok(row)
    }

    /// The rows of a table from the lower end on and below the upper one, as `Client::scan`.
    pub fn scan(
        &mut self,
        table: usize,
        lower: Option<&Key<A>>,
        upper: Option<&Key<A>>,
    ) -> Result<Result<RangeRows<A>, Fault>, Missed>
        ensures { MatchResult result
            (λ done. InOneHolding self.old self.new (λ before after. IsKept self.old.client self.new.client
            × OrStarves ((self.old.client.returned ≡ true) ⊎ WantsRange before.settings.schema (Span table (end_of (option_copied lower.entry)) (end_of (option_copied upper.entry))) self.old.client.current) before (scanning done) after
            (Scans before self.old.client.session (Span table (end_of (option_copied lower.entry)) (end_of (option_copied upper.entry))) self.old.client.current (scanning done) after)))
            (λ _. DidNothing self.old self.new) }
    {
        let mut holding = self.take()?;
        let rows = self
            .client
            .scan(&mut holding.held.core, table, lower, upper);
        self.give(holding);
        Ok(rows)
    }

    /// The store forgets what the open transaction read, and none is open then, as `Client::abandon`.
    pub fn abandon(&mut self) -> Result<Result<bool, Fault>, Missed>
        ensures { MatchResult result
            (λ done. InOneHolding self.old self.new (λ before after.
            Abandons before self.old.client.session self.old.client.current (forgetting done) after
            × (self.new.client ≡ record self.old.client { current = open_after self.old.client.current (forgetting done); returned = self.new.client.returned })))
            (λ _. DidNothing self.old self.new) }
    {
        let mut holding = self.take()?;
        let known = self.client.abandon(&mut holding.held.core);
        self.give(holding);
        Ok(known)
    }

    /// Ends the open transaction at once: it commits with all its writes done, or is backed up with none. Refused with `NoReadOpen`, and
    /// as `Core::serial_end`; it is open then as it was.
    pub fn commit(&mut self) -> Result<Result<End, Fault>, Missed>
        ensures { MatchResult result
            (λ done. InOneHolding self.old self.new (λ before after.
            EndsAtOnce self.old.client before (ending done) after
            × IfOk done (λ end. self.new.client ≡ count_end end (spent self.old.client))
            × OnErr done (IsKept self.old.client self.new.client)))
            (λ _. DidNothing self.old self.new) }
    {
        let mut holding = self.take()?;
        let end = self.client.commit(&mut holding.held.core);
        self.give(holding);
        Ok(end)
    }
}
