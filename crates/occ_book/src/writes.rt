//! The writes of a set, all or none.
ghost use Rattle.std.specs.Prelude.{◌≡◌, ◌<◌, ◌+◌, List, [], drop, Some, None, OnOk, OnErr, IsOk, IsOkUnless};
ghost use Rattle.std.specs.Option.{option_copied};
ghost use Rattle.occ_types.specs.declared.fault.Fault.TheVariants.{Memory};
ghost use Rattle.occ_types.specs.PlainData.{object_of};
ghost use Rattle.occ_model.specs.State.{State, Write, put, apply};
ghost use Rattle.occ_book.specs.Kept.{all_kept};
ghost use Rattle.occ_sets.specs.Sets.{ArePlaced};
ghost use Rattle.occ_book.specs.Undo.{if_put, puts, if_deletion, deletions, Replaced, KeepsReplaced, kept_writes};

use crate::kept_rows::KeptRows;
use crate::tables::Tables;
use occ_sets::WriteSet;
use occ_types::{Fault, Object, Row};
use std::alloc::Allocator;

impl<A: Allocator + Copy> Tables<A> {
    /// Does all writes of a set, as if one after another in their order, or none of them. The tables of the set have to be there.
    ///
    /// Refused with `Memory` where there is none for a copy of a row, for a new key, or for the list of the rows that are replaced, which is kept until all rows are put. That leaves the tables as they were. A set of deletions alone takes no memory.
    pub fn put_all(&mut self, writes: &WriteSet<A>) -> Result<(), Fault>
        requires { ArePlaced self.old.tables writes.now }
        ensures ok { OnOk result (self.new ≡ record { tables = self.old.tables; state = apply self.old.state writes.now }) }
        ensures err { OnErr result (self.new ≡ self.old) }
        ensures memory { IsOkUnless result Memory }
        ensures deletes { puts writes.now ≡ [] → IsOk result }
    {
        let mut kept = KeptRows::new(self.allocator());
        if let Err(fault) = self.put_rows(writes, &mut kept) {
            self.take_back(kept);
            return Err(fault);
        }
        // its clause says that no object is written twice, so the deletions may come last
        let _writes = writes.len();
        self.delete_rows(writes);
        Ok(())
    }

    // Puts the rows of a set, and keeps what they replace. What was put before a refusal stands.
    #[tactic(auto, using(crate::proofs::Parted::puts_drop))]
    fn put_rows<'w>(
        &mut self,
        writes: &'w WriteSet<A>,
        kept: &mut KeptRows<'w, A>,
    ) -> Result<(), Fault>
        requires { ArePlaced self.old.tables writes.now }
        ensures tables { self.new.tables ≡ self.old.tables }
        ensures replaced { KeepsReplaced (kept_writes (all_kept kept.old)) self.old.state (kept_writes (all_kept kept.new)) self.new.state }
        ensures ok { OnOk result (self.new.state ≡ apply self.old.state (puts writes.now)) }
        ensures memory { IsOkUnless result Memory }
        ensures deletes { puts writes.now ≡ [] → IsOk result }
    {
        for place in 0..writes.len() {
            self.put_at(writes, place, kept)?;
        }
        Ok(())
    }

    // Puts the row of the write at a place, and keeps what it replaces. A deletion waits.
    fn put_at<'w>(
        &mut self,
        writes: &'w WriteSet<A>,
        place: usize,
        kept: &mut KeptRows<'w, A>,
    ) -> Result<(), Fault>
        requires { ArePlaced self.old.tables writes.now }
        ensures tables { self.new.tables ≡ self.old.tables }
        ensures replaced { KeepsReplaced (kept_writes (all_kept kept.old)) self.old.state (kept_writes (all_kept kept.new)) self.new.state }
        ensures ok { OnOk result (apply self.new.state (puts (drop (place + 1) writes.now)) ≡ apply self.old.state (puts (drop place writes.now))) }
        ensures memory { IsOkUnless result Memory }
        ensures deletes { puts (drop place writes.now) ≡ [] → IsOk result }
    {
        let Some((object, row)) = writes.write_at(place) else {
            return Ok(());
        };
        self.put_if_row(object, row, kept)
    }

    // Puts the row that a write has, and keeps what it replaces. A deletion waits.
    fn put_if_row<'w>(
        &mut self,
        object: &'w Object<A>,
        row: Option<&Row<A>>,
        kept: &mut KeptRows<'w, A>,
    ) -> Result<(), Fault>
        requires { object.now.table < self.old.tables }
        ensures tables { self.new.tables ≡ self.old.tables }
        ensures replaced { KeepsReplaced (kept_writes (all_kept kept.old)) self.old.state (kept_writes (all_kept kept.new)) self.new.state }
        ensures ok { OnOk result ((others : List Write) → apply self.new.state others ≡ apply self.old.state (if_put (object_of object.now) (option_copied row.entry) others)) }
        ensures memory { IsOkUnless result Memory }
        ensures deletes { option_copied row.entry ≡ None → IsOk result }
    {
        let Some(row) = row else {
            return Ok(());
        };
        self.put_and_keep(object, row, kept)
    }

    // Puts a copy of a row, and keeps what it replaces. A refusal leaves both as they were.
    fn put_and_keep<'w>(
        &mut self,
        object: &'w Object<A>,
        row: &Row<A>,
        kept: &mut KeptRows<'w, A>,
    ) -> Result<(), Fault>
        requires { object.now.table < self.old.tables }
        ensures tables { self.new.tables ≡ self.old.tables }
        ensures replaced { KeepsReplaced (kept_writes (all_kept kept.old)) self.old.state (kept_writes (all_kept kept.new)) self.new.state }
        ensures ok { OnOk result (self.new.state ≡ put self.old.state (object_of object.now, Some row.now)) }
        ensures memory { IsOkUnless result Memory }
    {
        let copy = row.clone()?;
        kept.reserve()?;
        let was = self.exchange(object.table, &object.key, copy)?;
        kept.push_reserved((object, was));
        Ok(())
    }

    // Brings back what was kept, the latest first. It takes no memory.
    fn take_back(&mut self, mut kept: KeptRows<'_, A>)
        ensures tables { self.new.tables ≡ self.old.tables }
        ensures back { (start : State) → Replaced start (kept_writes (all_kept kept.entry)) self.old.state → self.new.state ≡ start }
    {
        while let Some((object, row)) = kept.pop() {
            self.set_back(object.table, &object.key, row);
        }
    }

    // Deletes what a set deletes. It takes no memory.
    fn delete_rows(&mut self, writes: &WriteSet<A>)
        requires { ArePlaced self.old.tables writes.now }
        ensures tables { self.new.tables ≡ self.old.tables }
        ensures state { self.new.state ≡ apply self.old.state (deletions writes.now) }
    {
        for place in 0..writes.len() {
            self.delete_at(writes, place);
        }
    }

    // Deletes what the write at a place deletes.
    fn delete_at(&mut self, writes: &WriteSet<A>, place: usize)
        requires { ArePlaced self.old.tables writes.now }
        ensures tables { self.new.tables ≡ self.old.tables }
        ensures state { apply self.new.state (deletions (drop (place + 1) writes.now)) ≡ apply self.old.state (deletions (drop place writes.now)) }
    {
        let Some((object, row)) = writes.write_at(place) else {
            return;
        };
        self.delete_if_none(object, row);
    }

    // Deletes what a write deletes. One that puts a row is done.
    fn delete_if_none(&mut self, object: &Object<A>, row: Option<&Row<A>>)
        requires { object.now.table < self.old.tables }
        ensures tables { self.new.tables ≡ self.old.tables }
        ensures state { (others : List Write) → apply self.new.state others ≡ apply self.old.state (if_deletion (object_of object.now) (option_copied row.entry) others) }
    {
        if let Some(_row) = row {
            return;
        }
        self.delete(object.table, &object.key);
    }
}
