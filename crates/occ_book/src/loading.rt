//! Rows that come into tables one after another.
ghost use Rattle.std.specs.Prelude.{◌≡◌, ◌-◌, ◌^◌, min, is_some, None, Some, IfOk, IfErr, OnOk, OnErr, IsOkUnless, MatchResult};
ghost use Rattle.std.specs.Option.{unwrap_or};
ghost use Rattle.std.specs.FinMap as finite;
ghost use Rattle.occ_types.specs.declared.fault.Fault.TheVariants.{Memory};
ghost use Rattle.occ_types.specs.PlainData.{object_of};
ghost use Rattle.occ_model.specs.State.{apply, put};
ghost use Rattle.occ_book.specs.Loaded.{row_fault, rows_fault, IsToldAs, puts_of, plain_rows};
ghost use Rattle.occ_book.specs.Loading.{based};

use crate::base::Base;
use crate::marks::Marks;
use crate::tables::Tables;
use occ_types::{Fault, Object, Refused, Row};
use std::alloc::Allocator;
use std::marker::Model;

/// A base that rows come into one after another, so that no list of them is kept: `Base::from_rows` takes them all at once. Clauses see how many tables and sessions there are, and the state that the rows so far make.
#[derive(Drop)]
pub struct Loading<A: Allocator> {
    state: Tables<A>,
    last: Marks<A>,
}

impl<A: Allocator> Model for Loading<A> {
    ghost use Rattle.std.specs.Prelude.{◌≡◌};
    ghost use Rattle.std.specs.FinMap as finite;
    ghost use Rattle.occ_book.specs.Loading.{LoadingContent, loading_code, loading_content};

    ghost Value = { LoadingContent };

    ghost coded = { loading_code };

    ghost view = { λ l. loading_content l.state l.last };

    ghost invariant = { λ l. l.last.marks ≡ finite.empty };
}

impl<A: Allocator + Copy> Loading<A> {
    /// No rows yet, in so many tables, and with room for the numbers of so many sessions. Refused with `Memory` where there is none for them.
    pub fn new(alloc: A, tables: usize, sessions: usize) -> Result<Loading<A>, Fault>
        ensures empty { IfOk result (λ loading. loading ≡ record { tables = tables; sessions = sessions; state = finite.empty }) }
        ensures memory { IsOkUnless result Memory }
    {
        let state = Tables::new(alloc, tables)?;
        let last = Marks::new(alloc, sessions)?;
        Ok(Loading { state, last })
    }

    /// Takes in a row, which is moved and not copied. The time is that of two searches, which are shorter where the rows come in the order of their keys; rows under numbers take the least memory then.
    ///
    /// Refused with `NoTable` where its table isn't there, with `BadSchema` where a row has its object already, and else with `Memory` where there is none for it. A refusal changes nothing, and hands the row back.
    pub fn put(
        &mut self,
        object: Object<A>,
        row: Row<A>,
    ) -> Result<(), Refused<(Object<A>, Row<A>)>>
        ensures ok { OnOk result (self.new ≡ record self.old { state = put self.old.state (object_of object, Some row) }) }
        ensures err { OnErr result (self.new ≡ self.old) }
        ensures handed_back { IfErr result (λ refused. refused.value ≡ (object, row)) }
        ensures fault { MatchResult result
            (λ _. row_fault self.old.tables (object_of object) (is_some (finite.get self.old.state (object_of object))) ≡ None)
            (λ refused. refused.fault ≡ unwrap_or (row_fault self.old.tables (object_of object) (is_some (finite.get self.old.state (object_of object)))) Memory) }
    {
        if object.table >= self.state.count() {
            return Err(Refused {
                value: (object, row),
                fault: Fault::NoTable,
            });
        }
        if self.state.row(object.table, &object.key).is_some() {
            return Err(Refused {
                value: (object, row),
                fault: Fault::BadSchema,
            });
        }
        self.state.insert(object, row)
    }

    /// How many rows came in, or the greatest `usize` where they are more. It takes no memory.
    pub fn len(&self) -> usize
        ensures { result ≡ min (finite.len self.now.state) (2 ^ 64 - 1) }
    {
        self.state.len()
    }

    /// The base with these rows, as `Base::from_rows` makes it of them: they count as what the place 0 wrote, so the next row to enter has the place 1, and no session has a number. It takes no memory.
    pub fn into_base(self) -> Base<A>
        ensures { result ≡ based self }
    {
        Base::from_parts(self.state, self.last, 1)
    }
}

/// Puts copies of some rows into tables without rows, as long as their tables are there and no object comes twice.
pub(crate) fn load_rows<A: Allocator + Clone>(
    tables: &mut Tables<A>,
    rows: &[(Object<A>, Row<A>)],
) -> Result<(), Fault>
    requires { tables.old.state ≡ finite.empty }
    ensures ok { OnOk result (tables.new ≡ record { tables = tables.old.tables; state = apply finite.empty (puts_of (plain_rows rows.now)) }) }
    ensures fault { MatchResult result
        (λ _. rows_fault tables.old.tables (plain_rows rows.now) ≡ None)
        (λ fault. IsToldAs (rows_fault tables.old.tables (plain_rows rows.now)) fault) }
{
    for row in rows {
        load_row(tables, &row.0, &row.1)?;
    }
    Ok(())
}

// Puts a copy of a row, where its table is there and no row stands under its key.
fn load_row<A: Allocator + Clone>(
    tables: &mut Tables<A>,
    object: &Object<A>,
    row: &Row<A>,
) -> Result<(), Fault>
    ensures ok { OnOk result (tables.new ≡ record { tables = tables.old.tables; state = put tables.old.state (object_of object.now, Some row.now) }) }
    ensures fault { MatchResult result
        (λ _. row_fault tables.old.tables (object_of object.now) (is_some (finite.get tables.old.state (object_of object.now))) ≡ None)
        (λ fault. IsToldAs (row_fault tables.old.tables (object_of object.now) (is_some (finite.get tables.old.state (object_of object.now)))) fault) }
{
    if object.table >= tables.count() {
        return Err(Fault::NoTable);
    }
    let copy = row.clone()?;
    let was = tables.exchange(object.table, &object.key, copy)?;
    if was.is_some() {
        return Err(Fault::BadSchema);
    }
    Ok(())
}
