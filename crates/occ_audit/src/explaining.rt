//! The first finding of a log.
ghost use Rattle.std.specs.Prelude.{◌≡◌, ℕ, is_none, IfOk, IfErr, MatchOption, OnOk};
ghost use Rattle.std.specs.Bool.{Decides};
ghost use Rattle.std.specs.FinMap as finite;
ghost use Rattle.occ_types.specs.PlainData.{object_of};
ghost use Rattle.occ_types.specs.declared.fault.Fault.TheVariants.{Memory};
ghost use Rattle.occ_model.specs.State.{apply};
ghost use Rattle.occ_model.specs.Log.{Audited, Case, settled};
ghost use Rattle.occ_sets.specs.LogRows as books;
ghost use Rattle.occ_book.specs.LastWrites.{writes_in};
ghost use Rattle.occ_audit.specs.Rows.{log_of};
ghost use Rattle.occ_audit.specs.Differences.{spot_of};
ghost use Rattle.occ_audit.specs.Findings.{IsFinding};
ghost use Rattle.occ_audit.specs.Explaining.{IsBehind, IsTablesFinding};

use crate::answers::copied;
use crate::disorders::first_disorder;
use crate::findings::{Finding, ObjectApart};
use crate::first_difference::{Spot, first_difference, row_at};
use crate::first_read::{Replayed, replay_rows};
use crate::replica::Replica;
use crate::rests::{Rests, rests_of};
use occ_book::{BookView, LogRow, Tables};
use occ_types::{Fault, Object};
use std::alloc::{AllocError, Allocator};

/// The first finding of a book, or none where its audit says yes: none exactly where `audit_rows` says true of it.
///
/// The numbers of the base and of the log may be any, as for the audit. The time is linear in the log, in what its rows read and write and in the rows of the base and of the tables, but for a factor for each search in a map. The memory is that of two maps of references to the rows of the tables and of the replayed state, of a few words for each session and each write that is still to be done, and of what the finding tells.
///
/// It is refused with `Memory` where there is none.
pub fn explain_book<A: Allocator + Copy, O>(
    alloc: A,
    book: &BookView<'_, A, O>,
) -> Result<Option<Finding<A>>, Fault>
    ensures agrees { (opened : O → ℕ × Case) → IfOk result (λ found. Decides (is_none found) (Audited book.now.base.now.base book.now.marks.now.marks book.now.table.now.state (books.log_of opened book.now.log.now))) }
    ensures first { IfOk result (λ found. MatchOption found
        (Audited book.now.base.now.base book.now.marks.now.marks book.now.table.now.state (log_of book.now.log.now))
        (IsFinding book.now.base.now.base book.now.marks.now.marks book.now.table.now.state (log_of book.now.log.now))) }
    ensures err { IfErr result (λ fault. fault ≡ Memory) }
{
    let found = first_finding(alloc, book)?;
    Ok(found)
}

// The first finding.
fn first_finding<A: Allocator + Copy, O>(
    alloc: A,
    book: &BookView<'_, A, O>,
) -> Result<Option<Finding<A>>, AllocError>
    ensures { IfOk result (λ found. MatchOption found
        (Audited book.now.base.now.base book.now.marks.now.marks book.now.table.now.state (log_of book.now.log.now))
        (IsFinding book.now.base.now.base book.now.marks.now.marks book.now.table.now.state (log_of book.now.log.now))) }
{
    let disorder = first_disorder(alloc, book)?;
    if let Some(disorder) = disorder {
        return Ok(Some(Finding::Order(disorder)));
    }
    replay_finding(alloc, book)
}

// The first finding of a replay of a log that is in order.
fn replay_finding<A: Allocator + Copy, O>(
    alloc: A,
    book: &BookView<'_, A, O>,
) -> Result<Option<Finding<A>>, AllocError>
    ensures { IfOk result (IsBehind book.now.base.now.base.state book.now.table.now.state (log_of book.now.log.now)) }
{
    match replay_rows(alloc, book.base, book.log)? {
        Replayed::To(wrong) => Ok(Some(Finding::Read(wrong))),
        Replayed::Whole(replayed) => tables_finding(alloc, book.table, book.log, replayed),
    }
}

// The first object of which the tables have another row than a replayed state, once what the open write phases have still to do is done.
fn tables_finding<'a, A: Allocator + Copy, O>(
    alloc: A,
    tables: &'a Tables<A>,
    log: &'a [LogRow<A, O>],
    replayed: Replica<'a, A>,
) -> Result<Option<Finding<A>>, AllocError>
    ensures { IfOk result (IsTablesFinding (settled tables.now.state (log_of log.now)) replayed.entry) }
{
    let settled = settled_state(alloc, tables, log)?;
    match first_difference(&settled, &replayed) {
        None => Ok(None),
        Some(spot) => {
            let apart = object_apart(spot, &settled, &replayed)?;
            Ok(Some(Finding::Object(apart)))
        }
    }
}

// The state of the tables once what the open write phases have still to do is done.
fn settled_state<'a, A: Allocator + Copy, O>(
    alloc: A,
    tables: &'a Tables<A>,
    log: &'a [LogRow<A, O>],
) -> Result<Replica<'a, A>, AllocError>
    ensures { IfOk result (λ state. state ≡ settled tables.now.state (log_of log.now)) }
{
    let rests = rests_of(alloc, log)?;
    let mut state = Replica::of(alloc, tables)?;
    settle(&mut state, &rests)?;
    Ok(state)
}

// Does what the open write phases have still to do.
fn settle<'a, A: Allocator + Copy>(
    state: &mut Replica<'a, A>,
    rests: &Rests<'a, A>,
) -> Result<(), AllocError>
    ensures { OnOk result (state.new ≡ apply state.old (writes_in rests.now.entries)) }
{
    for (object, row) in rests {
        state.put(*object, *row)?;
    }
    Ok(())
}

// What two states have of an object.
fn object_apart<'a, A: Allocator + Copy>(
    spot: Spot<'a, A>,
    settled: &Replica<'a, A>,
    replayed: &Replica<'a, A>,
) -> Result<ObjectApart<A>, AllocError>
    ensures object { IfOk result (λ apart. object_of apart.object ≡ spot_of spot.entry) }
    ensures settled { IfOk result (λ apart. apart.settled ≡ finite.get settled.now (spot_of spot.entry)) }
    ensures replayed { IfOk result (λ apart. apart.replayed ≡ finite.get replayed.now (spot_of spot.entry)) }
{
    let Spot { table, key } = spot;
    let settled = copied(row_at(settled, table, key))?;
    let replayed = copied(row_at(replayed, table, key))?;
    let key = key.to_key()?;
    Ok(ObjectApart {
        object: Object { table, key },
        settled,
        replayed,
    })
}
