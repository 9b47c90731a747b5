//! A core that goes on from a base.
ghost use Rattle.std.specs.Prelude.{◌≡◌, ◌<◌, ℕ, [], nat_lt, length, unwrap_or, IfOk, IfErr, OnOk, None, Some, ◌≤◌};
ghost use Rattle.std.specs.FinMap as finite;
ghost use Rattle.std.specs.Result.{result_err};
ghost use Rattle.occ_types.specs.declared.fault.Fault.TheVariants.{NumbersExhausted};
ghost use Rattle.occ_types.specs.declared.limits.TheConstants.{MAX_NUMBER};
ghost use Rattle.occ_types.specs.Schema.{fault_if};
ghost use Rattle.occ_book.specs.KeyRefs.{key_lent};
ghost use Rattle.occ_types.specs.Object as objects;
ghost use Rattle.occ_model.specs.Content.{IsSession};
ghost use Rattle.occ_model.specs.World.{resumed};
ghost use Rattle.occ_log.specs.Logs.{IsBegun};
ghost use Rattle.occ_core.specs.Totals.{no_totals};
ghost use Rattle.occ_core.specs.Resuming.{row_fault, rows_fault, table_fault, tables_fault, numbers_fault, front_fault, state_fault, resume_fault, CannotGoOn, Unfolded};

use crate::checkpoint::MAX_PLACE;
use crate::core_state::Core;
use crate::totals::Totals;
use occ_book::{Base, KeyRef, Marks, TableRows, Tables};
use occ_log::{Log, ReadPhases, Sessions, Window};
use occ_types::limits::{MAX_COUNTER, MAX_NUMBER};
use occ_types::{Fault, Key, Refused, Row, Schema};
use std::alloc::{AllocError, Allocator};

// The parts of a core that takes memory beside its base: the tables, the sessions, the window, the marks and the log.
type Room<A> = (Tables<A>, Sessions<A>, Window<A>, Marks<A>, Log<A>);

impl<A: Allocator + Copy> Core<A> {
    /// A store that goes on from a base: with its rows, its sessions' last numbers and its place, and with the transaction counter where
    /// it stood. Its tables are those of the schema. It has so many sessions, and keeps the last `keep` write sets for testing; nobody
    /// has an opponent that finished before.
    ///
    /// Refused, the first of these that holds, and the schema and the base handed back: with `NoTable` where the base has another
    /// number of tables; with `NoSession` where it has more sessions; with `CounterExhausted` where the counter is past its limit; with
    /// `LogFull` where its place is above `MAX_PLACE`; with `NumbersExhausted` where a last number is past its limit; with `Memory`
    /// where there is none for the tables and what else there is; with `OutOfTurn` where it stands at place 0, and yet something was
    /// folded into it; and with `WrongKind`, `TooLong` or `WrongColumns` for the first row, in the order of tables and keys, that
    /// doesn't fit its table.
    pub fn resume(
        alloc: A,
        schema: Schema<A>,
        sessions: usize,
        keep: usize,
        base: Base<A>,
        counter: u64,
    ) -> Result<Core<A>, Refused<(Schema<A>, Base<A>)>>
        ensures resumed { IfOk result (λ core. core.world ≡ resumed (record { schema = schema; sessions = sessions; keep = keep }) base.base counter) }
        ensures totals { IfOk result (λ core. core.totals ≡ no_totals base.base.place) }
        ensures fits { IfOk result (λ _. resume_fault schema sessions base counter ≡ None) }
        ensures fault { IfErr result (λ refused. CannotGoOn schema sessions base counter refused.fault) }
        ensures handed_back { IfErr result (λ refused. refused.value ≡ (schema, base)) }
    {
        let room = match room_beside(alloc, &schema, sessions, keep, &base, counter) {
            Ok(room) => room,
            Err(fault) => {
                return Err(Refused {
                    value: (schema, base),
                    fault,
                });
            }
        };
        let base = match base.for_sessions(alloc, sessions) {
            Ok(base) => base,
            Err(Refused { value, fault }) => {
                return Err(Refused {
                    value: (schema, value),
                    fault,
                });
            }
        };
        let (tables, states, window, marks, log) = room;
        let totals = Totals::none(base.place());
        Ok(Core {
            alloc,
            schema,
            tables,
            base,
            log,
            counter,
            phases: ReadPhases::new(alloc),
            sessions: states,
            window,
            marks,
            totals,
        })
    }
}

// The parts beside a base that a store may go on from.
fn room_beside<A: Allocator + Copy>(
    alloc: A,
    schema: &Schema<A>,
    sessions: usize,
    keep: usize,
    base: &Base<A>,
    counter: u64,
) -> Result<Room<A>, Fault>
    ensures none { IfOk result (λ _. resume_fault schema.now sessions base.now counter ≡ None) }
    ensures sessions_known { IfOk result (λ _. (session number : ℕ) → finite.get base.now.base.last session ≡ Some number → IsSession base.now.sessions session) }
    ensures placed { IfOk result (λ _. (object : objects.Object) → base.now.tables ≤ object.0 → finite.get base.now.base.state object ≡ None) }
    ensures tables { IfOk result (λ room. room.0 ≡ record { tables = base.now.tables; state = base.now.base.state }) }
    ensures sessions { IfOk result (λ room. Unfolded base.now.base sessions room.1) }
    ensures window { IfOk result (λ room. room.2 ≡ record { keep = keep; sets = [] }) }
    ensures marks { IfOk result (λ room. room.3 ≡ record { sessions = sessions; marks = finite.empty }) }
    ensures log { IfOk result (λ room. IsBegun base.now.base.place sessions room.4) }
    ensures fault { IfErr result (λ fault. CannotGoOn schema.now sessions base.now counter fault) }
{
    check_front(schema, sessions, base, counter)?;
    let tables = base.state()?;
    check_state(schema, base, &tables)?;
    let states = slots_of(alloc, base, sessions)?;
    let window = Window::new(alloc, keep)?;
    let marks = Marks::new(alloc, sessions)?;
    let log = Log::new(alloc, base.place(), sessions)?;
    Ok((tables, states, window, marks, log))
}

// Whether a store may go on from a base, as far as that is told without a look at its rows.
fn check_front<A: Allocator + Clone>(
    schema: &Schema<A>,
    sessions: usize,
    base: &Base<A>,
    counter: u64,
) -> Result<(), Fault>
    ensures fault { result_err result ≡ front_fault schema.now sessions base.now counter }
    ensures sessions { OnOk result ((session number : ℕ) → finite.get base.now.base.last session ≡ Some number → IsSession base.now.sessions session) }
{
    if base.tables() != schema.tables().len() {
        return Err(Fault::NoTable);
    }
    if sessions < base.numbers().sessions() {
        return Err(Fault::NoSession);
    }
    if counter > MAX_COUNTER {
        return Err(Fault::CounterExhausted);
    }
    if base.place() > MAX_PLACE {
        return Err(Fault::LogFull);
    }
    check_numbers(base.numbers())
}

// Whether no last number is past its limit.
fn check_numbers<A: Allocator>(numbers: &Marks<A>) -> Result<(), Fault>
    ensures fault { result_err result ≡ numbers_fault numbers.now.marks 1 numbers.now.sessions }
    ensures sessions { (session number : ℕ) → finite.get numbers.now.marks session ≡ Some number → IsSession numbers.now.sessions session }
{
    for place in 0..numbers.sessions() {
        check_number(numbers.get(place + 1))?;
    }
    Ok(())
}

// Whether a last number is within its limit, if there is one.
fn check_number(number: Option<u64>) -> Result<(), Fault>
    ensures { result_err result ≡ fault_if (nat_lt MAX_NUMBER (unwrap_or number 0)) NumbersExhausted }
{
    match number {
        Some(number) if number > MAX_NUMBER => Err(Fault::NumbersExhausted),
        _ => Ok(()),
    }
}

// Whether the rows of a base, which stand in these tables, fit a schema.
fn check_state<A: Allocator + Clone>(
    schema: &Schema<A>,
    base: &Base<A>,
    tables: &Tables<A>,
) -> Result<(), Fault>
    requires tables { tables.now ≡ record { tables = base.now.tables; state = base.now.base.state } }
    requires count { base.now.tables ≡ length schema.now }
    ensures fault { result_err result ≡ state_fault schema.now base.now.base }
    ensures placed { OnOk result ((object : objects.Object) → base.now.tables ≤ object.0 → finite.get base.now.base.state object ≡ None) }
{
    if base.place() == 0 && !(tables.len() == 0 && base.numbers().is_empty()) {
        return Err(Fault::OutOfTurn);
    }
    check_tables(schema, tables)
}

// Whether all rows of some tables fit a schema.
fn check_tables<A: Allocator + Clone>(schema: &Schema<A>, tables: &Tables<A>) -> Result<(), Fault>
    ensures fault { result_err result ≡ tables_fault schema.now tables.now.state 0 tables.now.tables }
    ensures placed { (object : objects.Object) → tables.now.tables ≤ object.0 → finite.get tables.now.state object ≡ None }
{
    for table in 0..tables.count() {
        check_table(schema, tables, table)?;
    }
    Ok(())
}

// Whether the rows of a table fit it.
fn check_table<A: Allocator>(
    schema: &Schema<A>,
    tables: &Tables<A>,
    table: usize,
) -> Result<(), Fault>
    requires { table < tables.now.tables }
    ensures { result_err result ≡ table_fault schema.now tables.now.state table }
{
    match tables.table(table) {
        Some(rows) => check_rows(schema, table, rows),
        None => Ok(()),
    }
}

// Whether some rows fit a table.
fn check_rows<A: Allocator>(
    schema: &Schema<A>,
    table: usize,
    rows: TableRows<'_, A>,
) -> Result<(), Fault>
    ensures { result_err result ≡ rows_fault schema.now table rows.entry }
{
    for (key, row) in rows {
        check_one(schema, table, key, row)?;
    }
    Ok(())
}

// Whether a row fits a table.
fn check_one<A: Allocator>(
    schema: &Schema<A>,
    table: usize,
    key: KeyRef<'_, A>,
    row: &Row<A>,
) -> Result<(), Fault>
    ensures { result_err result ≡ row_fault schema.now table (key_lent key.entry) row.now }
{
    match key {
        KeyRef::Num(number) => schema.check_key(table, &Key::Num(number))?,
        KeyRef::Other(key) => schema.check_key(table, key)?,
    }
    schema.check_row(table, row)
}

// So many sessions, each of which has had the last number that a base has of it, and has nothing under way.
fn slots_of<A: Allocator>(
    alloc: A,
    base: &Base<A>,
    sessions: usize,
) -> Result<Sessions<A>, AllocError>
    ensures { IfOk result (λ slots. Unfolded base.now.base sessions slots) }
{
    let mut states = Sessions::new(alloc, sessions)?;
    for place in 0..sessions {
        if let Some(number) = base.last(place + 1) {
            states.pass(place, number);
        }
    }
    Ok(states)
}
