//! Reading a whole workload, before anything is run.

ghost use Rattle.std.specs.Prelude.{◌≡◌, ◌+◌, ◌*◌, ◌≤◌, ◌^◌, ◌↔◌, ◌++◌, ◌∷◌, [], IfOk, IfErr, IsTrue, map, codes};
ghost use Rattle.std.specs.Io.KnownBytes.{prepend_known};
ghost use Rattle.occ_text.specs.Headers.{table_text};
ghost use Rattle.occ_text.specs.Languages.{position_of, TakesFrom};
ghost use Rattle.occ_text.specs.Line.{Taken, HasFailed};
ghost use Rattle.occ_text.specs.Faults.{widened};
ghost use Rattle.occ_text.specs.Reading.{Reads};
ghost use Rattle.occ_text.specs.declared.faults.LineFault.TheVariants as line_faults;
ghost use Rattle.occ_text.specs.declared.faults.ReadFault.TheVariants as read_faults;
ghost use Rattle.occ_run.specs.Workloads.{load_text, load_version, Version as VersionAt, Tables as TablesAt, Transactions as TransactionsAt, settings_lines, HasRoom, loads};
ghost use Rattle.occ_run.specs.Plans.{plan_of, PlanTaken, PlansTaken, WorkloadTaken};

use crate::named::planned;
use crate::transaction_lines::read_transaction;
use occ_sets::Op;
use occ_text::faults::{LineFault, ReadFault, read_at_line};
use occ_text::headers::{Limits, take_count, take_tables};
use occ_text::input::{Input, Next};
use occ_text::tokens::is_word;
use occ_text::versions::Version;
use occ_types::Schema;
use occ_types::limits::{MAX_KEEP, MAX_QUEUE, MAX_SESSIONS};
use std::alloc::Allocator;
use std::io::Read;

/// Most validators that a workload has.
const MAX_VALIDATORS: u64 = 64;

/// Most retries of a transaction before it runs alone.
const MAX_RETRIES: u64 = 16;

/// Most rows that a run may put into the log: all tries of all transactions, and a run alone of each.
const MAX_ROWS: u64 = 1 << 20;

/// How a workload is run, but for its tables.
#[derive(Clone, Copy, Debug, PartialEq, Eq)]
pub struct Settings {
    /// The version, the sessions, the queues and the window.
    pub limits: Limits,
    /// How many groups the lanes are dealt to, 1 to 64.
    pub validators: usize,
    /// How often a transaction that was backed up is tried again before it runs alone, 0 to 16.
    pub retries: u64,
}

/// A transaction that a session is to run.
#[derive(Drop)]
pub struct Plan<A: Allocator> {
    /// The session, from 1 on.
    pub session: usize,
    /// What it does, in this order. A table that isn't there has the place behind the last one.
    pub operations: Vec<Op<A>, A>,
}

/// A workload that was read.
#[derive(Drop)]
pub struct Workload<A: Allocator> {
    /// How it is run.
    pub settings: Settings,
    /// The tables.
    pub schema: Schema<A>,
    /// What its sessions run, in the order of the lines.
    pub plans: Vec<Plan<A>, A>,
}

#[tactic(auto, unfolding(crate::specs::Workloads::load_version))]
fn version_value(line: &[u8]) -> Option<Version>
    ensures { result ≡ load_version line.now }
{
    if is_word(line, "load 1") {
        Some(Version::One)
    } else if is_word(line, "load 2") {
        Some(Version::Two)
    } else {
        None
    }
}

// The version that a line says, `load 1` or `load 2`.
fn version(line: &[u8]) -> Option<Version>
    ensures { Reads load_text (λ version. Unit {0}) line.now result }
{
    version_value(line)
}

// Takes the line `load 1` or `load 2`, and answers the version.
fn take_version<R: Read, A: Allocator>(
    input: &mut Input<A>,
    reader: &mut R,
) -> Result<Version, LineFault>
    ensures gives { Taken (λ version. version) load_text (λ version. Unit {0}) (widened result)
        (prepend_known input.old.unread (R.remaining reader.old))
        (prepend_known input.new.unread (R.remaining reader.new)) input.old.number input.new.number }
    ensures cause { IfErr result (λ fault. fault ≡ line_faults.Read → HasFailed input.new) }
{
    input.take_line(reader)?;
    version(input.line()).ok_or(LineFault::Malformed(input.number()))
}

// Takes the first six lines.
fn take_settings<R: Read, A: Allocator>(
    input: &mut Input<A>,
    reader: &mut R,
) -> Result<Settings, LineFault>
    ensures gives { TakesFrom loads (widened result) VersionAt (λ settings. TablesAt settings []) settings_lines (λ settings. settings.retries ≤ 16) (position_of input.old (R.remaining reader.old)) (position_of input.new (R.remaining reader.new)) }
    ensures cause { IfErr result (λ fault. fault ≡ line_faults.Read → HasFailed input.new) }
{
    let version = take_version(input, reader)?;
    let sessions = take_count(input, reader, "sessions", 1, MAX_SESSIONS as u64)?;
    let queue = take_count(input, reader, "queue", 1, MAX_QUEUE as u64)?;
    let keep = take_count(input, reader, "keep", 1, MAX_KEEP as u64)?;
    let validators = take_count(input, reader, "validators", 1, MAX_VALIDATORS)?;
    let retries = take_count(input, reader, "retries", 0, MAX_RETRIES)?;
    let limits = Limits {
        version,
        sessions: sessions as usize,
        queue: queue as usize,
        keep: keep as usize,
    };
    Ok(Settings {
        limits,
        validators: validators as usize,
        retries,
    })
}

// Whether the line is `begin`.
fn is_begin(line: &[u8]) -> bool
    ensures { IsTrue result ↔ line.now ≡ codes "begin" }
{
    is_word(line, "begin")
}

// Takes the lines of the tables, and `begin`.
fn take_schema<R: Read, A: Allocator + Copy>(
    alloc: A,
    input: &mut Input<A>,
    reader: &mut R,
    settings: Settings,
) -> Result<Schema<A>, ReadFault>
    ensures taken { TakesFrom loads result (TablesAt settings []) (λ schema. TransactionsAt settings schema []) (λ schema. map table_text schema ++ codes "begin" ∷ []) (λ schema. Unit {0}) (position_of input.old (R.remaining reader.old)) (position_of input.new (R.remaining reader.new)) }
    ensures cause { IfErr result (λ fault. fault ≡ read_faults.Read → HasFailed input.new) }
{
    let tables = take_tables(alloc, settings.limits.version, input, reader)?;
    let number = input.number();
    if !is_begin(input.line()) {
        return Err(ReadFault::Malformed(number));
    }
    match Schema::new(tables) {
        Ok(schema) => Ok(schema),
        Err(_) => Err(ReadFault::Malformed(number)),
    }
}

// Whether the log has room for one transaction more behind so many, with all its tries.
fn has_room(retries: u64, before: usize) -> bool
    requires retries { retries ≤ 16 }
    requires before { before ≤ 2 ^ 20 }
    ensures { IsTrue result ↔ HasRoom retries (before + 1) }
{
    (before as u64 + 1).saturating_mul(retries + 2) <= MAX_ROWS
}

// Takes the line of one more transaction behind so many, or nothing at the end of the text.
fn take_plan<R: Read, A: Allocator + Copy>(
    alloc: A,
    input: &mut Input<A>,
    reader: &mut R,
    settings: Settings,
    schema: &Schema<A>,
    before: usize,
) -> Result<Option<Plan<A>>, ReadFault>
    requires retries { settings.retries ≤ 16 }
    requires before { before ≤ 2 ^ 20 }
    ensures taken { PlanTaken plan_of result settings schema.now before (position_of input.old (R.remaining reader.old)) (position_of input.new (R.remaining reader.new)) }
    ensures cause { IfErr result (λ fault. fault ≡ read_faults.Read → HasFailed input.new) }
{
    match input.next_line(reader)? {
        Next::End => return Ok(None),
        Next::Line => {}
    }
    if !has_room(settings.retries, before) {
        return Err(ReadFault::Malformed(input.number()));
    }
    let limits = settings.limits;
    let transaction = read_at_line(
        read_transaction(alloc, limits.version, limits.sessions, input.line()),
        input.number(),
    )?;
    let plan = planned(alloc, schema, transaction)?;
    Ok(Some(plan))
}

// Takes the lines of all transactions, up to the end of the text.
fn take_plans<R: Read, A: Allocator + Copy>(
    alloc: A,
    input: &mut Input<A>,
    reader: &mut R,
    settings: Settings,
    schema: &Schema<A>,
) -> Result<Vec<Plan<A>, A>, ReadFault>
    requires { settings.retries ≤ 16 }
    ensures taken { PlansTaken (λ plans. map plan_of plans.items) result settings schema.now (position_of input.old (R.remaining reader.old)) (position_of input.new (R.remaining reader.new)) }
    ensures cause { IfErr result (λ fault. fault ≡ read_faults.Read → HasFailed input.new) }
{
    let mut plans = Vec::new(alloc);
    loop {
        match take_plan(alloc, input, reader, settings, schema, plans.len())? {
            Some(plan) => plans.push(plan)?,
            None => return Ok(plans),
        }
    }
}

/// Reads a whole workload from the beginning of a text.
///
/// `Malformed` at the first line that can't stand where it stands, also where the text ends before its header is whole, and at the line
/// with which the transactions times (retries + 2) pass 2^20; `Read` where the reader fails; `TooManyLines` where a line has no number;
/// `Memory` where it was refused. After any of them the input is of no more use. After a workload it is at the end of the text.
pub fn read_workload<R: Read, A: Allocator + Copy>(
    alloc: A,
    input: &mut Input<A>,
    reader: &mut R,
) -> Result<Workload<A>, ReadFault>
    ensures taken { WorkloadTaken result (position_of input.old (R.remaining reader.old)) (position_of input.new (R.remaining reader.new)) }
    ensures cause { IfErr result (λ fault. fault ≡ read_faults.Read → HasFailed input.new) }
{
    let settings = take_settings(input, reader)?;
    let schema = take_schema(alloc, input, reader, settings)?;
    let plans = take_plans(alloc, input, reader, settings, &schema)?;
    Ok(Workload {
        settings,
        schema,
        plans,
    })
}
