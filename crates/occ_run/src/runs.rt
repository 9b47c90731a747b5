//! A run of a workload: a text in, threads, and a text out.

ghost use Rattle.std.specs.Prelude.{◌≡◌, All, map};
ghost use Rattle.std.specs.Io.KnownBytes.{Appends};
ghost use Rattle.occ_run.specs.Plans.{plan_of};
ghost use Rattle.occ_run.specs.Clients.{IsFresh};
ghost use Rattle.occ_run.specs.Reports.{AppendsFront};
ghost use Rattle.occ_run.specs.Runs.{opened_by, ReadGives, OrderGives, RunEnds, OpensAs, RunGives};

use crate::clients::Client;
use crate::groups::{Group, dealt};
use crate::loads::{Job, Load};
use crate::observers::{Observer, Unwatched};
use crate::outcomes::{are_starved, given_up, has_starved, report};
use crate::rounds::Round;
use crate::workers::{Worker, into_clients, workers_of};
use crate::workloads::{Plan, Settings, Workload, read_workload};
use occ_store::{Frame, Lane, Name, Session, Store};
use occ_text::faults::ReadFault;
use occ_text::headers::Limits;
use occ_text::input::Input;
use occ_text::trouble::Trouble;
use std::alloc::{AllocError, Allocator};
use std::io::{Read, Write};
use std::marker::Brand;
use std::sync::Wait;
use std::thread;
use std::thread::Threads;
use std::time::Clock;

/// How often a client of a run polls one number before it gives up, and tries to close its session.
pub const PATIENCE: u64 = 1 << 28;

/// How a run ended.
#[derive(Debug, Drop)]
pub enum Ran<A: Allocator> {
    /// All sessions are closed, and what became of them was written, with the audit: whether it holds.
    Audit(bool),
    /// The clients of these sessions gave up, and nothing was written.
    GaveUp(Vec<usize, A>),
}

/// Who serves the lanes of a run.
#[derive(Clone, Copy, Debug, PartialEq, Eq)]
pub enum Way {
    /// Validators: threads that each serve a group of lanes, as many as the workload says.
    Validators,
    /// Workers: the thread of each session serves its lane, files no case, and ends a request serially where it can.
    Workers,
}

/// Runs a workload. It is read whole, then each session runs its transactions in a thread of its own, beside the threads of the
/// validators; and once all have ended, what became of each session is written, or the book where `book` is true, and behind it what
/// the audit says.
///
/// A client performs the operations of a transaction one by one, hands it in and polls until it is over. A transaction that was backed
/// up is tried again as often as the workload says, and then runs alone. One with an operation that is refused is abandoned, and
/// counted. A client gives up after 2^28 polls of one number.
///
/// `Malformed` at the first line that can't stand where it stands, and `Read` where the reader fails: nothing was run or written then.
/// `Memory` where it was refused, or a thread could not be started: nothing was written then, or, where it was refused while the text
/// was written, a beginning of it. `Write` where the writer fails: a beginning of the text was written then.
pub fn run_text<
    R: Read,
    W: Write,
    H: Threads + Wait + Clock + Sync,
    A: Allocator + Copy + Send + Sync,
>(rt: &H, alloc: A, reader: &mut R, writer: &mut W, book: bool) -> Result<Ran<A>, Trouble>
    ensures { RunGives book (Appends (W.contents writer.old) (W.contents writer.new)) (AppendsFront (W.contents writer.old) (W.contents writer.new))
        (R.remaining reader.old) result (R.remaining reader.new) }
{
    run_watched(
        rt,
        alloc,
        reader,
        writer,
        book,
        Way::Validators,
        PATIENCE,
        &Unwatched,
    )
}

/// The same by validators or by workers, with another patience than 2^28 polls, and for an observer to see how far it has come.
pub fn run_watched<
    R: Read,
    W: Write,
    H: Threads + Wait + Clock + Sync,
    A: Allocator + Copy + Send + Sync,
    O: Observer,
>(
    rt: &H,
    alloc: A,
    reader: &mut R,
    writer: &mut W,
    book: bool,
    way: Way,
    patience: u64,
    observer: &O,
) -> Result<Ran<A>, Trouble>
    ensures { RunGives book (Appends (W.contents writer.old) (W.contents writer.new)) (AppendsFront (W.contents writer.old) (W.contents writer.new))
        (R.remaining reader.old) result (R.remaining reader.new) }
{
    let workload = workload_from(alloc, reader)?;
    run_workload(rt, alloc, writer, workload, book, way, patience, observer)
}

// Reads a workload from a reader.
fn workload_from<R: Read, A: Allocator + Copy>(
    alloc: A,
    reader: &mut R,
) -> Result<Workload<A>, ReadFault>
    ensures { ReadGives (R.remaining reader.old) result (R.remaining reader.new) }
{
    let mut input = Input::new(alloc)?;
    read_workload(alloc, &mut input, reader)
}

// Opens a store for a workload, and runs it.
fn run_workload<
    W: Write,
    H: Threads + Wait + Clock + Sync,
    A: Allocator + Copy + Send + Sync,
    O: Observer,
>(
    rt: &H,
    alloc: A,
    writer: &mut W,
    workload: Workload<A>,
    book: bool,
    way: Way,
    patience: u64,
    observer: &O,
) -> Result<Ran<A>, Trouble>
    ensures { OpensAs book (Appends (W.contents writer.old) (W.contents writer.new)) (AppendsFront (W.contents writer.old) (W.contents writer.new))
        (opened_by workload.settings workload.schema) workload.settings.retries (map plan_of workload.plans.items) workload.settings.limits result }
{
    let Workload {
        settings,
        schema,
        plans,
    } = workload;
    let limits = settings.limits;
    let Ok(frame) = Frame::new(alloc, schema, limits.sessions, 0, limits.queue, limits.keep) else {
        return Err(Trouble::Memory);
    };
    run_in(
        rt, alloc, writer, frame, settings, plans, book, way, patience, observer,
    )
}

/// Runs the transactions of a workload in the store of a frame, which may go on from a base. All else is as `run_watched` tells of a
/// workload that was read.
pub fn run_in<
    W: Write,
    H: Threads + Wait + Clock + Sync,
    A: Allocator + Copy + Send + Sync,
    O: Observer,
>(
    rt: &H,
    alloc: A,
    writer: &mut W,
    frame: Frame<A>,
    settings: Settings,
    plans: Vec<Plan<A>, A>,
    book: bool,
    way: Way,
    patience: u64,
    observer: &O,
) -> Result<Ran<A>, Trouble>
    requires sessions { frame.named.settings.sessions ≡ settings.limits.sessions }
    ensures { RunEnds book (Appends (W.contents writer.old) (W.contents writer.new)) (AppendsFront (W.contents writer.old) (W.contents writer.new))
        frame.named settings.retries (map plan_of plans.items) settings.limits result }
{
    run_named::<Brand, Brand, W, H, A, O>(
        rt, alloc, writer, frame, settings, plans, way, patience, book, observer,
    )
}

// Runs a workload in a store, both with a name.
fn run_named<
    N: Name + Send + Sync,
    L: Load + Send + Sync,
    W: Write,
    H: Threads + Wait + Clock + Sync,
    A: Allocator + Copy + Send + Sync,
    O: Observer,
>(
    rt: &H,
    alloc: A,
    writer: &mut W,
    frame: Frame<A>,
    settings: Settings,
    plans: Vec<Plan<A>, A>,
    way: Way,
    patience: u64,
    book: bool,
    observer: &O,
) -> Result<Ran<A>, Trouble>
    requires named { frame.named ≡ N.named }
    requires ledger { (frame.ledger ≡ N.name) × (frame.parts ≡ N.parts) }
    requires sessions { N.named.settings.sessions ≡ settings.limits.sessions }
    requires retries { settings.retries ≡ L.retries }
    requires plans { map plan_of plans.items ≡ L.plans }
    ensures { RunEnds book (Appends (W.contents writer.old) (W.contents writer.new)) (AppendsFront (W.contents writer.old) (W.contents writer.new))
        N.named L.retries L.plans settings.limits result }
{
    let Ok((store, _workers, sessions, lanes)) = Store::<N, A>::open(frame) else {
        return Err(Trouble::Memory);
    };
    let round = Round::new(sessions.len(), patience);
    let job = Job::new(alloc, store, round, plans, settings.retries);
    run_opened::<N, L, W, H, A, O>(
        rt, writer, &job, sessions, lanes, settings, way, book, observer,
    )
}

// Runs a workload with these sessions and lanes of its store.
fn run_opened<
    N: Name + Send + Sync,
    L: Load + Send + Sync,
    W: Write,
    H: Threads + Wait + Clock + Sync,
    A: Allocator + Copy + Send + Sync,
    O: Observer,
>(
    rt: &H,
    writer: &mut W,
    job: &Job<N, L, A>,
    sessions: Vec<Session<N, A>, A>,
    lanes: Vec<Lane<N, A>, A>,
    settings: Settings,
    way: Way,
    book: bool,
    observer: &O,
) -> Result<Ran<A>, Trouble>
    requires sessions { N.named.settings.sessions ≡ settings.limits.sessions }
    requires fresh { All IsFresh sessions.items }
    ensures { RunEnds book (Appends (W.contents writer.old) (W.contents writer.new)) (AppendsFront (W.contents writer.old) (W.contents writer.new))
        N.named L.retries L.plans settings.limits result }
{
    match way {
        Way::Validators => by_validators::<N, L, W, H, A, O>(
            rt, writer, job, sessions, lanes, settings, book, observer,
        ),
        Way::Workers => by_workers::<N, L, W, H, A, O>(
            rt, writer, job, sessions, lanes, settings, book, observer,
        ),
    }
}

// Runs it with a thread for each session, beside the threads of the validators.
fn by_validators<
    N: Name + Send + Sync,
    L: Load + Send + Sync,
    W: Write,
    H: Threads + Wait + Clock + Sync,
    A: Allocator + Copy + Send + Sync,
    O: Observer,
>(
    rt: &H,
    writer: &mut W,
    job: &Job<N, L, A>,
    sessions: Vec<Session<N, A>, A>,
    lanes: Vec<Lane<N, A>, A>,
    settings: Settings,
    book: bool,
    observer: &O,
) -> Result<Ran<A>, Trouble>
    requires sessions { N.named.settings.sessions ≡ settings.limits.sessions }
    requires fresh { All IsFresh sessions.items }
    ensures { RunEnds book (Appends (W.contents writer.old) (W.contents writer.new)) (AppendsFront (W.contents writer.old) (W.contents writer.new))
        N.named L.retries L.plans settings.limits result }
{
    let mut clients = clients_of::<N, L, A>(job.alloc, sessions)?;
    let mut groups = dealt(job.alloc, lanes, settings.validators)?;
    run_threads(rt, job, &mut clients, &mut groups, observer);
    if has_starved(&groups) {
        return Err(Trouble::Memory);
    }
    tell(rt, writer, job, &mut clients, settings.limits, book)
}

// Runs it with a thread for each session, which serves its lane too.
fn by_workers<
    N: Name + Send + Sync,
    L: Load + Send + Sync,
    W: Write,
    H: Threads + Wait + Clock + Sync,
    A: Allocator + Copy + Send + Sync,
    O: Observer,
>(
    rt: &H,
    writer: &mut W,
    job: &Job<N, L, A>,
    sessions: Vec<Session<N, A>, A>,
    lanes: Vec<Lane<N, A>, A>,
    settings: Settings,
    book: bool,
    observer: &O,
) -> Result<Ran<A>, Trouble>
    requires sessions { N.named.settings.sessions ≡ settings.limits.sessions }
    requires fresh { All IsFresh sessions.items }
    ensures { RunEnds book (Appends (W.contents writer.old) (W.contents writer.new)) (AppendsFront (W.contents writer.old) (W.contents writer.new))
        N.named L.retries L.plans settings.limits result }
{
    let clients = clients_of::<N, L, A>(job.alloc, sessions)?;
    let mut workers = workers_of(job.alloc, clients, lanes)?;
    run_workers(rt, job, &mut workers, observer);
    let mut clients = into_clients(job.alloc, workers)?;
    tell(rt, writer, job, &mut clients, settings.limits, book)
}

// Writes what became of clients that ran to their end.
fn tell<N: Name, L: Load, W: Write, H: Wait, A: Allocator + Copy>(
    rt: &H,
    writer: &mut W,
    job: &Job<N, L, A>,
    clients: &mut [Client<N, L, A>],
    limits: Limits,
    book: bool,
) -> Result<Ran<A>, Trouble>
    requires sessions { N.named.settings.sessions ≡ limits.sessions }
    ensures ends { RunEnds book (Appends (W.contents writer.old) (W.contents writer.new)) (AppendsFront (W.contents writer.old) (W.contents writer.new))
        N.named L.retries L.plans limits result }
    ensures order { OrderGives clients.old result }
{
    if are_starved(clients) {
        return Err(Trouble::Memory);
    }
    let given_up = given_up(job.alloc, clients)?;
    if given_up.len() > 0 {
        return Ok(Ran::GaveUp(given_up));
    }
    let holds = report(rt, writer, job, clients, limits, book)?;
    Ok(Ran::Audit(holds))
}

// A client for each session.
fn clients_of<N: Name, L: Load, A: Allocator + Copy>(
    alloc: A,
    sessions: Vec<Session<N, A>, A>,
) -> Result<Vec<Client<N, L, A>, A>, AllocError>
    requires { All IsFresh sessions.items }
{
    let mut clients = Vec::with_capacity(alloc, sessions.len())?;
    for session in sessions {
        clients.push(Client::new(session))?;
    }
    Ok(clients)
}

// Runs clients and groups, each in a thread of its own, until all have ended. Where a thread can't be started, all are told to give up.
fn run_threads<
    N: Name + Send + Sync,
    L: Load + Send + Sync,
    H: Threads + Wait + Clock + Sync,
    A: Allocator + Copy + Send + Sync,
    O: Observer,
>(
    rt: &H,
    job: &Job<N, L, A>,
    clients: &mut [Client<N, L, A>],
    groups: &mut [Group<N, A>],
    observer: &O,
) {
    thread::scope(thread::scope_env(), rt, |scope| {
        for group in groups.iter_mut() {
            if scope
                .spawn(move || group.serve(rt, &job.store, &job.round))
                .is_err()
            {
                job.round.stop();
            }
        }
        for client in clients.iter_mut() {
            if scope.spawn(move || client.run(rt, job, None)).is_err() {
                job.round.stop();
            }
        }
        job.round.watch(rt, observer);
    });
}

// Runs workers, each in a thread of its own, until all have ended. Where a thread can't be started, all are told to give up.
fn run_workers<
    N: Name + Send + Sync,
    L: Load + Send + Sync,
    H: Threads + Wait + Clock + Sync,
    A: Allocator + Copy + Send + Sync,
    O: Observer,
>(rt: &H, job: &Job<N, L, A>, workers: &mut [Worker<N, L, A>], observer: &O) {
    thread::scope(thread::scope_env(), rt, |scope| {
        for worker in workers.iter_mut() {
            if scope.spawn(move || worker.run(rt, job)).is_err() {
                job.round.stop();
            }
        }
        job.round.watch(rt, observer);
    });
}
