//! What came of a run, once all its threads have ended.

ghost use Rattle.std.specs.Prelude.{◌≡◌, ◌+◌, ◌<◌, ◌^◌, ◌++◌, length, IfOk, IfSome, OnOk};
ghost use Rattle.std.specs.Option.{option_to_list};
ghost use Rattle.std.specs.List.{list_any, flat_map};
ghost use Rattle.std.specs.Io.KnownBytes.{Appends};
ghost use Rattle.occ_run.specs.Clients.{AllPlayed, PlayedIn, is_starved, gave_up};
ghost use Rattle.occ_run.specs.Reports.{AppendsFront, ReportGives, book_at, report_lines};
ghost use Rattle.occ_run.specs.Runs.{ReportedAs};

use crate::clients::Client;
use crate::groups::Group;
use crate::loads::{Job, Load};
use crate::reports::write_report;
use occ_core::Core;
use occ_store::{Name, Shared};
use occ_text::faults::WriteFault;
use occ_text::headers::Limits;
use occ_text::output::Output;
use occ_types::Fault;
use std::alloc::{AllocError, Allocator};
use std::io::Write;
use std::sync::Wait;

/// Whether memory was refused to a client, or its thread could not be started.
pub(crate) fn are_starved<N: Name, L: Load, A: Allocator + Copy>(
    clients: &[Client<N, L, A>],
) -> bool
    ensures { result ≡ list_any is_starved clients.now }
{
    for client in clients {
        if client.is_starved() {
            return true;
        }
    }
    false
}

/// Whether memory was refused to a group, or its thread could not be started.
pub(crate) fn has_starved<N: Name, A: Allocator + Copy>(groups: &[Group<N, A>]) -> bool {
    groups
        .iter()
        .any(|group| group.fault() == Some(Fault::Memory))
}

/// The sessions whose clients gave up.
pub(crate) fn given_up<N: Name, L: Load, A: Allocator + Copy>(
    alloc: A,
    clients: &[Client<N, L, A>],
) -> Result<Vec<usize, A>, AllocError>
    ensures { IfOk result (λ sessions. sessions.items ≡ flat_map gave_up clients.now) }
{
    let mut sessions = Vec::new(alloc);
    for client in clients {
        push_some(&mut sessions, client.gave_up())?;
    }
    Ok(sessions)
}

// Puts a session behind others, where there is one.
fn push_some<A: Allocator>(
    sessions: &mut Vec<usize, A>,
    session: Option<usize>,
) -> Result<(), AllocError>
    ensures { OnOk result (sessions.new.items ≡ sessions.old.items ++ option_to_list session) }
{
    match session {
        Some(session) => Ok(sessions.push(session)?),
        None => Ok(()),
    }
}

// How many transactions of each session had an operation that was refused; the first session's first. No clause knows that threads leave
// the clients in their places, so where one isn't in its own, which doesn't happen, that counts as a want of memory.
fn refused<N: Name, L: Load, A: Allocator + Copy>(
    alloc: A,
    shared: &mut Shared<N, A>,
    clients: &mut [Client<N, L, A>],
    sessions: usize,
) -> Result<Vec<u64, A>, AllocError>
    ensures many { IfOk result (λ counts. length counts.items ≡ sessions) }
    ensures played { IfOk result (λ counts. AllPlayed N.named L.retries L.plans shared.old.story.log 1 counts.items) }
    ensures same { shared.new ≡ shared.old }
{
    let mut counts = Vec::with_capacity(alloc, sessions)?;
    for place in 0..sessions {
        let Some(count) = refused_at(shared, clients, place) else {
            return Err(AllocError);
        };
        counts.push(count)?;
    }
    Ok(counts)
}

// The same of the session whose client is at a place.
fn refused_at<N: Name, L: Load, A: Allocator + Copy>(
    shared: &mut Shared<N, A>,
    clients: &mut [Client<N, L, A>],
    place: usize,
) -> Option<u64>
    requires { place + 1 < 2 ^ 64 }
    ensures played { IfSome result (PlayedIn N.named L.retries L.plans shared.old.story.log (place + 1)) }
    ensures same { shared.new ≡ shared.old }
{
    match clients.get_mut(place) {
        Some(client) => client.refused(shared, place + 1),
        None => None,
    }
}

/// Writes what became of a run whose clients have all closed their sessions. Whether the audit holds.
pub(crate) fn report<N: Name, L: Load, W: Write, H: Wait, A: Allocator + Copy>(
    rt: &H,
    writer: &mut W,
    job: &Job<N, L, A>,
    clients: &mut [Client<N, L, A>],
    limits: Limits,
    book: bool,
) -> Result<bool, WriteFault>
    requires { N.named.settings.sessions ≡ limits.sessions }
    ensures { ReportedAs book (Appends (W.contents writer.old) (W.contents writer.new)) (AppendsFront (W.contents writer.old) (W.contents writer.new))
        N.named L.retries L.plans limits result }
{
    let mut shared = job.store.lock(rt);
    report_state(job.alloc, writer, &mut shared, clients, limits, book)
}

// Writes the state that stands behind the lock of a store, and what became of its sessions in the history that led to it. Whether the
// audit holds.
fn report_state<N: Name, L: Load, W: Write, A: Allocator + Copy>(
    alloc: A,
    writer: &mut W,
    shared: &mut Shared<N, A>,
    clients: &mut [Client<N, L, A>],
    limits: Limits,
    book: bool,
) -> Result<bool, WriteFault>
    requires { N.named.settings.sessions ≡ limits.sessions }
    ensures { ReportedAs book (Appends (W.contents writer.old) (W.contents writer.new)) (AppendsFront (W.contents writer.old) (W.contents writer.new))
        N.named L.retries L.plans limits result }
{
    let refused = refused(alloc, shared, clients, limits.sessions)?;
    write_state::<N, L, W, A>(alloc, writer, shared, limits, &refused, book)
}

// Writes the state that stands behind the lock of a store.
fn write_state<N: Name, L: Load, W: Write, A: Allocator + Copy>(
    alloc: A,
    writer: &mut W,
    shared: &Shared<N, A>,
    limits: Limits,
    refused: &[u64],
    book: bool,
) -> Result<bool, WriteFault>
    requires many { length refused.now ≡ N.named.settings.sessions }
    requires played { AllPlayed N.named L.retries L.plans shared.now.story.log 1 refused.now }
    ensures { ReportedAs book (Appends (W.contents writer.old) (W.contents writer.new)) (AppendsFront (W.contents writer.old) (W.contents writer.new))
        N.named L.retries L.plans limits result }
{
    shared.law();
    write_whole(alloc, writer, shared.core(), limits, refused, book)
}

// Writes what became of a run, all of it.
fn write_whole<W: Write, A: Allocator + Copy>(
    alloc: A,
    writer: &mut W,
    core: &Core<A>,
    limits: Limits,
    refused: &[u64],
    book: bool,
) -> Result<bool, WriteFault>
    ensures { ReportGives (Appends (W.contents writer.old) (W.contents writer.new)) (AppendsFront (W.contents writer.old) (W.contents writer.new))
        result (report_lines book (book_at limits core.now.world) refused.now) }
{
    let mut output = Output::new(alloc);
    let holds = write_report(alloc, &mut output, writer, core, limits, refused, book)?;
    output.flush(writer)?;
    Ok(holds)
}
