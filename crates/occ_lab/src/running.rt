//! `occ_lab run`.

use crate::agreement::disagreement;
use crate::books::{NoStore, base_of, tell_no_store};
use crate::files::{name_of, read_file, tell_trouble};
use crate::loads::{take_load, tell_refused};
use crate::memory::peak_memory;
use crate::outputs::Outputs;
use crate::picture::draw_book;
use crate::watching::Watcher;
use anyhow::{Context, Result};
use occ_book::Base;
use occ_run::workloads::Workload;
use occ_run::{PATIENCE, Ran, Way, run_in, run_watched};
use occ_store::Frame;
use occ_text::headers::Header;
use occ_text::trouble::Trouble;
use occ_types::Fault;
use occ_words::run_summaries::{Summary, ends_of};
use occ_words::telling::{Style, Told};
use std::alloc::Global;
use std::sync::Wait;
use std::thread::Threads;
use std::time::Clock;

/// What is wanted of a run.
#[derive(Clone, Copy, Debug)]
pub(crate) struct Wanted<'w> {
    /// Who serves its lanes.
    pub(crate) way: Way,
    /// Whether what is told is an object of JSON.
    pub(crate) json: bool,
    /// The book that the store goes on from.
    pub(crate) from: Option<&'w str>,
    /// Where the book is written.
    pub(crate) book: Option<&'w str>,
    /// Where the picture is written.
    pub(crate) picture: Option<&'w str>,
}

/// What a workload asks for.
#[derive(Clone, Copy, Debug)]
struct Asked {
    /// How many transactions it has.
    transactions: u64,
    /// How many of them the tables refuse.
    refused: u64,
}

/// Who serves the lanes of a run, by whether validators are wanted.
pub(crate) fn way_of(validators: bool) -> Way {
    if validators {
        Way::Validators
    } else {
        Way::Workers
    }
}

/// A workload with the base that its store goes on from.
#[derive(Drop)]
struct Resumed {
    workload: Workload<Global>,
    base: Base<Global>,
}

/// Runs a workload, and tells what it came to.
pub(crate) fn run_file<H: Threads + Wait + Clock + Sync>(
    rt: &HostRuntime,
    threads: &H,
    path: &str,
    wanted: &Wanted<'_>,
) -> Result<u8> {
    let text = read_file(rt, path)?;
    let asked = match look_at(rt, path, text.as_slice())? {
        Ok(asked) => asked,
        Err(trouble) => return tell_trouble(rt, path, text.as_slice(), trouble),
    };
    let Some(from) = wanted.from else {
        return run_text(rt, threads, path, text.as_slice(), None, asked, wanted);
    };
    let book = read_file(rt, from)?;
    let (workload, header, base) = match beginning(rt.alloc(), text.as_slice(), book.as_slice()) {
        Ok(parts) => parts,
        Err(cause) => return tell_no_store(rt, from, book.as_slice(), cause),
    };
    if let Some(why) = disagreement(rt.alloc(), &workload, &header)? {
        let name = name_of(path);
        eprintln!(rt; "occ_lab: {name}: it can't go on from {from}: {why}")?;
        return Ok(3);
    }
    let resumed = Some(Resumed { workload, base });
    run_text(rt, threads, path, text.as_slice(), resumed, asked, wanted)
}

// A workload, the header of a book, and what the book leaves.
fn beginning(
    alloc: Global,
    text: &[u8],
    book: &[u8],
) -> Result<(Workload<Global>, Header<Global>, Base<Global>), NoStore> {
    let (header, base) = base_of(alloc, book)?;
    match take_load(alloc, text) {
        Ok(workload) => Ok((workload, header, base)),
        Err(trouble) => Err(NoStore::Text(trouble)),
    }
}

// Tells on standard error which operations of a workload are refused, and answers what it asks for.
fn look_at(rt: &HostRuntime, path: &str, text: &[u8]) -> Result<Result<Asked, Trouble>> {
    let mut told = Told::new(rt.alloc(), name_of(path), Style::Text)?;
    let workload = match take_load(rt.alloc(), text) {
        Ok(workload) => workload,
        Err(trouble) => return Ok(Err(trouble)),
    };
    let refused = tell_refused(rt.alloc(), text, &workload, &mut told)?;
    let _sent = told.send(&mut rt.stderr());
    Ok(Ok(Asked {
        transactions: workload.plans.len() as u64,
        refused,
    }))
}

// Runs a workload that was looked at, and takes away what it made for nothing.
fn run_text<H: Threads + Wait + Clock + Sync>(
    rt: &HostRuntime,
    threads: &H,
    path: &str,
    text: &[u8],
    resumed: Option<Resumed>,
    asked: Asked,
    wanted: &Wanted<'_>,
) -> Result<u8> {
    let mut outputs = Outputs::new();
    let status = match outputs.open(rt, path, wanted) {
        Ok(None) => run_opened(
            rt,
            threads,
            path,
            text,
            resumed,
            asked,
            wanted,
            &mut outputs,
        ),
        Ok(Some(why)) => tell_clash(rt, why.as_str()),
        Err(error) => Err(error),
    };
    outputs.end(rt);
    status
}

// Tells that a file would be written over another one, and answers the status.
fn tell_clash(rt: &HostRuntime, why: &str) -> Result<u8> {
    eprintln!(rt; "occ_lab: {why}")?;
    Ok(2)
}

// Runs a workload whose outputs are open.
fn run_opened<H: Threads + Wait + Clock + Sync>(
    rt: &HostRuntime,
    threads: &H,
    path: &str,
    text: &[u8],
    resumed: Option<Resumed>,
    asked: Asked,
    wanted: &Wanted<'_>,
    outputs: &mut Outputs<'_>,
) -> Result<u8> {
    let watcher = Watcher::new(rt);
    let mut book = Vec::new(rt.alloc());
    let way = wanted.way;
    let ran = match resumed {
        None => run_anew(threads, rt.alloc(), text, &mut book, way, &watcher),
        Some(resumed) => run_on(threads, rt.alloc(), resumed, &mut book, way, &watcher),
    };
    watcher.end_line();
    match ran {
        Ok(Ran::Audit(holds)) => {
            let summary = summary_of(rt, &watcher, book.as_slice(), holds);
            end_run(rt, path, asked, wanted, &summary, book.as_slice(), outputs)
        }
        Ok(Ran::GaveUp(sessions)) => {
            for session in &sessions {
                let name = name_of(path);
                eprintln!(rt; "occ_lab: {name}: the client of session {session} gave up")?;
            }
            Ok(1)
        }
        Err(cause) => tell_not_run(rt, path, wanted.from, cause),
    }
}

// Writes the outputs of a run that came to its end, and tells what it came to.
fn end_run(
    rt: &HostRuntime,
    path: &str,
    asked: Asked,
    wanted: &Wanted<'_>,
    summary: &Summary,
    book: &[u8],
    outputs: &mut Outputs<'_>,
) -> Result<u8> {
    tell(rt, wanted.json, summary)?;
    write_outputs(rt, wanted, outputs, book)?;
    tell_missing(rt, path, asked, summary)
}

// Runs a workload in an empty store.
fn run_anew<H: Threads + Wait + Clock + Sync>(
    threads: &H,
    alloc: Global,
    text: &[u8],
    book: &mut Vec<u8>,
    way: Way,
    watcher: &Watcher<'_>,
) -> Result<Ran<Global>, NoStore> {
    let mut reader = text;
    match run_watched(
        threads,
        alloc,
        &mut reader,
        book,
        true,
        way,
        PATIENCE,
        watcher,
    ) {
        Ok(ran) => Ok(ran),
        Err(trouble) => Err(NoStore::Text(trouble)),
    }
}

// Runs a workload in a store that goes on from a base.
fn run_on<H: Threads + Wait + Clock + Sync>(
    threads: &H,
    alloc: Global,
    resumed: Resumed,
    book: &mut Vec<u8>,
    way: Way,
    watcher: &Watcher<'_>,
) -> Result<Ran<Global>, NoStore> {
    let Resumed { workload, base } = resumed;
    let Workload {
        settings,
        schema,
        plans,
    } = workload;
    let limits = settings.limits;
    let frame = match Frame::resume(
        alloc,
        schema,
        limits.sessions,
        0,
        limits.queue,
        limits.keep,
        base,
        0,
    ) {
        Ok(frame) => frame,
        Err(refused) => return Err(NoStore::Store(refused.fault)),
    };
    match run_in(
        threads, alloc, book, frame, settings, plans, true, way, PATIENCE, watcher,
    ) {
        Ok(ran) => Ok(ran),
        Err(trouble) => Err(NoStore::Text(trouble)),
    }
}

// Tells why a workload was not run, and answers the status.
fn tell_not_run(rt: &HostRuntime, path: &str, from: Option<&str>, cause: NoStore) -> Result<u8> {
    match (cause, from) {
        (NoStore::Store(fault), Some(from)) if fault != Fault::Memory => tell_no_store(
            rt, from, b"", cause,
        ),
        // the workload was read before, and it and the book stand in memory, so nothing else can be refused
        _ => {
            let name = name_of(path);
            eprintln!(rt; "occ_lab: {name}: no memory, or a thread can't be started")?;
            Ok(1)
        }
    }
}

// What a run came to, whose book is printed.
fn summary_of(rt: &HostRuntime, watcher: &Watcher<'_>, book: &[u8], holds: bool) -> Summary {
    Summary {
        took: watcher.took(),
        ends: ends_of(book),
        retried: watcher.retried(),
        alone: watcher.alone(),
        memory: peak_memory(rt),
        holds,
    }
}

// Tells what a run came to.
fn tell(rt: &HostRuntime, json: bool, summary: &Summary) -> Result<()> {
    let told = if json {
        summary.json(rt.alloc())?
    } else {
        summary.text(rt.alloc())?
    };
    print!(rt; "{told}").context("standard output")?;
    Ok(())
}

// Writes the book of a run and its picture, where they are wanted. The picture is drawn before either is written.
fn write_outputs(
    rt: &HostRuntime,
    wanted: &Wanted<'_>,
    outputs: &mut Outputs<'_>,
    book: &[u8],
) -> Result<()> {
    let Some(path) = wanted.picture else {
        return outputs.write(rt, book, None);
    };
    let picture = draw_book(rt.alloc(), book).context(format_args!("{path}"))?;
    outputs.write(rt, book, Some(picture.as_slice()))
}

// Tells how many transactions were refused, where any was, and answers the status.
fn tell_missing(rt: &HostRuntime, path: &str, asked: Asked, summary: &Summary) -> Result<u8> {
    let committed = summary.ends.committed;
    let refused = asked.transactions.saturating_sub(committed);
    let name = name_of(path);
    if refused > asked.refused {
        let more = refused - asked.refused;
        eprintln!(rt;
            "{name}: {more} transactions more were refused as they ran: a range of over 1,024 rows, or over 256 keys"
        )?;
    }
    if refused > 0 {
        eprintln!(rt;
            "{name}: refused {refused} of {} transactions",
            asked.transactions
        )?;
    }
    let none_is_done = refused > 0 && committed == 0;
    Ok(if summary.holds && !none_is_done { 0 } else { 3 })
}
