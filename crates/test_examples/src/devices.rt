//! Replays and audits over devices that move a few bytes a call, are interrupted at each third one, and fail at each in turn.

use occ_cli::{Trouble, audit_text, replay_text, status_of};
use std::alloc::{AllocError, Global};
use std::{fs, io};
use test_tools::Device;

/// How many lines stand before the first step of these schedules.
const HEADER: usize = 6;

/// Prints how many replays over failing devices end as they have to, of schedules with their numbers of calls: one for each five bytes
/// of the schedule and one for its end, one for each forty bytes of its text and one to flush them, and each third one of them again.
pub(crate) fn tell_devices(rt: &HostRuntime) -> io::Result<()> {
    tell_failing(rt, "examples/first-commit", 38, 11)?;
    tell_failing(rt, "examples/entry-order", 58, 14)?;
    tell_single_bytes(rt, "schedules/no-step")?;
    tell_single_bytes(rt, "examples/first-commit")?;
    tell_single_bytes(rt, "schedules/line-of-8192-bytes")?;
    tell_many_answers(rt)?;
    tell_audits(rt, "examples/two-tables", 13)?;
    tell_troubles(rt)
}

/// Prints how many replays of a schedule end right whose device fails from a call on, where its text takes so many calls.
fn tell_failing(rt: &HostRuntime, name: &str, reads: usize, writes: usize) -> io::Result<()> {
    let schedule = fs::read(rt, format!(in rt.alloc(); "{name}.occ")?.as_str())?;
    let text = fs::read(rt, format!(in rt.alloc(); "{name}.out")?.as_str())?;
    let (schedule, text) = (schedule.as_slice(), text.as_slice());
    let (mut readers, mut writers) = (0u64, 0u64);
    for fails in 0usize..65 {
        let is_right = reads_right(rt.alloc(), schedule, text, fails, fails < reads)?;
        readers = readers.saturating_add(u64::from(is_right));
    }
    for fails in 0usize..18 {
        let is_right = writes_right(rt.alloc(), schedule, text, fails, fails < writes);
        writers = writers.saturating_add(u64::from(is_right));
    }
    println!(rt;
        "{name}: {readers} of 65 failing readers and {writers} of 18 failing writers end right"
    )
}

/// Whether a replay answers each step that was read whole, and nothing else, where its reader fails from this call on; all of it where
/// that is no call of its own.
fn reads_right(
    alloc: Global,
    schedule: &[u8],
    text: &[u8],
    fails: usize,
    is_cut: bool,
) -> Result<bool, AllocError> {
    let mut reader = Device::new(Vec::from_slice(alloc, schedule)?, 5, fails);
    let mut written = Vec::new(alloc);
    let ended = replay_text(alloc, &mut reader, &mut written, false);
    let written = written.as_slice();
    if !is_cut {
        return Ok(ended == Ok(()) && written == text);
    }
    let is_whole = written.is_empty() || written.ends_with(b"\n");
    let is_answered = lines_in(written) == steps_read(&reader);
    Ok(ended == Err(Trouble::Read) && text.starts_with(written) && is_whole && is_answered)
}

/// Whether a replay writes what its writer takes before it fails from this call on, and no more; all of it where that is no call of its own.
fn writes_right(alloc: Global, schedule: &[u8], text: &[u8], fails: usize, is_cut: bool) -> bool {
    let mut reader = schedule;
    let mut writer = Device::new(Vec::new(alloc), 40, fails);
    let ended = replay_text(alloc, &mut reader, &mut writer, false);
    let wanted = if is_cut { Err(Trouble::Write) } else { Ok(()) };
    // each third call is interrupted
    let taken = fails.saturating_sub(fails / 3).saturating_mul(40);
    let written = writer.bytes.as_slice();
    ended == wanted && text.starts_with(written) && written.len() == taken.min(text.len())
}

/// Prints whether a schedule that is read and answered in single bytes gives the same text.
fn tell_single_bytes(rt: &HostRuntime, name: &str) -> io::Result<()> {
    let schedule = fs::read(rt, format!(in rt.alloc(); "{name}.occ")?.as_str())?;
    let text = fs::read(rt, format!(in rt.alloc(); "{name}.out")?.as_str())?;
    let mut reader = Device::new(schedule, 1, usize::MAX);
    let mut writer = Device::new(Vec::new(rt.alloc()), 1, usize::MAX);
    let ended = replay_text(rt.alloc(), &mut reader, &mut writer, false);
    let is_same = ended == Ok(()) && writer.bytes.as_slice() == text.as_slice();
    println!(rt; "{name}: the same text in single bytes {is_same}")
}

/// Prints how many replays of four hundred answers end at the first failed write: each answer has 39 bytes, so the first 211 are sent
/// together, and the reader is asked for no more.
fn tell_many_answers(rt: &HostRuntime) -> io::Result<()> {
    let mut schedule = fs::read_to_string(rt, "schedules/no-step.occ")?;
    for _ in 0..400 {
        schedule.push_str("show\n")?;
    }
    let mut right = 0u64;
    for fails in 0usize..3 {
        let is_right = stops_reading(rt.alloc(), schedule.as_bytes(), fails)?;
        right = right.saturating_add(u64::from(is_right));
    }
    println!(rt; "many answers: {right} of 3 replays end at a failed write")
}

/// Whether a replay of so many steps reads no more where its writer fails from this call on.
fn stops_reading(alloc: Global, schedule: &[u8], fails: usize) -> Result<bool, AllocError> {
    let mut reader = Device::new(Vec::from_slice(alloc, schedule)?, 5, usize::MAX);
    let mut writer = Device::new(Vec::new(alloc), 4000, fails);
    let ended = replay_text(alloc, &mut reader, &mut writer, false);
    let is_sent = writer.bytes.len() == fails.saturating_mul(4000);
    Ok(ended == Err(Trouble::Write) && is_sent && steps_read(&reader) == 211)
}

/// Prints how many audits of a book end right whose device fails from a call on, where it takes so many calls to read it.
fn tell_audits(rt: &HostRuntime, name: &str, reads: usize) -> io::Result<()> {
    let book = fs::read(rt, format!(in rt.alloc(); "{name}.book")?.as_str())?;
    let (mut readers, mut writers) = (0u64, 0u64);
    for fails in 0usize..16 {
        let is_right = audit_reads_right(rt.alloc(), book.as_slice(), fails, fails < reads)?;
        readers = readers.saturating_add(u64::from(is_right));
    }
    for fails in 0usize..9 {
        let is_right = audit_writes_right(rt.alloc(), book.as_slice(), fails);
        writers = writers.saturating_add(u64::from(is_right));
    }
    println!(rt;
        "{name}: {readers} of 16 failing readers and {writers} of 9 failing writers of an audit end right"
    )
}

/// Whether an audit says nothing where its reader fails from this call on, and yes where that is no call of its own.
fn audit_reads_right(
    alloc: Global,
    book: &[u8],
    fails: usize,
    is_cut: bool,
) -> Result<bool, AllocError> {
    let mut reader = Device::new(Vec::from_slice(alloc, book)?, 60, fails);
    let mut written = Vec::new(alloc);
    let ended = audit_text(alloc, &mut reader, &mut written);
    if is_cut {
        return Ok(ended == Err(Trouble::Read) && written.is_empty());
    }
    Ok(ended == Ok(true) && written.as_slice() == "audit yes\n".as_bytes())
}

/// Whether an audit writes what its writer takes before it fails from this call on, two bytes a call, and no more.
fn audit_writes_right(alloc: Global, book: &[u8], fails: usize) -> bool {
    let mut reader = book;
    let mut writer = Device::new(Vec::new(alloc), 2, fails);
    let ended = audit_text(alloc, &mut reader, &mut writer);
    // five calls write, one flushes, and the third one and the sixth are interrupted
    let wanted = if fails < 8 {
        Err(Trouble::Write)
    } else {
        Ok(true)
    };
    // each third call is interrupted
    let taken = fails.saturating_sub(fails / 3).saturating_mul(2);
    let written = writer.bytes.as_slice();
    ended == wanted
        && "audit yes\n".as_bytes().starts_with(written)
        && written.len() == taken.min(10)
}

/// Prints how an engine ends that can't read, can't write, has no memory or finds a line malformed, with its status.
fn tell_troubles(rt: &HostRuntime) -> io::Result<()> {
    for trouble in [
        Trouble::Read,
        Trouble::Write,
        Trouble::Memory,
        Trouble::Malformed(7),
    ] {
        println!(rt; "{trouble}: status {}", status_of(&Err(trouble)))?;
    }
    println!(rt;
        "yes: status {}, no: status {}",
        status_of(&Ok(true)),
        status_of(&Ok(false))
    )
}

/// How many of these bytes end a line.
fn lines_in(bytes: &[u8]) -> usize {
    bytes.iter().filter(|byte| **byte == b'\n').count()
}

/// How many steps this device has handed out whole.
fn steps_read(reader: &Device) -> usize {
    lines_in(reader.handed_out()).saturating_sub(HEADER)
}
