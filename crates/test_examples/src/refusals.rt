//! The examples and the books once more, each time with one request for memory refused.

use crate::again::{Repeated, repeat};
use crate::refused::{Case, Engine, Tried, refuse_in_turn};
use occ_cli::{audit_text, replay_text};
use std::{fs, io};

/// Prints a line for each replay and each audit of an example, and for each audit of a book: how many requests for memory it makes,
/// how many of them were refused in turn, and how many of those runs came to their end all the same. Behind those of an example stands
/// what came of its calls that were made again. The last line has the sum of the requests that were refused.
pub(crate) fn tell_refusals(rt: &HostRuntime, examples: &[&str], books: &[&str]) -> io::Result<()> {
    let mut sum = 0u64;
    for name in examples {
        sum = sum.saturating_add(refuse_to_example(rt, name)?);
    }
    for name in books {
        let book = fs::read_to_string(rt, format!(in rt.alloc(); "{name}.book")?.as_str())?;
        sum = sum.saturating_add(refuse_to_audit(rt, name, book.as_bytes())?);
    }
    println!(rt; "{sum} requests refused")
}

/// Refuses the requests of a replay in turn, those of the audit of its book, and those of its calls. The answer is how many were refused.
fn refuse_to_example(rt: &HostRuntime, name: &str) -> io::Result<u64> {
    let schedule = fs::read_to_string(rt, format!(in rt.alloc(); "{name}.occ")?.as_str())?;
    let wanted = fs::read_to_string(rt, format!(in rt.alloc(); "{name}.out")?.as_str())?;
    let mut reader = schedule.as_bytes();
    let mut book = Vec::new(rt.alloc());
    let ended = replay_text(rt.alloc(), &mut reader, &mut book, true);
    let case = Case {
        engine: Engine::Replay,
        text: schedule.as_bytes(),
        ended: ended.map(|()| true),
        written: wanted.as_bytes(),
    };
    let refused = refuse_to(rt, name, "replay", case)?;
    if ended.is_err() {
        return Ok(refused);
    }
    let audit = refuse_to_audit(rt, name, book.as_slice())?;
    let again = refuse_to_calls(rt, name, schedule.as_bytes(), wanted.as_bytes())?;
    Ok(refused.saturating_add(audit).saturating_add(again))
}

/// Refuses the requests of the audit of a book in turn. The answer is how many were refused.
fn refuse_to_audit(rt: &HostRuntime, name: &str, book: &[u8]) -> io::Result<u64> {
    let mut reader = book;
    let mut written = Vec::new(rt.alloc());
    let ended = audit_text(rt.alloc(), &mut reader, &mut written);
    let case = Case {
        engine: Engine::Audit,
        text: book,
        ended,
        written: written.as_slice(),
    };
    refuse_to(rt, name, "audit", case)
}

/// Refuses the requests of a case in turn, and prints its line.
fn refuse_to(rt: &HostRuntime, name: &str, what: &str, case: Case) -> io::Result<u64> {
    match refuse_in_turn(rt.alloc(), case) {
        Ok(
            Tried {
                requests,
                refused,
                whole,
            },
        ) => {
            println!(rt;
                "{name}, {what}: {refused} of {requests} requests refused in turn, {whole} to the end"
            )?;
            Ok(refused)
        }
        Err((place, flaw)) => {
            println!(rt; "{name}, {what}: request {place} refused, {flaw}")?;
            Ok(0)
        }
    }
}

/// Refuses the requests of the calls of a replay in turn, makes these calls again, and prints the line of that.
fn refuse_to_calls(rt: &HostRuntime, name: &str, schedule: &[u8], text: &[u8]) -> io::Result<u64> {
    let Some(repeated) = repeat(rt.alloc(), schedule, text) else {
        println!(rt; "{name}, calls: another text")?;
        return Ok(0);
    };
    let Repeated {
        requests,
        again,
        calls,
        starved,
    } = repeated;
    println!(rt;
        "{name}, calls: {requests} requests refused in turn, {again} calls made again; {starved} of {calls} want memory"
    )?;
    Ok(requests)
}
