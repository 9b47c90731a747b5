//! Each request for memory refused in turn: a run ends there for want of memory, with a beginning of its text written, or does without and ends as ever. It gives back all memory.

use occ_cli::{Trouble, audit_text, replay_text};
use std::alloc::{Allocator, Global};
use std::fmt;
use test_tools::{Plan, Refusing};

/// An engine, from text to text.
#[derive(Clone, Copy)]
pub(crate) enum Engine {
    /// The replay of a schedule.
    Replay,
    /// The audit of a book.
    Audit,
}

impl Engine {
    /// Runs it over a text. A replay that comes to its end answers yes.
    fn run<A: Allocator + Copy>(
        self,
        alloc: A,
        text: &[u8],
        written: &mut Vec<u8>,
    ) -> Result<bool, Trouble> {
        let mut reader = text;
        match self {
            Engine::Replay => {
                replay_text(alloc, &mut reader, written, false)?;
                Ok(true)
            }
            Engine::Audit => audit_text(alloc, &mut reader, written),
        }
    }
}

/// A text, and what an engine makes of it where there is memory.
#[derive(Clone, Copy)]
pub(crate) struct Case<'t> {
    /// The engine.
    pub(crate) engine: Engine,
    /// What it reads.
    pub(crate) text: &'t [u8],
    /// How it ends.
    pub(crate) ended: Result<bool, Trouble>,
    /// All that it writes.
    pub(crate) written: &'t [u8],
}

/// What was wrong with a run.
#[derive(Clone, Copy, Debug, PartialEq, Eq)]
pub(crate) enum Flaw {
    /// It ended in another way.
    Ending,
    /// It wrote what is no beginning of the text.
    Text,
    /// It kept memory.
    Leak,
}

impl fmt::Display for Flaw {
    fn fmt<W: fmt::Write>(&self, f: &mut fmt::Formatter<W>) -> fmt::Result {
        f.write_str(match self {
            Flaw::Ending => "another end",
            Flaw::Text => "no beginning of the text",
            Flaw::Leak => "memory not given back",
        })
    }
}

/// How many requests for memory a run makes, and what came of refusing them in turn.
#[derive(Clone, Copy, Debug, PartialEq, Eq)]
pub(crate) struct Tried {
    /// How many requests it makes.
    pub(crate) requests: u64,
    /// How many of them were refused, each in a run of its own.
    pub(crate) refused: u64,
    /// How many of those runs came to their end as ever, and so did without the memory.
    pub(crate) whole: u64,
}

/// Runs a case once for each request for memory that it makes, with that request refused, and once more with none refused. An error is
/// the place of the first request whose run showed a flaw.
pub(crate) fn refuse_in_turn(alloc: Global, case: Case) -> Result<Tried, (u64, Flaw)> {
    let ample = Refusing::new(alloc, Plan::Nothing);
    let mut written = Vec::new(alloc);
    let _ended = case.engine.run(&ample, case.text, &mut written);
    let requests = ample.requests();
    let (mut refused, mut whole) = (0u64, 0u64);
    for place in 0..requests {
        let tried = run_refused(alloc, case, place)?;
        refused = refused.saturating_add(tried.refused);
        whole = whole.saturating_add(u64::from(tried.is_whole));
    }
    // past the last one
    let last = run_refused(alloc, case, requests)?;
    if !last.is_whole || last.refused > 0 {
        return Err((requests, Flaw::Ending));
    }
    Ok(Tried {
        requests,
        refused,
        whole,
    })
}

// What came of a run of which one request is refused.
#[derive(Clone, Copy)]
struct Turn {
    // whether it ended as ever, with the whole text
    is_whole: bool,
    // how many requests were refused
    refused: u64,
}

// Runs a case with the request at this place refused. It is to end for want of memory, with a beginning of the text written, or else as
// ever, with the whole text. What it did in place of that is an error.
fn run_refused(alloc: Global, case: Case, place: u64) -> Result<Turn, (u64, Flaw)> {
    let lent = Refusing::new(alloc, Plan::Once(place));
    let mut written = Vec::new(alloc);
    let ended = case.engine.run(&lent, case.text, &mut written);
    let is_whole = ended != Err(Trouble::Memory);
    if is_whole && ended != case.ended {
        return Err((place, Flaw::Ending));
    }
    let written = written.as_slice();
    let is_long_enough = !is_whole || written.len() == case.written.len();
    if !case.written.starts_with(written) || !is_long_enough {
        return Err((place, Flaw::Text));
    }
    if lent.bytes_out() > 0 {
        return Err((place, Flaw::Leak));
    }
    let refused = lent.refused();
    Ok(Turn { is_whole, refused })
}
