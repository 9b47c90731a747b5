//! `occ_lab shell`.

use crate::books::{NoStore, base_of, tell_no_store};
use crate::files::tell_trouble;
use crate::fronts::read_text;
use anyhow::Result;
use occ_text::trouble::Trouble;
use occ_words::schedule_steps::Steps;
use occ_words::shells::{shell_steps, shell_text};
use std::alloc::Global;
use std::io::{self, IsTerminal, Read};

/// Standard input, before each reading of which a prompt is written where it is a terminal.
#[derive(Drop)]
struct Prompted<'h> {
    rt: &'h HostRuntime,
    is_shown: bool,
}

impl<'h> Prompted<'h> {
    fn new(rt: &'h HostRuntime) -> Prompted<'h> {
        Prompted {
            rt,
            is_shown: rt.stdin().is_terminal() && rt.stderr().is_terminal(),
        }
    }
}

impl Read for Prompted<'_> {
    fn read(&mut self, bytes: &mut [u8]) -> io::Result<usize> {
        if self.is_shown {
            let _written = eprint!(self.rt; "> ");
        }
        self.rt.stdin().read(bytes)
    }
}

/// Answers the steps of standard input one by one, behind those of a file where one is named.
pub(crate) fn shell(rt: &HostRuntime, path: Option<&str>) -> Result<u8> {
    let mut steps = Prompted::new(rt);
    let Some(path) = path else {
        tell_first_line(rt, steps.is_shown);
        let ended = shell_text(rt.alloc(), None, &mut steps, &mut rt.stdout());
        return end(rt, "standard input", b"", ended);
    };
    let text = read_text(rt, path)?;
    let opening = Some(text.as_slice());
    let ended = shell_text(rt.alloc(), opening, &mut steps, &mut rt.stdout());
    end(rt, path, text.as_slice(), ended)
}

/// Answers the steps of standard input one by one, in a store that goes on from a book.
pub(crate) fn shell_from(rt: &HostRuntime, path: &str) -> Result<u8> {
    let text = read_text(rt, path)?;
    match steps_from(rt.alloc(), text.as_slice()) {
        Ok(mut steps) => {
            let mut lines = Prompted::new(rt);
            let ended = shell_steps(rt.alloc(), &mut steps, &mut lines, &mut rt.stdout());
            end(rt, "standard input", b"", ended)
        }
        Err(cause) => tell_no_store(rt, path, text.as_slice(), cause),
    }
}

// A store that goes on from a book.
fn steps_from(alloc: Global, text: &[u8]) -> Result<Steps, NoStore> {
    let (header, base) = base_of(alloc, text)?;
    match Steps::resume(alloc, header, base) {
        Ok(steps) => Ok(steps),
        Err(fault) => Err(NoStore::Store(fault)),
    }
}

// Tells on a terminal what comes first.
fn tell_first_line(rt: &HostRuntime, is_shown: bool) {
    if is_shown {
        let _written = eprintln!(rt;
            "A header comes first, as occ 2, sessions 2, queue 4, keep 8, table t num int, steps; help and quit are words too."
        );
    }
}

// Tells what ended a shell, whose opening has a name, and answers the status.
fn end(rt: &HostRuntime, name: &str, opening: &[u8], ended: Result<bool, Trouble>) -> Result<u8> {
    match ended {
        Ok(true) => Ok(0),
        Ok(false) => Ok(2),
        Err(trouble) => tell_trouble(rt, name, opening, trouble),
    }
}
