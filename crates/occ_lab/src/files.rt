//! Files that are named on the command line, and what is said of them.

use anyhow::{Context, Result};
use occ_text::trouble::Trouble;
use occ_words::malformed_lines::say_malformed;
use std::fs;
use std::io::{ErrorKind, Read, Write};

/// Whether a path stands for standard input.
pub(crate) fn is_input(path: &str) -> bool {
    path == "-"
}

/// The name of a file in what is said of it.
pub(crate) fn name_of(path: &str) -> &str {
    if is_input(path) {
        return "standard input";
    }
    path
}

/// The bytes of a file, or of standard input. Where it can't be read, the error names it.
pub(crate) fn read_file(rt: &HostRuntime, path: &str) -> Result<Vec<u8>> {
    if is_input(path) {
        let mut bytes = Vec::new(rt.alloc());
        rt.stdin()
            .read_to_end(&mut bytes)
            .context("standard input")?;
        return Ok(bytes);
    }
    fs::read(rt, path).context(format_args!("{path}"))
}

/// Writes bytes to standard output, and answers the status.
pub(crate) fn write_output(rt: &HostRuntime, bytes: &[u8]) -> Result<u8> {
    match rt.stdout().write_all(bytes) {
        Ok(()) => return Ok(0),
        // nobody is there to be told where a pipe was closed
        Err(error) if error.kind() == ErrorKind::BrokenPipe => {}
        Err(error) => eprintln!(rt; "occ_lab: standard output: {error}")?,
    }
    Ok(1)
}

/// Tells what ended the work on a file before it was done, and answers the status. `text` is its text, whose malformed line is explained.
pub(crate) fn tell_trouble(
    rt: &HostRuntime,
    path: &str,
    text: &[u8],
    trouble: Trouble,
) -> Result<u8> {
    let path = name_of(path);
    match trouble {
        Trouble::Malformed(line) => {
            let saying = say_malformed(rt.alloc(), text, line)?;
            let sentence = saying.sentence.as_str();
            eprintln!(rt; "{path}:{line}: {sentence}")?;
            return Ok(2);
        }
        Trouble::Read => eprintln!(rt; "occ_lab: standard input: {trouble}")?,
        // nobody is there to be told where a pipe was closed
        Trouble::Write if is_closed(rt) => {}
        Trouble::Write => eprintln!(rt; "occ_lab: standard output: {trouble}")?,
        Trouble::Memory => eprintln!(rt; "occ_lab: {path}: {trouble}")?,
    }
    Ok(1)
}

// Whether standard output, to which a write failed, is a pipe that nobody reads.
fn is_closed(rt: &HostRuntime) -> bool {
    match rt.stdout().write_all(b"\n") {
        Err(error) => error.kind() == ErrorKind::BrokenPipe,
        Ok(()) => false,
    }
}
