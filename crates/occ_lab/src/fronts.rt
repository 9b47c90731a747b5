//! As much of a file as what is said of it needs.

ghost use Rattle.std.specs.Prelude.{◌≡◌};

use crate::files::{is_input, read_file};
use crate::loads::is_load;
use anyhow::{Context, Result};
use occ_reading::whole_books::take_book;
use occ_text::faults::ReadFault;
use occ_text::headers::{is_steps, read_header};
use occ_text::input::{Input, Next};
use occ_text::step_reading::read_step;
use occ_words::explaining::is_book;
use std::alloc::Global;
use std::fs::{self, File};
use std::io::Read;

/// The bytes that are read of a malformed line: two more than a line may have.
const MALFORMED_LINE: u64 = 8_194;

/// The text of a schedule or a book: up to its malformed line where it has one, so that what stands behind that takes no memory, and else all of it. A workload and a pipe are read whole. Where the file can't be read, the error names it.
pub(crate) fn read_text(rt: &HostRuntime, path: &str) -> Result<Vec<u8>> {
    // what is no file can't be read twice
    if is_input(path) || !is_file(rt, path)? {
        return read_file(rt, path);
    }
    let mut file = open(rt, path)?;
    if tells_load(rt.alloc(), &mut file)? {
        return read_file(rt, path);
    }
    let mut file = open(rt, path)?;
    let book = tells_book(rt.alloc(), &mut file)?;
    let mut file = open(rt, path)?;
    match malformed_line(rt.alloc(), &mut file, book)? {
        None => read_file(rt, path),
        Some(number) => read_front(rt, path, number),
    }
}

fn is_file(rt: &HostRuntime, path: &str) -> Result<bool> {
    let metadata = fs::metadata(rt, path).context(format_args!("{path}"))?;
    Ok(metadata.is_file())
}

fn open(rt: &HostRuntime, path: &str) -> Result<File> {
    File::open(rt, path).context(format_args!("{path}"))
}

// Whether a reader begins as a workload does.
fn tells_load<R: Read>(alloc: Global, reader: &mut R) -> Result<bool> {
    let mut input = Input::new(alloc)?;
    let read = input.next_line(reader);
    Ok(matches!(read, Ok(Next::Line)) && is_load(input.line()))
}

// Whether a reader has a line of a book before any line `steps`.
fn tells_book<R: Read>(alloc: Global, reader: &mut R) -> Result<bool> {
    let mut input = Input::new(alloc)?;
    for _ in 0..u64::MAX {
        let Ok(Next::Line) = input.next_line(reader) else {
            break;
        };
        if is_steps(input.line()) {
            break;
        }
        if is_book(input.line()) {
            return Ok(true);
        }
    }
    Ok(false)
}

// The number of the first line that can't stand where it stands, where there is one.
fn malformed_line<R: Read>(alloc: Global, reader: &mut R, book: bool) -> Result<Option<u64>> {
    let mut input = Input::new(alloc)?;
    let read = if book {
        pass_book(alloc, &mut input, reader)
    } else {
        pass_schedule(alloc, &mut input, reader)
    };
    match read {
        Err(ReadFault::Malformed(number)) => Ok(Some(number)),
        Ok(()) | Err(_) => Ok(None),
    }
}

// Reads a book, and lets it go.
fn pass_book<R: Read>(
    alloc: Global,
    input: &mut Input<Global>,
    reader: &mut R,
) -> Result<(), ReadFault>
    requires { input.old.number ≡ 0 }
{
    let _book = take_book(alloc, input, reader)?;
    Ok(())
}

// Reads a schedule, and does nothing of it.
fn pass_schedule<R: Read>(
    alloc: Global,
    input: &mut Input<Global>,
    reader: &mut R,
) -> Result<(), ReadFault>
    requires { input.old.number ≡ 0 }
{
    let version = read_header(alloc, input, reader)?.limits.version;
    for _ in 0..u64::MAX {
        if input.next_line(reader)? == Next::End {
            break;
        }
        if read_step(alloc, version, input.line()).is_err() {
            return Err(ReadFault::Malformed(input.number()));
        }
    }
    Ok(())
}

// The lines before one, and the first bytes of that.
fn read_front(rt: &HostRuntime, path: &str, number: u64) -> Result<Vec<u8>> {
    let alloc = rt.alloc();
    let mut bytes = MALFORMED_LINE;
    let mut input = Input::new(alloc)?;
    let mut file = open(rt, path)?;
    for _ in 1..number {
        let Ok(Next::Line) = input.next_line(&mut file) else {
            break;
        };
        let line = input.line().len() as u64;
        bytes = bytes.saturating_add(line).saturating_add(1);
    }
    let mut text = Vec::new(alloc);
    let mut front = open(rt, path)?.take(bytes);
    front
        .read_to_end(&mut text)
        .context(format_args!("{path}"))?;
    Ok(text)
}
