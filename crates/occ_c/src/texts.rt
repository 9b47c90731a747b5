//! Texts: headers, books, audits and replays.
ghost use Rattle.std.specs.Prelude.{◌≡◌, ◌⊎◌, pos, Some, Ok, Err, IfOk, IfErr, IsOkUnless, MatchResult};
ghost use Rattle.occ_print.specs.Books.{book_of, book_text};
ghost use Rattle.occ_text.specs.declared.faults.WriteFault.TheVariants.{Memory as MemoryFault};
ghost use Rattle.occ_text.specs.declared.trouble.Trouble.TheVariants.{Memory};
ghost use Rattle.occ_text.specs.Languages.{position_of};
ghost use Rattle.occ_c.specs.Texts.{Audits, Books, EndTaken, IsHeader, NoHeader, Opens, RunsOn, Replays};

use crate::codes::{OK, line_of, of_fault, of_missed, of_trouble};
use crate::desks::Desk;
use crate::encoding::write_part;
use occ_book::BookView;
use occ_case::OpenCase;
use occ_cli::replay_text;
use occ_print::books::write_book;
use occ_reading::audit_text;
use occ_sharing::SharedStore;
use occ_text::faults::{LineFault, WriteFault};
use occ_text::headers::{Header, Limits, read_header};
use occ_text::input::{Input, Next};
use occ_text::output::Output;
use occ_text::trouble::Trouble;
use occ_text::versions::Version;
use occ_types::{Fault, Schema};
use std::alloc::Global;
use std::io::Read;

/// A store that is opened as a text says, which is a header and nothing behind it, and a desk of it.
pub(crate) fn open(alloc: Global, header: &[u8]) -> Result<Box<Desk>, Trouble>
    ensures { MatchResult result (λ desk. Opens header.now (Ok desk.value)) (λ trouble. Opens header.now (Err trouble)) }
{
    let Header { limits, schema } = header_of(alloc, header)?;
    let Ok(store) = SharedStore::open(alloc, &schema, limits.sessions, limits.keep) else {
        return Err(Trouble::Memory);
    };
    match Desk::new(alloc, limits, store) {
        Ok(desk) => Ok(desk),
        Err(_) => Err(Trouble::Memory),
    }
}

// The header that a text is, from its first line to its last.
fn header_of(alloc: Global, text: &[u8]) -> Result<Header<Global>, Trouble>
    ensures read { IfOk result (λ header. IsHeader text.now header.limits header.schema) }
    ensures unread { IfErr result (λ trouble. (trouble ≡ Memory) ⊎ NoHeader text.now trouble ⊎ RunsOn text.now trouble) }
{
    let mut reader = text;
    let mut input = Input::new(alloc)?;
    let header = read_header(alloc, &mut input, &mut reader)?;
    take_end(&mut input, &mut reader)?;
    Ok(header)
}

// Takes the end of a text, which has to stand behind the lines that were taken.
fn take_end<R: Read>(input: &mut Input<Global>, reader: &mut R) -> Result<(), LineFault>
    ensures { EndTaken result (position_of input.old (R.remaining reader.old)) }
{
    match input.next_line(reader)? {
        Next::End => Ok(()),
        Next::Line => Err(LineFault::Malformed(input.number())),
    }
}

impl Desk {
    /// Writes the book of the store, which is kept to be read in parts, and answers its size.
    pub(crate) fn book(&mut self) -> Result<usize, i32>
        ensures { Books self.old self.new result }
    {
        let book = match self.worker.book() {
            Ok(Ok(book)) => book,
            Ok(Err(fault)) => return Err(of_fault(fault)),
            Err(missed) => return Err(of_missed(missed)),
        };
        let limits = Limits {
            version: Version::Two,
            ..self.limits
        };
        let schema = self.worker.settings().schema();
        let Ok(text) = printed(self.alloc, limits, schema, &book.view()) else {
            return Err(of_fault(Fault::Memory));
        };
        let size = text.len();
        self.kept.book = text;
        Ok(size)
    }
}

/// A book as a text.
fn printed(
    alloc: Global,
    limits: Limits,
    schema: &Schema<Global>,
    book: &BookView<'_, Global, OpenCase<Global>>,
) -> Result<Vec<u8>, WriteFault>
    ensures { IfOk result (λ text. text.items ≡ book_text (book_of (λ opened. opened) limits schema.now book.now)) }
{
    let mut text = Vec::new(alloc);
    let mut output = Output::new(alloc);
    write_book(alloc, &mut output, &mut text, limits, schema, book)?;
    output.flush(&mut text)?;
    Ok(text)
}

/// The audit of a book.
pub(crate) fn audit(alloc: Global, text: &[u8], verdict: &mut i32, line: &mut u64) -> i32
    ensures { Audits text.now verdict.old verdict.new line.old line.new result }
{
    let mut reader = text;
    let mut said: Vec<u8> = Vec::new(alloc);
    match audit_text(alloc, &mut reader, &mut said) {
        Ok(holds) => {
            *verdict = if holds { 1 } else { 0 };
            OK
        }
        Err(trouble) => {
            *line = line_of(trouble);
            of_trouble(trouble)
        }
    }
}

/// The replay of a schedule, of which the beginning is written that has room, and the whole size is told.
pub(crate) fn replay(
    alloc: Global,
    text: &[u8],
    quiet: bool,
    room: &mut [u8],
    size: &mut usize,
    line: &mut u64,
) -> i32
    ensures { Replays quiet text.now room.old room.new size.new line.old line.new result }
{
    let mut reader = text;
    let mut said: Vec<u8> = Vec::new(alloc);
    let outcome = replay_text(alloc, &mut reader, &mut said, quiet);
    *size = said.len();
    let _count = write_part(said.as_slice(), 0, room);
    match outcome {
        Ok(()) => OK,
        Err(trouble) => {
            *line = line_of(trouble);
            of_trouble(trouble)
        }
    }
}
