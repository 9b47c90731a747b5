//! Input that is taken line by line, in a bounded room whatever the text is.

ghost use Rattle.std.specs.Prelude.{◌≡◌, ◌≢◌, ◌≤◌, ◌<◌, ◌+◌, [], All, take, length, slice_index, IfOk, IfErr, true, false};
ghost use Rattle.std.specs.Io.KnownBytes.{Keeps, IsAtEnd, ReadConsumes, prepend_known};
ghost use Rattle.occ_text.specs.Line.{LineGives, LineTaken, GatherGives, PieceGives, TakesPiece, HasFailed};
ghost use Rattle.occ_text.specs.declared.faults.LineFault.TheVariants as line_faults;

use crate::faults::{LineFault, ReadFailed};
use crate::separated_parts::find;
use std::alloc::{AllocError, Allocator};
use std::io::{ErrorKind, Read};
use std::marker::Model;

/// Bytes of a line, without its line feed.
pub const MAX_LINE: usize = 8192;

/// Bytes that one read asks for.
const BLOCK: usize = 4096;

const FEED: u8 = b'\n';

/// What an input comes to.
#[derive(Clone, Copy, Debug, PartialEq, Eq)]
pub enum Next {
    /// A whole line, which `line` shows.
    Line,
    /// The end of the text.
    End,
}

/// What was added to a line.
#[derive(Clone, Copy, Debug, PartialEq, Eq)]
enum Piece {
    /// All up to the line feed, which is taken.
    Whole,
    /// A part with no line feed.
    Part,
    /// Nothing, since the line would be too long.
    Long,
    /// Nothing, since the text is at its end.
    Nothing,
}

/// Lines on their way from a reader. It owns 12,288 bytes, and takes no memory after it was made.
#[derive(Drop)]
pub struct Input<A: Allocator> {
    block: Vec<u8, A>,
    /// Where the unread bytes of `block` begin.
    from: usize,
    /// Where they end.
    to: usize,
    line: Vec<u8, A>,
    /// Lines taken so far.
    number: u64,
    /// Whether a read failed.
    failed: bool,
}

impl<A: Allocator> Model for Input<A> {
    ghost use Rattle.std.specs.Prelude.{ℕ, ◌≡◌, ◌≤◌, ◌<◌, length, slice_range, vec_capacity};
    ghost use Rattle.occ_text.specs.Line.{Source};

    ghost Value = { Source };

    ghost view = { λ i. record { unread = slice_range i.block.items i.from i.to; line = i.line.items; number = i.number; failed = i.failed } };

    ghost invariant = { λ i. record {
      ordered : i.from ≤ i.to;
      within : i.to ≤ length i.block.items;
      block : length i.block.items ≡ 4096;
      room : 8192 ≤ vec_capacity i.line;
    } };
}

impl<A: Allocator> Input<A> {
    /// An input from which nothing was taken. All the memory that it needs is asked for here.
    pub fn new(alloc: A) -> Result<Self, AllocError>
    where
        A: Clone,
        ensures { IfOk result (λ input. input ≡ record { unread = []; line = []; number = 0; failed = false }) }
    {
        let block = vec![in alloc.clone()?; 0u8; BLOCK]?;
        let line = Vec::with_capacity(alloc, MAX_LINE)?;
        Ok(Input {
            block,
            from: 0,
            to: 0,
            line,
            number: 0,
            failed: false,
        })
    }

    /// The last line taken, without its line feed.
    pub fn line(&self) -> &[u8]
        ensures { result.now ≡ self.now.line }
    {
        self.line.as_slice()
    }

    /// How many lines were taken: the number of the last one, counted from 1.
    pub fn number(&self) -> u64
        ensures { result ≡ self.now.number }
    {
        self.number
    }

    /// Takes the next line, which `line` then shows.
    ///
    /// `Malformed` where no line of at most 8,192 bytes and a line feed stands next, with its number; `Read` where the
    /// reader fails, and then all that it gave is taken; `TooManyLines` after 2^64 - 1 lines. After any of them the input is of no
    /// more use.
    pub fn next_line<R: Read>(&mut self, reader: &mut R) -> Result<Next, LineFault>
        ensures gives { LineGives result (prepend_known self.old.unread (R.remaining reader.old))
            (prepend_known self.new.unread (R.remaining reader.new)) self.old self.new }
        ensures cause { IfErr result (λ fault. fault ≡ line_faults.Read → HasFailed self.new) }
        ensures unfailed { IfOk result (λ next. self.new.failed ≡ self.old.failed) }
    {
        if self.number == u64::MAX {
            return Err(LineFault::TooManyLines);
        }
        self.line.clear();
        match self.gather(reader)? {
            Piece::Whole => {
                self.number += 1;
                Ok(Next::Line)
            }
            Piece::Nothing if self.line.is_empty() => Ok(Next::End),
            Piece::Nothing | Piece::Long | Piece::Part => Err(self.malformed()),
        }
    }

    /// Takes the line that has to stand next, which `line` then shows.
    ///
    /// `Malformed` also where the text is at its end; else as `next_line` fails. After that the input is of no more use.
    pub fn take_line<R: Read>(&mut self, reader: &mut R) -> Result<(), LineFault>
        ensures gives { LineTaken result (prepend_known self.old.unread (R.remaining reader.old))
            (prepend_known self.new.unread (R.remaining reader.new)) self.old self.new }
        ensures cause { IfErr result (λ fault. fault ≡ line_faults.Read → HasFailed self.new) }
        ensures unfailed { IfOk result (λ taken. self.new.failed ≡ self.old.failed) }
    {
        match self.next_line(reader)? {
            Next::Line => Ok(()),
            Next::End => Err(self.malformed()),
        }
    }

    // The fault of what stands behind the lines taken so far, or doesn't stand there.
    fn malformed(&self) -> LineFault
        requires { self.now.number < u64.MAX }
        ensures { result ≡ LineFault.Malformed (self.now.number + 1) }
    {
        LineFault::Malformed(self.number + 1)
    }

    /// Takes pieces up to the end of a line, or to where none can be.
    fn gather<R: Read>(&mut self, reader: &mut R) -> Result<Piece, ReadFailed>
        requires { self.old.line ≡ [] }
        ensures gives { GatherGives result (prepend_known self.old.unread (R.remaining reader.old))
            (prepend_known self.new.unread (R.remaining reader.new)) self.new.line }
        ensures number { self.new.number ≡ self.old.number }
        ensures cause { IfErr result (λ failed. HasFailed self.new) }
        ensures unfailed { IfOk result (λ piece. self.new.failed ≡ self.old.failed) }
    {
        loop {
            match self.take_piece(reader)? {
                Piece::Part => {}
                last => return Ok(last),
            }
        }
    }

    fn take_piece<R: Read>(&mut self, reader: &mut R) -> Result<Piece, ReadFailed>
        ensures gives { PieceGives result (prepend_known self.old.unread (R.remaining reader.old))
            (prepend_known self.new.unread (R.remaining reader.new)) self.old self.new }
        ensures number { self.new.number ≡ self.old.number }
        ensures cause { IfErr result (λ failed. HasFailed self.new) }
        ensures unfailed { IfOk result (λ piece. self.new.failed ≡ self.old.failed) }
    {
        if !self.refill(reader)? {
            return Ok(Piece::Nothing);
        }
        Ok(self.take_unread())
    }

    /// Reads where nothing is unread, and says whether something is then.
    fn refill<R: Read>(&mut self, reader: &mut R) -> Result<bool, ReadFailed>
        ensures kept { Keeps (prepend_known self.old.unread (R.remaining reader.old))
            (prepend_known self.new.unread (R.remaining reader.new)) }
        ensures more { IfOk result (λ more. more ≡ true → 0 < length self.new.unread) }
        ensures end { IfOk result (λ more. more ≡ false → IsAtEnd (prepend_known self.new.unread (R.remaining reader.new))) }
        ensures line { self.new.line ≡ self.old.line }
        ensures number { self.new.number ≡ self.old.number }
        ensures cause { IfErr result (λ failed. HasFailed self.new) }
        ensures unfailed { IfOk result (λ more. self.new.failed ≡ self.old.failed) }
    {
        if self.from < self.to {
            return Ok(true);
        }
        self.from = 0;
        self.to = 0;
        match read_some(reader, self.block.as_mut_slice()) {
            Ok(count) => self.to = count,
            Err(failed) => {
                self.failed = true;
                return Err(failed);
            }
        }
        Ok(self.to > 0)
    }

    /// Moves what is unread onto the line, up to a line feed.
    fn take_unread(&mut self) -> Piece
        requires { 0 < length self.old.unread }
        ensures takes { TakesPiece result self.old self.new }
        ensures number { self.new.number ≡ self.old.number }
        ensures unfailed { self.new.failed ≡ self.old.failed }
    {
        let unread = &self.block[self.from..self.to];
        let len = find(unread, FEED);
        if self.line.len() + len > MAX_LINE {
            return Piece::Long;
        }
        self.line.extend_from_slice(&unread[..len]).unwrap();
        if len < unread.len() {
            self.from += len + 1;
            Piece::Whole
        } else {
            self.from = self.to;
            Piece::Part
        }
    }
}

/// One read, tried again where a signal interrupts it.
fn read_some<R: Read>(reader: &mut R, block: &mut [u8]) -> Result<usize, ReadFailed>
    ensures within { IfOk result (λ count. count ≤ length block.new) }
    ensures bytes { ReadConsumes (R.remaining reader.old) (R.remaining reader.new) result block.new }
{
    let mut tries = u64::MAX;
    while tries > 0 {
        match reader.read(block) {
            Ok(count) => return Ok(count),
            Err(error) => {
                if error.kind() != ErrorKind::Interrupted {
                    return Err(ReadFailed);
                }
            }
        }
        tries -= 1;
    }
    Err(ReadFailed)
}
