//! Output that is sent in blocks, and never loses, doubles or reorders a byte.

ghost use Rattle.std.specs.Prelude.{◌≡◌, ◌≤◌, ◌<◌, [], length, drop, false, true, IfOk, IfErr};
ghost use Rattle.std.specs.Io.KnownBytes.{WriteAppends};
ghost use Rattle.occ_text.specs.Sending.{Sends, PushGives, FlushGives};
ghost use Rattle.occ_text.specs.declared.faults.WriteFault.TheVariants as write_faults;

use crate::faults::{WriteFailed, WriteFault};
use std::alloc::Allocator;
use std::io::{ErrorKind, Write};
use std::marker::Model;

/// What is held back at most: a push that passes it sends all.
pub const BLOCK: usize = 8192;

/// Bytes on their way to a writer. What clauses see is what is held back, and whether the writer failed.
#[derive(Drop)]
pub struct Output<A: Allocator> {
    text: Vec<u8, A>,
    /// How much of `text` the writer has.
    sent: usize,
    /// Whether the writer failed, or took nothing.
    failed: bool,
}

impl<A: Allocator> Model for Output<A> {
    ghost use Rattle.std.specs.Prelude.{◌≤◌, drop, length};
    ghost use Rattle.occ_text.specs.Sending.{Outgoing};

    ghost Value = { Outgoing };

    ghost view = { λ o. record { held = drop o.sent o.text.items; failed = o.failed } };

    ghost invariant = { λ o. o.sent ≤ length o.text.items };
}

impl<A: Allocator> Output<A> {
    /// An output that holds nothing. Allocates nothing.
    pub fn new(alloc: A) -> Self
        ensures { result ≡ record { held = []; failed = false } }
    {
        Output {
            text: Vec::new(alloc),
            sent: 0,
            failed: false,
        }
    }

    /// Takes the bytes behind all that was pushed before, and sends all that is held once it is 8,192 bytes or more.
    ///
    /// At `Write` what wasn't sent is still held; at `Memory` nothing was taken.
    pub fn push<W: Write>(&mut self, writer: &mut W, bytes: &[u8]) -> Result<(), WriteFault>
        ensures gives { PushGives result (W.contents writer.old) (W.contents writer.new) self.old.held self.new.held bytes.now }
        ensures cause { IfErr result (λ fault. fault ≡ write_faults.Write → self.new.failed ≡ true) }
        ensures unfailed { IfOk result (λ pushed. self.new.failed ≡ self.old.failed) }
    {
        self.text.extend_from_slice(bytes)?;
        if self.text.len() - self.sent < BLOCK {
            return Ok(());
        }
        self.send(writer)?;
        Ok(())
    }

    /// Sends all that is held, and flushes the writer. Where the writer fails, what wasn't sent is still held.
    pub fn flush<W: Write>(&mut self, writer: &mut W) -> Result<(), WriteFailed>
        ensures gives { FlushGives result (W.contents writer.old) (W.contents writer.new) self.old.held self.new.held }
        ensures cause { IfErr result (λ failed. self.new.failed ≡ true) }
        ensures unfailed { IfOk result (λ sent. self.new.failed ≡ self.old.failed) }
    {
        self.send(writer)?;
        match writer.flush() {
            Ok(()) => Ok(()),
            Err(_) => {
                self.failed = true;
                Err(WriteFailed)
            }
        }
    }

    fn send<W: Write>(&mut self, writer: &mut W) -> Result<(), WriteFailed>
        ensures gives { FlushGives result (W.contents writer.old) (W.contents writer.new) self.old.held self.new.held }
        ensures cause { IfErr result (λ failed. self.new.failed ≡ true) }
        ensures unfailed { IfOk result (λ sent. self.new.failed ≡ self.old.failed) }
    {
        if let Err(failed) = send_all(writer, self.text.as_slice(), &mut self.sent) {
            self.failed = true;
            return Err(failed);
        }
        self.text.clear();
        self.sent = 0;
        Ok(())
    }
}

/// Writes the bytes from `sent` on, and counts there what the writer took.
fn send_all<W: Write>(writer: &mut W, bytes: &[u8], sent: &mut usize) -> Result<(), WriteFailed>
    requires { sent.old ≤ length bytes.now }
    ensures within { sent.new ≤ length bytes.now }
    ensures written { Sends (W.contents writer.old) (W.contents writer.new) (drop sent.old bytes.now) (drop sent.new bytes.now) }
    ensures ok { IfOk result (λ _. sent.new ≡ length bytes.now) }
{
    while *sent < bytes.len() {
        *sent += write_some(writer, &bytes[*sent..])?;
    }
    Ok(())
}

/// One write, tried again where a signal interrupts it. A writer that takes nothing has failed.
fn write_some<W: Write>(writer: &mut W, bytes: &[u8]) -> Result<usize, WriteFailed>
    ensures some { IfOk result (λ count. 0 < count) }
    ensures within { IfOk result (λ count. count ≤ length bytes.now) }
    ensures bytes { WriteAppends (W.contents writer.old) (W.contents writer.new) result bytes.now }
{
    let mut tries = u64::MAX;
    while tries > 0 {
        match writer.write(bytes) {
            Ok(0) => return Err(WriteFailed),
            Ok(count) => return Ok(count),
            Err(error) => {
                if error.kind() != ErrorKind::Interrupted {
                    return Err(WriteFailed);
                }
            }
        }
        tries -= 1;
    }
    Err(WriteFailed)
}
