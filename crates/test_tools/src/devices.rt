//! A device for tests: a reader and writer that moves a few bytes a call, is interrupted, and fails where it is told to.
use std::io;
use std::io::{Error, ErrorKind, Read, Write};

/// A device that moves at most `most` bytes a call, is interrupted at each third call, and fails from the call `fails` on.
#[derive(Drop)]
pub struct Device {
    /// What reads hand out, and what writes have left.
    pub bytes: Vec<u8>,
    at: usize,
    most: usize,
    calls: usize,
    fails: usize,
}

impl Device {
    /// A device of these bytes, which moves at most `most` of them a call, and fails from the call `fails` on, counted from 0.
    pub fn new(bytes: Vec<u8>, most: usize, fails: usize) -> Device {
        Device {
            bytes,
            at: 0,
            most,
            calls: 0,
            fails,
        }
    }

    /// The bytes that reads have taken.
    pub fn handed_out(&self) -> &[u8] {
        let bytes = self.bytes.as_slice();
        &bytes[..self.at.min(bytes.len())]
    }

    /// What the next call meets.
    fn turn(&mut self) -> io::Result<()> {
        self.calls = self.calls.saturating_add(1);
        if self.calls > self.fails {
            return Err(Error::from(ErrorKind::Other));
        }
        if self.calls % 3 == 0 {
            return Err(Error::from(ErrorKind::Interrupted));
        }
        Ok(())
    }
}

impl Read for Device {
    fn read(&mut self, buf: &mut [u8]) -> io::Result<usize> {
        self.turn()?;
        let rest = self.bytes.as_slice();
        let rest = &rest[self.at.min(rest.len())..];
        let count = self.most.min(buf.len()).min(rest.len());
        let (front, _) = rest.split_at(count);
        buf[..count].copy_from_slice(front);
        self.at = self.at.saturating_add(count);
        Ok(count)
    }
}

impl Write for Device {
    fn write(&mut self, buf: &[u8]) -> io::Result<usize> {
        self.turn()?;
        let count = self.most.min(buf.len());
        self.bytes.extend_from_slice(&buf[..count])?;
        Ok(count)
    }

    fn flush(&mut self) -> io::Result<()> {
        match self.turn() {
            Err(error) if error.kind() != ErrorKind::Interrupted => Err(error),
            _ => Ok(()),
        }
    }
}
