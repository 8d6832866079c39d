//! A reader and a writer of which one call fails, and which then go on.

use std::io;
use std::io::{Read, Write};

/// The error of the call that fails.
fn failure() -> io::Error {
    io::Error::from(io::ErrorKind::Other)
}

/// A reader of these bytes.
#[derive(Drop)]
pub struct FailingReader {
    rest: &'static [u8],
    calls: u64,
    failing: u64,
}

impl FailingReader {
    /// The reader of which the call of this number, from 0, fails.
    pub fn new(rest: &'static [u8], failing: u64) -> FailingReader {
        FailingReader {
            rest,
            calls: 0,
            failing,
        }
    }
}

impl Read for FailingReader {
    fn read(&mut self, room: &mut [u8]) -> io::Result<usize> {
        let call = self.calls;
        self.calls = call.saturating_add(1);
        if call == self.failing {
            return Err(failure());
        }
        let count = room.len().min(self.rest.len());
        room[..count].copy_from_slice(&self.rest[..count]);
        self.rest = &self.rest[count..];
        Ok(count)
    }
}

/// A writer into memory that takes at most ten bytes a call.
#[derive(Drop)]
pub struct FailingWriter {
    bytes: Vec<u8>,
    calls: u64,
    failing: u64,
}

impl FailingWriter {
    /// The writer of which the call of this number, from 0, fails.
    pub fn new(bytes: Vec<u8>, failing: u64) -> FailingWriter {
        FailingWriter {
            bytes,
            calls: 0,
            failing,
        }
    }

    /// What was written.
    pub fn bytes(&self) -> &[u8] {
        self.bytes.as_slice()
    }
}

impl Write for FailingWriter {
    fn write(&mut self, piece: &[u8]) -> io::Result<usize> {
        let call = self.calls;
        self.calls = call.saturating_add(1);
        if call == self.failing {
            return Err(failure());
        }
        let count = piece.len().min(10);
        match self.bytes.extend_from_slice(&piece[..count]) {
            Ok(()) => Ok(count),
            Err(_) => Err(failure()),
        }
    }

    fn flush(&mut self) -> io::Result<()> {
        Ok(())
    }
}
