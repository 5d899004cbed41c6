//! Devices that move one byte a call, and fail at one call or never.
ghost use Rattle.std.specs.Prelude.{Some};

use std::alloc::Global;
use std::io;
use std::io::{ErrorKind, Read, Write};

/// Reads one byte a call. The call `fails_at`, counted from 1, returns an error of this kind.
#[derive(Drop)]
pub struct SlowReader<'a> {
    pub rest: &'a [u8],
    pub calls: u64,
    pub fails_at: u64,
    pub kind: ErrorKind,
}

impl<'a> SlowReader<'a> {
    pub fn new(rest: &'a [u8], fails_at: u64, kind: ErrorKind) -> SlowReader<'a> {
        SlowReader {
            rest,
            calls: 0,
            fails_at,
            kind,
        }
    }
}

impl Read for SlowReader<'_> {
    ghost remaining = { λ r. Some r.rest.now };

    fn read(&mut self, buffer: &mut [u8]) -> io::Result<usize> {
        self.calls = self.calls.saturating_add(1);
        if self.calls == self.fails_at {
            return Err(io::Error::from(self.kind));
        }
        let count = self.rest.len().min(buffer.len()).min(1);
        let (front, rest) = self.rest.split_at(count);
        buffer[..count].copy_from_slice(front);
        self.rest = rest;
        Ok(count)
    }
}

/// Writes at most `step` bytes a call. The call `fails_at`, whether a write or a flush, returns an error.
#[derive(Drop)]
pub struct SlowWriter {
    pub got: Vec<u8>,
    pub step: usize,
    pub calls: u64,
    pub fails_at: u64,
}

impl SlowWriter {
    pub fn new(alloc: Global, step: usize, fails_at: u64) -> SlowWriter {
        SlowWriter {
            got: Vec::new(alloc),
            step,
            calls: 0,
            fails_at,
        }
    }

    fn call(&mut self) -> io::Result<()> {
        self.calls = self.calls.saturating_add(1);
        if self.calls == self.fails_at {
            return Err(io::Error::from(ErrorKind::BrokenPipe));
        }
        Ok(())
    }
}

impl Write for SlowWriter {
    fn write(&mut self, bytes: &[u8]) -> io::Result<usize> {
        self.call()?;
        let count = bytes.len().min(self.step);
        self.got.extend_from_slice(&bytes[..count])?;
        Ok(count)
    }

    fn flush(&mut self) -> io::Result<()> {
        self.call()
    }
}
