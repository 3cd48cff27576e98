//! A sink that takes one byte a call, and a writer that is interrupted.

ghost use Rattle.std.specs.Prelude.{Some};

use crate::calls::one_number;
use io_core::{MemSink, Sink, WriteError};
use std::alloc::Global;
use std::io;
use std::io::{ErrorKind, Write};
use term_core::OutOfMemory;

/// A sink that takes one byte a call.
#[derive(Drop)]
pub struct ByteSink {
    sink: MemSink,
}

impl ByteSink {
    /// The call with this number, counted from 1, fails.
    pub fn new(alloc: Global, failing: u64) -> Result<ByteSink, OutOfMemory> {
        let sink = MemSink::new(alloc, one_number(alloc, failing)?);
        Ok(ByteSink { sink })
    }

    pub fn bytes(&self) -> &[u8] {
        self.sink.bytes()
    }
}

impl Sink for ByteSink {
    ghost written = { λ s. Some s.sink.bytes };

    ghost faults = { λ s. s.sink.plan.faults };

    fn write(&mut self, alloc: Global, piece: &[u8]) -> Result<usize, WriteError> {
        self.sink.write(alloc, &piece[..piece.len().min(1)])
    }
}

/// A writer that is interrupted before each time it takes bytes, and then takes three at most.
#[derive(Drop)]
pub struct Interrupted {
    pub bytes: Vec<u8>,
    interruptions: u8,
    left: u8,
}

impl Interrupted {
    /// This many interruptions come before each write that succeeds.
    pub fn new(alloc: Global, interruptions: u8) -> Interrupted {
        Interrupted {
            bytes: Vec::new(alloc),
            interruptions,
            left: interruptions,
        }
    }
}

impl Write for Interrupted {
    fn write(&mut self, buf: &[u8]) -> io::Result<usize> {
        if self.left > 0 {
            self.left -= 1;
            return Err(io::Error::from(ErrorKind::Interrupted));
        }
        self.left = self.interruptions;
        let taken = buf.len().min(3);
        self.bytes.extend_from_slice(&buf[..taken])?;
        Ok(taken)
    }

    fn flush(&mut self) -> io::Result<()> {
        Ok(())
    }
}
