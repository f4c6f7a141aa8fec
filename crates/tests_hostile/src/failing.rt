//! A reader and a writer that fail once.

ghost use Rattle.std.specs.Prelude.{None};

use nd_lines::input::{Input, Pieces, ReadFault};
use nd_lines::output::{Output, WriteFault};
use std::alloc::Global;

/// Bytes in pieces, with one read that fails.
#[derive(Drop)]
pub(crate) struct FailingReader<'a> {
    pieces: Pieces<'a>,
    /// The number of reads before the one that fails.
    before: u64,
    failures: u64,
}

impl<'a> FailingReader<'a> {
    /// A read gives `piece` bytes at most. The read of this number fails, counted from 0.
    pub(crate) fn new(bytes: &'a [u8], piece: usize, before: u64) -> Self {
        FailingReader {
            pieces: Pieces::new(bytes, piece.max(1)),
            before,
            failures: 0,
        }
    }
}

impl Input for FailingReader<'_> {
    ghost remaining = { λ _. None };

    ghost given = { λ reader. reader.pieces.given };

    ghost failed = { λ reader. reader.failures };

    fn read(&mut self, buffer: &mut [u8]) -> Result<usize, ReadFault> {
        if self.before == 0 && self.failures == 0 {
            self.failures = 1;
            return Err(ReadFault);
        }
        self.before = self.before.saturating_sub(1);
        self.pieces.read(buffer)
    }

    fn failures(&self) -> u64 {
        self.failures
    }
}

/// Takes a number of bytes a write at most, with one write that fails.
#[derive(Drop)]
pub(crate) struct FailingWriter {
    pub(crate) bytes: Vec<u8>,
    most: usize,
    /// The number of writes before the one that fails.
    before: u64,
    failures: u64,
}

impl FailingWriter {
    /// The write of this number fails, counted from 0.
    pub(crate) fn new(alloc: Global, most: usize, before: u64) -> Self {
        FailingWriter {
            bytes: Vec::new(alloc),
            most,
            before,
            failures: 0,
        }
    }
}

impl Output for FailingWriter {
    ghost contents = { λ _. None };

    ghost failed = { λ writer. writer.failures };

    fn write(&mut self, buffer: &[u8]) -> Result<usize, WriteFault> {
        let count = buffer.len().min(self.most.max(1));
        let is_failing = self.before == 0 && self.failures == 0;
        if is_failing || self.bytes.extend_from_slice(&buffer[..count]).is_err() {
            self.failures = self.failures.saturating_add(1);
            return Err(WriteFault);
        }
        self.before = self.before.saturating_sub(1);
        Ok(count)
    }

    fn failures(&self) -> u64 {
        self.failures
    }
}
