//! The sources of bytes.

ghost use Rattle.std.specs.Prelude.{◌≡◌, ◌≤◌, ◌<◌, ◌+◌, ◌-◌, ◌^◌, ℕ, List, Option, Some, min, OnErr, IfOk};
ghost use Rattle.std.specs.Io.KnownBytes.{ReadConsumes};
ghost use Rattle.std.specs.Io.{ReadsAtMost};
ghost use Rattle.nd_lines.specs.Counts.{HasRisen};

use std::io::Read;

/// A read that failed.
#[derive(Clone, Copy, Debug, PartialEq, Eq)]
pub struct ReadFault;

/// A source of bytes that counts what it gave and how often it failed.
pub trait Input {
    /// The bytes that reads will give from here on, if they are known.
    ghost remaining: { Self → Option (List ℕ) };

    /// The number of bytes that reads gave so far, up to the greatest number of 64 bits.
    ghost given: { Self → ℕ };

    /// The number of reads that failed so far, up to the greatest number of 64 bits.
    ghost failed: { Self → ℕ };

    /// Reads into the front of the buffer, and returns the number of bytes. If the buffer has room, the number is 0 only at the end. A failed read
    /// takes nothing from what is left.
    fn read(&mut self, buffer: &mut [u8]) -> Result<usize, ReadFault>
        ensures bound { ReadsAtMost result buffer.new }
        ensures bytes { ReadConsumes (remaining self.old) (remaining self.new) result buffer.new }
        ensures count { IfOk result (λ n. given self.new ≡ min (given self.old + n) (2 ^ 64 - 1)) }
        ensures given_never_falls { given self.old ≤ given self.new }
        ensures fault { OnErr result (HasRisen (failed self.old) (failed self.new)) }
        ensures failed_never_falls { failed self.old ≤ failed self.new };

    /// Returns the number of reads that failed.
    fn failures(&self) -> u64
        ensures { result ≡ failed self.now };
}

/// Any reader of the standard library.
#[derive(Drop)]
pub struct Reading<R> {
    reader: R,
    given: u64,
    failures: u64,
}

impl<R: Read> Reading<R> {
    /// Returns a reader that gave no byte and had no failure.
    pub fn new(reader: R) -> Self
        ensures reader { result.reader ≡ reader }
        ensures given { result.given ≡ 0 }
        ensures failures { result.failures ≡ 0 }
    {
        Reading {
            reader,
            given: 0,
            failures: 0,
        }
    }
}

impl<R: Read> Input for Reading<R> {
    ghost remaining = { λ reading. R.remaining reading.reader };

    ghost given = { λ reading. reading.given };

    ghost failed = { λ reading. reading.failures };

    fn read(&mut self, buffer: &mut [u8]) -> Result<usize, ReadFault> {
        match self.reader.read(buffer) {
            Ok(count) => {
                self.given = self.given.saturating_add(count as u64);
                Ok(count)
            }
            Err(_) => {
                self.failures = self.failures.saturating_add(1);
                Err(ReadFault)
            }
        }
    }

    fn failures(&self) -> u64 {
        self.failures
    }
}

/// Bytes in memory, given in pieces of limited length.
#[derive(Drop)]
pub struct Pieces<'a> {
    bytes: &'a [u8],
    piece: usize,
    given: u64,
    ghost some: { 0 < piece },
}

impl<'a> Pieces<'a> {
    /// Returns all of the bytes, in pieces of at most `piece` bytes.
    pub fn new(bytes: &'a [u8], piece: usize) -> Self
        requires { 0 < piece }
        ensures bytes { result.bytes.now ≡ bytes.now }
        ensures piece { result.piece ≡ piece }
        ensures given { result.given ≡ 0 }
    {
        Pieces {
            bytes,
            piece,
            given: 0,
        }
    }
}

impl Input for Pieces<'_> {
    ghost remaining = { λ pieces. Some pieces.bytes.now };

    ghost given = { λ pieces. pieces.given };

    ghost failed = { λ _. 0 };

    // The clauses of `Input::read`, and that a piece is no larger than its limit.
    fn read(&mut self, buffer: &mut [u8]) -> Result<usize, ReadFault>
        ensures bound { ReadsAtMost result buffer.new }
        ensures bytes { ReadConsumes (Some self.old.bytes.now) (Some self.new.bytes.now) result buffer.new }
        ensures count { IfOk result (λ n. self.new.given ≡ min (self.old.given + n) (2 ^ 64 - 1)) }
        ensures given_never_falls { self.old.given ≤ self.new.given }
        ensures fault { OnErr result (HasRisen 0 0) }
        ensures failed_never_falls { 0 ≤ 0 }
        ensures few { IfOk result (λ n. n ≤ self.old.piece) }
        ensures piece { self.new.piece ≡ self.old.piece }
    {
        let count = self.bytes.len().min(buffer.len()).min(self.piece);
        let (front, rest) = self.bytes.split_at(count);
        buffer[..count].copy_from_slice(front);
        self.bytes = rest;
        self.given = self.given.saturating_add(count as u64);
        Ok(count)
    }

    fn failures(&self) -> u64 {
        0
    }
}
