//! The sinks of bytes.

ghost use Rattle.std.specs.Prelude.{◌≡◌, ◌≤◌, ◌<◌, ℕ, List, Option, length, OnOk, OnErr, IfOk};
ghost use Rattle.std.specs.Io.KnownBytes.{WriteAppends, Appends};
ghost use Rattle.nd_lines.specs.Counts.{HasRisen};
ghost use Rattle.nd_lines.specs.Written.{AppendsFront};

use std::io::Write;

/// A write that failed.
#[derive(Clone, Copy, Debug, PartialEq, Eq)]
pub struct WriteFault;

/// A sink of bytes that counts how often it failed.
pub trait Output {
    /// The bytes that it holds, if they are known.
    ghost contents: { Self → Option (List ℕ) };

    /// The number of writes that failed so far, up to the greatest number of 64 bits.
    ghost failed: { Self → ℕ };

    /// Writes the front of the buffer, and returns the number of bytes, at least one if there are any. A failed write has written nothing.
    fn write(&mut self, buffer: &[u8]) -> Result<usize, WriteFault>
        ensures bound { IfOk result (λ n. n ≤ length buffer.now) }
        ensures some { 0 < length buffer.now → IfOk result (λ n. 0 < n) }
        ensures bytes { WriteAppends (contents self.old) (contents self.new) result buffer.now }
        ensures fault { OnErr result (HasRisen (failed self.old) (failed self.new)) }
        ensures never_falls { failed self.old ≤ failed self.new };

    /// Returns the number of writes that failed.
    fn failures(&self) -> u64
        ensures { result ≡ failed self.now };
}

/// Any writer of the standard library.
#[derive(Drop)]
pub struct Writing<W> {
    writer: W,
    failures: u64,
}

impl<W: Write> Writing<W> {
    /// Returns a writer with no failure.
    pub fn new(writer: W) -> Self
        ensures writer { result.writer ≡ writer }
        ensures failures { result.failures ≡ 0 }
    {
        Writing {
            writer,
            failures: 0,
        }
    }

    /// Returns the writer.
    pub fn into_inner(self) -> W
        ensures { result ≡ self.writer }
    {
        let Writing {
            writer,
            failures: _,
        } = self;
        writer
    }
}

impl<W: Write> Output for Writing<W> {
    ghost contents = { λ writing. W.contents writing.writer };

    ghost failed = { λ writing. writing.failures };

    fn write(&mut self, buffer: &[u8]) -> Result<usize, WriteFault> {
        match self.writer.write(buffer) {
            Ok(count) if count > 0 || buffer.is_empty() => Ok(count),
            // A writer that takes no byte of some would be asked forever.
            _ => {
                self.failures = self.failures.saturating_add(1);
                Err(WriteFault)
            }
        }
    }

    fn failures(&self) -> u64 {
        self.failures
    }
}

/// Writes all of the bytes. After a fault some of the first ones are written.
pub fn write_whole<W: Output>(writer: &mut W, bytes: &[u8]) -> Result<(), WriteFault>
    ensures ok { OnOk result (Appends (W.contents writer.old) (W.contents writer.new) bytes.now) }
    ensures front { OnErr result (AppendsFront (W.contents writer.old) (W.contents writer.new) bytes.now) }
    ensures fault { OnErr result (HasRisen (W.failed writer.old) (W.failed writer.new)) }
    ensures never_falls { W.failed writer.old ≤ W.failed writer.new }
{
    let mut at = 0;
    while at < bytes.len() {
        at += writer.write(&bytes[at..])?;
    }
    Ok(())
}
