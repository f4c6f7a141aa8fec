//! The bytes that are read ahead, in which lines are found without a copy.

ghost use Rattle.nd_lines.specs.Lines.{longest_line};
ghost use Rattle.std.specs.Prelude.{◌≡◌, ◌≤◌, ◌<◌, ◌+◌, ◌-◌, ◌⊎◌, length, drop, vec_len, OnOk, OnErr, IfOk, Ok, true, false};
ghost use Rattle.std.specs.Io.KnownBytes.{IsAtEnd, Keeps, prepend_known};
ghost use Rattle.nd_lines.specs.Ahead.{in_hand, left, Finds, buffer_room};
ghost use Rattle.nd_lines.specs.Counts.{HasRisen, HasGrownBy, most_reads};

use crate::answering::LONGEST_LINE;
use crate::input::{Input, ReadFault};
use memchr::memchr;
use std::alloc::{AllocError, Allocator};

/// The most buffered bytes (our choice): a line, and what a large read adds after it.
const ROOM: usize = 65536;

/// The most reads of an input (our choice).
const READS: u64 = 1 << 40;

/// Bytes that were read and not yet taken, in one buffer.
#[derive(Drop)]
pub struct Ahead<A: Allocator> {
    buffer: Vec<u8, A>,
    start: usize,
    end: usize,
    reads: u64,
    ghost room: { vec_len buffer ≡ buffer_room },
    ghost ordered: { start ≤ end },
    ghost within: { end ≤ buffer_room },
    ghost counted: { reads ≤ most_reads },
}

/// What the buffered bytes begin with.
#[derive(Clone, Copy, Debug, PartialEq, Eq)]
pub enum FirstLine {
    /// A line of this number of bytes, and its line feed.
    Whole(usize),
    /// A line over the limit, with anything after it.
    TooLong,
    /// The beginning of a line, or no byte.
    Unfinished,
}

impl<A: Allocator> Ahead<A> {
    /// Returns a buffer in which nothing was read yet. It never grows. Returns an error if out of memory.
    pub fn new(alloc: A) -> Result<Ahead<A>, AllocError>
        ensures empty { IfOk result (λ ahead. ahead.start ≡ ahead.end) }
        ensures reads { IfOk result (λ ahead. ahead.reads ≡ most_reads) }
    {
        let buffer = vec![in alloc; 0; ROOM]?;
        Ok(Ahead {
            buffer,
            start: 0,
            end: 0,
            reads: READS,
        })
    }

    /// Returns the buffered bytes.
    pub fn in_hand(&self) -> &[u8]
        ensures bytes { result.now ≡ in_hand self.now.buffer.items self.now.start self.now.end }
        ensures length { length result.now ≡ self.now.end - self.now.start }
    {
        &self.buffer[self.start..self.end]
    }

    /// Looks for the first line among the buffered bytes.
    pub fn first_line(&self) -> FirstLine
        ensures { Finds (in_hand self.now.buffer.items self.now.start self.now.end) result }
    {
        let bytes = self.in_hand();
        match memchr(b'\n', bytes) {
            Some(count) if count > LONGEST_LINE => FirstLine::TooLong,
            Some(count) => FirstLine::Whole(count),
            None if bytes.len() > LONGEST_LINE => FirstLine::TooLong,
            None => FirstLine::Unfinished,
        }
    }

    /// Takes bytes from the front of the buffered ones.
    pub fn take(&mut self, count: usize)
        requires { count ≤ self.old.end - self.old.start }
        ensures rest { in_hand self.new.buffer.items self.new.start self.new.end ≡ drop count (in_hand self.old.buffer.items self.old.start self.old.end) }
        ensures spent { left self.new.reads self.new.start self.new.end + count ≡ left self.old.reads self.old.start self.old.end }
        ensures reads { self.new.reads ≡ self.old.reads }
    {
        self.start += count;
    }

    /// Moves the buffered bytes to the front of the buffer.
    fn move_to_front(&mut self)
        ensures start { self.new.start ≡ 0 }
        ensures end { self.new.end ≡ self.old.end - self.old.start }
        ensures bytes { in_hand self.new.buffer.items self.new.start self.new.end ≡ in_hand self.old.buffer.items self.old.start self.old.end }
        ensures reads { self.new.reads ≡ self.old.reads }
    {
        if self.start == 0 {
            return;
        }
        self.buffer.copy_within(self.start..self.end, 0);
        self.end -= self.start;
        self.start = 0;
    }

    /// Reads as many bytes as there is room for, after the buffered ones. Returns true if a byte was read: only at the end there is none, and no
    /// further read must be made then.
    pub fn fill<R: Input>(&mut self, input: &mut R) -> Result<bool, ReadFault>
        requires { self.old.end - self.old.start ≤ longest_line }
        ensures bytes { OnOk result (Keeps (prepend_known (in_hand self.old.buffer.items self.old.start self.old.end) (R.remaining input.old)) (prepend_known (in_hand self.new.buffer.items self.new.start self.new.end) (R.remaining input.new))) }
        ensures end { result ≡ Ok false → IsAtEnd (R.remaining input.new) }
        ensures same { result ≡ Ok false → in_hand self.new.buffer.items self.new.start self.new.end ≡ in_hand self.old.buffer.items self.old.start self.old.end }
        ensures given { result ≡ Ok true → HasGrownBy 1 (R.given input.old) (R.given input.new) }
        ensures given_never_falls { R.given input.old ≤ R.given input.new }
        ensures fault { OnErr result ((self.old.reads ≡ 0) ⊎ HasRisen (R.failed input.old) (R.failed input.new)) }
        ensures kept { OnErr result (Keeps (R.remaining input.old) (R.remaining input.new)) }
        ensures failed_never_falls { R.failed input.old ≤ R.failed input.new }
        ensures spent { OnOk result (left self.new.reads self.new.start self.new.end < left self.old.reads self.old.start self.old.end) }
        ensures reads { OnOk result (self.new.reads + 1 ≡ self.old.reads) }
    {
        if self.reads == 0 {
            return Err(ReadFault);
        }
        self.reads -= 1;
        self.move_to_front();
        let count = input.read(&mut self.buffer[self.end..])?;
        self.end += count;
        Ok(count > 0)
    }
}
