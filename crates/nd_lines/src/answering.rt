//! Answers to lines, one after the other.

ghost use Rattle.nd_lines.specs.Lines.{longest_line};
ghost use Rattle.std.specs.Prelude.{◌≡◌, ◌≢◌, ◌≤◌, ◌<◌, ℕ, List, Option, Ok, Err, length, string_bytes, IsErrOf};
ghost use Rattle.nd_lines.specs.Answers.{Tells, TellsPart, EndsWell, IsMalformed};
ghost use Rattle.nd_lines.specs.Counts.{one_more};

use std::alloc::Allocator;

/// The most bytes of a line, without its line feed (our choice). A longer line is malformed.
pub const LONGEST_LINE: usize = 16384;

/// The part of the answer to a line that was appended.
#[derive(Clone, Copy, Debug, PartialEq, Eq)]
pub enum Extent {
    /// The whole answer, or the rest of it.
    Whole,
    /// A part of it. The same line is to be passed again for what follows.
    InPart,
}

/// Why a line has no answer.
#[derive(Clone, Copy, Debug, PartialEq, Eq)]
pub enum Unanswered {
    /// The line is malformed.
    Malformed,
    /// Out of memory. What the answerer holds may be lost.
    Memory,
    /// The answerer's wire failed.
    Wire,
}

/// A type that answers lines, one after the other. It may hold what earlier lines said.
pub trait Answering {
    ghost use Rattle.nd_lines.specs.declared.answering.Unanswered.{Unanswered};

    /// The texts that some lines may have from here on; the second answerer is the one after them. The first line has the given number. No line is
    /// answered from the first malformed one on, whose number is last.
    ghost texts: { Self → Self → ℕ → List (List ℕ) → List ℕ → Option ℕ → Type 0 };

    /// The lines that are malformed.
    ghost is_malformed: { List ℕ → Type 0 };

    /// The beginnings that the answer to a line may have, by the answerer before the line. Only an answerer that appends answers in part has any.
    ghost begins: { Self → List ℕ → List ℕ → Type 0 };

    /// A number that falls with each part of an answer.
    ghost left: { Self → ℕ };

    /// The meaning of a fault at a line: the answerer before the line, the line, the answerer after it, and the fault.
    ghost fails: { Self → List ℕ → Self → Unanswered → Type 0 };

    /// The number of calls of its wire that failed so far, up to the greatest number of 64 bits.
    ghost failed: { Self → ℕ };

    /// Appends the answer to one line, which is passed without its line feed, or a part of it: then the caller passes the same line again. If it
    /// returns an error, what it appended is no answer.
    fn answer<A: Allocator>(
        &mut self,
        line: &[u8],
        text: &mut String<A>,
    ) -> Result<Extent, Unanswered>
        requires { length line.now ≤ longest_line }
        ensures answered { result ≡ Ok Extent.Whole → Tells (texts self.old) (texts self.new) line.now (string_bytes text.old) (string_bytes text.new) }
        ensures in_part { result ≡ Ok Extent.InPart → TellsPart texts begins fails self.old self.new line.now (string_bytes text.old) (string_bytes text.new) }
        ensures fewer { result ≡ Ok Extent.InPart → left self.new < left self.old }
        ensures malformed { IsErrOf result Unanswered.Malformed → IsMalformed (texts self.old self.new) line.now }
        ensures only { IsErrOf result Unanswered.Malformed → is_malformed line.now }
        // A malformed line is reported as malformed, even if no memory is left.
        ensures none { is_malformed line.now → IsErrOf result Unanswered.Malformed }
        ensures text_kept { IsErrOf result Unanswered.Malformed → string_bytes text.new ≡ string_bytes text.old }
        ensures fails { (fault : Unanswered) → IsErrOf result fault → fails self.old line.now self.new fault }
        ensures wire_failed { IsErrOf result Unanswered.Wire → failed self.new ≡ one_more (failed self.old) }
        ensures wire_carried { result ≢ Err Unanswered.Wire → failed self.new ≡ failed self.old };

    /// No lines have the empty text, and none of them is malformed.
    ghost no_lines: { (answering : Self) → EndsWell (texts answering answering) };

    /// A line that is too long is malformed.
    ghost too_long: { (answering : Self) (line : List ℕ) → longest_line < length line → IsMalformed (texts answering answering) line };
}
