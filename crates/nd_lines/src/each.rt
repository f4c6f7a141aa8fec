//! Answers that depend on one line alone.

ghost use Rattle.nd_lines.specs.Lines.{longest_line};
ghost use Rattle.std.specs.Prelude.{◌≡◌, ◌≢◌, ◌≤◌, ◌++◌, ◌⊎◌, ℕ, List, Option, None, Some, Err, length, string_bytes, OnOk, OnErr, IsErrOf, IsSomeAnd, refl, ⊤};
ghost use Rattle.nd_lines.specs.Answers.{Only};
ghost use Rattle.nd_lines.specs.Counts.{HasRisen, HasGrownBy, most_reads};
ghost use Rattle.nd_lines.specs.Each.{text_of_each, malformed_of_each};
ghost use Rattle.nd_lines.specs.EachLaws.{each_too_long};
ghost use Rattle.nd_lines.specs.Run.{Wrote, WroteFront, Answered};
ghost use Rattle.nd_lines.specs.Told.{TellsToMemory};

use crate::answering::{Answering, Extent, Unanswered};
use crate::input::Input;
use crate::output::Output;
use crate::run::run_lines;
use crate::tool_fault::ToolFault;
use std::alloc::Allocator;

/// A type that answers each line by itself. It may hold room to work in, on which no answer depends.
pub trait AnsweringEach {
    /// The answer to a line, or none if the line is malformed.
    ghost answer_to: { List ℕ → Option (List ℕ) };

    /// Appends the answer to one line, which is passed without its line feed.
    fn answer_each<A: Allocator>(
        &mut self,
        line: &[u8],
        text: &mut String<A>,
    ) -> Result<(), Unanswered>
        requires { length line.now ≤ longest_line }
        ensures answered { OnOk result (IsSomeAnd (answer_to line.now) (λ told. string_bytes text.new ≡ string_bytes text.old ++ told)) }
        ensures malformed { IsErrOf result Unanswered.Malformed → answer_to line.now ≡ None }
        // A malformed line is reported as malformed, even if no memory is left.
        ensures none { answer_to line.now ≡ None → IsErrOf result Unanswered.Malformed }
        ensures text_kept { IsErrOf result Unanswered.Malformed → string_bytes text.new ≡ string_bytes text.old }
        // It has no wire.
        ensures never_wire { result ≢ Err Unanswered.Wire };
}

/// Answers all lines, each by itself. A line that is too long is malformed.
#[derive(Drop)]
pub struct Each<T> {
    answering: T,
}

impl<T: AnsweringEach> Each<T> {
    /// Returns an answerer of all lines from one of a single line.
    pub fn new(answering: T) -> Self
        ensures { result.answering ≡ answering }
    {
        Each { answering }
    }
}

impl<T: AnsweringEach> Answering for Each<T> {
    ghost texts = { λ _ _. Only (text_of_each T.answer_to) (malformed_of_each T.answer_to) };

    ghost is_malformed = { λ line. T.answer_to line ≡ None };

    // Each line is answered whole.
    ghost begins = { λ _ _ _. ⊥ };

    ghost left = { λ _. 0 };

    ghost fails = { λ _ _ _ _. ⊤ };

    ghost failed = { λ _. 0 };

    ghost no_lines = { λ _ _. (refl, refl) };

    ghost too_long = { λ _ line long. each_too_long T.answer_to line long };

    fn answer<A: Allocator>(
        &mut self,
        line: &[u8],
        text: &mut String<A>,
    ) -> Result<Extent, Unanswered> {
        self.answering.answer_each(line, text)?;
        Ok(Extent::Whole)
    }
}

/// Writes to `writer` the answer to each line of `reader`, each by itself, up to the first malformed one, as `run_lines` does.
pub fn run_each<R: Input, W: Output, T: AnsweringEach + Drop, A: Allocator + Clone>(
    alloc: A,
    reader: &mut R,
    writer: &mut W,
    answering: T,
) -> Result<(), ToolFault>
    ensures ok { OnOk result (Wrote (text_of_each T.answer_to) (malformed_of_each T.answer_to) (R.remaining reader.old) (W.contents writer.old) (W.contents writer.new) None) }
    ensures line { (n : ℕ) → IsErrOf result (ToolFault.Line n) → Wrote (text_of_each T.answer_to) (malformed_of_each T.answer_to) (R.remaining reader.old) (W.contents writer.old) (W.contents writer.new) (Some n) }
    ensures front { OnErr result (WroteFront (text_of_each T.answer_to) (R.remaining reader.old) (W.contents writer.old) (W.contents writer.new)) }
    ensures read_failed { IsErrOf result ToolFault.Read → HasRisen (R.failed reader.old) (R.failed reader.new) ⊎ HasGrownBy most_reads (R.given reader.old) (R.given reader.new) }
    // If a read fails, the answers to all lines that were read before it are written.
    ensures answered { IsErrOf result ToolFault.Read → Answered (text_of_each T.answer_to) (malformed_of_each T.answer_to) (R.remaining reader.old) (R.remaining reader.new) (W.contents writer.old) (W.contents writer.new) }
    ensures write_failed { IsErrOf result ToolFault.Write → HasRisen (W.failed writer.old) (W.failed writer.new) }
    // Out of memory: the answers to all lines before the one at which it ran out are written, whole. That line is not malformed.
    ensures memory { IsErrOf result ToolFault.Memory → TellsToMemory (Only (text_of_each T.answer_to) (malformed_of_each T.answer_to)) (λ line. T.answer_to line ≡ None) (R.remaining reader.old) (R.remaining reader.new) (W.contents writer.old) (W.contents writer.new) }
    ensures never_wire { result ≢ Err ToolFault.Wire }
{
    let mut each = Each::new(answering);
    run_lines(alloc, reader, writer, &mut each)
}
