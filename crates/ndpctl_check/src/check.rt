ghost use Rattle.std.specs.Prelude.{◌≡◌, ◌≢◌, ◌⊎◌, ℕ, OnOk, OnErr, IsErrOf, Some, None, Err};
ghost use Rattle.nd_lines.specs.Answers.{Only};
ghost use Rattle.nd_lines.specs.Counts.{HasRisen, HasGrownBy, most_reads};
ghost use Rattle.nd_lines.specs.Run.{Wrote, WroteFront, Answered};
ghost use Rattle.nd_lines.specs.Each.{text_of_each, malformed_of_each};
ghost use Rattle.nd_lines.specs.Told.{TellsToMemory};
ghost use Rattle.ndpctl_check.specs.Check.{answer_to};

use crate::telling::tell_line;
use nd_lines::answering::Unanswered;
use nd_lines::each::{AnsweringEach, run_each};
use nd_lines::input::Input;
use nd_lines::output::Output;
use nd_lines::tool_fault::ToolFault;
use std::alloc::Allocator;

/// The most bytes of a frame: a line has at most 16,384 digits (our choice).
const LONGEST_FRAME: usize = 8192;

/// An answerer of lines of frames, with room for one frame.
#[derive(Drop)]
struct Check {
    frame: [u8; LONGEST_FRAME],
}

impl AnsweringEach for Check {
    ghost answer_to = { answer_to };

    #[tactic(auto, unfolding(crate::specs::Check::answer_to))]
    fn answer_each<A: Allocator>(
        &mut self,
        line: &[u8],
        text: &mut String<A>,
    ) -> Result<(), Unanswered> {
        let frame = &mut self.frame[..line.len() / 2];
        match nd_text::decode_hex_to_slice(line, frame) {
            Ok(()) => {}
            Err(_) => return Err(Unanswered::Malformed),
        }
        match tell_line(text, frame) {
            Ok(()) => Ok(()),
            Err(_) => Err(Unanswered::Memory),
        }
    }
}

/// Writes to `writer` the answer to each line of `reader`: a line holds a frame in hexadecimal, and its answer is what the frame is, or the first
/// reason to drop it.
///
/// Returns `Line(n)` for the first malformed line, counted from 1, which is too long or no even number of hexadecimal digits; all lines before it
/// were answered. Otherwise memory ran out, and all lines before the one at which it did were answered, or the reader or the writer has a fault,
/// and a beginning of the text was written.
pub fn run_check<R: Input, W: Output, A: Allocator + Clone>(
    alloc: A,
    reader: &mut R,
    writer: &mut W,
) -> Result<(), ToolFault>
    ensures ok { OnOk result (Wrote (text_of_each answer_to) (malformed_of_each answer_to) (R.remaining reader.old) (W.contents writer.old) (W.contents writer.new) None) }
    ensures line { (n : ℕ) → IsErrOf result (ToolFault.Line n) → Wrote (text_of_each answer_to) (malformed_of_each answer_to) (R.remaining reader.old) (W.contents writer.old) (W.contents writer.new) (Some n) }
    ensures front { OnErr result (WroteFront (text_of_each answer_to) (R.remaining reader.old) (W.contents writer.old) (W.contents writer.new)) }
    ensures read_failed { IsErrOf result ToolFault.Read → HasRisen (R.failed reader.old) (R.failed reader.new) ⊎ HasGrownBy most_reads (R.given reader.old) (R.given reader.new) }
    // If a read fails, the answers to all lines that were read before it are written.
    ensures answered { IsErrOf result ToolFault.Read → Answered (text_of_each answer_to) (malformed_of_each answer_to) (R.remaining reader.old) (R.remaining reader.new) (W.contents writer.old) (W.contents writer.new) }
    ensures write_failed { IsErrOf result ToolFault.Write → HasRisen (W.failed writer.old) (W.failed writer.new) }
    // Out of memory: the answers to all lines before the one at which it ran out are written, whole. That line is not malformed.
    ensures memory { IsErrOf result ToolFault.Memory → TellsToMemory (Only (text_of_each answer_to) (malformed_of_each answer_to)) (λ line. answer_to line ≡ None) (R.remaining reader.old) (R.remaining reader.new) (W.contents writer.old) (W.contents writer.new) }
    ensures never_wire { result ≢ Err ToolFault.Wire }
{
    let frame = [0; LONGEST_FRAME];
    run_each(alloc, reader, writer, Check { frame })
}
