//! The run over all lines of an input.

ghost use Rattle.std.specs.Prelude.{◌≡◌, ◌≢◌, ◌≤◌, ◌<◌, ◌∷◌, ◌⊎◌, ℕ, [], None, Some, Err, length, string_bytes, OnOk, OnErr, IsErrOf};
ghost use Rattle.nd_lines.specs.Answers.{UpInto};
ghost use Rattle.nd_lines.specs.Counts.{HasRisen, HasGrownBy, most_reads, one_more};
ghost use Rattle.nd_lines.specs.Lines.{lines_of, longest_line};
ghost use Rattle.nd_lines.specs.Stop.{StopsAt};
ghost use Rattle.nd_lines.specs.Told.{TellsLines, TellsFirst, TellsAll, TellsFrontOf, TellsAsRead, TellsBefore, TellsUntilIn, IsUntouched};

use crate::ahead::{Ahead, FirstLine};
use crate::answering::{Answering, Unanswered};
use crate::input::Input;
use crate::output::Output;
use crate::tool_fault::ToolFault;
use crate::unwritten::Unwritten;
use std::alloc::Allocator;

/// Answers the last line, which has no line feed, if there is one, and writes the answer.
fn answer_last<L: Answering, W: Output, A: Allocator>(
    line: &[u8],
    number: u64,
    answering: &mut L,
    unwritten: &mut Unwritten<A>,
    writer: &mut W,
) -> Result<(), ToolFault>
    requires short { length line.now ≤ longest_line }
    requires last { 0 < length line.now → lines_of line.now ≡ line.now ∷ [] }
    requires empty { string_bytes unwritten.old.text ≡ [] }
    ensures ok { OnOk result (TellsLines (L.texts answering.old answering.new) number (lines_of line.now) (W.contents writer.old) (W.contents writer.new) None) }
    ensures line { (n : ℕ) → IsErrOf result (ToolFault.Line n) → TellsLines (L.texts answering.old answering.new) number (lines_of line.now) (W.contents writer.old) (W.contents writer.new) (Some n) }
    ensures front { OnErr result (TellsFirst (UpInto (L.texts answering.old) L.begins) number (lines_of line.now) [] (W.contents writer.old) (W.contents writer.new)) }
    ensures memory { IsErrOf result ToolFault.Memory → TellsBefore (L.texts answering.old) L.begins (StopsAt L.fails L.is_malformed answering.new Unanswered.Memory) number (lines_of line.now) (W.contents writer.old) (W.contents writer.new) }
    ensures wire { IsErrOf result ToolFault.Wire → TellsBefore (L.texts answering.old) L.begins (StopsAt L.fails L.is_malformed answering.new Unanswered.Wire) number (lines_of line.now) (W.contents writer.old) (W.contents writer.new) }
    ensures write_failed { IsErrOf result ToolFault.Write → HasRisen (W.failed writer.old) (W.failed writer.new) }
    ensures wire_failed { IsErrOf result ToolFault.Wire → L.failed answering.new ≡ one_more (L.failed answering.old) }
    ensures wire_carried { result ≢ Err ToolFault.Wire → result ≢ Err ToolFault.Write → L.failed answering.new ≡ L.failed answering.old }
    ensures never_read { result ≢ Err ToolFault.Read }
{
    if line.is_empty() {
        return Ok(());
    }
    unwritten.answer_line(line, number, answering, writer)?;
    unwritten.write_out(writer)?;
    Ok(())
}

/// Writes to `writer` the answer to each line of `reader`, up to the first malformed one. The answers to all whole lines that were read are written
/// before each further read.
pub fn run_lines<R: Input, W: Output, L: Answering, A: Allocator + Clone>(
    alloc: A,
    reader: &mut R,
    writer: &mut W,
    answering: &mut L,
) -> Result<(), ToolFault>
    ensures ok { OnOk result (TellsAll (L.texts answering.old answering.new) (R.remaining reader.old) (W.contents writer.old) (W.contents writer.new) None) }
    ensures line { (n : ℕ) → IsErrOf result (ToolFault.Line n) → TellsAll (L.texts answering.old answering.new) (R.remaining reader.old) (W.contents writer.old) (W.contents writer.new) (Some n) }
    ensures front { OnErr result (TellsFrontOf (UpInto (L.texts answering.old) L.begins) (R.remaining reader.old) (W.contents writer.old) (W.contents writer.new)) }
    ensures read_failed { IsErrOf result ToolFault.Read → HasRisen (R.failed reader.old) (R.failed reader.new) ⊎ HasGrownBy most_reads (R.given reader.old) (R.given reader.new) }
    // If a read fails, the answers to all lines that were read before it are written.
    ensures answered { IsErrOf result ToolFault.Read → TellsAsRead (L.texts answering.old answering.new) (R.remaining reader.old) (R.remaining reader.new) (W.contents writer.old) (W.contents writer.new) }
    // Out of memory: the answers to all lines before the one at which it ran out are written, whole, and of the answer to that line nothing or a
    // beginning. That line is not malformed.
    ensures memory { IsErrOf result ToolFault.Memory → IsUntouched (R.remaining reader.old) (R.remaining reader.new) (W.contents writer.old) (W.contents writer.new) ⊎ TellsUntilIn (L.texts answering.old) L.begins (StopsAt L.fails L.is_malformed answering.new Unanswered.Memory) (R.remaining reader.old) (W.contents writer.old) (W.contents writer.new) }
    // The same if the answerer's wire fails.
    ensures wire { IsErrOf result ToolFault.Wire → TellsUntilIn (L.texts answering.old) L.begins (StopsAt L.fails L.is_malformed answering.new Unanswered.Wire) (R.remaining reader.old) (W.contents writer.old) (W.contents writer.new) }
    // A write may also fail while these answers are written: `Write` is reported then.
    ensures write_failed { IsErrOf result ToolFault.Write → HasRisen (W.failed writer.old) (W.failed writer.new) }
    ensures wire_failed { IsErrOf result ToolFault.Wire → L.failed answering.new ≡ one_more (L.failed answering.old) }
    ensures wire_carried { result ≢ Err ToolFault.Wire → result ≢ Err ToolFault.Write → L.failed answering.new ≡ L.failed answering.old }
{
    let mut ahead = Ahead::new(alloc.clone()?)?;
    let mut unwritten = Unwritten::new(alloc.clone()?, alloc);
    let mut number: u64 = 1;
    loop {
        match ahead.first_line() {
            FirstLine::Whole(count) => {
                let line = &ahead.in_hand()[..count];
                unwritten.answer_line(line, number, answering, writer)?;
                ahead.take(count + 1);
                number += 1;
            }
            FirstLine::TooLong => {
                unwritten.write_out(writer)?;
                return Err(ToolFault::Line(number));
            }
            FirstLine::Unfinished => {
                unwritten.write_out(writer)?; // The read may block.
                if !ahead.fill(reader)? {
                    return answer_last(ahead.in_hand(), number, answering, &mut unwritten, writer);
                }
            }
        }
    }
}
