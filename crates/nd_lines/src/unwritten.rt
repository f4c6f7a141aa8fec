//! The answers that are not yet written.

ghost use Rattle.std.specs.Prelude.{◌≡◌, ◌≢◌, ◌≤◌, ◌∷◌, ◌++◌, ℕ, [], Err, length, string_bytes, OnOk, OnErr, IsErrOf};
ghost use Rattle.std.specs.Io.KnownBytes.{Appends};
ghost use Rattle.nd_lines.specs.Answers.{TellsUpTo, UpInto, IsMalformed, IsPart};
ghost use Rattle.nd_lines.specs.Counts.{HasRisen, one_more};
ghost use Rattle.nd_lines.specs.Lines.{longest_line};
ghost use Rattle.nd_lines.specs.Stop.{fault_at, StopsAt, Stopped};
ghost use Rattle.nd_lines.specs.Told.{TellsFirst};
ghost use Rattle.nd_lines.specs.Written.{AppendsFront, AppendsUpTo, much_text};

use crate::answering::{Answering, Extent, Unanswered};
use crate::output::{Output, WriteFault, write_whole};
use crate::tool_fault::ToolFault;
use std::alloc::Allocator;

/// A text above this number of bytes is written even if more lines are buffered (our choice).
const MUCH_TEXT: usize = 32768;

/// The answers that are not yet written: a limited number of bytes between two lines, for any lines.
#[derive(Drop)]
pub struct Unwritten<A: Allocator> {
    text: String<A>,
    /// The answer to one line, or a part of it. After a fault it is what was appended before the fault, which is not written.
    answer: String<A>,
    ghost few: { length (string_bytes text) ≤ much_text },
}

impl<A: Allocator> Unwritten<A> {
    /// Returns an empty text. It takes no memory.
    pub fn new(alloc: A, for_one: A) -> Self
        ensures { string_bytes result.text ≡ [] }
    {
        Unwritten {
            text: String::new(alloc),
            answer: String::new(for_one),
        }
    }

    /// Writes them. None is left, also after a fault.
    pub fn write_out<W: Output>(&mut self, writer: &mut W) -> Result<(), WriteFault>
        ensures ok { OnOk result (Appends (W.contents writer.old) (W.contents writer.new) (string_bytes self.old.text)) }
        ensures emptied { string_bytes self.new.text ≡ [] }
        ensures front { OnErr result (AppendsFront (W.contents writer.old) (W.contents writer.new) (string_bytes self.old.text)) }
        ensures fault { OnErr result (HasRisen (W.failed writer.old) (W.failed writer.new)) }
        ensures never_falls { W.failed writer.old ≤ W.failed writer.new }
    {
        write_and_clear(&mut self.text, writer)
    }

    /// Answers one line, part after part. Writes if the text is long, and before a line without an answer ends the run.
    pub fn answer_line<L: Answering, W: Output>(
        &mut self,
        line: &[u8],
        number: u64,
        answering: &mut L,
        writer: &mut W,
    ) -> Result<(), ToolFault>
        requires { length line.now ≤ longest_line }
        ensures told { OnOk result (TellsUpTo (L.texts answering.old) (L.texts answering.new) line.now (W.contents writer.old) (W.contents writer.new) (string_bytes self.old.text) (string_bytes self.new.text)) }
        ensures numbered { (n : ℕ) → IsErrOf result (ToolFault.Line n) → n ≡ number }
        ensures malformed { (n : ℕ) → IsErrOf result (ToolFault.Line n) → IsMalformed (L.texts answering.old answering.new) line.now }
        ensures written { (n : ℕ) → IsErrOf result (ToolFault.Line n) → Appends (W.contents writer.old) (W.contents writer.new) (string_bytes self.old.text) }
        ensures memory { IsErrOf result ToolFault.Memory → Stopped (W.contents writer.old) (W.contents writer.new) (string_bytes self.old.text) (IsPart L.begins answering.old line.now) (StopsAt L.fails L.is_malformed answering.new Unanswered.Memory answering.old line.now) }
        ensures wire { IsErrOf result ToolFault.Wire → Stopped (W.contents writer.old) (W.contents writer.new) (string_bytes self.old.text) (IsPart L.begins answering.old line.now) (StopsAt L.fails L.is_malformed answering.new Unanswered.Wire answering.old line.now) }
        ensures front { OnErr result (TellsFirst (UpInto (L.texts answering.old) L.begins) number (line.now ∷ []) (string_bytes self.old.text) (W.contents writer.old) (W.contents writer.new)) }
        ensures write_failed { IsErrOf result ToolFault.Write → HasRisen (W.failed writer.old) (W.failed writer.new) }
        ensures wire_failed { IsErrOf result ToolFault.Wire → L.failed answering.new ≡ one_more (L.failed answering.old) }
        ensures wire_carried { result ≢ Err ToolFault.Wire → result ≢ Err ToolFault.Write → L.failed answering.new ≡ L.failed answering.old }
        ensures never_read { result ≢ Err ToolFault.Read }
        ensures never_falls { W.failed writer.old ≤ W.failed writer.new }
    {
        loop {
            self.answer.clear();
            match answering.answer(line, &mut self.answer) {
                Ok(Extent::Whole) => return Ok(self.keep_answer(writer)?),
                Ok(Extent::InPart) => self.keep_answer(writer)?,
                Err(why) => {
                    self.write_out(writer)?;
                    return Err(fault_at(number, why));
                }
            }
        }
    }

    /// Appends the answer to a line. Writes if the text is long, or if there is no memory for it to grow.
    fn keep_answer<W: Output>(&mut self, writer: &mut W) -> Result<(), WriteFault>
        ensures ok { OnOk result (AppendsUpTo (W.contents writer.old) (W.contents writer.new) (string_bytes self.old.text ++ string_bytes self.old.answer) (string_bytes self.new.text)) }
        ensures front { OnErr result (AppendsFront (W.contents writer.old) (W.contents writer.new) (string_bytes self.old.text ++ string_bytes self.old.answer)) }
        ensures fault { OnErr result (HasRisen (W.failed writer.old) (W.failed writer.new)) }
        ensures never_falls { W.failed writer.old ≤ W.failed writer.new }
    {
        match self.text.push_str(self.answer.as_str()) {
            Ok(()) if self.text.len() <= MUCH_TEXT => Ok(()),
            Ok(()) => write_and_clear(&mut self.text, writer),
            Err(_) => {
                write_and_clear(&mut self.text, writer)?;
                write_whole(writer, self.answer.as_bytes())
            }
        }
    }
}

/// Returns the fault of a run that ends at the line of this number.
fn fault_at(number: u64, why: Unanswered) -> ToolFault
    ensures { result ≡ fault_at number why }
{
    match why {
        Unanswered::Malformed => ToolFault::Line(number),
        Unanswered::Memory => ToolFault::Memory,
        Unanswered::Wire => ToolFault::Wire,
    }
}

/// Writes a text of any length. Nothing of it is left, also after a fault.
fn write_and_clear<W: Output, A: Allocator>(
    text: &mut String<A>,
    writer: &mut W,
) -> Result<(), WriteFault>
    ensures ok { OnOk result (Appends (W.contents writer.old) (W.contents writer.new) (string_bytes text.old)) }
    ensures emptied { string_bytes text.new ≡ [] }
    ensures front { OnErr result (AppendsFront (W.contents writer.old) (W.contents writer.new) (string_bytes text.old)) }
    ensures fault { OnErr result (HasRisen (W.failed writer.old) (W.failed writer.new)) }
    ensures never_falls { W.failed writer.old ≤ W.failed writer.new }
{
    let written = write_whole(writer, text.as_bytes());
    text.clear();
    written
}
