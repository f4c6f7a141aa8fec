//! The run over all lines of a link.

ghost use Rattle.std.specs.Prelude.{◌≡◌, ◌≢◌, ◌⊎◌, ℕ, List, OnOk, OnErr, IsErrOf, Some, None, Err};
ghost use Rattle.nd_lines.specs.Counts.{HasRisen, HasGrownBy, most_reads, one_more};
ghost use Rattle.nd_lines.specs.Told.{TellsAll, TellsFront, TellsBeginning, TellsAsRead, TellsToMemory, TellsUntil};
ghost use Rattle.ndpctl_run.specs.Said.{SaysNothing};
ghost use Rattle.nd_random.specs.Source.{stream_of_source};
ghost use Rattle.nd_wire.specs.Wire.{IsFaithful};
ghost use Rattle.nd_link_log.specs.Log.{Log};
ghost use Rattle.nd_link_log.specs.Event.{Event};
ghost use Rattle.nd_link.specs.Holder.{StandsForEvents};
ghost use Rattle.nd_link.specs.Link.{Stands};
ghost use Rattle.ndpctl_link.specs.Line.{IsLinkLine};
ghost use Rattle.ndpctl_link.specs.Script.{KeepsOneHolder, RunsBetween, RunsOn};
ghost use Rattle.ndpctl_link.specs.ScriptKept.{RunsTo, WireFailsAt};

use crate::script::LinkScript;
use nd_lines::input::Input;
use nd_lines::output::Output;
use nd_lines::run::run_lines;
use nd_lines::tool_fault::ToolFault;
use nd_link::Wire;
use std::alloc::Allocator;

/// Runs a link on the lines of `reader`, and writes its answers to `writer`, up to the first malformed line.
///
/// **What is written is the text of the log of what the lines say**, for each log that the link stands for, over a faithful wire: all of it, or all
/// before the malformed line. If memory runs out or the wire fails at a line, it is the text of all lines before that one. If a read or a write
/// fails, it is a beginning of that text. If a write fails right after the wire failed, the fault is `Write`.
///
/// If the log is timely, or loses little, no address is preferred or deprecated at two nodes at any moment up to the last one (RFC 4862, section
/// 5.4).
pub fn run_link<I: Input, O: Output, W: Wire, A: Allocator + Copy>(
    alloc: A,
    reader: &mut I,
    writer: &mut O,
    script: &mut LinkScript<W, A>,
) -> Result<(), ToolFault>
    ensures ok { IsFaithful W.arrives → (log : Log) → Stands stream_of_source script.old.link log → OnOk result (TellsAll (RunsOn log) (I.remaining reader.old) (O.contents writer.old) (O.contents writer.new) None) }
    ensures line { (n : ℕ) → IsErrOf result (ToolFault.Line n) → IsFaithful W.arrives → (log : Log) → Stands stream_of_source script.old.link log → TellsAll (RunsOn log) (I.remaining reader.old) (O.contents writer.old) (O.contents writer.new) (Some n) }
    ensures front { IsFaithful W.arrives → (log : Log) → Stands stream_of_source script.old.link log → OnErr result (TellsFront (RunsOn log) (I.remaining reader.old) (O.contents writer.old) (O.contents writer.new)) }
    ensures beginning { IsFaithful W.arrives → (log : Log) → Stands stream_of_source script.old.link log → OnErr result (TellsBeginning (RunsOn log) (I.remaining reader.old) (O.contents writer.old) (O.contents writer.new)) }
    ensures read_failed { IsErrOf result ToolFault.Read → HasRisen (I.failed reader.old) (I.failed reader.new) ⊎ HasGrownBy most_reads (I.given reader.old) (I.given reader.new) }
    // If a read fails, the answers to all lines that were read before it are written.
    ensures answered { IsErrOf result ToolFault.Read → IsFaithful W.arrives → (log : Log) → Stands stream_of_source script.old.link log → TellsAsRead (RunsOn log) (I.remaining reader.old) (I.remaining reader.new) (O.contents writer.old) (O.contents writer.new) }
    ensures write_failed { IsErrOf result ToolFault.Write → HasRisen (O.failed writer.old) (O.failed writer.new) }
    ensures wire_failed { IsErrOf result ToolFault.Wire → W.failed script.new.link.wire ≡ one_more (W.failed script.old.link.wire) }
    ensures wire_carried { result ≢ Err ToolFault.Wire → result ≢ Err ToolFault.Write → W.failed script.new.link.wire ≡ W.failed script.old.link.wire }
    // Out of memory: the answers to all lines before the one at which it ran out are written, whole. That line is not malformed.
    ensures memory { IsErrOf result ToolFault.Memory → IsFaithful W.arrives → (log : Log) → Stands stream_of_source script.old.link log → TellsToMemory (RunsOn log) (SaysNothing IsLinkLine) (I.remaining reader.old) (I.remaining reader.new) (O.contents writer.old) (O.contents writer.new) }
    // If the wire fails, the answers to all lines before that one are written, whole. Time has passed up to the moment of its event, and nothing
    // else has happened.
    ensures wire { IsErrOf result ToolFault.Wire → IsFaithful W.arrives → (log : Log) → Stands stream_of_source script.old.link log → TellsUntil (RunsBetween log) (WireFailsAt stream_of_source script.new.link) (I.remaining reader.old) (O.contents writer.old) (O.contents writer.new) }
    // The link stands for the log of what the lines said, so that it can run on.
    ensures stands { IsFaithful W.arrives → (log : Log) → Stands stream_of_source script.old.link log → OnOk result (TellsAll (RunsTo stream_of_source log script.new.link) (I.remaining reader.old) (O.contents writer.old) (O.contents writer.new) None) }
    ensures one_holder { IsFaithful W.arrives → (before : List (ℕ × Event)) (log : Log) → StandsForEvents stream_of_source script.old.link before log → OnOk result (TellsAll (KeepsOneHolder stream_of_source before script.new.link) (I.remaining reader.old) (O.contents writer.old) (O.contents writer.new) None) }
    // The same at a malformed line, of the lines before it.
    ensures stands_at_line { (n : ℕ) → IsErrOf result (ToolFault.Line n) → IsFaithful W.arrives → (log : Log) → Stands stream_of_source script.old.link log → TellsAll (RunsTo stream_of_source log script.new.link) (I.remaining reader.old) (O.contents writer.old) (O.contents writer.new) (Some n) }
    ensures one_holder_at_line { (n : ℕ) → IsErrOf result (ToolFault.Line n) → IsFaithful W.arrives → (before : List (ℕ × Event)) (log : Log) → StandsForEvents stream_of_source script.old.link before log → TellsAll (KeepsOneHolder stream_of_source before script.new.link) (I.remaining reader.old) (O.contents writer.old) (O.contents writer.new) (Some n) }
{
    run_lines(alloc, reader, writer, script)
}
