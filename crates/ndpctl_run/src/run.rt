//! The run over all lines of a script.

ghost use Rattle.std.specs.Prelude.{◌≢◌, ◌⊎◌, ℕ, IfOk, OnOk, OnErr, IsErrOf, Some, None, Err};
ghost use Rattle.nd_lines.specs.Counts.{HasRisen, HasGrownBy, most_reads};
ghost use Rattle.nd_lines.specs.Told.{TellsAll, TellsFrontOf, TellsBeginning, TellsAsRead, TellsToMemoryOf};
ghost use Rattle.nd_chronicle.specs.History.{beginning};
ghost use Rattle.nd_node.specs.NodeKept.{Stands};
ghost use Rattle.ndpctl_run.specs.Line.{IsLine};
ghost use Rattle.ndpctl_run.specs.Said.{SaysNothing};
ghost use Rattle.ndpctl_run.specs.Script.{IsFront, IsText};
ghost use Rattle.ndpctl_run.specs.Start.{start_of};

use crate::options::RunOptions;
use crate::script::Script;
use nd_lines::input::Input;
use nd_lines::output::Output;
use nd_lines::run::run_lines;
use nd_lines::tool_fault::ToolFault;
use nd_node::Node;
use rand_core::Rng;
use std::alloc::{AllocError, Allocator};

/// Runs a node that starts at 0 on the lines of `reader`, and writes its answers to `writer`, up to the first malformed line.
///
/// **What is written is the text of the chronicle of what the lines say**: all of it, or all before the malformed line. If memory runs out at a
/// line, it is the text of all lines before that one, and nothing or some of what is due before the event of that line. If a read or a write fails,
/// it is a beginning of the text of all lines.
pub fn run_script<I: Input, O: Output, R: Rng + Drop, A: Allocator + Copy>(
    alloc: A,
    reader: &mut I,
    writer: &mut O,
    options: RunOptions<R>,
) -> Result<(), ToolFault>
    ensures ok { OnOk result (TellsAll (IsText (start_of options (R.stream options.generator))) (I.remaining reader.old) (O.contents writer.old) (O.contents writer.new) None) }
    ensures line { (n : ℕ) → IsErrOf result (ToolFault.Line n) → TellsAll (IsText (start_of options (R.stream options.generator))) (I.remaining reader.old) (O.contents writer.old) (O.contents writer.new) (Some n) }
    ensures front { OnErr result (TellsFrontOf (IsFront (start_of options (R.stream options.generator))) (I.remaining reader.old) (O.contents writer.old) (O.contents writer.new)) }
    ensures beginning { OnErr result (TellsBeginning (IsText (start_of options (R.stream options.generator))) (I.remaining reader.old) (O.contents writer.old) (O.contents writer.new)) }
    ensures read_failed { IsErrOf result ToolFault.Read → HasRisen (I.failed reader.old) (I.failed reader.new) ⊎ HasGrownBy most_reads (I.given reader.old) (I.given reader.new) }
    // If a read fails, the answers to all lines that were read before it are written.
    ensures answered { IsErrOf result ToolFault.Read → TellsAsRead (IsText (start_of options (R.stream options.generator))) (I.remaining reader.old) (I.remaining reader.new) (O.contents writer.old) (O.contents writer.new) }
    ensures write_failed { IsErrOf result ToolFault.Write → HasRisen (O.failed writer.old) (O.failed writer.new) }
    // Out of memory: the answers to all lines before the one at which it ran out are written, whole, and of the answer to that line nothing or a
    // beginning. That line is not malformed.
    ensures memory { IsErrOf result ToolFault.Memory → TellsToMemoryOf (IsFront (start_of options (R.stream options.generator))) (SaysNothing IsLine) (I.remaining reader.old) (I.remaining reader.new) (O.contents writer.old) (O.contents writer.new) }
    ensures never_wire { result ≢ Err ToolFault.Wire }
{
    crate::laws::one_reading();
    nd_chronicle::laws::one_chronicle();
    nd_chronicle::laws::only_grows();
    match start(alloc, options) {
        Ok(script) => {
            let mut script = script;
            run_lines(alloc, reader, writer, &mut script)
        }
        Err(_) => Err(ToolFault::Memory),
    }
}

/// Starts the node at 0, before the first line. Returns an error if out of memory.
fn start<R: Rng + Drop, A: Allocator + Copy>(
    alloc: A,
    options: RunOptions<R>,
) -> Result<Script<R, A>, AllocError>
    ensures { IfOk result (λ script. let first = start_of options (R.stream options.generator) in Stands R.stream first script.node (beginning first)) }
{
    match Node::new(
        alloc,
        options.role,
        options.mac,
        0,
        options.transmits,
        options.limits,
        options.generator,
    ) {
        Ok(node) => Script::new(alloc, node.with_policies(options.policies)),
        Err(_) => Err(AllocError),
    }
}
