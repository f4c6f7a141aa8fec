//! What the words ask for, done over a reader and a writer.

ghost use Rattle.std.specs.Prelude.{◌≢◌, ◌⊎◌, ℕ, OnOk, OnErr, IsErrOf, Some, None, Err};
ghost use Rattle.nd_lines.specs.Counts.{HasRisen, HasGrownBy, most_reads};
ghost use Rattle.nd_lines.specs.Told.{TellsAll, TellsFrontOf, TellsBeginning, TellsAsRead, TellsToMemoryOf};
ghost use Rattle.ndpctl_tool.specs.Run.{IsClaimed, fronts_asked, is_malformed_asked, texts_asked};

use crate::link::{link_over_datagrams, link_over_memory};
use nd_lines::input::Input;
use nd_lines::output::Output;
use nd_lines::tool_fault::ToolFault;
use ndpctl_args::{Asked, Carrier};
use ndpctl_check::run_check;
use ndpctl_run::run_script;
use std::alloc::Allocator;
use std::net::Net;

/// Does what is asked, over `reader` and `writer`. Returns the fault that ends the run, as `run_check`, `run_script` and `run_link` do. No clause says
/// what a link over datagrams writes, since none says which bytes a socket receives.
pub fn run<N: Net, R: Input, W: Output, A: Allocator + Copy>(
    net: &N,
    alloc: A,
    asked: Asked,
    reader: &mut R,
    writer: &mut W,
) -> Result<(), ToolFault>
    ensures ok { IsClaimed asked → OnOk result (TellsAll (texts_asked asked) (R.remaining reader.old) (W.contents writer.old) (W.contents writer.new) None) }
    ensures line { IsClaimed asked → (n : ℕ) → IsErrOf result (ToolFault.Line n) → TellsAll (texts_asked asked) (R.remaining reader.old) (W.contents writer.old) (W.contents writer.new) (Some n) }
    ensures front { IsClaimed asked → OnErr result (TellsFrontOf (fronts_asked asked) (R.remaining reader.old) (W.contents writer.old) (W.contents writer.new)) }
    ensures beginning { IsClaimed asked → OnErr result (TellsBeginning (texts_asked asked) (R.remaining reader.old) (W.contents writer.old) (W.contents writer.new)) }
    ensures read_failed { IsErrOf result ToolFault.Read → HasRisen (R.failed reader.old) (R.failed reader.new) ⊎ HasGrownBy most_reads (R.given reader.old) (R.given reader.new) }
    // If a read fails, the answers to all lines that were read before it are written.
    ensures answered { IsClaimed asked → IsErrOf result ToolFault.Read → TellsAsRead (texts_asked asked) (R.remaining reader.old) (R.remaining reader.new) (W.contents writer.old) (W.contents writer.new) }
    ensures write_failed { IsErrOf result ToolFault.Write → HasRisen (W.failed writer.old) (W.failed writer.new) }
    // Out of memory: the answers to all lines before the one at which it ran out are written, whole, and in a run of a node nothing or a beginning
    // of the answer to that line. That line is not malformed.
    ensures memory { IsClaimed asked → IsErrOf result ToolFault.Memory → TellsToMemoryOf (fronts_asked asked) (is_malformed_asked asked) (R.remaining reader.old) (R.remaining reader.new) (W.contents writer.old) (W.contents writer.new) }
    ensures never_wire { IsClaimed asked → result ≢ Err ToolFault.Wire }
{
    match asked {
        Asked::Check => run_check(alloc, reader, writer),
        Asked::Run(options) => run_script(alloc, reader, writer, options),
        Asked::Link(Carrier::Memory) => link_over_memory(alloc, reader, writer),
        Asked::Link(Carrier::Udp) => link_over_datagrams(net, alloc, reader, writer),
    }
}
