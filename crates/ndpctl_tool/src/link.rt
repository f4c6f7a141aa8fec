//! A link of nodes, over the wire that is asked for.

ghost use Rattle.std.specs.Prelude.{◌≢◌, ◌⊎◌, ℕ, OnOk, OnErr, IsErrOf, Some, None, Err};
ghost use Rattle.nd_lines.specs.Counts.{HasRisen, HasGrownBy, most_reads};
ghost use Rattle.nd_lines.specs.Told.{TellsAll, TellsFront, TellsBeginning, TellsAsRead, TellsToMemory};
ghost use Rattle.ndpctl_run.specs.Said.{SaysNothing};
ghost use Rattle.ndpctl_link.specs.Line.{IsLinkLine};
ghost use Rattle.ndpctl_link.specs.Script.{IsLinkText};

use nd_lines::input::Input;
use nd_lines::output::Output;
use nd_lines::tool_fault::ToolFault;
use nd_link::{MAX_NODES, MemoryWire, UdpWire};
use ndpctl_link::{LinkScript, run_link};
use std::alloc::Allocator;
use std::io::ErrorKind;
use std::net::Net;

/// Runs a link whose frames are carried by memory.
pub(crate) fn link_over_memory<R: Input, W: Output, A: Allocator + Copy>(
    alloc: A,
    reader: &mut R,
    writer: &mut W,
) -> Result<(), ToolFault>
    ensures ok { OnOk result (TellsAll IsLinkText (R.remaining reader.old) (W.contents writer.old) (W.contents writer.new) None) }
    ensures line { (n : ℕ) → IsErrOf result (ToolFault.Line n) → TellsAll IsLinkText (R.remaining reader.old) (W.contents writer.old) (W.contents writer.new) (Some n) }
    ensures front { OnErr result (TellsFront IsLinkText (R.remaining reader.old) (W.contents writer.old) (W.contents writer.new)) }
    ensures beginning { OnErr result (TellsBeginning IsLinkText (R.remaining reader.old) (W.contents writer.old) (W.contents writer.new)) }
    ensures read_failed { IsErrOf result ToolFault.Read → HasRisen (R.failed reader.old) (R.failed reader.new) ⊎ HasGrownBy most_reads (R.given reader.old) (R.given reader.new) }
    ensures answered { IsErrOf result ToolFault.Read → TellsAsRead IsLinkText (R.remaining reader.old) (R.remaining reader.new) (W.contents writer.old) (W.contents writer.new) }
    ensures write_failed { IsErrOf result ToolFault.Write → HasRisen (W.failed writer.old) (W.failed writer.new) }
    ensures memory { IsErrOf result ToolFault.Memory → TellsToMemory IsLinkText (SaysNothing IsLinkLine) (R.remaining reader.old) (R.remaining reader.new) (W.contents writer.old) (W.contents writer.new) }
    ensures never_wire { result ≢ Err ToolFault.Wire }
{
    nd_wire::laws::memory_is_faithful();
    let mut script = LinkScript::new(alloc, MemoryWire);
    run_link(alloc, reader, writer, &mut script)
}

/// Runs the same over datagrams between sockets of this machine. If a socket can't be opened, the wire failed; if there is no memory for the
/// sockets, the fault is `Memory`.
pub(crate) fn link_over_datagrams<N: Net, R: Input, W: Output, A: Allocator + Copy>(
    net: &N,
    alloc: A,
    reader: &mut R,
    writer: &mut W,
) -> Result<(), ToolFault>
    ensures read_failed { IsErrOf result ToolFault.Read → HasRisen (R.failed reader.old) (R.failed reader.new) ⊎ HasGrownBy most_reads (R.given reader.old) (R.given reader.new) }
    ensures write_failed { IsErrOf result ToolFault.Write → HasRisen (W.failed writer.old) (W.failed writer.new) }
{
    let wire = match UdpWire::new(net, alloc, MAX_NODES) {
        Ok(wire) => wire,
        Err(error) => match error.kind() {
            ErrorKind::OutOfMemory => return Err(ToolFault::Memory),
            _ => return Err(ToolFault::Wire),
        },
    };
    let mut script = LinkScript::new(alloc, wire);
    run_link(alloc, reader, writer, &mut script)
}
