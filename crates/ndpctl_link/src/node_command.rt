//! The words of a script that pass a command to a node of a link.

ghost use Rattle.std.specs.Prelude.{◌≡◌, ◌≢◌, List, ℕ, None, Some, Ok, IfSome, IfOk, MatchBool};
ghost use Rattle.std.specs.Option.{IsSomeAnd, option_map};
ghost use Rattle.nd_chronicle.specs.Event as events;
ghost use Rattle.nd_chronicle.specs.Event.{Receives};
ghost use Rattle.nd_node.specs.Event.{request_of};
ghost use Rattle.ndpctl_run.specs.Command.{IsCommand};
ghost use Rattle.ndpctl_link.specs.NodeCommand.{IsNodeCommand, IsOwnCommand};

use nd_node::Request;
use ndpctl_run::{read_command, split_number, split_word};
use std::alloc::{AllocError, Allocator};

/// Returns true if a command is `rx`, by which a frame is received.
fn is_rx(command: &[u8]) -> bool
    ensures { MatchBool result ((event : events.Event) → IsOwnCommand command.now event → ⊥)
        ((event : events.Event) → IsCommand command.now event → (frame : List ℕ) → event ≢ Receives frame) }
{
    match split_word(command) {
        Some((word, _)) => word == b"rx".as_slice(),
        None => false,
    }
}

/// Returns the event that the bytes of a command other than `rx` spell. No other bytes spell any, and such bytes take no memory. Returns an error
/// if out of memory.
fn read_own_command<A: Allocator + Clone>(
    alloc: &A,
    command: &[u8],
) -> Result<Option<Request<A>>, AllocError>
    ensures found { IfOk result (λ read. IfSome read (λ event. IsOwnCommand command.now (request_of event))) }
    ensures only { (event : events.Event) → IsOwnCommand command.now event → IfOk result (λ read. option_map request_of read ≡ Some event) }
    ensures malformed { ((event : events.Event) → IsOwnCommand command.now event → ⊥) → result ≡ Ok None }
{
    if is_rx(command) {
        return Ok(None);
    }
    read_command(alloc, command)
}

/// Returns the number of a node, below 2^64, and the event at it, that some words spell. No other words spell any, and such words take no memory.
/// Returns an error if out of memory.
pub(crate) fn read_node_command<A: Allocator + Clone>(
    alloc: &A,
    words: &[u8],
) -> Result<Option<(u64, Request<A>)>, AllocError>
    ensures found { IfOk result (λ read. IfSome read (λ comes. IsNodeCommand words.now comes.0 (request_of comes.1))) }
    ensures only { (node : ℕ) (event : events.Event) → IsNodeCommand words.now node event
        → IfOk result (λ read. IsSomeAnd read (λ comes. (comes.0 ≡ node) × (request_of comes.1 ≡ event))) }
    ensures malformed { ((node : ℕ) (event : events.Event) → IsNodeCommand words.now node event → ⊥) → result ≡ Ok None }
{
    let Some((node, command)) = split_number(words) else {
        return Ok(None);
    };
    match read_own_command(alloc, command)? {
        Some(event) => Ok(Some((node, event))),
        None => Ok(None),
    }
}
