//! The commands of a link.

ghost use Rattle.std.specs.Prelude.{◌≡◌, Some, None, Ok, IfSome, IfOk};
ghost use Rattle.std.specs.Option.{option_map};
ghost use Rattle.nd_random.specs.Source.{stream_of_source};
ghost use Rattle.nd_link_log.specs.Event.{Event};
ghost use Rattle.ndpctl_link.specs.Command.{AreLinkArguments, IsLinkCommand, link_word};
ghost use Rattle.nd_link.specs.Event.{link_event};

use crate::delivery::read_delivery;
use crate::node_command::read_node_command;
use crate::start::read_start;
use nd_link::LinkEvent;
use nd_random::Source;
use ndpctl_run::split_word;
use std::alloc::{AllocError, Allocator};

/// The commands of a link, each by its word.
#[derive(Clone, Copy, Debug, PartialEq, Eq)]
pub enum LinkCommand {
    /// Another node starts.
    Node,
    /// A node receives a command.
    On,
    /// A frame is carried to a node.
    Deliver,
}

/// Returns the command that begins with a word.
fn read_link_word(word: &[u8]) -> Option<LinkCommand>
    ensures found { IfSome result (λ command. word.now ≡ link_word command) }
    ensures only { (command : LinkCommand) → word.now ≡ link_word command → result ≡ Some command }
{
    if word == b"node".as_slice() {
        return Some(LinkCommand::Node);
    }
    if word == b"on".as_slice() {
        return Some(LinkCommand::On);
    }
    if word == b"deliver".as_slice() {
        return Some(LinkCommand::Deliver);
    }
    None
}

/// Returns the event that the words after a command spell. No other words spell any, and such words take no memory. Returns an error if out of
/// memory.
fn read_link_arguments<A: Allocator + Clone>(
    alloc: &A,
    command: LinkCommand,
    words: &[u8],
) -> Result<Option<LinkEvent<Source, A>>, AllocError>
    ensures found { IfOk result (λ read. IfSome read (λ event. AreLinkArguments command words.now (link_event stream_of_source event))) }
    ensures only { (event : Event) → AreLinkArguments command words.now event → IfOk result (λ read. option_map (link_event stream_of_source) read ≡ Some event) }
    ensures malformed { ((event : Event) → AreLinkArguments command words.now event → ⊥) → result ≡ Ok None }
{
    match command {
        LinkCommand::Node => match read_start(words) {
            Some(start) => Ok(Some(LinkEvent::Starts(
                start.role,
                start.mac,
                start.transmits,
                start.source,
            ))),
            None => Ok(None),
        },
        LinkCommand::On => match read_node_command(alloc, words)? {
            Some((node, event)) => Ok(Some(LinkEvent::Comes(node, event))),
            None => Ok(None),
        },
        LinkCommand::Deliver => match read_delivery(words) {
            Some((node, frame)) => Ok(Some(LinkEvent::Delivers(node, frame))),
            None => Ok(None),
        },
    }
}

/// Returns the event that the bytes of a command of a link spell. No other bytes spell any, and such bytes take no memory. Returns an error if out
/// of memory.
pub(crate) fn read_link_command<A: Allocator + Clone>(
    alloc: &A,
    bytes: &[u8],
) -> Result<Option<LinkEvent<Source, A>>, AllocError>
    ensures found { IfOk result (λ read. IfSome read (λ event. IsLinkCommand bytes.now (link_event stream_of_source event))) }
    ensures only { (event : Event) → IsLinkCommand bytes.now event → IfOk result (λ read. option_map (link_event stream_of_source) read ≡ Some event) }
    ensures malformed { ((event : Event) → IsLinkCommand bytes.now event → ⊥) → result ≡ Ok None }
{
    let Some((word, rest)) = split_word(bytes) else {
        return Ok(None);
    };
    let Some(command) = read_link_word(word) else {
        return Ok(None);
    };
    read_link_arguments(alloc, command, rest)
}
