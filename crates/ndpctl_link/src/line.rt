//! The lines of a link.

ghost use Rattle.std.specs.Prelude.{◌≡◌, ℕ, None, Ok, IfSome, IfOk};
ghost use Rattle.std.specs.Option.{IsSomeAnd};
ghost use Rattle.nd_random.specs.Source.{stream_of_source};
ghost use Rattle.nd_link_log.specs.Event.{Event};
ghost use Rattle.nd_link.specs.Event.{link_event};
ghost use Rattle.ndpctl_link.specs.Line.{IsLinkLine};

use crate::command::read_link_command;
use nd_link::LinkEvent;
use nd_random::Source;
use ndpctl_run::split_moment;
use std::alloc::{AllocError, Allocator};

/// A line of a link.
#[derive(Drop)]
pub struct LinkLine<A: Allocator> {
    /// The moment, in milliseconds; `read_line` gives one below 2^62.
    pub at: u64,
    /// The event of that moment.
    pub event: LinkEvent<Source, A>,
}

/// Returns the line that some bytes spell: a moment in milliseconds, one space, and a command of the link. The bytes are those before the line
/// feed. Any other line is malformed: it spells none, and takes no memory. Returns an error if out of memory.
pub fn read_line<A: Allocator + Clone>(
    alloc: &A,
    line: &[u8],
) -> Result<Option<LinkLine<A>>, AllocError>
    ensures found { IfOk result (λ spelled. IfSome spelled (λ read. IsLinkLine line.now read.at (link_event stream_of_source read.event))) }
    ensures only { (at : ℕ) (event : Event) → IsLinkLine line.now at event
        → IfOk result (λ spelled. IsSomeAnd spelled (λ read. (read.at ≡ at) × (link_event stream_of_source read.event ≡ event))) }
    ensures malformed { ((at : ℕ) (event : Event) → IsLinkLine line.now at event → ⊥) → result ≡ Ok None }
{
    let Some((at, rest)) = split_moment(line) else {
        return Ok(None);
    };
    match read_link_command(alloc, rest)? {
        Some(event) => Ok(Some(LinkLine { at, event })),
        None => Ok(None),
    }
}
