//! The lines of a script.

ghost use Rattle.std.specs.Prelude.{◌≡◌, ◌^◌, ℕ, List, None, Ok, IfSome, IfOk};
ghost use Rattle.std.specs.Option.{IsSomeAnd};
ghost use Rattle.nd_chronicle.specs.Event as events;
ghost use Rattle.nd_node.specs.Event.{request_of};
ghost use Rattle.ndpctl_run.specs.Line.{IsLine};
ghost use Rattle.ndpctl_run.specs.Number.{IsNumberWord};
ghost use Rattle.ndpctl_run.specs.Words.{Parts};

use crate::command::read_command;
use crate::number::split_number;
use nd_node::Request;
use std::alloc::{AllocError, Allocator};

/// A line of a script.
#[derive(Drop)]
pub struct Line<A: Allocator> {
    /// The moment, in milliseconds; `read_line` gives one below 2^62.
    pub at: u64,
    /// The event of that moment, or the table that is shown then.
    pub event: Request<A>,
}

/// The moments of a script are below this (our choice).
const MOMENTS: u64 = 1 << 62;

/// Returns the moment that a line begins with, in milliseconds, and what follows its space. The moment is a number below 2^62 in decimal digits,
/// with no sign and no leading zero.
pub fn split_moment(line: &[u8]) -> Option<(u64, &[u8])>
    ensures found { IfSome result (λ parts. Parts line.now (λ word. IsNumberWord (2 ^ 62) word parts.0) (λ rest. rest ≡ parts.1.now)) }
    ensures only { (at : ℕ) (rest : List ℕ) → Parts line.now (λ word. IsNumberWord (2 ^ 62) word at) (λ r. r ≡ rest)
        → IsSomeAnd result (λ parts. (parts.0 ≡ at) × (parts.1.now ≡ rest)) }
{
    let (at, rest) = split_number(line)?;
    if at >= MOMENTS {
        return None;
    }
    Some((at, rest))
}

/// Returns the line that some bytes spell: a moment as `split_moment` reads it, and a command. The bytes are those before the line feed. Any other
/// line is malformed: it spells none, and takes no memory. Returns an error if out of memory.
pub fn read_line<A: Allocator + Clone>(
    alloc: &A,
    line: &[u8],
) -> Result<Option<Line<A>>, AllocError>
    ensures found { IfOk result (λ spelled. IfSome spelled (λ read. IsLine line.now read.at (request_of read.event))) }
    ensures only { (at : ℕ) (event : events.Event) → IsLine line.now at event
        → IfOk result (λ spelled. IsSomeAnd spelled (λ read. (read.at ≡ at) × (request_of read.event ≡ event))) }
    ensures malformed { ((at : ℕ) (event : events.Event) → IsLine line.now at event → ⊥) → result ≡ Ok None }
{
    let Some((at, rest)) = split_moment(line) else {
        return Ok(None);
    };
    match read_command(alloc, rest)? {
        Some(event) => Ok(Some(Line { at, event })),
        None => Ok(None),
    }
}
