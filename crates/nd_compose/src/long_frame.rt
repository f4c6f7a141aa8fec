//! The frame of a message of any length.

ghost use Rattle.std.specs.Prelude.{◌≡◌, IfOk};
ghost use Rattle.nd_message.specs.Frame.{message_frame};
ghost use Rattle.nd_message.specs.Owned.{whole_of};
ghost use Rattle.nd_message.specs.WellFormed.{IsWellFormed};

use nd_addr::{Addr, HEADERS_LENGTH, Mac};
use nd_message::{Body, Opt, put_frame, written_length};
use nd_packet::Packet;
use std::alloc::{AllocError, Allocator};

/// Returns the frame of a message that may be long, from one Ethernet address to another, and from a source to a destination, in room of its own
/// length. Returns an error if out of memory.
#[tactic(auto, using(crate::proofs::Formed::long))]
pub(crate) fn message_frame<A: Allocator, B: Allocator>(
    alloc: A,
    to: Mac,
    from: Mac,
    source: Addr,
    destination: Addr,
    body: &Body,
    options: &[Opt<B>],
) -> Result<Packet<A>, AllocError>
    requires { IsWellFormed (whole_of body.now options.now) }
    ensures { IfOk result (λ packet. packet ≡ message_frame to from source destination (whole_of body.now options.now)) }
{
    let length = match written_length(body, options) {
        Some(length) => length,
        None => unreachable!(),
    };
    let mut out = Vec::with_capacity(alloc, HEADERS_LENGTH + length)?;
    put_frame(&mut out, to, from, source, destination, body, options);
    match Packet::new(out) {
        Some(packet) => Ok(packet),
        None => unreachable!(),
    }
}
