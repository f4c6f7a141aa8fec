ghost use Rattle.std.specs.Prelude.{◌≡◌, ◌≤◌, ◌+◌, ◌/◌, ◌%◌, IfOk, length, slice_set, vec_len, vec_capacity};
ghost use Rattle.nd_addr.specs.Checksum.{IsGoodSum};
ghost use Rattle.nd_addr.specs.Room.{HasRoom, Puts};
ghost use Rattle.nd_decode.specs.Message.{Spells, HasKnownKind};
ghost use Rattle.nd_decode.specs.Decoding.{decode_of};
ghost use Rattle.nd_message.specs.Owned.{whole, whole_of};
ghost use Rattle.nd_message.specs.Spelling.{spelling, written_length, written_message};
ghost use Rattle.nd_message.specs.WellFormed.{IsWellFormed};

use crate::fields::put_fields;
use crate::length::written_length;
use crate::message::Message;
use crate::opt::Opt;
use nd_addr::{Addr, SUM_AT, sum_for};
use nd_decode::Body;
use std::alloc::{AllocError, Allocator};

/// Appends a message with a checksum of 0.
fn put_without_sum<A: Allocator, B: Allocator>(
    out: &mut Vec<u8, A>,
    body: &Body,
    options: &[Opt<B>],
)
    requires formed { IsWellFormed (whole_of body.now options.now) }
    requires room { HasRoom out.old (written_length (whole_of body.now options.now)) }
    ensures { Puts out.old out.new (spelling 0 (whole_of body.now options.now)) }
{
    put_fields(body, out);
    for option in options {
        option.put(out);
    }
}

/// Writes a number into the checksum field of the message that begins at a place.
fn put_sum<A: Allocator>(out: &mut Vec<u8, A>, start: usize, sum: u16)
    requires { start + 4 ≤ length out.old.items }
    ensures items { out.new.items ≡ slice_set (slice_set out.old.items (start + 2) (sum / 256)) (start + 2 + 1) (sum % 256) }
    ensures len { vec_len out.new ≡ vec_len out.old }
    ensures capacity { vec_capacity out.new ≡ vec_capacity out.old }
{
    let place = start + SUM_AT;
    out[place] = (sum / 256) as u8;
    out[place + 1] = (sum % 256) as u8;
}

/// Appends a message of these fields and options, from a source to a destination (RFC 4861, section 4). There is room for it: as many bytes as
/// `written_length` says. All that its readers ignore is 0, and the checksum is that of RFC 4443, section 2.3. It takes no memory.
pub fn put_message<A: Allocator, B: Allocator>(
    out: &mut Vec<u8, A>,
    body: &Body,
    options: &[Opt<B>],
    source: Addr,
    destination: Addr,
)
    requires formed { IsWellFormed (whole_of body.now options.now) }
    requires room { HasRoom out.old (written_length (whole_of body.now options.now)) }
    ensures { Puts out.old out.new (written_message source destination (whole_of body.now options.now)) }
{
    let start = out.len();
    put_without_sum(out, body, options);
    let sum = sum_for(source, destination, &out[start..]);
    put_sum(out, start, sum);
}

/// Returns the bytes of a message from a source to a destination (RFC 4861, section 4), as `put_message` writes them. Returns an error if out of
/// memory, and no other error: `Message::is_well_formed` says if a message has a spelling.
pub fn encode<A: Allocator, B: Allocator>(
    alloc: A,
    message: &Message<B>,
    source: Addr,
    destination: Addr,
) -> Result<Vec<u8, A>, AllocError>
    requires { IsWellFormed (whole message.now) }
    ensures exact { IfOk result (λ v. v.items ≡ written_message source destination (whole message.now)) }
    ensures spelled { IfOk result (λ v. Spells v.items (whole message.now)) }
    ensures good { IfOk result (λ v. IsGoodSum source.0 destination.0 v.items) }
    ensures short { IfOk result (λ v. length v.items ≤ 65535) }
    // `decode` may be called with it, and returns the message.
    ensures known { IfOk result (λ v. HasKnownKind v.items) }
    ensures read { IfOk result (λ v. decode_of v.items ≡ Ok (whole message.now)) }
{
    let length = match written_length(&message.body, &message.options) {
        Some(length) => length,
        None => unreachable!(),
    };
    let mut out = Vec::with_capacity(alloc, length)?;
    put_message(
        &mut out,
        &message.body,
        &message.options,
        source,
        destination,
    );
    Ok(out)
}
