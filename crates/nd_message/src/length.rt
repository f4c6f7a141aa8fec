ghost use Rattle.std.specs.Prelude.{◌≤◌, IfSome};
ghost use Rattle.std.specs.Option.{SomeIff};
ghost use Rattle.nd_message.specs.Owned.{whole_of};
ghost use Rattle.nd_message.specs.Spelling.{written_length};
ghost use Rattle.nd_message.specs.WellFormed.{IsWellFormed};

use crate::fields::fields_length;
use crate::opt::Opt;
use nd_decode::Body;
use std::alloc::Allocator;

/// The length of the longest message, in bytes: what the payload length of an IPv6 header can say (RFC 8200, section 3).
const LONGEST_PAYLOAD: usize = 65535;

/// Returns the number of bytes of a message of these fields and options, which is the room that `put_message` needs. Returns `None` if it is not
/// well formed: the options are too long, an `Other` reads as one of the known options or its piece is no multiple of 8 bytes, or a Router
/// Advertisement has router lifetime 0 and a preference other than Medium.
pub fn written_length<A: Allocator>(body: &Body, options: &[Opt<A>]) -> Option<usize>
    ensures len { SomeIff result (IsWellFormed (whole_of body.now options.now)) (written_length (whole_of body.now options.now)) }
    ensures short { IfSome result (λ len. len ≤ 65535) }
{
    let mut length = fields_length(body)?;
    for option in options {
        let more = option.piece_length()?;
        length += more;
        if length > LONGEST_PAYLOAD {
            return None;
        }
    }
    Some(length)
}
