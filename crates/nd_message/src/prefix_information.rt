ghost use Rattle.std.specs.Prelude.{◌≡◌, length};
ghost use Rattle.nd_addr.specs.Room.{HasRoom, Puts};
ghost use Rattle.nd_message.specs.Spelling.{prefix_piece};
ghost use Rattle.nd_message.specs.Fitting.{FitsPrefix};

use crate::flags::flag;
use nd_addr::put_bytes;
use nd_decode::{OPTION_PREFIX_INFORMATION, PrefixInfo};
use std::alloc::Allocator;

/// Returns the number of bytes of a Prefix Information, which is the same for each value.
pub(crate) fn prefix_length(info: &PrefixInfo) -> usize
    ensures len { result ≡ length (prefix_piece info.now) }
    ensures fits { FitsPrefix info.now }
{
    // The fields are named, so that their ranges are known.
    let PrefixInfo {
        prefix,
        valid_lifetime: _valid_lifetime,
        preferred_lifetime: _preferred_lifetime,
        ..
    } = *info;
    prefix.address().as_bytes().len() + PrefixInfo::PREFIX_AT
}

/// Appends the piece of a Prefix Information (RFC 4861, section 4.6.2).
pub(crate) fn put_prefix<A: Allocator>(info: &PrefixInfo, out: &mut Vec<u8, A>)
    requires { HasRoom out.old (length (prefix_piece info.now)) }
    ensures { Puts out.old out.new (prefix_piece info.now) }
{
    let kind = OPTION_PREFIX_INFORMATION;
    let length = info.prefix.length();
    let on_link = flag(info.on_link, PrefixInfo::FLAG_ON_LINK);
    let flags = on_link | flag(info.autonomous, PrefixInfo::FLAG_AUTONOMOUS);
    let units = PrefixInfo::UNITS;
    let [a, b, c, d] = info.valid_lifetime.to_be_bytes();
    let [e, f, g, h] = info.preferred_lifetime.to_be_bytes();
    put_bytes(
        out,
        &[
            kind, units, length, flags, a, b, c, d, e, f, g, h, 0, 0, 0, 0,
        ],
    );
    put_bytes(out, &info.prefix.address().0);
}
