ghost use Rattle.std.specs.Prelude.{length};
ghost use Rattle.std.specs.Option.{SomeIff};
ghost use Rattle.nd_addr.specs.Room.{HasRoom, Puts};
ghost use Rattle.nd_decode.specs.declared.body.Body.TheVariants as bodies;
ghost use Rattle.nd_message.specs.Fitting.{FitsRouterAdvertisement};
ghost use Rattle.nd_message.specs.Spelling.{fields_of};

use crate::flags::{flag, preference_bits};
use nd_addr::{Preference, put_bytes};
use nd_decode::{ICMPV6_ROUTER_ADVERTISEMENT, RouterAdvertisement};
use std::alloc::Allocator;

/// Returns the number of bytes of the fields of a Router Advertisement, or None if it must not be sent: its router lifetime is 0 and its
/// preference isn't Medium (RFC 4191, section 2.2).
pub(crate) fn router_advertisement_length(ra: &RouterAdvertisement) -> Option<usize>
    ensures { SomeIff result (FitsRouterAdvertisement ra.now) (length (fields_of 0 (bodies.Ra ra.now))) }
{
    // The fields are named, so that their ranges are known.
    let RouterAdvertisement {
        hop_limit: _hop_limit,
        router_lifetime,
        reachable_time: _reachable_time,
        retrans_timer: _retrans_timer,
        preference,
        ..
    } = *ra;
    if router_lifetime == 0 && preference != Preference::Medium {
        return None;
    }
    Some(RouterAdvertisement::LENGTH)
}

/// Appends the fields of a Router Advertisement (RFC 4861, section 4.2; RFC 4191, section 2.2).
pub(crate) fn put_router_advertisement<A: Allocator>(ra: &RouterAdvertisement, out: &mut Vec<u8, A>)
    requires { HasRoom out.old (length (fields_of 0 (bodies.Ra ra.now))) }
    ensures { Puts out.old out.new (fields_of 0 (bodies.Ra ra.now)) }
{
    let kind = ICMPV6_ROUTER_ADVERTISEMENT;
    let limit = ra.hop_limit;
    let managed = flag(ra.managed, RouterAdvertisement::FLAG_MANAGED);
    let letters = managed | flag(ra.other, RouterAdvertisement::FLAG_OTHER);
    let flags = letters | preference_bits(ra.preference);
    let [a, b] = ra.router_lifetime.to_be_bytes();
    let [c, d, e, f] = ra.reachable_time.to_be_bytes();
    let [g, h, i, j] = ra.retrans_timer.to_be_bytes();
    put_bytes(
        out,
        &[kind, 0, 0, 0, limit, flags, a, b, c, d, e, f, g, h, i, j],
    );
}
