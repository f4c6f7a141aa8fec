ghost use Rattle.std.specs.Prelude.{length};
ghost use Rattle.std.specs.Option.{SomeIff};
ghost use Rattle.nd_addr.specs.Room.{HasRoom, Puts};
ghost use Rattle.nd_message.specs.Fitting.{FitsBody};
ghost use Rattle.nd_message.specs.Spelling.{fields_of};

use crate::neighbor_advertisement::put_neighbor_advertisement;
use crate::neighbor_solicitation::put_neighbor_solicitation;
use crate::redirect::put_redirect;
use crate::router_advertisement::{put_router_advertisement, router_advertisement_length};
use crate::router_solicitation::put_router_solicitation;
use nd_decode::{
    Body, NeighborAdvertisement, NeighborSolicitation, ROUTER_SOLICITATION_LENGTH, Redirect,
};
use std::alloc::Allocator;

/// Returns the number of bytes of a body's fields, or None for a Router Advertisement that must not be sent.
pub(crate) fn fields_length(body: &Body) -> Option<usize>
    ensures { SomeIff result (FitsBody body.now) (length (fields_of 0 body.now)) }
{
    match body {
        Body::Rs => Some(ROUTER_SOLICITATION_LENGTH),
        Body::Ra(ra) => router_advertisement_length(ra),
        Body::Ns(ns) => Some(ns.target.as_bytes().len() + NeighborSolicitation::TARGET_AT),
        Body::Na(na) => Some(na.target.as_bytes().len() + NeighborAdvertisement::TARGET_AT),
        Body::Redirect(redirect) => {
            let addresses = redirect.target.as_bytes().len()
                + redirect.destination.as_bytes().len();
            Some(addresses + Redirect::TARGET_AT)
        }
    }
}

/// Appends the fields of a body, with a checksum of 0.
pub(crate) fn put_fields<A: Allocator>(body: &Body, out: &mut Vec<u8, A>)
    requires { HasRoom out.old (length (fields_of 0 body.now)) }
    ensures { Puts out.old out.new (fields_of 0 body.now) }
{
    match body {
        Body::Rs => put_router_solicitation(out),
        Body::Ra(ra) => put_router_advertisement(ra, out),
        Body::Ns(ns) => put_neighbor_solicitation(ns, out),
        Body::Na(na) => put_neighbor_advertisement(na, out),
        Body::Redirect(redirect) => put_redirect(redirect, out),
    }
}
