//! A message is taken in part, where a table has no room for all of it: with the policy `parts` (RFC 8106, section 5.3.1). The definitions are in
//! `specs/Parts.antt`, and in that of nd_chronicle.

ghost use Rattle.std.specs.Prelude.{◌≡◌, ◌+◌, ◌++◌, ◌≤◌, map};
ghost use Rattle.nd_chronicle.specs.Happening.{Ignored};
ghost use Rattle.nd_decode.specs.Pieces.{options_left};
ghost use Rattle.nd_node.specs.Parts.{ignored_by, rooms_of};
ghost use Rattle.nd_steps.specs.Outputs.{at_moment, happenings};

use crate::node::Node;
use nd_addr::Addr;
use nd_decode::{Options, RouterAdvertisement};
use nd_out::{Limit, Reports};
use nd_steps::tell_ignored;
use rand_core::Rng;
use std::alloc::Allocator;

/// The most rows that report the limits of which a part was passed over.
pub(crate) const MOST_IGNORED: usize = 6;

/// Which tables have room for all that a Router Advertisement says to them.
#[derive(Clone, Copy, Debug, PartialEq, Eq)]
pub(crate) struct Rooms {
    /// For its sender.
    pub(crate) neighbours: bool,
    pub(crate) routers: bool,
    pub(crate) prefixes: bool,
    pub(crate) addresses: bool,
    pub(crate) servers: bool,
    pub(crate) names: bool,
}

impl<R: Rng + Drop, A: Allocator + Clone> Node<R, A> {
    /// Returns which tables have room for all of a Router Advertisement that is received at `now`, in milliseconds, whose sender has a `place` among the
    /// neighbours or hasn't. Each table is asked by itself.
    pub(crate) fn rooms(
        &self,
        now: u64,
        source: Addr,
        ra: &RouterAdvertisement,
        options: Options<'_>,
        place: bool,
    ) -> Rooms
        ensures { result ≡ rooms_of self.now now source ra.now.router_lifetime (options_left options.entry) place }
    {
        Rooms {
            neighbours: place,
            routers: self.routers.fits(now, source, ra.router_lifetime),
            prefixes: self.prefixes.fits(now, options),
            addresses: self.addresses.fits(options),
            servers: self.dns.fits_servers(now, options),
            names: self.dns.fits_names(now, options),
        }
    }
}

/// Reports at `now`, in milliseconds, each limit of which a part of a Router Advertisement was passed over, in the order of the limits. It takes no memory: the
/// caller has made room.
pub(crate) fn tell_rooms<A: Allocator>(outs: &mut Reports<A>, now: u64, rooms: Rooms)
    requires { 6 ≤ outs.old.free }
    ensures { happenings outs.new.items ≡ happenings outs.old.items ++ at_moment now (map (λ l. Ignored l) (ignored_by rooms)) }
{
    tell_ignored(outs, now, rooms.neighbours, Limit::Neighbours);
    tell_ignored(outs, now, rooms.routers, Limit::Routers);
    tell_ignored(outs, now, rooms.prefixes, Limit::Prefixes);
    tell_ignored(outs, now, rooms.addresses, Limit::Addresses);
    tell_ignored(outs, now, rooms.servers, Limit::Servers);
    tell_ignored(outs, now, rooms.names, Limit::Names);
}
