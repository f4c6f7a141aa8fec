//! Which table of a node is full for a Router Advertisement. The definition is in `specs/Fullness.antt`.

ghost use Rattle.std.specs.Prelude.{◌≡◌, ◌≤◌, None, true};
ghost use Rattle.std.specs.Option.{option_map};
ghost use Rattle.nd_decode.specs.Pieces.{options_left};
ghost use Rattle.nd_table.specs.Listing.{fits};
ghost use Rattle.nd_dns.specs.AnnouncedNames.{same_name, names_told};
ghost use Rattle.nd_out.specs.Out.{limit_of};
ghost use Rattle.nd_chronicle.specs.Full.{first_full, needs, Placed, AdvertisementFills};
ghost use Rattle.nd_chronicle.specs.Message.{makes_way, said};

use crate::node::Node;
use nd_addr::Addr;
use nd_decode::{Options, RouterAdvertisement};
use nd_out::Limit;
use rand_core::Rng;
use std::alloc::Allocator;

impl<R: Rng + Drop, A: Allocator + Clone> Node<R, A> {
    ghost use Rattle.nd_chronicle.specs.Start.{Start};
    ghost use Rattle.nd_chronicle.specs.Happening.{Chronicle, last_moment};
    ghost use Rattle.nd_node.specs.NodeKept.{Stands};
    ghost use Rattle.nd_node.specs.Fullness.{HasRoom};
    ghost use Rattle.nd_node.specs.Hearing.{options_read};
    ghost use Rattle.nd_node.specs.RouterAdvertisement.{advertised};

    /// Returns the first table, in the order of their limits, that has no room for a Router Advertisement received at `now`, in milliseconds, or
    /// `None` if all have room. `place`: there is room for its sender among the neighbours. `known`: its search names only refresh known ones. It asks no
    /// table after a full one.
    pub(crate) fn first_full(
        &self,
        now: u64,
        source: Addr,
        ra: &RouterAdvertisement,
        options: Options<'_>,
        place: bool,
        known: bool,
    ) -> Option<Limit>
        requires { known ≡ true → fits same_name self.now.dns.name_limit now (names_told (options_left options)) self.now.dns.names ≡ true }
        ensures fills { let message = advertised ra.now (options_read self.now options.entry) in (start : Start) (c : Chronicle) → Stands R.stream start self.now c → last_moment start.at c ≤ now
            → Placed start c now (makes_way start (said c source message)) (needs c source message message.body) place → AdvertisementFills start c now source ra.now message (option_map limit_of result) }
        ensures room { result ≡ None → HasRoom self.now now source ra.now (options_left options.entry) place }
    {
        if !place {
            return Some(Limit::Neighbours);
        }
        if !self.routers.fits(now, source, ra.router_lifetime) {
            return Some(Limit::Routers);
        }
        if !self.prefixes.fits(now, options) {
            return Some(Limit::Prefixes);
        }
        if !self.addresses.fits(options) {
            return Some(Limit::Addresses);
        }
        if !self.dns.fits_servers(now, options) {
            return Some(Limit::Servers);
        }
        if !known && !self.dns.fits_names(now, options) {
            return Some(Limit::Names);
        }
        None
    }
}
