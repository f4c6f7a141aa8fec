//! Events of a router (RFC 4861, section 6.2). At a host each is refused. Each does first what is due up to `now`, a moment in milliseconds.

ghost use Rattle.std.specs.Prelude.{◌≡◌, MatchOption};
ghost use Rattle.nd_chronicle.specs.Event as events;
ghost use Rattle.nd_c.specs.Event.{Answers};
ghost use Rattle.nd_c.specs.Status.{invalid};
ghost use Rattle.nd_c_types.specs.Advertising.{config_of};
ghost use Rattle.nd_c_types.specs.Offer.{offer_of};
ghost use Rattle.nd_c_types.specs.Route.{route_of};

use crate::answer::{Given, answer};
use crate::status::INVALID;
use nd_c_types::{Advertising, OfferRow, RouteRow};
use nd_node::Event;
use nd_session::Slot;
use std::alloc::Global;

/// Begins to advertise, or changes what is advertised (RFC 4861, sections 6.2.1 and 6.2.4).
#[unsafe(no_mangle)]
pub extern "C" fn nd_advertise(
    alloc: Global,
    node: &mut Slot,
    now: u64,
    settings: &Advertising,
) -> i32
    ensures { MatchOption (config_of settings.now) ((result ≡ invalid) × (node.new.handle.session ≡ node.old.handle.session))
        (λ config. Answers now (events.Advertises config) result node.old.handle.session node.new.handle.session) }
{
    let Some(config) = settings.config() else {
        return INVALID;
    };
    let event = Event::Advertises(config);
    answer(alloc, node, now, Given::Event(&event))
}

/// Advertises a prefix, too (RFC 4861, section 6.2.1).
#[unsafe(no_mangle)]
pub extern "C" fn nd_advertise_prefix(
    alloc: Global,
    node: &mut Slot,
    now: u64,
    offer: &OfferRow,
) -> i32
    ensures { MatchOption (offer_of offer.now) ((result ≡ invalid) × (node.new.handle.session ≡ node.old.handle.session))
        (λ info. Answers now (events.Offers info) result node.old.handle.session node.new.handle.session) }
{
    let Some(offer) = offer.offer() else {
        return INVALID;
    };
    let event = Event::Offers(offer);
    answer(alloc, node, now, Given::Event(&event))
}

/// Puts a static route.
#[unsafe(no_mangle)]
pub extern "C" fn nd_add_route(alloc: Global, node: &mut Slot, now: u64, route: &RouteRow) -> i32
    ensures { MatchOption (route_of route.now) ((result ≡ invalid) × (node.new.handle.session ≡ node.old.handle.session))
        (λ kept. Answers now (events.Routes kept.prefix kept.route) result node.old.handle.session node.new.handle.session) }
{
    let Some(route) = route.route() else {
        return INVALID;
    };
    let event = Event::PutsRoute(route);
    answer(alloc, node, now, Given::Event(&event))
}

/// Ceases to advertise (RFC 4861, section 6.2.5).
#[unsafe(no_mangle)]
pub extern "C" fn nd_stop_advertising(alloc: Global, node: &mut Slot, now: u64) -> i32
    ensures { Answers now events.Stops result node.old.handle.session node.new.handle.session }
{
    answer(alloc, node, now, Given::Event(&Event::Stops))
}
