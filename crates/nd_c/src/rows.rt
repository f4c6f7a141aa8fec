//! The row at an index of each table, by what happened at the node. The definitions are in `specs/Rows.antt`. None takes memory.
ghost use Rattle.std.specs.Prelude.{◌<◌};
ghost use Rattle.nd_node.specs.NodeKept.{next_of};
ghost use Rattle.nd_c.specs.Rows.{AddressAt, AdvertisingOf, CountsOf, HopTo, NameAt, NeighbourAt, NeighbourOf, OfferAt, ParametersOf, PrefixAt, RedirectAt, RouteAt, RouterAt, ServerAt};

use nd_addr::Addr;
use nd_c_types::{
    AddressRow, Advertising, CountsRow, NameRow, NeighbourRow, NextHopRow, OfferRow, ParametersRow,
    PrefixRow, RedirectRow, RouteRow, RouterRow, ServerRow,
};
use nd_session::Session;

/// Returns the row of a neighbour, in the order of their addresses (RFC 4861, section 5.1).
pub(crate) fn neighbour_at(session: &Session, now: u64, index: usize) -> Option<NeighbourRow>
    ensures { NeighbourAt now index session.now result }
{
    match session.neighbours(now).nth(index) {
        Some(neighbour) => Some(NeighbourRow::of(&neighbour)),
        None => None,
    }
}

/// Returns the row of a default router, in the order in which they entered the list (RFC 4861, section 5.1).
pub(crate) fn router_at(session: &Session, now: u64, index: usize) -> Option<RouterRow>
    ensures { RouterAt now index session.now result }
{
    match session.default_routers(now).nth(index) {
        Some(router) => Some(RouterRow::of(&router)),
        None => None,
    }
}

/// Returns the row of a prefix on the link, in the order in which they entered the list (RFC 4861, section 5.1).
pub(crate) fn prefix_at(session: &Session, now: u64, index: usize) -> Option<PrefixRow>
    ensures { PrefixAt now index session.now result }
{
    match session.prefixes(now).nth(index) {
        Some(prefix) => Some(PrefixRow::of(&prefix)),
        None => None,
    }
}

/// Returns the row of one of the node's own addresses, in the order of addresses (RFC 4862, section 5).
pub(crate) fn address_at(session: &Session, now: u64, index: usize) -> Option<AddressRow>
    ensures { AddressAt now index session.now result }
{
    match session.addresses(now).nth(index) {
        Some(address) => Some(AddressRow::of(&address)),
        None => None,
    }
}

/// Returns the row of a DNS server, in the order in which they entered the list (RFC 8106, section 6.1).
pub(crate) fn server_at(session: &Session, now: u64, index: usize) -> Option<ServerRow>
    ensures { ServerAt now index session.now result }
{
    match session.servers(now).nth(index) {
        Some(server) => Some(ServerRow::of(&server)),
        None => None,
    }
}

/// Returns the row of a DNS search name, in the order in which they entered the list (RFC 8106, section 6.1).
pub(crate) fn name_at(session: &Session, now: u64, index: usize) -> Option<NameRow>
    ensures { NameAt now index session.now result }
{
    match session.search_names(now).nth(index) {
        Some(name) => Some(NameRow::of(&name)),
        None => None,
    }
}

/// Returns the row of a Redirect in force, the newest first (RFC 4861, section 8.3).
pub(crate) fn redirect_at(session: &Session, index: usize) -> Option<RedirectRow>
    ensures { RedirectAt index session.now result }
{
    match session.redirects().nth(index) {
        Some(redirect) => Some(RedirectRow::of(&redirect)),
        None => None,
    }
}

/// Returns the row of an offer of a router, in the order in which each was first put.
pub(crate) fn offer_at(session: &Session, index: usize) -> Option<OfferRow>
    ensures { OfferAt index session.now result }
{
    match session.offers().nth(index) {
        Some(offer) => Some(OfferRow::of(&offer)),
        None => None,
    }
}

/// Returns the row of a static route of a router, in the order in which each was first put.
pub(crate) fn route_at(session: &Session, index: usize) -> Option<RouteRow>
    ensures { RouteAt index session.now result }
{
    match session.routes().nth(index) {
        Some(route) => Some(RouteRow::of(&route)),
        None => None,
    }
}

/// Returns the row of the neighbour of an address.
pub(crate) fn neighbour_of(session: &Session, now: u64, addr: Addr) -> Option<NeighbourRow>
    ensures { NeighbourOf now addr session.now result }
{
    match session.neighbour(now, addr) {
        Some(neighbour) => Some(NeighbourRow::of(&neighbour)),
        None => None,
    }
}

/// Returns the row of the parameters of the link, which is always there.
pub(crate) fn parameters_of(session: &Session) -> Option<ParametersRow>
    ensures { ParametersOf session.now result }
{
    Some(ParametersRow::of(&session.parameters()))
}

/// Returns the row of what a router advertises, if it does.
pub(crate) fn advertising_of(session: &Session) -> Option<Advertising>
    ensures { AdvertisingOf session.now result }
{
    match session.advertising() {
        Some(config) => Some(Advertising::of(&config)),
        None => None,
    }
}

/// Returns the row of the numbers of entries and the limits, which is always there.
pub(crate) fn counts_of(session: &Session) -> Option<CountsRow>
    ensures { CountsOf session.now result }
{
    Some(CountsRow::of(&session.counts(), session.limits()))
}

/// Returns the row of the next hop of a packet to `destination`, if there is one. Nothing is due up to `now`.
pub(crate) fn hop_to(session: &Session, now: u64, destination: Addr) -> Option<NextHopRow>
    requires { now < next_of session.now.node }
    ensures { HopTo now destination session.now result }
{
    NextHopRow::of(session.next_hop_to(now, destination), destination)
}
