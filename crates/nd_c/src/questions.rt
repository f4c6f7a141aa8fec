//! What a node knows. A question changes nothing and takes no memory. `now` is in milliseconds, and not before the last moment.

ghost use Rattle.std.specs.Prelude.{◌≡◌, ◌<◌, ◌≤◌};
ghost use Rattle.nd_node.specs.Node.{last_of};
ghost use Rattle.nd_c.specs.Question.{Asked, Writes};
ghost use Rattle.nd_c.specs.Status.{past};
ghost use Rattle.nd_c.specs.Rows.{AddressAt, AdvertisingOf, CountsOf, NameAt, NeighbourAt, NeighbourOf, OfferAt, ParametersOf, PrefixAt, RedirectAt, RouteAt, RouterAt, ServerAt};

use crate::call::with_session;
use crate::rows;
use crate::status::{DONE, NOTHING, PAST};
use nd_addr::Addr;
use nd_c_types::{
    AddressRow, Advertising, CountsRow, NameRow, NeighbourRow, OfferRow, ParametersRow, PrefixRow,
    RedirectRow, RouteRow, RouterRow, ServerRow,
};
use nd_session::{Session, Slot};
use std::alloc::Global;

/// Writes a row that was found in a session at `now`, in milliseconds, and returns the status. None is written if `now` is before the last moment.
fn tell<R: Copy + Drop>(session: &Session, now: u64, found: Option<R>, row: &mut R) -> i32
    ensures early { now < last_of session.now.node → (result ≡ past) × (row.new ≡ row.old) }
    ensures row { last_of session.now.node ≤ now → Writes found result row.old row.new }
{
    if session.is_past(now) {
        return PAST;
    }
    write(found, row)
}

/// Writes a row, if it was found, and returns the status.
pub(crate) fn write<R: Copy + Drop>(found: Option<R>, row: &mut R) -> i32
    ensures { Writes found result row.old row.new }
{
    match found {
        Some(found) => {
            *row = found;
            DONE
        }
        None => NOTHING,
    }
}

/// Writes a neighbour, in the order of their addresses (RFC 4861, section 5.1).
#[unsafe(no_mangle)]
pub extern "C" fn nd_neighbour_at(
    alloc: Global,
    node: &mut Slot,
    now: u64,
    index: usize,
    row: &mut NeighbourRow,
) -> i32
    ensures { Asked now (NeighbourAt now index) result node.old.handle.session node.new.handle.session row.old row.new }
{
    with_session!(alloc, node, now, session => {
        let found = rows::neighbour_at(&session, now, index);
        tell(&session, now, found, row)
    })
}

/// Writes a default router, in the order in which they entered the list (RFC 4861, section 5.1).
#[unsafe(no_mangle)]
pub extern "C" fn nd_router_at(
    alloc: Global,
    node: &mut Slot,
    now: u64,
    index: usize,
    row: &mut RouterRow,
) -> i32
    ensures { Asked now (RouterAt now index) result node.old.handle.session node.new.handle.session row.old row.new }
{
    with_session!(alloc, node, now, session => {
        let found = rows::router_at(&session, now, index);
        tell(&session, now, found, row)
    })
}

/// Writes a prefix on the link, in the order in which they entered the list (RFC 4861, section 5.1).
#[unsafe(no_mangle)]
pub extern "C" fn nd_prefix_at(
    alloc: Global,
    node: &mut Slot,
    now: u64,
    index: usize,
    row: &mut PrefixRow,
) -> i32
    ensures { Asked now (PrefixAt now index) result node.old.handle.session node.new.handle.session row.old row.new }
{
    with_session!(alloc, node, now, session => {
        let found = rows::prefix_at(&session, now, index);
        tell(&session, now, found, row)
    })
}

/// Writes one of the node's own addresses, in the order of addresses (RFC 4862, section 5).
#[unsafe(no_mangle)]
pub extern "C" fn nd_address_at(
    alloc: Global,
    node: &mut Slot,
    now: u64,
    index: usize,
    row: &mut AddressRow,
) -> i32
    ensures { Asked now (AddressAt now index) result node.old.handle.session node.new.handle.session row.old row.new }
{
    with_session!(alloc, node, now, session => {
        let found = rows::address_at(&session, now, index);
        tell(&session, now, found, row)
    })
}

/// Writes a DNS server, in the order in which they entered the list (RFC 8106, section 6.1).
#[unsafe(no_mangle)]
pub extern "C" fn nd_server_at(
    alloc: Global,
    node: &mut Slot,
    now: u64,
    index: usize,
    row: &mut ServerRow,
) -> i32
    ensures { Asked now (ServerAt now index) result node.old.handle.session node.new.handle.session row.old row.new }
{
    with_session!(alloc, node, now, session => {
        let found = rows::server_at(&session, now, index);
        tell(&session, now, found, row)
    })
}

/// Writes a DNS search name, in the order in which they entered the list (RFC 8106, section 6.1).
#[unsafe(no_mangle)]
pub extern "C" fn nd_name_at(
    alloc: Global,
    node: &mut Slot,
    now: u64,
    index: usize,
    row: &mut NameRow,
) -> i32
    ensures { Asked now (NameAt now index) result node.old.handle.session node.new.handle.session row.old row.new }
{
    with_session!(alloc, node, now, session => {
        let found = rows::name_at(&session, now, index);
        tell(&session, now, found, row)
    })
}

/// Writes a Redirect in force, the newest first (RFC 4861, section 8.3).
#[unsafe(no_mangle)]
pub extern "C" fn nd_redirect_at(
    alloc: Global,
    node: &mut Slot,
    now: u64,
    index: usize,
    row: &mut RedirectRow,
) -> i32
    ensures { Asked now (RedirectAt index) result node.old.handle.session node.new.handle.session row.old row.new }
{
    with_session!(alloc, node, now, session => {
        let found = rows::redirect_at(&session, index);
        tell(&session, now, found, row)
    })
}

/// Writes an offer of a router, in the order in which each was first put.
#[unsafe(no_mangle)]
pub extern "C" fn nd_offer_at(
    alloc: Global,
    node: &mut Slot,
    now: u64,
    index: usize,
    row: &mut OfferRow,
) -> i32
    ensures { Asked now (OfferAt index) result node.old.handle.session node.new.handle.session row.old row.new }
{
    with_session!(alloc, node, now, session => {
        let found = rows::offer_at(&session, index);
        tell(&session, now, found, row)
    })
}

/// Writes a static route of a router, in the order in which each was first put.
#[unsafe(no_mangle)]
pub extern "C" fn nd_route_at(
    alloc: Global,
    node: &mut Slot,
    now: u64,
    index: usize,
    row: &mut RouteRow,
) -> i32
    ensures { Asked now (RouteAt index) result node.old.handle.session node.new.handle.session row.old row.new }
{
    with_session!(alloc, node, now, session => {
        let found = rows::route_at(&session, index);
        tell(&session, now, found, row)
    })
}

/// Writes the neighbour of an address.
#[unsafe(no_mangle)]
pub extern "C" fn nd_neighbour_of(
    alloc: Global,
    node: &mut Slot,
    now: u64,
    address: &[u8; 16],
    row: &mut NeighbourRow,
) -> i32
    ensures { Asked now (NeighbourOf now (record { 0 = address.now })) result node.old.handle.session node.new.handle.session row.old row.new }
{
    with_session!(alloc, node, now, session => {
        let found = rows::neighbour_of(&session, now, Addr(*address));
        tell(&session, now, found, row)
    })
}

/// Writes the parameters of the link (RFC 4861, section 6.3.2).
#[unsafe(no_mangle)]
pub extern "C" fn nd_parameters_of(
    alloc: Global,
    node: &mut Slot,
    now: u64,
    row: &mut ParametersRow,
) -> i32
    ensures { Asked now (ParametersOf) result node.old.handle.session node.new.handle.session row.old row.new }
{
    with_session!(alloc, node, now, session => {
        let found = rows::parameters_of(&session);
        tell(&session, now, found, row)
    })
}

/// Writes what a router advertises (RFC 4861, section 6.2.1).
#[unsafe(no_mangle)]
pub extern "C" fn nd_advertising_of(
    alloc: Global,
    node: &mut Slot,
    now: u64,
    row: &mut Advertising,
) -> i32
    ensures { Asked now (AdvertisingOf) result node.old.handle.session node.new.handle.session row.old row.new }
{
    with_session!(alloc, node, now, session => {
        let found = rows::advertising_of(&session);
        tell(&session, now, found, row)
    })
}

/// Writes the number of entries of each table.
#[unsafe(no_mangle)]
pub extern "C" fn nd_counts_of(alloc: Global, node: &mut Slot, now: u64, row: &mut CountsRow) -> i32
    ensures { Asked now (CountsOf) result node.old.handle.session node.new.handle.session row.old row.new }
{
    with_session!(alloc, node, now, session => {
        let found = rows::counts_of(&session);
        tell(&session, now, found, row)
    })
}
