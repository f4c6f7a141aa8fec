//! What a node knows, all rows of a table at once. A question changes nothing and takes no memory. `now` is in milliseconds, and not before the last
//! moment. `count` is how many rows were written, from the first one on; ND_NO_ROOM says that there are more.

ghost use Rattle.nd_c.specs.AllRows.{AskedAll};
ghost use Rattle.nd_c.specs.Rows.{AddressAt, NameAt, NeighbourAt, OfferAt, PrefixAt, RedirectAt, RouteAt, RouterAt, ServerAt};

use crate::all_rows;
use crate::call::with_session;
use nd_c_types::{
    AddressRow, NameRow, NeighbourRow, OfferRow, PrefixRow, RedirectRow, RouteRow, RouterRow,
    ServerRow,
};
use nd_session::Slot;
use std::alloc::Global;

/// Writes the neighbours, in the order of their addresses (RFC 4861, section 5.1).
#[unsafe(no_mangle)]
pub extern "C" fn nd_neighbours(
    alloc: Global,
    node: &mut Slot,
    now: u64,
    rows: &mut [NeighbourRow],
    count: &mut usize,
) -> i32
    ensures { AskedAll now (NeighbourAt now) result node.old.handle.session node.new.handle.session count.old count.new rows.old rows.new }
{
    with_session!(alloc, node, now, session => all_rows::neighbours(&session, now, rows, count))
}

/// Writes the default routers, in the order in which they entered the list (RFC 4861, section 5.1).
#[unsafe(no_mangle)]
pub extern "C" fn nd_routers(
    alloc: Global,
    node: &mut Slot,
    now: u64,
    rows: &mut [RouterRow],
    count: &mut usize,
) -> i32
    ensures { AskedAll now (RouterAt now) result node.old.handle.session node.new.handle.session count.old count.new rows.old rows.new }
{
    with_session!(alloc, node, now, session => all_rows::routers(&session, now, rows, count))
}

/// Writes the prefixes on the link, in the order in which they entered the list (RFC 4861, section 5.1).
#[unsafe(no_mangle)]
pub extern "C" fn nd_prefixes(
    alloc: Global,
    node: &mut Slot,
    now: u64,
    rows: &mut [PrefixRow],
    count: &mut usize,
) -> i32
    ensures { AskedAll now (PrefixAt now) result node.old.handle.session node.new.handle.session count.old count.new rows.old rows.new }
{
    with_session!(alloc, node, now, session => all_rows::prefixes(&session, now, rows, count))
}

/// Writes the node's own addresses, in the order of addresses (RFC 4862, section 5).
#[unsafe(no_mangle)]
pub extern "C" fn nd_addresses(
    alloc: Global,
    node: &mut Slot,
    now: u64,
    rows: &mut [AddressRow],
    count: &mut usize,
) -> i32
    ensures { AskedAll now (AddressAt now) result node.old.handle.session node.new.handle.session count.old count.new rows.old rows.new }
{
    with_session!(alloc, node, now, session => all_rows::addresses(&session, now, rows, count))
}

/// Writes the DNS servers, in the order in which they entered the list (RFC 8106, section 6.1).
#[unsafe(no_mangle)]
pub extern "C" fn nd_servers(
    alloc: Global,
    node: &mut Slot,
    now: u64,
    rows: &mut [ServerRow],
    count: &mut usize,
) -> i32
    ensures { AskedAll now (ServerAt now) result node.old.handle.session node.new.handle.session count.old count.new rows.old rows.new }
{
    with_session!(alloc, node, now, session => all_rows::servers(&session, now, rows, count))
}

/// Writes the DNS search names, in the order in which they entered the list (RFC 8106, section 6.1).
#[unsafe(no_mangle)]
pub extern "C" fn nd_names(
    alloc: Global,
    node: &mut Slot,
    now: u64,
    rows: &mut [NameRow],
    count: &mut usize,
) -> i32
    ensures { AskedAll now (NameAt now) result node.old.handle.session node.new.handle.session count.old count.new rows.old rows.new }
{
    with_session!(alloc, node, now, session => all_rows::names(&session, now, rows, count))
}

/// Writes the Redirects in force, the newest first (RFC 4861, section 8.3).
#[unsafe(no_mangle)]
pub extern "C" fn nd_redirects(
    alloc: Global,
    node: &mut Slot,
    now: u64,
    rows: &mut [RedirectRow],
    count: &mut usize,
) -> i32
    ensures { AskedAll now (RedirectAt) result node.old.handle.session node.new.handle.session count.old count.new rows.old rows.new }
{
    with_session!(alloc, node, now, session => all_rows::redirects(&session, now, rows, count))
}

/// Writes the offers of a router, in the order in which each was first put.
#[unsafe(no_mangle)]
pub extern "C" fn nd_offers(
    alloc: Global,
    node: &mut Slot,
    now: u64,
    rows: &mut [OfferRow],
    count: &mut usize,
) -> i32
    ensures { AskedAll now (OfferAt) result node.old.handle.session node.new.handle.session count.old count.new rows.old rows.new }
{
    with_session!(alloc, node, now, session => all_rows::offers(&session, now, rows, count))
}

/// Writes the static routes of a router, in the order in which each was first put.
#[unsafe(no_mangle)]
pub extern "C" fn nd_routes(
    alloc: Global,
    node: &mut Slot,
    now: u64,
    rows: &mut [RouteRow],
    count: &mut usize,
) -> i32
    ensures { AskedAll now (RouteAt) result node.old.handle.session node.new.handle.session count.old count.new rows.old rows.new }
{
    with_session!(alloc, node, now, session => all_rows::routes(&session, now, rows, count))
}
