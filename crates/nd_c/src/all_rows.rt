//! All rows of each table, for a list of the caller's. The definitions are in `specs/AllRows.antt`. None takes memory.

ghost use Rattle.std.specs.Prelude.{◌≡◌, ◌++◌, ◌⊎◌, List, None, Some, drop, length, map};
ghost use Rattle.std.specs.Iterator.{IsFinite, Yields};
ghost use Rattle.nd_c.specs.AllRows.{TellsAll};
ghost use Rattle.nd_c.specs.Rows.{AddressAt, NameAt, NeighbourAt, OfferAt, PrefixAt, RedirectAt, RouteAt, RouterAt, ServerAt};
ghost use Rattle.nd_c.specs.Status.{done, no_room};

use crate::row_of::RowOf;
use crate::status::{DONE, NO_ROOM, PAST};
use nd_c_types::{
    AddressRow, NameRow, NeighbourRow, OfferRow, PrefixRow, RedirectRow, RouteRow, RouterRow,
    ServerRow,
};
use nd_session::Session;

/// Writes the rows of items to the front of `rows`, as many as there are or have room, and their number to `count`. The status says whether all of
/// them were written.
fn fill<T: Drop, R: RowOf<T>, I: Iterator<Item = T> + Drop>(
    items: I,
    rows: &mut [R],
    count: &mut usize,
) -> i32
    requires can { I.can_next items }
    requires ends { IsFinite (I.remaining items) }

    ensures { (xs : List T) × (t u : I) × Yields I.next_gives items xs t × (count.new ≡ length xs) × (rows.new ≡ map R.row_of xs ++ drop (length xs) rows.old)
        × (((result ≡ done) × I.next_gives t None u) ⊎ ((result ≡ no_room) × (length xs ≡ length rows.old) × (x : T) × I.next_gives t (Some x) u)) }
{
    let mut items = items;
    let mut written = 0;
    for row in rows.iter_mut() {
        let Some(item) = items.next() else {
            *count = written;
            return DONE;
        };
        *row = R::of_item(&item);
        written += 1;
    }
    *count = written;
    match items.next() {
        Some(_) => NO_ROOM,
        None => DONE,
    }
}

/// Writes the rows of the neighbours, in the order of their addresses (RFC 4861, section 5.1).
pub(crate) fn neighbours(
    session: &Session,
    now: u64,
    rows: &mut [NeighbourRow],
    count: &mut usize,
) -> i32
    ensures { TellsAll now (NeighbourAt now) session.now result count.old count.new rows.old rows.new }
{
    if session.is_past(now) {
        return PAST;
    }
    fill(session.neighbours(now), rows, count)
}

/// Writes the rows of the default routers, in the order in which they entered the list (RFC 4861, section 5.1).
pub(crate) fn routers(session: &Session, now: u64, rows: &mut [RouterRow], count: &mut usize) -> i32
    ensures { TellsAll now (RouterAt now) session.now result count.old count.new rows.old rows.new }
{
    if session.is_past(now) {
        return PAST;
    }
    fill(session.default_routers(now), rows, count)
}

/// Writes the rows of the prefixes on the link, in the order in which they entered the list (RFC 4861, section 5.1).
pub(crate) fn prefixes(
    session: &Session,
    now: u64,
    rows: &mut [PrefixRow],
    count: &mut usize,
) -> i32
    ensures { TellsAll now (PrefixAt now) session.now result count.old count.new rows.old rows.new }
{
    if session.is_past(now) {
        return PAST;
    }
    fill(session.prefixes(now), rows, count)
}

/// Writes the rows of the node's own addresses, in the order of addresses (RFC 4862, section 5).
pub(crate) fn addresses(
    session: &Session,
    now: u64,
    rows: &mut [AddressRow],
    count: &mut usize,
) -> i32
    ensures { TellsAll now (AddressAt now) session.now result count.old count.new rows.old rows.new }
{
    if session.is_past(now) {
        return PAST;
    }
    fill(session.addresses(now), rows, count)
}

/// Writes the rows of the DNS servers, in the order in which they entered the list (RFC 8106, section 6.1).
pub(crate) fn servers(session: &Session, now: u64, rows: &mut [ServerRow], count: &mut usize) -> i32
    ensures { TellsAll now (ServerAt now) session.now result count.old count.new rows.old rows.new }
{
    if session.is_past(now) {
        return PAST;
    }
    fill(session.servers(now), rows, count)
}

/// Writes the rows of the DNS search names, in the order in which they entered the list (RFC 8106, section 6.1).
pub(crate) fn names(session: &Session, now: u64, rows: &mut [NameRow], count: &mut usize) -> i32
    ensures { TellsAll now (NameAt now) session.now result count.old count.new rows.old rows.new }
{
    if session.is_past(now) {
        return PAST;
    }
    fill(session.search_names(now), rows, count)
}

/// Writes the rows of the Redirects in force, the newest first (RFC 4861, section 8.3).
pub(crate) fn redirects(
    session: &Session,
    now: u64,
    rows: &mut [RedirectRow],
    count: &mut usize,
) -> i32
    ensures { TellsAll now (RedirectAt) session.now result count.old count.new rows.old rows.new }
{
    if session.is_past(now) {
        return PAST;
    }
    fill(session.redirects(), rows, count)
}

/// Writes the rows of the offers of a router, in the order in which each was first put.
pub(crate) fn offers(session: &Session, now: u64, rows: &mut [OfferRow], count: &mut usize) -> i32
    ensures { TellsAll now (OfferAt) session.now result count.old count.new rows.old rows.new }
{
    if session.is_past(now) {
        return PAST;
    }
    fill(session.offers(), rows, count)
}

/// Writes the rows of the static routes of a router, in the order in which each was first put.
pub(crate) fn routes(session: &Session, now: u64, rows: &mut [RouteRow], count: &mut usize) -> i32
    ensures { TellsAll now (RouteAt) session.now result count.old count.new rows.old rows.new }
{
    if session.is_past(now) {
        return PAST;
    }
    fill(session.routes(), rows, count)
}
