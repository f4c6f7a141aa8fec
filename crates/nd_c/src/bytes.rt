//! The memory that a node takes. The definition is in `specs/Bytes.antt`.

ghost use Rattle.std.specs.Prelude.{◌≡◌, ◌≤◌};
ghost use Rattle.nd_c_types.specs.Limits.{chosen, AreChosen};
ghost use Rattle.nd_c.specs.Bytes.{dates_bytes, index_bytes, node_bytes, rows_bytes};

use nd_c_types::Limits;
use nd_node::Limits as NodeLimits;

/// The bytes of a row of each table, as measured. That of a search name has room for the longest name, and those of an offer and of a route have their
/// part of a hash table; that of an offer has its part of the room in reserve too. A destination whose next hop is remembered has its part of the paths
/// that are.
const NEIGHBOUR: usize = 72;

const ROUTER: usize = 65;

const PREFIX: usize = 40;

const ADDRESS: usize = 72;

const SERVER: usize = 32;

const NAME: usize = 295;

const REDIRECT: usize = 64;

const DESTINATION: usize = 136;

const OFFER: usize = 87;

const ROUTE: usize = 84;

/// The bytes of a block of dates, and the number of rows for which a schedule has more than one.
const BLOCK: usize = 816;

const ROWS: usize = 32;

/// The bytes that a node takes besides, with one block of each schedule, as measured and rounded up.
const FIXED: usize = 9_344;

/// Returns the most bytes that the tables of a node take with these limits, 0 for the usual ones. Returns 0 if a limit is out of its range.
#[unsafe(no_mangle)]
pub extern "C" fn nd_node_bytes(limits: &Limits) -> usize
    ensures bytes { AreChosen limits.now → result ≡ node_bytes (chosen limits.now) }
    ensures none { (AreChosen limits.now → ⊥) → result ≡ 0 }
{
    match limits.chosen() {
        Some(limits) => table_bytes(limits),
        None => 0,
    }
}

/// Returns the most bytes that the tables take.
pub(crate) fn table_bytes(limits: NodeLimits) -> usize
    ensures value { result ≡ node_bytes limits }
    ensures few { result ≤ 1300000 }
{
    let dates = dates_bytes(limits.neighbours())
        + dates_bytes(limits.routers())
        + 2 * dates_bytes(limits.addresses());
    let indexes = index_bytes(limits.redirects()) + index_bytes(limits.destinations());
    FIXED + rows_bytes(limits) + dates + indexes
}

/// Returns the most bytes that the rows of all tables take.
fn rows_bytes(limits: NodeLimits) -> usize
    ensures value { result ≡ rows_bytes limits }
    ensures few { result ≤ 400000 }
{
    NEIGHBOUR * limits.neighbours()
        + ROUTER * limits.routers()
        + PREFIX * limits.prefixes()
        + ADDRESS * limits.addresses()
        + SERVER * limits.servers()
        + NAME * limits.names()
        + REDIRECT * limits.redirects()
        + DESTINATION * limits.destinations()
        + OFFER * limits.offers()
        + ROUTE * limits.routes()
}

/// Returns how many bytes the blocks of a schedule take besides its first one.
fn dates_bytes(rows: usize) -> usize
    requires { rows ≤ 2048 }
    ensures value { result ≡ dates_bytes rows }
    ensures few { result ≤ 200000 }
{
    if rows < ROWS {
        0
    } else {
        BLOCK * (2 * ((rows - 1) / ROWS) + 1)
    }
}

/// Returns how many bytes the hash table of so many destinations takes besides the least one, as measured.
fn index_bytes(destinations: usize) -> usize
    ensures value { result ≡ index_bytes destinations }
    ensures few { result ≤ 10000 }
{
    match destinations {
        0..10 => 0,
        10..19 => 216,
        19..37 => 648,
        37..73 => 1768,
        73..145 => 4008,
        _ => 8488,
    }
}
