//! The bytes of a pool that are enough for a node. The definition is in `specs/PoolBytes.antt`.

ghost use Rattle.std.specs.Prelude.{◌+◌, ◌*◌, ◌≡◌, ◌≤◌};
ghost use Rattle.nd_c_types.specs.Limits.{chosen, AreChosen};
ghost use Rattle.nd_c.specs.PoolBytes.{block_bytes, call_in_pool, longest_held, names_entering, names_in_pool, pool_bytes, queue_in_pool, records, solicitations_in_pool, tables_in_pool, waiting_in_pool};

use crate::bytes::table_bytes;
use nd_c_types::Limits;
use nd_node::Limits as NodeLimits;

/// The unit of the lengths of blocks in `bindings/c/pool.c`, in bytes. The head of a block has as many.
const UNIT: usize = 16;

/// The shortest and the longest frame for which room is counted, in bytes: an answer that waits, and a packet with the longest payload.
const SHORTEST: usize = 86;

const LONGEST: usize = 65_589;

/// The bytes of a block with a solicitation.
const SOLICITATION: usize = 112;

/// The bytes of a packet or of a name in a list, and of a record in the queue, as measured.
const PLACE: usize = 24;

const RECORD: usize = 80;

/// The blocks of the tables besides those of dates and of names, and the bytes that a destination has twice while their list grows.
const BLOCKS: usize = 60;

const DESTINATION: usize = 64;

/// What a call takes besides frames and lists, as measured and rounded up: parts of a Redirect, and by how much those that wait are longer than their
/// packets.
const CALL: usize = 8_192;

/// Returns how many bytes a pool of `bindings/c/pool.c` needs for one node with these limits, 0 for the usual ones, if no frame is longer than
/// `longest` bytes. A length below 86 counts as 86, and one above 65,589 as 65,589. Returns 0 if a limit is out of its range.
#[unsafe(no_mangle)]
pub extern "C" fn nd_pool_bytes(limits: &Limits, longest: usize) -> usize
    ensures bytes { AreChosen limits.now → result ≡ pool_bytes (chosen limits.now) longest }
    ensures none { (AreChosen limits.now → ⊥) → result ≡ 0 }
{
    match limits.chosen() {
        Some(limits) => {
            let longest = longest_held(longest);
            tables_in_pool(limits)
                + waiting_in_pool(limits, longest)
                + queue_in_pool(limits)
                + solicitations_in_pool(limits)
                + call_in_pool(limits, longest)
        }
        None => 0,
    }
}

/// Returns the length of the longest frame for which room is counted.
fn longest_held(longest: usize) -> usize
    ensures value { result ≡ longest_held longest }
    ensures few { result ≤ 65589 }
{
    if longest < SHORTEST {
        SHORTEST
    } else if longest > LONGEST {
        LONGEST
    } else {
        longest
    }
}

/// Returns a product.
#[tactic(auto, using(crate::proofs::Products::few))]
fn times(count: usize, bytes: usize) -> usize
    requires count { count ≤ 2048 }
    requires bytes { bytes ≤ 3000000 }
    ensures value { result ≡ count * bytes }
    ensures few { result ≤ 2048 * bytes }
    ensures fewer { count ≤ 32 → result ≤ 32 * bytes }
{
    count * bytes
}

/// Returns the bytes of a block with its head.
fn block_bytes(bytes: usize) -> usize
    requires { bytes ≤ 1000000 }
    ensures value { result ≡ block_bytes bytes }
    ensures few { result ≤ bytes + 31 }
{
    UNIT * ((bytes + 31) / UNIT)
}

/// Returns the most bytes of the tables, with the heads of their blocks.
fn tables_in_pool(limits: NodeLimits) -> usize
    ensures value { result ≡ tables_in_pool limits }
    ensures few { result ≤ 2000000 }
{
    let dated = limits.neighbours() + limits.routers() + 2 * limits.addresses();
    let blocks = BLOCKS + dated / UNIT + limits.names();
    table_bytes(limits)
        + 2 * UNIT * blocks
        + DESTINATION * (limits.redirects() + limits.destinations())
}

/// Returns the most bytes of the packets that wait, with the holes before them.
fn waiting_in_pool(limits: NodeLimits, longest: usize) -> usize
    requires { longest ≤ 65589 }
    ensures value { result ≡ waiting_in_pool limits longest }
    ensures few { result ≤ 5000000000 }
{
    let frames = times(2 * limits.waiting() + 1, block_bytes(longest));
    let places = block_bytes(PLACE * limits.waiting());
    times(limits.neighbours(), frames + places)
}

/// Returns the most records of one call.
fn records(limits: NodeLimits) -> usize
    ensures value { result ≡ records limits }
    ensures few { result ≤ 30000 }
{
    times(limits.neighbours(), limits.waiting() + 2)
        + 2 * limits.addresses()
        + limits.routers()
        + 16
}

/// Returns the most bytes of the queue, while one of its parts grows.
fn queue_in_pool(limits: NodeLimits) -> usize
    ensures value { result ≡ queue_in_pool limits }
    ensures few { result ≤ 12000000 }
{
    5 * RECORD * records(limits)
}

/// Returns the most bytes of the solicitations that one call sends.
fn solicitations_in_pool(limits: NodeLimits) -> usize
    ensures value { result ≡ solicitations_in_pool limits }
    ensures few { result ≤ 1000000 }
{
    2 * SOLICITATION * (limits.neighbours() + limits.addresses())
}

/// Returns how many search names enter by one message at most.
#[tactic(auto, using(crate::proofs::Products::part))]
fn names_entering(limits: NodeLimits, longest: usize) -> usize
    requires { longest ≤ 65589 }
    ensures value { result ≡ names_entering limits longest }
    ensures few { result ≤ 3000000 }
{
    let names = limits.names();
    times(names, longest + 3 * names) / (6 * names + 16)
}

/// Returns the most bytes of the copies of these names.
fn names_in_pool(limits: NodeLimits, longest: usize) -> usize
    requires { longest ≤ 65589 }
    ensures value { result ≡ names_in_pool limits longest }
    ensures few { result ≤ 400000000 }
{
    longest + (31 + 3 * PLACE) * names_entering(limits, longest)
}

/// Returns the most bytes that one call takes besides.
fn call_in_pool(limits: NodeLimits, longest: usize) -> usize
    requires { longest ≤ 65589 }
    ensures value { result ≡ call_in_pool limits longest }
    ensures few { result ≤ 500000000 }
{
    let places = PLACE * limits.waiting();
    CALL + 2 * block_bytes(longest)
        + block_bytes(times(limits.neighbours(), places))
        + 2 * block_bytes(places)
        + 5 * block_bytes(128 + 32 * limits.offers())
        + names_in_pool(limits, longest)
}
