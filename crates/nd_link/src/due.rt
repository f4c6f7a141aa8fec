//! Which node of a link turns first. The definitions are in `specs/Due.antt`.

ghost use Rattle.std.specs.Prelude.{◌≡◌};
ghost use Rattle.nd_link.specs.Due.{FirstDue, earlier};

use nd_node::Node;
use rand_core::Rng;
use std::alloc::Allocator;

/// Returns the place of the node at which something is due first, and the moment, in milliseconds; of two nodes with the same moment, the one of
/// the lesser number. Returns `None` if there is no node.
pub(crate) fn first_due<R: Rng + Drop, A: Allocator + Copy>(
    nodes: &[Node<R, A>],
) -> Option<(usize, u64)>
    ensures { FirstDue R.stream nodes.now result }
{
    let mut first = None;
    for (i, node) in nodes.iter().enumerate() {
        first = earlier(first, i, node.next_due());
    }
    first
}

/// Returns the first of those so far or the next one, which is taken only if it is earlier.
fn earlier(first: Option<(usize, u64)>, place: usize, due: u64) -> Option<(usize, u64)>
    ensures { result ≡ earlier first place due }
{
    match first {
        Some((_, least)) if least <= due => first,
        _ => Some((place, due)),
    }
}
