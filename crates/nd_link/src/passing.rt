//! Time passes at the nodes of a link. The definitions are in `specs/Passing.antt`.

ghost use Rattle.nd_link.specs.Due.{AreSettled};
ghost use Rattle.nd_link.specs.Passing.{OthersPass};

use nd_node::Node;
use rand_core::Rng;
use std::alloc::Allocator;

/// Lets time pass up to `now`, in milliseconds, at all nodes but the one of the number `but`, where nothing is due at them. It takes no memory.
pub(crate) fn pass_others<R: Rng + Drop, A: Allocator + Copy>(
    nodes: &mut [Node<R, A>],
    now: u64,
    but: usize,
)
    requires settled { AreSettled now nodes.old }
    ensures { OthersPass R.stream now but nodes.old nodes.new }
{
    for i in 0..nodes.len() {
        if i != but {
            nodes[i].pass(now);
        }
    }
}
