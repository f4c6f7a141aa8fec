//! Reads the flag S of a Neighbor Advertisement. The definition is in `specs/Solicited.antt` of nd_chronicle.

ghost use Rattle.std.specs.Prelude.{◌≡◌};
ghost use Rattle.nd_chronicle.specs.Happening.{Chronicle};
ghost use Rattle.nd_chronicle.specs.Solicited.{is_asking};
ghost use Rattle.nd_chronicle.specs.Start.{Start};

use crate::node::Node;
use nd_addr::Addr;
use nd_decode::Body;
use nd_neighbour::Reachability;
use rand_core::Rng;
use std::alloc::Allocator;

/// Returns true if a solicitation of the node's is out for a neighbour in this state (RFC 4861, section 7.3.2).
fn is_asking(state: Reachability) -> bool
    ensures { result ≡ is_asking state }
{
    match state {
        Reachability::Incomplete | Reachability::Probe => true,
        Reachability::Reachable | Reachability::Stale | Reachability::Delay => false,
    }
}

impl<R: Rng + Drop, A: Allocator + Clone> Node<R, A> {
    ghost use Rattle.nd_addr.specs.Number.{number_of};
    ghost use Rattle.nd_chronicle.specs.Solicited.{asks, body_at};
    ghost use Rattle.nd_node.specs.NodeKept.{Stands};

    /// Returns true if the node asks for a neighbour at `now`, in milliseconds.
    fn asks(&self, now: u64, neighbour: Addr) -> bool
        ensures { (start : Start) (c : Chronicle) → Stands R.stream start self.now c → result ≡ asks c now (number_of neighbour.0) }
    {
        match self.neighbours.entry(now, neighbour) {
            Some(neighbour) => is_asking(neighbour.state),
            None => false,
        }
    }

    /// Reads the body of a message at `now`, in milliseconds: with the policy `asked` the flag S of an advertisement that answers nothing is read as clear.
    pub(crate) fn read_answer(&self, now: u64, body: &mut Body)
        ensures { (start : Start) (c : Chronicle) → Stands R.stream start self.now c → body.new ≡ body_at start c now body.old }
    {
        if !self.policies.asked() {
            return;
        }
        if let Body::Na(na) = body {
            if !self.asks(now, na.target) {
                na.solicited = false;
            }
        }
    }
}
