//! Answers where packets go within the lease of their path (RFC 4861, section 7.3.3). The definitions are in `specs/PathKept.antt`.

ghost use Rattle.std.specs.Prelude.{◌≡◌, ℕ, List, Some};
ghost use Rattle.nd_chronicle.specs.Event as events;
ghost use Rattle.nd_out.specs.declared.out.Out.{Out as Report};
ghost use Rattle.nd_out.specs.declared.out.Way.TheVariants as ways;
ghost use Rattle.nd_node.specs.declared.resolve.Resolution.TheVariants as resolutions;
ghost use Rattle.nd_node.specs.EventKept.{AddsEvent};
ghost use Rattle.nd_node.specs.Resolve.{answer_by, with_answer};

use crate::node::Node;
use crate::resolve::Resolution;
use nd_addr::{Addr, Mac};
use nd_out::Way;
use rand_core::Rng;
use std::alloc::Allocator;

impl<R: Rng + Drop, A: Allocator + Clone> Node<R, A> {
    ghost use Rattle.nd_node.specs.PathKept.{InLease};

    /// Answers at `now`, in milliseconds, as `answer_path` does, if packets to `destination` go to `to` and to `mac` then, within a lease: a use of a
    /// neighbour that isn't STALE changes nothing but the moment up to which time has passed. It takes no memory.
    pub fn answer_leased(&mut self, now: u64, destination: Addr, to: Addr, mac: Mac) -> Resolution
        requires in_lease { InLease self.old now destination to mac }
        ensures adds { (outs : List (ℕ × Report A)) → AddsEvent R.stream self.old self.new outs (with_answer outs now destination result) now (events.Resolves destination) (answer_by result) }
        ensures answer { result ≡ resolutions.Path (ways.To to (Some mac)) }
        ensures clock { self.new ≡ record self.old { last = now } }
    {
        self.advance_to(now);
        Resolution::Path(Way::To(to, Some(mac)))
    }
}
