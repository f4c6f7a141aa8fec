//! What the choice of next hops sees of a node.

ghost use Rattle.std.specs.Prelude.{◌≡◌, ℕ, Bool, List, length, slice_get, option_map};
ghost use Rattle.nd_nexthop.specs.DefaultRouter.{DefaultRouter};
ghost use Rattle.nd_nexthop.specs.DefaultRouterKept.{router_of};

use crate::default_router::Candidate;
use nd_addr::Addr;

/// What the choice of next hops sees of a node, at one moment. Its ghost members say the same to the definitions, so that a node implements it by
/// its tables.
pub trait View {
    /// The bytes are one of the node's own addresses.
    ghost own: { Self → List ℕ → Bool };

    /// The bytes are an address on the link.
    ghost linked: { Self → List ℕ → Bool };

    /// The default routers, in the order of their list.
    ghost candidates: { Self → List DefaultRouter };

    /// Returns true if an address is one of the node's own, tentative or assigned.
    fn is_own(&self, addr: Addr) -> bool
        ensures { result ≡ own self.now addr.0 };

    /// Returns true if an address is on the link: in fe80::/64 or in a prefix of the Prefix List (RFC 4861, sections 5.1 and 5.2).
    fn on_link(&self, addr: Addr) -> bool
        ensures { result ≡ linked self.now addr.0 };

    /// Returns the number of default routers.
    fn routers(&self) -> usize
        ensures { result ≡ length (candidates self.now) };

    /// Returns a default router by its number in the list, from 0 on.
    fn router(&self, i: usize) -> Option<Candidate>
        ensures { option_map router_of result ≡ slice_get (candidates self.now) i };
}
