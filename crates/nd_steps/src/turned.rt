//! The steps that time makes a node take. The definition is in `specs/Turned.antt`.

use nd_addr::Addr;
use std::alloc::Allocator;

/// A step that was due at a node.
#[derive(Drop)]
pub enum Turned<A: Allocator> {
    /// A router's lifetime ended, and it left the list (RFC 4861, section 6.3.5).
    EndedRouter(Addr),
    /// One of the node's own addresses ended, or its duplicate address detection took a step (RFC 4862, sections 5.4 and 5.5.4).
    Address(nd_slaac::Due),
    /// A neighbour is asked once more, or is gone (RFC 4861, sections 7.2.2 and 7.3.3).
    Neighbour(nd_neighbour::Due<A>),
    /// A Router Solicitation is sent (RFC 4861, section 6.3.7).
    SolicitedRouters,
    /// A Router Advertisement is sent (RFC 4861, section 6.2.4).
    RouterAdvertised,
    /// ReachableTime was drawn again (RFC 4861, section 6.3.4).
    Redrawn,
}
