use nd_addr::{Addr, Mac, Why};
use nd_decode::Body;
use nd_packet::Packet;
use std::alloc::Allocator;

/// Why a packet was lost.
#[derive(Clone, Copy, Debug, PartialEq, Eq)]
pub enum Loss {
    /// Its neighbour can't be reached (RFC 4861, section 7.2.2).
    Unreachable,
    /// A later one replaced it among those that wait for an address (RFC 4861, section 7.2.2).
    Replaced,
    /// A command removed its neighbour.
    Forgotten,
    /// There is no next hop for it (RFC 4861, section 5.2).
    NoRoute,
    /// Its hop limit doesn't allow another hop, and it was in transit (RFC 8200, section 3).
    HopLimit,
}

/// The tables that have a limit, in the order in which they are asked for room.
#[derive(Clone, Copy, Debug, PartialEq, Eq)]
pub enum Limit {
    /// The neighbours (RFC 4861, section 5.1).
    Neighbours,
    /// The default routers (RFC 4861, section 5.1).
    Routers,
    /// The prefixes on the link (RFC 4861, section 5.1).
    Prefixes,
    /// The node's own addresses (RFC 4862, section 5).
    Addresses,
    /// The DNS servers (RFC 8106, section 6.1).
    Servers,
    /// The search names (RFC 8106, section 6.1).
    Names,
    /// The prefixes that a router advertises (RFC 4861, section 6.2.1, AdvPrefixList).
    Offers,
    /// The static routes of a router.
    StaticRoutes,
}

/// Why an event was refused.
#[derive(Clone, Copy, Debug, PartialEq, Eq)]
pub enum Refusal {
    /// It is a command of a router, and the node is a host.
    WrongRole,
    /// The link-local address of the node is a duplicate (RFC 4862, section 5.4.5).
    Disabled,
    /// An address was given by hand, or a path was asked for, before the link-local address of the node was assigned (RFC 4862, section 5.4).
    Tentative,
    /// The source of a packet is not an assigned address of the node.
    NotOurs(Addr),
    /// A packet is longer than the MTU of the link (RFC 8200, section 5).
    TooLong,
    /// A table would pass its limit.
    Full(Limit),
}

/// Where packets to a destination go (RFC 4861, section 5.2).
#[derive(Clone, Copy, Debug, PartialEq, Eq)]
pub enum Way {
    /// There is no next hop for them.
    NoRoute,
    /// They go to this neighbour, or to this multicast address, at this link-layer address, if it is known.
    To(Addr, Option<Mac>),
}

/// What a node reports of what happened at it.
#[derive(Drop)]
pub enum Out<A: Allocator> {
    /// A frame was sent.
    Frame(Packet<A>),
    /// A valid message was heard. Its options aren't reported.
    Heard {
        /// The source of its packet.
        source: Addr,
        /// The destination of its packet.
        destination: Addr,
        /// What it says.
        body: Body,
    },
    /// A frame was dropped.
    Dropped(Why),
    /// A packet that is no message of Neighbor Discovery goes to the upper layer, from its IPv6 header to the end of its payload.
    Up(Vec<u8, A>),
    /// Another node has one of the node's own addresses as well (RFC 4862, section 5.4.5).
    Duplicate(Addr),
    /// An address was assigned to the interface (RFC 4862, section 5.4).
    Assigned(Addr),
    /// The valid lifetime of an address ended (RFC 4862, section 5.5.4), or the address was withdrawn.
    EndedAddress(Addr),
    /// A router left the list (RFC 4861, section 6.3.5).
    EndedRouter(Addr),
    /// The address of a neighbour was not resolved, or the neighbour was not reached (RFC 4861, sections 7.2.2 and 7.3.3).
    Failed(Addr),
    /// A packet was lost.
    Lost(Loss, Packet<A>),
    /// A caller that keeps its packets learned where those to a destination go.
    Path(Addr, Way),
    /// The link-layer address of a neighbour is known for which such a caller waited (RFC 4861, section 7.2.2).
    Resolved(Addr, Mac),
    /// These rows of a table were shown.
    Shown(Vec<String<A>, A>),
    /// An event was refused.
    Refused(Refusal),
    /// Parts of a message were passed over, for which this table has no room.
    Ignored(Limit),
    /// An event was too late: time had passed up to this moment, in milliseconds.
    Past(u64),
}
