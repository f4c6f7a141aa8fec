//! Decides what is for this node and what a router sends on.

ghost use Rattle.std.specs.Prelude.{◌≡◌, ◌↔◌, true, bytes_eq, slice_range};
ghost use Rattle.nd_addr.specs.Ip6.{PacketParts};
ghost use Rattle.nd_chronicle.specs.Happening.{Chronicle};
ghost use Rattle.nd_chronicle.specs.Hearing.{is_redirect};
ghost use Rattle.nd_chronicle.specs.Start.{Start};

use crate::node::Node;
use nd_addr::{Addr, Ip6, Mac, Role};
use nd_decode::Body;
use nd_forwarding::may_be_forwarded;
use nd_slaac::Counted;
use nd_steps::{is_awake, is_forbidden, is_to_nodes, is_to_routers, takes_target};
use nd_validity::Heard;
use rand_core::Rng;
use std::alloc::Allocator;

/// Returns true if a message is a Redirect.
fn is_redirect(body: &Body) -> bool
    ensures { result ≡ is_redirect body.now }
{
    match body {
        Body::Redirect(_) => true,
        Body::Rs | Body::Ra(_) | Body::Ns(_) | Body::Na(_) => false,
    }
}

/// Returns true if the Ethernet destination of a frame is `mac`.
fn is_to(frame: &[u8], mac: Mac) -> bool
    ensures { result ≡ bytes_eq (slice_range frame.now 0 6) mac.0 }
{
    match frame.get(..mac.0.len()) {
        Some(destination) => destination == mac.0.as_slice(),
        None => false,
    }
}

impl<R: Rng + Drop, A: Allocator + Clone> Node<R, A> {
    ghost use Rattle.nd_chronicle.specs.Hearing.{came_to, is_allowed, is_foreign, IsOurs, IsForUs, IsInTransit, IsPacketForUs};
    ghost use Rattle.nd_chronicle.specs.Reading.{own_address};
    ghost use Rattle.nd_chronicle.specs.OwnAddress.{is_up};
    ghost use Rattle.nd_steps.specs.OwnAddresses.{counting};
    ghost use Rattle.nd_node.specs.Hearing.{parts_read};
    ghost use Rattle.nd_node.specs.NodeKept.{Stands};
    ghost use Rattle.nd_node.specs.PathKept.{up_kept};

    /// Returns true if `destination` is the all-nodes address, at a router the all-routers address, one of the node's own addresses of the kind
    /// `counted`, or the solicited-node address of one of these (RFC 4291, section 2.8).
    #[inline(always)]
    fn is_ours(&self, counted: Counted, destination: Addr) -> bool
        ensures { (start : Start) (c : Chronicle) → Stands R.stream start self.now c → result ≡ true ↔ IsOurs start (counting counted c) destination }
    {
        nd_addr::laws::addresses_are_told_by_numbers();
        if is_to_nodes(destination) {
            return true;
        }
        if is_to_routers(self.role, destination) {
            return true;
        }
        self.addresses.is_to(counted, destination)
    }

    /// Returns false if `source` is one of the node's own addresses of the kind `counted`, and the policy `self` is asked for: what comes from it is of no
    /// other node.
    fn is_foreign(&self, counted: Counted, source: Addr) -> bool
        ensures { (start : Start) (c : Chronicle) → Stands R.stream start self.now c → result ≡ is_foreign start (counting counted c) source }
    {
        if !self.policies.own() {
            return true;
        }
        !self.addresses.counts(counted, source)
    }

    /// Returns the link-layer address whose options the node passes over: its own, with the policy `self`.
    pub(crate) fn own_mac(&self) -> Option<Mac>
        ensures { result ≡ own_address self.now.policies self.now.mac }
    {
        self.policies.own_address(self.mac)
    }

    /// Returns false for a message that the policies `unredirected` and `strict` drop.
    fn is_allowed(&self, heard: &Heard<'_>) -> bool
        ensures { result ≡ is_allowed self.now.policies heard.now.source heard.now.destination (parts_read self.now heard.now.message) }
    {
        if self.policies.unredirected() && is_redirect(&heard.message.body) {
            return false;
        }
        if !self.policies.strict() {
            return true;
        }
        if heard.source.is_loopback() {
            return false;
        }
        !is_forbidden(
            heard.source,
            heard.destination,
            &heard.message.body,
            heard.message.options,
            self.own_mac(),
        )
    }

    /// Returns true if a valid message, as the policies read it, is for this node.
    pub(crate) fn is_for_us(&self, heard: &Heard<'_>) -> bool
        ensures { (start : Start) (c : Chronicle) → Stands R.stream start self.now c → result ≡ true ↔ IsForUs start c heard.now.source heard.now.destination (parts_read self.now heard.now.message) }
    {
        let source = heard.source;
        let body = &heard.message.body;
        if !takes_target(&self.addresses, source, body) {
            return false;
        }
        if !is_awake(&self.addresses, source, body) {
            return false;
        }
        if !self.is_foreign(Counted::Assigned, source) {
            return false;
        }
        if !self.is_allowed(heard) {
            return false;
        }
        self.is_ours(Counted::Own, heard.destination)
    }

    /// Returns true if the link-local address is assigned.
    pub(crate) fn is_up(&self) -> bool
        ensures up { (start : Start) (c : Chronicle) → Stands R.stream start self.now c → result ≡ is_up start c }
        ensures value { result ≡ up_kept self.now }
    {
        let own = self.addresses.link_local();
        self.addresses.counts(Counted::Assigned, own)
    }

    /// Returns true if a packet that is no message of Neighbor Discovery is for this node: its destination is an assigned address, and no policy drops it.
    pub(crate) fn is_packet_for_us(&self, header: &Ip6) -> bool
        ensures { (start : Start) (c : Chronicle) (packet : PacketParts) → Stands R.stream start self.now c → packet.header ≡ header.now → result ≡ true ↔ IsPacketForUs start c packet }
    {
        if !self.is_up() {
            return false;
        }
        if !self.policies.is_allowed_packet(header.source) {
            return false;
        }
        self.is_ours(Counted::Assigned, header.destination)
    }

    /// Returns true if the packet of a frame may be sent on by the frame's Ethernet destination: with the policy `unicast` that is the node's own address.
    fn came_to(&self, frame: &[u8]) -> bool
        ensures { (start : Start) (c : Chronicle) → Stands R.stream start self.now c → result ≡ came_to start frame.now }
    {
        if !self.policies.unicast() {
            return true;
        }
        is_to(frame, self.mac)
    }

    /// Returns true if a packet that isn't for this node is to be sent on: the node is a router whose link-local address is assigned, the
    /// destination is no address of its own that is tentative still, and neither it nor the source keeps the packet on its link (RFC 4291, section
    /// 2.5.6). The policies `self` and `unicast` keep others from being sent on.
    pub(crate) fn is_in_transit(&self, frame: &[u8], header: &Ip6) -> bool
        ensures { (start : Start) (c : Chronicle) (packet : PacketParts) → Stands R.stream start self.now c → packet.header ≡ header.now → (IsPacketForUs start c packet → ⊥) → result ≡ true ↔ IsInTransit start c frame.now packet }
    {
        if self.role == Role::Host {
            return false;
        }
        if !self.came_to(frame) {
            return false;
        }
        if !self.is_foreign(Counted::Own, header.source) {
            return false;
        }
        if !self.is_up() {
            return false;
        }
        may_be_forwarded(header) && !self.addresses.counts(Counted::Own, header.destination)
    }
}
