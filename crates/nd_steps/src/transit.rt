//! What a router does with a packet in transit (RFC 8200, section 3; RFC 4861, section 8.2).

ghost use Rattle.std.specs.Prelude.{◌≡◌, ◌≤◌, ◌+◌, ◌-◌, ℕ, IfOk, None, length};
ghost use Rattle.nd_addr.specs.Frame.{written_frame};
ghost use Rattle.nd_addr.specs.Ip6.{packet_parts};
ghost use Rattle.nd_addr.specs.Number.{number_of};
ghost use Rattle.nd_compose.specs.Frames.{open_mac};
ghost use Rattle.nd_compose.specs.Redirect.{redirect_frame};
ghost use Rattle.nd_neighbour.specs.TableKept.{Stands, entry_in};
ghost use Rattle.nd_chronicle.specs.Start.{Start, link_local};
ghost use Rattle.nd_chronicle.specs.Happening.{Chronicle};
ghost use Rattle.nd_chronicle.specs.Histories.{neighbour_history};
ghost use Rattle.nd_chronicle.specs.Forwarding.{better_hop_frame};
ghost use Rattle.nd_steps.specs.Transit.{mac_in};

use crate::packets::frame_to;
use nd_addr::{Addr, Ip6, Ip6Ref, Mac};
use nd_compose::{OPEN_MAC, redirect_frame};
use nd_message::Redirect;
use nd_neighbour::Cache;
use nd_packet::Packet;
use std::alloc::{AllocError, Allocator};

/// Returns the frame of a packet in transit as received, from the node's Ethernet address to one that is still open. The node reports the packet so
/// if it isn't sent on (RFC 2464, section 3). Returns an error if out of memory.
pub fn frame_as_it_came<A: Allocator>(
    alloc: A,
    mac: Mac,
    packet: &Ip6Ref<'_>,
) -> Result<Packet<A>, AllocError>
    requires { length packet.now.payload.now ≤ 65535 }
    ensures { IfOk result (λ frame. frame ≡ written_frame open_mac mac (packet_parts packet.now).header (packet_parts packet.now).payload) }
{
    frame_to(alloc, OPEN_MAC, mac, packet)
}

/// Returns the frame of a packet in transit as it is sent on, from the node's Ethernet address to one that is still open (RFC 8200, section 3). Its
/// hop limit is one lower, or 0 if it was 0. Returns an error if out of memory.
pub fn frame_sent_on<A: Allocator>(
    alloc: A,
    mac: Mac,
    packet: &Ip6Ref<'_>,
) -> Result<Packet<A>, AllocError>
    requires { length packet.now.payload.now ≤ 65535 }
    ensures { IfOk result (λ frame. frame ≡ written_frame open_mac mac (record (packet_parts packet.now).header { hop_limit = (packet_parts packet.now).header.hop_limit - 1 }) (packet_parts packet.now).payload) }
{
    // The hop limit of a packet that is sent on is at least 2.
    let header = Ip6 {
        hop_limit: packet.header.hop_limit.saturating_sub(1),
        ..packet.header
    };
    let next = Ip6Ref {
        header,
        payload: packet.payload,
    };
    frame_to(alloc, OPEN_MAC, mac, &next)
}

/// Returns the link-layer address of a neighbour, if it is known.
pub fn known_mac<A: Allocator>(neighbours: &Cache<A>, addr: Addr) -> Option<Mac>
    ensures { result ≡ mac_in (entry_in (number_of addr.0) neighbours.now.entries) }
{
    nd_addr::laws::addresses_are_told_by_numbers();
    let mac = neighbours.get(addr)?.mac()?;
    let _bytes = mac.as_bytes();
    Some(mac)
}

/// Returns the Redirect that announces a better first hop, `target`, to the sender of a packet, with the link-layer address of that hop if it is
/// known (RFC 4861, section 8.2). It is sent from `mac`, the node's Ethernet address, and `own`, its link-local one.
/// `bytes` is the packet as received, from its IPv6 header on, which the Redirect quotes. Returns an error if out of memory.
pub fn better_hop_frame<A: Allocator + Clone>(
    alloc: &A,
    mac: Mac,
    own: Addr,
    neighbours: &Cache<A>,
    target: Addr,
    packet: &Ip6Ref<'_>,
    bytes: &[u8],
) -> Result<Packet<A>, AllocError>
    ensures value { IfOk result (λ frame. frame ≡ redirect_frame mac own (packet_parts packet.now).header.source (mac_in (entry_in (number_of target.0) neighbours.now.entries)) target (packet_parts packet.now).header.destination bytes.now) }
    ensures by_history { IfOk result (λ frame. (start : Start) (moment : ℕ) (c : Chronicle) → Stands neighbours.now.entries (neighbour_history c) → start.mac ≡ mac → own ≡ link_local start → frame ≡ better_hop_frame start moment target (packet_parts packet.now) bytes.now c) }
{
    let target_mac = known_mac(neighbours, target);
    let redirect = Redirect {
        target,
        destination: packet.header.destination,
    };
    redirect_frame(
        alloc,
        mac,
        own,
        packet.header.source,
        target_mac,
        redirect,
        bytes,
    )
}
