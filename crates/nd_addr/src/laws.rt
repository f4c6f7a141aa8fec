//! Laws of all addresses and of all frames, each the contract of a function that does nothing.

ghost use Rattle.std.specs.Prelude.{◌≡◌, ◌↔◌, ◌<◌, ◌≤◌, ◌^◌, ◌++◌, ℕ, List, Ok, length, nat_eq, slice_index};
ghost use Rattle.std.specs.Ordering.{nat_cmp};
ghost use Rattle.nd_addr.specs.Bytes.{AreBytes};
ghost use Rattle.nd_addr.specs.declared.ip6.Ip6.{Ip6};
ghost use Rattle.nd_addr.specs.Frame.{frame_of, headers_length, written_headers, written_frame};
ghost use Rattle.nd_addr.specs.Ip6.{FitsHeader, packet_of, written_packet};
ghost use Rattle.nd_addr.specs.Kind.{multicast_prefix, link_local_address, unspecified_address, loopback_address, all_nodes_address, all_routers_address};
ghost use Rattle.nd_addr.specs.Number.{number_of, addr_at, mac_at, Holds, holds};

use crate::addr::Addr;
use crate::mac::Mac;

/// The order of addresses is that of their numbers.
pub fn order_is_of_numbers(a: Addr, b: Addr)
    ensures { ⟦<Addr as Ord>⟧.cmp a b ≡ nat_cmp (number_of a.0) (number_of b.0) }
{
    let _a = a.as_bytes();
    let _b = b.as_bytes();
}

/// Addresses and their numbers determine each other: each address is that of its number, and each number that is low enough is that of its address.
pub fn addresses_are_told_by_numbers()
    ensures addr { (address : Addr) → AreBytes 16 address.0 → addr_at (number_of address.0) ≡ address }
    ensures mac { (mac : Mac) → AreBytes 6 mac.0 → mac_at (number_of mac.0) ≡ mac }
    ensures addr_number { (number : ℕ) → number < 2 ^ 128 → number_of (addr_at number).0 ≡ number }
    ensures mac_number { (number : ℕ) → number < 2 ^ 48 → number_of (mac_at number).0 ≡ number }
    ensures addr_bytes { (number : ℕ) → AreBytes 16 (addr_at number).0 }
    ensures mac_bytes { (number : ℕ) → AreBytes 6 (mac_at number).0 }
{}

/// The named addresses are those of the definitions.
pub fn named_addresses()
    ensures unspecified { Addr.UNSPECIFIED.0 ≡ unspecified_address }
    ensures loopback { Addr.LOOPBACK.0 ≡ loopback_address }
    ensures link_local { Addr.LINK_LOCAL.0 ≡ link_local_address }
    ensures all_nodes { Addr.ALL_NODES.0 ≡ all_nodes_address }
    ensures all_routers { Addr.ALL_ROUTERS.0 ≡ all_routers_address }
{}

/// The first byte of an address alone decides if it is multicast (RFC 4291, section 2.7).
pub fn multicast_by_first_byte()
    ensures says { (address : List ℕ) → AreBytes 16 address → Holds multicast_prefix address ↔ (slice_index address 0 ≡ 0xff) }
    ensures exactly { (address : List ℕ) → AreBytes 16 address → holds multicast_prefix address ≡ nat_eq (slice_index address 0) 0xff }
{}

/// What `write_frame` writes is read back as what was written.
pub fn written_reads_back()
    ensures frame { (destination source : Mac) (header : Ip6) (payload : List ℕ) → length destination.0 ≡ 6 → length source.0 ≡ 6
        → frame_of (written_frame destination source header payload) ≡ Ok (record { destination = destination; source = source; rest = written_packet header payload }) }
    // The same for any padding after the packet.
    ensures packet { (header : Ip6) (payload padding : List ℕ) → FitsHeader header → length payload ≤ 65535
        → packet_of (written_packet header payload ++ padding) ≡ Ok (record { header = header; payload = payload }) }
{}

/// A frame is what precedes its payload, which has a fixed length, and the payload.
pub fn headers_come_first()
    ensures frame { (destination source : Mac) (header : Ip6) (payload : List ℕ) → written_frame destination source header payload ≡ written_headers destination source header (length payload) ++ payload }
    ensures len { (destination source : Mac) (header : Ip6) (len : ℕ) → length destination.0 ≡ 6 → length source.0 ≡ 6 → FitsHeader header → length (written_headers destination source header len) ≡ headers_length }
{}
