//! What the node reports of what was due.

ghost use Rattle.std.specs.Prelude.{◌≡◌, ◌+◌, ◌++◌, ◌∷◌, [], ◌≤◌, None, IfSome, length, map};
ghost use Rattle.nd_addr.specs.Number.{number_of, addr_at, mac_at};
ghost use Rattle.nd_compose.specs.Frames.{detection_frame, resolution_frame, probe_frame};
ghost use Rattle.nd_advertiser.specs.Contents.{contents_length};
ghost use Rattle.nd_compose.specs.Room.{HasRoomFor};
ghost use Rattle.nd_chronicle.specs.Due.{RouterAdvertises};
ghost use Rattle.nd_chronicle.specs.Happening.{Lost, Neighbour, Sent, Unreachable};
ghost use Rattle.nd_neighbour.specs.History.{Failed, Forgot};
ghost use Rattle.nd_out.specs.Out.{happening, loss_of};
ghost use Rattle.nd_packet.specs.Waiting.{max_waiting};
ghost use Rattle.nd_steps.specs.Turned.{what_of};
ghost use Rattle.nd_steps.specs.DueRows.{advertised_by, frame_in, told_of_address, told_of_neighbour, told_of};
ghost use Rattle.nd_steps.specs.Outputs.{SendsFrame, at_moment, happenings};
ghost use Rattle.nd_slaac.specs.View as addresses;
ghost use Rattle.nd_neighbour.specs.View as neighbours;

use crate::router_tables::RouterTables;
use crate::turned::Turned;
use nd_addr::{Addr, Mac};
use nd_compose::FrameRoom;
use nd_out::{Loss, Out, Reports};
use nd_packet::{MAX_WAITING, Packet, Packets};
use std::alloc::Allocator;

/// The most rows that a turn reports: a failure, and the packets that waited.
pub const MOST_TOLD: usize = MAX_WAITING + 1;

/// Returns the solicitation of duplicate address detection for an address.
fn detection<A: Allocator>(room: FrameRoom<A>, mac: Mac, addr: Addr) -> Packet<A>
    ensures { result ≡ detection_frame mac (addr_at (number_of addr.0)) }
{
    nd_addr::laws::addresses_are_told_by_numbers();
    let _bytes = addr.as_bytes();
    room.detection(mac, addr)
}

/// Returns the solicitation that asks all nodes for a neighbour's link-layer address.
fn resolution<A: Allocator>(room: FrameRoom<A>, mac: Mac, own: Addr, addr: Addr) -> Packet<A>
    ensures { result ≡ resolution_frame mac own (addr_at (number_of addr.0)) }
{
    nd_addr::laws::addresses_are_told_by_numbers();
    let _bytes = addr.as_bytes();
    room.resolution(mac, own, addr)
}

/// Returns the solicitation that probes whether a neighbour is still reachable.
fn probe<A: Allocator>(room: FrameRoom<A>, mac: Mac, own: Addr, to: Mac, addr: Addr) -> Packet<A>
    ensures { result ≡ probe_frame mac own (mac_at (number_of to.0)) (addr_at (number_of addr.0)) }
{
    nd_addr::laws::addresses_are_told_by_numbers();
    let _bytes = addr.as_bytes();
    let _to = to.as_bytes();
    room.probe(mac, own, to, addr)
}

/// Reports that one frame is sent. It takes no memory: the caller has made room.
fn tell_frame<A: Allocator>(outs: &mut Reports<A>, at: u64, frame: Packet<A>)
    requires { 1 ≤ outs.old.free }
    ensures told { happenings outs.new.items ≡ happenings outs.old.items ++ at_moment at (Sent frame ∷ []) }
    ensures sends { SendsFrame outs.old.items outs.new.items }
{
    outs.push_reserved((at, Out::Frame(frame)));
}

/// Reports a step that was due for one of the node's own addresses. Returns the room, unless a frame was written into it.
fn tell_address<A: Allocator>(
    outs: &mut Reports<A>,
    at: u64,
    room: FrameRoom<A>,
    mac: Mac,
    own: Addr,
    due: nd_slaac::Due,
) -> Option<FrameRoom<A>>
    requires { 1 ≤ outs.old.free }
    ensures told { happenings outs.new.items ≡ happenings outs.old.items ++ at_moment at (told_of_address mac own (addresses.falls_of due) ∷ []) }
    ensures same { IfSome result (λ rest. rest ≡ room) }
    ensures sends { result ≡ None → SendsFrame outs.old.items outs.new.items }
{
    let _own = own;
    match due {
        nd_slaac::Due::End(addr) => {
            outs.push_reserved((at, Out::EndedAddress(addr)));
            Some(room)
        }
        nd_slaac::Due::Solicit(addr) => {
            tell_frame(outs, at, detection(room, mac, addr));
            None
        }
        nd_slaac::Due::Assign(addr) => {
            outs.push_reserved((at, Out::Assigned(addr)));
            Some(room)
        }
    }
}

/// Reports at `at`, in milliseconds, that the packets that waited for a neighbour are lost, with the reason `why`, the oldest first. It takes no
/// memory: the caller has made room.
pub fn tell_lost<A: Allocator>(outs: &mut Reports<A>, at: u64, why: Loss, packets: Packets<A>)
    requires { length packets ≤ outs.old.free }
    ensures told { happenings outs.new.items ≡ happenings outs.old.items ++ at_moment at (map (λ packet. Lost (loss_of why) packet) packets) }
    ensures len { outs.old.free ≤ outs.new.free + length packets }
{
    let mut rest = packets;
    while let Some(packet) = rest.take() {
        outs.push_reserved((at, Out::Lost(why, packet)));
    }
}

/// Reports at `at`, in milliseconds, that a neighbour failed, and that the packets that waited for it are lost, the oldest first (RFC 4861, sections 7.2.2 and
/// 7.3.3). It takes no memory: the caller has made room.
pub(crate) fn tell_failure<A: Allocator>(
    outs: &mut Reports<A>,
    at: u64,
    addr: Addr,
    packets: Packets<A>,
)
    requires { length packets + 1 ≤ outs.old.free }
    ensures told { happenings outs.new.items ≡ happenings outs.old.items ++ at_moment at (Neighbour (number_of addr.0) (Forgot Failed) ∷ map (λ packet. Lost Unreachable packet) packets) }
    ensures len { outs.old.free ≤ outs.new.free + (length packets + 1) }
{
    outs.push_reserved((at, Out::Failed(addr)));
    tell_lost(outs, at, Loss::Unreachable, packets);
}

/// Reports a step that was due for a neighbour. Returns the room, unless a frame was written into it.
fn tell_neighbour<A: Allocator>(
    outs: &mut Reports<A>,
    at: u64,
    room: FrameRoom<A>,
    mac: Mac,
    own: Addr,
    due: nd_neighbour::Due<A>,
) -> Option<FrameRoom<A>>
    requires { max_waiting + 1 ≤ outs.old.free }
    ensures told { happenings outs.new.items ≡ happenings outs.old.items ++ at_moment at (told_of_neighbour mac own (neighbours.falls_of due)) }
    ensures same { IfSome result (λ rest. rest ≡ room) }
    ensures sends { result ≡ None → SendsFrame outs.old.items outs.new.items }
{
    match due {
        nd_neighbour::Due::Multicast(addr) => {
            tell_frame(outs, at, resolution(room, mac, own, addr));
            None
        }
        nd_neighbour::Due::Unicast(addr, to) => {
            tell_frame(outs, at, probe(room, mac, own, to, addr));
            None
        }
        nd_neighbour::Due::Failed(addr, packets) => {
            let _few = packets.len();
            tell_failure(outs, at, addr, packets);
            Some(room)
        }
        nd_neighbour::Due::Aged(_) => Some(room),
    }
}

/// Reports that an interface with these addresses sends what it advertises, if it does. Returns the room, unless a frame was written into it.
fn tell_contents<A: Allocator>(
    outs: &mut Reports<A>,
    at: u64,
    room: FrameRoom<A>,
    mac: Mac,
    own: Addr,
    router: &RouterTables<A>,
) -> Option<FrameRoom<A>>
    requires place { 1 ≤ outs.old.free }
    requires long { HasRoomFor room (contents_length router.now.advertiser.limit) }
    ensures told { happenings outs.new.items ≡ happenings outs.old.items ++ at_moment at (advertised_by (frame_in mac own router.now)) }
    ensures same { IfSome result (λ rest. rest ≡ room) }
    ensures sends { result ≡ None → SendsFrame outs.old.items outs.new.items }
{
    let Some(contents) = router.advertiser.contents(mac) else {
        return Some(room);
    };
    let options = contents.options.as_slice();
    let frame = room.router_advertisement(mac, own, &contents.body, options);
    tell_frame(outs, at, frame);
    None
}

/// Reports at `at`, in milliseconds, that a Router Advertisement is sent, if there is one. It takes no memory: the caller has made room.
pub fn tell_advertisement<A: Allocator>(
    outs: &mut Reports<A>,
    at: u64,
    advertisement: Option<Packet<A>>,
)
    requires { 1 ≤ outs.old.free }
    ensures { happenings outs.new.items ≡ happenings outs.old.items ++ at_moment at (advertised_by advertisement) }
{
    match advertisement {
        Some(packet) => outs.push_reserved((at, Out::Frame(packet))),
        None => {}
    }
}

/// Reports what was due at `at`, in milliseconds. `mac` and `own` are the node's link-layer address and its link-local address, and `router` what
/// it advertises. Returns the room, unless a frame was written into it. It takes no memory: the caller has made room, for the advertisement too if
/// one is due.
pub fn tell<A: Allocator>(
    outs: &mut Reports<A>,
    at: u64,
    room: FrameRoom<A>,
    mac: Mac,
    own: Addr,
    router: &RouterTables<A>,
    turned: Turned<A>,
) -> Option<FrameRoom<A>>
    requires places { max_waiting + 1 ≤ outs.old.free }
    requires long { what_of turned ≡ RouterAdvertises → HasRoomFor room (contents_length router.now.advertiser.limit) }
    ensures told { happenings outs.new.items ≡ happenings outs.old.items ++ at_moment at (told_of mac own (advertised_by (frame_in mac own router.now)) (what_of turned)) }
    ensures same { IfSome result (λ rest. rest ≡ room) }
    ensures sends { result ≡ None → SendsFrame outs.old.items outs.new.items }
{
    match turned {
        Turned::EndedRouter(addr) => {
            outs.push_reserved((at, Out::EndedRouter(addr)));
            Some(room)
        }
        Turned::Address(due) => tell_address(outs, at, room, mac, own, due),
        Turned::Neighbour(due) => tell_neighbour(outs, at, room, mac, own, due),
        Turned::SolicitedRouters => {
            tell_frame(outs, at, room.router_solicitation(mac, own));
            None
        }
        Turned::RouterAdvertised => tell_contents(outs, at, room, mac, own, router),
        Turned::Redrawn => Some(room),
    }
}
