//! The Redirect that a router sends (RFC 4861, sections 4.5 and 8.2). The definitions are in `specs/Redirect.antt`.

ghost use Rattle.std.specs.Prelude.{◌≡◌, ◌≤◌, IfOk, IfSome, map, take};
ghost use Rattle.nd_addr.specs.Bytes.{AreBytes};
ghost use Rattle.nd_message.specs.Owned.{said};
ghost use Rattle.nd_compose.specs.Redirect.{most_quoted, padded, redirect_frame, target_options};

use crate::frame_room::are_bytes;
use crate::long_frame::message_frame;
use crate::open_mac::OPEN_MAC;
use nd_addr::{Addr, Mac};
use nd_message::{Body, Opt, Redirect};
use nd_packet::Packet;
use std::alloc::{AllocError, Allocator};

/// The most bytes of the packet that a Redirect quotes: 1,280 bytes, less the headers, the fields, and the first bytes of the option (RFC 4861,
/// section 4.5).
const MOST_QUOTED: usize = 1192;

/// The same after a link-layer address (RFC 4861, section 4.5).
const MOST_QUOTED_BEHIND_ADDRESS: usize = 1184;

/// The most options of a Redirect.
const MOST_OPTIONS: usize = 2;

/// The unit of the lengths of options, in bytes (RFC 4861, section 4.6).
const OPTION_UNIT: usize = 8;

/// Returns the beginning of a packet, padded with zeros to a whole unit (RFC 4861, section 4.6.3). Returns an error if out of memory.
fn quoted<A: Allocator>(alloc: A, packet: &[u8], most: usize) -> Result<Vec<u8, A>, AllocError>
    ensures { IfOk result (λ bytes. bytes.items ≡ padded (take most packet.now)) }
{
    let taken = &packet[..most.min(packet.len())];
    let padding = (OPTION_UNIT - taken.len() % OPTION_UNIT) % OPTION_UNIT;
    let zeros = [0; OPTION_UNIT];
    let mut bytes = Vec::new(alloc);
    bytes.extend_from_slice(taken)?;
    bytes.extend_from_slice(&zeros[..padding])?;
    Ok(bytes)
}

/// Returns the most bytes of the packet that a Redirect quotes, with or without a link-layer address (RFC 4861, section 4.5).
fn most_quoted(target_mac: Option<Mac>) -> usize
    ensures value { result ≡ most_quoted (target_options target_mac) }
    ensures most { result ≤ 1192 }
    ensures bytes { IfSome target_mac (λ mac. AreBytes 6 mac.0) }
{
    match target_mac {
        Some(mac) => {
            let _bytes = mac.as_bytes();
            MOST_QUOTED_BEHIND_ADDRESS
        }
        None => MOST_QUOTED,
    }
}

/// Returns the options before the packet. Returns an error if out of memory.
fn first_options<A: Allocator>(
    alloc: A,
    target_mac: Option<Mac>,
) -> Result<Vec<Opt<A>, A>, AllocError>
    ensures { IfOk result (λ options. map said options.items ≡ target_options target_mac) }
{
    let mut options = Vec::with_capacity(alloc, MOST_OPTIONS)?;
    match target_mac {
        Some(mac) => {
            options.push(Opt::Tlla(mac))?;
            Ok(options)
        }
        None => Ok(options),
    }
}

/// Returns a Redirect from `source`, one of the node's own addresses, to `to`, the sender of a packet, with the link-layer address of the target,
/// if that is known. It quotes as much of the packet, from its IPv6 header on, as 1,280 bytes allow (RFC 4861, sections 4.5 and 8.2). Its Ethernet
/// destination is still open: the frame is addressed when it is sent. Returns an error if out of memory.
pub fn redirect_frame<A: Allocator + Clone>(
    alloc: &A,
    mac: Mac,
    source: Addr,
    to: Addr,
    target_mac: Option<Mac>,
    redirect: Redirect,
    packet: &[u8],
) -> Result<Packet<A>, AllocError>
    ensures { IfOk result (λ frame. frame ≡ redirect_frame mac source to target_mac redirect.target redirect.destination packet.now) }
{
    are_bytes(&mac, &redirect.target);
    are_bytes(&mac, &redirect.destination);
    let quoted = quoted(alloc.clone()?, packet, most_quoted(target_mac))?;
    let mut options = first_options(alloc.clone()?, target_mac)?;
    options.push(Opt::Redirected(quoted))?;
    let body = Body::Redirect(redirect);
    message_frame(alloc.clone()?, OPEN_MAC, mac, source, to, &body, &options)
}
