ghost use Rattle.std.specs.Prelude.{length};
ghost use Rattle.std.specs.Option.{SomeIff};
ghost use Rattle.nd_addr.specs.Room.{HasRoom, Puts};
ghost use Rattle.nd_message.specs.Owned.{said};
ghost use Rattle.nd_message.specs.Spelling.{piece_of};
ghost use Rattle.nd_message.specs.Fitting.{FitsOption};

use crate::dnssl::{dnssl_length, put_dnssl};
use crate::link_layer_address::put_link_layer_address;
use crate::mtu::{mtu_length, put_mtu};
use crate::name::Name;
use crate::other::{is_other, put_other};
use crate::prefix_information::{prefix_length, put_prefix};
use crate::rdnss::{put_rdnss, rdnss_length};
use crate::redirected::{put_redirected, redirected_length};
use nd_addr::{Addr, Mac};
use nd_decode::{OPTION_SOURCE_LINK_LAYER_ADDRESS, OPTION_TARGET_LINK_LAYER_ADDRESS, PrefixInfo};
use std::alloc::Allocator;

/// An option that owns its bytes (RFC 4861, section 4.6; RFC 8106, section 5).
#[derive(Debug, Drop)]
pub enum Opt<A: Allocator> {
    /// Source Link-Layer Address: the sender's.
    Slla(Mac),
    /// Target Link-Layer Address: that of the message's target.
    Tlla(Mac),
    /// Prefix Information (RFC 4861, section 4.6.2).
    Prefix(PrefixInfo),
    /// Redirected Header: the beginning of the packet that was redirected, with the padding to a multiple of 8 bytes, 2,032 bytes at most.
    Redirected(Vec<u8, A>),
    /// The MTU of the link, in bytes.
    Mtu(u32),
    /// DNS servers, 1 to 127, each one that `is_server` takes.
    Rdnss {
        /// Their lifetime in seconds, all ones for infinity.
        lifetime: u32,
        /// Their addresses, in their order.
        servers: Vec<Addr, A>,
    },
    /// Search names, at least one, each one that `is_name` takes, and 2,032 bytes at most with the zero byte after each.
    Dnssl {
        /// Their lifetime in seconds, all ones for infinity.
        lifetime: u32,
        /// The names, in their order.
        names: Vec<Name<A>, A>,
    },
    /// Any other option: its type, and its bytes after the length, 8k - 2 of them, 6 to 2,038.
    Other(u8, Vec<u8, A>),
}

impl<A: Allocator> Default for Opt<A> {
    /// Returns an option that stands where there is none yet, in a list of a fixed length.
    fn default() -> Self {
        Opt::Mtu(0)
    }
}

impl<A: Allocator> Opt<A> {
    /// Returns the number of bytes of its piece, if some piece spells it.
    pub(crate) fn piece_length(&self) -> Option<usize>
        ensures { SomeIff result (FitsOption (said self.now)) (length (piece_of (said self.now))) }
    {
        match self {
            Opt::Slla(mac) => Some(mac.as_bytes().len() + 2),
            Opt::Tlla(mac) => Some(mac.as_bytes().len() + 2),
            Opt::Prefix(info) => Some(prefix_length(info)),
            Opt::Redirected(packet) => redirected_length(packet),
            Opt::Mtu(mtu) => Some(mtu_length(*mtu)),
            Opt::Rdnss { lifetime, servers } => rdnss_length(*lifetime, servers),
            Opt::Dnssl { lifetime, names } => dnssl_length(*lifetime, names),
            Opt::Other(kind, rest) => is_other(*kind, rest).then_some(rest.len() + 2),
        }
    }

    /// Appends its piece.
    pub(crate) fn put<B: Allocator>(&self, out: &mut Vec<u8, B>)
        requires fits { FitsOption (said self.now) }
        requires room { HasRoom out.old (length (piece_of (said self.now))) }
        ensures { Puts out.old out.new (piece_of (said self.now)) }
    {
        match self {
            Opt::Slla(mac) => { put_link_layer_address(OPTION_SOURCE_LINK_LAYER_ADDRESS, mac, out) }
            Opt::Tlla(mac) => { put_link_layer_address(OPTION_TARGET_LINK_LAYER_ADDRESS, mac, out) }
            Opt::Prefix(info) => put_prefix(info, out),
            Opt::Redirected(packet) => put_redirected(packet, out),
            Opt::Mtu(mtu) => put_mtu(*mtu, out),
            Opt::Rdnss { lifetime, servers } => put_rdnss(*lifetime, servers, out),
            Opt::Dnssl { lifetime, names } => put_dnssl(*lifetime, names, out),
            Opt::Other(kind, rest) => put_other(*kind, rest, out),
        }
    }
}
