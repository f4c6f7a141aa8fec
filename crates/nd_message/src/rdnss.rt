ghost use Rattle.std.specs.Prelude.{◌↔◌, IsTrue, length};
ghost use Rattle.std.specs.List.{flat_map, AllByRecursion};
ghost use Rattle.std.specs.Option.{SomeIff};
ghost use Rattle.nd_addr.specs.Room.{HasRoom, Puts};
ghost use Rattle.nd_message.specs.Rdnss.{rdnss_piece, FitsServer, FitsRdnss};

use nd_addr::{Addr, put_bytes};
use nd_decode::{LONGEST_OPTION, OPTION_DATA_AT, OPTION_RECURSIVE_DNS_SERVER, is_server};
use std::alloc::Allocator;

/// The most servers of an option: of its bytes each server has 16 (RFC 4861, section 4.6; RFC 8106, section 5.1).
const MOST_SERVERS: usize = (LONGEST_OPTION - OPTION_DATA_AT) / 16;

/// The fewest servers of an option (RFC 8106, section 5.1).
const FEWEST_SERVERS: usize = 1;

/// Returns the number of bytes of a Recursive DNS Server, if these can be its servers.
pub(crate) fn rdnss_length(lifetime: u32, servers: &[Addr]) -> Option<usize>
    ensures { SomeIff result (FitsRdnss lifetime servers.now) (length (rdnss_piece lifetime servers.now)) }
{
    let _lifetime = lifetime;
    if servers.len() < FEWEST_SERVERS || servers.len() > MOST_SERVERS || !are_servers(servers) {
        return None;
    }
    Some(8 + 16 * servers.len())
}

/// Returns true if each address can be that of a server.
fn are_servers(servers: &[Addr]) -> bool
    ensures { IsTrue result ↔ AllByRecursion FitsServer servers.now }
{
    for server in servers {
        if !is_server(*server) {
            return false;
        }
    }
    true
}

/// Appends the piece of a Recursive DNS Server (RFC 8106, section 5.1).
pub(crate) fn put_rdnss<A: Allocator>(lifetime: u32, servers: &[Addr], out: &mut Vec<u8, A>)
    requires fits { FitsRdnss lifetime servers.now }
    requires room { HasRoom out.old (length (rdnss_piece lifetime servers.now)) }
    ensures { Puts out.old out.new (rdnss_piece lifetime servers.now) }
{
    let units = (1 + 2 * servers.len()) as u8;
    let [a, b, c, d] = lifetime.to_be_bytes();
    put_bytes(out, &[OPTION_RECURSIVE_DNS_SERVER, units, 0, 0, a, b, c, d]);
    put_servers(servers, out)
}

/// Appends addresses, one after the other.
fn put_servers<A: Allocator>(servers: &[Addr], out: &mut Vec<u8, A>)
    requires { HasRoom out.old (length (flat_map (λ s. s.0) servers.now)) }
    ensures { Puts out.old out.new (flat_map (λ s. s.0) servers.now) }
{
    for server in servers {
        put_bytes(out, &server.0);
    }
}
