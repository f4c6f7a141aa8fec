ghost use Rattle.std.specs.Prelude.{◌≡◌, ◌<◌, ◌≤◌, MatchOption, length, take, drop, true, false};
ghost use Rattle.std.specs.List.{list_all};
ghost use Rattle.nd_addr.specs.Bytes.{AreBytes};
ghost use Rattle.nd_decode.specs.Servers.{servers_in, is_server};
ghost use Rattle.nd_decode.specs.ServersKept.{servers_left};

use nd_addr::Addr;

/// The number of bytes that a server takes: an address (RFC 8106, section 5.1).
pub const SERVER_BYTES: usize = 16;

/// The addresses of DNS servers in some bytes, one after the other (RFC 8106, section 5.1).
#[derive(Clone, Copy, Debug)]
pub struct Servers<'a> {
    rest: &'a [u8],
}

impl<'a> Servers<'a> {
    /// Returns the addresses in these bytes, if each is one that a server can have (`is_server`). The bytes after the last whole one are not looked
    /// at.
    pub fn read(bytes: &'a [u8]) -> Option<Servers<'a>>
        ensures { MatchOption result (list_all is_server (servers_in bytes.entry.now) ≡ false)
            (λ s. (list_all is_server (servers_in bytes.entry.now) ≡ true) × (servers_left s ≡ servers_in bytes.entry.now)) }
    {
        let servers = Servers { rest: bytes };
        for server in servers {
            if !is_server(server) {
                return None;
            }
        }
        Some(servers)
    }

    /// Returns the number of addresses that are left.
    #[tactic(auto, using(crate::proofs::Addresses::servers_in_length))]
    pub fn len(&self) -> usize
        ensures { result ≡ length (servers_left self.now) }
    {
        self.rest.len() / SERVER_BYTES
    }
}

impl<'a> Iterator for Servers<'a> {
    type Item = Addr;

    ghost use Rattle.std.specs.Iterator.{YieldsFirst, item_count};
    ghost use Rattle.nd_decode.specs.ServersKept.{servers_left};

    ghost next_gives = { YieldsFirst servers_left };

    ghost remaining = { item_count servers_left };

    #[tactic(auto, using(crate::proofs::Addresses::servers_in_step, crate::proofs::Addresses::servers_in_stop))]
    fn next(&mut self) -> Option<Addr> {
        let (server, rest) = split_server(self.rest)?;
        self.rest = rest;
        Some(server)
    }
}

/// Returns the first address, and the bytes after it, if one is whole.
fn split_server(bytes: &[u8]) -> Option<(Addr, &[u8])>
    ensures { MatchOption result (length bytes.now < 16) (λ p. (16 ≤ length bytes.now)
        × (p.0.0 ≡ take 16 bytes.now) × (p.1.now ≡ drop 16 bytes.now)) }
{
    if bytes.len() < SERVER_BYTES {
        return None;
    }
    let (first, rest) = bytes.split_at(SERVER_BYTES);
    Some((Addr::at(first, 0), rest))
}

/// Returns true if a server can have the address: it is not multicast, unspecified or loopback (our choice; RFC 8106 leaves it open).
pub fn is_server(address: Addr) -> bool
    ensures value { result ≡ is_server address }
    ensures bytes { AreBytes 16 address.0 }
{
    let bytes = address.as_bytes();
    bytes[0] != 0xff && address != Addr::UNSPECIFIED && address != Addr::LOOPBACK
}
