//! The limits of a node's tables, as C passes and sees them. The definitions are in `specs/Limits.antt`.

ghost use Rattle.std.specs.Prelude.{◌≡◌, ◌<◌};
ghost use Rattle.std.specs.Option.{SomeIff};
ghost use Rattle.nd_c_types.specs.Limits.{AreChosen, chosen, is_nothing, limits_at, limits_row, number_or};

use crate::bytes::u16_at;
use nd_node::Limits as NodeLimits;

/// The limits of a node's tables: `nd_limits` of the header.
#[repr(C)]
#[derive(Clone, Copy, Drop)]
pub struct Limits {
    /// 1 to 2048, or 0 for 512.
    pub neighbours: u16,
    /// 1 to 64, or 0 for 16.
    pub routers: u16,
    /// 1 to 64, or 0 for 64.
    pub prefixes: u16,
    /// 1 to 64, or 0 for 64.
    pub addresses: u16,
    /// 1 to 32, or 0 for 32.
    pub servers: u16,
    /// 1 to 32, or 0 for 32.
    pub names: u16,
    /// 1 to 64, or 0 for 64.
    pub redirects: u16,
    /// 1 to 256, or 0 for 256.
    pub destinations: u16,
    /// 1 to 16, or 0 for 16.
    pub offers: u16,
    /// 1 to 64, or 0 for 64.
    pub routes: u16,
    /// 1 to 8, or 0 for 3.
    pub waiting: u16,
    pub reserved: [u16; 5],
}

impl Limits {
    /// Reads the structure behind the first 32 of some bytes.
    pub(crate) fn read(bytes: &[u8]) -> Limits
        ensures { result ≡ limits_at bytes.now }
    {
        Limits {
            neighbours: u16_at(bytes, 32),
            routers: u16_at(bytes, 34),
            prefixes: u16_at(bytes, 36),
            addresses: u16_at(bytes, 38),
            servers: u16_at(bytes, 40),
            names: u16_at(bytes, 42),
            redirects: u16_at(bytes, 44),
            destinations: u16_at(bytes, 46),
            offers: u16_at(bytes, 48),
            routes: u16_at(bytes, 50),
            waiting: u16_at(bytes, 52),
            reserved: [
                u16_at(bytes, 54),
                u16_at(bytes, 56),
                u16_at(bytes, 58),
                u16_at(bytes, 60),
                u16_at(bytes, 62),
            ],
        }
    }

    /// Returns the limits that are asked for, the usual numbers in place of 0. Returns `None` if one is outside its range, or a reserved field is not
    /// 0.
    pub fn chosen(&self) -> Option<NodeLimits>
        ensures { SomeIff result (AreChosen self.now) (chosen self.now) }
    {
        if !is_nothing(&self.reserved) {
            return None;
        }
        let usual = NodeLimits::usual();
        let limits = usual
            .with_neighbours(number_or(self.neighbours, usual.neighbours()))?
            .with_routers(number_or(self.routers, usual.routers()))?
            .with_prefixes(number_or(self.prefixes, usual.prefixes()))?
            .with_addresses(number_or(self.addresses, usual.addresses()))?
            .with_servers(number_or(self.servers, usual.servers()))?
            .with_names(number_or(self.names, usual.names()))?
            .with_redirects(number_or(self.redirects, usual.redirects()))?
            .with_destinations(number_or(self.destinations, usual.destinations()))?
            .with_offers(number_or(self.offers, usual.offers()))?
            .with_routes(number_or(self.routes, usual.routes()))?
            .with_waiting(number_or(self.waiting, usual.waiting()))?;
        Some(limits)
    }

    /// Returns the structure of these limits.
    pub(crate) fn of(limits: NodeLimits) -> Limits
        ensures { result ≡ limits_row limits }
    {
        Limits {
            neighbours: limits.neighbours() as u16,
            routers: limits.routers() as u16,
            prefixes: limits.prefixes() as u16,
            addresses: limits.addresses() as u16,
            servers: limits.servers() as u16,
            names: limits.names() as u16,
            redirects: limits.redirects() as u16,
            destinations: limits.destinations() as u16,
            offers: limits.offers() as u16,
            routes: limits.routes() as u16,
            waiting: limits.waiting() as u16,
            reserved: [0; 5],
        }
    }
}

/// Returns true if each reserved field is 0.
fn is_nothing(reserved: &[u16; 5]) -> bool
    ensures { result ≡ is_nothing reserved.now }
{
    reserved[0] == 0 && reserved[1] == 0 && reserved[2] == 0 && reserved[3] == 0 && reserved[4] == 0
}

/// Returns a number, or the usual one in place of 0.
fn number_or(number: u16, usual: usize) -> u16
    requires { usual < 65536 }
    ensures { result ≡ number_or number usual }
{
    if number == 0 { usual as u16 } else { number }
}
