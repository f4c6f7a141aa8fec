//! A static route of a router, from and to C. The definitions are in `specs/Route.antt`.

ghost use Rattle.std.specs.Prelude.{◌≡◌, Some};
ghost use Rattle.nd_c_types.specs.Route.{hop_number, route_in, route_of, route_row, router_bytes};

use crate::header::{HOP_DIRECT, HOP_VIA};
use nd_addr::{Addr, Prefix};
use nd_forwarding::{KeptRoute, Route};

/// A static route: `nd_route_row` of the header.
#[repr(C)]
#[derive(Clone, Copy, Drop)]
pub struct RouteRow {
    pub prefix: [u8; 16],
    /// The router, with ND_HOP_VIA; otherwise it is ignored, and written as zeros.
    pub router: [u8; 16],
    /// The prefix's length, 0 to 128.
    pub bits: u32,
    /// ND_HOP_DIRECT or ND_HOP_VIA.
    pub hop: u32,
}

impl RouteRow {
    /// Returns the row of a static route.
    pub fn of(kept: &KeptRoute) -> RouteRow
        ensures value { result ≡ route_row kept.now }
        ensures back { route_of result ≡ Some kept.now }
    {
        let address = kept.prefix.address();
        let prefix = address.0;
        let router = router_bytes(kept.route);
        RouteRow {
            prefix,
            router,
            bits: u32::from(kept.prefix.length()),
            hop: hop_number(kept.route),
        }
    }

    /// Returns the static route that the row describes. The bits of the prefix past its length are cleared. Returns `None` if `bits` or `hop` is
    /// outside its range.
    pub fn route(&self) -> Option<KeptRoute>
        ensures { result ≡ route_of self.now }
    {
        let route = self.hop()?;
        if self.bits > 128 {
            return None;
        }
        let prefix = Prefix::new(Addr(self.prefix), self.bits as u8)?;
        Some(KeptRoute { prefix, route })
    }

    /// Returns where the row says that packets go, or `None` if `hop` is outside its range.
    fn hop(&self) -> Option<Route>
        ensures { result ≡ route_in self.now }
    {
        match self.hop {
            HOP_DIRECT => Some(Route::Direct),
            HOP_VIA => Some(Route::Via(Addr(self.router))),
            _ => None,
        }
    }
}

/// Returns the address of the router of a route, or zeros.
fn router_bytes(route: Route) -> [u8; 16]
    ensures { result ≡ router_bytes route }
{
    match route {
        Route::Direct => [0; 16],
        Route::Via(router) => router.0,
    }
}

/// Returns the number of a kind of hop.
fn hop_number(route: Route) -> u32
    ensures { result ≡ hop_number route }
{
    match route {
        Route::Direct => HOP_DIRECT,
        Route::Via(_) => HOP_VIA,
    }
}
