//! The next hop of a packet, as C sees it. The definition is in `specs/NextHop.antt`.

ghost use Rattle.std.specs.Prelude.{◌≡◌};
ghost use Rattle.nd_c_types.specs.NextHop.{next_hop_row};

use crate::header::{HOP_DIRECT, HOP_VIA};
use nd_addr::Addr;
use nd_nexthop::Hop;

/// A next hop: `nd_next_hop_row` of the header.
#[repr(C)]
#[derive(Clone, Copy, Drop)]
pub struct NextHopRow {
    /// The destination itself, or the router.
    pub address: [u8; 16],
    /// ND_HOP_DIRECT or ND_HOP_VIA.
    pub hop: u32,
    pub reserved: u32,
}

impl NextHopRow {
    /// Returns the row of the next hop to `destination`, or `None` if there is none.
    pub fn of(hop: Hop, destination: Addr) -> Option<NextHopRow>
        ensures { result ≡ next_hop_row hop destination }
    {
        match hop {
            Hop::Direct => {
                let address = destination.0;
                Some(NextHopRow {
                    address,
                    hop: HOP_DIRECT,
                    reserved: 0,
                })
            }
            Hop::Via(router) => {
                let address = router.0;
                Some(NextHopRow {
                    address,
                    hop: HOP_VIA,
                    reserved: 0,
                })
            }
            Hop::NoRoute => None,
        }
    }
}
