//! A neighbour, as C sees it. The definition is in `specs/Neighbour.antt`.

ghost use Rattle.std.specs.Prelude.{◌≡◌};
ghost use Rattle.nd_c_types.specs.Neighbour.{mac_bytes, mac_flag, neighbour_row, reachability_number, reachable_left};

use crate::header::{
    REACHABILITY_DELAY, REACHABILITY_INCOMPLETE, REACHABILITY_PROBE, REACHABILITY_REACHABLE,
    REACHABILITY_STALE,
};
use nd_addr::Mac;
use nd_neighbour::{Neighbour, Reachability};

/// A neighbour: `nd_neighbour_row` of the header.
#[repr(C)]
#[derive(Clone, Copy, Drop)]
pub struct NeighbourRow {
    /// What is left of the time for which it is REACHABLE, in milliseconds; 0 in another state.
    pub reachable_left: u64,
    pub address: [u8; 16],
    /// Its link-layer address; zeros if it is not known.
    pub mac: [u8; 6],
    pub has_mac: u8,
    pub is_router: u8,
    /// ND_REACHABILITY_INCOMPLETE to ND_REACHABILITY_PROBE.
    pub state: u32,
    pub reserved: u32,
}

impl NeighbourRow {
    /// Returns the row of a neighbour.
    pub fn of(neighbour: &Neighbour) -> NeighbourRow
        ensures { result ≡ neighbour_row neighbour.now }
    {
        let mac = mac_bytes(neighbour.mac);
        NeighbourRow {
            reachable_left: reachable_left(neighbour.reachable_left),
            address: neighbour.addr.0,
            mac,
            has_mac: mac_flag(neighbour.mac),
            is_router: u8::from(neighbour.router),
            state: reachability_number(neighbour.state),
            reserved: 0,
        }
    }
}

/// Returns what is left of the time for which a neighbour is REACHABLE, in milliseconds, or 0.
fn reachable_left(left: Option<u64>) -> u64
    ensures { result ≡ reachable_left left }
{
    match left {
        Some(left) => left,
        None => 0,
    }
}

/// Returns the bytes of a link-layer address, or zeros.
pub(crate) fn mac_bytes(mac: Option<Mac>) -> [u8; 6]
    ensures { result ≡ mac_bytes mac }
{
    match mac {
        Some(mac) => mac.0,
        None => [0; 6],
    }
}

/// Returns 1 if a link-layer address is known, and 0 otherwise.
pub(crate) fn mac_flag(mac: Option<Mac>) -> u8
    ensures { result ≡ mac_flag mac }
{
    match mac {
        Some(_) => 1,
        None => 0,
    }
}

/// Returns the number of a reachability state.
pub(crate) fn reachability_number(state: Reachability) -> u32
    ensures { result ≡ reachability_number state }
{
    match state {
        Reachability::Incomplete => REACHABILITY_INCOMPLETE,
        Reachability::Reachable => REACHABILITY_REACHABLE,
        Reachability::Stale => REACHABILITY_STALE,
        Reachability::Delay => REACHABILITY_DELAY,
        Reachability::Probe => REACHABILITY_PROBE,
    }
}
