//! Where packets to a destination go, as C sees it. The definitions are in `specs/Path.antt`.

ghost use Rattle.std.specs.Prelude.{◌≡◌};
ghost use Rattle.nd_c_types.specs.Path.{hop_number, lease_version, no_path, path_row, state_number};

use crate::header::{HOP_DIRECT, HOP_VIA};
use crate::neighbour::{mac_bytes, mac_flag, reachability_number};
use nd_addr::{Addr, Mac};
use nd_neighbour::Reachability;
use nd_out::Way;

/// Where packets to a destination go: `nd_path` of the header. Fields that the answer does not use are 0.
#[repr(C)]
#[derive(Clone, Copy, Drop)]
pub struct PathRow {
    /// The end of the lease, in milliseconds; the moment of the question where there is none.
    pub until: u64,
    /// The version of the lease, if the link-layer address is known.
    pub version: u64,
    /// The destination itself, or the router.
    pub next_hop: [u8; 16],
    /// Its link-layer address; zeros if it is not known.
    pub mac: [u8; 6],
    pub has_mac: u8,
    pub reserved: u8,
    /// ND_HOP_DIRECT or ND_HOP_VIA.
    pub hop: u32,
    /// ND_REACHABILITY_INCOMPLETE to ND_REACHABILITY_PROBE.
    pub state: u32,
}

impl PathRow {
    /// Returns the row of the path to `destination`, with the end of the lease in milliseconds and its version.
    pub fn of(
        destination: Addr,
        way: Way,
        state: Option<Reachability>,
        until: u64,
        version: u64,
    ) -> PathRow
        ensures { result ≡ path_row destination way state until version }
    {
        let state = state_number(state);
        match way {
            Way::NoRoute => PathRow {
                state,
                ..PathRow::none(until)
            },
            Way::To(to, mac) => {
                let next_hop = to.0;
                let bytes = mac_bytes(mac);
                PathRow {
                    version: lease_version(mac, version),
                    next_hop,
                    mac: bytes,
                    has_mac: mac_flag(mac),
                    hop: hop_number(to, destination),
                    state,
                    ..PathRow::none(until)
                }
            }
        }
    }

    /// Returns a row without a next hop.
    pub fn none(until: u64) -> PathRow
        ensures { result ≡ no_path until }
    {
        PathRow {
            until,
            version: 0,
            next_hop: [0; 16],
            mac: [0; 6],
            has_mac: 0,
            reserved: 0,
            hop: 0,
            state: 0,
        }
    }
}

/// Returns the version of a lease, or 0 if the link-layer address isn't known.
fn lease_version(mac: Option<Mac>, version: u64) -> u64
    ensures { result ≡ lease_version mac version }
{
    match mac {
        Some(_) => version,
        None => 0,
    }
}

/// Returns whether packets to `destination` go there directly or through a router.
fn hop_number(to: Addr, destination: Addr) -> u32
    ensures { result ≡ hop_number to destination }
{
    if to == destination {
        HOP_DIRECT
    } else {
        HOP_VIA
    }
}

/// Returns the number of the state of a neighbour, or 0.
fn state_number(state: Option<Reachability>) -> u32
    ensures { result ≡ state_number state }
{
    match state {
        Some(state) => reachability_number(state),
        None => 0,
    }
}
