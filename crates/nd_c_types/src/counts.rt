//! The numbers of entries of the tables, as C sees them. The definition is in `specs/Counts.antt`.

ghost use Rattle.std.specs.Prelude.{◌≡◌};
ghost use Rattle.nd_c_types.specs.Counts.{counts_row, shown};

use crate::limits::Limits;
use nd_node::{Counts, Limits as NodeLimits};

/// The number of entries of each table, and the limits: `nd_counts_row` of the header.
#[repr(C)]
#[derive(Clone, Copy, Drop)]
pub struct CountsRow {
    pub neighbours: u32,
    pub routers: u32,
    pub prefixes: u32,
    pub addresses: u32,
    pub servers: u32,
    pub names: u32,
    pub redirects: u32,
    pub offers: u32,
    pub routes: u32,
    pub reserved: u32,
    pub limits: Limits,
}

impl CountsRow {
    /// Returns the row of these numbers and limits.
    pub fn of(counts: &Counts, limits: NodeLimits) -> CountsRow
        ensures { result ≡ counts_row counts.now limits }
    {
        CountsRow {
            neighbours: shown(counts.neighbours),
            routers: shown(counts.routers),
            prefixes: shown(counts.prefixes),
            addresses: shown(counts.addresses),
            servers: shown(counts.servers),
            names: shown(counts.search_names),
            redirects: shown(counts.redirects),
            offers: shown(counts.offers),
            routes: shown(counts.routes),
            reserved: 0,
            limits: Limits::of(limits),
        }
    }
}

/// Returns a number, or the greatest one of 32 bits if it is greater. No table has so many entries.
fn shown(count: usize) -> u32
    ensures { result ≡ shown count }
{
    if count > u32::MAX as usize {
        u32::MAX
    } else {
        count as u32
    }
}
