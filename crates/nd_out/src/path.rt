//! The texts of where packets go, and of a link-layer address for which a caller waited.

ghost use Rattle.std.specs.Prelude.{◌≡◌, ◌++◌, OnOk, Some, codes, string_bytes};
ghost use Rattle.std.specs.Option.{option_map};
ghost use Rattle.nd_addr.specs.Number.{number_of};
ghost use Rattle.nd_addr.specs.Text.{address_text};
ghost use Rattle.nd_chronicle.specs.Happening.{Path, Resolved, WayTo};
ghost use Rattle.nd_chronicle.specs.Told.{lines_of, path_text};
ghost use Rattle.nd_out.specs.Out.{way_of};

use crate::line::{write_address, write_moment};
use crate::neighbours::write_mac_or_none;
use crate::out::Way;
use nd_addr::{Addr, Mac};
use std::alloc::{AllocError, Allocator};

/// Writes a neighbour and its link-layer address, if it is known.
fn write_hop<A: Allocator>(
    text: &mut String<A>,
    neighbour: Addr,
    mac: Option<Mac>,
) -> Result<(), AllocError>
    ensures { OnOk result (string_bytes text.new ≡ string_bytes text.old ++ path_text (WayTo (number_of neighbour.0) (option_map (λ m. number_of m.0) mac))) }
{
    write_address(text, neighbour)?;
    text.push_str(" ")?;
    write_mac_or_none(text, mac)
}

/// Writes the destination that was asked for.
fn write_destination<A: Allocator>(
    text: &mut String<A>,
    destination: Addr,
) -> Result<(), AllocError>
    ensures { OnOk result (string_bytes text.new ≡ string_bytes text.old ++ codes "path " ++ address_text destination.0 ++ codes " ") }
{
    text.push_str("path ")?;
    destination.write_text(text)?;
    text.push_str(" ")
}

/// Writes the neighbour that packets go to, or that there is no next hop for them.
fn write_end<A: Allocator>(text: &mut String<A>, way: Way) -> Result<(), AllocError>
    ensures { OnOk result (string_bytes text.new ≡ string_bytes text.old ++ path_text (way_of way)) }
{
    match way {
        Way::NoRoute => text.push_str("no-route"),
        Way::To(neighbour, mac) => write_hop(text, neighbour, mac),
    }
}

/// Writes the line of where packets to a destination go.
pub(crate) fn write_path<A: Allocator>(
    text: &mut String<A>,
    at: u64,
    destination: Addr,
    way: Way,
) -> Result<(), AllocError>
    ensures { OnOk result (string_bytes text.new ≡ string_bytes text.old ++ lines_of (at, Path destination (way_of way))) }
{
    write_moment(text, at)?;
    write_destination(text, destination)?;
    write_end(text, way)?;
    text.push_str("\n")
}

/// Writes the line of a link-layer address for which a caller waited.
pub(crate) fn write_resolved<A: Allocator>(
    text: &mut String<A>,
    at: u64,
    addr: Addr,
    mac: Mac,
) -> Result<(), AllocError>
    ensures { OnOk result (string_bytes text.new ≡ string_bytes text.old ++ lines_of (at, Resolved (number_of addr.0) (number_of mac.0))) }
{
    write_moment(text, at)?;
    text.push_str("resolved ")?;
    write_hop(text, addr, Some(mac))?;
    text.push_str("\n")
}
