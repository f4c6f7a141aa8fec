ghost use Rattle.std.specs.Prelude.{◌≡◌, ◌++◌, IfOk, OnOk, map, option_map, string_bytes};
ghost use Rattle.nd_addr.specs.Number.{number_of, mac_at};
ghost use Rattle.nd_addr.specs.Text.{mac_text};
ghost use Rattle.nd_neighbour.specs.Left.{neighbours_left};
ghost use Rattle.nd_chronicle.specs.Shown.{neighbour_row, mac_or_none_text, reachability_text, router_or_host_text};

use crate::line::write_address;
use crate::row::{Row, add_row, write_word};
use nd_addr::Mac;
use nd_neighbour::{Neighbour, Neighbours, Reachability};
use std::alloc::{AllocError, Allocator};

impl Row for Neighbour {
    ghost use Rattle.nd_neighbour.specs.View.{seen_in};
    ghost use Rattle.nd_chronicle.specs.Shown.{neighbour_row};

    ghost shown = { λ n. neighbour_row (seen_in n) };

    fn write_row<A: Allocator>(&self, text: &mut String<A>) -> Result<(), AllocError> {
        text.push_str("neighbour ")?;
        write_address(text, self.addr)?;
        text.push_str(" ")?;
        write_mac_or_none(text, self.mac)?;
        write_word(text, reachability_word(self.state))?;
        write_word(text, router_or_host(self.router))
    }
}

/// Writes a link-layer address.
fn write_mac<A: Allocator>(text: &mut String<A>, mac: Mac) -> Result<(), AllocError>
    ensures { OnOk result (string_bytes text.new ≡ string_bytes text.old ++ mac_text (mac_at (number_of mac.0)).0) }
{
    let _bytes = mac.as_bytes();
    mac.write_text(text)
}

/// Writes a link-layer address, or `-` if none is known.
pub(crate) fn write_mac_or_none<A: Allocator>(
    text: &mut String<A>,
    mac: Option<Mac>,
) -> Result<(), AllocError>
    ensures { OnOk result (string_bytes text.new ≡ string_bytes text.old ++ mac_or_none_text (option_map (λ mac. number_of mac.0) mac)) }
{
    match mac {
        Some(mac) => write_mac(text, mac),
        None => text.push_str("-"),
    }
}

/// Returns the word for a reachability state (RFC 4861, section 7.3.2).
fn reachability_word(state: Reachability) -> &'static str
    ensures { result.now ≡ reachability_text state }
{
    match state {
        Reachability::Incomplete => "incomplete",
        Reachability::Reachable => "reachable",
        Reachability::Stale => "stale",
        Reachability::Delay => "delay",
        Reachability::Probe => "probe",
    }
}

/// Returns the word for IsRouter (RFC 4861, section 5.1).
fn router_or_host(router: bool) -> &'static str
    ensures { result.now ≡ router_or_host_text router }
{
    if router { "router" } else { "host" }
}

/// Returns the rows of neighbours, in their order. Returns an error if out of memory.
pub fn neighbour_rows<A: Allocator + Clone, B: Allocator>(
    alloc: &A,
    neighbours: Neighbours<'_, B>,
) -> Result<Vec<String<A>, A>, AllocError>
    ensures { IfOk result (λ rows. map string_bytes rows.items ≡ map neighbour_row (neighbours_left neighbours.entry)) }
{
    let mut rows = Vec::new(alloc.clone()?);
    for neighbour in neighbours {
        add_row(&mut rows, alloc, &neighbour)?;
    }
    Ok(rows)
}
