ghost use Rattle.std.specs.Prelude.{◌≡◌, ◌++◌, OnOk, string_bytes};
ghost use Rattle.ndpctl_check.specs.MessageText.{labelled, way_text, times_text, router_advertisement_text, neighbor_advertisement_text, redirect_text, body_text};

use crate::words::{write_number, write_three_flags};
use nd_addr::Addr;
use nd_decode::{Body, NeighborAdvertisement, Redirect, RouterAdvertisement, router_flags_text};
use std::alloc::{AllocError, Allocator};

/// Writes the name of a message, its source and its destination.
fn write_way<A: Allocator>(
    text: &mut String<A>,
    name: &str,
    source: Addr,
    destination: Addr,
) -> Result<(), AllocError>
    ensures { OnOk result (string_bytes text.new ≡ string_bytes text.old ++ name.now ++ way_text source destination) }
{
    text.push_str(name)?;
    source.write_text(text)?;
    text.push_str(" ")?;
    destination.write_text(text)
}

/// Writes the three times of a Router Advertisement.
fn write_times<A: Allocator>(
    text: &mut String<A>,
    advertisement: &RouterAdvertisement,
) -> Result<(), AllocError>
    ensures { OnOk result (string_bytes text.new ≡ string_bytes text.old ++ times_text advertisement.now) }
{
    write_number(text, " lifetime ", advertisement.router_lifetime as u32)?;
    write_number(text, " reachable ", advertisement.reachable_time)?;
    write_number(text, " retrans ", advertisement.retrans_timer)
}

/// Writes the fields of a Router Advertisement.
fn write_router_advertisement<A: Allocator>(
    text: &mut String<A>,
    advertisement: &RouterAdvertisement,
) -> Result<(), AllocError>
    ensures { OnOk result (string_bytes text.new ≡ string_bytes text.old ++ router_advertisement_text advertisement.now) }
{
    write_number(text, " hop ", advertisement.hop_limit as u32)?;
    text.push_str(" flags ")?;
    let RouterAdvertisement {
        managed,
        other,
        preference,
        ..
    } = *advertisement;
    text.push_str(router_flags_text(managed, other, preference))?;
    write_times(text, advertisement)
}

/// Writes an address after a word.
#[tactic(auto, unfolding(crate::specs::MessageText::labelled))]
fn write_address<A: Allocator>(
    text: &mut String<A>,
    word: &str,
    address: Addr,
) -> Result<(), AllocError>
    ensures { OnOk result (string_bytes text.new ≡ string_bytes text.old ++ labelled word.now address) }
{
    text.push_str(word)?;
    address.write_text(text)
}

/// Writes the fields of a Neighbor Advertisement.
fn write_neighbor_advertisement<A: Allocator>(
    text: &mut String<A>,
    advertisement: &NeighborAdvertisement,
) -> Result<(), AllocError>
    ensures { OnOk result (string_bytes text.new ≡ string_bytes text.old ++ neighbor_advertisement_text advertisement.now) }
{
    let NeighborAdvertisement {
        router,
        solicited,
        override_flag,
        target,
    } = *advertisement;
    text.push_str(" flags ")?;
    write_three_flags(text, router, solicited, override_flag)?;
    write_address(text, " target ", target)
}

/// Writes the fields of a Redirect.
fn write_redirect<A: Allocator>(text: &mut String<A>, redirect: &Redirect) -> Result<(), AllocError>
    ensures { OnOk result (string_bytes text.new ≡ string_bytes text.old ++ redirect_text redirect.now) }
{
    write_address(text, " target ", redirect.target)?;
    write_address(text, " destination ", redirect.destination)?;
    Ok(())
}

/// Writes a message without its options.
pub(crate) fn write_body<A: Allocator>(
    text: &mut String<A>,
    source: Addr,
    destination: Addr,
    body: &Body,
) -> Result<(), AllocError>
    ensures { OnOk result (string_bytes text.new ≡ string_bytes text.old ++ body_text source destination body.now) }
{
    match body {
        Body::Rs => write_way(text, "rs ", source, destination),
        Body::Ra(advertisement) => {
            write_way(text, "ra ", source, destination)?;
            write_router_advertisement(text, advertisement)
        }
        Body::Ns(solicitation) => {
            write_way(text, "ns ", source, destination)?;
            write_address(text, " target ", solicitation.target)
        }
        Body::Na(advertisement) => {
            write_way(text, "na ", source, destination)?;
            write_neighbor_advertisement(text, advertisement)
        }
        Body::Redirect(redirect) => {
            write_way(text, "redirect ", source, destination)?;
            write_redirect(text, redirect)
        }
    }
}
