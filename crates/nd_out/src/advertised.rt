//! What a router advertises, as it is shown.

ghost use Rattle.std.specs.Prelude.{◌≡◌, ◌++◌, IfOk, OnOk, map, string_bytes};
ghost use Rattle.nd_chronicle.specs.Shown.{lifetimes_text, offer_flags_text, offer_row, on_text};
ghost use Rattle.nd_out.specs.Advertised.{advertise_rows_of};

use crate::row::{Row, add_row, write_labelled, write_word};
use nd_addr::Role;
use nd_advertiser::{Offer, OfferRows};
use nd_decode::{PrefixInfo, prefix_flags_text};
use std::alloc::{AllocError, Allocator};

/// Writes the lifetimes of an advertised prefix, in seconds, each after a space.
fn write_lifetimes<A: Allocator>(text: &mut String<A>, info: PrefixInfo) -> Result<(), AllocError>
    ensures { OnOk result (string_bytes text.new ≡ string_bytes text.old ++ lifetimes_text info) }
{
    write_labelled(text, " ", u64::from(info.valid_lifetime))?;
    write_labelled(text, " ", u64::from(info.preferred_lifetime))
}

/// Writes its flags after a space.
fn write_flags<A: Allocator>(text: &mut String<A>, info: PrefixInfo) -> Result<(), AllocError>
    ensures { OnOk result (string_bytes text.new ≡ string_bytes text.old ++ offer_flags_text info) }
{
    write_word(text, prefix_flags_text(info.on_link, info.autonomous))
}

impl Row for Offer {
    ghost use Rattle.nd_chronicle.specs.Shown.{offer_row};

    ghost shown = { offer_row };

    fn write_row<A: Allocator>(&self, text: &mut String<A>) -> Result<(), AllocError> {
        let info = self.info();
        text.push_str("offer ")?;
        info.prefix.write_text(text)?;
        write_lifetimes(text, info)?;
        write_flags(text, info)
    }
}

/// The row that says if the router advertises.
#[derive(Clone, Copy)]
struct Advertising(bool);

impl Row for Advertising {
    ghost use Rattle.nd_chronicle.specs.Shown.{on_text};

    ghost shown = { λ a. on_text a.0 };

    fn write_row<A: Allocator>(&self, text: &mut String<A>) -> Result<(), AllocError> {
        text.push_str(if self.0 {
            "advertise on"
        } else {
            "advertise off"
        })
    }
}

/// Returns the rows of what a router advertises: `advertises`, and its offers, in their order. A host has none. Returns an error if out of memory.
pub fn advertise_rows<A: Allocator + Clone>(
    alloc: &A,
    role: Role,
    advertises: bool,
    offers: OfferRows<'_>,
) -> Result<Vec<String<A>, A>, AllocError>
    ensures { IfOk result (λ rows. map string_bytes rows.items ≡ advertise_rows_of role advertises offers.entry) }
{
    let mut rows = Vec::new(alloc.clone()?);
    match role {
        Role::Host => Ok(rows),
        Role::Router => {
            add_row(&mut rows, alloc, &Advertising(advertises))?;
            add_offers(&mut rows, alloc, offers)?;
            Ok(rows)
        }
    }
}

/// Appends the rows of offers. Returns an error if out of memory.
fn add_offers<A: Allocator + Clone>(
    rows: &mut Vec<String<A>, A>,
    alloc: &A,
    offers: OfferRows<'_>,
) -> Result<(), AllocError>
    ensures { OnOk result (map string_bytes rows.new.items ≡ map string_bytes rows.old.items ++ map offer_row offers.entry) }
{
    for offer in offers {
        add_row(rows, alloc, &offer)?;
    }
    Ok(())
}
