ghost use Rattle.std.specs.Prelude.{◌≡◌};

use crate::offer::Offer;
use indexmap::map::Values;
use nd_addr::Prefix;
use std::marker::Model;

/// The offers, in the order in which their prefixes were first put.
#[derive(Drop)]
pub struct OfferRows<'a> {
    rest: Values<'a, Prefix, Offer>,
}

impl<'a> Model for OfferRows<'a> {
    ghost use Rattle.std.specs.Prelude.{List};
    ghost use Rattle.nd_decode.specs.declared.prefix_info.PrefixInfo.{PrefixInfo};

    ghost Value = { List PrefixInfo };

    ghost view = { λ r. r.rest };
}

impl<'a> OfferRows<'a> {
    /// Returns the offers of these values.
    pub(crate) fn new(rest: Values<'a, Prefix, Offer>) -> Self
        ensures { result ≡ rest.entry }
    {
        OfferRows { rest }
    }
}

impl Iterator for OfferRows<'_> {
    type Item = Offer;

    ghost use Rattle.std.specs.Iterator.{YieldsFirst, item_count};

    ghost next_gives = { YieldsFirst (λ r. r) };

    ghost remaining = { item_count (λ r. r) };

    fn next(&mut self) -> Option<Offer> {
        let offer = self.rest.next()?;
        Some(*offer)
    }
}
