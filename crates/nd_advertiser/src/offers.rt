ghost use Rattle.std.specs.Prelude.{◌≡◌, ◌≤◌, [], length, IfOk, OnOk, OnErr};
ghost use Rattle.nd_advertiser.specs.Offers.{answer_to, max_offers};
ghost use Rattle.nd_advertiser.specs.Calls.{prefixes_in, with_offer};

use crate::offer::Offer;
use crate::offer_rows::OfferRows;
use indexmap::IndexMap;
use nd_addr::Prefix;
use std::alloc::{AllocError, Allocator};
use std::hash::{BuildHasherDefault, FoldHasher};
use std::marker::Model;

/// The greatest limit on the prefixes that are advertised (our choice).
pub const MAX_OFFERS: usize = 16;

/// There is no room: it would be one prefix too many. Nothing has changed then.
#[derive(Clone, Copy, Debug, PartialEq, Eq)]
pub struct Full;

/// The prefixes that a router advertises (RFC 4861, section 6.2.1, AdvPrefixList), in the order in which they were first put.
#[derive(Drop)]
pub(crate) struct Offers<A: Allocator> {
    limit: usize,
    entries: IndexMap<Prefix, Offer, BuildHasherDefault<FoldHasher>, A>,
}

impl<A: Allocator> Model for Offers<A> {
    ghost use Rattle.std.specs.Prelude.{◌≡◌, ◌≤◌, ◌+◌, length, map};
    ghost use Rattle.std.specs.List.{AllByRecursion};
    ghost use Rattle.indexmap.specs.IndexMap.{spare};
    ghost use Rattle.nd_advertiser.specs.Offers.{max_offers};
    ghost use Rattle.nd_advertiser.specs.OffersKept.{Offers};

    ghost Value = { Offers };

    ghost view = { λ o. record { limit = o.limit; offers = map (λ e. e.1) o.entries.entries } };

    // Each is under its prefix, they are no more than the limit, and there is room for as many.
    ghost invariant = { λ o. AllByRecursion (λ e. e.0 ≡ e.1.prefix) o.entries.entries × (length o.entries.entries ≤ o.limit) × (o.limit ≤ length o.entries.entries + spare o.entries) × (o.limit ≤ max_offers) };
}

impl<A: Allocator + Copy> Offers<A> {
    /// Returns an empty list, with room for `limit` offers, 1 to 16. Returns an error if out of memory.
    pub(crate) fn new(alloc: A, limit: usize) -> Result<Self, AllocError>
        requires least { 1 ≤ limit }
        requires most { limit ≤ max_offers }
        ensures { IfOk result (λ offers. offers ≡ record { limit = limit; offers = [] }) }
    {
        Ok(Offers {
            limit,
            entries: IndexMap::with_capacity_and_hasher(alloc, limit, BuildHasherDefault::new())?,
        })
    }
}

impl<A: Allocator> Offers<A> {
    /// Puts an offer: at the end if its prefix is new, and otherwise in place of the existing one.
    pub(crate) fn put(&mut self, offer: Offer) -> Result<(), Full>
        ensures value { result ≡ answer_to self.old.limit offer.prefix (prefixes_in self.old.offers) }
        ensures put { OnOk result (self.new.offers ≡ with_offer offer self.old.offers) }
        ensures limit { self.new.limit ≡ self.old.limit }
        ensures same { OnErr result (self.new ≡ self.old) }
    {
        let prefix = offer.info().prefix;
        if let Some(there) = self.entries.get_mut(&prefix) {
            *there = offer;
            return Ok(());
        }
        if self.entries.len() >= self.limit {
            return Err(Full);
        }
        match self.entries.insert(prefix, offer) {
            Ok(_) => Ok(()),
            Err(_) => unreachable!(),
        }
    }

    /// Returns the offers, in their order.
    pub(crate) fn rows(&self) -> OfferRows<'_>
        ensures value { result ≡ self.now.offers }
        ensures few { length result ≤ self.now.limit }
    {
        OfferRows::new(self.entries.values())
    }

    /// Returns the number of prefixes offered, at most the limit.
    pub(crate) fn len(&self) -> usize
        ensures value { result ≡ length self.now.offers }
        ensures few { result ≤ self.now.limit }
    {
        self.entries.len()
    }

    /// Returns how many offers there is room for, at most 16.
    pub(crate) fn limit(&self) -> usize
        ensures value { result ≡ self.now.limit }
        ensures most { result ≤ max_offers }
    {
        self.limit
    }
}
