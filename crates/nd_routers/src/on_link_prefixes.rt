ghost use Rattle.std.specs.Prelude.{◌≡◌, ◌≤◌, ◌<◌, ◌↔◌, List, IfErr, OnOk, OnErr, IsErr, length, true, false};
ghost use Rattle.nd_routers.specs.OnLinkPrefixes.{is_on_link, max_prefixes, prefixes_in};
ghost use Rattle.nd_addr.specs.Prefix.{PrefixValue};
ghost use Rattle.nd_addr.specs.Same.{same_prefix};
ghost use Rattle.nd_decode.specs.Pieces.{options_left};
ghost use Rattle.nd_table.specs.Announcements.{Row, last_moment};
ghost use Rattle.nd_table.specs.Listing.{fits, with_room, then_announced, Lists};
ghost use Rattle.nd_table.specs.ListingKept.{announced_all, Distinct, Stands};
ghost use Rattle.nd_table.specs.declared.lasting.Lasting.{Lasting as Entry};
ghost use Rattle.nd_table.specs.Moment.{IsMoment};
ghost use Rattle.nd_routers.specs.OnLinkPrefixesKept.{prefixes_left};
ghost use Rattle.nd_table.specs.Refreshing.{only_refreshes};

use crate::prefixes::{MAX_PREFIXES, Prefixes};
use nd_addr::Prefix;
use nd_decode::{Options, PrefixInfo};
use nd_table::{Announces, Lasting, Limit, TableRefusal, announce_all, fits_all};
use std::alloc::Allocator;

impl<A: Allocator> Prefixes<A> {
    /// Returns true if there is room for the prefixes that the options of a Router Advertisement announce at `now`, in milliseconds, taken in
    /// order: then `heard_ra` isn't refused. It takes no memory.
    pub fn fits(&self, now: u64, options: Options<'_>) -> bool
        ensures value { result ≡ fits same_prefix self.now.limit now (prefixes_in (options_left options.entry)) self.now.entries }
        ensures by_history { (history : List (Row PrefixValue)) (es : List (Entry PrefixValue)) → Stands same_prefix self.now.entries history → last_moment history ≤ now → Lists same_prefix history now es
            → result ≡ fits same_prefix self.now.limit now (prefixes_in (options_left options.entry)) es }
    {
        fits(&self.entries, self.limit, now, options)
    }

    /// Takes the options of a Router Advertisement at `now`, in milliseconds, in order (RFC 4861, section 6.3.4): a prefix that is on the link
    /// enters or is refreshed, and a valid lifetime of 0 removes it. Returns `Full` if the prefixes are too many at some point. It takes no memory.
    pub fn heard_ra(&mut self, now: u64, options: Options<'_>) -> Result<(), TableRefusal>
        requires moment { IsMoment now }

        ensures stands { OnOk result ((history : List (Row PrefixValue)) → last_moment history ≤ now → Stands same_prefix self.old.entries history
            → Stands same_prefix self.new.entries (then_announced now (prefixes_in (options_left options.entry)) history)) }
        ensures value { OnOk result (self.new ≡ record { limit = self.old.limit; entries = announced_all same_prefix now (prefixes_in (options_left options.entry)) self.old.entries }) }

        // It is refused exactly if the prefixes, taken in order, are too many at some point.
        ensures full { IsErr result ↔ (fits same_prefix self.old.limit now (prefixes_in (options_left options.entry)) self.old.entries ≡ false) }
        ensures refusal { IfErr result (λ refusal. refusal ≡ TableRefusal.Full Limit.Prefixes) }
        ensures same { OnErr result (self.new ≡ self.old) }
    {
        if !self.fits(now, options) {
            return Err(TableRefusal::Full(Limit::Prefixes));
        }
        self.take_ra(now, options);
        Ok(())
    }

    /// Does what `heard_ra` does, but passes over a prefix for which there is no room. Returns true if those that it takes only refresh prefixes that
    /// are on the link: they add none and remove none. It takes no memory.
    pub fn take_ra(&mut self, now: u64, options: Options<'_>) -> bool
        requires moment { IsMoment now }

        ensures refreshes { result ≡ only_refreshes same_prefix now (with_room same_prefix self.old.limit now (prefixes_in (options_left options.entry)) self.old.entries) self.old.entries }
        ensures stands { (history : List (Row PrefixValue)) → last_moment history ≤ now → Stands same_prefix self.old.entries history
            → Stands same_prefix self.new.entries (then_announced now (with_room same_prefix self.old.limit now (prefixes_in (options_left options.entry)) self.old.entries) history) }
        ensures value { self.new ≡ record { limit = self.old.limit; entries = announced_all same_prefix now (with_room same_prefix self.old.limit now (prefixes_in (options_left options.entry)) self.old.entries) self.old.entries } }
    {
        announce_all(&mut self.entries, self.limit, now, OnLink { options })
    }
}

/// Returns true if there is room for the prefixes that the options announce, taken in order.
fn fits(entries: &[Lasting<Prefix>], limit: usize, now: u64, options: Options<'_>) -> bool
    requires distinct { Distinct same_prefix entries.now }
    requires few { length entries.now ≤ limit }
    requires limit { limit ≤ max_prefixes }
    ensures { result ≡ fits same_prefix limit now (prefixes_in (options_left options.entry)) entries.now }
{
    // Mostly there is room for as many as the bytes of the options could be.
    if entries.len() + options.byte_len() / PrefixInfo::BYTES <= limit {
        return true;
    }
    fit_in_order(entries, limit, now, options)
}

/// Returns the same by a walk over the options. The names that it keeps are locals of this function, since a function pays for all of its locals at
/// each call.
fn fit_in_order(entries: &[Lasting<Prefix>], limit: usize, now: u64, options: Options<'_>) -> bool
    requires distinct { Distinct same_prefix entries.now }
    requires few { length entries.now ≤ limit }
    requires limit { limit ≤ max_prefixes }
    ensures { result ≡ fits same_prefix limit now (prefixes_in (options_left options.entry)) entries.now }
{
    let mut kept = [None; 2 * MAX_PREFIXES];
    fits_all(entries, limit, now, OnLink { options }, &mut kept)
}

/// The prefixes that the options of a Router Advertisement say are on the link, with their valid lifetimes (RFC 4861, sections 4.6.2 and
/// 6.3.4).
#[derive(Clone, Copy, Debug)]
pub(crate) struct OnLink<'a> {
    pub(crate) options: Options<'a>,
}

impl Announces<Prefix, Prefix> for OnLink<'_> {
    ghost use Rattle.nd_routers.specs.OnLinkPrefixes.{prefixes_in};
    ghost use Rattle.nd_routers.specs.OnLinkPrefixesKept.{prefixes_left};

    ghost told = { prefixes_left };

    #[tactic(auto, using(crate::proofs::OfType::prefixes_by_first))]
    fn next_told(&mut self) -> Option<(Prefix, u32)> {
        while let Some(info) = self.options.next_prefix() {
            if is_on_link(&info) {
                return Some((info.prefix, info.valid_lifetime));
            }
        }
        None
    }
}

/// Returns true if an option says that its prefix is on the link. Link-local and multicast prefixes aren't taken.
fn is_on_link(info: &PrefixInfo) -> bool
    ensures { result ≡ is_on_link info.now }
{
    let address = info.prefix.address();
    info.on_link && !address.is_link_local() && !address.is_multicast()
}
