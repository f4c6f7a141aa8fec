ghost use Rattle.std.specs.Prelude.{◌≡◌, ◌≤◌, ◌-◌, ◌/◌, ◌^◌, List, false, nat_eq};
ghost use Rattle.std.specs.List.{list_any};
ghost use Rattle.nd_addr.specs.Number.{holds, number_of};
ghost use Rattle.nd_table.specs.Listing.{open_at, Lists};
ghost use Rattle.nd_table.specs.ListingKept.{Stands};
ghost use Rattle.nd_addr.specs.Kind.{link_local_subnet};
ghost use Rattle.nd_routers.specs.OnLinkKept.{least_end};
ghost use Rattle.nd_addr.specs.Prefix.{PrefixValue};
ghost use Rattle.nd_addr.specs.Same.{same_prefix};
ghost use Rattle.nd_table.specs.declared.lasting.Lasting.{Lasting};
ghost use Rattle.nd_table.specs.Announcements.{Row, last_moment};

use crate::prefixes::Prefixes;
use nd_addr::{Addr, Prefix};
use nd_table::{Lasting, Standing, lesser};
use std::alloc::Allocator;

impl<A: Allocator> Prefixes<A> {
    ghost use Rattle.nd_routers.specs.OnLink.{is_held};
    ghost use Rattle.nd_routers.specs.OnLinkKept.{least_end};

    /// Returns true if an address is on the link at `now`, in milliseconds: in a prefix that hasn't ended, or in fe80::/64 (RFC 4861, section 5.2).
    pub fn on_link(&self, now: u64, address: Addr) -> bool
        ensures value { result ≡ is_held address.0 (open_at now self.now.entries) }
        ensures by_history { (history : List (Row PrefixValue)) (es : List (Lasting PrefixValue)) → Stands same_prefix self.now.entries history → last_moment history ≤ now → Lists same_prefix history now es → result ≡ is_held address.0 es }
    {
        is_link_local(address) || is_held(&self.entries, now, address)
    }

    /// Returns the earliest end of the prefixes that are on the link at `now`, both in milliseconds, or `None` if none of them ends.
    pub fn least_end(&self, now: u64) -> Option<u64>
        ensures value { result ≡ least_end (open_at now self.now.entries) }
        ensures by_history { (history : List (Row PrefixValue)) (es : List (Lasting PrefixValue)) → Stands same_prefix self.now.entries history → last_moment history ≤ now → Lists same_prefix history now es → result ≡ least_end es }
    {
        least_end(&self.entries, now)
    }
}

/// Returns true if a prefix holds the address of a number: if both have the same first bits (RFC 4291, section 2.3).
fn holds(prefix: &Prefix, number: u128) -> bool
    ensures { result ≡ nat_eq (number / 2 ^ (128 - prefix.now.length)) (number_of prefix.now.address.0 / 2 ^ (128 - prefix.now.length)) }
{
    let other = prefix.address().to_bits();
    let length = prefix.length();
    if length == 0 {
        return true;
    }
    let behind = 128 - length;
    number >> behind == other >> behind
}

/// Returns true if an address is in fe80::/64.
pub(crate) fn is_link_local(address: Addr) -> bool
    ensures { result ≡ holds link_local_subnet address.0 }
{
    holds(&Prefix::link_local_subnet(), address.to_bits())
}

/// Returns true if a prefix that hasn't ended holds an address.
pub(crate) fn is_held(entries: &[Lasting<Prefix>], now: u64, address: Addr) -> bool
    ensures { result ≡ list_any (λ e. holds e.key address.0) (open_at now entries.now) }
{
    any_holds(entries, now, address.to_bits())
}

/// Returns true if a prefix that hasn't ended holds the address of a number.
fn any_holds(entries: &[Lasting<Prefix>], now: u64, number: u128) -> bool
    ensures { result ≡ list_any (λ e. nat_eq (number / 2 ^ (128 - e.key.length)) (number_of e.key.address.0 / 2 ^ (128 - e.key.length))) (open_at now entries.now) }
{
    for entry in Standing::new(entries, now) {
        if holds(&entry.key, number) {
            return true;
        }
    }
    false
}

/// Returns the earliest end of the prefixes that haven't ended.
pub(crate) fn least_end(entries: &[Lasting<Prefix>], now: u64) -> Option<u64>
    ensures { result ≡ least_end (open_at now entries.now) }
{
    let mut least = None;
    for entry in Standing::new(entries, now) {
        least = lesser(least, entry.end);
    }
    least
}
