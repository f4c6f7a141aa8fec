//! Room for the addresses that prefix options form (RFC 4862, section 5.5.3). The definitions are in `specs/Room.antt`.

ghost use Rattle.std.specs.Prelude.{◌≡◌, ◌≤◌, ◌&&◌, nat_lt, not, length, List, MatchOption, true, false, is_some};
ghost use Rattle.nd_addr.specs.Number.{number_of};
ghost use Rattle.nd_decode.specs.Pieces.{options_left};
ghost use Rattle.nd_slaac.specs.PrefixOption.{is_forming, named_by, prefixes_in};
ghost use Rattle.nd_slaac.specs.Room.{is_among, would_form, fits_in, max_addresses};
ghost use Rattle.nd_slaac.specs.RoomKept.{is_listed, is_new};
ghost use Rattle.nd_table.specs.Keyed.{Rises};
ghost use Rattle.nd_slaac.specs.TableKept.{key_of};
ghost use Rattle.nd_slaac.specs.Calls.{keys_in};
ghost use Rattle.nd_decode.specs.declared.prefix_info.PrefixInfo.{PrefixInfo};

use crate::addresses::{Addresses, MAX_ADDRESSES};
use crate::entry::Entry;
use crate::prefix_option::{is_taken, named_by};
use nd_addr::{Addr, Mac};
use nd_decode::{Options, PrefixInfo};
use nd_table::{compare, find};
use std::alloc::Allocator;

impl<A: Allocator> Addresses<A> {
    ghost use Rattle.nd_slaac.specs.PrefixOption.{prefixes_in};
    ghost use Rattle.nd_slaac.specs.Room.{would_form, fits_in, FitsBy};
    ghost use Rattle.nd_slaac.specs.History.{Row, story};
    ghost use Rattle.nd_slaac.specs.State.{is_known};
    ghost use Rattle.nd_slaac.specs.TableKept.{Stands};
    ghost use Rattle.nd_slaac.specs.Calls.{keys_in};

    /// Returns true if a prefix option would form an address, given room for it (RFC 4862, section 5.5.3 a to d). An address is known until `turn`
    /// has returned its end.
    pub fn would_form(&self, info: &PrefixInfo) -> bool
        ensures value { result ≡ would_form self.now.mac (keys_in self.now.addresses) info.now }
        ensures by_history { (history : List Row) → Stands self.now.addresses history → result ≡ (is_forming info.now && not (is_known (story (named_by self.now.mac info.now) history))) }
    {
        would_form(&self.entries, self.mac, info)
    }

    /// Returns true if there is room for one address more. An address is known until `turn` has returned its end.
    pub fn has_room(&self) -> bool
        ensures value { result ≡ nat_lt (length self.now.addresses) self.now.limit }
    {
        self.entries.len() < self.limit
    }

    /// Returns true if there is room for each address that the options of a Router Advertisement, taken in their order, would form. If so,
    /// `heard_prefix` refuses none of them. An address is known until `turn` has returned its end.
    pub fn fits(&self, options: Options<'_>) -> bool
        ensures value { result ≡ fits_in self.now.limit self.now.mac (keys_in self.now.addresses) (prefixes_in (options_left options.entry)) }
        ensures by_history { (history : List Row) → Stands self.now.addresses history → FitsBy self.now.limit self.now.mac history (prefixes_in (options_left options.entry)) result }
    {
        fits(&self.entries, self.limit, self.mac, options)
    }
}

/// Returns true if an address is known.
fn is_known(entries: &[Entry], addr: Addr) -> bool
    requires { Rises key_of entries.now }
    ensures { result ≡ is_among (number_of addr.0) (keys_in entries.now) }
{
    find(entries, addr).is_some()
}

/// Returns true if an option forms its address unless that is known (RFC 4862, section 5.5.3 d).
fn is_forming(info: &PrefixInfo) -> bool
    ensures { result ≡ is_forming info.now }
{
    is_taken(info) && info.valid_lifetime != 0
}

/// Returns true if an option would form an address, given room for it.
pub(crate) fn would_form(entries: &[Entry], mac: Mac, info: &PrefixInfo) -> bool
    requires { Rises key_of entries.now }
    ensures { result ≡ would_form mac (keys_in entries.now) info.now }
{
    is_forming(info) && !is_known(entries, named_by(info, mac))
}

/// Returns true if an address is among these.
fn is_listed(addrs: &[Addr], addr: Addr) -> bool
    ensures { result ≡ is_listed (number_of addr.0) addrs.now }
{
    for other in addrs {
        if compare(*other, addr).is_eq() {
            return true;
        }
    }
    false
}

/// Returns the address that an option would form, given room for it, unless it is among those that options before it form.
fn new_address(entries: &[Entry], mac: Mac, info: &PrefixInfo, formed: &[Addr]) -> Option<Addr>
    requires { Rises key_of entries.now }
    ensures { MatchOption result (is_new mac (keys_in entries.now) formed.now info.now ≡ false) (λ addr. (is_new mac (keys_in entries.now) formed.now info.now ≡ true) × (number_of addr.0 ≡ named_by mac info.now)) }
{
    if !would_form(entries, mac, info) {
        return None;
    }
    let addr = named_by(info, mac);
    if is_listed(formed, addr) {
        return None;
    }
    Some(addr)
}

/// Returns true if there is room for each address that the options would form.
pub(crate) fn fits(entries: &[Entry], limit: usize, mac: Mac, options: Options<'_>) -> bool
    requires few { length entries.now ≤ limit }
    requires most { limit ≤ max_addresses }
    requires order { Rises key_of entries.now }
    ensures { result ≡ fits_in limit mac (keys_in entries.now) (prefixes_in (options_left options.entry)) }
{
    // Mostly there is room for as many as the bytes of the options could form.
    if entries.len() + options.byte_len() / PrefixInfo::BYTES <= limit {
        return true;
    }
    fit_in_order(entries, limit, mac, options)
}

/// Returns true if there is room for each address that the options would form, taken in their order.
#[tactic(auto, using(crate::proofs::OfType::prefixes_by_first))]
fn fit_in_order(entries: &[Entry], limit: usize, mac: Mac, options: Options<'_>) -> bool
    requires few { length entries.now ≤ limit }
    requires most { limit ≤ max_addresses }
    requires order { Rises key_of entries.now }
    ensures { result ≡ fits_in limit mac (keys_in entries.now) (prefixes_in (options_left options.entry)) }
{
    let mut formed = [Addr([0; 16]); MAX_ADDRESSES];
    let mut count = 0;
    let mut rest = options;
    while let Some(info) = rest.next_prefix() {
        if let Some(addr) = new_address(entries, mac, &info, &formed[..count]) {
            if entries.len() + count >= limit {
                return false;
            }
            formed[count] = addr;
            count += 1;
        }
    }
    true
}
