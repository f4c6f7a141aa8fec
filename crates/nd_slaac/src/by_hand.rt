//! Addresses are given by hand, and withdrawn (RFC 4862, section 5.4). The definitions are in `specs/ByHand.antt`.

ghost use Rattle.std.specs.Prelude.{◌≡◌, false, is_some, length, ◌≤◌, ℕ, true, vec_len, vec_capacity};
ghost use Rattle.nd_addr.specs.Number.{number_of};
ghost use Rattle.nd_table.specs.Moment.{IsMoment};
ghost use Rattle.nd_slaac.specs.Calls.{Leaves, Sets, set_of};
ghost use Rattle.nd_slaac.specs.Planned.{IsPlanned};
ghost use Rattle.nd_slaac.specs.TableKept.{address_in};

use crate::addresses::Addresses;
use crate::due::{NextStep, ValidEnd, remove_at};
use crate::entry::Entry;
use crate::own_address::OwnAddress;
use crate::prefix_option::{Full, Taken, enter};
use nd_addr::Addr;
use nd_table::{Dated, Schedule, compare, find, locate};
use std::alloc::Allocator;

impl<A: Allocator> Addresses<A> {
    ghost use Rattle.std.specs.Prelude.{◌&&◌, ◌==◌, ℕ, List, OnErr, not};
    ghost use Rattle.nd_slaac.specs.History.{Row, story, Ended};
    ghost use Rattle.nd_slaac.specs.State.{is_known};
    ghost use Rattle.nd_slaac.specs.TableKept.{address_in, GainsRow, GainsRows, Stands};
    ghost use Rattle.nd_slaac.specs.PrefixOption.{link_local_of};
    ghost use Rattle.nd_slaac.specs.Calls.{set_of, with_set};

    /// Gives the interface an address by hand: forms it, whose first solicitation is due at `now`, or sets the lifetimes of a known one anew,
    /// whatever they were and in whatever state it is. From then on no advertisement renews it (RFC 4862, sections 5.4 and 5.5.3 e). The link-local
    /// address stays as it is, which is `Ignored`. `now` and `retrans`, the RetransTimer, are in milliseconds; the latter counts only if the
    /// address is formed. Returns `Full` if that would be one address too many; nothing has changed. Takes no memory.
    pub fn set_by_hand(&mut self, now: u64, own: &OwnAddress, retrans: u32) -> Result<Taken, Full>
        requires { IsMoment now }
        ensures value { result ≡ set_of self.old.limit (number_of own.now.address.0 == link_local_of self.old.mac) (is_some (address_in (number_of own.now.address.0) self.old.addresses)) (length self.old.addresses) }
        ensures story { (history : List Row) → Stands self.old.addresses history → result ≡ set_of self.old.limit (number_of own.now.address.0 == link_local_of self.old.mac) (is_known (story (number_of own.now.address.0) history)) (length self.old.addresses) }
        ensures gains { GainsRows self.old.addresses self.new.addresses (with_set now (number_of own.now.address.0) own.now.lifetimes retrans result) }
        ensures same { OnErr result (self.new ≡ self.old) }
        ensures mac { self.new.mac ≡ self.old.mac }
        ensures transmits { self.new.transmits ≡ self.old.transmits }
        ensures limit { self.new.limit ≡ self.old.limit }
    {
        let addr = own.addr();
        if compare(addr, self.own).is_eq() {
            return Ok(Taken::Ignored);
        }
        set(
            &mut self.entries,
            &mut self.ends,
            &mut self.steps,
            self.limit,
            now,
            addr,
            own,
            retrans,
        )
    }

    /// Removes an address, in whatever state it is. Returns false if it isn't known, or is the link-local one, which stays; nothing has changed
    /// then.
    pub fn withdraw(&mut self, addr: Addr) -> bool
        ensures value { result ≡ (is_some (address_in (number_of addr.0) self.old.addresses) && not (number_of addr.0 == link_local_of self.old.mac)) }
        ensures story { (history : List Row) → Stands self.old.addresses history → result ≡ (is_known (story (number_of addr.0) history) && not (number_of addr.0 == link_local_of self.old.mac)) }
        ensures gains { result ≡ true → (at : ℕ) → GainsRow self.old.addresses self.new.addresses (at, number_of addr.0, Ended) }
        ensures same { result ≡ false → self.new ≡ self.old }
        ensures mac { self.new.mac ≡ self.old.mac }
        ensures transmits { self.new.transmits ≡ self.old.transmits }
        ensures limit { self.new.limit ≡ self.old.limit }
    {
        if compare(addr, self.own).is_eq() {
            return false;
        }
        leave(&mut self.entries, &mut self.ends, &mut self.steps, addr)
    }
}

/// Sets the lifetimes of an address by hand, or forms it.
pub(crate) fn set<A: Allocator>(
    entries: &mut Vec<Entry, A>,
    ends: &mut Schedule<A>,
    steps: &mut Schedule<A>,
    limit: usize,
    now: u64,
    addr: Addr,
    own: &OwnAddress,
    retrans: u32,
) -> Result<Taken, Full>
    requires moment { IsMoment now }
    requires planned { IsPlanned entries.old.items ends.old steps.old }
    requires few { vec_len entries.old ≤ limit }
    requires capacity { limit ≤ vec_capacity entries.old }
    requires room_for_ends { limit ≤ ends.old.room }
    requires room_for_steps { limit ≤ steps.old.room }
    ensures value { result ≡ set_of limit false (is_some (address_in (number_of addr.0) entries.old.items)) (length entries.old.items) }
    ensures sets { Sets now (number_of addr.0) own.now.lifetimes retrans result entries.old.items entries.new.items }
    ensures planned { IsPlanned entries.new.items ends.new steps.new }
    ensures few { vec_len entries.new ≤ limit }
    ensures capacity { vec_capacity entries.new ≡ vec_capacity entries.old }
    ensures end_room { ends.new.room ≡ ends.old.room }
    ensures step_room { steps.new.room ≡ steps.old.room }
{
    let at = match locate(entries, addr) {
        Ok(i) => {
            let entry = &mut entries[i];
            let was = Dated::<ValidEnd>::date(entry);
            entry.set_by_hand(now, own);
            ends.change(was, Dated::<ValidEnd>::date(entry), addr);
            return Ok(Taken::Renewed);
        }
        Err(at) => at,
    };
    if entries.len() >= limit {
        return Err(Full);
    }
    let entry = Entry::by_hand(addr, now, own, retrans);
    enter(entries, ends, steps, at, entry);
    Ok(Taken::Formed)
}

/// Removes an address with its dates. Returns false if it isn't known.
pub(crate) fn leave<A: Allocator>(
    entries: &mut Vec<Entry, A>,
    ends: &mut Schedule<A>,
    steps: &mut Schedule<A>,
    addr: Addr,
) -> bool
    requires { IsPlanned entries.old.items ends.old steps.old }
    ensures value { result ≡ is_some (address_in (number_of addr.0) entries.old.items) }
    ensures leaves { result ≡ true → (at : ℕ) × Leaves at (number_of addr.0) entries.old.items entries.new.items }
    ensures same { result ≡ false → entries.new.items ≡ entries.old.items }
    ensures planned { IsPlanned entries.new.items ends.new steps.new }
    ensures len { vec_len entries.new ≤ vec_len entries.old }
    ensures capacity { vec_capacity entries.new ≡ vec_capacity entries.old }
    ensures end_room { ends.new.room ≡ ends.old.room }
    ensures step_room { steps.new.room ≡ steps.old.room }
{
    let Some(i) = find(entries, addr) else {
        return false;
    };
    remove_at(entries, ends, steps, i);
    true
}
