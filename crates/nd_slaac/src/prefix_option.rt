//! Prefix options form and renew addresses (RFC 4862, section 5.5.3). The definitions are in `specs/PrefixOption.antt`.

ghost use Rattle.std.specs.Prelude.{◌≡◌, true, false, ◌+◌, ◌<◌, ◌∷◌, List, IsOk, IfSome, None, is_some, length, ◌≤◌, vec_len, vec_capacity, Ok};
ghost use Rattle.nd_addr.specs.Number.{number_of};
ghost use Rattle.nd_slaac.specs.PrefixOption.{is_taken, named_by, lifetimes_of};
ghost use Rattle.nd_decode.specs.declared.prefix_info.PrefixInfo.{PrefixInfo};
ghost use Rattle.std.specs.List.{insert};
ghost use Rattle.nd_table.specs.KeyedKept.{place_of};
ghost use Rattle.nd_table.specs.Moment.{IsMoment};
ghost use Rattle.nd_slaac.specs.TableKept.{address_in, key_of};
ghost use Rattle.nd_slaac.specs.Planned.{IsPlanned};
ghost use Rattle.nd_slaac.specs.Calls.{is_by_hand_in, taken_by, Changes};

use crate::addresses::Addresses;
use crate::due::{NextStep, ValidEnd};
use crate::entry::Entry;
use nd_addr::{Addr, Mac};
use nd_decode::PrefixInfo;
use nd_table::{Addressed, Dated, Schedule, locate, put};
use std::alloc::Allocator;

/// The effect of a prefix option (RFC 4862, section 5.5.3), or of an address that is given by hand (section 5.4).
#[derive(Clone, Copy, Debug, PartialEq, Eq)]
pub enum Taken {
    /// An address was formed.
    Formed,
    /// The address is known, and has other lifetimes now.
    Renewed,
    /// No address was formed, and none was renewed. An address that was given by hand is renewed by no prefix option.
    Ignored,
}

/// There is no room: one address more than the limit would be formed. Nothing has changed then.
#[derive(Clone, Copy, Debug, PartialEq, Eq)]
pub struct Full;

impl<A: Allocator> Addresses<A> {
    ghost use Rattle.nd_slaac.specs.History.{Row, story};
    ghost use Rattle.nd_slaac.specs.State.{is_by_hand, is_known};
    ghost use Rattle.nd_slaac.specs.TableKept.{address_in, Stands};
    ghost use Rattle.nd_slaac.specs.PrefixOption.{named_by};
    ghost use Rattle.nd_slaac.specs.Room.{fits_in, would_form, with_room};
    ghost use Rattle.nd_slaac.specs.Calls.{is_by_hand_in, keys_in, taken_of, row_taken, GainsRowIfAny, TakenBy};
    ghost use Rattle.nd_slaac.specs.MayCome.{MayCome};

    /// Takes a prefix option of a Router Advertisement (RFC 4862, section 5.5.3): forms an address, whose first solicitation waits for `delay`,
    /// renews the lifetimes of a known one, or does nothing. `now`, `delay` and `retrans`, the RetransTimer, are in milliseconds; the latter two
    /// count only if an address is formed. Returns `Full` if that would be one address too many; nothing has changed. Takes no memory.
    pub fn heard_prefix(
        &mut self,
        now: u64,
        info: &PrefixInfo,
        delay: u32,
        retrans: u32,
    ) -> Result<Taken, Full>
        requires moment { IsMoment now }

        ensures value { result ≡ taken_of self.old.limit info.now (is_by_hand_in (address_in (named_by self.old.mac info.now) self.old.addresses)) (is_some (address_in (named_by self.old.mac info.now) self.old.addresses)) (length self.old.addresses) }
        ensures story { (history : List Row) → Stands self.old.addresses history → result ≡ taken_of self.old.limit info.now (is_by_hand (story (named_by self.old.mac info.now) history)) (is_known (story (named_by self.old.mac info.now) history)) (length self.old.addresses) }
        ensures by_history { (history : List Row) → Stands self.old.addresses history → TakenBy self.old.limit self.old.mac history info.now result }
        ensures gains { GainsRowIfAny (row_taken now self.old.mac info.now delay retrans result) self.old.addresses self.new.addresses }
        ensures comes { (history : List Row) → Stands self.old.addresses history → 0 < retrans → IfSome (row_taken now self.old.mac info.now delay retrans result) (λ row. MayCome self.old.transmits row history) }
        ensures mac { self.new.mac ≡ self.old.mac }
        ensures transmits { self.new.transmits ≡ self.old.transmits }
        ensures limit { self.new.limit ≡ self.old.limit }

        // If it would form no address, the same ones are known.
        ensures keys { would_form self.old.mac (keys_in self.old.addresses) info.now ≡ false → keys_in self.new.addresses ≡ keys_in self.old.addresses }

        // If it isn't refused, it is the first of those for which there is room, and the others are what has room behind it.
        ensures room { (infos : List PrefixInfo) → IsOk result → with_room self.old.limit self.old.mac (keys_in self.old.addresses) (info.now ∷ infos) ≡ info.now ∷ with_room self.new.limit self.new.mac (keys_in self.new.addresses) infos }

        // If the options fit, the first isn't refused, and the others still fit.
        ensures fits { (infos : List PrefixInfo) → fits_in self.old.limit self.old.mac (keys_in self.old.addresses) (info.now ∷ infos) ≡ true → IsOk result × (fits_in self.new.limit self.new.mac (keys_in self.new.addresses) infos ≡ true) }
    {
        if !is_taken(info) {
            return Ok(Taken::Ignored);
        }
        let addr = named_by(info, self.mac);
        take(
            &mut self.entries,
            &mut self.ends,
            &mut self.steps,
            self.limit,
            now,
            addr,
            info,
            delay,
            retrans,
        )
    }
}

/// The number of bits of an address's prefix; the identifier that is formed has the others (RFC 4291, section 2.5.1).
const PREFIX_LENGTH: u8 = 64;

/// Returns true if an option may form or renew an address (RFC 4862, section 5.5.3 a to c).
#[tactic(auto, unfolding(crate::specs::PrefixOption::is_taken))]
pub(crate) fn is_taken(info: &PrefixInfo) -> bool
    ensures { result ≡ is_taken info.now }
{
    let prefix = info.prefix.address();
    info.autonomous
        && !prefix.is_multicast()
        && !prefix.is_link_local()
        && info.preferred_lifetime <= info.valid_lifetime
        && info.prefix.length() == PREFIX_LENGTH
}

/// Returns the address that an option names.
#[tactic(auto, unfolding(crate::specs::PrefixOption::is_taken, crate::specs::PrefixOption::named_by))]
pub(crate) fn named_by(info: &PrefixInfo, mac: Mac) -> Addr
    requires { is_taken info.now ≡ true }
    ensures { number_of result.0 ≡ named_by mac info.now }
{
    Addr::from_mac(&info.prefix, mac)
}

/// Renews or forms the address that an option names (RFC 4862, section 5.5.3 d and e).
pub(crate) fn take<A: Allocator>(
    entries: &mut Vec<Entry, A>,
    ends: &mut Schedule<A>,
    steps: &mut Schedule<A>,
    limit: usize,
    now: u64,
    addr: Addr,
    info: &PrefixInfo,
    delay: u32,
    retrans: u32,
) -> Result<Taken, Full>
    requires moment { IsMoment now }
    requires planned { IsPlanned entries.old.items ends.old steps.old }
    requires few { vec_len entries.old ≤ limit }
    requires capacity { limit ≤ vec_capacity entries.old }
    requires room_for_ends { limit ≤ ends.old.room }
    requires room_for_steps { limit ≤ steps.old.room }
    ensures value { result ≡ taken_by limit (is_by_hand_in (address_in (number_of addr.0) entries.old.items)) (is_some (address_in (number_of addr.0) entries.old.items)) info.now.valid_lifetime (length entries.old.items) }
    ensures changes { Changes now (number_of addr.0) (lifetimes_of info.now) delay retrans result entries.old.items entries.new.items }
    ensures planned { IsPlanned entries.new.items ends.new steps.new }
    ensures few { vec_len entries.new ≤ limit }
    ensures capacity { vec_capacity entries.new ≡ vec_capacity entries.old }
    ensures end_room { ends.new.room ≡ ends.old.room }
    ensures step_room { steps.new.room ≡ steps.old.room }
{
    let at = match locate(entries, addr) {
        Ok(i) => {
            if entries[i].by_hand {
                return Ok(Taken::Ignored);
            }
            let entry = &mut entries[i];
            let was = Dated::<ValidEnd>::date(entry);
            entry.announce(now, info);
            ends.change(was, Dated::<ValidEnd>::date(entry), addr);
            return Ok(Taken::Renewed);
        }
        Err(at) => at,
    };
    if info.valid_lifetime == 0 {
        return Ok(Taken::Ignored);
    }
    if entries.len() >= limit {
        return Err(Full);
    }
    let entry = Entry::formed(addr, now, info, delay, retrans);
    enter(entries, ends, steps, at, entry);
    Ok(Taken::Formed)
}

/// Adds an address, which belongs at place `at`, with its dates. There is room for it.
pub(crate) fn enter<A: Allocator>(
    entries: &mut Vec<Entry, A>,
    ends: &mut Schedule<A>,
    steps: &mut Schedule<A>,
    at: usize,
    entry: Entry,
)
    requires absent { address_in entry.key entries.old.items ≡ None }
    requires at { at ≡ place_of key_of entry.key entries.old.items }
    requires planned { IsPlanned entries.old.items ends.old steps.old }
    requires capacity { vec_len entries.old < vec_capacity entries.old }
    requires room_for_ends { vec_len entries.old < ends.old.room }
    requires room_for_steps { vec_len entries.old < steps.old.room }
    ensures items { entries.new.items ≡ insert entries.old.items (place_of key_of entry.key entries.old.items) entry }
    ensures planned { IsPlanned entries.new.items ends.new steps.new }
    ensures len { vec_len entries.new ≡ vec_len entries.old + 1 }
    ensures capacity { vec_capacity entries.new ≡ vec_capacity entries.old }
    ensures end_room { ends.new.room ≡ ends.old.room }
    ensures step_room { steps.new.room ≡ steps.old.room }
{
    let addr = entry.addr();
    let end = Dated::<ValidEnd>::date(&entry);
    let step = Dated::<NextStep>::date(&entry);
    put(entries, at, entry);
    ends.change(None, end, addr);
    steps.change(None, step, addr);
}
