//! Another node has an address or tries it (RFC 4862, sections 5.4.3 and 5.4.4).

ghost use Rattle.std.specs.Prelude.{◌≡◌, ℕ, List, Some, true, false, vec_len, vec_capacity};
ghost use Rattle.nd_addr.specs.Number.{number_of};
ghost use Rattle.nd_table.specs.Keyed.{Rises};
ghost use Rattle.nd_table.specs.Dates.{AreDates};
ghost use Rattle.nd_slaac.specs.Dates.{next_step};
ghost use Rattle.nd_slaac.specs.TableKept.{address_in, key_of};
ghost use Rattle.nd_slaac.specs.Calls.{Alters, failed, detects_in};

use crate::addresses::Addresses;
use crate::due::NextStep;
use crate::entry::Entry;
use nd_addr::Addr;
use nd_table::{Dated, Schedule, find};
use std::alloc::Allocator;

impl<A: Allocator> Addresses<A> {
    ghost use Rattle.nd_slaac.specs.History.{Row, story, Conflict};
    ghost use Rattle.nd_slaac.specs.State.{is_tentative};
    ghost use Rattle.nd_slaac.specs.TableKept.{address_in, Stands, GainsRow};
    ghost use Rattle.nd_slaac.specs.Calls.{detects_in};
    ghost use Rattle.nd_slaac.specs.MayCome.{MayCome};

    /// Returns true if the address was tentative; it is now a duplicate, since another node has it or tries it. An assigned address is not changed
    /// (RFC 4862, sections 5.4.3 and 5.4.4).
    pub fn conflict(&mut self, addr: Addr) -> bool
        ensures value { result ≡ detects_in (address_in (number_of addr.0) self.old.addresses) }
        ensures tentative { (history : List Row) → Stands self.old.addresses history → result ≡ is_tentative (story (number_of addr.0) history) }
        ensures gains { result ≡ true → (at : ℕ) → GainsRow self.old.addresses self.new.addresses (at, number_of addr.0, Conflict) }
        ensures comes { result ≡ true → (history : List Row) (at : ℕ) → Stands self.old.addresses history → MayCome self.old.transmits (at, number_of addr.0, Conflict) history }
        ensures same { result ≡ false → self.new ≡ self.old }
        ensures mac { self.new.mac ≡ self.old.mac }
        ensures transmits { self.new.transmits ≡ self.old.transmits }
        ensures limit { self.new.limit ≡ self.old.limit }
    {
        fail(&mut self.entries, &mut self.steps, addr)
    }
}

/// Fails the detection of an address that another node has or tries, if the detection has not ended. Returns true if it had not.
pub(crate) fn fail<A: Allocator>(
    entries: &mut Vec<Entry, A>,
    steps: &mut Schedule<A>,
    addr: Addr,
) -> bool
    requires order { Rises key_of entries.old.items }
    requires dates { AreDates key_of next_step steps.old.dates entries.old.items }
    ensures value { result ≡ detects_in (address_in (number_of addr.0) entries.old.items) }
    ensures alters { result ≡ true → Alters (number_of addr.0) failed entries.old.items entries.new.items }
    ensures same { result ≡ false → entries.new.items ≡ entries.old.items }
    ensures dates { AreDates key_of next_step steps.new.dates entries.new.items }
    ensures room { steps.new.room ≡ steps.old.room }
    ensures len { vec_len entries.new ≡ vec_len entries.old }
    ensures capacity { vec_capacity entries.new ≡ vec_capacity entries.old }
{
    let Some(i) = find(entries, addr) else {
        return false;
    };
    let entry = &mut entries[i];
    if !entry.is_detecting() {
        return false;
    }
    let was = Dated::<NextStep>::date(entry);
    entry.fail();
    steps.change(was, None, addr);
    true
}
