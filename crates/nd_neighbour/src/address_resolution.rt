//! Address resolution (RFC 4861, section 7.2.2). The definitions are in `specs/AddressResolution.antt`.

ghost use Rattle.std.specs.Prelude.{None, true, vec_capacity, vec_len, ◌<◌, ◌≡◌, ◌≤◌};
ghost use Rattle.nd_addr.specs.Number.{number_of};
ghost use Rattle.nd_table.specs.Moment.{IsMoment};
ghost use Rattle.nd_neighbour.specs.AddressResolutionKept.{asked_entry};
ghost use Rattle.nd_neighbour.specs.TableKept.{entry_in, place_in};
ghost use Rattle.nd_neighbour.specs.Planned.{IsPlanned};
ghost use Rattle.nd_neighbour.specs.PlaceKept.{Gives, has_place};
ghost use Rattle.nd_neighbour.specs.SendingKept.{used};

use crate::entry::{Entry, Stage};
use crate::place::enter;
use nd_addr::Addr;
use nd_packet::{Packet, Ring};
use nd_table::Schedule;
use std::alloc::Allocator;

/// The number of multicast solicitations of a resolution, the first included (RFC 4861, section 10).
pub(crate) const MAX_MULTICAST_SOLICIT: u8 = 3;

/// Begins a resolution with a first packet, for an address that has no entry; its entry belongs at place `at` (RFC 4861, section 7.2.2).
pub(crate) fn begin<A: Allocator>(
    entries: &mut Vec<Entry<A>, A>,
    dates: &mut Schedule<A>,
    limit: usize,
    now: u64,
    addr: Addr,
    at: usize,
    retrans: u32,
    packet: Packet<A>,
    ring: Ring<A>,
)
    requires moment { IsMoment now }
    requires absent { entry_in (number_of addr.0) entries.old.items ≡ None }
    requires at { at ≡ place_in (number_of addr.0) entries.old.items }
    requires place { has_place limit now entries.old.items ≡ true }
    requires few { vec_len entries.old ≤ limit }
    requires capacity { limit ≤ vec_capacity entries.old }
    requires planned { IsPlanned entries.old.items dates.old }
    requires roomy { limit ≤ dates.old.room }
    ensures gives { Gives limit now (number_of addr.0) (λ n. used now retrans packet n) (asked_entry (number_of addr.0) now retrans ring.waiting.room packet) entries.old.items entries.new.items }
    ensures planned { IsPlanned entries.new.items dates.new }
    ensures room { dates.new.room ≡ dates.old.room }
    ensures few { vec_len entries.new ≤ limit }
    ensures capacity { vec_capacity entries.new ≡ vec_capacity entries.old }
{
    let entry = Entry::asked(addr, now, retrans, packet, ring);
    enter(entries, dates, limit, now, at, entry);
}

impl<A: Allocator> Entry<A> {
    ghost use Rattle.nd_neighbour.specs.AddressResolutionKept.{asked_entry};

    /// Returns an entry whose resolution begins now (INCOMPLETE), with a first packet that waits. The first solicitation is sent now, the next is
    /// due a RetransTimer later (RFC 4861, section 7.2.2).
    pub(crate) fn asked(
        addr: Addr,
        now: u64,
        retrans: u32,
        packet: Packet<A>,
        ring: Ring<A>,
    ) -> Self
        requires { IsMoment now }
        ensures { result ≡ asked_entry (number_of addr.0) now retrans ring.waiting.room packet }
    {
        Entry {
            addr,
            router: false,
            due: now + u64::from(retrans),
            stage: Stage::Resolving {
                sent: 0,
                wanted: false,
                retrans,
                waiting: ring.with(packet),
            },
        }
    }
}
