//! The addresses of an interface: their memory, their start and their number (RFC 4862, sections 5.3 and 5.4).

ghost use Rattle.std.specs.Prelude.{◌≡◌, ◌≤◌, [], ◌∷◌, None, IfOk, length};
ghost use Rattle.nd_table.specs.Moment.{IsMoment};
ghost use Rattle.nd_slaac.specs.Room.{max_addresses};

use crate::due::NextStep;
use crate::entry::Entry;
use crate::link_local::link_local;
use crate::transmits::Transmits;
use nd_addr::{Addr, Mac};
use nd_table::{Dated, Schedule};
use std::alloc::{AllocError, Allocator};
use std::marker::Model;

/// The greatest limit on the addresses of an interface, the link-local one included (our choice).
pub const MAX_ADDRESSES: usize = 64;

/// Room for the addresses of an interface, taken before it starts. A contract sees it as the number of addresses that it is for.
#[derive(Drop)]
pub struct AddressRoom<A: Allocator> {
    limit: usize,
    entries: Vec<Entry, A>,
    ends: Schedule<A>,
    steps: Schedule<A>,
}

impl<A: Allocator> Model for AddressRoom<A> {
    ghost use Rattle.std.specs.Prelude.{ℕ, ◌≡◌, ◌≤◌, []};
    ghost use Rattle.std.specs.Vec.{vec_capacity};
    ghost use Rattle.nd_slaac.specs.Room.{max_addresses};

    ghost Value = { ℕ };

    ghost view = { λ r. r.limit };

    ghost invariant = { λ r. (1 ≤ r.limit) × (r.limit ≤ max_addresses) × (r.entries.items ≡ []) × (r.limit ≤ vec_capacity r.entries)
        × (r.ends.dates ≡ []) × (r.limit ≤ r.ends.room) × (r.steps.dates ≡ []) × (r.limit ≤ r.steps.room) };
}

impl<A: Allocator + Clone> AddressRoom<A> {
    /// Reserves room for `limit` addresses, 1 to 64, and for their dates: all that an interface ever takes. The link-local address is one of them, so
    /// that with a limit of 1 no prefix option forms an address. Returns an error if out of memory.
    pub fn new(alloc: A, limit: usize) -> Result<Self, AllocError>
        requires least { 1 ≤ limit }
        requires most { limit ≤ max_addresses }
        ensures limit { IfOk result (λ room. room ≡ limit) }
    {
        let entries = Vec::with_capacity(alloc.clone()?, limit)?;
        let ends = Schedule::new(alloc.clone()?, limit)?;
        let steps = Schedule::new(alloc, limit)?;
        Ok(AddressRoom {
            limit,
            entries,
            ends,
            steps,
        })
    }
}

/// The addresses of an interface (RFC 4862, section 5): each is formed, tried, and then assigned until its valid lifetime ends.
#[derive(Drop)]
pub struct Addresses<A: Allocator> {
    pub(crate) mac: Mac,
    /// The link-local address (RFC 4862, section 5.3), which nearly every event asks for.
    pub(crate) own: Addr,
    /// The number of solicitations that each detection sends.
    pub(crate) transmits: Transmits,
    /// The number of addresses that there is room for.
    pub(crate) limit: usize,
    pub(crate) entries: Vec<Entry, A>,
    /// The dates at which valid lifetimes end.
    pub(crate) ends: Schedule<A>,
    /// The dates of the next steps of detections.
    pub(crate) steps: Schedule<A>,
}

impl<A: Allocator> Model for Addresses<A> {
    ghost use Rattle.std.specs.Prelude.{◌≡◌, ◌≤◌};
    ghost use Rattle.std.specs.Vec.{vec_len, vec_capacity};
    ghost use Rattle.nd_slaac.specs.TableKept.{Table};
    ghost use Rattle.nd_slaac.specs.Room.{max_addresses};
    ghost use Rattle.nd_slaac.specs.Planned.{IsPlanned};
    ghost use Rattle.nd_slaac.specs.PrefixOption.{link_local_of};
    ghost use Rattle.nd_addr.specs.Number.{number_of};

    ghost Value = { Table };

    ghost view = { λ a. record { mac = a.mac; transmits = a.transmits; limit = a.limit; addresses = a.entries.items } };

    ghost invariant = { λ a. (vec_len a.entries ≤ a.limit) × (a.limit ≤ vec_capacity a.entries) × IsPlanned a.entries.items a.ends a.steps × (number_of a.own.0 ≡ link_local_of a.mac)
        × (a.limit ≤ a.ends.room) × (a.limit ≤ a.steps.room) × (a.limit ≤ max_addresses) };
}

impl<A: Allocator> Addresses<A> {
    ghost use Rattle.nd_slaac.specs.History.{Formed};
    ghost use Rattle.nd_slaac.specs.TableKept.{Stands};
    ghost use Rattle.nd_slaac.specs.PrefixOption.{link_local_of};
    ghost use Rattle.nd_slaac.specs.Calls.{formed};

    /// Returns the addresses of an interface that starts: its link-local address, whose first solicitation waits for `delay` (RFC 4862, sections
    /// 5.3 and 5.4.2). `now`, `delay` and `retrans`, the RetransTimer, are in milliseconds. Each detection sends `transmits` solicitations. Takes
    /// no memory, since `room` was reserved before: a drawn delay is never lost. The limit is that of `room`.
    pub fn start(
        room: AddressRoom<A>,
        now: u64,
        mac: Mac,
        transmits: Transmits,
        delay: u32,
        retrans: u32,
    ) -> Self
        requires { IsMoment now }
        ensures first { result ≡ record { mac = mac; transmits = transmits; limit = room; addresses = formed (link_local_of mac) now delay retrans None ∷ [] } }
        ensures stands { Stands result.addresses ((now, link_local_of mac, Formed delay retrans None) ∷ []) }
    {
        let limit = room.limit;
        let mut entries = room.entries;
        let mut ends = room.ends;
        let mut steps = room.steps;
        let addr = link_local(mac);
        let entry = Entry::link_local(addr, now, delay, retrans);
        let step = Dated::<NextStep>::date(&entry);
        entries.push_reserved(entry);
        steps.change(None, step, addr);
        Addresses {
            mac,
            own: addr,
            transmits,
            limit,
            entries,
            ends,
            steps,
        }
    }

    /// Returns the number of addresses, the link-local one among them, at most the limit.
    pub fn len(&self) -> usize
        ensures value { result ≡ length self.now.addresses }
        ensures few { result ≤ self.now.limit }
        ensures most { result ≤ max_addresses }
    {
        self.entries.len()
    }
}
