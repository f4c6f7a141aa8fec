//! A packet is sent to a neighbour (RFC 4861, sections 7.2.2 and 7.3.3). The definitions are in `specs/Sending.antt`.

ghost use Rattle.std.specs.Prelude.{IfErr, IfOk, List, None, OnErr, OnOk, Some, if◌then◌else◌, is_some, length, slice_get, vec_capacity, vec_len, ◌-◌, ◌<◌, ◌↔◌, ◌≡◌};
ghost use Rattle.nd_addr.specs.Number.{number_of};
ghost use Rattle.nd_table.specs.Moment.{IsMoment};
ghost use Rattle.nd_neighbour.specs.TableKept.{entry_in, Alters};
ghost use Rattle.nd_neighbour.specs.Planned.{IsPlanned};
ghost use Rattle.nd_neighbour.specs.SendingKept.{used, sending_in};
ghost use Rattle.nd_neighbour.specs.View.{sending_of};

use crate::address_resolution::begin;
use crate::cache::Cache;
use crate::entry::{Entry, Stage};
use crate::news::Times;
use crate::place::has_place;
use crate::refusal::CacheRefusal;
use crate::unreachability_detection::Probing;
use nd_addr::{Addr, Mac};
use nd_packet::Packet;
use nd_table::{Dated, Schedule, locate_near};
use std::alloc::Allocator;

/// What becomes of a packet for a neighbour.
#[derive(Debug, Drop)]
pub enum Use<A: Allocator> {
    /// It can be sent to this link-layer address.
    Send(Mac, Packet<A>),
    /// It waits until the address is known (RFC 4861, section 7.2.2).
    Queued {
        /// A first solicitation must be sent now.
        solicit: bool,
        /// The oldest packet, if it was dropped for this one.
        replaced: Option<Packet<A>>,
    },
}

impl<A: Allocator + Clone> Cache<A> {
    ghost use Rattle.nd_neighbour.specs.History.{Row, story};
    ghost use Rattle.nd_neighbour.specs.TableKept.{Stands, entry_in};
    ghost use Rattle.nd_neighbour.specs.PlaceKept.{NoPlace};
    ghost use Rattle.nd_neighbour.specs.Sending.{refusal_of, sending_of_story};
    ghost use Rattle.nd_neighbour.specs.SendingKept.{GainsPacket, sending_in};
    ghost use Rattle.nd_neighbour.specs.RoomKept.{LeavesRoom};
    ghost use Rattle.nd_neighbour.specs.View.{sending_of};

    /// Returns what becomes of a packet for a neighbour (RFC 4861, sections 7.2.2 and 7.3.3): it can be sent, or it waits until the link-layer
    /// address is known, and the first one that waits begins a resolution. Of `times` only RetransTimer counts, and only if a resolution or probing
    /// begins.
    ///
    /// Returns `Full` if the neighbour is new, the table is full and no neighbour is STALE, and `Memory` if it is new, no ring that `ready` makes
    /// is in reserve, and the allocator refuses one. The packet is returned, and nothing has changed.
    pub fn used(
        &mut self,
        now: u64,
        addr: Addr,
        packet: Packet<A>,
        times: Times,
    ) -> Result<Use<A>, (CacheRefusal, Packet<A>)>
        requires { IsMoment now }

        ensures stands { OnOk result (GainsPacket self.old.limit now (number_of addr.0) times.retrans self.old.waiting packet self.old.entries self.new.entries) }
        ensures value { IfOk result (λ sent. sending_of sent ≡ sending_in (entry_in (number_of addr.0) self.old.entries) packet) }
        ensures sending { IfOk result (λ sent. (history : List Row) → Stands self.old.entries history → sending_of sent ≡ sending_of_story (story (number_of addr.0) history) packet) }

        // `Full` is returned exactly if there is no room for a new neighbour, and `Memory` only if one needs a ring and none is in reserve.
        ensures full { (refusal_of result ≡ Some CacheRefusal.Full) ↔ NoPlace self.old.limit now (number_of addr.0) self.old.entries }
        ensures memory { refusal_of result ≡ Some CacheRefusal.Memory → (self.old.rings ≡ 0) × (entry_in (number_of addr.0) self.old.entries ≡ None) }
        ensures back { IfErr result (λ refused. refused.1 ≡ packet) }
        ensures same { OnErr result (self.new ≡ self.old) }

        // A neighbour for which there was room after a use of this one can enter.
        ensures leaves { OnOk result (LeavesRoom self.old.limit now (number_of addr.0) self.old.entries self.new.entries) }

        ensures limit { self.new.limit ≡ self.old.limit }
        ensures waiting { self.new.waiting ≡ self.old.waiting }

        // Only a new neighbour takes a ring, one in reserve if there is one.
        ensures rings { OnOk result (self.new.rings ≡ (if is_some (entry_in (number_of addr.0) self.old.entries) then self.old.rings else self.old.rings - 1)) }
    {
        let at = match locate_near(&self.entries, addr, self.near) {
            Ok(i) => {
                return Ok(pass(
                    &mut self.entries,
                    &mut self.dates,
                    now,
                    addr,
                    i,
                    times.retrans,
                    packet,
                ));
            }
            Err(at) => at,
        };
        if !has_place(&self.entries, self.limit, now) {
            return Err((CacheRefusal::Full, packet));
        }
        let ring = match self.rings.take_or_make(self.entries.allocator()) {
            Ok(ring) => ring,
            Err(_) => return Err((CacheRefusal::Memory, packet)),
        };
        begin(
            &mut self.entries,
            &mut self.dates,
            self.limit,
            now,
            addr,
            at,
            times.retrans,
            packet,
            ring,
        );
        Ok(Use::Queued {
            solicit: true,
            replaced: None,
        })
    }
}

/// Returns what becomes of a packet for the neighbour whose entry is at place `i`: it can be sent, or waits there.
pub(crate) fn pass<A: Allocator>(
    entries: &mut Vec<Entry<A>, A>,
    dates: &mut Schedule<A>,
    now: u64,
    addr: Addr,
    i: usize,
    retrans: u32,
    packet: Packet<A>,
) -> Use<A>
    requires moment { IsMoment now }
    requires planned { IsPlanned entries.old.items dates.old }
    requires within { i < length entries.old.items }
    requires found { entry_in (number_of addr.0) entries.old.items ≡ slice_get entries.old.items i }
    ensures alters { Alters (number_of addr.0) (λ n. used now retrans packet n) entries.old.items entries.new.items }
    ensures sending { sending_of result ≡ sending_in (entry_in (number_of addr.0) entries.old.items) packet }
    ensures planned { IsPlanned entries.new.items dates.new }
    ensures room { dates.new.room ≡ dates.old.room }
    ensures len { vec_len entries.new ≡ vec_len entries.old }
    ensures capacity { vec_capacity entries.new ≡ vec_capacity entries.old }
{
    let entry = &mut entries[i];
    let was = entry.date();
    let sent = entry.send(now, retrans, packet);
    dates.change(was, entry.date(), addr);
    sent
}

impl<A: Allocator> Entry<A> {
    ghost use Rattle.nd_neighbour.specs.SendingKept.{sending_to, used};
    ghost use Rattle.nd_neighbour.specs.View.{sending_of};

    /// Takes a packet to send to it (RFC 4861, sections 7.2.2 and 7.3.3).
    pub(crate) fn send(&mut self, now: u64, retrans: u32, packet: Packet<A>) -> Use<A>
        requires { IsMoment now }
        ensures entry { self.new ≡ used now retrans packet self.old }
        ensures sending { sending_of result ≡ sending_to self.old.stage packet }
    {
        match &mut self.stage {
            // INCOMPLETE: the packet waits, and one for which there is no room replaces the oldest (7.2.2).
            Stage::Resolving { waiting, .. } => Use::Queued {
                solicit: false,
                replaced: waiting.put(packet),
            },
            Stage::Known {
                mac,
                since,
                probing,
                ..
            } => {
                // STALE: the first packet makes it DELAY. REACHABLE, DELAY and PROBE stay (7.3.3).
                if probing.is_none() && *since <= now {
                    let begun = Probing::after_use(now, retrans);
                    self.due = begun.from;
                    *probing = Some(begun);
                }
                // Otherwise it is sent to the known address.
                Use::Send(*mac, packet)
            }
        }
    }
}
