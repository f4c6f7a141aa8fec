//! What is due for neighbours (RFC 4861, sections 7.2.2 and 7.3.3). The definitions are in `specs/Due.antt`.

ghost use Rattle.std.specs.Prelude.{IfNone, IfSome, List, None, Some, false, if◌then◌else◌, true, vec_capacity, vec_len, ◌<◌, ◌≡◌, ◌≢◌, ◌≤◌};
ghost use Rattle.std.specs.Option.{option_map};
ghost use Rattle.nd_table.specs.Moment.{IsMoment};
ghost use Rattle.nd_neighbour.specs.DueKept.{NoneBefore, Turns, due_in};
ghost use Rattle.nd_neighbour.specs.Planned.{IsPlanned};
ghost use Rattle.nd_neighbour.specs.View.{falls_of};

use crate::address_resolution::MAX_MULTICAST_SOLICIT;
use crate::cache::Cache;
use crate::entry::{Entry, Stage};
use nd_addr::{Addr, Mac};
use nd_packet::Packets;
use nd_table::{Addressed, Dated, Schedule};
use std::alloc::Allocator;

/// What is due for a neighbour.
#[derive(Drop)]
pub enum Due<A: Allocator> {
    /// A multicast solicitation of its address is due (RFC 4861, section 7.2.2).
    Multicast(Addr),
    /// A unicast solicitation to it is due (RFC 4861, section 7.3.3).
    Unicast(Addr, Mac),
    /// No solicitation was answered. The entry is gone, and these packets, which waited for it, weren't sent (RFC
    /// 4861, sections 7.2.2 and 7.3.3).
    Failed(Addr, Packets<A>),
    /// The entry was STALE and unused for a day, and is gone: our choice (RFC 4861, section 5.3, leaves it open).
    Aged(Addr),
}

impl<A: Allocator> Cache<A> {
    ghost use Rattle.nd_neighbour.specs.History.{Row};
    ghost use Rattle.nd_neighbour.specs.TableKept.{GainsRow, Stands};
    ghost use Rattle.nd_neighbour.specs.Due.{FirstDue, NextDue, due_row};
    ghost use Rattle.nd_neighbour.specs.DueKept.{NoneBefore, next_in, stays, turns_left};
    ghost use Rattle.nd_neighbour.specs.LeaseKept.{LeavesLeases};
    ghost use Rattle.nd_neighbour.specs.View.{falls_of};

    /// Returns the earliest moment at which something is due, in milliseconds, if there is one. It may have passed.
    pub fn next_due(&self) -> Option<u64>
        ensures value { result ≡ next_in self.now.entries }
        ensures due { (history : List Row) → Stands self.now.entries history → NextDue history result }
    {
        self.dates.next()
    }

    /// Takes the step that is due at `now`, in milliseconds, for the lowest address for which one is, and returns it (RFC 4861, sections 7.2.2 and
    /// 7.3.3). Returns `None` if nothing is due; the cache is unchanged.
    ///
    /// Nothing may have been due before `now`. A late caller passes what `next_due` returns, until that is in the future.
    pub fn turn(&mut self, now: u64) -> Option<Due<A>>
        requires moment { IsMoment now }
        requires none_before { NoneBefore self.old.entries now }

        ensures due { (history : List Row) → Stands self.old.entries history → FirstDue history now (option_map (λ due. falls_of due) result) }
        ensures gains { IfSome result (λ due. GainsRow self.old.entries self.new.entries (due_row now (falls_of due))) }
        ensures same { IfNone result (self.new ≡ self.old) }
        ensures rings { self.new.rings ≡ self.old.rings }
        ensures waiting { self.new.waiting ≡ self.old.waiting }
        ensures limit { self.new.limit ≡ self.old.limit }

        // The number of turns at one moment is finite.
        ensures fewer { IfSome result (λ _. turns_left self.new.entries < turns_left self.old.entries) }
        ensures none { IfNone result (next_in self.old.entries ≢ Some now) }
        ensures later { NoneBefore self.new.entries now }

        // A solicitation leaves the leases.
        ensures leaves { IfSome result (λ due. stays (falls_of due) ≡ true → LeavesLeases self.old.entries self.new.entries) }
    {
        turn_first(&mut self.entries, &mut self.dates, now)
    }
}

/// Takes the step that is due now for the first entry for which one is, a solicitation or the end of the entry, and returns it.
pub(crate) fn turn_first<A: Allocator>(
    entries: &mut Vec<Entry<A>, A>,
    dates: &mut Schedule<A>,
    now: u64,
) -> Option<Due<A>>
    requires moment { IsMoment now }
    requires planned { IsPlanned entries.old.items dates.old }
    requires none_before { NoneBefore entries.old.items now }
    ensures turns { IfSome result (λ due. Turns now entries.old.items entries.new.items (falls_of due)) }
    ensures none { IfNone result (due_in now entries.old.items ≡ None) }
    ensures same { IfNone result (entries.new.items ≡ entries.old.items) }
    ensures planned { IsPlanned entries.new.items dates.new }
    ensures room { dates.new.room ≡ dates.old.room }
    ensures len { vec_len entries.new ≤ vec_len entries.old }
    ensures capacity { vec_capacity entries.new ≡ vec_capacity entries.old }
{
    let i = dates.first_at(entries, now)?;
    let entry = &mut entries[i];
    let addr = entry.addr();
    let was = entry.date();
    if let Some(due) = entry.solicit(now) {
        dates.change(was, entry.date(), addr);
        return Some(due);
    }
    let entry = entries.remove(i);
    dates.change(was, None, addr);
    Some(entry.end())
}

impl<A: Allocator> Due<A> {
    ghost use Rattle.nd_neighbour.specs.DueKept.{stays};
    ghost use Rattle.nd_neighbour.specs.View.{falls_of};

    /// Returns true if it is a solicitation: the neighbour stays.
    pub fn stays(&self) -> bool
        ensures { result ≡ stays (falls_of self.now) }
    {
        match self {
            Due::Multicast(_) | Due::Unicast(..) => true,
            Due::Failed(..) | Due::Aged(_) => false,
        }
    }
}

impl<A: Allocator> Entry<A> {
    ghost use Rattle.nd_neighbour.specs.DueKept.{falls, solicited, stays};
    ghost use Rattle.nd_neighbour.specs.View.{falls_of};

    /// Takes the next step of its solicitations and returns it, if one is left.
    pub(crate) fn solicit(&mut self, now: u64) -> Option<Due<A>>
        requires { IsMoment now }
        ensures entry { self.new ≡ (if stays (falls self.old) then solicited now self.old else self.old) }
        ensures due { IfSome result (λ due. falls_of due ≡ falls self.old) }
        ensures some { IfSome result (λ _. stays (falls self.old) ≡ true) }
        ensures none { IfNone result (stays (falls self.old) ≡ false) }
    {
        match &mut self.stage {
            // INCOMPLETE: a multicast solicitation a RetransTimer after the one before, MAX_MULTICAST_SOLICIT with the
            // one that began the resolution (7.2.2).
            Stage::Resolving { retrans, sent, .. } => {
                if *sent >= MAX_MULTICAST_SOLICIT - 1 {
                    return None;
                }
                self.due = now + u64::from(*retrans);
                *sent += 1;
                Some(Due::Multicast(self.addr))
            }
            // DELAY becomes PROBE, and PROBE stays: a unicast solicitation (7.3.3). Without a use there is none to send.
            Stage::Known { mac, probing, .. } => {
                let next = (*probing)?.probed()?;
                self.due = now + u64::from(next.retrans);
                *probing = Some(next);
                Some(Due::Unicast(self.addr, *mac))
            }
        }
    }

    /// Returns the end of an entry for which no solicitation is left.
    pub(crate) fn end(self) -> Due<A>
        requires { stays (falls self) ≡ false }
        ensures { falls_of result ≡ falls self }
    {
        let Entry { addr, stage, .. } = self;
        match stage {
            // INCOMPLETE, and the last solicitation went unanswered: resolution failed, with all that waits (7.2.2).
            Stage::Resolving { waiting, .. } => Due::Failed(addr, Packets::of(waiting)),
            // No use for STALE_LIFETIME: our choice (5.3 leaves it open).
            Stage::Known { probing: None, .. } => Due::Aged(addr),
            // PROBE, and the last probe went unanswered: the entry is deleted (7.3.3).
            Stage::Known { .. } => Due::Failed(addr, Packets::none()),
        }
    }
}
