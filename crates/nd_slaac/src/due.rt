//! What is due for addresses (RFC 4862, sections 5.4.2 and 5.5.4). The definitions are in `specs/Due.antt`.

ghost use Rattle.std.specs.Prelude.{◌≡◌, ◌≢◌, ◌<◌, List, IfSome, IfNone, Some, None, ◌≤◌, vec_len, vec_capacity};
ghost use Rattle.std.specs.Option.{option_map};
ghost use Rattle.nd_addr.specs.Number.{number_of};
ghost use Rattle.nd_slaac.specs.Calls.{Leaves};
ghost use Rattle.nd_table.specs.Moment.{IsMoment};
ghost use Rattle.nd_slaac.specs.Dates.{Turns, Rests, NoneBefore};
ghost use Rattle.nd_slaac.specs.Planned.{IsPlanned};
ghost use Rattle.nd_slaac.specs.View.{falls_of};

use crate::addresses::Addresses;
use crate::entry::Entry;
use crate::stage::Stage;
use crate::transmits::Transmits;
use nd_addr::Addr;
use nd_table::{Addressed, Dated, Schedule, lesser};
use std::alloc::Allocator;

/// What is due for an address.
#[derive(Clone, Copy, Debug, PartialEq, Eq)]
pub enum Due {
    /// Its valid lifetime has ended, and it is removed (RFC 4862, section 5.5.4).
    End(Addr),
    /// A solicitation for it is due, from `::` to its solicited-node address (RFC 4862, section 5.4.2).
    Solicit(Addr),
    /// It is assigned to the interface (RFC 4862, section 5.4).
    Assign(Addr),
}

impl<A: Allocator> Addresses<A> {
    ghost use Rattle.nd_slaac.specs.History.{Row};
    ghost use Rattle.nd_slaac.specs.TableKept.{Stands, GainsRow};
    ghost use Rattle.nd_slaac.specs.Due.{FirstDue, NextDue, due_row};
    ghost use Rattle.nd_slaac.specs.Dates.{next_in, NoneBefore, turns_left};
    ghost use Rattle.nd_slaac.specs.MayCome.{MayCome};
    ghost use Rattle.nd_slaac.specs.View.{falls_of};

    /// Returns the earliest moment at which something is due, in milliseconds, or `None`.
    pub fn next_due(&self) -> Option<u64>
        ensures value { result ≡ next_in self.now.addresses }
        ensures due { (history : List Row) → Stands self.now.addresses history → NextDue self.now.transmits history result }
    {
        lesser(self.ends.next(), self.steps.next())
    }

    /// Takes the step that is due at `now`, in milliseconds, and returns it: the end of the lowest address whose valid lifetime ends then, or if
    /// there is none, the step of the lowest address whose detection has one (RFC 4862, sections 5.4.2 and 5.5.4). Returns `None` if nothing is
    /// due; the addresses are unchanged.
    ///
    /// Nothing may have been due before `now`. A late caller passes what `next_due` returns, until that is in the future.
    pub fn turn(&mut self, now: u64) -> Option<Due>
        requires moment { IsMoment now }
        requires none_before { NoneBefore self.old.addresses now }

        ensures due { (history : List Row) → Stands self.old.addresses history → FirstDue self.old.transmits history now (option_map (λ due. falls_of due) result) }
        ensures gains { IfSome result (λ due. GainsRow self.old.addresses self.new.addresses (due_row now (falls_of due))) }
        ensures comes { IfSome result (λ due. (history : List Row) → Stands self.old.addresses history → MayCome self.old.transmits (due_row now (falls_of due)) history) }
        ensures same { IfNone result (self.new ≡ self.old) }
        ensures mac { self.new.mac ≡ self.old.mac }
        ensures transmits { self.new.transmits ≡ self.old.transmits }
        ensures limit { self.new.limit ≡ self.old.limit }

        // The number of turns at one moment is finite.
        ensures fewer { IfSome result (λ _. turns_left self.new.transmits self.new.addresses < turns_left self.old.transmits self.old.addresses) }
        ensures none { IfNone result (next_in self.old.addresses ≢ Some now) }
        ensures later { NoneBefore self.new.addresses now }
    {
        turn_first(
            &mut self.entries,
            &mut self.ends,
            &mut self.steps,
            self.transmits,
            now,
        )
    }
}

/// The date at which the valid lifetime of an address ends.
pub(crate) struct ValidEnd;

/// The date of the next step of a detection.
pub(crate) struct NextStep;

impl Dated<ValidEnd> for Entry {
    ghost use Rattle.nd_slaac.specs.Dates.{end_date};

    ghost date = { end_date };

    fn date(&self) -> Option<u64> {
        self.valid_end
    }
}

impl Dated<NextStep> for Entry {
    ghost use Rattle.nd_slaac.specs.Dates.{next_step};

    ghost date = { next_step };

    fn date(&self) -> Option<u64> {
        match self.stage {
            Stage::Detecting { due, .. } => Some(due),
            Stage::Failed | Stage::Passed => None,
        }
    }
}

/// Removes the first entry whose valid lifetime ends now. If there is none, the first whose detection has a step now takes it.
pub(crate) fn turn_first<A: Allocator>(
    entries: &mut Vec<Entry, A>,
    ends: &mut Schedule<A>,
    steps: &mut Schedule<A>,
    transmits: Transmits,
    now: u64,
) -> Option<Due>
    requires moment { IsMoment now }
    requires planned { IsPlanned entries.old.items ends.old steps.old }
    requires none_before { NoneBefore entries.old.items now }
    ensures turns { IfSome result (λ due. Turns transmits now entries.old.items entries.new.items (falls_of due)) }
    ensures rests { IfNone result (Rests now entries.old.items) }
    ensures same { IfNone result (entries.new.items ≡ entries.old.items) }
    ensures planned { IsPlanned entries.new.items ends.new steps.new }
    ensures end_room { ends.new.room ≡ ends.old.room }
    ensures step_room { steps.new.room ≡ steps.old.room }
    ensures len { vec_len entries.new ≤ vec_len entries.old }
    ensures capacity { vec_capacity entries.new ≡ vec_capacity entries.old }
{
    if let Some(i) = ends.first_at::<ValidEnd, _>(entries, now) {
        return Some(Due::End(remove_at(entries, ends, steps, i)));
    }
    let i = steps.first_at::<NextStep, _>(entries, now)?;
    let entry = &mut entries[i];
    let addr = entry.addr();
    let was = Dated::<NextStep>::date(entry);
    let due = entry.step(transmits, now);
    steps.change(was, Dated::<NextStep>::date(entry), addr);
    Some(due)
}

/// Removes the entry at place `i` with its dates, and returns its address.
pub(crate) fn remove_at<A: Allocator>(
    entries: &mut Vec<Entry, A>,
    ends: &mut Schedule<A>,
    steps: &mut Schedule<A>,
    i: usize,
) -> Addr
    requires within { i < vec_len entries.old }
    requires planned { IsPlanned entries.old.items ends.old steps.old }
    ensures leaves { Leaves i (number_of result.0) entries.old.items entries.new.items }
    ensures planned { IsPlanned entries.new.items ends.new steps.new }
    ensures end_room { ends.new.room ≡ ends.old.room }
    ensures step_room { steps.new.room ≡ steps.old.room }
    ensures len { vec_len entries.new ≤ vec_len entries.old }
    ensures capacity { vec_capacity entries.new ≡ vec_capacity entries.old }
{
    let entry = entries.remove(i);
    let addr = entry.addr();
    ends.change(Dated::<ValidEnd>::date(&entry), None, addr);
    steps.change(Dated::<NextStep>::date(&entry), None, addr);
    addr
}
