//! The Default Router List (RFC 4861, section 5.1): which routers enter and leave it, and what ends with them.

ghost use Rattle.std.specs.Prelude.{◌≡◌, ◌<◌, ◌↔◌, ◌&&◌, ◌==◌, ◌∷◌, IsTrue, List, [], true, ◌≤◌, ◌++◌, ℕ, ◌+◌, length, map};
ghost use Rattle.nd_addr.specs.Number.{number_of};
ghost use Rattle.nd_table.specs.Announcements.{stands};
ghost use Rattle.nd_table.specs.Listing.{fits};
ghost use Rattle.nd_routers.specs.History.{RouterRow, announcements};
ghost use Rattle.nd_routers.specs.Routers.{same};
ghost use Rattle.nd_routers.specs.RoutersKept.{IsSettled};
ghost use Rattle.nd_nexthop.specs.History.{RedirectRow};
ghost use Rattle.nd_steps.specs.DestinationCache.{AsListed, KeepsRoom, Recollects, Refreshes, Remembering};
ghost use Rattle.std.specs.Option.{option_map};
ghost use Rattle.nd_steps.specs.GivingWay.{with_router_gone, with_target_gone};
ghost use Rattle.nd_steps.specs.DefaultRouterList.{with_heard, with_left, with_gone, left_told, Leaves, Notes};
ghost use Rattle.nd_addr.specs.declared.addr.Addr.{Addr};
ghost use Rattle.nd_table.specs.Moment.{IsMoment};
ghost use Rattle.nd_steps.specs.Outputs.{at_moment, happenings};
ghost use Rattle.nd_nexthop.specs.Memo.{forgotten};
ghost use Rattle.nd_neighbour.specs.DueKept.{stays};
ghost use Rattle.nd_neighbour.specs.View.{falls_of};
ghost use Rattle.nd_chronicle.specs.Happening.{LeftRouter};
ghost use Rattle.nd_routers.specs.RoutersKept as list;
ghost use Rattle.nd_nexthop.specs.Choice as redirects;

use crate::destination_cache::keep_if;
use crate::giving_way::note_way;
use nd_addr::{Addr, Preference};
use nd_neighbour::Due;
use nd_nexthop::Choice;
use nd_out::{Out, Reports};
use nd_routers::Routers;
use std::alloc::Allocator;

/// Returns true if a Router Advertisement with this lifetime, in seconds, times out a router that is in the list at `now`, in milliseconds (RFC
/// 4861, section 6.3.4).
fn times_out<A: Allocator>(routers: &Routers<A>, now: u64, source: Addr, lifetime: u16) -> bool
    ensures { (history : List RouterRow) → list.Stands routers.now history → result ≡ ((lifetime == 0) && stands same (number_of source.0) (announcements history) now) }
{
    lifetime == 0 && routers.holds(now, source)
}

/// Returns true if a Router Advertisement with this lifetime, in seconds, and this preference only refreshes a router that is in the list at `now`,
/// in milliseconds: no next hop changes.
fn only_refreshes<A: Allocator>(
    routers: &Routers<A>,
    now: u64,
    source: Addr,
    lifetime: u16,
    preference: Preference,
) -> bool
    ensures { IsTrue result ↔ Refreshes now (number_of source.0) lifetime preference routers.now }
{
    lifetime != 0 && routers.holds(now, source) && routers.preference(source) == preference
}

/// Takes a Router Advertisement's sender as a default router at `now`, in milliseconds, with its lifetime, in seconds, and its preference (RFC 4861, section
/// 6.3.4; RFC 4191, section 2.2), or leaves it out: `listed` says whether there is room for it. The neighbour fails that gave way to the sender, if one did.
/// Returns true if it timed out a router of the list; the redirects to that router end (section 6.3.5). Remembered next hops are forgotten, except if the router
/// is only refreshed with the same preference, or left out.
pub fn hear_router<A: Allocator + Clone>(
    routers: &mut Routers<A>,
    choice: &mut Choice<A>,
    now: u64,
    source: Addr,
    lifetime: u16,
    preference: Preference,
    listed: bool,
    gone: Option<Addr>,
) -> bool
    requires moment { IsMoment now }
    requires settled { IsSettled routers.old.entries now }
    requires listed { listed ≡ fits same routers.old.limit now ((number_of source.0, lifetime) ∷ []) routers.old.entries }
    ensures times_out { (history : List RouterRow) → list.Stands routers.old history → result ≡ ((lifetime == 0) && stands same (number_of source.0) (announcements history) now) }
    ensures routers { (history : List RouterRow) → list.Stands routers.old history → list.Stands routers.new (with_left now result (number_of source.0) (with_router_gone now (option_map (λ addr. number_of addr.0) gone) (with_heard now listed (number_of source.0) lifetime preference history))) }
    ensures redirects { (history : List RedirectRow) → redirects.Stands choice.old history → redirects.Stands choice.new (with_gone now result (number_of source.0) (with_target_gone now (option_map (λ addr. number_of addr.0) gone) history)) }
    ensures recollects { Recollects choice.old choice.new (AsListed choice.old choice.new routers.old routers.new) }
    ensures settled { IsSettled routers.new.entries now }
    ensures limit { routers.new.limit ≡ routers.old.limit }
    ensures limits { KeepsRoom choice.old choice.new }
{
    if !listed {
        routers.leave_out(now, source, lifetime, preference);
        note_way(routers, choice, gone);
        return false;
    }
    let times_out = times_out(routers, now, source, lifetime);
    let refreshes = only_refreshes(routers, now, source, lifetime, preference);
    let _ = routers.take_ra(now, source, lifetime, preference);
    keep_if(choice, refreshes);
    note_way(routers, choice, gone);
    if !times_out {
        return false;
    }
    routers.ended(source);
    choice.target_gone(source);
    true
}

/// Reports at `now`, in milliseconds, that a router has left the list, if `times_out` (RFC 4861, section 6.3.4). It takes no memory: the caller has
/// made room.
pub fn tell_left<A: Allocator>(outs: &mut Reports<A>, now: u64, source: Addr, times_out: bool)
    requires { 0 < outs.old.free }
    ensures told { happenings outs.new.items ≡ happenings outs.old.items ++ at_moment now (left_told times_out (number_of source.0)) }
    ensures len { outs.old.free ≤ outs.new.free + 1 }
{
    if times_out {
        outs.push_reserved((now, Out::EndedRouter(source)));
    }
}

/// Removes a neighbour that is no longer a router from the list of default routers at `now`, in milliseconds, if `ends`. The redirects to it end, and that is
/// reported (RFC 4861, section 7.2.5). It takes no memory: the caller has made room.
#[inline(always)]
pub fn end_router<A: Allocator>(
    routers: &mut Routers<A>,
    choice: &mut Choice<A>,
    now: u64,
    addr: Addr,
    ends: bool,
    outs: &mut Reports<A>,
)
    requires room { 1 ≤ outs.old.free }
    ensures leaves { Leaves now (number_of addr.0) ends routers.old routers.new choice.old choice.new outs.old.items outs.new.items }
    ensures settled { (moment : ℕ) → IsSettled routers.old.entries moment → IsSettled routers.new.entries moment }
    ensures limit { routers.new.limit ≡ routers.old.limit }
    ensures limits { KeepsRoom choice.old choice.new }
{
    if !ends {
        return;
    }
    routers.ended(addr);
    choice.target_gone(addr);
    outs.push_reserved((now, Out::EndedRouter(addr)));
}

/// Notes what is due for a neighbour. If the neighbour failed and is a router, the router failed too, and the redirects to it end (RFC 4861,
/// sections 6.3.6 and 7.3.3). If its entry is gone, remembered next hops are forgotten.
pub fn note_failure<A: Allocator + Clone>(
    routers: &mut Routers<A>,
    choice: &mut Choice<A>,
    due: &Due<A>,
)
    ensures notes { (at : ℕ) → Notes at (falls_of due.now) routers.old routers.new choice.old choice.new }
    ensures remembers { Remembering (falls_of due.now) choice.old choice.new routers.old routers.new }
    ensures entries { routers.new.entries ≡ routers.old.entries }
    ensures limit { routers.new.limit ≡ routers.old.limit }
    ensures limits { KeepsRoom choice.old choice.new }

    // A solicitation changes nothing.
    ensures same { stays (falls_of due.now) ≡ true → (routers.new ≡ routers.old) × (choice.new ≡ choice.old) }
{
    match due {
        Due::Failed(addr, _) => {
            routers.failed(*addr);
            choice.target_gone(*addr);
        }
        Due::Aged(_) => choice.changed(),
        Due::Multicast(_) | Due::Unicast(_, _) => {}
    }
}

/// Reports at `at`, in milliseconds, that these routers have left the list, in its order. It takes no memory: the caller has made room.
pub fn tell_routers<A: Allocator>(outs: &mut Reports<A>, at: u64, routers: &[Addr])
    requires { length routers.now ≤ outs.old.free }
    ensures { happenings outs.new.items ≡ happenings outs.old.items ++ at_moment at (map (λ key. LeftRouter key) (map (λ a. number_of a.0) routers.now)) }
{
    for router in routers {
        outs.push_reserved((at, Out::EndedRouter(*router)));
    }
}
