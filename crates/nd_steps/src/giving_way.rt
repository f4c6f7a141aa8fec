//! A neighbour gives way to one that speaks (RFC 6583, section 7): what a message that gives a link-layer address does to a Neighbor Cache in which there is
//! no other room for its neighbour, and what the node reports of it.

ghost use Rattle.std.specs.Prelude.{◌≡◌, ◌+◌, ◌<◌, ◌≤◌, ◌^◌, IfNone, IfSome, List, None, if◌then◌else◌, is_some, true};
ghost use Rattle.std.specs.Option.{option_map};
ghost use Rattle.nd_addr.specs.Number.{number_of};
ghost use Rattle.nd_neighbour.specs.declared.news.Times.{Times};
ghost use Rattle.nd_neighbour.specs.History.{Row};
ghost use Rattle.nd_neighbour.specs.News.{lets_enter, news_key};
ghost use Rattle.nd_neighbour.specs.TableKept.{Stands, entry_in};
ghost use Rattle.nd_nexthop.specs.Memo.{forgotten};
ghost use Rattle.nd_packet.specs.Waiting.{max_waiting};
ghost use Rattle.nd_steps.specs.DestinationCache.{KeepsRoom, MayRemember};
ghost use Rattle.nd_steps.specs.GivingWay.{HasPlaceOrWay, HearsGiver, MakesWay, NotesWay, PlacedByWay};
ghost use Rattle.nd_steps.specs.NeighbourCache.{HasPlace, HasRoomFor, most_told, said_by, told_for};
ghost use Rattle.nd_table.specs.Moment.{IsMoment};

use crate::due_rows::{MOST_TOLD, tell_failure};
use crate::neighbour_cache::hear_of_neighbour;
use nd_addr::Addr;
use nd_neighbour::{Cache, News, Times};
use nd_nexthop::Choice;
use nd_out::Reports;
use nd_routers::Routers;
use std::alloc::Allocator;

/// Returns true if there is room at `now`, in milliseconds, for the neighbour of these news, in case they add it, or a neighbour that gives way to it.
pub(crate) fn has_way_with<A: Allocator>(neighbours: &Cache<A>, now: u64, news: &News) -> bool
    ensures room { result ≡ true → HasPlaceOrWay true neighbours.now.limit now (Some news.now) neighbours.now.entries }
    ensures placed { (history : List Row) → Stands neighbours.now.entries history → PlacedByWay neighbours.now.limit now news.now history result }
{
    match news {
        News::Given { addr, .. } => neighbours.has_way(now, *addr),
        News::Advert { .. } | News::Marked { .. } => true,
    }
}

/// Returns the most rows that report a neighbour that gives way, if `speakers` are let in.
pub fn most_told_of_way(speakers: bool) -> usize
    ensures { result ≡ (if speakers then max_waiting + 1 else 0) }
{
    if speakers { MOST_TOLD } else { 0 }
}

/// Makes room at `now`, in milliseconds, for the neighbour of these news, if `speakers` are let in and the news give its link-layer address: where there is
/// none, the neighbour fails that is INCOMPLETE and was asked for longest, and is reported with the packets that waited for it. Returns its address;
/// remembered next hops are forgotten then. The caller notes its failure once it has taken what else the message says. It takes no memory: the caller has made
/// room.
fn make_way<A: Allocator>(
    neighbours: &mut Cache<A>,
    choice: &mut Choice<A>,
    now: u64,
    news: Option<News>,
    speakers: bool,
    outs: &mut Reports<A>,
) -> Option<Addr>
    requires place { HasPlaceOrWay speakers neighbours.old.limit now news neighbours.old.entries }
    requires room { (if speakers then max_waiting + 1 else 0) ≤ outs.old.free }
    ensures ways { (times : Times) → MakesWay speakers neighbours.old.limit now (option_map (said_by times) news) neighbours.old.entries neighbours.new.entries outs.old.items outs.new.items (option_map (λ gone. number_of gone.0) result) }

    // There is room for the neighbour then, if it enters; no more of what waits for it is released than before.
    ensures released { told_for news neighbours.new.entries ≤ told_for news neighbours.old.entries }
    ensures place { HasPlace neighbours.new.limit now news neighbours.new.entries }
    ensures same { IfNone result ((neighbours.new ≡ neighbours.old) × (choice.new ≡ choice.old) × (outs.new.items ≡ outs.old.items)) }
    ensures forgets { IfSome result (λ _. choice.new ≡ record choice.old { memory = forgotten choice.old.memory }) }
    ensures unsaid { news ≡ None → neighbours.new.entries ≡ neighbours.old.entries }

    // The room that was made for other rows is left.
    ensures len { outs.old.free ≤ outs.new.free + (if speakers then max_waiting + 1 else 0) }
    ensures limit { neighbours.new.limit ≡ neighbours.old.limit }
    ensures waiting { neighbours.new.waiting ≡ neighbours.old.waiting }
    ensures rings { neighbours.new.rings ≡ neighbours.old.rings }
{
    nd_neighbour::laws::room_is_place();
    if !speakers {
        return None;
    }
    match news? {
        News::Given { addr, .. } => {
            let (gone, packets) = neighbours.give_way(now, addr)?;
            choice.changed();
            tell_failure(outs, now, gone, packets);
            Some(gone)
        }
        News::Advert { .. } | News::Marked { .. } => None,
    }
}

/// Takes what a message says of a neighbour at `now`, in milliseconds, if it says anything, as `hear_of_neighbour` does, where another one may give way to it,
/// as `make_way` says. Returns the one that gave way. It takes no memory: the caller has made room.
#[inline(always)]
pub fn hear_giver<A: Allocator>(
    neighbours: &mut Cache<A>,
    choice: &mut Choice<A>,
    now: u64,
    news: Option<News>,
    times: Times,
    speakers: bool,
    outs: &mut Reports<A>,
) -> Option<Addr>
    requires moment { IsMoment now }
    requires span { times.reachable < 2 ^ 62 }
    requires place { HasPlaceOrWay speakers neighbours.old.limit now news neighbours.old.entries }
    requires room { HasRoomFor (if speakers then max_waiting + 1 else 0) outs.old.free news neighbours.old.entries }
    ensures hears { HearsGiver speakers neighbours.old.limit now (option_map (said_by times) news) neighbours.old.entries neighbours.new.entries outs.old.items outs.new.items (option_map (λ gone. number_of gone.0) result) }
    ensures remembers { MayRemember choice.old choice.new neighbours.old.entries neighbours.new.entries }

    // A neighbour whose address is given has an entry then, and without news no entry changes.
    ensures there { IfSome news (λ n. lets_enter n ≡ true → is_some (entry_in (news_key n) neighbours.new.entries) ≡ true) }
    ensures unsaid { news ≡ None → neighbours.new.entries ≡ neighbours.old.entries }

    // The room that was made for other rows is left.
    ensures len { outs.old.free ≤ outs.new.free + (if speakers then max_waiting + 1 else 0) + told_for news neighbours.old.entries }
    ensures most { outs.old.free ≤ outs.new.free + (if speakers then max_waiting + 1 else 0) + most_told }
    ensures limit { neighbours.new.limit ≡ neighbours.old.limit }
    ensures waiting { neighbours.new.waiting ≡ neighbours.old.waiting }
    ensures rings { neighbours.new.rings ≡ neighbours.old.rings }
{
    let gone = make_way(neighbours, choice, now, news, speakers, outs);
    hear_of_neighbour(neighbours, choice, now, news, times, outs);
    gone
}

/// Notes the failure of a neighbour that gave way, if one did: if it is a router, the router failed too, and the redirects to it end (RFC 4861, sections
/// 6.3.6 and 7.3.3).
pub fn note_way<A: Allocator + Clone>(
    routers: &mut Routers<A>,
    choice: &mut Choice<A>,
    gone: Option<Addr>,
)
    ensures notes { NotesWay (option_map (λ addr. number_of addr.0) gone) routers.old routers.new choice.old choice.new }
    ensures same { IfNone gone ((routers.new ≡ routers.old) × (choice.new ≡ choice.old)) }
    ensures forgets { IfSome gone (λ _. choice.new.memory ≡ forgotten choice.old.memory) }
    ensures entries { routers.new.entries ≡ routers.old.entries }
    ensures limit { routers.new.limit ≡ routers.old.limit }
    ensures limits { KeepsRoom choice.old choice.new }
{
    if let Some(addr) = gone {
        routers.failed(addr);
        choice.target_gone(addr);
    }
}
