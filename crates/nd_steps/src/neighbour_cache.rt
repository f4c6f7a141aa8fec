//! The Neighbor Cache (RFC 4861, section 5.1): what messages and packets do to it, and what the node reports of them.

ghost use Rattle.std.specs.Prelude.{◌≡◌, List, Some, None, true, false, ◌+◌, ◌<◌, ◌≤◌, length, IfOk, IsOk, OnOk, ◌-◌, ◌++◌, ◌^◌, IfSome, if◌then◌else◌, is_some, map, [], ◌∷◌};
ghost use Rattle.std.specs.Option.{option_map};
ghost use Rattle.nd_neighbour.specs.declared.news.Times.{Times};
ghost use Rattle.nd_neighbour.specs.History.{Row};
ghost use Rattle.nd_neighbour.specs.TableKept.{Stands, entry_in};
ghost use Rattle.nd_chronicle.specs.Start.{Start};
ghost use Rattle.nd_chronicle.specs.Happening.{Chronicle, Sent, Forgotten, Lost, Resolved};
ghost use Rattle.nd_chronicle.specs.Histories.{neighbour_history};
ghost use Rattle.nd_chronicle.specs.Full.{entering, Placed};
ghost use Rattle.nd_chronicle.specs.Message.{makes_way};
ghost use Rattle.nd_steps.specs.GivingWay.{HasPlaceOrWay};
ghost use Rattle.nd_steps.specs.NeighbourCache.{said_by, HasPlace, HasRoomFor, most_told, told_for, HearsOf, PlacedBy, rows_of_wish, told_of_packet, told_of_wish};
ghost use Rattle.nd_addr.specs.Number.{number_of};
ghost use Rattle.nd_addr.specs.Frame.{addressed};
ghost use Rattle.nd_table.specs.Moment.{IsMoment};
ghost use Rattle.nd_neighbour.specs.News.{lets_enter, news_key};
ghost use Rattle.nd_steps.specs.DestinationCache.{MayRemember, begins, begins_by};
ghost use Rattle.nd_steps.specs.Outputs.{at_moment, happenings};
ghost use Rattle.nd_neighbour.specs.View.{sending_of, wanting_of};
ghost use Rattle.nd_nexthop.specs.Memo.{forgotten};

use crate::destination_cache::keep_if;
use crate::giving_way::has_way_with;
use nd_addr::{Addr, Mac};
use nd_compose::FrameRoom;
use nd_neighbour::{Cache, News, Times, Use, Want};
use nd_nexthop::Choice;
use nd_out::{Loss, Out, Reports};
use nd_packet::{Packet, Packets};
use std::alloc::{AllocError, Allocator};

/// Returns true if there is room at `now`, in milliseconds, for the neighbour of these news, in case they add it.
fn has_place_with<A: Allocator>(neighbours: &Cache<A>, now: u64, news: &News) -> bool
    ensures room { result ≡ true → HasPlaceOrWay false neighbours.now.limit now (Some news.now) neighbours.now.entries }
    ensures placed { (history : List Row) → Stands neighbours.now.entries history → PlacedBy neighbours.now.limit now news.now history result }
{
    nd_neighbour::laws::full_by_history();
    nd_neighbour::laws::room_is_place();
    match news {
        News::Given { addr, .. } => neighbours.room(now, *addr, None),
        News::Advert { .. } | News::Marked { .. } => true,
    }
}

/// Returns true if there is room at `now`, in milliseconds, for the neighbour of these news, in case there are news and they add it, or if `speakers` are let
/// in and another one gives way to it.
#[inline(always)]
pub fn has_place<A: Allocator>(
    neighbours: &Cache<A>,
    now: u64,
    news: Option<News>,
    speakers: bool,
) -> bool
    ensures room { result ≡ true → HasPlaceOrWay speakers neighbours.now.limit now news neighbours.now.entries }
    ensures placed { (start : Start) (c : Chronicle) (times : Times) → neighbours.now.limit ≡ start.limits.neighbours → speakers ≡ start.policies.speakers → Stands neighbours.now.entries (neighbour_history c) → Placed start c now (makes_way start (option_map (said_by times) news)) (entering (option_map (said_by times) news)) result }
{
    match news {
        Some(news) if speakers => has_way_with(neighbours, now, &news),
        Some(news) => has_place_with(neighbours, now, &news),
        None => true,
    }
}

/// Makes room for a packet to a neighbour: for one row and, if the neighbour isn't there, for the solicitation of its link-layer address, which is
/// returned, and a ring. Returns an error if out of memory; no more than room has been made then.
pub fn ready_for<A: Allocator + Clone>(
    neighbours: &mut Cache<A>,
    to: Addr,
    outs: &mut Reports<A>,
) -> Result<Option<FrameRoom<A>>, AllocError>
    ensures place { OnOk result (0 < outs.new.free) }
    ensures ring { OnOk result (entry_in (number_of to.0) neighbours.old.entries ≡ None → 0 < neighbours.new.rings) }
    ensures solicitation { IfOk result (λ room. entry_in (number_of to.0) neighbours.old.entries ≡ None → is_some room ≡ true) }
    ensures none { IfOk result (λ room. is_some (entry_in (number_of to.0) neighbours.old.entries) ≡ true → is_some room ≡ false) }

    // If the neighbour is there, it asks for no memory where there is a place.
    ensures ready { is_some (entry_in (number_of to.0) neighbours.old.entries) ≡ true → 0 < outs.old.free → IsOk result }
    ensures entries { neighbours.new.entries ≡ neighbours.old.entries }
    ensures limit { neighbours.new.limit ≡ neighbours.old.limit }
    ensures waiting { neighbours.new.waiting ≡ neighbours.old.waiting }
    ensures same { outs.new.items ≡ outs.old.items }
{
    outs.reserve(1)?;
    if neighbours.seek(to) {
        return Ok(None);
    }
    let solicitation = FrameRoom::new(outs.allocator().clone()?)?;
    if neighbours.ready(1).is_err() {
        return Err(AllocError);
    }
    Ok(Some(solicitation))
}

/// Makes room for the wish for a neighbour's link-layer address: for the row of the answer and, if the neighbour isn't there, for that of the solicitation of
/// the address, which is returned, and a ring. Returns an error if out of memory; no more than room has been made then.
pub fn ready_for_wish<A: Allocator + Clone>(
    neighbours: &mut Cache<A>,
    to: Addr,
    outs: &mut Reports<A>,
) -> Result<Option<FrameRoom<A>>, AllocError>
    ensures place { IfOk result (λ room. rows_of_wish room ≤ outs.new.free) }
    ensures ring { OnOk result (entry_in (number_of to.0) neighbours.old.entries ≡ None → 0 < neighbours.new.rings) }
    ensures solicitation { IfOk result (λ room. entry_in (number_of to.0) neighbours.old.entries ≡ None → is_some room ≡ true) }

    // If the neighbour is there, it asks for no memory where there is a place.
    ensures ready { is_some (entry_in (number_of to.0) neighbours.old.entries) ≡ true → 0 < outs.old.free → IsOk result }
    ensures entries { neighbours.new.entries ≡ neighbours.old.entries }
    ensures limit { neighbours.new.limit ≡ neighbours.old.limit }
    ensures waiting { neighbours.new.waiting ≡ neighbours.old.waiting }
    ensures same { outs.new.items ≡ outs.old.items }
{
    match ready_for(neighbours, to, outs)? {
        None => Ok(None),
        Some(solicitation) => {
            outs.reserve(2)?;
            Ok(Some(solicitation))
        }
    }
}

/// Makes room for a packet to one neighbour and then one to a second: for each, the solicitation of its link-layer address, what is reported, and a
/// ring, since making the first entry may evict the second. Returns an error if out of memory; no more than room has been made then.
pub fn ready_for_two<A: Allocator + Clone>(
    neighbours: &mut Cache<A>,
    outs: &mut Reports<A>,
) -> Result<(FrameRoom<A>, FrameRoom<A>), AllocError>
    ensures place { OnOk result (2 ≤ outs.new.free) }
    ensures rings { OnOk result (2 ≤ neighbours.new.rings) }
    ensures entries { neighbours.new.entries ≡ neighbours.old.entries }
    ensures limit { neighbours.new.limit ≡ neighbours.old.limit }
    ensures waiting { neighbours.new.waiting ≡ neighbours.old.waiting }
    ensures same { outs.new.items ≡ outs.old.items }
{
    let first = FrameRoom::new(outs.allocator().clone()?)?;
    let second = FrameRoom::new(outs.allocator().clone()?)?;
    outs.reserve(2)?;
    if neighbours.ready(2).is_err() {
        return Err(AllocError);
    }
    Ok((first, second))
}

/// Returns the neighbour of these news.
fn neighbour_in(news: &News) -> Addr
    ensures { number_of result.0 ≡ news_key news.now }
{
    match news {
        News::Given { addr, .. } | News::Advert { addr, .. } | News::Marked { addr, .. } => *addr,
    }
}

/// Returns the number of rows that tell that the link-layer address of the neighbour of these news is known, if they give it, and 0 if there are no
/// news.
pub fn told_for<A: Allocator>(neighbours: &Cache<A>, news: Option<News>) -> usize
    ensures value { result ≡ told_for news neighbours.now.entries }
    ensures few { result ≤ most_told }
    ensures limit { result ≤ neighbours.now.waiting + 1 }
{
    match news {
        Some(news) => neighbours.told_at(neighbour_in(&news)),
        None => 0,
    }
}

/// Reports packets as sent to an Ethernet address, the oldest first.
fn send_each<A: Allocator>(outs: &mut Reports<A>, at: u64, mac: Mac, packets: Packets<A>)
    requires { length packets ≤ outs.old.free }
    ensures told { happenings outs.new.items ≡ happenings outs.old.items ++ at_moment at (map (λ packet. Sent (addressed mac packet)) packets) }
    ensures len { outs.old.free ≤ outs.new.free + length packets }
{
    let mut rest = packets;
    while let Some(packet) = rest.take() {
        outs.push_reserved((at, Out::Frame(packet.addressed(mac))));
    }
}

/// Reports that the link-layer address of a neighbour is known: its packets are sent there, the oldest first, and behind them the address is reported if a
/// caller wanted it.
fn tell_known<A: Allocator>(
    outs: &mut Reports<A>,
    at: u64,
    neighbour: Addr,
    mac: Mac,
    packets: Packets<A>,
    wanted: bool,
)
    requires { length packets + (if wanted then 1 else 0) ≤ outs.old.free }
    ensures told { happenings outs.new.items ≡ happenings outs.old.items ++ at_moment at (map (λ packet. Sent (addressed mac packet)) packets ++ (if wanted then Resolved (number_of neighbour.0) (number_of mac.0) ∷ [] else [])) }
    ensures len { outs.old.free ≤ outs.new.free + length packets + (if wanted then 1 else 0) }
{
    send_each(outs, at, mac, packets);
    if !wanted {
        return;
    }
    outs.push_reserved((at, Out::Resolved(neighbour, mac)));
}

/// Takes what a message says of a neighbour, sends the packets that waited for the address that it gives, and tells the address if a caller waited.
/// Returns true if it says that a router is no longer one.
fn hear_news<A: Allocator>(
    neighbours: &mut Cache<A>,
    choice: &mut Choice<A>,
    now: u64,
    news: News,
    times: Times,
    outs: &mut Reports<A>,
) -> bool
    requires moment { IsMoment now }
    requires span { times.reachable < 2 ^ 62 }
    requires place { HasPlace neighbours.old.limit now (Some news) neighbours.old.entries }
    requires room { HasRoomFor 0 outs.old.free (Some news) neighbours.old.entries }
    ensures hears { HearsOf neighbours.old.limit now (Some (said_by times news)) neighbours.old.entries neighbours.new.entries outs.old.items outs.new.items result }
    ensures remembers { MayRemember choice.old choice.new neighbours.old.entries neighbours.new.entries }
    ensures there { lets_enter news ≡ true → is_some (entry_in (news_key news) neighbours.new.entries) ≡ true }
    ensures len { outs.old.free ≤ outs.new.free + told_for (Some news) neighbours.old.entries }
    ensures most { outs.old.free ≤ outs.new.free + most_told }
    ensures limit { neighbours.new.limit ≡ neighbours.old.limit }
    ensures waiting { neighbours.new.waiting ≡ neighbours.old.waiting }
    ensures rings { neighbours.new.rings ≡ neighbours.old.rings }
{
    nd_addr::laws::addresses_are_told_by_numbers();
    nd_neighbour::laws::released_to_the_given_address();
    let mac = news.mac();
    match neighbours.heard(now, news, times) {
        Ok(touched) => {
            keep_if(choice, touched.was_known);
            let _few = touched.released.len();
            let ends_router = touched.ends_router;
            let wanted = touched.was_wanted;
            match mac {
                Some(mac) => tell_known(
                    outs,
                    now,
                    neighbour_in(&news),
                    mac,
                    touched.released,
                    wanted,
                ),
                None => {}
            }
            ends_router
        }
        Err(_) => unreachable!(),
    }
}

/// Takes what a message says of a neighbour at `now`, if it says anything, with the times in force, sends the packets that waited for the address that
/// it gives, and tells the address behind them if a caller waited (RFC 4861, sections 6.2.6, 6.3.4, 7.2.3, 7.2.5 and 8.3). Moment and times are in
/// milliseconds. Returns true if the message says that a router is no longer one. Remembered next hops are forgotten if the neighbour's link-layer address wasn't known. It takes no memory:
/// the caller has made room.
pub fn hear_of_neighbour<A: Allocator>(
    neighbours: &mut Cache<A>,
    choice: &mut Choice<A>,
    now: u64,
    news: Option<News>,
    times: Times,
    outs: &mut Reports<A>,
) -> bool
    requires moment { IsMoment now }
    requires span { times.reachable < 2 ^ 62 }
    requires place { HasPlace neighbours.old.limit now news neighbours.old.entries }
    requires room { HasRoomFor 0 outs.old.free news neighbours.old.entries }
    ensures hears { HearsOf neighbours.old.limit now (option_map (said_by times) news) neighbours.old.entries neighbours.new.entries outs.old.items outs.new.items result }
    ensures remembers { MayRemember choice.old choice.new neighbours.old.entries neighbours.new.entries }

    // A neighbour whose address is given has an entry then, and without news no entry changes.
    ensures there { IfSome news (λ n. lets_enter n ≡ true → is_some (entry_in (news_key n) neighbours.new.entries) ≡ true) }
    ensures unsaid { news ≡ None → neighbours.new.entries ≡ neighbours.old.entries }

    // The room that was made for other rows is left.
    ensures len { outs.old.free ≤ outs.new.free + told_for news neighbours.old.entries }
    ensures most { outs.old.free ≤ outs.new.free + most_told }

    ensures limit { neighbours.new.limit ≡ neighbours.old.limit }
    ensures waiting { neighbours.new.waiting ≡ neighbours.old.waiting }
    ensures rings { neighbours.new.rings ≡ neighbours.old.rings }
{
    match news {
        Some(news) => hear_news(neighbours, choice, now, news, times, outs),
        None => false,
    }
}

/// Forgets remembered next hops if a packet began the resolution of a neighbour: that neighbour is new, and may have evicted another one.
pub fn note_use<A: Allocator>(choice: &mut Choice<A>, used: &Use<A>)
    ensures { choice.new ≡ (if begins (sending_of used.now) then record choice.old { memory = forgotten choice.old.memory } else choice.old) }
{
    match used {
        Use::Queued { solicit: true, .. } => choice.changed(),
        Use::Queued { .. } | Use::Send(_, _) => {}
    }
}

/// Reports at `at`, in milliseconds, what became of a packet to a neighbour (RFC 4861, sections 7.2.2 and 7.3.3), in at most one row. `mac` and
/// `own` are the node's link-layer address and its link-local address. It takes no memory: the caller has made room.
pub fn tell_use<A: Allocator>(
    outs: &mut Reports<A>,
    at: u64,
    room: Option<FrameRoom<A>>,
    mac: Mac,
    own: Addr,
    to: Addr,
    used: Use<A>,
)
    requires room { 0 < outs.old.free }
    requires ready { begins (sending_of used) ≡ true → is_some room ≡ true }
    ensures told { happenings outs.new.items ≡ happenings outs.old.items ++ at_moment at (told_of_packet mac own (number_of to.0) (sending_of used)) }
    ensures one { outs.old.free ≤ outs.new.free + 1 }
{
    nd_addr::laws::addresses_are_told_by_numbers();
    match used {
        Use::Send(destination, packet) => {
            let _bytes = destination.as_bytes();
            outs.push_reserved((at, Out::Frame(packet.addressed(destination))));
        }
        Use::Queued { solicit: true, .. } => match room {
            Some(room) => {
                let _bytes = to.as_bytes();
                outs.push_reserved((at, Out::Frame(room.resolution(mac, own, to))));
            }
            None => unreachable!(),
        },
        Use::Queued {
            replaced: Some(oldest),
            ..
        } => outs.push_reserved((at, Out::Lost(Loss::Replaced, oldest))),
        Use::Queued { replaced: None, .. } => {}
    }
}

/// Forgets remembered next hops if the wish for a neighbour's address began its resolution, as `note_use` does.
pub fn note_wish<A: Allocator>(choice: &mut Choice<A>, want: Want)
    ensures { choice.new ≡ (if begins_by (wanting_of want) then record choice.old { memory = forgotten choice.old.memory } else choice.old) }
{
    match want {
        Want::Waits { solicit: true } => choice.changed(),
        Want::Waits { .. } | Want::Known(_) => {}
    }
}

/// Reports at `at`, in milliseconds, the solicitation that the resolution of `to` began with, if the wish for its link-layer address began it (RFC 4861,
/// section 7.2.2). `mac` and `own` are the node's link-layer address and its link-local address. It takes no memory: the caller has made room for the
/// solicitation, and for one row more, which is left.
pub fn tell_wish<A: Allocator>(
    outs: &mut Reports<A>,
    at: u64,
    room: Option<FrameRoom<A>>,
    mac: Mac,
    own: Addr,
    to: Addr,
    want: Want,
)
    requires room { rows_of_wish room ≤ outs.old.free }
    requires ready { begins_by (wanting_of want) ≡ true → is_some room ≡ true }
    ensures told { happenings outs.new.items ≡ happenings outs.old.items ++ at_moment at (told_of_wish mac own (number_of to.0) (wanting_of want)) }
    ensures left { 0 < outs.new.free }
{
    nd_addr::laws::addresses_are_told_by_numbers();
    match want {
        Want::Waits { solicit: true } => match room {
            Some(room) => {
                let _bytes = to.as_bytes();
                outs.push_reserved((at, Out::Frame(room.resolution(mac, own, to))));
            }
            None => unreachable!(),
        },
        Want::Waits { solicit: false } => {}
        Want::Known(_) => {}
    }
}

/// Reports at `at`, in milliseconds, that the packets that waited for neighbours which a command removes are lost, in their order. It takes no
/// memory: the caller has made room.
pub fn tell_packets<A: Allocator>(outs: &mut Reports<A>, at: u64, packets: Vec<Packet<A>, A>)
    requires { length packets.items ≤ outs.old.free }
    ensures { happenings outs.new.items ≡ happenings outs.old.items ++ at_moment at (map (λ packet. Lost Forgotten packet) packets.items) }
{
    for packet in packets {
        outs.push_reserved((at, Out::Lost(Loss::Forgotten, packet)));
    }
}
