//! A message is taken in part, where a table has no room for all of it (RFC 8106, section 5.3.1): what it says of a neighbour for which the table is full, and
//! what the node reports of what is passed over. The definitions are in `specs/Parts.antt`, and in that of nd_chronicle.

ghost use Rattle.std.specs.Prelude.{◌≡◌, ◌+◌, ◌++◌, ◌<◌, ◌≤◌, IfSome, List, false, true, map};
ghost use Rattle.std.specs.Option.{option_map};
ghost use Rattle.nd_chronicle.specs.Happening.{Ignored};
ghost use Rattle.nd_chronicle.specs.Parts.{passed_over};
ghost use Rattle.nd_neighbour.specs.EntryKept.{NeighbourEntry};
ghost use Rattle.nd_neighbour.specs.News.{lets_enter};
ghost use Rattle.nd_neighbour.specs.declared.news.Times.{Times};
ghost use Rattle.nd_out.specs.Out.{limit_of};
ghost use Rattle.nd_steps.specs.NeighbourCache.{said_by, told_for};
ghost use Rattle.nd_steps.specs.Outputs.{at_moment, happenings};
ghost use Rattle.nd_steps.specs.Parts.{said_in_place};

use nd_addr::Addr;
use nd_neighbour::News;
use nd_out::{Limit, Out, Reports};
use std::alloc::Allocator;

/// Returns these news, without the link-layer address that they give if there is no `place` for their neighbour.
pub fn news_in_place(news: Option<News>, place: bool) -> Option<News>
    ensures said { (times : Times) → option_map (said_by times) result ≡ said_in_place place (option_map (said_by times) news) }

    ensures same { place ≡ true → result ≡ news }

    // They let no neighbour enter for which the table has no room, and tell no more than before.
    ensures enters { place ≡ false → IfSome result (λ n. lets_enter n ≡ false) }
    ensures told { (entries : List NeighbourEntry) → told_for result entries ≤ told_for news entries }
{
    if place {
        return news;
    }
    match news? {
        News::Given { addr, mark, .. } => marked(addr, mark),
        News::Advert { addr, flags, .. } => Some(News::Advert {
            addr,
            flags,
            mac: None,
        }),
        News::Marked { addr, router } => Some(News::Marked { addr, router }),
    }
}

/// Returns the news that say whether a neighbour is a router, if that is said.
fn marked(addr: Addr, mark: Option<bool>) -> Option<News>
    ensures { result ≡ option_map (λ router. News.Marked addr router) mark }
{
    match mark {
        Some(router) => Some(News::Marked { addr, router }),
        None => None,
    }
}

/// Reports at `now`, in milliseconds, that a part of a message was passed over for want of room in this table, unless the table has room. It takes no memory:
/// the caller has made room.
pub fn tell_ignored<A: Allocator>(outs: &mut Reports<A>, now: u64, has_room: bool, limit: Limit)
    requires { 0 < outs.old.free }
    ensures told { happenings outs.new.items ≡ happenings outs.old.items ++ at_moment now (map (λ l. Ignored l) (passed_over has_room (limit_of limit))) }
    ensures len { outs.old.free ≤ outs.new.free + 1 }
{
    if !has_room {
        outs.push_reserved((now, Out::Ignored(limit)));
    }
}
