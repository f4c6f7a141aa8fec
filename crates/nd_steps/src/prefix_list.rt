//! The Prefix List (RFC 4861, section 5.1): the prefixes that Router Advertisements say are on the link.

ghost use Rattle.std.specs.Prelude.{◌≡◌, ◌≤◌, ◌<◌, List};
ghost use Rattle.nd_addr.specs.Prefix.{PrefixValue};
ghost use Rattle.nd_addr.specs.Same.{same_prefix};
ghost use Rattle.nd_decode.specs.Pieces.{options_left};
ghost use Rattle.nd_table.specs.Announcements.{Row, last_moment};
ghost use Rattle.nd_table.specs.Listing.{then_announced, with_room};
ghost use Rattle.nd_routers.specs.OnLinkPrefixes.{prefixes_in};
ghost use Rattle.nd_steps.specs.DestinationCache.{AsStanding, Recollects};
ghost use Rattle.nd_table.specs.ListingKept as lists;
ghost use Rattle.nd_table.specs.Moment.{IsMoment};

use crate::destination_cache::keep_if;
use nd_decode::Options;
use nd_nexthop::Choice;
use nd_routers::Prefixes;
use std::alloc::Allocator;

/// Takes the prefixes that a Router Advertisement says are on the link, at `now`, in milliseconds, but those for which there is no room (RFC 4861, section
/// 6.3.4). Remembered next hops are forgotten, except if prefixes are only refreshed.
pub fn hear_prefixes<A: Allocator>(
    prefixes: &mut Prefixes<A>,
    choice: &mut Choice<A>,
    now: u64,
    options: Options<'_>,
)
    requires moment { IsMoment now }
    ensures stands { (history : List (Row PrefixValue)) → last_moment history ≤ now → lists.Stands same_prefix prefixes.old.entries history → lists.Stands same_prefix prefixes.new.entries (then_announced now (with_room same_prefix prefixes.old.limit now (prefixes_in (options_left options.entry)) prefixes.old.entries) history) }
    ensures recollects { Recollects choice.old choice.new (AsStanding now prefixes.old.entries prefixes.new.entries) }
    ensures redirects { choice.new.redirects ≡ choice.old.redirects }
    ensures limit { prefixes.new.limit ≡ prefixes.old.limit }
{
    let refreshes = prefixes.take_ra(now, options);
    keep_if(choice, refreshes);
}
