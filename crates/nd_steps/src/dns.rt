//! The DNS servers and search names (RFC 8106, section 6.1).

ghost use Rattle.std.specs.Prelude.{◌≡◌, ◌≤◌, ◌<◌, ℕ, List};
ghost use Rattle.nd_addr.specs.declared.addr.Addr.{Addr};
ghost use Rattle.nd_decode.specs.Pieces.{options_left};
ghost use Rattle.nd_table.specs.Announcements.{Row, last_moment};
ghost use Rattle.nd_table.specs.Listing.{then_announced};
ghost use Rattle.nd_table.specs.Moment.{IsMoment};
ghost use Rattle.nd_dns.specs.AnnouncedNames.{names_told};
ghost use Rattle.nd_dns.specs.AnnouncedNamesKept.{names_to_come};
ghost use Rattle.nd_dns.specs.DnsKept.{new_names, servers_taken, names_taken};
ghost use Rattle.nd_dns.specs.DnsKept as known;

use nd_addr::Addr;
use nd_decode::Options;
use nd_dns::{AnnouncedNames, Dns, NewNames};
use std::alloc::Allocator;

/// Takes the DNS servers and search names of a Router Advertisement at `now`, in milliseconds, but those for which there is no room. `announced` are the
/// names of its options, and `names` copies of those that it adds (RFC 8106, sections 5.3.1 and 6.1).
pub fn hear_dns<A: Allocator>(
    dns: &mut Dns<A>,
    now: u64,
    options: Options<'_>,
    announced: AnnouncedNames<'_>,
    names: NewNames<A>,
)
    requires moment { IsMoment now }
    requires announced { names_to_come announced ≡ names_told (options_left options) }
    requires names { names ≡ new_names now (options_left options) dns.old }
    ensures stands { (servers : List (Row Addr)) (names : List (Row (List ℕ))) → last_moment servers ≤ now → last_moment names ≤ now → known.Stands dns.old servers names
        → known.Stands dns.new (then_announced now (servers_taken now (options_left options.entry) dns.old) servers) (then_announced now (names_taken now (options_left options.entry) dns.old) names) }
    ensures server_limit { dns.new.server_limit ≡ dns.old.server_limit }
    ensures name_limit { dns.new.name_limit ≡ dns.old.name_limit }
{
    dns.take_ra(now, options, announced, names);
}
