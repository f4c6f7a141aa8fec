//! The next hops that a node remembers (RFC 4861, section 5.1, the Destination Cache): when they are forgotten.

ghost use Rattle.std.specs.Prelude.{◌≡◌, ◌&&◌, if◌then◌else◌, []};
ghost use Rattle.nd_nexthop.specs.Memo.{forgotten, is_asked};
ghost use Rattle.nd_slaac.specs.View.{falls_of};
ghost use Rattle.nd_steps.specs.DestinationCache.{ends, last_before_end};

use nd_nexthop::Choice;
use nd_routers::Prefixes;
use nd_slaac::Due;
use std::alloc::Allocator;

/// Keeps the remembered next hops if `keep`, and forgets them otherwise.
pub fn keep_if<A: Allocator>(choice: &mut Choice<A>, keep: bool)
    ensures { choice.new ≡ (if keep then choice.old else record choice.old { memory = forgotten choice.old.memory }) }
{
    if !keep {
        choice.changed();
    }
}

/// Forgets the remembered next hops if one of the node's own addresses has ended.
pub fn forget_if_ended<A: Allocator>(choice: &mut Choice<A>, due: Due)
    ensures { choice.new ≡ (if ends (falls_of due) then record choice.old { memory = forgotten choice.old.memory } else choice.old) }
{
    match due {
        Due::End(_) => choice.changed(),
        Due::Solicit(_) | Due::Assign(_) => {}
    }
}

/// Sets the last moment at which remembered next hops may be used, in milliseconds: the one before the next prefix on the link ends, since prefixes
/// end silently. `none_formed`: no address of the node was formed. If one was, or if the former last moment has passed, the remembered next
/// hops are forgotten.
pub fn keep_until_a_prefix_ends<A: Allocator>(
    choice: &mut Choice<A>,
    prefixes: &Prefixes<A>,
    now: u64,
    none_formed: bool,
)
    ensures redirects { choice.new.redirects ≡ choice.old.redirects }
    ensures hops { choice.new.memory.hops ≡ (if none_formed && is_asked now choice.old.memory.until then choice.old.memory.hops else []) }
    ensures until { choice.new.memory.until ≡ last_before_end now prefixes.now.entries }
{
    let asked = choice.is_asked(now);
    keep_if(choice, none_formed && asked);
    match prefixes.least_end(now) {
        Some(end) => choice.until(Some(end.saturating_sub(1))),
        None => choice.until(None),
    }
}
