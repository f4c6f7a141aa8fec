//! The words of a script that spell a static route of a router.

ghost use Rattle.std.specs.Prelude.{◌≡◌, Some, IfSome};
ghost use Rattle.std.specs.Option.{IsSomeAnd};
ghost use Rattle.nd_addr.specs.Prefix.{PrefixValue};
ghost use Rattle.nd_forwarding.specs.declared.route.Route as routes;
ghost use Rattle.ndpctl_run.specs.Route.{IsRoute, IsWay};

use crate::address::read_address;
use crate::prefix::read_prefix;
use crate::words::two_words;
use nd_forwarding::{KeptRoute, Route};

/// Returns the way of a route that a word spells: `direct`, or the address of a router.
fn read_way(word: &[u8]) -> Option<Route>
    ensures found { IfSome result (λ route. IsWay word.now route) }
    ensures only { (route : routes.Route) → IsWay word.now route → result ≡ Some route }
{
    if word == b"direct".as_slice() {
        return Some(Route::Direct);
    }
    Some(Route::Via(read_address(word)?))
}

/// Returns the route that the words of a text spell: a prefix, and the way of the packets to it.
pub(crate) fn read_route(text: &[u8]) -> Option<KeptRoute>
    ensures found { IfSome result (λ kept. IsRoute text.now kept.prefix kept.route) }
    ensures only { (prefix : PrefixValue) (route : routes.Route) → IsRoute text.now prefix route → IsSomeAnd result (λ kept. (kept.prefix ≡ prefix) × (kept.route ≡ route)) }
{
    let (prefix, way) = two_words(text)?;
    let prefix = read_prefix(prefix)?;
    let route = read_way(way)?;
    Some(KeptRoute { prefix, route })
}
