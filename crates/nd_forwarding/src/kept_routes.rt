//! The static routes as typed values. The definitions are in `specs/KeptRoutes.antt`.

use crate::route::Route;
use indexmap::map::Iter;
use nd_addr::Prefix;

/// A static route.
#[derive(Clone, Copy, Debug, PartialEq, Eq)]
pub struct KeptRoute {
    pub prefix: Prefix,
    /// The way of packets to the addresses of the prefix.
    pub route: Route,
}

/// The static routes, in the order in which their prefixes were first put.
#[derive(Drop)]
pub struct KeptRoutes<'a> {
    rest: Iter<'a, Prefix, Route>,
}

impl<'a> KeptRoutes<'a> {
    ghost use Rattle.std.specs.Prelude.{◌≡◌};
    ghost use Rattle.nd_forwarding.specs.KeptRoutes.{routes_left};

    pub(crate) fn new(rest: Iter<'a, Prefix, Route>) -> Self
        ensures { routes_left result ≡ rest.entry }
    {
        KeptRoutes { rest }
    }
}

impl Iterator for KeptRoutes<'_> {
    type Item = KeptRoute;

    ghost use Rattle.std.specs.Iterator.{YieldsFirstBy, item_count};
    ghost use Rattle.nd_forwarding.specs.KeptRoutes.{routes_left, entry_of};

    ghost next_gives = { YieldsFirstBy entry_of routes_left };

    ghost remaining = { item_count routes_left };

    fn next(&mut self) -> Option<KeptRoute> {
        match self.rest.next() {
            Some((prefix, route)) => Some(KeptRoute {
                prefix: *prefix,
                route: *route,
            }),
            None => None,
        }
    }
}
