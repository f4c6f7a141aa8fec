//! The table of static routes. The definitions are in `specs/Routes.antt`.

ghost use Rattle.std.specs.Prelude.{◌≡◌, ◌≤◌, ◌&&◌, length, true, false, List, [], None, IfOk, OnOk, OnErr, is_ok};
ghost use Rattle.nd_forwarding.specs.History.{Row, RoutePut};
ghost use Rattle.nd_forwarding.specs.KeptRoutes.{routes_left};
ghost use Rattle.indexmap.specs.IndexMap.{insert_entry, spare};
ghost use Rattle.nd_addr.specs.Number.{holds};
ghost use Rattle.nd_addr.specs.Same.{same_prefix};
ghost use Rattle.nd_forwarding.specs.Routes.{fits, has_route, max_routes, route_to, routes};
ghost use Rattle.nd_forwarding.specs.RoutesKept.{exceeds};
ghost use Rattle.nd_forwarding.specs.Table.{GainsRow, Stands};

use crate::kept_routes::KeptRoutes;
use crate::route::Route;
use indexmap::IndexMap;
use nd_addr::{Addr, Prefix};
use std::alloc::{AllocError, Allocator};
use std::hash::{BuildHasherDefault, FoldHasher};
use std::marker::Model;

/// The greatest limit on static routes (our choice).
pub const MAX_ROUTES: usize = 64;

/// The table of static routes is full.
#[derive(Clone, Copy, Debug, PartialEq, Eq)]
pub struct Full;

/// Routes by their prefixes, in the order in which the prefixes were first put.
type Entries<A> = IndexMap<Prefix, Route, BuildHasherDefault<FoldHasher>, A>;

/// The static routes of a router, and when it last made a Redirect. Moments are in milliseconds.
#[derive(Drop)]
pub struct Routes<A: Allocator> {
    limit: usize,
    routes: Entries<A>,
    pub(crate) redirected: Option<u64>,
}

impl<A: Allocator> Model for Routes<A> {
    ghost use Rattle.std.specs.Prelude.{◌≤◌, ◌+◌, length};
    ghost use Rattle.indexmap.specs.IndexMap.{spare};
    ghost use Rattle.nd_addr.specs.Number.{holds};
    ghost use Rattle.nd_forwarding.specs.Routes.{max_routes};
    ghost use Rattle.nd_forwarding.specs.RoutesKept.{exceeds};
    ghost use Rattle.nd_forwarding.specs.Table.{Table};

    ghost Value = { Table };

    ghost view = { λ r. record { limit = r.limit; entries = r.routes.entries; redirected = r.redirected } };

    ghost invariant = { λ r. (length r.routes.entries ≤ r.limit) × (r.limit ≤ length r.routes.entries + spare r.routes) × (r.limit ≤ max_routes) };
}

impl<A: Allocator + Copy> Routes<A> {
    /// Returns an empty table with room for `limit` routes, 1 to 64. Returns an error if out of memory.
    pub fn new(alloc: A, limit: usize) -> Result<Self, AllocError>
        requires least { 1 ≤ limit }
        requires most { limit ≤ max_routes }
        ensures empty { IfOk result (λ r. r ≡ record { limit = limit; entries = []; redirected = None }) }
        ensures stands { IfOk result (λ r. Stands r []) }
    {
        Ok(Routes {
            limit,
            routes: IndexMap::with_capacity(alloc, limit)?,
            redirected: None,
        })
    }
}

impl<A: Allocator> Routes<A> {
    /// Returns the number of routes, at most the limit.
    pub fn len(&self) -> usize
        ensures value { result ≡ length self.now.entries }
        ensures few { result ≤ self.now.limit }
    {
        self.routes.len()
    }

    /// Puts a route: at the end if its prefix has none, and otherwise in place of the existing one. Returns `Full` if a new prefix would be one
    /// more than the limit; nothing has changed then. It takes no memory.
    pub fn put(&mut self, prefix: Prefix, route: Route) -> Result<(), Full>
        ensures full { is_ok result ≡ fits self.old.limit prefix self.old.entries }
        ensures by_history { (history : List Row) → Stands self.old history → is_ok result ≡ fits self.old.limit prefix (routes history) }
        ensures stands { OnOk result (GainsRow self.old self.new (RoutePut prefix route)) }
        ensures limit { self.new.limit ≡ self.old.limit }
        ensures same { OnErr result (self.new ≡ self.old) }
    {
        if replace(&mut self.routes, prefix, route) {
            return Ok(());
        }
        if self.routes.len() >= self.limit {
            return Err(Full);
        }
        match self.routes.insert(prefix, route) {
            Ok(_) => Ok(()),
            Err(_) => unreachable!(),
        }
    }

    /// Returns the routes, in the order in which their prefixes were first put.
    pub fn rows(&self) -> KeptRoutes<'_>
        ensures value { routes_left result ≡ self.now.entries }
        ensures few { length (routes_left result) ≤ self.now.limit }
        ensures by_history { (history : List Row) → Stands self.now history → routes_left result ≡ routes history }
    {
        KeptRoutes::new(self.routes.iter())
    }

    /// Returns the route to an address: of the prefixes that hold it, that of the longest.
    #[tactic(auto, using(crate::proofs::Longest::found_all))]
    pub fn look(&self, destination: Addr) -> Option<Route>
        ensures value { result ≡ route_to destination.0 self.now.entries }
        ensures by_history { (history : List Row) → Stands self.now history → result ≡ route_to destination.0 (routes history) }
    {
        let mut longest: Option<(u8, Route)> = None;
        for (prefix, route) in self.routes.iter() {
            if is_longer(prefix, destination, longest) {
                longest = Some((prefix.length(), *route));
            }
        }
        match longest {
            Some((_, route)) => Some(route),
            None => None,
        }
    }
}

/// Replaces the route of a prefix. Returns false if the prefix has none; nothing has changed then.
fn replace<A: Allocator>(entries: &mut Entries<A>, prefix: Prefix, route: Route) -> bool
    ensures found { result ≡ has_route prefix entries.old.entries }
    ensures entries { result ≡ true → entries.new.entries ≡ insert_entry same_prefix entries.old.entries prefix route }
    ensures len { result ≡ true → length entries.new.entries ≡ length entries.old.entries }
    ensures room { result ≡ true → spare entries.new ≡ spare entries.old }
    ensures same { result ≡ false → entries.new ≡ entries.old }
{
    match entries.get_index_of(&prefix) {
        Some(i) => {
            if let Some(there) = entries.get_index_mut(i) {
                *there = route;
            }
            true
        }
        None => false,
    }
}

/// Returns true if a prefix holds an address and is longer than the one found so far, if there is one.
fn is_longer(prefix: &Prefix, destination: Addr, found: Option<(u8, Route)>) -> bool
    ensures { result ≡ (holds prefix.now destination.0 && exceeds prefix.now.length found) }
{
    prefix.holds(destination)
        && match found {
            Some((length, _)) => length < prefix.length(),
            None => true,
        }
}
