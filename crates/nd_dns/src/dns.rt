ghost use Rattle.std.specs.Prelude.{◌≡◌, ◌≤◌, ◌∷◌, ℕ, List, [], length, map, IfOk};
ghost use Rattle.nd_addr.specs.declared.addr.Addr.{Addr};
ghost use Rattle.nd_addr.specs.Same.{same_addr};
ghost use Rattle.nd_table.specs.declared.lasting.Lasting.{Lasting};
ghost use Rattle.nd_table.specs.Announcements.{Row, Cleared, last_moment};
ghost use Rattle.nd_dns.specs.Dns.{max_servers, max_names};
ghost use Rattle.nd_table.specs.Listing.{open_at};
ghost use Rattle.nd_table.specs.Left.{lifetimes_left};
ghost use Rattle.nd_table.specs.Shown.{seen, Shows};

use crate::search_name::SearchName;
use nd_addr::Addr;
use nd_table::{Lasting, WithLifetimes};
use std::alloc::{AllocError, Allocator};
use std::marker::Model;

/// The greatest limit on servers (our choice).
pub const MAX_SERVERS: usize = 32;

/// The greatest limit on search names (our choice).
pub const MAX_NAMES: usize = 32;

/// The DNS servers and search names that a host has heard of, each list in the order in which they were added (RFC 8106, section 6.1).
#[derive(Drop)]
pub struct Dns<A: Allocator> {
    pub(crate) alloc: A,
    pub(crate) server_limit: usize,
    pub(crate) name_limit: usize,
    pub(crate) servers: Vec<Lasting<Addr>, A>,
    pub(crate) names: Vec<Lasting<SearchName<A>>, A>,
}

impl<A: Allocator> Model for Dns<A> {
    ghost use Rattle.std.specs.Prelude.{◌≤◌};
    ghost use Rattle.std.specs.Vec.{vec_len, vec_capacity};
    ghost use Rattle.nd_table.specs.ListingKept.{Distinct};
    ghost use Rattle.nd_addr.specs.Same.{same_addr};
    ghost use Rattle.nd_dns.specs.Dns.{max_servers, max_names};
    ghost use Rattle.nd_dns.specs.DnsKept.{Table};
    ghost use Rattle.nd_dns.specs.AnnouncedNames.{same_name};

    ghost Value = { Table };

    ghost view = { λ d. record { server_limit = d.server_limit; name_limit = d.name_limit; servers = d.servers.items; names = d.names.items } };

    ghost invariant = { λ d. (vec_len d.servers ≤ d.server_limit) × (d.server_limit ≤ vec_capacity d.servers) × Distinct same_addr d.servers.items
        × (vec_len d.names ≤ d.name_limit) × (d.name_limit ≤ vec_capacity d.names) × Distinct same_name d.names.items
        × (d.server_limit ≤ max_servers) × (d.name_limit ≤ max_names) };
}

impl<A: Allocator + Clone> Dns<A> {
    ghost use Rattle.nd_dns.specs.DnsKept.{Stands};

    /// Returns empty lists with room for `server_limit` servers and `name_limit` search names, 1 to 32 of each, all of it reserved here. Returns an
    /// error if out of memory.
    pub fn new(alloc: A, server_limit: usize, name_limit: usize) -> Result<Self, AllocError>
        requires least_servers { 1 ≤ server_limit }
        requires most_servers { server_limit ≤ max_servers }
        requires least_names { 1 ≤ name_limit }
        requires most_names { name_limit ≤ max_names }
        ensures empty { IfOk result (λ dns. dns ≡ record { server_limit = server_limit; name_limit = name_limit; servers = []; names = [] }) }
        ensures stands { IfOk result (λ dns. Stands dns [] []) }
    {
        let servers = Vec::with_capacity(alloc.clone()?, server_limit)?;
        let names = Vec::with_capacity(alloc.clone()?, name_limit)?;
        Ok(Dns {
            alloc,
            server_limit,
            name_limit,
            servers,
            names,
        })
    }
}

impl<A: Allocator> Dns<A> {
    ghost use Rattle.nd_dns.specs.Dns.{max_servers, max_names};
    ghost use Rattle.nd_dns.specs.DnsKept.{Stands};
    ghost use Rattle.nd_dns.specs.AnnouncedNames.{same_name};

    /// Returns the servers that haven't ended at `now`, with what is left of their lifetimes, both in milliseconds, in the order in which they
    /// entered the list. It takes no memory.
    pub fn servers(&self, now: u64) -> WithLifetimes<'_, Addr>
        ensures value { lifetimes_left result ≡ map (seen now) (open_at now self.now.servers) }
        ensures lists { (history : List (Row Addr)) (names : List (Row (List ℕ))) → Stands self.now history names → last_moment history ≤ now → Shows same_addr history now (lifetimes_left result) }
    {
        WithLifetimes::new(&self.servers, now)
    }

    /// Returns the number of servers in the list, at most the limit. Those that have ended but weren't yet removed are counted.
    pub fn servers_len(&self) -> usize
        ensures value { result ≡ length self.now.servers }
        ensures few { result ≤ self.now.server_limit }
    {
        self.servers.len()
    }

    /// Returns the number of search names in the list, at most the limit. Those that have ended but weren't yet removed are counted.
    pub fn search_names_len(&self) -> usize
        ensures value { result ≡ length self.now.names }
        ensures few { result ≤ self.now.name_limit }
    {
        self.names.len()
    }

    /// Returns the search names that haven't ended at `now`, with what is left of their lifetimes, both in milliseconds, in the order in which they
    /// entered the list. It takes no memory.
    pub fn search_names(&self, now: u64) -> WithLifetimes<'_, SearchName<A>>
        ensures value { lifetimes_left result ≡ map (seen now) (open_at now self.now.names) }
        ensures lists { (servers : List (Row Addr)) (history : List (Row (List ℕ))) → Stands self.now servers history → last_moment history ≤ now → Shows same_name history now (lifetimes_left result) }
    {
        WithLifetimes::new(&self.names, now)
    }

    /// Removes all servers and search names.
    pub fn clear(&mut self)
        ensures value { self.new ≡ record { server_limit = self.old.server_limit; name_limit = self.old.name_limit; servers = []; names = [] } }
        ensures stands { (at : ℕ) (servers : List (Row Addr)) (names : List (Row (List ℕ))) → Stands self.new (Cleared at ∷ servers) (Cleared at ∷ names) }
    {
        self.servers.clear();
        self.names.clear();
    }
}
