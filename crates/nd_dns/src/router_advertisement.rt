ghost use Rattle.std.specs.Prelude.{◌≡◌, ◌≤◌, ◌<◌, ◌↔◌, ℕ, List, [], length, IfOk, IfErr, OnOk, OnErr, IsErr, IsOk, true, false, ◌&&◌, ◌⊎◌, if◌then◌else◌};
ghost use Rattle.std.specs.Result.{IsErrAnd};
ghost use Rattle.nd_addr.specs.declared.addr.Addr.{Addr};
ghost use Rattle.nd_addr.specs.Same.{same_addr};
ghost use Rattle.nd_decode.specs.Pieces.{options_left};
ghost use Rattle.nd_table.specs.declared.lasting.Lasting.{Lasting};
ghost use Rattle.nd_table.specs.Announcements.{Row, last_moment};
ghost use Rattle.nd_table.specs.Listing.{fits, then_announced, Lists};
ghost use Rattle.nd_table.specs.ListingKept.{Distinct, entered};
ghost use Rattle.nd_table.specs.Moment.{IsMoment};
ghost use Rattle.nd_table.specs.Refreshing.{only_refreshes};
ghost use Rattle.nd_dns.specs.Dns.{max_servers};
ghost use Rattle.nd_dns.specs.AnnouncedServers.{servers_told};
ghost use Rattle.nd_dns.specs.AnnouncedNamesKept.{names_to_come};

use crate::announced_names::AnnouncedNames;
use crate::announced_servers::AnnouncedServers;
use crate::dns::{Dns, MAX_NAMES, MAX_SERVERS};
use crate::new_names::{NewNames, announce_names, copies};
use nd_addr::Addr;
use nd_decode::{Options, SERVER_BYTES};
use nd_table::{Lasting, Limit, TableRefusal, announce_all, fits_all, only_refreshes};
use std::alloc::{AllocError, Allocator};

impl<A: Allocator> Dns<A> {
    ghost use Rattle.nd_dns.specs.DnsKept.{Stands, after, new_names, servers_taken, names_taken};
    ghost use Rattle.nd_dns.specs.AnnouncedNames.{same_name, names_told};

    /// Returns true if there is room for the servers that the options of a Router Advertisement announce at `now`, in milliseconds, taken in order.
    /// It takes no memory.
    pub fn fits_servers(&self, now: u64, options: Options<'_>) -> bool
        ensures value { result ≡ fits same_addr self.now.server_limit now (servers_told (options_left options.entry)) self.now.servers }
        ensures by_history { (history : List (Row Addr)) (names : List (Row (List ℕ))) (es : List (Lasting Addr)) → Stands self.now history names → last_moment history ≤ now → Lists same_addr history now es
            → result ≡ fits same_addr self.now.server_limit now (servers_told (options_left options.entry)) es }
    {
        servers_fit(&self.servers, self.server_limit, now, options)
    }

    /// Returns true if there is room at `now`, in milliseconds, for the search names that they announce, taken in order. It takes no memory.
    pub fn fits_names(&self, now: u64, options: Options<'_>) -> bool
        ensures value { result ≡ fits same_name self.now.name_limit now (names_told (options_left options.entry)) self.now.names }
        ensures by_history { (servers : List (Row Addr)) (history : List (Row (List ℕ))) (es : List (Lasting (List ℕ))) → Stands self.now servers history → last_moment history ≤ now → Lists same_name history now es
            → result ≡ fits same_name self.now.name_limit now (names_told (options_left options.entry)) es }
        ensures quiet { entered same_name now (names_told (options_left options.entry)) self.now.names ≡ [] → result ≡ true }
    {
        let told = AnnouncedNames::new(options);
        let mut kept = [None; 2 * MAX_NAMES];
        fits_all(&self.names, self.name_limit, now, told, &mut kept)
    }

    /// Takes the servers and search names of a Router Advertisement at `now`, in milliseconds, in order, with copies of the names that it adds (RFC
    /// 8106, section 6.1): each enters or is refreshed, and a lifetime of 0 removes it. Returns `Full` if the servers or the names are too many at
    /// some point, and names the servers first; the table is unchanged. It takes no memory.
    pub fn heard_ra(
        &mut self,
        now: u64,
        options: Options<'_>,
        names: NewNames<A>,
    ) -> Result<(), TableRefusal>
        requires moment { IsMoment now }
        requires names { names ≡ new_names now (options_left options) self.old }

        ensures stands { OnOk result ((servers : List (Row Addr)) (names : List (Row (List ℕ))) → last_moment servers ≤ now → last_moment names ≤ now → Stands self.old servers names
            → Stands self.new (then_announced now (servers_told (options_left options.entry)) servers) (then_announced now (names_told (options_left options.entry)) names)) }
        ensures value { OnOk result (self.new ≡ after now (options_left options.entry) self.old) }

        // It is refused exactly if the servers or the names, taken in order, are too many at some point.
        ensures full { IsErr result ↔ ((fits same_addr self.old.server_limit now (servers_told (options_left options.entry)) self.old.servers && fits same_name self.old.name_limit now (names_told (options_left options.entry)) self.old.names) ≡ false) }
        ensures refusal { IfErr result (λ refusal. refusal ≡ TableRefusal.Full (if fits same_addr self.old.server_limit now (servers_told (options_left options.entry)) self.old.servers then Limit.Names else Limit.Servers)) }
        ensures same { OnErr result (self.new ≡ self.old) }
    {
        if !self.fits_servers(now, options) {
            return Err(TableRefusal::Full(Limit::Servers));
        }
        if !self.fits_names(now, options) {
            return Err(TableRefusal::Full(Limit::Names));
        }
        self.take_ra(now, options, AnnouncedNames::new(options), names);
        Ok(())
    }

    /// Does what `heard_ra` does, but passes over servers and names for which there is no room. `announced` are the search names of the options. It
    /// takes no memory.
    pub fn take_ra(
        &mut self,
        now: u64,
        options: Options<'_>,
        announced: AnnouncedNames<'_>,
        names: NewNames<A>,
    )
        requires moment { IsMoment now }
        requires announced { names_to_come announced ≡ names_told (options_left options) }
        requires names { names ≡ new_names now (options_left options) self.old }

        ensures stands { (servers : List (Row Addr)) (names : List (Row (List ℕ))) → last_moment servers ≤ now → last_moment names ≤ now → Stands self.old servers names
            → Stands self.new (then_announced now (servers_taken now (options_left options.entry) self.old) servers) (then_announced now (names_taken now (options_left options.entry) self.old) names) }
        ensures value { self.new ≡ after now (options_left options.entry) self.old }
    {
        let told_servers = AnnouncedServers::new(options);
        announce_all(&mut self.servers, self.server_limit, now, told_servers);
        announce_names(&mut self.names, self.name_limit, now, announced, names);
    }
}

/// Returns true if there is room for the servers that the options announce, taken in order.
fn servers_fit(entries: &[Lasting<Addr>], limit: usize, now: u64, options: Options<'_>) -> bool
    requires distinct { Distinct same_addr entries.now }
    requires few { length entries.now ≤ limit }
    requires limit { limit ≤ max_servers }
    ensures { result ≡ fits same_addr limit now (servers_told (options_left options.entry)) entries.now }
{
    // Mostly there is room for as many as the bytes of the options could be.
    if entries.len() + options.byte_len() / SERVER_BYTES <= limit {
        return true;
    }
    servers_fit_in_order(entries, limit, now, options)
}

/// Returns the same by a walk over the servers. The names that it keeps are locals of this function, since a function pays for all of its locals at
/// each call.
fn servers_fit_in_order(
    entries: &[Lasting<Addr>],
    limit: usize,
    now: u64,
    options: Options<'_>,
) -> bool
    requires distinct { Distinct same_addr entries.now }
    requires few { length entries.now ≤ limit }
    requires limit { limit ≤ max_servers }
    ensures { result ≡ fits same_addr limit now (servers_told (options_left options.entry)) entries.now }
{
    let mut kept = [None; 2 * MAX_SERVERS];
    let told = AnnouncedServers::new(options);
    fits_all(entries, limit, now, told, &mut kept)
}

impl<A: Allocator + Clone> Dns<A> {
    ghost use Rattle.nd_dns.specs.Dns.{max_names};
    ghost use Rattle.nd_dns.specs.DnsKept.{names_added, new_names};
    ghost use Rattle.nd_dns.specs.AnnouncedNames.{same_name, names_told};

    /// Copies the search names that they add at `now`, in milliseconds, each as often as it enters: the only part of hearing them that takes memory.
    /// Returns `Full` if there is no room for the names that they announce, before anything is copied, and `Memory` if out of memory. If they add none
    /// it takes no memory.
    pub fn names(&self, now: u64, options: Options<'_>) -> Result<NewNames<A>, TableRefusal>
        ensures value { IfOk result (λ names. names ≡ new_names now (options_left options.entry) self.now) }

        // There is no room exactly if the names, taken in order, are too many at some point.
        ensures full { IsErrAnd result (λ refusal. refusal ≡ TableRefusal.Full Limit.Names) ↔ (fits same_name self.now.name_limit now (names_told (options_left options.entry)) self.now.names ≡ false) }
        ensures refusal { IfErr result (λ refusal. (refusal ≡ TableRefusal.Full Limit.Names) ⊎ (refusal ≡ TableRefusal.Memory)) }

        // If no name is added it succeeds, even if no memory is left.
        ensures quiet { entered same_name now (names_told (options_left options.entry)) self.now.names ≡ [] → IsOk result }
    {
        if !self.fits_names(now, options) {
            return Err(TableRefusal::Full(Limit::Names));
        }
        match self.new_names(now, AnnouncedNames::new(options)) {
            Ok(names) => Ok(names),
            Err(_) => Err(TableRefusal::Memory),
        }
    }

    /// Copies the search names that are announced and enter at `now`, in milliseconds, each as often as it enters, but those for which there is no
    /// room. Returns an error if out of memory. If none enters it takes no memory.
    pub fn new_names(
        &self,
        now: u64,
        announced: AnnouncedNames<'_>,
    ) -> Result<NewNames<A>, AllocError>
        ensures value { IfOk result (λ names. names ≡ names_added now (names_to_come announced.entry) self.now) }

        // If no name is added it succeeds, even if no memory is left.
        ensures quiet { names_added now (names_to_come announced.entry) self.now ≡ [] → IsOk result }
    {
        copies(&self.alloc, &self.names, self.name_limit, now, announced)
    }

    /// Returns true if the names that are announced only refresh those that are known at `now`, in milliseconds: each is, and no lifetime is 0. It
    /// takes no memory.
    pub fn only_refreshes_names(&self, now: u64, announced: AnnouncedNames<'_>) -> bool
        ensures value { result ≡ only_refreshes same_name now (names_to_come announced.entry) self.now.names }

        // Then none is added, and there is room for them.
        ensures none { result ≡ true → names_added now (names_to_come announced.entry) self.now ≡ [] }
        ensures fits { result ≡ true → fits same_name self.now.name_limit now (names_to_come announced.entry) self.now.names ≡ true }
    {
        only_refreshes(&self.names, now, announced)
    }
}
