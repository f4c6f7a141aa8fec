use nd_addr::Addr;
use nd_decode::{OPTION_RECURSIVE_DNS_SERVER, OptionRef, Options, Servers};
use nd_table::Announces;

/// The DNS servers that the options of a Router Advertisement announce, with the lifetimes of their options (RFC 8106, section 5.1).
#[derive(Clone, Copy, Debug)]
pub(crate) struct AnnouncedServers<'a> {
    /// What is left of the current option.
    servers: Option<Servers<'a>>,
    /// Its lifetime, in seconds.
    lifetime: u32,
    /// The options after it.
    options: Options<'a>,
}

impl<'a> AnnouncedServers<'a> {
    ghost use Rattle.std.specs.Prelude.{◌≡◌};
    ghost use Rattle.nd_decode.specs.Pieces.{options_left};
    ghost use Rattle.nd_dns.specs.AnnouncedServers.{servers_told};
    ghost use Rattle.nd_dns.specs.AnnouncedServersKept.{servers_to_come};

    /// Returns the servers of these options.
    pub(crate) fn new(options: Options<'a>) -> Self
        ensures { servers_to_come result ≡ servers_told (options_left options.entry) }
    {
        AnnouncedServers {
            servers: None,
            lifetime: 0,
            options,
        }
    }
}

impl Announces<Addr, Addr> for AnnouncedServers<'_> {
    ghost use Rattle.nd_dns.specs.AnnouncedServersKept.{servers_to_come};

    ghost told = { servers_to_come };

    #[tactic(auto, using(crate::proofs::OfType::servers_from))]
    fn next_told(&mut self) -> Option<(Addr, u32)> {
        if let Some(server) = next_of(&mut self.servers) {
            return Some((server, self.lifetime));
        }
        while let Some(option) = self.options.next_of_type(OPTION_RECURSIVE_DNS_SERVER) {
            if let OptionRef::Rdnss(lifetime, servers) = option {
                self.lifetime = lifetime;
                self.servers = Some(servers);
                if let Some(server) = next_of(&mut self.servers) {
                    return Some((server, lifetime));
                }
            }
        }
        None
    }
}

ghost use Rattle.std.specs.Prelude.{◌≡◌, [], ◌∷◌, MatchOption};
ghost use Rattle.nd_dns.specs.AnnouncedServersKept.{at_hand};

/// Returns the next server of the current option.
fn next_of(servers: &mut Option<Servers<'_>>) -> Option<Addr>
    ensures { MatchOption result ((at_hand servers.old ≡ []) × (at_hand servers.new ≡ [])) (λ server. at_hand servers.old ≡ server ∷ at_hand servers.new) }
{
    match servers {
        Some(servers) => servers.next(),
        None => None,
    }
}
