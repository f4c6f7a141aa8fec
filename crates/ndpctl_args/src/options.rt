//! The values of the options of `run` and `link`, read.

ghost use Rattle.std.specs.Prelude.{◌≡◌, ◌≤◌, ℕ, Some, MatchOption, codes, is_some, true, IfErr, IfNone, IfOk, IfSome};
ghost use Rattle.clap.specs.Words.{first_of, found_of, rows_of};
ghost use Rattle.nd_random.specs.declared.source.Source.{Source};
ghost use Rattle.ndpctl_args.specs.CommandLine.{GivesAsked, RefusesGiven, carrier_named, role_named};
ghost use Rattle.ndpctl_args.specs.CommandLine.{GiveCounts, GivesCount, GivesDraws, GivesMac, GivesTransmits, LimitIsBad, MacIsBad, limit_options, numbers_of, place_of, policies_given};

use crate::asked::{Asked, Carrier, Refused};
use crate::command::{ROUTER, UDP};
use clap::ArgMatches;
use nd_addr::{Mac, Role};
use nd_advertiser::MAX_OFFERS;
use nd_dns::{MAX_NAMES, MAX_SERVERS};
use nd_forwarding::MAX_ROUTES;
use nd_neighbour::MAX_NEIGHBOURS;
use nd_nexthop::{MAX_REDIRECTS, MAX_REMEMBERED};
use nd_node::{Limits, Policies};
use nd_packet::MAX_WAITING;
use nd_random::Source;
use nd_routers::{MAX_PREFIXES, MAX_ROUTERS};
use nd_slaac::{MAX_ADDRESSES, Transmits};
use ndpctl_run::{RunOptions, read_count, read_policies, read_source, read_transmits};

/// Returns the role that the value of `--role` names. `clap` accepts no other values.
fn read_role(given: &ArgMatches<'_>) -> Role
    ensures { result ≡ role_named (first_of (codes "role") (rows_of (found_of given.now))) }
{
    let Some(name) = given.get_str("role") else {
        return Role::Host;
    };
    if name == ROUTER {
        return Role::Router;
    }
    Role::Host
}

/// Returns the Ethernet address that the value of `--mac` spells.
fn given_mac(given: &ArgMatches<'_>) -> Option<Mac>
    ensures found { IfSome result (λ mac. GivesMac (rows_of (found_of given.now)) mac.0) }
    ensures none { IfNone result (MacIsBad (rows_of (found_of given.now))) }
{
    let word = given.get_str("mac")?;
    match Mac::parse(word.as_bytes()) {
        Ok(mac) => Some(mac),
        Err(_) => None,
    }
}

/// Returns the source of random words that the value of `--draws` names.
fn given_draws(given: &ArgMatches<'_>) -> Option<Source>
    ensures found { IfSome result (λ source. GivesDraws (rows_of (found_of given.now)) source) }
    ensures none { IfNone result ((source : Source) → GivesDraws (rows_of (found_of given.now)) source → ⊥) }
{
    let word = given.get_str("draws")?;
    read_source(word.as_bytes())
}

/// Returns the number of solicitations that the value of `--transmits` says.
fn given_transmits(given: &ArgMatches<'_>) -> Option<Transmits>
    ensures found { IfSome result (λ transmits. GivesTransmits (rows_of (found_of given.now)) transmits) }
    ensures none { IfNone result ((transmits : ℕ) → GivesTransmits (rows_of (found_of given.now)) transmits → ⊥) }
{
    let word = given.get_str("transmits")?;
    read_transmits(word.as_bytes())
}

/// Returns the value of the option `name` if it is a number from 1 to `most`.
fn given_count(given: &ArgMatches<'_>, name: &str, most: u64) -> Option<u64>
    ensures found { IfSome result (λ n. GivesCount name.now most (rows_of (found_of given.now)) n) }
    ensures range { IfSome result (λ n. (1 ≤ n) × (n ≤ most)) }
    ensures none { IfNone result ((n : ℕ) → GivesCount name.now most (rows_of (found_of given.now)) n → ⊥) }
{
    let word = given.get_str(name)?;
    read_count(word.as_bytes(), most)
}

/// Returns the value of the option `name` if it is a number from 1 to `most`, and else `refused`.
fn given_limit(
    given: &ArgMatches<'_>,
    name: &str,
    most: usize,
    refused: Refused,
) -> Result<u16, Refused>
    requires { most ≤ 65535 }
    ensures found { IfOk result (λ n. GivesCount name.now most (rows_of (found_of given.now)) n) }
    ensures range { IfOk result (λ n. (1 ≤ n) × (n ≤ most)) }
    ensures wrong { IfErr result (λ why. (why ≡ refused) × ((n : ℕ) → GivesCount name.now most (rows_of (found_of given.now)) n → ⊥)) }
{
    match given_count(given, name, most as u64) {
        Some(number) => Ok(number as u16),
        None => Err(refused),
    }
}

/// Returns the limits that a call gave.
fn chosen(limits: Option<Limits>) -> Limits
    requires { is_some limits ≡ true }
    ensures { limits ≡ Some result }
{
    match limits {
        Some(limits) => limits,
        None => unreachable!(),
    }
}

/// Returns the limits that the values of their options say, or the first bad value in the order of `Refused`.
fn read_limits(given: &ArgMatches<'_>) -> Result<Limits, Refused>
    ensures right { IfOk result (λ limits. GiveCounts (rows_of (found_of given.now)) limit_options (numbers_of limits)) }
    ensures wrong { IfErr result (λ why. MatchOption (place_of why) ⊥ (λ place. LimitIsBad place (rows_of (found_of given.now)))) }
{
    let limits = Limits::usual();
    let neighbours = given_limit(given, "neighbours", MAX_NEIGHBOURS, Refused::Neighbours)?;
    let limits = chosen(limits.with_neighbours(neighbours));
    let routers = given_limit(given, "routers", MAX_ROUTERS, Refused::Routers)?;
    let limits = chosen(limits.with_routers(routers));
    let prefixes = given_limit(given, "prefixes", MAX_PREFIXES, Refused::Prefixes)?;
    let limits = chosen(limits.with_prefixes(prefixes));
    let addresses = given_limit(given, "addresses", MAX_ADDRESSES, Refused::Addresses)?;
    let limits = chosen(limits.with_addresses(addresses));
    let servers = given_limit(given, "servers", MAX_SERVERS, Refused::Servers)?;
    let limits = chosen(limits.with_servers(servers));
    let names = given_limit(given, "names", MAX_NAMES, Refused::Names)?;
    let limits = chosen(limits.with_names(names));
    let redirects = given_limit(given, "redirects", MAX_REDIRECTS, Refused::Redirects)?;
    let limits = chosen(limits.with_redirects(redirects));
    let destinations = given_limit(given, "destinations", MAX_REMEMBERED, Refused::Destinations)?;
    let limits = chosen(limits.with_destinations(destinations));
    let offers = given_limit(given, "offers", MAX_OFFERS, Refused::Offers)?;
    let limits = chosen(limits.with_offers(offers));
    let routes = given_limit(given, "routes", MAX_ROUTES, Refused::Routes)?;
    let limits = chosen(limits.with_routes(routes));
    let waiting = given_limit(given, "waiting", MAX_WAITING, Refused::Waiting)?;
    Ok(chosen(limits.with_waiting(waiting)))
}

/// Returns the policies that the value of `--policy` names.
fn given_policies(given: &ArgMatches<'_>) -> Option<Policies>
    ensures { result ≡ policies_given (rows_of (found_of given.now)) }
{
    match given.get_str("policy") {
        Some(text) => read_policies(text),
        None => Some(Policies::none()),
    }
}

/// Returns the run that the values of the options ask for, or the first bad value in the order of `Refused`.
pub(crate) fn read_run(given: &ArgMatches<'_>) -> Result<Asked, Refused>
    ensures right { IfOk result (GivesAsked (rows_of (found_of given.now))) }
    ensures wrong { IfErr result (RefusesGiven (rows_of (found_of given.now))) }
{
    let Some(mac) = given_mac(given) else {
        return Err(Refused::Mac);
    };
    let Some(generator) = given_draws(given) else {
        return Err(Refused::Draws);
    };
    let Some(transmits) = given_transmits(given) else {
        return Err(Refused::Transmits);
    };
    let limits = read_limits(given)?;
    let Some(policies) = given_policies(given) else {
        return Err(Refused::Policy);
    };
    Ok(Asked::Run(RunOptions {
        role: read_role(given),
        mac,
        transmits,
        limits,
        policies,
        generator,
    }))
}

/// Returns the carrier that the value of `--wire` names. `clap` accepts no other values.
pub(crate) fn read_wire(given: &ArgMatches<'_>) -> Carrier
    ensures { result ≡ carrier_named (first_of (codes "wire") (rows_of (found_of given.now))) }
{
    let Some(name) = given.get_str("wire") else {
        return Carrier::Memory;
    };
    if name == UDP {
        return Carrier::Udp;
    }
    Carrier::Memory
}
