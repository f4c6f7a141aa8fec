//! The node's own addresses (RFC 4862, section 5): which advertisements form them, what another node's claim to one does, and which frames are
//! for them.

ghost use Rattle.std.specs.Prelude.{◌≡◌, ◌+◌, ◌++◌, ◌≤◌, not, ◌↔◌, true, ◌<◌, ◌&&◌, ◌∷◌, List, [], ℕ, false, if◌then◌else◌};
ghost use Rattle.nd_addr.specs.Number.{number_of, addr_at};
ghost use Rattle.nd_slaac.specs.PrefixOption.{link_local_of, prefixes_in};
ghost use Rattle.nd_addr.specs.Kind.{all_nodes_address, all_routers_address};
ghost use Rattle.nd_addr.specs.declared.role.Role.TheVariants.{Router};
ghost use Rattle.nd_chronicle.specs.Happening.{Chronicle};
ghost use Rattle.nd_chronicle.specs.Hearing.{conflicts_with, takes_target, is_awake};
ghost use Rattle.nd_chronicle.specs.Histories.{address_history};
ghost use Rattle.nd_chronicle.specs.Start.{Start};
ghost use Rattle.nd_decode.specs.declared.prefix_info.PrefixInfo.{PrefixInfo};
ghost use Rattle.nd_decode.specs.Pieces.{options_left};
ghost use Rattle.nd_slaac.specs.Room.{with_room};
ghost use Rattle.nd_slaac.specs.Calls.{keys_in};
ghost use Rattle.nd_chronicle.specs.RouterAdvertisement.{then_options};
ghost use Rattle.nd_steps.specs.DestinationCache.{forms_none};
ghost use Rattle.nd_steps.specs.OwnAddresses.{delay_from, Forms, Conflicts};
ghost use Rattle.nd_nexthop.specs.Memo.{forgotten};
ghost use Rattle.nd_slaac.specs.History.{Row, Conflict, story};
ghost use Rattle.nd_slaac.specs.State.{is_tentative};
ghost use Rattle.nd_decode.specs.declared.body.Body.TheVariants as bodies;
ghost use Rattle.nd_table.specs.Moment.{IsMoment};
ghost use Rattle.nd_slaac.specs.TableKept as own_addresses;

use crate::destination_cache::keep_if;
use crate::draws::{MAX_RTR_SOLICITATION_DELAY, drawn_from};
use nd_addr::{Addr, Role};
use nd_decode::{Body, Options, PrefixInfo};
use nd_nexthop::Choice;
use nd_out::{Out, Reports};
use nd_slaac::{Addresses, Counted};
use rand_core::Rng;
use std::alloc::Allocator;

/// Returns the link-local address of the node (RFC 4862, section 5.3).
pub fn link_local<A: Allocator>(addresses: &Addresses<A>) -> Addr
    ensures { result ≡ addr_at (link_local_of addresses.now.mac) }
{
    nd_addr::laws::addresses_are_told_by_numbers();
    let own = addresses.link_local();
    let _bytes = own.as_bytes();
    own
}

/// Returns true if `destination` is the all-nodes address (RFC 4291, section 2.7.1).
pub fn is_to_nodes(destination: Addr) -> bool
    ensures { result ≡ true ↔ (destination.0 ≡ all_nodes_address) }
{
    destination == Addr::ALL_NODES
}

/// Returns true if the node is a router and `destination` is the all-routers address (RFC 4291, section 2.7.1).
pub fn is_to_routers(role: Role, destination: Addr) -> bool
    ensures { result ≡ true ↔ ((role ≡ Router) × (destination.0 ≡ all_routers_address)) }
{
    match role {
        Role::Router => destination == Addr::ALL_ROUTERS,
        Role::Host => false,
    }
}

/// Returns true if a message shows that another node has an address or tries it: an advertisement for it, or a solicitation for it from the
/// unspecified address (RFC 4862, sections 5.4.3 and 5.4.4).
fn conflicts_with(address: Addr, source: Addr, body: &Body) -> bool
    ensures { result ≡ conflicts_with address.0 source body.now }
{
    match body {
        Body::Ns(ns) => ns.target == address && source.is_unspecified(),
        Body::Na(na) => na.target == address,
        Body::Rs | Body::Ra(_) | Body::Redirect(_) => false,
    }
}

/// Returns true if the node handles a solicitation for `target`: it answers for an assigned address, and a tentative one may be a duplicate (RFC
/// 4861, section 7.2.3).
fn is_own_target<A: Allocator>(addresses: &Addresses<A>, source: Addr, target: Addr) -> bool
    ensures { (c : Chronicle) → own_addresses.Stands addresses.now.addresses (address_history c) → result ≡ takes_target c source (bodies.Ns (record { target = target })) }
{
    if addresses.counts(Counted::Assigned, target) {
        return true;
    }
    addresses.counts(Counted::Own, target) && source.is_unspecified()
}

/// Returns false for a solicitation whose target the node doesn't handle, and true for any other message (RFC 4861, section 7.2.3).
pub fn takes_target<A: Allocator>(addresses: &Addresses<A>, source: Addr, body: &Body) -> bool
    ensures { (c : Chronicle) → own_addresses.Stands addresses.now.addresses (address_history c) → result ≡ takes_target c source body.now }
{
    match body {
        Body::Ns(ns) => is_own_target(addresses, source, ns.target),
        Body::Rs | Body::Ra(_) | Body::Na(_) | Body::Redirect(_) => true,
    }
}

/// Returns true if the link-local address is assigned, or if the message makes it a duplicate (our choice: a node must have a link-local address).
pub fn is_awake<A: Allocator>(addresses: &Addresses<A>, source: Addr, body: &Body) -> bool
    ensures { (start : Start) (c : Chronicle) → own_addresses.Stands addresses.now.addresses (address_history c) → addresses.now.mac ≡ start.mac → result ≡ is_awake start c source body.now }
{
    nd_addr::laws::addresses_are_told_by_numbers();
    let own = addresses.link_local();
    let _bytes = own.as_bytes();
    if addresses.counts(Counted::Assigned, own) {
        return true;
    }
    addresses.counts(Counted::Own, own) && conflicts_with(own, source, body)
}

/// Returns the delay of the first solicitation for an address, in milliseconds. It is drawn if the address is formed by an advertisement to all
/// nodes (RFC 4862, section 5.4.2), and otherwise 0.
fn delay<R: Rng>(generator: &mut R, to_all: bool, forms: bool) -> u32
    ensures { (result, R.stream generator.new) ≡ delay_from (to_all && forms) (R.stream generator.old) }
{
    if !to_all || !forms {
        return 0;
    }
    drawn_from(generator, 0, MAX_RTR_SOLICITATION_DELAY) as u32
}

/// Takes a prefix option of a Router Advertisement, which may form an address (RFC 4862, section 5.5.3). One that would form an address for which there is
/// no room is passed over, and nothing is drawn for it. `now` and `retrans`, the RetransTimer in force, are in milliseconds. Returns true if it forms one.
fn hear_prefix_option<R: Rng, A: Allocator>(
    addresses: &mut Addresses<A>,
    generator: &mut R,
    now: u64,
    info: &PrefixInfo,
    to_all: bool,
    retrans: u32,
) -> bool
    requires moment { IsMoment now }
    ensures forms { (start : Start) (c : Chronicle) → Forms start addresses.old (R.stream generator.old) retrans c
        → Forms start addresses.new (R.stream generator.new) retrans (then_options start now to_all (with_room addresses.old.limit addresses.old.mac (keys_in addresses.old.addresses) (info.now ∷ [])) c) }
    ensures room { (infos : List PrefixInfo) → with_room addresses.old.limit addresses.old.mac (keys_in addresses.old.addresses) (info.now ∷ infos)
        ≡ with_room addresses.old.limit addresses.old.mac (keys_in addresses.old.addresses) (info.now ∷ []) ++ with_room addresses.new.limit addresses.new.mac (keys_in addresses.new.addresses) infos }
    ensures none { forms_none addresses.old.mac (keys_in addresses.old.addresses) (with_room addresses.old.limit addresses.old.mac (keys_in addresses.old.addresses) (info.now ∷ [])) ≡ not result }
    ensures same { result ≡ false → keys_in addresses.new.addresses ≡ keys_in addresses.old.addresses }
    ensures mac { addresses.new.mac ≡ addresses.old.mac }
{
    let forms = addresses.would_form(info);
    if forms && !addresses.has_room() {
        return false;
    }
    let delay = delay(generator, to_all, forms);
    match addresses.heard_prefix(now, info, delay, retrans) {
        Ok(_) => forms,
        Err(_) => unreachable!(),
    }
}

/// Takes the prefix options of a Router Advertisement in their order, but those that would form an address for which there is no room (RFC 4862, section
/// 5.5.3). `now` and `retrans`, the RetransTimer in force, are in milliseconds. Returns true if they form none.
#[tactic(auto, using(nd_slaac::proofs::OfType::prefixes_by_first))]
pub fn hear_prefix_options<R: Rng, A: Allocator>(
    addresses: &mut Addresses<A>,
    generator: &mut R,
    now: u64,
    options: Options<'_>,
    to_all: bool,
    retrans: u32,
) -> bool
    requires moment { IsMoment now }
    ensures forms { (start : Start) (c : Chronicle) → Forms start addresses.old (R.stream generator.old) retrans c
        → Forms start addresses.new (R.stream generator.new) retrans (then_options start now to_all (with_room addresses.old.limit addresses.old.mac (keys_in addresses.old.addresses) (prefixes_in (options_left options.entry))) c) }
    ensures none { result ≡ forms_none addresses.old.mac (keys_in addresses.old.addresses) (with_room addresses.old.limit addresses.old.mac (keys_in addresses.old.addresses) (prefixes_in (options_left options.entry))) }
{
    let mut rest = options;
    let mut none_formed = true;
    while let Some(info) = rest.next_prefix() {
        if hear_prefix_option(addresses, generator, now, &info, to_all, retrans) {
            none_formed = false;
        }
    }
    none_formed
}

/// Makes a tentative address a duplicate, since another node has it or tries it (RFC 4862, sections 5.4.3 and 5.4.4), and forgets remembered next
/// hops then. Returns true if the address was tentative. It takes no memory.
#[inline(always)]
pub fn hear_conflict<A: Allocator>(
    addresses: &mut Addresses<A>,
    choice: &mut Choice<A>,
    target: Addr,
) -> bool
    ensures tentative { (history : List Row) → own_addresses.Stands addresses.old.addresses history → result ≡ is_tentative (story (number_of target.0) history) }
    ensures gains { result ≡ true → (at : ℕ) → own_addresses.GainsRow addresses.old.addresses addresses.new.addresses (at, number_of target.0, Conflict) }
    ensures same { result ≡ false → addresses.new ≡ addresses.old }
    ensures remembers { choice.new ≡ (if result then record choice.old { memory = forgotten choice.old.memory } else choice.old) }
    ensures mac { addresses.new.mac ≡ addresses.old.mac }
    ensures limit { addresses.new.limit ≡ addresses.old.limit }
    ensures transmits { addresses.new.transmits ≡ addresses.old.transmits }
{
    let tentative = addresses.conflict(target);
    keep_if(choice, !tentative);
    tentative
}

/// Notes at `now`, in milliseconds, that another node has an address: a tentative address is a duplicate from now on, and that is reported (RFC
/// 4862, section 5.4.4). Remembered next hops are forgotten then. Returns true if the address was tentative. It takes no memory: the caller has
/// made room.
pub fn hear_holder<A: Allocator>(
    addresses: &mut Addresses<A>,
    choice: &mut Choice<A>,
    now: u64,
    target: Addr,
    outs: &mut Reports<A>,
) -> bool
    requires { 1 ≤ outs.old.free }
    ensures conflicts { Conflicts now (number_of target.0) addresses.old.addresses addresses.new.addresses outs.old.items outs.new.items result }
    ensures remembers { choice.new ≡ (if result then record choice.old { memory = forgotten choice.old.memory } else choice.old) }
    ensures mac { addresses.new.mac ≡ addresses.old.mac }
    ensures limit { addresses.new.limit ≡ addresses.old.limit }
    ensures transmits { addresses.new.transmits ≡ addresses.old.transmits }
    ensures len { outs.old.free ≤ outs.new.free + 1 }
{
    if hear_conflict(addresses, choice, target) {
        outs.push_reserved((now, Out::Duplicate(target)));
        return true;
    }
    false
}
