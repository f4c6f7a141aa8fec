//! What a message says of a neighbour: its link-layer address, and whether it is a router.

ghost use Rattle.std.specs.Prelude.{◌≡◌, ◌<◌, None, Some, true};
ghost use Rattle.std.specs.Option.{option_map};
ghost use Rattle.nd_addr.specs.Number.{number_of};
ghost use Rattle.nd_decode.specs.Pieces.{options_left};
ghost use Rattle.nd_chronicle.specs.Histories.{given_or_marked, mark_of_target, said_of_neighbour, said_of_source};
ghost use Rattle.nd_chronicle.specs.LinkLayerAddress.{first_slla, first_tlla};
ghost use Rattle.nd_chronicle.specs.NeighborSolicitation.{answer_address};
ghost use Rattle.nd_chronicle.specs.Reading.{is_group, is_passed_over, without};
ghost use Rattle.nd_steps.specs.NeighbourCache.{said_by};

use nd_addr::{Addr, Mac};
use nd_decode::{
    Body, OPTION_SOURCE_LINK_LAYER_ADDRESS, OPTION_TARGET_LINK_LAYER_ADDRESS, OptionRef, Options,
    Redirect,
};
use nd_neighbour::{Flags, News, Times};

/// The bit of the first byte of a link-layer address that says that it is a group's (RFC 7042, section 2.1).
const GROUP: u8 = 1;

/// Returns true if this is a group's link-layer address.
fn is_group(mac: Mac) -> bool
    ensures { result ≡ is_group mac }
{
    mac.0[0] & GROUP != 0
}

/// Returns true if an option that gives `mac` is passed over: `own` is the node's own link-layer address, and no other node has `mac`, since it is a
/// group's, with the lowest bit of its first byte set (RFC 7042, section 2.1), zeros, or `own`. Without `own` none is passed over.
pub(crate) fn is_passed_over(mac: Mac, own: Option<Mac>) -> bool
    ensures { result ≡ is_passed_over own mac }
{
    match own {
        Some(own) => is_group(mac) || mac.0 == [0; 6] || mac.0 == own.0,
        None => false,
    }
}

/// Returns the first Source Link-Layer Address that isn't passed over (RFC 4861, section 4.6.1).
#[tactic(auto, using(crate::proofs::OfType::first_slla_from))]
pub(crate) fn first_slla(options: Options<'_>, own: Option<Mac>) -> Option<Mac>
    ensures { result ≡ first_slla (without own (options_left options.entry)) }
{
    let mut rest = options;
    while let Some(option) = rest.next_of_type(OPTION_SOURCE_LINK_LAYER_ADDRESS) {
        if let OptionRef::Slla(mac) = option {
            if !is_passed_over(mac, own) {
                return Some(mac);
            }
        }
    }
    None
}

/// Returns the first Target Link-Layer Address that isn't passed over (RFC 4861, section 4.6.1).
#[tactic(auto, using(crate::proofs::OfType::first_tlla_from))]
fn first_tlla(options: Options<'_>, own: Option<Mac>) -> Option<Mac>
    ensures { result ≡ first_tlla (without own (options_left options.entry)) }
{
    let mut rest = options;
    while let Some(option) = rest.next_of_type(OPTION_TARGET_LINK_LAYER_ADDRESS) {
        if let OptionRef::Tlla(mac) = option {
            if !is_passed_over(mac, own) {
                return Some(mac);
            }
        }
    }
    None
}

/// Returns the news that give a neighbour's link-layer address and say whether it is a router, if the message says that; without an address, only
/// the latter.
fn given_or_marked(addr: Addr, mac: Option<Mac>, mark: Option<bool>) -> Option<News>
    ensures { (times : Times) → option_map (said_by times) result ≡ given_or_marked (number_of addr.0) mac mark }
{
    match mac {
        Some(mac) => Some(News::Given { addr, mac, mark }),
        None => match mark {
            Some(router) => Some(News::Marked { addr, router }),
            None => None,
        },
    }
}

/// Returns the same for the source of a solicitation; an unspecified source is no neighbour.
fn given_by_source(source: Addr, mac: Option<Mac>, mark: Option<bool>) -> Option<News>
    ensures { (times : Times) → option_map (said_by times) result ≡ said_of_source source mac mark }
{
    if source.is_unspecified() {
        return None;
    }
    given_or_marked(source, mac, mark)
}

/// Returns what a Redirect says of its target, which is a router if it is not the destination (RFC 4861, section 8.3).
fn given_by_redirect(redirect: &Redirect, mac: Option<Mac>) -> Option<News>
    ensures { (times : Times) → option_map (said_by times) result ≡ given_or_marked (number_of redirect.now.target.0) mac (mark_of_target redirect.now) }
{
    if redirect.target == redirect.destination {
        return given_or_marked(redirect.target, mac, None);
    }
    given_or_marked(redirect.target, mac, Some(true))
}

/// Returns what a message says of a neighbour, if it says anything (RFC 4861, sections 6.2.6, 6.3.4, 7.2.3, 7.2.5 and 8.3). With `own`, the node's own
/// link-layer address, its options that give this address or one that no node has are passed over.
#[inline(always)]
pub fn news_of(source: Addr, body: &Body, options: Options<'_>, own: Option<Mac>) -> Option<News>
    ensures { (times : Times) → option_map (said_by times) result ≡ said_of_neighbour source body.now (without own (options_left options.entry)) times.reachable }
{
    match body {
        Body::Rs => given_by_source(source, first_slla(options, own), Some(false)),
        Body::Ra(_) => given_or_marked(source, first_slla(options, own), Some(true)),
        Body::Ns(_) => given_by_source(source, first_slla(options, own), None),
        Body::Na(na) => Some(News::Advert {
            addr: na.target,
            flags: Flags {
                router: na.router,
                solicited: na.solicited,
                overrides: na.override_flag,
            },
            mac: first_tlla(options, own),
        }),
        Body::Redirect(redirect) => given_by_redirect(redirect, first_tlla(options, own)),
    }
}

/// Returns the link-layer address at which an asker is answered that gets no entry: the one that its solicitation gives, unless that is a group's (RFC
/// 4861, section 7.2.4). With `own`, options are passed over as in `news_of`.
pub fn answer_address(options: Options<'_>, own: Option<Mac>) -> Option<Mac>
    ensures { result ≡ answer_address (first_slla (without own (options_left options.entry))) }
{
    let mac = first_slla(options, own)?;
    if is_group(mac) {
        return None;
    }
    Some(mac)
}
