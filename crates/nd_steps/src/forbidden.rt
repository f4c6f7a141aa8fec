//! What the policy `strict` drops for its options. The definition is in `specs/Hearing.antt` of nd_chronicle.

ghost use Rattle.std.specs.Prelude.{◌≡◌};
ghost use Rattle.std.specs.List.{list_any};
ghost use Rattle.nd_decode.specs.Pieces.{options_left};
ghost use Rattle.nd_chronicle.specs.Hearing.{is_forbidden, is_source_address};
ghost use Rattle.nd_decode.specs.OptionKept.{view};
ghost use Rattle.nd_chronicle.specs.Reading.{passes_over, without};

use crate::news::{first_slla, is_passed_over};
use nd_addr::{Addr, Mac};
use nd_decode::{Body, OPTION_SOURCE_LINK_LAYER_ADDRESS, OptionRef, Options};

/// Returns true if an option gives a link-layer address that is passed over.
fn passes_over(option: &OptionRef<'_>, own: Option<Mac>) -> bool
    ensures { result ≡ passes_over own (view option.now) }
{
    match option {
        OptionRef::Slla(mac) => is_passed_over(*mac, own),
        OptionRef::Tlla(mac) => is_passed_over(*mac, own),
        _ => false,
    }
}

/// Returns true if one of the options is of type 1, of any length, and isn't passed over (RFC 4861, section 4.6.1).
fn gives_source_address(options: Options<'_>, own: Option<Mac>) -> bool
    ensures { result ≡ list_any is_source_address (without own (options_left options.entry)) }
{
    let mut rest = options;
    while let Some(option) = rest.next_of_type(OPTION_SOURCE_LINK_LAYER_ADDRESS) {
        if !passes_over(&option, own) {
            return true;
        }
    }
    false
}

/// Returns true if a message is forbidden for its options: a solicitation from `::` that gives a link-layer address, and a Neighbor Solicitation from
/// another source to a multicast address that gives none (RFC 4861, sections 4.1 and 4.3). With `own`, the node's own link-layer address, options that give
/// this address or one that no node has are passed over.
pub fn is_forbidden(
    source: Addr,
    destination: Addr,
    body: &Body,
    options: Options<'_>,
    own: Option<Mac>,
) -> bool
    ensures { result ≡ is_forbidden source destination (without own (options_left options.entry)) body.now }
{
    match body {
        Body::Rs => source.is_unspecified() && gives_source_address(options, own),
        Body::Ns(_) => {
            if source.is_unspecified() {
                return gives_source_address(options, own);
            }
            destination.is_multicast() && first_slla(options, own).is_none()
        }
        Body::Ra(_) | Body::Na(_) | Body::Redirect(_) => false,
    }
}
