//! What makes a well-spelled message invalid (RFC 4861, sections 6.1, 7.1 and 8.1).

ghost use Rattle.std.specs.Prelude.{◌≡◌};
ghost use Rattle.std.specs.List.{list_any};
ghost use Rattle.nd_decode.specs.Message.{parts};
ghost use Rattle.nd_decode.specs.Pieces.{options_left};
ghost use Rattle.nd_validity.specs.Validity.{is_of_routers, has_bad_source, has_bad_target, is_slla, has_unspecified_slla, is_solicited_node, misses_solicited_node, is_solicited_multicast, has_bad_redirect_target, redirects_multicast, is_not_for, fault_of};

use crate::hearing::Heard;
use nd_addr::{Addr, Role, Why};
use nd_decode::{Body, MessageRef, OPTION_SOURCE_LINK_LAYER_ADDRESS, OptionRef, Options};

/// Returns the first fault of a well-spelled message.
pub(crate) fn fault(heard: &Heard<'_>) -> Option<Why>
    ensures { result ≡ fault_of heard.now.source heard.now.destination (parts heard.now.message) }
{
    let body = &heard.message.body;
    if has_bad_source(&heard.source, body) {
        return Some(Why::Source);
    }
    if has_bad_target(body) {
        return Some(Why::Target);
    }
    if has_unspecified_slla(&heard.source, &heard.message) {
        return Some(Why::UnspecifiedSlla);
    }
    if misses_solicited_node(&heard.source, &heard.destination, body) {
        return Some(Why::NotSolicitedNode);
    }
    if is_solicited_multicast(&heard.destination, body) {
        return Some(Why::SolicitedMulticast);
    }
    if has_bad_redirect_target(body) {
        return Some(Why::RedirectTarget);
    }
    redirects_multicast(body).then_some(Why::RedirectDestination)
}

/// Returns true if only routers send it.
fn is_of_routers(body: &Body) -> bool
    ensures { result ≡ is_of_routers body.now }
{
    matches!(body, Body::Ra(_) | Body::Redirect(_))
}

/// Returns true if the source is a multicast address (our choice for all five messages; RFC 4291, section 2.7, has none), or is not link-local in a
/// message that routers send (RFC 4861, sections 6.1.2 and 8.1).
fn has_bad_source(source: &Addr, body: &Body) -> bool
    ensures { result ≡ has_bad_source source.now body.now }
{
    source.is_multicast() || is_of_routers(body) && !source.is_link_local()
}

/// Returns true if the target of a Neighbor Solicitation or Advertisement is multicast (RFC 4861, sections 7.1.1 and 7.1.2).
fn has_bad_target(body: &Body) -> bool
    ensures { result ≡ has_bad_target body.now }
{
    match body {
        Body::Ns(solicitation) => solicitation.target.is_multicast(),
        Body::Na(advertisement) => advertisement.target.is_multicast(),
        _ => false,
    }
}

/// Returns true if a solicitation from `::` has a Source Link-Layer Address (RFC 4861, sections 6.1.1 and 7.1.1).
fn has_unspecified_slla(source: &Addr, message: &MessageRef<'_>) -> bool
    ensures { result ≡ has_unspecified_slla source.now (parts message.now) }
{
    source.is_unspecified()
        && matches!(message.body, Body::Rs | Body::Ns(_))
        && has_slla(message.options)
}

/// Returns true if some option is a Source Link-Layer Address.
#[tactic(auto, using(crate::proofs::OfType::any_slla_from))]
fn has_slla(options: Options<'_>) -> bool
    ensures { result ≡ list_any is_slla (options_left options.entry) }
{
    let mut rest = options;
    while let Some(option) = rest.next_of_type(OPTION_SOURCE_LINK_LAYER_ADDRESS) {
        if let OptionRef::Slla(_) = option {
            return true;
        }
    }
    false
}

/// Returns true if a Neighbor Solicitation from `::` is to another than a solicited-node address (RFC 4861, section 7.1.1).
fn misses_solicited_node(source: &Addr, destination: &Addr, body: &Body) -> bool
    ensures { result ≡ misses_solicited_node source.now destination.now body.now }
{
    match body {
        Body::Ns(_) => source.is_unspecified() && !is_solicited_node(destination),
        _ => false,
    }
}

/// Returns true if it is a solicited-node address: that of its own low 24 bits (RFC 4291, section 2.7.1).
fn is_solicited_node(address: &Addr) -> bool
    ensures { result ≡ is_solicited_node address.now }
{
    *address == address.solicited_node()
}

/// Returns true if a Neighbor Advertisement to a multicast address says that it was solicited (RFC 4861, section 7.1.2).
fn is_solicited_multicast(destination: &Addr, body: &Body) -> bool
    ensures { result ≡ is_solicited_multicast destination.now body.now }
{
    match body {
        Body::Na(advertisement) => advertisement.solicited && destination.is_multicast(),
        _ => false,
    }
}

/// Returns true if the target of a Redirect is neither link-local nor the destination (RFC 4861, section 8.1).
fn has_bad_redirect_target(body: &Body) -> bool
    ensures { result ≡ has_bad_redirect_target body.now }
{
    match body {
        Body::Redirect(redirect) => {
            !redirect.target.is_link_local() && redirect.target != redirect.destination
        }
        _ => false,
    }
}

/// Returns true if a Redirect is for a multicast destination (RFC 4861, section 8.1).
fn redirects_multicast(body: &Body) -> bool
    ensures { result ≡ redirects_multicast body.now }
{
    match body {
        Body::Redirect(redirect) => redirect.destination.is_multicast(),
        _ => false,
    }
}

/// Returns true if nodes of this role take no such message: hosts no Router Solicitation, routers neither a Router Advertisement nor a Redirect
/// (RFC 4861, sections 6.2.6, 6.3.4 and 8.2).
pub(crate) fn is_not_for(role: Role, body: &Body) -> bool
    ensures { result ≡ is_not_for role body.now }
{
    match role {
        Role::Host => matches!(body, Body::Rs),
        Role::Router => is_of_routers(body),
    }
}
