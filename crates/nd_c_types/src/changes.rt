//! The tables that a report may have changed. The definitions are in `specs/Changes.antt`.

ghost use Rattle.std.specs.Prelude.{◌≡◌, []};
ghost use Rattle.nd_addr.specs.declared.addr.Addr.{Addr};
ghost use Rattle.nd_chronicle.specs.Happening.{Heard};
ghost use Rattle.nd_out.specs.Out.{happening};
ghost use Rattle.nd_c_types.specs.Changes.{changes_number};

use crate::header::{
    CHANGE_ADDRESSES, CHANGE_NAMES, CHANGE_PARAMETERS, CHANGE_PREFIXES, CHANGE_REDIRECTS,
    CHANGE_ROUTERS, CHANGE_SERVERS,
};
use nd_decode::Body;
use nd_out::Out;
use std::alloc::Allocator;

/// No table.
const NONE: u32 = 0;

/// What a Router Advertisement may change (RFC 4861, section 6.3.4; RFC 4862, section 5.5.3; RFC 8106, section 6.1).
const BY_ADVERTISEMENT: u32 = CHANGE_ROUTERS
    + CHANGE_PREFIXES
    + CHANGE_ADDRESSES
    + CHANGE_SERVERS
    + CHANGE_NAMES
    + CHANGE_PARAMETERS;

/// What the loss of a router, or of the target of a redirect, may change (RFC 4861, sections 6.3.5, 6.3.6 and 7.3.3).
const BY_LOSS: u32 = CHANGE_ROUTERS + CHANGE_REDIRECTS;

/// Returns the sum of the numbers of the tables that what is reported may have changed.
pub(crate) fn changes_of<A: Allocator>(out: &Out<A>) -> u32
    ensures { result ≡ changes_number (happening out.now) }
{
    match out {
        Out::Heard { body, .. } => changes_by_message(body),
        Out::Duplicate(_) | Out::Assigned(_) | Out::EndedAddress(_) => CHANGE_ADDRESSES,
        Out::EndedRouter(_) | Out::Failed(_) => BY_LOSS,
        _ => NONE,
    }
}

/// Returns the same of a message that was heard.
fn changes_by_message(body: &Body) -> u32
    ensures { (source destination : Addr) → result ≡ changes_number (Heard source destination (record { body = body.now; options = [] })) }
{
    match body {
        Body::Ra(_) => BY_ADVERTISEMENT,
        Body::Redirect(_) => CHANGE_REDIRECTS,
        Body::Rs | Body::Ns(_) | Body::Na(_) => NONE,
    }
}
