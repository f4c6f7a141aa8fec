//! The texts of messages that were heard, of the reasons of drops and refusals, and of parts of a message that were passed over.

ghost use Rattle.std.specs.Prelude.{◌≡◌, ◌++◌, OnOk, codes, string_bytes};
ghost use Rattle.nd_chronicle.specs.Happening.{Dropped, Ignored, Refused};
ghost use Rattle.nd_chronicle.specs.Told.{kind_text, line_at, limit_text, lines_of, refusal_text};
ghost use Rattle.nd_out.specs.Out.{limit_of, refusal_of};

use crate::line::{write_address, write_line, write_moment, write_number};
use crate::out::{Limit, Refusal};
use nd_addr::Why;
use nd_decode::Body;
use std::alloc::{AllocError, Allocator};

/// Returns the word for the type of a message.
fn kind_word(body: &Body) -> &'static str
    ensures { result.now ≡ kind_text body.now }
{
    match body {
        Body::Rs => "rs",
        Body::Ra(_) => "ra",
        Body::Ns(_) => "ns",
        Body::Na(_) => "na",
        Body::Redirect(_) => "redirect",
    }
}

/// Returns the word for a table that has a limit.
fn limit_word(limit: Limit) -> &'static str
    ensures { result.now ≡ limit_text (limit_of limit) }
{
    match limit {
        Limit::Neighbours => "neighbours",
        Limit::Routers => "routers",
        Limit::Prefixes => "prefixes",
        Limit::Addresses => "addresses",
        Limit::Servers => "servers",
        Limit::Names => "names",
        Limit::Offers => "offers",
        Limit::StaticRoutes => "routes",
    }
}

/// Writes the line of a message that was heard.
pub(crate) fn write_heard<A: Allocator>(
    text: &mut String<A>,
    at: u64,
    body: &Body,
) -> Result<(), AllocError>
    ensures { OnOk result (string_bytes text.new ≡ string_bytes text.old ++ line_at at (codes "heard " ++ kind_text body.now)) }
{
    write_moment(text, at)?;
    text.push_str("heard ")?;
    text.push_str(kind_word(body))?;
    text.push_str("\n")
}

/// Writes the line of a frame that was dropped.
pub(crate) fn write_dropped<A: Allocator>(
    text: &mut String<A>,
    at: u64,
    why: Why,
) -> Result<(), AllocError>
    ensures { OnOk result (string_bytes text.new ≡ string_bytes text.old ++ lines_of (at, Dropped why)) }
{
    write_moment(text, at)?;
    text.push_str("drop ")?;
    write_number(text, u64::from(why.number()))?;
    text.push_str(" ")?;
    text.push_str(why.name())?;
    text.push_str("\n")
}

/// Writes why an event was refused.
fn write_reason<A: Allocator>(text: &mut String<A>, why: Refusal) -> Result<(), AllocError>
    ensures { OnOk result (string_bytes text.new ≡ string_bytes text.old ++ refusal_text (refusal_of why)) }
{
    match why {
        Refusal::WrongRole => text.push_str("wrong-role"),
        Refusal::Disabled => text.push_str("disabled"),
        Refusal::Tentative => text.push_str("tentative"),
        Refusal::NotOurs(source) => {
            text.push_str("not-ours ")?;
            source.write_text(text)
        }
        Refusal::TooLong => text.push_str("too-long"),
        Refusal::Full(limit) => {
            text.push_str("full ")?;
            text.push_str(limit_word(limit))
        }
    }
}

/// Writes the line of an event that was refused.
pub(crate) fn write_refused<A: Allocator>(
    text: &mut String<A>,
    at: u64,
    why: Refusal,
) -> Result<(), AllocError>
    ensures { OnOk result (string_bytes text.new ≡ string_bytes text.old ++ lines_of (at, Refused (refusal_of why))) }
{
    write_moment(text, at)?;
    text.push_str("refused ")?;
    write_reason(text, why)?;
    text.push_str("\n")
}

/// Writes the line of parts of a message that were passed over, for which a table has no room.
pub(crate) fn write_ignored<A: Allocator>(
    text: &mut String<A>,
    at: u64,
    limit: Limit,
) -> Result<(), AllocError>
    ensures { OnOk result (string_bytes text.new ≡ string_bytes text.old ++ lines_of (at, Ignored (limit_of limit))) }
{
    write_moment(text, at)?;
    text.push_str("ignored ")?;
    text.push_str(limit_word(limit))?;
    text.push_str("\n")
}
