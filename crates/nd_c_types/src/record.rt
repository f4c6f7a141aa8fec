//! What a node reports, as C sees it. The definitions are in `specs/Record.antt`.

ghost use Rattle.std.specs.Prelude.{◌≡◌};
ghost use Rattle.nd_c_types.specs.Record.{bytes_in, contents_of, loss_number, nothing, of_refusal, record_of, source_of};

use crate::changes::changes_of;
use crate::header::{
    LOSS_FORGOTTEN, LOSS_HOP_LIMIT, LOSS_NO_ROUTE, LOSS_REPLACED, LOSS_UNREACHABLE, OUT_ASSIGNED,
    OUT_DROPPED, OUT_DUPLICATE, OUT_ENDED_ADDRESS, OUT_ENDED_ROUTER, OUT_FAILED, OUT_FRAME,
    OUT_HEARD, OUT_IGNORED, OUT_LOST, OUT_REFUSED, OUT_RESOLVED, OUT_UP,
};
use crate::refusal::{full_number, limit_number, refusal_number};
use nd_addr::{Addr, ETHERNET_HEADER_LENGTH};
use nd_out::{Loss, Out, Refusal};
use std::alloc::Allocator;

/// What a node reports: `nd_out` of the header. Fields that the kind does not use are 0.
#[repr(C)]
#[derive(Clone, Copy, Drop)]
pub struct Record {
    /// The moment at which it was due, or its event was received, in milliseconds.
    pub moment: u64,
    /// The number of its bytes.
    pub length: usize,
    /// ND_OUT_FRAME to ND_OUT_IGNORED.
    pub kind: u32,
    /// Why a frame was dropped, a packet is not sent or an event was refused; or the ICMPv6 type of a message.
    pub code: u32,
    /// ND_LIMIT_NEIGHBOURS to ND_LIMIT_STATIC_ROUTES: the table that is full.
    pub limit: u32,
    /// A sum of ND_CHANGE_ROUTERS and its like: the tables that may have changed with it.
    pub changes: u32,
    pub address: [u8; 16],
}

/// A record without contents.
const NOTHING: Record = Record {
    moment: 0,
    length: 0,
    kind: 0,
    code: 0,
    limit: 0,
    changes: 0,
    address: [0; 16],
};

impl Record {
    /// Returns the record of a report that was due at `moment`, in milliseconds. The kind of `Path`, `Shown` and `Past` is 0: in C the call that asks
    /// for a path returns it, no event shows rows, and an event before the last moment has a status of its own.
    pub fn of<A: Allocator>(moment: u64, out: &Out<A>) -> Record
        ensures { result ≡ record_of moment out.now }
    {
        let length = bytes_of(out).len();
        let changes = changes_of(out);
        let contents = Record::contents_of(out);
        Record {
            moment,
            length,
            changes,
            ..contents
        }
    }

    /// Returns the record without its moment, the number of its bytes and what it changes.
    fn contents_of<A: Allocator>(out: &Out<A>) -> Record
        ensures { result ≡ contents_of out.now }
    {
        match out {
            Out::Frame(_) => Record::with_code(OUT_FRAME, 0),
            Out::Heard { source, body, .. } => Record {
                code: u32::from(body.message_type().number()),
                ..Record::about(OUT_HEARD, *source)
            },
            Out::Dropped(why) => Record::with_code(OUT_DROPPED, u32::from(why.number())),
            Out::Up(_) => Record::with_code(OUT_UP, 0),
            Out::Duplicate(address) => Record::about(OUT_DUPLICATE, *address),
            Out::Assigned(address) => Record::about(OUT_ASSIGNED, *address),
            Out::EndedAddress(address) => Record::about(OUT_ENDED_ADDRESS, *address),
            Out::EndedRouter(router) => Record::about(OUT_ENDED_ROUTER, *router),
            Out::Failed(neighbour) => Record::about(OUT_FAILED, *neighbour),
            Out::Lost(why, _) => Record::with_code(OUT_LOST, loss_number(*why)),
            Out::Refused(why) => Record::of_refusal(why),
            Out::Ignored(full) => Record {
                limit: limit_number(*full),
                ..Record::with_code(OUT_IGNORED, 0)
            },
            Out::Resolved(neighbour, _) => Record::about(OUT_RESOLVED, *neighbour),
            Out::Path(_, _) | Out::Shown(_) | Out::Past(_) => NOTHING,
        }
    }

    /// Returns the contents for an event that was refused.
    fn of_refusal(why: &Refusal) -> Record
        ensures { result ≡ of_refusal why.now }
    {
        let address = source_of(why);
        Record {
            limit: full_number(why),
            address,
            ..Record::with_code(OUT_REFUSED, refusal_number(why))
        }
    }

    /// Returns the contents of a kind that has a code, or none.
    fn with_code(kind: u32, code: u32) -> Record
        ensures { result ≡ record nothing { kind = kind; code = code } }
    {
        Record {
            kind,
            code,
            ..NOTHING
        }
    }

    /// Returns the contents of a kind that names an address.
    fn about(kind: u32, address: Addr) -> Record
        ensures { result ≡ record nothing { kind = kind; address = address.0 } }
    {
        let bytes = address.0;
        Record {
            kind,
            address: bytes,
            ..NOTHING
        }
    }
}

/// Returns the bytes of a report: a frame that is sent, a packet from its IPv6 header on, or a link-layer address that was resolved. The other reports
/// have no bytes.
pub fn bytes_of<A: Allocator>(out: &Out<A>) -> &[u8]
    ensures { result.now ≡ bytes_in out.now }
{
    match out {
        Out::Frame(packet) => packet.as_bytes(),
        Out::Up(packet) => packet,
        Out::Lost(_, packet) => &packet.as_bytes()[ETHERNET_HEADER_LENGTH..],
        Out::Resolved(_, mac) => &mac.0,
        _ => &[],
    }
}

/// Returns the number of the reason why a packet is not sent.
fn loss_number(why: Loss) -> u32
    ensures { result ≡ loss_number why }
{
    match why {
        Loss::Unreachable => LOSS_UNREACHABLE,
        Loss::Replaced => LOSS_REPLACED,
        Loss::Forgotten => LOSS_FORGOTTEN,
        Loss::NoRoute => LOSS_NO_ROUTE,
        Loss::HopLimit => LOSS_HOP_LIMIT,
    }
}

/// Returns the source that is no assigned address, or zeros.
fn source_of(why: &Refusal) -> [u8; 16]
    ensures { result ≡ source_of why.now }
{
    match why {
        Refusal::NotOurs(source) => source.0,
        _ => [0; 16],
    }
}
