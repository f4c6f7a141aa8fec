//! Next-hop determination as a question (RFC 4861, section 5.2).

ghost use Rattle.nd_table.specs.Moment.{IsMoment};
ghost use Rattle.nd_c.specs.NextHop.{Hops, HopAnswer};

use crate::call::with_session;
use crate::questions::write;
use crate::rows::hop_to;
use crate::status::{NO_MEMORY, PAST};
use nd_addr::Addr;
use nd_c_types::NextHopRow;
use nd_session::{Session, Slot};
use std::alloc::Global;

/// Writes where a packet to `destination` would be sent at `now`, in milliseconds. What is due up to it is done first.
#[unsafe(no_mangle)]
pub extern "C" fn nd_next_hop(
    alloc: Global,
    node: &mut Slot,
    now: u64,
    destination: &[u8; 16],
    row: &mut NextHopRow,
) -> i32
    ensures { HopAnswer now (record { 0 = destination.now }) result node.old.handle.session node.new.handle.session row.old row.new }
{
    with_session!(alloc, node, now, session => find_hop(&mut session, now, Addr(*destination), row))
}

/// Does what is due up to `now`, in milliseconds, and writes the next hop.
fn find_hop(session: &mut Session, now: u64, destination: Addr, row: &mut NextHopRow) -> i32
    requires { IsMoment now }
    ensures { Hops now destination result session.old session.new row.old row.new }
{
    if session.is_past(now) {
        return PAST;
    }
    match session.settle(now) {
        Ok(()) => write(hop_to(session, now, destination), row),
        Err(_) => NO_MEMORY,
    }
}
