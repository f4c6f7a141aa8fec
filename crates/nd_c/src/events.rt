//! Events of a host and of a router. Each does first what is due up to `now`, a moment in milliseconds.

ghost use Rattle.std.specs.Prelude.{◌≡◌, MatchOption};
ghost use Rattle.nd_chronicle.specs.Event as events;
ghost use Rattle.nd_node.specs.Event.{clearable_of};
ghost use Rattle.nd_c.specs.Event.{Answers};
ghost use Rattle.nd_c.specs.Status.{invalid};
ghost use Rattle.nd_c_types.specs.Clearable.{clearable_in};
ghost use Rattle.nd_c_types.specs.OwnAddress.{own_of};

use crate::answer::{Given, answer};
use crate::status::INVALID;
use nd_addr::Addr;
use nd_c_types::{OwnAddress, clearable_in};
use nd_node::Event;
use nd_session::Slot;
use std::alloc::Global;

/// Lets time pass up to `now`, and does all that is due.
#[unsafe(no_mangle)]
pub extern "C" fn nd_pass(alloc: Global, node: &mut Slot, now: u64) -> i32
    ensures { Answers now events.Passes result node.old.handle.session node.new.handle.session }
{
    answer(alloc, node, now, Given::Event(&Event::Passes))
}

/// Receives a frame, from its Ethernet destination on (RFC 2464, section 3). The caller keeps the frame.
#[unsafe(no_mangle)]
pub extern "C" fn nd_receive(alloc: Global, node: &mut Slot, now: u64, frame: &[u8]) -> i32
    ensures { Answers now (events.Receives frame.now) result node.old.handle.session node.new.handle.session }
{
    answer(alloc, node, now, Given::Frame(frame))
}

/// Sends a packet of an upper layer with a copy of `payload` (RFC 4861, section 5.2).
#[unsafe(no_mangle)]
pub extern "C" fn nd_send(
    alloc: Global,
    node: &mut Slot,
    now: u64,
    source: &[u8; 16],
    destination: &[u8; 16],
    next_header: u8,
    payload: &[u8],
) -> i32
    ensures { Answers now (events.Sends (record { 0 = source.now }) (record { 0 = destination.now }) next_header payload.now) result node.old.handle.session node.new.handle.session }
{
    let given = Given::Packet {
        source,
        destination,
        next_header,
        payload,
    };
    answer(alloc, node, now, given)
}

/// Takes an upper layer's confirmation that a neighbour is reachable (RFC 4861, section 7.3.1).
#[unsafe(no_mangle)]
pub extern "C" fn nd_confirm(alloc: Global, node: &mut Slot, now: u64, neighbour: &[u8; 16]) -> i32
    ensures { Answers now (events.Confirms (record { 0 = neighbour.now })) result node.old.handle.session node.new.handle.session }
{
    let event = Event::Confirms(Addr(*neighbour));
    answer(alloc, node, now, Given::Event(&event))
}

/// Removes a neighbour.
#[unsafe(no_mangle)]
pub extern "C" fn nd_forget(alloc: Global, node: &mut Slot, now: u64, neighbour: &[u8; 16]) -> i32
    ensures { Answers now (events.Forgets (record { 0 = neighbour.now })) result node.old.handle.session node.new.handle.session }
{
    let event = Event::Forgets(Addr(*neighbour));
    answer(alloc, node, now, Given::Event(&event))
}

/// Removes all rows of the table that a number names.
#[unsafe(no_mangle)]
pub extern "C" fn nd_clear(alloc: Global, node: &mut Slot, now: u64, table: u32) -> i32
    ensures { MatchOption (clearable_in table) ((result ≡ invalid) × (node.new.handle.session ≡ node.old.handle.session))
        (λ t. Answers now (events.Clears (clearable_of t)) result node.old.handle.session node.new.handle.session) }
{
    let Some(table) = clearable_in(table) else {
        return INVALID;
    };
    let event = Event::Clears(table);
    answer(alloc, node, now, Given::Event(&event))
}

/// Gives the node an address by hand, or sets the lifetimes of one that it has (RFC 4862, section 5.4).
#[unsafe(no_mangle)]
pub extern "C" fn nd_add_address(alloc: Global, node: &mut Slot, now: u64, own: &OwnAddress) -> i32
    ensures { MatchOption (own_of own.now) ((result ≡ invalid) × (node.new.handle.session ≡ node.old.handle.session))
        (λ given. Answers now (events.Sets given) result node.old.handle.session node.new.handle.session) }
{
    let Some(own) = own.own() else {
        return INVALID;
    };
    let event = Event::Sets(own);
    answer(alloc, node, now, Given::Event(&event))
}

/// Ends an address of the node other than its link-local one.
#[unsafe(no_mangle)]
pub extern "C" fn nd_remove_address(
    alloc: Global,
    node: &mut Slot,
    now: u64,
    address: &[u8; 16],
) -> i32
    ensures { Answers now (events.Withdraws (record { 0 = address.now })) result node.old.handle.session node.new.handle.session }
{
    let event = Event::Withdraws(Addr(*address));
    answer(alloc, node, now, Given::Event(&event))
}
