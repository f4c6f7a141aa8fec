//! A sign that packets to a destination arrive (RFC 4861, section 7.3.1). The definitions are in `specs/Confirmation.antt`.

ghost use Rattle.std.specs.Prelude.{◌≡◌};
ghost use Rattle.nd_table.specs.Moment.{IsMoment};
ghost use Rattle.nd_c.specs.Confirmation.{SignTaken, Signs, status_of_sign};

use crate::call::with_session;
use crate::status::{DONE, NO_MEMORY, NOTHING, PAST};
use nd_addr::Addr;
use nd_session::{Confirmation, Session, Slot};
use std::alloc::Global;

/// Confirms the neighbour that packets to `destination` go to, since an upper layer knows that they arrive at `now`, in milliseconds, if that moves the end of
/// its state REACHABLE by `least` milliseconds or more. What is due up to `now` is done first.
#[unsafe(no_mangle)]
pub extern "C" fn nd_confirm_to(
    alloc: Global,
    node: &mut Slot,
    now: u64,
    destination: &[u8; 16],
    least: u64,
) -> i32
    ensures { SignTaken now (record { 0 = destination.now }) least result node.old.handle.session node.new.handle.session }
{
    with_session!(alloc, node, now, session => sign(&mut session, now, Addr(*destination), least))
}

/// Does what is due up to `now`, in milliseconds, and takes the sign.
fn sign(session: &mut Session, now: u64, destination: Addr, least: u64) -> i32
    requires { IsMoment now }
    ensures { Signs now destination least result session.old session.new }
{
    match session.confirm_to(now, destination, least) {
        Ok(confirmation) => status_of_sign(confirmation),
        Err(_) => NO_MEMORY,
    }
}

/// Returns the status of a sign.
fn status_of_sign(confirmation: Confirmation) -> i32
    ensures { result ≡ status_of_sign confirmation }
{
    match confirmation {
        Confirmation::Past(_) => PAST,
        Confirmation::Taken => DONE,
        Confirmation::Unneeded => NOTHING,
    }
}
