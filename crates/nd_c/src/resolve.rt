//! Where packets go of a caller that keeps them (RFC 4861, sections 5.2, 7.2.2 and 7.3.3). The definitions are in `specs/Resolve.antt`.

ghost use Rattle.std.specs.Prelude.{◌≡◌};
ghost use Rattle.nd_table.specs.Moment.{IsMoment};
ghost use Rattle.nd_c.specs.Resolve.{Finds, PathAnswers, Says, status_of_way};

use crate::call::with_session;
use crate::status::{DONE, NO_MEMORY, NOTHING, PAST, WAITING};
use nd_addr::Addr;
use nd_c_types::{PathRow, refused};
use nd_out::Way;
use nd_session::{PathAnswer, Session, Slot};
use std::alloc::Global;

/// Writes where packets to `destination` go at `now`, in milliseconds, which is a use of the neighbour that they go to. A link-layer address that isn't
/// known is asked for. What is due up to `now` is done first.
#[unsafe(no_mangle)]
pub extern "C" fn nd_resolve(
    alloc: Global,
    node: &mut Slot,
    now: u64,
    destination: &[u8; 16],
    path: &mut PathRow,
) -> i32
    ensures { PathAnswers now (record { 0 = destination.now }) result node.old.handle.session node.new.handle.session path.old path.new }
{
    with_session!(alloc, node, now, session => find_path(&mut session, now, Addr(*destination), path))
}

/// Does what is due up to `now`, in milliseconds, asks, and writes the path.
fn find_path(session: &mut Session, now: u64, destination: Addr, path: &mut PathRow) -> i32
    requires { IsMoment now }
    ensures { Finds now destination result session.old session.new path.old path.new }
{
    match session.resolve(now, destination) {
        Ok(answer) => say(now, destination, session.version(), answer, path),
        Err(_) => NO_MEMORY,
    }
}

/// Writes what an answer says of the path at this version of all leases, and returns the status.
fn say(now: u64, destination: Addr, version: u64, answer: PathAnswer, path: &mut PathRow) -> i32
    ensures { Says now destination version answer result path.old path.new }
{
    match answer {
        PathAnswer::Past(_) => PAST,
        PathAnswer::Refused(refusal) => {
            *path = PathRow::none(now);
            refused(&refusal)
        }
        PathAnswer::Path { way, state, until } => {
            *path = PathRow::of(destination, way, state, until, version);
            status_of_way(way)
        }
    }
}

/// Returns the status that says where packets go.
fn status_of_way(way: Way) -> i32
    ensures { result ≡ status_of_way way }
{
    match way {
        Way::NoRoute => NOTHING,
        Way::To(_, None) => WAITING,
        Way::To(_, Some(_)) => DONE,
    }
}
