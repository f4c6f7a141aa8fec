//! Opens and closes a node, and returns its moments.

ghost use Rattle.std.specs.Prelude.{◌≡◌, ◌-◌, ◌^◌, ◌<◌, IfOk, None, Some};
ghost use Rattle.nd_node.specs.Node.{last_of};
ghost use Rattle.nd_node.specs.NodeKept.{next_of};
ghost use Rattle.nd_session.specs.declared.session.Session.{Session};
ghost use Rattle.nd_c.specs.Open.{Begins, Opens, source_of};

use crate::status::{DONE, INVALID, NO_MEMORY};
use nd_c_types::{Draws, Opening};
use nd_random::Source;
use nd_session::{Session, Slot};
use std::alloc::{AllocError, Global};

/// Opens a node: it starts as the bytes of the options say, and nothing is reported yet.
#[unsafe(no_mangle)]
pub extern "C" fn nd_open(alloc: Global, node: &mut Slot, options: &[u8]) -> i32
    ensures { Opens options.now result node.old.handle.session node.new.handle.session }
{
    if node.is_open() {
        return INVALID;
    }
    let Some(opening) = Opening::of(options) else {
        return INVALID;
    };
    let Ok(session) = start_boxed(alloc, &opening) else {
        return NO_MEMORY;
    };
    node.put(session);
    DONE
}

/// Starts a session in a box, as it is asked for. Returns an error if out of memory.
fn start_boxed(alloc: Global, opening: &Opening) -> Result<Box<Session, Global>, AllocError>
    requires { opening.now.start < 2 ^ 62 }
    ensures { IfOk result (λ session. Begins opening.now session.value) }
{
    let session = start(alloc, opening)?;
    match Box::new(alloc, session) {
        Ok(session) => Ok(session),
        Err(_) => Err(AllocError),
    }
}

/// Starts a session as it is asked for. Returns an error if out of memory.
fn start(alloc: Global, opening: &Opening) -> Result<Session, AllocError>
    requires { opening.now.start < 2 ^ 62 }
    ensures { IfOk result (λ s. Begins opening.now s) }
{
    let session = Session::start(
        alloc,
        opening.role,
        opening.mac,
        opening.start,
        opening.transmits,
        opening.limits,
        opening.policies,
        source_of(opening.draws),
    )?;
    Ok(session.with_lease_version(opening.lease_version))
}

/// Returns the source of a node's random words.
fn source_of(draws: Draws) -> Source
    ensures { result ≡ source_of draws }
{
    match draws {
        Draws::Seed(seed) => Source::seeded(seed),
        Draws::Word(word) => Source::Constant(word),
    }
}

/// Closes a node. Nothing is sent, and records that were not polled are lost.
#[unsafe(no_mangle)]
pub extern "C" fn nd_close(alloc: Global, node: &mut Slot)
    ensures { node.new.handle.session ≡ None }
{
    let _session = node.take(alloc);
}

/// Returns the moment up to which time has passed, in milliseconds: all ones if the node is closed.
#[unsafe(no_mangle)]
pub extern "C" fn nd_last_moment(alloc: Global, node: &mut Slot) -> u64
    ensures closed { node.old.handle.session ≡ None → result ≡ 2 ^ 64 - 1 }
    ensures value { (s : Session) → node.old.handle.session ≡ Some s → result ≡ last_of s.node }
    ensures kept { node.new.handle.session ≡ node.old.handle.session }
{
    let Some(session) = node.take(alloc) else {
        return u64::MAX;
    };
    let last = session.last_moment();
    node.put(session);
    last
}

/// Returns the earliest moment at which something is due, in milliseconds: all ones if the node is closed.
#[unsafe(no_mangle)]
pub extern "C" fn nd_next_due(alloc: Global, node: &mut Slot) -> u64
    ensures closed { node.old.handle.session ≡ None → result ≡ 2 ^ 64 - 1 }
    ensures value { (s : Session) → node.old.handle.session ≡ Some s → result ≡ next_of s.node }
    ensures kept { node.new.handle.session ≡ node.old.handle.session }
{
    let Some(session) = node.take(alloc) else {
        return u64::MAX;
    };
    let next = session.next_due();
    node.put(session);
    next
}

/// Returns the version of all leases that `nd_resolve` gave: 0 if the node is closed.
#[unsafe(no_mangle)]
pub extern "C" fn nd_lease_version(alloc: Global, node: &mut Slot) -> u64
    ensures closed { node.old.handle.session ≡ None → result ≡ 0 }
    ensures value { (s : Session) → node.old.handle.session ≡ Some s → result ≡ s.paths.leases }
    ensures kept { node.new.handle.session ≡ node.old.handle.session }
{
    let Some(session) = node.take(alloc) else {
        return 0;
    };
    let version = session.version();
    node.put(session);
    version
}
