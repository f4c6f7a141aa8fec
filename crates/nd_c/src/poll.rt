//! What a node reports: the caller takes each record by a call.

ghost use Rattle.std.specs.Prelude.{◌≡◌, [], None, Some, IsSomeAnd, length};
ghost use Rattle.nd_session.specs.declared.session.Session.{Session};
ghost use Rattle.nd_c.specs.Poll.{Polls};
ghost use Rattle.nd_c.specs.Status.{closed};

use crate::status::{CLOSED, DONE, NO_ROOM, NOTHING};
use nd_c_types::{Record, bytes_of};
use nd_session::{Session, Slot};
use std::alloc::Global;

/// Takes the oldest record, and copies its bytes to the beginning of `buffer`.
#[unsafe(no_mangle)]
pub extern "C" fn nd_poll(
    alloc: Global,
    node: &mut Slot,
    out: &mut Record,
    buffer: &mut [u8],
) -> i32
    ensures closed { node.old.handle.session ≡ None → (result ≡ closed) × (node.new.handle.session ≡ None) × (out.new ≡ out.old) × (buffer.new ≡ buffer.old) }
    ensures node { (s : Session) → node.old.handle.session ≡ Some s → IsSomeAnd node.new.handle.session (λ t. Polls s t result out.old out.new buffer.old buffer.new) }
{
    let Some(mut session) = node.take(alloc) else {
        return CLOSED;
    };
    let status = poll(&mut session, out, buffer);
    node.put(session);
    status
}

/// Takes the oldest record of a session.
#[inline(always)]
fn poll(session: &mut Session, out: &mut Record, buffer: &mut [u8]) -> i32
    ensures { Polls session.old session.new result out.old out.new buffer.old buffer.new }
{
    let Some((moment, report)) = session.oldest() else {
        return NOTHING;
    };
    let record = Record::of(*moment, report);
    *out = record;
    if record.length > buffer.len() {
        return NO_ROOM;
    }
    if record.length > 0 {
        buffer[..record.length].copy_from_slice(bytes_of(report));
    }
    let _had_back = session.remove_oldest();
    DONE
}
