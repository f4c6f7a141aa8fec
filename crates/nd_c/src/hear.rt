//! What a frame is, without a node.

ghost use Rattle.std.specs.Prelude.{◌≡◌, ◌<◌, ◌≤◌};
ghost use Rattle.nd_validity.specs.Hearing.{hearing_of};
ghost use Rattle.nd_heard.specs.Heard.{heard_of, role_of};
ghost use Rattle.nd_c.specs.Status.{done, invalid};

use nd_heard::{Heard, write_heard};

/// Writes what the frame is to a host (`role` is ND_ROLE_HOST) or to a router (ND_ROLE_ROUTER): its message, or the first reason to drop it.
/// `frame` is the whole frame, from its Ethernet destination on. Returns ND_INVALID for another role; nothing is written then. It takes no memory.
#[unsafe(no_mangle)]
pub extern "C" fn nd_hear(frame: &[u8], role: u32, heard: &mut Heard) -> i32
    ensures done { role ≤ 1 → (result ≡ done) × (heard.new ≡ heard_of frame.now (hearing_of frame.now (role_of role))) }
    ensures invalid { 1 < role → (result ≡ invalid) × (heard.new ≡ heard.old) }
{
    write_heard(frame, role, heard)
}
