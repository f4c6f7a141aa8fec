//! What a frame is to a host or a router that knows nothing else (RFC 4861, sections 6.1, 7.1 and 8.1), in the structure that a program in C
//! reads. The definition of what is written is in `specs/Heard.antt`.
#![tactic(auto)]

ghost use Rattle.std.specs.Prelude.{◌≡◌, ◌<◌, ◌≤◌, pos, negsuc};
ghost use Rattle.nd_validity.specs.Hearing.{hearing_of};
ghost use Rattle.nd_heard.specs.Heard.{heard_of, role_of};

pub mod header;
mod heard;

use crate::header::{DONE, INVALID, ROLE_HOST, ROLE_ROUTER};
pub use heard::{Heard, preference_number};
use nd_addr::Role;
use nd_validity::hear;

/// Returns ND_DONE and writes what the frame is to a host (`role` is ND_ROLE_HOST) or to a router (ND_ROLE_ROUTER): its message, or the first reason
/// to drop it. `frame` is the whole frame, from its Ethernet destination on. Returns ND_INVALID for another role; nothing is written then. It takes no
/// memory.
pub fn write_heard(frame: &[u8], role: u32, heard: &mut Heard) -> i32
    ensures done { role ≤ 1 → (result ≡ pos 0) × (heard.new ≡ heard_of frame.now (hearing_of frame.now (role_of role))) }
    ensures invalid { 1 < role → (result ≡ negsuc 2) × (heard.new ≡ heard.old) }
{
    let role = match role {
        ROLE_HOST => Role::Host,
        ROLE_ROUTER => Role::Router,
        _ => return INVALID,
    };
    *heard = Heard::of(frame, hear(frame, role));
    DONE
}
