//! The line of `ndpctl check` for a frame, for programs in C and for the page `docs/try`.
#![tactic(auto)]

ghost use Rattle.std.specs.Prelude.{◌≡◌, ◌≢◌, ◌<◌, ◌++◌, List, ℕ, length, Ok, Some, OnOk, string_bytes};
ghost use Rattle.hex.specs.Hex.{decode_of};
ghost use Rattle.ndpctl_check.specs.Check.{answer_to};
ghost use Rattle.nd_tell_c.specs.Tell.{line_of, Writes};

use nd_addr::Role;
use nd_validity::{hear, hear_in_some_role};
use ndpctl_check::tell;
use std::alloc::{AllocError, Allocator, Global};

/// Writes the line of a frame.
fn write_line<A: Allocator>(text: &mut String<A>, frame: &[u8], role: u32) -> Result<(), AllocError>
    ensures { OnOk result (string_bytes text.new ≡ string_bytes text.old ++ line_of role frame.now) }
{
    let hearing = match role {
        0 => hear(frame, Role::Host),
        1 => hear(frame, Role::Router),
        _ => hear_in_some_role(frame),
    };
    tell(text, &hearing)?;
    text.push_str("\n")
}

/// Writes what a frame is to a host (`role` 0) or to a router (1), as a line that ends in a line feed, to the front of `room`, and returns its length.
/// By any other `role` the line is that of `ndpctl check`. If the length is above that of `room`, nothing is written. Returns 0 if there is no memory
/// for the line; nothing is written then.
#[tactic(auto, unfolding(ndpctl_check::specs::Check::answer_to))]
#[unsafe(no_mangle)]
pub extern "C" fn nd_tell(alloc: Global, frame: &[u8], role: u32, room: &mut [u8]) -> usize
    ensures line { result ≢ 0 → (result ≡ length (line_of role frame.now)) × Writes (line_of role frame.now) room.old room.new }
    ensures memory { result ≡ 0 → room.new ≡ room.old }
    // Each line of `check` that holds the frame has this answer.
    ensures check { 1 < role → (line : List ℕ) → decode_of line ≡ Ok frame.now → answer_to line ≡ Some (line_of role frame.now) }
{
    let mut text = String::new(alloc);
    match write_line(&mut text, frame, role) {
        Ok(()) => {}
        Err(_) => return 0,
    }
    let line = text.as_bytes();
    if line.len() <= room.len() {
        room[..line.len()].copy_from_slice(line);
    }
    line.len()
}
