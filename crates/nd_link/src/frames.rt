//! The frames that a link keeps. The definitions are in `specs/Frames.antt`.

ghost use Rattle.std.specs.Prelude.{◌≡◌, ◌++◌, OnOk};
ghost use Rattle.nd_steps.specs.Outputs.{frame_sent, frames_in, happenings};
ghost use Rattle.nd_out.specs.Out.{happening};
ghost use Rattle.nd_link.specs.Frames.{kept_frames, of_sender};

use crate::sent_frame::SentFrame;
use nd_out::Out;
use std::alloc::{AllocError, Allocator};

/// Keeps the frames among what a node reports, each at the place of its number. Returns an error if out of memory.
pub(crate) fn keep_frames<A: Allocator + Copy>(
    frames: &mut Vec<SentFrame<A>, A>,
    alloc: A,
    sender: usize,
    outs: &[(u64, Out<A>)],
) -> Result<(), AllocError>
    ensures { OnOk result (kept_frames frames.new.items ≡ kept_frames frames.old.items ++ of_sender sender (frames_in (happenings outs.now))) }
{
    for (_, out) in outs {
        keep_frame(frames, alloc, sender, out)?;
    }
    Ok(())
}

/// Does the same for one output, which may be a frame.
fn keep_frame<A: Allocator + Copy>(
    frames: &mut Vec<SentFrame<A>, A>,
    alloc: A,
    sender: usize,
    out: &Out<A>,
) -> Result<(), AllocError>
    ensures { OnOk result (kept_frames frames.new.items ≡ kept_frames frames.old.items ++ of_sender sender (frame_sent (happening out.now))) }
{
    let Out::Frame(packet) = out else {
        return Ok(());
    };
    let bytes = packet.as_bytes();
    let mut frame = Vec::with_capacity(alloc, bytes.len())?;
    frame.extend_from_slice(bytes)?;
    frames.push(SentFrame { sender, frame })?;
    Ok(())
}
