//! Room for one short frame, reserved before it is sent.

ghost use Rattle.std.specs.Prelude.{◌≡◌, ◌≤◌, ◌+◌, ◌↔◌, [], IfOk, IfSome, IsSome, IsTrue, length, max, vec_capacity};
ghost use Rattle.nd_addr.specs.Bytes.{AreBytes};
ghost use Rattle.nd_addr.specs.Frame.{ethernet_header_length, headers_length};
ghost use Rattle.nd_message.specs.Frame.{message_frame};
ghost use Rattle.nd_message.specs.Owned.{whole_of};
ghost use Rattle.nd_message.specs.Spelling.{written_length};
ghost use Rattle.nd_message.specs.WellFormed.{IsWellFormed};
ghost use Rattle.nd_compose.specs.Frames.{longest_message};

use nd_addr::{Addr, HEADERS_LENGTH, Mac, put_bytes};
use nd_message::{Body, Opt, put_frame};
use nd_packet::Packet;
use std::alloc::{AllocError, Allocator};

/// The length of the longest of the short messages, in bytes: a target, and one link-layer address (RFC 4861, sections 4.3 and 4.4).
pub const LONGEST_MESSAGE: usize = 32;

/// Room for one frame that a node sends for itself.
#[derive(Drop)]
pub struct FrameRoom<A: Allocator> {
    bytes: Vec<u8, A>,
    ghost empty: { bytes.items ≡ [] },
    ghost room: { headers_length + longest_message ≤ vec_capacity bytes },
}

impl<A: Allocator> FrameRoom<A> {
    ghost use Rattle.nd_compose.specs.Room.{HasRoomFor};

    /// Reserves the room for a short message. Returns an error if out of memory.
    pub fn new(alloc: A) -> Result<Self, AllocError> {
        FrameRoom::with_room(alloc, LONGEST_MESSAGE)
    }

    /// Reserves the room for a message of `longest` bytes, and for a short one at least. Returns an error if out of memory.
    pub fn with_room(alloc: A, longest: usize) -> Result<Self, AllocError>
        requires { longest ≤ 65535 }
        ensures { IfOk result (λ room. HasRoomFor room longest) }
    {
        Ok(FrameRoom {
            bytes: Vec::with_capacity(alloc, frame_length(longest))?,
        })
    }

    /// Returns room for a message of `longest` bytes, and for a short one at least, in the block of a frame that is needed no more. Returns `None`
    /// if the block is too short. It takes no memory.
    pub fn of_block(block: Vec<u8, A>, longest: usize) -> Option<Self>
        requires { longest ≤ 65535 }
        ensures some { IsSome result ↔ (headers_length + max longest longest_message ≤ vec_capacity block) }
        ensures room { IfSome result (λ room. HasRoomFor room longest) }
    {
        let mut bytes = block;
        if bytes.capacity() < frame_length(longest) {
            return None;
        }
        bytes.clear();
        Some(FrameRoom { bytes })
    }

    /// Returns true if there is room for a message of `length` bytes.
    pub fn has_room_for(&self, length: usize) -> bool
        requires { length ≤ 65535 }
        ensures { IsTrue result ↔ HasRoomFor self.now length }
    {
        HEADERS_LENGTH + length <= self.bytes.capacity()
    }

    /// Puts the whole frame of a short message into the room.
    pub(crate) fn put(self, frame: &[u8]) -> Packet<A>
        requires whole { ethernet_header_length ≤ length frame.now }
        requires short { length frame.now ≤ headers_length + longest_message }
        ensures { result ≡ frame.now }
    {
        let mut out = self.bytes;
        put_bytes(&mut out, frame);
        match Packet::new(out) {
            Some(packet) => packet,
            None => unreachable!(),
        }
    }

    /// Writes the frame of a message into the room, from one Ethernet address to another, and from a source to a destination.
    #[tactic(auto, using(crate::proofs::Formed::long))]
    pub(crate) fn write<B: Allocator>(
        self,
        to: Mac,
        from: Mac,
        source: Addr,
        destination: Addr,
        body: &Body,
        options: &[Opt<B>],
    ) -> Packet<A>
        requires formed { IsWellFormed (whole_of body.now options.now) }
        requires short { written_length (whole_of body.now options.now) ≤ longest_message }
        ensures { result ≡ message_frame to from source destination (whole_of body.now options.now) }
    {
        self.write_long(to, from, source, destination, body, options)
    }

    /// Writes the frame of a message that may be long into the room, from one Ethernet address to another, and from a source to a destination.
    #[tactic(auto, using(crate::proofs::Formed::long))]
    pub(crate) fn write_long<B: Allocator>(
        self,
        to: Mac,
        from: Mac,
        source: Addr,
        destination: Addr,
        body: &Body,
        options: &[Opt<B>],
    ) -> Packet<A>
        requires formed { IsWellFormed (whole_of body.now options.now) }
        requires room { HasRoomFor self (written_length (whole_of body.now options.now)) }
        ensures { result ≡ message_frame to from source destination (whole_of body.now options.now) }
    {
        let mut out = self.bytes;
        put_frame(&mut out, to, from, source, destination, body, options);
        match Packet::new(out) {
            Some(packet) => packet,
            None => unreachable!(),
        }
    }
}

/// Returns the length of the frame of a message of `longest` bytes, or of a short one if that is longer.
fn frame_length(longest: usize) -> usize
    requires { longest ≤ 65535 }
    ensures { result ≡ headers_length + max longest longest_message }
{
    HEADERS_LENGTH + longest.max(LONGEST_MESSAGE)
}

/// Says for the definitions what the types say: an Ethernet address has 6 bytes, and an address 16.
pub(crate) fn are_bytes(mac: &Mac, address: &Addr)
    ensures mac { AreBytes 6 mac.now.0 }
    ensures address { AreBytes 16 address.now.0 }
{
    let _mac = mac.as_bytes();
    let _address = address.as_bytes();
}
