ghost use Rattle.std.specs.Prelude.{◌≡◌, ◌≤◌, length};
ghost use Rattle.nd_addr.specs.Frame.{addressed, ethernet_header_length};
ghost use Rattle.nd_packet.specs.Packet.{packet_of};

use nd_addr::{ETHERNET_HEADER_LENGTH, Mac};
use std::alloc::Allocator;
use std::marker::Model;

/// A whole Ethernet frame, of 14 bytes at least (RFC 2464, section 3). Its first six bytes, the destination, are set when it is sent: sending a
/// packet that waited takes no memory.
#[derive(Debug, Drop)]
pub struct Packet<A: Allocator> {
    frame: Vec<u8, A>,
}

impl<A: Allocator> Model for Packet<A> {
    ghost use Rattle.std.specs.Prelude.{List, ℕ, ◌≤◌};
    ghost use Rattle.std.specs.Vec.{vec_len};
    ghost use Rattle.nd_addr.specs.Frame.{ethernet_header_length};

    ghost Value = { List ℕ };

    ghost view = { λ p. p.frame.items };

    ghost invariant = { λ p. ethernet_header_length ≤ vec_len p.frame };
}

impl<A: Allocator> Packet<A> {
    /// Returns the packet that this frame is, or `None` if it is too short for an Ethernet header.
    pub fn new(frame: Vec<u8, A>) -> Option<Self>
        ensures { result ≡ packet_of frame.items }
    {
        if frame.len() < ETHERNET_HEADER_LENGTH {
            return None;
        }
        Some(Packet { frame })
    }

    /// Returns the bytes of the frame.
    pub fn as_bytes(&self) -> &[u8]
        ensures value { result.now ≡ self.now }
        ensures long { ethernet_header_length ≤ length self.now }
    {
        &self.frame
    }

    /// Returns the same frame to this Ethernet address. It takes no memory.
    pub fn addressed(self, destination: Mac) -> Self
        ensures { result ≡ addressed destination self }
    {
        let mut frame = self.frame;
        set_destination(&mut frame, &destination);
        Packet { frame }
    }

    /// Returns the frame itself.
    pub fn into_frame(self) -> Vec<u8, A>
        ensures { result.items ≡ self }
    {
        self.frame
    }
}

/// Sets the destination of a frame.
fn set_destination(frame: &mut [u8], destination: &Mac)
    requires { ethernet_header_length ≤ length frame.old }
    ensures { frame.new ≡ addressed destination.now frame.old }
{
    frame[..6].copy_from_slice(destination.as_bytes());
}
