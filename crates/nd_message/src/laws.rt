//! Laws of the definitions, each the contract of a function that does nothing.

ghost use Rattle.std.specs.Prelude.{◌≡◌, ◌≤◌, ◌↔◌, ℕ, List, length};
ghost use Rattle.nd_addr.specs.Checksum.{IsGoodSum};
ghost use Rattle.nd_addr.specs.Frame.{addressed};
ghost use Rattle.nd_addr.specs.declared.addr.Addr.{Addr};
ghost use Rattle.nd_addr.specs.declared.mac.Mac.{Mac};
ghost use Rattle.nd_decode.specs.Message.{Parts, Spells};
ghost use Rattle.nd_decode.specs.Carried.{Carries};
ghost use Rattle.nd_message.specs.Fitting.{FitsBody, FitsBehind};
ghost use Rattle.nd_message.specs.Frame.{message_frame};
ghost use Rattle.nd_message.specs.Spelling.{fields_of, written_length, written_message};
ghost use Rattle.nd_message.specs.WellFormed.{IsWellFormed};

/// A written message has a good checksum. If the message is well formed, the bytes spell it and fit into a packet. Their number is that of the
/// message, for all addresses.
pub fn written_as_meant()
    ensures good { (source destination : Addr) (message : Parts) → length source.0 ≡ 16 → length destination.0 ≡ 16 → IsGoodSum source.0 destination.0 (written_message source destination message) }
    ensures spelled { (source destination : Addr) (message : Parts) → IsWellFormed message → Spells (written_message source destination message) message }
    ensures short { (source destination : Addr) (message : Parts) → IsWellFormed message → length (written_message source destination message) ≤ 65535 }
    ensures len { (source destination : Addr) (message : Parts) → length (written_message source destination message) ≡ written_length message }
{}

/// A message is well formed exactly if its fields and its options keep to their rules, and are short enough together.
pub fn well_formed_by_parts()
    ensures { (message : Parts) → IsWellFormed message ↔ (FitsBody message.body × FitsBehind (length (fields_of 0 message.body)) message.options) }
{}

/// The frame of a well-formed message carries it, from its source to its destination.
pub fn written_frame_carries()
    ensures { (to from : Mac) (source destination : Addr) (message : Parts) → length to.0 ≡ 6 → length from.0 ≡ 6 → length source.0 ≡ 16 → length destination.0 ≡ 16
        → IsWellFormed message → Carries (message_frame to from source destination message) source destination message }
{}

/// A frame whose Ethernet destination is set anew is the frame to that address, and carries the same message.
pub fn readdressed_frame_carries_the_same()
    ensures frame { (to any from : Mac) (source destination : Addr) (message : Parts) → length any.0 ≡ 6
        → addressed to (message_frame any from source destination message) ≡ message_frame to from source destination message }
    ensures carried { (to : Mac) (frame : List ℕ) (source destination : Addr) (message : Parts) → length to.0 ≡ 6
        → Carries frame source destination message → Carries (addressed to frame) source destination message }
{}
