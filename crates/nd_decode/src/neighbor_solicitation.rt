ghost use Rattle.std.specs.Prelude.{◌≡◌, ◌≤◌, length};
ghost use Rattle.nd_decode.specs.Message.{neighbor_solicitation_of};

use nd_addr::Addr;

/// A question for the owner of an address (RFC 4861, section 4.3).
#[derive(Clone, Copy, Debug, PartialEq, Eq)]
pub struct NeighborSolicitation {
    /// The address that is asked for.
    pub target: Addr,
}

impl NeighborSolicitation {
    /// The length of its fields, in bytes, which is where its options begin.
    pub const LENGTH: usize = 24;

    /// The place of Target Address.
    pub const TARGET_AT: usize = 8;

    /// Returns the field at its place.
    pub(crate) fn read(bytes: &[u8]) -> NeighborSolicitation
        requires { 24 ≤ length bytes.now }
        ensures { result ≡ neighbor_solicitation_of bytes.now }
    {
        NeighborSolicitation {
            target: Addr::at(bytes, Self::TARGET_AT),
        }
    }
}
