ghost use Rattle.std.specs.Prelude.{◌≡◌, ◌≤◌, length};
ghost use Rattle.nd_decode.specs.Message.{redirect_of};

use nd_addr::Addr;

/// A better first hop for a destination (RFC 4861, section 4.5).
#[derive(Clone, Copy, Debug, PartialEq, Eq)]
pub struct Redirect {
    /// The better first hop, or the destination itself if that is a neighbor.
    pub target: Addr,
    /// The address whose packets go there.
    pub destination: Addr,
}

impl Redirect {
    /// The length of its fields, in bytes, which is where its options begin.
    pub const LENGTH: usize = 40;

    /// The place of Target Address.
    pub const TARGET_AT: usize = 8;

    /// The place of Destination Address.
    pub const DESTINATION_AT: usize = 24;

    /// Returns the fields at their places.
    pub(crate) fn read(bytes: &[u8]) -> Redirect
        requires { 40 ≤ length bytes.now }
        ensures { result ≡ redirect_of bytes.now }
    {
        Redirect {
            target: Addr::at(bytes, Self::TARGET_AT),
            destination: Addr::at(bytes, Self::DESTINATION_AT),
        }
    }
}
