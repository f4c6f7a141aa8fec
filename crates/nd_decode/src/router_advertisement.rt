ghost use Rattle.std.specs.Prelude.{◌≡◌, ◌≤◌, length};
ghost use Rattle.nd_decode.specs.Message.{preference_of, router_advertisement_of};

use byteorder::{BigEndian, ByteOrder};
use nd_addr::Preference;

/// What a router announces of itself and of its link (RFC 4861, section 4.2; RFC 4191, section 2.2).
#[derive(Clone, Copy, Debug, PartialEq, Eq)]
pub struct RouterAdvertisement {
    /// The hop limit for the packets that a host sends; 0 if the router does not say.
    pub hop_limit: u8,
    /// Addresses are available by DHCPv6.
    pub managed: bool,
    /// Other configuration is available by DHCPv6.
    pub other: bool,
    /// Its preference over other default routers. It has no meaning if the router lifetime is 0.
    pub preference: Preference,
    /// The time for which it is a default router, in seconds; 0 if it is none.
    pub router_lifetime: u16,
    /// The time for which a neighbor is reachable after a confirmation, in milliseconds; 0 if the router does not say.
    pub reachable_time: u32,
    /// The time between solicitations, in milliseconds; 0 if the router does not say.
    pub retrans_timer: u32,
}

impl RouterAdvertisement {
    /// The length of its fields, in bytes, which is where its options begin.
    pub const LENGTH: usize = 16;

    /// The place of Cur Hop Limit.
    pub const HOP_LIMIT_AT: usize = 4;

    /// The place of the byte of flags.
    pub const FLAGS_AT: usize = 5;

    /// The flag M, Managed address configuration.
    pub const FLAG_MANAGED: u8 = 0x80;

    /// The flag O, Other configuration.
    pub const FLAG_OTHER: u8 = 0x40;

    /// The lower bit of the preference: set in High and Low.
    pub const FLAG_NOT_MEDIUM: u8 = 0x08;

    /// The higher bit of the preference: set in Low.
    pub const FLAG_LOW: u8 = 0x10;

    /// The place of Router Lifetime, in 2 bytes.
    pub const ROUTER_LIFETIME_AT: usize = 6;

    /// The place of Reachable Time, in 4 bytes.
    pub const REACHABLE_TIME_AT: usize = 8;

    /// The place of Retrans Timer, in 4 bytes.
    pub const RETRANS_TIMER_AT: usize = 12;

    /// Returns the fields at their places.
    pub(crate) fn read(bytes: &[u8]) -> RouterAdvertisement
        requires { 16 ≤ length bytes.now }
        ensures { result ≡ router_advertisement_of bytes.now }
    {
        RouterAdvertisement {
            hop_limit: bytes[Self::HOP_LIMIT_AT],
            managed: bytes[Self::FLAGS_AT] & Self::FLAG_MANAGED != 0,
            other: bytes[Self::FLAGS_AT] & Self::FLAG_OTHER != 0,
            preference: preference_of(bytes[Self::FLAGS_AT]),
            router_lifetime: BigEndian::read_u16(&bytes[Self::ROUTER_LIFETIME_AT..]),
            reachable_time: BigEndian::read_u32(&bytes[Self::REACHABLE_TIME_AT..]),
            retrans_timer: BigEndian::read_u32(&bytes[Self::RETRANS_TIMER_AT..]),
        }
    }
}

/// Returns the preference in a byte of flags (RFC 4191, section 2.1).
fn preference_of(flags: u8) -> Preference
    ensures { result ≡ preference_of flags }
{
    match (
        flags & RouterAdvertisement::FLAG_NOT_MEDIUM != 0,
        flags & RouterAdvertisement::FLAG_LOW != 0,
    ) {
        (true, false) => Preference::High,
        (true, true) => Preference::Low,
        // "If the Reserved (10) value is received, the receiver MUST treat the value as if it were (00)."
        (false, _) => Preference::Medium,
    }
}
