/// Why a configuration or an offer is refused: the rule of RFC 4861, section 6.2.1, that it breaks, or that of RFC 4191. The numbers and the
/// order in which the rules are checked are our choice.
#[derive(Clone, Copy, Debug, PartialEq, Eq)]
pub enum ConfigFault {
    /// MaxRtrAdvInterval is below 4 or above 1800 seconds.
    Max = 1,
    /// MinRtrAdvInterval is below 3 seconds or above three quarters of MaxRtrAdvInterval.
    Min = 2,
    /// AdvDefaultLifetime is neither 0 nor between MaxRtrAdvInterval and 9000 seconds.
    Lifetime = 3,
    /// AdvReachableTime is above 3,600,000 milliseconds.
    Reachable = 4,
    /// AdvLinkMTU is neither 0 nor between 1280 and 1500 bytes (RFC 8200, section 5; RFC 2464, section 2).
    Mtu = 5,
    /// AdvPreferredLifetime is above AdvValidLifetime.
    Preferred = 6,
    /// The prefix is link-local, which section 6.2.1 forbids, or multicast, which is our choice.
    Prefix = 7,
    /// AdvDefaultLifetime is 0, and the preference isn't Medium (RFC 4191, section 2.2).
    Preference = 8,
}
