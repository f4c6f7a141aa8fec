use nd_addr::Preference;
use nd_advertiser::{Config, ConfigFault, ConfigFlags};
use std::test::*;

const NO_FLAGS: ConfigFlags = ConfigFlags {
    managed: false,
    other: false,
    preference: Preference::Medium,
};

/// A configuration by its intervals and its lifetime, in seconds.
fn timed(min: u16, max: u16, lifetime: u16) -> Result<Config, ConfigFault> {
    Config::new(min, max, lifetime, 64, NO_FLAGS, 0, 0, 0)
}

/// By its ReachableTime in milliseconds and its MTU in bytes.
fn measured(reachable_time: u32, mtu: u32) -> Result<Config, ConfigFault> {
    Config::new(200, 600, 1800, 64, NO_FLAGS, reachable_time, 0, mtu)
}

#[test]
fn a_configuration_breaks_no_rule_at_its_edges(rt: HostRuntime) {
    for (min, max, lifetime, fault) in [
        (3, 3, 1800, Some(ConfigFault::Max)),
        (3, 4, 1800, None),
        (3, 1800, 1800, None),
        (3, 1801, 1801, Some(ConfigFault::Max)),
        (2, 600, 1800, Some(ConfigFault::Min)),
        // Three quarters of the greatest interval.
        (450, 600, 1800, None),
        (451, 600, 1800, Some(ConfigFault::Min)),
        (200, 600, 0, None),
        (200, 600, 599, Some(ConfigFault::Lifetime)),
        (200, 600, 600, None),
        (200, 600, 9000, None),
        (200, 600, 9001, Some(ConfigFault::Lifetime)),
    ] {
        assert_eq!(rt; timed(min, max, lifetime).err(), fault);
    }
    for (reachable_time, mtu, fault) in [
        (3_600_000, 0, None),
        (3_600_001, 0, Some(ConfigFault::Reachable)),
        (0, 1279, Some(ConfigFault::Mtu)),
        (0, 1280, None),
        (0, 1500, None),
        (0, 1501, Some(ConfigFault::Mtu)),
    ] {
        assert_eq!(rt; measured(reachable_time, mtu).err(), fault);
    }
}
