ghost use Rattle.std.specs.Prelude.{◌≡◌, None};
ghost use Rattle.nd_message.specs.WellFormed.{IsMediumAtZero};
ghost use Rattle.nd_advertiser.specs.Config.{Settings, config_fault, interval_range, is_max_interval, is_medium, is_min_interval, is_mtu, is_router_lifetime, may_prefer, milliseconds, unless};

use crate::config_fault::ConfigFault;
use nd_addr::{ETHERNET_MTU, LEAST_MTU, Preference};
use nd_decode::RouterAdvertisement;
use std::marker::Model;

/// The range of MaxRtrAdvInterval, in seconds (RFC 4861, section 6.2.1).
const LEAST_MAX_INTERVAL: u16 = 4;

const GREATEST_MAX_INTERVAL: u16 = 1800;

/// The least MinRtrAdvInterval, in seconds (RFC 4861, section 6.2.1).
const LEAST_MIN_INTERVAL: u16 = 3;

const MILLISECONDS_PER_SECOND: u64 = 1000;

/// The greatest AdvDefaultLifetime, in seconds (RFC 4861, section 6.2.1).
pub const GREATEST_LIFETIME: u16 = 9000;

/// The greatest AdvReachableTime, in milliseconds: an hour (RFC 4861, section 6.2.1).
pub const GREATEST_REACHABLE_TIME: u32 = 3_600_000;

/// The flags of a Router Advertisement, and its preference (RFC 4861, section 4.2; RFC 4191, section 2.2).
#[derive(Clone, Copy, Debug, PartialEq, Eq)]
pub struct ConfigFlags {
    /// AdvManagedFlag: addresses are available by DHCPv6.
    pub managed: bool,
    /// AdvOtherConfigFlag: other configuration is available by DHCPv6.
    pub other: bool,
    /// The preference of the router over other default routers.
    pub preference: Preference,
}

/// What a router is configured to advertise of itself and of its link (RFC 4861, section 6.2.1). It breaks none of that section's rules, and
/// its preference is Medium if its lifetime as a default router is 0 (RFC 4191, section 2.2).
#[derive(Clone, Copy, Debug, PartialEq, Eq)]
pub struct Config {
    min_interval: u16,
    max_interval: u16,
    fields: RouterAdvertisement,
    mtu: u32,
}

impl Model for Config {
    ghost use Rattle.std.specs.Prelude.{None, ◌≡◌};
    ghost use Rattle.nd_advertiser.specs.Config.{Settings, config_fault};

    ghost Value = { Settings };

    ghost view = { λ c. record { min_interval = c.min_interval; max_interval = c.max_interval; fields = c.fields; mtu = c.mtu } };

    ghost invariant = { λ c. config_fault (record { min_interval = c.min_interval; max_interval = c.max_interval; fields = c.fields; mtu = c.mtu }) ≡ None };

    ghost inverse = { λ s. record { min_interval = s.min_interval; max_interval = s.max_interval; fields = s.fields; mtu = s.mtu } };
}

impl Config {
    /// Returns such a configuration: MinRtrAdvInterval, MaxRtrAdvInterval and AdvDefaultLifetime in seconds, AdvCurHopLimit, the flags,
    /// AdvReachableTime and AdvRetransTimer in milliseconds, and AdvLinkMTU in bytes, 0 for none.
    ///
    /// Returns the first rule that is broken as an error: `Max`, `Min`, `Lifetime`, `Reachable`, `Mtu` or `Preference`.
    pub fn new(
        min_interval: u16,
        max_interval: u16,
        lifetime: u16,
        hop_limit: u8,
        flags: ConfigFlags,
        reachable_time: u32,
        retrans_timer: u32,
        mtu: u32,
    ) -> Result<Config, ConfigFault>
        ensures { let settings : Settings = record { min_interval = min_interval; max_interval = max_interval; fields = record { hop_limit = hop_limit; managed = flags.managed; other = flags.other; preference = flags.preference; router_lifetime = lifetime; reachable_time = reachable_time; retrans_timer = retrans_timer }; mtu = mtu } in
            result ≡ unless (config_fault settings) settings }
    {
        if !is_max_interval(max_interval) {
            return Err(ConfigFault::Max);
        }
        if !is_min_interval(min_interval, max_interval) {
            return Err(ConfigFault::Min);
        }
        if !is_router_lifetime(max_interval, lifetime) {
            return Err(ConfigFault::Lifetime);
        }
        if reachable_time > GREATEST_REACHABLE_TIME {
            return Err(ConfigFault::Reachable);
        }
        if !is_mtu(mtu) {
            return Err(ConfigFault::Mtu);
        }
        if !may_prefer(lifetime, flags.preference) {
            return Err(ConfigFault::Preference);
        }
        Ok(Config {
            min_interval,
            max_interval,
            fields: RouterAdvertisement {
                hop_limit,
                managed: flags.managed,
                other: flags.other,
                preference: flags.preference,
                router_lifetime: lifetime,
                reachable_time,
                retrans_timer,
            },
            mtu,
        })
    }

    /// Returns the least and the greatest time between two advertisements, in milliseconds (RFC 4861, section 6.2.4).
    pub fn interval(&self) -> (u64, u64)
        ensures { result ≡ interval_range self.now }
    {
        (
            milliseconds(self.min_interval),
            milliseconds(self.max_interval),
        )
    }

    /// Returns the fields of the advertisements.
    pub fn fields(&self) -> RouterAdvertisement
        ensures value { result ≡ self.now.fields }
        ensures right { config_fault self.now ≡ None }
        ensures medium { IsMediumAtZero self.now.fields }
    {
        self.fields
    }

    /// Returns AdvLinkMTU, in bytes, or 0 if the advertisements have no MTU option.
    pub fn mtu(&self) -> u32
        ensures { result ≡ self.now.mtu }
    {
        self.mtu
    }
}

/// Returns a number of seconds in milliseconds.
fn milliseconds(seconds: u16) -> u64
    ensures { result ≡ milliseconds seconds }
{
    MILLISECONDS_PER_SECOND * u64::from(seconds)
}

fn is_max_interval(max: u16) -> bool
    ensures { result ≡ is_max_interval max }
{
    max >= LEAST_MAX_INTERVAL && max <= GREATEST_MAX_INTERVAL
}

fn is_min_interval(min: u16, max: u16) -> bool
    ensures { result ≡ is_min_interval min max }
{
    min >= LEAST_MIN_INTERVAL && 4 * u32::from(min) <= 3 * u32::from(max)
}

fn is_router_lifetime(max: u16, lifetime: u16) -> bool
    ensures { result ≡ is_router_lifetime max lifetime }
{
    lifetime == 0 || (lifetime >= max && lifetime <= GREATEST_LIFETIME)
}

fn is_mtu(mtu: u32) -> bool
    ensures { result ≡ is_mtu mtu }
{
    mtu == 0 || (mtu >= LEAST_MTU && mtu <= ETHERNET_MTU)
}

fn may_prefer(lifetime: u16, preference: Preference) -> bool
    ensures { result ≡ may_prefer lifetime preference }
{
    lifetime != 0 || is_medium(preference)
}

fn is_medium(preference: Preference) -> bool
    ensures { result ≡ is_medium preference }
{
    match preference {
        Preference::Medium => true,
        Preference::High | Preference::Low => false,
    }
}
