//! What a router advertises, from and to C. The definitions are in `specs/Advertising.antt`.

ghost use Rattle.std.specs.Prelude.{◌≡◌, Some};
ghost use Rattle.nd_c_types.specs.Advertising.{advertising_of, config_of, fits, is_well_formed};

use crate::numbers::preference_in;
use nd_advertiser::{Config, ConfigFlags};
use nd_heard::header::PREFERENCE_LOW;
use nd_heard::preference_number;

/// What a router advertises of itself and of its link: `nd_advertising` of the header.
#[repr(C)]
#[derive(Clone, Copy, Drop)]
pub struct Advertising {
    /// In seconds.
    pub min_interval: u32,
    /// In seconds.
    pub max_interval: u32,
    /// In seconds.
    pub lifetime: u32,
    /// In milliseconds.
    pub reachable_time: u32,
    /// In milliseconds.
    pub retrans_timer: u32,
    /// In bytes.
    pub mtu: u32,
    pub hop_limit: u8,
    pub managed: u8,
    pub other: u8,
    /// ND_PREFERENCE_MEDIUM, ND_PREFERENCE_HIGH or ND_PREFERENCE_LOW.
    pub preference: u8,
    pub reserved: u32,
}

/// The greatest number of seconds that a configuration can hold.
const GREATEST: u32 = u16::MAX as u32;

const MILLISECONDS_PER_SECOND: u64 = 1000;

impl Advertising {
    /// Returns the structure for a configuration.
    pub fn of(config: &Config) -> Advertising
        ensures value { result ≡ advertising_of config.now }
        ensures back { config_of result ≡ Some config.now }
    {
        let (min_interval, max_interval) = config.interval();
        let fields = config.fields();
        Advertising {
            min_interval: (min_interval / MILLISECONDS_PER_SECOND) as u32,
            max_interval: (max_interval / MILLISECONDS_PER_SECOND) as u32,
            lifetime: u32::from(fields.router_lifetime),
            reachable_time: fields.reachable_time,
            retrans_timer: fields.retrans_timer,
            mtu: config.mtu(),
            hop_limit: fields.hop_limit,
            managed: u8::from(fields.managed),
            other: u8::from(fields.other),
            preference: preference_number(fields.preference),
            reserved: 0,
        }
    }

    /// Returns the configuration that the structure describes. Returns `None` if a field is outside its range, or the configuration breaks a rule
    /// of RFC 4861, section 6.2.1, or of RFC 4191, section 2.2.
    pub fn config(&self) -> Option<Config>
        ensures { result ≡ config_of self.now }
    {
        if !self.is_well_formed() || !self.fits() {
            return None;
        }
        let flags = ConfigFlags {
            managed: self.managed == 1,
            other: self.other == 1,
            preference: preference_in(self.preference),
        };
        Config::new(
            self.min_interval as u16,
            self.max_interval as u16,
            self.lifetime as u16,
            self.hop_limit,
            flags,
            self.reachable_time,
            self.retrans_timer,
            self.mtu,
        )
        .ok()
    }

    /// Returns true if the flags are 0 or 1, the preference is one of the header's, and the reserved field is 0.
    fn is_well_formed(&self) -> bool
        ensures { result ≡ is_well_formed self.now }
    {
        self.managed <= 1
            && self.other <= 1
            && self.preference <= PREFERENCE_LOW
            && self.reserved == 0
    }

    /// Returns true if the numbers of seconds are below 2^16.
    fn fits(&self) -> bool
        ensures { result ≡ fits self.now }
    {
        self.min_interval <= GREATEST && self.max_interval <= GREATEST && self.lifetime <= GREATEST
    }
}
