//! How the options of a message are read. The definition is in `specs/Reading.antt`.

ghost use Rattle.std.specs.Prelude.{◌≡◌};
ghost use Rattle.nd_decode.specs.Reading.{as_said, both, info_read, lifetime_read};

use crate::prefix_info::PrefixInfo;

/// The longest lifetime that a bounded reading takes, in seconds: a week (our choice).
const MOST_LIFETIME: u32 = 604_800;

/// How the options of a message are read.
#[derive(Clone, Copy, Debug, PartialEq, Eq)]
pub struct Reading {
    /// The flag A of a Prefix Information is read as clear: a host forms no address from it.
    pub unformed: bool,
    /// A valid or preferred lifetime, and a lifetime of servers or names, above 604,800 seconds is read as 604,800.
    pub bounded: bool,
}

impl Reading {
    /// Returns the reading of each option as it is said.
    pub fn as_said() -> Reading
        ensures { result ≡ as_said }
    {
        Reading {
            unformed: false,
            bounded: false,
        }
    }

    /// Returns the reading by this one, and then by `other`.
    pub(crate) fn and(self, other: Reading) -> Reading
        ensures { result ≡ both self other }
    {
        Reading {
            unformed: self.unformed || other.unformed,
            bounded: self.bounded || other.bounded,
        }
    }

    /// Returns a lifetime, in seconds, as it is read.
    #[tactic(auto, unfolding(crate::specs::Reading::lifetime_read))]
    pub(crate) fn lifetime(self, seconds: u32) -> u32
        ensures { result ≡ lifetime_read self.bounded seconds }
    {
        if self.bounded && seconds > MOST_LIFETIME {
            return MOST_LIFETIME;
        }
        seconds
    }

    /// Returns a Prefix Information as it is read.
    pub(crate) fn info(self, info: PrefixInfo) -> PrefixInfo
        ensures { result ≡ info_read self info }
    {
        PrefixInfo {
            autonomous: info.autonomous && !self.unformed,
            valid_lifetime: self.lifetime(info.valid_lifetime),
            preferred_lifetime: self.lifetime(info.preferred_lifetime),
            ..info
        }
    }
}
