//! The number of solicitations of a detection (RFC 4862, section 5.1). The definition is in `specs/Transmits.antt`.

ghost use Rattle.std.specs.Prelude.{◌≡◌, ◌<◌};
ghost use Rattle.std.specs.Option.{SomeIff};
ghost use Rattle.nd_slaac.specs.Transmits.{IsTransmits};

use std::marker::Model;

/// The most solicitations that a duplicate address detection may send (our choice).
const MAX_TRANSMITS: u8 = 8;

/// The number of solicitations that each duplicate address detection of an interface sends, 1 to 8 (RFC 4862, section 5.1, DupAddrDetectTransmits).
/// 0, which would be no detection, is not offered.
#[derive(Clone, Copy, Debug, PartialEq, Eq)]
pub struct Transmits {
    number: u8,
}

impl Model for Transmits {
    ghost use Rattle.std.specs.Prelude.{ℕ};
    ghost use Rattle.nd_slaac.specs.Transmits.{IsTransmits};

    ghost Value = { ℕ };

    ghost view = { λ t. t.number };

    ghost invariant = { λ t. IsTransmits t.number };

    ghost inverse = { λ n. record { number = n } };
}

impl Transmits {
    /// The default of RFC 4862: one.
    pub const ONE: Transmits = Transmits { number: 1 };

    /// Returns `number` solicitations, or `None` if that is not 1 to 8.
    pub fn new(number: u8) -> Option<Transmits>
        ensures { SomeIff result (IsTransmits number) number }
    {
        if number < 1 || number > MAX_TRANSMITS {
            return None;
        }
        Some(Transmits { number })
    }

    /// Returns their number.
    pub fn number(self) -> u8
        ensures value { result ≡ self }
        ensures range { IsTransmits self }
    {
        self.number
    }
}
