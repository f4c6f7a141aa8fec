ghost use Rattle.std.specs.Prelude.{◌≡◌};
ghost use Rattle.nd_addr.specs.Preference.{is_preferred, name_of, place_of};

/// The preference of a default router over other default routers (RFC 4191, section 2.1).
#[derive(Clone, Copy, Debug, PartialEq, Eq)]
pub enum Preference {
    High,
    /// The default: also that of a router that announces none.
    Medium,
    Low,
}

impl Preference {
    /// Returns its rank: 0 is the highest.
    fn place(self) -> u8
        ensures { result ≡ place_of self }
    {
        match self {
            Preference::High => 0,
            Preference::Medium => 1,
            Preference::Low => 2,
        }
    }

    /// Returns true if this preference is higher than `other`.
    pub fn is_above(self, other: Preference) -> bool
        ensures { result ≡ is_preferred self other }
    {
        self.place() < other.place()
    }

    /// Returns the name that is printed (our choice).
    pub fn name(self) -> &'static str
        ensures { result.now ≡ name_of self }
    {
        match self {
            Preference::High => "high",
            Preference::Medium => "medium",
            Preference::Low => "low",
        }
    }
}
