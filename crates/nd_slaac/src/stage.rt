//! The stages of duplicate address detection (RFC 4862, section 5.4).

ghost use Rattle.std.specs.Prelude.{◌≡◌, ◌+◌};
ghost use Rattle.nd_table.specs.Moment.{IsMoment};

/// The stage of an address's duplicate address detection (RFC 4862, section 5.4).
#[derive(Clone, Copy, Debug, PartialEq, Eq)]
pub(crate) enum Stage {
    /// It has not ended.
    Detecting {
        /// The number of solicitations sent.
        sent: u8,
        /// The time between two steps, in milliseconds.
        retrans: u32,
        /// The moment of the next step, in milliseconds: a further solicitation, or the assignment.
        due: u64,
    },
    /// It failed: another node has the address or tries it.
    Failed,
    /// It passed: the address is assigned.
    Passed,
}

impl Stage {
    /// Returns a detection that begins at `now`; its first solicitation waits for `delay`. Moment and times are in milliseconds.
    pub(crate) fn begin(now: u64, delay: u32, retrans: u32) -> Self
        requires { IsMoment now }
        ensures { result ≡ Stage.Detecting 0 retrans (now + delay) }
    {
        Stage::Detecting {
            sent: 0,
            retrans,
            due: now + u64::from(delay),
        }
    }
}
