//! Neighbor Unreachability Detection (RFC 4861, section 7.3.3). The definitions are in `specs/UnreachabilityDetection.antt`.

ghost use Rattle.std.specs.Prelude.{IfSome, is_some, nat_lt, ◌+◌, ◌<◌, ◌≡◌};
ghost use Rattle.nd_table.specs.Moment.{IsMoment};
ghost use Rattle.nd_neighbour.specs.UnreachabilityDetection.{delay_first_probe_time, max_unicast_solicit};

/// The time from the first use of a STALE entry to its first probe, in milliseconds (RFC 4861, section 10).
const DELAY_FIRST_PROBE_TIME: u64 = 5_000;

/// The number of unicast solicitations that probing sends (RFC 4861, section 10).
const MAX_UNICAST_SOLICIT: u8 = 3;

/// What follows the first use of an entry that isn't REACHABLE (RFC 4861, section 7.3.3): DELAY before the moment of the first probe, and PROBE
/// from then on.
#[derive(Clone, Copy, Debug, PartialEq, Eq)]
pub(crate) struct Probing {
    /// The moment of the first probe, in milliseconds.
    pub(crate) from: u64,
    /// RetransTimer at the use: the time between two probes, in milliseconds.
    pub(crate) retrans: u32,
    /// The number of probes sent.
    pub(crate) sent: u8,
}

impl Probing {
    /// Returns the state of a STALE entry after its use: DELAY, with the first probe due DELAY_FIRST_PROBE_TIME later (RFC 4861, section 7.3.3).
    pub(crate) fn after_use(now: u64, retrans: u32) -> Self
        requires { IsMoment now }
        ensures { result ≡ record { from = now + delay_first_probe_time; retrans = retrans; sent = 0 } }
    {
        Probing {
            from: now + DELAY_FIRST_PROBE_TIME,
            retrans,
            sent: 0,
        }
    }

    /// Returns the state after a probe that is due is sent, in PROBE, a RetransTimer after the one before. Returns `None` after the third: the
    /// entry is removed (RFC 4861, section 7.3.3).
    pub(crate) fn probed(self) -> Option<Self>
        ensures left { is_some result ≡ nat_lt self.sent max_unicast_solicit }
        ensures sent { IfSome result (λ next. next ≡ record { from = self.from; retrans = self.retrans; sent = self.sent + 1 }) }
    {
        if self.sent >= MAX_UNICAST_SOLICIT {
            return None;
        }
        Some(Probing {
            sent: self.sent + 1,
            ..self
        })
    }
}
