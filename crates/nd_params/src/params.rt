ghost use Rattle.std.specs.Prelude.{◌≡◌, ◌^◌, ◌<◌, ◌∷◌, [], false};
ghost use Rattle.nd_params.specs.History.{Drew, default_hop_limit, reachable_time, retrans_timer};
ghost use Rattle.nd_addr.specs.Frame.{ethernet_mtu};
ghost use Rattle.nd_table.specs.Moment.{IsMoment};
ghost use Rattle.nd_params.specs.ParamsKept.{Values, Stands};

use nd_addr::ETHERNET_MTU;
use std::marker::Model;

/// CurHopLimit until a router announces one (RFC 4861, section 6.3.2; the number is that of the registry of IP parameters).
const DEFAULT_HOP_LIMIT: u8 = 64;

/// BaseReachableTime until a router announces one, in milliseconds (RFC 4861, section 10).
pub const REACHABLE_TIME: u32 = 30_000;

/// RetransTimer until a router announces one, in milliseconds (RFC 4861, section 10).
const RETRANS_TIMER: u32 = 1_000;

/// The parameters of a link that its routers announce (RFC 4861, section 6.3.2).
#[derive(Clone, Copy, Debug, PartialEq, Eq)]
pub struct Params {
    pub(crate) hop_limit: u8,
    pub(crate) mtu: u32,
    pub(crate) base_reachable_time: u32,
    pub(crate) reachable_time: u64,
    pub(crate) retrans_timer: u32,
    pub(crate) managed: bool,
    pub(crate) other: bool,
    pub(crate) drawn_at: u64,
}

impl Model for Params {
    ghost use Rattle.std.specs.Prelude.{◌<◌, ◌≤◌, ◌^◌};
    ghost use Rattle.nd_addr.specs.Frame.{ethernet_mtu};
    ghost use Rattle.nd_params.specs.ParamsKept.{Values};

    ghost Value = { Values };

    ghost view = { λ p. record { hop_limit = p.hop_limit; mtu = p.mtu; base_reachable_time = p.base_reachable_time; reachable_time = p.reachable_time; retrans_timer = p.retrans_timer; managed = p.managed; other = p.other; drawn_at = p.drawn_at } };

    ghost invariant = { λ p. (p.drawn_at < 2 ^ 62) × (p.reachable_time < 2 ^ 62) × (0 < p.retrans_timer) × (p.mtu ≤ ethernet_mtu) };

    ghost inverse = { λ v. record { hop_limit = v.hop_limit; mtu = v.mtu; base_reachable_time = v.base_reachable_time; reachable_time = v.reachable_time; retrans_timer = v.retrans_timer; managed = v.managed; other = v.other; drawn_at = v.drawn_at } };
}

impl Params {
    /// Returns the defaults (RFC 4861, section 10), with a first ReachableTime that was drawn from their base, at `now`, both in milliseconds.
    pub fn new(now: u64, drawn: u64) -> Params
        requires moment { IsMoment now }
        requires span { drawn < 2 ^ 62 }
        ensures value { result ≡ record { hop_limit = default_hop_limit; mtu = ethernet_mtu; base_reachable_time = reachable_time; reachable_time = drawn; retrans_timer = retrans_timer; managed = false; other = false; drawn_at = now } }
        ensures stands { Stands result (Drew now drawn ∷ []) }
    {
        Params {
            hop_limit: DEFAULT_HOP_LIMIT,
            mtu: ETHERNET_MTU,
            base_reachable_time: REACHABLE_TIME,
            reachable_time: drawn,
            retrans_timer: RETRANS_TIMER,
            managed: false,
            other: false,
            drawn_at: now,
        }
    }
}
