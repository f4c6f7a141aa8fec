ghost use Rattle.std.specs.Prelude.{◌≡◌, ◌^◌, ◌<◌, ◌≤◌, ◌∷◌, List, is_some, not, ◌==◌, IfSome};
ghost use Rattle.nd_addr.specs.Frame.{ethernet_mtu};
ghost use Rattle.nd_decode.specs.Option.{Said};
ghost use Rattle.nd_decode.specs.Pieces.{options_left};
ghost use Rattle.nd_table.specs.Moment.{IsMoment};
ghost use Rattle.nd_params.specs.History.{Row, Heard, base_of, then_heard};
ghost use Rattle.nd_params.specs.RouterAdvertisement.{first_mtu, valid_mtu_or};
ghost use Rattle.nd_params.specs.Params.{redraws};
ghost use Rattle.nd_params.specs.ParamsKept.{Stands, GainsRows};

use crate::params::Params;
use nd_addr::{ETHERNET_MTU, LEAST_MTU};
use nd_decode::{OPTION_MTU, OptionRef, Options, RouterAdvertisement};

impl Params {
    /// Returns true if a Router Advertisement changes the base, so that ReachableTime must be drawn (RFC 4861, section 6.3.4).
    pub fn redraws(&self, ra: &RouterAdvertisement) -> bool
        ensures value { result ≡ redraws self.now.base_reachable_time ra.now.reachable_time }
        ensures changes { (history : List Row) (options : List Said) → Stands self.now history → result ≡ not (base_of (Heard ra.now options ∷ history) == base_of history) }
    {
        ra.reachable_time != 0 && ra.reachable_time != self.base_reachable_time
    }

    /// Takes a Router Advertisement at `now` (RFC 4861, section 6.3.4). If it changes the base, as `redraws` says, `drawn` is the new
    /// ReachableTime. Both are in milliseconds.
    pub fn heard_ra(
        &mut self,
        now: u64,
        ra: &RouterAdvertisement,
        options: Options<'_>,
        drawn: Option<u64>,
    )
        requires moment { IsMoment now }
        requires span { IfSome drawn (λ value. value < 2 ^ 62) }
        requires drawn { is_some drawn ≡ redraws self.old.base_reachable_time ra.now.reachable_time }
        ensures stands { GainsRows self.old self.new (then_heard now ra.now (options_left options.entry) drawn) }
    {
        if ra.hop_limit != 0 {
            self.hop_limit = ra.hop_limit;
        }
        if ra.reachable_time != 0 {
            self.base_reachable_time = ra.reachable_time;
        }
        if ra.retrans_timer != 0 {
            self.retrans_timer = ra.retrans_timer;
        }
        self.mtu = mtu_after(options, self.mtu);
        self.managed = ra.managed;
        self.other = ra.other;
        if let Some(value) = drawn {
            self.redrawn(now, value);
        }
    }
}

/// Returns the first MTU option.
#[tactic(auto, using(crate::proofs::OfType::first_mtu_from))]
fn first_mtu(options: Options<'_>) -> Option<u32>
    ensures { result ≡ first_mtu (options_left options.entry) }
{
    let mut rest = options;
    while let Some(option) = rest.next_of_type(OPTION_MTU) {
        if let OptionRef::Mtu(mtu) = option {
            return Some(mtu);
        }
    }
    None
}

/// Returns the MTU after these options: that of the first MTU option if the link can have it, and otherwise `before`.
fn mtu_after(options: Options<'_>, before: u32) -> u32
    requires { before ≤ ethernet_mtu }
    ensures most { result ≤ ethernet_mtu }
    ensures value { result ≡ valid_mtu_or (first_mtu (options_left options.entry)) before }
{
    match first_mtu(options) {
        Some(mtu) if mtu >= LEAST_MTU && mtu <= ETHERNET_MTU => mtu,
        _ => before,
    }
}
