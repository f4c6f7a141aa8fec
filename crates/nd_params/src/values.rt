ghost use Rattle.std.specs.Prelude.{◌≡◌, List, ◌<◌, ◌≤◌, ◌^◌};
ghost use Rattle.nd_addr.specs.Frame.{ethernet_mtu};
ghost use Rattle.nd_params.specs.History.{Row, hop_limit_of, mtu_of, base_of, retrans_of, managed_of, other_of};
ghost use Rattle.nd_params.specs.ReachableTime.{reachable_of};
ghost use Rattle.nd_params.specs.ParamsKept.{Stands};

use crate::params::Params;

impl Params {
    /// Returns CurHopLimit.
    pub fn hop_limit(&self) -> u8
        ensures value { result ≡ self.now.hop_limit }
        ensures by_history { (history : List Row) → Stands self.now history → result ≡ hop_limit_of history }
    {
        self.hop_limit
    }

    /// Returns LinkMTU, in bytes.
    pub fn mtu(&self) -> u32
        ensures value { result ≡ self.now.mtu }
        ensures most { result ≤ ethernet_mtu }
        ensures by_history { (history : List Row) → Stands self.now history → result ≡ mtu_of history }
    {
        self.mtu
    }

    /// Returns BaseReachableTime, in milliseconds.
    pub fn base_reachable_time(&self) -> u32
        ensures value { result ≡ self.now.base_reachable_time }
        ensures by_history { (history : List Row) → Stands self.now history → result ≡ base_of history }
    {
        self.base_reachable_time
    }

    /// Returns ReachableTime, in milliseconds.
    pub fn reachable_time(&self) -> u64
        ensures value { result ≡ self.now.reachable_time }
        ensures below { result < 2 ^ 62 }
        ensures by_history { (history : List Row) → Stands self.now history → result ≡ reachable_of history }
    {
        self.reachable_time
    }

    /// Returns RetransTimer, in milliseconds.
    pub fn retrans_timer(&self) -> u32
        ensures value { result ≡ self.now.retrans_timer }
        ensures positive { 0 < result }
        ensures by_history { (history : List Row) → Stands self.now history → result ≡ retrans_of history }
    {
        self.retrans_timer
    }

    /// Returns true if addresses are available by DHCPv6: the flag M of the last Router Advertisement (RFC 4861, section 4.2).
    pub fn managed(&self) -> bool
        ensures value { result ≡ self.now.managed }
        ensures by_history { (history : List Row) → Stands self.now history → result ≡ managed_of history }
    {
        self.managed
    }

    /// Returns true if other configuration is available by DHCPv6: the flag O of the last Router Advertisement (RFC 4861, section 4.2).
    pub fn other(&self) -> bool
        ensures value { result ≡ self.now.other }
        ensures by_history { (history : List Row) → Stands self.now history → result ≡ other_of history }
    {
        self.other
    }
}
