//! Each history of a node has a chronicle: laws of the definitions, each the contract of a function that does nothing.

ghost use Rattle.std.specs.Prelude.{◌≡◌, ◌<◌, ◌≤◌, ℕ, List, Some, None};
ghost use Rattle.nd_advertiser.specs.Advertising.{advertised_by};
ghost use Rattle.nd_advertiser.specs.Config.{Settings, config_fault};
ghost use Rattle.nd_chronicle.specs.Start.{Start};
ghost use Rattle.nd_chronicle.specs.Happening.{Chronicle};
ghost use Rattle.nd_chronicle.specs.Histories.{advertising_history};
ghost use Rattle.nd_chronicle.specs.Due.{router_advertisement_date};
ghost use Rattle.nd_chronicle.specs.Event.{Event};
ghost use Rattle.nd_chronicle.specs.History.{IsChronicle, Runs, Walk};
ghost use Rattle.nd_existence.specs.Intervals.{AreTimed, LeaveTime};

/// Each history has a chronicle: for each start, and all events with their moments, in order or not, there is a chronicle of them. By
/// `nd_chronicle::laws::one_chronicle` there is no other. Any frame may be received, any packet be sent, and any address be given by hand.
///
/// There is one premise: a router is given no MinRtrAdvInterval of 0 (RFC 4861, section 6.2.1: it "MUST be no less than 3 seconds").
/// `no_end_without_an_interval` says why. The node may have any policies.
pub fn each_history_has_a_chronicle()
    ensures beginning { (start : Start) (events : List (ℕ × Event)) → LeaveTime events → (c : Chronicle) × IsChronicle start events c }
    // A chronicle with such settings goes on with all further events of this kind, and keeps such settings.
    ensures onward { (start : Start) (c : Chronicle) (events : List (ℕ × Event)) → AreTimed c → LeaveTime events → (d : Chronicle) × Runs start c events d × AreTimed d }
    // The chronicle of a history of this kind has such settings.
    ensures timed { (start : Start) (events : List (ℕ × Event)) (c : Chronicle) → LeaveTime events → IsChronicle start events c → AreTimed c }
{}

/// If both intervals of a router's settings are 0, the millisecond in which a Router Advertisement is due has no end: each one that is sent is
/// followed by another one in the same millisecond (RFC 4861, section 6.2.4), so that no chronicle leads past it.
pub fn no_end_without_an_interval()
    ensures { (start : Start) (c d : Chronicle) (moment end : ℕ) (settings : Settings) → settings.min_interval ≡ 0 → settings.max_interval ≡ 0
        → advertised_by (advertising_history start c) ≡ Some settings → router_advertisement_date start c ≡ Some moment → moment ≤ end
        → Walk start c moment end d → ⊥ }
{}

/// Settings without a fault meet the premise.
pub fn settings_without_a_fault_leave_time()
    ensures { (settings : Settings) → config_fault settings ≡ None → 0 < settings.min_interval }
{}
