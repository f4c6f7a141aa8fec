ghost use Rattle.std.specs.Prelude.{◌≡◌, ◌*◌, ◌/◌, ◌^◌, ◌<◌, ◌+◌, ◌∷◌, List, ℕ};
ghost use Rattle.nd_table.specs.Moment.{IsMoment};
ghost use Rattle.nd_params.specs.History.{Row, Drew};
ghost use Rattle.nd_params.specs.ReachableTime.{next_draw, redraw_after, reachable_range, MayBeDrawn};
ghost use Rattle.nd_params.specs.ParamsKept.{Stands, GainsRows};

use crate::params::Params;

/// The time from a draw of ReachableTime to the next one, in milliseconds: two hours, which is our choice of the few hours of RFC 4861, section
/// 6.3.4.
const REDRAW_AFTER: u64 = 7_200_000;

impl Params {
    /// Returns the moment at which ReachableTime is drawn again, in milliseconds.
    pub fn next_due(&self) -> u64
        ensures value { result ≡ self.now.drawn_at + redraw_after }
        ensures due { (history : List Row) → Stands self.now history → result ≡ next_draw history }
    {
        self.drawn_at + REDRAW_AFTER
    }

    /// Notes that ReachableTime was drawn again at `now`, both in milliseconds.
    pub fn redrawn(&mut self, now: u64, drawn: u64)
        requires moment { IsMoment now }
        requires span { drawn < 2 ^ 62 }
        ensures value { self.new ≡ record self.old { reachable_time = drawn; drawn_at = now } }
        ensures stands { GainsRows self.old self.new (λ history. Drew now drawn ∷ history) }
    {
        self.reachable_time = drawn;
        self.drawn_at = now;
    }
}

/// Returns the least and the greatest ReachableTime that may be drawn for a base, all in milliseconds: half of it and one and a half of it (RFC
/// 4861, section 6.3.2), both rounded down.
pub fn reachable_range(base: u32) -> (u64, u64)
    ensures value { result ≡ reachable_range base }
    // `new`, `heard_ra` and `redrawn` take any ReachableTime that may be drawn for a base.
    ensures below { (value : ℕ) → MayBeDrawn base value → value < 2 ^ 62 }
{
    let base = u64::from(base);
    (base / 2, 3 * base / 2)
}
