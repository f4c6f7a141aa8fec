//! The parameters of the link (RFC 4861, section 6.3.2).

ghost use Rattle.std.specs.Prelude.{◌≡◌, ◌∷◌, ◌<◌, ◌^◌, IfSome, is_some};
ghost use Rattle.rand_core.specs.Stream.{next_u32};
ghost use Rattle.nd_decode.specs.Pieces.{options_left};
ghost use Rattle.nd_table.specs.Moment.{IsMoment};
ghost use Rattle.nd_params.specs.History.{Drew};
ghost use Rattle.nd_params.specs.Params.{redraws};
ghost use Rattle.nd_params.specs.ParamsKept.{GainsRows};
ghost use Rattle.nd_chronicle.specs.Generator as drawn;
ghost use Rattle.nd_steps.specs.Parameters.{redraw_from, HearsParameters};

use crate::draws::reachable_drawn;
use nd_decode::{Options, RouterAdvertisement};
use nd_neighbour::Times;
use nd_params::Params;
use rand_core::Rng;

/// Returns the times in force for the neighbours, in milliseconds (RFC 4861, section 6.3.2).
pub fn times_in_force(params: &Params) -> Times
    ensures retrans { result.retrans ≡ params.now.retrans_timer }
    ensures reachable { result.reachable ≡ params.now.reachable_time }
    ensures span { result.reachable < 2 ^ 62 }
{
    Times {
        retrans: params.retrans_timer(),
        reachable: params.reachable_time(),
    }
}

/// Draws ReachableTime, in milliseconds, if a Router Advertisement changes its base (RFC 4861, section 6.3.4).
fn redraw<R: Rng>(generator: &mut R, params: &Params, ra: &RouterAdvertisement) -> Option<u64>
    ensures value { (result, R.stream generator.new) ≡ redraw_from (redraws params.now.base_reachable_time ra.now.reachable_time) ra.now.reachable_time (R.stream generator.old) }
    ensures below { IfSome result (λ value. value < 2 ^ 62) }
    ensures drawn { is_some result ≡ redraws params.now.base_reachable_time ra.now.reachable_time }
{
    if !params.redraws(ra) {
        return None;
    }
    Some(reachable_drawn(generator, ra.reachable_time))
}

/// Draws ReachableTime again at `now`, in milliseconds, from the base in force (RFC 4861, section 6.3.4).
pub fn redraw_reachable_time<R: Rng>(params: &mut Params, generator: &mut R, now: u64)
    requires { IsMoment now }
    ensures stands { GainsRows params.old params.new (λ history. Drew now (drawn.reachable_drawn params.old.base_reachable_time (R.stream generator.old)) ∷ history) }
    ensures drawn_at { params.new.drawn_at ≡ now }
    ensures left { R.stream generator.new ≡ (next_u32 (R.stream generator.old)).1 }
{
    let value = reachable_drawn(generator, params.base_reachable_time());
    params.redrawn(now, value);
}

/// Takes the parameters that a Router Advertisement gives at `now`, in milliseconds. If it changes BaseReachableTime, ReachableTime is drawn from
/// the new base (RFC 4861, section 6.3.4).
pub fn hear_parameters<R: Rng>(
    params: &mut Params,
    generator: &mut R,
    now: u64,
    ra: &RouterAdvertisement,
    options: Options<'_>,
)
    requires { IsMoment now }
    ensures { HearsParameters params.old params.new (R.stream generator.old) (R.stream generator.new) now ra.now (options_left options.entry) }
{
    let drawn = redraw(generator, params, ra);
    params.heard_ra(now, ra, options, drawn);
}
