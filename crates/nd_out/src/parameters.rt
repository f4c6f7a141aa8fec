ghost use Rattle.std.specs.Prelude.{◌≡◌, ◌++◌, ◌∷◌, [], ℕ, IfOk, OnOk, map, string_bytes};
ghost use Rattle.nd_params.specs.ParamsKept.{Stands};
ghost use Rattle.nd_chronicle.specs.Start.{Start};
ghost use Rattle.nd_chronicle.specs.Happening.{Chronicle};
ghost use Rattle.nd_chronicle.specs.Histories.{parameter_history};
ghost use Rattle.nd_chronicle.specs.Shown.{AreRows, ParameterTable};
ghost use Rattle.nd_out.specs.Parameters.{limits_in, times_in, flags_in, parameters_in};

use crate::row::{Row, add_row, write_flag, write_labelled};
use nd_params::Params;
use std::alloc::{AllocError, Allocator};

impl Row for Params {
    ghost use Rattle.nd_out.specs.Parameters.{parameters_in};

    ghost shown = { parameters_in };

    fn write_row<A: Allocator>(&self, text: &mut String<A>) -> Result<(), AllocError> {
        write_limits(text, self)?;
        write_times(text, self)?;
        write_flags(text, self)
    }
}

/// Writes the hop limit, and the MTU in bytes.
#[tactic(auto, unfolding(crate::specs::Parameters::limits_in))]
fn write_limits<A: Allocator>(text: &mut String<A>, params: &Params) -> Result<(), AllocError>
    ensures { OnOk result (string_bytes text.new ≡ string_bytes text.old ++ limits_in params.now) }
{
    write_labelled(text, "params hop ", u64::from(params.hop_limit()))?;
    write_labelled(text, " mtu ", u64::from(params.mtu()))
}

/// Writes the times, in milliseconds.
#[tactic(auto, unfolding(crate::specs::Parameters::times_in))]
fn write_times<A: Allocator>(text: &mut String<A>, params: &Params) -> Result<(), AllocError>
    ensures { OnOk result (string_bytes text.new ≡ string_bytes text.old ++ times_in params.now) }
{
    write_labelled(text, " reachable ", u64::from(params.base_reachable_time()))?;
    write_labelled(text, " ", params.reachable_time())?;
    write_labelled(text, " retrans ", u64::from(params.retrans_timer()))
}

/// Writes the flags of the last Router Advertisement.
#[tactic(auto, unfolding(crate::specs::Parameters::flags_in))]
fn write_flags<A: Allocator>(text: &mut String<A>, params: &Params) -> Result<(), AllocError>
    ensures { OnOk result (string_bytes text.new ≡ string_bytes text.old ++ flags_in params.now) }
{
    write_flag(text, " managed ", params.managed())?;
    write_flag(text, " other ", params.other())
}

/// Returns the row of the parameters of the link. Returns an error if out of memory.
pub fn parameter_row<A: Allocator + Clone>(
    alloc: &A,
    params: &Params,
) -> Result<Vec<String<A>, A>, AllocError>
    ensures value { IfOk result (λ rows. map string_bytes rows.items ≡ parameters_in params.now ∷ []) }
    ensures rows { IfOk result (λ rows. (start : Start) (c : Chronicle) (now : ℕ) → Stands params.now (parameter_history c) → AreRows start c now ParameterTable (map string_bytes rows.items)) }
{
    let mut rows = Vec::new(alloc.clone()?);
    add_row(&mut rows, alloc, params)?;
    Ok(rows)
}
