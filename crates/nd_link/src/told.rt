//! What a link reports. The definitions are in `specs/Told.antt`.

ghost use Rattle.std.specs.Prelude.{◌≡◌, ◌<◌, IsOk, OnErr, OnOk, vec_capacity, vec_len};
ghost use Rattle.std.specs.List.{flat_map};
ghost use Rattle.nd_steps.specs.Outputs.{happenings};
ghost use Rattle.nd_link_log.specs.Log.{Refuses};
ghost use Rattle.nd_link_log.specs.Told.{node_reports, reports_of};
ghost use Rattle.nd_link.specs.Told.{TellsReports, refusal_of};

use crate::refusal::Refusal;
use nd_out::Out;
use std::alloc::{AllocError, Allocator};

/// What a link reports.
#[derive(Drop)]
pub enum Told<A: Allocator> {
    /// What happened at a node, by its number, with the moments, in milliseconds, the oldest first.
    Node(usize, Vec<(u64, Out<A>), A>),
    /// The link refused an event of this moment, in milliseconds.
    Refused(u64, Refusal),
}

/// Reports what happened at a node, if anything did. Returns an error if out of memory; nothing is reported then.
pub(crate) fn tell<A: Allocator>(
    told: &mut Vec<Told<A>, A>,
    node: usize,
    outs: Vec<(u64, Out<A>), A>,
) -> Result<(), AllocError>
    ensures tells { OnOk result (TellsReports told.old.items told.new.items (flat_map (node_reports node) (happenings outs.items))) }
    ensures same { OnErr result (told.new.items ≡ told.old.items) }
{
    if outs.is_empty() {
        return Ok(());
    }
    told.push(Told::Node(node, outs))?;
    Ok(())
}

/// Reports a refusal. Returns an error if out of memory; nothing is reported then.
pub(crate) fn tell_refused<A: Allocator>(
    told: &mut Vec<Told<A>, A>,
    at: u64,
    why: Refusal,
) -> Result<(), AllocError>
    ensures tells { OnOk result (TellsReports told.old.items told.new.items (reports_of (Refuses at (refusal_of why)))) }
    ensures same { OnErr result (told.new.items ≡ told.old.items) }
    ensures ready { vec_len told.old < vec_capacity told.old → IsOk result }
{
    told.push(Told::Refused(at, why))?;
    Ok(())
}
