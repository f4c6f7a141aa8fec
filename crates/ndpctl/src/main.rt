//! `ndpctl`: commands of IPv6 Neighbor Discovery on one link.
#![tactic(auto)]

use nd_lines::input::Reading;
use ndpctl_tool::tool;
use std::process::ExitCode;

fn main(rt: HostRuntime) -> ExitCode {
    let mut reader = Reading::new(rt.reader());
    ExitCode::from(tool(&rt, &rt, &mut reader))
}
