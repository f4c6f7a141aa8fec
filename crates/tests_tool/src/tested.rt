//! A node under test, whose generator repeats 0, run on a script.
//!
//! A run that is only words, lines and a text is a row of `crates/tests_hostile/stdin`, and no test here: these make their scripts.

use nd_addr::{Mac, Role};
use nd_lines::input::Pieces;
use nd_lines::output::Writing;
use nd_node::{Limits, Policies};
use nd_random::Source;
use nd_slaac::Transmits;
use ndpctl_run::{RunOptions, run_script};
use std::alloc::Global;
use std::process::Abort;
use std::test::*;

/// What a host reports up to its first Router Solicitation.
pub(crate) const STARTED: &str =
    "0 tx 3333ff9abcde3456789abcde86dd6000000000183aff00000000000000000000000000000000ff0200000000000000000001ff9abcde870053df00000000fe80000000000000365678fffe9abcde\n1000 assigned fe80::3656:78ff:fe9a:bcde\n1000 tx 3333000000023456789abcde86dd6000000000103afffe80000000000000365678fffe9abcdeff0200000000000000000000000000028500a78f0000000001013456789abcde\n";

/// The options of a run that tests choose.
#[derive(Drop)]
pub(crate) struct Tested {
    pub(crate) role: Role,
    pub(crate) mac: Mac,
    pub(crate) limits: Limits,
}

/// A host of 34:56:78:9a:bc:de.
pub(crate) fn host() -> Tested {
    Tested {
        role: Role::Host,
        mac: Mac([0x34, 0x56, 0x78, 0x9a, 0xbc, 0xde]),
        limits: Limits::usual(),
    }
}

/// A router of 02:00:00:00:00:01.
pub(crate) fn router() -> Tested {
    Tested {
        role: Role::Router,
        mac: Mac([2, 0, 0, 0, 0, 1]),
        limits: Limits::usual(),
    }
}

/// Runs `node` on `script`, which writes `wanted`.
pub(crate) fn run_on(rt: &impl Abort, alloc: Global, node: &Tested, script: &str, wanted: &str) {
    let mut reader = Pieces::new(script.as_bytes(), 4096);
    let mut writer = Writing::new(Vec::new(alloc));
    let options = RunOptions {
        role: node.role,
        mac: node.mac,
        transmits: Transmits::ONE,
        limits: node.limits,
        policies: Policies::none(),
        generator: Source::Constant(0),
    };
    let done = run_script(alloc, &mut reader, &mut writer, options);
    assert!(rt; done == Ok(()));
    assert_eq!(rt; writer.into_inner().as_slice(), wanted.as_bytes());
}
