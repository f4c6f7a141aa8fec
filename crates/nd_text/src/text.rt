//! The groups of an address written as text (RFC 5952).

ghost use Rattle.std.specs.Prelude.{◌≡◌, ◌==◌, ◌+◌, ◌++◌, ◌<◌, ◌≤◌, suc, OnOk, string_bytes, if◌then◌else◌};
ghost use Rattle.nd_text.specs.Spelling.{SpellsAddress};
ghost use Rattle.nd_text.specs.Text.{longest_run, joined, shown, groups_text, IsText};

use crate::digits::push_group;
use crate::groups::known_groups;
use std::alloc::{AllocError, Allocator};

/// Groups of zero, one after the other.
#[derive(Clone, Copy)]
struct Run {
    start: usize,
    len: usize,
}

/// Returns the length of the run of zeros from this group on; `behind` is that of the run after it.
fn zeros_from(group: u16, behind: usize) -> usize
    requires { behind < 8 }
    ensures { result ≡ (if group == 0 then suc behind else 0) }
{
    if group == 0 { behind + 1 } else { 0 }
}

/// Returns the first of the longest runs of zeros.
fn find_longest(groups: &[u16; 8]) -> Run
    ensures start { result.start ≡ (longest_run groups.now).start }
    ensures len { result.len ≡ (longest_run groups.now).len }
{
    let mut best = Run { start: 8, len: 0 };
    let mut front = 0;
    for i in (0..8usize).rev() {
        front = zeros_from(groups[i], front);
        if best.len <= front {
            best = Run {
                start: i,
                len: front,
            };
        }
    }
    best
}

/// Writes groups with colons between them.
fn push_groups<A: Allocator>(text: &mut String<A>, groups: &[u16]) -> Result<(), AllocError>
    ensures { OnOk result (string_bytes text.new ≡ string_bytes text.old ++ joined groups.now) }
{
    let mut rest = groups;
    while let [group, after @ ..] = rest {
        push_group(text, *group)?;
        if !after.is_empty() {
            text.push(':')?;
        }
        rest = after;
    }
    Ok(())
}

/// Writes groups with two colons in place of a run of at least two zeros.
fn push_shown<A: Allocator>(
    text: &mut String<A>,
    groups: &[u16; 8],
    run: Run,
) -> Result<(), AllocError>
    requires { run.start + run.len ≤ 8 }
    ensures { OnOk result (string_bytes text.new ≡ string_bytes text.old ++ shown groups.now run.start run.len) }
{
    if run.len < 2 {
        return push_groups(text, groups);
    }
    push_groups(text, &groups[..run.start])?;
    text.push_str("::")?;
    push_groups(text, &groups[run.start + run.len..])
}

/// Appends the text of RFC 5952 for the eight groups of an address. Returns an error if out of memory.
pub fn write_groups<A: Allocator>(text: &mut String<A>, groups: &[u16; 8]) -> Result<(), AllocError>
    ensures written { OnOk result (string_bytes text.new ≡ string_bytes text.old ++ groups_text groups.now) }
    // It is the text of the first of the longest runs of zeros, and spells the groups.
    ensures rules { IsText groups.now (groups_text groups.now) }
    ensures spelled { SpellsAddress (groups_text groups.now) groups.now }
{
    let _groups = known_groups(groups);
    let run = find_longest(groups);
    push_shown(text, groups, run)
}
