//! Binary search in a list in the order of its keys, with counted looks. `Rises` and `at_key` are in `specs/Keyed.antt`,
//! `place_of` in `specs/KeyedKept.antt`.

ghost use Rattle.std.specs.Prelude.{◌≡◌, ◌<◌, ◌≤◌, ◌+◌, length, slice_get, IfOk, IfErr, None};
ghost use Rattle.nd_table.specs.Keyed.{at_key, Rises};
ghost use Rattle.nd_table.specs.KeyedKept.{place_of, binary_digits};

use crate::probes::Counter;
use crate::ranked::Ranked;

/// Returns the place of a key in a list in the order of keys, or the place where it belongs. It looks at no more entries than their
/// number has binary digits, and counts each in `probes`. The last of those that aren't lower is compared a second time, at the end.
pub fn search<K, E: Ranked<K>, C: Counter>(
    entries: &[E],
    sought: &K,
    probes: &mut C,
) -> Result<usize, usize>
    requires { Rises E.key entries.now }
    ensures within { IfOk result (λ i. i < length entries.now) }
    ensures found { IfOk result (λ i. at_key E.key (E.number sought.now) entries.now ≡ slice_get entries.now i) }
    ensures absent { IfErr result (λ _. at_key E.key (E.number sought.now) entries.now ≡ None) }
    ensures place { IfErr result (λ i. i ≡ place_of E.key (E.number sought.now) entries.now) }
    ensures fits { IfErr result (λ i. i ≤ length entries.now) }
    ensures looks { C.count probes.new ≤ C.count probes.old + binary_digits (length entries.now) }
    ensures counts { C.count probes.old ≤ C.count probes.new }
{
    let mut low = 0;
    let mut high = entries.len();
    while low < high {
        let middle = low + (high - low) / 2;
        probes.look();
        if entries[middle].compare(sought).is_lt() {
            low = middle + 1;
        } else {
            high = middle;
        }
    }
    if low < entries.len() && entries[low].compare(sought).is_eq() {
        return Ok(low);
    }
    Err(low)
}
