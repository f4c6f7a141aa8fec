ghost use Rattle.std.specs.Prelude.{◌≡◌, ◌<◌, ℕ, length, slice_index};

/// Returns the same groups, with a clause that says what an array's type says of each: it is below 65536.
pub fn known_groups(groups: &[u16; 8]) -> &[u16]
    ensures value { result.now ≡ groups.now }
    ensures len { length groups.now ≡ 8 }
    ensures small { (i : ℕ) → slice_index groups.now i < 65536 }
{
    groups.as_slice()
}
