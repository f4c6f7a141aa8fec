ghost use Rattle.std.specs.Prelude.{◌≡◌, ℕ, ◌<◌, ◌≤◌, ◌+◌, ◌^◌, ◌++◌, ◌∷◌, true, [], Option, Some, None, MatchOption, length, take, get_or, sum_by};
ghost use Rattle.nd_table.specs.ListingKept.{count_after};
ghost use Rattle.nd_table.specs.WalkKept.{times, count_name};

use crate::lasting::Lasting;
use crate::lasting_entries::{count, stands};
use crate::names_key::NamesKey;

/// A walk over the announcements of a message, in their order: which of them add their keys, and whether there is room for these. An announcement
/// costs at most a comparison with each key of the table and with each name that is kept, of which there are at most twice as many.
#[derive(Clone, Copy, Debug)]
pub struct Walk<'a, K> {
    /// The table as it was before the message.
    entries: &'a [Lasting<K>],
    limit: usize,
    /// In milliseconds.
    now: u64,
    /// The number of keys that stand.
    standing: usize,
    /// The number of keys that stand and didn't before the message, or did and don't. Their names are kept.
    changed: usize,
}

impl<'a, K> Walk<'a, K> {
    ghost use Rattle.std.specs.Prelude.{◌≡◌, ◌<◌, List, MatchOption, length};
    ghost use Rattle.nd_table.specs.declared.lasting.Lasting.{Lasting};
    ghost use Rattle.nd_table.specs.Listing.{open_at, announced};
    ghost use Rattle.nd_table.specs.ListingKept.{enters};
    ghost use Rattle.nd_table.specs.WalkKept.{LeadsTo};

    /// Returns a walk over the announcements of a message at `now`, in milliseconds, to a table with this limit.
    pub fn new(entries: &'a [Lasting<K>], limit: usize, now: u64) -> Self
        ensures { result ≡ record { entries = entries.entry; limit = limit; now = now; standing = length (open_at now entries.entry.now); changed = 0 } }
    {
        Walk {
            entries,
            limit,
            now,
            standing: count(entries, now),
            changed: 0,
        }
    }

    /// Takes the next announcement of the message. Returns true if it adds its key, or `None` if there is no room for it. The names that are kept
    /// lie in `kept`, which has two places for each entry of the limit.
    pub fn adds<Q: NamesKey<K> + Copy>(
        &mut self,
        kept: &mut [Option<Q>],
        name: Q,
        lifetime: u32,
    ) -> Option<bool>
        requires { (entries : List (Lasting K)) × LeadsTo Q.same Q.named self.old kept.old entries }
        ensures adds { (entries : List (Lasting K)) → LeadsTo Q.same Q.named self.old kept.old entries
            → MatchOption result (self.old.limit < length (announced Q.same self.old.now (Q.named name) lifetime entries))
            (λ adds. (adds ≡ enters Q.same self.old.now (Q.named name) lifetime entries) × LeadsTo Q.same Q.named self.new kept.new (announced Q.same self.old.now (Q.named name) lifetime entries)) }
        // One for which there is no room leaves the walk where it is.
        ensures passed { (result ≡ None) → (self.new ≡ self.old) × (kept.new ≡ kept.old) }
        ensures limit { self.new.limit ≡ self.old.limit }
        ensures now { self.new.now ≡ self.old.now }
    {
        let place = place_in(&kept[..self.changed], &name);
        let stood = stands(self.entries, self.now, &name) != place.is_some();
        let stays = lifetime != 0;
        if stood == stays {
            return Some(false);
        }
        let standing = count_after(self.standing, stood, stays);
        if standing > self.limit {
            return None;
        }
        self.standing = standing;
        self.changed = change(kept, self.changed, place, name);
        Some(stays)
    }
}

/// Returns the number of keys that stand after an announcement. `before` and `after`: its key stood before it, stands after it.
fn count_after(standing: usize, before: bool, after: bool) -> usize
    requires some { before ≡ true → 1 ≤ standing }
    requires room { standing < 2 ^ 32 }
    ensures { result ≡ count_after standing before after }
{
    match (before, after) {
        (true, false) => standing - 1,
        (false, true) => standing + 1,
        _ => standing,
    }
}

/// Returns the place of a key's name.
fn place_in<K, Q: NamesKey<K>>(names: &[Option<Q>], name: &Q) -> Option<usize>
    ensures { MatchOption result (times Q.same Q.named (Q.named name.now) names.now ≡ 0) (λ i. (i < length names.now) × (count_name Q.same Q.named (Q.named name.now) (get_or names.now i None) ≡ 1)) }
{
    for i in 0..names.len() {
        if let Some(other) = &names[i] {
            if name.names_same(other) {
                return Some(i);
            }
        }
    }
    None
}

/// Removes the name at a place of the first `count`, or adds the name behind them if no place is given. Returns how many there are then.
fn change<Q: Copy>(kept: &mut [Option<Q>], count: usize, place: Option<usize>, name: Q) -> usize
    requires within { count ≤ length kept.old }
    requires place { MatchOption place (count < length kept.old) (λ i. i < count) }
    ensures names { MatchOption place (take result kept.new ≡ take count kept.old ++ Some name ∷ [])
        (λ i. (f : Option Q → ℕ) → sum_by f (take result kept.new) + f (get_or kept.old i None) ≡ sum_by f (take count kept.old)) }
    ensures len { length kept.new ≡ length kept.old }
    ensures within { result ≤ length kept.new }
{
    match place {
        Some(i) => {
            kept[i] = kept[count - 1];
            count - 1
        }
        None => {
            kept[count] = Some(name);
            count + 1
        }
    }
}
