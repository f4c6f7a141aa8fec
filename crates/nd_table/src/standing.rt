use crate::ends::is_before;
use crate::lasting::Lasting;

/// The keys that haven't ended at a moment, with their ends, in the order in which they were added.
#[derive(Clone, Copy, Debug)]
pub struct Standing<'a, K> {
    rest: &'a [Lasting<K>],
    moment: u64,
}

impl<'a, K> Standing<'a, K> {
    ghost use Rattle.std.specs.Prelude.{◌≡◌};
    ghost use Rattle.nd_table.specs.Listing.{open_at};
    ghost use Rattle.nd_table.specs.Left.{standing_left};

    /// Returns those of these entries that haven't ended at `moment`, in milliseconds.
    pub fn new(entries: &'a [Lasting<K>], moment: u64) -> Self
        ensures { standing_left result ≡ open_at moment entries.entry.now }
    {
        Standing {
            rest: entries,
            moment,
        }
    }
}

impl<'a, K> Iterator for Standing<'a, K> {
    type Item = &'a Lasting<K>;

    ghost use Rattle.std.specs.Iterator.{YieldsFirstBy, item_count};
    ghost use Rattle.nd_table.specs.Left.{standing_left, entry_of};

    ghost next_gives = { YieldsFirstBy entry_of standing_left };

    ghost remaining = { item_count standing_left };

    fn next(&mut self) -> Option<&'a Lasting<K>> {
        while let [first, rest @ ..] = self.rest {
            self.rest = rest;
            if is_before(self.moment, first.end) {
                return Some(first);
            }
        }
        None
    }
}
