//! Keys that haven't ended at a moment, with what is left of their lifetimes.

ghost use Rattle.std.specs.Prelude.{◌≡◌, map};
ghost use Rattle.nd_table.specs.Listing.{open_at};
ghost use Rattle.nd_table.specs.Shown.{seen};

use crate::lasting::Lasting;
use crate::standing::Standing;

/// A key that hasn't ended at a moment, and what is left of its lifetime.
#[derive(Clone, Copy, Debug)]
pub struct WithLifetime<'a, K> {
    pub key: &'a K,
    /// In milliseconds, or `None` for a lifetime without an end.
    pub left: Option<u64>,
}

/// The keys that haven't ended at a moment, in the order in which they were first announced, with what is left of their lifetimes.
#[derive(Clone, Copy, Debug)]
pub struct WithLifetimes<'a, K> {
    rest: Standing<'a, K>,
    moment: u64,
}

impl<'a, K> WithLifetimes<'a, K> {
    ghost use Rattle.nd_table.specs.Left.{lifetimes_left};

    /// Returns those of these entries that haven't ended at `moment`, in milliseconds.
    pub fn new(entries: &'a [Lasting<K>], moment: u64) -> Self
        ensures { lifetimes_left result ≡ map (seen moment) (open_at moment entries.entry.now) }
    {
        WithLifetimes {
            rest: Standing::new(entries, moment),
            moment,
        }
    }
}

impl<'a, K> Iterator for WithLifetimes<'a, K> {
    type Item = WithLifetime<'a, K>;

    ghost use Rattle.std.specs.Iterator.{YieldsFirstBy, item_count};
    ghost use Rattle.nd_table.specs.Left.{lifetimes_left, seen_in};

    ghost next_gives = { YieldsFirstBy seen_in lifetimes_left };

    ghost remaining = { item_count lifetimes_left };

    fn next(&mut self) -> Option<WithLifetime<'a, K>> {
        let entry = self.rest.next()?;
        Some(WithLifetime {
            key: &entry.key,
            left: entry.left(self.moment),
        })
    }
}
