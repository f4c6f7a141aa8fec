ghost use Rattle.std.specs.Prelude.{◌≡◌};
ghost use Rattle.nd_table.specs.Ends.{time_left};

use crate::dated::Dated;
use crate::ends::time_left;

/// A key that was announced, and the moment at which it ends, if it does.
#[derive(Clone, Copy, Debug, PartialEq, Eq, Drop)]
pub struct Lasting<K> {
    pub key: K,
    /// In milliseconds.
    pub end: Option<u64>,
}

impl<K> Lasting<K> {
    /// Returns the time that is left at `now` until its end: 0 after the end, and `None` if there is no end. All are in milliseconds.
    pub fn left(&self, now: u64) -> Option<u64>
        ensures { result ≡ time_left now self.now.end }
    {
        time_left(now, self.end)
    }
}

impl<K> Dated<()> for Lasting<K> {
    ghost date = { λ e. e.end };

    fn date(&self) -> Option<u64> {
        self.end
    }
}
