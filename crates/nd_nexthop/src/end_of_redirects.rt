//! The end of redirects (RFC 4861, sections 6.3.5 and 7.3.3).

ghost use Rattle.std.specs.Prelude.{◌≡◌, ℕ, map, option_map, slice_get};
ghost use Rattle.lru.specs.LruCache.{lru_cache};
ghost use Rattle.nd_addr.specs.Number.{number_of};
ghost use Rattle.nd_nexthop.specs.Choice.{ended, ended_at, turned};
ghost use Rattle.nd_nexthop.specs.Memo.{forgotten};

use crate::choice::Choice;
use crate::target::Target;
use lru::{DefaultHasher, LruCache};
use nd_addr::Addr;
use std::alloc::Allocator;

impl<A: Allocator> Choice<A> {
    ghost use Rattle.nd_nexthop.specs.History.{TargetGone, Cleared};
    ghost use Rattle.nd_nexthop.specs.Choice.{GainsRow};

    /// Ends the redirects to an address that can't be reached (RFC 4861, section 7.3.3) or is no longer a router (section 6.3.5), and forgets
    /// all remembered next hops. It takes no memory.
    pub fn target_gone(&mut self, target: Addr)
        ensures stands { (at : ℕ) → GainsRow self.old self.new (TargetGone at (number_of target.0)) }
        ensures memory { self.new.memory ≡ forgotten self.old.memory }
        ensures limit { self.new.redirects.limit ≡ self.old.redirects.limit }
        ensures destinations { self.new.redirects.destinations ≡ self.old.redirects.destinations }
    {
        end_each(&mut self.redirects, Some(target));
        self.memo.forget();
    }

    /// Ends all redirects, and forgets all remembered next hops. It takes no memory.
    pub fn clear(&mut self)
        ensures stands { (at : ℕ) → GainsRow self.old self.new (Cleared at) }
        ensures memory { self.new.memory ≡ forgotten self.old.memory }
        ensures limit { self.new.redirects.limit ≡ self.old.redirects.limit }
        ensures destinations { self.new.redirects.destinations ≡ self.old.redirects.destinations }
    {
        end_each(&mut self.redirects, None);
        self.memo.forget();
    }
}

/// Ends the redirects to `gone`, or all if that is `None`. Each redirect goes to the end of the order once, so that the order is the same
/// afterwards.
fn end_each<A: Allocator>(
    redirects: &mut LruCache<u128, Target, DefaultHasher, A>,
    gone: Option<Addr>,
)
    ensures { redirects.new ≡ lru_cache (map (ended (option_map (λ a. number_of a.0) gone)) redirects.old.entries) redirects.old.cap }
{
    let mut left = redirects.len();
    while left > 0 {
        end_first(redirects, gone);
        left -= 1;
    }
}

/// Moves the first redirect to the end of the order, and ends it if it is to `gone`, or if that is `None`.
fn end_first<A: Allocator>(
    redirects: &mut LruCache<u128, Target, DefaultHasher, A>,
    gone: Option<Addr>,
)
    ensures { redirects.new ≡ lru_cache (turned (option_map (λ a. number_of a.0) gone) redirects.old.entries) redirects.old.cap }
{
    if let Some(destination) = first(redirects) {
        end_at(redirects, destination, gone);
        redirects.demote(&destination);
    }
}

/// Returns the destination of the first redirect.
fn first<A: Allocator>(redirects: &LruCache<u128, Target, DefaultHasher, A>) -> Option<u128>
    ensures { result ≡ option_map (λ e. e.0) (slice_get redirects.now.entries 0) }
{
    match redirects.peek_mru() {
        Some((destination, _)) => Some(*destination),
        None => None,
    }
}

/// Ends the redirect of a destination if it is to `gone`, or if that is `None`. It keeps its entry and its place in the order.
fn end_at<A: Allocator>(
    redirects: &mut LruCache<u128, Target, DefaultHasher, A>,
    destination: u128,
    gone: Option<Addr>,
)
    ensures { redirects.new ≡ lru_cache (ended_at (option_map (λ a. number_of a.0) gone) destination redirects.old.entries) redirects.old.cap }
{
    if let Some(target) = redirects.peek_mut(&destination) {
        target.end(gone);
    }
}
