ghost use Rattle.std.specs.Prelude.{◌≡◌, ◌≤◌, ◌<◌, ◌*◌, ◌^◌, true, length, vec_len, vec_capacity, List};
ghost use Rattle.nd_table.specs.declared.lasting.Lasting.{Lasting};
ghost use Rattle.nd_table.specs.Listing.{fits, with_room};
ghost use Rattle.nd_table.specs.ListingKept.{announced_all, Distinct};
ghost use Rattle.nd_table.specs.Moment.{IsMoment};
ghost use Rattle.nd_table.specs.Refreshing.{only_refreshes};
ghost use Rattle.nd_table.specs.WalkKept.{LeadsTo};

use crate::announces::Announces;
use crate::lasting::Lasting;
use crate::lasting_entries::{announce, count, has_room, stands};
use crate::names_key::NamesKey;
use crate::walk::Walk;
use std::alloc::Allocator;

/// Returns true if there is room for all announced keys besides those listed, even if each announcement adds one.
fn are_few<K, Q: NamesKey<K> + Drop, I: Announces<K, Q> + Copy>(room: usize, announced: I) -> bool
    ensures { result ≡ true → length (I.told announced) ≤ room }
{
    let mut left = room;
    let mut rest = announced;
    while let Some(_) = rest.next_told() {
        if left == 0 {
            return false;
        }
        left -= 1;
    }
    true
}

/// Returns true if a walk comes to the end of the announcements of a message: there is room for them.
fn comes_to_the_end<K, Q: NamesKey<K> + Copy, I: Announces<K, Q> + Drop>(
    walk: Walk<'_, K>,
    announced: I,
    kept: &mut [Option<Q>],
) -> bool
    requires { (entries : List (Lasting K)) × LeadsTo Q.same Q.named walk kept.old entries }
    ensures { (entries : List (Lasting K)) → LeadsTo Q.same Q.named walk.entry kept.old entries → result ≡ fits Q.same walk.entry.limit walk.entry.now (I.told announced) entries }
{
    let mut walk = walk;
    let mut rest = announced;
    while let Some((name, lifetime)) = rest.next_told() {
        match walk.adds(kept, name, lifetime) {
            Some(_) => {}
            None => return false,
        }
    }
    true
}

/// Returns true if the announcements of a message heard at `now`, in milliseconds, never lead to more entries than `limit`, taken in order. Names of
/// keys that change are kept in `kept`, whatever is in it before.
pub fn fits_all<K, Q: NamesKey<K> + Copy, I: Announces<K, Q> + Copy + Drop>(
    entries: &[Lasting<K>],
    limit: usize,
    now: u64,
    announced: I,
    kept: &mut [Option<Q>],
) -> bool
    requires distinct { Distinct Q.same entries.now }
    requires few { length entries.now ≤ limit }
    requires limited { limit < 2 ^ 32 }
    requires kept { 2 * limit ≤ length kept.old }
    ensures { result ≡ fits Q.same limit now (I.told announced) entries.now }
{
    // Mostly there is room for as many as are announced.
    if are_few(limit - count(entries, now), announced) {
        return true;
    }
    comes_to_the_end(Walk::new(entries, limit, now), announced, kept)
}

/// Returns true if the announcements of a message only refresh what is listed at `now`, in milliseconds: each key is, and no lifetime is 0. It takes no
/// memory.
pub fn only_refreshes<K, Q: NamesKey<K> + Drop, I: Announces<K, Q> + Drop>(
    entries: &[Lasting<K>],
    now: u64,
    announced: I,
) -> bool
    ensures { result ≡ only_refreshes Q.same now (I.told announced) entries.now }
{
    let mut rest = announced;
    while let Some((name, lifetime)) = rest.next_told() {
        if lifetime == 0 || !stands(entries, now, &name) {
            return false;
        }
    }
    true
}

/// Takes the announcements of a message in order, but those for which there is no room. Returns true if the ones that it takes only refresh what is
/// listed at `now`, in milliseconds: each key is, and no lifetime is 0.
pub fn announce_all<K: NamesKey<K> + Copy + Drop, I: Announces<K, K> + Drop, A: Allocator>(
    entries: &mut Vec<Lasting<K>, A>,
    limit: usize,
    now: u64,
    announced: I,
) -> bool
    requires moment { IsMoment now }
    requires itself { (k : K) → K.named k ≡ k }
    requires few { vec_len entries.old ≤ limit }
    requires room { limit ≤ vec_capacity entries.old }
    ensures refreshes { result ≡ only_refreshes K.same now (with_room K.same limit now (I.told announced) entries.old.items) entries.old.items }
    ensures items { entries.new.items ≡ announced_all K.same now (with_room K.same limit now (I.told announced) entries.old.items) entries.old.items }
    ensures few { vec_len entries.new ≤ limit }
    ensures capacity { vec_capacity entries.new ≡ vec_capacity entries.old }
{
    let mut rest = announced;
    let mut refreshes = true;
    while let Some((key, lifetime)) = rest.next_told() {
        if !has_room(entries, limit, now, &key, lifetime) {
            continue;
        }
        if !announce(entries, now, &key, Some(key), lifetime) {
            refreshes = false;
        }
    }
    refreshes
}
