ghost use Rattle.std.specs.Prelude.{◌≡◌, ◌≤◌, ◌<◌, ◌&&◌, ◌==◌, nat_le, not, Some, false, MatchOption, length, map, is_some, vec_len, vec_capacity};
ghost use Rattle.std.specs.List.{list_all};
ghost use Rattle.nd_table.specs.Ends.{is_before};
ghost use Rattle.nd_table.specs.Listing.{end_in, renewed, without, open_at, announced};
ghost use Rattle.nd_table.specs.ListingKept.{enters};
ghost use Rattle.nd_table.specs.Moment.{IsMoment};

use crate::ends::{end_time, is_before};
use crate::lasting::Lasting;
use crate::names_key::NamesKey;
use std::alloc::Allocator;

/// Returns true if there is an entry of the key.
pub fn has<K, Q: NamesKey<K>>(entries: &[Lasting<K>], name: &Q) -> bool
    ensures { result ≡ is_some (end_in Q.same (Q.named name.now) entries.now) }
{
    for entry in entries {
        if name.names(&entry.key) {
            return true;
        }
    }
    false
}

/// Sets the end of an entry if it is the key's, and returns whether it is.
fn renew_one<K, Q: NamesKey<K>>(entry: &mut Lasting<K>, name: &Q, end: Option<u64>) -> bool
    ensures renews { entry.new ≡ renewed Q.same (Q.named name.now) end entry.old }
    ensures named { result ≡ Q.same entry.old.key (Q.named name.now) }
{
    if name.names(&entry.key) {
        entry.end = end;
        return true;
    }
    false
}

/// Sets the end of each entry that is the key's, and returns whether there is one.
fn renew_each<K, Q: NamesKey<K>>(entries: &mut [Lasting<K>], name: &Q, end: Option<u64>) -> bool
    ensures items { entries.new ≡ map (renewed Q.same (Q.named name.now) end) entries.old }
    ensures there { result ≡ is_some (end_in Q.same (Q.named name.now) entries.old) }
{
    let mut there = false;
    for entry in entries.iter_mut() {
        if renew_one(entry, name, end) {
            there = true;
        }
    }
    there
}

/// Sets the end of the key's entry. Returns true if there is one.
fn renew<K, Q: NamesKey<K>, A: Allocator>(
    entries: &mut Vec<Lasting<K>, A>,
    name: &Q,
    end: Option<u64>,
) -> bool
    ensures items { entries.new.items ≡ map (renewed Q.same (Q.named name.now) end) entries.old.items }
    ensures there { result ≡ is_some (end_in Q.same (Q.named name.now) entries.old.items) }
    ensures len { vec_len entries.new ≡ vec_len entries.old }
    ensures capacity { vec_capacity entries.new ≡ vec_capacity entries.old }
{
    renew_each(entries, name, end)
}

/// Removes the entry of the key.
pub fn remove<K: Drop, Q: NamesKey<K>, A: Allocator>(entries: &mut Vec<Lasting<K>, A>, name: &Q)
    ensures items { entries.new.items ≡ without Q.same (Q.named name.now) entries.old.items }
    ensures shorter { vec_len entries.new ≤ vec_len entries.old }
    ensures capacity { vec_capacity entries.new ≡ vec_capacity entries.old }
{
    entries.retain(|entry| !name.names(&entry.key));
}

/// Returns true if no entry has ended at `now`, in milliseconds.
fn none_ended<K>(entries: &[Lasting<K>], now: u64) -> bool
    ensures { result ≡ list_all (λ e. is_before now e.end) entries.now }
{
    for entry in entries {
        if !is_before(now, entry.end) {
            return false;
        }
    }
    true
}

/// Removes the entries that have ended at `now`, in milliseconds.
pub fn drop_ended<K: Drop, A: Allocator>(entries: &mut Vec<Lasting<K>, A>, now: u64)
    ensures items { entries.new.items ≡ open_at now entries.old.items }
    ensures shorter { vec_len entries.new ≤ vec_len entries.old }
    ensures capacity { vec_capacity entries.new ≡ vec_capacity entries.old }
{
    // Mostly none has ended.
    if none_ended(entries, now) {
        return;
    }
    entries.retain(|entry| is_before(now, entry.end));
}

/// Takes an announcement of a key by its name at `now`, in milliseconds, for a lifetime in seconds, and removes the entries that have ended. There is
/// room for it, and `key` is given if the announcement adds it. Returns true if it only refreshes an entry.
#[tactic(auto, using(crate::proofs::Finding::renewed_absent))]
pub fn announce<K: Drop, Q: NamesKey<K>, A: Allocator>(
    entries: &mut Vec<Lasting<K>, A>,
    now: u64,
    name: &Q,
    key: Option<K>,
    lifetime: u32,
) -> bool
    requires moment { IsMoment now }
    requires named { MatchOption key (enters Q.same now (Q.named name.now) lifetime entries.old.items ≡ false) (λ k. k ≡ Q.named name.now) }
    requires room { length (announced Q.same now (Q.named name.now) lifetime entries.old.items) ≤ vec_capacity entries.old }
    ensures refreshes { result ≡ (not (lifetime == 0) && is_some (end_in Q.same (Q.named name.now) (open_at now entries.old.items))) }
    ensures items { entries.new.items ≡ announced Q.same now (Q.named name.now) lifetime entries.old.items }
    ensures capacity { vec_capacity entries.new ≡ vec_capacity entries.old }
{
    drop_ended(entries, now);
    if lifetime == 0 {
        remove(entries, name);
        return false;
    }
    let end = end_time(now, lifetime);
    if renew(entries, name, end) {
        return true;
    }
    if let Some(key) = key {
        entries.push_reserved(Lasting { key, end });
    }
    false
}

/// Returns true if there is room for an announcement at `now`, in milliseconds, for a lifetime in seconds: it leads to no more entries than `limit`.
pub fn has_room<K, Q: NamesKey<K>>(
    entries: &[Lasting<K>],
    limit: usize,
    now: u64,
    name: &Q,
    lifetime: u32,
) -> bool
    requires { length entries.now ≤ limit }
    ensures { result ≡ nat_le (length (announced Q.same now (Q.named name.now) lifetime entries.now)) limit }
{
    // Mostly there is room for one more.
    if entries.len() < limit {
        return true;
    }
    if !enters(entries, now, name, lifetime) {
        return true;
    }
    count(entries, now) < limit
}

/// Returns true if an announcement at `now`, in milliseconds, for a lifetime in seconds, adds the key that it names.
pub fn enters<K, Q: NamesKey<K>>(entries: &[Lasting<K>], now: u64, name: &Q, lifetime: u32) -> bool
    ensures { result ≡ enters Q.same now (Q.named name.now) lifetime entries.now }
{
    lifetime != 0 && !stands(entries, now, name)
}

/// Returns true if the key has an entry that hasn't ended at `now`, in milliseconds.
pub fn stands<K, Q: NamesKey<K>>(entries: &[Lasting<K>], now: u64, name: &Q) -> bool
    ensures { result ≡ is_some (end_in Q.same (Q.named name.now) (open_at now entries.now)) }
{
    for entry in entries {
        if is_before(now, entry.end) && name.names(&entry.key) {
            return true;
        }
    }
    false
}

/// Returns the number of entries that haven't ended at `now`, in milliseconds.
pub fn count<K>(entries: &[Lasting<K>], now: u64) -> usize
    ensures value { result ≡ length (open_at now entries.now) }
    ensures within { result ≤ length entries.now }
{
    let mut count = 0;
    for entry in entries {
        if is_before(now, entry.end) {
            count += 1;
        }
    }
    count
}
