//! The words of a script that spell what a router advertises of itself and of its link.

ghost use Rattle.std.specs.Prelude.{◌≡◌, ℕ, ◌<◌, ◌^◌, [], ◌∷◌, length, Some, IsSome, IfSome};
ghost use Rattle.nd_advertiser.specs.Config.{Settings};
ghost use Rattle.ndpctl_run.specs.Number.{IsNumberOr};
ghost use Rattle.ndpctl_run.specs.Settings.{AreSettings, default_lifetime};
ghost use Rattle.ndpctl_run.specs.Words.{words_of};

use crate::flags::read_router_flags;
use crate::number::{read_byte, read_u16, read_u16_or, read_u32};
use crate::words::{four_words, split_word};
use nd_advertiser::{Config, ConfigFlags};

/// MaxRtrAdvInterval by default, in seconds (RFC 4861, section 6.2.1).
const DEFAULT_MAX_INTERVAL: u16 = 600;

/// AdvDefaultLifetime by default, in MaxRtrAdvIntervals (RFC 4861, section 6.2.1).
const DEFAULT_LIFETIME_INTERVALS: u16 = 3;

/// The words of settings, in their order.
#[derive(Clone, Copy)]
struct SettingsWords<'a> {
    min: &'a [u8],
    max: &'a [u8],
    lifetime: &'a [u8],
    hop_limit: &'a [u8],
    flags: &'a [u8],
    reachable: &'a [u8],
    retrans: &'a [u8],
    mtu: &'a [u8],
}

/// Returns the words of a text of eight words.
fn settings_words(text: &[u8]) -> Option<SettingsWords<'_>>
    ensures found { IfSome result (λ w. words_of text.now ≡ w.min.now ∷ w.max.now ∷ w.lifetime.now ∷ w.hop_limit.now ∷ w.flags.now ∷ w.reachable.now ∷ w.retrans.now ∷ w.mtu.now ∷ []) }
    ensures only { length (words_of text.now) ≡ 8 → IsSome result }
{
    let (min, rest) = split_word(text)?;
    let (max, rest) = split_word(rest)?;
    let (lifetime, rest) = split_word(rest)?;
    let (hop_limit, rest) = split_word(rest)?;
    let (flags, reachable, retrans, mtu) = four_words(rest)?;
    Some(SettingsWords {
        min,
        max,
        lifetime,
        hop_limit,
        flags,
        reachable,
        retrans,
        mtu,
    })
}

/// Returns the router lifetime that a word spells, in seconds; `-` spells three times MaxRtrAdvInterval.
fn read_lifetime(word: &[u8], max_interval: u16) -> Option<u16>
    ensures found { IfSome result (λ n. IsNumberOr (default_lifetime max_interval) (2 ^ 16) word.now n) }
    ensures only { (n : ℕ) → n < 2 ^ 16 → IsNumberOr (default_lifetime max_interval) (2 ^ 16) word.now n → result ≡ Some n }
{
    if word == b"-".as_slice() {
        return DEFAULT_LIFETIME_INTERVALS.checked_mul(max_interval);
    }
    read_u16(word)
}

/// Returns the settings that the words of a text spell: MinRtrAdvInterval, MaxRtrAdvInterval and AdvDefaultLifetime in seconds, AdvCurHopLimit, the
/// flags with the preference, AdvReachableTime and AdvRetransTimer in milliseconds, and AdvLinkMTU in bytes, 0 standing for none (RFC 4861, section
/// 6.2.1).
pub(crate) fn read_settings(text: &[u8]) -> Option<Config>
    ensures found { IfSome result (λ settings. AreSettings text.now settings) }
    ensures only { (settings : Settings) → AreSettings text.now settings → result ≡ Some settings }
{
    let words = settings_words(text)?;
    let min_interval = read_u16(words.min)?;
    let max_interval = read_u16_or(words.max, DEFAULT_MAX_INTERVAL)?;
    let lifetime = read_lifetime(words.lifetime, max_interval)?;
    let hop_limit = read_byte(words.hop_limit)?;
    let (managed, other, preference) = read_router_flags(words.flags)?;
    let reachable_time = read_u32(words.reachable)?;
    let retrans_timer = read_u32(words.retrans)?;
    let mtu = read_u32(words.mtu)?;
    Config::new(
        min_interval,
        max_interval,
        lifetime,
        hop_limit,
        ConfigFlags {
            managed,
            other,
            preference,
        },
        reachable_time,
        retrans_timer,
        mtu,
    )
    .ok()
}
