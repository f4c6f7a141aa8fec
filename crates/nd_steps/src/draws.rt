//! Random delays and times, each drawn by the next word of the generator.

ghost use Rattle.std.specs.Prelude.{◌≡◌, ◌≤◌, ◌<◌, ◌^◌};
ghost use Rattle.rand_core.specs.Stream.{next_u32};
ghost use Rattle.nd_chronicle.specs.Generator.{answer_delay_drawn, drawn_from, interval_drawn, reachable_drawn};

use nd_advertiser::Config;
use nd_params::reachable_range;
use rand_core::Rng;

/// The longest delay of the first solicitation for an address, in milliseconds (RFC 4861, section 10; RFC 4862, section 5.4.2).
pub const MAX_RTR_SOLICITATION_DELAY: u64 = 1_000;

/// Draws a number from `least` to `greatest`, both included, by the next word of the generator.
pub fn drawn_from<R: Rng>(generator: &mut R, least: u64, greatest: u64) -> u64
    requires order { least ≤ greatest }
    requires room { greatest < 2 ^ 62 }
    ensures value { result ≡ drawn_from least greatest (R.stream generator.old) }
    ensures left { R.stream generator.new ≡ (next_u32 (R.stream generator.old)).1 }
    ensures least { least ≤ result }
    ensures greatest { result ≤ greatest }
{
    let word = generator.next_u32();
    least + u64::from(word) % (greatest - least + 1)
}

/// Draws ReachableTime for a base, both in milliseconds, by the next word of the generator (RFC 4861, section 6.3.2).
pub fn reachable_drawn<R: Rng>(generator: &mut R, base: u32) -> u64
    ensures value { result ≡ reachable_drawn base (R.stream generator.old) }
    ensures left { R.stream generator.new ≡ (next_u32 (R.stream generator.old)).1 }
    ensures below { result < 2 ^ 62 }
{
    let range = reachable_range(base);
    drawn_from(generator, range.0, range.1)
}

/// The longest delay of the answer to a Router Solicitation, in milliseconds (RFC 4861, section 10).
const MAX_RA_DELAY_TIME: u64 = 500;

/// Draws the delay of the answer to a Router Solicitation, in milliseconds, by the next word of the generator (RFC 4861, section 6.2.6).
pub fn answer_delay_drawn<R: Rng>(generator: &mut R) -> u32
    ensures value { result ≡ answer_delay_drawn (R.stream generator.old) }
    ensures left { R.stream generator.new ≡ (next_u32 (R.stream generator.old)).1 }
{
    drawn_from(generator, 0, MAX_RA_DELAY_TIME) as u32
}

/// Draws the time until the next Router Advertisement, in milliseconds, by the next word of the generator (RFC 4861, section 6.2.4).
pub fn interval_drawn<R: Rng>(generator: &mut R, config: Config) -> u32
    ensures value { result ≡ interval_drawn config (R.stream generator.old) }
    ensures left { R.stream generator.new ≡ (next_u32 (R.stream generator.old)).1 }
    ensures positive { 0 < result }
{
    let range = config.interval();
    drawn_from(generator, range.0, range.1) as u32
}
