//! What a node is opened with, from C. The definitions are in `specs/Options.antt`.

ghost use Rattle.std.specs.Prelude.{◌≡◌, ◌<◌, ◌↔◌, ◌^◌, IfSome, IsTrue, false};
ghost use Rattle.std.specs.List.{AllPass};
ghost use Rattle.std.specs.Option.{SomeIff};
ghost use Rattle.nd_decode.specs.Option.{is_set};
ghost use Rattle.nd_chronicle.specs.Start.{no_policies};
ghost use Rattle.nd_c_types.specs.Limits.{number_or};
ghost use Rattle.nd_c_types.specs.Options.{are_draws, are_policies, draws_in, is_well_formed, is_zero, opening_in, policies_in, options_in, AreOptions, AreWellFormed, IsKnown};

use crate::bytes::{byte_at, u32_at, u64_at};
use crate::header::{
    DRAWS_SEED, DRAWS_WORD, MOMENT_LIMIT, POLICY_ASKED, POLICY_LIFETIMES, POLICY_PARTS,
    POLICY_SELF, POLICY_SPEAKERS, POLICY_STRICT, POLICY_TIMERS, POLICY_UNFORMED, POLICY_UNICAST,
    POLICY_UNREDIRECTED,
};
use crate::limits::Limits;
use crate::role::role_of;
use nd_addr::{Mac, Role};
use nd_heard::header::ROLE_ROUTER;
use nd_node::{Limits as NodeLimits, Policies};
use nd_slaac::Transmits;

/// The number of bytes of the structure.
const SIZE: usize = 72;

/// The greatest number of solicitations.
const MOST_TRANSMITS: u8 = 8;

/// The number of solicitations that 0 means.
const USUAL_TRANSMITS: u8 = 1;

/// The first version of the leases that 0 means.
const USUAL_LEASE_VERSION: u64 = 1;

/// What a node is opened with: `nd_options` of the header.
#[repr(C)]
#[derive(Clone, Copy, Drop)]
pub struct Options {
    /// ND_ROLE_HOST or ND_ROLE_ROUTER.
    pub role: u32,
    pub mac: [u8; 6],
    /// 1 to 8, or 0 for 1.
    pub transmits: u8,
    /// ND_DRAWS_SEED or ND_DRAWS_WORD.
    pub draws: u8,
    /// The policies: a sum of ND_POLICY_TIMERS and its like.
    pub policies: u32,
    /// The moment of the start, in milliseconds.
    pub start: u64,
    /// The seed, or the word, below 2^32.
    pub seed: u64,
    pub limits: Limits,
    /// The first version of the leases, or 0 for 1.
    pub lease_version: u64,
}

/// The source of a node's random words.
#[derive(Clone, Copy, Debug, PartialEq, Eq)]
pub enum Draws {
    /// The generator PCG32, with this seed.
    Seed(u64),
    /// This word each time.
    Word(u32),
}

/// What a node is opened with, by the library's own types.
#[derive(Clone, Copy, Debug, PartialEq, Eq)]
pub struct Opening {
    pub role: Role,
    pub mac: Mac,
    /// The moment of the start, in milliseconds.
    pub start: u64,
    pub transmits: Transmits,
    pub limits: NodeLimits,
    pub policies: Policies,
    pub draws: Draws,
    /// The first version of the leases.
    pub lease_version: u64,
}

impl Options {
    /// Reads the structure from its bytes.
    fn read(bytes: &[u8]) -> Options
        ensures { result ≡ options_in bytes.now }
    {
        Options {
            role: u32_at(bytes, 0),
            mac: [
                byte_at(bytes, 4),
                byte_at(bytes, 5),
                byte_at(bytes, 6),
                byte_at(bytes, 7),
                byte_at(bytes, 8),
                byte_at(bytes, 9),
            ],
            transmits: byte_at(bytes, 10),
            draws: byte_at(bytes, 11),
            policies: u32_at(bytes, 12),
            start: u64_at(bytes, 16),
            seed: u64_at(bytes, 24),
            limits: Limits::read(bytes),
            lease_version: u64_at(bytes, 64),
        }
    }

    /// Returns what the structure asks for, with the usual numbers in place of 0. Returns `None` if a field is outside its range.
    fn opening(&self) -> Option<Opening>
        ensures value { SomeIff result (AreWellFormed self.now) (opening_in self.now) }
        ensures moment { IfSome result (λ opening. opening.start < 2 ^ 62) }
    {
        if !self.is_well_formed() {
            return None;
        }
        let limits = self.limits.chosen()?;
        let role = role_of(self.role)?;
        let transmits = Transmits::new(transmits_of(self.transmits))?;
        Some(Opening {
            role,
            mac: Mac(self.mac),
            start: self.start,
            transmits,
            limits,
            policies: policies_of(self.policies),
            draws: draws_of(self.draws, self.seed),
            lease_version: version_of(self.lease_version),
        })
    }

    /// Returns true if each field but the limits is within its range.
    fn is_well_formed(&self) -> bool
        ensures { result ≡ is_well_formed self.now }
    {
        self.role <= ROLE_ROUTER
            && self.transmits <= MOST_TRANSMITS
            && are_draws(self.draws, self.seed)
            && are_policies(self.policies)
            && self.start < MOMENT_LIMIT
    }
}

impl Opening {
    /// Returns what the bytes of `nd_options` ask for, with the usual numbers in place of 0, and 0 in place of bytes that are not there. Returns `None`
    /// if a field is outside its range, or a byte behind the structure is not 0: a later version has a field there.
    pub fn of(options: &[u8]) -> Option<Opening>
        ensures value { SomeIff result (AreOptions options.now) (opening_in (options_in options.now)) }
        ensures moment { IfSome result (λ opening. opening.start < 2 ^ 62) }
    {
        if !is_known(options) {
            return None;
        }
        let opening = Options::read(options).opening()?;
        Some(opening)
    }
}

/// Returns true if each byte behind the structure is 0.
fn is_known(options: &[u8]) -> bool
    ensures { IsTrue result ↔ IsKnown options.now }
{
    if options.len() <= SIZE {
        return true;
    }
    are_zeros(&options[SIZE..])
}

/// Returns true if each byte is 0.
fn are_zeros(bytes: &[u8]) -> bool
    ensures { IsTrue result ↔ AllPass is_zero bytes.now }
{
    bytes.iter().all(|byte| *byte == 0)
}

/// Returns the number of solicitations: 1 in place of 0.
fn transmits_of(number: u8) -> u8
    ensures { result ≡ number_or number 1 }
{
    if number == 0 { USUAL_TRANSMITS } else { number }
}

/// Returns the first version of the leases: 1 in place of 0.
fn version_of(number: u64) -> u64
    ensures { result ≡ number_or number 1 }
{
    if number == 0 {
        USUAL_LEASE_VERSION
    } else {
        number
    }
}

/// Returns true if `draws` is ND_DRAWS_SEED, or ND_DRAWS_WORD with a word below 2^32.
fn are_draws(draws: u8, seed: u64) -> bool
    ensures { result ≡ are_draws draws seed }
{
    draws == DRAWS_SEED || (draws == DRAWS_WORD && seed <= u64::from(u32::MAX))
}

/// The policies that a node can have.
const POLICIES: u32 = POLICY_PARTS
    | POLICY_SPEAKERS
    | POLICY_TIMERS
    | POLICY_SELF
    | POLICY_UNICAST
    | POLICY_UNFORMED
    | POLICY_ASKED
    | POLICY_LIFETIMES
    | POLICY_UNREDIRECTED
    | POLICY_STRICT;

/// Returns true if no bit is set but those of policies that a node can have.
fn are_policies(bits: u32) -> bool
    ensures { result ≡ are_policies bits }
{
    bits & !POLICIES == 0
}

/// Returns the policies whose bits are set.
#[tactic(auto, unfolding(crate::specs::Options::policies_in))]
fn policies_of(bits: u32) -> Policies
    ensures { result ≡ policies_in bits }
{
    with_sender_policies(bits, link_policies_of(bits))
}

/// Returns those whose bits are set of the policies `parts`, `speakers`, `timers`, `self` and `unicast`.
fn link_policies_of(bits: u32) -> Policies
    ensures { result ≡ record no_policies { parts = is_set bits 1; speakers = is_set bits 2; timers = is_set bits 4; own = is_set bits 8; unicast = is_set bits 16 } }
{
    let none = Policies::none();
    let parts = if bits & POLICY_PARTS == 0 {
        none
    } else {
        none.with_parts()
    };
    let speakers = if bits & POLICY_SPEAKERS == 0 {
        parts
    } else {
        parts.with_speakers()
    };
    let timers = if bits & POLICY_TIMERS == 0 {
        speakers
    } else {
        speakers.with_timers()
    };
    let own = if bits & POLICY_SELF == 0 {
        timers
    } else {
        timers.with_own()
    };
    if bits & POLICY_UNICAST == 0 {
        own
    } else {
        own.with_unicast()
    }
}

/// Returns these policies with those whose bits are set of `unformed`, `asked`, `lifetimes`, `unredirected` and `strict`, of which it has none.
fn with_sender_policies(bits: u32, policies: Policies) -> Policies
    requires { record policies { unformed = false; asked = false; lifetimes = false; unredirected = false; strict = false } ≡ policies }
    ensures { result ≡ record policies { unformed = is_set bits 32; asked = is_set bits 512; lifetimes = is_set bits 2048; unredirected = is_set bits 4096; strict = is_set bits 8192 } }
{
    let unformed = if bits & POLICY_UNFORMED == 0 {
        policies
    } else {
        policies.with_unformed()
    };
    let asked = if bits & POLICY_ASKED == 0 {
        unformed
    } else {
        unformed.with_asked()
    };
    let lifetimes = if bits & POLICY_LIFETIMES == 0 {
        asked
    } else {
        asked.with_lifetimes()
    };
    let unredirected = if bits & POLICY_UNREDIRECTED == 0 {
        lifetimes
    } else {
        lifetimes.with_unredirected()
    };
    if bits & POLICY_STRICT == 0 {
        unredirected
    } else {
        unredirected.with_strict()
    }
}

/// Returns where the random words come from.
fn draws_of(draws: u8, seed: u64) -> Draws
    requires { IsTrue (are_draws draws seed) }
    ensures { result ≡ draws_in draws seed }
{
    if draws == DRAWS_SEED {
        Draws::Seed(seed)
    } else {
        Draws::Word(seed as u32)
    }
}
