//! The sources of a node's random words.

use rand_core::utils::NextWord;
use rand_core::{Rng, SeedableRng, utils};
use rand_pcg::Pcg32;

/// The source of the random words of a node.
#[derive(Drop)]
pub enum Source {
    /// The generator PCG32.
    Seeded(Pcg32),
    /// The same word each time.
    Constant(u32),
}

impl Source {
    ghost use Rattle.std.specs.Prelude.{◌≡◌};
    ghost use Rattle.nd_random.specs.declared.source.Source.TheVariants.{Seeded};
    ghost use Rattle.nd_random.specs.Source.{seeded};

    /// Returns PCG32 from a seed.
    pub fn seeded(seed: u64) -> Source
        ensures { result ≡ Seeded (seeded seed) }
    {
        Source::Seeded(Pcg32::seed_from_u64(seed))
    }
}

impl NextWord<u32> for Source {
    ghost use Rattle.nd_random.specs.Source.{next_word};

    ghost step = { next_word };

    fn next_word(&mut self) -> u32 {
        match self {
            Source::Seeded(generator) => generator.next_word(),
            Source::Constant(word) => *word,
        }
    }
}

impl Rng for Source {
    ghost use Rattle.nd_random.specs.Source.{stream_of_source};

    ghost stream = { stream_of_source };

    fn next_u32(&mut self) -> u32 {
        self.next_word()
    }

    fn next_u64(&mut self) -> u64 {
        utils::next_u64_via_u32(self)
    }

    fn fill_bytes(&mut self, dst: &mut [u8]) {
        utils::fill_bytes_via_u32(self, dst)
    }
}
