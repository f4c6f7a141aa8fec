//! A law of all sources of words: the contract of a function that does nothing.

ghost use Rattle.std.specs.Prelude.{◌≡◌, ℕ};
ghost use Rattle.rand_core.specs.Stream.{next_u32};
ghost use Rattle.rand_pcg.specs.Lcg.{Lcg};
ghost use Rattle.rand_pcg.specs.Pcg.{pcg32};
ghost use Rattle.nd_random.specs.declared.source.Source.TheVariants.{Seeded, Constant};
ghost use Rattle.nd_random.specs.Source.{stream_of_source};

/// The next word of a source is that of its generator, which advances one step, or the word that is given each time.
pub fn next_words()
    ensures seeded { (generator : Lcg) → next_u32 (stream_of_source (Seeded generator))
        ≡ ((pcg32 generator).0, stream_of_source (Seeded (pcg32 generator).1)) }
    ensures constant { (word : ℕ) → next_u32 (stream_of_source (Constant word)) ≡ (word, stream_of_source (Constant word)) }
{}
