//! The text that names a source of random words.

ghost use Rattle.std.specs.Prelude.{◌≡◌, Some, IfSome};
ghost use Rattle.nd_random.specs.declared.source.Source.{Source};
ghost use Rattle.ndpctl_run.specs.Source.{IsSource};

use crate::number::read_labelled;
use nd_random::Source;

/// Returns the source that a text names: `seed:` and the number that seeds PCG32, below 2^64, or `word:` and the word, below 2^32, each in
/// decimal digits with no sign and no leading zero. No other text names any.
pub fn read_source(text: &[u8]) -> Option<Source>
    ensures found { IfSome result (λ source. IsSource text.now source) }
    ensures only { (source : Source) → IsSource text.now source → result ≡ Some source }
{
    if let Some(number) = read_labelled(text, b"seed:") {
        return Some(Source::seeded(number));
    }
    let word = read_labelled(text, b"word:")?;
    if word > u32::MAX as u64 {
        return None;
    }
    Some(Source::Constant(word as u32))
}
