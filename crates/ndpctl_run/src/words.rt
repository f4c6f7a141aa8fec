//! The words of a text.

ghost use Rattle.std.specs.Prelude.{◌≡◌, [], ◌∷◌, length, IsSome, IfSome, MatchOption};
ghost use Rattle.ndpctl_run.specs.Words.{HasNoSpace, IsParted, words_of};

/// Returns the first word of a text and what follows its space, if the text has a space.
pub fn split_word(text: &[u8]) -> Option<(&[u8], &[u8])>
    ensures { MatchOption result (HasNoSpace text.now) (λ parts. IsParted text.now parts.0.now parts.1.now) }
{
    for (i, byte) in text.iter().enumerate() {
        if *byte == b' ' {
            return Some((&text[..i], &text[i + 1..]));
        }
    }
    None
}

/// Returns the words of a text of two words.
pub fn two_words(text: &[u8]) -> Option<(&[u8], &[u8])>
    ensures found { IfSome result (λ words. words_of text.now ≡ words.0.now ∷ words.1.now ∷ []) }
    ensures only { length (words_of text.now) ≡ 2 → IsSome result }
{
    let (first, second) = split_word(text)?;
    match split_word(second) {
        Some(_) => None,
        None => Some((first, second)),
    }
}

/// Returns the words of a text of three words.
pub(crate) fn three_words(text: &[u8]) -> Option<(&[u8], &[u8], &[u8])>
    ensures found { IfSome result (λ words. words_of text.now ≡ words.0.now ∷ words.1.now ∷ words.2.now ∷ []) }
    ensures only { length (words_of text.now) ≡ 3 → IsSome result }
{
    let (first, rest) = split_word(text)?;
    let (second, third) = two_words(rest)?;
    Some((first, second, third))
}

/// Returns the words of a text of four words.
pub(crate) fn four_words(text: &[u8]) -> Option<(&[u8], &[u8], &[u8], &[u8])>
    ensures found { IfSome result (λ words. words_of text.now ≡ words.0.now ∷ words.1.now ∷ words.2.now ∷ words.3.now ∷ []) }
    ensures only { length (words_of text.now) ≡ 4 → IsSome result }
{
    let (first, rest) = split_word(text)?;
    let (second, rest) = split_word(rest)?;
    let (third, fourth) = two_words(rest)?;
    Some((first, second, third, fourth))
}
