//! The words for the policies of a node.

ghost use Rattle.std.specs.Prelude.{◌≡◌, Some};
ghost use Rattle.ndpctl_run.specs.Policies.{policies_of, with_all, with_named, words_in};

use nd_node::Policies;

/// Returns the policies with the one that a word names, unless it names none, or one that is among them.
fn with_named(word: &str, policies: Policies) -> Option<Policies>
    ensures { result ≡ with_named word.now (Some policies) }
{
    match word {
        "parts" if !policies.parts() => Some(policies.with_parts()),
        "speakers" if !policies.speakers() => Some(policies.with_speakers()),
        "timers" if !policies.timers() => Some(policies.with_timers()),
        "self" if !policies.own() => Some(policies.with_own()),
        "unicast" if !policies.unicast() => Some(policies.with_unicast()),
        "unformed" if !policies.unformed() => Some(policies.with_unformed()),
        "asked" if !policies.asked() => Some(policies.with_asked()),
        "lifetimes" if !policies.lifetimes() => Some(policies.with_lifetimes()),
        "unredirected" if !policies.unredirected() => Some(policies.with_unredirected()),
        "strict" if !policies.strict() => Some(policies.with_strict()),
        _ => None,
    }
}

/// Returns the policies with those that the words of a text name, unless one of them names none, or one that is among them.
fn with_words(text: &str, policies: Policies) -> Option<Policies>
    ensures { result ≡ with_all (words_in text.now) (Some policies) }
{
    match text.split_once(',') {
        Some((word, rest)) => with_words(rest, with_named(word, policies)?),
        None => with_named(text, policies),
    }
}

/// Returns the policies that a text names: words that are parted by commas, each once.
pub fn read_policies(text: &str) -> Option<Policies>
    ensures { result ≡ policies_of text.now }
{
    with_words(text, Policies::none())
}
