//! The words of a script that spell the role of a node on its link.

ghost use Rattle.std.specs.Prelude.{◌≡◌, List, ℕ, Some, IfSome};
ghost use Rattle.std.specs.Option.{IsSomeAnd};
ghost use Rattle.ndpctl_run.specs.Words.{Parts};
ghost use Rattle.ndpctl_link.specs.Role.{role_word};

use nd_addr::Role;
use ndpctl_run::split_word;

/// Returns the role that a word names.
fn read_role(word: &[u8]) -> Option<Role>
    ensures found { IfSome result (λ role. word.now ≡ role_word role) }
    ensures only { (role : Role) → word.now ≡ role_word role → result ≡ Some role }
{
    if word == b"host".as_slice() {
        return Some(Role::Host);
    }
    if word == b"router".as_slice() {
        return Some(Role::Router);
    }
    None
}

/// Returns the role that the first word of a text names, and what follows its space.
pub(crate) fn split_role(text: &[u8]) -> Option<(Role, &[u8])>
    ensures found { IfSome result (λ parts. Parts text.now (λ word. word ≡ role_word parts.0) (λ rest. rest ≡ parts.1.now)) }
    ensures only { (role : Role) (rest : List ℕ) → Parts text.now (λ word. word ≡ role_word role) (λ r. r ≡ rest)
        → IsSomeAnd result (λ parts. (parts.0 ≡ role) × (parts.1.now ≡ rest)) }
{
    let (word, rest) = split_word(text)?;
    let role = read_role(word)?;
    Some((role, rest))
}
