//! Parts bytes into the pieces that are options. The definitions are in `specs/Whole.antt`.

ghost use Rattle.std.specs.Prelude.{◌≡◌, MatchOption, take, drop, true, false, [], IfSome};
ghost use Rattle.nd_decode.specs.Pieces.{fault_of};
ghost use Rattle.nd_decode.specs.Whole.{begins_whole, piece_length, rest_in};

use nd_addr::Why;

/// Returns the first piece, and the bytes after it, if they begin with a whole one.
fn split_piece(bytes: &[u8]) -> Option<(&[u8], &[u8])>
    ensures { MatchOption result (begins_whole bytes.now ≡ false) (λ p. (begins_whole bytes.now ≡ true)
        × (p.0.now ≡ take (piece_length bytes.now) bytes.now) × (p.1.now ≡ drop (piece_length bytes.now) bytes.now)) }
{
    if bytes.len() < 2 || bytes[1] == 0 {
        return None;
    }
    let length = 8 * bytes[1] as usize;
    if bytes.len() < length {
        return None;
    }
    Some(bytes.split_at(length))
}

/// Returns the same of bytes that are whole pieces.
pub(crate) fn split_whole(bytes: &[u8]) -> Option<(&[u8], &[u8])>
    requires { rest_in bytes.now ≡ [] }
    ensures split { MatchOption result (begins_whole bytes.now ≡ false) (λ p. (begins_whole bytes.now ≡ true)
        × (p.0.now ≡ take (piece_length bytes.now) bytes.now) × (p.1.now ≡ drop (piece_length bytes.now) bytes.now)) }
    ensures whole { IfSome result (λ p. rest_in p.1.now ≡ []) }
{
    if bytes.is_empty() {
        return None;
    }
    Some(bytes.split_at(8 * bytes[1] as usize))
}

/// Returns what is wrong with the first option that is not whole: `OptionZero` or `OptionOver`.
#[tactic(auto, using(crate::proofs::Walk::rest_in_step, crate::proofs::Walk::rest_in_stop))]
pub(crate) fn fault_in(bytes: &[u8]) -> Option<Why>
    ensures { result ≡ fault_of (rest_in bytes.now) }
{
    let mut rest = bytes;
    while let Some((_, after)) = split_piece(rest) {
        rest = after;
    }
    if rest.is_empty() {
        return None;
    }
    if rest.len() >= 2 && rest[1] == 0 {
        return Some(Why::OptionZero);
    }
    Some(Why::OptionOver)
}
